//! Rules by name, cycles by the numbers of rules, and tables that know what they are filled for.
//!
//! Contract: `Rules` is a type with what rules always are as its invariant (`AreRules` of
//! `cam6_model`, a clause of `Rules::len`). `define` and `remove` are refused as the model says. If
//! not, `define` adds or replaces one rule, and `remove` drops one. The cycle's entries keep the
//! rules that they have. `cycle_of` is refused as the model says, or returns the entries with the
//! numbers of their rules (`specs/Numbers.antt`). `Tables::fill` fills a table for each use of a
//! rule, the true one for a way along the cycle, unless the tables are filled for it already. If a
//! rule can't be undone, it returns which one (`specs/Filled.antt`). `Rules::of` defines saved
//! rules one after another, or none of them. `Rules::saved` and `Rules::saved_entries` return rules
//! and a cycle's entries as they are saved. Memory is allocated only to keep a rule, to list rules
//! or entries, and to make tables.
//!
//! So, with no rules: `define` keeps R, `: R NORTH >PLN0 ;`, at the number 0, and a cycle of the
//! one entry R has this number. One table is filled to go forward along it. To go back is refused
//! for the entry 0, half A: the rule isn't one of blocks.
//!
//! The laws: an entry has the same rules by their numbers as by their names. If tables lie as the
//! cycle needs them, those of a position are the tables of its entry's rules. By them a machine
//! moves by one step, forward or backward.
//!
//! Stands on: `cam6_planes`, `cam6_wiring`, `cam6_forth`, `cam6_table`, `cam6_block`, `cam6_cycle`,
//! `cam6_commands`, `cam6_model`, on `cam6_band` for its definitions, and on `arrayvec` and
//! `indexmap`.
//!
//! Read next: `compiled`, a rule as it is kept; `rules`; `tables`; then how it is done: `named`,
//! `refusals`, `cycles`, `saving` and `filling`; and `laws`.
#![tactic(auto)]

mod compiled;
mod cycles;
mod filling;
pub mod laws;
mod named;
mod refusals;
mod rules;
mod saving;
mod tables;

pub use compiled::CompiledRule;
pub use cycles::entries_of;
pub use rules::{NotDefined, Rules};
pub use tables::Tables;
