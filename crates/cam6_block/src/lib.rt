//! Blocks of the Margolus neighbourhoods, and the table that undoes them.
//!
//! Contract: at each phase a table maps the states of a block to states (`specs/BlockMaps.antt`).
//! `invert` writes the table that gives each corner its bits of the state that the block came from
//! (`specs/Inverted.antt`). If there is no such table, it returns the reason, and which block
//! states show it (`specs/Refusals.antt`). `fill_by` writes a rule's table by direction: forward
//! the one of its words, backward the one that undoes them (`specs/RuleTables.antt`). Neither
//! allocates. The laws: a true table has the block map of its rule. A one-to-one map of block
//! states takes each state. Two corners that show one address agree. There is one inverted table,
//! and it gives each block back.
//!
//! So, by the rule `: R CW >PLN0 ;` each cell takes what the next one clockwise was. The inverted
//! table gives each cell what the next one counter-clockwise is. There is no inverted table of
//! `: R CENTER CW AND >PLN0 ;`, for at phase 0 the block states 0 and 1 both become 0.
//!
//! Stands on: `cam6_wiring`, `cam6_entries`, `cam6_forth`, `cam6_table` and `cam6_cycle`.
//!
//! Read next: `corners`, what a corner of a block sees; `successors`; `refusals`; then `inverses`
//! and `rule_tables`; and `laws`.
#![tactic(auto)]

mod corners;
mod inverses;
pub mod laws;
mod refusals;
mod rule_tables;
mod successors;

pub use inverses::invert;
pub use refusals::NotReversible;
pub use rule_tables::fill_by;
