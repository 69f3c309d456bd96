//! What a machine means. This crate has definitions and laws about them, and no code.
//!
//! Contract: a machine is four planes as sets of cells, rules by name, a cycle with a position, and
//! colours (`specs/Machine.antt`). One step changes all cells at once, by the words of the rules
//! (`specs/Steps.antt`). It can be undone if every rule is one of blocks, and no two states of a
//! block become one (`specs/Undoing.antt`). A command is refused for the first of its faults
//! (`specs/Refusals.antt`). If it has none, it has a reply and an effect (`specs/Effects.antt`). So
//! `reply`, `after` and `replies` say what a private machine replies to commands, and what it then
//! is (`specs/Alone.antt`).
//!
//! So, for a blank machine: it refuses a run of one step with `Fault::NoCycle`, and nothing
//! changes. Then come a rule R of half A, `: R NORTH >PLN0 ;`, a cycle of the one entry R, and a
//! cell set at row 5. Now the run has a reply with position 0, and the cell stands at row 6: each
//! cell took what its northern neighbour was.
//!
//! Nothing here knows packed rows, or the numbers by which code keeps rules. Only two laws know
//! tables (`specs/TrueTables.antt`). A step by the tables of its rules is the step by their words.
//! A step by the tables that undo its rules is a step undone.
//!
//! The laws (`laws`, `specs/Laws.antt`):
//!
//! - Steps that are done and undone, or undone and done, give the machine back.
//! - A back is accepted exactly if a run of as many steps is, and every rule of the cycle can be
//!   undone.
//! - A step by rules of blocks changes blocks as a whole.
//! - Whichever way a machine moves (`specs/Moves.antt`), only planes and position change. Steps add
//!   up, and the position goes round the cycle. A half without a rule keeps its planes.
//! - The blank machine is what a machine always is (`specs/Always.antt`). Any command in UTF-8
//!   keeps it so. No command changes the limit. The rules that a cycle names run, whatever is seen.
//! - What is saved of a machine is all of it but its limit (`specs/Saved.antt`). A machine loads it
//!   if its limit allows the saved side, and becomes that machine. Nothing else is loaded.
//! - If a machine is lost, any other one of its limit takes its place (`specs/Recovery.antt`). It
//!   loads what was saved and is given the commands since. The machine and all replies are then
//!   those of one list of commands. The law doesn't say that a client does this.
//!
//! Stands on: `cam6_planes`, `cam6_wiring`, `cam6_entries`, `cam6_forth`, `cam6_table`, `cam6_block`,
//! `cam6_cycle`, `cam6_band`, `cam6_view` and `cam6_commands`. Of `cam6_band` and `cam6_view` it uses
//! definitions alone.
//!
//! Read next: `specs/Lib.antt`, which lists the definitions in the order of reading; then `laws`.
#![tactic(auto)]

pub mod laws;
