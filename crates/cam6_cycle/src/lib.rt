//! Cycles of entries, which the steps of a run take in turn.
//!
//! Contract: a cycle is a list of 1 to 16 entries (`Cycle::new`). `go` returns the entry that a
//! step from a position uses, and the position after the step (`specs/Along.antt`). `forward` takes
//! the entry at the position and goes on to the next. `backward` goes back by one and takes the
//! entry there. Both go round the cycle. The law: going one way and then the other leads to the
//! same position, by the same entry. `tables_needed` lists a table for each use of a rule, entry by
//! entry, half A's before half B's (`specs/Tables.antt`). `tables_before` says where those of an
//! entry begin. `copy` has the same entries. No function allocates.
//!
//! So, take a cycle of two entries. The first has rule 0 for half A and rule 1 for half B, and the
//! second has rule 1 for half B alone. `forward(1)` takes the second and goes on to 0.
//! `backward(0)` takes the second and stands at 1. The cycle needs three tables, of the rules 0, 1
//! and 1. Those of the second entry begin after two.
//!
//! Stands on: `cam6_wiring`, and on `arrayvec`.
//!
//! Read next: `entries`; `tables`, one for each use of a rule; then `cycles`; and `laws`.
#![tactic(auto)]

mod cycles;
mod entries;
pub mod laws;
mod tables;

pub use cycles::{Cycle, CycleFault, MAX_ENTRIES};
pub use entries::{Entry, HalfRule};
pub use tables::{Direction, MAX_TABLES, NeededTable};
