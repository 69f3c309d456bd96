//! What serves a lease: its tables, filled through the cache that users share, and a board that holds
//! its job.
//!
//! Contract: a station is idle, holds a lease with the job and the tables of its board, or is dead
//! (`specs/Held.antt`). These always fit, the tables are the true ones, and a band is left
//! (`HeldFits`). Each call says by cases what it does (`specs/Calls.antt`): a band goes on with what
//! is held or is the last one, and a command that is taken off waits again. If the board fails in a
//! call, the station is dead, and its command goes back to its home. The count of the board's faults
//! has risen then (`Rises`). All of it holds for whatever machine and command is stood for.
//! `Filling::fill` makes the tables that a lease needs, by way of the cache. Only the cache allocates,
//! and no call is refused. A station knows whose command it holds: a `User` has a number from 1 to 32,
//! and contracts see the number.
//!
//! So, of a run of one step at side 256: loaded, fifteen bands answer `More` with 15 to 1 bands
//! left, and the sixteenth `Last`, with the machine after the run and its reply; the station is idle
//! then.
//!
//! Stands on: `cam6_slot`, `cam6_board`, `cam6_cache` and what they stand on.
//!
//! Read next: `users`, by number; `fillings`; then `stations`.
#![tactic(auto)]

mod fillings;
mod stations;
mod users;

pub use fillings::Filling;
pub use stations::{Banded, Preempted, Station};
pub use users::User;
