//! Places: a command with steps that boards do. Each state that it is in has a type. A place stands
//! for the machine and the command with which it began.
//!
//! Contract: whatever is called, and whatever boards do, a place stands for every machine and every
//! command for which it stood before (`Stands`, `StandsOut` of `specs/Stands.antt`). What is
//! finished is that machine after that command, with its reply (`IsDone` of `specs/Finished.antt`).
//! No call knows which they are. A lease's job fits it (`JobFits` of `specs/Leases.antt`), and a
//! call needs no more to be safe. `left` is the number of bands that are still to be done
//! (`specs/Lefts.antt`). It falls by one with each band, and never otherwise. Only `ask` and `now`
//! allocate. If that fails, the machine is as it was, and `ask` returns it.
//!
//! So, for a run of two steps at side 256: after the ask it has 32 bands left. After a lease, 19
//! bands and a preempt it has 13 left: 16 of step 1 and 3 of step 2 are done. Step 2 is parked, and
//! the image at home is still that of the beginning. After another lease, one band and a loss it
//! has 32 left. A preempt after 16 bands would have moved its home, with 16 left.
//!
//! In the field's words, a type for each state is typestate: a call that ends a state takes its type
//! and returns that of the next one (Strom and Yemini, "Typestate: A Programming Language Concept for
//! Enhancing Software Reliability", IEEE Transactions on Software Engineering SE-12(1), 1986).
//!
//! A machine has two images. At work one is at home, with the planes of the last whole step at which
//! the command was taken off a board, and the other one travels.
//!
//! The laws: tables that are those needed, one by one, fit the lease; and a place has the side of
//! the machine for which it stands.
//!
//! Stands on: `cam6_machine` and `cam6_board`, and what they stand on.
//!
//! Read next: `resting`, with what comes of a command; `queued`, `leases` and `finished`; then
//! `works`, what all but the first have in common; `parked`; `needs`; and `laws`.
#![tactic(auto)]

mod finished;
pub mod laws;
mod leases;
mod needs;
mod parked;
mod queued;
mod resting;
mod works;

pub use finished::Finished;
pub use leases::Lease;
pub use needs::Need;
pub use parked::Parked;
pub use queued::Queued;
pub use resting::{Asked, Place, Resting};
pub use works::Milestone;
