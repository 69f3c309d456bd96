//! All users and all boards, whatever happens: commands, leases, bands, failures and repairs of
//! boards, tables that leave the cache, and replies that are collected.
//!
//! Contract: `specs/Refusals.antt` has a table of the refused events, by where users and boards
//! stand. A refused event changes nothing. A model of private machines says what every other event
//! does to users and boards (`specs/Model.antt`). The model has no image, job, table or cache, and
//! its replies are those of each user's own machine. `Core::apply` follows every model that the
//! core agreed with before (`goes`, `specs/Goes.antt`). The outcome is the model's, and the core
//! agrees with the model after the event (`specs/Good.antt`). An event changes one user and one
//! board at most (`others`). Only an ask may run out of memory, and then nothing changes. `run`
//! applies any list of events. From a new core, the replies that a user is given are, in order,
//! those of their private machine to their accepted commands (`headline`, `specs/Headline.antt`).
//! A waiting user lacks the last one. The outcome of each event is the model's, with the bands that
//! are left (`count`, `specs/Runs.antt`).
//!
//! The laws: events that are applied one after another have the headline and the count. Two lists
//! of events that agree on a user's accepted commands give that user equal replies, as far as both
//! have replied.
//!
//! So, with two users and a board: user 1 asks for a run of one step at side 256, which has 16
//! bands. After a lease, three bands and a preemption, 13 bands are left. User 2 may use the board
//! meanwhile. After another lease and 13 more bands, user 1 collects the reply that their private
//! machine would give.
//!
//! Stands on: `cam6_station`, `cam6_slot`, `cam6_board`, `cam6_cache` and what they stand on.
//!
//! Read next: `Event`, `Outcome` and `Refused` of `cam6_commands`; `parts`, what a core holds, with
//! `soft_stations`, its boards; `start`; `refusals`; `applying`, event by event, with `users_and_boards`, by which they go about
//! it; then `runs` and `laws`.
#![tactic(auto)]

mod applying;
pub mod laws;
mod parts;
mod refusals;
mod runs;
mod soft_stations;
mod start;
mod users_and_boards;

pub use cam6_commands::{Event, MAX_BOARDS, MAX_USERS, Outcome, Refused};
pub use parts::{Core, Whereabouts};
pub use runs::run;
