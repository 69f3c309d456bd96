//! Workers: each serves the users of a hand-off table with its board, in a thread of its own.
//!
//! Contract: `serve_board` ends with a seat that holds no lease and with a board that holds no job. It
//! ends as `Ended::Dead` only if the board's count of faults rose (`specs/Ending.antt`). That holds
//! whatever the gate answers and whatever other threads do. Its seat accepts whatever it puts back or
//! reports as done. So each lease goes back whole, or from its home, or done, to its user. On the way
//! the seat and the board agree as `Serves` says (`specs/Serving.antt`). The call may wait, for the
//! cache's lock and at its gate, and need not return.
//!
//! Users come round robin (`specs/Rounds.antt`). A round of looks begins at the user after the one whose
//! command was taken last, and passes over nobody twice. So as long as a user is neither taken nor
//! passed over, a worker takes fewer others than there are users (`laws`). No contract says that a
//! command that waits isn't passed over, that a worker keeps its round from take to take, or that
//! it runs.
//!
//! So, if the gate stops a worker in the middle of a step: the worker puts the step back half done and
//! ends. Another worker takes it and does the rest of its bands. If the board fails instead, all
//! steps since the home are put back.
//!
//! Stands on: `cam6_handoff`, the seats; `cam6_station`, boards with their leases; `cam6_board`,
//! `cam6_slot`, `cam6_cache`, the tables that workers share, and their lock; `cam6_band`,
//! `cam6_commands`, `cam6_model` and `cam6_planes`.
//!
//! Read next: `gates`, what a worker asks before it goes on; `rounds`, a seat that looks at users
//! in turn; `workers`; `slices`, the gate of a host; then `laws`.
#![tactic(auto)]

mod gates;
pub mod laws;
mod rounds;
mod slices;
mod workers;

pub use gates::{Gate, Turn};
pub use slices::{Rung, SlicingGate};
pub use workers::{Ended, serve_board};
