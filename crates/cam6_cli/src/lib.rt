//! The modes of the program `cam6`: what its arguments ask for, what it does on streams, and how it
//! ends.
//!
//! Contract: `options` reads the arguments as `clap` takes them (`specs/CommandLine.antt`). It
//! reports an error of `clap` by `refusal` of `cam6_arguments`, with a hint about a slip
//! (`specs/Slips.antt`). `failure_of` and `fault_of` return the exit statuses of each end of a
//! session, and of a host that can't go on (`specs/Statuses.antt`). The contracts of `serve_streams`
//! and `replay_streams` say what is written for what is read, and that reads run out only if as many
//! bytes were read (`specs/Replays.antt`). They are those of `serve_alone` and `replay` in
//! `cam6_session`, with the program's bound on reads (`specs/Reads.antt`).
//!
//! Stands on: `cam6_arguments`, for options and refusals; `cam6_planes`, for the sides;
//! `cam6_commands`, for the numbers of users and boards; `cam6_cache`, for the number of its tables;
//! `cam6_core`, `cam6_session`, `cam6_server`, `clap`.
//!
//! Read next: `modes`, `words` and `slips`, the command line; then `streams` and `statuses`.
#![tactic(auto)]

mod modes;
mod slips;
mod statuses;
mod streams;
mod words;

pub use modes::{Options, Sharing};
pub use statuses::{failure_of, fault_of};
pub use streams::{replay_streams, serve_streams};
pub use words::options;
