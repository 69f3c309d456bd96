//! The arguments of `cam6_web`, and the exit status of a server that can't go on.
//!
//! Contract: `options_of_web` reads the arguments as `clap` takes them (`specs/Words.antt`). Each
//! option is the number, the side or the texts at its argument, or the default. Arguments are refused
//! only if `clap` refuses them, if a value is wrong, or if memory runs out (`Refuses` of
//! `cam6_arguments`). `fault_of` returns the exit status of a server that can't go on
//! (`specs/Statuses.antt`). It is that of `cam6` for the same cause.
//!
//! Stands on: `cam6_arguments`, for options and refusals; `cam6_planes`, for the sides; `clap`,
//! `thiserror`.
//!
//! Read next: `options`, what is asked for; `words`, the command line; `values`, what an argument says;
//! `statuses`.
#![tactic(auto)]

mod options;
mod statuses;
mod values;
mod words;

pub use options::Options;
pub use statuses::{Fault, fault_of};
pub use words::options_of_web;
