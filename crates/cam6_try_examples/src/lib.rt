//! The worked examples: how their files are read, and what is printed of them after they are
//! played.
//!
//! Contract: it makes no claim beyond being safe, but that a size is within its bounds (`size_of`).
//! A program plays the examples. It has the ways (`Way`) that its own files ask for, and says how
//! their lines are played (`Played`, or a closure that may start threads). `play` and `play_with` do
//! the rest.
//!
//! Stands on: `cam6_planes`, for sides, and `cam6_wiring`, for the words of a wiring.
//!
//! Read next: `examples`, a file line by line; `repeats`, its texts; `ways`, what a program has of
//! its own; `settings` and `answers`; `faults`; then `players`, and the programs `cam6_try_rules` and
//! `cam6_try_workers`, beside which the examples lie.
#![tactic(auto)]

mod answers;
mod examples;
mod faults;
mod players;
mod repeats;
mod settings;
mod ways;

pub use answers::{add_line, no_memory};
pub use examples::{Part, Sent, read_example};
pub use faults::Unplayable;
pub use players::{play, play_with};
pub use settings::{limit_of, side_of, size_of, wiring_before, wiring_of};
pub use ways::{Played, Way};
