//! Plays the worked examples of workers: boards in threads of their own serve the desks of a hand-off
//! table, while a gate says when they go on.
//!
//! The arguments name files of `data/`. `play_with` of `cam6_try_examples` says what they ask for, and
//! does all but the way. The program makes no claim of its own beyond being safe.
//!
//! Stands on: `cam6_try_examples`, how files are read and compared; `cam6_pool`, the workers;
//! `cam6_handoff`, `cam6_board`, `cam6_cache`, `cam6_slot`, `cam6_wire` and what they stand on.
//!
//! Read next: `data/`, the examples; `ways`, how they are played; `hosts`, what a line asks for;
//! `users` and `workers`, who have threads of their own; `shares`, all that threads share, with
//! `gates`, `holds` and `boards`; then `threads`.
#![tactic(auto)]

mod boards;
mod gates;
mod holds;
mod hosts;
mod shares;
mod threads;
mod users;
mod ways;
mod workers;

use cam6_try_examples::{Sent, play_with};
use std::io;
use std::process::ExitCode;
use ways::WorkerWay;

/// Plays the examples of workers that the arguments name.
fn main(rt: HostRuntime) -> io::Result<ExitCode> {
    play_with(&rt, &|way: &WorkerWay, sent: &[Sent]| way.played(rt, sent))
}
