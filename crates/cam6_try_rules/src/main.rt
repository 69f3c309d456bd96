//! Plays the worked examples that no session and no replay of `cam6` reaches: what lines say, rules
//! and their tables, what a cache keeps, and lists of events.
//!
//! The arguments name files of `data/`. `play` of `cam6_try_examples` says what they ask for, and does all
//! but the ways. After the argument `scarce` it does what takes memory, for runs in which an allocation
//! fails (`scarce`). The program makes no claim of its own beyond being safe. Tests of the
//! program `cam6` play sessions and events.
//!
//! Stands on: `cam6_try_examples`, how files are read and compared; `cam6_session`, `cam6_cache` and what
//! they stand on.
//!
//! Read next: `data/`, the examples; `ways`, how they are played; `readings` and `command_lines`;
//! `lists`; `rules`; then `scarce`, with `resumed`.
#![tactic(auto)]

mod command_lines;
mod lists;
mod readings;
mod resumed;
mod rules;
mod scarce;
mod ways;

use cam6_try_examples::play;
use std::io;
use std::process::ExitCode;
use ways::LineWay;

/// Plays the examples that the arguments name. If the first argument is `scarce`, does what the
/// others ask for as the module `scarce` says.
fn main(rt: HostRuntime) -> io::Result<ExitCode> {
    let words = std::env::args(&rt)?
        .skip(1)
        .collect::<Vec<String>>(rt.alloc())?;
    match words.as_slice() {
        [first, words @ ..] if first.as_str() == "scarce" => scarce::work(&rt, words),
        _ => play::<LineWay, HostRuntime>(&rt),
    }
}
