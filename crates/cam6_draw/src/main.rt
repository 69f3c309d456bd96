//! The program `cam6_draw`: lines of replies on standard input, pictures on standard output.
//!
//! Contract: what the arguments ask for, and each end's exit status, are those of `cam6_draw_cli`.
//! `refuse` of `cam6_arguments` ends for arguments that ask for nothing. The bytes of a picture are
//! those of `Netpbm` and of `Terminal` in `cam6_show_pictures`. Which frames are shown, and how they
//! end, is the contract of `show_frames` in `cam6_show_frames`.
//!
//! Stands on: `cam6_arguments`, `cam6_draw_cli`, `cam6_show_pictures`, `cam6_show_frames`.
#![tactic(auto)]

use cam6_arguments::{NO_MEMORY, Program, Refused, read_arguments, refuse, report_failure};
use cam6_draw_cli::{DrawOptions, Way, options_of_draw, report_end};
use cam6_show_frames::show_frames;
use cam6_show_pictures::{Netpbm, Terminal};
use std::env::Env;
use std::io;
use std::io::BufReader;
use std::process::ExitCode;
use std::time::{Clock, Duration};

/// Runs the program on the host, and returns its exit status.
fn main(rt: HostRuntime) -> ExitCode {
    run(&rt)
}

/// Reads the arguments, does what they ask for, and returns the exit status.
fn run<R: Env + Input + Print + Eprint + AllocGlobal + Clock>(rt: &R) -> ExitCode {
    match options_given(rt) {
        Ok(options) => draw(rt, &options),
        Err(refused) => refuse(rt, Program::Draw, &refused),
    }
}

/// Reads the program's arguments. Returns its options, or why the arguments are refused.
fn options_given<R: Env + AllocGlobal>(rt: &R) -> Result<DrawOptions, Refused> {
    let words = read_arguments(rt, Program::Draw)?;
    options_of_draw(rt.alloc(), words.as_slice())
}

/// Draws the frames of the replies on standard input to standard output. Prints why that ended to
/// standard error if it failed. Returns the exit status.
fn draw<R: Input + Print + Eprint + AllocGlobal + Clock>(
    rt: &R,
    options: &DrawOptions,
) -> ExitCode {
    let alloc = rt.alloc();
    let Ok(mut reader) = BufReader::new(alloc, rt.reader()) else {
        return report_failure(rt, NO_MEMORY, Program::Draw.no_memory());
    };
    let end = match options.way {
        Way::Ppm => {
            let mut screen = Netpbm::new(alloc, io::writer(rt), options.look);
            show_frames(alloc, &mut reader, &mut screen)
        }
        Way::Text { rate } => {
            let pause = pause_of(rate);
            let mut screen = Terminal::new(alloc, rt, pause, io::writer(rt), options.look);
            show_frames(alloc, &mut reader, &mut screen)
        }
    };
    report_end(rt, Program::Draw, end)
}

/// Returns how long a picture stays if there are at most `rate` a second, in whole microseconds. A
/// rate of 0 counts as 1. Without a rate it is `None`.
fn pause_of(rate: Option<usize>) -> Option<Duration> {
    match rate {
        Some(rate) => Some(Duration::from_micros(1_000_000 / rate.max(1) as u64)),
        None => None,
    }
}
