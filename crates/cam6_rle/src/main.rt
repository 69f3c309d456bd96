//! The program `cam6_rle`: run-length texts of patterns into command lines of `cam6`, and its replies into
//! such texts.
//!
//! Contract: what the arguments ask for, each end's exit status and the line for a text that isn't
//! a pattern are those of `cam6_draw_cli`. `refuse` of `cam6_arguments` ends for arguments that ask
//! for nothing. Which lines set a pattern, and which text a frame has, is the contract of
//! `read_pattern`, of `write_placed` and of `PatternTexts` in `cam6_patterns`. Which frames replies show, and how they end, is the contract of `show_frames` in `cam6_show_frames`.
//!
//! Stands on: `cam6_arguments`, `cam6_draw_cli`, `cam6_patterns`, `cam6_show_frames`.
#![tactic(auto)]

ghost use Rattle.std.specs.Prelude.{◌≡◌};
ghost use Rattle.std.specs.Process.{exit_status};

use cam6_arguments::{NO_MEMORY, Program, Refused, read_arguments, refuse, report_failure};
use cam6_draw_cli::{BAD_INPUT, Place, RleOptions, fault_text, options_of_rle, report_end};
use cam6_patterns::{Pattern, PatternFault, PatternTexts, Unread, read_pattern, write_placed};
use cam6_show_frames::{End, Unshown, show_frames};
use std::env::Env;
use std::io;
use std::io::{BufReader, ErrorKind, Read};
use std::process::ExitCode;

/// Runs the program on the host, and returns its exit status.
fn main(rt: HostRuntime) -> ExitCode {
    run(&rt)
}

/// Reads the arguments, does what they ask for, and returns the exit status.
fn run<R: Env + Input + Print + Eprint + AllocGlobal>(rt: &R) -> ExitCode {
    match options_given(rt) {
        Ok(RleOptions::Place(place)) => place_pattern(rt, &place),
        Ok(RleOptions::Gather { rule }) => gather_patterns(rt, rule),
        Err(refused) => refuse(rt, Program::Rle, &refused),
    }
}

/// Reads the program's arguments. Returns its task, or why the arguments are refused.
fn options_given<R: Env + AllocGlobal>(rt: &R) -> Result<RleOptions, Refused> {
    let words = read_arguments(rt, Program::Rle)?;
    options_of_rle(rt.alloc(), words.as_slice())
}

/// Reads a pattern from standard input, and prints the command lines that set it at this place.
/// Prints why to standard error if that fails. Returns the exit status.
fn place_pattern<R: Input + Print + Eprint + AllocGlobal>(rt: &R, place: &Place) -> ExitCode {
    let alloc = rt.alloc();
    let mut text = Vec::new(alloc);
    if let Err(e) = rt.reader().read_to_end(&mut text) {
        return match e.kind() {
            ErrorKind::OutOfMemory => report_end(rt, Program::Rle, End::NoMemory),
            _ => report_end(rt, Program::Rle, End::ReadFault),
        };
    }
    match read_pattern(alloc, place.side, place.planes.states(), text.as_slice()) {
        Ok(pattern) => write_pattern(rt, place, &pattern),
        Err(Unread::Fault(fault)) => report_fault(rt, fault),
        Err(Unread::NoMemory) => report_end(rt, Program::Rle, End::NoMemory),
    }
}

/// Prints the command lines that set a pattern at this place. Prints why to standard error if that
/// fails. Returns the exit status.
fn write_pattern<R: Print + Eprint + AllocGlobal>(
    rt: &R,
    place: &Place,
    pattern: &Pattern,
) -> ExitCode {
    let mut writer = io::writer(rt);
    let done = write_placed(
        &mut writer,
        place.side,
        place.column,
        place.row,
        &place.planes,
        pattern,
    );
    match done {
        Ok(()) => report_end(rt, Program::Rle, End::EndOfInput),
        Err(Unshown::WriteFault) => report_end(rt, Program::Rle, End::WriteFault),
        Err(Unshown::NoMemory) => report_end(rt, Program::Rle, End::NoMemory),
    }
}

/// Prints why and where the text isn't a pattern to standard error, and returns exit status 3.
fn report_fault<R: Eprint + AllocGlobal>(rt: &R, fault: PatternFault) -> ExitCode
    ensures { exit_status result ≡ 3 }
{
    match fault_text(rt.alloc(), fault) {
        Ok(text) => report_failure(rt, BAD_INPUT, text.as_str()),
        Err(_) => report_failure(rt, BAD_INPUT, Program::Rle.no_memory_to_say_why()),
    }
}

/// Prints the text of a pattern for each frame of the replies on standard input. `rule` is the name
/// of the rule in their headers, or empty for none. Prints why to standard error if that fails.
/// Returns the exit status.
fn gather_patterns<R: Input + Print + Eprint + AllocGlobal>(rt: &R, rule: String) -> ExitCode {
    let alloc = rt.alloc();
    let Ok(mut reader) = BufReader::new(alloc, rt.reader()) else {
        return report_failure(rt, NO_MEMORY, Program::Rle.no_memory());
    };
    let mut screen = PatternTexts::new(alloc, io::writer(rt), rule);
    let end = show_frames(alloc, &mut reader, &mut screen);
    report_end(rt, Program::Rle, end)
}
