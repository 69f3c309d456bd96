//! Files that are played, and what is printed of each.

use crate::answers::no_memory;
use crate::examples::{Part, Sent, read_example};
use crate::faults::Unplayable;
use crate::ways::{Played, Way};
use std::alloc::Global;
use std::env::Env;
use std::fs::Files;
use std::process::ExitCode;
use std::{fs, io};

/// Plays the examples that the program's arguments name. Returns the exit status: success if all
/// files are well. Fails if a file can't be read, if playing it fails, or if printing does.
///
/// The arguments name files, for example `parity.example`. Each is played in the ways that it says,
/// and a line reports whether all came back byte for byte. A file with a name that begins with
/// `wrong_` has one answer that is wrong on purpose, and is well if not all came back.
pub fn play<W: Played, R: Env + Files + Print + AllocGlobal>(rt: &R) -> io::Result<ExitCode> {
    let alloc = rt.alloc();
    play_with(rt, &|way: &W, sent: &[Sent]| way.played(alloc, sent))
}

/// Plays the examples that the program's arguments name, as `play` does, but the closure `played`
/// gives what comes back for a part's lines. Each text that it returns must be what is wanted. The
/// closure may use all of the handle that it has, for example to start threads.
pub fn play_with<
    W: Way,
    R: Env + Files + Print + AllocGlobal,
    F: Fn(&W, &[Sent]) -> io::Result<Vec<Vec<u8>>>,
>(rt: &R, played: &F) -> io::Result<ExitCode>
    requires { F.IsAlwaysCallable played.now }
{
    let words = std::env::args(rt)?
        .skip(1)
        .collect::<Vec<String>>(rt.alloc())?;
    play_files(rt, words.as_slice(), played).map(|is_well| if is_well {
        ExitCode::SUCCESS
    } else {
        ExitCode::FAILURE
    })
}

/// Reads the file of an example, and returns its parts. If a line can't be played, prints this and
/// returns `None`. Fails if the file can't be read, or if memory runs out.
fn parts_of<W: Way, R: Files + Print + AllocGlobal>(
    rt: &R,
    name: &str,
) -> io::Result<Option<Vec<Part<W>>>> {
    let text = fs::read_to_string(rt, name)?;
    match read_example(rt.alloc(), text.as_str()) {
        Ok(parts) => Ok(Some(parts)),
        Err((_, Unplayable::NoMemory)) => Err(no_memory()),
        Err((line, Unplayable::Unread)) => {
            println!(rt; "{name}: line {line} can't be played")?;
            Ok(None)
        }
    }
}

/// Plays the examples in these files. Returns whether all are well, as `play_file` says. It is true
/// if there are no files.
fn play_files<
    W: Way,
    R: Files + Print + AllocGlobal,
    F: Fn(&W, &[Sent]) -> io::Result<Vec<Vec<u8>>>,
>(rt: &R, names: &[String], played: &F) -> io::Result<bool>
    requires { F.IsAlwaysCallable played.now }
{
    let mut is_well = true;
    for name in names {
        is_well &= play_file(rt, name.as_str(), played)?;
    }
    Ok(is_well)
}

/// Plays the example in a file. Returns whether all its lines came back. If its name begins with
/// `wrong_`, returns whether not all did. Returns false if a line of it can't be played.
fn play_file<
    W: Way,
    R: Files + Print + AllocGlobal,
    F: Fn(&W, &[Sent]) -> io::Result<Vec<Vec<u8>>>,
>(rt: &R, name: &str, played: &F) -> io::Result<bool>
    requires { F.IsAlwaysCallable played.now }
{
    match parts_of::<W, R>(rt, name)? {
        Some(parts) => show(rt, name, parts.as_slice(), played).map(|is_well| is_well
            != name.starts_with("wrong_")),
        None => Ok(false),
    }
}

/// Plays the parts of an example, up to the first line that isn't what is wanted. Prints and
/// returns whether all lines came back that must. It is false if none must.
fn show<W: Way, R: Print + AllocGlobal, F: Fn(&W, &[Sent]) -> io::Result<Vec<Vec<u8>>>>(
    rt: &R,
    name: &str,
    parts: &[Part<W>],
    played: &F,
) -> io::Result<bool>
    requires { F.IsAlwaysCallable played.now }
{
    let mut lines: usize = 0;
    for part in parts {
        let wanted = part.wanted.as_slice();
        let answers = played(&part.way, part.sent.as_slice())?;
        if let Some(line) = first_other_of_all(answers, wanted) {
            let line = line.saturating_add(lines);
            println!(rt; "{name}: line {line} that came back is another")?;
            return Ok(false);
        }
        lines = lines.saturating_add(lines_of(wanted));
    }
    if lines == 0 {
        println!(rt; "{name}: no line is wanted")?;
        return Ok(false);
    }
    println!(rt; "{name}: all lines came back")?;
    Ok(true)
}

/// Returns how many LFs these bytes have.
fn lines_of(bytes: &[u8]) -> usize {
    bytes.iter().filter(|byte| **byte == b'\n').count()
}

/// Returns the number of the first line, counted from 1, in which one of the answers differs from
/// `wanted`. Returns `None` if none differs.
fn first_other_of_all(answers: Vec<Vec<u8>>, wanted: &[u8]) -> Option<usize> {
    for answer in answers.as_slice() {
        if let Some(line) = first_other(answer.as_slice(), wanted) {
            return Some(line);
        }
    }
    None
}

/// Returns the number of the first line, counted from 1, in which two texts differ. A text that
/// ends earlier differs at its end. Returns `None` if they are equal.
fn first_other(answers: &[u8], wanted: &[u8]) -> Option<usize> {
    if answers == wanted {
        return None;
    }
    let same = answers
        .iter()
        .zip(wanted)
        .take_while(|pair| pair.0 == pair.1)
        .count();
    Some(lines_of(&answers[..same]).saturating_add(1))
}
