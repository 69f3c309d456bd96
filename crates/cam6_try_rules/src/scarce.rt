//! Does what takes memory, for runs in which an allocation fails: tests have each fail in
//! turn. Whatever runs out of memory is done again.
//!
//! With the argument `session` it answers the lines of standard input as a machine does, one after
//! another. If there is no memory for a line, it prints `again` and begins with that line once more,
//! or `done` in place of the reply if the command was done. With the way `list ..` as its argument
//! it does the events of standard input as one list, and prints what came of them. Before that it
//! prints `unread` if there was no memory for reading them, or `refused` if there was none for the
//! list, and begins once more. With another way, such as `cache 2`, it plays the lines of standard
//! input, and prints what comes back. There an allocation that fails, but for a table to keep, ends
//! it as a failure without an answer. So does one that fails before any line.

use crate::ways::LineWay;
use crate::{lists, resumed};
use cam6_try_examples::{Played, Sent, Way, no_memory};
use std::io;
use std::io::{Input, Read, Write};
use std::process::ExitCode;

/// Does what the arguments after `scarce` ask for: answers a session for `session`, or plays lines
/// in the way that one other word says. Prints `no such words` unless there is one argument.
/// Returns success, or an error if this fails.
pub fn work<R: Input + Print + AllocGlobal>(rt: &R, words: &[String]) -> io::Result<ExitCode> {
    match words {
        [word] if word.as_str() == "session" => answer_session(rt)?,
        [way] => play_lines(rt, way.as_str())?,
        _ => println!(rt; "no such words")?,
    }
    Ok(ExitCode::SUCCESS)
}

/// Prints the answers of a blank machine of limit 256 to the lines of standard input.
fn answer_session<R: Input + Print + AllocGlobal>(rt: &R) -> io::Result<()> {
    let mut lines = Vec::new(rt.alloc());
    rt.reader().read_to_end(&mut lines)?;
    resumed::answer_all(rt.alloc(), lines.as_slice(), &mut io::writer(rt))
}

/// Plays the lines of standard input in the way that these words say, and prints what comes back.
/// Words that are no way are an error, as if memory had run out.
fn play_lines<R: Input + Print + AllocGlobal>(rt: &R, words: &str) -> io::Result<()> {
    let way = LineWay::read(rt.alloc(), words).map_err(|_| no_memory())?;
    let sent = lines_given(rt)?;
    match &way {
        LineWay::List(sizes) => lists::do_all(rt, sizes, sent.as_slice()),
        way => {
            for answers in way.played(rt.alloc(), sent.as_slice())? {
                io::writer(rt).write_all(answers.as_slice())?;
            }
            Ok(())
        }
    }
}

/// Returns the lines of standard input, without their LFs. Fails if it can't be read, or isn't
/// UTF-8.
fn lines_given<R: Input + AllocGlobal>(rt: &R) -> io::Result<Vec<Sent>> {
    let text = io::read_to_string(rt.alloc(), rt.reader())?;
    let mut sent = Vec::new(rt.alloc());
    for line in text.split_terminator('\n') {
        sent.push(Sent {
            bytes: Vec::from_slice(rt.alloc(), line.as_bytes())?,
            has_end: true,
        })?;
    }
    Ok(sent)
}
