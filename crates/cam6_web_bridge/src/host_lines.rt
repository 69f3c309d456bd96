//! A host at the other end of two streams of lines.
ghost use Rattle.std.specs.Prelude.{◌≡◌, IfOk, IfErr};
ghost use Rattle.cam6_web_bridge.specs.Lines.{sent_line};
ghost use Rattle.cam6_web_bridge.specs.HostLines.{Hands, Takes, Misses};

use crate::hosts::{Answer, Host, Silence};
use cam6_writing::send;
use std::alloc::{AllocError, Global};
use std::io::{BufRead, Write};

/// A host, by the lines that it is told and those that it says.
#[derive(Drop)]
pub struct HostLines<R, W> {
    alloc: Global,
    reader: R,
    writer: W,
}

impl<R: BufRead, W: Write> HostLines<R, W> {
    /// Makes a host of two streams: lines are written to `writer`, and their answers are read from
    /// `reader`.
    pub fn new(alloc: Global, reader: R, writer: W) -> HostLines<R, W>
        ensures reader { result.reader ≡ reader }
        ensures writer { result.writer ≡ writer }
    {
        HostLines {
            alloc,
            reader,
            writer,
        }
    }
}

impl<R: BufRead, W: Write> Host for HostLines<R, W> {
    ghost use Rattle.cam6_web_bridge.specs.HostLines.{Lines, by_lines};

    ghost state = { Lines };

    ghost stands = { λ h. record { told = W.contents h.writer; left = R.remaining h.reader } };

    ghost answering = { by_lines };

    /// Writes a line with its LF, and returns the next line that is read, without its LF, as its
    /// answer.
    fn ask(&mut self, line: &[u8]) -> Result<Answer, Silence> {
        hand_over(self.alloc, &mut self.writer, line)?;
        Ok(Answer::Made(next_answer(self.alloc, &mut self.reader)?))
    }
}

/// Writes a line and an LF after it to the host's stream. Returns `Unwritten` if that fails, and
/// `NoMemory` if an allocation fails.
fn hand_over<W: Write>(alloc: Global, writer: &mut W, line: &[u8]) -> Result<(), Silence>
    ensures { Hands result (W.contents writer.old) line.now (W.contents writer.new) }
{
    let Ok(whole) = with_lf(alloc, line) else {
        return Err(Silence::NoMemory);
    };
    match send(writer, whole.as_slice()) {
        Ok(()) => Ok(()),
        Err(_) => Err(Silence::Unwritten),
    }
}

/// Returns a copy of a line with an LF after it.
fn with_lf(alloc: Global, line: &[u8]) -> Result<Vec<u8>, AllocError>
    ensures { IfOk result (λ whole. whole.items ≡ sent_line line.now) }
{
    let mut whole = Vec::with_capacity(alloc, line.len() + 1)?;
    whole.extend_from_slice(line)?;
    whole.push(b'\n')?;
    Ok(whole)
}

/// Reads a line of the host, and returns it without its LF. Returns `Ended` if the reader ends
/// before an LF, and `Unread` if reading fails or an allocation does.
fn next_answer<R: BufRead>(alloc: Global, reader: &mut R) -> Result<Vec<u8>, Silence>
    ensures answer { IfOk result (λ answer.
        Takes (R.remaining reader.old) answer.items (R.remaining reader.new)) }
    ensures silence { IfErr result (λ silence.
        Misses (R.remaining reader.old) silence (R.remaining reader.new)) }
{
    let mut answer = Vec::new(alloc);
    if reader.read_until(b'\n', &mut answer).is_err() {
        return Err(Silence::Unread);
    }
    match answer.pop() {
        Some(b'\n') => Ok(answer),
        Some(_) => Err(Silence::Ended),
        None => Err(Silence::Ended),
    }
}
