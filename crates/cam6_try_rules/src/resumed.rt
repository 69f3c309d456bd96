//! Lines that a machine answers. It goes on with them after an allocation failed.

use cam6_machine::Machine;
use cam6_planes::Side;
use cam6_session::{End, serve};
use cam6_try_examples::no_memory;
use std::alloc::Global;
use std::io;
use std::io::{ErrorKind, Write};

/// The most looks at the lines in a session.
const READS: u64 = 1_099_511_627_776;

/// How often the lines are begun at most.
const TIMES: u32 = 10;

/// A writer, with the number of lines that it took.
#[derive(Drop)]
struct Counting<'a, W> {
    writer: &'a mut W,
    lines: usize,
}

impl<W: Write> Write for Counting<'_, W> {
    /// Writes bytes, and counts the LFs among those that were taken. Returns how many were taken.
    fn write(&mut self, bytes: &[u8]) -> io::Result<usize> {
        let taken = self.writer.write(bytes)?;
        for byte in &bytes[..taken] {
            if *byte == b'\n' {
                self.lines = self.lines.saturating_add(1);
            }
        }
        Ok(taken)
    }

    /// Flushes the writer.
    fn flush(&mut self) -> io::Result<()> {
        self.writer.flush()
    }
}

/// Writes the answers of a blank machine of limit 256 to lines. If an allocation fails for a line,
/// writes `done` if its command was done, and goes on after it. Otherwise writes `again`, and
/// answers the line again. Fails if the writer does, or after ten rounds.
pub fn answer_all<W: Write>(alloc: Global, lines: &[u8], writer: &mut W) -> io::Result<()> {
    let mut machine = Machine::new(alloc, Side::S256).map_err(|_| no_memory())?;
    answer_from(alloc, lines, writer, &mut machine)
}

/// Writes this machine's answers to lines. If an allocation fails for a line, writes `done` if its
/// command was done, and goes on after it. Otherwise writes `again`, and answers the line again.
/// Fails if the writer does, or after ten rounds.
fn answer_from<W: Write>(
    alloc: Global,
    lines: &[u8],
    writer: &mut W,
    machine: &mut Machine,
) -> io::Result<()> {
    let mut writer = Counting { writer, lines: 0 };
    let mut rest = lines;
    for _ in 0..TIMES {
        writer.lines = 0;
        let mut reader = rest;
        match serve(alloc, &mut reader, &mut writer, machine, READS) {
            End::EndOfInput => return Ok(()),
            End::NoMemory { done } => {
                rest = lines_after(rest, writer.lines.saturating_add(usize::from(done)));
                let told = if done { "done\n" } else { "again\n" };
                writer.writer.write_all(told.as_bytes())?;
            }
            End::ReadFault | End::WriteFault | End::TurnBound => break,
        }
    }
    Err(io::Error::from(ErrorKind::Other))
}

/// Returns the lines after the first `number` of them, or nothing if there are no more.
fn lines_after(lines: &[u8], number: usize) -> &[u8] {
    let mut rest = lines;
    for _ in 0..number {
        match rest.iter().position(|byte| *byte == b'\n') {
            Some(at) => rest = &rest[at + 1..],
            None => return &[],
        }
    }
    rest
}
