//! Readers and writers that fail at one of their calls, and a desk at a machine that runs out of
//! memory at one of its calls.

use cam6_commands::{Command, Reply};
use cam6_machine::Machine;
use cam6_planes::{NoMemory, Side};
use cam6_session::Ask;
use std::alloc::Global;
use std::io::{self, BufRead, ErrorKind, Read, Write};

/// Answers a number of commands as its machine does, then runs out of memory.
#[derive(Drop)]
pub(crate) struct Desk {
    pub(crate) machine: Machine,
    pub(crate) answers_left: usize,
}

impl Desk {
    /// Makes a desk at a blank machine of limit 256. It answers so many commands, and runs out of
    /// memory at each later one.
    pub(crate) fn new(alloc: Global, answers_left: usize) -> Result<Desk, NoMemory> {
        let machine = Machine::new(alloc, Side::S256)?;
        Ok(Desk {
            machine,
            answers_left,
        })
    }
}

impl Ask for Desk {
    ghost use Rattle.std.specs.Prelude.{⊤};
    ghost use Rattle.cam6_machine.specs.Stored.{machine_of};

    ghost stands_at = { λ d. machine_of d.machine };

    ghost is_of = { λ _ _. ⊤ };

    ghost is_ready = { λ _. ⊤ };

    /// Returns the machine's reply to a command. Runs out of memory if no answers are left.
    fn ask(&mut self, command: Command) -> Result<Reply, NoMemory> {
        if self.answers_left == 0 {
            return Err(NoMemory);
        }
        self.answers_left -= 1;
        self.machine.reply_to(command)
    }
}

/// Shows at most so many bytes at once, for a number of calls, then fails.
#[derive(Drop)]
pub(crate) struct Shown<'a> {
    pub(crate) bytes: &'a [u8],
    pub(crate) at_once: usize,
    pub(crate) calls: usize,
}

impl Read for Shown<'_> {
    /// Fails: these bytes are read through `fill_buf` alone.
    fn read(&mut self, _buf: &mut [u8]) -> io::Result<usize> {
        Err(io::Error::from(ErrorKind::Unsupported))
    }
}

impl BufRead for Shown<'_> {
    /// Returns the next bytes, at most `at_once`, or none at their end. Counts one of the calls,
    /// and fails if none is left.
    fn fill_buf(&mut self) -> io::Result<&[u8]> {
        if self.calls == 0 {
            return Err(io::Error::from(ErrorKind::Other));
        }
        self.calls -= 1;
        Ok(&self.bytes[..self.bytes.len().min(self.at_once)])
    }

    /// Drops the first `amount` bytes, or all if there are fewer.
    fn consume(&mut self, amount: usize) {
        self.bytes = &self.bytes[amount.min(self.bytes.len())..];
    }
}

/// How a writer fails.
#[derive(Clone, Copy, Debug, PartialEq, Eq)]
pub(crate) enum Failure {
    Error,
    Interruption,
    TakesNothing,
    /// An error at one call. Any later one goes well.
    Once,
}

/// Takes one byte at a time for a number of calls, flushes among them, then fails.
#[derive(Drop)]
pub(crate) struct Ones {
    pub(crate) bytes: Vec<u8>,
    pub(crate) calls: usize,
    pub(crate) failure: Failure,
}

impl Ones {
    /// Counts a call of the writer, and returns true if it succeeds. A call after `calls` calls
    /// fails as `failure` says: with an error, or by returning false if it takes nothing. With
    /// `Once` all later calls succeed.
    fn goes_well(&mut self) -> io::Result<bool> {
        if self.calls > 0 {
            self.calls -= 1;
            return Ok(true);
        }
        if self.failure == Failure::Once {
            self.calls = usize::MAX;
        }
        match self.failure {
            Failure::TakesNothing => Ok(false),
            Failure::Interruption => Err(io::Error::from(ErrorKind::Interrupted)),
            Failure::Error | Failure::Once => Err(io::Error::from(ErrorKind::Other)),
        }
    }
}

impl Write for Ones {
    /// Takes the first byte, and returns 1. Fails if this call is to fail, or returns 0 if it is to
    /// take nothing. No bytes are no call.
    fn write(&mut self, buf: &[u8]) -> io::Result<usize> {
        if buf.is_empty() || !self.goes_well()? {
            return Ok(0);
        }
        self.bytes.push(buf[0])?;
        Ok(1)
    }

    /// Counts as a call, and does nothing. Fails if this call is to fail with an error.
    fn flush(&mut self) -> io::Result<()> {
        let _ = self.goes_well()?;
        Ok(())
    }
}
