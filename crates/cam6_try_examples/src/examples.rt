//! An example's file, line by line.
//!
//! ```text
//! # what it shows, and where its answers come from
//! as WAY                  how the lines that follow are played
//! let NAME TEXT           `«NAME»` stands for the text from here on
//! > LINE                  a line that is sent
//! < LINE                  a line that must come back
//! > LINE => LINE          both
//! >> TEXT                 sent without an LF
//! ```

use crate::faults::Unplayable;
use crate::repeats::{Named, written_out};
use crate::ways::Way;
use std::alloc::Global;

/// A line that is sent, or a text without an LF at its end.
#[derive(Drop)]
pub struct Sent {
    pub bytes: Vec<u8>,
    pub has_end: bool,
}

/// Lines that are played in one way, and what must come back.
#[derive(Drop)]
pub struct Part<W: Way> {
    pub way: W,
    pub sent: Vec<Sent>,
    pub wanted: Vec<u8>,
}

/// An example that has been read up to a line.
#[derive(Drop)]
struct Reading<W: Way> {
    parts: Vec<Part<W>>,
    named: Vec<Named>,
}

/// Reads the text of an example. Returns its parts, or the number of the first line that can't be
/// played, counted from 1, and why.
pub fn read_example<W: Way>(
    alloc: Global,
    text: &str,
) -> Result<Vec<Part<W>>, (usize, Unplayable)> {
    let mut reading = Reading {
        parts: Vec::new(alloc),
        named: Vec::new(alloc),
    };
    match reading.read_lines(alloc, text) {
        Ok(()) => Ok(reading.parts),
        Err(fault) => {
            drop(reading);
            Err(fault)
        }
    }
}

impl<W: Way> Reading<W> {
    /// Reads all lines of an example, and stores their parts and names. An error has the number of
    /// the first line that can't be played, counted from 1, and why.
    fn read_lines(&mut self, alloc: Global, text: &str) -> Result<(), (usize, Unplayable)> {
        let mut lines: usize = 0;
        for line in text.split('\n') {
            lines = lines.saturating_add(1);
            self.read_line(alloc, line).map_err(|e| (lines, e))?;
        }
        Ok(())
    }

    /// Reads one line of an example, by the mark at its front: `as`, `let`, `>`, `>>` or `<`. Blank
    /// lines and remarks (`#`) do nothing. Any other mark is an error, and so is a line that its
    /// mark can't have.
    fn read_line(&mut self, alloc: Global, line: &str) -> Result<(), Unplayable> {
        let (mark, rest) = line.split_once(' ').unwrap_or((line, ""));
        match mark {
            "" | "#" => Ok(()),
            "as" => self.begin_part(alloc, rest),
            "let" => self.name(alloc, rest),
            ">" => self.send(alloc, rest),
            ">>" => self.send_text(alloc, rest, false),
            "<" => self.want(alloc, rest),
            _ => Err(Unplayable::Unread),
        }
    }

    /// Begins a part of the example, which is played in the way that the words after `as` say.
    /// Fails if they are no way.
    fn begin_part(&mut self, alloc: Global, way: &str) -> Result<(), Unplayable> {
        let part = Part {
            way: W::read(alloc, way)?,
            sent: Vec::new(alloc),
            wanted: Vec::new(alloc),
        };
        Ok(self.parts.push(part)?)
    }

    /// Returns the part that is being read, the last one. It is an error if no `as` came before.
    fn current_part(&mut self) -> Result<&mut Part<W>, Unplayable> {
        self.parts.last_mut().ok_or(Unplayable::Unread)
    }

    /// Reads `NAME TEXT` after `let`, and stores the text, with its marks written out, under this
    /// name. It is an error if there is no space, or if a mark is wrong.
    fn name(&mut self, alloc: Global, rest: &str) -> Result<(), Unplayable> {
        let (name, text) = rest.split_once(' ').ok_or(Unplayable::Unread)?;
        let bytes = written_out(alloc, text, self.named.as_slice())?;
        let name = String::from_str(alloc, name)?;
        Ok(self.named.push(Named { name, bytes })?)
    }

    /// Reads what stands after `>`, and adds the line, with its marks written out, to those that
    /// the part sends. What stands after the last arrow, ` => `, must come back as a line.
    fn send(&mut self, alloc: Global, rest: &str) -> Result<(), Unplayable> {
        match rest.rsplit_once(" => ") {
            Some((sent, wanted)) => {
                self.send_text(alloc, sent, true)?;
                self.want(alloc, wanted)
            }
            None => self.send_text(alloc, rest, true),
        }
    }

    /// Adds a text to those that the part sends, with its marks written out. `has_end` says whether
    /// it is sent with an LF at its end. It is an error if no `as` came before, or if a mark is
    /// wrong.
    fn send_text(&mut self, alloc: Global, text: &str, has_end: bool) -> Result<(), Unplayable> {
        let bytes = written_out(alloc, text, self.named.as_slice())?;
        Ok(self.current_part()?.sent.push(Sent { bytes, has_end })?)
    }

    /// Reads what stands after `<`, and adds the line, with its marks written out and an LF, to
    /// those that must come back. It is an error if no `as` came before, or if a mark is wrong.
    fn want(&mut self, alloc: Global, text: &str) -> Result<(), Unplayable> {
        let mut line = written_out(alloc, text, self.named.as_slice())?;
        line.push(b'\n')?;
        Ok(
            self.current_part()?
                .wanted
                .extend_from_slice(line.as_slice())?,
        )
    }
}
