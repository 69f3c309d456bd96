//! The lines of a reader.
ghost use Rattle.std.specs.Prelude.{◌≡◌};
ghost use Rattle.std.specs.Io.BufRead.{strip_last};
ghost use Rattle.cam6_show_frames.specs.Reading.{Reads};

use std::io::{BufRead, ErrorKind};

/// What was read from a reader.
#[derive(Clone, Copy, Debug, PartialEq, Eq)]
pub(crate) enum Reading {
    /// A line.
    Line,
    /// Nothing, since no byte is left.
    EndOfInput,
    /// Not all of a line, since the reader failed.
    ReadFault,
    /// Not all of a line, since an allocation failed.
    NoMemory,
}

/// Reads the next line into the vector, without its LF, in place of what is there. The last line
/// may have no LF. Returns what was read. On a fault the vector may have a part of the line.
pub(crate) fn read_line<R: BufRead>(reader: &mut R, line: &mut Vec<u8>) -> Reading
    ensures { Reads result (R.remaining reader.old) (R.remaining reader.new) line.new.items }
{
    line.clear();
    match reader.read_until(b'\n', line) {
        Ok(0) => Reading::EndOfInput,
        Ok(_) => {
            strip_lf(line);
            Reading::Line
        }
        Err(e) => match e.kind() {
            ErrorKind::OutOfMemory => Reading::NoMemory,
            _ => Reading::ReadFault,
        },
    }
}

/// Removes the LF at the end of a line, if there is one.
fn strip_lf(line: &mut Vec<u8>)
    ensures { line.new.items ≡ strip_last 10 line.old.items }
{
    if line.last() == Some(&b'\n') {
        line.pop();
    }
}
