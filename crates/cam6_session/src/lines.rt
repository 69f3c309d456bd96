//! The lines of a stream of bytes.
ghost use Rattle.std.specs.Prelude.{◌≡◌, ◌<◌, ◌≤◌, if◌then◌else◌, length, take, slice_index};
ghost use Rattle.cam6_session.specs.Held.{is_empty};
ghost use Rattle.cam6_wire.specs.OneLine.{HasNoLf};
ghost use Rattle.cam6_session.specs.Reading.{Reads, ReadsTo, ReadsWithin, TakesPart, CountsReads};
ghost use Rattle.cam6_session.specs.Spending.{TakesAByteEach};

use crate::line_buffer::LineBuf;
use std::io::BufRead;

/// How reading a line ended.
#[derive(Clone, Copy, Debug, PartialEq, Eq)]
pub enum Line {
    /// An LF ended the line, which the buffer has.
    Ended,
    /// The input ended the line, which the buffer has. Nothing is left to be read.
    Last,
    /// The input ended where a line would begin.
    EndOfInput,
    /// The reader failed. What was read of a line is given up.
    ReadFault,
    /// The reads ran out. What was read of a line is given up.
    TurnBound,
    /// Memory for a long line was refused. What was read of it is given up.
    NoMemory,
}

/// What one read showed of a line.
#[derive(Clone, Copy)]
enum Part {
    More,
    Newline,
    AtEnd,
    Fault,
    NoMemory,
}

/// Drops what `line` has, and reads the next line into it, without its LF. Returns `Ended` or
/// `Last` if there was one, even if it is too long, or why not. Each call of `fill_buf` takes one
/// of `reads_left`.
pub fn next_line<R: BufRead>(reader: &mut R, line: &mut LineBuf, reads_left: &mut u64) -> Line
    ensures line { Reads result (R.remaining reader.old) (R.remaining reader.new) line.new }
    ensures reads_left { CountsReads result reads_left.old reads_left.new }
    ensures bytes { TakesAByteEach result reads_left.old reads_left.new
        (R.remaining reader.old) (R.remaining reader.new) }
{
    read_line(reader, line, reads_left, Extent::ToItsEnd)
}

/// Drops what `line` has, and reads the next line into it, without its LF. Returns `Ended` or
/// `Last` if there was one, or why not. Of a line that is too long it reads only enough to know
/// that. Then it returns `Ended`, and the line's rest is unread. Each call of `fill_buf` takes one
/// of `reads_left`.
pub fn next_line_within<R: BufRead>(
    reader: &mut R,
    line: &mut LineBuf,
    reads_left: &mut u64,
) -> Line
    ensures line { ReadsWithin result (R.remaining reader.old) (R.remaining reader.new) line.new }
    ensures reads_left { CountsReads result reads_left.old reads_left.new }
    ensures bytes { TakesAByteEach result reads_left.old reads_left.new
        (R.remaining reader.old) (R.remaining reader.new) }
{
    read_line(reader, line, reads_left, Extent::UntilTooLong)
}

/// How far a line is read.
#[derive(Clone, Copy)]
enum Extent {
    ToItsEnd,
    UntilTooLong,
}

impl Extent {
    ghost use Rattle.std.specs.Prelude.{true};
    ghost use Rattle.cam6_session.specs.declared.lines.Extent.TheVariants.{UntilTooLong};

    /// Whether no more of a line is needed: it is too long, and is to be read only until it is.
    fn is_met(self, line: &LineBuf) -> bool
        ensures { result ≡ true → (self ≡ UntilTooLong) × (line.now.is_long ≡ true) }
    {
        match self {
            Extent::ToItsEnd => false,
            Extent::UntilTooLong => line.is_long(),
        }
    }
}

/// Drops what `line` has, and reads the next line into it, to its end or until it is too long, as
/// `extent` has it. Returns `Ended` or `Last` if there was one, or why not. Each call of `fill_buf`
/// takes one of `reads_left`.
fn read_line<R: BufRead>(
    reader: &mut R,
    line: &mut LineBuf,
    reads_left: &mut u64,
    extent: Extent,
) -> Line
    ensures line { ReadsTo extent result
        (R.remaining reader.old) (R.remaining reader.new) line.new }
    ensures reads_left { CountsReads result reads_left.old reads_left.new }
    ensures bytes { TakesAByteEach result reads_left.old reads_left.new
        (R.remaining reader.old) (R.remaining reader.new) }
{
    line.clear();
    while *reads_left > 0 {
        *reads_left -= 1;
        match take_part(reader, line) {
            Part::More => {
                if extent.is_met(line) {
                    return Line::Ended;
                }
            }
            Part::Newline => return Line::Ended,
            Part::AtEnd => return at_end_of_input(line),
            Part::Fault => return Line::ReadFault,
            Part::NoMemory => return Line::NoMemory,
        }
    }
    Line::TurnBound
}

/// Returns how reading ends at the end of the input: `Last`, or `EndOfInput` if `line` is empty.
fn at_end_of_input(line: &LineBuf) -> Line
    ensures { result ≡ (if is_empty line.now then Line.EndOfInput else Line.Last) }
{
    if line.is_empty() {
        Line::EndOfInput
    } else {
        Line::Last
    }
}

/// Calls `fill_buf` once. Adds the bytes that it shows to the line, up to the line's LF, and
/// consumes them and the LF. Returns what it found. Consumes nothing if an allocation fails.
fn take_part<R: BufRead>(reader: &mut R, line: &mut LineBuf) -> Part
    ensures { TakesPart result (R.remaining reader.old) (R.remaining reader.new) line.old line.new }
{
    let shown = match reader.fill_buf() {
        Ok(shown) => shown,
        Err(_) => return Part::Fault,
    };
    if shown.is_empty() {
        return Part::AtEnd;
    }
    let len = line_len(shown);
    let Ok(()) = line.add(&shown[..len]) else {
        return Part::NoMemory;
    };
    if len < shown.len() {
        reader.consume(len + 1);
        Part::Newline
    } else {
        reader.consume(len);
        Part::More
    }
}

/// Returns the number of bytes before the first LF, or of all bytes if there is none.
fn line_len(bytes: &[u8]) -> usize
    ensures within { result ≤ length bytes.now }
    ensures before { HasNoLf (take result bytes.now) }
    ensures at { result < length bytes.now → slice_index bytes.now result ≡ 10 }
{
    for (i, x) in bytes.iter().enumerate() {
        if *x == b'\n' {
            return i;
        }
    }
    bytes.len()
}
