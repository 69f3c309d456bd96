//! Frames, shown one after another.
ghost use Rattle.std.specs.Prelude.{◌≡◌};
ghost use Rattle.cam6_show_frames.specs.Showing.{AreTooMany, ShowsFrames};
ghost use Rattle.cam6_show_frames.specs.Front.{WritesFront};
ghost use Rattle.cam6_show_frames.specs.Taking.{TakesReply, TakesLine, ShowsFrame, end_at, end_after};

use crate::frames::Frame;
use crate::lines::{Reading, read_line};
use crate::replies::{Unsaid, read_reply};
use crate::runs::{Run, Untaken};
use std::alloc::Global;
use std::io::BufRead;

/// How showing ended.
#[derive(Clone, Copy, Debug, PartialEq, Eq)]
pub enum End {
    /// All lines were replies, and all frames were whole.
    EndOfInput,
    /// This line, counted from 1, is no reply.
    NoReply { line: u64 },
    /// A frame breaks off at this line, or after it if it is the last one.
    BreaksOff { line: u64 },
    /// The reader failed.
    ReadFault,
    /// The screen's writer failed, or took no byte.
    WriteFault,
    /// An allocation failed, for a line, a row or a picture.
    NoMemory,
    /// There were more lines than can be counted.
    TooManyLines,
}

/// Why a frame wasn't shown.
#[derive(Clone, Copy, Debug, PartialEq, Eq)]
pub enum Unshown {
    /// The writer failed, or took no byte.
    WriteFault,
    /// An allocation for what is written failed.
    NoMemory,
}

/// Something that shows frames. It writes bytes for each.
pub trait Screen {
    ghost use Rattle.std.specs.Prelude.{List, ℕ, Option};
    ghost use Rattle.cam6_show_frames.specs.Front.{WritesFront};

    /// The bytes of a frame's picture.
    ghost picture: { Self → List (List ℕ) → List ℕ };

    /// What was written, if that is known.
    ghost contents: { Self → Option (List ℕ) };

    /// Writes the picture of a frame. If it fails, a part of the picture from its beginning may
    /// have been written.
    fn show(&mut self, frame: &Frame) -> Result<(), Unshown>
        ensures written { WritesFront result (contents self.old) (contents self.new)
            (picture self.old frame.now) }
        ensures stays { picture self.new ≡ picture self.old };
}

/// Reads all lines of replies, and shows their frames on the screen. Stops at the first line that
/// is no reply, that breaks a frame off, or at which something fails. Returns how this ends.
pub fn show_frames<R: BufRead, S: Screen>(alloc: Global, reader: &mut R, screen: &mut S) -> End
    ensures shown { ShowsFrames (S.picture screen.old) result (R.remaining reader.old)
        (S.contents screen.old) (S.contents screen.new) }
    ensures lines { AreTooMany result (R.remaining reader.old) }
{
    let mut line = Vec::new(alloc);
    let mut run = Run::new(alloc);
    for before in 0..u64::MAX {
        match read_line(reader, &mut line) {
            Reading::Line => {}
            Reading::EndOfInput => return end_after(before, &run),
            Reading::ReadFault => return End::ReadFault,
            Reading::NoMemory => return End::NoMemory,
        }
        match take_line(alloc, &line, &mut run, screen) {
            Ok(()) => {}
            Err(stop) => return end_at(before + 1, stop),
        }
    }
    End::TooManyLines
}

/// Why a line isn't taken.
#[derive(Clone, Copy, Debug, PartialEq, Eq)]
enum Stop {
    NoReply,
    BreaksOff,
    WriteFault,
    NoMemory,
}

/// Reads one line as a reply, adds its cells to the run, and shows the frame that they complete, if
/// they do. Returns why showing stops, if it does.
fn take_line<S: Screen>(
    alloc: Global,
    line: &[u8],
    run: &mut Run,
    screen: &mut S,
) -> Result<(), Stop>
    ensures taken { TakesLine (S.picture screen.old) line.now result (record {
      old = run.old;
      new = run.new;
      before = S.contents screen.old;
      after = S.contents screen.new;
    }) }
    ensures stays { S.picture screen.new ≡ S.picture screen.old }
{
    match take_reply(alloc, line, run)? {
        Some(frame) => show_frame(screen, &frame),
        None => Ok(()),
    }
}

/// Reads one line as a reply, and adds its cells to the run. Returns the frame that they complete,
/// if they do, or why showing stops.
fn take_reply(alloc: Global, line: &[u8], run: &mut Run) -> Result<Option<Frame>, Stop>
    ensures { TakesReply line.now run.old result run.new }
{
    let reply = match read_reply(alloc, line) {
        Ok(reply) => reply,
        Err(Unsaid::NoReply) => return Err(Stop::NoReply),
        Err(Unsaid::NoMemory) => return Err(Stop::NoMemory),
    };
    match run.take(alloc, reply) {
        Ok(frame) => Ok(frame),
        Err(Untaken::BreaksOff) => Err(Stop::BreaksOff),
        Err(Untaken::NoMemory) => Err(Stop::NoMemory),
    }
}

/// Shows a frame on the screen, or returns why showing stops.
fn show_frame<S: Screen>(screen: &mut S, frame: &Frame) -> Result<(), Stop>
    ensures written { ShowsFrame result (S.contents screen.old) (S.contents screen.new)
        (S.picture screen.old frame.now) }
    ensures stays { S.picture screen.new ≡ S.picture screen.old }
{
    match screen.show(frame) {
        Ok(()) => Ok(()),
        Err(Unshown::WriteFault) => Err(Stop::WriteFault),
        Err(Unshown::NoMemory) => Err(Stop::NoMemory),
    }
}

/// Returns how showing ends if it stops at line `n`, counted from 1.
fn end_at(n: u64, stop: Stop) -> End
    ensures { result ≡ end_at n stop }
{
    match stop {
        Stop::NoReply => End::NoReply { line: n },
        Stop::BreaksOff => End::BreaksOff { line: n },
        Stop::WriteFault => End::WriteFault,
        Stop::NoMemory => End::NoMemory,
    }
}

/// Returns how showing ends if the input ends after `n` lines: with `BreaksOff` if a frame is
/// unfinished.
fn end_after(n: u64, run: &Run) -> End
    ensures { result ≡ end_after n run.now }
{
    if run.is_empty() {
        return End::EndOfInput;
    }
    End::BreaksOff { line: n }
}
