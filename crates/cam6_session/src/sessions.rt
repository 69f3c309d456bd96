//! A stream of command lines, each answered by one line.
ghost use Rattle.std.specs.Prelude.{◌≡◌, ℕ};
ghost use Rattle.cam6_session.specs.Answers.{by_machine};
ghost use Rattle.cam6_session.specs.Sessions.{AnswersReader};
ghost use Rattle.cam6_session.specs.Spending.{SpendsItsReads};

use crate::answerers::Answerer;
use crate::desks::Ask;
use crate::line_buffer::LineBuf;
use crate::lines::{Line, next_line};
use cam6_writing::WriteFault;
use std::alloc::Global;
use std::io::{BufRead, Write};

/// How serving ended.
#[derive(Clone, Copy, Debug, PartialEq, Eq)]
pub enum End {
    /// All lines were answered.
    EndOfInput,
    /// The reader failed. A line without its end is given up.
    ReadFault,
    /// The writer failed, or took no byte.
    WriteFault,
    /// An allocation failed. Nothing is written for the line.
    NoMemory {
        /// Whether the line's command was done.
        done: bool,
    },
    /// The reads ran out. A line without its end is given up.
    TurnBound,
}

/// Why serving stops at a line.
#[derive(Clone, Copy, Debug, PartialEq, Eq)]
pub enum Stop {
    /// The writer failed, or took no byte.
    WriteFault,
    /// An allocation failed for the line. Nothing is written for it.
    NoMemory {
        /// Whether the line's command was done.
        done: bool,
    },
}

impl From<WriteFault> for Stop {
    ghost use Rattle.cam6_session.specs.declared.sessions.Stop.TheVariants.{WriteFault};

    ghost from_gives = { λ _ stop. stop ≡ WriteFault };

    /// Returns the reason to stop serving for a write that failed.
    fn from(_fault: WriteFault) -> Stop {
        Stop::WriteFault
    }
}

impl From<Stop> for End {
    ghost use Rattle.cam6_session.specs.Responding.{end_at};

    ghost from_gives = { λ stop end. end ≡ end_at stop };

    /// Returns the end of a session whose serving stopped for this reason.
    fn from(stop: Stop) -> End {
        match stop {
            Stop::WriteFault => End::WriteFault,
            Stop::NoMemory { done } => End::NoMemory { done },
        }
    }
}

/// Does the command of each line at the desk, and answers it by one line. A line without a command
/// is answered by its fault. Ends if the input ends, if something fails, or if the reads run out.
/// Returns which. The desk is ready to be asked. Each call of `fill_buf` takes one of `reads_left`.
pub fn serve<R: BufRead, W: Write, D: Ask>(
    alloc: Global,
    reader: &mut R,
    writer: &mut W,
    desk: &mut D,
    reads_left: u64,
) -> End
    requires { D.is_ready desk.old }
    ensures ready { D.is_ready desk.new }
    ensures user { (u : ℕ) → D.is_of u desk.old → D.is_of u desk.new }
    ensures served { AnswersReader by_machine result
        (R.remaining reader.old) (R.remaining reader.new)
        (W.contents writer.old) (W.contents writer.new)
        (D.stands_at desk.old) (D.stands_at desk.new) }
    ensures reads_left { SpendsItsReads result reads_left
        (R.remaining reader.old) (R.remaining reader.new) }
{
    answer_lines(alloc, reader, writer, desk, reads_left)
}

/// Has the answerer, which has to be ready, answer each line of the reader by one line. Ends if the
/// input ends, if something fails, or if the reads run out. Returns which. Each call of `fill_buf`
/// takes one of `reads_left`.
pub fn answer_lines<R: BufRead, W: Write, A: Answerer>(
    alloc: Global,
    reader: &mut R,
    writer: &mut W,
    answerer: &mut A,
    reads_left: u64,
) -> End
    requires { A.may_answer answerer.old }
    ensures ready { A.may_answer answerer.new }
    ensures user { (u : ℕ) → A.is_of u answerer.old → A.is_of u answerer.new }
    ensures served { AnswersReader A.answering result
        (R.remaining reader.old) (R.remaining reader.new)
        (W.contents writer.old) (W.contents writer.new)
        (A.asked answerer.old) (A.asked answerer.new) }
    ensures reads_left { SpendsItsReads result reads_left
        (R.remaining reader.old) (R.remaining reader.new) }
{
    let Ok(mut line) = LineBuf::new(alloc) else {
        return End::NoMemory { done: false };
    };
    let mut left = reads_left;
    loop {
        match next_line(reader, &mut line, &mut left) {
            Line::EndOfInput => return End::EndOfInput,
            Line::ReadFault => return End::ReadFault,
            Line::TurnBound => return End::TurnBound,
            Line::NoMemory => return End::NoMemory { done: false },
            Line::Ended => {
                if let Err(stop) = answerer.respond(alloc, &line, writer) {
                    return End::from(stop);
                }
            }
            Line::Last => {
                return match answerer.respond(alloc, &line, writer) {
                    Ok(()) => End::EndOfInput,
                    Err(stop) => End::from(stop),
                };
            }
        }
    }
}
