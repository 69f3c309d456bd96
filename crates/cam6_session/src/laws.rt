//! Laws of the lines of a text, and of their answers: the replies of a private machine, and the
//! outcomes of events. Each is the contract of a function that does nothing.
ghost use Rattle.cam6_session.specs.Laws.{LinesAreFound, AnswersAreReplies, AnswersAreOutcomes};
ghost use Rattle.cam6_session.specs.Laws.{AnswersGoOn};

use crate::answerers::Answerer;

/// A text that was joined from lines, each with an LF, and a rest without an LF has these lines.
/// The rest is one more line if it isn't empty.
pub fn a_text_has_its_lines()
    ensures law { LinesAreFound }
{}

/// A machine's answers to lines are a private machine's replies to the lines' commands, and the
/// faults of the other lines, in their order, and nothing else.
pub fn answers_are_the_replies()
    ensures law { AnswersAreReplies }
{}

/// A core's answers to lines are the outcomes of the lines' events, one after another, and the
/// faults of the other lines, in their order, and nothing else.
pub fn answers_are_the_outcomes()
    ensures law { AnswersAreOutcomes }
{}

/// The answers to lines and then to more lines are the answers to all of them together. So a
/// session can go on where another ended.
pub fn answers_go_on<A: Answerer>()
    ensures law { AnswersGoOn A.answering }
{}
