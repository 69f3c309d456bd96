//! The exit statuses of the programs.
ghost use Rattle.std.specs.Prelude.{◌≡◌, IfOk, IfSome, option_map, string_bytes};
ghost use Rattle.cam6_draw_cli.specs.Statuses.{at_line as at_line_told, cause_told, column_told};
ghost use Rattle.cam6_draw_cli.specs.Statuses.{failure, fault_told};

use cam6_arguments::{NO_MEMORY, Program, WRITE_FAILED, message_of};
use cam6_patterns::{Cause, PatternFault};
use cam6_planes::COLUMNS;
use cam6_show_frames::End;
use std::alloc::{AllocError, Global};

/// A text that is no pattern, a line that is no reply, a frame that breaks off, or a read that failed.
pub const BAD_INPUT: u8 = 3;

/// More lines than can be counted.
pub const TOO_MANY_LINES: u8 = 6;

/// Returns the exit status of an end that is a failure, and its line, with its LF, for standard
/// error. If an allocation for the line failed, that error is in its place. Returns `None` for
/// `EndOfInput`, the only end that is no failure.
pub fn failure_of(
    alloc: Global,
    program: Program,
    end: End,
) -> Option<(u8, Result<String, AllocError>)>
    ensures status { option_map (λ f. f.0) result
        ≡ option_map (λ told. told.0) (failure program end) }
    ensures text { IfSome result (λ f. IfOk f.1 (λ text.
        IfSome (failure program end) (λ told. string_bytes text ≡ told.1))) }
{
    let (status, text) = match end {
        End::EndOfInput => return None,
        End::NoReply { line } => (
            BAD_INPUT,
            at_line(alloc, program, line, " is not a reply\n"),
        ),
        End::BreaksOff { line } => (
            BAD_INPUT,
            at_line(alloc, program, line, " leaves a frame incomplete\n"),
        ),
        End::ReadFault => (BAD_INPUT, message_of(alloc, program, "read failed\n")),
        End::WriteFault => (WRITE_FAILED, message_of(alloc, program, "write failed\n")),
        End::NoMemory => (NO_MEMORY, message_of(alloc, program, "no memory\n")),
        End::TooManyLines => (
            TOO_MANY_LINES,
            message_of(alloc, program, "too many lines\n"),
        ),
    };
    Some((status, text))
}

/// Returns a message: the program's name, `line` with its number, and then this text, without a
/// space between. The text has its own LF.
fn at_line(alloc: Global, program: Program, line: u64, text: &str) -> Result<String, AllocError>
    ensures { IfOk result (λ told. string_bytes told ≡ at_line_told program line text.now) }
{
    let name = program.name();
    format!(in alloc; "{name}: line {line}{text}")
}

/// Returns the line, with its LF, that reports why and where a text isn't a pattern. It begins with
/// the name of `cam6_rle`, and has the line and column of the fault.
pub fn fault_text(alloc: Global, fault: PatternFault) -> Result<String, AllocError>
    ensures { IfOk result (λ told. string_bytes told ≡ fault_told fault) }
{
    let cause = cause_text(alloc, fault.cause)?;
    let text = at_column(alloc, fault.column, cause.as_str())?;
    at_line(alloc, Program::Rle, fault.line as u64, text.as_str())
}

/// Returns a part of a message: a comma, `column` with its number, and then this text, without a
/// space between.
fn at_column(alloc: Global, column: usize, text: &str) -> Result<String, AllocError>
    ensures { IfOk result (λ told. string_bytes told ≡ column_told column text.now) }
{
    format!(in alloc; ", column {column}{text}")
}

/// Returns the last part of the line that reports why a text isn't a pattern: a colon, the cause,
/// and an LF.
fn cause_text(alloc: Global, cause: Cause) -> Result<String, AllocError>
    ensures { IfOk result (λ told. string_bytes told ≡ cause_told cause) }
{
    let text = match cause {
        Cause::NoHeader => ": a header is needed, for example x = 3, y = 3\n",
        Cause::Unexpected => ": an unexpected byte\n",
        Cause::CountTooLarge => return format!(in alloc; ": a number above {}\n", COLUMNS),
        Cause::TooWide => ": too wide\n",
        Cause::TooHigh => ": too high\n",
        Cause::TooManyStates => ": more states than the planes hold\n",
        Cause::NoEnd => ": the end, !, is missing\n",
    };
    String::from_str(alloc, text)
}
