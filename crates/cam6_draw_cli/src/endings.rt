//! How a program ends.
ghost use Rattle.std.specs.Prelude.{◌≡◌, MatchOption};
ghost use Rattle.std.specs.Process.{exit_status};
ghost use Rattle.cam6_draw_cli.specs.Statuses.{failure};

use crate::statuses::failure_of;
use cam6_arguments::{Program, report_failure};
use cam6_show_frames::End;
use std::process::ExitCode;

/// Returns the exit status for how a program's work ended: 0 for `EndOfInput`. Any other end is a
/// failure, and its line is printed to standard error.
pub fn report_end<R: Eprint + AllocGlobal>(rt: &R, program: Program, end: End) -> ExitCode
    ensures { MatchOption (failure program end) (exit_status result ≡ 0)
        (λ told. exit_status result ≡ told.0) }
{
    match failure_of(rt.alloc(), program, end) {
        Some((status, Ok(text))) => report_failure(rt, status, text.as_str()),
        Some((status, Err(_))) => report_failure(rt, status, program.no_memory_to_say_why()),
        None => ExitCode::SUCCESS,
    }
}
