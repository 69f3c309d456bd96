//! How a program reads its arguments, and how it ends.
ghost use Rattle.std.specs.Prelude.{◌≡◌, ◌≢◌, ◌⊎◌, IfErr};
ghost use Rattle.std.specs.Process.{exit_status};
ghost use Rattle.std.specs.declared.io.ErrorKind.{ErrorKind};
ghost use Rattle.cam6_arguments.specs.Refusals.{IsUnreadable, refusal};

use crate::programs::Program;
use crate::refusals::{Refused, refusal_of, refusal_of_read};
use crate::statuses::WRITE_FAILED;
use std::env::Env;
use std::process::ExitCode;

/// Reads the program's arguments, of which the first is its name. Returns the refusal if an
/// argument isn't UTF-8, or if an allocation fails.
pub fn read_arguments<R: Env + AllocGlobal>(
    rt: &R,
    program: Program,
) -> Result<Vec<String>, Refused>
    ensures { IfErr result (λ refused. (kind : ErrorKind) × IsUnreadable program refused kind) }
{
    let args = match std::env::args(rt) {
        Ok(args) => args,
        Err(e) => return Err(refusal_of_read(rt.alloc(), program, e.kind())),
    };
    match args.collect::<Vec<String>>(rt.alloc()) {
        Ok(words) => Ok(words),
        Err(_) => Err(Refused::NoMemory),
    }
}

/// Prints help or the version to standard output, or the refusal of the arguments to standard
/// error. Returns the exit status: 0 for help, 2 for refused arguments, 5 for a failed allocation.
/// It is 4 if help can't be written, which is then reported.
pub fn refuse(rt: &(impl Print + Eprint), program: Program, refused: &Refused) -> ExitCode
    ensures refused { (refusal program refused.now).0 ≢ 0
        → exit_status result ≡ (refusal program refused.now).0 }
    // Help has the status of a failed write if it can't be written.
    ensures help { (refusal program refused.now).0 ≡ 0
        → (exit_status result ≡ 0) ⊎ (exit_status result ≡ 4) }
{
    let (status, text) = refusal_of(program, refused);
    if status != 0 {
        return report_failure(rt, status, text);
    }
    match rt.print(text) {
        Ok(()) => ExitCode::SUCCESS,
        Err(_) => report_failure(rt, WRITE_FAILED, program.write_failed()),
    }
}

/// Prints a text to standard error, and returns this exit status. The text has its LF. A failure to
/// print it isn't reported.
pub fn report_failure(rt: &impl Eprint, status: u8, text: &str) -> ExitCode
    ensures { exit_status result ≡ status }
{
    // Standard error is the last place for a report, so a failure to write there isn't reported.
    let _ = rt.eprint(text);
    ExitCode::from(status)
}
