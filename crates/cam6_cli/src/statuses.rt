//! The exit statuses of the program.
ghost use Rattle.std.specs.Prelude.{◌≡◌, option_map};
ghost use Rattle.cam6_cli.specs.Statuses.{failure, fault as fault_told};

use cam6_arguments::{NETWORK_FAILED, NO_MEMORY, WRITE_FAILED};
use cam6_server::Fault;
use cam6_session::End;

pub const READ_FAILED: u8 = 3;

pub const TURN_BOUND_REACHED: u8 = 6;

/// A thread for a board could not be started.
pub const NO_THREAD: u8 = 8;

/// Returns the exit status of a session that failed, with its line, LF included, for standard
/// error. Returns `None` if all lines were answered.
pub fn failure_of(end: End) -> Option<(u8, &'static str)>
    ensures { option_map (λ f. (f.0, f.1.now)) result ≡ failure end }
{
    match end {
        End::EndOfInput => None,
        End::ReadFault => Some((READ_FAILED, "cam6: read failed\n")),
        End::WriteFault => Some((WRITE_FAILED, "cam6: write failed\n")),
        End::NoMemory { .. } => Some((NO_MEMORY, "cam6: no memory\n")),
        End::TurnBound => Some((TURN_BOUND_REACHED, "cam6: turn bound reached\n")),
    }
}

/// Returns the exit status of a host that can't go on, with its line, LF included, for standard
/// error.
pub fn fault_of(fault: Fault) -> (u8, &'static str)
    ensures { (result.0, result.1.now) ≡ fault_told fault }
{
    match fault {
        Fault::NoMemory => (NO_MEMORY, "cam6: no memory\n"),
        Fault::Network => (NETWORK_FAILED, "cam6: network failed\n"),
        Fault::NoThread => (NO_THREAD, "cam6: no thread\n"),
    }
}
