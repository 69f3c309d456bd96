//! The exit statuses of a server that can't go on.
ghost use Rattle.std.specs.Prelude.{◌≡◌};
ghost use Rattle.cam6_web_cli.specs.Statuses.{fault as fault_told};

use cam6_arguments::{NETWORK_FAILED, NO_MEMORY, Program};

/// Why a server can't go on.
#[derive(Clone, Copy, Debug, PartialEq, Eq)]
pub enum Fault {
    /// An allocation failed at the start.
    NoMemory,
    /// It can't listen at its port, or can't accept a connection.
    Network,
}

/// Returns the exit status of a server that can't go on, and its line, with its LF, for standard
/// error.
pub fn fault_of(fault: Fault) -> (u8, &'static str)
    ensures { (result.0, result.1.now) ≡ fault_told fault }
{
    match fault {
        Fault::NoMemory => (NO_MEMORY, Program::Web.no_memory()),
        Fault::Network => (NETWORK_FAILED, "cam6_web: network failed\n"),
    }
}
