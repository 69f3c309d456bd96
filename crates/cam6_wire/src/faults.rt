//! Why a line isn't a command, an event, or a first line that asks for a seat.
ghost use Rattle.std.specs.Prelude.{◌≡◌};
ghost use Rattle.cam6_wire.specs.Faults.{fault_number};

use std::alloc::{AllocError, AllocFailed};

/// Why a line isn't read as a command, as an event, or as a first line that asks for a seat.
#[derive(Clone, Copy, Debug, PartialEq, Eq)]
pub enum LineFault {
    /// An allocation failed.
    NoMemory,
    /// The line is longer than its limit, which depends on how it begins.
    TooLong,
    /// The line isn't a JSON value.
    NoJson,
    /// The line is a JSON value that is no command, no event, or asks for no seat.
    NoCommand,
    /// The line loads a machine, but not in the machine's spelling of either version.
    OtherSpelling,
}

impl LineFault {
    /// Returns the fault's number in replies, from 1 to 4. It is 0 for a failed allocation, which
    /// has no reply.
    pub fn number(self) -> u8
        ensures { result ≡ fault_number self }
    {
        match self {
            LineFault::NoMemory => 0,
            LineFault::TooLong => 1,
            LineFault::NoJson => 2,
            LineFault::NoCommand => 3,
            LineFault::OtherSpelling => 4,
        }
    }
}

impl From<AllocError> for LineFault {
    ghost use Rattle.cam6_wire.specs.declared.faults.LineFault.TheVariants.{NoMemory};

    ghost from_gives = { λ _ e. e ≡ NoMemory };

    /// Returns `NoMemory` for a failed allocation, which is no fault of the line.
    fn from(_refused: AllocError) -> LineFault {
        LineFault::NoMemory
    }
}

impl<T: Drop> From<AllocFailed<T>> for LineFault {
    ghost use Rattle.cam6_wire.specs.declared.faults.LineFault.TheVariants.{NoMemory};

    ghost from_gives = { λ _ e. e ≡ NoMemory };

    /// Drops the value that couldn't be stored, and returns `NoMemory`.
    fn from(_refused: AllocFailed<T>) -> LineFault {
        LineFault::NoMemory
    }
}
