//! The first line of a connection, and its answers.
ghost use Rattle.std.specs.Prelude.{◌≡◌, ◌<◌, ◌≤◌, ◌++◌, [], ◌∷◌, length, Err};
ghost use Rattle.serde_json.specs.View.{view};
ghost use Rattle.cam6_wire.specs.declared.faults.LineFault.TheVariants.{NoMemory};
ghost use Rattle.cam6_wire.specs.Commands.{IsSaid};
ghost use Rattle.cam6_wire.specs.Limits.{limit_of};
ghost use Rattle.cam6_wire.specs.Seats.{seat, seat_in, seating_bytes};

use crate::commands::line_value;
use crate::faults::LineFault;
use crate::fields::{has_size, number_at};
use serde_json::Value;
use std::alloc::Global;

/// The answer to a first line that asks for a user's machine.
#[derive(Clone, Copy, Debug, PartialEq, Eq)]
pub enum Seating {
    /// The connection is the user's from here on.
    Seated,
    /// The user already has a connection.
    Taken,
    /// There is no such user.
    NoUser,
}

/// Returns the number of the user that a first line, without its LF, asks for. Users are counted
/// from 1. Else returns the line's fault, or `NoMemory` if an allocation fails. Does not check that
/// there is such a user.
pub fn read_seat(alloc: Global, line: &[u8]) -> Result<u64, LineFault>
    ensures said { IsSaid result (seat line.now) }
    // An empty line and one that is too long take no memory.
    ensures memory { result ≡ Err NoMemory →
        (0 < length line.now) × (length line.now ≤ limit_of line.now) }
{
    let value = line_value(alloc, line)?;
    seat_shown(&value).ok_or(LineFault::NoCommand)
}

/// Returns the number at `seat` of an object that has no other member. Returns `None` for any other
/// value.
#[tactic(auto, unfolding(crate::specs::Seats::seat_in))]
fn seat_shown(value: &Value) -> Option<u64>
    ensures { result ≡ seat_in (view value.now) }
{
    if !has_size(value, 1) {
        return None;
    }
    number_at(value, "seat")
}

/// Returns the line that answers a first line, with its LF. Does not allocate.
pub fn seating_line(seating: Seating) -> &'static str
    ensures { result.now ≡ seating_bytes seating ++ 10 ∷ [] }
{
    match seating {
        Seating::Seated => "{\"ok\":\"seat\"}\n",
        Seating::Taken => "{\"fault\":80}\n",
        Seating::NoUser => "{\"fault\":81}\n",
    }
}
