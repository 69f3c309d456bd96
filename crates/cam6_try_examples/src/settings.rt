//! Settings that the words of a way and the lines of an example say.
ghost use Rattle.std.specs.Prelude.{◌<◌, ◌≤◌, IfOk};

use crate::faults::Unplayable;
use cam6_planes::Side;
use cam6_wiring::{Half, Hood, Minor, Wiring};

/// Returns the limit in `within NUMBER`, the number of a side, or 256 for an empty text. Any other
/// text is an error.
pub fn limit_of(text: &str) -> Result<Side, Unplayable> {
    if text.is_empty() {
        return Ok(Side::S256);
    }
    side_of(text.strip_prefix("within ").ok_or(Unplayable::Unread)?)
}

/// Returns the side of this number, in decimal. Any other text is an error.
pub fn side_of(number: &str) -> Result<Side, Unplayable> {
    Side::named(number).ok_or(Unplayable::Unread)
}

/// Returns the decimal number that a text has, from 1 to `most`. Any other text is an error.
pub fn size_of(text: &str, most: usize) -> Result<usize, Unplayable>
    ensures { IfOk result (λ size. (0 < size) × (size ≤ most)) }
{
    let size = text.parse().map_err(|_| Unplayable::Unread)?;
    if (1..=most).contains(&size) {
        Ok(size)
    } else {
        Err(Unplayable::Unread)
    }
}

/// Returns the wiring of a text `HALF HOOD MINOR`, for example `A N/VONN &/CENTERS`. Any other text
/// is an error.
pub fn wiring_of(text: &str) -> Result<Wiring, Unplayable> {
    match wiring_before(text) {
        Some((wiring, "")) => Ok(wiring),
        _ => Err(Unplayable::Unread),
    }
}

/// Returns the wiring of a text that begins with `HALF HOOD MINOR`, and what comes after the next
/// space, or nothing. Returns `None` for any other text.
pub fn wiring_before(text: &str) -> Option<(Wiring, &str)> {
    let (half, rest) = text.split_once(' ')?;
    let (hood, rest) = rest.split_once(' ')?;
    let (minor, rest) = rest.split_once(' ').unwrap_or((rest, ""));
    let wiring = Wiring {
        half: Half::named(half)?,
        hood: Hood::named(hood)?,
        minor: Minor::named(minor)?,
    };
    Some((wiring, rest))
}
