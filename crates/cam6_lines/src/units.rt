//! Units: the rows of a band, of as many columns as are looked at together.
ghost use Rattle.std.specs.Prelude.{◌≡◌, ◌≤◌, ◌*◌};
ghost use Rattle.cam6_planes.specs.Side.{side_number};
ghost use Rattle.cam6_lines.specs.Limits.{height};
ghost use Rattle.cam6_lines.specs.Units.{columns};
ghost use Rattle.cam6_lines.specs.declared.units.TheConstants.{UNIT};

use cam6_planes::Side;

/// Words of a unit: sixteen rows of at most 256 columns.
pub const UNIT: usize = 64;

/// The rows of a band, of as many columns as are looked at together, one row after the other.
pub type Unit = [u64; UNIT];

/// Returns how many words of 64 columns a row of a unit has at this side: 2 at side 128, else 4.
pub fn words_of_row(side: Side) -> usize
    ensures value { 64 * result ≡ columns side }
    ensures most { height * result ≤ UNIT }
{
    match side {
        Side::S128 => 2,
        Side::S256 | Side::S512 => 4,
    }
}

/// Returns how many units make a band at this side: 2 at side 512, else 1.
pub fn units_of_band(side: Side) -> usize
    ensures columns { columns side * result ≡ side_number side }
    ensures most { result ≤ 2 }
{
    match side {
        Side::S128 | Side::S256 => 1,
        Side::S512 => 2,
    }
}
