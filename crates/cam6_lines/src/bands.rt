//! Sixteen rows of planes that are looked at together, with the rows beside them.
ghost use Rattle.std.specs.Prelude.{◌≡◌, ◌<◌, ◌+◌};
ghost use Rattle.cam6_planes.specs.Cells.{Cells, IsRow};
ghost use Rattle.cam6_planes.specs.Row.{west_of};
ghost use Rattle.cam6_wiring.specs.Lines.{AreRowsAround};
ghost use Rattle.cam6_lines.specs.Limits.{height};
ghost use Rattle.cam6_lines.specs.Bands.{IsBandOf, IsWithin, side_of};

use cam6_planes::{CellRow, Planes, Side};
use cam6_wiring::Rows;

/// Rows of a band.
pub const HEIGHT: usize = 16;

/// Sixteen rows of planes, with the row to their north and the one to their south. These two may
/// lie elsewhere: in the middle of a step the planes have new rows there.
#[derive(Clone, Copy)]
pub struct Band<'a> {
    pub planes: &'a Planes,
    /// The first row's number.
    pub first: usize,
    pub north: &'a CellRow,
    pub south: &'a CellRow,
}

impl<'a> Band<'a> {
    /// Lends row `r` of the band, from 0 to 15, with the rows to its north and to its south. The
    /// band has to lie in its planes.
    pub fn around(&self, r: usize) -> Rows<'a>
        requires within { IsWithin self.now }
        requires row { r < height }
        ensures rows { (f : Cells) → IsBandOf f self.now →
            AreRowsAround f (self.now.first + r) result }
        ensures side { result.side ≡ self.now.planes.now.side }
    {
        Rows {
            side: self.planes.side(),
            north: self.above(r),
            here: self.planes.row(self.first + r),
            south: self.above(r + 2),
        }
    }

    /// Lends the row to the north of row `r` of the band, with `r` from 0 to 17. For row 0 it is
    /// the row to the north of the band, and for row 17 the row to its south. The band has to lie
    /// in its planes.
    #[inline(always)]
    pub(crate) fn above(&self, r: usize) -> &'a CellRow
        requires within { IsWithin self.now }
        requires row { r < height + 2 }
        ensures { (f : Cells) → IsBandOf f self.now → IsRow (side_of self.now) f
            (west_of (side_of self.now) (self.now.first + r)) result.now }
    {
        if r == 0 {
            self.north
        } else if r == HEIGHT + 1 {
            self.south
        } else {
            self.planes.row(self.first + r - 1)
        }
    }
}
