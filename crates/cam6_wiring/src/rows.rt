//! What every cell of a row sees under a name, a whole row at once.
ghost use Rattle.std.specs.Prelude.{◌≡◌, ◌<◌, ◌*◌, ◌==◌, ℕ};
ghost use Rattle.cam6_planes.specs.Cells.{Cells, torus, cells, IsRow};
ghost use Rattle.cam6_planes.specs.Row.{column_bit};
ghost use Rattle.cam6_planes.specs.Side.{side_number};
ghost use Rattle.cam6_planes.specs.Stored.{width};
ghost use Rattle.cam6_planes.specs.declared.row.TheConstants.{WORDS};
ghost use Rattle.cam6_wiring.specs.Block.{side_in_block};
ghost use Rattle.cam6_wiring.specs.Lines.{AreRowsAround, sees_at};
ghost use Rattle.cam6_wiring.specs.Seen.{seen_beside, seen_in_block, column_beside, row_beside};

use crate::blocks::{Grid, corner_of, in_block, side_in_block};
use crate::columns::{put_odd_columns, right_columns, row_of};
use crate::names::{Compass, Name, Rotation};
use crate::neighbours::{Setting, east_of, west_of};
use cam6_planes::{CellRow, Planes, Row, Side, WORDS, put_east, put_west};

/// A row of all four planes, with the rows to its north and to its south round the torus.
#[derive(Clone, Copy)]
pub struct Rows<'a> {
    pub side: Side,
    pub north: &'a CellRow,
    pub here: &'a CellRow,
    pub south: &'a CellRow,
}

impl<'a> Rows<'a> {
    /// Lends row `y` of the planes, with the rows to its north and to its south, round the torus.
    /// `y` has to be below the side.
    pub fn around(planes: &'a Planes, y: usize) -> Rows<'a>
        requires { y < width planes.now }
        ensures rows { AreRowsAround (cells planes.now) y result }
        ensures side { result.side ≡ planes.now.side }
    {
        let side = planes.side();
        Rows {
            side,
            north: planes.row(west_of(side, y)),
            here: planes.row(y),
            south: planes.row(east_of(side, y)),
        }
    }
}

/// Writes to `line`, at each column of row `y`, the bit that the cell there sees under a name. `y`
/// has to be the number of the middle row of `rows`. Words past the side may hold anything.
pub(crate) fn put_seen(line: &mut Row, setting: Setting, name: Name, y: usize, rows: &Rows)
    requires { y < side_number rows.now.side }
    ensures { (f : Cells) → AreRowsAround f y rows.now →
        (x : ℕ) → x < side_number rows.now.side →
        column_bit line.new x ≡ sees_at (side_number rows.now.side) f setting x y name }
{
    let Setting { half, grid, phase } = setting;
    match name {
        Name::Beside(compass, level) => put_beside(line, compass, half.plane(level), rows),
        Name::InBlock(rotation, level) => put_in_block(
            line,
            grid,
            rotation,
            half.plane(level),
            y,
            rows,
        ),
        Name::MinorCenter(level) => {
            put_beside(line, Compass::Center, half.other().plane(level), rows)
        }
        Name::Phase(level) | Name::MinorPhase(level) => *line = row_of(phase.bit(level)),
        Name::Horz | Name::MinorHorz => *line = right_columns(grid),
        Name::Vert | Name::MinorVert => *line = row_of(side_in_block(grid, y) == 1),
    }
}

/// Writes to `line`, at each column of row `y`, the bit of plane `p` in the block's cell at this
/// rotation. `y` has to be the middle row of `rows`, and `p` below 4. Cells of even columns are at
/// one corner of their block, and those of odd columns at another.
fn put_in_block(line: &mut Row, grid: Grid, rotation: Rotation, p: usize, y: usize, rows: &Rows)
    requires plane { p < 4 }
    requires row { y < side_number rows.now.side }
    ensures { (f : Cells) → AreRowsAround f y rows.now →
        (x : ℕ) → x < side_number rows.now.side → let s = side_number rows.now.side in
        column_bit line.new x ≡ seen_in_block s (torus s f) grid rotation p x y }
{
    let mut odd = [0; WORDS];
    put_beside(&mut odd, in_block(corner_of(grid, 1, y), rotation), p, rows);
    put_beside(line, in_block(corner_of(grid, 0, y), rotation), p, rows);
    put_odd_columns(line, &odd);
}

/// Writes to `line`, at each column, the bit of plane `p` in the cell that lies in this direction
/// from the middle row's cell. West and east go round the torus. `p` has to be below 4.
fn put_beside(line: &mut Row, compass: Compass, p: usize, rows: &Rows)
    requires plane { p < 4 }
    ensures { (f : Cells) (y : ℕ) → AreRowsAround f y rows.now → y < side_number rows.now.side →
        (x : ℕ) → x < side_number rows.now.side → let s = side_number rows.now.side in
        column_bit line.new x ≡ seen_beside s (torus s f) compass p x y }
{
    let row = &row_beside(rows, compass)[p];
    put_columns_beside(line, compass, row, rows.side);
}

/// Writes to `line`, at each column, the bit that `row` has in the column to the west or east,
/// round the torus. If the direction has neither, copies `row`.
fn put_columns_beside(line: &mut Row, compass: Compass, row: &Row, side: Side)
    ensures { let s = side_number side in
        (x : ℕ) → x < s → column_bit line.new x ≡ column_bit row.now (column_beside s compass x) }
{
    match compass {
        Compass::Center | Compass::North | Compass::South => *line = *row,
        Compass::West | Compass::NorthWest | Compass::SouthWest => put_west(line, row, side),
        Compass::East | Compass::NorthEast | Compass::SouthEast => put_east(line, row, side),
    }
}

/// Returns the row to the north or south of the middle row, or the middle row itself if the
/// direction has neither.
fn row_beside<'a>(rows: &Rows<'a>, compass: Compass) -> &'a CellRow
    ensures { (f : Cells) (y : ℕ) → AreRowsAround f y rows.now →
        let s = side_number rows.now.side in IsRow s f (row_beside s compass y) result.now }
{
    match compass {
        Compass::Center | Compass::West | Compass::East => rows.here,
        Compass::North | Compass::NorthWest | Compass::NorthEast => rows.north,
        Compass::South | Compass::SouthWest | Compass::SouthEast => rows.south,
    }
}
