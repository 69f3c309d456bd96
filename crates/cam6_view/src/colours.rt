//! The colours of a row of cells.
ghost use Rattle.std.specs.Prelude.{◌≡◌, ◌<◌, ◌*◌, take, drop};
ghost use Rattle.cam6_planes.specs.Cells.{cells};
ghost use Rattle.cam6_planes.specs.Row.{bit_number, column_bit};
ghost use Rattle.cam6_planes.specs.Stored.{width};
ghost use Rattle.cam6_planes.specs.declared.row.TheConstants.{WORDS};
ghost use Rattle.cam6_view.specs.States.{row_colours};
ghost use Rattle.cam6_view.specs.Internal.{state_in_row};

use cam6_band::AtRest;
use cam6_planes::{COLUMNS, CellRow, Row};

/// Colours of a row of the largest side.
pub const COLOURS: usize = COLUMNS;

/// Writes the colour of each cell of row `y` to `colours`, from column 0 on. Returns how many there
/// are, which is the side. Later places of `colours` stay as they were. `map` has the colour of
/// each state, in which bit k is plane k's. Row `y` is below the side.
pub fn colour_row(rest: &AtRest, map: &[u8; 16], y: usize, colours: &mut [u8; COLOURS]) -> usize
    requires row { y < width rest.now.planes }
    ensures count { result ≡ width rest.now.planes }
    ensures value { take result colours.new
        ≡ row_colours result map.now (cells rest.now.planes) y }
    ensures past { drop result colours.new ≡ drop result colours.old }
{
    let planes = rest.planes();
    let side = planes.side().number();
    let rows = planes.row(y);
    for x in 0..side {
        colours[x] = map[state_in_row(rows, x)];
    }
    side
}

/// Returns the state of the cell at column `x` of a row, from 0 to 15. Bit k is that of plane k.
/// `x` is below 512.
fn state_in_row(rows: &CellRow, x: usize) -> usize
    requires { x < 64 * WORDS }
    ensures value { result ≡ state_in_row rows.now x }
    ensures bound { result < 16 }
{
    bit_in_row(&rows[0], x)
        + 2 * bit_in_row(&rows[1], x)
        + 4 * bit_in_row(&rows[2], x)
        + 8 * bit_in_row(&rows[3], x)
}

/// Returns the bit of a plane's row at column `x`, below 512, as 0 or 1.
fn bit_in_row(row: &Row, x: usize) -> usize
    requires { x < 64 * WORDS }
    ensures value { result ≡ bit_number (column_bit row.now x) }
    ensures bound { result < 2 }
{
    (row[x / 64] >> (63 - x % 64) & 1) as usize
}
