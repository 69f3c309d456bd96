//! What a cell sees, and the address that it shows.
ghost use Rattle.std.specs.Prelude.{◌≡◌, ◌<◌, ◌^◌};
ghost use Rattle.cam6_planes.specs.Cells.{cells};
ghost use Rattle.cam6_planes.specs.Row.{bit_number, west_of, east_of};
ghost use Rattle.cam6_planes.specs.Side.{side_number};
ghost use Rattle.cam6_planes.specs.Stored.{width};
ghost use Rattle.cam6_wiring.specs.declared.wirings.TheConstants.{LINES};
ghost use Rattle.cam6_wiring.specs.Seen.{seen, seen_beside, seen_in_block, line_shows, address};
ghost use Rattle.cam6_wiring.specs.Seen.{column_beside, row_beside};

use crate::blocks::{Grid, corner_of, in_block, side_in_block};
use crate::names::{Compass, Half, Name, Phase, Rotation};
use crate::wirings::{Hood, LINES, Minor, names_of};
use cam6_planes::{Planes, Side};

/// What is the same for every cell of a half during one step.
#[derive(Clone, Copy, Debug, PartialEq, Eq)]
pub struct Setting {
    pub half: Half,
    pub grid: Grid,
    pub phase: Phase,
}

/// Returns the table address, below 4096, of the cell at column `x` of row `y`, both below the
/// side. Bit k of it, the lowest being bit 0, is what the cell sees under the name of line k. It is
/// 0 if the line has no name.
pub fn address_at(
    planes: &Planes,
    half: Half,
    hood: Hood,
    minor: Minor,
    grid: Grid,
    phase: Phase,
    x: usize,
    y: usize,
) -> u16
    requires column { x < width planes.now }
    requires row { y < width planes.now }
    ensures address { result ≡ address (width planes.now) (cells planes.now)
        (record { half = half; grid = grid; phase = phase }) hood minor x y }
    ensures within { result < 2 ^ LINES }
{
    let setting = Setting { half, grid, phase };
    let names = names_of(hood, minor);
    let mut address = 0;
    for line in 0..LINES {
        let bit = line_bit(planes, setting, names[LINES - 1 - line], x, y);
        address = 2 * address + bit;
    }
    address
}

/// Returns the bit, 0 or 1, that the cell at column `x` of row `y`, both below the side, sees under
/// a line's name. Returns 0 for a line without a name.
fn line_bit(planes: &Planes, setting: Setting, line: Option<Name>, x: usize, y: usize) -> u16
    requires column { x < width planes.now }
    requires row { y < width planes.now }
    ensures bit { result ≡ bit_number
        (line_shows (λ name. seen (width planes.now) (cells planes.now) setting name x y) line) }
    ensures within { result < 2 }
{
    match line {
        Some(name) => u16::from(seen(planes, setting, name, x, y)),
        None => 0,
    }
}

/// Returns the bit that the cell at column `x` of row `y`, both below the side, sees under a name.
/// HORZ is 1 in the right columns of blocks, and VERT in the lower rows.
pub fn seen(planes: &Planes, setting: Setting, name: Name, x: usize, y: usize) -> bool
    requires column { x < width planes.now }
    requires row { y < width planes.now }
    ensures { result ≡ seen (width planes.now) (cells planes.now) setting name x y }
{
    let Setting { half, grid, phase } = setting;
    match name {
        Name::Beside(compass, level) => seen_beside(planes, compass, half.plane(level), x, y),
        Name::InBlock(rotation, level) => seen_in_block(
            planes,
            grid,
            rotation,
            half.plane(level),
            x,
            y,
        ),
        Name::MinorCenter(level) => {
            seen_beside(planes, Compass::Center, half.other().plane(level), x, y)
        }
        Name::Phase(level) | Name::MinorPhase(level) => phase.bit(level),
        Name::Horz | Name::MinorHorz => side_in_block(grid, x) == 1,
        Name::Vert | Name::MinorVert => side_in_block(grid, y) == 1,
    }
}

/// Returns the bit of plane `p` in the cell that lies in this direction from column `x` of row `y`,
/// round the torus. At the centre it is the bit of that cell itself. `p` has to be below 4, and `x`
/// and `y` below the side.
fn seen_beside(planes: &Planes, compass: Compass, p: usize, x: usize, y: usize) -> bool
    requires plane { p < 4 }
    requires column { x < width planes.now }
    requires row { y < width planes.now }
    ensures { result ≡ seen_beside (width planes.now) (cells planes.now) compass p x y }
{
    let side = planes.side();
    planes.bit(
        p,
        column_beside(side, compass, x),
        row_beside(side, compass, y),
    )
}

/// Returns the column that lies in this direction from column `x`, round the torus. It is `x`
/// itself if the direction has neither west nor east. `x` has to be below the side.
fn column_beside(side: Side, compass: Compass, x: usize) -> usize
    requires { x < side_number side }
    ensures column { result ≡ column_beside (side_number side) compass x }
    ensures within { result < side_number side }
{
    match compass {
        Compass::Center | Compass::North | Compass::South => x,
        Compass::West | Compass::NorthWest | Compass::SouthWest => west_of(side, x),
        Compass::East | Compass::NorthEast | Compass::SouthEast => east_of(side, x),
    }
}

/// Returns the row that lies in this direction from row `y`, round the torus. North is the row
/// before. It is `y` itself without north or south. `y` has to be below the side.
fn row_beside(side: Side, compass: Compass, y: usize) -> usize
    requires { y < side_number side }
    ensures row { result ≡ row_beside (side_number side) compass y }
    ensures within { result < side_number side }
{
    match compass {
        Compass::Center | Compass::West | Compass::East => y,
        Compass::North | Compass::NorthWest | Compass::NorthEast => west_of(side, y),
        Compass::South | Compass::SouthWest | Compass::SouthEast => east_of(side, y),
    }
}

/// The column to the west of `x`, round the torus: `x - 1`, or the last column for 0. `x` has to be
/// below the side.
pub(crate) fn west_of(side: Side, x: usize) -> usize
    requires { x < side_number side }
    ensures column { result ≡ west_of (side_number side) x }
    ensures within { result < side_number side }
{
    if x == 0 { side.number() - 1 } else { x - 1 }
}

/// The column to the east of `x`, round the torus: `x + 1`, or 0 for the last column. `x` has to be
/// below the side.
pub(crate) fn east_of(side: Side, x: usize) -> usize
    requires { x < side_number side }
    ensures column { result ≡ east_of (side_number side) x }
    ensures within { result < side_number side }
{
    if x + 1 == side.number() { 0 } else { x + 1 }
}

/// Returns the bit of plane `p` in the cell at this rotation from the cell at column `x` of row
/// `y`, in their common block. `p` has to be below 4, and `x` and `y` below the side.
fn seen_in_block(
    planes: &Planes,
    grid: Grid,
    rotation: Rotation,
    p: usize,
    x: usize,
    y: usize,
) -> bool
    requires plane { p < 4 }
    requires column { x < width planes.now }
    requires row { y < width planes.now }
    ensures { result ≡ seen_in_block (width planes.now) (cells planes.now) grid rotation p x y }
{
    let compass = in_block(corner_of(grid, x, y), rotation);
    seen_beside(planes, compass, p, x, y)
}
