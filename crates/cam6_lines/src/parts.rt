//! Parts: what the cells of a unit see under a name, also in the rows beside the band.
ghost use Rattle.std.specs.Prelude.{◌≡◌, ◌<◌, ◌≤◌, ◌+◌, ◌-◌, ◌*◌, ◌==◌, ℕ};
ghost use Rattle.cam6_planes.specs.Cells.{Cells};
ghost use Rattle.cam6_planes.specs.Row.{column_bit};
ghost use Rattle.cam6_wiring.specs.declared.blocks.Grid.TheVariants.{Even, Odd};
ghost use Rattle.cam6_wiring.specs.declared.names.Compass.TheVariants.{Center, West, East};
ghost use Rattle.cam6_wiring.specs.Block.{side_in_block};
ghost use Rattle.cam6_lines.specs.Bands.{IsBandOf, IsWithin, side_of};
ghost use Rattle.cam6_lines.specs.Limits.{height};
ghost use Rattle.cam6_lines.specs.Units.{columns};
ghost use Rattle.cam6_lines.specs.Internal.Parts.{first_beside, first_row, ShowsPart, ShowsBeside};
ghost use Rattle.cam6_lines.specs.Internal.Parts.{ShowsInBlock, ShowsRowsBeside, ShowsRowsInBlock};
ghost use Rattle.cam6_lines.specs.declared.parts.TheConstants.{PART};
ghost use Rattle.cam6_lines.specs.declared.rows.TheConstants.{ROW_WORDS};

use crate::bands::{Band, HEIGHT};
use crate::rows::{ROW_WORDS, UnitRow, is_lower, row_seen, seen_beside, seen_in_block};
use cam6_planes::Side;
use cam6_wiring::{Compass, Grid, Name, Rotation, Setting};

/// Words of a part: eighteen rows of at most 256 columns.
pub(crate) const PART: usize = 72;

/// Eighteen rows of a unit's columns. The first is of the row to the north of a band, and the last
/// of the row to its south.
pub(crate) type SeenRows = [u64; PART];

/// Writes to `part` what the cells in the unit's columns see under a name. All eighteen rows are
/// made for the centre, west and east, else rows 1 to 16. A row of the unit has to have `W` words,
/// so loops over its words are compiled for as many. `unit` is its number in the band, from 0.
#[inline(always)]
pub(crate) fn put_part<const W: usize>(
    part: &mut SeenRows,
    side: Side,
    setting: &Setting,
    name: Name,
    band: &Band,
    unit: usize,
)
    requires words { 64 * W ≡ columns band.now.planes.now.side }
    requires side { side ≡ band.now.planes.now.side }
    requires within { IsWithin band.now }
    requires unit { columns band.now.planes.now.side * unit < side_of band.now }
    ensures { (f : Cells) → IsBandOf f band.now → ShowsPart f setting.now name band.now unit part.new }
{
    let Setting { half, grid, .. } = *setting;
    match name {
        Name::Beside(Compass::Center, level) => put_here::<W>(
            part,
            side,
            half.plane(level),
            band,
            unit,
        ),
        Name::Beside(Compass::West, level) => put_west::<W>(
            part,
            side,
            half.plane(level),
            band,
            unit,
        ),
        Name::Beside(Compass::East, level) => put_east::<W>(
            part,
            side,
            half.plane(level),
            band,
            unit,
        ),
        Name::MinorCenter(level) => {
            put_here::<W>(part, side, half.other().plane(level), band, unit)
        }
        Name::InBlock(rotation, level) => match grid {
            Grid::Even => put_in_even_blocks::<W>(
                part,
                side,
                rotation,
                half.plane(level),
                band,
                unit,
            ),
            Grid::Odd => put_in_odd_blocks::<W>(
                part,
                side,
                rotation,
                half.plane(level),
                band,
                unit,
            ),
        },
        _ => put_rows::<W>(part, side, setting, name, band, unit),
    }
}

/// Writes to `part` what the cells in the unit's columns see under any name, in each row from
/// `first_row` on that is made for it. The functions below are for names that many lines have. Each
/// has a loop of its own, so that no row asks anew where its cells look.
fn put_rows<const W: usize>(
    part: &mut SeenRows,
    side: Side,
    setting: &Setting,
    name: Name,
    band: &Band,
    unit: usize,
)
    requires words { 64 * W ≡ columns band.now.planes.now.side }
    requires side { side ≡ band.now.planes.now.side }
    requires within { IsWithin band.now }
    requires unit { columns band.now.planes.now.side * unit < side_of band.now }
    ensures { (f : Cells) → IsBandOf f band.now → ShowsPart f setting.now name band.now unit part.new }
{
    let first = first_row(name);
    for j in first..HEIGHT + 2 - first {
        put_row::<W>(part, W * j, row_seen(side, *setting, name, band, unit, j));
    }
}

/// Writes to all eighteen rows of `part` the bits of the unit's own columns in plane `p`.
#[inline(always)]
fn put_here<const W: usize>(part: &mut SeenRows, side: Side, p: usize, band: &Band, unit: usize)
    requires words { 64 * W ≡ columns band.now.planes.now.side }
    requires side { side ≡ band.now.planes.now.side }
    requires plane { p < 4 }
    requires within { IsWithin band.now }
    requires unit { columns band.now.planes.now.side * unit < side_of band.now }
    ensures { (f : Cells) → IsBandOf f band.now → ShowsBeside f Center p band.now unit part.new }
{
    put_beside::<W>(part, side, Compass::Center, p, band, unit);
}

/// Writes to all eighteen rows of `part`, at each column of the unit, the bit of plane `p` in the
/// column to the west. West of column 0 is the last column.
#[inline(always)]
fn put_west<const W: usize>(part: &mut SeenRows, side: Side, p: usize, band: &Band, unit: usize)
    requires words { 64 * W ≡ columns band.now.planes.now.side }
    requires side { side ≡ band.now.planes.now.side }
    requires plane { p < 4 }
    requires within { IsWithin band.now }
    requires unit { columns band.now.planes.now.side * unit < side_of band.now }
    ensures { (f : Cells) → IsBandOf f band.now → ShowsBeside f West p band.now unit part.new }
{
    put_beside::<W>(part, side, Compass::West, p, band, unit);
}

/// Writes to all eighteen rows of `part`, at each column of the unit, the bit of plane `p` in the
/// column to the east. East of the last column is column 0.
#[inline(always)]
fn put_east<const W: usize>(part: &mut SeenRows, side: Side, p: usize, band: &Band, unit: usize)
    requires words { 64 * W ≡ columns band.now.planes.now.side }
    requires side { side ≡ band.now.planes.now.side }
    requires plane { p < 4 }
    requires within { IsWithin band.now }
    requires unit { columns band.now.planes.now.side * unit < side_of band.now }
    ensures { (f : Cells) → IsBandOf f band.now → ShowsBeside f East p band.now unit part.new }
{
    put_beside::<W>(part, side, Compass::East, p, band, unit);
}

/// Writes to all eighteen rows of `part` the bits of plane `p` in this direction from the unit's
/// columns. The direction has to be the centre, west or east. The first row and the last one lie
/// outside the band, so they are written apart from the others.
#[inline(always)]
fn put_beside<const W: usize>(
    part: &mut SeenRows,
    side: Side,
    compass: Compass,
    p: usize,
    band: &Band,
    unit: usize,
)
    requires words { 64 * W ≡ columns band.now.planes.now.side }
    requires side { side ≡ band.now.planes.now.side }
    requires compass { first_beside compass ≡ 0 }
    requires plane { p < 4 }
    requires within { IsWithin band.now }
    requires unit { columns band.now.planes.now.side * unit < side_of band.now }
    ensures { (f : Cells) → IsBandOf f band.now → ShowsBeside f compass p band.now unit part.new }
{
    // A copy, since no write to the part can change it: its fields are fetched once.
    let own = *band;
    put_row_beside::<W>(part, side, compass, p, &own, unit, 0);
    for j in 1..HEIGHT + 1 {
        put_row_beside::<W>(part, side, compass, p, &own, unit, j);
    }
    put_row_beside::<W>(part, side, compass, p, &own, unit, HEIGHT + 1);
}

/// Writes row `j` of `part`: at each column of the unit, the bit of plane `p` in this direction.
/// Earlier rows stay as they are. Towards north or south `j` has to be from 1 to 16, else from 0 to
/// 17.
#[inline(always)]
fn put_row_beside<const W: usize>(
    part: &mut SeenRows,
    side: Side,
    compass: Compass,
    p: usize,
    band: &Band,
    unit: usize,
    j: usize,
)
    requires words { 64 * W ≡ columns band.now.planes.now.side }
    requires side { side ≡ band.now.planes.now.side }
    requires plane { p < 4 }
    requires within { IsWithin band.now }
    requires unit { columns band.now.planes.now.side * unit < side_of band.now }
    requires first { first_beside compass ≤ j }
    requires last { j + first_beside compass < height + 2 }
    ensures { (f : Cells) → IsBandOf f band.now →
        ShowsRowsBeside f compass p band.now unit j part.old →
        ShowsRowsBeside f compass p band.now unit (j + 1) part.new }
{
    put_row::<W>(part, W * j, seen_beside(side, compass, p, band, unit, j));
}

/// Writes to rows 1 to 16 of `part` what the unit's cells see of plane `p` at this rotation in
/// their blocks of the even grid. The columns of a block lie in one word. Each inner call gets the
/// grid and the rotation as constants, so its loop is compiled for them alone.
#[inline(never)]
fn put_in_even_blocks<const W: usize>(
    part: &mut SeenRows,
    side: Side,
    rotation: Rotation,
    p: usize,
    band: &Band,
    unit: usize,
)
    requires words { 64 * W ≡ columns band.now.planes.now.side }
    requires side { side ≡ band.now.planes.now.side }
    requires plane { p < 4 }
    requires within { IsWithin band.now }
    requires unit { columns band.now.planes.now.side * unit < side_of band.now }
    ensures { (f : Cells) → IsBandOf f band.now →
        ShowsInBlock f Even rotation p band.now unit part.new }
{
    let lower = is_lower(Grid::Even, band, 1);
    match rotation {
        Rotation::Clockwise => {
            if lower {
                put_from_lower::<W>(part, side, Grid::Even, Rotation::Clockwise, p, band, unit)
            } else {
                put_from_upper::<W>(part, side, Grid::Even, Rotation::Clockwise, p, band, unit)
            }
        }
        Rotation::Opposite => {
            if lower {
                put_from_lower::<W>(part, side, Grid::Even, Rotation::Opposite, p, band, unit)
            } else {
                put_from_upper::<W>(part, side, Grid::Even, Rotation::Opposite, p, band, unit)
            }
        }
        Rotation::CounterClockwise => {
            if lower {
                put_from_lower::<W>(
                    part,
                    side,
                    Grid::Even,
                    Rotation::CounterClockwise,
                    p,
                    band,
                    unit,
                )
            } else {
                put_from_upper::<W>(
                    part,
                    side,
                    Grid::Even,
                    Rotation::CounterClockwise,
                    p,
                    band,
                    unit,
                )
            }
        }
    }
}

/// Writes to rows 1 to 16 of `part` what the unit's cells see of plane `p` at this rotation in
/// their blocks of the odd grid. The columns of some blocks lie in two words.
#[inline(never)]
fn put_in_odd_blocks<const W: usize>(
    part: &mut SeenRows,
    side: Side,
    rotation: Rotation,
    p: usize,
    band: &Band,
    unit: usize,
)
    requires words { 64 * W ≡ columns band.now.planes.now.side }
    requires side { side ≡ band.now.planes.now.side }
    requires plane { p < 4 }
    requires within { IsWithin band.now }
    requires unit { columns band.now.planes.now.side * unit < side_of band.now }
    ensures { (f : Cells) → IsBandOf f band.now →
        ShowsInBlock f Odd rotation p band.now unit part.new }
{
    let lower = is_lower(Grid::Odd, band, 1);
    match rotation {
        Rotation::Clockwise => {
            if lower {
                put_from_lower::<W>(part, side, Grid::Odd, Rotation::Clockwise, p, band, unit)
            } else {
                put_from_upper::<W>(part, side, Grid::Odd, Rotation::Clockwise, p, band, unit)
            }
        }
        Rotation::Opposite => {
            if lower {
                put_from_lower::<W>(part, side, Grid::Odd, Rotation::Opposite, p, band, unit)
            } else {
                put_from_upper::<W>(part, side, Grid::Odd, Rotation::Opposite, p, band, unit)
            }
        }
        Rotation::CounterClockwise => {
            if lower {
                put_from_lower::<W>(
                    part,
                    side,
                    Grid::Odd,
                    Rotation::CounterClockwise,
                    p,
                    band,
                    unit,
                )
            } else {
                put_from_upper::<W>(
                    part,
                    side,
                    Grid::Odd,
                    Rotation::CounterClockwise,
                    p,
                    band,
                    unit,
                )
            }
        }
    }
}

/// Writes to rows 1 to 16 of `part` what the unit's cells see of plane `p` at this rotation in
/// their blocks. The band's first row has to be an upper row of blocks.
#[inline(always)]
fn put_from_upper<const W: usize>(
    part: &mut SeenRows,
    side: Side,
    grid: Grid,
    rotation: Rotation,
    p: usize,
    band: &Band,
    unit: usize,
)
    requires words { 64 * W ≡ columns band.now.planes.now.side }
    requires side { side ≡ band.now.planes.now.side }
    requires upper { side_in_block grid band.now.first ≡ 0 }
    requires plane { p < 4 }
    requires within { IsWithin band.now }
    requires unit { columns band.now.planes.now.side * unit < side_of band.now }
    ensures { (f : Cells) → IsBandOf f band.now →
        ShowsInBlock f grid rotation p band.now unit part.new }
{
    let own = *band;
    for k in 0..HEIGHT / 2 {
        write_block_rows::<W>(part, side, grid, rotation, p, &own, unit, 2 * k + 1);
    }
}

/// Writes to rows 1 to 16 of `part` what the unit's cells see of plane `p` at this rotation in
/// their blocks. The band's first row has to be a lower row of blocks. So it shares its blocks with
/// the row to its north, and the last row with the row to its south.
#[inline(always)]
fn put_from_lower<const W: usize>(
    part: &mut SeenRows,
    side: Side,
    grid: Grid,
    rotation: Rotation,
    p: usize,
    band: &Band,
    unit: usize,
)
    requires words { 64 * W ≡ columns band.now.planes.now.side }
    requires side { side ≡ band.now.planes.now.side }
    requires lower { side_in_block grid band.now.first ≡ 1 }
    requires plane { p < 4 }
    requires within { IsWithin band.now }
    requires unit { columns band.now.planes.now.side * unit < side_of band.now }
    ensures { (f : Cells) → IsBandOf f band.now →
        ShowsInBlock f grid rotation p band.now unit part.new }
{
    let own = *band;
    for k in 0..HEIGHT / 2 {
        write_block_row::<W>(part, side, grid, rotation, true, p, &own, unit, 2 * k + 1);
        write_block_row::<W>(part, side, grid, rotation, false, p, &own, unit, 2 * k + 2);
    }
}

/// Writes rows `j` and `j + 1` of `part`: what the unit's cells see of plane `p` at this rotation
/// in their blocks. They have to be the upper and the lower row of the same blocks, with `j` from 1
/// to 15. Both are made before the first is written, so that what they look at is fetched once.
/// Earlier rows stay.
#[inline(always)]
fn write_block_rows<const W: usize>(
    part: &mut SeenRows,
    side: Side,
    grid: Grid,
    rotation: Rotation,
    p: usize,
    band: &Band,
    unit: usize,
    j: usize,
)
    requires words { 64 * W ≡ columns band.now.planes.now.side }
    requires side { side ≡ band.now.planes.now.side }
    requires upper { side_in_block grid (band.now.first + j - 1) ≡ 0 }
    requires plane { p < 4 }
    requires within { IsWithin band.now }
    requires unit { columns band.now.planes.now.side * unit < side_of band.now }
    requires first { 0 < j }
    requires last { j < height }
    ensures { (f : Cells) → IsBandOf f band.now →
        ShowsRowsInBlock f grid rotation p band.now unit j part.old →
        ShowsRowsInBlock f grid rotation p band.now unit (j + 2) part.new }
{
    let upper = seen_in_block(side, grid, rotation, false, p, band, unit, j);
    let lower = seen_in_block(side, grid, rotation, true, p, band, unit, j + 1);
    put_row::<W>(part, W * j, upper);
    put_row::<W>(part, W * (j + 1), lower);
}

/// Writes row `j` of `part`, from 1 to 16: what the unit's cells see of plane `p` at this rotation
/// in their blocks. `lower` has to say whether row `j` is the lower row of its blocks. Earlier rows
/// stay as they are.
#[inline(always)]
fn write_block_row<const W: usize>(
    part: &mut SeenRows,
    side: Side,
    grid: Grid,
    rotation: Rotation,
    lower: bool,
    p: usize,
    band: &Band,
    unit: usize,
    j: usize,
)
    requires words { 64 * W ≡ columns band.now.planes.now.side }
    requires side { side ≡ band.now.planes.now.side }
    requires lower { lower ≡ (side_in_block grid (band.now.first + j - 1) == 1) }
    requires plane { p < 4 }
    requires within { IsWithin band.now }
    requires unit { columns band.now.planes.now.side * unit < side_of band.now }
    requires first { 0 < j }
    requires last { j < height + 1 }
    ensures { (f : Cells) → IsBandOf f band.now →
        ShowsRowsInBlock f grid rotation p band.now unit j part.old →
        ShowsRowsInBlock f grid rotation p band.now unit (j + 1) part.new }
{
    put_row::<W>(
        part,
        W * j,
        seen_in_block(side, grid, rotation, lower, p, band, unit, j),
    );
}

/// Returns the first row of a part that is made for this name: 0 for the centre, west and east,
/// else 1. As many rows are left out at the part's end.
#[inline(always)]
fn first_row(name: Name) -> usize
    ensures value { result ≡ first_row name }
    ensures within { result ≤ 1 }
{
    match name {
        Name::Beside(Compass::Center | Compass::West | Compass::East, _) => 0,
        _ => 1,
    }
}

/// Writes the first `W` words of `row` to the part, from the part's word `at` on. They have to fit
/// into its 72 words. The words before stay as they are.
#[inline(always)]
fn put_row<const W: usize>(part: &mut SeenRows, at: usize, row: UnitRow)
    requires words { W ≤ ROW_WORDS }
    requires room { at + W ≤ PART }
    ensures row { (x : ℕ) → x < 64 * W → column_bit part.new (64 * at + x) ≡ column_bit row x }
    ensures before { (x : ℕ) → x < 64 * at → column_bit part.new x ≡ column_bit part.old x }
{
    for k in 0..W {
        part[at + k] = row[k];
    }
}
