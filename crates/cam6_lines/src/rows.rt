//! What the cells of one row of a unit see under a name, in words.
ghost use Rattle.std.specs.Prelude.{◌≡◌, ◌<◌, ◌≤◌, ◌+◌, ◌-◌, ◌*◌, ◌%◌, ◌==◌};
ghost use Rattle.std.specs.Prelude.{ℕ, if◌then◌else◌, slice_index};
ghost use Rattle.cam6_planes.specs.Cells.{Cells, torus};
ghost use Rattle.cam6_planes.specs.Row.{word_column, column_bit, west_of, east_of};
ghost use Rattle.cam6_planes.specs.Side.{side_number};
ghost use Rattle.cam6_planes.specs.declared.row.TheConstants.{WORDS};
ghost use Rattle.cam6_lines.specs.declared.rows.TheConstants.{ROW_WORDS};
ghost use Rattle.cam6_wiring.specs.Block.{side_in_block};
ghost use Rattle.cam6_wiring.specs.Seen.{column_beside, row_beside, seen_beside, seen_in_block};
ghost use Rattle.cam6_lines.specs.Bands.{IsBandOf, IsWithin, side_of};
ghost use Rattle.cam6_lines.specs.Limits.{height};
ghost use Rattle.cam6_lines.specs.Units.{columns};
ghost use Rattle.cam6_lines.specs.Internal.Parts.{first_beside, first_row, row_above, ShowsRow};

use crate::bands::Band;
use crate::units::words_of_row;
use crate::words::right_columns;
use cam6_planes::{Row, Side, chosen_word, moved_east, moved_west, word_of};
use cam6_wiring::{Compass, Grid, Name, Rotation, Setting, side_in_block};

/// Words of a row of a unit at most.
pub(crate) const ROW_WORDS: usize = 4;

/// A row of a unit. At side 128 only its first two words mean anything.
pub(crate) type UnitRow = [u64; ROW_WORDS];

/// Returns what the cells in the unit's columns see under a name, in row `j` of a part. Row 0 of a
/// part lies to the north of the band, rows 1 to 16 in it, and row 17 to its south. For names other
/// than the centre, west and east, `j` has to be from 1 to 16. `unit` is the unit's number in the
/// band, from 0.
#[inline(always)]
pub(crate) fn row_seen(
    side: Side,
    setting: Setting,
    name: Name,
    band: &Band,
    unit: usize,
    j: usize,
) -> UnitRow
    requires side { side ≡ band.now.planes.now.side }
    requires within { IsWithin band.now }
    requires unit { columns band.now.planes.now.side * unit < side_of band.now }
    requires first { first_row name ≤ j }
    requires last { j + first_row name < height + 2 }
    ensures { (f : Cells) → IsBandOf f band.now → ShowsRow f setting name band.now unit j result }
{
    let Setting { half, grid, phase } = setting;
    match name {
        Name::Beside(compass, level) => seen_beside(
            side,
            compass,
            half.plane(level),
            band,
            unit,
            j,
        ),
        Name::InBlock(rotation, level) => {
            let lower = is_lower(grid, band, j);
            seen_in_block(
                side,
                grid,
                rotation,
                lower,
                half.plane(level),
                band,
                unit,
                j,
            )
        }
        Name::MinorCenter(level) => {
            seen_beside(
                side,
                Compass::Center,
                half.other().plane(level),
                band,
                unit,
                j,
            )
        }
        Name::Phase(level) | Name::MinorPhase(level) => [word_of(phase.bit(level)); ROW_WORDS],
        Name::Horz | Name::MinorHorz => [right_columns(grid); ROW_WORDS],
        Name::Vert | Name::MinorVert => { [word_of(is_lower(grid, band, j)); ROW_WORDS] }
    }
}

/// Whether row `j` of a part, from 1 to 16, is the lower row of its blocks. Row 1 of the part is
/// the band's first row.
#[inline(always)]
pub(crate) fn is_lower(grid: Grid, band: &Band, j: usize) -> bool
    requires within { IsWithin band.now }
    requires first { 0 < j }
    requires last { j < height + 1 }
    ensures { result ≡ (side_in_block grid (band.now.first + j - 1) == 1) }
{
    side_in_block(grid, band.first + j - 1) == 1
}

/// Returns what the unit's cells in row `j` of a part, from 1 to 16, see of plane `p` at this
/// rotation in their blocks. `lower` has to say whether row `j` is the lower row of its blocks. The
/// other row lies to the south of the upper one, and to the north of the lower one.
#[inline(always)]
pub(crate) fn seen_in_block(
    side: Side,
    grid: Grid,
    rotation: Rotation,
    lower: bool,
    p: usize,
    band: &Band,
    unit: usize,
    j: usize,
) -> UnitRow
    requires side { side ≡ band.now.planes.now.side }
    requires lower { lower ≡ (side_in_block grid (band.now.first + j - 1) == 1) }
    requires plane { p < 4 }
    requires within { IsWithin band.now }
    requires unit { columns band.now.planes.now.side * unit < side_of band.now }
    requires first { 0 < j }
    requires last { j < height + 1 }
    ensures { (f : Cells) → IsBandOf f band.now →
        (i : ℕ) → let side = band.now.planes.now.side in i < columns side →
        column_bit result i ≡ seen_in_block (side_of band.now) (torus (side_of band.now) f)
        grid rotation p (columns side * unit + i) (row_above band.now j) }
{
    let here = &band.above(j)[p];
    let other = &band.above(other_row(lower, j))[p];
    match rotation {
        Rotation::Clockwise => along_or_across(grid, !lower, here, other, side, unit),
        Rotation::Opposite => {
            by_sides(
                grid,
                columns_east(other, side, unit),
                columns_west(other, side, unit),
            )
        }
        Rotation::CounterClockwise => along_or_across(grid, lower, here, other, side, unit),
    }
}

/// Returns the number of the other row of the blocks in which row `j` of a part, from 1 to 16,
/// lies. It is `j - 1` if `lower`, that is if row `j` is their lower row. Else it is `j + 1`.
#[inline(always)]
fn other_row(lower: bool, j: usize) -> usize
    requires first { 0 < j }
    requires last { j < height + 1 }
    ensures row { (s first : ℕ) → first + height ≤ s → west_of s (first + result)
        ≡ (let y = west_of s (first + j) in if lower then west_of s y else east_of s y) }
    ensures within { result < height + 2 }
{
    if lower { j - 1 } else { j + 1 }
}

/// Returns, for the cells in the unit's columns of row `here`, the bits of a neighbouring corner of
/// their blocks. If `left_along` is true, the left columns look along their row, and the right ones
/// across to the row `other`. If not, it is the other way round. `unit` is the unit's number in the
/// row, from 0.
#[inline(always)]
fn along_or_across(
    grid: Grid,
    left_along: bool,
    here: &Row,
    other: &Row,
    side: Side,
    unit: usize,
) -> UnitRow
    requires { columns side * unit < side_number side }
    ensures { (i : ℕ) → i < columns side → let x = columns side * unit + i in
        let s = side_number side in column_bit result i ≡ (if side_in_block grid i == 1
        then (if left_along then column_bit other.now x else column_bit here.now (west_of s x))
        else (if left_along then column_bit here.now (east_of s x) else column_bit other.now x)) }
{
    let across = columns_here(other, side, unit);
    if left_along {
        by_sides(grid, columns_east(here, side, unit), across)
    } else {
        by_sides(grid, across, columns_west(here, side, unit))
    }
}

/// Returns the bits of `left` in the left columns of the grid's blocks, and those of `right` in the
/// right columns. Columns are counted from the unit's first, which is even in the row.
#[inline(always)]
fn by_sides(grid: Grid, left: UnitRow, right: UnitRow) -> UnitRow
    ensures { (i : ℕ) → i < 64 * ROW_WORDS → column_bit result i
        ≡ (if side_in_block grid i == 1 then column_bit right i else column_bit left i) }
{
    let rights = right_columns(grid);
    [
        chosen_word(rights, left[0], right[0]),
        chosen_word(rights, left[1], right[1]),
        chosen_word(rights, left[2], right[2]),
        chosen_word(rights, left[3], right[3]),
    ]
}

/// Returns what the unit's cells in row `j` of a part see of plane `p` in this direction. Row 1 is
/// the band's first row. Towards north or south `j` has to be from 1 to 16, else from 0 to 17.
#[inline(always)]
pub(crate) fn seen_beside(
    side: Side,
    compass: Compass,
    p: usize,
    band: &Band,
    unit: usize,
    j: usize,
) -> UnitRow
    requires side { side ≡ band.now.planes.now.side }
    requires plane { p < 4 }
    requires within { IsWithin band.now }
    requires unit { columns band.now.planes.now.side * unit < side_of band.now }
    requires first { first_beside compass ≤ j }
    requires last { j + first_beside compass < height + 2 }
    ensures { (f : Cells) → IsBandOf f band.now →
        (i : ℕ) → let side = band.now.planes.now.side in i < columns side →
        column_bit result i ≡ seen_beside (side_of band.now) (torus (side_of band.now) f)
        compass p (columns side * unit + i) (row_above band.now j) }
{
    let row = &band.above(row_beside(compass, j))[p];
    columns_beside(row, compass, side, unit)
}

/// Returns the number of the row of a part that lies in this direction from row `j`. It is `j - 1`
/// to the north, `j + 1` to the south, and else `j`. Both have to be from 0 to 17.
#[inline(always)]
fn row_beside(compass: Compass, j: usize) -> usize
    requires first { first_beside compass ≤ j }
    requires last { j + first_beside compass < height + 2 }
    ensures row { (s first : ℕ) → first + height ≤ s →
        row_beside s compass (west_of s (first + j)) ≡ west_of s (first + result) }
    ensures within { result < height + 2 }
{
    match compass {
        Compass::Center | Compass::West | Compass::East => j,
        Compass::North | Compass::NorthWest | Compass::NorthEast => j - 1,
        Compass::South | Compass::SouthWest | Compass::SouthEast => j + 1,
    }
}

/// Returns, at each column of the unit, the row's bit in the column to the west or east, round the
/// torus. If the direction has neither, it is the bit of the column itself. `unit` is the unit's
/// number in the row, from 0.
#[inline(always)]
fn columns_beside(row: &Row, compass: Compass, side: Side, unit: usize) -> UnitRow
    requires { columns side * unit < side_number side }
    ensures { (i : ℕ) → i < columns side → column_bit result i
        ≡ column_bit row.now (column_beside (side_number side) compass (columns side * unit + i)) }
{
    match compass {
        Compass::Center | Compass::North | Compass::South => columns_here(row, side, unit),
        Compass::West | Compass::NorthWest | Compass::SouthWest => columns_west(row, side, unit),
        Compass::East | Compass::NorthEast | Compass::SouthEast => columns_east(row, side, unit),
    }
}

/// Returns the row's bits in the unit's columns. `unit` is the unit's number in the row, from 0.
#[inline(always)]
fn columns_here(row: &Row, side: Side, unit: usize) -> UnitRow
    requires { columns side * unit < side_number side }
    ensures { (i : ℕ) → i < columns side →
        column_bit result i ≡ column_bit row.now (columns side * unit + i) }
{
    words_here(row, words_of_row(side) * unit)
}

/// Returns, at each column of the unit, the row's bit in the column to the west, round the torus.
/// `unit` is the unit's number in the row, from 0.
#[inline(always)]
fn columns_west(row: &Row, side: Side, unit: usize) -> UnitRow
    requires { columns side * unit < side_number side }
    ensures { (i : ℕ) → i < columns side → column_bit result i
        ≡ column_bit row.now (west_of (side_number side) (columns side * unit + i)) }
{
    words_west(row, side.words(), words_of_row(side) * unit)
}

/// Returns, at each column of the unit, the row's bit in the column to the east, round the torus.
/// `unit` is the unit's number in the row, from 0.
#[inline(always)]
fn columns_east(row: &Row, side: Side, unit: usize) -> UnitRow
    requires { columns side * unit < side_number side }
    ensures { (i : ℕ) → i < columns side → column_bit result i
        ≡ column_bit row.now (east_of (side_number side) (columns side * unit + i)) }
{
    words_east(row, side.words(), words_of_row(side) * unit)
}

/// Returns the row's four words from word `first` on, with `first` at most 4.
#[inline(always)]
fn words_here(row: &Row, first: usize) -> UnitRow
    requires { first + ROW_WORDS ≤ WORDS }
    ensures { (k : ℕ) → k < ROW_WORDS → slice_index result k ≡ slice_index row.now (first + k) }
{
    [row[first], row[first + 1], row[first + 2], row[first + 3]]
}

/// Returns the row's four words from word `first` on, with each bit replaced by the bit to its
/// west. West of the first column is the last of the row's `words` words. `first` has to be at most
/// 4. Result words past the row's `words` may hold anything.
#[inline(always)]
fn words_west(row: &Row, words: usize, first: usize) -> UnitRow
    requires some { 0 < words }
    requires most { words ≤ WORDS }
    requires first { first + ROW_WORDS ≤ WORDS }
    ensures { (k c : ℕ) → k < ROW_WORDS → first + k < words → c < 64 →
        word_column (slice_index result k) c
        ≡ column_bit row.now (west_of (64 * words) (64 * (first + k) + c)) }
{
    [
        moved_east(row[first], row[word_before(words, first)]),
        moved_east(row[first + 1], row[first]),
        moved_east(row[first + 2], row[first + 1]),
        moved_east(row[first + 3], row[first + 2]),
    ]
}

/// Returns the row's four words from word `first` on, with each bit replaced by the bit to its
/// east. East of the last of the row's `words` words is the first. `words` and `first` have to be
/// even, and `first` at most 4. So two of the four have their next word in the row, whatever its
/// side.
#[inline(always)]
fn words_east(row: &Row, words: usize, first: usize) -> UnitRow
    requires most { words ≤ WORDS }
    requires even { words % 2 ≡ 0 }
    requires first { first + ROW_WORDS ≤ WORDS }
    requires even_first { first % 2 ≡ 0 }
    ensures { (k c : ℕ) → k < ROW_WORDS → first + k < words → c < 64 →
        word_column (slice_index result k) c
        ≡ column_bit row.now (east_of (64 * words) (64 * (first + k) + c)) }
{
    [
        moved_west(row[first], row[first + 1]),
        moved_west(row[first + 1], row[word_after(words, first + 1)]),
        moved_west(row[first + 2], row[first + 3]),
        moved_west(row[first + 3], row[word_after(words, first + 3)]),
    ]
}

/// Returns the number of the word to the west of word `i`, round a row of `words` words. For word 0
/// it is `words - 1`.
#[inline(always)]
fn word_before(words: usize, i: usize) -> usize
    requires words { 0 < words }
    requires most { words ≤ WORDS }
    requires word { i < WORDS }
    ensures word { i < words → west_of (64 * words) (64 * i) ≡ 64 * result + 63 }
    ensures within { result < WORDS }
{
    if i == 0 { words - 1 } else { i - 1 }
}

/// Returns the number of the word to the east of word `i`, round a row of `words` words. For the
/// last word it is 0.
#[inline(always)]
fn word_after(words: usize, i: usize) -> usize
    requires words { words ≤ WORDS }
    requires word { i < WORDS }
    ensures word { i < words → east_of (64 * words) (64 * i + 63) ≡ 64 * result }
    ensures within { result < WORDS }
{
    if i + 1 < words { i + 1 } else { 0 }
}
