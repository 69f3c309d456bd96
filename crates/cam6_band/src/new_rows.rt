//! One band of a step, written over the old rows. All that bands know of a rule stands here.
ghost use Rattle.std.specs.Prelude.{◌≡◌, ◌<◌, ◌≤◌, ◌+◌, ℕ, Some};
ghost use Rattle.std.specs.Option.{option_map};
ghost use Rattle.cam6_planes.specs.Cells.{Cells, cells, IsRow};
ghost use Rattle.cam6_planes.specs.Stored.{width};
ghost use Rattle.cam6_wiring.specs.Name.{plane_of, other_half};
ghost use Rattle.cam6_wiring.specs.declared.names.Half.TheVariants.{A, B};
ghost use Rattle.cam6_wiring.specs.declared.names.Level.{Level};
ghost use Rattle.cam6_lines.specs.Bands.{IsBandOf, IsWithin, side_of};
ghost use Rattle.cam6_band.specs.ByTables.{step_by, values_of, half_entries, setting_by, table_for};
ghost use Rattle.cam6_band.specs.Limits.{band};
ghost use Rattle.cam6_band.specs.Internal.NewRows.{AreOldRows, HasNewBits, IsOutside};

use crate::scratch::{HalfScratch, Scratch};
use crate::tables::{EntryTables, HalfTable};
use cam6_lines::{Band, HEIGHT};
use cam6_planes::{CellRow, Planes};
use cam6_wiring::{Half, Setting};

/// Writes the sixteen new rows from row `y` on over the old ones, all within the side. `last` has
/// the old row to their north, and gets the last of the sixteen old ones. `first` is the old row 0,
/// which the last row sees to its south. Both halves' rows are made before any is written, as each
/// may depend on the other's old ones.
pub(crate) fn step_band(
    image: &mut Planes,
    last: &mut CellRow,
    first: &CellRow,
    y: usize,
    tables: &EntryTables,
    scratch: &mut Scratch,
)
    requires { y + band ≤ width image.old }
    ensures new { let s = width image.old in (f : Cells) →
        AreOldRows s f y (cells image.old) last.old first.now →
        (p x r : ℕ) → p < 4 → x < s → r < band →
        cells image.new p x (y + r) ≡ step_by s (values_of tables.now) f p x (y + r) }
    ensures others { (p x v : ℕ) → p < 4 → x < width image.old → v < width image.old →
        IsOutside y v → cells image.new p x v ≡ cells image.old p x v }
    ensures saved { IsRow (width image.old) (cells image.old) (y + 15) last.new }
    ensures side { image.new.side ≡ image.old.side }
    ensures limit { image.new.limit ≡ image.old.limit }
{
    match tables.a {
        Some(by) => step_halves(image, last, first, y, &by, tables, scratch),
        None => {
            let b = tables.setting(Half::B);
            step_half(image, last, first, y, &b, &tables.b, &mut scratch.half)
        }
    }
}

/// Writes the sixteen new rows of both halves from row `y` on over the old ones. Half A has the
/// table `by`, and its rows are made first and written last. Uses `last` and `first` as `step_band`
/// does.
#[inline(never)]
fn step_halves(
    image: &mut Planes,
    last: &mut CellRow,
    first: &CellRow,
    y: usize,
    by: &HalfTable,
    tables: &EntryTables,
    scratch: &mut Scratch,
)
    requires { y + band ≤ width image.old }
    ensures a { let s = width image.old in (f : Cells) →
        AreOldRows s f y (cells image.old) last.old first.now →
        HasNewBits s f (setting_by A (values_of tables.now)) (Some (half_entries by.now)) y
        (cells image.new) }
    ensures b { let s = width image.old in let by_tables = values_of tables.now in (f : Cells) →
        AreOldRows s f y (cells image.old) last.old first.now →
        HasNewBits s f (setting_by B by_tables) (table_for B by_tables) y (cells image.new) }
    ensures others { (p x v : ℕ) → p < 4 → x < width image.old → v < width image.old →
        IsOutside y v → cells image.new p x v ≡ cells image.old p x v }
    ensures saved { IsRow (width image.old) (cells image.old) (y + 15) last.new }
    ensures side { image.new.side ≡ image.old.side }
    ensures limit { image.new.limit ≡ image.old.limit }
{
    let a = tables.setting(Half::A);
    let b = tables.setting(Half::B);
    let old = old_rows(image, last, first, y);
    scratch.a.make(&mut scratch.half.table, &a, by, &old);
    step_half(image, last, first, y, &b, &tables.b, &mut scratch.half);
    scratch.a.put(image, Half::A, y);
}

/// Writes a half's sixteen new rows from row `y` on over the old ones, if the half has a table.
/// With or without one, copies the last of the old rows to `last`.
fn step_half(
    image: &mut Planes,
    last: &mut CellRow,
    first: &CellRow,
    y: usize,
    setting: &Setting,
    table: &Option<HalfTable>,
    scratch: &mut HalfScratch,
)
    requires { y + band ≤ width image.old }
    ensures new { let s = width image.old in (f : Cells) →
        AreOldRows s f y (cells image.old) last.old first.now →
        HasNewBits s f setting.now (option_map half_entries table.now) y (cells image.new) }
    ensures other_half { (level : Level) (x v : ℕ) → x < width image.old → v < width image.old →
        let p = plane_of (other_half setting.now.half) level in
        cells image.new p x v ≡ cells image.old p x v }
    ensures others { (p x v : ℕ) → p < 4 → x < width image.old → v < width image.old →
        IsOutside y v → cells image.new p x v ≡ cells image.old p x v }
    ensures saved { IsRow (width image.old) (cells image.old) (y + 15) last.new }
    ensures side { image.new.side ≡ image.old.side }
    ensures limit { image.new.limit ≡ image.old.limit }
{
    match *table {
        Some(by) => step_half_by_table(image, last, first, y, setting, &by, scratch),
        None => *last = *image.row(y + HEIGHT - 1),
    }
}

/// Writes a half's sixteen new rows from row `y` on over the old ones, by its table. Copies the
/// last of the old rows to `last`.
#[inline(never)]
fn step_half_by_table(
    image: &mut Planes,
    last: &mut CellRow,
    first: &CellRow,
    y: usize,
    setting: &Setting,
    by: &HalfTable,
    scratch: &mut HalfScratch,
)
    requires { y + band ≤ width image.old }
    ensures new { let s = width image.old in (f : Cells) →
        AreOldRows s f y (cells image.old) last.old first.now →
        HasNewBits s f setting.now (Some (half_entries by.now)) y (cells image.new) }
    ensures other_half { (level : Level) (x v : ℕ) → x < width image.old → v < width image.old →
        let p = plane_of (other_half setting.now.half) level in
        cells image.new p x v ≡ cells image.old p x v }
    ensures others { (p x v : ℕ) → p < 4 → x < width image.old → v < width image.old →
        IsOutside y v → cells image.new p x v ≡ cells image.old p x v }
    ensures saved { IsRow (width image.old) (cells image.old) (y + 15) last.new }
    ensures side { image.new.side ≡ image.old.side }
    ensures limit { image.new.limit ≡ image.old.limit }
{
    let old = old_rows(image, last, first, y);
    scratch.rows.make(&mut scratch.table, setting, by, &old);
    *last = *image.row(y + HEIGHT - 1);
    scratch.rows.put(image, setting.half, y);
}

/// Returns the band of the sixteen old rows from row `y` on, with the row `last` to their north.
/// The row to their south is the image's next one, or `first` if there is none.
fn old_rows<'a>(image: &'a Planes, last: &'a CellRow, first: &'a CellRow, y: usize) -> Band<'a>
    requires { y + band ≤ width image.now }
    ensures rows { (f : Cells) →
        AreOldRows (width image.now) f y (cells image.now) last.now first.now → IsBandOf f result }
    ensures side { result.planes.now.side ≡ image.now.side }
    ensures first { result.first ≡ y }
    ensures within { IsWithin result }
{
    Band {
        planes: image,
        first: y,
        north: last,
        south: row_to_the_south(image, first, y + HEIGHT - 1),
    }
}

/// Returns the old row to the south of row `y`. For the image's last row it is `first`, the old row
/// 0.
fn row_to_the_south<'a>(image: &'a Planes, first: &'a CellRow, y: usize) -> &'a CellRow
    requires { y < width image.now }
    ensures within { y + 1 < width image.now →
        IsRow (width image.now) (cells image.now) (y + 1) result.now }
    ensures last { y + 1 ≡ width image.now → result.now ≡ first.now }
{
    if y + 1 == image.side().number() {
        return first;
    }
    image.row(y + 1)
}
