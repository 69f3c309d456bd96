//! A half's new rows of a band: made beside the planes, and then put in the place of the old ones.
ghost use Rattle.std.specs.Prelude.{◌≡◌, ◌≢◌, ◌<◌, ◌≤◌, ◌+◌, ◌⊎◌, ℕ};
ghost use Rattle.cam6_planes.specs.Cells.{Cells, cells};
ghost use Rattle.cam6_planes.specs.Stored.{width};
ghost use Rattle.cam6_wiring.specs.Name.{plane_of, other_half};
ghost use Rattle.cam6_wiring.specs.declared.names.Level.{Level};
ghost use Rattle.cam6_lines.specs.Bands.{IsBandOf, IsWithin};
ghost use Rattle.cam6_lines.specs.Units.{bit_in};
ghost use Rattle.cam6_entries.specs.Bands.{ShowNewBits};
ghost use Rattle.cam6_band.specs.Limits.{band};
ghost use Rattle.cam6_band.specs.Internal.HalfRows.{rows_of, bit_put};
ghost use Rattle.cam6_band.specs.Internal.NewRows.{IsOutside};

use crate::tables::HalfTable;
use cam6_entries::{BandRows, TableScratch, row_of};
use cam6_lines::{Band, HEIGHT, UNIT};
use cam6_planes::{Planes, Side};
use cam6_wiring::{Half, Level, Setting};

/// A plane's new rows of a band. They are put only if they were written. Otherwise every cell keeps
/// its bit.
#[derive(Drop)]
pub(crate) struct PlaneRows {
    rows: BandRows,
    is_written: bool,
}

/// The new rows of both planes of a half.
#[derive(Drop)]
pub(crate) struct HalfRows {
    lower: PlaneRows,
    upper: PlaneRows,
}

impl PlaneRows {
    /// Makes rows that are marked as not written, so that `put` changes nothing.
    fn blank() -> PlaneRows {
        PlaneRows {
            rows: [[0; UNIT]; 2],
            is_written: false,
        }
    }

    /// Writes the sixteen rows to plane `p`, from 0 to 3, of the image, from row `y` on. If they
    /// are marked as not written, changes nothing. All of them must be within the side.
    fn put(&self, image: &mut Planes, p: usize, y: usize)
        requires plane { p < 4 }
        requires rows { y + band ≤ width image.old }
        ensures rows { (x r : ℕ) → x < width image.old → r < band →
            cells image.new p x (y + r)
            ≡ bit_put image.old.side self.now (cells image.old) p x y r }
        ensures others { (q x v : ℕ) → q < 4 → x < width image.old → v < width image.old →
            (q ≢ p) ⊎ IsOutside y v → cells image.new q x v ≡ cells image.old q x v }
        ensures side { image.new.side ≡ image.old.side }
        ensures limit { image.new.limit ≡ image.old.limit }
    {
        if self.is_written {
            put_rows(image, p, y, &self.rows);
        }
    }
}

impl HalfRows {
    /// Makes rows of both planes that are marked as not written, so that `put` changes nothing.
    pub(crate) fn blank() -> HalfRows {
        HalfRows {
            lower: PlaneRows::blank(),
            upper: PlaneRows::blank(),
        }
    }

    /// Makes a half's sixteen new rows of a band, by the half's table, and changes no image. If it
    /// marks a plane's rows as not written, each of their cells keeps its bit. The band must lie
    /// within the side.
    pub(crate) fn make(
        &mut self,
        scratch: &mut TableScratch,
        setting: &Setting,
        by: &HalfTable,
        band: &Band,
    )
        requires { IsWithin band.now }
        ensures { (f : Cells) → IsBandOf f band.now → (level : Level) →
            let plane = rows_of level self.new in
            ShowNewBits by.now.table.now f band.now setting.now by.now.hood by.now.minor level
            plane.is_written plane.rows }
    {
        let HalfTable { table, hood, minor } = *by;
        let lower = &mut self.lower.rows;
        let upper = &mut self.upper.rows;
        let written = table.band(scratch, lower, upper, setting, hood, minor, band);
        self.lower.is_written = written.lower;
        self.upper.is_written = written.upper;
    }

    /// Writes the sixteen rows to the half's planes of the image, from row `y` on. A plane whose
    /// rows are marked as not written stays as it is. All of them must be within the side.
    pub(crate) fn put(&self, image: &mut Planes, half: Half, y: usize)
        requires { y + band ≤ width image.old }
        ensures half { (level : Level) (x r : ℕ) → x < width image.old → r < band →
            let p = plane_of half level in
            cells image.new p x (y + r)
            ≡ bit_put image.old.side (rows_of level self.now) (cells image.old) p x y r }
        ensures other_half { (level : Level) (x v : ℕ) → x < width image.old →
            v < width image.old → let p = plane_of (other_half half) level in
            cells image.new p x v ≡ cells image.old p x v }
        ensures others { (p x v : ℕ) → p < 4 → x < width image.old → v < width image.old →
            IsOutside y v → cells image.new p x v ≡ cells image.old p x v }
        ensures side { image.new.side ≡ image.old.side }
        ensures limit { image.new.limit ≡ image.old.limit }
    {
        self.lower.put(image, half.plane(Level::Lower), y);
        self.upper.put(image, half.plane(Level::Upper), y);
    }
}

/// Writes a band's sixteen rows to plane `p` of the image, from row `y` on. All of them must be
/// within the side. Each side has a loop of its own, compiled for its length of rows.
fn put_rows(image: &mut Planes, p: usize, y: usize, rows: &BandRows)
    requires plane { p < 4 }
    requires rows { y + band ≤ width image.old }
    ensures rows { (x r : ℕ) → x < width image.old → r < band →
        cells image.new p x (y + r) ≡ bit_in image.old.side rows.now r x }
    ensures others { (q x v : ℕ) → q < 4 → x < width image.old → v < width image.old →
        (q ≢ p) ⊎ IsOutside y v → cells image.new q x v ≡ cells image.old q x v }
    ensures side { image.new.side ≡ image.old.side }
    ensures limit { image.new.limit ≡ image.old.limit }
{
    match image.side() {
        Side::S128 => put_rows_at(image, Side::S128, p, y, rows),
        Side::S256 => put_rows_at(image, Side::S256, p, y, rows),
        Side::S512 => put_rows_at(image, Side::S512, p, y, rows),
    }
}

/// Writes a band's sixteen rows to plane `p` of the image, from row `y` on. `side` must be the
/// image's. The caller gives it as a constant, so that the loop is compiled for it.
#[inline(always)]
fn put_rows_at(image: &mut Planes, side: Side, p: usize, y: usize, rows: &BandRows)
    requires side { side ≡ image.old.side }
    requires plane { p < 4 }
    requires rows { y + band ≤ width image.old }
    ensures rows { (x r : ℕ) → x < width image.old → r < band →
        cells image.new p x (y + r) ≡ bit_in side rows.now r x }
    ensures others { (q x v : ℕ) → q < 4 → x < width image.old → v < width image.old →
        (q ≢ p) ⊎ IsOutside y v → cells image.new q x v ≡ cells image.old q x v }
    ensures side { image.new.side ≡ image.old.side }
    ensures limit { image.new.limit ≡ image.old.limit }
{
    for r in 0..HEIGHT {
        image.set_row_words(p, y + r, row_of(rows, side, r));
    }
}
