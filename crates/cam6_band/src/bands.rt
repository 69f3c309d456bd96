//! An image in the middle of a step, and the bands that bring it on.
ghost use Rattle.std.specs.Prelude.{◌≡◌, ◌<◌, ◌≤◌, ◌+◌, ◌%◌, false, IsTrue};
ghost use Rattle.cam6_planes.specs.Cells.{Cells, cells};
ghost use Rattle.cam6_planes.specs.Side.{side_number};
ghost use Rattle.cam6_planes.specs.Stored.{width, AreAlike};
ghost use Rattle.cam6_band.specs.Limits.{band};
ghost use Rattle.cam6_band.specs.ByTables.{step_by, values_of};
ghost use Rattle.cam6_band.specs.Partway.{Partway};
ghost use Rattle.cam6_band.specs.Next.{GoesOn, IsNext};

use crate::images::{AtRest, Spare};
use crate::new_rows::step_band;
use crate::scratch::Scratch;
use crate::tables::EntryTables;
use cam6_planes::{CellRow, Planes, Side};
use std::marker::Model;

/// Rows of a band.
pub const BAND: usize = 16;

/// An image in the middle of a step. Its first rows are new, and the others are old. It can't be
/// dropped: it goes on, or it is abandoned.
pub struct MidStep {
    pub(crate) image: Planes,
    /// The old row 0, which the last row sees to its south.
    pub(crate) first: CellRow,
    /// The old row to the north of the next one that is made.
    pub(crate) last: CellRow,
    /// Rows that are new.
    pub(crate) done: usize,
}

impl Model for MidStep {
    ghost use Rattle.std.specs.Prelude.{◌≡◌, ◌<◌, ◌%◌};
    ghost use Rattle.cam6_planes.specs.Stored.{width};
    ghost use Rattle.cam6_band.specs.Limits.{band};
    ghost use Rattle.cam6_band.specs.Partway.{Mid};
    ghost use Rattle.cam6_band.specs.Internal.SavedRows.{mid_of};

    ghost Value = { Mid };

    ghost view = { λ m. mid_of m.image m.first m.last m.done };

    ghost invariant = { λ m. (m.done < width m.image) × (m.done % band ≡ 0) };
}

/// What a band leaves: a step that goes on, or the planes after it.
pub enum Next {
    More(MidStep),
    Whole(AtRest),
}

impl MidStep {
    /// Returns how many rows are new already: a multiple of sixteen, below the side.
    pub fn rows(&self) -> u16
        ensures rows { result ≡ self.now.done }
        ensures within { result < width self.now.planes }
        ensures bands { result % band ≡ 0 }
    {
        self.done as u16
    }

    /// Returns the side of the image, at most its limit.
    pub fn side(&self) -> Side
        ensures side { result ≡ self.now.planes.side }
        ensures within { width self.now.planes ≤ side_number self.now.planes.limit }
    {
        self.image.side()
    }

    /// Returns the largest side that the image may have.
    pub fn limit(&self) -> Side
        ensures { result ≡ self.now.planes.limit }
    {
        self.image.limit()
    }

    /// Makes the next sixteen rows, by the tables of the step, with scratch that it makes for this
    /// band alone. Returns the step (`More`), or the whole image (`Whole`) if these rows were the
    /// last.
    pub fn band(self, tables: &EntryTables) -> Next
        ensures next { let s = width self.planes in (o : Cells) →
            Partway o (step_by s (values_of tables.now) o) self →
            IsNext o (step_by s (values_of tables.now) o) result }
        ensures goes_on { GoesOn self.planes self.done result }
    {
        let mut scratch = Scratch::blank();
        self.band_in(tables, &mut scratch)
    }

    /// Makes the next sixteen rows, by the tables of the step. Returns the step, or the whole image
    /// if these rows were the last. The scratch may hold anything before, and nothing of it is
    /// needed afterwards.
    pub fn band_in(mut self, tables: &EntryTables, scratch: &mut Scratch) -> Next
        ensures next { let s = width self.planes in (o : Cells) →
            Partway o (step_by s (values_of tables.now) o) self →
            IsNext o (step_by s (values_of tables.now) o) result }
        ensures goes_on { GoesOn self.planes self.done result }
    {
        if self.is_last() {
            return Next::Whole(self.end(tables, scratch));
        }
        self.go_on(tables, scratch);
        Next::More(self)
    }

    /// Whether the next band is the last one of the step.
    pub fn is_last(&self) -> bool
        ensures last { IsTrue result → self.now.done + band ≡ width self.now.planes }
        ensures others { result ≡ false → self.now.done + band < width self.now.planes }
    {
        self.done + BAND == self.image.side().number()
    }

    /// Makes the next sixteen rows in place, by the tables of the step. They must not be the last
    /// ones of the image. The scratch may hold anything.
    pub fn go_on(&mut self, tables: &EntryTables, scratch: &mut Scratch)
        requires { self.old.done + band < width self.old.planes }
        ensures partway { let s = width self.old.planes in (o : Cells) →
            Partway o (step_by s (values_of tables.now) o) self.old →
            Partway o (step_by s (values_of tables.now) o) self.new }
        ensures done { self.new.done ≡ self.old.done + band }
        ensures alike { AreAlike self.old.planes self.new.planes }
    {
        step_band(
            &mut self.image,
            &mut self.last,
            &self.first,
            self.done,
            tables,
            scratch,
        );
        self.done += BAND;
    }

    /// Makes the last sixteen rows, by the tables of the step, and returns the whole image. All
    /// other rows must be new already. The scratch may hold anything.
    pub fn end(mut self, tables: &EntryTables, scratch: &mut Scratch) -> AtRest
        requires { self.done + band ≡ width self.planes }
        ensures planes { let s = width self.planes in (o : Cells) →
            Partway o (step_by s (values_of tables.now) o) self →
            cells result.planes ≡ step_by s (values_of tables.now) o }
        ensures alike { AreAlike self.planes result.planes }
    {
        step_band(
            &mut self.image,
            &mut self.last,
            &self.first,
            self.done,
            tables,
            scratch,
        );
        let MidStep {
            image,
            first: _,
            last: _,
            done: _,
        } = self;
        AtRest { planes: image }
    }

    /// Copies the image of a step into a spare one, where the step goes on. The spare one's limit
    /// must be at least the step's side. Returns the step, with that limit, and its old image as a
    /// spare one.
    pub fn move_into(self, spare: Spare) -> (MidStep, Spare)
        requires { width self.planes ≤ side_number spare.planes.limit }
        ensures partway { (o p : Cells) → Partway o p self → Partway o p result.0 }
        ensures done { result.0.done ≡ self.done }
        ensures side { result.0.planes.side ≡ self.planes.side }
        ensures limit { result.0.planes.limit ≡ spare.planes.limit }
        ensures spare { result.1.planes.limit ≡ self.planes.limit }
    {
        let MidStep {
            image,
            first,
            last,
            done,
        } = self;
        let mut planes = spare.planes;
        planes.copy_from(&image);
        let moved = MidStep {
            image: planes,
            first,
            last,
            done,
        };
        (moved, Spare { planes: image })
    }

    /// Gives the step up, and returns its image as a spare one. The planes that it had are lost.
    pub fn abandon(self) -> Spare
        ensures limit { result.planes.limit ≡ self.planes.limit }
    {
        let MidStep {
            image,
            first: _,
            last: _,
            done: _,
        } = self;
        Spare { planes: image }
    }
}
