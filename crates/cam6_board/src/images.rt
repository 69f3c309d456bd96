//! An image that a board works on: at rest, or in the middle of a step.
ghost use Rattle.std.specs.Prelude.{◌≡◌, ◌<◌, ◌%◌, false, IsTrue, IfOk, IfErr};
ghost use Rattle.cam6_planes.specs.Cells.{Cells};
ghost use Rattle.cam6_planes.specs.Stored.{width, AreAlike};
ghost use Rattle.cam6_band.specs.Limits.{band};
ghost use Rattle.cam6_band.specs.Partway.{Partway};
ghost use Rattle.cam6_band.specs.ByTables.{step_by, values_of};

use cam6_band::{AtRest, EntryTables, MidStep, Next, Scratch, Spare};
use cam6_planes::Side;

/// An image at rest, or one in the middle of a step. A step can't be dropped, so it is abandoned.
pub enum Image {
    Rest(AtRest),
    Mid(MidStep),
}

impl Drop for Image {
    /// Abandons the step, if one is under way.
    fn drop(self) {
        match self {
            Image::Rest(image) => drop(image),
            Image::Mid(image) => drop(image.abandon()),
        }
    }
}

impl Image {
    ghost use Rattle.cam6_board.specs.Images.{planes_in, rows_of, is_rest, IsOnTheWay};
    ghost use Rattle.cam6_board.specs.Images.{IsAfterBand, GoesOn};

    /// Returns the largest side that the image may have.
    pub fn limit(&self) -> Side
        ensures { result ≡ (planes_in self.now).limit }
    {
        match self {
            Image::Rest(image) => image.planes().limit(),
            Image::Mid(image) => image.limit(),
        }
    }

    /// Returns the side of the planes, at rest or in the middle of a step.
    pub fn side(&self) -> Side
        ensures { result ≡ (planes_in self.now).side }
    {
        match self {
            Image::Rest(image) => image.planes().side(),
            Image::Mid(image) => image.side(),
        }
    }

    /// Returns how many rows of the step are done, a whole number of bands. It is 0 at rest.
    pub fn rows_done(&self) -> u16
        ensures rows { result ≡ rows_of self.now }
        ensures within { result < width (planes_in self.now) }
        ensures bands { result % band ≡ 0 }
    {
        match self {
            Image::Rest(_) => 0,
            Image::Mid(image) => image.rows(),
        }
    }

    /// Whether the image is at rest, and not in the middle of a step.
    pub fn is_rest(&self) -> bool
        ensures { result ≡ is_rest self.now }
    {
        match self {
            Image::Rest(_) => true,
            Image::Mid(_) => false,
        }
    }

    /// Returns the image at rest, or `Err` with the step under way, which the caller has to finish
    /// or abandon.
    pub fn into_rest(self) -> Result<AtRest, MidStep>
        ensures rest { IfOk result (λ rest. self ≡ Image.Rest rest) }
        ensures step { IfErr result (λ step. self ≡ Image.Mid step) }
    {
        match self {
            Image::Rest(image) => Ok(image),
            Image::Mid(image) => Err(image),
        }
    }

    /// Does one band of the step under way, sixteen rows. If the image is at rest, begins a step by
    /// these tables first. The image is at rest after a step's last band. All bands of a step need
    /// the same tables. The scratch may hold anything.
    pub(crate) fn band(self, tables: &EntryTables, scratch: &mut Scratch) -> Image
        // From whatever planes the step began.
        ensures planes { let s = width (planes_in self) in (o : Cells) →
            IsOnTheWay o (step_by s (values_of tables.now) o) self →
            IsAfterBand o (step_by s (values_of tables.now) o) result }
        ensures goes_on { GoesOn self result }
    {
        match self.into_step(tables).band_in(tables, scratch) {
            Next::More(step) => Image::Mid(step),
            Next::Whole(image) => Image::Rest(image),
        }
    }

    /// Does one band in place if the image is in the middle of a step, and the band isn't the
    /// step's last. Returns whether it did the band. Otherwise nothing changes. The tables must be
    /// those with which the step began.
    pub(crate) fn go_on(&mut self, tables: &EntryTables, scratch: &mut Scratch) -> bool
        // From whatever planes the step began.
        ensures planes { IsTrue result → let s = width (planes_in self.old) in (o : Cells) →
            IsOnTheWay o (step_by s (values_of tables.now) o) self.old →
            IsAfterBand o (step_by s (values_of tables.now) o) self.new }
        ensures goes_on { IsTrue result → GoesOn self.old self.new }
        ensures stays { result ≡ false → self.new ≡ self.old }
    {
        match self {
            Image::Mid(step) if !step.is_last() => {
                step.go_on(tables, scratch);
                true
            }
            _ => false,
        }
    }

    /// Returns the step under way. If the image is at rest, begins a step by these tables, with no
    /// row done.
    fn into_step(self, tables: &EntryTables) -> MidStep
        ensures partway { (o p : Cells) → IsOnTheWay o p self → Partway o p result }
        ensures done { result.done ≡ rows_of self }
        ensures alike { AreAlike (planes_in self) result.planes }
    {
        match self {
            Image::Rest(image) => image.begin(tables),
            Image::Mid(step) => step,
        }
    }

    /// Consumes the image, and returns its planes as spare. A step under way is abandoned.
    pub fn into_spare(self) -> Spare
        ensures { result.planes.limit ≡ (planes_in self).limit }
    {
        match self {
            Image::Rest(image) => Spare::of(image.into_planes()),
            Image::Mid(image) => image.abandon(),
        }
    }
}
