//! The image that a job works on.
ghost use Rattle.std.specs.Prelude.{◌≡◌};
ghost use Rattle.cam6_planes.specs.Cells.{Cells};
ghost use Rattle.cam6_planes.specs.Stored.{width};
ghost use Rattle.cam6_band.specs.ByTables.{step_by, values_of};
ghost use Rattle.cam6_board.specs.Images.{planes_in, IsOnTheWay, IsAfterBand, GoesOn};

use crate::images::Image;
use cam6_band::{EntryTables, Scratch};
use std::marker::Model;

/// An image. It is away only in the midst of a band. Contracts see the image.
#[derive(Drop)]
pub(crate) struct Worked {
    image: Option<Image>,
}

impl Model for Worked {
    ghost use Rattle.std.specs.Prelude.{IsSome};
    ghost use Rattle.cam6_board.specs.declared.images.Image.{Image};
    ghost use Rattle.cam6_board.specs.Internal.Worked.{image_of};

    ghost Value = { Image };

    ghost view = { λ w. image_of w.image };

    ghost invariant = { λ w. IsSome w.image };
}

impl Worked {
    /// Makes a holder of this image.
    pub(crate) fn of(image: Image) -> Worked
        ensures { result ≡ image }
    {
        Worked { image: Some(image) }
    }

    /// Gives up the holder, and returns its image.
    pub(crate) fn into_image(self) -> Image
        ensures { result ≡ self }
    {
        match self.image {
            Some(image) => image,
            None => unreachable!(),
        }
    }

    /// Lends the image. It is there at each call: only `band` takes it out, and puts it back.
    pub(crate) fn image(&self) -> &Image
        ensures { result.now ≡ self.now }
    {
        match &self.image {
            Some(image) => image,
            None => unreachable!(),
        }
    }

    /// Does one band of the step under way, sixteen rows. If the image is at rest, begins a step by
    /// these tables first. The image is at rest after a step's last band. All bands of a step need
    /// the same tables.
    pub(crate) fn band(&mut self, tables: &EntryTables, scratch: &mut Scratch)
        // From whatever planes the step began.
        ensures planes { let s = width (planes_in self.old) in (o : Cells) →
            IsOnTheWay o (step_by s (values_of tables.now) o) self.old →
            IsAfterBand o (step_by s (values_of tables.now) o) self.new }
        ensures goes_on { GoesOn self.old self.new }
    {
        let Some(image) = &mut self.image else {
            unreachable!()
        };
        if image.go_on(tables, scratch) {
            return;
        }
        let image = match self.image.take() {
            Some(image) => image,
            None => unreachable!(),
        };
        self.image = Some(image.band(tables, scratch));
    }
}
