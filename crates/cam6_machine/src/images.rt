//! The image that a machine holds.
ghost use Rattle.std.specs.Prelude.{◌≡◌, ◌<◌, ◌≤◌, ◌*◌, length, true, None};
ghost use Rattle.cam6_planes.specs.Cells.{cells, torus, no_cells, with_row, without_plane};
ghost use Rattle.cam6_planes.specs.Row.{byte_column};
ghost use Rattle.cam6_planes.specs.Side.{side_number};
ghost use Rattle.cam6_planes.specs.Stored.{AreAlike};
ghost use Rattle.cam6_model.specs.Alone.{command_of};
ghost use Rattle.cam6_model.specs.Moves.{moved};
ghost use Rattle.cam6_model.specs.Refusals.{refusal, are_planes};
ghost use Rattle.cam6_model.specs.Saved.{saved_bit};
ghost use Rattle.cam6_machine.specs.Stored.{machine_over};

use crate::kept::Kept;
use crate::loading::put_planes;
use cam6_band::AtRest;
use cam6_commands::BitRows;
use cam6_cycle::Direction;
use cam6_planes::{Planes, Side};
use std::marker::Model;

/// An image at rest. It is away only in the midst of steps. Contracts see its planes.
#[derive(Drop)]
pub(crate) struct Held {
    image: Option<AtRest>,
}

impl Model for Held {
    ghost use Rattle.std.specs.Prelude.{IsSome};
    ghost use Rattle.cam6_planes.specs.Stored.{Stored};
    ghost use Rattle.cam6_machine.specs.Internal.Images.{planes_of};

    ghost Value = { Stored };

    ghost view = { λ h. planes_of h.image };

    ghost invariant = { λ h. IsSome h.image };
}

impl Held {
    /// Makes a holder of this image.
    pub(crate) fn of(image: AtRest) -> Held
        ensures { result ≡ image.planes }
    {
        Held { image: Some(image) }
    }

    /// Gives up the holder, and returns its image.
    pub(crate) fn into_image(self) -> AtRest
        ensures { result.planes ≡ self }
    {
        match self.image {
            Some(image) => image,
            None => unreachable!(),
        }
    }

    /// Lends the image. It is there at each call: only steps take it out, and they put it back.
    pub(crate) fn image(&self) -> &AtRest
        ensures { result.now.planes ≡ self.now }
    {
        match &self.image {
            Some(image) => image,
            None => unreachable!(),
        }
    }

    /// Lends the planes of the image.
    pub(crate) fn planes(&self) -> &Planes
        ensures { result.now ≡ self.now }
    {
        self.image().planes()
    }

    /// Writes row `y` of plane `p`, from 0 to 3, from bytes. The first byte has columns 0 to 7, and
    /// there is one for each eight columns. Row `y` is below the side.
    pub(crate) fn put_row(&mut self, p: usize, y: usize, bits: &[u8])
        requires plane { p < 4 }
        requires row { y < side_number self.old.side }
        requires bits { 8 * length bits.now ≡ side_number self.old.side }
        ensures cells { cells self.new
            ≡ with_row (side_number self.old.side) (cells self.old) p y (byte_column bits.now) }
        ensures alike { AreAlike self.old self.new }
    {
        let Some(image) = &mut self.image else {
            unreachable!()
        };
        image.planes_mut().put_row(p, y, bits);
    }

    /// Sets every bit of plane `p`, from 0 to 3, to 0. The other planes stay as they are.
    pub(crate) fn clear_plane(&mut self, p: usize)
        requires plane { p < 4 }
        ensures cells { cells self.new
            ≡ without_plane (side_number self.old.side) (cells self.old) p }
        ensures alike { AreAlike self.old self.new }
    {
        let Some(image) = &mut self.image else {
            unreachable!()
        };
        image.planes_mut().clear_plane(p);
    }

    /// Changes the side of the image, and sets every bit of all planes to 0. The side must be
    /// within the image's limit.
    pub(crate) fn set_side(&mut self, side: Side)
        requires within { side_number side ≤ side_number self.old.limit }
        ensures cells { cells self.new ≡ no_cells }
        ensures side { self.new.side ≡ side }
        ensures limit { self.new.limit ≡ self.old.limit }
    {
        let Some(image) = &mut self.image else {
            unreachable!()
        };
        image.planes_mut().set_side(side);
    }

    /// Changes the side of the image, and writes all rows of its four planes. The side must be
    /// within the image's limit, and each plane have all rows and columns of it.
    pub(crate) fn put_planes(&mut self, side: Side, rows: &[BitRows; 4])
        requires within { side_number side ≤ side_number self.old.limit }
        requires rows { are_planes (side_number side) rows.now ≡ true }
        ensures cells { cells self.new ≡ torus (side_number side) (saved_bit rows.now) }
        ensures side { self.new.side ≡ side }
        ensures limit { self.new.limit ≡ self.old.limit }
    {
        let Some(image) = &mut self.image else {
            unreachable!()
        };
        put_planes(image.planes_mut(), side, rows);
    }

    /// Does `n` steps of the image along the cycle in `kept` (backward, undoes them). Sets the
    /// position in `kept` to that after them. A cycle must be set, and backward each of its rules
    /// be one that can be undone.
    pub(crate) fn go(&mut self, kept: &mut Kept, n: u16, direction: Direction)
        requires accepted { refusal (machine_over self.old kept.old) (command_of n direction)
            ≡ None }
        ensures machine { machine_over self.new kept.new
            ≡ moved direction n (machine_over self.old kept.old) }
        ensures alike { AreAlike self.old self.new }
        ensures limit { kept.new.limit ≡ kept.old.limit }
    {
        let image = match self.image.take() {
            Some(image) => image,
            None => unreachable!(),
        };
        self.image = Some(kept.go(image, n, direction));
    }
}
