//! Images that are not in the middle of a step.
ghost use Rattle.std.specs.Prelude.{◌≡◌};
ghost use Rattle.std.specs.Borrow.{sem};
ghost use Rattle.cam6_planes.specs.Cells.{Cells, cells};
ghost use Rattle.cam6_band.specs.Partway.{Partway};

use crate::bands::MidStep;
use crate::tables::EntryTables;
use cam6_planes::{Planes, Side};

/// An image that shows whole planes.
#[derive(Drop)]
pub struct AtRest {
    pub(crate) planes: Planes,
}

/// An image that may be overwritten: nobody needs what it shows.
#[derive(Drop)]
pub struct Spare {
    pub(crate) planes: Planes,
}

impl AtRest {
    ghost use Rattle.cam6_band.specs.Lending.{LendsPlanes};

    /// Returns the image that has these planes.
    pub fn of(planes: Planes) -> AtRest
        ensures { result.planes ≡ planes }
    {
        AtRest { planes }
    }

    /// Gives up the image, and returns its planes.
    pub fn into_planes(self) -> Planes
        ensures { result ≡ self.planes }
    {
        let AtRest { planes } = self;
        planes
    }

    /// Lends the image's planes to be read.
    pub fn planes(&self) -> &Planes
        ensures { result.now ≡ self.now.planes }
    {
        &self.planes
    }

    /// Lends the image's planes to be changed.
    pub fn planes_mut(&mut self) -> &mut Planes
        ensures* writes_back { sem 𝓛 (LendsPlanes self.entry result) }
        ensures value { result.now ≡ self.old.planes }
    {
        &mut self.planes
    }

    /// Begins a step, of which no row is new yet. Each of its bands has to use these tables.
    pub fn begin(self, _tables: &EntryTables) -> MidStep
        ensures partway { (p : Cells) → Partway (cells self.planes) p result }
        ensures done { result.done ≡ 0 }
        ensures side { result.planes.side ≡ self.planes.side }
        ensures limit { result.planes.limit ≡ self.planes.limit }
    {
        let planes = self.planes;
        let first = *planes.row(0);
        let last = *planes.row(planes.side().number() - 1);
        MidStep {
            image: planes,
            first,
            last,
            done: 0,
        }
    }
}

impl Spare {
    /// Makes a spare image of these planes: one that may be overwritten.
    pub fn of(planes: Planes) -> Spare
        ensures { result.planes ≡ planes }
    {
        Spare { planes }
    }

    /// Returns the largest side that the image may have.
    pub fn limit(&self) -> Side
        ensures { result ≡ self.now.planes.limit }
    {
        self.planes.limit()
    }

    /// Gives up the image, and returns its planes. Nothing is promised of their bits.
    pub fn into_planes(self) -> Planes
        ensures { result ≡ self.planes }
    {
        let Spare { planes } = self;
        planes
    }
}
