//! One step of all cells of both halves, by their rules' tables.
ghost use Rattle.std.specs.Prelude.{◌≡◌};
ghost use Rattle.cam6_planes.specs.Cells.{cells};
ghost use Rattle.cam6_planes.specs.Stored.{width, AreAlike};
ghost use Rattle.cam6_band.specs.ByTables.{step_by, values_of};

use cam6_band::{AtRest, EntryTables, Scratch};

/// Does one step of an image by an entry's tables, band by band. Each cell becomes what its half's
/// table makes of the planes. The scratch may hold anything.
pub(crate) fn step(image: AtRest, tables: &EntryTables, scratch: &mut Scratch) -> AtRest
    ensures planes { cells result.planes
        ≡ step_by (width image.planes) (values_of tables.now) (cells image.planes) }
    ensures alike { AreAlike image.planes result.planes }
{
    let mut mid = image.begin(tables);
    while !mid.is_last() {
        mid.go_on(tables, scratch);
    }
    mid.end(tables, scratch)
}
