//! Rows as replies have them, made of planes.
ghost use Rattle.std.specs.Prelude.{◌≡◌, ◌<◌, ◌≤◌, ◌/◌, IfOk};
ghost use Rattle.std.specs.List.{AllByRecursion};
ghost use Rattle.cam6_planes.specs.Cells.{cells};
ghost use Rattle.cam6_planes.specs.Stored.{width};
ghost use Rattle.cam6_view.specs.States.{row_colours};
ghost use Rattle.cam6_commands.specs.Limits.{max_colour};
ghost use Rattle.cam6_model.specs.Effects.{plane_rows};

use cam6_band::AtRest;
use cam6_commands::{PlaneRows, RowColours, RowText};
use cam6_planes::{NoMemory, Planes};
use cam6_view::{COLOURS, colour_row};
use std::alloc::Global;

/// Returns the colours of the cells of row `y`, from column 0 on. `map` has the colour of each
/// state, each at most 15. Row `y` is below the side.
pub(crate) fn row_colours(rest: &AtRest, map: &[u8; 16], y: usize) -> RowColours
    requires row { y < width rest.now.planes }
    requires colours { AllByRecursion (λ colour. colour ≤ max_colour) map.now }
    ensures { result ≡ row_colours (width rest.now.planes) map.now (cells rest.now.planes) y }
{
    let mut colours = [0; COLOURS];
    let count = colour_row(rest, map, y, &mut colours);
    RowColours::new(count, colours)
}

/// Returns the digits of each row of plane `p`, from 0 to 3, from row 0 on. Returns `NoMemory` only
/// if an allocation fails.
pub(crate) fn plane_rows(alloc: Global, planes: &Planes, p: usize) -> Result<PlaneRows, NoMemory>
    requires { p < 4 }
    ensures { let s = width planes.now in
        IfOk result (λ rows. rows ≡ plane_rows s (s / 4) (cells planes.now) p) }
{
    let side = planes.side().number();
    let mut rows = Vec::with_capacity(alloc, side)?;
    for y in 0..side {
        rows.push(RowText::of(planes, p, y))?;
    }
    Ok(PlaneRows::new(rows))
}
