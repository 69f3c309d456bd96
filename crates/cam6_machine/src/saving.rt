//! What is saved of a machine, part by part.
ghost use Rattle.std.specs.Prelude.{◌≡◌, ◌<◌, IfOk};
ghost use Rattle.cam6_planes.specs.Cells.{cells};
ghost use Rattle.cam6_planes.specs.Stored.{width};
ghost use Rattle.cam6_model.specs.Saved.{plane_bytes, four_planes};

use cam6_commands::BitRows;
use cam6_planes::{NoMemory, Planes};
use std::alloc::Global;

/// Returns the bits of all rows of all four planes, planes and rows in order from 0 on. Returns
/// `NoMemory` only if an allocation fails.
pub(crate) fn saved_planes(alloc: Global, planes: &Planes) -> Result<[BitRows; 4], NoMemory>
    ensures { IfOk result (λ saved. saved ≡ four_planes (width planes.now) (cells planes.now)) }
{
    Ok([
        plane_bits(alloc, planes, 0)?,
        plane_bits(alloc, planes, 1)?,
        plane_bits(alloc, planes, 2)?,
        plane_bits(alloc, planes, 3)?,
    ])
}

/// Returns the bits of all rows of plane `p`, from 0 to 3, from row 0 on. Returns `NoMemory` only
/// if an allocation fails.
fn plane_bits(alloc: Global, planes: &Planes, p: usize) -> Result<BitRows, NoMemory>
    requires { p < 4 }
    ensures { IfOk result (λ rows. rows ≡ plane_bytes (width planes.now) (cells planes.now) p) }
{
    let side = planes.side().number();
    let mut rows = Vec::with_capacity(alloc, side)?;
    for y in 0..side {
        rows.push(planes.row_bits(p, y))?;
    }
    Ok(BitRows::new(rows))
}

/// Returns the colours as numbers, as a command has them.
pub(crate) fn saved_colours(colours: &[u8; 16]) -> [u64; 16]
    ensures { result ≡ colours.now }
{
    let mut saved = [0; 16];
    for state in 0..16 {
        saved[state] = u64::from(colours[state]);
    }
    saved
}
