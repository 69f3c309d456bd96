//! Where the stacks of some lanes begin, and where one of them is full.
ghost use Rattle.std.specs.Prelude.{◌<◌, ◌≤◌, ℕ};
ghost use Rattle.cam6_table.specs.declared.lane_values.TheConstants.{LANES};
ghost use Rattle.cam6_table.specs.declared.lane_stacks.TheConstants.{ROWS};
ghost use Rattle.cam6_table.specs.Internal.Lanes.{Stands, Holds, IsSpanned};
ghost use Rattle.cam6_table.specs.Internal.Sets.{IsIn};

use crate::floors::Floors;
use crate::lane_stacks::ROWS;
use crate::sets::{LaneMask, greatest_in, least_in};
use crate::stacks::MAX_VALUES;

/// From the floor on all values are in place. None of the stacks begins above the bottom, and none
/// is full below the row `room`.
#[derive(Clone, Copy, Debug, PartialEq, Eq)]
pub struct Span {
    pub floor: usize,
    pub bottom: usize,
    pub room: usize,
}

/// Returns the span of the lanes of a set, whose stacks end at row `top`, at most 64. It says from
/// which row all values are in place, where the highest stack begins, and where the first is full.
/// It holds for all of these lanes.
#[inline(always)]
pub fn span_of(floors: &Floors, set: &LaneMask, top: usize) -> Span
    requires top { top ≤ ROWS }
    ensures holds { Holds result top }
    ensures each { (lane : ℕ) → lane < LANES → IsIn set.now lane →
        Stands lane top floors.now → IsSpanned result lane floors.now }
{
    let end = usize::from(greatest_in(set, &floors.ends));
    let highest = usize::from(greatest_in(set, &floors.rows));
    let lowest = usize::from(least_in(set, &floors.rows));
    let full = lowest + MAX_VALUES;
    Span {
        floor: end.min(top),
        bottom: highest,
        room: full.min(ROWS).max(top),
    }
}
