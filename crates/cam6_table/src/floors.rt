//! Where the stacks of all lanes lie.
//!
//! A value is in place if it lies in the row that its depth below the stack's top gives. A gap is
//! the rows between a lane's values in place and those that were left below. A stack can move
//! without the values below its gap. `Span` says for a set of lanes from which row on all values
//! are in place.
ghost use Rattle.std.specs.Prelude.{◌≡◌, ◌<◌, ℕ, slice_index};
ghost use Rattle.cam6_table.specs.declared.lane_values.TheConstants.{LANES};

use crate::lane_values::{LaneValues, in_all};

/// Where each lane's stack lies. Its values from row `ends` on are in place. Those below lie
/// `widths` rows below their place, so that a stack can move without them.
#[derive(Drop)]
pub struct Floors {
    /// The row at which a stack begins if all of its values are in place.
    pub rows: LaneValues,
    pub ends: LaneValues,
    pub widths: LaneValues,
}

/// Returns floors with every stack at the first row, and all of its values in place.
#[inline(always)]
pub fn all_low() -> Floors
    ensures rows { (lane : ℕ) → lane < LANES → slice_index result.rows lane ≡ 0 }
    ensures ends { (lane : ℕ) → lane < LANES → slice_index result.ends lane ≡ 0 }
    ensures widths { (lane : ℕ) → lane < LANES → slice_index result.widths lane ≡ 0 }
{
    Floors {
        rows: in_all(0),
        ends: in_all(0),
        widths: in_all(0),
    }
}
