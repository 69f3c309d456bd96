//! The states of all lanes: their stacks, and what they wrote last.
ghost use Rattle.std.specs.Prelude.{◌≡◌, ◌<◌, ◌≤◌, ◌/◌, ℕ};
ghost use Rattle.cam6_table.specs.declared.lane_values.TheConstants.{LANES};
ghost use Rattle.cam6_table.specs.Limits.{max_values};
ghost use Rattle.cam6_entries.specs.NewBits.{is_odd};
ghost use Rattle.cam6_table.specs.Outputs.{untouched, entry_of};
ghost use Rattle.cam6_table.specs.Internal.Lanes.{bit_written, state_at, WritesIn};
ghost use Rattle.cam6_table.specs.Internal.Lanes.{Stands, Holds, IsSpanned};
ghost use Rattle.cam6_table.specs.Internal.Sets.{IsIn};

use crate::floors::{Floors, all_low};
use crate::lane_stacks::{NotInAllLanes, Stacks};
use crate::lane_values::{LANES, LaneValues, halves, in_all, lowest_bits};
use crate::outputs::{State, entry_of};
use crate::sets::LaneSet;
use crate::spans::Span;
use crate::stacks::Stack;
use cam6_forth::Target;

/// What stands for a plane to which a lane wrote nothing. A bit that it wrote is 0 or 1.
const NOT_WRITTEN: u16 = 2;

/// The stacks of all lanes and where they lie. For each plane of the half, the bits
/// that the lanes wrote to it last.
#[derive(Drop)]
pub struct Lanes {
    pub stacks: Stacks,
    pub floors: Floors,
    pub lower: LaneValues,
    pub upper: LaneValues,
}

/// Makes the state of lanes in which a rule begins: empty stacks, and no plane written.
pub fn all_untouched() -> Lanes {
    Lanes {
        stacks: Stacks::new(),
        floors: all_low(),
        lower: [NOT_WRITTEN; LANES],
        upper: [NOT_WRITTEN; LANES],
    }
}

/// Resets all lanes to the state in which a rule begins.
pub fn clear(lanes: &mut Lanes)
    ensures limit { lanes.new.stacks.len ≤ max_values }
    ensures stands { (lane : ℕ) → lane < LANES → Stands lane 0 lanes.new.floors }
    ensures cleared { (lane : ℕ) → lane < LANES → state_at lane 0 lanes.new ≡ untouched }
{
    lanes.stacks.len = 0;
    lanes.floors = all_low();
    lanes.lower = in_all(NOT_WRITTEN);
    lanes.upper = in_all(NOT_WRITTEN);
}

/// Returns the state of a lane, counted from 0. Its stack must end before row `top`, by the floors.
pub fn state_of(lanes: &Lanes, lane: usize, top: usize) -> State
    requires lane { lane < LANES }
    requires stands { Stands lane top lanes.now.floors }
    ensures { result ≡ state_at lane top lanes.now }
{
    State {
        stack: lanes.stacks.of_lane(&lanes.floors, lane, top),
        lower: bit_written(lanes.lower[lane]),
        upper: bit_written(lanes.upper[lane]),
    }
}

/// Returns the bit that a lane's value in `lower` or `upper` means, true for 1. Returns `None` if
/// the lane wrote nothing.
fn bit_written(value: u16) -> Option<bool>
    ensures { result ≡ bit_written value }
{
    if value == NOT_WRITTEN {
        None
    } else {
        Some(value == 1)
    }
}

/// Returns the entry of a lane that is at the end of the code, from the bits that it wrote. Bit 0
/// is for the lower plane, bit 1 for the upper. A plane that isn't written keeps its centre, from
/// `address`. The stack doesn't matter.
pub fn entry_at_end(lanes: &Lanes, lane: usize, address: u16) -> u8
    requires { lane < LANES }
    ensures entry { (top : ℕ) →
        result ≡ entry_of (is_odd address) (is_odd (address / 2)) (state_at lane top lanes.now) }
    ensures within { result < 4 }
{
    let state = State {
        stack: Stack::new(),
        lower: bit_written(lanes.lower[lane]),
        upper: bit_written(lanes.upper[lane]),
    };
    entry_of(&state, address)
}

/// Does an output word in all lanes of a set: takes the top values off, and notes their lowest bits
/// as written to the target plane. For `Both`, bit 0 goes to the lower plane and bit 1 to the
/// upper. Returns `NotInAllLanes`, and changes nothing, if by the span a stack may lack a value.
#[inline(always)]
pub fn write_in(
    lanes: &mut Lanes,
    set: &LaneSet,
    span: Span,
    target: Target,
) -> Result<(), NotInAllLanes>
    requires holds { Holds span lanes.old.stacks.len }
    requires floors { (lane : ℕ) → lane < LANES → IsIn set.now.mask lane →
        IsSpanned span lane lanes.old.floors }
    ensures { WritesIn set.now.mask span target lanes.old lanes.new result }
{
    lanes.stacks.need_values(span, 1)?;
    let values = *lanes.stacks.at_depth(1);
    let low = lowest_bits(&values);
    lanes.stacks.len -= 1;
    match target {
        Target::Lower => {
            lanes.lower = set.chosen(&low, &lanes.lower);
            Ok(())
        }
        Target::Upper => {
            lanes.upper = set.chosen(&low, &lanes.upper);
            Ok(())
        }
        Target::Both => {
            let high = lowest_bits(&halves(&values));
            lanes.lower = set.chosen(&low, &lanes.lower);
            lanes.upper = set.chosen(&high, &lanes.upper);
            Ok(())
        }
    }
}
