//! Stacks of lanes move, so that they end at another row. Values below a gap stay where they are.
ghost use Rattle.std.specs.Prelude.{◌≡◌, ◌≢◌, ◌<◌, ◌≤◌, ◌+◌, ◌-◌, ◌⊎◌, ℕ, slice_index};
ghost use Rattle.cam6_table.specs.declared.lane_values.TheConstants.{LANES};
ghost use Rattle.cam6_table.specs.declared.lane_stacks.TheConstants.{ROWS};
ghost use Rattle.cam6_table.specs.Internal.Lanes.{value_at, width_of};
ghost use Rattle.cam6_table.specs.Internal.Lanes.{Stands, IsKept, IsUntouched};
ghost use Rattle.cam6_table.specs.Internal.Sets.{IsIn, IsOut};

use crate::floors::Floors;
use crate::lane_stacks::{ROWS, Stacks};
use crate::lane_values::{LANES, LaneValues};
use crate::lanes::Lanes;
use crate::sets::{LaneMask, greatest_in, least_in, lowered, put_in, raised, those_equal};

/// Moves the stacks of two sets of lanes, so that all of them end at one row, and returns that row:
/// `here` or `there`. Before, the first set's stacks end at row `here`, and the second set's at row
/// `there`. The sets must have no lane in common. `lanes.stacks.len` stays.
pub fn level(
    first: &LaneMask,
    second: &LaneMask,
    here: usize,
    there: usize,
    lanes: &mut Lanes,
) -> usize
    requires each_first { (lane : ℕ) → lane < LANES → IsIn first.now lane ⊎ IsOut first.now lane }
    requires each_second { (lane : ℕ) → lane < LANES →
        IsIn second.now lane ⊎ IsOut second.now lane }
    requires apart { (lane : ℕ) → lane < LANES → IsIn first.now lane → IsOut second.now lane }
    requires here { here ≤ ROWS }
    requires there { there ≤ ROWS }
    ensures top { result ≤ ROWS }
    ensures len { lanes.new.stacks.len ≡ lanes.old.stacks.len }
    ensures first { (lane : ℕ) → lane < LANES → IsIn first.now lane →
        Stands lane here lanes.old.floors → IsKept here lanes.old result lanes.new lane }
    ensures second { (lane : ℕ) → lane < LANES → IsIn second.now lane →
        Stands lane there lanes.old.floors → IsKept there lanes.old result lanes.new lane }
    ensures others { (lane : ℕ) → lane < LANES → IsOut first.now lane → IsOut second.now lane →
        IsUntouched lanes.old lanes.new lane }
{
    if here < there {
        join_levels(second, first, there, here, lanes)
    } else {
        join_levels(first, second, here, there, lanes)
    }
}

/// Moves the stacks of two sets, so that all end at one row, and returns that row. Before, those of
/// `high` end at row `from`, and those of `low` at row `to`, not above it. If each of `high` has a
/// gap that is wide enough, these are lowered, and else those of `low` raised. No lane is in both
/// sets.
fn join_levels(high: &LaneMask, low: &LaneMask, from: usize, to: usize, lanes: &mut Lanes) -> usize
    requires each_high { (lane : ℕ) → lane < LANES → IsIn high.now lane ⊎ IsOut high.now lane }
    requires each_low { (lane : ℕ) → lane < LANES → IsIn low.now lane ⊎ IsOut low.now lane }
    requires apart { (lane : ℕ) → lane < LANES → IsIn low.now lane → IsOut high.now lane }
    requires under { (lane : ℕ) → lane < LANES → IsIn high.now lane → IsOut low.now lane }
    requires down { to ≤ from }
    requires limit { from ≤ ROWS }
    ensures top { result ≤ ROWS }
    ensures len { lanes.new.stacks.len ≡ lanes.old.stacks.len }
    ensures high { (lane : ℕ) → lane < LANES → IsIn high.now lane →
        Stands lane from lanes.old.floors → IsKept from lanes.old result lanes.new lane }
    ensures low { (lane : ℕ) → lane < LANES → IsIn low.now lane →
        Stands lane to lanes.old.floors → IsKept to lanes.old result lanes.new lane }
    ensures others { (lane : ℕ) → lane < LANES → IsOut high.now lane → IsOut low.now lane →
        IsUntouched lanes.old lanes.new lane }
{
    if from == to {
        return from;
    }
    if from - to <= usize::from(least_in(high, &lanes.floors.widths)) {
        lower_stacks(high, from, to, lanes);
        to
    } else {
        raise_stacks(low, to, from, lanes);
        from
    }
}

/// Moves up the values above the gaps, so that the stacks of a set's lanes end at row `to` instead
/// of row `from`. `to` isn't below `from`, and at most 64. Values below a gap stay where they are.
/// A stack without a gap gets one at its top, so that all of its values stay.
pub fn raise_stacks(set: &LaneMask, from: usize, to: usize, lanes: &mut Lanes)
    requires set { (lane : ℕ) → lane < LANES → IsIn set.now lane ⊎ IsOut set.now lane }
    requires up { from ≤ to }
    requires to { to ≤ ROWS }
    ensures len { lanes.new.stacks.len ≡ lanes.old.stacks.len }
    ensures inside { (lane : ℕ) → lane < LANES → IsIn set.now lane →
        Stands lane from lanes.old.floors → IsKept from lanes.old to lanes.new lane }
    ensures outside { (lane : ℕ) → lane < LANES → IsOut set.now lane →
        IsUntouched lanes.old lanes.new lane }
{
    let by = (to - from) as u16;
    begin_gaps(set, from, lanes);
    let floors = &lanes.floors;
    move_up(&mut lanes.stacks, set, &floors.ends, to - from, from);
    let rows = raised(set, by, &floors.rows);
    let ends = raised(set, by, &floors.ends);
    let widths = raised(set, by, &floors.widths);
    lanes.floors = Floors { rows, ends, widths };
}

/// Begins a gap of no width at row `top` in each stack of a set that has all values in place. `top`
/// is the row at which these stacks end.
fn begin_gaps(set: &LaneMask, top: usize, lanes: &mut Lanes)
    requires set { (lane : ℕ) → lane < LANES → IsIn set.now lane ⊎ IsOut set.now lane }
    requires top { top ≤ ROWS }
    ensures len { lanes.new.stacks.len ≡ lanes.old.stacks.len }
    ensures inside { (lane : ℕ) → lane < LANES → IsIn set.now lane →
        Stands lane top lanes.old.floors → IsKept top lanes.old top lanes.new lane }
    ensures outside { (lane : ℕ) → lane < LANES → IsOut set.now lane →
        IsUntouched lanes.old lanes.new lane }
{
    let floors = &lanes.floors;
    let those = those_equal(set, &floors.rows, &floors.ends);
    let ends = put_in(&those, top as u16, &floors.ends);
    let widths = put_in(&those, 0, &floors.widths);
    lanes.floors.ends = ends;
    lanes.floors.widths = widths;
}

/// Moves down the values above the gaps, so that the stacks of a set's lanes end at row `to`
/// instead of row `from`. Each gap must be at least `from - to` rows wide. Values below a gap stay
/// where they are.
pub fn lower_stacks(set: &LaneMask, from: usize, to: usize, lanes: &mut Lanes)
    requires set { (lane : ℕ) → lane < LANES → IsIn set.now lane ⊎ IsOut set.now lane }
    requires down { to ≤ from }
    requires from { from ≤ ROWS }
    requires wide { (lane : ℕ) → lane < LANES → IsIn set.now lane →
        from ≤ width_of lane lanes.old.floors + to }
    ensures len { lanes.new.stacks.len ≡ lanes.old.stacks.len }
    ensures inside { (lane : ℕ) → lane < LANES → IsIn set.now lane →
        Stands lane from lanes.old.floors → IsKept from lanes.old to lanes.new lane }
    ensures outside { (lane : ℕ) → lane < LANES → IsOut set.now lane →
        IsUntouched lanes.old lanes.new lane }
{
    let by = (from - to) as u16;
    let floors = &lanes.floors;
    move_down(&mut lanes.stacks, set, &floors.ends, from - to, from);
    let rows = lowered(set, by, &floors.rows);
    let ends = lowered(set, by, &floors.ends);
    let widths = lowered(set, by, &floors.widths);
    lanes.floors = Floors { rows, ends, widths };
}

/// Copies rows below `to` up by `by` rows, the last one first, within the 64 rows. Copies a row
/// only in the lanes of the set whose entry in `ends` isn't above it.
fn move_up(stacks: &mut Stacks, set: &LaneMask, ends: &LaneValues, by: usize, to: usize)
    requires set { (lane : ℕ) → lane < LANES → IsIn set.now lane ⊎ IsOut set.now lane }
    requires within { to + by ≤ ROWS }
    ensures len { stacks.new.len ≡ stacks.old.len }
    ensures inside { (lane row : ℕ) → lane < LANES → IsIn set.now lane →
        slice_index ends.now lane ≤ row → row < to →
        value_at lane stacks.new.rows (row + by) ≡ value_at lane stacks.old.rows row }
    ensures below { (lane row : ℕ) → lane < LANES → IsIn set.now lane →
        row < slice_index ends.now lane + by →
        value_at lane stacks.new.rows row ≡ value_at lane stacks.old.rows row }
    ensures outside { (lane row : ℕ) → lane < LANES → IsOut set.now lane →
        value_at lane stacks.new.rows row ≡ value_at lane stacks.old.rows row }
{
    let lowest = usize::from(least_in(set, ends));
    let highest = usize::from(greatest_in(set, ends));
    let mut next = to;
    while next > lowest {
        next -= 1;
        stacks.copy(set, ends, highest, next, next + by);
    }
}

/// Copies rows below `to` down by `by` rows, the first one first, without those below row `by`.
/// Copies a row only in the lanes of the set whose entry in `ends` isn't above it.
fn move_down(stacks: &mut Stacks, set: &LaneMask, ends: &LaneValues, by: usize, to: usize)
    requires set { (lane : ℕ) → lane < LANES → IsIn set.now lane ⊎ IsOut set.now lane }
    requires within { to ≤ ROWS }
    ensures len { stacks.new.len ≡ stacks.old.len }
    ensures inside { (lane row : ℕ) → lane < LANES → IsIn set.now lane →
        slice_index ends.now lane ≤ row → by ≤ row → row < to →
        value_at lane stacks.new.rows (row - by) ≡ value_at lane stacks.old.rows row }
    ensures below { (lane row : ℕ) → lane < LANES → IsIn set.now lane →
        row + by < slice_index ends.now lane →
        value_at lane stacks.new.rows row ≡ value_at lane stacks.old.rows row }
    ensures outside { (lane row : ℕ) → lane < LANES → IsOut set.now lane →
        value_at lane stacks.new.rows row ≡ value_at lane stacks.old.rows row }
{
    let lowest = usize::from(least_in(set, ends)).max(by);
    let highest = usize::from(greatest_in(set, ends));
    for next in lowest..to {
        stacks.copy(set, ends, highest, next, next - by);
    }
}

/// Fills the gaps in the stacks of a set's lanes down to row `low`: copies values from below a gap
/// to their places.
pub fn fill_gaps(set: &LaneMask, low: usize, lanes: &mut Lanes)
    ensures len { lanes.new.stacks.len ≡ lanes.old.stacks.len }
    ensures inside { (lane top : ℕ) → lane < LANES → IsIn set.now lane →
        Stands lane top lanes.old.floors → IsKept top lanes.old top lanes.new lane }
    ensures outside { (lane : ℕ) → lane < LANES → IsOut set.now lane →
        IsUntouched lanes.old lanes.new lane }
{
    for lane in 0..LANES {
        if set[lane] != 0 {
            fill_gap(lane, low, lanes);
        }
    }
}

/// Fills the gap in a lane's stack down to row `low`: copies values from below the gap to their
/// places. If `low` is 0, the stack can be lowered to the first row afterwards.
fn fill_gap(lane: usize, low: usize, lanes: &mut Lanes)
    requires lane { lane < LANES }
    ensures len { lanes.new.stacks.len ≡ lanes.old.stacks.len }
    ensures here { (top : ℕ) → Stands lane top lanes.old.floors →
        IsKept top lanes.old top lanes.new lane }
    ensures others { (other : ℕ) → other < LANES → other ≢ lane →
        IsUntouched lanes.old lanes.new other }
{
    let floor = lanes.floors.rows[lane];
    let end = lanes.floors.ends[lane];
    let width = lanes.floors.widths[lane];
    let from = floor.max(low.min(ROWS) as u16);
    if end < from || usize::from(end) > ROWS || width > floor {
        return;
    }
    lanes.stacks.fill(
        lane,
        usize::from(width),
        usize::from(from),
        usize::from(end),
    );
    lanes.floors.ends[lane] = from;
    lanes.floors.widths[lane] = width_after(width, floor, from, low);
}

/// Returns the width of a lane's gap after values from row `from` on were copied to their places.
/// `low` is the row down to which the gap had to be filled. If values below `from` are left, it is
/// the old width. If all are in place, any width is right. It is the floor if `low` is 0, so that
/// `lower_stacks` can take the stack to the first row, and else 0.
#[inline(always)]
fn width_after(width: u16, floor: u16, from: u16, low: usize) -> u16
    requires { width ≤ floor }
    ensures low { result ≤ floor }
    ensures same { from ≢ floor → result ≡ width }
{
    if from != floor {
        width
    } else if low == 0 {
        floor
    } else {
        0
    }
}
