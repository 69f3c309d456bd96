//! Sets of lanes, and values that are chosen by them.
ghost use Rattle.std.specs.Prelude.{◌≡◌, ◌==◌, ◌<◌, ◌≤◌, ◌+◌, ◌⊎◌, ℕ, IsTrue, slice_index};
ghost use Rattle.std.specs.Prelude.{if◌then◌else◌, true};
ghost use Rattle.cam6_table.specs.declared.lane_values.TheConstants.{LANES};
ghost use Rattle.cam6_table.specs.declared.sets.TheConstants.{IN};
ghost use Rattle.cam6_table.specs.Internal.Sets.{IsIn, IsOut};

use crate::lane_values::{LANES, LaneValues, in_all};

/// Some lanes: `IN` stands for each of them, and 0 for each of the others.
pub type LaneMask = LaneValues;

/// What stands for a lane that is in a set.
pub const IN: u16 = u16::MAX;

/// A set of lanes, which knows whether it has all of them. Then nothing has to be chosen.
#[derive(Drop)]
pub struct LaneSet {
    pub mask: LaneMask,
    pub is_all: bool,
    ghost whole: { is_all ≡ true → (lane : ℕ) → lane < LANES → IsIn mask lane },
}

impl LaneSet {
    /// Makes the set of a mask, and notes whether it has all lanes.
    #[inline(always)]
    pub fn of(mask: LaneMask) -> LaneSet
        ensures { result.mask ≡ mask }
    {
        let is_all = is_all(&mask);
        LaneSet { mask, is_all }
    }

    /// Returns the new values in the lanes of the set, and the old ones in the others.
    #[inline(always)]
    pub fn chosen(&self, new: &LaneValues, old: &LaneValues) -> LaneValues
        ensures inside { (lane : ℕ) → lane < LANES → IsIn self.now.mask lane →
            slice_index result lane ≡ slice_index new.now lane }
        ensures outside { (lane : ℕ) → lane < LANES → IsOut self.now.mask lane →
            slice_index result lane ≡ slice_index old.now lane }
    {
        if self.is_all {
            *new
        } else {
            chosen(&self.mask, new, old)
        }
    }

    /// Splits the set into the lanes in which the value is 0, and the others of the set.
    #[inline(always)]
    pub fn split(&self, values: &LaneValues) -> Parts
        ensures zeros { (lane : ℕ) → lane < LANES → slice_index result.zeros lane ≡
            (if slice_index values.now lane == 0 then slice_index self.now.mask lane else 0) }
        ensures others { (lane : ℕ) → lane < LANES → slice_index result.others lane ≡
            (if slice_index values.now lane == 0 then 0 else slice_index self.now.mask lane) }
        ensures none_zero { result.some_zeros ≡ 0 →
            (lane : ℕ) → lane < LANES → slice_index result.zeros lane ≡ 0 }
        ensures none_other { result.some_others ≡ 0 →
            (lane : ℕ) → lane < LANES → slice_index result.others lane ≡ 0 }
    {
        if self.is_all {
            split(&in_all(IN), values)
        } else {
            split(&self.mask, values)
        }
    }
}

/// Whether a set has all lanes.
#[inline(always)]
fn is_all(set: &LaneMask) -> bool
    ensures { IsTrue result → (lane : ℕ) → lane < LANES → IsIn set.now lane }
{
    let mut missing = 0;
    for lane in 0..LANES {
        missing |= missing_bits(set[lane]);
    }
    missing == 0
}

/// Returns the bits that a lane's number in a mask lacks of `IN`. They are 0 exactly if the lane is
/// in the set.
#[inline(always)]
fn missing_bits(mask: u16) -> u16
    ensures { result ≡ 0 → mask ≡ IN }
{
    !mask
}

/// Returns `IN` if two values are equal, and else 0.
#[inline(always)]
fn in_if_equal(a: u16, b: u16) -> u16
    ensures { result ≡ (if a == b then IN else 0) }
{
    if a == b { IN } else { 0 }
}

/// Returns `new` if `set` is `IN`, and `old` if it is 0. Without a branch the loop over the lanes
/// becomes one over vectors.
#[inline(always)]
fn choose(set: u16, new: u16, old: u16) -> u16
    ensures inside { set ≡ IN → result ≡ new }
    ensures outside { set ≡ 0 → result ≡ old }
{
    new & set | old & !set
}

/// Returns the new values in the lanes of a set, and the old ones in the others.
#[inline(always)]
pub fn chosen(set: &LaneMask, new: &LaneValues, old: &LaneValues) -> LaneValues
    ensures inside { (lane : ℕ) → lane < LANES → IsIn set.now lane →
        slice_index result lane ≡ slice_index new.now lane }
    ensures outside { (lane : ℕ) → lane < LANES → IsOut set.now lane →
        slice_index result lane ≡ slice_index old.now lane }
{
    let mut values = [0; LANES];
    for lane in 0..LANES {
        values[lane] = choose(set[lane], new[lane], old[lane]);
    }
    values
}

/// Returns `IN` if `row` is `end` or above, and else 0.
#[inline(always)]
fn in_if_from(end: u16, row: u16) -> u16
    ensures inside { end ≤ row → result ≡ IN }
    ensures outside { row < end → result ≡ 0 }
{
    if end <= row { IN } else { 0 }
}

/// Returns `new` if `set` is `IN` and `row` is `end` or above, and otherwise `old`.
#[inline(always)]
fn choose_from(set: u16, end: u16, row: u16, new: u16, old: u16) -> u16
    ensures inside { set ≡ IN → end ≤ row → result ≡ new }
    ensures under { set ≡ IN → row < end → result ≡ old }
    ensures outside { set ≡ 0 → result ≡ old }
{
    choose(set & in_if_from(end, row), new, old)
}

/// Returns the new values in the lanes of a set whose entry in `ends` isn't above `row`, and the
/// old ones in the others.
#[inline(always)]
pub fn chosen_from(
    set: &LaneMask,
    ends: &LaneValues,
    row: u16,
    new: &LaneValues,
    old: &LaneValues,
) -> LaneValues
    ensures inside { (lane : ℕ) → lane < LANES → IsIn set.now lane →
        slice_index ends.now lane ≤ row → slice_index result lane ≡ slice_index new.now lane }
    ensures under { (lane : ℕ) → lane < LANES → IsIn set.now lane →
        row < slice_index ends.now lane → slice_index result lane ≡ slice_index old.now lane }
    ensures outside { (lane : ℕ) → lane < LANES → IsOut set.now lane →
        slice_index result lane ≡ slice_index old.now lane }
{
    let mut values = [0; LANES];
    for lane in 0..LANES {
        values[lane] = choose_from(set[lane], ends[lane], row, new[lane], old[lane]);
    }
    values
}

/// Returns `value` plus `by` if `set` is `IN`, and `value` if it is 0.
#[inline(always)]
fn raise_in(set: u16, by: u16, value: u16) -> u16
    ensures inside { set ≡ IN → value + by < 65536 → result ≡ value + by }
    ensures outside { set ≡ 0 → result ≡ value }
{
    value.wrapping_add(by & set)
}

/// Returns the values, each greater by `by` in the lanes of a set.
#[inline(always)]
pub fn raised(set: &LaneMask, by: u16, values: &LaneValues) -> LaneValues
    ensures inside { (lane : ℕ) → lane < LANES → IsIn set.now lane →
        slice_index values.now lane + by < 65536 →
        slice_index result lane ≡ slice_index values.now lane + by }
    ensures outside { (lane : ℕ) → lane < LANES → IsOut set.now lane →
        slice_index result lane ≡ slice_index values.now lane }
{
    let mut sums = [0; LANES];
    for lane in 0..LANES {
        sums[lane] = raise_in(set[lane], by, values[lane]);
    }
    sums
}

/// Returns `value` minus `by` if `set` is `IN`, and `value` if it is 0.
#[inline(always)]
fn lower_in(set: u16, by: u16, value: u16) -> u16
    ensures inside { set ≡ IN → by ≤ value → result + by ≡ value }
    ensures outside { set ≡ 0 → result ≡ value }
{
    value.wrapping_sub(by & set)
}

/// Returns the values, each less by `by` in the lanes of a set.
#[inline(always)]
pub fn lowered(set: &LaneMask, by: u16, values: &LaneValues) -> LaneValues
    ensures inside { (lane : ℕ) → lane < LANES → IsIn set.now lane →
        by ≤ slice_index values.now lane →
        slice_index result lane + by ≡ slice_index values.now lane }
    ensures outside { (lane : ℕ) → lane < LANES → IsOut set.now lane →
        slice_index result lane ≡ slice_index values.now lane }
{
    let mut rests = [0; LANES];
    for lane in 0..LANES {
        rests[lane] = lower_in(set[lane], by, values[lane]);
    }
    rests
}

/// Returns the lesser of `value` and `limit` if `set` is `IN`, and `value` if it is 0.
#[inline(always)]
fn limit_in(set: u16, limit: u16, value: u16) -> u16
    ensures low { set ≡ IN → value ≤ limit → result ≡ value }
    ensures high { set ≡ IN → limit ≤ value → result ≡ limit }
    ensures outside { set ≡ 0 → result ≡ value }
{
    value.min(limit | !set)
}

/// Returns the values, with those above a limit replaced by it in the lanes of a set.
#[inline(always)]
pub fn limited(set: &LaneMask, limit: u16, values: &LaneValues) -> LaneValues
    ensures low { (lane : ℕ) → lane < LANES → IsIn set.now lane →
        slice_index values.now lane ≤ limit →
        slice_index result lane ≡ slice_index values.now lane }
    ensures high { (lane : ℕ) → lane < LANES → IsIn set.now lane →
        limit ≤ slice_index values.now lane → slice_index result lane ≡ limit }
    ensures outside { (lane : ℕ) → lane < LANES → IsOut set.now lane →
        slice_index result lane ≡ slice_index values.now lane }
{
    let mut least = [0; LANES];
    for lane in 0..LANES {
        least[lane] = limit_in(set[lane], limit, values[lane]);
    }
    least
}

/// Returns the lanes of a set in which the two values are equal, as a set.
#[inline(always)]
pub fn those_equal(set: &LaneMask, values: &LaneValues, others: &LaneValues) -> LaneMask
    ensures { (lane : ℕ) → lane < LANES → slice_index result lane ≡
        (if slice_index values.now lane == slice_index others.now lane
        then slice_index set.now lane else 0) }
{
    let mut those = [0; LANES];
    for lane in 0..LANES {
        those[lane] = set[lane] & in_if_equal(values[lane], others[lane]);
    }
    those
}

/// Returns the value `new` in the lanes of a set, and the old values in the others.
#[inline(always)]
pub fn put_in(set: &LaneMask, new: u16, old: &LaneValues) -> LaneValues
    ensures inside { (lane : ℕ) → lane < LANES → IsIn set.now lane →
        slice_index result lane ≡ new }
    ensures outside { (lane : ℕ) → lane < LANES → IsOut set.now lane →
        slice_index result lane ≡ slice_index old.now lane }
{
    let mut values = [0; LANES];
    for lane in 0..LANES {
        values[lane] = choose(set[lane], new, old[lane]);
    }
    values
}

/// Returns the lanes of a set in which the value is `value`, as a set.
#[inline(always)]
pub fn those_with(set: &LaneMask, values: &LaneValues, value: u16) -> LaneMask
    ensures { (lane : ℕ) → lane < LANES → slice_index result lane ≡
        (if slice_index values.now lane == value then slice_index set.now lane else 0) }
{
    let mut those = [0; LANES];
    for lane in 0..LANES {
        those[lane] = set[lane] & in_if_equal(values[lane], value);
    }
    those
}

/// The lanes of a set in which a value is 0, and the others of the set.
#[derive(Drop)]
pub struct Parts {
    pub zeros: LaneMask,
    pub others: LaneMask,
    /// 0 if there is none of the first.
    pub some_zeros: u16,
    /// 0 if there is none of the second.
    pub some_others: u16,
}

/// Splits a set into the lanes in which the value is 0, and the others of the set.
#[inline(always)]
fn split(set: &LaneMask, values: &LaneValues) -> Parts
    ensures zeros { (lane : ℕ) → lane < LANES → slice_index result.zeros lane ≡
        (if slice_index values.now lane == 0 then slice_index set.now lane else 0) }
    ensures others { (lane : ℕ) → lane < LANES → slice_index result.others lane ≡
        (if slice_index values.now lane == 0 then 0 else slice_index set.now lane) }
    ensures none_zero { result.some_zeros ≡ 0 →
        (lane : ℕ) → lane < LANES → slice_index result.zeros lane ≡ 0 }
    ensures none_other { result.some_others ≡ 0 →
        (lane : ℕ) → lane < LANES → slice_index result.others lane ≡ 0 }
{
    let mut zeros = [0; LANES];
    let mut others = [0; LANES];
    let mut some_zeros = 0;
    let mut some_others = 0;
    for lane in 0..LANES {
        let here = in_if_equal(values[lane], 0);
        let zero = set[lane] & here;
        let other = set[lane] & !here;
        zeros[lane] = zero;
        others[lane] = other;
        some_zeros |= zero;
        some_others |= other;
    }
    Parts {
        zeros,
        others,
        some_zeros,
        some_others,
    }
}

/// Whether a set has no lane.
#[inline(always)]
pub fn is_none(set: &LaneMask) -> bool
    ensures { IsTrue result → (lane : ℕ) → lane < LANES → slice_index set.now lane ≡ 0 }
{
    let mut some = 0;
    for lane in 0..LANES {
        some |= set[lane];
    }
    some == 0
}

/// Returns the greatest of the values in the lanes of a set, or 0 if the set has no lane.
#[inline(always)]
pub fn greatest_in(set: &LaneMask, values: &LaneValues) -> u16
    ensures { (lane : ℕ) → lane < LANES → IsIn set.now lane →
        slice_index values.now lane ≤ result }
{
    let mut most = 0;
    for lane in 0..LANES {
        most = (values[lane] & set[lane]).max(most);
    }
    most
}

/// Returns the least of the values in the lanes of a set, or 65,535 if the set has no lane.
#[inline(always)]
pub fn least_in(set: &LaneMask, values: &LaneValues) -> u16
    ensures { (lane : ℕ) → lane < LANES → IsIn set.now lane →
        result ≤ slice_index values.now lane }
{
    let mut least = u16::MAX;
    for lane in 0..LANES {
        least = (values[lane] | !set[lane]).min(least);
    }
    least
}
