//! Where each lane is in the code, and which lanes go on together.
ghost use Rattle.std.specs.Prelude.{◌≡◌, ◌==◌, ◌&&◌, ◌⊎◌, ◌<◌, ◌≤◌, ℕ, List, OnOk, IfOk, length, slice_index};
ghost use Rattle.cam6_table.specs.declared.lane_values.TheConstants.{LANES};
ghost use Rattle.cam6_table.specs.declared.codes.Instruction.{Instruction};
ghost use Rattle.cam6_table.specs.declared.codes.Instruction.TheVariants.{SkipIfZero, Case};
ghost use Rattle.cam6_table.specs.Limits.{max_eval_steps};
ghost use Rattle.cam6_table.specs.declared.lane_stacks.TheConstants.{ROWS};
ghost use Rattle.cam6_table.specs.Internal.Sets.{IsIn, IsOut, IsOther, IsInOnePart};
ghost use Rattle.cam6_table.specs.Internal.Lanes.{IsNext, AreFound, Holds, IsSpanned, AreParted};
ghost use Rattle.cam6_table.specs.Internal.Lanes.{AreLeft, AreLeftAt, AreLeftWith};

use crate::codes::{Instruction, Instructions};
use crate::lane_stacks::{NotInAllLanes, ROWS};
use crate::lane_values::{LANES, LaneValues, in_all};
use crate::lanes::Lanes;
use crate::levels::level;
use crate::sets::{IN, LaneMask, LaneSet, Parts, greatest_in, is_none, put_in, those_with};
use crate::spans::{Span, span_of};
use crate::straight::run_straight;
use crate::waiting::{LaneQueue, LanesWaiting, waiting_at};

/// Where each lane waits: so many instructions are left to it, and its stack ends at a row.
#[derive(Drop)]
pub struct Places {
    pub remaining_by_lane: LaneValues,
    pub tops: LaneValues,
}

/// Lanes that go on together, and how many instructions are left to them. They go on until `stops_at`
/// instructions are left, where others wait.
#[derive(Drop)]
pub struct Flow {
    pub set: LaneSet,
    pub remaining: usize,
    pub stops_at: usize,
    pub span: Span,
    /// Whether lanes left it after its span was made. If so, those that are left may have more
    /// values and more room than the span says.
    pub was_parted: bool,
}

/// Returns places at which all lanes wait at the start of the code, with empty stacks. The code
/// must have at most 4,096 instructions.
pub fn all_at_start(code: &Instructions) -> Places
    requires { length code.now ≤ max_eval_steps }
    ensures remaining_by_lane { (lane : ℕ) → lane < LANES →
        slice_index result.remaining_by_lane lane ≡ length code.now }
    ensures tops { (lane : ℕ) → lane < LANES → slice_index result.tops lane ≡ 0 }
{
    Places {
        remaining_by_lane: in_all(code.len() as u16),
        tops: in_all(0),
    }
}

/// Makes a flow of the lanes of a set. They have `remaining` instructions left, and go on together
/// until `stops_at` are left. Their stacks end at row `lanes.stacks.len`.
#[inline(always)]
pub fn new_flow(set: LaneMask, remaining: usize, stops_at: usize, lanes: &Lanes) -> Flow
    requires limit { lanes.now.stacks.len ≤ ROWS }
    ensures left { (addresses : List ℕ) (code : List Instruction) (places : Places) →
        AreLeftAt addresses code set remaining places lanes.now →
        AreLeftWith addresses code result places lanes.now }
{
    Flow {
        span: span_of(&lanes.floors, &set, lanes.stacks.len),
        set: LaneSet::of(set),
        remaining,
        stops_at,
        was_parted: false,
    }
}

/// Makes a flow of all lanes that wait at the place `waiting`. They go on together until `stops_at`
/// instructions are left. Sets `lanes.stacks.len` to the row at which their stacks end.
#[inline(always)]
pub fn resume(
    code: &Instructions,
    waiting: LanesWaiting,
    stops_at: usize,
    places: &Places,
    lanes: &mut Lanes,
) -> Flow
    ensures left { (addresses : List ℕ) → AreLeft addresses code.now places.now lanes.old →
        AreLeftWith addresses code.now result places.now lanes.new }
{
    let top = waiting.top.min(ROWS as u16);
    let those = others_at(&in_all(0), places, waiting.remaining, top);
    lanes.stacks.len = usize::from(top);
    let remaining = usize::from(waiting.remaining).min(code.len());
    new_flow(those, remaining, stops_at, lanes)
}

/// Returns a lane's mark in a set: `IN` if `is_there` is true and its mark `other` in another set
/// is 0, and else 0.
#[inline(always)]
fn mark_of(other: u16, is_there: bool) -> u16
    ensures { IsOther result other is_there }
{
    if is_there & (other == 0) { IN } else { 0 }
}

/// Returns the set of the lanes outside `set` that wait with `remaining` instructions left and
/// stacks that end at row `top`.
#[inline(always)]
pub fn others_at(set: &LaneMask, places: &Places, remaining: u16, top: u16) -> LaneMask
    ensures { (lane : ℕ) → lane < LANES → IsOther (slice_index result lane)
        (slice_index set.now lane) (slice_index places.now.remaining_by_lane lane == remaining
        && slice_index places.now.tops lane == top) }
{
    let mut those = [0; LANES];
    for lane in 0..LANES {
        let is_there = (places.remaining_by_lane[lane] == remaining) & (places.tops[lane] == top);
        those[lane] = mark_of(set[lane], is_there);
    }
    those
}

/// Notes in `places` that the lanes of a set wait with `remaining` instructions left, at most
/// 4,096. Their stacks end at row `top`, at most 64. Other lanes stay.
#[inline(always)]
pub fn wait(places: &mut Places, set: &LaneMask, remaining: usize, top: usize)
    requires remaining { remaining ≤ max_eval_steps }
    requires top { top ≤ ROWS }
    ensures remaining_by_lane { (lane : ℕ) → lane < LANES → IsIn set.now lane →
        slice_index places.new.remaining_by_lane lane ≡ remaining }
    ensures tops { (lane : ℕ) → lane < LANES → IsIn set.now lane →
        slice_index places.new.tops lane ≡ top }
    ensures other_remaining { (lane : ℕ) → lane < LANES → IsOut set.now lane →
        slice_index places.new.remaining_by_lane lane ≡ slice_index places.old.remaining_by_lane lane }
    ensures other_tops { (lane : ℕ) → lane < LANES → IsOut set.now lane →
        slice_index places.new.tops lane ≡ slice_index places.old.tops lane }
{
    places.remaining_by_lane = put_in(set, remaining as u16, &places.remaining_by_lane);
    places.tops = put_in(set, top as u16, &places.tops);
}

/// Does `SkipIfZero(distance)`, at which the flow must be: takes the top values off. Lanes in which
/// the value is 0 pass `distance` instructions. If only some pass them, the others go on, and those
/// may have to wait. Returns `NotInAllLanes`, and changes nothing, if a value may not be in place.
#[inline(always)]
pub fn part_at_if(
    code: &Instructions,
    addresses: &LaneValues,
    distance: usize,
    flow: &mut Flow,
    queue: &mut LaneQueue,
    places: &mut Places,
    lanes: &mut Lanes,
) -> Result<(), NotInAllLanes>
    requires some { 0 < flow.old.remaining }
    requires within { flow.old.remaining ≤ length code.now }
    requires code { length code.now ≤ max_eval_steps }
    requires holds { Holds flow.old.span lanes.old.stacks.len }
    requires floors { (lane : ℕ) → lane < LANES → IsIn flow.old.set.mask lane →
        IsSpanned flow.old.span lane lanes.old.floors }
    requires each { (lane : ℕ) → lane < LANES →
        IsIn flow.old.set.mask lane ⊎ IsOut flow.old.set.mask lane }
    ensures falls { OnOk result (flow.new.remaining < flow.old.remaining) }
    ensures left { IsNext code.now flow.old.remaining (SkipIfZero distance) →
        AreLeftWith addresses.now code.now flow.old places.old lanes.old →
        AreLeftWith addresses.now code.now flow.new places.new lanes.new }
{
    lanes.stacks.need_values(flow.span, 1)?;
    let remaining = flow.remaining - 1;
    let target = remaining.saturating_sub(distance);
    if distance == 0 {
        lanes.stacks.len -= 1;
        flow.remaining = remaining;
        return Ok(());
    }
    let top = lanes.stacks.at_depth(1);
    let parts = flow.set.split(top);
    lanes.stacks.len -= 1;
    if parts.some_zeros == 0 {
        flow.remaining = remaining;
        return Ok(());
    }
    if parts.some_others == 0 {
        flow.remaining = target;
        return Ok(());
    }
    flow.remaining = remaining;
    split_flow(code, addresses, parts, target, flow, queue, places, lanes);
    Ok(())
}

/// Lets the lanes `parts.others` of a flow go on until `target` instructions are left, where
/// `parts.zeros` already are. If they come there without parting anew, both go on as one flow. If
/// not, the flow loses the lanes `parts.zeros`, which wait there. Both sets together are the flow's
/// lanes.
fn split_flow(
    code: &Instructions,
    addresses: &LaneValues,
    parts: Parts,
    target: usize,
    flow: &mut Flow,
    queue: &mut LaneQueue,
    places: &mut Places,
    lanes: &mut Lanes,
)
    requires within { flow.old.remaining ≤ length code.now }
    requires code { length code.now ≤ max_eval_steps }
    requires target { target ≤ flow.old.remaining }
    requires holds { Holds flow.old.span lanes.old.stacks.len }
    requires floors { (lane : ℕ) → lane < LANES → IsIn flow.old.set.mask lane →
        IsSpanned flow.old.span lane lanes.old.floors }
    requires parts { (lane : ℕ) → lane < LANES → IsInOnePart (slice_index flow.old.set.mask lane)
        (slice_index parts.zeros lane) (slice_index parts.others lane) }
    ensures falls { flow.new.remaining ≤ flow.old.remaining }
    ensures left { AreParted addresses.now code.now flow.old parts.zeros parts.others
        flow.old.remaining target places.old lanes.old →
        AreLeftWith addresses.now code.now flow.new places.new lanes.new }
{
    let there = lanes.stacks.len;
    let set = LaneSet {
        mask: parts.others,
        is_all: false,
    };
    let mut span = flow.span;
    let remaining = run_straight(
        code,
        addresses,
        &set,
        flow.remaining,
        target,
        &mut span,
        lanes,
    );
    flow.remaining = remaining;
    if remaining != target {
        wait(places, &parts.zeros, target, there);
        queue.put(waiting_at(target, there));
        flow.set = set;
        flow.span = span;
        flow.was_parted = true;
        flow.stops_at = flow.stops_at.max(target);
        return;
    }
    if lanes.stacks.len != there {
        let top = level(&set.mask, &parts.zeros, lanes.stacks.len, there, lanes);
        lanes.stacks.len = top;
        flow.span = span_of(&lanes.floors, &flow.set.mask, top);
        flow.was_parted = false;
    }
}

/// Does `Case(count)`, at which the flow must be: takes an index off each stack. Each lane then
/// waits at the case's word with this index, and the flow has no lane left. Returns
/// `NotInAllLanes`, and changes nothing, if an index may not be in place, is `count` or more, or
/// has no word.
#[inline(always)]
pub fn part_at_case(
    code: &Instructions,
    count: usize,
    flow: &mut Flow,
    queue: &mut LaneQueue,
    places: &mut Places,
    lanes: &mut Lanes,
) -> Result<(), NotInAllLanes>
    requires some { 0 < flow.old.remaining }
    requires within { flow.old.remaining ≤ length code.now }
    requires code { length code.now ≤ max_eval_steps }
    requires holds { Holds flow.old.span lanes.old.stacks.len }
    requires next { IsNext code.now flow.old.remaining (Case count) }
    ensures falls { OnOk result (flow.new.remaining < flow.old.remaining) }
    ensures left { (addresses : List ℕ) →
        AreLeftWith addresses code.now flow.old places.old lanes.old →
        AreLeftWith addresses code.now flow.new places.new lanes.new }
{
    lanes.stacks.need_values(flow.span, 1)?;
    let remaining = flow.remaining - 1;
    let indices = lanes.stacks.at_depth(1);
    let mut words = LaneQueue::new();
    let remaining_by_lane = find_case_words(
        code,
        remaining,
        count,
        &flow.set.mask,
        indices,
        &places.remaining_by_lane,
        lanes.stacks.len - 1,
        &mut words,
    )?;
    lanes.stacks.len -= 1;
    queue.put_all(&mut words);
    places.remaining_by_lane = remaining_by_lane;
    places.tops = put_in(&flow.set.mask, lanes.stacks.len as u16, &places.tops);
    flow.set = LaneSet {
        mask: in_all(0),
        is_all: false,
    };
    flow.remaining = 0;
    flow.stops_at = 0;
    Ok(())
}

/// Returns how many instructions are left to each lane of the set at the case's word with its
/// index. Other lanes keep `old`. `from` are left at the first word's head. Adds the words' places
/// to `words`, with stacks that end at row `top`. Returns `NotInAllLanes` if an index is `count` or
/// more, or has no word.
fn find_case_words(
    code: &Instructions,
    from: usize,
    count: usize,
    set: &LaneMask,
    indices: &LaneValues,
    old: &LaneValues,
    top: usize,
    words: &mut LaneQueue,
) -> Result<LaneValues, NotInAllLanes>
    requires within { from ≤ length code.now }
    requires code { length code.now ≤ max_eval_steps }
    ensures { IfOk result (AreFound code.now from count set.now indices.now old.now) }
{
    let last = usize::from(greatest_in(set, indices));
    if last >= count {
        return Err(NotInAllLanes);
    }
    let mut remaining_by_lane = *old;
    let mut remaining = from;
    for index in 0..last + 1 {
        if remaining == 0 {
            return Err(NotInAllLanes);
        }
        remaining -= 1;
        let Instruction::CaseWord { length, .. } = code.before(remaining) else {
            return Err(NotInAllLanes);
        };
        let those = those_with(set, indices, index as u16);
        if !is_none(&those) {
            words.push(waiting_at(remaining, top));
        }
        remaining_by_lane = put_in(&those, remaining as u16, &remaining_by_lane);
        remaining = remaining.saturating_sub(length);
    }
    Ok(remaining_by_lane)
}
