//! What a flow does where others wait: it takes them along, or waits itself.
ghost use Rattle.std.specs.Prelude.{◌≡◌, ◌<◌, ◌≤◌, ◌⊎◌, ℕ, List, length};
ghost use Rattle.cam6_table.specs.declared.codes.Instruction.{Instruction};
ghost use Rattle.cam6_table.specs.declared.flows.Places.{Places};
ghost use Rattle.cam6_table.specs.declared.lanes.Lanes.{Lanes};
ghost use Rattle.cam6_table.specs.declared.lane_values.TheConstants.{LANES};
ghost use Rattle.cam6_table.specs.Limits.{max_eval_steps};
ghost use Rattle.cam6_table.specs.Internal.Lanes.{Holds, AreLeftWith};
ghost use Rattle.cam6_table.specs.Internal.Sets.{IsIn, IsOut};

use crate::codes::Instructions;
use crate::flows::{Flow, Places, new_flow, others_at, resume, wait};
use crate::lane_stacks::{NotInAllLanes, ROWS};
use crate::lanes::Lanes;
use crate::levels::{fill_gaps, level, lower_stacks};
use crate::sets::{IN, least_in, put_in};
use crate::spans::span_of;
use crate::waiting::{LaneQueue, LanesWaiting, waiting_at};

/// So many of the top values are brought to their places at once.
const DUG: usize = 5;

/// No word reads more values than this.
const READ: usize = 3;

/// Decides how a flow goes on after its run ended as `ran`. After `NotInAllLanes` it is settled with
/// the same lanes. Otherwise it takes along the lanes that are next in the queue, or waits and becomes
/// the flow of those. Returns false if settling changes nothing, which leaves the lanes where they
/// are, or if the queue is empty.
pub fn go_on(
    code: &Instructions,
    ran: Result<(), NotInAllLanes>,
    flow: &mut Flow,
    queue: &mut LaneQueue,
    places: &mut Places,
    lanes: &mut Lanes,
) -> bool
    requires code { length code.now ≤ max_eval_steps }
    requires within { flow.old.remaining ≤ length code.now }
    requires holds { Holds flow.old.span lanes.old.stacks.len }
    requires each { (lane : ℕ) → lane < LANES →
        IsIn flow.old.set.mask lane ⊎ IsOut flow.old.set.mask lane }
    ensures left { (addresses : List ℕ) →
        AreLeftWith addresses code.now flow.old places.old lanes.old →
        AreLeftWith addresses code.now flow.new places.new lanes.new }
{
    if ran.is_err() {
        return settle(flow, lanes);
    }
    match queue.pop() {
        None => false,
        Some(next) => {
            if usize::from(next.remaining) == flow.remaining {
                meet(next, flow, queue, places, lanes);
            } else {
                exchange(code, next, flow, queue, places, lanes);
            }
            true
        }
    }
}

/// Lets the lanes of a flow wait at their place, and makes the flow one of the lanes that wait at
/// `next`.
#[inline(always)]
fn exchange(
    code: &Instructions,
    next: LanesWaiting,
    flow: &mut Flow,
    queue: &mut LaneQueue,
    places: &mut Places,
    lanes: &mut Lanes,
)
    requires code { length code.now ≤ max_eval_steps }
    requires within { flow.old.remaining ≤ length code.now }
    requires holds { Holds flow.old.span lanes.old.stacks.len }
    ensures left { (addresses : List ℕ) →
        AreLeftWith addresses code.now flow.old places.old lanes.old →
        AreLeftWith addresses code.now flow.new places.new lanes.new }
{
    wait(places, &flow.set.mask, flow.remaining, lanes.stacks.len);
    queue.put(waiting_at(flow.remaining, lanes.stacks.len));
    *flow = resume(code, next, queue.next_remaining(), places, lanes);
}

/// Adds the lanes that wait at the place `next` to a flow that is there now. Moves the stacks of
/// both to one row.
fn meet(
    next: LanesWaiting,
    flow: &mut Flow,
    queue: &mut LaneQueue,
    places: &Places,
    lanes: &mut Lanes,
)
    requires here { next.remaining ≡ flow.old.remaining }
    requires holds { Holds flow.old.span lanes.old.stacks.len }
    requires each { (lane : ℕ) → lane < LANES →
        IsIn flow.old.set.mask lane ⊎ IsOut flow.old.set.mask lane }
    ensures left { (addresses : List ℕ) (code : List Instruction) →
        AreLeftWith addresses code flow.old places.now lanes.old →
        AreLeftWith addresses code flow.new places.now lanes.new }
{
    let there = usize::from(next.top);
    if there > ROWS {
        return;
    }
    let those = others_at(&flow.set.mask, places, next.remaining, next.top);
    let top = level(&flow.set.mask, &those, lanes.stacks.len, there, lanes);
    lanes.stacks.len = top;
    let both = put_in(&flow.set.mask, IN, &those);
    *flow = new_flow(both, flow.remaining, queue.next_remaining(), lanes);
}

/// Changes what may have kept a flow from doing an instruction in all of its lanes. Makes the
/// flow's span anew, fills gaps in its stacks, or lowers them. Returns false if none of these would
/// change anything.
fn settle(flow: &mut Flow, lanes: &mut Lanes) -> bool
    requires holds { Holds flow.old.span lanes.old.stacks.len }
    requires each { (lane : ℕ) → lane < LANES →
        IsIn flow.old.set.mask lane ⊎ IsOut flow.old.set.mask lane }
    ensures left { (addresses : List ℕ) (code : List Instruction) (places : Places) →
        AreLeftWith addresses code flow.old places lanes.old →
        AreLeftWith addresses code flow.new places lanes.new }
{
    let top = lanes.stacks.len;
    let span = span_of(&lanes.floors, &flow.set.mask, top);
    if flow.was_parted && span != flow.span {
        *flow = new_flow(flow.set.mask, flow.remaining, flow.stops_at, lanes);
        return true;
    }
    if span.bottom < span.floor && top < span.floor + READ {
        fill_gaps(&flow.set.mask, top.saturating_sub(DUG), lanes);
        *flow = new_flow(flow.set.mask, flow.remaining, flow.stops_at, lanes);
        return true;
    }
    make_room(flow, lanes)
}

/// Lowers all stacks of a flow by one number of rows, until the lowest begins at the first row.
/// Returns false if one begins there already, or if the stacks don't move.
fn make_room(flow: &mut Flow, lanes: &mut Lanes) -> bool
    requires holds { Holds flow.old.span lanes.old.stacks.len }
    requires each { (lane : ℕ) → lane < LANES →
        IsIn flow.old.set.mask lane ⊎ IsOut flow.old.set.mask lane }
    ensures left { (addresses : List ℕ) (code : List Instruction) (places : Places) →
        AreLeftWith addresses code flow.old places lanes.old →
        AreLeftWith addresses code flow.new places lanes.new }
{
    let top = lanes.stacks.len;
    if least_in(&flow.set.mask, &lanes.floors.rows) == 0 {
        return false;
    }
    fill_gaps(&flow.set.mask, 0, lanes);
    let by = usize::from(least_in(&flow.set.mask, &lanes.floors.widths)).min(top);
    lower_stacks(&flow.set.mask, top, top - by, lanes);
    lanes.stacks.len = top - by;
    *flow = new_flow(flow.set.mask, flow.remaining, flow.stops_at, lanes);
    by > 0
}
