//! Flat code is run in all lanes at once: lanes that are at one place go on together.
ghost use Rattle.std.specs.Prelude.{◌≡◌, ◌<◌, ◌≤◌, ℕ, OnOk, length};
ghost use Rattle.cam6_table.specs.declared.flows.Places.{Places};
ghost use Rattle.cam6_table.specs.declared.lane_values.TheConstants.{LANES};
ghost use Rattle.cam6_table.specs.Limits.{max_eval_steps};
ghost use Rattle.cam6_table.specs.Internal.Lanes.{AreLeft, AreLeftWith, Holds, IsSpanned};
ghost use Rattle.cam6_table.specs.Internal.Sets.{IsIn};

use crate::codes::{Instruction, Instructions};
use crate::flows::{Flow, Places, part_at_case, part_at_if, resume, wait};
use crate::lane_stacks::NotInAllLanes;
use crate::lane_values::LaneValues;
use crate::lanes::Lanes;
use crate::meeting::go_on;
use crate::straight::run_straight;
use crate::waiting::{LaneQueue, waiting_at};

/// More flows than code of 4,096 instructions can have in 64 lanes.
const FLOWS: u32 = 64 * 4096;

/// Lanes whose stacks end at different rows pass the same instructions one after the other. After so
/// many instructions in all they are sooner done one by one.
const MOST_STEPS: usize = 12 * 4096;

/// Runs the code in all lanes, each at its address, as far as they go together. Writes to `places`
/// where each lane is then. That is the end of the code, or a place from which it can be run on by
/// itself.
pub fn run_together(
    code: &Instructions,
    addresses: &LaneValues,
    places: &mut Places,
    lanes: &mut Lanes,
)
    requires code { length code.now ≤ max_eval_steps }
    requires left { AreLeft addresses.now code.now places.old lanes.old }
    ensures left { AreLeft addresses.now code.now places.new lanes.new }
{
    let start = waiting_at(code.len(), 0);
    let mut flow = resume(code, start, 0, places, lanes);
    run_flows(code, addresses, &mut flow, places, lanes);
    wait(places, &flow.set.mask, flow.remaining, lanes.stacks.len);
}

/// Runs the code in the lanes of a flow and in those that part from it, and writes to `places`
/// where they are then. It ends early if `MOST_STEPS` are used up, or if a flow can't go on.
fn run_flows(
    code: &Instructions,
    addresses: &LaneValues,
    flow: &mut Flow,
    places: &mut Places,
    lanes: &mut Lanes,
)
    requires code { length code.now ≤ max_eval_steps }
    requires left { AreLeftWith addresses.now code.now flow.old places.old lanes.old }
    ensures left { AreLeftWith addresses.now code.now flow.new places.new lanes.new }
{
    let mut queue = LaneQueue::new();
    let mut steps = MOST_STEPS;
    for _ in 0..FLOWS {
        let ran = run_flow(code, addresses, flow, &mut queue, places, lanes, &mut steps);
        if steps == 0 {
            return;
        }
        if !go_on(code, ran, flow, &mut queue, places, lanes) {
            return;
        }
    }
}

/// Runs the code in the lanes of a flow up to where others wait, while `steps` are left. `steps`
/// falls by one for each instruction that the flow comes on. Returns `NotInAllLanes` at an
/// instruction that can't be done in all of its lanes.
fn run_flow(
    code: &Instructions,
    addresses: &LaneValues,
    flow: &mut Flow,
    queue: &mut LaneQueue,
    places: &mut Places,
    lanes: &mut Lanes,
    steps: &mut usize,
) -> Result<(), NotInAllLanes>
    requires code { length code.now ≤ max_eval_steps }
    requires left { AreLeftWith addresses.now code.now flow.old places.old lanes.old }
    ensures left { AreLeftWith addresses.now code.now flow.new places.new lanes.new }
{
    while flow.remaining > flow.stops_at && *steps > 0 {
        let from = flow.remaining;
        advance(code, addresses, flow, queue, places, lanes)?;
        *steps = steps.saturating_sub(from - flow.remaining);
    }
    Ok(())
}

/// Does instructions in the lanes of a flow until `flow.stops_at` or fewer are left. Or does them
/// up to one at which lanes can part, and that one too. More than `flow.stops_at` must be left
/// before. Returns `NotInAllLanes` at one that can't be done in all lanes.
#[inline(always)]
fn advance(
    code: &Instructions,
    addresses: &LaneValues,
    flow: &mut Flow,
    queue: &mut LaneQueue,
    places: &mut Places,
    lanes: &mut Lanes,
) -> Result<(), NotInAllLanes>
    requires code { length code.now ≤ max_eval_steps }
    requires some { flow.old.stops_at < flow.old.remaining }
    requires left { AreLeftWith addresses.now code.now flow.old places.old lanes.old }
    ensures falls { OnOk result (flow.new.remaining < flow.old.remaining) }
    ensures left { AreLeftWith addresses.now code.now flow.new places.new lanes.new }
{
    go_straight(code, addresses, flow, lanes);
    if flow.remaining <= flow.stops_at {
        return Ok(());
    }
    diverge(code, addresses, flow, queue, places, lanes)
}

/// Does instructions in the lanes of a flow, up to where others wait. Stops earlier at one at which
/// lanes can part, or which can't be done in all of them.
#[inline(always)]
fn go_straight(code: &Instructions, addresses: &LaneValues, flow: &mut Flow, lanes: &mut Lanes)
    requires within { flow.old.remaining ≤ length code.now }
    requires holds { Holds flow.old.span lanes.old.stacks.len }
    requires floors { (lane : ℕ) → lane < LANES → IsIn flow.old.set.mask lane →
        IsSpanned flow.old.span lane lanes.old.floors }
    ensures falls { flow.new.remaining ≤ flow.old.remaining }
    ensures stops_at { flow.new.stops_at ≡ flow.old.stops_at }
    ensures left { (places : Places) →
        AreLeftWith addresses.now code.now flow.old places lanes.old →
        AreLeftWith addresses.now code.now flow.new places lanes.new }
{
    let mut span = flow.span;
    flow.remaining = run_straight(
        code,
        addresses,
        &flow.set,
        flow.remaining,
        flow.stops_at,
        &mut span,
        lanes,
    );
    flow.span = span;
}

/// Does an instruction at which the lanes of a flow can part. Returns `NotInAllLanes` if it is no
/// such instruction, or can't be done in all lanes of the flow.
#[inline(always)]
fn diverge(
    code: &Instructions,
    addresses: &LaneValues,
    flow: &mut Flow,
    queue: &mut LaneQueue,
    places: &mut Places,
    lanes: &mut Lanes,
) -> Result<(), NotInAllLanes>
    requires code { length code.now ≤ max_eval_steps }
    requires some { 0 < flow.old.remaining }
    requires left { AreLeftWith addresses.now code.now flow.old places.old lanes.old }
    ensures falls { OnOk result (flow.new.remaining < flow.old.remaining) }
    ensures left { AreLeftWith addresses.now code.now flow.new places.new lanes.new }
{
    match code.before(flow.remaining - 1) {
        Instruction::SkipIfZero(distance) => {
            part_at_if(code, addresses, distance, flow, queue, places, lanes)
        }
        Instruction::Case(count) => part_at_case(code, count, flow, queue, places, lanes),
        _ => Err(NotInAllLanes),
    }
}
