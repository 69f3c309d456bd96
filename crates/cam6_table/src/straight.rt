//! Lanes of a set do instructions in the same way, one after the other.
ghost use Rattle.std.specs.Prelude.{◌<◌, ◌≤◌, ℕ, List, length};
ghost use Rattle.cam6_table.specs.declared.lane_values.TheConstants.{LANES};
ghost use Rattle.cam6_forth.specs.declared.words.StackWord.TheVariants as word;
ghost use Rattle.cam6_table.specs.declared.codes.Instruction.TheVariants.{Stack};
ghost use Rattle.cam6_table.specs.Internal.Lanes.{ActsIn, StepsIn, GoOn, Holds, IsSpanned, IsWithin};
ghost use Rattle.cam6_table.specs.Internal.Sets.{IsIn};

use crate::codes::{Instruction, Instructions};
use crate::lane_stacks::NotInAllLanes;
use crate::lane_values::{LaneValues, bits_of, in_all};
use crate::lanes::{Lanes, write_in};
use crate::sets::{LaneSet, limited};
use crate::spans::Span;
use cam6_forth::StackWord;

/// Does instructions in the lanes of a set, from the place where `from` are left until at most
/// `stops_at` are left. Stops before one at which lanes can part, or which can't be done in all of
/// them. Returns how many are left, and narrows the span to what holds then.
#[inline(always)]
pub fn run_straight(
    code: &Instructions,
    addresses: &LaneValues,
    set: &LaneSet,
    from: usize,
    stops_at: usize,
    span: &mut Span,
    lanes: &mut Lanes,
) -> usize
    requires within { from ≤ length code.now }
    requires holds { Holds span.old lanes.old.stacks.len }
    requires floors { (lane : ℕ) → lane < LANES → IsIn set.now.mask lane →
        IsSpanned span.old lane lanes.old.floors }
    ensures falls { result ≤ from }
    ensures narrows { IsWithin span.new span.old }
    ensures holds { Holds span.new lanes.new.stacks.len }
    ensures floors { (lane : ℕ) → lane < LANES → IsIn set.now.mask lane →
        IsSpanned span.new lane lanes.new.floors }
    ensures left { GoOn addresses.now code.now set.now.mask from lanes.old result lanes.new }
{
    let mut remaining = from;
    while remaining > stops_at {
        match step(code.before(remaining - 1), addresses, set, span, lanes) {
            Ok(passed) => remaining = (remaining - 1).saturating_sub(passed),
            Err(NotInAllLanes) => return remaining,
        }
    }
    remaining
}

/// Does one instruction in the lanes of a set, and narrows the span to what holds after it. Returns
/// how many instructions all lanes pass then. Returns `NotInAllLanes`, with nothing done, if lanes
/// can part there or it can't be done in all.
#[inline(always)]
fn step(
    instruction: Instruction,
    addresses: &LaneValues,
    set: &LaneSet,
    span: &mut Span,
    lanes: &mut Lanes,
) -> Result<usize, NotInAllLanes>
    requires holds { Holds span.old lanes.old.stacks.len }
    requires floors { (lane : ℕ) → lane < LANES → IsIn set.now.mask lane →
        IsSpanned span.old lane lanes.old.floors }
    ensures { StepsIn set.now.mask addresses.now instruction span.old lanes.old span.new lanes.new
        result }
{
    match instruction {
        Instruction::Stack(word) => match word {
            StackWord::Drop => drop_top(set, span, lanes),
            _ => act_in(instruction, addresses, set, *span, lanes),
        },
        _ => act_in(instruction, addresses, set, *span, lanes),
    }
}

/// Takes the top values off, even if they aren't in place. Returns 0, since no instruction is
/// passed. Returns `NotInAllLanes`, with nothing done, if by the span a stack may be empty.
fn drop_top(set: &LaneSet, span: &mut Span, lanes: &mut Lanes) -> Result<usize, NotInAllLanes>
    requires holds { Holds span.old lanes.old.stacks.len }
    requires floors { (lane : ℕ) → lane < LANES → IsIn set.now.mask lane →
        IsSpanned span.old lane lanes.old.floors }
    ensures { (addresses : List ℕ) → StepsIn set.now.mask addresses (Stack word.Drop) span.old
        lanes.old span.new lanes.new result }
{
    let len = lanes.stacks.len;
    if len <= span.bottom {
        return Err(NotInAllLanes);
    }
    lanes.stacks.len = len - 1;
    if len <= span.floor {
        span.floor = len - 1;
        let ends = limited(&set.mask, (len - 1) as u16, &lanes.floors.ends);
        lanes.floors.ends = ends;
    }
    Ok(0)
}

/// Does one instruction in the lanes of a set, whose values must be in place by the span. Returns
/// how many instructions all lanes pass then. Returns `NotInAllLanes`, with nothing done, if lanes
/// can part there or it can't be done in all.
#[inline(always)]
fn act_in(
    instruction: Instruction,
    addresses: &LaneValues,
    set: &LaneSet,
    span: Span,
    lanes: &mut Lanes,
) -> Result<usize, NotInAllLanes>
    requires holds { Holds span lanes.old.stacks.len }
    requires floors { (lane : ℕ) → lane < LANES → IsIn set.now.mask lane →
        IsSpanned span lane lanes.old.floors }
    ensures { ActsIn set.now.mask span addresses.now instruction lanes.old lanes.new result }
{
    match instruction {
        Instruction::Literal(value) => lanes.stacks.push(set, span, &in_all(value))?,
        Instruction::Line(line) => lanes.stacks.push(set, span, &bits_of(addresses, line))?,
        Instruction::Stack(word) => lanes.stacks.apply(set, span, word)?,
        Instruction::Output(target) => write_in(lanes, set, span, target)?,
        Instruction::Skip(distance) => return Ok(distance),
        Instruction::CaseWord { after, .. } => return Ok(after),
        Instruction::SkipIfZero(_) | Instruction::Case(_) => return Err(NotInAllLanes),
    }
    Ok(0)
}
