//! Whether a command is accepted, before anything is done: its numbers are checked, and come back
//! with types that have their limits.
ghost use Rattle.std.specs.Prelude.{◌≡◌, ◌≤◌, ◌*◌, List, length, Some};
ghost use Rattle.std.specs.Result.{result_err};
ghost use Rattle.std.specs.Prelude.{IfOk, nat_le};
ghost use Rattle.cam6_planes.specs.Side.{side_number, side_of};
ghost use Rattle.cam6_commands.specs.Limits.{max_colour};
ghost use Rattle.cam6_commands.specs.Checks.{unless};
ghost use Rattle.cam6_commands.specs.declared.faults.Fault.TheVariants.{OutOfRange};
ghost use Rattle.cam6_model.specs.Rules.{Rule};
ghost use Rattle.cam6_model.specs.Refusals.{plane_row_refusal, set_refusal};
ghost use Rattle.cam6_model.specs.Refusals.{run_refusal, side_refusal, map_refusal};
ghost use Rattle.cam6_rules.specs.Numbers.{entries_of, named_entries};

use cam6_commands::{Fault, MAX_COLOUR, PlaneNumber, RowNumber, StepCount};
use cam6_cycle::Cycle;
use cam6_planes::Side;

/// Returns the plane and the row of these numbers. Returns `OutOfRange` if the plane is above 3, or
/// the row isn't below the side.
pub(crate) fn accept_row(
    side: Side,
    plane: u64,
    row: u64,
) -> Result<(PlaneNumber, RowNumber), Fault>
    ensures refusal { result_err result ≡ plane_row_refusal side plane row }
    ensures plane { IfOk result (λ at. at.0 ≡ plane) }
    ensures row { IfOk result (λ at. at.1 ≡ record { side = side; number = row }) }
{
    let plane = PlaneNumber::of(plane)?;
    let row = RowNumber::of(side, row)?;
    Ok((plane, row))
}

/// Returns the plane and the row of these numbers, for a row that is to be written. Returns
/// `OutOfRange` if the plane is above 3, the row isn't below the side, or `bits` isn't one byte for
/// each eight columns.
pub(crate) fn accept_set(
    side: Side,
    plane: u64,
    row: u64,
    bits: &[u8],
) -> Result<(PlaneNumber, RowNumber), Fault>
    ensures refusal { result_err result ≡ set_refusal side plane row bits.now }
    ensures plane { IfOk result (λ at. at.0 ≡ plane) }
    ensures row { IfOk result (λ at. at.1 ≡ record { side = side; number = row }) }
    ensures bits { IfOk result (λ _. 8 * length bits.now ≡ side_number side) }
{
    let at = accept_row(side, plane, row)?;
    if bits.len() != side.number() / 8 {
        return Err(Fault::OutOfRange);
    }
    Ok(at)
}

/// Returns the side with this number. Returns `OutOfRange` if no side has this number, and
/// `AboveLimit` if it is above the limit.
pub(crate) fn accept_side(limit: Side, number: u64) -> Result<Side, Fault>
    ensures refusal { result_err result ≡ side_refusal limit number }
    ensures side { IfOk result (λ side. side_of number ≡ Some side) }
    ensures within { IfOk result (λ side. side_number side ≤ side_number limit) }
{
    let Some(side) = Side::of(number) else {
        return Err(Fault::OutOfRange);
    };
    if side.number() > limit.number() {
        return Err(Fault::AboveLimit);
    }
    Ok(side)
}

/// Returns the cycle and the number of steps of a run. Returns `OutOfRange` if there are more than
/// 65,535 steps, and otherwise `NoCycle` if no cycle is set.
pub(crate) fn accept_run(cycle: &Option<Cycle>, n: u64) -> Result<(&Cycle, StepCount), Fault>
    // For whatever rules the numbers are of.
    ensures refusal { (rules : List Rule) →
        result_err result ≡ run_refusal (named_entries rules (entries_of cycle.now)) n }
    ensures cycle { IfOk result (λ run. entries_of cycle.now ≡ run.0.now) }
    ensures steps { IfOk result (λ run. run.1 ≡ n) }
{
    let steps = StepCount::of(n)?;
    match cycle {
        Some(cycle) => {
            // A cycle has at least one entry.
            let _entries = cycle.entries();
            Ok((cycle, steps))
        }
        None => Err(Fault::NoCycle),
    }
}

/// Returns the colours of all 16 states as a machine keeps them. Returns `OutOfRange` if one is
/// above 15.
pub(crate) fn accept_colours(colours: &[u64; 16]) -> Result<[u8; 16], Fault>
    ensures refusal { result_err result ≡ map_refusal colours.now }
    ensures colours { IfOk result (λ kept. kept ≡ colours.now) }
{
    let mut kept = [0; 16];
    for state in 0..16 {
        kept[state] = accept_colour(colours[state])?;
    }
    Ok(kept)
}

/// Returns a colour as a machine keeps it. Returns `OutOfRange` if it is above 15.
fn accept_colour(colour: u64) -> Result<u8, Fault>
    ensures refusal { result_err result ≡ unless (nat_le colour max_colour) OutOfRange }
    ensures colour { IfOk result (λ kept. kept ≡ colour) }
{
    if colour > MAX_COLOUR {
        return Err(Fault::OutOfRange);
    }
    Ok(colour as u8)
}
