//! The state of a rule that runs: its stack, and the last write to each plane.
ghost use Rattle.std.specs.Prelude.{◌≡◌, ◌<◌, ◌/◌, ℕ, Bool, None};
ghost use Rattle.cam6_table.specs.Words.{IsOutcome};
ghost use Rattle.cam6_entries.specs.NewBits.{is_odd};
ghost use Rattle.cam6_table.specs.Outputs.{untouched, written, entry_of};

use crate::faults::RuleFault;
use crate::stacks::Stack;
use cam6_forth::Target;

/// A stack, and for each plane of the half the last bit written to it.
#[derive(Drop)]
pub struct State {
    pub stack: Stack,
    pub lower: Option<bool>,
    pub upper: Option<bool>,
}

/// Returns the state in which a rule begins: an empty stack, and no plane written.
pub fn untouched() -> State
    ensures { result ≡ untouched }
{
    State {
        stack: Stack::new(),
        lower: None,
        upper: None,
    }
}

/// Does an output word: takes the top value off, and notes its lowest bit as written to the target
/// plane. For `Both`, bit 0 goes to the lower plane and bit 1 to the upper. Returns `MissingValue`
/// if the stack is empty. After a fault nothing is promised of the stack.
pub fn write_output(state: &mut State, target: Target) -> Result<(), RuleFault>
    ensures { IsOutcome (written target state.old) state.new result }
{
    let value = state.stack.pop()?;
    let low = value % 2 == 1;
    let high = value / 2 % 2 == 1;
    match target {
        Target::Lower => state.lower = Some(low),
        Target::Upper => state.upper = Some(low),
        Target::Both => {
            state.lower = Some(low);
            state.upper = Some(high);
        }
    }
    Ok(())
}

/// Returns the table's entry at an address, from the state at the end of the code. Bit 0 is the new
/// lower plane, bit 1 the new upper plane. A plane that isn't written keeps its centre. The centre
/// is on line 0 or 1 of every neighbourhood.
pub fn entry_of(state: &State, address: u16) -> u8
    ensures entry { result ≡ entry_of (is_odd address) (is_odd (address / 2)) state.now }
    ensures within { result < 4 }
{
    let lower = state.lower.unwrap_or(address % 2 == 1);
    let upper = state.upper.unwrap_or(address / 2 % 2 == 1);
    u8::from(lower) + 2 * u8::from(upper)
}
