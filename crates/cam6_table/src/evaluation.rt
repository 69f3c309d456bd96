//! Runs flat code at an address.
ghost use Rattle.std.specs.Prelude.{◌≡◌, ◌+◌, ◌<◌, ◌≤◌, None, IfOk, length};
ghost use Rattle.cam6_planes.specs.Row.{bit_number};
ghost use Rattle.cam6_wiring.specs.Seen.{shown};
ghost use Rattle.cam6_table.specs.declared.evaluation.TheConstants.{MAX_EVAL_STEPS};
ghost use Rattle.cam6_table.specs.Words.{IsOutcome};
ghost use Rattle.cam6_table.specs.Limits.{max_eval_steps};
ghost use Rattle.cam6_table.specs.Codes.{act, exec, steps_of, result_at, steps_at, at_head};
ghost use Rattle.cam6_table.specs.Codes.{last_of, Acts};

use crate::codes::{Code, Instruction, Instructions};
use crate::faults::RuleFault;
use crate::outputs::{State, entry_of, untouched, write_output};

/// Steps that a rule can take, one for each instruction.
pub const MAX_EVAL_STEPS: u32 = 4096;

/// Returns the entry of the rule's table at an address, or the fault at which the rule stops there.
/// Bit 0 is the new lower plane, bit 1 the new upper plane. `steps` is at least `MAX_EVAL_STEPS`, and
/// falls by one with each instruction that is done.
pub fn eval(code: &Code, address: u16, steps: &mut u32) -> Result<u8, RuleFault>
    requires steps { max_eval_steps ≤ steps.old }
    ensures value { result ≡ result_at code.now address }
    ensures within { IfOk result (λ entry. entry < 4) }
    ensures steps { steps.old ≡ steps.new + steps_at code.now address }
    ensures limit { steps.old ≤ steps.new + max_eval_steps }
    ensures constant { MAX_EVAL_STEPS ≡ max_eval_steps }
{
    let mut state = untouched();
    let code = code.instructions();
    run(code, start(code), address, &mut state, steps)?;
    Ok(entry_of(&state, address))
}

/// A place in code: how many instructions are left, and which word of a case is looked for, if any.
#[derive(Clone, Copy, Debug, PartialEq, Eq)]
pub struct Place {
    pub remaining: usize,
    pub word: Option<usize>,
}

/// Returns the place where code starts: all instructions are left, and no word of a case is looked
/// for.
pub fn start(code: &Instructions) -> Place
    ensures { result ≡ record { remaining = length code.now; word = None } }
{
    Place {
        remaining: code.len(),
        word: None,
    }
}

/// Runs the code from a place to its end, and changes the state. Returns the fault if it stops
/// before its end. `steps` falls by one with each instruction that is done. `from.remaining` must
/// be at most the number of instructions, and at most `steps`.
pub fn run(
    code: &Instructions,
    from: Place,
    address: u16,
    state: &mut State,
    steps: &mut u32,
) -> Result<(), RuleFault>
    requires place { from.remaining ≤ length code.now }
    requires steps { from.remaining ≤ steps.old }
    ensures done { IsOutcome
        (exec (shown address) (last_of from.remaining code.now) 0 from.word state.old)
        state.new result }
    ensures steps { steps.old ≡ steps.new
        + steps_of (shown address) (last_of from.remaining code.now) 0 from.word state.old }
    ensures limit { steps.old ≤ steps.new + from.remaining }
{
    let mut remaining = from.remaining;
    let mut word = from.word;
    while remaining > 0 {
        remaining -= 1;
        *steps -= 1;
        let next = act(word, code.before(remaining), address, state)?;
        remaining = remaining.saturating_sub(next.passed);
        word = next.word;
    }
    Ok(())
}

/// How the code goes on: how many instructions it passes, and which word of a case it looks for.
#[derive(Clone, Copy, Debug, PartialEq, Eq)]
pub struct Next {
    pub passed: usize,
    pub word: Option<usize>,
}

/// Does one instruction on the state. Returns how the code goes on, or the fault at which it stops.
/// `word` is how many words of a case come before the one that is looked for. It is `None` if none
/// is looked for, and matters only at a `CaseWord`.
#[inline(always)]
fn act(
    word: Option<usize>,
    instruction: Instruction,
    address: u16,
    state: &mut State,
) -> Result<Next, RuleFault>
    ensures { Acts (act (shown address) word instruction state.old) state.new result }
{
    match instruction {
        Instruction::Literal(value) => state.stack.push(value)?,
        Instruction::Line(line) => state.stack.push(bit_of(address, line))?,
        Instruction::Stack(word) => state.stack.apply(word)?,
        Instruction::Output(target) => write_output(state, target)?,
        Instruction::SkipIfZero(distance) => {
            if state.stack.pop()? == 0 {
                return Ok(go(distance, None));
            }
        }
        Instruction::Skip(distance) => return Ok(go(distance, None)),
        Instruction::Case(count) => {
            let index = usize::from(state.stack.pop()?);
            if index >= count {
                return Err(RuleFault::CaseIndex);
            }
            return Ok(go(0, Some(index)));
        }
        Instruction::CaseWord { length, after } => return Ok(at_head(word, length, after)),
    }
    Ok(go(0, None))
}

/// Returns a `Next`: the code passes `passed` instructions, and then looks for word number `word`
/// of a case, counted from 0 and from there. With `None` it looks for none.
pub fn go(passed: usize, word: Option<usize>) -> Next
    ensures { result ≡ record { passed = passed; word = word } }
{
    Next { passed, word }
}

/// Returns how code goes on at the head of a case's word. `word` is how many words come before the
/// one that is looked for. If it is 0, the code goes on in this word. If more, it passes the word's
/// `length` instructions. If `None`, it passes all `after` to the end of the case.
pub fn at_head(word: Option<usize>, length: usize, after: usize) -> Next
    ensures { result ≡ at_head word length after }
{
    match word {
        None => go(after, None),
        Some(0) => go(0, None),
        Some(index) => go(length, Some(index - 1)),
    }
}

/// Returns the bit that an address has on a line, 0 or 1. It is 0 for a line above 15.
pub fn bit_of(address: u16, line: u8) -> u16
    ensures { result ≡ bit_number (shown address line) }
{
    if line < 16 { address >> line & 1 } else { 0 }
}
