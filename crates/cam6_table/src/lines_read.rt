//! The lines of an address that code reads.
ghost use Rattle.std.specs.Prelude.{◌≡◌, ℕ};
ghost use Rattle.std.specs.Int.{bit_at};
ghost use Rattle.cam6_table.specs.Internal.LinesRead.{HasLineOf, IsMaskFor};

use crate::codes::{Code, Instruction};

/// Returns a mask with the bit of each line that the code reads, and of lines 0 and 1, which show
/// the centre. Bit k is for line k. A plane that isn't written keeps its centre.
pub fn lines_read(code: &Code) -> u16
    ensures { IsMaskFor result code.now }
{
    let instructions = code.instructions();
    let mut mask = CENTRE;
    for remaining in 0..instructions.len() {
        mask = with_line_of(mask, instructions.before(remaining));
    }
    mask
}

/// The bits of the lines that show the centre.
const CENTRE: u16 = 3;

/// Returns `mask` with the bit of the line that an instruction reads, or `mask` as it is if it
/// reads none of the sixteen.
fn with_line_of(mask: u16, instruction: Instruction) -> u16
    ensures line { HasLineOf result instruction }
    ensures others { (line : ℕ) → bit_at mask line ≡ 1 → bit_at result line ≡ 1 }
{
    match instruction {
        Instruction::Line(line) if line < 16 => mask | 1 << line,
        _ => mask,
    }
}
