//! Which lines differ between the addresses that are run at once. No result depends on it.
//!
//! Lanes part where code decides by a line that differs between them. So the lines that differ are
//! those that code reads least.

use crate::codes::{Code, Instruction};

/// Lines that differ between 64 addresses.
const LINES_OF_LANES: usize = 6;

/// The lines that an instruction can name.
const NAMED_LINES: usize = 16;

/// Returns a mask of those six lines of `mask` that the code reads least, or of all its lines if
/// there are fewer.
pub fn least_read_lines(code: &Code, mask: u16) -> u16 {
    let reads = reads_of_lines(code);
    let mut chosen = 0;
    for _ in 0..LINES_OF_LANES {
        chosen |= least_read_of(&reads, mask & !chosen);
    }
    chosen
}

/// Returns for each line, from 0 to 15, how many instructions of the code read it.
fn reads_of_lines(code: &Code) -> [u16; NAMED_LINES] {
    let instructions = code.instructions();
    let mut reads = [0u16; NAMED_LINES];
    for remaining in 0..instructions.len() {
        if let Instruction::Line(line) = instructions.before(remaining)
            && line < 16
        {
            let number = usize::from(line);
            reads[number] = reads[number].saturating_add(1);
        }
    }
    reads
}

/// Returns the bit of that line of `mask` that is read least, the lowest of several, or 0 if `mask`
/// has no line. `reads` has how often each line is read.
fn least_read_of(reads: &[u16; NAMED_LINES], mask: u16) -> u16 {
    let mut least = 0;
    let mut fewest = u16::MAX;
    for line in 0..NAMED_LINES {
        let bit = 1u16 << line;
        if mask & bit != 0 && reads[line] < fewest {
            fewest = reads[line];
            least = bit;
        }
    }
    least
}
