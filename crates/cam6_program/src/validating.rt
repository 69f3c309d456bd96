//! Validating: a program is run on all 4,096 addresses at once, and what it makes is compared with
//! the entries. A unit has a column for each address.
ghost use Rattle.std.specs.Prelude.{◌≡◌, ◌<◌, ◌+◌, ◌*◌, ◌^◌, ◌==◌, ◌&&◌, ℕ, Bool, List, [], false};
ghost use Rattle.std.specs.Prelude.{length, slice_index_or, IsTrue};
ghost use Rattle.std.specs.Int.{bit_at};
ghost use Rattle.cam6_planes.specs.Row.{word_column, column_bit};
ghost use Rattle.cam6_wiring.specs.Lines.{at_column};
ghost use Rattle.cam6_wiring.specs.Seen.{number_of, shown};
ghost use Rattle.cam6_wiring.specs.declared.names.Level.TheVariants.{Lower, Upper};
ghost use Rattle.cam6_wiring.specs.declared.wirings.TheConstants.{LINES};
ghost use Rattle.cam6_lookup.specs.Entries.{entry_bit};
ghost use Rattle.cam6_lines.specs.Units.{asked_for};
ghost use Rattle.cam6_lines.specs.declared.units.TheConstants.{UNIT};
ghost use Rattle.cam6_program.specs.Computing.{Computes};
ghost use Rattle.cam6_program.specs.Programs.{keeps, number};
ghost use Rattle.cam6_program.specs.Running.{MakesAtAddresses};

use crate::programs::Program;
use crate::slots::Slots;
use cam6_lines::{UNIT, Unit};
use cam6_wiring::{LINES, Level};

/// Whether the program computes the lowest two bits of all 4096 entries.
pub(crate) fn agrees(program: &Program, entries: &[u8]) -> bool
    requires { length entries.now ≡ 2 ^ LINES }
    ensures { IsTrue result → Computes entries.now program.now }
{
    let (lower, upper) = made_at_addresses(program);
    has_entries(&lower, &upper, entries)
}

/// Whether `lower` has the lowest bits of all 4096 entries, and `upper` the next bits. Each address
/// has its column.
fn has_entries(lower: &Unit, upper: &Unit, entries: &[u8]) -> bool
    requires { length entries.now ≡ 2 ^ LINES }
    ensures lower { IsTrue result → (address : ℕ) → address < 2 ^ LINES →
        column_bit lower.now address ≡ entry_bit entries.now address 0 }
    ensures upper { IsTrue result → (address : ℕ) → address < 2 ^ LINES →
        column_bit upper.now address ≡ entry_bit entries.now address 1 }
{
    for word in 0..UNIT {
        let (entries_lower, entries_upper) = packed(entries, word);
        if lower[word] != entries_lower || upper[word] != entries_upper {
            return false;
        }
    }
    true
}

/// Returns the lowest bits of the 64 entries from entry 64 times `word` on, and then their next
/// bits. The first entry has column 0, the highest bit.
fn packed(entries: &[u8], word: usize) -> (u64, u64)
    requires entries { length entries.now ≡ 2 ^ LINES }
    requires word { word < UNIT }
    ensures lower { (c : ℕ) → c < 64 →
        word_column result.0 c ≡ entry_bit entries.now (64 * word + c) 0 }
    ensures upper { (c : ℕ) → c < 64 →
        word_column result.1 c ≡ entry_bit entries.now (64 * word + c) 1 }
{
    let mut lower = 0;
    let mut upper = 0;
    for c in 0..64 {
        let entry = entries[64 * word + c];
        lower = with_last(lower, entry);
        upper = with_last(upper, entry >> 1);
    }
    (lower, upper)
}

/// Returns the word moved one column to the west, with the lowest bit of an entry in its last
/// column. That is the lowest bit of the word.
fn with_last(word: u64, entry: u8) -> u64
    ensures last { word_column result 63 ≡ (bit_at entry 0 == 1) }
    ensures others { (c : ℕ) → c < 63 → word_column result c ≡ word_column word (c + 1) }
{
    word << 1 | u64::from(entry & 1)
}

/// Returns the lower and the upper bits that the program makes at each address. Each address has
/// its column.
fn made_at_addresses(program: &Program) -> (Unit, Unit)
    ensures lower { MakesAtAddresses Lower program.now result.0 }
    ensures upper { MakesAtAddresses Upper program.now result.1 }
{
    let mut lower = [0; UNIT];
    let mut upper = [0; UNIT];
    let lines = asked_lines(program.asked());
    let mut slots = Slots::blank();
    program.run(&lines.each_ref(), UNIT, &mut slots, &mut lower, &mut upper);
    (
        kept_or(program, Level::Lower, lower),
        kept_or(program, Level::Upper, upper),
    )
}

/// Returns `made`, the bits that the program made of a level at each address. If the program keeps
/// the level, returns the cells' own bits instead: line 0 for the lower level, line 1 for the
/// upper.
fn kept_or(program: &Program, level: Level, made: Unit) -> Unit
    requires { keeps level program.now ≡ false → MakesAtAddresses level program.now made }
    ensures { MakesAtAddresses level program.now result }
{
    if !program.keeps(level) {
        return made;
    }
    match level {
        Level::Lower => address_line(0),
        Level::Upper => address_line(1),
    }
}

/// Returns the lines, line 0 first, on which each column shows its own number as its address. Lines
/// that are not in the mask `asked` show 0.
fn asked_lines(asked: u16) -> [Unit; LINES]
    ensures { (bits : List Bool) → length bits ≡ LINES →
        at_column (number_of bits) result ≡ asked_for asked bits }
{
    let mut lines = [[0; UNIT]; LINES];
    for line in 0..LINES {
        lines[line] = asked_line(asked, line);
    }
    lines
}

/// Returns one line, from 0 to 11, on which each column shows this line's bit of its own number.
/// Returns zeros if the line is not in the mask `asked`. Line 0 is the lowest bit.
fn asked_line(asked: u16, line: usize) -> Unit
    requires { line < LINES }
    ensures { (address : ℕ) → address < 2 ^ LINES →
        column_bit result address ≡ (shown asked line && shown address line) }
{
    if asked >> line & 1 == 1 {
        address_line(line)
    } else {
        [0; UNIT]
    }
}

/// Returns the line, from 0 to 11, on which each column shows this line's bit of its own number.
/// Line 0 is the lowest bit.
fn address_line(line: usize) -> Unit
    requires { line < LINES }
    ensures { (address : ℕ) → address < 2 ^ LINES → column_bit result address ≡ shown address line }
{
    let mut unit = [0; UNIT];
    for k in 0..UNIT {
        unit[k] = address_word(line, k);
    }
    unit
}

/// The lowest lines, on which each word of 64 addresses shows the same.
const LOW_LINES: [u64; 6] = [
    0x5555_5555_5555_5555,
    0x3333_3333_3333_3333,
    0x0F0F_0F0F_0F0F_0F0F,
    0x00FF_00FF_00FF_00FF,
    0x0000_FFFF_0000_FFFF,
    0x0000_0000_FFFF_FFFF,
];

/// Returns word `word`, from 0 to 63, of the line on which each column shows this line's bit of its
/// own number. Line 0 is the lowest bit.
fn address_word(line: usize, word: usize) -> u64
    requires line { line < LINES }
    requires word { word < UNIT }
    ensures { (c : ℕ) → c < 64 → word_column result c ≡ shown (64 * word + c) line }
{
    if line < 6 {
        LOW_LINES[line]
    } else if word >> (line - 6) & 1 == 1 {
        u64::MAX
    } else {
        0
    }
}
