//! The new rows of a half for a whole band: by the table's program, if it has one, and else by
//! look-ups.
ghost use Rattle.std.specs.Prelude.{◌≡◌, ◌<◌, ◌≤◌, ◌+◌, ◌*◌, ℕ, true, if◌then◌else◌};
ghost use Rattle.std.specs.Prelude.{IfSome, length};
ghost use Rattle.cam6_planes.specs.Cells.{Cells};
ghost use Rattle.cam6_planes.specs.Row.{column_bit};
ghost use Rattle.cam6_planes.specs.Side.{side_number};
ghost use Rattle.cam6_wiring.specs.Name.{plane_of};
ghost use Rattle.cam6_wiring.specs.declared.names.Level.TheVariants.{Lower, Upper};
ghost use Rattle.cam6_lines.specs.Bands.{IsBandOf, IsWithin, side_of};
ghost use Rattle.cam6_lines.specs.Limits.{height};
ghost use Rattle.cam6_lines.specs.Units.{bit_in};
ghost use Rattle.cam6_program.specs.Meaning.{bit_by};
ghost use Rattle.cam6_entries.specs.Bands.{ShowNewBits, MakesRows, seen_by, all_lines, asked_by};
ghost use Rattle.cam6_entries.specs.Limits.{addresses};
ghost use Rattle.cam6_entries.specs.Programs.{ComputesUnder};

use crate::scratch::TableScratch;
use crate::tables::Table;
use cam6_lines::{Band, HEIGHT, Plan, UNIT, Unit, UnitLines, units_of_band, words_of_row};
use cam6_lookup::look_up_words;
use cam6_planes::{Row, Side};
use cam6_program::Program;
use cam6_wiring::{Hood, Level, Minor, Setting};

/// A plane's rows of a band, unit by unit. At sides 128 and 256 the first unit has them all.
pub type BandRows = [Unit; 2];

/// Which planes of a half are written. In the others every cell keeps its bit.
#[derive(Clone, Copy, Debug, PartialEq, Eq)]
pub struct Written {
    pub lower: bool,
    pub upper: bool,
}

/// The mask of all twelve lines.
const ALL_LINES: u16 = 4095;

/// Returns the mask of the lines that new rows are made of: those for which the program asks, or
/// all twelve lines without a program. Line 0 is the lowest bit.
pub(crate) fn asked_by(program: &Option<Program>) -> u16
    ensures { result ≡ asked_by program.now }
{
    match program {
        Some(program) => program.asked(),
        None => ALL_LINES,
    }
}

impl Table {
    /// Writes the new rows of both planes of a half, for the sixteen rows of a band, which has to
    /// lie in its planes. Each cell gets its bit of the entry at its address. Returns which planes
    /// are written: a plane in which every cell keeps its bit may stay unwritten. Words past the
    /// side may hold anything. So may the scratch before.
    pub fn band(
        &self,
        scratch: &mut TableScratch,
        lower: &mut BandRows,
        upper: &mut BandRows,
        setting: &Setting,
        hood: Hood,
        minor: Minor,
        band: &Band,
    ) -> Written
        requires { IsWithin band.now }
        ensures lower { (f : Cells) → IsBandOf f band.now →
            ShowNewBits self.now f band.now setting.now hood minor Lower result.lower lower.new }
        ensures upper { (f : Cells) → IsBandOf f band.now →
            ShowNewBits self.now f band.now setting.now hood minor Upper result.upper upper.new }
    {
        let asked = asked_by(&self.program);
        if let Some(plan) = &self.plan
            && plan.is_for(asked, hood, minor)
        {
            return write_by_plan(
                scratch,
                &self.entries,
                &self.program,
                plan,
                lower,
                upper,
                setting,
                band,
            );
        }
        let plan = Plan::of(ALL_LINES, hood, minor);
        write_by_plan(
            scratch,
            &self.entries,
            &None,
            &plan,
            lower,
            upper,
            setting,
            band,
        )
    }
}

/// Writes the new rows of both planes under a plan's wiring: by the program, or by look-ups without
/// a program. Returns which planes are written. The plan has to be for the lines of
/// `asked_by(program)`, and the program has to compute the 4096 entries under its wiring.
fn write_by_plan(
    scratch: &mut TableScratch,
    entries: &[u8],
    program: &Option<Program>,
    plan: &Plan,
    lower: &mut BandRows,
    upper: &mut BandRows,
    setting: &Setting,
    band: &Band,
) -> Written
    requires within { IsWithin band.now }
    requires entries { length entries.now ≡ addresses }
    requires program { IfSome program.now (λ program.
        ComputesUnder plan.now.hood plan.now.minor entries.now program) }
    requires plan { plan.now.lines ≡ asked_by program.now }
    ensures lower { (f : Cells) → IsBandOf f band.now →
        ShowNewBits entries.now f band.now setting.now plan.now.hood plan.now.minor
        Lower result.lower lower.new }
    ensures upper { (f : Cells) → IsBandOf f band.now →
        ShowNewBits entries.now f band.now setting.now plan.now.hood plan.now.minor
        Upper result.upper upper.new }
{
    match program {
        Some(program) => write_by_program(scratch, program, plan, lower, upper, setting, band),
        None => {
            write_by_look_ups(
                &mut scratch.lines,
                entries,
                plan,
                lower,
                upper,
                setting,
                band,
            );
            Written {
                lower: true,
                upper: true,
            }
        }
    }
}

/// Writes the new rows of both planes unit by unit, by look-ups in the 4096 entries. The plan has
/// to be for all twelve lines. It is not inlined: its own room on the stack is emptied when it is
/// entered, and a program does not need it.
#[inline(never)]
fn write_by_look_ups(
    scratch: &mut UnitLines,
    entries: &[u8],
    plan: &Plan,
    lower: &mut BandRows,
    upper: &mut BandRows,
    setting: &Setting,
    band: &Band,
)
    requires within { IsWithin band.now }
    requires entries { length entries.now ≡ addresses }
    requires plan { plan.now.lines ≡ all_lines }
    ensures lower { (f : Cells) → IsBandOf f band.now →
        ShowNewBits entries.now f band.now setting.now plan.now.hood plan.now.minor
        Lower true lower.new }
    ensures upper { (f : Cells) → IsBandOf f band.now →
        ShowNewBits entries.now f band.now setting.now plan.now.hood plan.now.minor
        Upper true upper.new }
{
    let side = band.planes.side();
    let words = HEIGHT * words_of_row(side);
    for unit in 0..units_of_band(side) {
        scratch.put(plan, setting, band, unit);
        let lines = scratch.lines();
        look_up_words::<UNIT>(&mut lower[unit], &mut upper[unit], &lines, words, entries);
    }
}

/// Writes the new rows by a program. Returns which planes are written. A plane in which the program
/// keeps every bit is not written. The plan has to be for the lines for which the program asks.
fn write_by_program(
    scratch: &mut TableScratch,
    program: &Program,
    plan: &Plan,
    lower: &mut BandRows,
    upper: &mut BandRows,
    setting: &Setting,
    band: &Band,
) -> Written
    requires within { IsWithin band.now }
    requires plan { plan.now.lines ≡ program.now.asked }
    ensures lower { (f : Cells) → IsBandOf f band.now → (r x : ℕ) →
        r < height → x < side_of band.now →
        (if result.lower then bit_in band.now.planes.now.side lower.new r x
        else f (plane_of setting.now.half Lower) x (band.now.first + r))
        ≡ bit_by Lower program.now (seen_by plan.now setting.now f band.now r x) }
    ensures upper { (f : Cells) → IsBandOf f band.now → (r x : ℕ) →
        r < height → x < side_of band.now →
        (if result.upper then bit_in band.now.planes.now.side upper.new r x
        else f (plane_of setting.now.half Upper) x (band.now.first + r))
        ≡ bit_by Upper program.now (seen_by plan.now setting.now f band.now r x) }
{
    write_by_units(scratch, program, plan, lower, upper, setting, band);
    Written {
        lower: !program.keeps(Level::Lower),
        upper: !program.keeps(Level::Upper),
    }
}

/// Writes the new rows by a program, one unit after the other. A plane in which the program keeps
/// every bit is not written. The plan has to be for the lines for which the program asks.
fn write_by_units(
    scratch: &mut TableScratch,
    program: &Program,
    plan: &Plan,
    lower: &mut BandRows,
    upper: &mut BandRows,
    setting: &Setting,
    band: &Band,
)
    requires within { IsWithin band.now }
    requires plan { plan.now.lines ≡ program.now.asked }
    ensures lower { (f : Cells) → IsBandOf f band.now →
        MakesRows program.now plan.now setting.now f band.now Lower lower.new }
    ensures upper { (f : Cells) → IsBandOf f band.now →
        MakesRows program.now plan.now setting.now f band.now Upper upper.new }
{
    let side = band.planes.side();
    let words = HEIGHT * words_of_row(side);
    for unit in 0..units_of_band(side) {
        scratch.lines.put(plan, setting, band, unit);
        let lines = scratch.lines.lines();
        program.run(
            &lines,
            words,
            &mut scratch.slots,
            &mut lower[unit],
            &mut upper[unit],
        );
    }
}

/// Returns row `r` of a band, from 0 to 15, whose rows lie unit by unit. Words past the side may
/// hold anything.
#[inline(always)]
pub fn row_of(units: &BandRows, side: Side, r: usize) -> Row
    requires { r < height }
    ensures { (x : ℕ) → x < side_number side →
        column_bit result x ≡ bit_in side units.now r x }
{
    let at = words_of_row(side) * r;
    let first = &units[0];
    match side {
        Side::S128 => [first[at], first[at + 1], 0, 0, 0, 0, 0, 0],
        Side::S256 => [
            first[at],
            first[at + 1],
            first[at + 2],
            first[at + 3],
            0,
            0,
            0,
            0,
        ],
        Side::S512 => {
            let second = &units[1];
            [
                first[at],
                first[at + 1],
                first[at + 2],
                first[at + 3],
                second[at],
                second[at + 1],
                second[at + 2],
                second[at + 3],
            ]
        }
    }
}
