//! Steps, one after the other, at all columns of units at once.
ghost use Rattle.std.specs.Prelude.{◌≡◌, ◌<◌, ◌≤◌, ◌*◌, ℕ, false, length, map, IfSome};
ghost use Rattle.std.specs.Prelude.{[], slice_index_or, take};
ghost use Rattle.cam6_planes.specs.Row.{column_bit};
ghost use Rattle.cam6_wiring.specs.Lines.{at_column};
ghost use Rattle.cam6_lines.specs.declared.units.TheConstants.{UNIT};
ghost use Rattle.cam6_program.specs.Meaning.{read, made, put_into, after_step, after_steps};
ghost use Rattle.cam6_program.specs.Running.{lines_at, slots_at, with_first, written_after};
ghost use Rattle.cam6_program.specs.Running.{beside};
ghost use Rattle.cam6_program.specs.declared.programs.TheConstants.{MAX_SLOTS};
ghost use Rattle.cam6_program.specs.declared.running.TheConstants.{HALF_UNIT};

use crate::operations::{
    put_and, put_and_not, put_choice, put_choice_not, put_or, put_or_not, put_xor,
};
use crate::programs::MAX_SLOTS;
use crate::steps::{Operation, Source, Step};
use cam6_lines::{Lines, UNIT, Unit};
use cam6_wiring::LINES;

/// What a step can read: the lines, and the slots before and after the one that it writes.
#[derive(Clone, Copy)]
pub(crate) struct Readable<'a> {
    pub(crate) lines: &'a Lines<'a>,
    pub(crate) before: &'a [Unit],
    pub(crate) later: &'a [Unit],
}

/// Words of a band at the narrowest side.
const HALF_UNIT: usize = 32;

static ZEROS: Unit = [0; UNIT];

static ONES: Unit = [u64::MAX; UNIT];

/// Lends a unit that has this bit in all its columns.
pub(crate) fn constant(bit: bool) -> &'static Unit
    ensures { (c : ℕ) → c < 64 * UNIT → column_bit result.now c ≡ bit }
{
    if bit { &ONES } else { &ZEROS }
}

impl<'a> Readable<'a> {
    /// Lends the unit that a source reads: a constant, a line or a slot.
    fn read(&self, source: Source) -> &'a Unit
        ensures { (c : ℕ) → c < 64 * UNIT →
            column_bit result.now c ≡ read (lines_at c self.now) (slots_at c self.now) source }
    {
        match source {
            Source::Constant(bit) => constant(bit),
            Source::Line(line) => shown(self.lines, usize::from(line)),
            Source::Slot(slot) => self.slot(usize::from(slot)),
        }
    }

    /// Lends the unit of this slot, numbered from 0. It is all zeros if no step has written the
    /// slot, or if the slot is being written.
    fn slot(&self, slot: usize) -> &'a Unit
        ensures { (c : ℕ) → c < 64 * UNIT →
            column_bit result.now c ≡ slice_index_or (slots_at c self.now) slot false }
    {
        let written = self.before.len();
        if slot < written {
            &self.before[slot]
        } else if slot > written && slot - written - 1 < self.later.len() {
            &self.later[slot - written - 1]
        } else {
            constant(false)
        }
    }
}

/// Lends the unit of this line, numbered from 0, or a unit of zeros past the last line.
fn shown<'a>(lines: &Lines<'a>, line: usize) -> &'a Unit
    ensures { (c : ℕ) → c < 64 * UNIT → column_bit result.now c ≡
        slice_index_or (at_column c (map (λ line. line.now) lines.now)) line false }
{
    if line < LINES {
        lines[line]
    } else {
        constant(false)
    }
}

/// Writes the result of an operation on what `from` has to the first `words` words of `out`.
#[inline(always)]
fn put_result(out: &mut Unit, operation: Operation, from: &Readable, words: usize)
    requires { words ≤ UNIT }
    ensures { (c : ℕ) → c < 64 * words →
        column_bit out.new c ≡ made (lines_at c from.now) (slots_at c from.now) operation }
{
    match operation {
        Operation::Choice { by, low, high } => {
            put_choice(out, from.read(by), from.read(low), from.read(high), words)
        }
        Operation::ChoiceNot { by, low, high } => {
            put_choice_not(out, from.read(by), from.read(low), from.read(high), words)
        }
        Operation::And(first, second) => put_and(out, from.read(first), from.read(second), words),
        Operation::AndNot(first, second) => {
            put_and_not(out, from.read(first), from.read(second), words)
        }
        Operation::Or(first, second) => put_or(out, from.read(first), from.read(second), words),
        Operation::OrNot(first, second) => {
            put_or_not(out, from.read(first), from.read(second), words)
        }
        Operation::Xor(first, second) => put_xor(out, from.read(first), from.read(second), words),
    }
}

/// Returns how many slots are written after a step into slot `into`, if `written` are before it. It
/// is one more if the slot is the next one, numbered `written`, and it is below `MAX_SLOTS`.
#[inline(always)]
fn written_after(written: usize, into: usize) -> usize
    requires { written ≤ MAX_SLOTS }
    ensures value { result ≡ written_after written into }
    ensures within { result ≤ MAX_SLOTS }
{
    if into == written && into < MAX_SLOTS {
        written + 1
    } else {
        written
    }
}

/// Runs a step over the first `words` machine words of each unit. The first `written` slots hold
/// what earlier steps made. Returns how many do after this step. A slot past these and the next one
/// is not written.
#[inline(always)]
fn run_step(
    step: Step,
    lines: &Lines,
    slots: &mut [Unit; MAX_SLOTS],
    written: usize,
    words: usize,
) -> usize
    requires words { words ≤ UNIT }
    requires written { written ≤ MAX_SLOTS }
    ensures within { result ≤ MAX_SLOTS }
    ensures count { length slots.new ≡ length slots.old }
    ensures step { (c : ℕ) → c < 64 * words → at_column c (take result slots.new) ≡ after_step
        (at_column c (map (λ line. line.now) lines.now)) step
        (at_column c (take written slots.old)) }
{
    let written = written_after(written, usize::from(step.into));
    write_slot(step, lines, &mut slots[..written], words);
    written
}

/// Writes what a step makes to its slot, in the first `words` machine words, whatever the slot
/// holds. If the slot isn't among `slots`, writes nothing.
#[inline(always)]
fn write_slot(step: Step, lines: &Lines, slots: &mut [Unit], words: usize)
    requires { words ≤ UNIT }
    ensures count { length slots.new ≡ length slots.old }
    ensures step { (c : ℕ) → c < 64 * words → at_column c slots.new ≡
        put_into (at_column c (map (λ line. line.now) lines.now)) step (at_column c slots.old) }
{
    let into = usize::from(step.into);
    if into < slots.len() {
        let (before, slots) = slots.split_at_mut(into);
        write_first(slots, before, lines, step.operation, words);
    }
}

/// Writes the result of an operation to the first of `slots`, of which there has to be one. The
/// operation can read the slots `before`, and those after the first. Slots are numbered from the
/// first of `before` on.
#[inline(always)]
fn write_first(
    slots: &mut [Unit],
    before: &[Unit],
    lines: &Lines,
    operation: Operation,
    words: usize,
)
    requires words { words ≤ UNIT }
    requires some { 0 < length slots.old }
    ensures count { length slots.new ≡ length slots.old }
    ensures first { (c : ℕ) → c < 64 * words → at_column c slots.new ≡ with_first
        (at_column c (map (λ line. line.now) lines.now)) (at_column c before.now) operation
        (at_column c slots.old) }
{
    if let Some((out, later)) = slots.split_first_mut() {
        let from = Readable {
            lines: &*lines,
            before,
            later,
        };
        put_result(out, operation, &from, words);
    }
}

/// Runs all steps in order over the first `words` machine words of each unit, and returns how many
/// slots they wrote. The slots may hold anything before. Then writes to `out` what `last` would
/// make of its slot, if there is one. For whole units and for halves the compiler knows `words`,
/// which makes the loops over them a third shorter.
pub(crate) fn run_steps(
    out: &mut Unit,
    steps: &[Step],
    last: Option<Step>,
    lines: &Lines,
    slots: &mut [Unit; MAX_SLOTS],
    words: usize,
) -> usize
    requires { words ≤ UNIT }
    ensures within { result ≤ MAX_SLOTS }
    ensures slots { (c : ℕ) → c < 64 * words → at_column c (take result slots.new) ≡ after_steps
        (at_column c (map (λ line. line.now) lines.now)) steps.now [] }
    ensures last { IfSome last (λ last. (c : ℕ) → c < 64 * words → column_bit out.new c ≡
        beside (at_column c (map (λ line. line.now) lines.now)) steps.now last) }
{
    if words == UNIT {
        run_steps_of_units(out, steps, last, lines, slots)
    } else if words == HALF_UNIT {
        run_steps_of_halves(out, steps, last, lines, slots)
    } else {
        run_steps_of_parts(out, steps, last, lines, slots, words)
    }
}

/// Runs all steps in order over whole units. Then writes to `out` what `last` would make of its
/// slot, if there is one. Returns how many slots the steps wrote.
#[inline(never)]
fn run_steps_of_units(
    out: &mut Unit,
    steps: &[Step],
    last: Option<Step>,
    lines: &Lines,
    slots: &mut [Unit; MAX_SLOTS],
) -> usize
    ensures within { result ≤ MAX_SLOTS }
    ensures slots { (c : ℕ) → c < 64 * UNIT → at_column c (take result slots.new) ≡ after_steps
        (at_column c (map (λ line. line.now) lines.now)) steps.now [] }
    ensures last { IfSome last (λ last. (c : ℕ) → c < 64 * UNIT → column_bit out.new c ≡
        beside (at_column c (map (λ line. line.now) lines.now)) steps.now last) }
{
    run_all_steps(out, steps, last, lines, slots, UNIT)
}

/// Runs all steps in order over the first halves of units. Then writes to `out` what `last` would
/// make of its slot, if there is one. Returns how many slots the steps wrote.
#[inline(never)]
fn run_steps_of_halves(
    out: &mut Unit,
    steps: &[Step],
    last: Option<Step>,
    lines: &Lines,
    slots: &mut [Unit; MAX_SLOTS],
) -> usize
    ensures within { result ≤ MAX_SLOTS }
    ensures slots { (c : ℕ) → c < 64 * HALF_UNIT → at_column c (take result slots.new) ≡ after_steps
        (at_column c (map (λ line. line.now) lines.now)) steps.now [] }
    ensures last { IfSome last (λ last. (c : ℕ) → c < 64 * HALF_UNIT → column_bit out.new c ≡
        beside (at_column c (map (λ line. line.now) lines.now)) steps.now last) }
{
    run_all_steps(out, steps, last, lines, slots, HALF_UNIT)
}

/// Runs all steps in order over the first `words` machine words of each unit. Then writes to `out`
/// what `last` would make of its slot, if there is one. Returns how many slots the steps wrote.
#[inline(never)]
fn run_steps_of_parts(
    out: &mut Unit,
    steps: &[Step],
    last: Option<Step>,
    lines: &Lines,
    slots: &mut [Unit; MAX_SLOTS],
    words: usize,
) -> usize
    requires { words ≤ UNIT }
    ensures within { result ≤ MAX_SLOTS }
    ensures slots { (c : ℕ) → c < 64 * words → at_column c (take result slots.new) ≡ after_steps
        (at_column c (map (λ line. line.now) lines.now)) steps.now [] }
    ensures last { IfSome last (λ last. (c : ℕ) → c < 64 * words → column_bit out.new c ≡
        beside (at_column c (map (λ line. line.now) lines.now)) steps.now last) }
{
    run_all_steps(out, steps, last, lines, slots, words)
}

/// Runs all steps in order over the first `words` machine words of each unit. Then writes to `out`
/// what `last` would make of its slot, if there is one. Returns how many slots the steps wrote. It
/// is inlined into the three functions above, for their number of words.
#[inline(always)]
fn run_all_steps(
    out: &mut Unit,
    steps: &[Step],
    last: Option<Step>,
    lines: &Lines,
    slots: &mut [Unit; MAX_SLOTS],
    words: usize,
) -> usize
    requires { words ≤ UNIT }
    ensures within { result ≤ MAX_SLOTS }
    ensures slots { (c : ℕ) → c < 64 * words → at_column c (take result slots.new) ≡ after_steps
        (at_column c (map (λ line. line.now) lines.now)) steps.now [] }
    ensures last { IfSome last (λ last. (c : ℕ) → c < 64 * words → column_bit out.new c ≡
        beside (at_column c (map (λ line. line.now) lines.now)) steps.now last) }
{
    let mut written = 0;
    for k in 0..steps.len() {
        written = run_step(steps[k], lines, slots, written, words);
    }
    if let Some(last) = last {
        put_step_result(out, last, lines, slots, written, words);
    }
    written
}

/// Writes to `out` what a step would make of its slot, and changes no slot. The first `written`
/// slots hold what earlier steps made. Writes 0 if the step's slot is neither one of these nor the
/// next.
#[inline(always)]
fn put_step_result(
    out: &mut Unit,
    step: Step,
    lines: &Lines,
    slots: &[Unit; MAX_SLOTS],
    written: usize,
    words: usize,
)
    requires words { words ≤ UNIT }
    requires written { written ≤ MAX_SLOTS }
    ensures { (c : ℕ) → c < 64 * words → column_bit out.new c ≡ slice_index_or (after_step
        (at_column c (map (λ line. line.now) lines.now)) step
        (at_column c (take written slots.now))) step.into false }
{
    let into = usize::from(step.into);
    let written = written_after(written, into);
    if into < written {
        let slots = &slots[..written];
        let from = Readable {
            lines,
            before: &slots[..into],
            later: &slots[into + 1..],
        };
        put_result(out, step.operation, &from, words);
    } else {
        *out = *constant(false);
    }
}

/// Copies the whole unit that a source reads to `out`. `slots` are those that it may read, and
/// others read as 0. Without a source, `out` stays as it was.
pub(crate) fn write_source(out: &mut Unit, source: Option<Source>, lines: &Lines, slots: &[Unit])
    ensures { IfSome source (λ source. (c : ℕ) → c < 64 * UNIT → column_bit out.new c ≡
        read (at_column c (map (λ line. line.now) lines.now)) (at_column c slots.now) source) }
{
    if let Some(source) = source {
        let from = Readable {
            lines,
            before: slots,
            later: &slots[..0],
        };
        *out = *from.read(source);
    }
}
