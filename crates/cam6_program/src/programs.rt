//! A program, and how it is run over the units of twelve lines.
ghost use Rattle.std.specs.Prelude.{◌≡◌, ◌<◌, ◌≤◌, ◌*◌, ◌^◌, ℕ, Bool, List, IfSome, false};
ghost use Rattle.std.specs.Prelude.{length, map, IfOk};
ghost use Rattle.cam6_planes.specs.Row.{column_bit};
ghost use Rattle.cam6_wiring.specs.Lines.{at_column};
ghost use Rattle.cam6_wiring.specs.declared.names.Level.TheVariants.{Lower, Upper};
ghost use Rattle.cam6_wiring.specs.declared.wirings.TheConstants.{LINES};
ghost use Rattle.cam6_lines.specs.Units.{asked_for};
ghost use Rattle.cam6_lines.specs.declared.units.TheConstants.{UNIT};
ghost use Rattle.cam6_program.specs.Computing.{Computes};
ghost use Rattle.cam6_program.specs.Programs.{keeps};
ghost use Rattle.cam6_program.specs.Running.{ReadsNoSlot};
ghost use Rattle.cam6_program.specs.declared.nodes.TheConstants.{PLACES};

use crate::building::{Diagram, TooLong};
use crate::counting::{counting_diagram, counts};
use crate::orders::Order;
use crate::running::{run_steps, write_source};
use crate::slots::Slots;
use crate::steps::{Operation, Source, Step};
use crate::validating::agrees;
use crate::writing::write_program;
use cam6_lines::{Lines, Unit};
use cam6_wiring::Level;
use std::marker::Model;

/// Steps of a program at most.
pub const MAX_STEPS: usize = 128;

/// Slots of a program at most.
pub const MAX_SLOTS: usize = 48;

/// Steps that make two bits of what the twelve lines show, for all cells of a unit at once.
#[derive(Drop)]
pub struct Program {
    steps: [Step; MAX_STEPS],
    count: usize,
    asked: u16,
    lower: Option<Source>,
    upper: Option<Source>,
}

impl Model for Program {
    ghost use Rattle.std.specs.Prelude.{◌≤◌, take};
    ghost use Rattle.cam6_program.specs.Limits.{max_steps};
    ghost use Rattle.cam6_program.specs.Programs.{Steps};

    ghost Value = { Steps };

    ghost view = { λ p. record {
      steps = take p.count p.steps;
      asked = p.asked;
      lower = p.lower;
      upper = p.upper;
    } };

    ghost invariant = { λ p. p.count ≤ max_steps };
}

impl Program {
    ghost use Rattle.cam6_program.specs.Meaning.{bit_by};
    ghost use Rattle.cam6_program.specs.declared.programs.TheConstants.{MAX_STEPS};
    ghost use Rattle.cam6_program.specs.declared.steps.Source.TheVariants.{Slot};
    ghost use Rattle.std.specs.Prelude.{Some, take, ◌-◌, ◌++◌, ◌∷◌, []};
    ghost use Rattle.cam6_program.specs.Computing.{Computes};

    /// Returns a program that computes the lowest two bits of all 4096 entries. Returns `None` if
    /// it finds none that is short enough. Does not allocate.
    pub fn of(entries: &[u8]) -> Option<Program>
        requires { length entries.now ≡ 2 ^ LINES }
        ensures { IfSome result (λ program. Computes entries.now program) }
    {
        let program = least_work(entries)?;
        if agrees(&program, entries) {
            Some(program)
        } else {
            None
        }
    }

    /// Returns the work of the program's steps: 5 for each choice, which reads three units, and 3
    /// for each other step, which reads two.
    fn work(&self) -> usize {
        let mut work = 0usize;
        for step in self.steps[..self.count].iter() {
            work = work.saturating_add(match step.operation {
                Operation::Choice { .. } | Operation::ChoiceNot { .. } => 5,
                _ => 3,
            });
        }
        work
    }

    /// Makes a program of the first `count` steps. Bit k of the mask `asked` is 1 if it reads line
    /// k. `lower` and `upper` are the sources of the new bits, and a level without a source is
    /// kept. Nothing checks what the program computes.
    pub(crate) fn new(
        steps: [Step; MAX_STEPS],
        count: usize,
        asked: u16,
        lower: Option<Source>,
        upper: Option<Source>,
    ) -> Program
        requires { count ≤ MAX_STEPS }
    {
        Program {
            steps,
            count,
            asked,
            lower,
            upper,
        }
    }

    /// Returns a copy of the program.
    pub fn copy(&self) -> Program
        ensures { result ≡ self.now }
    {
        Program { ..*self }
    }

    /// The mask of the lines that the program reads. Bit k, the lowest being bit 0, is 1 if it
    /// reads line k.
    pub fn asked(&self) -> u16
        ensures { result ≡ self.now.asked }
    {
        self.asked
    }

    /// Whether the program leaves every cell's bit of this level as it is.
    pub fn keeps(&self, level: Level) -> bool
        ensures { result ≡ keeps level self.now }
    {
        match level {
            Level::Lower => self.lower.is_none(),
            Level::Upper => self.upper.is_none(),
        }
    }

    /// Writes the new bits of both levels to the first `words` words, at most `UNIT`, of `lower`
    /// and `upper`. The words after may hold anything. Lines that the program doesn't ask for must
    /// show 0. A level that the program keeps is not written. The slots are scratch, and may hold
    /// anything before.
    pub fn run(
        &self,
        lines: &Lines,
        words: usize,
        slots: &mut Slots,
        lower: &mut Unit,
        upper: &mut Unit,
    )
        requires { words ≤ UNIT }
        ensures lower { keeps Lower self.now ≡ false → (c : ℕ) (bits : List Bool) → c < 64 * words →
            at_column c (map (λ line. line.now) lines.now) ≡ asked_for self.now.asked bits →
            column_bit lower.new c ≡ bit_by Lower self.now bits }
        ensures upper { keeps Upper self.now ≡ false → (c : ℕ) (bits : List Bool) → c < 64 * words →
            at_column c (map (λ line. line.now) lines.now) ≡ asked_for self.now.asked bits →
            column_bit upper.new c ≡ bit_by Upper self.now bits }
    {
        let steps = &self.steps[..self.count];
        if let Some(last) = self.last_step() {
            let steps = &steps[..steps.len() - 1];
            run_steps(lower, steps, Some(last), lines, &mut slots.units, words);
            write_source(upper, self.upper, lines, &slots.units[..0]);
        } else {
            let written = run_steps(lower, steps, None, lines, &mut slots.units, words);
            let slots = &slots.units[..written];
            write_source(lower, self.lower, lines, slots);
            write_source(upper, self.upper, lines, slots);
        }
    }

    /// Returns the last step, if the lower level is read from the slot that this step writes, and
    /// the upper level from no slot. Else returns `None`.
    fn last_step(&self) -> Option<Step>
        ensures lower { IfSome result (λ last. self.now.lower ≡ Some (Slot last.into)) }
        ensures upper { IfSome result (λ last. ReadsNoSlot self.now.upper) }
        ensures steps { IfSome result (λ last. self.now.steps ≡
            take (length self.now.steps - 1) self.now.steps ++ (last ∷ [])) }
        ensures some { IfSome result (λ last. 0 < length self.now.steps) }
    {
        if self.count == 0 || reads_slot(self.upper) {
            return None;
        }
        let last = self.steps[self.count - 1];
        if self.lower == Some(Source::Slot(last.into)) {
            Some(last)
        } else {
            None
        }
    }
}

/// Whether a level with this source is read from a slot. Returns false without a source.
fn reads_slot(source: Option<Source>) -> bool
    ensures { result ≡ false → ReadsNoSlot source }
{
    matches!(source, Some(Source::Slot(_)))
}

/// Returns the program with the least work of those that are tried for the 4096 entries, or `None`
/// if none is short enough. Nothing checks yet that it computes the entries.
fn least_work(entries: &[u8]) -> Option<Program>
    requires { length entries.now ≡ 2 ^ LINES }
{
    let plain = program_of(Diagram::of(entries, Order::Rising));
    if counts(entries) {
        return lesser(program_of(counting_diagram(entries)), plain);
    }
    // Entries without structure would take as long again.
    if plain.is_none() {
        return None;
    }
    lesser(
        program_of(Diagram::of(entries, Order::OppositeFirst)),
        plain,
    )
}

/// Returns the first program if it has less work than the second, and else the second, also if both
/// have the same. `None` has the most work.
fn lesser(first: Option<Program>, second: Option<Program>) -> Option<Program> {
    if work_or_most(&first) < work_or_most(&second) {
        first
    } else {
        second
    }
}

/// Returns the program of a diagram. Returns `None` for `TooLong`, or if the program needs too many
/// slots.
fn program_of(diagram: Result<Diagram, TooLong>) -> Option<Program>
    requires { IfOk diagram (λ diagram. diagram.count ≤ PLACES) }
{
    write_program(&diagram.ok()?)
}

/// Returns the work of a program, or the largest number for `None`.
fn work_or_most(program: &Option<Program>) -> usize {
    match program {
        Some(program) => program.work(),
        None => usize::MAX,
    }
}
