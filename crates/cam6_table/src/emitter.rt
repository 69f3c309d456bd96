//! Turns a rule into flat code, with the definitions that it uses written out.
ghost use Rattle.std.specs.Prelude.{◌≡◌, ◌≤◌, [], ◌++◌, length, IfOk, OnOk};
ghost use Rattle.cam6_table.specs.Limits.{max_eval_steps};
ghost use Rattle.cam6_table.specs.Codes.{IsCodeOf};
ghost use Rattle.cam6_table.specs.Internal.Emitting.{words_code, all_codes, nothing};
ghost use Rattle.cam6_table.specs.Internal.Emitting.{HaveTheirs, AllHaveTheirs};

use crate::codes::{Code, Instruction, Instructions};
use cam6_forth::{Definition, Rule, SingleWord, Word};
use cam6_planes::NoMemory;
use cam6_wiring::{Wiring, line_of};
use std::alloc::Global;
use std::marker::Model;

impl Code {
    /// Returns the code of a rule. Its result at each address is what the rule means there. Its
    /// jumps only lead forward.
    pub fn of(alloc: Global, rule: &Rule) -> Result<Code, NoMemory>
        ensures meaning { IfOk result (λ code. IsCodeOf code rule.now) }
        ensures limit { IfOk result (λ code. length code ≤ max_eval_steps) }
    {
        let mut codes = codes_of(alloc, rule.wiring(), rule.definitions())?;
        match codes.pop() {
            Some(last) => Ok(Code::new(last)),
            None => unreachable!(),
        }
    }
}

/// Returns the instructions of each definition, in the order of the definitions. The last are those
/// of the rule. They must be the definitions of a parsed rule with this wiring. Returns `NoMemory`
/// only if an allocation fails.
fn codes_of(
    alloc: Global,
    wiring: Wiring,
    definitions: &[Definition],
) -> Result<Vec<Instructions>, NoMemory>
    requires { AllHaveTheirs wiring [] definitions.now }
    ensures { IfOk result (λ codes. codes.items ≡ all_codes wiring [] definitions.now) }
{
    let mut codes = Vec::new(alloc);
    for definition in definitions {
        let code = code_of(alloc, wiring, &definition.words, &codes)?;
        codes.push(code)?;
    }
    Ok(codes)
}

/// Returns the instructions of a definition's words. `codes` has those of all definitions before
/// it, in order. Takes the words from the last to the first, so that what a jump passes is there
/// before the jump. The words must be of a parsed rule with this wiring.
fn code_of(
    alloc: Global,
    wiring: Wiring,
    words: &[Word],
    codes: &[Instructions],
) -> Result<Instructions, NoMemory>
    requires { HaveTheirs wiring codes.now words.now nothing }
    ensures { IfOk result (λ code. code ≡ words_code wiring codes.now words.now) }
{
    let mut emitter = Emitter {
        code: Instructions::new(alloc),
        landings: Vec::new(alloc),
        case: None,
    };
    for i in (0..words.len()).rev() {
        emitter.emit(wiring, words[i], codes)?;
    }
    let Emitter {
        code,
        landings,
        case: _,
    } = emitter;
    drop(landings);
    Ok(code)
}

/// A case while its words are being written, from the last to the first.
#[derive(Clone, Copy, Debug, PartialEq, Eq)]
struct OpenCase {
    /// How many instructions stand after the case.
    end: usize,
    /// How many words it has so far.
    count: usize,
}

/// Code that is being written from its end to its start.
#[derive(Drop)]
struct Emitter {
    code: Instructions,
    /// For each open IF, the innermost last, how many instructions there are from its target on.
    landings: Vec<usize>,
    case: Option<OpenCase>,
}

impl Model for Emitter {
    ghost use Rattle.std.specs.Prelude.{reverse, length, ◌≤◌, IfSome};
    ghost use Rattle.cam6_table.specs.Internal.Emitting.{Emitted};

    ghost Value = { Emitted };

    ghost view = { λ e.
        record { code = e.code; landings = reverse e.landings.items; case = e.case } };

    /// An open case has at most as many words as there are instructions.
    ghost invariant = { λ e. IfSome e.case (λ case. case.count ≤ length e.code) };
}

impl Emitter {
    ghost use Rattle.cam6_table.specs.Internal.Emitting.{emit, emit_then, emit_else, emit_if};
    ghost use Rattle.cam6_table.specs.Internal.Emitting.{emit_end_cases, emit_cases, emit_word};
    ghost use Rattle.cam6_table.specs.Internal.Emitting.{with_head, word_code};
    ghost use Rattle.cam6_table.specs.Internal.Emitting.{IsOpen, IsThere, HasCode, HasIts};

    /// Writes the instructions of one more word in front of those that follow it. `codes` has those
    /// of the definitions before, in order. The word must fit what is open: see `emit_else`,
    /// `emit_if`, `emit_cases` and `put_word`.
    fn emit(&mut self, wiring: Wiring, word: Word, codes: &[Instructions]) -> Result<(), NoMemory>
        requires { HasIts wiring codes.now word self.old }
        ensures { OnOk result (self.new ≡ emit wiring codes.now word self.old) }
    {
        match word {
            Word::Single(word) => self.emit_word(wiring, word, codes),
            Word::Then => self.emit_then(),
            Word::Else => self.emit_else(),
            Word::If => self.emit_if(),
            Word::EndCases => {
                self.emit_end_cases();
                Ok(())
            }
            Word::Cases => self.emit_cases(),
        }
    }

    /// Writes no instruction for `THEN`. Notes the place here as the target of the jump of its `IF`
    /// or `ELSE`.
    fn emit_then(&mut self) -> Result<(), NoMemory>
        ensures { OnOk result (self.new ≡ emit_then self.old) }
    {
        let landing = self.code.len();
        self.landings.push(landing)?;
        Ok(())
    }

    /// Writes the jump of an `ELSE`: from the end of the first body past the second one. Notes the
    /// second body as the target of the `IF`. `emit_then` must have noted the target of the jump.
    fn emit_else(&mut self) -> Result<(), NoMemory>
        requires { IsOpen self.old.landings }
        ensures { OnOk result (self.new ≡ emit_else self.old.landings self.old) }
    {
        let Some(landing) = self.landings.pop() else {
            unreachable!()
        };
        let here = self.code.len();
        let passed = here.saturating_sub(landing);
        self.code.put(Instruction::Skip(passed))?;
        self.landings.push(here)?;
        Ok(())
    }

    /// Writes the jump of the innermost open `IF`. The jump takes the top value off. If it is 0, it
    /// passes the instructions up to the target. `emit_then` or `emit_else` must have noted the
    /// target.
    fn emit_if(&mut self) -> Result<(), NoMemory>
        requires { IsOpen self.old.landings }
        ensures { OnOk result (self.new ≡ emit_if self.old.landings self.old) }
    {
        let Some(landing) = self.landings.pop() else {
            unreachable!()
        };
        let passed = self.code.len().saturating_sub(landing);
        self.code.put(Instruction::SkipIfZero(passed))
    }

    /// Begins a case at its closing brace, so far without words. Writes no instruction.
    fn emit_end_cases(&mut self)
        ensures { self.new ≡ emit_end_cases self.old }
    {
        self.case = Some(OpenCase {
            end: self.code.len(),
            count: 0,
        });
    }

    /// Ends the case at its opening brace. Writes the instruction that takes an index off, counted
    /// from 0, and looks for that word. A case must be open.
    fn emit_cases(&mut self) -> Result<(), NoMemory>
        requires { IsThere self.old.case }
        ensures { OnOk result (self.new ≡ emit_cases self.old.case self.old) }
    {
        match self.case.take() {
            Some(case) => self.code.put(Instruction::Case(case.count)),
            None => unreachable!(),
        }
    }

    /// Writes a single word in front. If a case is open, also writes the head of the case's word
    /// before it.
    fn emit_word(
        &mut self,
        wiring: Wiring,
        word: SingleWord,
        codes: &[Instructions],
    ) -> Result<(), NoMemory>
        requires { HasCode wiring codes.now word }
        ensures { OnOk result (self.new ≡
            emit_word self.old.case (word_code wiring codes.now word) self.old) }
    {
        let before = self.code.len();
        self.put_word(wiring, word, codes)?;
        if let Some(case) = self.case {
            let here = self.code.len();
            self.code.put(Instruction::CaseWord {
                length: here.saturating_sub(before),
                after: here.saturating_sub(case.end),
            })?;
            prove!(case.count < self.code.len());
            self.case = Some(OpenCase {
                end: case.end,
                count: case.count + 1,
            });
        }
        Ok(())
    }

    /// Writes the instructions of a single word in front, without a head. If the word calls a
    /// definition, copies its instructions from `codes`. A name must be one of the wiring's, and a
    /// definition one of those in `codes`.
    fn put_word(
        &mut self,
        wiring: Wiring,
        word: SingleWord,
        codes: &[Instructions],
    ) -> Result<(), NoMemory>
        requires { HasCode wiring codes.now word }
        ensures { OnOk result (self.new ≡
            record self.old { code = word_code wiring codes.now word ++ self.old.code }) }
    {
        match word {
            SingleWord::Literal(value) => self.code.put(Instruction::Literal(value)),
            SingleWord::Name(name) => match line_of(wiring.hood, wiring.minor, name) {
                Some(line) => self.code.put(Instruction::Line(line)),
                None => unreachable!(),
            },
            SingleWord::Stack(word) => self.code.put(Instruction::Stack(word)),
            SingleWord::Output(target) => self.code.put(Instruction::Output(target)),
            SingleWord::Defined(position) => match codes.get(position) {
                Some(code) => self.code.put_all(code),
                None => unreachable!(),
            },
        }
    }
}
