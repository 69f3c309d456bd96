//! Flat code: instructions in a row, with jumps that only go forward.
ghost use Rattle.std.specs.Prelude.{◌≡◌, ◌≤◌, ◌<◌, length};
ghost use Rattle.cam6_table.specs.Limits.{max_eval_steps};

use cam6_forth::{StackWord, Target};
use cam6_planes::NoMemory;
use std::alloc::Global;
use std::marker::Model;

/// What code does at one position. If it goes on further ahead, the position says by how many.
#[derive(Clone, Copy, Debug, PartialEq, Eq)]
pub enum Instruction {
    /// Puts a number on the stack.
    Literal(u16),
    /// Puts the bit of an address line on the stack.
    Line(u8),
    Stack(StackWord),
    Output(Target),
    /// Takes the top value off, and passes this many instructions if it is 0.
    SkipIfZero(usize),
    Skip(usize),
    /// Takes an index off, and looks for that word of the case. The case has this many words.
    Case(usize),
    /// The head of a case's word. The word has `length` instructions, and the case `after` of them
    /// from here to its end.
    CaseWord { length: usize, after: usize },
}

/// Instructions in a row. More are added in front. They are kept back to front, and contracts see
/// them in the order in which they are done.
#[derive(Debug, Drop)]
pub struct Instructions {
    back_to_front: Vec<Instruction>,
}

impl Model for Instructions {
    ghost use Rattle.std.specs.Prelude.{List, reverse};
    ghost use Rattle.cam6_table.specs.declared.codes.Instruction.{Instruction};

    ghost Value = { List Instruction };

    ghost view = { λ c. reverse c.back_to_front.items };
}

impl Instructions {
    ghost use Rattle.std.specs.Prelude.{[], ◌∷◌, ◌++◌, ◌+◌, OnOk};
    ghost use Rattle.cam6_table.specs.Codes.{last_of};

    /// Makes an empty list of instructions. Does not allocate.
    pub fn new(alloc: Global) -> Instructions
        ensures { result ≡ [] }
    {
        Instructions {
            back_to_front: Vec::new(alloc),
        }
    }

    /// Returns how many instructions there are. As many are left where the code starts.
    pub fn len(&self) -> usize
        ensures { result ≡ length self.now }
    {
        self.back_to_front.len()
    }

    /// Returns the instruction after which `remaining` others are left. `remaining` must be below
    /// `len`.
    pub fn before(&self, remaining: usize) -> Instruction
        requires { remaining < length self.now }
        ensures { last_of (remaining + 1) self.now ≡ result ∷ last_of remaining self.now }
    {
        self.back_to_front[remaining]
    }

    /// Puts an instruction in front of the others. Returns `NoMemory` only if an allocation fails.
    /// Then nothing is promised of what the list holds.
    pub fn put(&mut self, instruction: Instruction) -> Result<(), NoMemory>
        ensures new { OnOk result (self.new ≡ instruction ∷ self.old) }
        ensures grows { length self.old ≤ length self.new }
    {
        self.back_to_front.push(instruction)?;
        Ok(())
    }

    /// Puts other instructions in front of these, in their own order. Returns `NoMemory` only if an
    /// allocation fails. Then nothing is promised of what the list holds.
    pub fn put_all(&mut self, others: &Instructions) -> Result<(), NoMemory>
        ensures new { OnOk result (self.new ≡ others.now ++ self.old) }
        ensures grows { length self.old ≤ length self.new }
    {
        self.back_to_front.extend_from_slice(&others.back_to_front)?;
        Ok(())
    }
}

/// The code of a rule: at most 4,096 instructions. A jump past the last one ends the rule.
#[derive(Debug, Drop)]
pub struct Code {
    instructions: Instructions,
}

impl Model for Code {
    ghost use Rattle.std.specs.Prelude.{List, length, ◌≤◌};
    ghost use Rattle.cam6_table.specs.Limits.{max_eval_steps};
    ghost use Rattle.cam6_table.specs.declared.codes.Instruction.{Instruction};

    ghost Value = { List Instruction };

    ghost view = { λ c. c.instructions };

    ghost invariant = { λ c. length c.instructions ≤ max_eval_steps };
}

impl Code {
    /// Returns the code that has these instructions. They must be 4,096 at most.
    pub(crate) fn new(instructions: Instructions) -> Code
        requires { length instructions ≤ max_eval_steps }
        ensures { result ≡ instructions }
    {
        Code { instructions }
    }

    /// Lends the instructions of the code, 4,096 at most.
    pub(crate) fn instructions(&self) -> &Instructions
        ensures instructions { result.now ≡ self.now }
        ensures limit { length self.now ≤ max_eval_steps }
    {
        &self.instructions
    }
}
