//! The stack of a rule that runs, and what each word does to it.
ghost use Rattle.std.specs.Prelude.{◌≡◌, ◌<◌, length};
ghost use Rattle.cam6_table.specs.Words.{pushed, on_stack, IsOutcome, Takes};

use crate::faults::RuleFault;
use cam6_forth::StackWord;
use std::marker::Model;

/// Values that a stack can hold.
pub const MAX_VALUES: usize = 32;

/// At most 32 values of 0 to 65,535. Contracts see them with the top one first.
#[derive(Drop)]
pub struct Stack {
    values: [u16; MAX_VALUES],
    len: usize,
}

impl Model for Stack {
    ghost use Rattle.std.specs.Prelude.{List, ℕ, reverse, take, ◌≤◌};
    ghost use Rattle.cam6_table.specs.Limits.{max_values};

    ghost Value = { List ℕ };

    ghost view = { λ s. reverse (take s.len s.values) };

    ghost invariant = { λ s. s.len ≤ max_values };
}

impl Stack {
    ghost use Rattle.std.specs.Prelude.{[], ◌∷◌, ◌<◌, OnOk};

    /// Makes an empty stack. Does not allocate.
    pub fn new() -> Stack
        ensures { result ≡ [] }
    {
        Stack {
            values: [0; MAX_VALUES],
            len: 0,
        }
    }

    /// Puts a value on top. Returns `FullStack`, and changes nothing, if the stack has 32 values.
    pub fn push(&mut self, value: u16) -> Result<(), RuleFault>
        ensures { IsOutcome (pushed value self.old) self.new result }
    {
        if self.len == MAX_VALUES {
            return Err(RuleFault::FullStack);
        }
        self.push_unchecked(value);
        Ok(())
    }

    /// Takes the top value off and returns it. Returns `MissingValue`, and changes nothing, if the
    /// stack is empty.
    pub fn pop(&mut self) -> Result<u16, RuleFault>
        ensures taken { Takes self.old self.new result }
        ensures room { OnOk result (length self.new < MAX_VALUES) }
    {
        if self.len == 0 {
            return Err(RuleFault::MissingValue);
        }
        self.len -= 1;
        Ok(self.values[self.len])
    }

    /// Puts a value on top. The stack must have fewer than 32 values.
    pub fn push_unchecked(&mut self, value: u16)
        requires room { length self.old < MAX_VALUES }
        ensures { self.new ≡ value ∷ self.old }
    {
        self.values[self.len] = value;
        self.len += 1;
    }

    /// Does a stack word, or returns the fault at which it stops. After a fault nothing is promised
    /// of the stack.
    pub fn apply(&mut self, word: StackWord) -> Result<(), RuleFault>
        ensures { IsOutcome (on_stack word self.old) self.new result }
    {
        match word {
            StackWord::Dup => self.dup(),
            StackWord::Drop => self.drop_top(),
            StackWord::Swap => self.swap(),
            StackWord::Over => self.over(),
            StackWord::Rot => self.rot(),
            StackWord::Plus => self.plus(),
            StackWord::Minus => self.minus(),
            StackWord::Times => self.times(),
            StackWord::And => self.and(),
            StackWord::Or => self.or(),
            StackWord::Xor => self.xor(),
            StackWord::IsZero => self.zero_equals(),
            StackWord::Equal => self.equal(),
            StackWord::Less => self.less(),
            StackWord::Greater => self.greater(),
        }
    }

    /// Puts a copy of the top value on top. Returns `MissingValue` if the stack is empty, and
    /// `FullStack` if it has 32 values.
    fn dup(&mut self) -> Result<(), RuleFault>
        ensures { IsOutcome (on_stack StackWord.Dup self.old) self.new result }
    {
        let a = self.pop()?;
        self.push_unchecked(a);
        self.push(a)
    }

    /// Takes the top value off. Returns `MissingValue` if the stack is empty.
    fn drop_top(&mut self) -> Result<(), RuleFault>
        ensures { IsOutcome (on_stack StackWord.Drop self.old) self.new result }
    {
        self.pop()?;
        Ok(())
    }

    /// Exchanges the two top values. Returns `MissingValue` if there are fewer. The stack may have lost
    /// one then.
    fn swap(&mut self) -> Result<(), RuleFault>
        ensures { IsOutcome (on_stack StackWord.Swap self.old) self.new result }
    {
        let b = self.pop()?;
        let a = self.pop()?;
        self.push_unchecked(b);
        self.push_unchecked(a);
        Ok(())
    }

    /// Puts a copy of the value below the top one on top. Returns `MissingValue` if there are not
    /// two values, and `FullStack` if there are 32.
    fn over(&mut self) -> Result<(), RuleFault>
        ensures { IsOutcome (on_stack StackWord.Over self.old) self.new result }
    {
        let b = self.pop()?;
        let a = self.pop()?;
        self.push_unchecked(a);
        self.push_unchecked(b);
        self.push(a)
    }

    /// Moves the third value to the top, over the two that were above it. Returns `MissingValue` if
    /// there are not three values.
    fn rot(&mut self) -> Result<(), RuleFault>
        ensures { IsOutcome (on_stack StackWord.Rot self.old) self.new result }
    {
        let c = self.pop()?;
        let b = self.pop()?;
        let a = self.pop()?;
        self.push_unchecked(b);
        self.push_unchecked(c);
        self.push_unchecked(a);
        Ok(())
    }

    /// Replaces the top two values by their sum. Returns `MissingValue` if there are not two, and
    /// `Range` if the sum is above 65,535.
    fn plus(&mut self) -> Result<(), RuleFault>
        ensures { IsOutcome (on_stack StackWord.Plus self.old) self.new result }
    {
        let b = self.pop()?;
        let a = self.pop()?;
        let Some(sum) = a.checked_add(b) else {
            return Err(RuleFault::Range);
        };
        self.push_unchecked(sum);
        Ok(())
    }

    /// Replaces the top two values by the second one minus the top one. Returns `MissingValue` if
    /// there are not two, and `Range` if the difference is below 0.
    fn minus(&mut self) -> Result<(), RuleFault>
        ensures { IsOutcome (on_stack StackWord.Minus self.old) self.new result }
    {
        let b = self.pop()?;
        let a = self.pop()?;
        let Some(difference) = a.checked_sub(b) else {
            return Err(RuleFault::Range);
        };
        self.push_unchecked(difference);
        Ok(())
    }

    /// Replaces the top two values by their product. Returns `MissingValue` if there are not two,
    /// and `Range` if the product is above 65,535.
    fn times(&mut self) -> Result<(), RuleFault>
        ensures { IsOutcome (on_stack StackWord.Times self.old) self.new result }
    {
        let b = self.pop()?;
        let a = self.pop()?;
        let Some(product) = a.checked_mul(b) else {
            return Err(RuleFault::Range);
        };
        self.push_unchecked(product);
        Ok(())
    }

    /// Replaces the top two values by their AND, bit by bit. Fails if there are not two.
    fn and(&mut self) -> Result<(), RuleFault>
        ensures { IsOutcome (on_stack StackWord.And self.old) self.new result }
    {
        let b = self.pop()?;
        let a = self.pop()?;
        self.push_unchecked(a & b);
        Ok(())
    }

    /// Replaces the top two values by their OR, bit by bit. Fails if there are not two.
    fn or(&mut self) -> Result<(), RuleFault>
        ensures { IsOutcome (on_stack StackWord.Or self.old) self.new result }
    {
        let b = self.pop()?;
        let a = self.pop()?;
        self.push_unchecked(a | b);
        Ok(())
    }

    /// Replaces the top two values by their XOR, bit by bit. Fails if there are not two.
    fn xor(&mut self) -> Result<(), RuleFault>
        ensures { IsOutcome (on_stack StackWord.Xor self.old) self.new result }
    {
        let b = self.pop()?;
        let a = self.pop()?;
        self.push_unchecked(a ^ b);
        Ok(())
    }

    /// Replaces the top value by 1 if it is 0, and else by 0. Fails if there is none.
    fn zero_equals(&mut self) -> Result<(), RuleFault>
        ensures { IsOutcome (on_stack StackWord.IsZero self.old) self.new result }
    {
        let a = self.pop()?;
        self.push_unchecked(u16::from(a == 0));
        Ok(())
    }

    /// Replaces the top two values by 1 if they are equal, and else by 0. Fails if there are not
    /// two.
    fn equal(&mut self) -> Result<(), RuleFault>
        ensures { IsOutcome (on_stack StackWord.Equal self.old) self.new result }
    {
        let b = self.pop()?;
        let a = self.pop()?;
        self.push_unchecked(u16::from(a == b));
        Ok(())
    }

    /// Replaces the top two values by 1 if the second one is less than the top one, and else by 0.
    /// Fails if there are not two.
    fn less(&mut self) -> Result<(), RuleFault>
        ensures { IsOutcome (on_stack StackWord.Less self.old) self.new result }
    {
        let b = self.pop()?;
        let a = self.pop()?;
        self.push_unchecked(u16::from(a < b));
        Ok(())
    }

    /// Replaces the top two values by 1 if the second one is greater than the top one, and else by
    /// 0. Fails if there are not two.
    fn greater(&mut self) -> Result<(), RuleFault>
        ensures { IsOutcome (on_stack StackWord.Greater self.old) self.new result }
    {
        let b = self.pop()?;
        let a = self.pop()?;
        self.push_unchecked(u16::from(a > b));
        Ok(())
    }
}
