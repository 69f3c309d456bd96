//! Numbers of commands that were looked at: each is within its limits.
//!
//! Sides, colours and phases are checked where they are used: `refusals` of `cam6_machine` and of
//! `cam6_rules`.
ghost use Rattle.std.specs.Prelude.{◌≡◌, ◌<◌, IfOk};
ghost use Rattle.std.specs.Result.{result_err};
ghost use Rattle.cam6_planes.specs.Side.{side_number};
ghost use Rattle.cam6_commands.specs.Checks.{plane_refusal, row_refusal, mask_refusal};
ghost use Rattle.cam6_commands.specs.Checks.{steps_refusal};

use crate::faults::Fault;
use crate::limits::{MAX_MASK, MAX_STEPS};
use cam6_planes::Side;
use std::marker::Model;

/// The number of one of the four planes. Contracts see the number.
#[derive(Clone, Copy, Debug, PartialEq, Eq)]
pub struct PlaneNumber {
    number: usize,
}

impl Model for PlaneNumber {
    ghost use Rattle.std.specs.Prelude.{ℕ, ◌<◌};

    ghost Value = { ℕ };

    ghost view = { λ plane. plane.number };

    ghost inverse = { λ n. record { number = n } };

    ghost invariant = { λ plane. plane.number < 4 };
}

impl PlaneNumber {
    /// Returns the plane with this number, 0 to 3. Returns `OutOfRange` if there is no such plane.
    pub fn of(number: u64) -> Result<PlaneNumber, Fault>
        ensures refusal { result_err result ≡ plane_refusal number }
        ensures value { IfOk result (λ plane. plane ≡ number) }
    {
        if number >= 4 {
            return Err(Fault::OutOfRange);
        }
        Ok(PlaneNumber {
            number: number as usize,
        })
    }

    /// Returns the plane's number, 0 to 3.
    pub fn number(self) -> usize
        ensures value { result ≡ self }
        ensures within { result < 4 }
    {
        self.number
    }
}

/// The number of a row of a torus. Contracts see it with the side.
#[derive(Clone, Copy, Debug, PartialEq, Eq)]
pub struct RowNumber {
    side: Side,
    number: usize,
}

impl Model for RowNumber {
    ghost use Rattle.std.specs.Prelude.{◌<◌};
    ghost use Rattle.cam6_planes.specs.Side.{side_number};
    ghost use Rattle.cam6_commands.specs.Checks.{RowOf};

    ghost Value = { RowOf };

    ghost view = { λ row. record { side = row.side; number = row.number } };

    ghost inverse = { λ row. record { side = row.side; number = row.number } };

    ghost invariant = { λ row. row.number < side_number row.side };
}

impl RowNumber {
    /// Returns the row with this number, from 0 to below the side, in a torus of this side. Returns
    /// `OutOfRange` if there is no such row.
    pub fn of(side: Side, number: u64) -> Result<RowNumber, Fault>
        ensures refusal { result_err result ≡ row_refusal side number }
        ensures value { IfOk result (λ row. row ≡ record { side = side; number = number }) }
    {
        if number >= side.number() as u64 {
            return Err(Fault::OutOfRange);
        }
        Ok(RowNumber {
            side,
            number: number as usize,
        })
    }

    /// Returns the row's number, from 0 to below the side.
    pub fn number(self) -> usize
        ensures value { result ≡ self.number }
        ensures within { result < side_number self.side }
    {
        self.number
    }
}

/// A set of states of a cell: a bit for each of the sixteen. Contracts see it as a number.
#[derive(Clone, Copy, Debug, PartialEq, Eq)]
pub struct Mask {
    bits: u16,
}

impl Model for Mask {
    ghost use Rattle.std.specs.Prelude.{ℕ};

    ghost Value = { ℕ };

    ghost view = { λ mask. mask.bits };

    ghost inverse = { λ n. record { bits = n } };
}

impl Mask {
    /// Returns the set of states with this mask, from 0 to 65,535, in which bit 0 is for state 0.
    /// Returns `OutOfRange` if the number is larger.
    pub fn of(number: u64) -> Result<Mask, Fault>
        ensures refusal { result_err result ≡ mask_refusal number }
        ensures value { IfOk result (λ mask. mask ≡ number) }
    {
        if number > MAX_MASK {
            return Err(Fault::OutOfRange);
        }
        Ok(Mask {
            bits: number as u16,
        })
    }

    /// Returns the mask: a bit for each state, bit 0 for the state 0.
    pub fn bits(self) -> u16
        ensures { result ≡ self }
    {
        self.bits
    }
}

/// A number of steps that one command can do. Contracts see the number.
#[derive(Clone, Copy, Debug, PartialEq, Eq)]
pub struct StepCount {
    number: u16,
}

impl Model for StepCount {
    ghost use Rattle.std.specs.Prelude.{ℕ};

    ghost Value = { ℕ };

    ghost view = { λ steps. steps.number };

    ghost inverse = { λ n. record { number = n } };
}

impl StepCount {
    /// Returns a number of steps from 0 to 65,535. Returns `OutOfRange` if it is larger.
    pub fn of(number: u64) -> Result<StepCount, Fault>
        ensures refusal { result_err result ≡ steps_refusal number }
        ensures value { IfOk result (λ steps. steps ≡ number) }
    {
        if number > MAX_STEPS {
            return Err(Fault::OutOfRange);
        }
        Ok(StepCount {
            number: number as u16,
        })
    }

    /// Returns the number of steps, 0 to 65,535.
    pub fn number(self) -> u16
        ensures { result ≡ self }
    {
        self.number
    }
}
