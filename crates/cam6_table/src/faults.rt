//! The faults of a rule that runs.
ghost use Rattle.std.specs.Prelude.{◌≡◌};
ghost use Rattle.cam6_table.specs.Faults.{fault_number};

/// Why a rule stops.
#[derive(Clone, Copy, Debug, PartialEq, Eq)]
pub enum RuleFault {
    /// A word wants more values than the stack holds.
    MissingValue,
    /// The stack would hold more than 32 values.
    FullStack,
    /// A case's index is its number of words or more.
    CaseIndex,
    /// A result is below 0 or above 65,535.
    Range,
}

impl RuleFault {
    /// Returns the fault's number, 40 to 43, as replies have it.
    pub fn number(self) -> u8
        ensures { result ≡ fault_number self }
    {
        match self {
            RuleFault::MissingValue => 40,
            RuleFault::FullStack => 41,
            RuleFault::CaseIndex => 42,
            RuleFault::Range => 43,
        }
    }
}
