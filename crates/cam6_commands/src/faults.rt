//! The faults of commands, with their numbers.
ghost use Rattle.std.specs.Prelude.{◌≡◌};
ghost use Rattle.cam6_commands.specs.Numbers.{fault_number};

/// Why a command is refused, apart from faults of a rule.
#[derive(Clone, Copy, Debug, PartialEq, Eq)]
pub enum Fault {
    /// No rule has the name.
    NoRule,
    /// The cycle uses the rule.
    RuleInUse,
    /// There are 16 rules, and the name is a new one.
    TooManyRules,
    /// No cycle is set.
    NoCycle,
    /// A number, a name or a cycle is outside its limits.
    OutOfRange,
    /// A rule of half B stands for half A, or the other way round.
    WrongHalf,
    /// The side is above the machine's limit.
    AboveLimit,
    /// What is to be loaded isn't what is saved of any machine.
    NoMachine,
}

impl Fault {
    /// Returns the fault's number, as replies have it: 60 to 63, or 65 to 68.
    pub fn number(self) -> u8
        ensures { result ≡ fault_number self }
    {
        match self {
            Fault::NoRule => 60,
            Fault::RuleInUse => 61,
            Fault::TooManyRules => 62,
            Fault::NoCycle => 63,
            Fault::OutOfRange => 65,
            Fault::WrongHalf => 66,
            Fault::AboveLimit => 67,
            Fault::NoMachine => 68,
        }
    }
}
