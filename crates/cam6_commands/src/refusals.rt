//! Why a command is refused.
ghost use Rattle.std.specs.Prelude.{◌≡◌};
ghost use Rattle.cam6_commands.specs.Numbers.{refusal_number};

use crate::faults::Fault;
use cam6_block::NotReversible;
use cam6_forth::TextFault;
use cam6_table::RuleFault;
use cam6_wiring::Half;

/// Why a command is refused.
#[derive(Clone, Copy, Debug, PartialEq, Eq)]
pub enum Refusal {
    /// For one of its numbers or names, or for what the machine has.
    Fault(Fault),
    /// For the first fault of a rule's text.
    Text(TextFault),
    /// For a rule that stops: the least address at which it does, and why it stops there.
    Stops {
        address: u16,
        fault: RuleFault,
    },
    /// For a rule that can't be undone: the first entry of the cycle with one, counted from 0; its
    /// half, with half A before half B; and why the rule can't be undone.
    NotReversible {
        entry: usize,
        half: Half,
        cause: NotReversible,
    },
}

impl Refusal {
    /// Returns the number of the fault, as replies have it. Addresses, entries and halves are no
    /// part of it.
    pub fn number(self) -> u8
        ensures { result ≡ refusal_number self }
    {
        match self {
            Refusal::Fault(fault) => fault.number(),
            Refusal::Text(fault) => fault.number,
            Refusal::Stops { fault, .. } => fault.number(),
            Refusal::NotReversible { cause, .. } => cause.number(),
        }
    }
}

impl From<Fault> for Refusal {
    ghost use Rattle.std.specs.Prelude.{◌≡◌};
    ghost use Rattle.cam6_commands.specs.declared.refusals.Refusal.{Refusal};

    ghost from_gives = { λ fault refusal. refusal ≡ Refusal.Fault fault };

    /// A fault becomes the refusal with the fault's number.
    fn from(fault: Fault) -> Refusal {
        Refusal::Fault(fault)
    }
}
