//! Compiles a text to the code of its rule, or returns why it can't.
ghost use Rattle.std.specs.Prelude.{◌≡◌, ◌≢◌, false, Err, IfOk, OnOk};
ghost use Rattle.cam6_forth.specs.Reading.{keeps};
ghost use Rattle.cam6_table.specs.RuleTexts.{IsCodeFor, IsTableOf};
ghost use Rattle.cam6_table.specs.Compiling.{fault_in, IsRefusedFor};

use crate::codes::Code;
use crate::faults::RuleFault;
use crate::filling::fill;
use cam6_entries::Table;
use cam6_forth::{ParseFault, TextFault, parse_under};
use cam6_planes::NoMemory;
use cam6_wiring::Wiring;
use std::alloc::Global;

/// Why a text isn't compiled.
#[derive(Debug, Drop)]
pub enum NotCompiled {
    /// The text's first fault.
    Text(TextFault),
    /// The least address at which the rule stops, and why it stops there.
    Stops { address: u16, fault: RuleFault },
    /// An allocation failed.
    NoMemory,
}

impl From<NoMemory> for NotCompiled {
    ghost use Rattle.cam6_table.specs.declared.compiling.NotCompiled.TheVariants.{NoMemory};

    ghost from_gives = { λ _ e. e ≡ NoMemory };

    /// A failed allocation becomes `NoMemory`, which is no fault of the text.
    fn from(_refused: NoMemory) -> NotCompiled {
        NotCompiled::NoMemory
    }
}

/// Compiles a rule's text, and runs the code at every address. If it stops nowhere, returns the
/// code, and `trial` is the rule's table. Otherwise returns the text's first fault, the least
/// address at which it stops, or `NoMemory`. Then the entries of `trial` may be anything.
pub fn compile(
    alloc: Global,
    wiring: Wiring,
    text: &str,
    trial: &mut Table,
) -> Result<Code, NotCompiled>
    ensures code { IfOk result (λ code. IsCodeFor wiring text.now code) }
    ensures table { OnOk result (IsTableOf wiring text.now trial.new) }

    // A text is refused exactly if there is a fault in it, and for that, unless memory runs out.
    ensures refused { IsRefusedFor (fault_in wiring text.now) result }
    // Memory can't run out if nothing of the text is kept.
    ensures unkept { keeps wiring text.now ≡ false → result ≢ Err NotCompiled.NoMemory }
{
    let rule = match parse_under(alloc, text, wiring) {
        Ok(rule) => rule,
        Err(ParseFault::Text(fault)) => return Err(NotCompiled::Text(fault)),
        Err(ParseFault::NoMemory) => return Err(NotCompiled::NoMemory),
    };
    let code = Code::of(alloc, &rule)?;
    match fill(&code, trial) {
        Ok(()) => Ok(code),
        Err((address, fault)) => Err(NotCompiled::Stops { address, fault }),
    }
}
