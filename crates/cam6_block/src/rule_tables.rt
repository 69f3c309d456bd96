//! The table of a rule's code, by the direction of a step along a cycle.
ghost use Rattle.std.specs.Prelude.{◌≡◌, ◌<◌, ℕ, List, length, Some, IsOk, IfOk, IfErr, OnErr};
ghost use Rattle.cam6_cycle.specs.declared.tables.Direction.TheVariants.{Forward, Backward};
ghost use Rattle.cam6_entries.specs.Limits.{addresses};
ghost use Rattle.cam6_table.specs.Codes.{result_at};
ghost use Rattle.cam6_table.specs.Tables.{AreEntries};
ghost use Rattle.cam6_table.specs.RuleTexts.{IsCodeFor};
ghost use Rattle.cam6_block.specs.BlockMaps.{reading_of, IsReversible};
ghost use Rattle.cam6_block.specs.Refusals.{cause_of};
ghost use Rattle.cam6_block.specs.RuleTables.{IsTableBy};

use crate::inverses::invert;
use crate::refusals::NotReversible;
use cam6_cycle::Direction;
use cam6_table::{Code, ENTRIES, Table, fill};
use cam6_wiring::Wiring;

/// Fills `out` from a rule's code, which must stop at no address. Forward, it becomes the table of
/// the rule, without fail. Backward, `forward` becomes that table, whatever it held before, and
/// `out` its inverse. If no table undoes the rule's blocks, returns the reason and leaves `out`
/// unchanged. Copies of `out` also have the program that it gets here. Does not allocate.
pub fn fill_by(
    code: &Code,
    wiring: Wiring,
    direction: Direction,
    forward: &mut Table,
    out: &mut Table,
) -> Result<(), NotReversible>
    // The code stops at no address.
    requires runs { (address : ℕ) → address < addresses → IsOk (result_at code.now address) }
    // This holds for every text of which this is the code.
    ensures table { IfOk result (λ _. (text : List ℕ) → IsCodeFor wiring text code.now →
        IsTableBy direction wiring text out.new) }

    // Only backward a rule is refused, for its cause. One that can be undone isn't.
    ensures refused { IfErr result (λ cause. (direction ≡ Backward) × ((text : List ℕ) →
        IsCodeFor wiring text code.now →
        cause_of (reading_of wiring text) wiring.hood wiring.minor ≡ Some cause)) }
    ensures ok { (text : List ℕ) → IsCodeFor wiring text code.now →
        IsReversible (reading_of wiring text) wiring.hood wiring.minor → IsOk result }
    ensures forward { direction ≡ Forward → IsOk result }

    ensures unchanged { OnErr result (out.new ≡ out.old) }
{
    match direction {
        Direction::Forward => {
            fill_forward(code, out);
            out.quicken(wiring.hood, wiring.minor);
            Ok(())
        }
        Direction::Backward => {
            fill_forward(code, forward);
            invert(forward, wiring.hood, wiring.minor, out)
        }
    }
}

/// Fills the table with the rule's entries from its code, which must stop at no address.
fn fill_forward(code: &Code, table: &mut Table)
    requires runs { (address : ℕ) → address < addresses → IsOk (result_at code.now address) }
    ensures entries { AreEntries (result_at code.now) table.new }
    ensures whole { length table.new ≡ addresses }
{
    match fill(code, table) {
        Ok(()) => prove!(table.len() == ENTRIES),
        Err(_) => unreachable!(),
    }
}
