//! A rule as it is kept: compiled once, and never refused again.
ghost use Rattle.std.specs.Prelude.{◌≡◌, ◌≢◌, false, Err};
ghost use Rattle.cam6_forth.specs.Reading.{keeps};
ghost use Rattle.cam6_rules.specs.Internal.Verdicts.{IsVerdict};

use crate::tables::Tables;
use cam6_block::{NotReversible, fill_by};
use cam6_commands::Text;
use cam6_cycle::Direction;
use cam6_table::{Code, NotCompiled, Table};
use cam6_wiring::Wiring;
use std::alloc::Global;
use std::marker::Model;

/// A rule without its name: what it is written for, its text, and the code that does what the words
/// of the text mean. It stops nowhere.
#[derive(Drop)]
pub struct CompiledRule {
    wiring: Wiring,
    text: Text,
    code: Code,
}

impl Model for CompiledRule {
    ghost use Rattle.cam6_table.specs.RuleTexts.{IsCodeFor};
    ghost use Rattle.cam6_rules.specs.Compiled.{Compiled};

    ghost Value = { Compiled };

    ghost view = { λ r. record { wiring = r.wiring; text = r.text; code = r.code } };

    ghost invariant = { λ r. IsCodeFor r.wiring r.text r.code };
}

impl CompiledRule {
    ghost use Rattle.std.specs.Prelude.{◌≡◌, Some, IfOk, IfErr};
    ghost use Rattle.cam6_table.specs.RuleTexts.{IsCodeFor};
    ghost use Rattle.cam6_block.specs.BlockMaps.{reading_of};
    ghost use Rattle.cam6_block.specs.Refusals.{cause_of};
    ghost use Rattle.cam6_block.specs.RuleTables.{IsTableBy};
    ghost use Rattle.cam6_cycle.specs.declared.tables.Direction.TheVariants.{Backward};

    /// Makes the rule of a text. `code` must be the code of that text for this wiring.
    pub(crate) fn new(wiring: Wiring, text: Text, code: Code) -> CompiledRule
        requires { IsCodeFor wiring text code }
        ensures { result ≡ record { wiring = wiring; text = text; code = code } }
    {
        CompiledRule { wiring, text, code }
    }

    /// Returns what the rule is written for: its half, hood and minor assignment.
    pub fn wiring(&self) -> Wiring
        ensures { result ≡ self.now.wiring }
    {
        self.wiring
    }

    /// Lends the text by which the rule was defined.
    pub fn text(&self) -> &Text
        ensures { result.now ≡ self.now.text }
    {
        &self.text
    }

    /// Lends the code of the text.
    pub fn code(&self) -> &Code
        ensures code { result.now ≡ self.now.code }
        ensures meaning { IsCodeFor self.now.wiring self.now.text result.now }
    {
        &self.code
    }

    /// Fills `table` for steps in a direction. Forward, it becomes the table of the rule, without
    /// fail. Backward, `forward` becomes that table, whatever it held before, and `table` its
    /// inverse. If the rule can't be undone, returns why.
    pub(crate) fn fill_by(
        &self,
        direction: Direction,
        forward: &mut Table,
        table: &mut Table,
    ) -> Result<(), NotReversible>
        ensures table { IfOk result (λ _.
            IsTableBy direction self.now.wiring self.now.text table.new) }
        ensures refused { IfErr result (λ cause. let wiring = self.now.wiring in
            (direction ≡ Backward)
            × (cause_of (reading_of wiring self.now.text) wiring.hood wiring.minor ≡ Some cause)) }
    {
        fill_by(&self.code, self.wiring, direction, forward, table)
    }
}

/// Compiles a rule's text, and tries it at every address. Returns the rule. Otherwise returns the
/// text's first fault, the least address at which the rule stops, or `NoMemory`. `scratch` lends
/// memory for the trial, and its tables and marks stay.
pub(crate) fn compile_rule(
    alloc: Global,
    wiring: Wiring,
    text: Text,
    scratch: &mut Tables,
) -> Result<CompiledRule, NotCompiled>
    ensures verdict { IsVerdict wiring text result }
    // If nothing of the text is kept, no memory is needed.
    ensures unkept { keeps wiring text ≡ false → result ≢ Err NotCompiled.NoMemory }
    ensures scratch { scratch.new ≡ scratch.old }
{
    let code = scratch.compile(alloc, wiring, text.as_str())?;
    Ok(CompiledRule::new(wiring, text, code))
}
