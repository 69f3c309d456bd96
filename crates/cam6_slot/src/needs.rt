//! What is needed for the tables of a lease.
ghost use Rattle.std.specs.Prelude.{◌≡◌, ◌<◌, ℕ, List, Some};
ghost use Rattle.std.specs.List.{slice_get};
ghost use Rattle.cam6_block.specs.RuleTables.{IsTableBy};
ghost use Rattle.cam6_slot.specs.Needs.{needed, needs_of, IsNeed, HasCode, CanBeUndone, IsTableNeeded};
ghost use Rattle.cam6_slot.specs.Needs.{way_told, wiring_told};

use crate::works::Work;
use cam6_cycle::{Direction, NeededTable};
use cam6_table::Code;
use cam6_wiring::{Half, Hood, Minor};

/// A table that a job uses: of which rule, and whether it is to undo the rule.
#[derive(Clone, Copy)]
pub struct Need<'a> {
    pub half: Half,
    pub hood: Hood,
    pub minor: Minor,
    pub text: &'a str,
    pub code: &'a Code,
    pub inverted: bool,
}

/// Returns which rule the table of a use is for, and whether it undoes the rule. `index` is the
/// use's number, from 0 to below `Work::needs`. The uses go entry by entry, half A's before half
/// B's.
pub(crate) fn need_at(work: &Work, index: u8) -> Need<'_>
    requires { index < needs_of work.now }
    ensures need { IsNeed work.now index result }
    ensures code { HasCode result }
    ensures undone { CanBeUndone result }
    ensures table { (entries : List ℕ) →
        IsTableBy (way_told result.inverted) (wiring_told result) result.text.now entries →
        IsTableNeeded work.now index entries }
{
    let table = needed_at(work, index);
    let Some(rule) = work.kept().rules().at(table.rule.number) else {
        unreachable!()
    };
    Need {
        half: table.half,
        hood: table.rule.hood,
        minor: table.rule.minor,
        text: rule.text().as_str(),
        code: rule.code(),
        inverted: is_inverted(table.direction),
    }
}

/// Returns what the machine's cycle has on the table of a use: its half, its rule and its
/// direction. `index` is the use's number, from 0 to below `Work::needs`.
fn needed_at(work: &Work, index: u8) -> NeededTable
    requires { index < needs_of work.now }
    ensures { slice_get (needed work.now) index ≡ Some result }
{
    work.cycle().tables_needed(work.direction())[usize::from(index)]
}

/// Whether steps in this direction use tables that undo their rules. Backward steps do, forward
/// steps don't.
fn is_inverted(direction: Direction) -> bool
    ensures { way_told result ≡ direction }
{
    match direction {
        Direction::Forward => false,
        Direction::Backward => true,
    }
}
