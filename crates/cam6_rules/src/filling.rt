//! Tables are filled use by use, in the order in which a cycle needs them.
ghost use Rattle.std.specs.Prelude.{◌≡◌, ◌<◌, ◌≤◌, ◌+◌, length, None, Some, IfErr, IfSome, OnOk};
ghost use Rattle.std.specs.List.{slice_get};
ghost use Rattle.std.specs.Option.{is_some};
ghost use Rattle.std.specs.Result.{result_err};
ghost use mir.Val.{bool_byte};
ghost use Rattle.cam6_cycle.specs.Limits.{max_tables};
ghost use Rattle.cam6_cycle.specs.declared.tables.Direction.TheVariants.{Backward};
ghost use Rattle.cam6_model.specs.Always.{HaveOwnNames};
ghost use Rattle.cam6_model.specs.Refusals.{rule_cause};
ghost use Rattle.cam6_model.specs.TrueTables.{IsTableFor};
ghost use Rattle.cam6_rules.specs.Numbers.{rule_at, number_in, named_entries};
ghost use Rattle.cam6_rules.specs.Numbers.{AreTables};
ghost use Rattle.cam6_rules.specs.Filled.{AreTablesOf, way_refusal};
ghost use Rattle.cam6_rules.specs.Internal.Uses.{IsUse, IsUseOf, IsCauseOf};

use crate::rules::Rules;
use cam6_block::NotReversible;
use cam6_commands::Refusal;
use cam6_cycle::{Cycle, Direction, Entry, HalfRule, NeededTable};
use cam6_table::Table;
use cam6_wiring::Half;

/// Fills the tables that a cycle needs for steps in a direction, in their order. `tables` has 32.
/// Backward, if rules can't be undone, returns the entry, half and cause of the first of them, half
/// A before half B. `forward` is scratch for a table to invert, and may hold anything.
pub(crate) fn fill_entries(
    rules: &Rules,
    cycle: &Cycle,
    direction: Direction,
    forward: &mut Table,
    tables: &mut [Table],
) -> Result<(), Refusal>
    requires names { HaveOwnNames rules.now }
    requires room { length tables.old ≡ max_tables }
    ensures refusal { result_err result
        ≡ way_refusal direction rules.now (named_entries rules.now cycle.now) }
    ensures tables { OnOk result (AreTablesOf direction rules.now cycle.now tables.new) }
    ensures room { length tables.new ≡ length tables.old }
{
    let needed = cycle.tables_needed(direction);
    let entries = cycle.entries();
    for number in 0..entries.len() {
        let Entry { a, b, .. } = entries[number];
        let first = cycle.tables_before(number);
        if let Err(cause) = fill_half(rules, &needed, first, a, direction, forward, tables) {
            return Err(irreversible_refusal(number, Half::A, cause));
        }
        let second = first + usize::from(a.is_some());
        if let Err(cause) = fill_half(rules, &needed, second, b, direction, forward, tables) {
            return Err(irreversible_refusal(number, Half::B, cause));
        }
    }
    Ok(())
}

/// Returns the refusal of a cycle whose rule for this half of this entry can't be undone, with the
/// cause. Entries are counted from 0.
fn irreversible_refusal(entry: usize, half: Half, cause: NotReversible) -> Refusal
    ensures { result ≡ Refusal.NotReversible entry half cause }
{
    Refusal::NotReversible { entry, half, cause }
}

/// Fills the table at `index` in `tables` for a half's rule, the one that `needed` has there. If
/// the half has no rule, does nothing. If the rule can't be undone backward, returns why. All
/// tables before `index` must be filled.
fn fill_half(
    rules: &Rules,
    needed: &[NeededTable],
    index: usize,
    rule: Option<HalfRule>,
    direction: Direction,
    forward: &mut Table,
    tables: &mut [Table],
) -> Result<(), NotReversible>
    requires use_of { IsUseOf rule (slice_get needed.now index) }
    requires room { length needed.now ≤ length tables.old }
    requires before { AreTables direction index rules.now needed.now tables.old }
    ensures tables { OnOk result
        (AreTables direction (index + bool_byte (is_some rule)) rules.now needed.now tables.new) }
    ensures reversible { OnOk result
        (direction ≡ Backward → rule_cause (rule_at rules.now (number_in rule)) ≡ None) }
    ensures refused { IfErr result (λ cause. (direction ≡ Backward)
        × (rule_cause (rule_at rules.now (number_in rule)) ≡ Some cause)) }
    ensures room { length tables.new ≡ length tables.old }
{
    match rule {
        Some(_) => fill_use(rules, needed, index, direction, forward, tables),
        None => Ok(()),
    }
}

/// Fills the table at `index` in `tables` for the rule that `needed` has there. If an earlier table
/// is of the same rule, copies that one. If the rule can't be undone backward, returns why. All
/// tables before `index` must be filled.
fn fill_use(
    rules: &Rules,
    needed: &[NeededTable],
    index: usize,
    direction: Direction,
    forward: &mut Table,
    tables: &mut [Table],
) -> Result<(), NotReversible>
    requires index { index < length needed.now }
    requires room { length needed.now ≤ length tables.old }
    requires before { AreTables direction index rules.now needed.now tables.old }
    ensures tables { OnOk result
        (AreTables direction (index + 1) rules.now needed.now tables.new) }
    ensures refused { IfErr result (λ cause. (direction ≡ Backward)
        × IsCauseOf rules.now cause (slice_get needed.now index)) }
    ensures room { length tables.new ≡ length tables.old }
{
    let number = needed[index].rule.number;
    let (before, rest) = tables.split_at_mut(index);
    match first_use(&needed[..index], number) {
        Some(first) => {
            rest[0].copy_from(&before[first]);
            Ok(())
        }
        None => fill_table(rules, number, direction, forward, &mut rest[0]),
    }
}

/// Returns the index of the first of these tables that is of the rule at a number, counted from 0.
/// Returns `None` if none of them is.
fn first_use(needed: &[NeededTable], number: usize) -> Option<usize>
    ensures { IfSome result (λ first. IsUse number (slice_get needed.now first)) }
{
    needed.iter().position(|table| table.rule.number == number)
}

/// Fills `table` for the rule at this number, counted from 0, and steps in a direction. If the rule
/// can't be undone backward, returns why. If there is no such rule, `table` stays as it was.
fn fill_table(
    rules: &Rules,
    number: usize,
    direction: Direction,
    forward: &mut Table,
    table: &mut Table,
) -> Result<(), NotReversible>
    ensures table { OnOk result
        (IsTableFor direction (rule_at rules.now (Some number)) table.new) }
    ensures refused { IfErr result (λ cause. (direction ≡ Backward)
        × (rule_cause (rule_at rules.now (Some number)) ≡ Some cause)) }
{
    match rules.at(number) {
        Some(rule) => rule.fill_by(direction, forward, table),
        None => Ok(()),
    }
}
