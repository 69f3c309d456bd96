//! Rules and the entries of a cycle as they are saved.
ghost use Rattle.std.specs.Prelude.{◌≡◌, IfOk};
ghost use Rattle.cam6_rules.specs.Internal.Numbered.{rules_of};
ghost use Rattle.cam6_rules.specs.Numbers.{rule_at, number_in, name_of, named_entry, named_entries};

use crate::compiled::CompiledRule;
use cam6_commands::{NamedEntries, NamedEntry, NamedRule, NamedRules, Text};
use cam6_cycle::{Entry, HalfRule};
use cam6_planes::NoMemory;
use indexmap::IndexMap;
use std::alloc::Global;

/// Returns copies of the rules as a saved machine has them, in their order.
pub(crate) fn saved_rules(
    alloc: Global,
    rules: &IndexMap<String, CompiledRule>,
) -> Result<NamedRules, NoMemory>
    ensures { IfOk result (λ saved. saved ≡ rules_of rules.now.entries) }
{
    let mut saved = Vec::with_capacity(alloc, rules.len())?;
    for number in 0..rules.len() {
        let Some((name, rule)) = rules.get_index(number) else {
            unreachable!()
        };
        saved.push(NamedRule {
            name: Text::new(String::from_str(alloc, name.as_str())?),
            wiring: rule.wiring(),
            text: Text::new(String::from_str(alloc, rule.text().as_str())?),
        })?;
    }
    Ok(NamedRules::new(saved))
}

/// Returns the entries of a cycle as a saved machine has them, with the names of their rules
/// instead of their numbers. A half without a rule, or with a number that no rule has, has no name.
pub(crate) fn saved_entries(
    alloc: Global,
    rules: &IndexMap<String, CompiledRule>,
    cycle: &[Entry],
) -> Result<NamedEntries, NoMemory>
    ensures { IfOk result (λ saved.
        saved ≡ named_entries (rules_of rules.now.entries) cycle.now) }
{
    let mut saved = Vec::with_capacity(alloc, cycle.len())?;
    for entry in cycle {
        saved.push(named_entry(alloc, rules, *entry)?)?;
    }
    Ok(NamedEntries::new(saved))
}

/// Returns an entry with the names of its rules instead of their numbers. A half without a rule, or
/// with a number that no rule has, has no name.
fn named_entry(
    alloc: Global,
    rules: &IndexMap<String, CompiledRule>,
    entry: Entry,
) -> Result<NamedEntry, NoMemory>
    ensures { IfOk result (λ named. named ≡ named_entry (rules_of rules.now.entries) entry) }
{
    let a = name_at(alloc, rules, entry.a)?;
    let b = name_at(alloc, rules, entry.b)?;
    Ok(NamedEntry {
        a,
        b,
        grid: entry.grid,
        phase: u64::from(entry.phase.number()),
    })
}

/// Returns a copy of the name of a half's rule. Returns `Ok(None)` if the half has no rule, or if
/// no rule has its number.
fn name_at(
    alloc: Global,
    rules: &IndexMap<String, CompiledRule>,
    rule: Option<HalfRule>,
) -> Result<Option<Text>, NoMemory>
    ensures { IfOk result (λ name.
        name ≡ name_of (rule_at (rules_of rules.now.entries) (number_in rule))) }
{
    let Some(rule) = rule else {
        return Ok(None);
    };
    match rules.get_index(rule.number) {
        Some((name, _)) => Ok(Some(Text::new(String::from_str(alloc, name.as_str())?))),
        None => Ok(None),
    }
}
