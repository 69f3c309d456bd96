//! Compiled rules by name, in the order in which their names came first.
ghost use Rattle.std.specs.Prelude.{◌≡◌, [], map, IfOk, IsOk, OnOk, OnErr};
ghost use Rattle.cam6_model.specs.Effects.{with_rule, without_rule};
ghost use Rattle.cam6_model.specs.Rules.{wiring_of};
ghost use Rattle.cam6_rules.specs.Internal.Numbered.{rules_of, rule_number, wiring_at};

use crate::compiled::CompiledRule;
use cam6_commands::Text;
use cam6_planes::NoMemory;
use cam6_wiring::Wiring;
use indexmap::IndexMap;
use std::alloc::Global;

/// Returns the number of the rule that has the name, counted from 0 in their order. Returns `None`
/// if no rule has it.
pub(crate) fn rule_number(rules: &IndexMap<String, CompiledRule>, name: &Text) -> Option<usize>
    ensures { result ≡ rule_number name.now (rules_of rules.now.entries) }
{
    rules.get_index_of(name.as_str())
}

/// Returns what the rule that has the name is written for: half, hood and minor assignment. Returns
/// `None` if no rule has the name.
pub(crate) fn wiring_of(rules: &IndexMap<String, CompiledRule>, name: &Text) -> Option<Wiring>
    ensures { result ≡ wiring_of name.now (rules_of rules.now.entries) }
{
    match rules.get(name.as_str()) {
        Some(rule) => Some(rule.wiring()),
        None => None,
    }
}

/// Returns what the rule at a number, counted from 0, is written for: half, hood and minor
/// assignment. Returns `None` without a number, or if no rule is at it.
pub(crate) fn wiring_at(
    rules: &IndexMap<String, CompiledRule>,
    number: Option<usize>,
) -> Option<Wiring>
    ensures { result ≡ wiring_at (rules_of rules.now.entries) number }
{
    let (_, rule) = rules.get_index(number?)?;
    Some(rule.wiring())
}

/// Drops the rule that has the name, if there is one. The number of each later rule becomes less by
/// one.
pub(crate) fn remove(rules: &mut IndexMap<String, CompiledRule>, name: &Text)
    ensures { rules_of rules.new.entries ≡ without_rule name.now (rules_of rules.old.entries) }
{
    rules.shift_remove(name.as_str());
}

/// Returns copies of the rules' names, in the order of the rules. Returns `NoMemory` only if an
/// allocation fails. No rules need no memory.
pub(crate) fn names_of(
    alloc: Global,
    rules: &IndexMap<String, CompiledRule>,
) -> Result<Vec<Text>, NoMemory>
    ensures names { IfOk result (λ names.
        names.items ≡ map (λ rule. rule.name) (rules_of rules.now.entries)) }
    // Listing no rules needs no memory.
    ensures none { rules_of rules.now.entries ≡ [] → IsOk result }
{
    let mut names = Vec::with_capacity(alloc, rules.len())?;
    for number in 0..rules.len() {
        let Some((name, _)) = rules.get_index(number) else {
            unreachable!()
        };
        names.push(Text::new(String::from_str(alloc, name.as_str())?))?;
    }
    Ok(names)
}

/// Stores a rule under a name, in the place of the rule that has the name, or else after all
/// others. If an allocation fails, nothing changes.
pub(crate) fn put(
    rules: &mut IndexMap<String, CompiledRule>,
    name: Text,
    rule: CompiledRule,
) -> Result<(), NoMemory>
    ensures ok { OnOk result (rules_of rules.new.entries ≡ with_rule
        (record { name = name; wiring = rule.wiring; text = rule.text })
        (rules_of rules.old.entries)) }
    ensures err { OnErr result (rules.new.entries ≡ rules.old.entries) }
{
    rules.insert(name.into_string(), rule)?;
    Ok(())
}
