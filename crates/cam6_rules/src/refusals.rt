//! Whether rules and cycles are accepted, before anything is done: names are looked for.
ghost use Rattle.std.specs.Prelude.{◌≡◌, ◌<◌, ◌≤◌, false, length, Some};
ghost use Rattle.std.specs.Result.{result_err};
ghost use Rattle.std.specs.Prelude.{IfOk};
ghost use Rattle.std.specs.List.{list_any};
ghost use Rattle.std.specs.Bool.{OnTrue};
ghost use Rattle.cam6_cycle.specs.Limits.{max_entries};
ghost use Rattle.cam6_model.specs.Refusals.{rule_refusal, cycle_refusal, is_named_cycle};
ghost use Rattle.cam6_model.specs.Refusals.{have_phases, drop_refusal};
ghost use Rattle.cam6_model.specs.Refusals.{first_refusal, entry_refusal, half_refusal};
ghost use Rattle.cam6_model.specs.Always.{HaveOwnNames};
ghost use Rattle.cam6_rules.specs.Numbers.{named_entries, number_in};
ghost use Rattle.cam6_rules.specs.Internal.Numbered.{rules_of, uses_number, is_number};
ghost use Rattle.cam6_rules.specs.Internal.Numbered.{rule_number};

use crate::compiled::CompiledRule;
use crate::named::{rule_number, wiring_of};
use cam6_commands::{Fault, MAX_RULES, NamedEntries, NamedEntry, Text};
use cam6_cycle::{Entry, HalfRule, MAX_ENTRIES};
use cam6_wiring::Half;
use indexmap::IndexMap;

/// Accepts the definition of a rule under a name. Returns `OutOfRange` if the name can't be a
/// rule's, and `RuleInUse` if the cycle uses a rule of that name. Returns `TooManyRules` if the
/// name is new and there are 16 rules. The text isn't looked at.
pub(crate) fn accept_rule(
    rules: &IndexMap<String, CompiledRule>,
    cycle: &[Entry],
    name: &Text,
) -> Result<(), Fault>
    requires names { HaveOwnNames (rules_of rules.now.entries) }
    ensures { result_err result ≡ rule_refusal (rules_of rules.now.entries)
        (named_entries (rules_of rules.now.entries) cycle.now) name.now }
{
    if !name.is_rule_name() {
        return Err(Fault::OutOfRange);
    }
    match rule_number(rules, name) {
        Some(number) if is_used(cycle, number) => Err(Fault::RuleInUse),
        Some(_) => Ok(()),
        None if rules.len() >= MAX_RULES => Err(Fault::TooManyRules),
        None => Ok(()),
    }
}

/// Returns the number of the rule that has the name, counted from 0, if it can be dropped. Returns
/// `NoRule` if no rule has the name, and `RuleInUse` if the cycle uses it.
pub(crate) fn accept_drop(
    rules: &IndexMap<String, CompiledRule>,
    cycle: &[Entry],
    name: &Text,
) -> Result<usize, Fault>
    requires names { HaveOwnNames (rules_of rules.now.entries) }
    ensures refusal { result_err result ≡ drop_refusal (rules_of rules.now.entries)
        (named_entries (rules_of rules.now.entries) cycle.now) name.now }
    ensures number { IfOk result (λ number.
        rule_number name.now (rules_of rules.now.entries) ≡ Some number) }
    ensures unused { IfOk result (λ number. list_any (uses_number number) cycle.now ≡ false) }
{
    match rule_number(rules, name) {
        Some(number) if is_used(cycle, number) => Err(Fault::RuleInUse),
        Some(number) => Ok(number),
        None => Err(Fault::NoRule),
    }
}

/// Whether a half of an entry of the cycle has the rule at this number.
pub(crate) fn is_used(cycle: &[Entry], number: usize) -> bool
    ensures { result ≡ list_any (uses_number number) cycle.now }
{
    cycle.iter().any(|entry| uses_number(*entry, number))
}

/// Whether a half of the entry has the rule at this number.
fn uses_number(entry: Entry, number: usize) -> bool
    ensures { result ≡ uses_number number entry }
{
    is_number(number, entry.a) || is_number(number, entry.b)
}

/// Whether a half has a rule, and it is the one at this number.
fn is_number(number: usize, rule: Option<HalfRule>) -> bool
    ensures { result ≡ is_number number (number_in rule) }
{
    match rule {
        Some(rule) => rule.number == number,
        None => false,
    }
}

/// Accepts the entries of a cycle. Returns `OutOfRange` if there isn't 1 to 16 of them, or one has
/// a phase above 3. Otherwise returns the fault of the first half whose name no rule has
/// (`NoRule`), or a rule of the other half (`WrongHalf`).
pub(crate) fn accept_cycle(
    rules: &IndexMap<String, CompiledRule>,
    entries: &NamedEntries,
) -> Result<(), Fault>
    ensures refusal { result_err result ≡ cycle_refusal (rules_of rules.now.entries) entries.now }
    ensures some { IfOk result (λ _. 0 < length entries.now) }
    ensures few { IfOk result (λ _. length entries.now ≤ max_entries) }
{
    let entries = entries.as_slice();
    if !is_named_cycle(entries) {
        return Err(Fault::OutOfRange);
    }
    accept_entries(rules, entries)
}

/// Whether these are 1 to 16 entries, each with a phase from 0 to 3.
fn is_named_cycle(entries: &[NamedEntry]) -> bool
    ensures value { result ≡ is_named_cycle entries.now }
    ensures some { OnTrue result (0 < length entries.now) }
    ensures few { OnTrue result (length entries.now ≤ max_entries) }
{
    !entries.is_empty() && entries.len() <= MAX_ENTRIES && have_phases(entries)
}

/// Whether each entry has a phase from 0 to 3. How many entries there are doesn't matter.
fn have_phases(entries: &[NamedEntry]) -> bool
    ensures { result ≡ have_phases entries.now }
{
    entries.iter().all(|entry| entry.phase < 4)
}

/// Accepts the rules that entries name. Returns the first fault, by entry, half A first: `NoRule`
/// if no rule has the name, and `WrongHalf` if one of the other half has it.
fn accept_entries(
    rules: &IndexMap<String, CompiledRule>,
    entries: &[NamedEntry],
) -> Result<(), Fault>
    ensures { result_err result ≡ first_refusal (rules_of rules.now.entries) entries.now }
{
    for entry in entries {
        accept_entry(rules, entry)?;
    }
    Ok(())
}

/// Accepts the rules that an entry names. Returns the first fault, half A first: `NoRule` if no
/// rule has the name, and `WrongHalf` if one of the other half has it.
fn accept_entry(rules: &IndexMap<String, CompiledRule>, entry: &NamedEntry) -> Result<(), Fault>
    ensures { result_err result ≡ entry_refusal (rules_of rules.now.entries) entry.now }
{
    accept_half(rules, Half::A, &entry.a)?;
    accept_half(rules, Half::B, &entry.b)
}

/// Accepts the rule that a half names, or a half without a name. Returns `NoRule` if no rule has
/// the name, and `WrongHalf` if one of the other half has it.
fn accept_half(
    rules: &IndexMap<String, CompiledRule>,
    half: Half,
    name: &Option<Text>,
) -> Result<(), Fault>
    ensures { result_err result ≡ half_refusal (rules_of rules.now.entries) half name.now }
{
    let Some(name) = name else {
        return Ok(());
    };
    match wiring_of(rules, name) {
        Some(wiring) if wiring.half == half => Ok(()),
        Some(_) => Err(Fault::WrongHalf),
        None => Err(Fault::NoRule),
    }
}
