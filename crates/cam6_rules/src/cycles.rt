//! A cycle by the numbers of its rules.
ghost use Rattle.std.specs.Prelude.{◌≡◌, ◌<◌, ◌≤◌, length, map};
ghost use Rattle.cam6_cycle.specs.Limits.{max_entries};
ghost use Rattle.cam6_model.specs.Cycles.{phase_of};
ghost use Rattle.cam6_rules.specs.Numbers.{entries_of};
ghost use Rattle.cam6_rules.specs.Internal.Numbered.{rules_of, number_if_named, numbered_entry};
ghost use Rattle.cam6_rules.specs.Internal.Numbered.{half_rule_at, closed_half, closed_entry};

use crate::compiled::CompiledRule;
use crate::named::{rule_number, wiring_at};
use arrayvec::ArrayVec;
use cam6_commands::{NamedEntry, Text};
use cam6_cycle::{Cycle, Entry, HalfRule, MAX_ENTRIES};
use cam6_wiring::Phase;
use indexmap::IndexMap;

/// Returns the entries of a cycle, at most 16, or an empty slice if no cycle is set.
pub fn entries_of(cycle: &Option<Cycle>) -> &[Entry]
    ensures entries { result.now ≡ entries_of cycle.now }
    ensures few { length result.now ≤ max_entries }
{
    match cycle {
        Some(cycle) => cycle.entries(),
        None => &[],
    }
}

/// Returns the cycle of these entries, 1 to 16, in which rules stand by their numbers instead of
/// their names. Numbers count the rules from 0. A half whose name no rule has gets no rule.
pub(crate) fn numbered_cycle(
    rules: &IndexMap<String, CompiledRule>,
    entries: &[NamedEntry],
) -> Cycle
    requires some { 0 < length entries.now }
    requires few { length entries.now ≤ max_entries }
    ensures { result ≡ map (numbered_entry (rules_of rules.now.entries)) entries.now }
{
    let mut numbered: ArrayVec<Entry, MAX_ENTRIES> = ArrayVec::new();
    for entry in entries {
        numbered.push(numbered_entry(rules, entry));
    }
    match Cycle::new(numbered.as_slice()) {
        Ok(cycle) => cycle,
        Err(_) => unreachable!(),
    }
}

/// Returns the cycle after the rule at a number is dropped: in each half, a rule with a greater
/// number has a number less by one. Returns `None` if there are no entries. There are at most 16.
pub(crate) fn renumbered_cycle(cycle: &[Entry], number: usize) -> Option<Cycle>
    requires { length cycle.now ≤ max_entries }
    ensures { entries_of result ≡ map (closed_entry number) cycle.now }
{
    let mut closed: ArrayVec<Entry, MAX_ENTRIES> = ArrayVec::new();
    for entry in cycle {
        closed.push(renumbered_entry(*entry, number));
    }
    Cycle::new(closed.as_slice()).ok()
}

/// Returns an entry after the rule at a number is dropped: in each half, a rule with a greater
/// number has a number less by one. Grid and phase stay.
fn renumbered_entry(entry: Entry, number: usize) -> Entry
    ensures { result ≡ closed_entry number entry }
{
    Entry {
        a: renumbered_half(entry.a, number),
        b: renumbered_half(entry.b, number),
        grid: entry.grid,
        phase: entry.phase,
    }
}

/// Returns a half's rule after the rule at a number is dropped: a greater number is less by one,
/// and any other stays. Returns `None` for a half without a rule.
fn renumbered_half(rule: Option<HalfRule>, number: usize) -> Option<HalfRule>
    ensures { result ≡ closed_half number rule }
{
    let rule = rule?;
    let number = if number < rule.number {
        rule.number - 1
    } else {
        rule.number
    };
    Some(HalfRule {
        number,
        hood: rule.hood,
        minor: rule.minor,
    })
}

/// Returns an entry with the numbers of the rules that it names, counted from 0. A half has no rule
/// if it names none, or if no rule has its name. A phase above 3 becomes 3.
fn numbered_entry(rules: &IndexMap<String, CompiledRule>, entry: &NamedEntry) -> Entry
    ensures { result ≡ numbered_entry (rules_of rules.now.entries) entry.now }
{
    Entry {
        a: half_rule_at(rules, number_if_named(rules, &entry.a)),
        b: half_rule_at(rules, number_if_named(rules, &entry.b)),
        grid: entry.grid,
        phase: phase_of(entry.phase),
    }
}

/// Returns the rule at a number, counted from 0, with its hood and minor assignment. Returns `None`
/// without a number, or if no rule is at it.
fn half_rule_at(rules: &IndexMap<String, CompiledRule>, number: Option<usize>) -> Option<HalfRule>
    ensures { result ≡ half_rule_at (rules_of rules.now.entries) number }
{
    let wiring = wiring_at(rules, number)?;
    Some(HalfRule {
        number: number?,
        hood: wiring.hood,
        minor: wiring.minor,
    })
}

/// Returns the number of the rule with this name, counted from 0. Returns `None` without a name, or
/// if no rule has it.
fn number_if_named(rules: &IndexMap<String, CompiledRule>, name: &Option<Text>) -> Option<usize>
    ensures { result ≡ number_if_named (rules_of rules.now.entries) name.now }
{
    match name {
        Some(name) => rule_number(rules, name),
        None => None,
    }
}

/// Returns the phase of a number from 0 to 3. A larger number gives phase 3.
fn phase_of(number: u64) -> Phase
    ensures { result ≡ phase_of number }
{
    match number {
        0 => Phase::P0,
        1 => Phase::P1,
        2 => Phase::P2,
        _ => Phase::P3,
    }
}
