//! A JSON value as a saved machine.
ghost use Rattle.std.specs.Prelude.{◌≡◌, IfOk, option_and_then};
ghost use Rattle.serde_json.specs.View.{view, items_view};
ghost use Rattle.cam6_wire.specs.Loads.{bits_in, rows_of, rows_in, planes_of, of_four, planes_at};
ghost use Rattle.cam6_wire.specs.Loads.{rule_in, rules_in, rules_at, version_in, side_in};
ghost use Rattle.cam6_wire.specs.Loads.{saved_fields, saved_in};

use crate::entries::entries_at;
use crate::fields::{colours_at, has_size, number_at};
use crate::rules::rule_fields;
use crate::saved::Version;
use cam6_commands::{BitRows, NamedRule, NamedRules, SavedMachine};
use cam6_planes::{Bits, bits_of_digits};
use serde_json::Value;
use std::alloc::{AllocError, Global};

/// Returns the saved machine that a value stands for, in either version, or `None` if it stands for
/// none. Doesn't check its side, its position, or how many rows a plane has.
#[tactic(auto, unfolding(crate::specs::Loads::saved_in))]
pub(crate) fn saved_in(alloc: Global, value: &Value) -> Result<Option<SavedMachine>, AllocError>
    ensures { IfOk result (λ saved. saved ≡ saved_in (view value.now)) }
{
    let Some(version) = version_in(value) else {
        return Ok(None);
    };
    let Some(side) = side_in(version, value) else {
        return Ok(None);
    };
    saved_fields(alloc, side, value)
}

/// Returns the version of a saved machine's value, `First` for 1 and `Second` for 2. Returns `None`
/// if `version` is anything else or missing.
fn version_in(value: &Value) -> Option<Version>
    ensures { result ≡ version_in (view value.now) }
{
    match number_at(value, "version")? {
        1 => Some(Version::First),
        2 => Some(Version::Second),
        _ => None,
    }
}

/// Returns the number at `side` of a saved machine in the second version, or 256 in the first
/// version. Returns `None` if the number of members isn't the version's, 6 or 7, or the second
/// version has no number at `side`.
fn side_in(version: Version, value: &Value) -> Option<u64>
    ensures { result ≡ side_in version (view value.now) }
{
    match version {
        Version::First => { if has_size(value, 6) { Some(256) } else { None } }
        Version::Second => {
            if has_size(value, 7) {
                number_at(value, "side")
            } else {
                None
            }
        }
    }
}

/// Returns the saved machine of this side that an object's members `colours`, `cycle`, `planes`,
/// `position` and `rules` have. Returns `None` if one of them is missing or wrong.
fn saved_fields(alloc: Global, side: u64, value: &Value) -> Result<Option<SavedMachine>, AllocError>
    ensures { IfOk result (λ saved. saved ≡ saved_fields side (view value.now)) }
{
    let Some(colours) = colours_at(value, "colours") else {
        return Ok(None);
    };
    let Some(cycle) = entries_at(alloc, value, "cycle")? else {
        return Ok(None);
    };
    let Some(planes) = planes_at(alloc, value, "planes")? else {
        return Ok(None);
    };
    let Some(position) = number_at(value, "position") else {
        return Ok(None);
    };
    let Some(rules) = rules_at(alloc, value, "rules")? else {
        return Ok(None);
    };
    Ok(Some(SavedMachine {
        colours,
        cycle,
        planes,
        position,
        rules,
        side,
    }))
}

/// Returns the four planes at a key, or `None` if the value has no list of four planes there.
fn planes_at(alloc: Global, value: &Value, key: &str) -> Result<Option<[BitRows; 4]>, AllocError>
    ensures { IfOk result (λ planes. planes ≡ planes_at key.now (view value.now)) }
{
    match value.get(key).and_then(Value::as_array) {
        Some(values) => four_planes(alloc, values),
        None => Ok(None),
    }
}

/// Returns the planes of a list of exactly four planes, or `None` for any other list.
fn four_planes(alloc: Global, values: &[Value]) -> Result<Option<[BitRows; 4]>, AllocError>
    ensures { IfOk result (λ planes.
        planes ≡ option_and_then of_four (planes_of (items_view values.now))) }
{
    if values.len() != 4 {
        return Ok(None);
    }
    let Some(first) = rows_in(alloc, &values[0])? else {
        return Ok(None);
    };
    let Some(second) = rows_in(alloc, &values[1])? else {
        return Ok(None);
    };
    let Some(third) = rows_in(alloc, &values[2])? else {
        return Ok(None);
    };
    let Some(fourth) = rows_in(alloc, &values[3])? else {
        return Ok(None);
    };
    Ok(Some([first, second, third, fourth]))
}

/// Returns the rows of a plane, or `None` if the value is no list of rows. Doesn't check how many
/// they are.
fn rows_in(alloc: Global, value: &Value) -> Result<Option<BitRows>, AllocError>
    ensures { IfOk result (λ rows. rows ≡ rows_in (view value.now)) }
{
    match value.as_array() {
        Some(values) => rows_of(alloc, values),
        None => Ok(None),
    }
}

/// Returns the rows of a list of texts of hexadecimal digits, or `None` if one is not a row of any
/// side. Doesn't check how many they are, or that they have one side.
fn rows_of(alloc: Global, values: &[Value]) -> Result<Option<BitRows>, AllocError>
    ensures { IfOk result (λ rows. rows ≡ rows_of (items_view values.now)) }
{
    let mut rows = Vec::new(alloc);
    for value in values {
        match bits_in(value) {
            Some(row) => rows.push(row)?,
            None => return Ok(None),
        }
    }
    Ok(Some(BitRows::new(rows)))
}

/// Returns the bits that a row's text of hexadecimal digits stands for. Returns `None` if the value
/// is not a row of any side.
fn bits_in(value: &Value) -> Option<Bits>
    ensures { result ≡ bits_in (view value.now) }
{
    bits_of_digits(value.as_str()?.as_bytes())
}

/// Returns the rules at a key, or `None` if the value has no list of rules there.
fn rules_at(alloc: Global, value: &Value, key: &str) -> Result<Option<NamedRules>, AllocError>
    ensures { IfOk result (λ rules. rules ≡ rules_at key.now (view value.now)) }
{
    match value.get(key).and_then(Value::as_array) {
        Some(values) => rules_in(alloc, values),
        None => Ok(None),
    }
}

/// Returns the rules of a list, or `None` if one of its values is no rule.
fn rules_in(alloc: Global, values: &[Value]) -> Result<Option<NamedRules>, AllocError>
    ensures { IfOk result (λ rules. rules ≡ rules_in (items_view values.now)) }
{
    let mut rules = Vec::new(alloc);
    for value in values {
        match rule_in(alloc, value)? {
            Some(rule) => rules.push(rule)?,
            None => return Ok(None),
        }
    }
    Ok(Some(NamedRules::new(rules)))
}

/// Returns the rule of an object of the five members of a rule, with copies of its texts. Returns
/// `None` if a member is missing or wrong, or there is another one.
#[tactic(auto, unfolding(crate::specs::Loads::rule_in))]
fn rule_in(alloc: Global, value: &Value) -> Result<Option<NamedRule>, AllocError>
    ensures { IfOk result (λ rule. rule ≡ rule_in (view value.now)) }
{
    if !has_size(value, 5) {
        return Ok(None);
    }
    match rule_fields(value) {
        Some(rule) => Ok(Some(rule.copied(alloc)?)),
        None => Ok(None),
    }
}
