//! Saved machines as JSON values, and the lines that load them.
ghost use Rattle.std.specs.Prelude.{◌≡◌, IfOk, codes, map, string_bytes};
ghost use Rattle.std.specs.Str.{bytes_eq};
ghost use Rattle.serde_json.specs.Data.{array, object, member, no_members, put as put_member};
ghost use Rattle.serde_json.specs.View.{view, items_of, members_view};
ghost use Rattle.cam6_wire.specs.Numbers.{natural, naturals};
ghost use Rattle.cam6_wire.specs.Saved.{name_text, entry_data, rule_data, rows_data, saved_data};
ghost use Rattle.cam6_wire.specs.Saved.{load_data, load_bytes};
ghost use Rattle.cam6_wire.specs.Commands.{is_load_line};

use crate::objects::{with_member, with_text};
use cam6_commands::{BitRows, NamedEntry, NamedRule, SavedMachine, Text};
use cam6_planes::Bits;
use serde_json::{Map, Value, json};
use std::alloc::{AllocError, Global};

/// The versions of a saved machine's spelling. Both are read, and only the second is written.
#[derive(Clone, Copy, Debug, PartialEq, Eq)]
pub enum Version {
    /// Without a side, which is 256.
    First,
    Second,
}

/// How a line ends that loads a machine in the first version.
const END_OF_FIRST: &[u8] = b"\"version\":1}}";

/// Whether a line, without its LF, is exactly the line that loads this machine, in either version.
pub(crate) fn is_load_line(
    alloc: Global,
    line: &[u8],
    saved: &SavedMachine,
) -> Result<bool, AllocError>
    ensures { IfOk result (λ is. is ≡ is_load_line line.now saved.now) }
{
    // The line's end says which version to expect, so that a machine is seldom written twice.
    if line.ends_with(END_OF_FIRST) {
        if is_load_line_in(alloc, line, Version::First, saved)? {
            return Ok(true);
        }
        return is_load_line_in(alloc, line, Version::Second, saved);
    }
    if is_load_line_in(alloc, line, Version::Second, saved)? {
        return Ok(true);
    }
    is_load_line_in(alloc, line, Version::First, saved)
}

/// Whether a line, without its LF, is exactly the line that loads this machine in a version.
fn is_load_line_in(
    alloc: Global,
    line: &[u8],
    version: Version,
    saved: &SavedMachine,
) -> Result<bool, AllocError>
    ensures { IfOk result (λ is. is ≡ bytes_eq line.now (load_bytes version saved.now)) }
{
    let text = load_text(alloc, version, saved)?;
    Ok(line == text.as_bytes())
}

/// Returns the line that loads a machine in a version, without its LF.
fn load_text(alloc: Global, version: Version, saved: &SavedMachine) -> Result<String, AllocError>
    ensures { IfOk result (λ text. string_bytes text ≡ load_bytes version saved.now) }
{
    Ok(load_value(alloc, version, saved)?.to_string(alloc)?)
}

/// Returns the JSON value of the line that loads a machine in a version.
fn load_value(alloc: Global, version: Version, saved: &SavedMachine) -> Result<Value, AllocError>
    ensures { IfOk result (λ value. view value ≡ load_data (saved_data version saved.now)) }
{
    json!(in alloc; {"do": "load", "machine": machine_value(alloc, version, saved)?})
}

/// Returns a saved machine as a JSON value, in a version. The first version leaves out the side,
/// whatever it is.
pub fn machine_value(
    alloc: Global,
    version: Version,
    saved: &SavedMachine,
) -> Result<Value, AllocError>
    ensures { IfOk result (λ value. view value ≡ saved_data version saved.now) }
{
    let members = shared_members(alloc, saved)?;
    match version {
        Version::First => versioned_value(alloc, members, 1),
        Version::Second => {
            let members = with_member(alloc, members, "side", Value::from(saved.side))?;
            versioned_value(alloc, members, 2)
        }
    }
}

/// Returns the members that a saved machine has in both versions.
fn shared_members(alloc: Global, saved: &SavedMachine) -> Result<Map<String, Value>, AllocError>
    ensures { IfOk result (λ members. members_view members.entries
        ≡ member (codes "colours") (array (naturals saved.now.colours))
        (member (codes "cycle") (array (items_of (map entry_data saved.now.cycle)))
        (member (codes "planes") (array (items_of (map rows_data saved.now.planes)))
        (member (codes "position") (natural saved.now.position)
        (member (codes "rules") (array (items_of (map rule_data saved.now.rules))) no_members))))) }
{
    let colours = colours_value(alloc, &saved.colours)?;
    let members = with_member(alloc, Map::new(alloc), "colours", colours)?;
    let cycle = cycle_value(alloc, saved.cycle.as_slice())?;
    let members = with_member(alloc, members, "cycle", cycle)?;
    let planes = planes_value(alloc, &saved.planes)?;
    let members = with_member(alloc, members, "planes", planes)?;
    let members = with_member(alloc, members, "position", Value::from(saved.position))?;
    let rules = rules_value(alloc, saved.rules.as_slice())?;
    with_member(alloc, members, "rules", rules)
}
/// Returns the JSON object of these members and a member `version` with this number.
fn versioned_value(
    alloc: Global,
    members: Map<String, Value>,
    version: u8,
) -> Result<Value, AllocError>
    ensures { IfOk result (λ value. view value ≡ object
        (put_member (codes "version") (natural version) (members_view members.entries))) }
{
    let members = with_member(alloc, members, "version", Value::from(version))?;
    Ok(Value::Object(members))
}

/// Returns a JSON array of sixteen numbers, the colour of each state.
fn colours_value(alloc: Global, colours: &[u64; 16]) -> Result<Value, AllocError>
    ensures { IfOk result (λ value. view value ≡ array (naturals colours.now)) }
{
    let mut values = Vec::new(alloc);
    for colour in colours {
        values.push(Value::from(*colour))?;
    }
    Ok(Value::Array(values))
}

/// Returns a JSON array of an object for each entry.
fn cycle_value(alloc: Global, entries: &[NamedEntry]) -> Result<Value, AllocError>
    ensures { IfOk result (λ value. view value ≡ array (items_of (map entry_data entries.now))) }
{
    let mut values = Vec::new(alloc);
    for entry in entries {
        values.push(entry_value(alloc, entry)?)?;
    }
    Ok(Value::Array(values))
}

/// Returns a JSON object of `a`, `b`, `grid` and `phase`.
fn entry_value(alloc: Global, entry: &NamedEntry) -> Result<Value, AllocError>
    ensures { IfOk result (λ value. view value ≡ entry_data entry.now) }
{
    let members = with_text(alloc, Map::new(alloc), "a", name_text(&entry.a))?;
    let members = with_text(alloc, members, "b", name_text(&entry.b))?;
    let members = with_text(alloc, members, "grid", entry.grid.text())?;
    let members = with_member(alloc, members, "phase", Value::from(entry.phase))?;
    Ok(Value::Object(members))
}

/// Returns an entry's name for a half, or `-` if it has none.
fn name_text(name: &Option<Text>) -> &str
    ensures { result.now ≡ name_text name.now }
{
    match name {
        Some(name) => name.as_str(),
        None => "-",
    }
}

/// Returns a JSON array of an array of rows for each plane.
fn planes_value(alloc: Global, planes: &[BitRows; 4]) -> Result<Value, AllocError>
    ensures { IfOk result (λ value. view value ≡ array (items_of (map rows_data planes.now))) }
{
    let mut values = Vec::new(alloc);
    for rows in planes {
        values.push(rows_value(alloc, rows.as_slice())?)?;
    }
    Ok(Value::Array(values))
}

/// Returns a JSON array of the rows of a plane, each as its lower case hexadecimal digits.
fn rows_value(alloc: Global, rows: &[Bits]) -> Result<Value, AllocError>
    ensures { IfOk result (λ value. view value ≡ rows_data rows.now) }
{
    let mut values = Vec::with_capacity(alloc, rows.len())?;
    for row in rows {
        values.push(Value::String(hex::encode(alloc, row.as_slice())?))?;
    }
    Ok(Value::Array(values))
}

/// Returns a JSON array of an object for each rule.
fn rules_value(alloc: Global, rules: &[NamedRule]) -> Result<Value, AllocError>
    ensures { IfOk result (λ value. view value ≡ array (items_of (map rule_data rules.now))) }
{
    let mut values = Vec::new(alloc);
    for rule in rules {
        values.push(rule_value(alloc, rule)?)?;
    }
    Ok(Value::Array(values))
}

/// Returns a JSON object of `half`, `hood`, `minor`, `name` and `text`.
fn rule_value(alloc: Global, rule: &NamedRule) -> Result<Value, AllocError>
    ensures { IfOk result (λ value. view value ≡ rule_data rule.now) }
{
    let members = with_text(alloc, Map::new(alloc), "half", rule.wiring.half.text())?;
    let members = with_text(alloc, members, "hood", rule.wiring.hood.text())?;
    let members = with_text(alloc, members, "minor", rule.wiring.minor.text())?;
    let members = with_text(alloc, members, "name", rule.name.as_str())?;
    let members = with_text(alloc, members, "text", rule.text.as_str())?;
    Ok(Value::Object(members))
}
