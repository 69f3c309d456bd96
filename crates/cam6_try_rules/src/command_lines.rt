//! A command as the plainest line that says it: compact, its keys in byte order, its digits small.

use cam6_commands::{Command, NamedEntry, SavedMachine, Text};
use cam6_wire::{Version, machine_value};
use cam6_wiring::Wiring;
use serde_json::{Value, json};
use std::alloc::{AllocError, Global};

/// Returns the plainest line that is read as this command, without its LF: compact, its keys in
/// byte order, its digits small.
pub fn line_of(alloc: Global, command: &Command) -> Result<String, AllocError> {
    match command {
        Command::Set { plane, row, bits } => set_line(alloc, *plane, *row, bits.as_slice()),
        Command::Clear { plane } => format!(in alloc; r#"{{"do":"clear","plane":{plane}}}"#),
        Command::Rule { name, wiring, text } => line(alloc, rule_value(alloc, name, *wiring, text)),
        Command::Drop { name } => line(alloc, drop_value(alloc, name)),
        Command::Rules => String::from_str(alloc, r#"{"do":"rules"}"#),
        Command::Cycle { entries } => line(alloc, cycle_value(alloc, entries.as_slice())),
        Command::Run { n } => format!(in alloc; r#"{{"do":"run","n":{n}}}"#),
        Command::Back { n } => format!(in alloc; r#"{{"do":"back","n":{n}}}"#),
        Command::Row { plane, row } => {
            format!(in alloc; r#"{{"do":"row","plane":{plane},"row":{row}}}"#)
        }
        Command::Plane { plane } => format!(in alloc; r#"{{"do":"plane","plane":{plane}}}"#),
        Command::Side { side } => format!(in alloc; r#"{{"do":"side","side":{side}}}"#),
        Command::Map { colours } => line(alloc, map_value(alloc, colours)),
        Command::Colours { row } => format!(in alloc; r#"{{"do":"colours","row":{row}}}"#),
        Command::Count { mask } => format!(in alloc; r#"{{"do":"count","mask":{mask}}}"#),
        Command::Save => String::from_str(alloc, r#"{"do":"save"}"#),
        Command::Load { machine } => line(alloc, load_value(alloc, machine)),
    }
}

/// Returns the JSON text of a value as a line without its LF. Returns the error that `value` is, if
/// it is one.
fn line(alloc: Global, value: Result<Value, AllocError>) -> Result<String, AllocError> {
    value?.to_string(alloc)
}

/// Returns the line of a `set` command, without its LF. Its bits are two small hexadecimal digits
/// for each of these bytes, the upper four bits first.
fn set_line(alloc: Global, plane: u64, row: u64, bits: &[u8]) -> Result<String, AllocError> {
    let bits = hex::encode(alloc, bits)?;
    format!(in alloc; r#"{{"bits":"{bits}","do":"set","plane":{plane},"row":{row}}}"#)
}

/// Returns the JSON value of a `rule` command.
fn rule_value(
    alloc: Global,
    name: &Text,
    wiring: Wiring,
    text: &Text,
) -> Result<Value, AllocError> {
    json!(in alloc; {
        "do": "rule",
        "half": wiring.half.text(),
        "hood": wiring.hood.text(),
        "minor": wiring.minor.text(),
        "name": name.as_str(),
        "text": text.as_str()
    })
}

/// Returns the JSON value of a `drop` command.
fn drop_value(alloc: Global, name: &Text) -> Result<Value, AllocError> {
    json!(in alloc; {"do": "drop", "name": name.as_str()})
}

/// Returns the JSON value of a `load` command. Its machine is written in the second version.
fn load_value(alloc: Global, machine: &SavedMachine) -> Result<Value, AllocError> {
    let machine = machine_value(alloc, Version::Second, machine)?;
    json!(in alloc; {"do": "load", "machine": machine})
}

/// Returns the JSON value of a `cycle` command.
fn cycle_value(alloc: Global, entries: &[NamedEntry]) -> Result<Value, AllocError> {
    let mut values = Vec::new(alloc);
    for entry in entries {
        values.push(entry_value(alloc, entry)?)?;
    }
    let entries = Value::Array(values);
    json!(in alloc; {"do": "cycle", "entries": entries})
}

/// Returns the JSON value of a `map` command.
fn map_value(alloc: Global, colours: &[u64; 16]) -> Result<Value, AllocError> {
    let mut values = Vec::new(alloc);
    for colour in colours.as_slice() {
        values.push(json!(in alloc; *colour)?)?;
    }
    let colours = Value::Array(values);
    json!(in alloc; {"colours": colours, "do": "map"})
}

/// Returns the JSON value of one entry of a cycle.
fn entry_value(alloc: Global, entry: &NamedEntry) -> Result<Value, AllocError> {
    let a = entry.a.as_ref().map_or("-", Text::as_str);
    let b = entry.b.as_ref().map_or("-", Text::as_str);
    let grid = entry.grid.text();
    json!(in alloc; {"a": a, "b": b, "grid": grid, "phase": entry.phase})
}
