//! The entries of a cycle.
ghost use Rattle.std.specs.Prelude.{◌≡◌, false, IfOk, IsOk, is_some};
ghost use Rattle.std.specs.Option.{option_map_or};
ghost use Rattle.serde_json.specs.View.{view, items_view};
ghost use Rattle.cam6_wire.specs.Commands.{are_some};
ghost use Rattle.cam6_wire.specs.Entries.{rule_name_in, entry_in, entries_in, entries_at};

use crate::fields::{has_size, number_at, text_at};
use cam6_commands::{NamedEntries, NamedEntry, Text};
use cam6_wiring::Grid;
use serde_json::Value;
use std::alloc::{AllocError, Global};
use std::marker::Model;

/// Returns the cycle entries of the list at a key. Returns `None` if there is no list, or if one of
/// its values is no entry. Fails only if an allocation fails.
pub(crate) fn entries_at(
    alloc: Global,
    value: &Value,
    key: &str,
) -> Result<Option<NamedEntries>, AllocError>
    ensures entries { IfOk result (λ entries. entries ≡ entries_at key.now (view value.now)) }
    // Only a list with entries takes memory.
    ensures memory { option_map_or are_some (entries_at key.now (view value.now)) false ≡ false
        → IsOk result }
{
    match value.get(key).and_then(Value::as_array) {
        Some(values) => entries_in(alloc, values),
        None => Ok(None),
    }
}

/// Returns the cycle entries that values stand for, or `None` if one of them is no entry. Looks at
/// all of them before it allocates.
fn entries_in(alloc: Global, values: &[Value]) -> Result<Option<NamedEntries>, AllocError>
    ensures entries { IfOk result (λ entries. entries ≡ entries_in (items_view values.now)) }
    ensures memory { option_map_or are_some (entries_in (items_view values.now)) false ≡ false
        → IsOk result }
{
    if !are_entries(values) {
        return Ok(None);
    }
    let mut entries = Vec::new(alloc);
    for value in values {
        let Some(entry) = entry_in(value) else {
            unreachable!()
        };
        entries.push(entry.copied(alloc)?)?;
    }
    Ok(Some(NamedEntries::new(entries)))
}

/// Whether each value stands for a cycle entry.
fn are_entries(values: &[Value]) -> bool
    ensures { result ≡ is_some (entries_in (items_view values.now)) }
{
    for value in values {
        if entry_in(value).is_none() {
            return false;
        }
    }
    true
}

/// An entry whose names are in the value that shows it. Contracts see it as the entry.
#[derive(Drop)]
struct BorrowedEntry<'a> {
    a: &'a str,
    b: &'a str,
    grid: Grid,
    phase: u64,
}

impl<'a> Model for BorrowedEntry<'a> {
    ghost use Rattle.cam6_commands.specs.declared.commands.NamedEntry.{NamedEntry};
    ghost use Rattle.cam6_wire.specs.Entries.{rule_name_in};

    ghost Value = { NamedEntry };

    ghost view = { λ e. record {
      a = rule_name_in e.a.now;
      b = rule_name_in e.b.now;
      grid = e.grid;
      phase = e.phase;
    } };
}

impl<'a> BorrowedEntry<'a> {
    /// Returns the entry with copies of its names. A name `-` becomes `None`.
    fn copied(&self, alloc: Global) -> Result<NamedEntry, AllocError>
        ensures { IfOk result (λ entry. entry ≡ self.now) }
    {
        Ok(NamedEntry {
            a: rule_name_in(alloc, self.a)?,
            b: rule_name_in(alloc, self.b)?,
            grid: self.grid,
            phase: self.phase,
        })
    }
}

/// Returns the cycle entry that a value stands for, with names borrowed from it. Returns `None` if
/// it is no object of `a`, `b`, `grid` and `phase`, or one of them is wrong. Does not allocate.
#[tactic(auto, unfolding(crate::specs::Entries::entry_in))]
fn entry_in(value: &Value) -> Option<BorrowedEntry<'_>>
    ensures { result ≡ entry_in (view value.now) }
{
    if !has_size(value, 4) {
        return None;
    }
    let a = text_at(value, "a")?;
    let b = text_at(value, "b")?;
    let grid = text_at(value, "grid").and_then(Grid::named)?;
    let phase = number_at(value, "phase")?;
    Some(BorrowedEntry { a, b, grid, phase })
}

/// Returns a copy of the rule's name that an entry has for a half. Returns `None` for `-`, which
/// names no rule.
fn rule_name_in(alloc: Global, text: &str) -> Result<Option<Text>, AllocError>
    ensures { IfOk result (λ name. name ≡ rule_name_in text.now) }
{
    if text == "-" {
        return Ok(None);
    }
    Ok(Some(Text::new(String::from_str(alloc, text)?)))
}
