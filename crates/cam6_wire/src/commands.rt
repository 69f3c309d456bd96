//! A line as a command.
ghost use Rattle.std.specs.Prelude.{◌≡◌, ◌<◌, ◌≤◌, length, Err, IfErr, IfOk, IfSome, IsOk, Some};
ghost use Rattle.std.specs.Prelude.{codes, false};
ghost use Rattle.std.specs.Option.{option_map_or};
ghost use Rattle.std.specs.Str.{bytes_eq};
ghost use Rattle.cam6_wire.specs.declared.faults.LineFault.TheVariants.{NoMemory};
ghost use Rattle.serde_json.specs.View.{view};
ghost use Rattle.cam6_commands.specs.RuleTexts.{HasText};
ghost use Rattle.cam6_wire.specs.Commands.{set_of, sole_number, rule_of, drop_of, listing_of};
ghost use Rattle.cam6_wire.specs.Commands.{cycle_of, row_of, map_of, save_of, by_word, shown_in};
ghost use Rattle.cam6_wire.specs.Commands.{load_of, line_by_word, command_in, said_by, is_spelled};
ghost use Rattle.cam6_wire.specs.Commands.{command, value_of, IsLinesFault, IsSaid};
ghost use Rattle.cam6_wire.specs.Commands.{keeps_text, takes_text};
ghost use Rattle.cam6_wire.specs.Limits.{limit_of};

use crate::entries::entries_at;
use crate::faults::LineFault;
use crate::fields::{bits_at, colours_at, has_size, number_at, text_at};
use crate::limits::line_limit;
use crate::loads::saved_in;
use crate::plain_lines::plain_command;
use crate::rules::rule_fields;
use crate::saved::is_load_line;
use cam6_commands::{Command, NamedRule, Text};
use serde_json::{Category, Value};
use std::alloc::{AllocError, Global};

/// Returns the command that a line, without its LF, is read as. Else returns the line's fault, or
/// `NoMemory` if an allocation fails. Doesn't check that planes, rows and other numbers are in
/// range.
pub fn read_command(alloc: Global, line: &[u8]) -> Result<Command, LineFault>
    ensures said { IsSaid result (command line.now) }
    // An empty line and one that is too long take no memory.
    ensures memory { result ≡ Err NoMemory →
        (0 < length line.now) × (length line.now ≤ limit_of line.now) }
    ensures texts { IfOk result (λ command. HasText command) }
{
    if let Some(command) = plain_command(line) {
        return Ok(command);
    }
    let value = line_value(alloc, line)?;
    let command = command_in(alloc, &value)?.ok_or(LineFault::NoCommand)?;
    if !is_spelled(alloc, line, &command)? {
        return Err(LineFault::OtherSpelling);
    }
    Ok(command)
}

/// Whether a line that is read as this command has an allowed spelling. A load must be spelled as
/// one of the two versions has it. Any other command may have any spelling. Fails only if an
/// allocation fails.
fn is_spelled(alloc: Global, line: &[u8], command: &Command) -> Result<bool, AllocError>
    ensures { IfOk result (λ is. is ≡ is_spelled line.now command.now) }
{
    match command {
        Command::Load { machine } => is_load_line(alloc, line, machine),
        _ => Ok(true),
    }
}

/// Returns the JSON value that a line is. Returns a fault if the line is too long, or is no JSON
/// value, or if an allocation fails.
pub(crate) fn line_value(alloc: Global, line: &[u8]) -> Result<Value, LineFault>
    ensures value { IfOk result (λ value. (length line.now ≤ limit_of line.now)
        × (value_of line.now ≡ Some (view value))) }
    ensures fault { IfErr result (λ fault. IsLinesFault fault line.now) }
    ensures memory { result ≡ Err NoMemory →
        (0 < length line.now) × (length line.now ≤ limit_of line.now) }
{
    let limit = line_limit(line);
    if line.len() > limit {
        return Err(LineFault::TooLong);
    }
    match Value::from_slice(alloc, line) {
        Ok(value) => Ok(value),
        Err(e) => match e.classify() {
            Category::Memory => Err(LineFault::NoMemory),
            _ => Err(LineFault::NoJson),
        },
    }
}

/// Returns the command that a JSON value stands for, a load or any other. Returns `None` if it is
/// no object whose `do` is a command's word, or if its other members are not those of the word.
fn command_in(alloc: Global, value: &Value) -> Result<Option<Command>, AllocError>
    ensures { IfOk result (λ command. command ≡ command_in (view value.now)) }
{
    let Some(word) = text_at(value, "do") else {
        return Ok(None);
    };
    if word == "load" {
        return load_of(alloc, value);
    }
    command_by_word(alloc, word, value)
}

/// Returns the load of an object of `do` and `machine`, whose `do` is `load`. Returns `None` if
/// `machine` is missing or no saved machine, or if there is another member.
#[tactic(auto, unfolding(crate::specs::Commands::load_of))]
fn load_of(alloc: Global, value: &Value) -> Result<Option<Command>, AllocError>
    ensures { IfOk result (λ command. command ≡ load_of (view value.now)) }
{
    if !has_size(value, 2) {
        return Ok(None);
    }
    let Some(machine) = value.get("machine") else {
        return Ok(None);
    };
    match saved_in(alloc, machine)? {
        Some(machine) => Ok(Some(Command::Load { machine })),
        None => Ok(None),
    }
}

/// Returns the command that a JSON value stands for, as an ask holds it. Returns `None` if it
/// stands for no command, or for one that loads a machine.
pub fn command_shown(alloc: Global, value: &Value) -> Result<Option<Command>, AllocError>
    ensures command { IfOk result (λ command. command ≡ shown_in (view value.now)) }
    // Only a rule, a name and entries take memory, after all of them were looked at.
    ensures memory { takes_text (view value.now) ≡ false → IsOk result }
    ensures texts { IfOk result (λ command. IfSome command HasText) }
{
    match text_at(value, "do") {
        Some(word) => command_by_word(alloc, word, value),
        None => Ok(None),
    }
}

/// Returns the command of this word, which is the value's `do`, from the object's other members.
/// Returns `None` if the word is `load` or no command's, or if the other members are not those of
/// the word.
fn command_by_word(alloc: Global, word: &str, value: &Value) -> Result<Option<Command>, AllocError>
    ensures command { IfOk result (λ command. command ≡ by_word word.now (view value.now)) }
    ensures memory { option_map_or keeps_text (by_word word.now (view value.now)) false ≡ false
        → IsOk result }
    ensures texts { IfOk result (λ command. IfSome command HasText) }
{
    match word {
        "rule" => rule_of(alloc, value),
        "drop" => drop_of(alloc, value),
        "cycle" => cycle_of(alloc, value),
        _ => Ok(command_without_text(word, value)),
    }
}

/// Returns the command of a word, which must not be `rule`, `drop` or `cycle`: they have texts to
/// copy. Returns `None` for `load` or an unknown word, or if the other members are not those of the
/// word.
#[tactic(auto, unfolding(crate::specs::Commands::clear_of, crate::specs::Commands::run_of, crate::specs::Commands::back_of, crate::specs::Commands::plane_of, crate::specs::Commands::side_of, crate::specs::Commands::colours_of, crate::specs::Commands::count_of))]
fn command_without_text(word: &str, value: &Value) -> Option<Command>
    requires no_rule { bytes_eq word.now (codes "rule") ≡ false }
    requires no_drop { bytes_eq word.now (codes "drop") ≡ false }
    requires no_cycle { bytes_eq word.now (codes "cycle") ≡ false }
    ensures { result ≡ by_word word.now (view value.now) }
{
    match word {
        "set" => set_of(value),
        "clear" => sole_number(value, "plane").map(|plane| Command::Clear { plane }),
        "rules" => listing_of(value),
        "run" => sole_number(value, "n").map(|n| Command::Run { n }),
        "back" => sole_number(value, "n").map(|n| Command::Back { n }),
        "row" => row_of(value),
        "plane" => sole_number(value, "plane").map(|plane| Command::Plane { plane }),
        "side" => sole_number(value, "side").map(|side| Command::Side { side }),
        "map" => map_of(value),
        "colours" => sole_number(value, "row").map(|row| Command::Colours { row }),
        "count" => sole_number(value, "mask").map(|mask| Command::Count { mask }),
        "save" => save_of(value),
        _ => None,
    }
}

/// Returns the command `set` of an object whose `do` is `set`. Its plane and row may be out of range.
/// Returns `None` unless the other members are `plane` and `row`, whole numbers from 0 to 2^64 - 1,
/// and `bits`, the digits of a row of some side.
#[tactic(auto, unfolding(crate::specs::Commands::set_of))]
fn set_of(value: &Value) -> Option<Command>
    ensures { result ≡ set_of (view value.now) }
{
    if !has_size(value, 4) {
        return None;
    }
    let plane = number_at(value, "plane")?;
    let row = number_at(value, "row")?;
    let bits = bits_at(value, "bits")?;
    Some(Command::Set { plane, row, bits })
}

/// Returns the whole number at a key of an object of two members. Returns `None` if there is no
/// whole number below 2 to the power of 64, or if the value has not two members.
#[tactic(auto, unfolding(crate::specs::Commands::sole_number))]
pub(crate) fn sole_number(value: &Value, key: &str) -> Option<u64>
    ensures { result ≡ sole_number key.now (view value.now) }
{
    if !has_size(value, 2) {
        return None;
    }
    number_at(value, key)
}

/// Returns the command `rule` of an object of `do` and the five members of a rule, with copies of
/// its texts. Returns `None` if a member is missing or wrong, or there is another one.
#[tactic(auto, unfolding(crate::specs::Commands::rule_of))]
fn rule_of(alloc: Global, value: &Value) -> Result<Option<Command>, AllocError>
    ensures command { IfOk result (λ command. command ≡ rule_of (view value.now)) }
    ensures memory { option_map_or keeps_text (rule_of (view value.now)) false ≡ false
        → IsOk result }
    ensures texts { IfOk result (λ command. IfSome command HasText) }
{
    if !has_size(value, 6) {
        return Ok(None);
    }
    let Some(rule) = rule_fields(value) else {
        return Ok(None);
    };
    let NamedRule { name, wiring, text } = rule.copied(alloc)?;
    Ok(Some(Command::Rule { name, wiring, text }))
}

/// Returns the command `drop` of an object of `do` and `name`, with a copy of the name. Returns
/// `None` if `name` is missing or no text, or there is another member.
#[tactic(auto, unfolding(crate::specs::Commands::drop_of))]
fn drop_of(alloc: Global, value: &Value) -> Result<Option<Command>, AllocError>
    ensures command { IfOk result (λ command. command ≡ drop_of (view value.now)) }
    ensures memory { option_map_or keeps_text (drop_of (view value.now)) false ≡ false
        → IsOk result }
    ensures texts { IfOk result (λ command. IfSome command HasText) }
{
    if !has_size(value, 2) {
        return Ok(None);
    }
    let Some(name) = text_at(value, "name") else {
        return Ok(None);
    };
    Ok(Some(Command::Drop {
        name: Text::new(String::from_str(alloc, name)?),
    }))
}

/// Returns the command `rules`, which lists the rules, of an object of `do` alone. Returns `None`
/// if there is another member.
#[tactic(auto, unfolding(crate::specs::Commands::listing_of))]
fn listing_of(value: &Value) -> Option<Command>
    ensures { result ≡ listing_of (view value.now) }
{
    if !has_size(value, 1) {
        return None;
    }
    Some(Command::Rules)
}

/// Returns the command `cycle` of an object of `do` and `entries`. Returns `None` if `entries` is
/// missing or no list of entries, or there is another member.
#[tactic(auto, unfolding(crate::specs::Commands::cycle_of))]
fn cycle_of(alloc: Global, value: &Value) -> Result<Option<Command>, AllocError>
    ensures command { IfOk result (λ command. command ≡ cycle_of (view value.now)) }
    ensures memory { option_map_or keeps_text (cycle_of (view value.now)) false ≡ false
        → IsOk result }
    ensures texts { IfOk result (λ command. IfSome command HasText) }
{
    if !has_size(value, 2) {
        return Ok(None);
    }
    match entries_at(alloc, value, "entries")? {
        Some(entries) => Ok(Some(Command::Cycle { entries })),
        None => Ok(None),
    }
}

/// Returns the command `row` of an object of `do`, `plane` and `row`. Returns `None` if a member is
/// missing or wrong, or there is another one.
#[tactic(auto, unfolding(crate::specs::Commands::row_of))]
fn row_of(value: &Value) -> Option<Command>
    ensures { result ≡ row_of (view value.now) }
{
    if !has_size(value, 3) {
        return None;
    }
    let plane = number_at(value, "plane")?;
    let row = number_at(value, "row")?;
    Some(Command::Row { plane, row })
}

/// Returns the command `map`, which sets the colours, of an object of `do` and `colours`. Returns
/// `None` if `colours` is no list of sixteen whole numbers, or there is another member.
#[tactic(auto, unfolding(crate::specs::Commands::map_of))]
fn map_of(value: &Value) -> Option<Command>
    ensures { result ≡ map_of (view value.now) }
{
    if !has_size(value, 2) {
        return None;
    }
    let colours = colours_at(value, "colours")?;
    Some(Command::Map { colours })
}

/// Returns the command `save` of an object of `do` alone. Returns `None` if there is another
/// member.
#[tactic(auto, unfolding(crate::specs::Commands::save_of))]
fn save_of(value: &Value) -> Option<Command>
    ensures { result ≡ save_of (view value.now) }
{
    if !has_size(value, 1) {
        return None;
    }
    Some(Command::Save)
}
