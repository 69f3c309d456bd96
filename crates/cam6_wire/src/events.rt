//! A line as an event.
ghost use Rattle.std.specs.Prelude.{◌≡◌, ◌<◌, ◌≤◌, length, Ok, Err, IfOk, IsOk, IfSome, false};
ghost use Rattle.std.specs.Prelude.{codes};
ghost use Rattle.std.specs.Str.{bytes_eq};
ghost use Rattle.std.specs.Option.{option_map_or};
ghost use Rattle.cam6_wire.specs.declared.faults.LineFault.TheVariants.{NoMemory};
ghost use Rattle.serde_json.specs.View.{view};
ghost use Rattle.cam6_wire.specs.Commands.{IsSaid};
ghost use Rattle.cam6_wire.specs.Events.{ask_of, evict_of, lease_of, event_by_word};
ghost use Rattle.cam6_wire.specs.Events.{event, event_in, keeps_text_of, takes_text_of};
ghost use Rattle.cam6_wire.specs.Limits.{limit_of};

use crate::commands::{command_shown, line_value, sole_number};
use crate::faults::LineFault;
use crate::fields::{has_size, number_at, text_at};
use cam6_commands::Event;
use serde_json::Value;
use std::alloc::{AllocError, Global};

/// Returns the event that a line, without its LF, is read as. Else returns the line's fault, or
/// `NoMemory` if an allocation fails. Does not check that its user and board exist.
pub fn read_event(alloc: Global, line: &[u8]) -> Result<Event, LineFault>
    ensures said { IsSaid result (event line.now) }
    // An empty line and one that is too long take no memory.
    ensures memory { result ≡ Err NoMemory →
        (0 < length line.now) × (length line.now ≤ limit_of line.now) }
{
    if let Some(board) = plain_band(line) {
        return Ok(Event::Band(board));
    }
    let value = line_value(alloc, line)?;
    event_shown(alloc, &value)?.ok_or(LineFault::NoCommand)
}

/// Returns the board of a band, if the line is `{"event":"band","board":`, one digit and `}`, as
/// most lines of a replay are. It is read without a JSON value. Returns `None` for any other line.
fn plain_band(line: &[u8]) -> Option<u64>
    ensures { IfSome result (λ board. event line.now ≡ Ok (Event.Band board)) }
{
    let rest = line.strip_prefix(b"{\"event\":\"band\",\"board\":".as_slice())?;
    if rest.len() != 2 || rest[1] != b'}' {
        return None;
    }
    let digit = rest[0];
    if digit < b'0' || b'9' < digit {
        return None;
    }
    Some(u64::from(digit - b'0'))
}

/// Returns the event that a JSON value stands for. Returns `None` if it is no object whose `event`
/// is a kind, or if its other members are not those of the kind.
pub fn event_shown(alloc: Global, value: &Value) -> Result<Option<Event>, AllocError>
    ensures event { IfOk result (λ event. event ≡ event_in (view value.now)) }
    // Only a rule, a name and entries of an ask take memory, after all of them were looked at.
    ensures memory { takes_text_of (view value.now) ≡ false → IsOk result }
{
    let Some(kind) = text_at(value, "event") else {
        return Ok(None);
    };
    event_by_word(alloc, kind, value)
}

/// Returns the event of this kind, which is the value's `event`, from the object's other members.
/// Returns `None` if there is no such kind, or if the other members are not those of the kind.
fn event_by_word(alloc: Global, kind: &str, value: &Value) -> Result<Option<Event>, AllocError>
    ensures event { IfOk result (λ event. event ≡ event_by_word kind.now (view value.now)) }
    ensures memory { option_map_or keeps_text_of (event_by_word kind.now (view value.now)) false
        ≡ false → IsOk result }
{
    match kind {
        "ask" => ask_of(alloc, value),
        _ => Ok(event_without_command(kind, value)),
    }
}

/// Returns the event of a kind, which must not be `ask`. Returns `None` if there is no such kind,
/// or if the other members are not those of the kind.
#[tactic(auto, unfolding(crate::specs::Events::band_of, crate::specs::Events::preempt_of, crate::specs::Events::fail_of, crate::specs::Events::repair_of, crate::specs::Events::collect_of))]
fn event_without_command(kind: &str, value: &Value) -> Option<Event>
    requires no_ask { bytes_eq kind.now (codes "ask") ≡ false }
    ensures { result ≡ event_by_word kind.now (view value.now) }
{
    match kind {
        "lease" => lease_of(value),
        "band" => sole_number(value, "board").map(Event::Band),
        "preempt" => sole_number(value, "board").map(Event::Preempt),
        "fail" => sole_number(value, "board").map(Event::Fail),
        "repair" => sole_number(value, "board").map(Event::Repair),
        "evict" => evict_of(value),
        "collect" => sole_number(value, "user").map(Event::Collect),
        _ => None,
    }
}

/// Returns the ask of an object of `event`, `user` and `command`. Returns `None` if a member is
/// missing or wrong, if there is another one, or if the command loads a machine.
#[tactic(auto, unfolding(crate::specs::Events::ask_of))]
fn ask_of(alloc: Global, value: &Value) -> Result<Option<Event>, AllocError>
    ensures event { IfOk result (λ event. event ≡ ask_of (view value.now)) }
    ensures memory { option_map_or keeps_text_of (ask_of (view value.now)) false ≡ false
        → IsOk result }
{
    if !has_size(value, 3) {
        return Ok(None);
    }
    let Some(user) = number_at(value, "user") else {
        return Ok(None);
    };
    let Some(shown) = value.get("command") else {
        return Ok(None);
    };
    match command_shown(alloc, shown)? {
        Some(command) => Ok(Some(Event::Ask(user, command))),
        None => Ok(None),
    }
}

/// Returns the lease of an object of `event`, `user` and `board`. Returns `None` if a member is
/// missing or wrong, or there is another one.
#[tactic(auto, unfolding(crate::specs::Events::lease_of))]
fn lease_of(value: &Value) -> Option<Event>
    ensures { result ≡ lease_of (view value.now) }
{
    if !has_size(value, 3) {
        return None;
    }
    let user = number_at(value, "user")?;
    let board = number_at(value, "board")?;
    Some(Event::Lease(user, board))
}

/// Returns the eviction of an object of `event` alone. Returns `None` if there is another member.
#[tactic(auto, unfolding(crate::specs::Events::evict_of))]
fn evict_of(value: &Value) -> Option<Event>
    ensures { result ≡ evict_of (view value.now) }
{
    if !has_size(value, 1) {
        return None;
    }
    Some(Event::Evict)
}
