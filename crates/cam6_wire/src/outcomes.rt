//! What comes of events as lines of JSON.
ghost use Rattle.std.specs.Prelude.{◌≡◌, ◌<◌, ◌^◌, ◌++◌, ◌∷◌, [], None, Some, IfOk, IfSome};
ghost use Rattle.std.specs.Prelude.{codes, decimal, string_bytes};
ghost use Rattle.serde_json.specs.Read.{read};
ghost use Rattle.serde_json.specs.View.{view};
ghost use Rattle.cam6_wire.specs.Outcomes.{WasDone, left_after, outcome_bytes, outcome_data};
ghost use Rattle.cam6_wire.specs.Outcomes.{refused};

use crate::replies::{ok_value, ok_value_with, reply_value};
use cam6_commands::{Outcome, Refused, Reply};
use cam6_planes::NoMemory;
use serde_json::{Value, json};
use std::alloc::{AllocError, Global};

/// Returns the line that reports an event's outcome, without its LF. If an allocation failed for
/// the event, the line is a refusal with the number 0.
pub fn outcome_text(alloc: Global, outcome: &Outcome) -> Result<String, NoMemory>
    ensures text { IfOk result (λ text. string_bytes text ≡ outcome_bytes outcome.now) }
    ensures value { IfOk result (λ text.
        read (string_bytes text) ≡ Some (outcome_data outcome.now)) }
{
    match outcome {
        // Each band of a run reports this, so its text is made without a JSON value in between.
        Outcome::Banded(left) => Ok(band_text(alloc, *left)?),
        _ => Ok(outcome_value(alloc, outcome)?.to_string(alloc)?),
    }
}

/// Returns the line of an event that was refused, or ran out of memory (number 0), with its LF.
/// Returns `None` for an event that was done. Does not allocate.
pub fn undone_line(outcome: &Outcome) -> Option<&'static str>
    ensures line { IfSome result (λ line. line.now ≡ outcome_bytes outcome.now ++ 10 ∷ []) }
    ensures done { result ≡ None → WasDone outcome.now }
{
    match outcome {
        Outcome::NoMemory => Some("{\"refused\":0}\n"),
        Outcome::Refused(reason) => Some(refused_line(*reason)),
        _ => None,
    }
}

/// Returns the line that reports why an event is refused, by a number from 101 to 109, with its LF.
/// Does not allocate.
fn refused_line(reason: Refused) -> &'static str
    ensures { result.now ≡ outcome_bytes (Outcome.Refused reason) ++ 10 ∷ [] }
{
    match reason {
        Refused::NoSuchNumber => "{\"refused\":101}\n",
        Refused::UserIsWaiting => "{\"refused\":102}\n",
        Refused::UserIsNotQueued => "{\"refused\":103}\n",
        Refused::BoardIsNotIdle => "{\"refused\":104}\n",
        Refused::BoardHoldsNothing => "{\"refused\":105}\n",
        Refused::BoardIsDead => "{\"refused\":106}\n",
        Refused::BoardIsNotDead => "{\"refused\":107}\n",
        Refused::NothingIsFinished => "{\"refused\":108}\n",
        Refused::NoTableIsCached => "{\"refused\":109}\n",
    }
}

/// Returns the line of a band after which so many bands are left, without its LF. Its keys are in
/// byte order.
fn band_text(alloc: Global, left: u64) -> Result<String, AllocError>
    ensures text { IfOk result (λ text. string_bytes text
        ≡ codes "{\"left\":" ++ decimal left ++ codes ",\"ok\":\"band\"}") }
    ensures fits { left < 2 ^ 64 }
{
    format!(in alloc; "{{\"left\":{left},\"ok\":\"band\"}}")
}

/// Returns the JSON value of an outcome. The value of an event that ran out of memory is a refusal
/// with number 0.
fn outcome_value(alloc: Global, outcome: &Outcome) -> Result<Value, AllocError>
    ensures { IfOk result (λ value. view value ≡ outcome_data outcome.now) }
{
    match outcome {
        Outcome::NoMemory => refused_value(alloc, 0),
        Outcome::Refused(reason) => refused_value(alloc, reason.number()),
        Outcome::Asked(left) => left_value(alloc, "ask", *left),
        Outcome::Leased(left) => left_value(alloc, "lease", *left),
        Outcome::Banded(left) => left_value(alloc, "band", *left),
        Outcome::Preempted(left) => left_value(alloc, "preempt", *left),
        Outcome::Failed(Some(left)) => left_value(alloc, "fail", *left),
        Outcome::Failed(None) => ok_value(alloc, "fail"),
        Outcome::Repaired => ok_value(alloc, "repair"),
        Outcome::Evicted => ok_value(alloc, "evict"),
        Outcome::Collected(reply) => collected_value(alloc, reply),
    }
}

/// Returns the JSON value of a refused event: `refused` with this number.
fn refused_value(alloc: Global, number: u8) -> Result<Value, AllocError>
    ensures { IfOk result (λ value. view value ≡ refused number) }
{
    json!(in alloc; {"refused": number})
}

/// Returns the JSON value of a collect: `ok` with `collect`, and `reply` with the value of this
/// reply.
fn collected_value(alloc: Global, reply: &Reply) -> Result<Value, AllocError>
    ensures { IfOk result (λ value. view value ≡ outcome_data (Outcome.Collected reply.now)) }
{
    let reply = reply_value(alloc, reply)?;
    ok_value_with(alloc, "collect", "reply", reply)
}

/// Returns the JSON value of an event after which so many bands are left: `ok` with this word, and
/// `left` with their number.
fn left_value(alloc: Global, word: &str, left: u64) -> Result<Value, AllocError>
    ensures { IfOk result (λ value. view value ≡ left_after left word.now) }
{
    ok_value_with(alloc, word, "left", Value::from(left))
}
