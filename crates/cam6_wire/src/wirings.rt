//! What a rule is written for, as an object says it.
ghost use Rattle.std.specs.Prelude.{◌≡◌, codes, option_and_then};
ghost use Rattle.serde_json.specs.View.{view};
ghost use Rattle.cam6_wiring.specs.Texts.{half_named, hood_named, minor_named};
ghost use Rattle.cam6_wire.specs.Fields.{text_at};
ghost use Rattle.cam6_wire.specs.Wirings.{wiring_in};

use crate::fields::text_at;
use cam6_wiring::{Half, Hood, Minor, Wiring};
use serde_json::Value;

/// Returns the half, hood and minor that a rule is written for, from the object's keys `half`,
/// `hood` and `minor`. Returns `None` if one of them is missing or wrong.
#[tactic(auto, unfolding(crate::specs::Wirings::wiring_in))]
pub(crate) fn wiring_in(value: &Value) -> Option<Wiring>
    ensures { result ≡ wiring_in (view value.now) }
{
    let half = half_in(value)?;
    let hood = hood_in(value)?;
    let minor = minor_in(value)?;
    Some(Wiring { half, hood, minor })
}

/// Returns the half that the text at `half` names, or `None` if it names none.
fn half_in(value: &Value) -> Option<Half>
    ensures { result ≡ option_and_then half_named (text_at (codes "half") (view value.now)) }
{
    Half::named(text_at(value, "half")?)
}

/// Returns the hood that the text at `hood` names, or `None` if it names none.
fn hood_in(value: &Value) -> Option<Hood>
    ensures { result ≡ option_and_then hood_named (text_at (codes "hood") (view value.now)) }
{
    Hood::named(text_at(value, "hood")?)
}

/// Returns the minor that the text at `minor` names, or `None` if it names none.
fn minor_in(value: &Value) -> Option<Minor>
    ensures { result ≡ option_and_then minor_named (text_at (codes "minor") (view value.now)) }
{
    Minor::named(text_at(value, "minor")?)
}
