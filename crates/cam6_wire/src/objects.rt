//! Objects, made member by member. If an allocation fails, the members are dropped.
ghost use Rattle.std.specs.Prelude.{◌≡◌, IfOk};
ghost use Rattle.serde_json.specs.Data.{string, put as put_member};
ghost use Rattle.serde_json.specs.View.{view, members_view};

use serde_json::{Map, Value, put};
use std::alloc::{AllocError, Global};

/// Adds a member to an object's members, and returns them all. If the key is there, its value is
/// replaced.
pub(crate) fn with_member(
    alloc: Global,
    members: Map<String, Value>,
    key: &str,
    value: Value,
) -> Result<Map<String, Value>, AllocError>
    ensures { IfOk result (λ more. members_view more.entries
        ≡ put_member key.now (view value) (members_view members.entries)) }
{
    let mut more = members;
    put(&mut more, alloc, key, value)?;
    Ok(more)
}

/// Adds a member whose value is a copy of a text to an object's members, and returns them all. If
/// the key is there, its value is replaced.
pub(crate) fn with_text(
    alloc: Global,
    members: Map<String, Value>,
    key: &str,
    text: &str,
) -> Result<Map<String, Value>, AllocError>
    ensures { IfOk result (λ more. members_view more.entries
        ≡ put_member key.now (string text.now) (members_view members.entries)) }
{
    let value = Value::try_from_str(alloc, text)?;
    with_member(alloc, members, key, value)
}
