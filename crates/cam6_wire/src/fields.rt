//! What stands at a key of a JSON object.
ghost use Rattle.std.specs.Prelude.{◌≡◌, option_map, option_and_then};
ghost use Rattle.serde_json.specs.View.{view, items_view};
ghost use Rattle.cam6_wire.specs.Fields.{has_size, number_at, text_at, bits_at};
ghost use Rattle.cam6_wire.specs.Fields.{numbers_of, of_states, colours_at};

use cam6_planes::{Bits, bits_of_digits};
use serde_json::Value;

/// Whether a value is an object of exactly `size` members.
pub(crate) fn has_size(value: &Value, size: usize) -> bool
    ensures { result ≡ has_size size (view value.now) }
{
    match value.as_object() {
        Some(members) => members.len() == size,
        None => false,
    }
}

/// Returns the whole number at a key, below 2 to the power of 64. Returns `None` if the value has
/// no such number there.
pub(crate) fn number_at(value: &Value, key: &str) -> Option<u64>
    ensures { result ≡ number_at key.now (view value.now) }
{
    value.get(key).and_then(Value::as_u64)
}

/// Returns the sixteen whole numbers at a key, a colour for each state. Returns `None` if the value
/// has no list of sixteen such numbers there.
pub(crate) fn colours_at(value: &Value, key: &str) -> Option<[u64; 16]>
    ensures { result ≡ colours_at key.now (view value.now) }
{
    let values = value.get(key).and_then(Value::as_array)?;
    colours_of(values)
}

/// Returns the numbers of a list of sixteen whole numbers, or `None` for any other list.
fn colours_of(values: &[Value]) -> Option<[u64; 16]>
    ensures { result ≡ option_and_then of_states (numbers_of (items_view values.now)) }
{
    if values.len() != 16 {
        return None;
    }
    let mut colours = [0; 16];
    for state in 0..16 {
        colours[state] = values[state].as_u64()?;
    }
    Some(colours)
}

/// Returns the text at a key, or `None` if the value has no text there.
pub(crate) fn text_at<'a>(value: &'a Value, key: &str) -> Option<&'a str>
    ensures { option_map (λ text. text.now) result ≡ text_at key.now (view value.now) }
{
    value.get(key).and_then(Value::as_str)
}

/// Returns the bits of a plane's row at a key, read from a text of hexadecimal digits of either
/// case. Returns `None` unless there are as many digits as a row of one of the sides has.
pub(crate) fn bits_at(value: &Value, key: &str) -> Option<Bits>
    ensures { result ≡ bits_at key.now (view value.now) }
{
    bits_of_digits(text_at(value, key)?.as_bytes())
}
