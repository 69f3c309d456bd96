//! What a line of a reply says.
ghost use Rattle.std.specs.Prelude.{◌≡◌, ◌<◌, IfOk, IsErrOf, Err, None, Some, length};
ghost use Rattle.std.specs.Prelude.{option_map, option_and_then};
ghost use Rattle.serde_json.specs.View.{view, items_view};
ghost use Rattle.serde_json.specs.Find.{as_str};
ghost use Rattle.cam6_show_frames.specs.Replies.{said, said_in, reply_in, by_word, colours_in, plane_in};
ghost use Rattle.cam6_show_frames.specs.Replies.{text_at, rows_of_texts, bits_of_text, frame_of_rows};
ghost use Rattle.cam6_show_frames.specs.LineValue.{value_of};
ghost use Rattle.cam6_show_frames.specs.declared.replies.Unsaid.TheVariants.{NoReply, NoMemory};

use crate::frames::{Frame, RowInColours, frame_of_rows};
use crate::rows::{bits_of_text, colours_of_text};
use serde_json::{Category, Value};
use std::alloc::{AllocError, Global};

/// What a reply says of cells in colours.
#[derive(Debug, Drop)]
pub enum ReplyCells {
    /// A row of cells.
    Colours(RowInColours),
    /// All rows of a torus.
    Plane(Frame),
    /// Nothing.
    Other,
}

/// Why a line says nothing.
#[derive(Clone, Copy, Debug, PartialEq, Eq)]
pub enum Unsaid {
    /// It isn't a reply.
    NoReply,
    /// An allocation for it failed.
    NoMemory,
}

/// Reads the line of a reply. Returns its row of cells, its plane, or `Other` if it has neither.
/// Returns `NoReply` if the line isn't JSON, if the reply is no object, or if its row or plane is
/// malformed. Returns `NoMemory` if an allocation fails.
#[tactic(auto, using(crate::proofs::Saying::said_by_value, crate::proofs::Saying::not_empty))]
pub fn read_reply(alloc: Global, line: &[u8]) -> Result<ReplyCells, Unsaid>
    ensures said { IfOk result (λ reply. said line.now ≡ Some reply) }
    ensures no_reply { result ≡ Err NoReply → said line.now ≡ None }
    // An empty line takes no memory.
    ensures memory { result ≡ Err NoMemory → 0 < length line.now }
{
    let value = line_value(alloc, line)?;
    parse_reply(alloc, &value)
}

/// Returns the cells that a reply's JSON value has, or `Other`. Returns `NoReply` if the reply is
/// no object, or if its row or plane is malformed. Returns `NoMemory` if an allocation fails.
fn parse_reply(alloc: Global, value: &Value) -> Result<ReplyCells, Unsaid>
    ensures said { IfOk result (λ reply. said_in (view value.now) ≡ Some reply) }
    ensures no_reply { result ≡ Err NoReply → said_in (view value.now) ≡ None }
{
    match said_in(alloc, value) {
        Ok(Some(reply)) => Ok(reply),
        Ok(None) => Err(Unsaid::NoReply),
        Err(_) => Err(Unsaid::NoMemory),
    }
}

/// Parses a line as a JSON value. Returns `NoReply` if it is none, and `NoMemory` if an allocation
/// fails.
fn line_value(alloc: Global, line: &[u8]) -> Result<Value, Unsaid>
    ensures value { IfOk result (λ value. value_of line.now ≡ Some (view value)) }
    ensures no_reply { result ≡ Err NoReply → value_of line.now ≡ None }
    ensures memory { result ≡ Err NoMemory → 0 < length line.now }
{
    match Value::from_slice(alloc, line) {
        Ok(value) => Ok(value),
        Err(e) => match e.classify() {
            Category::Memory => Err(Unsaid::NoMemory),
            _ => Err(Unsaid::NoReply),
        },
    }
}

/// Returns the cells of the reply at the value's key `reply`, or of the value itself if it has no
/// such key. Returns `None` if that is no object, or if its row or plane is malformed.
fn said_in(alloc: Global, value: &Value) -> Result<Option<ReplyCells>, AllocError>
    ensures { IfOk result (λ reply. reply ≡ said_in (view value.now)) }
{
    match value.get("reply") {
        Some(inner) => reply_in(alloc, inner),
        None => reply_in(alloc, value),
    }
}

/// Returns the cells of a reply. They are `Other` if no text is at its key `ok`. Returns `None` if
/// the value is no object, or if its row or plane is malformed.
fn reply_in(alloc: Global, value: &Value) -> Result<Option<ReplyCells>, AllocError>
    ensures { IfOk result (λ reply. reply ≡ reply_in (view value.now)) }
{
    if !value.is_object() {
        return Ok(None);
    }
    match text_at(value, "ok") {
        Some(word) => by_word(alloc, word, value),
        None => Ok(Some(ReplyCells::Other)),
    }
}

/// Returns the cells of a reply with this word at `ok`. They are `Other` for all words but
/// `colours` and `plane`. Returns `None` if its row or plane is malformed.
fn by_word(alloc: Global, word: &str, value: &Value) -> Result<Option<ReplyCells>, AllocError>
    ensures { IfOk result (λ reply. reply ≡ by_word (Some word.now) (view value.now)) }
{
    match word {
        "colours" => Ok(colours_in(value)),
        "plane" => plane_in(alloc, value),
        _ => Ok(Some(ReplyCells::Other)),
    }
}

/// Returns the row at the key `colours` of a reply. Returns `None` if no text is there, or if it
/// isn't the digits of a row.
fn colours_in(value: &Value) -> Option<ReplyCells>
    ensures { result ≡ colours_in (view value.now) }
{
    let text = text_at(value, "colours")?;
    let row = colours_of_text(text.as_bytes())?;
    Some(ReplyCells::Colours(row))
}

/// Returns the frame at the key `rows` of a reply. Returns `None` if that isn't an array of texts,
/// each with a row's digits, for as many rows as columns.
fn plane_in(alloc: Global, value: &Value) -> Result<Option<ReplyCells>, AllocError>
    ensures { IfOk result (λ reply. reply ≡ plane_in (view value.now)) }
{
    let Some(texts) = value.get("rows").and_then(Value::as_array) else {
        return Ok(None);
    };
    match rows_of_texts(alloc, texts)? {
        Some(rows) => Ok(plane_of_rows(rows)),
        None => Ok(None),
    }
}

/// Returns the frame of these rows as the cells of a reply. Returns `None` unless there are as many
/// rows as each has columns, and that is the number of a side.
fn plane_of_rows(rows: Vec<RowInColours>) -> Option<ReplyCells>
    ensures { result ≡ option_map ReplyCells.Plane (frame_of_rows rows.items) }
{
    let frame = frame_of_rows(rows)?;
    Some(ReplyCells::Plane(frame))
}

/// Returns the text at a key of an object. Returns `None` if no text is there, or if the value is
/// no object.
fn text_at<'a>(value: &'a Value, key: &str) -> Option<&'a str>
    ensures { option_map (λ text. text.now) result ≡ text_at key.now (view value.now) }
{
    value.get(key).and_then(Value::as_str)
}

/// Returns the rows of a plane, one for each text. Returns `None` if one of the values isn't a text
/// of a row's digits.
fn rows_of_texts(alloc: Global, texts: &[Value]) -> Result<Option<Vec<RowInColours>>, AllocError>
    ensures { IfOk result
        (λ rows. option_map (λ v. v.items) rows ≡ rows_of_texts (items_view texts.now)) }
{
    let mut rows = Vec::new(alloc);
    for text in texts {
        let Some(row) = row_in(text) else {
            return Ok(None);
        };
        rows.push(row)?;
    }
    Ok(Some(rows))
}

/// Returns the row of a plane whose digits a JSON text has, or `None` for any other value.
fn row_in(value: &Value) -> Option<RowInColours>
    ensures { result ≡ option_and_then bits_of_text (as_str (view value.now)) }
{
    let text = value.as_str()?;
    bits_of_text(text.as_bytes())
}
