//! The buffer of one line.
ghost use Rattle.std.specs.Prelude.{◌≡◌, ◌+◌, ◌≤◌, ◌<◌, ◌++◌, length, nat_lt, vec_len};
ghost use Rattle.std.specs.Prelude.{vec_capacity, OnOk, OnErr};
ghost use Rattle.cam6_wire.specs.Limits.{max_line, max_load_line, limit_of};

use cam6_planes::NoMemory;
use cam6_wire::{LINE_LIMIT, LOAD_LINE_LIMIT, begins_load_in};
use std::alloc::Global;
use std::marker::Model;

/// The buffer of one line. It grows only for a line that begins as a load, and shrinks after it. Of
/// a line above its limit it keeps only that the line is too long.
#[derive(Drop)]
pub struct LineBuf {
    bytes: Vec<u8>,
    is_long: bool,
}

impl Model for LineBuf {
    ghost use Rattle.std.specs.Prelude.{◌≤◌, vec_len, vec_capacity};
    ghost use Rattle.cam6_wire.specs.Limits.{max_line, max_load_line};
    ghost use Rattle.cam6_session.specs.Held.{Held};

    ghost Value = { Held };

    ghost view = { λ b. record { bytes = b.bytes.items; is_long = b.is_long } };

    ghost invariant = { λ b.
        (max_line ≤ vec_capacity b.bytes) × (vec_len b.bytes ≤ max_load_line) };
}

impl LineBuf {
    ghost use Rattle.std.specs.Prelude.{◌≡◌, [], IfOk, None, Some, option_map, if◌then◌else◌};
    ghost use Rattle.std.specs.Prelude.{OnOk, OnErr, ℕ, List, ◌++◌};
    ghost use Rattle.cam6_session.specs.Held.{Holds, Grows, is_empty};
    ghost use Rattle.cam6_session.specs.Reading.{IsLongLoad};

    /// Makes an empty line, with room for any line that isn't a load: 16,384 bytes.
    pub fn new(alloc: Global) -> Result<LineBuf, NoMemory>
        ensures ok { IfOk result (λ line. Holds line []) }
    {
        Ok(LineBuf {
            bytes: Vec::with_capacity(alloc, LINE_LIMIT)?,
            is_long: false,
        })
    }

    /// Empties the line, and frees the memory that a load took.
    pub fn clear(&mut self)
        ensures { Holds self.new [] }
    {
        self.bytes.clear();
        self.bytes.shrink_to(LINE_LIMIT);
        self.is_long = false;
    }

    /// Adds a part, which has no LF, at the line's end. If the line is above its limit then, keeps
    /// only that it is too long. Allocates once, for a load of more than 16,384 bytes. If that
    /// fails, the line stays as it was.
    pub fn add(&mut self, part: &[u8]) -> Result<(), NoMemory>
        ensures ok { OnOk result (Grows self.old self.new part.now) }
        ensures kept { OnErr result (self.new ≡ self.old) }
        ensures wanted { OnErr result ((line : List ℕ) → Holds self.old line →
            IsLongLoad (line ++ part.now)) }
    {
        if self.is_long {
            return Ok(());
        }
        if is_too_long(&self.bytes, part) {
            self.is_long = true;
            return Ok(());
        }
        make_room(&mut self.bytes, part.len())?;
        self.bytes.extend_from_slice(part).unwrap();
        Ok(())
    }

    /// Whether the line has no byte. A line above its limit isn't empty.
    pub fn is_empty(&self) -> bool
        ensures { result ≡ is_empty self.now }
    {
        !self.is_long && self.bytes.is_empty()
    }

    /// Whether the line is above its limit: 2,097,152 bytes if it begins as a load does, and else
    /// 16,384.
    pub fn is_long(&self) -> bool
        ensures { result ≡ self.now.is_long }
    {
        self.is_long
    }

    /// Returns the line's bytes, or `None` if the line is above its limit.
    pub fn bytes(&self) -> Option<&[u8]>
        ensures { option_map (λ bytes. bytes.now) result
            ≡ (if self.now.is_long then None else Some self.now.bytes) }
    {
        if self.is_long {
            None
        } else {
            Some(self.bytes.as_slice())
        }
    }
}

/// Whether the line that is `front` and then `part` is above its limit. `front` has at most
/// 2,097,152 bytes.
fn is_too_long(front: &[u8], part: &[u8]) -> bool
    requires { length front.now ≤ max_load_line }
    ensures { result ≡ nat_lt (limit_of (front.now ++ part.now))
        (length (front.now ++ part.now)) }
{
    let length = front.len() + part.len();
    if length <= LINE_LIMIT {
        return false;
    }
    length > LOAD_LINE_LIMIT || !begins_load_in(front, part)
}

/// Makes room for `more` more bytes. With them, there are at most 2,097,152. Allocates only if
/// there are more than 16,384, as only a load may have.
fn make_room(bytes: &mut Vec<u8>, more: usize) -> Result<(), NoMemory>
    requires room { max_line ≤ vec_capacity bytes.old }
    requires few { vec_len bytes.old + more ≤ max_load_line }
    ensures bytes { bytes.new.items ≡ bytes.old.items }
    ensures capacity { vec_capacity bytes.old ≤ vec_capacity bytes.new }
    ensures ok { OnOk result (vec_len bytes.old + more ≤ vec_capacity bytes.new) }
    ensures err { OnErr result (max_line < vec_len bytes.old + more) }
{
    if bytes.len() + more <= LINE_LIMIT {
        return Ok(());
    }
    bytes.reserve_exact(LOAD_LINE_LIMIT - bytes.len())?;
    Ok(())
}
