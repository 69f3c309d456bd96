//! What a table is asked for by.
ghost use Rattle.std.specs.Prelude.{◌≡◌};

use cam6_cycle::Direction;
use cam6_planes::NoMemory;
use cam6_wiring::{Half, Hood, Minor, Wiring};
use std::alloc::Global;
use std::hash::{Hash, Hasher};
use std::marker::Model;

/// Bytes that the text of a rule can have.
pub const MAX_TEXT: usize = 8_192;

/// A key as a cache keeps it beside its table.
#[derive(Clone, Debug, Drop, PartialEq, Eq)]
pub(crate) struct NamedKey {
    pub(crate) half: Half,
    pub(crate) hood: Hood,
    pub(crate) minor: Minor,
    pub(crate) text: String,
    pub(crate) inverted: bool,
}

impl NamedKey {
    ghost use Rattle.std.specs.Prelude.{◌≡◌};
    ghost use Rattle.cam6_cache.specs.Keys.{way_of};
    ghost use Rattle.cam6_cache.specs.Internal.Entries.{key_of};

    /// Returns the half, hood and minor that the key's rule is written for.
    pub(crate) fn wiring(&self) -> Wiring
        ensures { result ≡ (key_of self.now).wiring }
    {
        Wiring {
            half: self.half,
            hood: self.hood,
            minor: self.minor,
        }
    }

    /// Returns the direction of the steps that use the key's table: backward if it is inverted.
    pub(crate) fn way(&self) -> Direction
        ensures { result ≡ way_of self.now.inverted }
    {
        if self.inverted {
            Direction::Backward
        } else {
            Direction::Forward
        }
    }
}

/// Hashes only the text: few keys of a cache differ in anything else.
impl Hash for NamedKey {
    ghost use Rattle.std.specs.Prelude.{string_bytes};
    ghost use Rattle.std.specs.Hash as fed;
    ghost use Rattle.std.specs.Cmp.Rules.{hashing};
    ghost use Rattle.std.proofs.Common.{rules};

    ghost hash_input = { λ key. fed.str (string_bytes key.text) };

    ghost respects_eq = { Prim.search (hashing, rules) };

    /// Hashes the key's text alone, since few keys of a cache differ in anything else.
    fn hash<H: Hasher>(&self, state: &mut H) {
        self.text.hash(state);
    }
}

/// What a table is asked for by, in memory that is kept: what a rule is written for, its whole text,
/// and whether the table is to undo it. The rule's name is no part of it.
#[derive(Debug, Drop)]
pub struct Key {
    named: NamedKey,
}

impl Model for Key {
    ghost use Rattle.std.specs.Prelude.{◌≤◌, string_capacity};
    ghost use Rattle.cam6_cache.specs.Keys.{TableKey};
    ghost use Rattle.cam6_cache.specs.Internal.Entries.{key_of};
    ghost use Rattle.cam6_cache.specs.Limits.{max_text};

    ghost Value = { TableKey };

    ghost view = { λ k. key_of k.named };

    ghost invariant = { λ k. max_text ≤ string_capacity k.named.text };
}

impl Key {
    ghost use Rattle.std.specs.Prelude.{◌≤◌, [], length, IfOk};
    ghost use Rattle.cam6_cache.specs.Limits.{max_text};
    ghost use Rattle.cam6_cache.specs.Internal.Entries.{key_of};

    /// Makes a key of the empty text, to be `set`. It has room for any text of at most `MAX_TEXT`
    /// bytes (8,192).
    pub fn scratch(alloc: Global) -> Result<Key, NoMemory>
        ensures key { IfOk result (λ key. key.text ≡ []) }
        // The constant is the limit that contracts speak of.
        ensures room { MAX_TEXT ≡ max_text }
    {
        let named = NamedKey {
            half: Half::A,
            hood: Hood::Moore,
            minor: Minor::Centers,
            text: String::with_capacity(alloc, MAX_TEXT)?,
            inverted: false,
        };
        Ok(Key { named })
    }

    /// Makes this the key of a text, of at most `MAX_TEXT` bytes (8,192), for this half, hood and
    /// minor. `inverted` is true for the table that undoes the rule, and false for the rule's own.
    /// Does not allocate.
    pub fn set(&mut self, half: Half, hood: Hood, minor: Minor, text: &str, inverted: bool)
        requires { length text.now ≤ max_text }
        ensures { self.new ≡ record {
          wiring = record { half = half; hood = hood; minor = minor };
          text = text.now;
          inverted = inverted;
        } }
    {
        let named = &mut self.named;
        named.half = half;
        named.hood = hood;
        named.minor = minor;
        named.text.clear();
        named.text.push_str(text).unwrap();
        named.inverted = inverted;
    }

    /// Lends the key as a cache looks it up.
    pub(crate) fn named(&self) -> &NamedKey
        ensures { key_of result.now ≡ self.now }
    {
        &self.named
    }
}
