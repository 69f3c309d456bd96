//! The open IFs of a definition.
ghost use Rattle.std.specs.Prelude.{◌≡◌, ◌<◌, ◌≤◌, [], ◌∷◌, length};
ghost use Rattle.cam6_forth.specs.declared.limits.TheConstants.{MAX_OPEN_IFS};

use crate::limits::MAX_OPEN_IFS;
use std::marker::Model;

/// The open IFs, each with whether its ELSE has come. A contract sees the innermost first.
#[derive(Drop)]
pub(crate) struct OpenIfs {
    values: [bool; MAX_OPEN_IFS],
    len: usize,
}

impl Model for OpenIfs {
    ghost use Rattle.std.specs.Prelude.{List, Bool, reverse, take, ◌≤◌};
    ghost use Rattle.cam6_forth.specs.declared.limits.TheConstants.{MAX_OPEN_IFS};

    ghost Value = { List Bool };

    ghost view = { λ s. reverse (take s.len s.values) };

    ghost invariant = { λ s. s.len ≤ MAX_OPEN_IFS };
}

impl OpenIfs {
    /// Makes an empty list: no IF is open, as at the start of a definition.
    pub(crate) fn new() -> Self
        ensures { result ≡ [] }
    {
        OpenIfs {
            values: [false; MAX_OPEN_IFS],
            len: 0,
        }
    }

    /// How many IFs are open, at most `MAX_OPEN_IFS`.
    pub(crate) fn len(&self) -> usize
        ensures value { result ≡ length self.now }
        ensures limit { result ≤ MAX_OPEN_IFS }
    {
        self.len
    }

    /// Adds an open IF, inside the others. `has_else` says whether its ELSE has been read. Fewer
    /// than `MAX_OPEN_IFS` have to be open before.
    pub(crate) fn push(&mut self, has_else: bool)
        requires fits { length self.old < MAX_OPEN_IFS }
        ensures { self.new ≡ has_else ∷ self.old }
    {
        self.values[self.len] = has_else;
        self.len += 1;
    }

    /// Removes the innermost open IF, and returns whether its ELSE has been read. At least one has
    /// to be open.
    pub(crate) fn pop(&mut self) -> bool
        requires not_empty { 0 < length self.old }
        ensures { self.old ≡ result ∷ self.new }
    {
        self.len -= 1;
        self.values[self.len]
    }
}
