//! Tables that were made, each its key's true one.
ghost use Rattle.std.specs.Prelude.{◌≡◌, ◌⊎◌, true, false};
ghost use Rattle.cam6_table.specs.RuleTexts.{IsCodeFor};
ghost use Rattle.cam6_cache.specs.Keys.{IsReversibleKey, IsTrueFor};
ghost use Rattle.cam6_cache.specs.Cached.{is_cached, with_first};
ghost use Rattle.cam6_cache.specs.Internal.Entries.{key_of, tables_of, cached_of};

use crate::keys::{Key, NamedKey};
use cam6_block::fill_by;
use cam6_planes::NoMemory;
use cam6_table::{Code, ENTRIES, Table};
use lru::LruCache;
use std::alloc::Global;
use std::marker::Model;
use std::num::NonZeroUsize;

/// Tables that a cache can keep at most.
pub const MAX_CAPACITY: usize = 64;

/// Tables that several users share, each beside its key, the one that was used last first.
#[derive(Drop)]
pub struct TableCache {
    alloc: Global,
    tables: LruCache<NamedKey, Table>,
    // Scratch for the table of a rule that is to be undone.
    straight: Table,
}

impl Model for TableCache {
    ghost use Rattle.std.specs.Prelude.{◌≤◌};
    ghost use Rattle.cam6_cache.specs.Cached.{Cached, AreTrue};
    ghost use Rattle.cam6_cache.specs.Limits.{max_capacity};
    ghost use Rattle.cam6_cache.specs.Internal.Entries.{tables_of, cached_of};

    ghost Value = { Cached };

    ghost view = { λ c. cached_of c.tables };

    ghost invariant = { λ c. AreTrue (tables_of c.tables.entries)
        × (c.tables.cap ≤ max_capacity) };
}

impl TableCache {
    ghost use Rattle.std.specs.Prelude.{◌<◌, ◌≤◌, [], ◌⊎◌, true, not, length, IfOk, MatchBool};
    ghost use Rattle.cam6_entries.specs.Limits.{addresses};
    ghost use Rattle.cam6_table.specs.RuleTexts.{IsCodeFor};
    ghost use Rattle.cam6_cache.specs.Keys.{IsReversibleKey, IsTrueFor};
    ghost use Rattle.cam6_cache.specs.Cached.{AreTrue, AreApart, is_cached, is_empty};
    ghost use Rattle.cam6_cache.specs.Cached.{with_first, without_last};
    ghost use Rattle.cam6_cache.specs.Limits.{max_capacity};

    /// Makes an empty cache that holds at most `capacity` tables, from 1 to 64. Allocates one
    /// table, and places for so many. Each table that is cached allocates its own memory.
    pub fn new(alloc: Global, capacity: usize) -> Result<TableCache, NoMemory>
        requires least { 0 < capacity }
        requires most { capacity ≤ max_capacity }
        ensures empty { IfOk result (λ cache. cache ≡ record { tables = []; capacity = capacity }) }
        // The constant is the limit that contracts speak of.
        ensures limit { MAX_CAPACITY ≡ max_capacity }
    {
        let Some(capacity) = NonZeroUsize::new(capacity) else {
            unreachable!()
        };
        let straight = Table::blank(alloc)?;
        let tables = LruCache::new(alloc, capacity)?;
        Ok(TableCache {
            alloc,
            tables,
            straight,
        })
    }

    /// Returns how many tables are cached, at most the capacity.
    pub fn len(&self) -> usize
        ensures number { result ≡ length self.now.tables }
        // The rest is the invariant of a cache.
        ensures few { result ≤ self.now.capacity }
        ensures limit { result ≤ max_capacity }
        ensures least { 0 < self.now.capacity }
        ensures most { self.now.capacity ≤ max_capacity }
        ensures tables { AreTrue self.now.tables }
        ensures apart { AreApart self.now.tables }
    {
        self.tables.len()
    }

    /// Copies or fills the key's true table to `out`, and returns whether it was cached before.
    /// `code` must be of the key's text, and an inverted key's rule one that can be undone. Caches
    /// a new table, in the place of the one used longest ago if full. If an allocation for that
    /// fails, `out` is right all the same.
    pub fn load(&mut self, key: &Key, code: &Code, out: &mut Table) -> bool
        requires code { IsCodeFor key.now.wiring key.now.text code.now }
        requires reversible { key.now.inverted ≡ true → IsReversibleKey key.now }
        ensures table { IsTrueFor key.now out.new }
        ensures whole { length out.new ≡ addresses }
        ensures hit { result ≡ is_cached key.now self.old.tables }
        // A hit goes first. So does a table that was not there, or an allocation fails and nothing
        // changes.
        ensures cached { MatchBool result (self.new ≡ with_first key.now out.new self.old)
            ((self.new ≡ with_first key.now out.new self.old) ⊎ (self.new ≡ self.old)) }
    {
        let named = key.named();
        if let Some(table) = self.tables.peek(named) {
            out.copy_from(table);
            prove!(out.len() == ENTRIES);
            return self.tables.promote(named);
        }
        fill_true(named, code, &mut self.straight, out);
        prove!(out.len() == ENTRIES);
        keep(self.alloc, &mut self.tables, named, out);
        false
    }

    /// Drops the table that was used longest ago, and returns true. Returns false if the cache was
    /// empty.
    pub fn evict_oldest(&mut self) -> bool
        ensures some { result ≡ not (is_empty self.old.tables) }
        ensures rest { self.new ≡ without_last self.old }
    {
        self.tables.pop_lru().is_some()
    }
}

/// Fills `out` with the key's true table, by `fill_by`. `code` must be that of the key's text.
/// Never fails, since the caller has made sure that an inverted key's rule can be undone.
/// `straight` is scratch.
fn fill_true(key: &NamedKey, code: &Code, straight: &mut Table, out: &mut Table)
    requires code { IsCodeFor (key_of key.now).wiring (key_of key.now).text code.now }
    requires reversible { key.now.inverted ≡ true → IsReversibleKey (key_of key.now) }
    ensures { IsTrueFor (key_of key.now) out.new }
{
    match fill_by(code, key.wiring(), key.way(), straight, out) {
        Ok(()) => {}
        Err(_) => unreachable!(),
    }
}

/// Caches a copy of a table whose key must not be cached. If the cache is full, drops the table
/// that was used longest ago. If an allocation fails, caches nothing, and drops none.
fn keep(alloc: Global, tables: &mut LruCache<NamedKey, Table>, key: &NamedKey, table: &Table)
    requires absent { is_cached (key_of key.now) (tables_of tables.old.entries) ≡ false }
    ensures { (cached_of tables.new ≡ with_first (key_of key.now) table.now (cached_of tables.old))
        ⊎ (cached_of tables.new ≡ cached_of tables.old) }
{
    let Ok(mut copy) = Table::blank(alloc) else {
        return;
    };
    copy.copy_from(table);
    let Ok(own) = key.clone() else {
        return;
    };
    let _ = tables.put(own, copy);
}
