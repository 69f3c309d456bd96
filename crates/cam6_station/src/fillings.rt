//! The tables of a lease, filled through a cache.
ghost use Rattle.std.specs.Prelude.{◌≡◌, ◌<◌};

use cam6_board::Tables;
use cam6_cache::{Key, TableCache};
use cam6_entries::Table;
use cam6_planes::NoMemory;
use cam6_slot::Lease;
use std::alloc::Global;
use std::marker::Model;

/// Tables as a board is loaded with them, and what it takes to ask a cache for them. It is made once.
/// Contracts see the tables.
#[derive(Drop)]
pub struct Filling {
    key: Key,
    table: Table,
    tables: Tables,
}

impl Model for Filling {
    ghost use Rattle.std.specs.Prelude.{List, ℕ};

    ghost Value = { List (List ℕ) };

    ghost view = { λ f. f.tables };
}

impl Filling {
    ghost use Rattle.cam6_slot.specs.Leases.{TablesFit};
    ghost use Rattle.cam6_slot.specs.Needs.{needs_of};
    ghost use Rattle.cam6_station.specs.Loading.{FillsOne, LoadsOne, IsAfterLoads};

    /// Allocates the tables. Their entries may be anything until they are filled. Fails only if an
    /// allocation fails.
    pub fn new(alloc: Global) -> Result<Filling, NoMemory> {
        Ok(Filling {
            key: Key::scratch(alloc)?,
            table: Table::blank(alloc)?,
            tables: Tables::blank(alloc)?,
        })
    }

    /// Returns the tables, as they were filled last. Those of a lease are in the order of its uses.
    pub fn tables(&self) -> &Tables
        ensures { result.now ≡ self.now }
    {
        &self.tables
    }

    /// Fills the tables that a lease needs, in the order of their uses. Copies what the cache has,
    /// and caches what it lacks. Allocates only to cache a table. If that fails, the table isn't
    /// cached, and is right all the same.
    pub fn fill(&mut self, cache: &mut TableCache, lease: &Lease)
        ensures tables { TablesFit lease.now.work self.new }
        ensures loads { IsAfterLoads lease.now.work cache.old cache.new }
        ensures capacity { cache.new.capacity ≡ cache.old.capacity }
    {
        for index in 0..lease.needs() {
            self.fill_one(cache, lease, index);
        }
    }

    /// Fills one of the tables that the lease needs. `index` is its number, as `Lease::need` takes
    /// it. Returns true if the cache had it. If not, builds it and caches it. If it can't be
    /// allocated in the cache, it isn't cached, and is right all the same.
    pub fn fill_one(&mut self, cache: &mut TableCache, lease: &Lease, index: u8) -> bool
        requires { index < needs_of lease.now.work }
        ensures table { FillsOne lease.now.work index self.old self.new }
        ensures load { LoadsOne lease.now.work index result cache.old cache.new }
        ensures capacity { cache.new.capacity ≡ cache.old.capacity }
    {
        // There is a place for each.
        let (_places, _needs) = (self.tables.as_slice(), lease.needs());
        let need = lease.need(index);
        self.key
            .set(need.half, need.hood, need.minor, need.text, need.inverted);
        let hit = cache.load(&self.key, need.code, &mut self.table);
        self.tables.put(usize::from(index), &self.table);
        hit
    }
}
