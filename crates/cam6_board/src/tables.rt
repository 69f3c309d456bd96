//! The tables of a board, one place for each use of a rule in a cycle.
ghost use Rattle.std.specs.Prelude.{◌≡◌, ◌<◌, ◌≤◌, ℕ, length, IsOk};
ghost use Rattle.cam6_cycle.specs.Limits.{max_tables};

use cam6_cycle::MAX_TABLES;
use cam6_entries::Table;
use cam6_planes::NoMemory;
use std::alloc::Global;
use std::marker::Model;

/// Thirty-two tables, by use. They are made once, and copied into. Contracts see their entries.
#[derive(Drop)]
pub struct Tables {
    by_use: Vec<Table>,
}

impl Model for Tables {
    ghost use Rattle.std.specs.Prelude.{◌≡◌, List, ℕ, vec_len};
    ghost use Rattle.cam6_cycle.specs.Limits.{max_tables};

    ghost Value = { List (List ℕ) };

    ghost view = { λ t. t.by_use.items };

    ghost invariant = { λ t. vec_len t.by_use ≡ max_tables };
}

impl Tables {
    ghost use Rattle.std.specs.Prelude.{slice_set};

    /// Allocates the 32 tables, one for each use of a rule in the longest cycle. Their entries may
    /// be anything.
    pub fn blank(alloc: Global) -> Result<Tables, NoMemory> {
        let mut by_use = Vec::with_capacity(alloc, MAX_TABLES)?;
        for _use in 0..MAX_TABLES {
            by_use.push(Table::blank(alloc)?)?;
        }
        Ok(Tables { by_use })
    }

    /// Lends all 32 tables, in the order of their uses.
    pub fn as_slice(&self) -> &[Table]
        ensures tables { result.now ≡ self.now }
        ensures room { length result.now ≡ max_tables }
    {
        self.by_use.as_slice()
    }

    /// Copies a table's entries to the table of a use. `place` is the use's number, from 0 to 31.
    pub fn put(&mut self, place: usize, table: &Table)
        requires { place < max_tables }
        ensures { self.new ≡ slice_set self.old place table.now }
    {
        self.by_use[place].copy_from(table);
    }

    /// Copies the entries of all tables from `other`.
    pub fn copy_from(&mut self, other: &Tables)
        ensures { self.new ≡ other.now }
    {
        for place in 0..MAX_TABLES {
            self.by_use[place].copy_from(&other.by_use[place]);
        }
    }
}
