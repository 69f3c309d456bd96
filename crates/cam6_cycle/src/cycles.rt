//! A cycle of entries, and the ways along it.
ghost use Rattle.std.specs.Prelude.{◌≡◌, ◌<◌, ◌≤◌, ◌+◌, Some, length, take};
ghost use Rattle.std.specs.List.{slice_get};
ghost use Rattle.cam6_cycle.specs.Limits.{max_tables};
ghost use Rattle.cam6_cycle.specs.Along.{cycle_of, next, previous, entry_index, position_after};
ghost use Rattle.cam6_cycle.specs.Tables.{tables_needed, count_before};
ghost use Rattle.cam6_cycle.specs.declared.cycles.TheConstants.{MAX_ENTRIES};
ghost use Rattle.cam6_cycle.specs.declared.tables.Direction.{Direction};
ghost use Rattle.cam6_cycle.specs.declared.tables.TheConstants.{MAX_TABLES};

use crate::entries::Entry;
use crate::tables::{Direction, MAX_TABLES, NeededTable, add_table};
use arrayvec::ArrayVec;
use cam6_wiring::Half;
use std::marker::Model;

/// Entries that a cycle can have.
pub const MAX_ENTRIES: usize = 16;

/// Entries that are no cycle: none, or too many.
#[derive(Clone, Copy, Debug, PartialEq, Eq)]
pub struct CycleFault;

/// 1 to 16 entries. Contracts see them as a list.
#[derive(Drop)]
pub struct Cycle {
    entries: ArrayVec<Entry, MAX_ENTRIES>,
}

impl Model for Cycle {
    ghost use Rattle.std.specs.Prelude.{◌<◌, ◌≤◌, List, length};
    ghost use Rattle.cam6_cycle.specs.declared.cycles.TheConstants.{MAX_ENTRIES};
    ghost use Rattle.cam6_cycle.specs.declared.entries.Entry.{Entry};

    ghost Value = { List Entry };

    ghost view = { λ c. c.entries.items };

    ghost invariant = { λ c.
        (0 < length c.entries.items) × (length c.entries.items ≤ MAX_ENTRIES) };
}

impl Cycle {
    /// Returns the cycle of these entries, or `CycleFault` if there isn't 1 to 16 of them.
    pub fn new(entries: &[Entry]) -> Result<Cycle, CycleFault>
        ensures { result ≡ cycle_of entries.now }
    {
        if entries.is_empty() {
            return Err(CycleFault);
        }
        let mut kept = ArrayVec::new();
        match kept.try_extend_from_slice(entries) {
            Ok(()) => Ok(Cycle { entries: kept }),
            Err(_) => Err(CycleFault),
        }
    }

    /// Returns another cycle of the same entries.
    pub fn copy(&self) -> Cycle
        ensures { result ≡ self.now }
    {
        let mut entries = ArrayVec::new();
        let _room = entries.try_extend_from_slice(self.entries.as_slice());
        Cycle { entries }
    }

    /// Lends the entries in their order, from position 0 on: at least 1, and at most `MAX_ENTRIES`.
    pub fn entries(&self) -> &[Entry]
        ensures entries { result.now ≡ self.now }
        ensures some { 0 < length result.now }
        ensures few { length result.now ≤ MAX_ENTRIES }
    {
        self.entries.as_slice()
    }

    /// Returns the entry at a position, which a step forward does, and the position after it. After
    /// the last position comes 0. The position has to be below the number of entries.
    pub fn forward(&self, position: usize) -> (Entry, usize)
        requires { position < length self.now }
        ensures entry { slice_get self.now position ≡ Some result.0 }
        ensures next { result.1 ≡ next (length self.now) position }
        ensures within { result.1 < length self.now }
    {
        let entries = self.entries.as_slice();
        (entries[position], (position + 1) % entries.len())
    }

    /// Returns the entry before a position, which a step backward undoes, and that entry's own
    /// position. Before position 0 is the last entry. The position has to be below the number of
    /// entries.
    pub fn backward(&self, position: usize) -> (Entry, usize)
        requires { position < length self.now }
        ensures entry { slice_get self.now result.1 ≡ Some result.0 }
        ensures previous { result.1 ≡ previous (length self.now) position }
        ensures within { result.1 < length self.now }
    {
        let entries = self.entries.as_slice();
        let before = if position == 0 {
            entries.len() - 1
        } else {
            position - 1
        };
        (entries[before], before)
    }

    /// Returns the entry that a step in this direction from a position uses, and the position after
    /// the step. Backward it is the entry before the position. The position has to be below the
    /// number of entries.
    pub fn go(&self, position: usize, direction: Direction) -> (Entry, usize)
        requires { position < length self.now }
        ensures entry { slice_get self.now (entry_index direction (length self.now) position)
            ≡ Some result.0 }
        ensures next { result.1 ≡ position_after direction (length self.now) position }
        ensures within { result.1 < length self.now }
    {
        match direction {
            Direction::Forward => self.forward(position),
            Direction::Backward => self.backward(position),
        }
    }

    /// Returns which tables the steps of the cycle need in a direction, one for each half with a
    /// rule. They are in the order of the entries, half A's before half B's. A rule used twice has
    /// two.
    pub fn tables_needed(&self, direction: Direction) -> ArrayVec<NeededTable, MAX_TABLES>
        ensures tables { result.items ≡ tables_needed direction self.now }
        // There is room for those of the longest cycle.
        ensures room { MAX_TABLES ≡ max_tables }
    {
        let mut tables = ArrayVec::new();
        for entry in self.entries.as_slice() {
            add_table(&mut tables, direction, Half::A, entry.a);
            add_table(&mut tables, direction, Half::B, entry.b);
        }
        tables
    }

    /// Returns how many of the tables of `tables_needed` stand before those of the entry at a
    /// position. The number is the same in both directions. The position has to be below the number
    /// of entries.
    pub fn tables_before(&self, position: usize) -> usize
        requires { position < length self.now }
        ensures before { (direction : Direction) →
            result ≡ length (tables_needed direction (take position self.now)) }
        ensures count { result ≡ count_before self.now position }
        // After them there is room for both of the entry's own.
        ensures few { result + 2 ≤ max_tables }
    {
        let mut before = 0;
        for entry in &self.entries.as_slice()[..position] {
            before += usize::from(entry.a.is_some()) + usize::from(entry.b.is_some());
        }
        before
    }
}
