//! The tables that a step along a cycle uses.
ghost use Rattle.std.specs.Prelude.{◌≡◌, ◌<◌, ◌≤◌, ◌+◌, length, Some};
ghost use Rattle.std.specs.Option.{option_map};
ghost use Rattle.cam6_cycle.specs.Along.{entry_index, position_after};
ghost use Rattle.cam6_cycle.specs.Limits.{max_tables};
ghost use Rattle.cam6_band.specs.ByTables.{values_of, half_entries};
ghost use Rattle.cam6_band.specs.AtPosition.{tables_from, step_tables_at, half_at};

use crate::tables::{EntryTables, HalfTable};
use cam6_cycle::{Cycle, Direction, Entry, HalfRule};
use cam6_entries::Table;

/// Returns the tables that a step in this direction from a position uses, and the position after
/// the step. `tables` has 32 tables: first those that the cycle needs, one for each use of a rule,
/// in their order. Positions are counted from 0, and below the number of entries.
pub fn tables_of_step<'a>(
    cycle: &Cycle,
    position: usize,
    direction: Direction,
    tables: &'a [Table],
) -> (EntryTables<'a>, usize)
    requires position { position < length cycle.now }
    requires room { max_tables ≤ length tables.now }
    ensures tables { step_tables_at cycle.now (entry_index direction (length cycle.now) position)
        tables.now ≡ Some (values_of result.0) }
    ensures next { result.1 ≡ position_after direction (length cycle.now) position }
    ensures within { result.1 < length cycle.now }
{
    let (entry, after) = cycle.go(position, direction);
    let index = match direction {
        Direction::Forward => position,
        Direction::Backward => after,
    };
    let own = tables_from(entry, cycle.tables_before(index), tables);
    (own, after)
}

/// Returns an entry's tables, which are in `tables` from the index on, half A's before half B's. A
/// half without a rule has none, and takes no place. Two tables must be there.
fn tables_from<'a>(entry: Entry, index: usize, tables: &'a [Table]) -> EntryTables<'a>
    requires room { index + 2 ≤ length tables.now }
    ensures { values_of result ≡ tables_from index entry tables.now }
{
    let Entry { a, b, grid, phase } = entry;
    EntryTables {
        a: half_table(a, tables, index),
        b: half_table(b, tables, index + usize::from(a.is_some())),
        grid,
        phase,
    }
}

/// Returns the table at an index, counted from 0, for a half with this rule, with the rule's hood
/// and minor. Returns `None` for a half without a rule. The index must be one of `tables`.
fn half_table<'a>(
    rule: Option<HalfRule>,
    tables: &'a [Table],
    index: usize,
) -> Option<HalfTable<'a>>
    requires { index < length tables.now }
    ensures { half_at rule tables.now index ≡ option_map half_entries result }
{
    let rule = rule?;
    Some(HalfTable {
        table: &tables[index],
        hood: rule.hood,
        minor: rule.minor,
    })
}
