//! The tables that the steps of a cycle use.
ghost use Rattle.std.specs.Prelude.{◌≡◌, ◌<◌, ◌++◌};
ghost use Rattle.arrayvec.specs.ArrayVec.{array_vec_len};
ghost use Rattle.cam6_cycle.specs.Tables.{needed_for};
ghost use Rattle.cam6_cycle.specs.Unused.{unused_table};
ghost use Rattle.cam6_cycle.specs.declared.tables.TheConstants.{MAX_TABLES};

use crate::cycles::MAX_ENTRIES;
use crate::entries::HalfRule;
use arrayvec::ArrayVec;
use cam6_wiring::{Half, Hood, Minor};

/// Tables that a cycle can need: one for each half of each entry.
pub const MAX_TABLES: usize = 2 * MAX_ENTRIES;

/// Which way a step goes along a cycle: by the rules' own tables, or by the inverted ones.
#[derive(Clone, Copy, Debug, PartialEq, Eq)]
pub enum Direction {
    Forward,
    Backward,
}

/// A table that a half uses: this rule's own table, or its inverted one.
#[derive(Clone, Copy, Debug, PartialEq, Eq)]
pub struct NeededTable {
    pub half: Half,
    pub rule: HalfRule,
    pub direction: Direction,
}

impl Default for NeededTable {
    ghost is_default = { λ table. table ≡ unused_table };

    /// Returns a table that no cycle needs, for unused places of an array. It is half A's for rule
    /// 0, forward.
    fn default() -> NeededTable {
        NeededTable {
            half: Half::A,
            rule: HalfRule {
                number: 0,
                hood: Hood::Moore,
                minor: Minor::Centers,
            },
            direction: Direction::Forward,
        }
    }
}

/// Adds to `tables` the one that a half needs for its rule. If the half has no rule, adds nothing.
/// There has to be room: fewer than `MAX_TABLES` before.
pub(crate) fn add_table(
    tables: &mut ArrayVec<NeededTable, MAX_TABLES>,
    direction: Direction,
    half: Half,
    rule: Option<HalfRule>,
)
    requires { array_vec_len tables.old < MAX_TABLES }
    ensures { tables.new.items ≡ tables.old.items ++ needed_for direction half rule }
{
    if let Some(rule) = rule {
        tables.push(NeededTable {
            half,
            rule,
            direction,
        });
    }
}
