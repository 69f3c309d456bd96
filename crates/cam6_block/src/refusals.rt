//! Why a table has no inverse, and the block states that show it.
ghost use Rattle.std.specs.Prelude.{◌≡◌, IfSome, None, true};
ghost use Rattle.cam6_wiring.specs.Wiring.{is_margolus};
ghost use Rattle.cam6_block.specs.BlockMaps.{by_table, block_map, IsOneToOne};
ghost use Rattle.cam6_block.specs.Refusals.{IsMeeting};

use crate::corners::STATES;
use crate::successors::successor;
use cam6_table::Table;
use cam6_wiring::{Hood, Minor, Phase};

/// Why a table has no inverse. The causes are tried in this order.
#[derive(Clone, Copy, Debug, PartialEq, Eq)]
pub enum NotReversible {
    /// The neighbourhood has no blocks.
    Hood,
    /// The blocks see the other half's centres.
    Centres,
    /// At this phase two block states have one successor, and at no lower phase. `b` is the least
    /// state that has the successor of a smaller one, and `a` is that smaller one.
    Meeting { phase: Phase, a: u8, b: u8 },
}

impl NotReversible {
    ghost use Rattle.cam6_block.specs.Refusals.{cause_number};

    /// Returns the fault's number, as replies have it: 64 for every cause.
    pub fn number(self) -> u8
        ensures { result ≡ cause_number self }
    {
        64
    }
}

/// Two block states, the smaller one first.
#[derive(Clone, Copy)]
pub(crate) struct Pair {
    pub(crate) a: u8,
    pub(crate) b: u8,
}

/// Finds the least state that has the same successor as a smaller one. Returns it as `b`, and the
/// smaller one as `a`. Returns `None` if no two states have one successor. Only blocks at this
/// phase count, and the hood must be a Margolus one.
pub(crate) fn find_meeting(table: &Table, hood: Hood, minor: Minor, phase: Phase) -> Option<Pair>
    requires margolus { is_margolus hood ≡ true }
    ensures some { IfSome result (λ pair.
        IsMeeting (block_map (by_table hood minor table.now) phase) pair.a pair.b) }
    ensures none { result ≡ None → IsOneToOne (block_map (by_table hood minor table.now) phase) }
{
    let mut state_of_successor = [None; STATES as usize];
    for state in 0..STATES {
        let b = state as u8;
        let successor = usize::from(successor(table, hood, minor, phase, b));
        match state_of_successor[successor] {
            Some(a) => return Some(Pair { a, b }),
            None => state_of_successor[successor] = Some(b),
        }
    }
    None
}
