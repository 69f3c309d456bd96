//! The orders in which a diagram joins the lines.
ghost use Rattle.std.specs.Prelude.{◌<◌};
ghost use Rattle.cam6_wiring.specs.declared.wirings.TheConstants.{LINES};

use crate::building::ENTRIES;
use cam6_wiring::LINES;

/// In which order the lines are joined.
#[derive(Clone, Copy)]
pub(crate) enum Order {
    /// The lowest line first.
    Rising,
    /// Line 4 first, then the others by number. Under N/MARG lines 4 and 0 are the cell opposite and
    /// the centre. Rules of blocks often ask whether both are equal, and get shorter programs so.
    OppositeFirst,
}

impl Order {
    /// Returns the line by which nodes are joined in round `level`, from 0 to 11.
    pub(crate) fn line(self, level: usize) -> usize
        requires { level < LINES }
        ensures { result < LINES }
    {
        match self {
            Order::Rising => level,
            Order::OppositeFirst => match level {
                0 => 4,
                1 => 0,
                2 => 1,
                3 => 2,
                4 => 3,
                _ => level,
            },
        }
    }

    /// Returns the address with bit i of `k` on the line of round i, for each round. `k` has to be
    /// below 4096. Bit 0 is the lowest.
    pub(crate) fn address(self, k: usize) -> usize
        requires { k < ENTRIES }
        ensures { result < ENTRIES }
    {
        match self {
            Order::Rising => k,
            Order::OppositeFirst => (k / 32 * 32 + k % 32 / 2 + k % 2 * 16) % ENTRIES,
        }
    }
}
