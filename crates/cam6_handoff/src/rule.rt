//! The rule of the table.

use atomic_table::TableRule;
use cam6_slot::{Place, Queued};

/// How many users there are.
#[derive(Drop)]
pub struct Counts {
    pub users: u64,
}

/// What a seat knows. No value of it is made. A row is the word and the slot of a user. Rows are
/// counted from 0, so a user's row is the user's number less one.
pub enum View {
    /// The first seat, from which so many desks and boards were cut.
    First {
        desks: u64,
        boards: u64,
    },
    /// A desk that hasn't taken its slot yet.
    Unseated {
        row: u64,
    },
    /// A desk that has its machine.
    Rests {
        row: u64,
    },
    /// A desk that waits for what was asked, as it was put.
    Waits {
        row: u64,
        asked: Queued,
    },
    /// A board that has nothing of a user.
    Idle {
        board: u64,
    },
    /// A board that has taken the place of a user.
    Holds {
        board: u64,
        row: u64,
        queued: Queued,
    },
}

/// The rule: one row for each user, by the user's word.
pub struct Handing;

impl TableRule<Option<Place>, View, Counts> for Handing {
    ghost use Rattle.cam6_handoff.specs.Rule.{Rule, first_of};

    ghost holds = { λ counts. Rule counts.users };

    ghost first = { first_of };
}
