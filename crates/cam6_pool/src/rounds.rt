//! A board's seat that looks at users in turn. Only a look moves it on.
ghost use Rattle.std.specs.Prelude.{◌≡◌, ◌<◌, ◌≤◌, ◌↔◌, IsTrue};
ghost use Rattle.cam6_handoff.specs.Holding.{IsIdle};
ghost use Rattle.cam6_pool.specs.Internal.Served.{LooksAtNext};

use cam6_board::Job;
use cam6_handoff::BoardSeat;
use cam6_slot::Lease;
use cam6_station::User;

/// A board's seat, and how far its looks went round all users.
#[derive(Drop)]
pub(crate) struct Round {
    pub(crate) seat: BoardSeat,
    /// The row of the user at whom the round begins. Rows are counted from 0.
    row: u8,
    /// How many users the round has passed over.
    passed: u8,
}

impl Round {
    /// Makes a round that begins at user 1. `seat` is the board's.
    pub(crate) fn new(seat: BoardSeat) -> Round
        ensures { result ≡ record { seat = seat; row = 0; passed = 0 } }
    {
        Round {
            seat,
            row: 0,
            passed: 0,
        }
    }

    /// Begins a new round of looks at all users. It starts at the user after the one whose command
    /// was taken last, or at user 1.
    pub(crate) fn begin(&mut self)
        ensures { self.new ≡ record self.old { passed = 0 } }
    {
        self.passed = 0;
    }

    /// Whether the round has passed over as many users as there are, so that nobody is left to look
    /// at.
    pub(crate) fn is_over(&self) -> bool
        ensures { IsTrue result ↔ (self.now.seat.users ≤ self.now.passed) }
    {
        usize::from(self.passed) >= self.seat.users()
    }

    /// Takes the command of the next user of the round, if it waits and isn't held back, and
    /// returns it. If not, passes over this user and returns `None`. The seat has to hold no
    /// command, and the round not to be over.
    pub(crate) fn look(&mut self) -> Option<(User, Lease, Job)>
        requires idle { IsIdle self.old.seat }
        requires more { self.old.passed < self.old.seat.users }
        ensures { LooksAtNext self.old result self.new }
    {
        let users = self.seat.users();
        let user = User::numbered((usize::from(self.row) + usize::from(self.passed)) % users + 1);
        if !self.seat.is_held_back(user) {
            if let Some((lease, job)) = self.seat.try_take(usize::from(user.number())) {
                // Users are numbered from 1, so this is the row of the user after this one.
                self.row = user.number();
                return Some((user, lease, job));
            }
        }
        self.passed += 1;
        None
    }
}
