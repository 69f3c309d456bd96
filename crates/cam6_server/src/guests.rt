//! The clients of a host: how many wait for a seat, and how many have one.
ghost use Rattle.std.specs.Prelude.{◌≡◌, ◌≤◌, ◌+◌};
ghost use Rattle.cam6_commands.specs.Limits.{max_users};
ghost use Rattle.cam6_server.specs.Guests.{Enters, Leaves, Lengthens, Sits, are_none};
ghost use Rattle.cam6_server.specs.Guests.{max_long, nobody};

use std::marker::Model;

/// How many clients may wait for a seat at a time, in addition to one for each user.
const MORE: usize = 64;

/// How many waiting clients may hold a first line that is longer than any line but a load.
const LONG: usize = 8;

/// What a client has.
#[derive(Clone, Copy, Debug, PartialEq, Eq)]
pub enum Standing {
    /// No seat yet.
    Waiting,
    /// No seat yet, and a first line that is longer than any line but a load.
    Long,
    /// A seat.
    Seated,
}

/// Counts of clients by what they have. There is room for `room` clients that wait.
#[derive(Drop)]
pub struct Guests {
    room: usize,
    waiting: usize,
    long: usize,
    seated: usize,
    was_seated: bool,
}

impl Model for Guests {
    ghost use Rattle.std.specs.Prelude.{◌≤◌};
    ghost use Rattle.cam6_server.specs.Guests.{Guested, max_long};

    ghost Value = { Guested };

    ghost view = { λ g. record {
      room = g.room;
      waiting = g.waiting;
      long = g.long;
      seated = g.seated;
      was_seated = g.was_seated;
    } };

    /// No more clients wait than there is room for, and at most 8 of them hold a long line.
    ghost invariant = { λ g. (g.waiting ≤ g.room) × (g.long ≤ max_long) };
}

impl Guests {
    /// Makes the counts of a host at which no client is connected. There are at most 32 users, and
    /// there is room for `users + 64` clients that wait.
    pub fn new(users: usize) -> Guests
        requires { users ≤ max_users }
        ensures { result ≡ nobody (users + 64) }
    {
        Guests {
            room: users + MORE,
            waiting: 0,
            long: 0,
            seated: 0,
            was_seated: false,
        }
    }

    /// Counts one more client, as waiting for a seat, and returns true. Returns false and counts
    /// none if there is no room for it.
    pub fn enter(&mut self) -> bool
        ensures { Enters self.old result self.new }
    {
        if self.waiting == self.room {
            return false;
        }
        self.waiting += 1;
        true
    }

    /// Counts one of the waiting clients as holding a long first line, and returns true. Returns
    /// false and counts none if 8 already do.
    pub fn lengthen(&mut self) -> bool
        ensures { Lengthens self.old result self.new }
    {
        if self.long == LONG {
            return false;
        }
        self.long += 1;
        true
    }

    /// Counts one waiting client, which holds no long line, as seated, and no longer as waiting.
    pub fn sit(&mut self)
        ensures { Sits self.old self.new }
    {
        self.waiting = self.waiting.saturating_sub(1);
        self.seated = self.seated.saturating_add(1);
        self.was_seated = true;
    }

    /// Counts a client as gone. `standing` tells whether it had a seat, waited, or waited with a
    /// long first line.
    pub fn leave(&mut self, standing: Standing)
        ensures { Leaves standing self.old self.new }
    {
        match standing {
            Standing::Waiting => self.waiting = self.waiting.saturating_sub(1),
            Standing::Long => {
                self.waiting = self.waiting.saturating_sub(1);
                self.long = self.long.saturating_sub(1);
            }
            Standing::Seated => self.seated = self.seated.saturating_sub(1),
        }
    }

    /// Whether no client is connected.
    pub fn are_none(&self) -> bool
        ensures { result ≡ are_none self.now }
    {
        self.waiting == 0 && self.seated == 0
    }

    /// Whether any client has had a seat since the host began.
    pub fn was_seated(&self) -> bool
        ensures { result ≡ self.now.was_seated }
    {
        self.was_seated
    }
}
