//! Connections by what they have: no answer yet, or a socket.
ghost use Rattle.std.specs.Prelude.{◌≡◌, ◌≤◌};
ghost use Rattle.cam6_web.specs.Visitors.{Enters, Leaves, Opens, are_none, nobody};

use std::marker::Model;

/// How many connections may wait for an answer at a time.
const MOST_GREETED: usize = 64;

/// What a connection has.
#[derive(Clone, Copy, Debug, PartialEq, Eq)]
pub enum ClientState {
    /// No answer yet, or one that is no socket.
    Greeted,
    /// A socket.
    Bridged,
}

/// Counts of connections. There is room for `room` sockets.
#[derive(Drop)]
pub struct Visitors {
    room: usize,
    greeted: usize,
    bridged: usize,
}

impl Model for Visitors {
    ghost use Rattle.std.specs.Prelude.{◌≤◌};
    ghost use Rattle.cam6_web.specs.Visitors.{Visiting, most_greeted};

    ghost Value = { Visiting };

    ghost view = { λ v. record { room = v.room; greeted = v.greeted; bridged = v.bridged } };

    // No more connections are there than may be.
    ghost invariant = { λ v. (v.greeted ≤ most_greeted) × (v.bridged ≤ v.room) };
}

impl Visitors {
    /// Makes the counts for no connection, with room for so many sockets.
    pub fn new(room: usize) -> Visitors
        ensures { result ≡ nobody room }
    {
        Visitors {
            room,
            greeted: 0,
            bridged: 0,
        }
    }

    /// Counts one more connection that waits for an answer. Returns false, and counts nothing, if
    /// `MOST_GREETED` of them wait already.
    pub fn enter(&mut self) -> bool
        ensures { Enters self.old result self.new }
    {
        if self.greeted == MOST_GREETED {
            return false;
        }
        self.greeted += 1;
        true
    }

    /// Counts a connection that waited as one with a socket. Returns false, and changes nothing, if
    /// there are `room` sockets already.
    pub fn open(&mut self) -> bool
        ensures { Opens self.old result self.new }
    {
        if self.bridged == self.room {
            return false;
        }
        self.greeted = self.greeted.saturating_sub(1);
        self.bridged += 1;
        true
    }

    /// Removes a connection that was counted in this state. A count of 0 stays.
    pub fn leave(&mut self, standing: ClientState)
        ensures { Leaves standing self.old self.new }
    {
        match standing {
            ClientState::Greeted => self.greeted = self.greeted.saturating_sub(1),
            ClientState::Bridged => self.bridged = self.bridged.saturating_sub(1),
        }
    }

    /// Returns whether no connection is counted.
    pub fn are_none(&self) -> bool
        ensures { result ≡ are_none self.now }
    {
        self.greeted == 0 && self.bridged == 0
    }
}
