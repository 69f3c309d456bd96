//! What the words of the command line ask for.

use cam6_planes::Side;
use cam6_server::Serving;
use std::marker::Model;

/// What the program is to do.
#[derive(Clone, Copy, Debug, PartialEq, Eq)]
pub enum Options {
    /// Serve one machine's lines on standard input.
    Alone {
        /// The largest side that the machine may have.
        limit: Side,
    },
    /// Do the events of the lines on standard input.
    Replay {
        sharing: Sharing,
        /// The largest side that each user's machine may have.
        limit: Side,
    },
    /// Serve users over connections to a port of this machine.
    Serve {
        serving: Serving,
        /// 1 at least.
        port: u16,
    },
}

/// How many users share how many boards, and a cache of how many tables. Of each there is one at
/// least, and no more than a core can have.
#[derive(Clone, Copy, Debug, PartialEq, Eq)]
pub struct Sharing {
    pub(crate) users: usize,
    pub(crate) boards: usize,
    pub(crate) cache: usize,
}

impl Model for Sharing {
    ghost use Rattle.cam6_cli.specs.Sharing.{Shared, IsWithin};

    ghost Value = { Shared };

    ghost view = { λ s. record { users = s.users; boards = s.boards; cache = s.cache } };

    ghost inverse = { λ s. record { users = s.users; boards = s.boards; cache = s.cache } };

    ghost invariant = { λ s. IsWithin (record {
      users = s.users;
      boards = s.boards;
      cache = s.cache;
    }) };
}
