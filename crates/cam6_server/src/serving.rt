//! How much a host has, and why it can't go on.
ghost use Rattle.std.specs.Prelude.{◌≡◌, ◌<◌, ◌≤◌};
ghost use Rattle.cam6_cache.specs.Limits.{max_capacity};
ghost use Rattle.cam6_commands.specs.Limits.{max_users, max_boards};

use cam6_planes::{NoMemory, Side};
use std::marker::Model;

/// Users, boards, and tables that are cached, of each one at least and no more than a host can have;
/// the largest side that a machine may have; connections, or 0 for connections without end; and how
/// many seconds a client with a seat may be silent, or 0 for no limit.
#[derive(Clone, Copy, Debug, PartialEq, Eq)]
pub struct Serving {
    pub(crate) users: usize,
    pub(crate) boards: u8,
    pub(crate) cache: usize,
    pub(crate) limit: Side,
    pub(crate) connections: u64,
    pub(crate) idle: u32,
}

impl Model for Serving {
    ghost use Rattle.cam6_server.specs.Serving.{Served, IsWithin};

    ghost Value = { Served };

    ghost view = { λ s. record {
      users = s.users;
      boards = s.boards;
      cache = s.cache;
      limit = s.limit;
      connections = s.connections;
      idle = s.idle;
    } };

    ghost inverse = { λ s. record {
      users = s.users;
      boards = s.boards;
      cache = s.cache;
      limit = s.limit;
      connections = s.connections;
      idle = s.idle;
    } };

    ghost invariant = { λ s. IsWithin (record {
      users = s.users;
      boards = s.boards;
      cache = s.cache;
      limit = s.limit;
      connections = s.connections;
      idle = s.idle;
    }) };
}

impl Serving {
    /// Makes the settings of a host: 1 to 32 users, 1 to 8 boards, 1 to 64 cached tables, and
    /// machines up to the side `limit`. It ends after `connections` connections, or never for 0. A
    /// seated client may be silent for `idle` seconds, or without limit for 0.
    pub fn new(
        users: usize,
        boards: u8,
        cache: usize,
        limit: Side,
        connections: u64,
        idle: u32,
    ) -> Serving
        requires a_user { 0 < users }
        requires users { users ≤ max_users }
        requires a_board { 0 < boards }
        requires boards { boards ≤ max_boards }
        requires a_table { 0 < cache }
        requires tables { cache ≤ max_capacity }
        ensures { result ≡ record {
          users = users;
          boards = boards;
          cache = cache;
          limit = limit;
          connections = connections;
          idle = idle;
        } }
    {
        Serving {
            users,
            boards,
            cache,
            limit,
            connections,
            idle,
        }
    }
}

/// Why a host can't go on.
#[derive(Clone, Copy, Debug, PartialEq, Eq)]
pub enum Fault {
    /// Memory was asked for and refused.
    NoMemory,
    /// The network failed.
    Network,
    /// A thread for a board could not be started.
    NoThread,
}

impl From<NoMemory> for Fault {
    ghost use Rattle.cam6_server.specs.declared.serving.Fault.TheVariants.{NoMemory};

    ghost from_gives = { λ _ fault. fault ≡ NoMemory };

    /// Returns the host's fault `NoMemory` for a failed allocation.
    fn from(_refused: NoMemory) -> Fault {
        Fault::NoMemory
    }
}
