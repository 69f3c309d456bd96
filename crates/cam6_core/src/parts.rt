//! What a core holds.

use crate::soft_stations::SoftStation;
use cam6_cache::TableCache;
use cam6_slot::{Finished, Queued, Resting};
use cam6_station::Filling;
use std::marker::Model;

/// Where a user's machine and command are.
#[derive(Drop)]
pub enum Whereabouts {
    /// There is no command.
    Resting(Resting),
    /// The command waits for a board.
    Queued(Queued),
    /// A board has it.
    Out,
    /// The reply waits to be collected.
    Finished(Finished),
}

/// Users and boards, and the tables that they share. All memory of bands is taken at the beginning.
#[derive(Drop)]
pub struct Core {
    pub(crate) users: Vec<Whereabouts>,
    pub(crate) boards: Vec<SoftStation>,
    pub(crate) cache: TableCache,
    pub(crate) filling: Filling,
}

impl Model for Core {
    ghost use Rattle.std.specs.Prelude.{◌≤◌, length};
    ghost use Rattle.cam6_commands.specs.Limits.{max_boards, max_users};
    ghost use Rattle.cam6_core.specs.State.{State, state, AreHeldWithin};

    ghost Value = { State };

    ghost view = { λ c. state c.users.items c.boards.items c.cache };

    ghost invariant = { λ c. AreHeldWithin (length c.users.items) c.boards.items
        × (length c.boards.items ≤ max_boards) × (length c.users.items ≤ max_users) };
}
