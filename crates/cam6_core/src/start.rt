//! A core to begin with.
ghost use Rattle.std.specs.Prelude.{◌≡◌, ◌<◌, ◌≤◌, [], replicate, length, IfOk};
ghost use Rattle.cam6_cache.specs.Limits.{max_capacity};
ghost use Rattle.cam6_station.specs.Held.{idle};
ghost use Rattle.cam6_core.specs.Fresh.{fresh};
ghost use Rattle.cam6_core.specs.Good.{Good};
ghost use Rattle.cam6_commands.specs.Limits.{max_users, max_boards};
ghost use Rattle.cam6_commands.specs.declared.limits.TheConstants.{MAX_USERS, MAX_BOARDS};
ghost use Rattle.cam6_core.specs.Internal.Starting.{AreNewcomers};

use crate::parts::{Core, Whereabouts};
use crate::soft_stations::SoftStation;
use cam6_cache::TableCache;
use cam6_machine::Machine;
use cam6_planes::{NoMemory, Side};
use cam6_slot::Resting;
use cam6_station::Filling;
use std::alloc::Global;

impl Core {
    /// Makes a core of 1 to 32 users and 1 to 8 idle boards, with an empty cache for `cache`
    /// tables, 1 to 64. Each user has a blank machine. The largest side that it may have is at the
    /// user's row of `limits`, which has one for each user.
    pub fn new(
        alloc: Global,
        users: usize,
        boards: usize,
        cache: usize,
        limits: &[Side],
    ) -> Result<Core, NoMemory>
        requires a_user { 0 < users }
        requires users { users ≤ max_users }
        requires a_board { 0 < boards }
        requires boards { boards ≤ max_boards }
        requires a_table { 0 < cache }
        requires cache { cache ≤ max_capacity }
        requires limits { length limits.now ≡ users }
        ensures good { IfOk result (λ core. Good core (fresh limits.now boards)) }
        ensures empty { IfOk result (λ core.
            core.cache ≡ record { tables = []; capacity = cache }) }
        // The constants are the limits that contracts speak of.
        ensures most_users { MAX_USERS ≡ max_users }
        ensures most_boards { MAX_BOARDS ≡ max_boards }
    {
        let users = newcomers(alloc, users, limits)?;
        let boards = idle_boards(alloc, boards)?;
        Ok(Core {
            users,
            boards,
            cache: TableCache::new(alloc, cache)?,
            filling: Filling::new(alloc)?,
        })
    }
}

/// Returns the whereabouts of so many users. Each has a blank machine and no command. The largest
/// side that it may have is at the user's row of `limits`, which has one for each user.
fn newcomers(alloc: Global, users: usize, limits: &[Side]) -> Result<Vec<Whereabouts>, NoMemory>
    requires { length limits.now ≡ users }
    ensures { IfOk result (λ made. AreNewcomers limits.now made.items) }
{
    let mut made = Vec::with_capacity(alloc, users)?;
    for user in 0..users {
        let machine = Machine::new(alloc, limits[user])?;
        made.push(Whereabouts::Resting(Resting::new(machine)))?;
    }
    Ok(made)
}

/// Makes so many idle stations, one for each board.
fn idle_boards(alloc: Global, boards: usize) -> Result<Vec<SoftStation>, NoMemory>
    ensures { IfOk result (λ made. made.items ≡ replicate boards idle) }
{
    let mut made = Vec::with_capacity(alloc, boards)?;
    for _board in 0..boards {
        made.push(SoftStation::new(alloc)?)?;
    }
    Ok(made)
}
