//! A board's seat.
ghost use Rattle.std.specs.Prelude.{◌≡◌, ◌<◌, ◌≤◌, ◌+◌, [], None, IsTrue};
ghost use Rattle.std.specs.Arc.{arc_value};
ghost use Rattle.cam6_slot.specs.Leases.{TablesFit};
ghost use Rattle.cam6_slot.specs.Needs.{needs_of};
ghost use Rattle.cam6_station.specs.Loading.{FitUpTo};
ghost use Rattle.cam6_handoff.specs.declared.rule.View.TheVariants.{Idle};
ghost use Rattle.cam6_handoff.specs.Holding.{nothing};
ghost use Rattle.cam6_handoff.specs.Internal.Tokens.{BoardToken};

use crate::desks::HandTable;
use crate::permits::FillPermit;
use crate::queues::{Queue, queue_of};
use crate::steps;
use crate::steps::Token;
use cam6_board::{Job, Tables};
use cam6_cache::TableCache;
use cam6_planes::NoMemory;
use cam6_slot::{Finished, Lease, Queued};
use cam6_station::{Filling, User};
use std::marker::Model;
use std::sync::{Arc, Mutex, Wait};

/// The seat of a board: it holds nothing, or has taken the place of a user.
#[derive(Drop)]
pub struct BoardSeat {
    table: Arc<HandTable>,
    seat: Token,
    board: u8,
    users: usize,
    /// The row of the user whose place was taken.
    taken: Option<usize>,
    filling: Filling,
    permit: Arc<FillPermit>,
}

/// The most tables that a command makes without the permit to fill.
const FEW: u8 = 2;

impl Model for BoardSeat {
    ghost use Rattle.std.specs.Arc.{arc_value};
    ghost use Rattle.cam6_handoff.specs.Holding.{BoardStance};
    ghost use Rattle.cam6_handoff.specs.Internal.Tokens.{board_stance, BoardToken};

    ghost Value = { BoardStance };

    ghost view = { λ s. board_stance s.board s.users s.filling s.seat.me.0 };

    ghost invariant = { λ s.
        BoardToken (arc_value s.table).shared.table_id (arc_value s.table).shared.key.users
        s.users s.seat.table_id s.board s.taken s.seat.me };
}

impl BoardSeat {
    ghost use Rattle.cam6_slot.specs.Leases.{TablesFit};
    ghost use Rattle.cam6_station.specs.Loading.{IsAfterLoads};
    ghost use Rattle.cam6_handoff.specs.Holding.{IsIdle, emptied};
    ghost use Rattle.cam6_commands.specs.Limits.{max_users};
    ghost use Rattle.cam6_handoff.specs.Seats.{TakeGives, Accepts, AcceptsDone};

    /// Returns the board's number, counted from 0.
    pub fn number(&self) -> u8
        ensures { result ≡ self.now.number }
    {
        self.board
    }

    /// Returns the number of users of the table, who are numbered from 1. There are at most 32.
    pub fn users(&self) -> usize
        ensures users { result ≡ self.now.users }
        ensures few { result ≤ max_users }
    {
        self.users
    }

    /// Makes a `Queue`, which tells whether other commands wait. Whoever decides when to preempt a
    /// board needs it. Fails only if an allocation fails.
    pub fn queue(&self) -> Result<Queue, NoMemory> {
        let table = Arc::clone(&self.table)?;
        let permit = Arc::clone(&self.permit)?;
        Ok(queue_of(table, self.users, permit))
    }

    /// Takes the command of `user`, counted from 1, if it waits for a board. The seat has to hold
    /// nothing. Returns the lease, and the job to load the board with. If no command waits, returns
    /// `None`, and the seat still holds nothing.
    pub fn try_take(&mut self, user: usize) -> Option<(Lease, Job)>
        requires idle { IsIdle self.old }
        requires a_user { 0 < user }
        requires user { user ≤ self.old.users }
        ensures { TakeGives self.old user result self.new }
    {
        let row = user - 1;
        let queued = steps::take(&self.table.shared, &mut self.seat, row, self.board)?;
        self.taken = Some(row);
        Some(queued.lease(self.board))
    }

    /// Gives the command that the seat took back to the table, to wait for a board again. It has to
    /// stand for the command that was taken. The seat then holds nothing.
    pub fn put_back(&mut self, queued: Queued)
        requires { Accepts self.old.holds queued }
        ensures { self.new ≡ emptied self.old }
    {
        let Some(row) = self.taken.take() else {
            unreachable!()
        };
        steps::give_back(&self.table.shared, &mut self.seat, row, queued);
    }

    /// Gives the finished command that the seat took to its user's desk, and wakes the desk. The
    /// seat then holds nothing.
    pub fn put_done(&mut self, finished: Finished)
        requires { AcceptsDone self.old.holds finished }
        ensures { self.new ≡ emptied self.old }
    {
        let Some(row) = self.taken.take() else {
            unreachable!()
        };
        steps::give_done(&self.table.shared, &mut self.seat, row, finished);
    }

    /// Fills the tables that a lease needs, in the order of their uses. Copies what the cache has,
    /// and caches what it lacks. If a table can't be allocated in the cache, it isn't cached.
    pub fn fill(&mut self, lease: &Lease, cache: &mut TableCache)
        ensures tables { TablesFit lease.now.work self.new.tables }
        ensures others { self.new ≡ record self.old { tables = self.new.tables } }
        ensures loads { IsAfterLoads lease.now.work cache.old cache.new }
    {
        self.filling.fill(cache, lease);
    }

    /// Fills the tables that a lease needs, each under the cache's lock, and returns true. After
    /// two that the cache lacked, the rest needs the permit to fill, cached or not. All need it if
    /// the user's last command made many. Returns false if another seat has the permit, or no
    /// command was taken. The caller then puts the command back. That command is held back while
    /// the permit is taken.
    pub fn fill_each<R: Wait>(&mut self, rt: &R, lease: &Lease, cache: &Mutex<TableCache>) -> bool
        ensures tables { IsTrue result → TablesFit lease.now.work self.new.tables }
        ensures others { self.new ≡ record self.old { tables = self.new.tables } }
    {
        let Some(row) = self.taken else {
            return false;
        };
        let most = if self.permit.is_expensive(row) {
            0
        } else {
            FEW
        };
        let (next, few) = fill_at_most(rt, &self.permit, &mut self.filling, lease, 0, most, cache);
        if next == lease.needs() {
            return true;
        }
        if !self.permit.try_take() {
            self.permit.note(row, true);
            return false;
        }
        let (_, rest) = fill_at_most(
            rt,
            &self.permit,
            &mut self.filling,
            lease,
            next,
            u8::MAX,
            cache,
        );
        self.permit.give_back();
        self.permit.note(row, few + rest > FEW);
        true
    }

    /// Whether a command of the user must wait longer for a board. It must if a seat makes many
    /// tables, and the user's last command made many too.
    pub fn is_held_back(&self, user: User) -> bool {
        self.permit.holds_back(user.row())
    }

    /// Returns the tables, as they were filled last.
    pub fn tables(&self) -> &Tables
        ensures { result.now ≡ self.now.tables }
    {
        self.filling.tables()
    }
}

/// Fills the tables of a lease from index `from` on, each under the cache's lock. Those before
/// `from` are filled. Stops after `most` tables that the cache lacked. Returns the index after the
/// last table filled, and how many tables the cache lacked. A seat that waits for the lock has it
/// before one that has already had it.
fn fill_at_most<R: Wait>(
    rt: &R,
    permit: &FillPermit,
    filling: &mut Filling,
    lease: &Lease,
    from: u8,
    most: u8,
    cache: &Mutex<TableCache>,
) -> (u8, u8)
    requires from { from ≤ needs_of lease.now.work }
    requires fit { FitUpTo lease.now.work from filling.old }
    ensures within { result.0 ≤ needs_of lease.now.work }
    ensures filled { FitUpTo lease.now.work result.0 filling.new }
    ensures whole { result.1 < most → result.0 ≡ needs_of lease.now.work }
    ensures lacked { from + result.1 ≤ result.0 }
{
    let mut lacked = 0;
    for index in from..lease.needs() {
        if lacked == most {
            return (index, lacked);
        }
        let next = permit.next.lock(rt);
        let mut cache = cache.lock(rt);
        drop(next);
        if !filling.fill_one(&mut cache, lease, index) {
            lacked += 1;
        }
    }
    (lease.needs(), lacked)
}

/// Makes the seat of an idle board, which holds no command. Boards are numbered from 0. `seat` is
/// the board's token.
pub(crate) fn seat_of(
    table: Arc<HandTable>,
    seat: Token,
    board: u8,
    users: usize,
    filling: Filling,
    permit: Arc<FillPermit>,
) -> BoardSeat
    requires { BoardToken (arc_value table).shared.table_id (arc_value table).shared.key.users
        users seat.table_id board None seat.me }
    ensures { result ≡ record { number = board; users = users; holds = nothing; tables = filling } }
{
    BoardSeat {
        table,
        seat,
        board,
        users,
        taken: None,
        filling,
        permit,
    }
}
