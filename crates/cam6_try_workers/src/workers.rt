//! Workers in threads of their own, and the seats of those that have ended.
ghost use Rattle.std.specs.Prelude.{◌≡◌};
ghost use Rattle.cam6_board.specs.Held.{empty};
ghost use Rattle.cam6_handoff.specs.Holding.{IsIdle};

use crate::boards::TriedBoard;
use crate::shares::Shared;
use crate::threads::{Flag, Handle, Thread};
use cam6_board::Board;
use cam6_handoff::BoardSeat;
use cam6_pool::{Ended, serve_board};
use cam6_try_examples::no_memory;
use std::sync::Arc;
use std::thread::spawn;
use std::{io, mem};

/// A seat that holds nothing.
#[derive(Drop)]
pub struct IdleSeat {
    seat: BoardSeat,
    ghost idle: { IsIdle seat },
}

impl IdleSeat {
    /// Takes the user's command from the seat, and puts it back as it is. Users count from 1.
    /// Returns how many bands are left of it, or `None` if no command waits or if there is no such
    /// user.
    fn left(&mut self, user: usize) -> Option<u64> {
        if user == 0 || user > self.seat.users() {
            return None;
        }
        let (lease, job) = self.seat.try_take(user)?;
        let left = lease.left();
        self.seat.put_back(lease.preempt(job.into_image()));
        Some(left)
    }
}

/// A board that holds nothing.
#[derive(Drop)]
struct EmptyBoard<R: Handle> {
    board: TriedBoard<R>,
    ghost empty: { board.inner.load ≡ empty },
}

/// What is left of a worker that has ended.
#[derive(Drop)]
pub struct Left {
    seat: IdleSeat,
    /// How often its board failed.
    pub faults: u64,
    pub ended: Ended,
}

/// A worker, or what is left of one, or neither if it could not be started.
#[derive(Drop)]
pub struct Worker {
    /// The thread, while it isn't joined.
    thread: Option<Thread<Left>>,
    /// What is left after it is joined.
    pub left: Option<Left>,
}

impl Worker {
    /// Makes a worker that has a seat, which holds nothing, and no thread yet.
    pub fn new(seat: BoardSeat) -> Worker
        requires { IsIdle seat }
    {
        let left = Left {
            seat: IdleSeat { seat },
            faults: 0,
            ended: Ended::Stopped,
        };
        Worker {
            thread: None,
            left: Some(left),
        }
    }

    /// Starts a thread that serves at the worker's seat, with a board that fails at this call, or
    /// never for `None`. Loads, bands and unloads are counted together, from 1. Returns false, and
    /// starts none, if the worker's seat isn't here. Fails if memory runs out, and
    /// then the seat may be lost.
    pub fn serve<R: Handle + Send + Sync + 'static>(
        &mut self,
        shared: &Arc<Shared<R>>,
        call: Option<u64>,
    ) -> io::Result<bool> {
        let flag = Flag::new(shared.rt.alloc())?;
        let raised = flag.shared()?;
        let theirs = Arc::try_clone(shared)?;
        let board = empty_board(shared, call)?;
        let Some(left) = self.left.take() else {
            return Ok(false);
        };
        let thread = started(theirs, left.seat, board, flag, raised);
        drop(mem::replace(&mut self.thread, thread));
        if self.thread.is_none() {
            return Err(no_memory());
        }
        Ok(true)
    }

    /// Returns whether the worker has a thread that has not come to its end.
    pub fn is_running(&self) -> bool {
        match &self.thread {
            Some(thread) => !thread.is_over(),
            None => false,
        }
    }

    /// Waits for the worker's thread to end, joins it, and returns how it ended. Returns `None` if
    /// there is no thread, or if it runs on for more than `LOOKS` milliseconds.
    pub fn join<R: Handle>(&mut self, rt: &R) -> Option<Ended> {
        if !self.is_over(rt) {
            return None;
        }
        let left = self.thread.take()?.handle.join(rt);
        let ended = left.ended;
        self.left.insert(left);
        Some(ended)
    }

    /// Waits for the worker's thread to end. Returns false if there is none, or if it runs on for
    /// more than `LOOKS` milliseconds.
    fn is_over<R: Handle>(&self, rt: &R) -> bool {
        match &self.thread {
            Some(thread) => thread.ends(rt),
            None => false,
        }
    }

    /// Returns how many bands are left of the command of this user, counted from 1. Returns `None`
    /// if the worker isn't joined, if no command waits, or if there is no such user. The command is
    /// taken from the seat and put back.
    pub fn bands_left(&mut self, user: usize) -> Option<u64> {
        match &mut self.left {
            Some(left) => left.seat.left(user),
            None => None,
        }
    }
}

/// Makes an empty board that fails at this call, or never for `None`. Loads, bands and unloads are
/// counted together, from 1.
fn empty_board<R: Handle>(shared: &Arc<Shared<R>>, call: Option<u64>) -> io::Result<EmptyBoard<R>> {
    match TriedBoard::new(shared, call) {
        Ok(board) => Ok(EmptyBoard { board }),
        Err(_) => Err(no_memory()),
    }
}

/// Starts a thread that serves at the seat, and then raises the flag `raised`. `flag` is another
/// handle to that flag, for the caller. Returns `None`, and loses the seat, if it can't be started.
fn started<R: Handle + Send + Sync + 'static>(
    shared: Arc<Shared<R>>,
    seat: IdleSeat,
    board: EmptyBoard<R>,
    flag: Flag,
    raised: Flag,
) -> Option<Thread<Left>> {
    let rt = shared.rt;
    let handle = spawn(&rt, move || serve(&shared, seat, board, &raised)).ok()?;
    Some(Thread { handle, flag })
}

/// Serves at the seat with a board until the worker ends, and then raises the flag. Returns the
/// seat, how often the board failed, and how the worker ended.
fn serve<R: Handle>(
    shared: &Shared<R>,
    seat: IdleSeat,
    board: EmptyBoard<R>,
    raised: &Flag,
) -> Left {
    let (seat, board, ended) = serve_board(
        &shared.rt,
        seat.seat,
        board.board,
        &shared.cache,
        shared,
    );
    raised.raise();
    Left {
        seat: IdleSeat { seat },
        faults: board.faults(),
        ended,
    }
}
