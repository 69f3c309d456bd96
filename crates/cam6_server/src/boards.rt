//! Boards at their seats, each to be served in a thread of its own.
ghost use Rattle.std.specs.Prelude.{◌≡◌};
ghost use Rattle.cam6_board.specs.Held.{empty};
ghost use Rattle.cam6_board.specs.Soft.{load_in};
ghost use Rattle.cam6_handoff.specs.Holding.{AreIdle, IsIdle};

use crate::states::{Handle, HostState};
use cam6_board::SoftBoard;
use cam6_handoff::BoardSeat;
use cam6_planes::NoMemory;
use cam6_pool::serve_board;
use std::alloc::Global;

/// An empty board, at a seat that holds nothing.
#[derive(Drop)]
pub struct IdleBoard {
    seat: BoardSeat,
    board: SoftBoard,
    ghost idle: { IsIdle seat },
    ghost unloaded: { load_in board ≡ empty },
}

impl IdleBoard {
    /// Makes an empty board at this seat, which holds no command. Fails only if an allocation
    /// fails.
    fn new(alloc: Global, seat: BoardSeat) -> Result<IdleBoard, NoMemory>
        requires { IsIdle seat }
    {
        let board = SoftBoard::new(alloc)?;
        Ok(IdleBoard { seat, board })
    }

    /// Serves users with the board until the gate of the host ends it. The board never fails, so it
    /// ends in no other way.
    pub fn serve<R: Handle>(self, host: &HostState<R>) {
        serve_board(&host.rt, self.seat, self.board, &host.cache, &host.gate);
    }
}

/// Makes an empty board that never fails at each of these seats, which hold no commands. Fails only
/// if an allocation fails.
pub fn boards_at(alloc: Global, seats: Vec<BoardSeat>) -> Result<Vec<IdleBoard>, NoMemory>
    requires { AreIdle seats.items }
{
    let mut boards = Vec::with_capacity(alloc, seats.len())?;
    for seat in seats {
        boards.push(IdleBoard::new(alloc, seat)?)?;
    }
    Ok(boards)
}
