//! What the gate answers workers, and what it was asked.

use cam6_pool::Turn;
use cam6_try_examples::no_memory;
use std::alloc::Global;
use std::io;

/// What the gate answers once, at a user's band. If it is Go, the board is held there first.
#[derive(Clone, Copy)]
pub struct Once {
    pub turn: Turn,
    pub user: u8,
    pub band: u8,
}

/// What the gate was asked, and what it answered.
#[derive(Clone, Copy)]
struct Asked {
    board: u8,
    user: u8,
    band: u8,
    turn: Turn,
}

/// A gate that answers Go, but once, and notes what it is asked.
#[derive(Drop)]
pub struct Watch {
    once: Option<Once>,
    asked: Vec<Asked>,
    /// There was no memory for a note.
    is_short: bool,
}

impl Watch {
    /// Makes a gate that notes what it is asked. It answers Go, but once as `once` says, or always
    /// for `None`.
    pub fn new(alloc: Global, once: Option<Once>) -> Watch {
        Watch {
            once,
            asked: Vec::new(alloc),
            is_short: false,
        }
    }

    /// Returns the gate's verdict before this band of this user at this board, and notes it. The
    /// bool says whether the board is to be held first. Users count from 1, boards and a step's
    /// bands from 0.
    pub fn turn(&mut self, board: u8, user: u8, band: u8) -> (Turn, bool) {
        let (turn, holds) = match self.once {
            Some(once) if once.user == user && once.band == band => {
                self.once = None;
                (once.turn, once.turn == Turn::Go)
            }
            _ => (Turn::Go, false),
        };
        let asked = Asked {
            board,
            user,
            band,
            turn,
        };
        self.is_short |= self.asked.push(asked).is_err();
        (turn, holds)
    }

    /// Returns the numbers of the user's bands, from 0 in each step, in the order in which boards
    /// asked for them, with spaces between. `preempt` or `stop` follows a number if that was the
    /// verdict. Users count from 1. Fails if there was no memory for a note.
    pub fn bands(&self, alloc: Global, user: usize) -> io::Result<String> {
        self.checked()?;
        let mut text = String::new(alloc);
        for asked in self.asked.as_slice() {
            if usize::from(asked.user) == user {
                add_band(alloc, &mut text, *asked)?;
            }
        }
        Ok(text)
    }

    /// Returns whether each of two users had a board do a band, and no board did a band of both.
    /// Fails if there was no memory for a note.
    pub fn are_apart(&self, one: usize, other: usize) -> io::Result<bool> {
        self.checked()?;
        let (ones, others) = (self.boards(one), self.boards(other));
        Ok(ones != 0 && others != 0 && ones & others == 0)
    }

    /// Returns the boards that did a band of the user, one bit for each. Board 0 is the lowest bit.
    fn boards(&self, user: usize) -> u64 {
        let mut boards: u64 = 0;
        for asked in self.asked.as_slice() {
            if usize::from(asked.user) == user && asked.turn == Turn::Go {
                boards |= 1u64.wrapping_shl(u32::from(asked.board));
            }
        }
        boards
    }

    /// Fails if there was no memory for a note.
    fn checked(&self) -> io::Result<()> {
        if self.is_short {
            return Err(no_memory());
        }
        Ok(())
    }
}

/// Adds the number of a band to a text, with a space before it unless it is the first. Adds `
/// preempt` or ` stop` if that was the verdict.
fn add_band(alloc: Global, text: &mut String, asked: Asked) -> io::Result<()> {
    let space = if text.is_empty() { "" } else { " " };
    let answer = match asked.turn {
        Turn::Go => "",
        Turn::Preempt => " preempt",
        Turn::Stop => " stop",
    };
    let band = format!(in alloc; "{space}{}{answer}", asked.band)?;
    text.push_str(band.as_str())?;
    Ok(())
}
