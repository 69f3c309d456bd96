//! Seats that have many tables to make do so one after the other.

use std::sync::Mutex;
use std::sync::atomic::{AtomicU32, Ordering};

/// What all seats of a table share: one permit to fill, and which users' last commands made many
/// tables.
#[derive(Drop)]
pub(crate) struct FillPermit {
    /// The seat that holds it has the cache's lock next.
    pub next: Mutex<()>,
    /// 1 while a seat has the permit, and else 0.
    taken: AtomicU32,
    /// A bit for each row, 1 if the user's last command made many tables.
    expensive: AtomicU32,
}

/// Returns a word in which only the row's bit is 1: row 0 has the lowest bit. There is a bit for
/// each user, since there are at most 32 (`MAX_USERS`).
fn bit_of(row: usize) -> u32 {
    1u32.wrapping_shl((row % 32) as u32)
}

impl FillPermit {
    /// Makes a permit that no seat has. No user's command is known to have made many tables.
    pub fn new() -> FillPermit {
        FillPermit {
            next: Mutex::new(()),
            taken: AtomicU32::new(0),
            expensive: AtomicU32::new(0),
        }
    }

    /// Takes the permit, and returns true. Returns false, and changes nothing, if a seat has it
    /// already, even this one.
    pub fn try_take(&self) -> bool {
        self.taken.fetch_or(1, Ordering::SeqCst) == 0
    }

    /// Frees the permit. This seat must have it.
    pub fn give_back(&self) {
        self.taken.store(0, Ordering::SeqCst);
    }

    /// Returns what `note` wrote last for the row's user: whether their command made many tables.
    /// It is false before the first `note`. Rows are counted from 0.
    pub fn is_expensive(&self, row: usize) -> bool {
        self.expensive.load(Ordering::SeqCst) & bit_of(row) != 0
    }

    /// Whether the command in a row, counted from 0, must wait without a board. It must if a seat
    /// has the permit, and the last command of the row's user made many tables.
    pub fn holds_back(&self, row: usize) -> bool {
        self.taken.load(Ordering::SeqCst) != 0 && self.is_expensive(row)
    }

    /// Notes whether a command of the row's user made many tables, or still has to make many. Rows
    /// are counted from 0: user 1 has row 0.
    pub fn note(&self, row: usize, is_expensive: bool) {
        let bit = bit_of(row);
        if is_expensive {
            self.expensive.fetch_or(bit, Ordering::SeqCst);
        } else {
            self.expensive.fetch_and(!bit, Ordering::SeqCst);
        }
    }
}
