//! Which users' commands wait for a board.
ghost use Rattle.std.specs.Prelude.{◌≡◌};
ghost use Rattle.std.specs.Arc.{arc_value};

use crate::desks::HandTable;
use crate::permits::FillPermit;
use crate::steps;
use std::sync::Arc;

/// A look at the words of a table, by any thread. What it returns may already have changed.
#[derive(Drop)]
pub struct Queue {
    table: Arc<HandTable>,
    users: usize,
    permit: Arc<FillPermit>,
    ghost words: { (arc_value table).shared.table_id.words ≡ users },
}

impl Queue {
    /// Whether a command of another user than `user`, counted from 1, waits for a board and isn't
    /// held back. With `None`, a command of any user counts. A command is held back while a seat
    /// makes many tables, if its user's last command made many.
    pub fn has_other(&self, user: Option<usize>) -> bool {
        for row in 0..self.users {
            let is_ready = self.table.shared.peek(row) == steps::READY;
            if user != Some(row + 1) && is_ready && !self.permit.holds_back(row) {
                return true;
            }
        }
        false
    }
}

/// Makes a `Queue` that looks at the words of a table. `users` is the number of its users.
pub(crate) fn queue_of(table: Arc<HandTable>, users: usize, permit: Arc<FillPermit>) -> Queue
    requires { (arc_value table).shared.table_id.words ≡ users }
{
    Queue {
        table,
        users,
        permit,
    }
}
