//! What a machine says of a command at once.

use cam6_commands::Reply;
use cam6_cycle::Direction;

/// What a command comes to at once: a reply, or so many steps to do.
#[derive(Debug, Drop)]
pub enum Now {
    Reply(Reply),
    Work(u16, Direction),
}
