//! The replies to steps along a cycle.
ghost use Rattle.std.specs.Prelude.{◌≡◌};
ghost use Rattle.cam6_machine.specs.Internal.Ways.{reply_at, work_or_reply};

use crate::replies::Now;
use cam6_commands::{Done, Reply, StepCount};
use cam6_cycle::Direction;

/// Returns the steps as work to do in this direction. If there are 0, returns the command's reply
/// with the position.
pub(crate) fn work_or_reply(steps: StepCount, direction: Direction, position: usize) -> Now
    ensures { result ≡ work_or_reply steps direction position }
{
    match steps.number() {
        0 => Now::Reply(reply_at(direction, position)),
        n => Now::Work(n, direction),
    }
}

/// Returns the reply to a command whose steps led to this position, counted from 0: that of `run`
/// forward, and that of `back` backward.
pub(crate) fn reply_at(direction: Direction, position: usize) -> Reply
    ensures { result ≡ reply_at direction position }
{
    match direction {
        Direction::Forward => Reply::Done(Done::Run { position }),
        Direction::Backward => Reply::Done(Done::Back { position }),
    }
}
