//! Events one after another.
ghost use Rattle.std.specs.Prelude.{◌≡◌, IfOk, OnErr};
ghost use Rattle.cam6_core.specs.Headline.{HeadlineFromNew};
ghost use Rattle.cam6_core.specs.Runs.{Counts, GoThrough};

use crate::parts::Core;
use cam6_commands::{Event, Outcome};
use cam6_planes::NoMemory;
use std::alloc::Global;

/// Does events one after another, and returns their outcomes, one for each event. If the list of
/// outcomes can't be allocated, does none of the events.
pub fn run(alloc: Global, core: &mut Core, events: Vec<Event>) -> Result<Vec<Outcome>, NoMemory>
    // If the core was new, the replies that each user is given are, in order, those of their
    // machine alone to their accepted commands. It evaluates rule words cell by cell.
    ensures headline { IfOk result (λ outcomes.
        HeadlineFromNew core.old events.items outcomes.items core.new) }
    ensures count { IfOk result (λ outcomes.
        Counts core.old events.items outcomes.items core.new) }
    ensures done { IfOk result (λ outcomes.
        GoThrough core.old events.items outcomes.items core.new) }
    ensures err { OnErr result (core.new ≡ core.old) }
{
    let mut outcomes = Vec::with_capacity(alloc, events.len())?;
    for event in events {
        let outcome = core.apply(event);
        outcomes.push_reserved(outcome);
    }
    Ok(outcomes)
}
