//! Laws of runs of events. Each is the contract of a function that does nothing.
ghost use Rattle.cam6_core.specs.Headline.{RepliesAreOfCommands};
ghost use Rattle.cam6_core.specs.Laws.{GoingThroughIsEnough};

/// If the core was new, events one after another give each user their private machine's replies to
/// their accepted commands, in order. Only the last reply may be missing, if it isn't collected
/// yet. The outcomes are the model's, whatever model the core agreed with.
pub fn events_in_turn_give_the_private_replies()
    ensures law { GoingThroughIsEnough }
{}

/// If two lists of events agree on a user's accepted commands, they give this user equal replies,
/// as far as both have replied.
pub fn replies_depend_on_commands_alone()
    ensures law { RepliesAreOfCommands }
{}
