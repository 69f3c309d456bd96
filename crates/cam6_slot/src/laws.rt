//! What follows of places. Each law is the contract of a function that does nothing.
ghost use Rattle.cam6_slot.specs.Laws.{NeededTablesFit, PlacesHaveTheSide};

/// Tables fit a lease if each of them is the table that the lease needs for its use of a rule. The
/// table at an index is for the use of this number, counted from 0.
pub fn needed_tables_fit()
    ensures law { NeededTablesFit }
{}

/// If a waiting command or a lease stands for a command of a machine, its image at home has the
/// machine's side.
pub fn places_have_the_side()
    ensures law { PlacesHaveTheSide }
{}
