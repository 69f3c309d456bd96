//! Laws of desks at the beginning. A law is the contract of a function that does nothing.
ghost use Rattle.cam6_handoff.specs.Laws.{BlankDesksAreTheirUsers, BlankDesksRest};

/// Each desk that `boot` makes has its machine, and waits for no reply.
pub fn blank_desks_rest()
    ensures law { BlankDesksRest }
{}

/// Each desk that `boot` makes is that of its own user. The first desk is that of user 1.
pub fn blank_desks_are_their_users()
    ensures law { BlankDesksAreTheirUsers }
{}
