//! Laws of a machine that comes apart. Each law is the contract of a function that does nothing.
ghost use Rattle.cam6_machine.specs.Laws.{JoinsWhatWasParted, KeptIsMachine};

/// A machine that is joined from what another one kept equals that one, but for three things. The
/// side, the cells and the position are those that are handed in.
pub fn what_is_joined_was_parted()
    ensures law { JoinsWhatWasParted }
{}

/// What a machine keeps, with any planes of a side within its limit, makes a machine that has its
/// invariant.
pub fn what_is_kept_is_a_machine()
    ensures law { KeptIsMachine }
{}
