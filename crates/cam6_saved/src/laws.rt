//! What follows from the text of a machine. Each law is the contract of a function that does
//! nothing.
ghost use Rattle.cam6_saved.specs.Laws.{LineIsSaid, LineGivesBack, NoOtherLineLoads};
ghost use Rattle.cam6_saved.specs.Laws.{OneTextOneMachine};

/// The line that loads a saved machine is read as the load of this machine. This holds for the
/// second version, and for the first if the machine's side is 256.
pub fn a_machines_line_is_said()
    ensures law { LineIsSaid }
{}

/// A machine whose limit is at least a saved machine's side does the load on this machine's line,
/// in a version that it has. It becomes the saved machine, except for its limit.
pub fn a_machines_line_gives_it_back()
    ensures law { LineGivesBack }
{}

/// If a machine does a load, the load's line is the line of the machine that it becomes.
pub fn no_other_line_loads_a_machine()
    ensures law { NoOtherLineLoads }
{}

/// Two machines that are saved as one text, in the second version, differ only in their limits.
pub fn one_text_is_of_one_machine()
    ensures law { OneTextOneMachine }
{}
