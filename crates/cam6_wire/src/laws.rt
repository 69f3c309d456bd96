//! The laws of lines: a line says what its JSON value shows, one line loads a machine in each
//! version, the text of a rule is UTF-8, and each answer is one line. Each law is the contract of a
//! function that does nothing.
ghost use Rattle.cam6_wire.specs.Laws.{ShownIsSaid, SaidIsShown, TextIsUtf8};
ghost use Rattle.cam6_wire.specs.Laws.{LoadHasOneLine, OneLineLoads, OneTextOneSaved};
ghost use Rattle.cam6_wire.specs.Laws.{ShownEventIsSaid, SaidEventIsShown, AskedTextIsUtf8};
ghost use Rattle.cam6_wire.specs.Laws.{ShownSeatIsSaid, SaidSeatIsShown};
ghost use Rattle.cam6_wire.specs.Laws.{ReplyIsLine, FaultIsLine, OutcomeIsLine, SeatingIsLine};

/// A line within its limit is read as the command that its JSON value shows. A load must also be
/// spelled as a version has it.
pub fn a_line_is_read_as_its_value_shows()
    ensures law { ShownIsSaid }
{}

/// A line that is read as a command is within its limit, and has a JSON value that shows this
/// command: the command's keys, and no others. A load is spelled as a version has it.
pub fn a_said_command_is_shown()
    ensures law { SaidIsShown }
{}

/// A line that is read as a load of a saved machine is the one line that has this machine, in one
/// of the versions.
pub fn a_load_has_one_line()
    ensures law { LoadHasOneLine }
{}

/// The one line that has a saved machine in a version is read as its load, if the line is within
/// the limit.
pub fn the_one_line_loads()
    ensures law { OneLineLoads }
{}

/// Two saved machines that are written as one text, in one version, are equal.
pub fn one_text_is_of_one_saved_machine()
    ensures law { OneTextOneSaved }
{}

/// If a line is read as the definition of a rule, the rule's text is UTF-8.
pub fn a_rules_text_is_utf8()
    ensures law { TextIsUtf8 }
{}

/// A line within its limit is read as the event that its JSON value shows.
pub fn a_shown_event_is_said()
    ensures law { ShownEventIsSaid }
{}

/// A line that is read as an event is within its limit, and has a JSON value that shows this event:
/// the event's keys, and no others.
pub fn a_said_event_is_shown()
    ensures law { SaidEventIsShown }
{}

/// If a line is read as a user's ask that defines a rule, the rule's text is UTF-8.
pub fn an_asked_rules_text_is_utf8()
    ensures law { AskedTextIsUtf8 }
{}

/// A line within its limit whose JSON value is `{"seat":N}` is read as the seat of user N.
pub fn a_shown_seat_is_said()
    ensures law { ShownSeatIsSaid }
{}

/// A line that is read as a user's seat has the JSON value `{"seat":N}`, with this user's number
/// and no other key.
pub fn a_read_seat_has_its_value()
    ensures law { SaidSeatIsShown }
{}

/// The text of a reply has no LF, whatever names and texts are in the reply.
pub fn a_reply_is_one_line()
    ensures law { ReplyIsLine }
{}

/// The text of a line's fault has no LF.
pub fn a_fault_is_one_line()
    ensures law { FaultIsLine }
{}

/// The text of an event's outcome has no LF.
pub fn an_outcome_is_one_line()
    ensures law { OutcomeIsLine }
{}

/// The text of the answer to a first line has no LF.
pub fn a_seating_is_one_line()
    ensures law { SeatingIsLine }
{}
