//! Laws that tie what is seen to the address that it makes, rotations to the block, texts to what
//! they name, and what is the same. Each is the contract of a function that does nothing.
ghost use Rattle.cam6_wiring.specs.Laws.{ShowsWhatIsSeen, ShowsNothingElse};
ghost use Rattle.cam6_wiring.specs.Laws.{LinesAreNamed, IsItselfAlone, RotationsInTheBlock};
ghost use Rattle.cam6_wiring.specs.Laws.{WiringsAreThemselves, TextsNameWhatTheyAreOf};

/// If a name stands on line k, bit k of the address is what the cell sees under this name.
pub fn an_address_shows_what_is_seen()
    ensures law { ShowsWhatIsSeen }
{}

/// If line k has no name, bit k of the address is 0.
pub fn an_address_shows_nothing_else()
    ensures law { ShowsNothingElse }
{}

/// `line_of` returns a line for a name exactly if `names_of` has this name at the line, under each
/// neighbourhood and minor assignment.
pub fn lines_are_named()
    ensures law { LinesAreNamed }
{}

/// The comparison of two names is true exactly if they are one name.
pub fn a_name_is_itself_alone()
    ensures law { IsItselfAlone }
{}

/// The comparison of two wirings is true exactly if they are one wiring.
pub fn wirings_are_themselves()
    ensures law { WiringsAreThemselves }
{}

/// The text of a half, a neighbourhood, a minor assignment or a grid is read as just that one. No
/// other text is read as it.
pub fn texts_name_what_they_are_of()
    ensures law { TextsNameWhatTheyAreOf }
{}

/// On a torus of even side, a cell sees a cell of its own block under each rotation. That cell lies
/// further clockwise: one corner, two for opposite, three for counterclockwise.
pub fn rotations_stay_in_the_block()
    ensures law { RotationsInTheBlock }
{}
