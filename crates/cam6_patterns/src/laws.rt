//! The law of run-length texts.
ghost use Rattle.cam6_patterns.specs.Laws.{TextIsReadBack};

/// The text that is made of rows of one length is read as a pattern with their cells, at column 0
/// and row 0. It is read for a torus with room for them, and with as many states or more.
pub fn text_is_read_back()
    ensures law { TextIsReadBack }
{}
