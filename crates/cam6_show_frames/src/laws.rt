//! The laws of texts that are made of rows. Each is the contract of a function that does nothing.
ghost use Rattle.cam6_show_frames.specs.Laws.{ColoursAreReadBack, BitsAreReadBack};

/// `colours_of_text` reads a row's text, one lower case hexadecimal digit for each colour, as this
/// row.
pub fn colours_are_read_back()
    ensures law { ColoursAreReadBack }
{}

/// `bits_of_text` reads a row's text, one hexadecimal digit for four columns, as its bits. Each is
/// a colour: 1 where the bit is set, and 0 elsewhere.
pub fn bits_are_read_back()
    ensures law { BitsAreReadBack }
{}
