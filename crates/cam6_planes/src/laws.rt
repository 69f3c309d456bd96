//! The laws of a row's digits and of its bytes. Each is the contract of an empty function.
ghost use Rattle.cam6_planes.specs.Laws.{DigitsAreReadBack, BytesShowTheRow, NoOthersShowIt};
ghost use Rattle.cam6_planes.specs.Laws.{BytesHaveItsDigits};

/// At every side, `bits_of_digits` of a row's hexadecimal digits gives back the row's bits.
pub fn digits_are_read_back()
    ensures law { DigitsAreReadBack }
{}

/// The n bytes that are made from a row have the row's bit at each of their 8n columns. The highest
/// bit of the first byte is column 0.
pub fn a_rows_bytes_show_it()
    ensures law { BytesShowTheRow }
{}

/// Any n bytes that have a row's bit at each of their 8n columns are the bytes that are made from
/// the row.
pub fn no_other_bytes_show_a_row()
    ensures law { NoOthersShowIt }
{}

/// The n bytes that are made from a row have the same 2n hexadecimal digits, in lower case, as the
/// row.
pub fn a_rows_bytes_have_its_digits()
    ensures law { BytesHaveItsDigits }
{}
