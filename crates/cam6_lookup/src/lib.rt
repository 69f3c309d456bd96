//! Look-ups for many cells: the entries at the addresses that twelve lines show, 128 columns at a
//! time.
//!
//! Contract: `look_up_words` writes words of two planes. At each column they have the two lowest
//! bits of the entry at the address that the lines show there (`specs/Entries.antt`). The lines and
//! the planes are arrays of words, all of one length. `look_up_rows` does the same for a whole row
//! of cells. What the entries mean does not matter.
//!
//! Stands on: `cam6_planes`, for rows; `cam6_wiring`, for lines.
//!
//! How: the lines and four rows of zeros are a square of bits for each sixteen columns. Four rounds
//! transpose it over its diagonal. Each round swaps one binary digit of a row's number with that
//! digit of the position in the row. Then each word has four addresses of sixteen bits, one after
//! the other.
//!
//! In the field's words, lines and planes are bit-sliced: a word has one bit of each of 64 cells
//! (Biham, "A Fast New DES Implementation in Software", FSE 1997). The rounds are masked swaps of
//! bits (Knuth, "The Art of Computer Programming", volume 4A, section 7.1.3).
//!
//! Read next: `digits`, then `swap`, the transposing; then `look_up`.
#![tactic(auto)]

mod digits;
mod look_up;
mod swap;

pub use look_up::{look_up_rows, look_up_words};
