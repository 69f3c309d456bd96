//! Bit planes of a torus of 128, 256 or 512 cells a side. Each cell has one bit in each plane, and
//! a word holds 64 columns.
//!
//! Contract: planes are specified by `cells` (`specs/Cells.antt`), the truth value at each plane,
//! column and row of a torus. `blank` sets none. `bit`, `row_words`, `row_hex` and `row_bits` show
//! what is there, and `row` lends a row of all four planes. `set_row_words` and `put_row` change
//! one row of one plane and nothing else. `copy_from` copies the cells and the side of other
//! planes. `set_side` changes the side and clears every cell. It allows sides up to the limit that
//! `blank` allocated. `west` and `east` move a row by one column. `moved_east` and `moved_west`
//! move a word, and one column comes in from the word beside it. `chosen_word` mixes two words by
//! the columns of a mask, and `word_of` has one bit in every column. `bits_of_digits` reads
//! hexadecimal digits of either case, if they are as many as a row of one of the sides has
//! (`specs/Digits.antt`). `Side::named` returns the side of a text, which is its number in decimal
//! digits.
//!
//! The laws: the digits that `row_hex` writes of a row are read back as its bits. The bytes that
//! `row_bits` makes of a row show it, no others do, and their digits are the row's.
//!
//! Stands on: `hex`, for a row's digits. Column 0 is the highest bit of a row's first word, of its
//! first byte and of its first hexadecimal digit.
//!
//! Read next: `sides`; `row`, one packed row and its shifts by one column; `columns`, those of a word;
//! `digits`, how they are made and read; then `planes`; then `memory` and `laws`.
#![tactic(auto)]

mod columns;
mod digits;
pub mod laws;
mod memory;
mod planes;
mod row;
mod sides;

pub use columns::{chosen_word, word_of};
pub use digits::{Bits, bits_of_digits};
pub use memory::NoMemory;
pub use planes::Planes;
pub use row::{
    BYTES, COLUMNS, CellRow, DIGITS, Row, WORDS, east, moved_east, moved_west, put_east, put_west,
    west,
};
pub use sides::Side;
