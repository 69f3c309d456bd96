//! The three sides that a torus may have.
ghost use Rattle.std.specs.Prelude.{◌≡◌, ◌*◌, ◌%◌, ◌≤◌, IfSome, decimal, map};
ghost use Rattle.cam6_planes.specs.Limits.{max_columns};
ghost use Rattle.cam6_planes.specs.Side.{side_named, side_number, side_of, side_text, side_texts};
ghost use Rattle.cam6_planes.specs.declared.row.TheConstants.{COLUMNS, WORDS};

use crate::row::WORDS;

/// The numbers of the sides as texts.
static TEXTS: [&str; 3] = ["128", "256", "512"];

/// How many columns and rows a torus has.
#[derive(Clone, Copy, Debug, PartialEq, Eq)]
pub enum Side {
    S128,
    S256,
    S512,
}

impl Side {
    /// The number of columns, and of rows: 128, 256 or 512.
    pub fn number(self) -> usize
        ensures value { result ≡ side_number self }
        ensures whole_words { result % 128 ≡ 0 }
        ensures least { 128 ≤ result }
        ensures most { result ≤ COLUMNS }
    {
        match self {
            Side::S128 => 128,
            Side::S256 => 256,
            Side::S512 => 512,
        }
    }

    /// Returns the side of `number` columns and rows, or `None` if `number` is not 128, 256 or 512.
    pub fn of(number: u64) -> Option<Side>
        ensures side { result ≡ side_of number }
        ensures number { IfSome result (λ side. side_number side ≡ number) }
    {
        match number {
            128 => Some(Side::S128),
            256 => Some(Side::S256),
            512 => Some(Side::S512),
            _ => None,
        }
    }

    /// The number of columns as a decimal text, such as `128`.
    pub fn text(self) -> &'static str
        ensures text { result.now ≡ side_text self }
        ensures number { result.now ≡ decimal (side_number self) }
    {
        match self {
            Side::S128 => "128",
            Side::S256 => "256",
            Side::S512 => "512",
        }
    }

    /// The texts of all sides, from the smallest side on: `128`, `256` and `512`.
    pub fn texts() -> &'static [&'static str]
        ensures { map (λ text. text.now) result.now ≡ side_texts }
    {
        TEXTS.as_slice()
    }

    /// Returns the side that a text names: `128`, `256` or `512`. Returns `None` for any other
    /// text.
    pub fn named(text: &str) -> Option<Side>
        ensures side { result ≡ side_named text.now }
        ensures number { IfSome result (λ side. text.now ≡ decimal (side_number side)) }
    {
        match text {
            "128" => Some(Side::S128),
            "256" => Some(Side::S256),
            "512" => Some(Side::S512),
            _ => None,
        }
    }

    /// How many words a row has, with 64 columns to a word.
    pub fn words(self) -> usize
        ensures value { 64 * result ≡ side_number self }
        ensures some { 2 ≤ result }
        ensures most { result ≤ WORDS }
        // The constant is the limit that contracts speak of.
        ensures limit { COLUMNS ≡ max_columns }
    {
        self.number() / 64
    }
}
