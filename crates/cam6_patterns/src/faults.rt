//! Why a text is no pattern, and where.

/// Why a text is no pattern.
#[derive(Clone, Copy, Debug, PartialEq, Eq)]
pub enum Cause {
    /// Another line stands in place of the header, or the text has no header.
    NoHeader,
    /// A byte that says nothing of cells, or a number with nothing after it.
    Unexpected,
    /// A number that is larger than the columns of the largest torus.
    CountTooLarge,
    /// More columns than the torus has, or than the header says.
    TooWide,
    /// More rows than the torus has, or than the header says.
    TooHigh,
    /// A state that the planes can't hold.
    TooManyStates,
    /// The text ends without a `!`.
    NoEnd,
}

/// The first fault of a text: its line and column, counted from 1, and its cause.
#[derive(Clone, Copy, Debug, PartialEq, Eq)]
pub struct PatternFault {
    pub line: usize,
    pub column: usize,
    pub cause: Cause,
}
