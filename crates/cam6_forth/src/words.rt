//! The words of a rule.

use cam6_wiring::{Half, Name};

/// A word that works on the stack alone.
#[derive(Clone, Copy, Debug, PartialEq, Eq)]
pub enum StackWord {
    Dup,
    Drop,
    Swap,
    Over,
    Rot,
    Plus,
    Minus,
    Times,
    And,
    Or,
    Xor,
    /// `0=`
    IsZero,
    /// `=`
    Equal,
    /// `<`
    Less,
    /// `>`
    Greater,
}

/// The planes of a half that an output word writes.
#[derive(Clone, Copy, Debug, PartialEq, Eq)]
pub enum Target {
    /// `>PLN0` and `>PLN2`
    Lower,
    /// `>PLN1` and `>PLN3`
    Upper,
    /// `>PLNA` and `>PLNB`
    Both,
}

/// An output word: the half that it belongs to, and what it writes there.
#[derive(Clone, Copy, Debug, PartialEq, Eq)]
pub struct Output {
    pub half: Half,
    pub target: Target,
}

/// What a token says by itself in a body.
#[derive(Clone, Copy, Debug, PartialEq, Eq)]
pub enum SingleWord {
    Literal(u16),
    Name(Name),
    Stack(StackWord),
    Output(Target),
    /// The definition at this position, counted from 0. It stands before the one that uses it.
    Defined(usize),
}

/// A word of a definition's body. IF, ELSE, THEN and the braces stand in a row with the others, as
/// they are written.
#[derive(Clone, Copy, Debug, PartialEq, Eq)]
pub enum Word {
    Single(SingleWord),
    If,
    Else,
    Then,
    /// `{`
    Cases,
    /// `}`
    EndCases,
}
