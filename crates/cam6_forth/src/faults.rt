//! The faults of a text with their numbers.
ghost use Rattle.std.specs.Prelude.{◌≡◌};

use std::alloc::{AllocError, AllocFailed};

/// The fault of a token, or of the end of a text.
#[derive(Clone, Copy, Debug, PartialEq, Eq)]
pub(crate) enum TokenFault {
    /// In a body: a name that isn't known there, or that this hood and minor lack.
    UnknownWord,
    /// After `:`, a reserved token or a name already defined.
    NotDefinable,
    /// A token, or the end of the text, where it may not stand.
    OutOfPlace,
    /// The definition's size passes `MAX_SIZE`.
    TooLarge,
    /// An IF in a definition with `MAX_OPEN_IFS` open ones.
    TooManyIfs,
    /// An output word of the other half.
    OtherHalf,
    /// A literal above 65,535.
    LiteralRange,
    /// The text ends with no definition.
    NoDefinition,
    /// One more than `MAX_DEFINITIONS`; with token 0, more than `MAX_TEXT` bytes.
    TooLong,
}

impl TokenFault {
    ghost use Rattle.cam6_forth.specs.Limits.{fault_number};

    /// The fault's number in replies, from 20 to 28, in the order of the variants.
    pub(crate) fn number(self) -> u8
        ensures { result ≡ fault_number self }
    {
        match self {
            TokenFault::UnknownWord => 20,
            TokenFault::NotDefinable => 21,
            TokenFault::OutOfPlace => 22,
            TokenFault::TooLarge => 23,
            TokenFault::TooManyIfs => 24,
            TokenFault::OtherHalf => 25,
            TokenFault::LiteralRange => 26,
            TokenFault::NoDefinition => 27,
            TokenFault::TooLong => 28,
        }
    }
}

/// A text's first fault, and the token where it comes. Tokens are numbered from 1, and the end of
/// the text counts as one more.
#[derive(Clone, Copy, Debug, PartialEq, Eq)]
pub struct TextFault {
    pub number: u8,
    pub token: u32,
}

/// Why a text gives no rule.
#[derive(Debug, Drop)]
pub enum ParseFault {
    /// An allocation failed.
    NoMemory,
    /// The text has a fault.
    Text(TextFault),
}

/// Why a token isn't read.
#[derive(Clone, Copy, Debug)]
pub(crate) enum AdvanceFault {
    NoMemory,
    /// The token has this fault.
    Token(TokenFault),
}

impl From<AllocError> for AdvanceFault {
    ghost use Rattle.cam6_forth.specs.declared.faults.AdvanceFault.TheVariants.{NoMemory};

    ghost from_gives = { λ _ e. e ≡ NoMemory };

    /// A refused allocation becomes `NoMemory`, which is no fault of the token.
    fn from(_refused: AllocError) -> AdvanceFault {
        AdvanceFault::NoMemory
    }
}

impl<T: Drop> From<AllocFailed<T>> for AdvanceFault {
    ghost use Rattle.cam6_forth.specs.declared.faults.AdvanceFault.TheVariants.{NoMemory};

    ghost from_gives = { λ _ e. e ≡ NoMemory };

    /// Drops the value that couldn't be stored, and returns `NoMemory`.
    fn from(_refused: AllocFailed<T>) -> AdvanceFault {
        AdvanceFault::NoMemory
    }
}
