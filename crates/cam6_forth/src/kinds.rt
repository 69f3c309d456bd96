//! What a token is, wherever it stands.
ghost use Rattle.std.specs.Prelude.{◌≡◌, true};
ghost use Rattle.cam6_forth.specs.Kinds.{mark, kind_of, is_digits, literal, ends_comment};

use crate::limits::MAX_LITERAL;
use crate::spellings::{neighbour_name, output_word, stack_word};
use crate::words::{Output, StackWord};
use cam6_wiring::Name;

/// What a token is.
#[derive(Clone, Copy, Debug, PartialEq, Eq)]
pub(crate) enum Kind {
    /// `:`
    Colon,
    /// `;`
    Semicolon,
    /// `(`
    Open,
    /// `)`
    Close,
    /// `{`
    OpenBrace,
    /// `}`
    CloseBrace,
    If,
    Else,
    Then,
    /// Decimal digits alone, with their value if it is in range.
    Digits(Option<u16>),
    Stack(StackWord),
    /// An output word, of whichever half.
    Output(Output),
    /// A neighbour name, of whichever hood or minor.
    Name(Name),
    /// No reserved token: a definition may have it as its NAME.
    Other,
}

/// Returns the kind of a token. Reserved tokens count only in capitals. Empty or unknown tokens are
/// `Other`, and so are digits with a sign. Digits whose value is above 65,535 are `Digits(None)`.
#[tactic(auto, unfolding(crate::specs::Kinds::kind_of))]
pub(crate) fn kind_of(token: &[u8]) -> Kind
    ensures { result ≡ kind_of token.now }
{
    if let Some(kind) = mark(token) {
        kind
    } else if let Some(word) = stack_word(token) {
        Kind::Stack(word)
    } else if let Some(output) = output_word(token) {
        Kind::Output(output)
    } else if let Some(name) = neighbour_name(token) {
        Kind::Name(name)
    } else if is_digits(token) {
        Kind::Digits(literal(token))
    } else {
        Kind::Other
    }
}

/// Whether a token ends a comment: it is any token that ends in `)`.
pub(crate) fn ends_comment(token: &[u8]) -> bool
    ensures { result ≡ ends_comment token.now }
{
    !token.is_empty() && token[token.len() - 1] == b')'
}

/// Returns the kind of a token that is one of `:`, `;`, `(`, `)`, `{` and `}`, or IF, ELSE or THEN
/// in capitals. Returns `None` for any other token.
#[tactic(auto, unfolding(crate::specs::Kinds::mark))]
fn mark(token: &[u8]) -> Option<Kind>
    ensures { result ≡ mark token.now }
{
    match token {
        b":" => Some(Kind::Colon),
        b";" => Some(Kind::Semicolon),
        b"(" => Some(Kind::Open),
        b")" => Some(Kind::Close),
        b"{" => Some(Kind::OpenBrace),
        b"}" => Some(Kind::CloseBrace),
        b"IF" => Some(Kind::If),
        b"ELSE" => Some(Kind::Else),
        b"THEN" => Some(Kind::Then),
        _ => None,
    }
}

/// Whether a token is ASCII decimal digits alone. An empty token isn't.
fn is_digits(token: &[u8]) -> bool
    ensures { result ≡ is_digits token.now }
{
    for byte in token {
        if !byte.is_ascii_digit() {
            return false;
        }
    }
    !token.is_empty()
}

/// Returns the value of decimal digits, or `None` if it is above 65,535. The token has to be digits
/// alone.
#[tactic(auto, using(crate::proofs::Values::digit_steps), unfolding(crate::specs::Kinds::literal))]
fn literal(digits: &[u8]) -> Option<u16>
    requires digits { is_digits digits.now ≡ true }
    ensures { result ≡ literal digits.now }
{
    let mut value: u32 = 0;
    for digit in digits {
        value = value * 10 + (*digit - b'0') as u32;
        if value > MAX_LITERAL {
            return None;
        }
    }
    Some(value as u16)
}
