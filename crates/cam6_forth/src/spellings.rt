//! How the words are spelled.
ghost use Rattle.std.specs.Prelude.{◌≡◌};
ghost use Rattle.cam6_forth.specs.Spellings.{stack_word, output_word, neighbour_name, plain_name};
ghost use Rattle.cam6_forth.specs.Spellings.{primed_name, block_name, added_name, minor_name};

use crate::words::{Output, StackWord, Target};
use cam6_wiring::{Compass, Half, Level, Name, Rotation};

/// Returns the stack word that a token is, such as `DUP`, `+` or `0=`. Letters have to be capitals.
/// Returns `None` for any other token.
#[tactic(auto, unfolding(crate::specs::Spellings::stack_word))]
pub(crate) fn stack_word(token: &[u8]) -> Option<StackWord>
    ensures { result ≡ stack_word token.now }
{
    match token {
        b"DUP" => Some(StackWord::Dup),
        b"DROP" => Some(StackWord::Drop),
        b"SWAP" => Some(StackWord::Swap),
        b"OVER" => Some(StackWord::Over),
        b"ROT" => Some(StackWord::Rot),
        b"+" => Some(StackWord::Plus),
        b"-" => Some(StackWord::Minus),
        b"*" => Some(StackWord::Times),
        b"AND" => Some(StackWord::And),
        b"OR" => Some(StackWord::Or),
        b"XOR" => Some(StackWord::Xor),
        b"0=" => Some(StackWord::IsZero),
        b"=" => Some(StackWord::Equal),
        b"<" => Some(StackWord::Less),
        b">" => Some(StackWord::Greater),
        _ => None,
    }
}

/// Returns the output word that a token is, from `>PLN0` to `>PLN3`, `>PLNA` or `>PLNB`, with its
/// half. Returns `None` for any other token.
#[tactic(auto, unfolding(crate::specs::Spellings::output_word))]
pub(crate) fn output_word(token: &[u8]) -> Option<Output>
    ensures { result ≡ output_word token.now }
{
    let (half, target) = if token == b">PLN0".as_slice() {
        (Half::A, Target::Lower)
    } else if token == b">PLN1".as_slice() {
        (Half::A, Target::Upper)
    } else if token == b">PLNA".as_slice() {
        (Half::A, Target::Both)
    } else if token == b">PLN2".as_slice() {
        (Half::B, Target::Lower)
    } else if token == b">PLN3".as_slice() {
        (Half::B, Target::Upper)
    } else if token == b">PLNB".as_slice() {
        (Half::B, Target::Both)
    } else {
        return None;
    };
    Some(Output { half, target })
}

/// Returns the neighbour name that a token is, in capitals, under any neighbourhood or minor
/// assignment. Returns `None` for any other token.
#[tactic(auto, unfolding(crate::specs::Spellings::neighbour_name))]
pub(crate) fn neighbour_name(token: &[u8]) -> Option<Name>
    ensures { result ≡ neighbour_name token.now }
{
    plain_name(token)
        .or(primed_name(token))
        .or(block_name(token))
        .or(added_name(token))
        .or(minor_name(token))
}

/// Returns the name of the lower bit of a cell that a token names by its direction, such as
/// `N.WEST` or `CENTER`. Returns `None` for any other token.
#[tactic(auto, unfolding(crate::specs::Spellings::plain_name))]
fn plain_name(token: &[u8]) -> Option<Name>
    ensures { result ≡ plain_name token.now }
{
    let compass = if token == b"CENTER".as_slice() {
        Compass::Center
    } else if token == b"NORTH".as_slice() {
        Compass::North
    } else if token == b"SOUTH".as_slice() {
        Compass::South
    } else if token == b"WEST".as_slice() {
        Compass::West
    } else if token == b"EAST".as_slice() {
        Compass::East
    } else if token == b"N.WEST".as_slice() {
        Compass::NorthWest
    } else if token == b"N.EAST".as_slice() {
        Compass::NorthEast
    } else if token == b"S.WEST".as_slice() {
        Compass::SouthWest
    } else if token == b"S.EAST".as_slice() {
        Compass::SouthEast
    } else {
        return None;
    };
    Some(Name::Beside(compass, Level::Lower))
}

/// Returns the name of the upper bit of a cell that a token names by its direction, such as
/// `NORTH'`. The diagonal cells have none. Returns `None` for any other token.
#[tactic(auto, unfolding(crate::specs::Spellings::primed_name))]
fn primed_name(token: &[u8]) -> Option<Name>
    ensures { result ≡ primed_name token.now }
{
    let compass = if token == b"CENTER'".as_slice() {
        Compass::Center
    } else if token == b"NORTH'".as_slice() {
        Compass::North
    } else if token == b"SOUTH'".as_slice() {
        Compass::South
    } else if token == b"WEST'".as_slice() {
        Compass::West
    } else if token == b"EAST'".as_slice() {
        Compass::East
    } else {
        return None;
    };
    Some(Name::Beside(compass, Level::Upper))
}

/// Returns the name of a bit of another cell of the block, such as `CW` or, for the upper bit,
/// `OPP'`. Returns `None` for any other token.
#[tactic(auto, unfolding(crate::specs::Spellings::block_name))]
fn block_name(token: &[u8]) -> Option<Name>
    ensures { result ≡ block_name token.now }
{
    let (rotation, level) = match token {
        b"CW" => (Rotation::Clockwise, Level::Lower),
        b"CCW" => (Rotation::CounterClockwise, Level::Lower),
        b"OPP" => (Rotation::Opposite, Level::Lower),
        b"CW'" => (Rotation::Clockwise, Level::Upper),
        b"CCW'" => (Rotation::CounterClockwise, Level::Upper),
        b"OPP'" => (Rotation::Opposite, Level::Upper),
        _ => return None,
    };
    Some(Name::InBlock(rotation, level))
}

/// Returns the name that `PHASE`, `PHASE'`, `HORZ` or `VERT` is, or `None` for any other token.
/// Only one of the Margolus neighbourhoods has it. It shows the phase, or where the cell lies in
/// its block.
#[tactic(auto, unfolding(crate::specs::Spellings::added_name))]
fn added_name(token: &[u8]) -> Option<Name>
    ensures { result ≡ added_name token.now }
{
    if token == b"PHASE".as_slice() {
        Some(Name::Phase(Level::Lower))
    } else if token == b"PHASE'".as_slice() {
        Some(Name::Phase(Level::Upper))
    } else if token == b"HORZ".as_slice() {
        Some(Name::Horz)
    } else if token == b"VERT".as_slice() {
        Some(Name::Vert)
    } else {
        None
    }
}

/// Returns the name that `&CENTER`, `&CENTER'`, `&PHASE`, `&PHASE'`, `&HORZ` or `&VERT` is: a name
/// of a minor assignment. Returns `None` for any other token.
#[tactic(auto, unfolding(crate::specs::Spellings::minor_name))]
fn minor_name(token: &[u8]) -> Option<Name>
    ensures { result ≡ minor_name token.now }
{
    if token == b"&CENTER".as_slice() {
        Some(Name::MinorCenter(Level::Lower))
    } else if token == b"&CENTER'".as_slice() {
        Some(Name::MinorCenter(Level::Upper))
    } else if token == b"&PHASE".as_slice() {
        Some(Name::MinorPhase(Level::Lower))
    } else if token == b"&PHASE'".as_slice() {
        Some(Name::MinorPhase(Level::Upper))
    } else if token == b"&HORZ".as_slice() {
        Some(Name::MinorHorz)
    } else if token == b"&VERT".as_slice() {
        Some(Name::MinorVert)
    } else {
        None
    }
}
