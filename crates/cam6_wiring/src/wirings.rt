//! Which name stands on which of a half's twelve address lines.
ghost use Rattle.std.specs.Prelude.{◌≡◌, ◌<◌, IfSome};
ghost use Rattle.cam6_wiring.specs.declared.wirings.TheConstants.{LINES};
ghost use Rattle.cam6_wiring.specs.Wiring.{lower, upper, block_names, hood_names, minor_names};
ghost use Rattle.cam6_wiring.specs.Wiring.{names_of, is_at, line_of, is_margolus};

use crate::names::{Compass, Half, Level, Name, Rotation};

/// A half's neighbourhood: the names on address lines 0 to 9.
#[derive(Clone, Copy, Debug, PartialEq, Eq)]
pub enum Hood {
    /// N/MOORE
    Moore,
    /// N/VONN
    VonNeumann,
    /// N/MARG
    Margolus,
    /// N/MARG-PH
    MargolusPhase,
    /// N/MARG-HV
    MargolusHorzVert,
}

/// A half's minor assignment: the names on address lines 10 and 11.
#[derive(Clone, Copy, Debug, PartialEq, Eq)]
pub enum Minor {
    /// &/CENTERS
    Centers,
    /// &/PHASES
    Phases,
    /// &/HV
    HorzVert,
}

/// What a rule is written for: a half, and the names on its address lines.
#[derive(Clone, Copy, Debug, PartialEq, Eq)]
pub struct Wiring {
    pub half: Half,
    pub hood: Hood,
    pub minor: Minor,
}

impl Hood {
    /// Returns whether this is a Margolus neighbourhood, under which each cell belongs to a block.
    pub fn is_margolus(self) -> bool
        ensures { result ≡ is_margolus self }
    {
        match self {
            Hood::Moore | Hood::VonNeumann => false,
            Hood::Margolus | Hood::MargolusPhase | Hood::MargolusHorzVert => true,
        }
    }
}

/// Address lines of a half.
pub const LINES: usize = 12;

/// Returns the address line, from 0 to 11, on which a name stands, or `None` if the wiring lacks
/// the name.
#[tactic(auto, unfolding(crate::specs::Wiring::line_of))]
pub fn line_of(hood: Hood, minor: Minor, name: Name) -> Option<u8>
    ensures line { result ≡ line_of hood minor name }
    ensures within { IfSome result (λ line. line < LINES) }
{
    for (line, known) in names_of(hood, minor).iter().enumerate() {
        if is_at(name, *known) {
            return Some(line as u8);
        }
    }
    None
}

/// Whether `known`, the name of a line, is this name. Returns false for a line without a name.
fn is_at(name: Name, known: Option<Name>) -> bool
    ensures { result ≡ is_at name known }
{
    match known {
        Some(known) => known == name,
        None => false,
    }
}

/// Returns the name of each address line, line 0 first, or `None` for a line without one.
pub fn names_of(hood: Hood, minor: Minor) -> [Option<Name>; LINES]
    ensures { result ≡ names_of hood minor }
{
    let [n0, n1, n2, n3, n4, n5, n6, n7, n8, n9] = hood_names(hood);
    let [n10, n11] = minor_names(minor);
    [n0, n1, n2, n3, n4, n5, n6, n7, n8, n9, n10, n11]
}

/// Returns the name of the lower bit of the cell in this direction, or of the cell itself at the
/// centre. It is never `None`.
fn lower(compass: Compass) -> Option<Name>
    ensures { result ≡ lower compass }
{
    Some(Name::Beside(compass, Level::Lower))
}

/// Returns the name of the upper bit of the cell in this direction, or of the cell itself at the
/// centre. It is never `None`.
fn upper(compass: Compass) -> Option<Name>
    ensures { result ≡ upper compass }
{
    Some(Name::Beside(compass, Level::Upper))
}

/// Returns the names of lines 0 to 9, line 0 first. Only lines 8 and 9 may have none: `None`, as
/// they have under N/MARG.
fn hood_names(hood: Hood) -> [Option<Name>; 10]
    ensures { result ≡ hood_names hood }
{
    match hood {
        Hood::Moore => [
            lower(Compass::Center),
            upper(Compass::Center),
            lower(Compass::North),
            lower(Compass::South),
            lower(Compass::West),
            lower(Compass::East),
            lower(Compass::NorthWest),
            lower(Compass::NorthEast),
            lower(Compass::SouthWest),
            lower(Compass::SouthEast),
        ],
        Hood::VonNeumann => [
            lower(Compass::Center),
            upper(Compass::Center),
            lower(Compass::North),
            lower(Compass::South),
            lower(Compass::West),
            lower(Compass::East),
            upper(Compass::North),
            upper(Compass::South),
            upper(Compass::West),
            upper(Compass::East),
        ],
        Hood::Margolus => block_names([None, None]),
        Hood::MargolusPhase => block_names([
            Some(Name::Phase(Level::Lower)),
            Some(Name::Phase(Level::Upper)),
        ]),
        Hood::MargolusHorzVert => block_names([Some(Name::Horz), Some(Name::Vert)]),
    }
}

/// Returns the names of lines 0 to 9 of a Margolus neighbourhood, line 0 first. `last` has those of
/// lines 8 and 9, or `None`.
fn block_names(last: [Option<Name>; 2]) -> [Option<Name>; 10]
    ensures { result ≡ block_names last }
{
    let [eighth, ninth] = last;
    [
        lower(Compass::Center),
        upper(Compass::Center),
        Some(Name::InBlock(Rotation::Clockwise, Level::Lower)),
        Some(Name::InBlock(Rotation::CounterClockwise, Level::Lower)),
        Some(Name::InBlock(Rotation::Opposite, Level::Lower)),
        Some(Name::InBlock(Rotation::Clockwise, Level::Upper)),
        Some(Name::InBlock(Rotation::CounterClockwise, Level::Upper)),
        Some(Name::InBlock(Rotation::Opposite, Level::Upper)),
        eighth,
        ninth,
    ]
}

/// Returns the names of lines 10 and 11, in this order. Neither is ever `None`.
fn minor_names(minor: Minor) -> [Option<Name>; 2]
    ensures { result ≡ minor_names minor }
{
    match minor {
        Minor::Centers => [
            Some(Name::MinorCenter(Level::Lower)),
            Some(Name::MinorCenter(Level::Upper)),
        ],
        Minor::Phases => [
            Some(Name::MinorPhase(Level::Lower)),
            Some(Name::MinorPhase(Level::Upper)),
        ],
        Minor::HorzVert => [Some(Name::MinorHorz), Some(Name::MinorVert)],
    }
}
