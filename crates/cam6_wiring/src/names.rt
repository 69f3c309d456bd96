//! The names that a rule may use for what a cell sees.
ghost use Rattle.std.specs.Prelude.{◌≡◌, ◌<◌};
ghost use Rattle.cam6_wiring.specs.Name.{plane_of, other_half, phase_number, phase_bit};

/// Where a cell itself lies, or a neighbour of it.
#[derive(Clone, Copy, Debug, PartialEq, Eq)]
pub enum Compass {
    Center,
    North,
    South,
    West,
    East,
    NorthWest,
    NorthEast,
    SouthWest,
    SouthEast,
}

/// Another cell of the block, by the rotation round the block that leads to it.
#[derive(Clone, Copy, Debug, PartialEq, Eq)]
pub enum Rotation {
    Clockwise,
    Opposite,
    CounterClockwise,
}

/// Planes 0 and 1, or planes 2 and 3.
#[derive(Clone, Copy, Debug, PartialEq, Eq)]
pub enum Half {
    A,
    B,
}

/// The lower or the upper plane of a half; of a phase, its low or its high bit.
#[derive(Clone, Copy, Debug, PartialEq, Eq)]
pub enum Level {
    Lower,
    Upper,
}

/// The phase of a step, 0 to 3, as a cycle's entry sets it and a rule may read it.
#[derive(Clone, Copy, Debug, PartialEq, Eq)]
pub enum Phase {
    P0,
    P1,
    P2,
    P3,
}

/// What a rule can ask of a cell. The names that begin with `Minor` are those written with an `&`.
/// PHASE and &PHASE show the same bit. They are two names, since they stand on lines of their own.
#[derive(Clone, Copy, Debug, PartialEq, Eq)]
pub enum Name {
    /// CENTER, NORTH, N.WEST and the like; with a prime at the upper level. The four diagonal
    /// neighbours have no primed name.
    Beside(Compass, Level),
    /// CW, OPP and CCW; with a prime at the upper level.
    InBlock(Rotation, Level),
    /// PHASE, and PHASE' for the high bit.
    Phase(Level),
    Horz,
    Vert,
    /// &CENTER, and &CENTER' at the upper level: the cell's own bit in the other half.
    MinorCenter(Level),
    /// &PHASE, and &PHASE' for the high bit.
    MinorPhase(Level),
    MinorHorz,
    MinorVert,
}

impl Half {
    /// Returns the number of the half's plane at this level. Half A has planes 0 and 1, and half B
    /// 2 and 3, the lower level first.
    pub fn plane(self, level: Level) -> usize
        ensures number { result ≡ plane_of self level }
        ensures plane { result < 4 }
    {
        match (self, level) {
            (Half::A, Level::Lower) => 0,
            (Half::A, Level::Upper) => 1,
            (Half::B, Level::Lower) => 2,
            (Half::B, Level::Upper) => 3,
        }
    }

    /// Returns the other half, which has the two other planes.
    pub fn other(self) -> Half
        ensures { result ≡ other_half self }
    {
        match self {
            Half::A => Half::B,
            Half::B => Half::A,
        }
    }
}

impl Phase {
    /// The phase's number, from 0 to 3.
    pub fn number(self) -> u8
        ensures { result ≡ phase_number self }
    {
        match self {
            Phase::P0 => 0,
            Phase::P1 => 1,
            Phase::P2 => 2,
            Phase::P3 => 3,
        }
    }

    /// Returns the low bit of the phase's number at the lower level, and its high bit at the upper
    /// level.
    pub fn bit(self, level: Level) -> bool
        ensures { result ≡ phase_bit self level }
    {
        match level {
            Level::Lower => matches!(self, Phase::P1 | Phase::P3),
            Level::Upper => matches!(self, Phase::P2 | Phase::P3),
        }
    }
}
