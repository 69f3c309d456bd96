//! The steps of a program.

/// What a step reads: a constant bit, what an address line shows, or what a slot holds. Past the
/// last line, and past the last slot that a step has written, it reads 0.
#[derive(Clone, Copy, Debug, PartialEq, Eq)]
pub enum Source {
    Constant(bool),
    Line(u8),
    Slot(u8),
}

/// What a step makes of what it reads.
#[derive(Clone, Copy, Debug, PartialEq, Eq)]
pub enum Operation {
    /// `high` if `by` is 1, and `low` if it is 0.
    Choice {
        by: Source,
        low: Source,
        high: Source,
    },
    /// `high` inverted if `by` is 1, and `low` if it is 0.
    ChoiceNot {
        by: Source,
        low: Source,
        high: Source,
    },
    And(Source, Source),
    /// The first, and not the second.
    AndNot(Source, Source),
    Or(Source, Source),
    /// The first, or not the second.
    OrNot(Source, Source),
    Xor(Source, Source),
}

/// A step empties the slot that it writes, and then puts there what its operation makes. It writes
/// a slot that an earlier step wrote, or the next one. What it puts past that is lost.
#[derive(Clone, Copy, Debug, PartialEq, Eq)]
pub struct Step {
    pub into: u8,
    pub operation: Operation,
}
