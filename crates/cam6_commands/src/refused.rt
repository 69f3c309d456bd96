//! Why an event is refused.
ghost use Rattle.std.specs.Prelude.{◌≡◌};
ghost use Rattle.cam6_commands.specs.Numbers.{refused_number};

/// Why an event is refused.
#[derive(Clone, Copy, Debug, PartialEq, Eq)]
pub enum Refused {
    /// There is no such user or board.
    NoSuchNumber,
    /// The reply to the user's last command isn't collected yet.
    UserIsWaiting,
    UserIsNotQueued,
    BoardIsNotIdle,
    BoardHoldsNothing,
    BoardIsDead,
    BoardIsNotDead,
    NothingIsFinished,
    NoTableIsCached,
}

impl Refused {
    /// Returns the number of the reason, 101 to 109, as replies have it.
    pub fn number(self) -> u8
        ensures { result ≡ refused_number self }
    {
        match self {
            Refused::NoSuchNumber => 101,
            Refused::UserIsWaiting => 102,
            Refused::UserIsNotQueued => 103,
            Refused::BoardIsNotIdle => 104,
            Refused::BoardHoldsNothing => 105,
            Refused::BoardIsDead => 106,
            Refused::BoardIsNotDead => 107,
            Refused::NothingIsFinished => 108,
            Refused::NoTableIsCached => 109,
        }
    }
}
