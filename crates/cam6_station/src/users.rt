//! Users by number.
ghost use Rattle.std.specs.Prelude.{◌≡◌, ◌<◌, ◌≤◌, ◌-◌};
ghost use Rattle.cam6_commands.specs.Limits.{max_users};

use std::marker::Model;

/// A user who shares boards. Users are numbered from 1. Contracts see the number.
#[derive(Clone, Copy, Debug, PartialEq, Eq)]
pub struct User {
    number: u8,
}

impl Model for User {
    ghost use Rattle.std.specs.Prelude.{ℕ, ◌<◌, ◌≤◌};
    ghost use Rattle.cam6_commands.specs.Limits.{max_users};

    ghost Value = { ℕ };

    ghost view = { λ user. user.number };

    ghost inverse = { λ n. record { number = n } };

    ghost invariant = { λ user. (0 < user.number) × (user.number ≤ max_users) };
}

impl User {
    /// Returns the user with this number, which has to be from 1 to 32.
    pub fn numbered(number: usize) -> User
        requires a_user { 0 < number }
        requires few { number ≤ max_users }
        ensures { result ≡ number }
    {
        let number = number as u8;
        User { number }
    }

    /// Returns the user's number, 1 to 32.
    pub fn number(self) -> u8
        ensures number { result ≡ self }
        ensures a_user { 0 < result }
        ensures few { result ≤ max_users }
    {
        self.number
    }

    /// Returns the user's row in a list of users, counted from 0: the number less 1.
    pub fn row(self) -> usize
        ensures row { result ≡ self - 1 }
        ensures within { result < max_users }
    {
        usize::from(self.number) - 1
    }
}
