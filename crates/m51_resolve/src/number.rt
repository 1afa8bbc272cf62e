//! Numbers of joined segments.
ghost use Rattle.std.specs.Prelude.{◌≡◌, ℕ};

use std::marker::Model;

/// The number of a joined segment, counted from 0: below 2,000, the limit of a link. Contracts see it as that number.
///
/// Source: own choice ("Joined segments").
#[derive(Clone, Copy, Debug, PartialEq, Eq)]
pub struct JoinedNumber {
    number: u16,
}

impl Model for JoinedNumber {
    ghost Value = { ℕ };

    ghost view = { λ joined. joined.number };

    ghost inverse = { λ number. record { number = number } };
}

impl JoinedNumber {
    /// The joined segment of this number.
    ///
    /// Source: own choice ("Joined segments").
    pub fn new(number: u16) -> JoinedNumber
        ensures { result ≡ number }
    {
        JoinedNumber { number }
    }

    /// Its number, counted from 0.
    ///
    /// Source: own choice ("Joined segments").
    pub fn get(self) -> u16
        ensures { result ≡ self }
    {
        self.number
    }
}
