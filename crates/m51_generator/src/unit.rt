//! A unit of a generated program.
ghost use Rattle.std.specs.Prelude.{◌≡◌, ◌≤◌, ℕ};

use std::marker::Model;

// How many calls lead to a unit from the loop of MAIN: a number up to 8, as which contracts see it.
#[derive(Clone, Copy)]
pub(crate) struct Depth {
    number: u8,
}

impl Model for Depth {
    ghost Value = { ℕ };

    ghost view = { λ depth. depth.number };

    ghost invariant = { λ depth. depth.number ≤ 8 };

    ghost inverse = { λ number. record { number = number } };
}

impl Depth {
    // The depth that is this number.
    pub(crate) fn of(number: u8) -> Depth
        requires { number ≤ 8 }
        ensures { result ≡ number }
    {
        Depth { number }
    }

    // The number.
    pub(crate) fn number(self) -> u8
        ensures value { result ≡ self }
        ensures within { result ≤ 8 }
    {
        self.number
    }
}

// A unit, and the call that leads to it.
#[derive(Clone, Copy)]
pub(crate) struct DrawnUnit {
    // The number of the unit that calls it, counted from 1; 0 for the loop of MAIN.
    pub(crate) parent: usize,
    pub(crate) depth: Depth,
    // How many bytes its local has: 1 to 4.
    pub(crate) size: u8,
}
