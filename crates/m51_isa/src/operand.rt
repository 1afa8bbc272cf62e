//! Operands that are narrower than a byte or a word. Contracts see each as its number.
ghost use Rattle.std.specs.Prelude.{◌≡◌, ℕ, ◌<◌};

use std::marker::Model;

/// A register of the selected bank: R0 to R7, by its number.
///
/// Source: own choice ("Operands in range").
#[derive(Clone, Copy, Debug, PartialEq, Eq)]
pub struct Register {
    number: u8,
}

impl Model for Register {
    ghost Value = { ℕ };

    ghost view = { λ r. r.number };

    ghost invariant = { λ r. r.number < 8 };

    ghost inverse = { λ n. record { number = n } };
}

impl Register {
    /// The register of this number, 0 to 7.
    ///
    /// Source: family manual.
    pub fn new(number: u8) -> Register
        requires { number < 8 }
        ensures { result ≡ number }
    {
        Register { number }
    }

    /// Its number, 0 to 7.
    ///
    /// Source: family manual.
    pub fn number(self) -> u8
        ensures value { result ≡ self }
        ensures in_range { result < 8 }
    {
        self.number
    }
}

/// A register of the selected bank that can hold an address: R0 or R1, by its number.
///
/// Source: own choice ("Operands in range").
#[derive(Clone, Copy, Debug, PartialEq, Eq)]
pub struct Pointer {
    number: u8,
}

impl Model for Pointer {
    ghost Value = { ℕ };

    ghost view = { λ r. r.number };

    ghost invariant = { λ r. r.number < 2 };

    ghost inverse = { λ n. record { number = n } };
}

impl Pointer {
    /// The register of this number, 0 or 1.
    ///
    /// Source: family manual.
    pub fn new(number: u8) -> Pointer
        requires { number < 2 }
        ensures { result ≡ number }
    {
        Pointer { number }
    }

    /// Its number, 0 or 1.
    ///
    /// Source: family manual.
    pub fn number(self) -> u8
        ensures value { result ≡ self }
        ensures in_range { result < 2 }
    {
        self.number
    }
}

/// An address within a block of 2,048 bytes.
///
/// Source: own choice ("Operands in range").
#[derive(Clone, Copy, Debug, PartialEq, Eq)]
pub struct Address11 {
    number: u16,
}

impl Model for Address11 {
    ghost Value = { ℕ };

    ghost view = { λ r. r.number };

    ghost invariant = { λ r. r.number < 2048 };

    ghost inverse = { λ n. record { number = n } };
}

impl Address11 {
    /// The address of this number, below 2,048.
    ///
    /// Source: family manual.
    pub fn new(number: u16) -> Address11
        requires { number < 2048 }
        ensures { result ≡ number }
    {
        Address11 { number }
    }

    /// Its number, below 2,048.
    ///
    /// Source: family manual.
    pub fn number(self) -> u16
        ensures value { result ≡ self }
        ensures in_range { result < 2048 }
    {
        self.number
    }
}
