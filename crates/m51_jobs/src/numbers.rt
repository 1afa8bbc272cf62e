//! Numbers among the arguments.
ghost use Rattle.std.specs.Prelude.{◌≡◌, ◌≤◌, IfSome};
ghost use Rattle.std.specs.Char.{is_ascii_digit};
ghost use Rattle.std.specs.List.{list_all};
ghost use Rattle.m51_cells.specs.declared.limits.TheConstants.{MOST_STEPS};
ghost use Rattle.m51_jobs.specs.declared.numbers.TheConstants.{MOST_GENERATED_UNITS};
ghost use Rattle.m51_jobs.specs.Numbers.{decimal_within, steps_of, start_of, units_of};

use m51_cells::MOST_STEPS;
use std::marker::Model;

/// The most units of a program that is generated.
///
/// Source: own choice ("Limits").
pub const MOST_GENERATED_UNITS: u32 = 100;

// The most digits of a number of steps, of the start of the generator, and of a number of units.
const STEPS_DIGITS: usize = 8;

const START_DIGITS: usize = 10;

const UNITS_DIGITS: usize = 3;

/// A number of steps, 1 to 10,000,000, which contracts see as a number.
///
/// Source: own choice ("Words").
#[derive(Clone, Copy, Debug, PartialEq, Eq)]
pub struct Steps {
    number: u32,
}

impl Model for Steps {
    ghost use Rattle.std.specs.Prelude.{ℕ, ◌≤◌};
    ghost use Rattle.m51_cells.specs.declared.limits.TheConstants.{MOST_STEPS};

    ghost Value = { ℕ };

    ghost view = { λ s. s.number };

    ghost invariant = { λ s. (1 ≤ s.number) × (s.number ≤ MOST_STEPS) };

    ghost inverse = { λ n. record { number = n } };
}

impl Steps {
    /// `number` steps, 1 to 10,000,000.
    ///
    /// Source: own choice ("Words").
    pub fn of(number: u32) -> Steps
        requires { (1 ≤ number) × (number ≤ MOST_STEPS) }
        ensures { result ≡ number }
    {
        Steps { number }
    }

    /// The number.
    ///
    /// Source: own choice ("Words").
    pub fn number(self) -> u32
        ensures value { result ≡ self }
        ensures bounds { (1 ≤ result) × (result ≤ MOST_STEPS) }
    {
        self.number
    }
}

// Whether each byte is a decimal digit.
fn is_digits(text: &[u8]) -> bool
    ensures { result ≡ list_all is_ascii_digit text.now }
{
    text.iter().all(|byte| byte.is_ascii_digit())
}

// A number in decimal: 1 to `most` digits, and a value from `low` to `high`.
#[tactic(auto, unfolding(crate::specs::Numbers::decimal_within))]
fn decimal_within(text: &str, most: usize, low: u32, high: u32) -> Option<u32>
    ensures value { result ≡ decimal_within most low high text.now }
    ensures bounds { IfSome result (λ value. (low ≤ value) × (value ≤ high)) }
{
    if text.len() > most || !is_digits(text.as_bytes()) {
        return None;
    }
    match text.parse::<u32>() {
        Ok(value) if value >= low && value <= high => Some(value),
        _ => None,
    }
}

/// A number of steps: 1 to 8 digits, of a value from 1 to 10,000,000; `None` for any other text.
///
/// Source: own choice ("Words").
pub fn steps_of(text: &str) -> Option<Steps>
    ensures { result ≡ steps_of text.now }
{
    Some(Steps::of(decimal_within(text, STEPS_DIGITS, 1, MOST_STEPS)?))
}

/// The start of the generator: 1 to 10 digits, of a value below 4,294,967,296; `None` for any other text.
///
/// Source: own choice ("Words").
pub fn start_of(text: &str) -> Option<u32>
    ensures { result ≡ start_of text.now }
{
    decimal_within(text, START_DIGITS, 0, u32::MAX)
}

/// A number of units: digits with no leading zero, of a value from 1 to 100; `None` for any other text.
///
/// Source: own choice ("Words").
#[tactic(auto, unfolding(crate::specs::Numbers::units_of))]
pub fn units_of(text: &str) -> Option<u32>
    ensures value { result ≡ units_of text.now }
    ensures bounds { IfSome result (λ units. (1 ≤ units) × (units ≤ MOST_GENERATED_UNITS)) }
{
    let bytes = text.as_bytes();
    if &bytes[..bytes.len().min(1)] == b"0".as_slice() {
        return None;
    }
    decimal_within(text, UNITS_DIGITS, 1, MOST_GENERATED_UNITS)
}
