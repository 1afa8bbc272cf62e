//! Tokens, and what may be wrong with a line.
ghost use Rattle.std.specs.Prelude.{◌≡◌};

use std::alloc::{AllocError, AllocFailed};

/// What a token is.
///
/// Source: ASM51 guide.
#[derive(Clone, Copy, Debug, PartialEq, Eq)]
pub enum What {
    /// A word: a name, or a word of the language.
    Name,
    /// A number, by its value.
    Number(u16),
    /// A text, with the quotes round it.
    Text,
    /// A sign, by its character.
    Sign(u8),
}

/// A token: the bytes of a line from `from` up to, and without, `to`, counted from 0. Both are at most 255.
///
/// Source: own choice ("Tokens are slices").
#[derive(Clone, Copy, Debug, PartialEq, Eq)]
pub struct Token {
    pub what: What,
    pub from: u8,
    pub to: u8,
}

/// What is wrong with a line.
///
/// Source: own choice ("Faults of a line").
#[derive(Clone, Copy, Debug, PartialEq, Eq)]
pub enum LexError {
    /// The fault E`number`: `BAD_CHARACTER`, `UNCLOSED_TEXT`, `BAD_NUMBER`, `LONG_NAME` or `LONG_LINE`.
    Fault { number: u8 },
    /// Out of memory.
    Memory,
}

impl From<AllocError> for LexError {
    ghost use Rattle.m51_lex.specs.declared.token.LexError.TheVariants.{Memory};

    ghost from_gives = { λ _ e. e ≡ Memory };

    fn from(_error: AllocError) -> LexError {
        LexError::Memory
    }
}

impl<T: Drop> From<AllocFailed<T>> for LexError {
    ghost use Rattle.m51_lex.specs.declared.token.LexError.TheVariants.{Memory};

    ghost from_gives = { λ _ e. e ≡ Memory };

    fn from(_error: AllocFailed<T>) -> LexError {
        LexError::Memory
    }
}
