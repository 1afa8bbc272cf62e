//! Cuts a line of an assembler source into its tokens.
#![tactic(auto)]

mod cutting;
mod fault;
mod lexeme;
mod number;
mod token;

pub use cutting::{tokens, tokens_into};
pub use fault::{BAD_CHARACTER, BAD_NUMBER, LONG_LINE, LONG_NAME, UNCLOSED_TEXT};
pub use lexeme::alphanumeric_len;
pub use token::{LexError, Token, What};
