//! Cuts a line into its tokens.
ghost use Rattle.std.specs.Prelude.{◌≡◌, ◌≤◌, [], All, IfOk, OnOk, length};
ghost use Rattle.m51_lex.specs.Answer.{IsCutResult, WritesTokens};
ghost use Rattle.m51_lex.specs.Tokens.{AreSlices, IsWithin, tokens_at, tokens_of};

use crate::fault::LONG_LINE;
use crate::lexeme::{Lexeme, lexeme_of};
use crate::token::{LexError, Token};
use std::alloc::Global;

// Writes the tokens of a line that is not too long into `out`, which is empty.
fn cut(line: &[u8], out: &mut Vec<Token>) -> Result<(), LexError>
    requires short { length line.now ≤ 255 }
    requires empty { out.old.items ≡ [] }
    ensures gives { WritesTokens out.new.items result (tokens_at 0 0 line.now) }
    ensures slices { OnOk result (AreSlices 0 (length line.now) out.new.items) }
    ensures within { OnOk result (All (IsWithin (length line.now)) out.new.items) }
{
    let mut at = 0;
    while at < line.len() {
        match lexeme_of(&line[at..]) {
            Lexeme::Blank => at += 1,
            Lexeme::Comment => return Ok(()),
            Lexeme::Token(what, len) => {
                out.push(Token {
                    what,
                    from: at as u8,
                    to: (at + len) as u8,
                })?;
                at += len;
            }
            Lexeme::Fault(number) => return Err(LexError::Fault { number }),
        }
    }
    Ok(())
}

/// Writes the tokens of a line into `out`, in place of what is in it: those that `tokens` returns.
///
/// Errors: those of `tokens`.
///
/// Source: own choice ("Statements in place").
pub fn tokens_into(line: &str, out: &mut Vec<Token>) -> Result<(), LexError>
    ensures gives { WritesTokens out.new.items result (tokens_of line.now) }
    ensures slices { OnOk result (AreSlices 0 (length line.now) out.new.items) }
    ensures within { OnOk result (All (IsWithin (length line.now)) out.new.items) }
{
    out.clear();
    let line = line.as_bytes();
    if line.len() > 255 {
        return Err(LexError::Fault { number: LONG_LINE });
    }
    cut(line, out)
}

/// The tokens of a line, given without its line end.
///
/// Errors: E5 for a line over 255 bytes, or else the leftmost fault of E1 to E4; or out of memory.
///
/// Source: own choice ("Tokens are slices").
pub fn tokens(alloc: Global, line: &str) -> Result<Vec<Token>, LexError>
    // The tokens that the rules of lines give, or the first fault.
    ensures gives { IsCutResult result (tokens_of line.now) }
    // They are slices of the line, in order, and none is empty.
    ensures slices { IfOk result (λ v. AreSlices 0 (length line.now) v.items) }
    ensures within { IfOk result (λ v. All (IsWithin (length line.now)) v.items) }
{
    let mut out = Vec::new(alloc);
    match tokens_into(line, &mut out) {
        Ok(()) => Ok(out),
        Err(error) => Err(error),
    }
}
