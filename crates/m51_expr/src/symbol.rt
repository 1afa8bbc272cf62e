//! What a token is in an expression.
ghost use Rattle.std.specs.Prelude.{◌≡◌, ◌<◌, ◌++◌, All, IfOk, OnOk, length, map};
ghost use Rattle.m51_cells.specs.Name.{name_of};
ghost use Rattle.m51_lex.specs.Tokens.{IsWithin};
ghost use Rattle.m51_expr.specs.declared.symbol.Symbol.TheVariants.{Text};
ghost use Rattle.m51_expr.specs.Symbol.{characters, between_quotes, sign_symbol, operator_of, word_or_other};
ghost use Rattle.m51_expr.specs.Symbol.{word_symbol, symbol_of, prefix_word, relation_word, arithmetic_word};

use crate::tree::{Binary, Unary};
use crate::words::is_language_word;
use m51_cells::{Bytes, Name, NoMemory};
use m51_lex::{Token, What};
use std::alloc::Global;

/// What a token is in an expression.
///
/// Source: own choice ("Words and names").
#[derive(Drop)]
pub enum Symbol {
    /// A number.
    Number(u16),
    /// A text, by its characters.
    Text(Bytes),
    /// A name, which is no reserved word, or one of `AR0` to `AR7`.
    Name(Name),
    /// A reserved word that is neither an operator nor one of `AR0` to `AR7`.
    Word(Name),
    /// `$`
    Here,
    /// `(`
    Open,
    /// `)`
    Close,
    /// `+`, before an operand or between two.
    Plus,
    /// `-`, before an operand or between two.
    Minus,
    /// Another operator that comes before an operand.
    Prefix(Unary),
    /// Another operator that is between two operands.
    Infix(Binary),
    /// `,`
    Comma,
    /// `:`
    Colon,
    /// `#`
    Hash,
    /// `@`
    At,
    /// No token of a line.
    Other,
}

// The characters of what is between quotes, after some that are read. Two quotes mean one.
fn characters(text: &[u8], mut done: Bytes) -> Result<Bytes, NoMemory>
    ensures { IfOk result (λ all. all ≡ done ++ characters text.now) }
{
    match text {
        [] => Ok(done),
        [b'\'', _, more @ ..] => {
            done.push(b'\'')?;
            characters(more, done)
        }
        [first, more @ ..] => {
            done.push(*first)?;
            characters(more, done)
        }
    }
}

// What a sign is, by its character.
fn sign_symbol(sign: u8) -> Symbol
    ensures { result ≡ sign_symbol sign }
{
    match sign {
        b'$' => Symbol::Here,
        b'(' => Symbol::Open,
        b')' => Symbol::Close,
        b'+' => Symbol::Plus,
        b'-' => Symbol::Minus,
        b'*' => Symbol::Infix(Binary::Mul),
        b'/' => Symbol::Infix(Binary::Div),
        b'.' => Symbol::Infix(Binary::Dot),
        b',' => Symbol::Comma,
        b':' => Symbol::Colon,
        b'#' => Symbol::Hash,
        b'@' => Symbol::At,
        _ => Symbol::Other,
    }
}

// The operator before an operand that a word is.
#[tactic(auto, unfolding(crate::specs::Symbol::prefix_word))]
fn prefix_word(word: &[u8]) -> Option<Symbol>
    ensures { result ≡ prefix_word word.now }
{
    if word == b"HIGH".as_slice() {
        Some(Symbol::Prefix(Unary::High))
    } else if word == b"LOW".as_slice() {
        Some(Symbol::Prefix(Unary::Low))
    } else if word == b"NOT".as_slice() {
        Some(Symbol::Prefix(Unary::Not))
    } else {
        None
    }
}

// The relation that a word is.
#[tactic(auto, unfolding(crate::specs::Symbol::relation_word))]
fn relation_word(word: &[u8]) -> Option<Symbol>
    ensures { result ≡ relation_word word.now }
{
    if word == b"EQ".as_slice() {
        Some(Symbol::Infix(Binary::Eq))
    } else if word == b"NE".as_slice() {
        Some(Symbol::Infix(Binary::Ne))
    } else if word == b"LT".as_slice() {
        Some(Symbol::Infix(Binary::Lt))
    } else if word == b"LE".as_slice() {
        Some(Symbol::Infix(Binary::Le))
    } else if word == b"GT".as_slice() {
        Some(Symbol::Infix(Binary::Gt))
    } else if word == b"GE".as_slice() {
        Some(Symbol::Infix(Binary::Ge))
    } else {
        None
    }
}

// The operator on numbers or bits, between two operands, that a word is.
#[tactic(auto, unfolding(crate::specs::Symbol::arithmetic_word))]
fn arithmetic_word(word: &[u8]) -> Option<Symbol>
    ensures { result ≡ arithmetic_word word.now }
{
    if word == b"MOD".as_slice() {
        Some(Symbol::Infix(Binary::Rem))
    } else if word == b"SHL".as_slice() {
        Some(Symbol::Infix(Binary::Shl))
    } else if word == b"SHR".as_slice() {
        Some(Symbol::Infix(Binary::Shr))
    } else if word == b"AND".as_slice() {
        Some(Symbol::Infix(Binary::And))
    } else if word == b"OR".as_slice() {
        Some(Symbol::Infix(Binary::Or))
    } else if word == b"XOR".as_slice() {
        Some(Symbol::Infix(Binary::Xor))
    } else {
        None
    }
}

// The operator that a word is.
#[tactic(auto, unfolding(crate::specs::Symbol::operator_of))]
fn operator_of(word: &[u8]) -> Option<Symbol>
    ensures { result ≡ operator_of word.now }
{
    match (prefix_word(word), relation_word(word)) {
        (Some(symbol), _) | (None, Some(symbol)) => Some(symbol),
        (None, None) => arithmetic_word(word),
    }
}

// An operator, a word of the language or a name.
fn word_symbol(word: Name) -> Symbol
    ensures { result ≡ word_symbol word }
{
    match operator_of(word.bytes()) {
        Some(symbol) => symbol,
        None if is_language_word(word.bytes()) => Symbol::Word(word),
        None => Symbol::Name(word),
    }
}

// What a word is, in either case.
fn named(text: &[u8]) -> Symbol
    ensures { result ≡ word_or_other (name_of text.now) }
{
    match Name::of(text) {
        Some(word) => word_symbol(word),
        None => Symbol::Other,
    }
}

// A text, of which the quotes are among the bytes.
fn quoted(alloc: Global, text: &[u8]) -> Result<Symbol, NoMemory>
    requires { 0 < length text.now }
    ensures { IfOk result (λ symbol. symbol ≡ Text (characters (between_quotes text.now))) }
{
    let inner = &text[1..text.len().max(2) - 1];
    Ok(Symbol::Text(characters(inner, Bytes::new(alloc))?))
}

// What a token of the line is.
#[tactic(auto, unfolding(crate::specs::Symbol::symbol_of))]
fn symbol_of(alloc: Global, line: &[u8], token: &Token) -> Result<Symbol, NoMemory>
    requires { IsWithin (length line.now) token.now }
    ensures { IfOk result (λ symbol. symbol ≡ symbol_of line.now token.now) }
{
    let text = &line[token.from as usize..token.to as usize];
    match token.what {
        What::Number(n) => Ok(Symbol::Number(n)),
        What::Sign(sign) => Ok(sign_symbol(sign)),
        What::Name => Ok(named(text)),
        What::Text => quoted(alloc, text),
    }
}

/// Writes what the tokens of the line are into `out`, in order, in place of what is in it. They lie in the line.
///
/// Errors: out of memory.
///
/// Source: own choice ("Statements in place").
pub fn symbols_into(
    alloc: Global,
    line: &str,
    tokens: &[Token],
    out: &mut Vec<Symbol>,
) -> Result<(), NoMemory>
    requires { All (IsWithin (length line.now)) tokens.now }
    ensures { OnOk result (out.new.items ≡ map (symbol_of line.now) tokens.now) }
{
    let bytes = line.as_bytes();
    out.clear();
    for token in tokens {
        out.push(symbol_of(alloc, bytes, token)?)?;
    }
    Ok(())
}

/// What the tokens of the line are, in order. They lie in the line.
///
/// Errors: out of memory.
///
/// Source: own choice ("Words and names").
pub fn symbols(alloc: Global, line: &str, tokens: &[Token]) -> Result<Vec<Symbol>, NoMemory>
    requires { All (IsWithin (length line.now)) tokens.now }
    ensures { IfOk result (λ symbols. symbols.items ≡ map (symbol_of line.now) tokens.now) }
{
    let mut out = Vec::new(alloc);
    symbols_into(alloc, line, tokens, &mut out)?;
    Ok(out)
}
