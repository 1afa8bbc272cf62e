//! The words of a line, and what begins an operand or an expression.
ghost use Rattle.std.specs.Prelude.{◌≡◌, is_some};
ghost use Rattle.std.specs.List.{list_any};
ghost use Rattle.std.specs.Str.{bytes_eq};
ghost use Rattle.m51_expr.specs.Ranks.{text_value};
ghost use Rattle.m51_stmt.specs.Words.{word_of, is_word_operator, is_word, is_reserved_word, is_comma, is_text};
ghost use Rattle.m51_stmt.specs.Words.{is_operator, register_number, is_register, begins_expression, begins_operand};
ghost use Rattle.m51_stmt.specs.Words.{first_is};

use m51_cells::Name;
use m51_expr::{Binary, Symbol, is_reserved};

/// Whether the word is one of these.
pub(crate) fn is_among(word: &[u8], words: &[&[u8]]) -> bool
    ensures { result ≡ list_any (λ w. bytes_eq w.now word.now) words.now }
{
    words.iter().any(|one| *one == word)
}

/// The name, or the word of the language, that a symbol is.
pub(crate) fn word_of(symbol: &Symbol) -> Option<Name>
    ensures { result ≡ word_of symbol.now }
{
    match symbol {
        Symbol::Word(word) => Some(*word),
        Symbol::Name(name) => Some(*name),
        _ => None,
    }
}

fn is_word_operator(op: Binary) -> bool
    ensures { result ≡ is_word_operator op }
{
    match op {
        Binary::Mul | Binary::Div | Binary::Add | Binary::Sub | Binary::Dot => false,
        _ => true,
    }
}

/// Whether it is a word: a name, a word of the language, or an operator that is one.
pub(crate) fn is_word(symbol: &Symbol) -> bool
    ensures { result ≡ is_word symbol.now }
{
    match symbol {
        Symbol::Word(_) | Symbol::Name(_) | Symbol::Prefix(_) => true,
        Symbol::Infix(op) => is_word_operator(*op),
        _ => false,
    }
}

/// Whether it is a word that nothing can define.
pub(crate) fn is_reserved_word(symbol: &Symbol) -> bool
    ensures { result ≡ is_reserved_word symbol.now }
{
    match symbol {
        Symbol::Name(name) => is_reserved(name.bytes()),
        _ => is_word(symbol),
    }
}

/// Whether it is a comma.
pub(crate) fn is_comma(symbol: &Symbol) -> bool
    ensures { result ≡ is_comma symbol.now }
{
    match symbol {
        Symbol::Comma => true,
        _ => false,
    }
}

// Whether a text is a number: it has one or two characters.
fn is_short(characters: &[u8]) -> bool
    ensures { result ≡ is_some (text_value characters.now) }
{
    match characters {
        [_] | [_, _] => true,
        _ => false,
    }
}

/// Whether it is a text of no character, or of more than two.
pub(crate) fn is_text(symbol: &Symbol) -> bool
    ensures { result ≡ is_text symbol.now }
{
    match symbol {
        Symbol::Text(characters) => !is_short(characters.as_slice()),
        _ => false,
    }
}

// Whether it is an operator between two operands.
fn is_operator(symbol: &Symbol) -> bool
    ensures { result ≡ is_operator symbol.now }
{
    match symbol {
        Symbol::Plus | Symbol::Minus | Symbol::Infix(_) => true,
        _ => false,
    }
}

/// The number of a register R0 to R7.
#[tactic(auto, unfolding(crate::specs::Words::register_number))]
pub(crate) fn register_number(word: &[u8]) -> Option<u8>
    ensures { result ≡ register_number word.now }
{
    if word == b"R0".as_slice() {
        Some(0)
    } else if word == b"R1".as_slice() {
        Some(1)
    } else if word == b"R2".as_slice() {
        Some(2)
    } else if word == b"R3".as_slice() {
        Some(3)
    } else if word == b"R4".as_slice() {
        Some(4)
    } else if word == b"R5".as_slice() {
        Some(5)
    } else if word == b"R6".as_slice() {
        Some(6)
    } else if word == b"R7".as_slice() {
        Some(7)
    } else {
        None
    }
}

const REGISTERS: [&[u8]; 12] = [
    b"A", b"AB", b"C", b"DPTR", b"R0", b"R1", b"R2", b"R3", b"R4", b"R5", b"R6", b"R7",
];

// Whether the word is a register that is an operand by itself.
#[tactic(auto, unfolding(crate::specs::Words::is_register))]
fn is_register(word: &[u8]) -> bool
    ensures { result ≡ is_register word.now }
{
    is_among(word, &REGISTERS)
}

/// Whether an expression may begin with it.
pub(crate) fn begins_expression(symbol: &Symbol) -> bool
    ensures { result ≡ begins_expression symbol.now }
{
    match symbol {
        Symbol::Number(_)
        | Symbol::Name(_)
        | Symbol::Here
        | Symbol::Open
        | Symbol::Plus
        | Symbol::Minus
        | Symbol::Prefix(_) => true,
        Symbol::Text(characters) => is_short(characters.as_slice()),
        _ => false,
    }
}

/// Whether an operand may begin with it.
pub(crate) fn begins_operand(symbol: &Symbol) -> bool
    ensures { result ≡ begins_operand symbol.now }
{
    match symbol {
        Symbol::Hash | Symbol::At | Symbol::Infix(Binary::Div) => true,
        Symbol::Word(word) => is_register(word.bytes()),
        _ => begins_expression(symbol),
    }
}

/// Whether an operator between two operands comes first.
pub(crate) fn first_is_operator(symbols: &[Symbol]) -> bool
    ensures { result ≡ first_is is_operator symbols.now }
{
    match symbols {
        [first, ..] => is_operator(first),
        [] => false,
    }
}
