//! Reads the operands of instructions.
ghost use Rattle.std.specs.Prelude.{◌≡◌, [], IfOk, option_map};
ghost use Rattle.m51_stmt.specs.Statement.{Imm, Plain, NotBit, operand_tree, body_tree};
ghost use Rattle.m51_stmt.specs.Lists.{list_after, list_of, expression};
ghost use Rattle.m51_stmt.specs.Operands.{register, pointer, sum, indirect, alone, operand, trees, operands};
ghost use Rattle.m51_stmt.specs.Operands.{instruction};
ghost use Rattle.m51_stmt.specs.Answer.{if_found};

use crate::lists::{expression, part_count, part_len};
use crate::statement::Body;
use crate::words::register_number;
use m51_cells::{ListOf, Name, NoMemory};
use m51_expr::{Binary, Operand, Symbol, has_form};
use std::alloc::Global;

// The operand that a register is by itself.
#[tactic(auto, unfolding(crate::specs::Operands::register))]
fn register(word: &[u8]) -> Option<Operand>
    ensures { option_map operand_tree result ≡ register word.now }
{
    if word == b"A".as_slice() {
        Some(Operand::A)
    } else if word == b"AB".as_slice() {
        Some(Operand::Ab)
    } else if word == b"C".as_slice() {
        Some(Operand::C)
    } else if word == b"DPTR".as_slice() {
        Some(Operand::Dptr)
    } else {
        register_number(word).map(Operand::R)
    }
}

// `@DPTR`, `@R0` and `@R1`, by the word after the @.
#[tactic(auto, unfolding(crate::specs::Operands::pointer))]
fn pointer(word: &[u8]) -> Option<Operand>
    ensures { option_map operand_tree result ≡ pointer word.now }
{
    if word == b"DPTR".as_slice() {
        Some(Operand::AtDptr)
    } else if word == b"R0".as_slice() {
        Some(Operand::AtR(0))
    } else if word == b"R1".as_slice() {
        Some(Operand::AtR(1))
    } else {
        None
    }
}

// `@A+PC` and `@A+DPTR`, by the word after the +.
#[tactic(auto, unfolding(crate::specs::Operands::sum))]
fn sum(word: &[u8]) -> Option<Operand>
    ensures { option_map operand_tree result ≡ sum word.now }
{
    if word == b"PC".as_slice() {
        Some(Operand::APc)
    } else if word == b"DPTR".as_slice() {
        Some(Operand::ADptr)
    } else {
        None
    }
}

// What comes after an @.
fn indirect(symbols: &[Symbol]) -> Option<Operand>
    ensures { option_map operand_tree result ≡ indirect symbols.now }
{
    match symbols {
        [Symbol::Word(word)] => pointer(word.bytes()),
        [Symbol::Word(word), Symbol::Plus, Symbol::Word(last)] if word.bytes() == b"A".as_slice() =>
            { sum(last.bytes()) }
        _ => None,
    }
}

fn alone(word: &[u8], rest: &[Symbol]) -> Option<Operand>
    ensures { option_map operand_tree result ≡ alone word.now rest.now }
{
    match rest {
        [] => register(word),
        _ => None,
    }
}

// The operand that the symbols are, all of them.
#[tactic(auto, unfolding(crate::specs::Operands::operand))]
fn operand(alloc: Global, symbols: &[Symbol]) -> Result<Option<Operand>, NoMemory>
    ensures { IfOk result (λ found. option_map operand_tree found ≡ operand symbols.now) }
{
    match symbols {
        [] => Ok(None),
        [first, rest @ ..] => match first {
            Symbol::Word(word) => Ok(alone(word.bytes(), rest)),
            Symbol::At => Ok(indirect(rest)),
            Symbol::Hash => Ok(expression(alloc, rest)?.map(Operand::Imm)),
            Symbol::Infix(Binary::Div) => Ok(expression(alloc, rest)?.map(Operand::NotBit)),
            _ => Ok(expression(alloc, symbols)?.map(Operand::Plain)),
        },
    }
}

// Reads the operands with commas between them into `done`, after those that are in it, and says whether each is one.
fn more_operands(
    alloc: Global,
    symbols: &[Symbol],
    done: &mut Vec<Operand>,
) -> Result<bool, NoMemory>
    ensures { IfOk result (λ found. if_found found (trees done.new.items)
        ≡ list_after (trees done.old.items) (list_of operand symbols.now)) }
{
    let len = part_len(symbols);
    let Some(operand) = operand(alloc, &symbols[..len])? else {
        return Ok(false);
    };
    done.push(operand)?;
    match &symbols[len..] {
        [_, rest @ ..] => more_operands(alloc, rest, done),
        [] => Ok(true),
    }
}

// Reads the operands of an instruction, which may have none, into the empty `done`, and says whether each is one.
fn operands(alloc: Global, symbols: &[Symbol], done: &mut Vec<Operand>) -> Result<bool, NoMemory>
    requires { done.old.items ≡ [] }
    ensures { IfOk result (λ found. if_found found (trees done.new.items) ≡ operands symbols.now) }
{
    match symbols {
        [] => Ok(true),
        _ => {
            done.reserve_exact(part_count(symbols))?;
            more_operands(alloc, symbols, done)
        }
    }
}

/// Writes the instruction of this mnemonic with what follows it into `body`, if it has such a form.
pub(crate) fn instruction(
    alloc: Global,
    mnemonic: &Name,
    symbols: &[Symbol],
    body: &mut Body,
) -> Result<bool, NoMemory>
    ensures { IfOk result (λ found. if_found found (body_tree body.new) ≡ instruction mnemonic.now symbols.now) }
{
    let mut done = Vec::new(alloc);
    if operands(alloc, symbols, &mut done)? && has_form(mnemonic.bytes(), &done) {
        *body = Body::Code(*mnemonic, ListOf::of(done));
        Ok(true)
    } else {
        Ok(false)
    }
}
