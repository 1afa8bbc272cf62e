//! Reads a line as a statement.
ghost use Rattle.std.specs.Prelude.{◌≡◌, ◌≤◌, [], All, IfOk, OnOk, drop, length, map, option_map, slice_index};
ghost use Rattle.std.specs.Prelude.{Some, None, option_and_then, true, if◌then◌else◌};
ghost use Rattle.m51_expr.specs.Words.{is_reserved};
ghost use Rattle.m51_stmt.specs.Definitions.{definition_form, definition_word};
ghost use Rattle.m51_stmt.specs.Directives.{directive_form, directive_of};
ghost use Rattle.m51_cells.specs.Outcome.{Gives};
ghost use Rattle.m51_cells.specs.declared.limits.TheConstants.{MOST_LINE_BYTES};
ghost use Rattle.m51_lex.specs.Tokens.{IsWithin, tokens_at};
ghost use Rattle.std.specs.Prelude.{Ok};
ghost use Rattle.m51_stmt.specs.Statement.{StmtTree, body_tree, stmt_tree};
ghost use Rattle.m51_stmt.specs.Grammar.{IsLine};
ghost use Rattle.m51_stmt.specs.Answer.{fault_of, if_found};
ghost use Rattle.m51_stmt.specs.Lines.{spoken, defined, said, named_line, statement, read, control_line, token_line};
ghost use Rattle.m51_stmt.specs.Lines.{any_line};
ghost use Rattle.m51_stmt.specs.Lines.{symbols_of, with_label, statement_of};

use crate::control::control;
use crate::definitions::{definition_form, definition_word};
use crate::directives::{directive_form, directive_of};
use crate::fault::{OUT_OF_FORM, StmtError};
use crate::faults::statement_fault;
use crate::operands::instruction;
use crate::statement::{Body, Stmt};
use m51_cells::{MOST_LINE_BYTES, Name, NoMemory};
use m51_expr::{Symbol, is_reserved, symbols_into};
use m51_isa::is_mnemonic;
use m51_lex::{LONG_LINE, LexError, Token, tokens_into};
use std::alloc::Global;

/// Room for the tokens and the symbols of a line. Whoever reads many lines gives the same room for all of them, which
/// spares two allocations a line.
///
/// Source: own choice ("Statements in place").
#[derive(Drop)]
pub struct LineRoom {
    /// The tokens of a line.
    pub tokens: Vec<Token>,
    /// Its symbols, one for each token.
    pub symbols: Vec<Symbol>,
}

impl LineRoom {
    /// Room with nothing in it.
    ///
    /// Source: own choice ("Statements in place").
    pub fn new(alloc: Global) -> LineRoom
        ensures tokens { result.tokens.items ≡ [] }
        ensures symbols { result.symbols.items ≡ [] }
    {
        LineRoom {
            tokens: Vec::new(alloc),
            symbols: Vec::new(alloc),
        }
    }
}

// Keeps what is found, and says whether there is any.
fn keep(found: Option<Body>, body: &mut Body) -> bool
    ensures { if_found result (body_tree body.new) ≡ option_map body_tree found }
{
    match found {
        Some(found) => {
            *body = found;
            true
        }
        None => false,
    }
}

// Writes the instruction or the directive that a word begins into `body`, if there is one.
fn spoken(alloc: Global, word: &Name, rest: &[Symbol], body: &mut Body) -> Result<bool, NoMemory>
    ensures { IfOk result (λ found. if_found found (body_tree body.new) ≡ spoken word.now rest.now) }
{
    if is_mnemonic(word.bytes()) {
        instruction(alloc, word, rest, body)
    } else {
        match directive_of(word.bytes()) {
            Some(directive) => Ok(keep(directive_form(alloc, directive, rest)?, body)),
            None => Ok(false),
        }
    }
}

// Writes the definition that a name begins, which is not reserved and has no label before it, if there is one.
fn defined(
    alloc: Global,
    labelled: bool,
    name: &Name,
    rest: &[Symbol],
    body: &mut Body,
) -> Result<bool, NoMemory>
    ensures { IfOk result (λ found. if_found found (body_tree body.new) ≡ defined labelled name.now rest.now) }
{
    match rest {
        [Symbol::Word(word), rest @ ..] => {
            if labelled || is_reserved(name.bytes()) {
                return Ok(false);
            }
            match definition_word(word.bytes()) {
                Some(definition) => {
                    Ok(keep(definition_form(alloc, definition, name, rest)?, body))
                }
                None => Ok(false),
            }
        }
        _ => Ok(false),
    }
}

// Writes what comes after the label into `body`: nothing, a definition, an instruction or a directive.
fn said(
    alloc: Global,
    labelled: bool,
    symbols: &[Symbol],
    body: &mut Body,
) -> Result<bool, NoMemory>
    ensures { IfOk result (λ found. if_found found (body_tree body.new) ≡ said labelled symbols.now) }
{
    match symbols {
        [] => {
            *body = Body::Empty;
            Ok(true)
        }
        [first, rest @ ..] => match first {
            Symbol::Name(name) => defined(alloc, labelled, name, rest, body),
            Symbol::Word(word) => spoken(alloc, word, rest, body),
            _ => Ok(false),
        },
    }
}

// Writes what a name begins: a label, where a colon follows it, or a definition.
fn named_line(
    alloc: Global,
    name: &Name,
    rest: &[Symbol],
    stmt: &mut Stmt,
) -> Result<bool, NoMemory>
    ensures { IfOk result (λ found. if_found found (stmt_tree stmt.new) ≡ named_line name.now rest.now) }
{
    match rest {
        [Symbol::Colon, rest @ ..] => {
            if is_reserved(name.bytes()) {
                return Ok(false);
            }
            stmt.label = Some(*name);
            said(alloc, true, rest, &mut stmt.body)
        }
        _ => {
            stmt.label = None;
            defined(alloc, false, name, rest, &mut stmt.body)
        }
    }
}

// Writes the statement of the symbols of a line into `stmt`, if they have no syntax error.
fn statement(alloc: Global, symbols: &[Symbol], stmt: &mut Stmt) -> Result<bool, NoMemory>
    ensures { IfOk result (λ found. if_found found (stmt_tree stmt.new) ≡ statement symbols.now) }
{
    match symbols {
        [Symbol::Name(name), rest @ ..] => named_line(alloc, name, rest, stmt),
        _ => {
            stmt.label = None;
            said(alloc, false, symbols, &mut stmt.body)
        }
    }
}

// Writes what the symbols of a line say into `stmt`.
fn read(alloc: Global, symbols: &[Symbol], stmt: &mut Stmt) -> Result<(), StmtError>
    ensures { Gives (λ _. stmt_tree stmt.new) fault_of result (read symbols.now) }
{
    if statement(alloc, symbols, stmt)? {
        Ok(())
    } else {
        Err(StmtError::Fault {
            number: statement_fault(alloc, symbols)?,
        })
    }
}

// Writes the tokens of a line that is not too long into `found`.
fn token_list(line: &str, found: &mut Vec<Token>) -> Result<(), StmtError>
    requires { length line.now ≤ MOST_LINE_BYTES }
    ensures gives { Gives (λ _. found.new.items) fault_of result (tokens_at 0 0 line.now) }
    ensures within { OnOk result (All (IsWithin (length line.now)) found.new.items) }
{
    match tokens_into(line, found) {
        Ok(()) => Ok(()),
        Err(LexError::Fault { number }) => Err(StmtError::Fault { number }),
        Err(LexError::Memory) => Err(StmtError::Memory),
    }
}

// The first byte, and 0 where there is none.
fn first_of(line: &[u8]) -> u8
    ensures { result ≡ slice_index line.now 0 }
{
    match line {
        [first, ..] => *first,
        [] => 0,
    }
}

fn behind_first(line: &[u8]) -> &[u8]
    ensures { result.now ≡ drop 1 line.now }
{
    match line {
        [_, rest @ ..] => rest,
        [] => line,
    }
}

// Writes what a control line says into `stmt`.
fn control_line(alloc: Global, rest: &[u8], stmt: &mut Stmt) -> Result<(), StmtError>
    ensures { Gives (λ _. stmt_tree stmt.new) fault_of result (control_line rest.now) }
{
    match control(alloc, rest) {
        Ok(body) => {
            stmt.label = None;
            stmt.body = body;
            Ok(())
        }
        Err(error) => Err(error),
    }
}

// Writes what a line of tokens says into `stmt`.
fn token_line(
    alloc: Global,
    line: &str,
    room: &mut LineRoom,
    stmt: &mut Stmt,
) -> Result<(), StmtError>
    requires { length line.now ≤ MOST_LINE_BYTES }
    ensures { Gives (λ _. stmt_tree stmt.new) fault_of result (token_line line.now) }
{
    token_list(line, &mut room.tokens)?;
    symbols_into(alloc, line, &room.tokens, &mut room.symbols)?;
    read(alloc, &room.symbols, stmt)
}

// Writes what a line says that is not too long, by its first character.
#[tactic(auto, unfolding(crate::specs::Lines::any_line))]
fn any_line(
    alloc: Global,
    line: &str,
    room: &mut LineRoom,
    stmt: &mut Stmt,
) -> Result<(), StmtError>
    requires { length line.now ≤ MOST_LINE_BYTES }
    ensures { Gives (λ _. stmt_tree stmt.new) fault_of result (any_line line.now) }
{
    let bytes = line.as_bytes();
    let first = first_of(bytes);
    if first == b'$' {
        control_line(alloc, behind_first(bytes), stmt)
    } else if first == b'%' {
        Err(OUT_OF_FORM)
    } else {
        token_line(alloc, line, room, stmt)
    }
}

/// Writes the statement of a line into `stmt`: that which `read_line` returns. After an error `stmt` says nothing of
/// the line. What the line is cut into is put into `room`, in place of what is in it.
///
/// Errors: those of `read_line`.
///
/// Source: own choice ("Statements in place").
pub fn read_line_into(
    alloc: Global,
    line: &str,
    room: &mut LineRoom,
    stmt: &mut Stmt,
) -> Result<(), StmtError>
    ensures { Gives (λ _. stmt_tree stmt.new) fault_of result (statement_of line.now) }
{
    if line.len() > MOST_LINE_BYTES {
        return Err(StmtError::Fault { number: LONG_LINE });
    }
    any_line(alloc, line, room, stmt)
}

// What a line says, or E5 where it is too long.
fn short_or_long(alloc: Global, line: &str) -> Result<Stmt, StmtError>
    ensures { Gives stmt_tree fault_of result (statement_of line.now) }
{
    let mut stmt = Stmt::nothing();
    match read_line_into(alloc, line, &mut LineRoom::new(alloc), &mut stmt) {
        Ok(()) => Ok(stmt),
        Err(error) => Err(error),
    }
}

/// The statement that a line writes, given without its line end.
///
/// Errors: E5 for a line over 255 bytes; E12 for a first `%` and for a control with a syntax error; the leftmost of E1
/// to E4; then by form: E12 where a reserved word is to be defined, E11 where the word after the label begins no
/// statement, E6 where an expression or an operand is missing, E11 for an instruction and E12 for any
/// other line with a syntax error; or out of memory.
///
/// Source: ASM51 guide.
pub fn read_line(alloc: Global, line: &str) -> Result<Stmt, StmtError>
    // The statement that the rules of lines give, or the first fault.
    ensures gives { Gives stmt_tree fault_of result (statement_of line.now) }
    // It is a statement of the grammar of lines.
    ensures sound { IfOk result (λ s. IsLine line.now (stmt_tree s)) }
    // A statement of the grammar is this one: so there is one at most, and a fault comes only where there is none.
    ensures complete { (s : StmtTree) → length line.now ≤ MOST_LINE_BYTES → IsLine line.now s
        → Gives stmt_tree fault_of result (Ok s) }
{
    short_or_long(alloc, line)
}
