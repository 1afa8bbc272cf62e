//! Prints statements: each token with a blank after it, and each operator with its operands in parentheses.
ghost use Rattle.std.specs.Prelude.{◌≡◌, ◌++◌, IfOk, OnOk, map};
ghost use Rattle.m51_expr.specs.Tree.{tree_of};
ghost use Rattle.m51_stmt.specs.Statement.{operand_tree, item_tree};
ghost use Rattle.m51_stmt.specs.Printing.{word_text, number_text, unary_word, binary_word, expr_text, register_word};
ghost use Rattle.m51_stmt.specs.Printing.{marked_text, indirect_text, sum_text, operand_text, separated, doubled};
ghost use Rattle.m51_stmt.specs.Printing.{text_text, item_text, kind_word, extern_text};

use m51_cells::{Kind, Name, NoMemory, hex4};
use m51_expr::{Binary, Expr, Item, Operand, Unary};

/// A word and a blank.
pub(crate) fn put(out: &mut Vec<u8>, word: &[u8]) -> Result<(), NoMemory>
    ensures { OnOk result (out.new.items ≡ out.old.items ++ word_text word.now) }
{
    out.extend_from_slice(word)?;
    out.push(b' ')?;
    Ok(())
}

// A number: a 0, its four hexadecimal digits, and H.
fn put_number(out: &mut Vec<u8>, number: u16) -> Result<(), NoMemory>
    ensures { OnOk result (out.new.items ≡ out.old.items ++ word_text (number_text number)) }
{
    let [a, b, c, d] = hex4(number);
    put(out, &[b'0', a, b, c, d, b'H'])
}

fn unary_word(op: Unary) -> &'static [u8]
    ensures { result.now ≡ unary_word op }
{
    match op {
        Unary::Plus => b"+",
        Unary::Minus => b"-",
        Unary::High => b"HIGH",
        Unary::Low => b"LOW",
        Unary::Not => b"NOT",
    }
}

fn binary_word(op: Binary) -> &'static [u8]
    ensures { result.now ≡ binary_word op }
{
    match op {
        Binary::Mul => b"*",
        Binary::Div => b"/",
        Binary::Rem => b"MOD",
        Binary::Shl => b"SHL",
        Binary::Shr => b"SHR",
        Binary::Add => b"+",
        Binary::Sub => b"-",
        Binary::Eq => b"EQ",
        Binary::Ne => b"NE",
        Binary::Lt => b"LT",
        Binary::Le => b"LE",
        Binary::Gt => b"GT",
        Binary::Ge => b"GE",
        Binary::And => b"AND",
        Binary::Or => b"OR",
        Binary::Xor => b"XOR",
        Binary::Dot => b".",
    }
}

/// An expression.
pub(crate) fn put_expr(out: &mut Vec<u8>, expr: &Expr) -> Result<(), NoMemory>
    ensures { OnOk result (out.new.items ≡ out.old.items ++ expr_text (tree_of expr.now)) }
{
    match expr {
        Expr::Number(number) => put_number(out, *number),
        Expr::Name(name) => put(out, name.bytes()),
        Expr::Here => put(out, b"$"),
        Expr::One(op, inner) => {
            put(out, b"(")?;
            put(out, unary_word(*op))?;
            put_expr(out, inner)?;
            put(out, b")")
        }
        Expr::Two(op, left, right) => {
            put(out, b"(")?;
            put_expr(out, left)?;
            put(out, binary_word(*op))?;
            put_expr(out, right)?;
            put(out, b")")
        }
    }
}

fn register_word(number: u8) -> &'static [u8]
    ensures { result.now ≡ register_word number }
{
    match number {
        0 => b"R0",
        1 => b"R1",
        2 => b"R2",
        3 => b"R3",
        4 => b"R4",
        5 => b"R5",
        6 => b"R6",
        _ => b"R7",
    }
}

// A sign before an expression.
fn put_marked(out: &mut Vec<u8>, sign: &[u8], expr: &Expr) -> Result<(), NoMemory>
    ensures { OnOk result (out.new.items ≡ out.old.items ++ marked_text sign.now (tree_of expr.now)) }
{
    put(out, sign)?;
    put_expr(out, expr)
}

// An @ and these words.
fn put_indirect(out: &mut Vec<u8>, word: &[u8]) -> Result<(), NoMemory>
    ensures { OnOk result (out.new.items ≡ out.old.items ++ indirect_text word.now) }
{
    put(out, b"@")?;
    put(out, word)
}

// `@A+` and a register.
fn put_sum(out: &mut Vec<u8>, word: &[u8]) -> Result<(), NoMemory>
    ensures { OnOk result (out.new.items ≡ out.old.items ++ sum_text word.now) }
{
    put(out, b"@")?;
    put(out, b"A")?;
    put(out, b"+")?;
    put(out, word)
}

#[tactic(auto, unfolding(crate::specs::Printing::operand_text))]
fn put_operand(out: &mut Vec<u8>, operand: &Operand) -> Result<(), NoMemory>
    ensures { OnOk result (out.new.items ≡ out.old.items ++ operand_text (operand_tree operand.now)) }
{
    match operand {
        Operand::A => put(out, b"A"),
        Operand::Ab => put(out, b"AB"),
        Operand::C => put(out, b"C"),
        Operand::Dptr => put(out, b"DPTR"),
        Operand::APc => put_sum(out, b"PC"),
        Operand::ADptr => put_sum(out, b"DPTR"),
        Operand::AtDptr => put_indirect(out, b"DPTR"),
        Operand::R(number) => put(out, register_word(*number)),
        Operand::AtR(number) => put_indirect(out, register_word(*number)),
        Operand::Imm(value) => put_marked(out, b"#", value),
        Operand::Plain(value) => put_expr(out, value),
        Operand::NotBit(value) => put_marked(out, b"/", value),
    }
}

pub(crate) fn put_operands(out: &mut Vec<u8>, operands: &[Operand]) -> Result<(), NoMemory>
    ensures { OnOk result (out.new.items ≡ out.old.items ++ separated operand_text (map operand_tree operands.now)) }
{
    match operands {
        [] => Ok(()),
        [only] => put_operand(out, only),
        [first, more @ ..] => {
            put_operand(out, first)?;
            put(out, b",")?;
            put_operands(out, more)
        }
    }
}

// The characters of a text, each quote doubled.
fn put_characters(out: &mut Vec<u8>, characters: &[u8]) -> Result<(), NoMemory>
    ensures { OnOk result (out.new.items ≡ out.old.items ++ doubled characters.now) }
{
    match characters {
        [] => Ok(()),
        [b'\'', more @ ..] => {
            out.extend_from_slice(b"''")?;
            put_characters(out, more)
        }
        [first, more @ ..] => {
            out.push(*first)?;
            put_characters(out, more)
        }
    }
}

fn put_text(out: &mut Vec<u8>, characters: &[u8]) -> Result<(), NoMemory>
    ensures { OnOk result (out.new.items ≡ out.old.items ++ text_text characters.now) }
{
    out.push(b'\'')?;
    put_characters(out, characters)?;
    put(out, b"'")
}

fn put_item(out: &mut Vec<u8>, item: &Item) -> Result<(), NoMemory>
    ensures { OnOk result (out.new.items ≡ out.old.items ++ item_text (item_tree item.now)) }
{
    match item {
        Item::Value(value) => put_expr(out, value),
        Item::Text(characters) => put_text(out, characters.as_slice()),
    }
}

pub(crate) fn put_items(out: &mut Vec<u8>, items: &[Item]) -> Result<(), NoMemory>
    ensures { OnOk result (out.new.items ≡ out.old.items ++ separated item_text (map item_tree items.now)) }
{
    match items {
        [] => Ok(()),
        [only] => put_item(out, only),
        [first, more @ ..] => {
            put_item(out, first)?;
            put(out, b",")?;
            put_items(out, more)
        }
    }
}

pub(crate) fn put_names(out: &mut Vec<u8>, names: &[Name]) -> Result<(), NoMemory>
    ensures { OnOk result (out.new.items ≡ out.old.items ++ separated word_text names.now) }
{
    match names {
        [] => Ok(()),
        [only] => put(out, only.bytes()),
        [first, more @ ..] => {
            put(out, first.bytes())?;
            put(out, b",")?;
            put_names(out, more)
        }
    }
}

pub(crate) fn kind_word(kind: Kind) -> &'static [u8]
    ensures { result.now ≡ kind_word kind }
{
    match kind {
        Kind::Code => b"CODE",
        Kind::Xdata => b"XDATA",
        Kind::Direct => b"DATA",
        Kind::Idata => b"IDATA",
        Kind::Bits => b"BIT",
        Kind::Number => b"NUMBER",
    }
}

// A name of EXTRN as a group of its own.
fn put_extern(out: &mut Vec<u8>, name: &[u8], kind: Kind) -> Result<(), NoMemory>
    ensures { OnOk result (out.new.items ≡ out.old.items ++ extern_text (name.now, kind)) }
{
    put(out, kind_word(kind))?;
    put(out, b"(")?;
    put(out, name)?;
    put(out, b")")
}

pub(crate) fn put_externs(out: &mut Vec<u8>, externs: &[(Name, Kind)]) -> Result<(), NoMemory>
    ensures { OnOk result (out.new.items ≡ out.old.items ++ separated extern_text externs.now) }
{
    match externs {
        [] => Ok(()),
        [only] => put_extern(out, only.0.bytes(), only.1),
        [first, more @ ..] => {
            put_extern(out, first.0.bytes(), first.1)?;
            put(out, b",")?;
            put_externs(out, more)
        }
    }
}
