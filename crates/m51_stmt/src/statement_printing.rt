//! Prints whole statements.
ghost use Rattle.std.specs.Prelude.{◌≡◌, ◌++◌, IfOk, OnOk, codes, map, option_map};
ghost use Rattle.m51_expr.specs.Tree.{tree_of};
ghost use Rattle.m51_stmt.specs.Statement.{operand_tree, item_tree, body_tree, stmt_tree};
ghost use Rattle.m51_stmt.specs.Printing.{word_text, operand_text, item_text, extern_text, separated, select_word};
ghost use Rattle.m51_stmt.specs.Printing.{reloc_word, directive_text, named_text, definition_text, include_text};
ghost use Rattle.m51_stmt.specs.Printing.{mod51_text, overlayable_text, segment_text, at_text, select_text};
ghost use Rattle.m51_stmt.specs.Printing.{list_text, label_text, body_text, stmt_text};

use crate::printing::{kind_word, put, put_expr, put_externs, put_items, put_names, put_operands};
use crate::statement::{Body, Stmt};
use m51_cells::{Kind, Name, NoMemory, Reloc};
use m51_expr::{Expr, Item, Operand};
use std::alloc::Global;

fn select_word(kind: Kind) -> &'static [u8]
    ensures { result.now ≡ select_word kind }
{
    match kind {
        Kind::Code => b"CSEG",
        Kind::Xdata => b"XSEG",
        Kind::Direct => b"DSEG",
        Kind::Idata => b"ISEG",
        Kind::Bits | Kind::Number => b"BSEG",
    }
}

fn reloc_word(reloc: Reloc) -> &'static [u8]
    ensures { result.now ≡ reloc_word reloc }
{
    match reloc {
        Reloc::Abs | Reloc::Unit => b"UNIT",
        Reloc::Bitaddressable => b"BITADDRESSABLE",
        Reloc::Inpage => b"INPAGE",
        Reloc::Inblock => b"INBLOCK",
        Reloc::Page => b"PAGE",
    }
}

// A word before an expression.
fn put_directive(out: &mut Vec<u8>, word: &[u8], value: &Expr) -> Result<(), NoMemory>
    ensures { OnOk result (out.new.items ≡ out.old.items ++ directive_text word.now (tree_of value.now)) }
{
    put(out, word)?;
    put_expr(out, value)
}

// Two words.
fn put_named(out: &mut Vec<u8>, word: &[u8], name: &[u8]) -> Result<(), NoMemory>
    ensures { OnOk result (out.new.items ≡ out.old.items ++ named_text word.now name.now) }
{
    put(out, word)?;
    put(out, name)
}

// A name, a word and an expression.
fn put_definition(out: &mut Vec<u8>, name: &[u8], word: &[u8], value: &Expr) -> Result<(), NoMemory>
    ensures { OnOk result (out.new.items ≡ out.old.items ++ definition_text name.now word.now (tree_of value.now)) }
{
    put(out, name)?;
    put_directive(out, word, value)
}

fn put_include(out: &mut Vec<u8>, name: &[u8]) -> Result<(), NoMemory>
    ensures { OnOk result (out.new.items ≡ out.old.items ++ include_text name.now) }
{
    put(out, b"$INCLUDE")?;
    out.push(b'(')?;
    out.extend_from_slice(name)?;
    put(out, b")")
}

fn put_mod51(out: &mut Vec<u8>, on: bool) -> Result<(), NoMemory>
    ensures { OnOk result (out.new.items ≡ out.old.items ++ mod51_text on) }
{
    if on {
        put(out, b"$MOD51")
    } else {
        put(out, b"$NOMOD51")
    }
}

fn put_overlayable(out: &mut Vec<u8>, overlayable: bool) -> Result<(), NoMemory>
    ensures { OnOk result (out.new.items ≡ out.old.items ++ overlayable_text overlayable) }
{
    if overlayable {
        put(out, b"OVERLAYABLE")
    } else {
        Ok(())
    }
}

fn put_segment(
    out: &mut Vec<u8>,
    name: &[u8],
    kind: Kind,
    reloc: Reloc,
    overlayable: bool,
) -> Result<(), NoMemory>
    ensures { OnOk result (out.new.items ≡ out.old.items ++ segment_text name.now kind reloc overlayable) }
{
    put(out, name)?;
    put(out, b"SEGMENT")?;
    put(out, kind_word(kind))?;
    put(out, reloc_word(reloc))?;
    put_overlayable(out, overlayable)
}

fn put_at(out: &mut Vec<u8>, at: &Option<Expr>) -> Result<(), NoMemory>
    ensures { OnOk result (out.new.items ≡ out.old.items ++ at_text (option_map tree_of at.now)) }
{
    match at {
        Some(value) => put_directive(out, b"AT", value),
        None => Ok(()),
    }
}

fn put_select(out: &mut Vec<u8>, kind: Kind, at: &Option<Expr>) -> Result<(), NoMemory>
    ensures { OnOk result (out.new.items ≡ out.old.items ++ select_text kind (option_map tree_of at.now)) }
{
    put(out, select_word(kind))?;
    put_at(out, at)
}

fn put_code(out: &mut Vec<u8>, mnemonic: &[u8], operands: &[Operand]) -> Result<(), NoMemory>
    ensures { OnOk result (out.new.items ≡ out.old.items
        ++ list_text mnemonic.now (separated operand_text (map operand_tree operands.now))) }
{
    put(out, mnemonic)?;
    put_operands(out, operands)
}

fn put_data(out: &mut Vec<u8>, word: &[u8], items: &[Item]) -> Result<(), NoMemory>
    ensures { OnOk result (out.new.items ≡ out.old.items
        ++ list_text word.now (separated item_text (map item_tree items.now))) }
{
    put(out, word)?;
    put_items(out, items)
}

fn put_public(out: &mut Vec<u8>, names: &[Name]) -> Result<(), NoMemory>
    ensures { OnOk result (out.new.items ≡ out.old.items
        ++ list_text (codes "PUBLIC") (separated word_text names.now)) }
{
    put(out, b"PUBLIC")?;
    put_names(out, names)
}

fn put_extrn(out: &mut Vec<u8>, externs: &[(Name, Kind)]) -> Result<(), NoMemory>
    ensures { OnOk result (out.new.items ≡ out.old.items
        ++ list_text (codes "EXTRN") (separated extern_text externs.now)) }
{
    put(out, b"EXTRN")?;
    put_externs(out, externs)
}

// What a line says, without its label.
#[tactic(auto, unfolding(crate::specs::Printing::body_text))]
fn put_body(out: &mut Vec<u8>, body: &Body) -> Result<(), NoMemory>
    ensures { OnOk result (out.new.items ≡ out.old.items ++ body_text (body_tree body.now)) }
{
    match body {
        Body::Empty => Ok(()),
        Body::Ignored => put(out, b"$LIST"),
        Body::Include(name) => put_include(out, name.as_slice()),
        Body::Mod51(on) => put_mod51(out, *on),
        Body::End => put(out, b"END"),
        Body::Code(mnemonic, operands) => put_code(out, mnemonic.bytes(), operands.as_slice()),
        Body::Db(items) => put_data(out, b"DB", items.as_slice()),
        Body::Dw(items) => put_data(out, b"DW", items.as_slice()),
        Body::Ds(value) => put_directive(out, b"DS", value),
        Body::Dbit(value) => put_directive(out, b"DBIT", value),
        Body::Org(value) => put_directive(out, b"ORG", value),
        Body::Using(value) => put_directive(out, b"USING", value),
        Body::Segment(name, kind, reloc, overlayable) => {
            put_segment(out, name.bytes(), *kind, *reloc, *overlayable)
        }
        Body::Rseg(name) => put_named(out, b"RSEG", name.bytes()),
        Body::Select(kind, at) => put_select(out, *kind, at),
        Body::Equ(name, value) => put_definition(out, name.bytes(), b"EQU", value),
        Body::Set(name, value) => put_definition(out, name.bytes(), b"SET", value),
        Body::Address(name, kind, value) => {
            put_definition(out, name.bytes(), kind_word(*kind), value)
        }
        Body::Public(names) => put_public(out, names.as_slice()),
        Body::Extrn(externs) => put_extrn(out, externs.as_slice()),
        Body::ModuleName(name) => put_named(out, b"NAME", name.bytes()),
    }
}

fn put_label(out: &mut Vec<u8>, label: &Option<Name>) -> Result<(), NoMemory>
    ensures { OnOk result (out.new.items ≡ out.old.items ++ label_text label.now) }
{
    match label {
        Some(name) => put_named(out, name.bytes(), b":"),
        None => Ok(()),
    }
}

/// The line of a statement: each token with a blank after it, numbers in hexadecimal, and each operator with its
/// operands in parentheses. By `printed_reads_back` each statement that a line writes is what `read_line` gives of its
/// printed line where that has at most 255 bytes; of a longer one it gives E5.
///
/// Errors: out of memory.
///
/// Source: own choice ("Printed statements").
pub fn print_stmt(alloc: Global, stmt: &Stmt) -> Result<Vec<u8>, NoMemory>
    ensures { IfOk result (λ text. text.items ≡ stmt_text (stmt_tree stmt.now)) }
{
    let mut out = Vec::new(alloc);
    put_label(&mut out, &stmt.label)?;
    put_body(&mut out, &stmt.body)?;
    Ok(out)
}
