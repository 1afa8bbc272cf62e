//! The form of the JMP or CALL of a line.
ghost use Rattle.std.specs.Prelude.{◌≡◌};
ghost use Rattle.m51_expr.specs.Tree.{tree_of};
ghost use Rattle.m51_stmt.specs.Statement.{body_tree};
ghost use Rattle.m51_asm.specs.Fitting.{verb_of, form_to, form_by};

use m51_cells::Name;
use m51_encode::jump_form;
use m51_expr::{Expr, Operand, Places, located_value_of};
use m51_isa::{Jump, Verb};
use m51_stmt::Body;

// The generic jump that a mnemonic is.
fn verb_of(mnemonic: &Name) -> Option<Verb>
    ensures { result ≡ verb_of mnemonic.now }
{
    if mnemonic.bytes() == b"JMP".as_slice() {
        Some(Verb::Jmp)
    } else if mnemonic.bytes() == b"CALL".as_slice() {
        Some(Verb::Call)
    } else {
        None
    }
}

// The form of a generic jump; no other instruction has one.
fn form_to<P: Places<u32>>(names: &P, verb: Option<Verb>, target: &Expr) -> Jump
    ensures { result ≡ form_to (P.meanings names.now) verb (tree_of target.now) }
{
    match verb {
        Some(verb) => jump_form(names, verb, located_value_of(target, names)),
        None => Jump::Long,
    }
}

/// The form of the JMP or CALL of a line; any other line counts as long.
pub(crate) fn form_of<P: Places<u32>>(names: &P, body: &Body) -> Jump
    ensures { result ≡ form_by (P.meanings names.now) (body_tree body.now) }
{
    match body {
        Body::Code(mnemonic, operands) => match operands.as_slice() {
            [Operand::Plain(target)] => form_to(names, verb_of(mnemonic), target),
            _ => Jump::Long,
        },
        _ => Jump::Long,
    }
}
