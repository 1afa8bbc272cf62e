//! What an instruction gives.
ghost use Rattle.std.specs.Prelude.{◌≡◌, [], ◌∷◌, ◌++◌, take, IfOk, OnOk};
ghost use Rattle.m51_emit.specs.Content.{placed_from, coded_content};
ghost use Rattle.m51_emit.specs.Lines.{given};

use crate::content::{EmittedContent, LineContent, ReferenceAt, References};
use crate::counting::{counted_operands, none_of};
use m51_cells::{Bytes, NoMemory};
use m51_encode::{Coded, Coding, CodingError, Reference};
use m51_isa::Code;
use std::alloc::Global;

// The bytes of an instruction.
fn bytes_of(alloc: Global, code: &Code) -> Result<Bytes, NoMemory>
    ensures { IfOk result (λ bytes. bytes ≡ take code.now.len code.now.bytes) }
{
    let len = usize::from(code.len);
    let bytes = if len <= 3 {
        code.bytes[..len].to_vec(alloc)?
    } else {
        code.bytes.to_vec(alloc)?
    };
    Ok(Bytes::of(bytes))
}

// The reference of a field that begins at this byte, if there is one.
fn push_reference(
    references: &mut Vec<ReferenceAt>,
    byte: usize,
    reference: Option<Reference>,
) -> Result<(), NoMemory>
    ensures { OnOk result (references.new.items ≡ references.old.items ++ placed_from byte (reference ∷ [])) }
{
    if let Some(reference) = reference {
        references.push((byte, reference))?;
    }
    Ok(())
}

// The references of an instruction, by the bytes where their fields begin.
fn references_of(alloc: Global, references: [Option<Reference>; 3]) -> Result<References, NoMemory>
    ensures { IfOk result (λ placed. placed ≡ placed_from 0 references) }
{
    let [first, second, third] = references;
    let mut placed = Vec::new(alloc);
    push_reference(&mut placed, 0, first)?;
    push_reference(&mut placed, 1, second)?;
    push_reference(&mut placed, 2, third)?;
    Ok(References::of(placed))
}

// The bytes and references of an instruction; nothing where an operand has a fault.
fn coded_content(
    alloc: Global,
    coded: Result<Coded, CodingError>,
) -> Result<EmittedContent, NoMemory>
    ensures { IfOk result (λ content. content ≡ coded_content coded) }
{
    match coded {
        Ok(coded) => Ok(EmittedContent {
            bytes: bytes_of(alloc, &coded.code)?,
            references: references_of(alloc, coded.references)?,
        }),
        Err(_) => Ok(EmittedContent {
            bytes: Bytes::new(alloc),
            references: References::new(alloc),
        }),
    }
}

/// What an instruction gives, with `made` fixups before it.
pub(crate) fn instruction_content(
    alloc: Global,
    coding: Coding,
    made: usize,
) -> Result<LineContent, NoMemory>
    ensures { IfOk result (λ line. line ≡ given (coded_content coding.coded) made coding.outcomes) }
{
    let count = counted_operands(none_of(made), coding.outcomes);
    let content = coded_content(alloc, coding.coded)?;
    Ok(LineContent {
        content,
        fault: count.fault,
        made: count.made,
    })
}
