//! The verbs `dis` and `stack`: a program is linked, and its source or its stack bound is written.
ghost use Rattle.std.specs.Prelude.{◌≡◌, ◌≢◌, ℕ, List, IfOk, Ok, Some};
ghost use Rattle.m51_module.specs.Plan.{IsRootAt};
ghost use Rattle.m51_print.specs.Stack.{stack_refusal};
ghost use Rattle.m51_stackbound.specs.Bounds.{IsBound};
ghost use Rattle.m51_chain.specs.Analyses.{IsBounded, IsDisOutcome, IsDisassembled, IsStackOutcome, bound_outcome};
ghost use Rattle.m51_chain.specs.Analyses.{link_files, reason_of};
ghost use Rattle.m51_chain.specs.Outcome.{Comes, outcome_of, refused, stopped};
ghost use Rattle.m51_chain.specs.ProgramFiles.{HasParts};

use crate::link_refusing::refuse_link;
use crate::linking::link_files;
use crate::work::{Finished, Reason, Stop, text_alone};
use m51_args::LinkJob;
use m51_cells::{Bytes, NoMemory, cite};
use m51_disasm::{DisError, disassemble};
use m51_module::{Image, Layout, Refusal, StackBound, StackError};
use m51_print::{stack_refusal_text, stack_text};
use m51_stackbound::bound;
use std::alloc::Global;

// The image of a linked program is written as a source, or the text passes a limit.
fn disassembly(alloc: Global, layout: &Layout, image: &Image) -> Result<Finished, Stop>
    ensures { Comes (IsDisassembled layout.now image.now) result }
{
    match disassemble(alloc, layout, image) {
        Ok(text) => Ok(text_alone(text)),
        Err(DisError::Memory) => Err(Stop::Memory),
        Err(DisError::Limit { what }) => Err(refuse_link(alloc, &Refusal::Limit { what })?),
    }
}

// The reason of a refusal of the bound.
fn reason_of(error: &StackError) -> Reason
    ensures { result ≡ reason_of error.now }
{
    match error {
        StackError::Limit => Reason::Limit,
        _ => Reason::Stack,
    }
}

// A program has no stack bound. Clause `error` repeats the condition for the caller's proof.
fn refuse_bound(alloc: Global, error: &StackError) -> Result<Stop, NoMemory>
    requires { error.now ≢ StackError.Memory }
    ensures error { error.now ≢ StackError.Memory }
    ensures stop { IfOk result (λ stop. stopped stop
        ≡ Some (refused (reason_of error.now) (stack_refusal error.now))) }
{
    let text = stack_refusal_text(alloc, error)?;
    Ok(Stop::Refused {
        why: reason_of(error),
        text: Bytes::of(text),
    })
}

// The stack bound of a linked program is written.
fn bound_text(alloc: Global, layout: &Layout, bound: &StackBound) -> Result<Finished, NoMemory>
    requires { (image : List ℕ) × IsBound layout.now image bound.now }
    ensures { IfOk result (λ work. outcome_of work ≡ bound_outcome layout.now (Ok bound.now)) }
{
    let text = stack_text(alloc, bound, layout)?;
    Ok(text_alone(text))
}

// The stack bound of a linked program is written, which has a root at the reset vector, or why there is none.
fn stack_bound(alloc: Global, layout: &Layout, image: &Image) -> Result<Finished, Stop>
    requires { (unit : ℕ) × IsRootAt layout.now 0 unit }
    ensures { Comes (IsBounded layout.now image.now) result }
{
    // For the proof only: reading the units exposes the layout's invariant.
    cite(layout.units());
    match bound(alloc, layout, image) {
        Ok(bound) => Ok(bound_text(alloc, layout, &bound)?),
        Err(StackError::Memory) => Err(Stop::Memory),
        Err(error) => Err(refuse_bound(alloc, &error)?),
    }
}

// Links a program, and writes it as a source.
pub(crate) fn disassemble_files(
    alloc: Global,
    job: &LinkJob,
    contents: &[Bytes],
) -> Result<Finished, Stop>
    requires { HasParts (link_files job.now) contents.now }
    ensures { Comes (IsDisOutcome job.now contents.now) result }
{
    let found = link_files(alloc, job.files.as_slice(), &job.control, &None, contents)?;
    disassembly(alloc, &found.linked.layout, &found.linked.image)
}

// Links a program, and bounds its stack.
pub(crate) fn bound_files(
    alloc: Global,
    job: &LinkJob,
    contents: &[Bytes],
) -> Result<Finished, Stop>
    requires { HasParts (link_files job.now) contents.now }
    ensures { Comes (IsStackOutcome job.now contents.now) result }
{
    let found = link_files(alloc, job.files.as_slice(), &job.control, &None, contents)?;
    stack_bound(alloc, &found.linked.layout, &found.linked.image)
}
