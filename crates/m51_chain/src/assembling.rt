//! The verb `asm`.
ghost use Rattle.std.specs.Prelude.{◌≡◌, ℕ, List, IfOk, count_by};
ghost use Rattle.m51_asm.specs.Answer.{Gives, IsAnswer, tree_of};
ghost use Rattle.m51_jobs.specs.declared.job.Job.TheVariants.{Asm};
ghost use Rattle.m51_jobs.specs.Endings.{is_source};
ghost use Rattle.m51_chain.specs.Assembles.{IsAsmOutcome, assembled_outcome};
ghost use Rattle.m51_print.specs.Listing.{AreOf};
ghost use Rattle.m51_chain.specs.Contents.{AreContentsOf};
ghost use Rattle.m51_chain.specs.Outcome.{Comes, outcome_of};

use crate::faulting::refuse_source;
use crate::work::{Finish, Finished, Stop};
use m51_args::{AsmJob, FileName};
use m51_asm::Assembled;
use m51_cells::{Bytes, NoMemory};
use m51_inputs::{AssembledSource, assemble_source};
use m51_module::{Module, Rows, SourceFile};
use m51_print::listing;
use m51_records::write_module;
use std::alloc::Global;

// The object of a module, which is kept, and the listing of its source.
fn list(
    alloc: Global,
    source: &SourceFile,
    includes: &[SourceFile],
    parts: &Module,
    rows: &Rows,
) -> Result<Finished, NoMemory>
    requires { AreOf source.now includes.now rows.now }
    ensures { IfOk result (λ work. (files : List (List ℕ))
        → outcome_of work ≡ assembled_outcome files source.now includes.now (Gives parts.now rows.now)) }
{
    let object = write_module(alloc, parts)?;
    let text = listing(alloc, source, includes, rows)?;
    Ok(Finished {
        keeps: Some(Bytes::of(object)),
        text: Bytes::of(text),
        ending: Finish::Ran,
    })
}

// What comes of a source that was assembled.
fn assembled(alloc: Global, files: &[FileName], all: &AssembledSource) -> Result<Finished, Stop>
    requires { IsAnswer all.now.source all.now.includes.items (tree_of all.now.assembled) }
    ensures { Comes (λ outcome. outcome
        ≡ assembled_outcome files.now all.now.source all.now.includes.items (tree_of all.now.assembled)) result }
{
    let source = &all.source;
    match &all.assembled {
        Assembled::Faults(faults) => Err(refuse_source(alloc, files, source, faults.as_slice())?),
        Assembled::Module(parts, rows) => Ok(list(alloc, source, &all.includes, parts, rows)?),
    }
}

// Assembles a source, keeps its object and lists it.
pub(crate) fn assemble(alloc: Global, job: &AsmJob, contents: &[Bytes]) -> Result<Finished, Stop>
    requires one { count_by is_source job.now.files ≡ 1 }
    requires contents { AreContentsOf (Asm job.now) contents.now }
    ensures { Comes (IsAsmOutcome job.now contents.now) result }
{
    let files = job.files.as_slice();
    let all = assemble_source(alloc, files, contents)?;
    assembled(alloc, files, &all)
}
