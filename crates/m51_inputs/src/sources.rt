//! What the sources of a program give.
ghost use Rattle.std.specs.Prelude.{◌≡◌, ◌≤◌, [], ◌∷◌, ◌++◌, length, count_by, IfOk, OnOk};
ghost use Rattle.m51_cells.specs.Outcome.{Gives};
ghost use Rattle.m51_asm.specs.Answer.{IsAnswer, tree_of};
ghost use Rattle.m51_jobs.specs.Endings.{is_source};
ghost use Rattle.m51_inputs.specs.Answered.{answers_of, words_of};
ghost use Rattle.m51_inputs.specs.Files.{sources_of, includes_of};
ghost use Rattle.m51_inputs.specs.Inputs.{input_refusal};
ghost use Rattle.m51_inputs.specs.Sorting.{files_in, words_in};
ghost use Rattle.m51_inputs.specs.Sources.{AreAnswers, module_or_faults, modules_in, faults_in, unless_faults};

use crate::error::{FaultySources, InputError, SourceFaults};
use crate::sorting::{Sorted, SourceArgument, sort};
use m51_asm::{Assembled, assemble};
use m51_cells::{Bytes, ListOf, NoMemory};
use m51_jobs::FileName;
use m51_module::{Faults, Module, SourceFile};
use std::alloc::Global;
use std::collections::VecDeque;

// What a source gives, and the index of its argument.
#[derive(Drop)]
pub(crate) struct Answered {
    pub(crate) word: usize,
    pub(crate) assembled: Assembled,
}

// What each source gives, assembled with these includes, of which there are at most 65,535.
fn assemble_each(
    alloc: Global,
    sources: &[SourceArgument],
    includes: &[SourceFile],
) -> Result<ListOf<Answered>, NoMemory>
    requires { length includes.now ≤ 65535 }
    // Each source has its answer.
    ensures answers { IfOk result (λ all. AreAnswers includes.now (files_in sources.now) (answers_of all)) }
    ensures words { IfOk result (λ all. words_of all ≡ words_in sources.now) }
{
    let mut answered = ListOf::new(alloc);
    for source in sources {
        let assembled = assemble(alloc, &source.file, includes)?;
        answered.push(Answered {
            word: source.word,
            assembled,
        })?;
    }
    Ok(answered)
}

// What each of these sources gives, assembled with all includes, of which there are at most 65,535.
pub(crate) fn assemble_sources(alloc: Global, sorted: &Sorted) -> Result<ListOf<Answered>, NoMemory>
    requires { length sorted.now.includes ≤ 65535 }
    ensures answers { IfOk result (λ all. AreAnswers sorted.now.includes (files_in sorted.now.sources)
        (answers_of all)) }
    ensures words { IfOk result (λ all. words_of all ≡ words_in sorted.now.sources) }
{
    assemble_each(alloc, sorted.sources.as_slice(), sorted.includes.as_slice())
}

// The module that a source gives, or its faults.
fn module_or_faults(assembled: Assembled) -> Result<Module, Faults>
    ensures { result ≡ module_or_faults (tree_of assembled) }
{
    match assembled {
        Assembled::Module(module, _) => Ok(module),
        Assembled::Faults(faults) => Err(faults),
    }
}

// Puts what a source gives at the end of the modules or of the faults.
fn put_answer(
    answer: Answered,
    modules: &mut VecDeque<Module>,
    faulty: &mut Vec<SourceFaults>,
) -> Result<(), NoMemory>
    ensures modules { OnOk result (modules.new.items
        ≡ modules.old.items ++ modules_in (tree_of answer.assembled ∷ [])) }
    ensures faulty { OnOk result (faulty.new.items
        ≡ faulty.old.items ++ faults_in (answer.word ∷ []) (tree_of answer.assembled ∷ [])) }
{
    let Answered { word, assembled } = answer;
    match module_or_faults(assembled) {
        Ok(module) => modules.push_back(module)?,
        Err(faults) => faulty.push(SourceFaults { file: word, faults })?,
    }
    Ok(())
}

// The modules, where no source has faults.
fn unless_faults(
    modules: VecDeque<Module>,
    faults: Vec<SourceFaults>,
) -> Result<VecDeque<Module>, InputError>
    ensures { Gives (λ all. all.items) input_refusal result (unless_faults faults.items modules.items) }
{
    if faults.is_empty() {
        Ok(modules)
    } else {
        Err(InputError::Sources(FaultySources::of(faults)))
    }
}

// The modules that these answers give, or the faults of all that have some.
pub(crate) fn modules_of(
    alloc: Global,
    answers: ListOf<Answered>,
) -> Result<VecDeque<Module>, InputError>
    ensures { Gives (λ all. all.items) input_refusal result
        (unless_faults (faults_in (words_of answers) (answers_of answers)) (modules_in (answers_of answers))) }
{
    let mut left = VecDeque::from(answers.into_vec());
    let mut modules = VecDeque::new(alloc);
    let mut faulty = Vec::new(alloc);
    while let Some(answer) = left.pop_front() {
        put_answer(answer, &mut modules, &mut faulty)?;
    }
    unless_faults(modules, faulty)
}

/// A source that was assembled, and what it was made of.
///
/// Source: own choice ("Inputs").
#[derive(Drop)]
pub struct AssembledSource {
    /// The source.
    pub source: SourceFile,
    /// The includes, in the order given.
    pub includes: Vec<SourceFile>,
    /// What the source gives.
    pub assembled: Assembled,
}

/// Assembles the one source among these files, with all their includes. There are at most 65,535 files, and as many
/// contents.
///
/// Error: out of memory.
///
/// Source: own choice ("Inputs").
pub fn assemble_source(
    alloc: Global,
    files: &[FileName],
    contents: &[Bytes],
) -> Result<AssembledSource, NoMemory>
    requires count { length contents.now ≡ length files.now }
    requires few { length files.now ≤ 65535 }
    requires one { count_by is_source files.now ≡ 1 }
    ensures source { IfOk result (λ all. sources_of files.now contents.now ≡ all.source ∷ []) }
    ensures includes { IfOk result (λ all. all.includes.items ≡ includes_of files.now contents.now) }
    ensures answer { IfOk result (λ all. IsAnswer all.source all.includes.items (tree_of all.assembled)) }
{
    let Sorted {
        sources,
        includes,
        ..
    } = sort(alloc, files, contents)?;
    let mut sources = sources.into_vec();
    let SourceArgument { file: source, .. } = sources.remove(0);
    let assembled = assemble(alloc, &source, includes.as_slice())?;
    Ok(AssembledSource {
        source,
        includes: includes.into_vec(),
        assembled,
    })
}
