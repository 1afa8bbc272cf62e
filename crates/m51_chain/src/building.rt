//! The verb `build`.
ghost use Rattle.std.specs.Prelude.{IfOk};
ghost use Rattle.m51_chain.specs.BuildPlans.{IsBuildRun};
ghost use Rattle.m51_chain.specs.Builds.{IsBuildOutcome, build_files};
ghost use Rattle.m51_chain.specs.ProgramFiles.{HasParts};
ghost use Rattle.m51_chain.specs.Outcome.{Comes};

use crate::linking::link_files;
use crate::reporting::report;
use crate::work::{Finished, Stop};
use m51_args::BuildJob;
use m51_cells::Bytes;
use std::alloc::Global;

// Builds a program and runs it.
pub(crate) fn build(alloc: Global, job: &BuildJob, contents: &[Bytes]) -> Result<Finished, Stop>
    requires { HasParts (build_files job.now) contents.now }
    ensures outcome { Comes (IsBuildOutcome job.now contents.now) result }
    ensures run { IfOk result (λ work. IsBuildRun job.now contents.now work.text work.ending) }
{
    let found = link_files(
        alloc,
        job.files.as_slice(),
        &job.control,
        &job.script,
        contents,
    )?;
    Ok(report(alloc, job, found)?)
}
