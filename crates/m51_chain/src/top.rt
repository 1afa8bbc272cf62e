//! The top call.
ghost use Rattle.std.specs.Prelude.{◌≡◌, ◌⊎◌, ◌≤◌, None, Some};
ghost use Rattle.m51_args.specs.Jobs.{job_of};
ghost use Rattle.m51_jobs.specs.Texts.{texts};
ghost use Rattle.m51_chain.specs.Complete.{IsComplete};
ghost use Rattle.m51_chain.specs.Due.{ReadsOnly};
ghost use Rattle.m51_chain.specs.Expected.{IsAnswer};
ghost use Rattle.m51_chain.specs.Outside.{change};
ghost use Rattle.m51_shelf.specs.Shelf.{Files};
ghost use Rattle.m51_chain.specs.Told.{HoldsButKept, IsCaused, IsTold};
ghost use Rattle.m51_chain.specs.Outcome.{Answer};

use crate::carrying::carry_out;
use crate::planning::plan;
use crate::status::Status;
use m51_cells::NoMemory;
use m51_shelf::{Shelf, Sink};
use std::alloc::Global;

/// Does what the arguments ask for, with the files of the shelf, and writes to the sink. The arguments are those after
/// the program's name.
///
/// Source: own choice ("The top call").
pub fn chain<F: Shelf, S: Sink>(
    alloc: Global,
    words: &[String],
    files: &mut F,
    out: &mut S,
) -> Status
    // If the files are visible to contracts: status, output and kept file are those specified for these arguments and
    // files, unless a call fails or memory runs out.
    ensures told { (held : Files) → (F.state files.old).holds ≡ Some held → IsTold (texts words.now) held
        (change (F.state files.old) (F.state files.new) (S.state out.old) (S.state out.new)) result }

    // If they are visible and no call fails, the answer for these arguments and files is kept and written whole, unless
    // memory runs out; then nothing is kept or written.
    ensures complete { (held : Files) (answer : Answer) → (F.state files.old).holds ≡ Some held
        → IsAnswer (texts words.now) held answer → IsComplete answer
        (change (F.state files.old) (F.state files.new) (S.state out.old) (S.state out.new)) result }

    // The cause of each status, whether or not the files are visible.
    ensures cause { IsCaused (texts words.now)
        (change (F.state files.old) (F.state files.new) (S.state out.old) (S.state out.new)) result }

    // Faulty arguments are refused before a file is touched.
    ensures usage { job_of (texts words.now) ≡ None → files.new ≡ files.old }

    // If what the shelf returns is visible, the files that were started are the first of those that the arguments name,
    // in their order, and at most one byte past the limit was read from each. In any case the last one is one of those,
    // and at most one byte past the limit was read from it. With too many file arguments no file is started.
    ensures reads { ((F.state files.new).reads ≡ (F.state files.old).reads)
        ⊎ ReadsOnly (texts words.now) (F.state files.old).reads (F.state files.new).reads }

    // If the files are visible, all but the one that the arguments keep are as before.
    ensures holds { HoldsButKept (texts words.now) (F.state files.old).holds (F.state files.new).holds }

    // Failure counters never decrease.
    ensures read_later { (F.state files.old).reads.faults ≤ (F.state files.new).reads.faults }
    ensures kept_later { (F.state files.old).keeps.faults ≤ (F.state files.new).keeps.faults }
    ensures later { (S.state out.old).faults ≤ (S.state out.new).faults }
{
    match plan(alloc, words, files) {
        Ok(plan) => carry_out(plan, files, out),
        Err(NoMemory) => Status::Memory,
    }
}
