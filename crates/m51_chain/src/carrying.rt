//! Carrying a plan out: keeping, writing, running. It allocates nothing.
ghost use Rattle.std.specs.Prelude.{◌≡◌, ◌≤◌, ◌++◌, None, Some};
ghost use Rattle.m51_chain.specs.Carried.{HoldsBut, IsTextWritten, IsEnded, status_told};
ghost use Rattle.m51_chain.specs.Outcome.{answer_of, file_of, party_status, status_after, status_at, text_at};
ghost use Rattle.m51_shelf.specs.Shelf.{HoldsOthers};

use crate::status::Status;
use crate::work::{Finish, Kept, Plan};
use m51_party::PartyEnd;
use m51_shelf::{Failed, Shelf, Sink, write_whole};
use m51_sim::RunEnd;

// Writes a text, and ends with the status.
fn write<S: Sink>(out: &mut S, status: Status, text: &[u8]) -> Result<Status, Failed>
    ensures written { IsTextWritten status text.now (S.state out.old) (S.state out.new) result }
    ensures later { (S.state out.old).faults ≤ (S.state out.new).faults }
{
    match write_whole(out, text) {
        Ok(()) => Ok(status),
        Err(Failed) => Err(Failed),
    }
}

// The status after a run, by how it ended.
fn status_after(end: RunEnd) -> Result<Status, Failed>
    ensures { result ≡ status_after end }
{
    match end {
        RunEnd::Finished => Ok(Status::Ran),
        RunEnd::Stopped(_) => Ok(Status::Event),
        RunEnd::WriteFault => Err(Failed),
    }
}

// The status after a party, by how it ended.
fn party_status(end: PartyEnd) -> Result<Status, Failed>
    ensures { result ≡ party_status end }
{
    match end {
        PartyEnd::Finished => Ok(Status::Ran),
        PartyEnd::Stopped => Ok(Status::Event),
        PartyEnd::WriteFault => Err(Failed),
    }
}

// Ends: runs, if there is something to run, and writes the record.
#[tactic(auto, unfolding(crate::specs::Outcome::status_at, crate::specs::Outcome::text_at))]
fn end<S: Sink>(ending: Finish, out: &mut S) -> Result<Status, Failed>
    ensures written { IsTextWritten (status_at ending) (text_at ending) (S.state out.old) (S.state out.new) result }
    ensures later { (S.state out.old).faults ≤ (S.state out.new).faults }
{
    match ending {
        Finish::Ran => Ok(Status::Ran),
        Finish::Event => Ok(Status::Event),
        Finish::Run { mut board, steps } => status_after(board.run(steps.number(), out)),
        Finish::FlatRun { mut board, steps } => status_after(board.run(steps.number(), out)),
        Finish::Party { party, steps } => party_status(party.run(steps.number(), out)),
    }
}

// Writes a text, and then ends.
fn report<S: Sink>(text: &[u8], ending: Finish, out: &mut S) -> Result<Status, Failed>
    ensures written { IsTextWritten (status_at ending) (text.now ++ text_at ending)
        (S.state out.old) (S.state out.new) result }
    ensures later { (S.state out.old).faults ≤ (S.state out.new).faults }
{
    match write_whole(out, text) {
        Ok(()) => end(ending, out),
        Err(Failed) => Err(Failed),
    }
}

/// The status after a text was to be written: the one that it came with, or that of a write fault.
///
/// Source: own choice ("Statuses").
pub fn status_told(written: Result<Status, Failed>) -> Status
    ensures { result ≡ status_told written }
{
    match written {
        Ok(status) => status,
        Err(Failed) => Status::WriteFault,
    }
}

// Keeps a file and reports, or says that it could not be kept.
fn keep_first<F: Shelf, S: Sink>(
    file: Kept,
    text: &[u8],
    ending: Finish,
    files: &mut F,
    out: &mut S,
) -> Status
    ensures carried { IsEnded
        (record { status = status_at ending; text = text.now ++ text_at ending; keeps = Some (file_of file) })
        (F.state files.old).keeps (F.state files.new).keeps (S.state out.old) (S.state out.new) result }
    ensures reads { (F.state files.new).reads ≡ (F.state files.old).reads }
    ensures others { HoldsOthers (F.state files.old).holds (F.state files.new).holds file.target }
    ensures kept_later { (F.state files.old).keeps.faults ≤ (F.state files.new).keeps.faults }
    ensures later { (S.state out.old).faults ≤ (S.state out.new).faults }
{
    let Kept { target, bytes } = file;
    let (name, unkept) = target.into_parts();
    match files.keep(name.into_string(), bytes.as_slice()) {
        Ok(()) => status_told(report(text, ending, out)),
        Err(Failed) => status_told(write(out, Status::WriteFault, unkept.as_slice())),
    }
}

// Keeps and writes what a plan says, up to the first failed call: first the file is kept, then the text is written,
// then what is to be run is run. Nothing is allocated.
pub(crate) fn carry_out<F: Shelf, S: Sink>(plan: Plan, files: &mut F, out: &mut S) -> Status
    ensures carried { IsEnded (answer_of plan) (F.state files.old).keeps (F.state files.new).keeps
        (S.state out.old) (S.state out.new) result }
    ensures quiet { (answer_of plan).keeps ≡ None → files.new ≡ files.old }
    ensures holds { HoldsBut (answer_of plan).keeps (F.state files.old).holds (F.state files.new).holds }
    ensures reads { (F.state files.new).reads ≡ (F.state files.old).reads }
    ensures kept_later { (F.state files.old).keeps.faults ≤ (F.state files.new).keeps.faults }
    ensures later { (S.state out.old).faults ≤ (S.state out.new).faults }
{
    match plan {
        Plan::Refused { status, text } => status_told(write(out, status, text.as_slice())),
        Plan::Accepted {
            keeps,
            text,
            ending,
        } => match keeps {
            Some(file) => keep_first(file, text.as_slice(), ending, files, out),
            None => status_told(report(text.as_slice(), ending, out)),
        },
    }
}
