//! The outcome of the work of a verb, and the plan for it: what is to be kept, written and run.
ghost use Rattle.std.specs.Prelude.{◌≡◌, ℕ, List, None, Option, option_map};
ghost use Rattle.m51_chain.specs.Outcome.{answer_of, file_of, named_answer, outcome_of, refused, status_of, under};
ghost use Rattle.m51_chain.specs.Outcome.{written};

use crate::status::Status;
use crate::target::KeptName;
use crate::unrun::UnrunParty;
use m51_args::Steps;
use m51_cells::{Bytes, NoMemory};
use m51_sim::{Board, FlatBoard};

/// Why the work of a verb is refused.
///
/// Source: own choice ("Statuses").
#[derive(Clone, Copy, Debug, PartialEq, Eq)]
pub enum Reason {
    /// A source has faults.
    Source,
    /// The link is refused.
    Link,
    /// An object, a library, a HEX file or an edit of a library is refused.
    Object,
    /// A control file or a script is refused.
    Script,
    /// A quantity passed its limit.
    Limit,
    /// The stack of a program has no bound.
    Stack,
}

// The status of a reason.
fn status_of(why: Reason) -> Status
    ensures { result ≡ status_of why }
{
    match why {
        Reason::Source => Status::Source,
        Reason::Link => Status::Link,
        Reason::Object => Status::Object,
        Reason::Script => Status::Script,
        Reason::Limit => Status::Limit,
        Reason::Stack => Status::Stack,
    }
}

/// How accepted work ends: `steps` is the most steps of its run.
///
/// Source: own choice ("The top call").
#[derive(Drop)]
pub enum Finish {
    /// Without an event.
    Ran,
    /// By an event of a run whose record is not written.
    Event,
    /// With a run, whose record is written.
    Run { board: Board, steps: Steps },
    /// With a run on one memory, whose record is written.
    FlatRun { board: FlatBoard, steps: Steps },
    /// With the run of boards on one line, whose text is written.
    Party { party: UnrunParty, steps: Steps },
}

// The outcome of the work of a verb, if it is accepted.
#[derive(Drop)]
pub(crate) struct Finished {
    // The bytes of the file that is kept.
    pub keeps: Option<Bytes>,
    // The text that is written first.
    pub text: Bytes,
    // How it ends.
    pub ending: Finish,
}

// This text is written, and nothing is kept.
#[tactic(auto, using(crate::proofs::Following::ran_alone))]
pub(crate) fn text_alone(text: Vec<u8>) -> Finished
    ensures { outcome_of result ≡ written text.items }
{
    Finished {
        keeps: None,
        text: Bytes::of(text),
        ending: Finish::Ran,
    }
}

// Why the work of a verb stops.
#[derive(Drop)]
pub(crate) enum Stop {
    // It is refused, with a text.
    Refused { why: Reason, text: Bytes },
    // Out of memory.
    Memory,
}

impl From<NoMemory> for Stop {
    ghost use Rattle.std.specs.Prelude.{◌≡◌};
    ghost use Rattle.m51_chain.specs.declared.work.Stop.TheVariants.{Memory};

    ghost from_gives = { λ _ stop. stop ≡ Memory };

    fn from(_error: NoMemory) -> Stop {
        Stop::Memory
    }
}

/// What is to be kept and written.
///
/// Source: own choice ("The top call").
#[derive(Drop)]
pub enum Plan {
    /// A refusal: a status, and its text.
    Refused {
        status: Status,
        text: Bytes,
    },
    /// The file that is kept, the text that is written first, and how it ends.
    Accepted {
        keeps: Option<Kept>,
        text: Bytes,
        ending: Finish,
    },
}

/// A file that is to be kept: its name and its bytes.
///
/// Source: own choice ("The top call").
#[derive(Drop)]
pub struct Kept {
    pub target: KeptName,
    pub bytes: Bytes,
}

// The bytes under the name, if both exist.
fn under(target: Option<KeptName>, bytes: Option<Bytes>) -> Option<Kept>
    ensures file { option_map file_of result ≡ under target bytes }
    ensures none { target ≡ None → result ≡ None }
{
    match (target, bytes) {
        (Some(target), Some(bytes)) => Some(Kept { target, bytes }),
        _ => None,
    }
}

// The plan for accepted work, where the file that is kept has this name. Where none is named, it is the work unchanged.
pub(crate) fn accepted(target: Option<KeptName>, work: Finished) -> Plan
    ensures answer { answer_of result ≡ named_answer target (outcome_of work) }
    ensures plain { target ≡ None → result ≡ Plan.Accepted None work.text work.ending }
{
    let Finished {
        keeps,
        text,
        ending,
    } = work;
    Plan::Accepted {
        keeps: under(target, keeps),
        text,
        ending,
    }
}

// The plan for work that is refused, whatever file it would keep.
pub(crate) fn refused(why: Reason, text: Bytes) -> Plan
    ensures { (name : Option (List ℕ)) → answer_of result ≡ named_answer name (refused why text) }
{
    Plan::Refused {
        status: status_of(why),
        text,
    }
}
