//! Refusals by their texts, and those before the work of a verb.
ghost use Rattle.std.specs.Prelude.{◌≡◌, IfOk, Some};
ghost use Rattle.m51_jobs.specs.Texts.{lent};
ghost use Rattle.m51_chain.specs.Outcome.{answer_of, long_answer, many_answer, refusal, refused, stopped};
ghost use Rattle.m51_chain.specs.Outcome.{unread_answer};
ghost use Rattle.m51_chain.specs.Outcome.{usage_answer};
ghost use Rattle.m51_chain.specs.Refusals.{joined_texts};

use crate::status::Status;
use crate::work::{Plan, Reason, Stop};
use m51_cells::{Bytes, NoMemory};
use std::alloc::Global;

// These texts, one after the other.
pub(crate) fn joined_texts(alloc: Global, parts: &[&[u8]]) -> Result<Bytes, NoMemory>
    ensures { IfOk result (λ bytes. bytes ≡ joined_texts (lent parts.now)) }
{
    let mut bytes = Vec::new(alloc);
    for part in parts {
        bytes.extend_from_slice(part)?;
    }
    Ok(Bytes::of(bytes))
}

// A copy of a text.
pub(crate) fn bytes_of(alloc: Global, text: &[u8]) -> Result<Bytes, NoMemory>
    ensures { IfOk result (λ bytes. bytes ≡ text.now) }
{
    Ok(Bytes::of(text.to_vec(alloc)?))
}

// Work is refused, with these texts.
pub(crate) fn refuse(alloc: Global, why: Reason, parts: &[&[u8]]) -> Result<Stop, NoMemory>
    ensures { IfOk result (λ stop. stopped stop ≡ Some (refused why (joined_texts (lent parts.now)))) }
{
    Ok(Stop::Refused {
        why,
        text: joined_texts(alloc, parts)?,
    })
}

// The answer with this status and text, before the work of a verb.
fn refusal(alloc: Global, status: Status, text: &[u8]) -> Result<Plan, NoMemory>
    ensures { IfOk result (λ plan. answer_of plan ≡ refusal status text.now) }
{
    Ok(Plan::Refused {
        status,
        text: bytes_of(alloc, text)?,
    })
}

// The arguments are faulty.
pub(crate) fn refuse_words(alloc: Global) -> Result<Plan, NoMemory>
    ensures { IfOk result (λ plan. answer_of plan ≡ usage_answer) }
{
    refusal(
        alloc,
        Status::Usage,
        b"usage: m51 build [--control F] [--script F] [--hex F] --steps N FILE..\n",
    )
}

// There are more than 64 file arguments.
pub(crate) fn refuse_many_files(alloc: Global) -> Result<Plan, NoMemory>
    ensures { IfOk result (λ plan. answer_of plan ≡ many_answer) }
{
    refusal(alloc, Status::Limit, b"LIMIT FILES 64\n")
}

// A file has more than `MOST_FILE_BYTES` bytes.
pub(crate) fn refuse_long_file(alloc: Global) -> Result<Plan, NoMemory>
    ensures { IfOk result (λ plan. answer_of plan ≡ long_answer) }
{
    refusal(alloc, Status::Limit, b"LIMIT BYTES 1048576\n")
}

// The file of this name could not be read.
pub(crate) fn refuse_unread_file(alloc: Global, file: &str) -> Result<Plan, NoMemory>
    ensures { IfOk result (λ plan. answer_of plan ≡ unread_answer file.now) }
{
    let text = format!(in alloc; "READ FAULT {file}\n")?;
    refusal(alloc, Status::ReadFault, text.as_bytes())
}
