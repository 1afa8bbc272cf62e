//! Refusals of a link, with their texts.
ghost use Rattle.std.specs.Prelude.{◌≡◌, IfOk, option_map};
ghost use Rattle.m51_resolve.specs.Rules.{but_memory};
ghost use Rattle.m51_chain.specs.LinkRefusals.{link_outcome, reason_of};
ghost use Rattle.m51_chain.specs.Outcome.{stopped};

use crate::work::{Reason, Stop};
use m51_cells::{Bytes, NoMemory};
use m51_module::Refusal;
use m51_print::refusal_text;
use std::alloc::Global;

// The reason of a refusal of the link.
fn reason_of(refusal: &Refusal) -> Reason
    ensures { result ≡ reason_of refusal.now }
{
    match refusal {
        Refusal::Limit { .. } => Reason::Limit,
        _ => Reason::Link,
    }
}

// A link is refused, by a rule or at a limit; out of memory is no refusal.
pub(crate) fn refuse_link(alloc: Global, refusal: &Refusal) -> Result<Stop, NoMemory>
    ensures { IfOk result (λ stop. stopped stop ≡ option_map link_outcome (but_memory refusal.now)) }
{
    if let Refusal::Memory = refusal {
        return Ok(Stop::Memory);
    }
    let text = refusal_text(alloc, refusal)?;
    Ok(Stop::Refused {
        why: reason_of(refusal),
        text: Bytes::of(text),
    })
}
