//! What the PUBLIC statements of a text make of names.
ghost use Rattle.std.specs.Prelude.{◌≡◌, ◌++◌, [], option_map, OnOk, IfOk};
ghost use Rattle.m51_emit.specs.Outcomes.{or_next};
ghost use Rattle.m51_emit.specs.PublicNames.{if_public};
ghost use Rattle.m51_expr.specs.Located.{origin_base, located_value};
ghost use Rattle.m51_asm.specs.PublicNames.{base_segment, counted_from};
ghost use Rattle.m51_asm.specs.Publishing.{definer_of, segment_kept, published_by, publics_among, fault_of_public};
ghost use Rattle.m51_asm.specs.Publishing.{fault_among};

use crate::definitions::How;
use crate::names::FirstDefinition;
use crate::names_at::NamesAt;
use crate::numbering::number_at;
use m51_cells::{Kind, Name, NoMemory};
use m51_emit::{Definer, PublicSegment, public_of};
use m51_expr::{Located, Origin, Places};
use m51_module::{Public, Publics};

// What defines a name of this first definition, as far as PUBLIC asks.
fn definer_of(first: Option<FirstDefinition>) -> Definer
    ensures { result ≡ definer_of first }
{
    match first {
        Some(first) => match first.how {
            How::Segment(_) => Definer::Segment,
            How::Set => Definer::Set,
            How::External(_, _) => Definer::External,
            _ => Definer::Other,
        },
        None => Definer::Other,
    }
}

// The segment of the text that an origin is.
fn base_segment(names: &NamesAt<'_>, origin: Origin<u32>) -> PublicSegment
    ensures { result ≡ base_segment (segment_kept names.now) (origin_base origin) }
{
    match origin {
        Origin::Segment(id) => {
            let segment = names.segments.segment(id);
            PublicSegment {
                kind: segment.kind,
                base: segment.base,
                number: number_at(names.numbers, id),
            }
        }
        Origin::None | Origin::External(_) => PublicSegment {
            kind: Kind::Code,
            base: 0,
            number: 0,
        },
    }
}

// The segment that a value counts from; where it counts from none, this does not matter.
fn counted_from(names: &NamesAt<'_>, value: Option<Located<u32>>) -> PublicSegment
    ensures { result ≡ counted_from (segment_kept names.now) (option_map located_value value) }
{
    match value {
        Some(value) => base_segment(names, value.origin),
        None => base_segment(names, Origin::None),
    }
}

// What a name of PUBLIC becomes.
fn published_by(names: &NamesAt<'_>, name: &Name) -> Result<Public, u8>
    ensures { result ≡ published_by names.now name.now }
{
    let value = names.value(name);
    let definer = definer_of(names.text.names.first(name));
    public_of(*name, definer, counted_from(names, value), value)
}

/// The fault that comes first.
pub(crate) fn or_next(first: Option<u8>, next: Option<u8>) -> Option<u8>
    ensures { result ≡ or_next first next }
{
    match first {
        Some(number) => Some(number),
        None => next,
    }
}

// Adds a public, or returns its fault.
fn push_or_fault(publics: &mut Publics, public: Result<Public, u8>) -> Result<Option<u8>, NoMemory>
    ensures publics { OnOk result (publics.new ≡ publics.old ++ if_public public []) }
    ensures fault { IfOk result (λ fault. fault ≡ fault_of_public public) }
{
    match public {
        Ok(public) => {
            publics.push(public)?;
            Ok(None)
        }
        Err(number) => Ok(Some(number)),
    }
}

/// Takes in the publics of names, and gives the fault of the first that has one. The only error is out of memory.
pub(crate) fn publish(
    names: &NamesAt<'_>,
    publics: &mut Publics,
    list: &[Name],
) -> Result<Option<u8>, NoMemory>
    ensures publics { OnOk result (publics.new
        ≡ publics.old ++ publics_among (published_by names.now) list.now) }
    ensures fault { IfOk result (λ fault. fault ≡ fault_among (published_by names.now) list.now) }
{
    match list {
        [first, rest @ ..] => {
            let fault = push_or_fault(publics, published_by(names, first))?;
            let next = publish(names, publics, rest)?;
            Ok(or_next(fault, next))
        }
        [] => Ok(None),
    }
}
