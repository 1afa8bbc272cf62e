//! The record of a public.
ghost use Rattle.std.specs.Prelude.{◌≡◌, ◌<◌, ◌++◌, ◌∷◌, [], false, IfOk, length, map};
ghost use Rattle.m51_module.specs.Validity.{numbered};
ghost use Rattle.m51_module.specs.declared.symbol.Public.{Public};
ghost use Rattle.m51_frame.specs.Fields.{Reads, is_name_among};
ghost use Rattle.m51_records.specs.Publics.{base_number, public_contents, base_of_public, public_base_at, public_in};
ghost use Rattle.m51_records.specs.declared.types.TheConstants.{PUBLIC};

use crate::codes::kind_number;
use crate::external::kind_at;
use crate::record::{Reader, Record};
use crate::seen::{SeenNames, new_name_at};
use crate::types::PUBLIC;
use m51_cells::{Base, Kind, NoMemory, same_kind};
use m51_frame::{absent, broken, byte_at, pair_at, put_pair, put_text};
use m51_module::{ObjError, Public, Segment, segment_numbered};
use std::alloc::Global;

// What a public of the kind is counted from, by the number of its segment. O5 where there is none, O4 where it has
// another kind.
fn base_of_public(
    segments: &[Segment],
    kind: Kind,
    number: u8,
    end: u32,
    field: &[u8],
) -> Result<Base, ObjError>
    ensures { Reads (λ x. x) result (base_of_public segments.now kind number end field.now) }
{
    if number == 0 {
        return Ok(Base::None);
    }
    match segment_numbered(segments, number) {
        Some(segment) => {
            if !same_kind(segment.kind, kind) {
                return Err(broken(end, field));
            }
            Ok(Base::Segment(number))
        }
        None => Err(absent(end, field)),
    }
}

// What a public of the kind is counted from, and the bytes after its number.
#[tactic(auto, unfolding(crate::specs::Publics::public_base_at))]
fn public_base_at<'a>(
    segments: &[Segment],
    kind: Kind,
    end: u32,
    bytes: &'a [u8],
) -> Result<(Base, &'a [u8]), ObjError>
    ensures { Reads (λ x. (x.0, x.1.now)) result (public_base_at segments.now kind end bytes.now) }
{
    let (number, rest) = byte_at(end, bytes)?;
    let base = base_of_public(segments, kind, number, end, bytes)?;
    Ok((base, rest))
}

/// Reads the publics of a module, and keeps the names of those before.
///
/// Source: own choice ("Object records").
#[derive(Drop)]
pub(crate) struct PublicReader<'a> {
    /// The segments of the module.
    pub(crate) segments: &'a [Segment],
    /// The names of the publics before.
    pub(crate) seen: SeenNames,
}

impl<'a> Reader for PublicReader<'a> {
    type Item = Public;

    ghost reads = { λ r. public_in r.segments.now };

    ghost knows = { λ r before. r.seen ≡ map (λ (p : Public). p.name) before };

    fn read(
        &mut self,
        alloc: Global,
        before: &[Public],
        end: u32,
        contents: &[u8],
    ) -> Result<Public, ObjError> {
        let public = read_public(self.segments, &self.seen, before, end, contents)?;
        self.seen.note(alloc, &public.name)?;
        Ok(public)
    }
}

// The public whose record has these contents: they end at that offset; the module has these segments, and these
// publics, with these names, come before it. O4 for a field that breaks a rule, or for bytes left over; O5 for a
// segment that does not exist.
#[tactic(auto, unfolding(crate::specs::Publics::public_in))]
fn read_public(
    segments: &[Segment],
    seen: &SeenNames,
    before: &[Public],
    end: u32,
    contents: &[u8],
) -> Result<Public, ObjError>
    requires { seen.now ≡ map (λ (p : Public). p.name) before.now }
    ensures value { Reads (λ x. x) result (public_in segments.now before.now end contents.now) }
    ensures new { IfOk result (λ p. is_name_among seen.now p.name ≡ false) }
{
    let (kind, rest) = kind_at(end, contents)?;
    let (base, rest) = public_base_at(segments, kind, end, rest)?;
    let (number, rest) = pair_at(end, rest)?;
    let name = new_name_at(seen, end, rest)?;
    Ok(Public {
        name,
        kind,
        base,
        number,
    })
}

// The number of a public's segment, or 0.
fn base_number(base: Base) -> u8
    ensures { result ≡ base_number base }
{
    match base {
        Base::None => 0,
        Base::Segment(number) | Base::External(number) => number,
    }
}

impl Record for Public {
    ghost TYPE = { PUBLIC };

    ghost spelled = { public_contents };

    ghost is_short = { λ _. Unit {0} };

    const TYPE: u8 = PUBLIC;

    fn contents(&self, alloc: Global) -> Result<Vec<u8>, NoMemory> {
        let mut contents = Vec::new(alloc);
        contents.push(kind_number(self.kind))?;
        contents.push(base_number(self.base))?;
        put_pair(&mut contents, self.number)?;
        put_text(&mut contents, self.name.bytes())?;
        Ok(contents)
    }
}
