//! Modules that are chosen and joined.
ghost use Rattle.std.specs.Prelude.{◌≡◌, All, IsSome};
ghost use Rattle.m51_cells.specs.declared.kind.Base.TheVariants.{External as OfExternal};
ghost use Rattle.m51_module.specs.Validity.{IsValid};
ghost use Rattle.m51_resolve.specs.Joining.{segments_of, segment_at, part_of};
ghost use Rattle.m51_resolve.specs.Publics.{external_at, public_of};
ghost use Rattle.m51_resolve.specs.Referents.{IsBaseThere, own_part, public_at, referent};
ghost use Rattle.m51_resolve.specs.Rules.{AreResolved};

use crate::joining::SegmentPart;
use crate::publics::Definition;
use crate::{JoinedNumber, JoinedSegment, Referent};
use m51_cells::Base;
use m51_module::{Module, Public};
use std::marker::Model;

/// The chosen modules of a link, which meet its first rules, and their joined segments. Contracts see the list of the
/// chosen modules; what else there is, is a function of it.
///
/// Source: RL51 guide.
#[derive(Drop)]
pub struct Joined {
    pub(crate) modules: Vec<Module>,
    pub(crate) segments: Vec<JoinedSegment>,
    pub(crate) segment_starts: Vec<usize>,
    pub(crate) parts: Vec<SegmentPart>,
    pub(crate) external_starts: Vec<usize>,
    pub(crate) publics: Vec<Definition>,
}

impl Model for Joined {
    ghost use Rattle.std.specs.Prelude.{List};
    ghost use Rattle.m51_module.specs.declared.parts.ModuleParts.{ModuleParts};
    ghost use Rattle.m51_resolve.specs.Kept.{AreKept};

    ghost Value = { List ModuleParts };

    ghost view = { λ j. j.modules.items };

    ghost invariant = { λ j. AreKept j.modules.items j.segments.items j.segment_starts.items j.parts.items
        j.external_starts.items j.publics.items };
}

// The public of that index of the module of that number, both from 0.
fn public_at(modules: &[Module], module: u8, index: usize) -> Option<Public>
    ensures { result ≡ public_at modules.now «module» index }
{
    let chosen = modules.get(usize::from(module))?;
    chosen.publics().get(index).copied()
}

impl Joined {
    /// The chosen modules, in order of choice: at most 255.
    ///
    /// Source: RL51 guide.
    pub fn modules(&self) -> &[Module]
        ensures list { result.now ≡ self.now }
        ensures valid { All IsValid self.now }
        ensures resolved { AreResolved self.now }
    {
        &self.modules
    }

    /// The joined segments, in order of first sight over modules and their segments: at most 2,000, of which at most
    /// 1,000 are of program memory.
    ///
    /// Source: RL51 guide.
    pub fn segments(&self) -> &[JoinedSegment]
        ensures list { result.now ≡ segments_of self.now }
        ensures resolved { AreResolved self.now }
    {
        &self.segments
    }

    /// The part of a joined segment that a segment is: the number of the joined segment, from 0, and the offset of the
    /// part in it, in bytes, for BIT in bits. The module is counted from 0, the segment from 1, and both exist.
    ///
    /// Source: RL51 guide.
    pub fn part(&self, module: u8, segment: u8) -> (JoinedNumber, u16)
        requires { IsSome (segment_at self.now «module» segment) }
        ensures { result ≡ part_of self.now «module» segment }
    {
        let start = self.segment_starts[usize::from(module)];
        let part = &self.parts[start + usize::from(segment) - 1];
        (JoinedNumber::new(part.number as u16), part.offset as u16)
    }

    /// The public that resolves an external: its module, from 0, and its index among the publics there, from 0. The
    /// module of the external is counted from 0, the external from 1, and both exist.
    ///
    /// Source: RL51 guide.
    pub fn public_of(&self, module: u8, external: u8) -> (u8, usize)
        requires { IsSome (external_at self.now «module» external) }
        ensures { result ≡ public_of self.now «module» external }
    {
        let start = self.external_starts[usize::from(module)];
        let found = &self.publics[start + usize::from(external) - 1];
        (found.number as u8, found.index)
    }

    // The part that a base of the module is, if it is a segment.
    fn own_part(&self, module: u8, base: Base) -> Option<(JoinedNumber, u16)>
        requires { IsBaseThere self.now «module» base }
        ensures { result ≡ own_part self.now «module» base }
    {
        match base {
            Base::Segment(segment) => Some(self.part(module, segment)),
            Base::None | Base::External(_) => None,
        }
    }

    // What the public refers to that resolves the external of the module.
    fn external_referent(&self, module: u8, external: u8) -> Referent
        requires { IsSome (external_at self.now «module» external) }
        ensures { result ≡ referent self.now «module» (OfExternal external) }
    {
        let (home, index) = self.public_of(module, external);
        match public_at(&self.modules, home, index) {
            Some(public) => Referent {
                part: self.own_part(home, public.base),
                number: public.number,
            },
            None => Referent {
                part: None,
                number: 0,
            },
        }
    }

    /// What a base of the module refers to: the beginning of its segment; what the public refers to that resolves its
    /// external; or nothing. The module is counted from 0, and has that segment or external.
    ///
    /// Source: own choice ("Names that are resolved").
    pub fn referent(&self, module: u8, base: Base) -> Referent
        requires { IsBaseThere self.now «module» base }
        ensures { result ≡ referent self.now «module» base }
    {
        match base {
            Base::External(external) => self.external_referent(module, external),
            _ => Referent {
                part: self.own_part(module, base),
                number: 0,
            },
        }
    }
}
