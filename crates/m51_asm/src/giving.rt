//! The values that a line gives to the names which it defines.
ghost use Rattle.std.specs.Prelude.{◌≡◌, ◌+◌, ◌<◌, ℕ, List, OnOk};
ghost use Rattle.m51_asm.specs.Values.{value_in};
ghost use Rattle.m51_asm.specs.GivenValues.{segment_given, external_given, given_by, given_or, HasNumber, HaveNumbers};

use crate::definitions::How;
use crate::valuation::Values;
use m51_cells::{Kind, Name, NoMemory};
use m51_expr::{Located, Origin, Part};
use std::alloc::Global;

/// What the values of a line's names are computed from.
#[derive(Clone, Copy)]
pub(crate) struct Giving {
    /// The place of the line.
    pub(crate) here: Located<u32>,
    /// The value of its expression.
    pub(crate) expression: Option<Located<u32>>,
    /// Its number in the text.
    pub(crate) line: usize,
    /// How many externals are declared above it.
    pub(crate) externals: u8,
}

// A segment that a line declares.
fn segment_given(kind: Kind, line: usize) -> Located<u32>
    requires { line < 65536 }
    ensures { result ≡ segment_given kind line }
{
    Located {
        number: 0,
        class: kind,
        origin: Origin::Segment(line as u32 + 2),
        part: Part::Whole,
    }
}

// An external of a line, by how many externals are declared above it and its number in the line, counted from 0.
fn external_given(kind: Kind, above: u8, number: usize) -> Located<u32>
    requires { above + number < 255 }
    ensures { result ≡ external_given kind (above + number + 1) }
{
    Located {
        number: 0,
        class: kind,
        origin: Origin::External(above + number as u8 + 1),
        part: Part::Whole,
    }
}

// The value that a line gives a name which it defines so.
fn given_by(giving: &Giving, how: How) -> Option<Located<u32>>
    requires line { giving.now.line < 65536 }
    requires number { HasNumber giving.now.externals how }
    ensures { result ≡ given_by giving.now how }
{
    match how {
        How::Label => Some(giving.here),
        How::Segment(kind) => Some(segment_given(kind, giving.line)),
        How::External(kind, number) => Some(external_given(kind, giving.externals, number)),
        How::Equ | How::Set | How::Address(_) => giving.expression,
    }
}

/// Adds the values of the definitions of a line, of which the first one of a name counts. The only error is out of
/// memory.
pub(crate) fn take_in(
    alloc: Global,
    values: &mut Values,
    giving: &Giving,
    defined: &[(Name, How)],
) -> Result<(), NoMemory>
    requires line { giving.now.line < 65536 }
    requires numbers { HaveNumbers giving.now.externals defined.now }
    ensures { OnOk result ((name : List ℕ)
        → value_in values.new name ≡ given_or giving.now defined.now name (value_in values.old name)) }
{
    match defined {
        [first, rest @ ..] => {
            take_in(alloc, values, giving, rest)?;
            let (name, how) = first;
            values.put(alloc, name, given_by(giving, *how))
        }
        [] => Ok(()),
    }
}
