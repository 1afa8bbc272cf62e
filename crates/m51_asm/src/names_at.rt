//! What the names of a text and the place of a line mean at the line, by what is kept, in both passes.
ghost use Rattle.std.specs.Prelude.{◌≡◌, option_map, if◌then◌else◌};
ghost use Rattle.m51_predefined.specs.Predefined.{absolute_register_of};
ghost use Rattle.m51_asm.specs.Fitting.{register_or_predefined};
ghost use Rattle.m51_expr.specs.Located.{located_value};
ghost use Rattle.m51_asm.specs.Table.{sets};
ghost use Rattle.m51_asm.specs.Values.{value_in};
ghost use Rattle.m51_asm.specs.ValuesAt.{is_label, value_at};

use crate::names::{FirstDefinition, TextNames, sets};
use crate::numbering::number_at;
use crate::segment_table::SegmentTable;
use crate::segments::is_bitaddressable;
use crate::valuation::Values;
use m51_cells::{Name, is_absolute};
use m51_encode::Numbered;
use m51_expr::{Located, Places};
use m51_predefined::{absolute_register, predefined, register_value};
use m51_text::Line;

/// The lines of a text, the names that they define, and whether those of the 8052 are predefined in it.
#[derive(Clone, Copy)]
pub(crate) struct NamedText<'a> {
    pub(crate) lines: &'a [Line],
    pub(crate) names: &'a TextNames,
    pub(crate) mod51: bool,
}

/// What the names of a text and the place of a line mean at the line.
#[derive(Clone, Copy)]
pub(crate) struct NamesAt<'a> {
    pub(crate) text: NamedText<'a>,
    pub(crate) segments: &'a SegmentTable,
    /// The values of the names that SET does not define.
    pub(crate) kept: &'a Values,
    /// The values of those that it defines.
    pub(crate) set: &'a Values,
    /// The bank of the last USING above.
    pub(crate) bank: u8,
    /// The place of the line.
    pub(crate) here: Located<u32>,
    /// The numbers of the segments in the module, by id; pass 1 has none.
    pub(crate) numbers: &'a [u8],
    /// The label of the line, where that means its place although no value of it is kept.
    pub(crate) label: Option<Name>,
}

// The value of a name that the text does not define: a register of the bank, or a predefined one.
fn undefined_value(mod51: bool, bank: u8, name: &Name) -> Option<Located<u32>>
    ensures { option_map located_value result
        ≡ register_or_predefined mod51 bank name.now (absolute_register_of name.now) }
{
    match absolute_register(name) {
        Some(register) => Some(register_value(bank, register)),
        None if mod51 => predefined(name),
        None => None,
    }
}

/// Whether the label of a line is this name.
pub(crate) fn is_label(label: &Option<Name>, name: &Name) -> bool
    ensures { result ≡ is_label label.now name.now }
{
    match label {
        Some(label) => name.bytes() == label.bytes(),
        None => false,
    }
}

impl<'a> NamesAt<'a> {
    // The value that is kept of a name of this first definition.
    fn kept_of(&self, first: FirstDefinition, name: &Name) -> Option<Located<u32>>
        ensures { result
            ≡ (if sets first.how then value_in self.now.set.now name.now else value_in self.now.kept.now name.now) }
    {
        if sets(first.how) {
            self.set.get(name)
        } else {
            self.kept.get(name)
        }
    }

    // The value of a name that is not the label.
    fn other_value(&self, name: &Name) -> Option<Located<u32>>
        ensures { option_map located_value result ≡ value_at self.now.text.names.now self.now.kept.now self.now.set.now
            self.now.text.mod51 self.now.bank name.now }
    {
        match self.text.names.first(name) {
            Some(first) => self.kept_of(first, name),
            None => undefined_value(self.text.mod51, self.bank, name),
        }
    }
}

impl<'a> Places<u32> for NamesAt<'a> {
    ghost use Rattle.m51_asm.specs.NamesAt.{names_at};

    ghost meanings = { names_at };

    fn value(&self, name: &Name) -> Option<Located<u32>> {
        if is_label(&self.label, name) {
            Some(self.here)
        } else {
            self.other_value(name)
        }
    }

    fn here(&self) -> Located<u32> {
        self.here
    }

    fn fixed(&self, id: u32) -> bool {
        is_absolute(self.segments.reloc(id))
    }

    fn bitaddressable(&self, id: u32) -> bool {
        is_bitaddressable(self.segments.reloc(id))
    }
}

impl<'a> Numbered for NamesAt<'a> {
    fn number(&self, id: u32) -> u8 {
        number_at(self.numbers, id)
    }
}
