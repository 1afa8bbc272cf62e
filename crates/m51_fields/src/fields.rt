//! What each form of fixup writes, and its rule.
ghost use Rattle.std.specs.Prelude.{◌≡◌, ◌≤◌};
ghost use Rattle.m51_fields.specs.Fields.{bit_field, block_field, byte_field, conv_field, field_of, high_of};
ghost use Rattle.m51_fields.specs.Fields.{inblock_field, low_of, one_if, relative_field};

use m51_isa::{bit_address, distance, fits_byte, in_one_block, is_near};
use m51_module::Form;

/// What a field holds: one byte or two.
///
/// Source: RL51 guide.
#[derive(Clone, Copy)]
pub enum FieldBytes {
    /// One byte.
    One(u8),
    /// Two bytes, the one at the lower address first.
    Two(u8, u8),
}

fn low_of(address: u16) -> u8
    ensures { result ≡ low_of address }
{
    (address % 256) as u8
}

fn high_of(address: u16) -> u8
    ensures { result ≡ high_of address }
{
    (address / 256) as u8
}

// The byte, where the rule is met.
fn one_if(met: bool, byte: u8) -> Option<FieldBytes>
    ensures { result ≡ one_if met byte }
{
    if met {
        Some(FieldBytes::One(byte))
    } else {
        None
    }
}

// BYTE.
fn byte_field(target: u16) -> Option<FieldBytes>
    ensures { result ≡ byte_field target }
{
    one_if(fits_byte(target), low_of(target))
}

// RELATIVE.
fn relative_field(target: u16, address: u16) -> Option<FieldBytes>
    ensures { result ≡ relative_field target address }
{
    let far = distance(address.wrapping_add(1), target);
    one_if(is_near(far), low_of(far))
}

// The field of INBLOCK over that first byte of content.
fn block_field(target: u16, first: u8) -> FieldBytes
    ensures { result ≡ block_field target first }
{
    FieldBytes::Two(high_of(target) % 8 * 32 + first % 32, low_of(target))
}

// INBLOCK.
fn inblock_field(target: u16, address: u16, first: u8) -> Option<FieldBytes>
    ensures { result ≡ inblock_field target address first }
{
    if in_one_block(target, address.wrapping_add(2)) {
        Some(block_field(target, first))
    } else {
        None
    }
}

// BIT.
fn bit_field(target: u16) -> Option<FieldBytes>
    ensures { result ≡ bit_field target }
{
    one_if(target <= 0xFF, low_of(target))
}

// CONV.
fn conv_field(target: u16, bit: u8) -> Option<FieldBytes>
    ensures { result ≡ conv_field target bit }
{
    let address = bit_address(target, u16::from(bit))?;
    Some(FieldBytes::One(address as u8))
}

/// The field of a fixup of that form and bit, with that target, at that address, where content has that first byte;
/// `None` if the rule of the form fails. The bit is at most 7.
///
/// Source: RL51 guide; OMF-51.
pub fn field_of(form: Form, bit: u8, target: u16, address: u16, first: u8) -> Option<FieldBytes>
    requires { bit ≤ 7 }
    ensures { result ≡ field_of form bit target address first }
{
    match form {
        Form::Low => Some(FieldBytes::One(low_of(target))),
        Form::High => Some(FieldBytes::One(high_of(target))),
        Form::Byte => byte_field(target),
        Form::Word => Some(FieldBytes::Two(high_of(target), low_of(target))),
        Form::Relative => relative_field(target, address),
        Form::Inblock => inblock_field(target, address, first),
        Form::Bit => bit_field(target),
        Form::Conv => conv_field(target, bit),
    }
}
