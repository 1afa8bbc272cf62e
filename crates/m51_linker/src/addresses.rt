//! Where parts begin, and the addresses to which fixups refer.
ghost use Rattle.std.specs.Prelude.{◌≡◌, ◌≤◌, IsSome, slice_index};
ghost use Rattle.m51_resolve.specs.Joining.{segment_at};
ghost use Rattle.m51_resolve.specs.Referents.{IsBaseThere};
ghost use Rattle.m51_linker.specs.Targets.{address_of, fixup_target, part_address, referent_address};

use m51_module::Fixup;
use m51_place::Placing;
use m51_resolve::{Joined, JoinedNumber, Referent};

// The base of the joined segment of that number.
fn joined_base(placing: &Placing, number: JoinedNumber) -> u16
    ensures { result ≡ slice_index placing.now.bases number }
{
    match placing.bases.as_slice().get(usize::from(number.get())) {
        Some(base) => *base,
        None => 0,
    }
}

// Where the part begins: of this joined segment, at this offset.
fn part_address(placing: &Placing, part: (JoinedNumber, u16)) -> u32
    ensures value { result ≡ part_address placing.now part }
    ensures small { result ≤ 131070 }
{
    let (number, offset) = part;
    u32::from(joined_base(placing, number)) + u32::from(offset)
}

// The address of that offset in the segment of the module.
pub(crate) fn address_of(
    joined: &Joined,
    placing: &Placing,
    module: u8,
    segment: u8,
    offset: u16,
) -> usize
    requires { IsSome (segment_at joined.now «module» segment) }
    ensures { result ≡ address_of joined.now placing.now «module» segment offset }
{
    (part_address(placing, joined.part(module, segment)) + u32::from(offset)) as usize
}

// The address to which a base refers.
fn referent_address(placing: &Placing, referent: Referent) -> u32
    ensures value { result ≡ referent_address placing.now referent }
    ensures small { result ≤ 196605 }
{
    let number = u32::from(referent.number);
    match referent.part {
        Some(part) => part_address(placing, part) + number,
        None => number,
    }
}

// The address to which the fixup of the module refers.
pub(crate) fn fixup_target(joined: &Joined, placing: &Placing, module: u8, fixup: &Fixup) -> u16
    requires { IsBaseThere joined.now «module» fixup.now.target }
    ensures { result ≡ fixup_target joined.now placing.now «module» fixup.now }
{
    let value = referent_address(placing, joined.referent(module, fixup.target));
    ((value + u32::from(fixup.addend)) % 65536) as u16
}
