//! Resolves fixups: each to a field, which is put over the content, or to the spot where its rule fails.
ghost use Rattle.std.specs.Prelude.{◌≡◌, IfOk, Some, option_to_list, slice_get};
ghost use Rattle.m51_linker.specs.Broken.{broken_of, broken_rule, broken_spot, least_of, module_broken};
ghost use Rattle.m51_linker.specs.Image.{IsImage, content_of, fields_of, module_fields, placed_field};
ghost use Rattle.m51_linker.specs.Memory.{HoldsStretches, AreWritten, image_at};
ghost use Rattle.m51_linker.specs.Ready.{ArePlaced, Checks, IsFixupPlaced};

use crate::addresses::{address_of, fixup_target};
use crate::checking::{Spot, earlier_of, refuse, spot_of};
use crate::memory::{byte_or_erased, image_of, put_field};
use m51_fields::field_of;
use m51_module::{Fixup, Image, Module, Refusal};
use m51_place::Placing;
use m51_resolve::Joined;
use std::alloc::Global;

// Resolves the fixup of the module: puts its field into the image, or gives its spot where its rule fails.
fn patch_fixup(
    image: &mut Image,
    joined: &Joined,
    placing: &Placing,
    content: &[Option<u8>],
    module: u8,
    fixup: &Fixup,
) -> Option<Spot>
    requires placed { IsFixupPlaced joined.now placing.now «module» fixup.now }
    requires content { HoldsStretches (content_of joined.now placing.now) content.now }
    ensures put { AreWritten (option_to_list (placed_field joined.now placing.now «module» fixup.now))
        (image_at image.old) (image_at image.new) }
    ensures broken { result ≡ broken_spot joined.now placing.now «module» fixup.now }
{
    let address = address_of(joined, placing, module, fixup.segment, fixup.offset);
    let target = fixup_target(joined, placing, module, fixup);
    let first = byte_or_erased(content, address);
    match field_of(fixup.form, fixup.bit, target, address as u16, first) {
        Some(field) => {
            put_field(image, address, field);
            None
        }
        None => Some(spot_of(joined, module, fixup)),
    }
}

// Resolves the fixups of these parts, which are those of the module. Gives the first spot where a rule fails.
fn patch_module(
    image: &mut Image,
    joined: &Joined,
    placing: &Placing,
    content: &[Option<u8>],
    module: u8,
    parts: &Module,
) -> Option<Spot>
    requires placed { ArePlaced joined.now placing.now }
    requires there { slice_get joined.now «module» ≡ Some parts.now }
    requires content { HoldsStretches (content_of joined.now placing.now) content.now }
    ensures put { AreWritten (module_fields joined.now placing.now «module»)
        (image_at image.old) (image_at image.new) }
    ensures broken { result ≡ least_of (module_broken joined.now placing.now «module») }
{
    let mut broken = None;
    for fixup in parts.fixups() {
        let spot = patch_fixup(image, joined, placing, content, module, fixup);
        broken = earlier_of(broken, spot);
    }
    broken
}

// Resolves all fixups. Gives the first spot where a rule fails.
fn patch(
    image: &mut Image,
    joined: &Joined,
    placing: &Placing,
    content: &[Option<u8>],
) -> Option<Spot>
    requires placed { ArePlaced joined.now placing.now }
    requires content { HoldsStretches (content_of joined.now placing.now) content.now }
    ensures put { AreWritten (fields_of joined.now placing.now) (image_at image.old) (image_at image.new) }
    ensures broken { result ≡ least_of (broken_of joined.now placing.now) }
{
    let mut broken = None;
    for (module, parts) in joined.modules().iter().enumerate() {
        let spot = patch_module(image, joined, placing, content, module as u8, parts);
        broken = earlier_of(broken, spot);
    }
    broken
}

// The image: the content with the fields of all fixups over it. L13, where the rule of a fixup fails.
pub(crate) fn patched(
    alloc: Global,
    joined: &Joined,
    placing: &Placing,
    content: &[Option<u8>],
) -> Result<Image, Refusal>
    requires placed { ArePlaced joined.now placing.now }
    requires content { HoldsStretches (content_of joined.now placing.now) content.now }
    ensures checked { Checks (broken_rule joined.now placing.now) result }
    ensures image { IfOk result (λ image. IsImage joined.now placing.now image) }
{
    let mut image = image_of(alloc, content)?;
    let broken = patch(&mut image, joined, placing, content);
    refuse(joined.segments(), broken)?;
    Ok(image)
}
