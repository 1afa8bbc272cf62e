//! The bytes of internal RAM that overlaid segments of DATA cover.
ghost use Rattle.std.specs.Prelude.{◌≡◌, ◌≤◌, count_by};
ghost use Rattle.std.specs.List.{list_any, range_with_len};
ghost use Rattle.m51_cells.specs.declared.kind.Reloc.{Reloc};
ghost use Rattle.m51_module.specs.Chains.{is_overlaid_data};
ghost use Rattle.m51_print.specs.Map.{overlays, overlaid_below};

use m51_cells::Kind;
use m51_module::{Mark, Placed};

// Whether an extent of this mark and kind is an overlaid segment of DATA, of any type.
fn is_overlaid_in_data(mark: Mark, kind: Kind) -> bool
    ensures { result ≡ is_overlaid_data kind Reloc.Unit mark }
{
    match (mark, kind) {
        (Mark::Overlaid, Kind::Direct) => true,
        _ => false,
    }
}

// Whether the extent is an overlaid segment of DATA that covers the byte at this address.
fn overlays(address: u32, placed: &Placed) -> bool
    ensures { result ≡ overlays address placed.now }
{
    let base = u32::from(placed.base);
    is_overlaid_in_data(placed.mark, placed.kind)
        && (base <= address && address < base + u32::from(placed.size))
}

// Whether some overlaid segment of DATA covers the byte at this address.
fn is_overlaid(address: u32, placed: &[Placed]) -> bool
    ensures { result ≡ list_any (overlays address) placed.now }
{
    placed.iter().any(|extent| overlays(address, extent))
}

/// How many of the first addresses of internal RAM lie in some overlaid segment of DATA.
///
/// Source: own choice ("Texts").
#[tactic(auto, using(crate::proofs::Steps::overlaid_steps))]
pub fn overlaid_below(placed: &[Placed], count: u32) -> u32
    ensures count { result ≡ overlaid_below placed.now count }
    ensures bound { result ≤ count }
{
    let mut overlaid = 0;
    for address in 0..count {
        if is_overlaid(address, placed) {
            overlaid += 1;
        }
    }
    overlaid
}
