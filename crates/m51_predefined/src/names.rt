//! What names mean before any definition of a module.
ghost use Rattle.std.specs.Prelude.{◌≡◌, option_map};
ghost use Rattle.m51_expr.specs.Located.{located_value};
ghost use Rattle.m51_predefined.specs.Predefined.{predefined_of};

use m51_cells::{Kind, Name};
use m51_expr::{Located, plain};
use m51_sfr::{bit_named, register_named};

/// What a name means before any definition of the module: a special function register of the 8052 is its direct
/// address, from 80H, of class DATA; a named bit is its bit address, of class BIT; both are numbers without a base.
/// `None` for each other name. No reserved word is predefined, nor is `AR0` to `AR7`.
///
/// Source: family manual.
pub fn predefined(name: &Name) -> Option<Located<u32>>
    ensures { option_map located_value result ≡ predefined_of name.now }
{
    match register_named(name.bytes()) {
        Some(address) => Some(plain(u16::from(address), Kind::Direct)),
        None => bit_named(name.bytes()).map(|address| plain(address, Kind::Bits)),
    }
}
