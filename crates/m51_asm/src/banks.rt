//! The register banks that a text uses.
ghost use Rattle.std.specs.Prelude.{◌≡◌, ◌||◌, if◌then◌else◌, length, map};
ghost use Rattle.m51_stmt.specs.Statement.{body_tree};
ghost use Rattle.m51_text.specs.Answer.{line_tree};
ghost use Rattle.m51_asm.specs.Assignment.{Assignment};
ghost use Rattle.m51_asm.specs.Passing.{ArePlaces};
ghost use Rattle.m51_asm.specs.Parts.{is_selected, banks};
ghost use Rattle.m51_asm.specs.Banks.{selects};

use crate::stepping::LinePlace;
use m51_stmt::Body;
use m51_text::Line;

// Whether a line selects a bank, where this is the bank after it.
fn selects(after: u8, bank: u8, body: &Body) -> bool
    ensures { result ≡ selects after bank (body_tree body.now) }
{
    match body {
        Body::Using(_) => after == bank,
        _ => false,
    }
}

fn either(before: bool, here: bool) -> bool
    ensures { result ≡ (before || here) }
{
    before || here
}

// Whether a line of a text selects a bank.
fn is_selected(lines: &[Line], places: &[LinePlace], bank: u8) -> bool
    requires { length places.now ≡ length lines.now }
    ensures { (a : Assignment) → ArePlaces (map line_tree lines.now) a places.now
        → result ≡ is_selected (map line_tree lines.now) a bank (length (map line_tree lines.now)) }
{
    let mut selected = false;
    for (k, line) in lines.iter().enumerate() {
        let place = &places[k];
        selected = either(selected, selects(place.selected, bank, &line.stmt.body));
    }
    selected
}

fn bit_if(test: bool, bit: u8) -> u8
    ensures { result ≡ (if test then bit else 0) }
{
    if test { bit } else { 0 }
}

/// The banks of a text whose lines are placed: bit k for each bank k that USING selects, and bit 0 always.
pub(crate) fn banks(lines: &[Line], places: &[LinePlace]) -> u8
    requires { length places.now ≡ length lines.now }
    ensures { (a : Assignment) → ArePlaces (map line_tree lines.now) a places.now
        → result ≡ banks (map line_tree lines.now) a }
{
    let first = bit_if(is_selected(lines, places, 1), 2);
    let second = bit_if(is_selected(lines, places, 2), 4);
    let third = bit_if(is_selected(lines, places, 3), 8);
    1 + first + second + third
}
