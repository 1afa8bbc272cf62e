//! The answer for lines that are placed: the faults of their content, or the module and the rows.
ghost use Rattle.std.specs.Prelude.{◌≡◌, ◌≤◌, length, map, IfOk};
ghost use Rattle.std.specs.List.{list_any};
ghost use Rattle.m51_text.specs.Answer.{Lines, line_tree};
ghost use Rattle.m51_asm.specs.Assignment.{Assignment};
ghost use Rattle.m51_asm.specs.Fitting.{Fits, mod51};
ghost use Rattle.m51_asm.specs.Placing.{IsTableOf};
ghost use Rattle.m51_asm.specs.Passing.{ArePlaces, IsPlaced};
ghost use Rattle.m51_asm.specs.ObjectSegments.{object_segments};
ghost use Rattle.m51_asm.specs.Pieces.{pieces, fixups};
ghost use Rattle.m51_asm.specs.Parts.{publics_before, version_of, parts};
ghost use Rattle.m51_asm.specs.Answer.{IsAnswerOf, tree_of};
ghost use Rattle.m51_asm.specs.Gathering.{IsText};

use crate::banks::banks;
use crate::contents::{Contents, TextContents, give_lines};
use crate::names_at::NamedText;
use crate::naming::module_name;
use crate::naming_lines::{externals, name_in};
use crate::numbering::{Numbering, PlacedText, number_segments};
use crate::outcome::Assembled;
use crate::placing::PassOneState;
use crate::stepping::LinePlace;
use m51_cells::NoMemory;
use m51_emit::{ModuleContent, gather};
use m51_module::{Module, ModuleParts, Publics, Segment, Segments};
use m51_text::Line;
use std::alloc::Global;

// Whether a segment is marked as one of arguments.
fn is_any_marked(segments: &[Segment]) -> bool
    ensures { result ≡ list_any (λ s. s.argument) segments.now }
{
    segments.iter().any(|segment| segment.argument)
}

// The version of the object that a module of these segments needs: the second where one is marked.
fn version_of(segments: &[Segment]) -> u8
    ensures { result ≡ version_of segments.now }
{
    if is_any_marked(segments) { 2 } else { 1 }
}

// The parts of the module of a text of a file of this name, whose lines are placed.
#[tactic(auto, unfolding(crate::specs::Parts::parts))]
fn parts_of(
    alloc: Global,
    file: &[u8],
    lines: &[Line],
    places: &[LinePlace],
    segments: Segments,
    publics: Publics,
    content: ModuleContent,
) -> Result<ModuleParts, NoMemory>
    requires { length places.now ≡ length lines.now }
    ensures { let read = map line_tree lines.now in
        IfOk result (λ made. (a : Assignment) → ArePlaces read a places.now
        → segments ≡ object_segments read a → publics ≡ publics_before read a (length read)
        → content ≡ record { pieces = pieces read a; fixups = fixups read a } → made ≡ parts file.now read a) }
{
    let ModuleContent { pieces, fixups } = content;
    Ok(ModuleParts {
        name: name_in(module_name(alloc, file)?, lines),
        version: version_of(segments.as_slice()),
        segments,
        publics,
        externals: externals(alloc, lines)?,
        pieces,
        fixups,
        banks: banks(lines, places),
    })
}

/// The answer for the lines of a text in a file of this name, of which none has a fault by what is above it. The
/// one error is out of memory.
pub(crate) fn answer_placed(
    alloc: Global,
    file: &[u8],
    named: &NamedText<'_>,
    places: &[LinePlace],
    end: &PassOneState,
) -> Result<Assembled, NoMemory>
    requires text { IsText (map line_tree named.now.lines.now) }
    requires few { length named.now.lines.now ≤ 65536 }
    requires counted { length places.now ≡ length named.now.lines.now }
    requires names { IsTableOf (map line_tree named.now.lines.now) named.now.names.now }
    requires predefined { named.now.mod51 ≡ mod51 (map line_tree named.now.lines.now) }
    requires placed { (a : Assignment) → Fits (map line_tree named.now.lines.now) a
        → IsPlaced (map line_tree named.now.lines.now) a places.now end.now }
    ensures { IfOk result (λ assembled.
        IsAnswerOf file.now (Lines (map line_tree named.now.lines.now)) (tree_of assembled)) }
{
    let lines = named.lines;
    let numbering = number_segments(alloc, lines, &end.segments.table)?;
    let text = PlacedText {
        text: *named,
        places,
        end,
        numbering: &numbering,
    };
    let given = give_lines(alloc, &text)?;
    let TextContents { contents, gathered } = given;
    let Contents {
        set: _,
        made: _,
        faults,
        publics,
        rows,
    } = contents;
    if !faults.is_empty() {
        return Ok(Assembled::Faults(faults));
    }
    let content = gather(alloc, &gathered)?;
    let Numbering {
        segments,
        numbers: _,
    } = numbering;
    let parts = parts_of(alloc, file, lines, places, segments, publics, content)?;
    Ok(Assembled::Module(Module::make(parts), rows))
}
