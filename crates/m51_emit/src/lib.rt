//! What statements give to a module: bytes and references, faults, publics, pieces and fixups, and rows of a listing.
#![tactic(auto)]

mod content;
mod counting;
mod fixups;
mod gathering;
mod instruction;
mod items;
mod laws;
mod line;
mod pieces;
mod publics;
mod rows;

pub use content::{EmittedContent, LineContent, ReferenceAt, References};
pub use gathering::{ModuleContent, SegmentContent, gather};
pub use laws::{
    bytes_fill, content_fails_by_six, content_grows, instructions_are_coded, instructions_fill,
    references_lie, runs_grow, words_fill,
};
pub use line::line_content;
pub use publics::{Definer, PublicSegment, public_of};
pub use rows::{place_of, row_of};
