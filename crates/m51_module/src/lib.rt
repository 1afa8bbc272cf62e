//! Modules, layouts and images: what the assembler makes, the linker places and the board runs.
#![tactic(auto)]

mod content;
mod copying;
mod edit;
mod image;
mod laws;
mod layout;
mod library;
mod library_error;
mod linked;
mod members;
mod module;
mod numbered;
mod object_error;
mod parts;
mod placed;
mod public_names;
mod raising;
mod rows;
mod segment;
mod source;
mod stack_bound;
mod start;
mod symbol;
mod tables;
mod tally;

pub use content::{Fixup, Fixups, Form, Piece, Pieces};
pub use edit::Edit;
pub use image::{IMAGE_LEN, Image};
pub use laws::{conflict_is_carried, conflict_is_mutual};
pub use layout::{Layout, VECTORS};
pub use library::{Library, build};
pub use library_error::LibError;
pub use linked::{Chain, Quantity, Refusal, Run, Runs};
pub use module::Module;
pub use numbered::{external_numbered, segment_numbered};
pub use object_error::ObjError;
pub use parts::{LayoutParts, ModuleParts};
pub use placed::{Mark, Pairs, Placed, PlacedList, Units};
pub use segment::{Segment, Segments, is_argument_name};
pub use source::{Fault, Faults, Row, Rows, SourceFile};
pub use stack_bound::{Proc, Procs, RootDepth, RootDepths, StackBound, StackError};
pub use start::{Start, Starts};
pub use symbol::{External, ExternalList, Public, Publics};
pub use tally::Tally;
