//! Sets of pairs of units as rows of bits, and which owners of segments are related: what the conflict of segments is
//! decided from.
#![tactic(auto)]

mod bit_row;
mod bit_rows;
mod indexing;
mod owner_pairs;

pub use bit_row::BitRow;
pub use bit_rows::BitRows;
pub use indexing::item_or;
pub use owner_pairs::{Owned, OwnerPairs};
