//! Units, the edges between them, roots, levels and conflict: which segments may share cells.
#![tactic(auto)]

mod building;
mod drawing;
mod edge_list;
mod graphs;
mod judging;
mod laws;
mod levels;
mod lines;
mod locals;
mod ordering;
mod parts;
mod reaching;
mod relating;
mod tables;
mod unit_names;
mod unit_table;
mod units;

pub use building::graph;
pub use graphs::Graph;
pub use laws::{above_is_under, edges_are_drawn, leading_is_reaching, level_is_longest};
pub use parts::{GraphParts, Marks, OwnUnits};
