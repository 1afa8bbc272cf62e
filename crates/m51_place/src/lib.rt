//! Places segments: the fixed extents first, and then each relocatable segment at the least base that is free.
#![tactic(auto)]

mod bases;
mod chaining;
mod conflicts;
mod fixed;
mod laws;
mod layouts;
mod naming;
mod numbered;
mod ordering;
mod placing;
mod ranked;
mod sharing;

pub use chaining::heaviest;
pub use laws::{
    conflict_is_conflict, figure_is_weight, least_is_least, order_rises, overlay_fits,
    overlay_is_refused, placing_is_tight, sharing_is_meeting, weight_is_least, weights_agree,
};
pub use m51_module::Chain;
pub use numbered::Numbered;
pub use placing::{Placing, place, place_all};
pub use ranked::{Group, Rank, Ranked};
