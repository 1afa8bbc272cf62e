//! What the decisions of placing decide, and what holds of every sound layout. Each law is the contract of a
//! function that does nothing.
ghost use Rattle.m51_place.specs.Bound.{WeightIsLeast};
ghost use Rattle.m51_place.specs.Laws.{ConflictIsConflict, LeastIsLeast, OrderRises, SharingIsMeeting};
ghost use Rattle.m51_place.specs.Overlay.{FigureIsWeight, OverlayFits, OverlayRefused, PlacingIsTight};
ghost use Rattle.m51_place.specs.Overlay.{WeightsAgree};

/// The segments of overlaid DATA on the heaviest chains, and those whose unit lies under no root, are each two in
/// conflict. So no sound layout covers fewer bytes by overlaid DATA than the weight: what the chains have together, and
/// those.
///
/// Source: own choice ("Heaviest chains").
#[tactic(auto, using(crate::proofs::Weights::least))]
pub fn weight_is_least()
    ensures { WeightIsLeast }
{}

/// Where each overlaid segment is DATA of type UNIT and no argument segment, and the bytes below 80H that no extent
/// placed before them covers in any bit are one run, placing covers exactly the weight by overlaid DATA: a sound
/// layout covers no fewer bytes. So the run has at least as many bytes as the weight.
///
/// Source: own choice ("Heaviest chains").
pub fn placing_is_tight()
    ensures { PlacingIsTight }
{}

/// Under the same condition the bytes of internal RAM that overlaid DATA of any type covers are as many: a map has the
/// weight as its figure of overlaid bytes.
///
/// Source: own choice ("Heaviest chains").
pub fn figure_is_weight()
    ensures { FigureIsWeight }
{}

/// Under the same condition, where L9 does not come and that run has as many bytes as the weight of the graph, there is
/// a base for each overlaid segment: L12 comes for none of them.
///
/// Source: own choice ("Heaviest chains").
pub fn overlay_fits()
    ensures { OverlayFits }
{}

/// Under the same condition L12 names an overlaid segment exactly if the weight of the graph exceeds the length of
/// that run, and neither L9 comes nor L12 for a segment before the overlaid ones.
///
/// Source: own choice ("Heaviest chains").
pub fn overlay_is_refused()
    ensures { OverlayRefused }
{}

/// The weight of a graph, which is said of its chains and the sizes of joined segments, is the weight of each layout
/// that placing gives over it.
///
/// Source: own choice ("Heaviest chains").
#[tactic(auto, using(crate::proofs::Tight::weights_agree))]
pub fn weights_agree()
    ensures { WeightsAgree }
{}

/// The decision by which two extents share a cell: it is whether a cell is in both.
///
/// Source: own choice ("Extents go by numbers").
#[tactic(auto, using(crate::proofs::Free::share_tells))]
pub fn sharing_is_meeting()
    ensures { SharingIsMeeting }
{}

/// The base of the definition is free, and no smaller one is; it is `None` exactly if no base is free.
///
/// Source: RL51 guide.
#[tactic(auto, using(crate::proofs::Free::least_is_least))]
pub fn least_is_least()
    ensures { LeastIsLeast }
{}

/// The order of placing holds each relocatable segment exactly once, and each before all later ones by its rank.
///
/// Source: RL51 guide.
pub fn order_rises()
    ensures { OrderRises }
{}

/// The decision by which an earlier extent is in the way of a segment: it is the conflict of the two segments.
///
/// Source: RL51 guide.
pub fn conflict_is_conflict()
    ensures { ConflictIsConflict }
{}
