//! What the decisions in the definition of a graph decide. Each law is the contract of a function that does nothing.
ghost use Rattle.m51_graph.specs.Laws.{AboveIsUnder, EdgesAre, LeadingIsReaching, LevelIsLongest};

/// The decision along the list of edges by which units are refused that reach themselves: it is whether one unit
/// reaches another by a walk of at least one edge.
///
/// Source: own choice ("Edges").
#[tactic(auto, using(crate::proofs::Deciding::leads_tells))]
pub fn leading_is_reaching()
    ensures { LeadingIsReaching }
{}

/// The decision by which units are refused that lie under two roots: it is whether the unit is a root at the vector, or
/// such a root reaches it.
///
/// Source: own choice ("Roots").
#[tactic(auto, using(crate::proofs::Relations::above_tells))]
pub fn above_is_under()
    ensures { AboveIsUnder }
{}

/// Where an edge is: a fixup that is placed in the one unit refers to the other, directly or by the public that
/// resolves its external, or a control line adds the edge; the units differ, and no line cuts it.
///
/// Source: RL51 guide.
pub fn edges_are_drawn()
    ensures { EdgesAre }
{}

/// The level as a function of the edges: it is the number of edges of the longest walk that ends in the unit, where
/// there is one and it has fewer than 65,536 edges. In a graph no walk has more edges than there are units.
///
/// Source: own choice ("Levels as a function").
pub fn level_is_longest()
    ensures { LevelIsLongest }
{}
