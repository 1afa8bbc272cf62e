//! What fields and generic jumps promise. Each law is the contract of a function that does nothing.
ghost use Rattle.m51_encode.specs.FieldLaws.{ChosenJumpsReach, RelativesLead, BlocksLead, ReferencesHaveBits};

/// A target of class CODE or of none, under no operator, has a field in the form that is chosen for it: no generic
/// jump is out of reach.
///
/// Source: own choice ("Generic jumps").
#[tactic(auto, using(crate::proofs::Reaching::chosen_jumps_reach))]
pub fn chosen_jumps_reach()
    ensures { ChosenJumpsReach }
{}

/// A signed byte that is computed leads from after the statement to the target.
///
/// Source: family manual.
#[tactic(auto, using(crate::proofs::Leading::relatives_lead))]
pub fn relatives_lead_to_targets()
    ensures { RelativesLead }
{}

/// An address within a block that is computed leads from the block after the statement to the target.
///
/// Source: family manual.
#[tactic(auto, using(crate::proofs::Leading::blocks_lead))]
pub fn blocks_lead_to_targets()
    ensures { BlocksLead }
{}

/// A reference names a bit only for CONV, as an object requires.
///
/// Source: OMF-51.
#[tactic(auto, using(crate::proofs::BitNumbers::references_have_bits))]
pub fn references_have_bits()
    ensures { ReferencesHaveBits }
{}
