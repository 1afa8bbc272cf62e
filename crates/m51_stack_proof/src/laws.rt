//! A law of the stack bound, as the contract of a function with an empty body.
ghost use Rattle.m51_stack_proof.specs.Laws.{SpIsBounded};

/// For every layout and image for which `bound` answers a bound, and whatever the outside gives, SP is at most the
/// total after each step that the separate machine performs.
///
/// Source: own choice ("Stack bound").
pub fn sp_is_bounded()
    ensures { SpIsBounded }
{}
