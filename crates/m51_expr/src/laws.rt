//! What is promised of values. The law is the contract of a function that does nothing.
ghost use Rattle.m51_expr.specs.FaultLaws.{ValuesFailByFour};

/// An expression without a value has one of four faults, E7 to E10: so the number of an [`crate::ExprError`] is one of
/// these.
///
/// Source: own choice ("Values with a base").
#[tactic(auto, using(crate::proofs::ValueFaults::values_fail_by_four))]
pub fn values_fail_by_four()
    ensures { ValuesFailByFour }
{}
