//! What holds of every choice. The law is the contract of a function that does nothing.
ghost use Rattle.m51_resolve.specs.Choice.{ChoicesAreOne};

/// For all given modules and members, what is chosen is an outcome of the rule, in which each member is the first of
/// those left that is needed, until none is; and the rule has no other outcome.
///
/// Source: RL51 guide.
pub fn choices_are_one()
    ensures { ChoicesAreOne }
{}
