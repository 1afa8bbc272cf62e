//! What holds of every choice. Each law is the contract of a function that does nothing.
ghost use Rattle.m51_irq.specs.Laws.{FirstIsChosen, LevelsAreNested, NoneIsTakenAtOnce, NoneOverHigh, TopLevelEnds};

/// While the high level is in progress, no interrupt is taken.
///
/// Source: family manual.
#[tactic(auto, using(crate::proofs::ChoiceLaws::none_is_chosen))]
pub fn no_interrupt_over_the_high_level()
    ensures { NoneOverHigh }
{}

/// No interrupt is taken directly after RETI, nor directly after an instruction that writes IE, IP or a bit of them,
/// whatever it reads. A JBC writes its bit only where it is 1.
///
/// Source: family manual; own choice ("Interrupts").
#[tactic(auto, using(crate::proofs::Holding::none_at_once))]
pub fn none_is_taken_at_once()
    ensures { NoneIsTakenAtOnce }
{}

/// A source is chosen exactly if interrupts are not held off, it asks and the levels in progress allow it, and no other
/// such source has a higher level, or the same level and an earlier index in the order.
///
/// Source: family manual.
pub fn the_first_that_may_be_taken_is_chosen()
    ensures { FirstIsChosen }
{}

/// Taking the chosen interrupt puts its level on top of the levels in progress, which are at most a low one below a
/// high one.
///
/// Source: family manual.
#[tactic(auto, using(crate::proofs::Levels::levels_nested))]
pub fn levels_are_nested()
    ensures { LevelsAreNested }
{}

/// RETI ends the top level in progress.
///
/// Source: family manual.
#[tactic(auto, using(crate::proofs::Levels::top_level_ends))]
pub fn a_return_ends_the_top_level()
    ensures { TopLevelEnds }
{}
