//! Laws of the stack bound, each as the contract of a function with an empty body.
ghost use Rattle.m51_stackbound.specs.Laws.{AnswerIsUnique, TotalIsSumOfDepths};

/// The total of a program whose roots have depths is the depth of the reset plus the greatest sum of 2 and the depth
/// over at most two different handlers.
///
/// Source: own choice ("Stack bound").
pub fn total_is_sum_of_depths()
    ensures { TotalIsSumOfDepths }
{}

/// No two different answers meet the clause of `bound` for one layout and image, out of memory left out.
///
/// Source: own choice ("Stack bound").
#[tactic(auto, using(crate::proofs::Unique::answer_is_unique))]
pub fn answer_is_unique()
    ensures { AnswerIsUnique }
{}
