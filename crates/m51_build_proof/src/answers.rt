//! Laws on the outcomes and answers of all verbs, each as the contract of a function with an empty body.
ghost use Rattle.m51_build_proof.specs.Answers.{ChainIsComplete, EachHasOneAnswer, EachJobHasOne, NoJobHasTwo};
ghost use Rattle.m51_build_proof.specs.Answers.{NoWordsHaveTwo};

/// No job has two outcomes for one list of contents, whatever its verb, out of memory aside.
///
/// Source: own choice ("The top call").
#[tactic(auto, using(m51_chain::proofs::OneOutcome::one_outcome))]
pub fn no_job_has_two_outcomes()
    ensures { NoJobHasTwo }
{}

/// No arguments and files have two answers.
///
/// Source: own choice ("The top call").
pub fn no_words_have_two_answers()
    ensures { NoWordsHaveTwo }
{}

/// Each job that arguments can ask for has exactly one outcome, whatever its verb and whatever bytes its files hold.
///
/// Source: own choice ("The top call").
#[tactic(auto, using(crate::proofs::Existing::one_of_job))]
pub fn each_job_has_one_outcome()
    ensures { EachJobHasOne }
{}

/// All arguments have exactly one answer, whatever bytes the files hold.
///
/// Source: own choice ("The top call").
#[tactic(auto, using(crate::proofs::Existing::one_of_words))]
pub fn each_has_one_answer()
    ensures { EachHasOneAnswer }
{}

/// The clause `told` of the top call says that the one answer is kept and written whole, with its status, unless a call
/// failed or memory ran out.
///
/// Source: own choice ("The top call").
#[tactic(auto, using(crate::proofs::Existing::chain_complete))]
pub fn chain_is_complete()
    ensures { ChainIsComplete }
{}
