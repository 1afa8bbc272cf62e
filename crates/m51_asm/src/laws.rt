//! What is promised of assignments. Each law is the contract of a function that does nothing.
ghost use Rattle.m51_asm.specs.AssignmentLaws.{OneFits, AFits};
ghost use Rattle.m51_asm.specs.Renumbering.{NumbersDoNotMatter};
ghost use Rattle.m51_asm.specs.AnswerLaws.{OneAnswer};
ghost use Rattle.m51_asm.specs.NamesAt.{KeptMeans, FormIsTold};
ghost use Rattle.m51_asm.specs.LineFaults.{OperandIsTold};
ghost use Rattle.m51_asm.specs.OpenSegments.{OpenIsBehind, DeclaredIsTold};
ghost use Rattle.m51_asm.specs.FirstFault.{FaultIsAnswer, ContentIsAnswer};
ghost use Rattle.m51_asm.specs.ValuesAbove.{ValuesGrow, ValuesAreSeen};

/// At most one assignment fits a text: two that do agree on each line and each name.
///
/// Source: own choice ("The assignment of a text").
pub fn one_assignment_fits()
    ensures { OneFits }
{}

/// An assignment fits each text in which no line has a fault of its own, also one whose lines have other faults.
///
/// Source: own choice ("The assignment of a text").
pub fn an_assignment_fits()
    ensures { AFits }
{}

/// The value of an expression, its fault, and the form of a JMP or CALL to it do not depend on the numbers of segments:
/// they stay the same, but for the number in the base of the value, where segments get other numbers. Absolute ones
/// other than that of the statement may share one.
///
/// Source: own choice ("Numbers of segments in values").
pub fn segment_numbers_do_not_matter()
    ensures { NumbersDoNotMatter }
{}

/// Each text has an answer, and only one.
///
/// Source: own choice ("The assignment of a text").
pub fn each_text_has_one_answer()
    ensures { OneAnswer }
{}

/// After a line that repeats nothing a name has the value that the line gives it, or else the one that it had.
///
/// Source: own choice ("The assignment of a text").
#[tactic(auto, using(crate::proofs::DefinedLines::grown))]
pub fn values_grow()
    ensures { ValuesGrow }
{}

/// At a line a name has the value that lines above give it, or if the text does not define it the one that it has
/// without a definition.
///
/// Source: own choice ("The assignment of a text").
#[tactic(auto, using(crate::proofs::DefinedLines::seen))]
pub fn values_are_seen()
    ensures { ValuesAreSeen }
{}

/// What is kept of the lines above a line says what names mean there, as the assignment that fits does.
///
/// Source: own choice ("The assignment of a text").
pub fn what_is_kept_means()
    ensures { KeptMeans }
{}

/// By what is kept of the lines above, a line leaves open the segment that the definitions say.
///
/// Source: own choice ("The assignment of a text").
pub fn segments_follow()
    ensures opened { OpenIsBehind }
    ensures declared { DeclaredIsTold }
    ensures operands { OperandIsTold }
{}

/// The first line that has a fault by what is above it gives the answer: that fault, or if no line has one
/// what the content gives.
///
/// Source: own choice ("The assignment of a text").
#[tactic(auto, using(crate::proofs::AnsweredLines::fault_answer, crate::proofs::AnsweredLines::content_answer))]
pub fn first_faults_are_answers()
    ensures fault { FaultIsAnswer }
    ensures content { ContentIsAnswer }
{}

/// The form of a JMP or CALL follows from the lines above it and the label of its own line.
///
/// Source: own choice ("The assignment of a text").
#[tactic(auto, using(crate::proofs::DefinedLines::form_told))]
pub fn forms_are_told()
    ensures { FormIsTold }
{}
