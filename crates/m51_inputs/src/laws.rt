//! What is promised of the answers for files. Each law is the contract of a function that does nothing.
ghost use Rattle.m51_inputs.specs.Laws.{OneInputsAnswer};

use m51_asm::each_text_has_one_answer;

/// There is an answer for the files of a program, and only one, out of memory aside.
///
/// Source: own choice ("Inputs").
pub fn each_program_has_one_answer()
    ensures { OneInputsAnswer }
{
    each_text_has_one_answer();
}
