//! What is promised of the module of a text. Each law is the contract of a function that does nothing.
ghost use Rattle.m51_asm.specs.ValidTexts.{PartsAreValid, AnswersAreValid};

/// The module that a text without faults gives is valid, so `Module::make` can be called with its parts.
///
/// Source: own choice ("The assignment of a text").
pub fn parts_are_valid()
    ensures { PartsAreValid }
{}

/// The module that is given for a source is valid, and each of its rows is of a line of the source or of an include and
/// has at most three bytes.
///
/// Source: own choice ("The assignment of a text").
pub fn answers_are_valid()
    ensures { AnswersAreValid }
{}
