//! What the trace of a run has to do with the run of `build`. Each law is the contract of a function that does nothing.
ghost use Rattle.m51_steps.specs.Laws.{NotesAreAll};

/// Without the lines of states the text of a trace is that of the record, which `build` writes.
///
/// Source: own choice ("The trace of a run").
pub fn notes_are_all()
    ensures { NotesAreAll }
{}
