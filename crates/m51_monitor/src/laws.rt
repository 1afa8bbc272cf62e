//! What follows from the definitions. Each law is the contract of a function that does nothing.
ghost use Rattle.m51_monitor.specs.Laws.{CoversIsKept, InterruptsAreCounted, LevelsAreKept, MovesAreKept};
ghost use Rattle.m51_monitor.specs.Laws.{OneCellAnswer};
ghost use Rattle.m51_monitor.specs.Laws.{OneLiveSegment, OneState, StackIsKept};
ghost use Rattle.m51_monitor.specs.Reached.{RunsAreBounded};

/// In a sound layout, if the records are right, at most one live segment covers a cell.
///
/// Source: own choice ("Activations").
pub fn at_most_one_live()
    ensures { OneLiveSegment }
{}

/// So the separate stores give each cell one answer.
///
/// Source: own choice ("Stores of segments").
pub fn one_answer()
    ensures { OneCellAnswer }
{}

/// The units of the records form walks, SP rises from record to record, and at most two interrupts are in progress: so
/// it is after each move that the table allows, if it was so before and an interrupt interrupts at most one other.
///
/// Source: own choice ("Activations").
pub fn moves_are_kept()
    ensures { MovesAreKept }
{}

/// Of all records that a run over a sound layout can reach, where an interrupt interrupts at most one other: at most
/// one live segment covers a cell, arguments with several owners included; there are 128 return records at most; SP of
/// each is at least two above that of the one below.
///
/// Source: own choice ("Activations").
pub fn runs_are_bounded()
    ensures { RunsAreBounded }
{}

/// In a sound layout, if the units of the records form walks, a memory represents at most one state of the separate
/// stores.
///
/// Source: own choice ("Stores of segments").
pub fn one_state()
    ensures { OneState }
{}

/// Where the levels of the processor follow the transfer (a vectoring adds one, RETI ends the uppermost), the
/// interrupts that have records were taken at the levels in progress, a low one below a high one, after a move if they
/// were before.
///
/// Source: own choice ("Activations").
pub fn levels_are_kept()
    ensures { LevelsAreKept }
{}

/// A vectoring that the table allows adds one to the interrupts that have records, RETI takes one away, and all other
/// transfers leave their number as it is.
///
/// Source: own choice ("Activations").
pub fn interrupts_are_counted()
    ensures { InterruptsAreCounted }
{}

/// Where SP rises from record to record, and RET and RETI take two bytes off the stack, SP is after each move not below
/// that of the topmost record.
///
/// Source: own choice ("Activations").
pub fn stack_is_kept()
    ensures { StackIsKept }
{}

/// In a sound layout, where a vectoring goes to the vector of its source, the current unit covers PC after each move.
///
/// Source: own choice ("Activations").
pub fn covers_is_kept()
    ensures { CoversIsKept }
{}
