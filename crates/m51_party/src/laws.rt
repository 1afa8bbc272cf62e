//! What holds of boards on one serial line. Each law is the contract of a function that does nothing.
ghost use Rattle.m51_party.specs.Laws.{ExactlyOneFamily, StepsMakeRecords};

/// Boards that were not stepped have exactly one family of records in which each is the one that its board makes if it
/// receives the frames that the other records give it.
///
/// Source: own choice ("Party line").
pub fn exactly_one_family()
    ensures { ExactlyOneFamily }
{}

/// The steps whose lines the text orders have the entries of the board's record and are as many, and none starts after
/// its last cycle.
///
/// Source: own choice ("Party line").
pub fn steps_make_records()
    ensures { StepsMakeRecords }
{}
