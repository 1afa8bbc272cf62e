//! What holds of conflicts. Each law is the contract of a function that does nothing.
ghost use Rattle.m51_module.specs.Laws.{ConflictIsMutual, ConflictIsCarried};

/// Where one extent of a layout is in conflict with another, that one is in conflict with the first.
///
/// Source: own choice ("Conflicts").
pub fn conflict_is_mutual()
    ensures { ConflictIsMutual }
{}

/// Two layouts with the same edges and roots have the same conflicts. Let each of two extents of the one have a number
/// in the other, of an extent with the same owners that is overlaid exactly if it is: then the two are in conflict in
/// the one layout exactly if they are, by these numbers, in the other.
///
/// Source: own choice ("Conflicts").
pub fn conflict_is_carried()
    ensures { ConflictIsCarried }
{}
