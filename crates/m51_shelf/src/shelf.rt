//! Where files come from, and where they are kept.
ghost use Rattle.std.specs.Prelude.{◌≡◌, ◌≤◌, [], ◌∷◌, IsTrue, IfOk, OnOk, IfSome, length, is_ok, string_bytes};
ghost use Rattle.m51_cells.specs.Outside.{HasCause};
ghost use Rattle.m51_shelf.specs.States.{ShelfState};
ghost use Rattle.m51_shelf.specs.Shelf.{Opens, IsPiece, handed, Grows, HandsOut, GrowsIfKept, missed_after};
ghost use Rattle.m51_shelf.specs.Shelf.{HoldsOthers};

use crate::sink::Failed;

/// Files that are read one after another, and files that are kept.
///
/// Source: own choice ("The outside").
pub trait Shelf {
    /// What contracts see of the shelf.
    ghost state: { Self → ShelfState };

    /// Opens the file of this name. It is a failure if the file does not exist.
    ///
    /// Failed: the count of failures has gone up, and no file can be read on.
    ///
    /// Source: own choice ("The outside").
    fn start(&mut self, name: String) -> Result<(), Failed>
        ensures holds { (state self.new).holds ≡ (state self.old).holds }
        ensures keeps { (state self.new).keeps ≡ (state self.old).keeps }
        ensures opens { OnOk result (Opens (state self.old).holds (string_bytes name) (state self.new).reads.opened) }
        ensures named { (state self.new).reads.named ≡ string_bytes name }
        ensures ready { (state self.new).reads.ready ≡ is_ok result }
        ensures taken { (state self.new).reads.taken ≡ 0 }
        ensures given { Grows (state self.old).reads.given (state self.new).reads.given ((string_bytes name, []) ∷ []) }
        ensures cause { HasCause (state self.old).reads.faults (state self.new).reads.faults result };

    /// Reads the next piece of the open file into the beginning of the slice, and answers how many bytes it put there.
    /// For a slice that is not empty this is 0 exactly at the file's end.
    ///
    /// Condition: the file can be read on.
    ///
    /// Failed: the count of failures has gone up, and the file can't be read on.
    ///
    /// Source: own choice ("The outside").
    fn piece(&mut self, into: &mut [u8]) -> Result<usize, Failed>
        requires { IsTrue (state self.old).reads.ready }
        ensures bound { IfOk result (λ count. count ≤ length into.new) }
        ensures piece { IfOk result (λ count.
            IfSome (state self.old).reads.opened (λ file. IsPiece file (state self.old).reads.taken count into.new)) }
        ensures holds { (state self.new).holds ≡ (state self.old).holds }
        ensures keeps { (state self.new).keeps ≡ (state self.old).keeps }
        ensures opened { (state self.new).reads.opened ≡ (state self.old).reads.opened }
        ensures named { (state self.new).reads.named ≡ (state self.old).reads.named }
        ensures ready { (state self.new).reads.ready ≡ is_ok result }
        ensures taken { (state self.new).reads.taken ≡ handed (state self.old).reads.taken result }
        ensures given { HandsOut (state self.old).reads.given (state self.new).reads.given result into.new }
        ensures cause { HasCause (state self.old).reads.faults (state self.new).reads.faults result };

    /// Keeps a file of this name with these bytes.
    ///
    /// Failed: the count of files that were not kept has gone up, and the file of that name may hold anything.
    ///
    /// Source: own choice ("The outside").
    fn keep(&mut self, name: String, bytes: &[u8]) -> Result<(), Failed>
        ensures kept { GrowsIfKept (state self.old).keeps.kept (state self.new).keeps.kept
            (string_bytes name, bytes.now) result }
        ensures missed { (state self.new).keeps.missed
            ≡ missed_after (state self.old).keeps.missed (string_bytes name) result }
        ensures cause { HasCause (state self.old).keeps.faults (state self.new).keeps.faults result }
        ensures others { HoldsOthers (state self.old).holds (state self.new).holds (string_bytes name) }
        ensures reads { (state self.new).reads ≡ (state self.old).reads };
}
