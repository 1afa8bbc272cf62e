//! The fault of a text that lacks END.
ghost use Rattle.std.specs.Prelude.{◌≡◌, map};
ghost use Rattle.m51_text.specs.Entries.{entry_tree, marked};

use crate::entry::LineEntry;
use m51_cells::MISPLACED_END;

/// Gives E16 to the last line of the source itself, where it says a statement.
pub(crate) fn mark_missing_end(entries: &mut Vec<LineEntry>)
    ensures { map entry_tree entries.new.items ≡ marked (map entry_tree entries.old.items) }
{
    for at in (0..entries.len()).rev() {
        if entries[at].file == 0 {
            entries[at].by_place = Some(MISPLACED_END);
            return;
        }
    }
}
