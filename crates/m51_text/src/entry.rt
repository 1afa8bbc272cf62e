//! Lines that were read.
ghost use Rattle.std.specs.Prelude.{◌≡◌, IsTrue};

use crate::saying::LineSaid;
use crate::text::Line;
use m51_module::Fault;

/// A line that was read.
#[derive(Drop)]
pub(crate) struct LineEntry {
    pub file: u16,
    pub line: u32,
    pub said: LineSaid,
    /// The fault that the line has by its place, where it says a statement.
    pub by_place: Option<u8>,
}

impl LineEntry {
    ghost use Rattle.m51_text.specs.Entries.{entry_tree, fault_kept, faultless, line_of_entry};

    fn fault_with(&self, number: u8) -> Fault
        ensures { result ≡ record { file = self.now.file; line = self.now.line; number = number } }
    {
        Fault {
            file: self.file,
            line: self.line,
            number,
        }
    }

    /// The fault of the line.
    #[tactic(auto, unfolding(crate::specs::Entries::fault_kept))]
    pub(crate) fn fault(&self) -> Option<Fault>
        ensures { result ≡ fault_kept self.now }
    {
        match (self.said.fault, self.by_place) {
            (Some(number), _) | (None, Some(number)) => Some(self.fault_with(number)),
            (None, None) => None,
        }
    }

    /// Whether it has no fault, neither by itself nor by its place.
    pub(crate) fn is_faultless(&self) -> bool
        ensures { IsTrue result → entry_tree self.now ≡ faultless (line_of_entry self.now) }
    {
        self.said.fault.is_none() && self.by_place.is_none()
    }

    /// The line with its statement, where it has no fault.
    pub(crate) fn into_line(self) -> Line
        ensures { result ≡ line_of_entry self }
    {
        let LineEntry {
            file,
            line,
            said,
            ..
        } = self;
        let LineSaid { statement, .. } = said;
        Line {
            file,
            line,
            stmt: statement,
        }
    }
}
