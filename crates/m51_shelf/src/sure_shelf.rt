//! A shelf in memory that never fails.
ghost use Rattle.std.specs.Prelude.{◌≡◌, None, Some, false, [], length};
ghost use Rattle.m51_shelf.specs.Shelf.{file_or_empty, contents_at};

use crate::files::{contents, copy_piece, index_of};
use crate::shelf::Shelf;
use crate::sink::Failed;
use m51_cells::Bytes;
use std::marker::Model;

/// Files in memory that never fail. Contracts see what they hold; of two of one name the first counts, and under each
/// other name there is an empty file. It forgets what it keeps.
///
/// Source: own choice ("The outside").
#[derive(Drop)]
pub struct SureShelf {
    files: Vec<(Bytes, Bytes)>,
    name: Option<String>,
    index: usize,
    taken: usize,
    ready: bool,
}

impl Model for SureShelf {
    ghost use Rattle.std.specs.Prelude.{◌≤◌, length};
    ghost use Rattle.m51_shelf.specs.Shelf.{contents_at};
    ghost use Rattle.m51_shelf.specs.Stored.{name_bytes};
    ghost use Rattle.m51_shelf.specs.Memory.{SureFiles};

    ghost Value = { SureFiles };

    ghost view = { λ s. record {
      files = s.files.items;
      name = name_bytes s.name;
      index = s.index;
      taken = s.taken;
      ready = s.ready;
    } };

    ghost invariant = { λ s. s.taken ≤ length (contents_at s.files.items s.index) };
}

impl SureShelf {
    /// A shelf of these files, by name, before its first call.
    ///
    /// Source: own choice ("The outside").
    pub fn make(files: Vec<(Bytes, Bytes)>) -> SureShelf
        ensures { result ≡ record {
          files = files.items;
          name = [];
          index = length files.items;
          taken = 0;
          ready = false;
        } }
    {
        let index = files.len();
        SureShelf {
            files,
            name: None,
            index,
            taken: 0,
            ready: false,
        }
    }
}

impl Shelf for SureShelf {
    ghost state = { λ shelf. record {
      holds = Some (file_or_empty shelf.files);
      reads = record {
        opened = Some (contents_at shelf.files shelf.index);
        named = shelf.name;
        ready = shelf.ready;
        taken = shelf.taken;
        faults = 0;
        given = None;
      };
      keeps = record { kept = None; missed = []; faults = 0 };
    } };

    fn start(&mut self, name: String) -> Result<(), Failed> {
        let index = index_of(&self.files, name.as_bytes());
        self.taken = 0;
        self.index = index;
        self.name = Some(name);
        self.ready = true;
        Ok(())
    }

    fn piece(&mut self, into: &mut [u8]) -> Result<usize, Failed> {
        let count = copy_piece(contents(&self.files, self.index), self.taken, into);
        self.taken += count;
        Ok(count)
    }

    fn keep(&mut self, _name: String, _bytes: &[u8]) -> Result<(), Failed> {
        Ok(())
    }
}
