//! The files of the system.
ghost use Rattle.std.specs.Prelude.{◌≡◌, ◌≤◌, [], None, false, IfOk, IsTrue, OnErr, OnOk, is_ok, length, string_bytes};
ghost use Rattle.std.specs.Io.KnownBytes.{ReadConsumes};
ghost use Rattle.m51_cells.specs.Outside.{HasCause, one_more};
ghost use Rattle.m51_shelf.specs.Shelf.{handed, missed_after};
ghost use Rattle.m51_shelf.specs.Stored.{SameReading, SameStore, TakesFrom};

use crate::keeping::put_file;
use crate::shelf::Shelf;
use crate::sink::Failed;
use crate::stdout::MOST_TRIES;
use std::fs;
use std::io::{ErrorKind, Read};
use std::marker::Model;
use std::rt::Files;

/// The files of the system, by their paths; relative ones begin at the current folder. Contracts do not see what they
/// hold.
///
/// Source: own choice ("The outside").
#[derive(Drop)]
pub struct DirShelf<R: Files> {
    rt: R,
    file: Option<R::File>,
    name: Option<String>,
    taken: u64,
    faults: u64,
    missed: Option<String>,
    keep_faults: u64,
}

impl<R: Files> Model for DirShelf<R> {
    ghost use Rattle.std.specs.Prelude.{is_some, option_and_then};
    ghost use Rattle.m51_shelf.specs.Stored.{OpenFile, name_bytes};

    ghost Value = { OpenFile };

    ghost view = { λ s. record {
      name = name_bytes s.name;
      taken = s.taken;
      ready = is_some s.file;
      left = option_and_then R.File.remaining s.file;
      faults = s.faults;
      missed = name_bytes s.missed;
      keep_faults = s.keep_faults;
    } };
}

impl<R: Files> DirShelf<R> {
    /// A shelf over the files that the handle reaches, before its first call.
    ///
    /// Source: own choice ("Calls on the outside").
    pub fn make(rt: R) -> DirShelf<R>
        ensures { result ≡ record {
          name = [];
          taken = 0;
          ready = false;
          left = None;
          faults = 0;
          missed = [];
          keep_faults = 0;
        } }
    {
        DirShelf {
            rt,
            file: None,
            name: None,
            taken: 0,
            faults: 0,
            missed: None,
            keep_faults: 0,
        }
    }
}

// Reads until the slice is full, the file ends or a read fails. Bytes that were read before a failure are returned, and
// the next call continues after them: it fails if the failure persists. A read that a signal interrupts is made again,
// `MOST_TRIES` times at most in a call.
fn fill<R: Read>(file: &mut R, into: &mut [u8]) -> Result<usize, Failed>
    ensures bound { IfOk result (λ count. count ≤ length into.new) }
    ensures bytes { ReadConsumes (R.remaining file.old) (R.remaining file.new) result into.new }
{
    let mut done = 0;
    let mut interrupted = 0;
    while done < into.len() {
        match file.read(&mut into[done..]) {
            Ok(0) => break,
            Ok(count) => done += count,
            Err(error) if error.kind() == ErrorKind::Interrupted && interrupted < MOST_TRIES => {
                interrupted += 1;
            }
            Err(_) if done > 0 => break,
            Err(_) => return Err(Failed),
        }
    }
    Ok(done)
}

impl<R: Files> Shelf for DirShelf<R> {
    ghost state = { λ shelf. record {
      holds = None;
      reads = record {
        opened = None;
        named = shelf.name;
        ready = shelf.ready;
        taken = shelf.taken;
        faults = shelf.faults;
        given = None;
      };
      keeps = record { kept = None; missed = shelf.missed; faults = shelf.keep_faults };
    } };

    fn start(&mut self, name: String) -> Result<(), Failed>
        ensures named { self.new.name ≡ string_bytes name }
        ensures ready { self.new.ready ≡ is_ok result }
        ensures taken { self.new.taken ≡ 0 }
        ensures cause { HasCause self.old.faults self.new.faults result }
        ensures store { SameStore self.old self.new }
        ensures opened { OnOk result (self.new.faults ≡ self.old.faults) }
        ensures counted { OnErr result (self.new.faults ≡ one_more self.old.faults) }
    {
        let opened = fs::open(&self.rt, name.as_str());
        self.name = Some(name);
        self.taken = 0;
        match opened {
            Ok(file) => {
                self.file = Some(file);
                Ok(())
            }
            Err(_) => {
                self.file = None;
                self.faults = self.faults.saturating_add(1);
                Err(Failed)
            }
        }
    }

    fn piece(&mut self, into: &mut [u8]) -> Result<usize, Failed>
        requires { IsTrue self.old.ready }
        ensures bound { IfOk result (λ count. count ≤ length into.new) }
        ensures named { self.new.name ≡ self.old.name }
        ensures ready { self.new.ready ≡ is_ok result }
        ensures taken { self.new.taken ≡ handed self.old.taken result }
        ensures bytes { IfOk result (λ count. TakesFrom self.old.left self.new.left count into.new) }
        ensures cause { HasCause self.old.faults self.new.faults result }
        ensures store { SameStore self.old self.new }
        ensures read { OnOk result (self.new.faults ≡ self.old.faults) }
        ensures counted { OnErr result (self.new.faults ≡ one_more self.old.faults) }
    {
        let Some(file) = &mut self.file else {
            unreachable!()
        };
        match fill(file, into) {
            Ok(count) => {
                self.taken = self.taken.saturating_add(count as u64);
                Ok(count)
            }
            Err(Failed) => {
                self.file = None;
                self.faults = self.faults.saturating_add(1);
                Err(Failed)
            }
        }
    }

    fn keep(&mut self, name: String, bytes: &[u8]) -> Result<(), Failed>
        ensures missed { self.new.missed ≡ missed_after self.old.missed (string_bytes name) result }
        ensures cause { HasCause self.old.keep_faults self.new.keep_faults result }
        ensures reads { SameReading self.old self.new }
        ensures kept { OnOk result (self.new.keep_faults ≡ self.old.keep_faults) }
        ensures counted { OnErr result (self.new.keep_faults ≡ one_more self.old.keep_faults) }
    {
        match put_file(&self.rt, name.as_str(), bytes) {
            Ok(()) => Ok(()),
            Err(Failed) => {
                self.missed = Some(name);
                self.keep_faults = self.keep_faults.saturating_add(1);
                Err(Failed)
            }
        }
    }
}
