//! Keeping a file of the system: a plain or new file is written beside its place and then put there; a link to a file
//! or a device is written over.
ghost use Rattle.std.specs.Prelude.{◌≡◌, ◌≤◌, ◌++◌, IfOk, OnErr, OnOk, length, take};
ghost use Rattle.std.specs.Io.KnownBytes.{Appends};
ghost use Rattle.m51_shelf.specs.Stored.{part_suffix};
ghost use Rattle.m51_shelf.specs.Writing.{StopsWithin};

use crate::sink::Failed;
use crate::stdout::MOST_TRIES;
use std::fs;
use std::fs::{OpenFile, OpenOptions, Permissions};
use std::io::{ErrorKind, Write};
use std::rt::Files;

// What is added to the name of a file while it is written.
const SUFFIX: [u8; 9] = *b".m51-part";

// The system refuses a path of this length, in bytes.
const TOO_LONG: usize = 4096;

// What is under a name before a file is kept.
enum Place {
    // Nothing.
    Absent,
    // A plain file.
    Plain(Permissions),
    // A link, a device or a folder.
    Other,
}

// Writes all bytes. A write that takes none of them is a failure. One that a signal interrupts is made again,
// `MOST_TRIES` times at most in a call.
fn write_all<W: Write>(file: &mut W, bytes: &[u8]) -> Result<(), Failed>
    ensures all { OnOk result (Appends (W.contents file.old) (W.contents file.new) bytes.now) }
    ensures part { OnErr result (StopsWithin (W.contents file.old) (W.contents file.new) bytes.now) }
{
    let mut done = 0;
    let mut interrupted = 0;
    while done < bytes.len() {
        match file.write(&bytes[done..]) {
            Ok(0) => return Err(Failed),
            Ok(count) => done += count,
            Err(error) if error.kind() == ErrorKind::Interrupted && interrupted < MOST_TRIES => {
                interrupted += 1;
            }
            Err(_) => return Err(Failed),
        }
    }
    Ok(())
}

// What is under this name. It fails where the system doesn't say, as a plain file may be there.
fn place_of<R: Files>(rt: &R, name: &str) -> Result<Place, Failed> {
    match fs::symlink_metadata(rt, name) {
        Ok(found) => Ok(if found.is_file() {
            Place::Plain(found.permissions())
        } else {
            Place::Other
        }),
        Err(error) if error.kind() == ErrorKind::NotFound => Ok(Place::Absent),
        Err(_) => Err(Failed),
    }
}

// Whether the file may be written, which replacing it does not ask.
fn is_writable<R: Files>(rt: &R, name: &str) -> bool {
    OpenOptions::new().write(true).open(rt, name).is_ok()
}

// Writes over what is under the name.
fn write_over<R: Files>(rt: &R, name: &str, bytes: &[u8]) -> Result<(), Failed> {
    match fs::create(rt, name) {
        Ok(mut file) => write_all(&mut file, bytes),
        Err(_) => Err(Failed),
    }
}

// Writes all bytes to a new file, and sees that they are stored. It has its permissions before its first byte, so that
// nobody reads it who could not read the old one.
fn fill_part<W: Write + OpenFile>(
    file: &mut W,
    like: Option<Permissions>,
    bytes: &[u8],
) -> Result<(), Failed> {
    let given = match like {
        Some(permissions) => file.set_permissions(permissions),
        None => Ok(()),
    };
    if given.is_err() {
        return Err(Failed);
    }
    write_all(file, bytes)?;
    match file.sync_all() {
        Ok(()) => Ok(()),
        Err(_) => Err(Failed),
    }
}

// Writes a new file of this name.
fn write_part<R: Files>(
    rt: &R,
    part: &str,
    like: Option<Permissions>,
    bytes: &[u8],
) -> Result<(), Failed> {
    match OpenOptions::new()
        .write(true)
        .create_new(true)
        .open(rt, part)
    {
        Ok(mut file) => fill_part(&mut file, like, bytes),
        Err(_) => Err(Failed),
    }
}

// Puts the file of one name in the place of another.
fn put_in_place<R: Files>(rt: &R, part: &str, name: &str) -> Result<(), Failed> {
    match fs::rename(rt, part, name) {
        Ok(()) => Ok(()),
        Err(_) => Err(Failed),
    }
}

// Writes the part, and puts it in the place of the file. A part that an earlier run left is removed first, and this one
// if it can't be put there.
fn replace<R: Files>(
    rt: &R,
    part: &str,
    name: &str,
    like: Option<Permissions>,
    bytes: &[u8],
) -> Result<(), Failed> {
    let _ = fs::remove_file(rt, part);
    let written = write_part(rt, part, like, bytes);
    let put = match written {
        Ok(()) => put_in_place(rt, part, name),
        Err(Failed) => Err(Failed),
    };
    if put.is_err() {
        let _ = fs::remove_file(rt, part);
    }
    put
}

// Puts the name of the part at the beginning of the slice, if it has room, and answers how long it is.
fn put_part_name(into: &mut [u8], name: &[u8]) -> Result<usize, Failed>
    ensures bound { IfOk result (λ len. len ≤ length into.new) }
    ensures name { IfOk result (λ len. take len into.new ≡ name.now ++ part_suffix) }
{
    let len = name.len();
    let rest = SUFFIX.len();
    if into.len() < rest || into.len() - rest < len {
        return Err(Failed);
    }
    into[..len].copy_from_slice(name);
    into[len..len + rest].copy_from_slice(&SUFFIX);
    Ok(len + rest)
}

// Writes a file beside the name, and puts it in its place. It does not allocate.
fn put_beside<R: Files>(
    rt: &R,
    name: &str,
    like: Option<Permissions>,
    bytes: &[u8],
) -> Result<(), Failed> {
    let mut text = [0u8; TOO_LONG];
    let len = put_part_name(&mut text, name.as_bytes())?;
    match str::from_utf8(&text[..len]) {
        Ok(part) => replace(rt, part, name, like, bytes),
        Err(_) => Err(Failed),
    }
}

// Keeps a file of this name with these bytes. A plain file stays whole until the new one is stored; to what is no plain
// file the bytes are written.
pub(crate) fn put_file<R: Files>(rt: &R, name: &str, bytes: &[u8]) -> Result<(), Failed> {
    match place_of(rt, name)? {
        Place::Absent => put_beside(rt, name, None, bytes),
        Place::Plain(permissions) => {
            if !is_writable(rt, name) {
                return Err(Failed);
            }
            put_beside(rt, name, Some(permissions), bytes)
        }
        Place::Other => write_over(rt, name, bytes),
    }
}
