//! The files of a folder.
use crate::texts::{after, before, byte, not_in_form, number};
use m51_cells::Bytes;
use std::alloc::{AllocError, Global};
use std::io::ErrorKind;
use std::{fs, io};

/// Two texts with a mark between them, as a path of a folder and a name.
pub(crate) fn joined(
    alloc: Global,
    one: &str,
    mark: &str,
    two: &str,
) -> Result<String, AllocError> {
    format!(in alloc; "{one}{mark}{two}")
}

/// The names in a folder, in order. A folder that is absent has none.
pub(crate) fn names_in(rt: &HostRuntime, folder: &str) -> io::Result<Vec<String>> {
    let mut names = Vec::new(rt.alloc());
    let entries = match fs::read_dir(rt, folder) {
        Ok(entries) => entries,
        Err(error) if error.kind() == ErrorKind::NotFound => return Ok(names),
        Err(error) => return Err(error),
    };
    for entry in entries {
        names.push(String::from_str(rt.alloc(), entry?.file_name())?)?;
    }
    names.sort_unstable();
    Ok(names)
}

/// What the file of this name in a folder holds. One that is absent holds nothing.
pub(crate) fn contents_of(rt: &HostRuntime, folder: &str, name: &str) -> io::Result<Vec<u8>> {
    let path = joined(rt.alloc(), folder, "/", name)?;
    match fs::read(rt, path.as_str()) {
        Err(error) if error.kind() == ErrorKind::NotFound => Ok(Vec::new(rt.alloc())),
        read => read,
    }
}

/// The files of a folder in another, by name.
pub(crate) fn files_in(
    rt: &HostRuntime,
    above: &str,
    folder: &str,
) -> io::Result<Vec<(Bytes, Bytes)>> {
    let folder = joined(rt.alloc(), above, "/", folder)?;
    let mut files = Vec::new(rt.alloc());
    for name in names_in(rt, folder.as_str())? {
        let contents = Bytes::of(contents_of(rt, folder.as_str(), name.as_str())?);
        files.push((Bytes::of(name.into_bytes()), contents))?;
    }
    Ok(files)
}

/// The file of a line with its name, how many bytes it has, and the byte in hexadecimal.
pub(crate) fn filled(alloc: Global, line: &[u8]) -> io::Result<(Bytes, Bytes)> {
    let rest = after(line, b" ");
    let Some(count) = number(before(rest, b" ")) else {
        return Err(not_in_form());
    };
    let Some(byte) = byte(after(rest, b" ")) else {
        return Err(not_in_form());
    };
    let contents = Bytes::of(vec![in alloc; byte; count as usize]?);
    Ok((Bytes::of(before(line, b" ").to_vec(alloc)?), contents))
}
