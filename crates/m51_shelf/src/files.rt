//! Files in memory, one of them open.
ghost use Rattle.std.specs.Prelude.{◌≡◌, ◌<◌, ◌≤◌, None, Some, length};
ghost use Rattle.m51_shelf.specs.Shelf.{file_of, file_or_empty, contents_at, IsPiece};

use m51_cells::Bytes;

// The index of the first file of this name, or the number of files.
pub(crate) fn index_of(files: &[(Bytes, Bytes)], name: &[u8]) -> usize
    ensures bound { result ≤ length files.now }
    ensures found { result < length files.now → file_of files.now name.now ≡ Some (contents_at files.now result) }
    ensures none { result ≡ length files.now → file_of files.now name.now ≡ None }
    ensures any { file_or_empty files.now name.now ≡ Some (contents_at files.now result) }
{
    for (index, file) in files.iter().enumerate() {
        if file.0.as_slice() == name {
            return index;
        }
    }
    files.len()
}

// What the file of this index holds.
pub(crate) fn contents(files: &[(Bytes, Bytes)], index: usize) -> &[u8]
    ensures { result.now ≡ contents_at files.now index }
{
    match files.get(index) {
        Some(file) => file.1.as_slice(),
        None => &[],
    }
}

// Copies what follows the first `taken` bytes, as far as there is room.
pub(crate) fn copy_piece(file: &[u8], taken: usize, into: &mut [u8]) -> usize
    requires { taken ≤ length file.now }
    ensures bound { result ≤ length into.new }
    ensures piece { IsPiece file.now taken result into.new }
{
    let rest = &file[taken..];
    let count = rest.len().min(into.len());
    into[..count].copy_from_slice(&rest[..count]);
    count
}
