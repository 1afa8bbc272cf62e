//! Names of segments, units, publics, externals and modules.
ghost use Rattle.std.specs.Prelude.{◌≡◌, ◌≤◌, [], length, bytes_eq};
ghost use Rattle.std.specs.Char.{to_ascii_uppercase};
ghost use Rattle.std.specs.Cmp.Rules.{comparing, hashing};
ghost use Rattle.std.specs.Hash as fed;
ghost use Rattle.std.specs.List.{list_all};
ghost use Rattle.std.proofs.Common.{rules};
ghost use Rattle.m51_cells.specs.Name.{is_name_byte, is_name, name_of, title_at, IsUpper};

use crate::hex4;
use std::hash::{Hash, Hasher};
use std::marker::Model;

/// The most bytes that a name has.
///
/// Source: own choice ("Names").
pub const LONGEST: usize = 31;

/// A name, which contracts see as the list of its 0 to 31 bytes. None of them is a small letter, so names that differ
/// only in case are one name. `==` says whether two names are one, and a name may be the key of a map.
///
/// Source: own choice ("Names").
#[derive(Clone, Copy, Debug)]
pub struct Name {
    bytes: [u8; 31],
    len: u8,
}

impl Model for Name {
    ghost use Rattle.std.specs.Prelude.{◌-◌, ◌++◌, ℕ, List, length, take, replicate};
    ghost use Rattle.m51_cells.specs.Padded.{IsPadded, padded_back};

    ghost Value = { List ℕ };

    ghost view = { λ n. take n.len n.bytes };

    ghost invariant = { λ n. IsPadded n.len n.bytes };

    ghost inverse = { λ b. record { bytes = b ++ replicate (31 - length b) 0; len = length b } };

    ghost inverse_ok = { λ a h. padded_back (λ bytes len. record { bytes = bytes; len = len }) a.len a.bytes h };
}

/// Whether the byte is allowed in a name: a letter, a digit, `?` or `_`.
///
/// Source: ASM51 guide.
pub fn is_name_byte(byte: u8) -> bool
    ensures { result ≡ is_name_byte byte }
{
    byte.is_ascii_alphanumeric() || byte == b'?' || byte == b'_'
}

// Whether each byte may be in a written name.
fn are_name_bytes(text: &[u8]) -> bool
    ensures { result ≡ list_all is_name_byte text.now }
{
    text.iter().all(|byte| is_name_byte(*byte))
}

// Whether the text is a written name.
fn is_name(text: &[u8]) -> bool
    ensures { result ≡ is_name text.now }
{
    match text {
        [] => false,
        [first, ..] => !first.is_ascii_digit() && text.len() <= LONGEST && are_name_bytes(text),
    }
}

// The byte, a small letter in upper case.
fn in_upper_case(byte: u8) -> u8
    ensures { result ≡ to_ascii_uppercase byte }
{
    byte.to_ascii_uppercase()
}

impl PartialEq for Name {
    ghost eq = { bytes_eq };

    ghost laws = { Prim.search (comparing, rules) };

    // Whether the names are the same.
    fn eq(&self, other: &Name) -> bool {
        self.bytes() == other.bytes()
    }
}

impl Eq for Name {
    ghost laws = { Prim.search (comparing, rules) };
}

impl Hash for Name {
    ghost hash_input = { fed.slice fed.u8 };

    ghost respects_eq = { Prim.search (hashing, rules) };

    fn hash<H: Hasher>(&self, state: &mut H) {
        self.bytes().hash(state);
    }
}

impl Name {
    /// The name that a text writes, in either case; `None` exactly if the text is empty, is longer than 31 bytes,
    /// has a byte other than a letter, a digit, `?` or `_`, or begins with a digit.
    ///
    /// Source: own choice ("Names").
    pub fn of(text: &[u8]) -> Option<Name>
        ensures { result ≡ name_of text.now }
    {
        if !is_name(text) {
            return None;
        }
        let mut bytes = [0u8; LONGEST];
        for (index, byte) in text.iter().enumerate() {
            bytes[index] = in_upper_case(*byte);
        }
        Some(Name {
            bytes,
            len: text.len() as u8,
        })
    }

    /// The empty name, of things that have none.
    ///
    /// Source: own choice ("Names").
    pub fn none() -> Name
        ensures { result ≡ [] }
    {
        Name {
            bytes: [0; LONGEST],
            len: 0,
        }
    }

    /// The title of an absolute segment with this base: `@` and four hexadecimal digits, as `@0003`.
    ///
    /// Source: own choice ("Titles of absolute segments").
    pub fn at(base: u16) -> Name
        ensures { result ≡ title_at base }
    {
        let [a, b, c, d] = hex4(base);
        let mut bytes = [0u8; LONGEST];
        bytes[0] = b'@';
        bytes[1] = a;
        bytes[2] = b;
        bytes[3] = c;
        bytes[4] = d;
        Name { bytes, len: 5 }
    }

    /// The bytes of the name: 0 to 31, none of them a small letter.
    ///
    /// Source: own choice ("Names").
    pub fn bytes(&self) -> &[u8]
        ensures bytes { result.now ≡ self.now }
        ensures most { length result.now ≤ 31 }
        ensures upper { IsUpper result.now }
    {
        &self.bytes[..usize::from(self.len)]
    }
}
