//! Which include a line names.
ghost use Rattle.std.specs.Prelude.{◌≡◌, ◌<◌, ℕ, IfSome, length, option_map, position, slice_get};
ghost use Rattle.m51_stmt.specs.Statement.{body_tree};
ghost use Rattle.m51_text.specs.Said.{include_name, asked, said_tree};
ghost use Rattle.m51_text.specs.Text.{has_name, given, inclusion_of, bytes_of_file, IsAllowed};

use crate::saying::LineSaid;
use m51_module::SourceFile;
use m51_stmt::Body;

/// Which include a line names.
#[derive(Clone, Copy)]
pub(crate) enum Inclusion {
    /// The line asks for none.
    Nothing,
    /// None has the name, or it would be nested too deep: E17.
    Refused,
    /// The include of this index.
    Given(usize),
}

// The name in an include line.
fn include_name(body: &Body) -> Option<&[u8]>
    ensures { option_map (λ name. name.now) result ≡ include_name (body_tree body.now) }
{
    match body {
        Body::Include(name) => Some(name.as_slice()),
        _ => None,
    }
}

// The name of the include that a line asks for.
fn asked(said: &LineSaid) -> Option<&[u8]>
    ensures { option_map (λ name. name.now) result ≡ asked (said_tree said.now) }
{
    match said.fault {
        None => include_name(&said.statement.body),
        Some(_) => None,
    }
}

// The index of the first include of a name.
fn index_of(includes: &[SourceFile], name: &[u8]) -> Option<usize>
    ensures index { result ≡ position (has_name name.now) includes.now }
    ensures within { IfSome result (λ index. index < length includes.now) }
{
    includes
        .iter()
        .position(|file| file.name.as_slice() == name)
}

// The first include of a name.
fn given(includes: &[SourceFile], name: &[u8]) -> Inclusion
    ensures given { result ≡ given includes.now name.now }
    ensures allowed { IsAllowed (length includes.now) 1 result }
{
    match index_of(includes, name) {
        Some(index) => Inclusion::Given(index),
        None => Inclusion::Refused,
    }
}

/// Which include a line names, if `levels` levels of includes are allowed below it.
pub(crate) fn inclusion_of(includes: &[SourceFile], levels: u8, said: &LineSaid) -> Inclusion
    ensures inclusion { result ≡ inclusion_of includes.now levels (said_tree said.now) }
    ensures allowed { IsAllowed (length includes.now) levels result }
{
    match asked(said) {
        Some(name) => {
            if levels == 0 {
                Inclusion::Refused
            } else {
                given(includes, name)
            }
        }
        None => Inclusion::Nothing,
    }
}

/// The bytes of an include.
pub(crate) fn bytes_at(includes: &[SourceFile], index: usize) -> &[u8]
    requires { index < length includes.now }
    ensures { result.now ≡ bytes_of_file (slice_get includes.now index) }
{
    includes[index].bytes.as_slice()
}
