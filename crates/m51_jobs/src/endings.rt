//! Kinds of files, by the endings of their names.
ghost use Rattle.std.specs.Prelude.{◌≡◌, map};
ghost use Rattle.std.specs.Char.{to_ascii_lowercase};
ghost use Rattle.std.specs.List.{list_all};
ghost use Rattle.std.specs.Str.{bytes_eq};
ghost use Rattle.m51_jobs.specs.Endings.{ending_of, last_four, is_source, is_include, is_text_file, has_ending};
ghost use Rattle.m51_jobs.specs.Endings.{are_built, are_assembled, is_not_empty, are_objects, are_boards};
ghost use Rattle.m51_jobs.specs.Texts.{lent};

/// The fewest boards of a party line.
///
/// Source: own choice ("Limits").
pub const LEAST_BOARDS: usize = 2;

/// The most boards of a party line.
///
/// Source: own choice ("Limits").
pub const MOST_BOARDS: usize = 8;

/// What a file is, by the ending of its name.
///
/// Source: own choice ("Words").
#[derive(Clone, Copy, Debug, PartialEq, Eq)]
pub enum Ending {
    /// A source: `.a51`.
    Source,
    /// An include: `.inc`.
    Include,
    /// An object: `.obj`.
    Object,
    /// A library: `.lib`.
    Library,
}

// Whether the last four bytes are this ending, in any case. The ending is in small letters.
fn ends_in(name: &[u8], ending: &[u8]) -> bool
    requires { map to_ascii_lowercase ending.now ≡ ending.now }
    ensures { result ≡ bytes_eq (last_four name.now) ending.now }
{
    name[name.len().saturating_sub(4)..].eq_ignore_ascii_case(ending)
}

/// What the file of this name is, by the last four bytes in any case.
///
/// Source: own choice ("Words").
#[tactic(auto, unfolding(crate::specs::Endings::ending_of))]
pub fn ending_of(name: &str) -> Option<Ending>
    ensures { result ≡ ending_of name.now }
{
    let bytes = name.as_bytes();
    if ends_in(bytes, b".a51") {
        Some(Ending::Source)
    } else if ends_in(bytes, b".inc") {
        Some(Ending::Include)
    } else if ends_in(bytes, b".obj") {
        Some(Ending::Object)
    } else if ends_in(bytes, b".lib") {
        Some(Ending::Library)
    } else {
        None
    }
}

/// Whether the file of this name is a source.
///
/// Source: own choice ("Words").
pub fn is_source(name: &str) -> bool
    ensures { result ≡ is_source name.now }
{
    matches!(ending_of(name), Some(Ending::Source))
}

/// Whether the file of this name is an include.
///
/// Source: own choice ("Words").
pub fn is_include(name: &str) -> bool
    ensures { result ≡ is_include name.now }
{
    matches!(ending_of(name), Some(Ending::Include))
}

// Whether the file is a source or an include.
fn is_text_file(name: &str) -> bool
    ensures { result ≡ is_text_file name.now }
{
    matches!(
        ending_of(name),
        Some(Ending::Source) | Some(Ending::Include)
    )
}

// Whether each file has one of the four endings.
fn have_endings(files: &[&str]) -> bool
    ensures { result ≡ list_all has_ending (lent files.now) }
{
    for name in files {
        if ending_of(name).is_none() {
            return false;
        }
    }
    true
}

/// Whether these may be the files of `build`: one or more, each with one of the four endings.
///
/// Source: own choice ("Words").
#[tactic(auto, unfolding(crate::specs::Endings::are_built))]
pub fn are_built(files: &[&str]) -> bool
    ensures { result ≡ are_built (lent files.now) }
{
    !files.is_empty() && have_endings(files)
}

/// Whether these may be the files of `asm`: sources and includes, of which one is a source.
///
/// Source: own choice ("Words").
#[tactic(auto, unfolding(crate::specs::Endings::are_assembled))]
pub fn are_assembled(files: &[&str]) -> bool
    ensures { result ≡ are_assembled (lent files.now) }
{
    let mut sources: usize = 0;
    for name in files {
        if !is_text_file(name) {
            return false;
        }
        if is_source(name) {
            sources += 1;
        }
    }
    sources == 1
}

// Whether the name of a file is not empty.
fn is_not_empty(name: &str) -> bool
    ensures { result ≡ is_not_empty name.now }
{
    !name.is_empty()
}

// Whether each name is not empty.
fn are_not_empty(files: &[&str]) -> bool
    ensures { result ≡ list_all is_not_empty (lent files.now) }
{
    for name in files {
        if !is_not_empty(name) {
            return false;
        }
    }
    true
}

/// Whether these may be objects of a library: one or more, none with an empty name.
///
/// Source: own choice ("Words").
#[tactic(auto, unfolding(crate::specs::Endings::are_objects))]
pub fn are_objects(files: &[&str]) -> bool
    ensures { result ≡ are_objects (lent files.now) }
{
    !files.is_empty() && are_not_empty(files)
}

// Whether each file is a source.
fn are_sources(files: &[&str]) -> bool
    ensures { result ≡ list_all is_source (lent files.now) }
{
    for name in files {
        if !is_source(name) {
            return false;
        }
    }
    true
}

/// Whether these may be the files of `party`: 2 to 8 sources.
///
/// Source: own choice ("Words").
#[tactic(auto, unfolding(crate::specs::Endings::are_boards))]
pub fn are_boards(files: &[&str]) -> bool
    ensures { result ≡ are_boards (lent files.now) }
{
    LEAST_BOARDS <= files.len() && files.len() <= MOST_BOARDS && are_sources(files)
}
