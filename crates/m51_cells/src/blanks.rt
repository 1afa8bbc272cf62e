//! Blanks in lines: spaces and tabs.
ghost use Rattle.std.specs.Prelude.{◌≡◌, ◌≤◌, length};
ghost use Rattle.std.specs.List.{list_all, position_or_len, prefix_len};
ghost use Rattle.m51_cells.specs.Blanks.{is_blank, is_skipped};

/// Whether the byte is a blank: a space or a tab.
///
/// Source: own choice ("Lines").
pub fn is_blank(byte: u8) -> bool
    ensures { result ≡ is_blank byte }
{
    byte == b' ' || byte == b'\t'
}

/// Whether each byte is a blank.
///
/// Source: own choice ("Lines").
pub fn are_blanks(text: &[u8]) -> bool
    ensures { result ≡ list_all is_blank text.now }
{
    text.iter().all(|byte| is_blank(*byte))
}

/// How many blanks come before the first other byte: all bytes where there is none.
///
/// Source: own choice ("Lines").
pub fn blank_len(text: &[u8]) -> usize
    ensures len { result ≡ prefix_len is_blank text.now }
    ensures within { result ≤ length text.now }
{
    text.iter().take_while(|byte| is_blank(**byte)).count()
}

/// How many bytes come before the first blank: all bytes where there is none.
///
/// Source: own choice ("Lines").
pub fn word_len(text: &[u8]) -> usize
    ensures len { result ≡ position_or_len is_blank text.now }
    ensures within { result ≤ length text.now }
{
    text.iter().take_while(|byte| !is_blank(**byte)).count()
}

/// Whether a line of a control file or of a script is skipped: it is empty, has only blanks, or begins with `;`.
///
/// Source: own choice ("Lines").
pub fn is_skipped(line: &[u8]) -> bool
    ensures { result ≡ is_skipped line.now }
{
    match line {
        [] => true,
        [first, ..] => *first == b';' || are_blanks(line),
    }
}
