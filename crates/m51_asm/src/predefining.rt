//! Whether the names of the 8052 are predefined in a text.
ghost use Rattle.std.specs.Prelude.{◌≡◌, map};
ghost use Rattle.m51_stmt.specs.Statement.{body_tree};
ghost use Rattle.m51_text.specs.Answer.{line_tree};
ghost use Rattle.m51_asm.specs.Fitting.{with_control, mod51};

use m51_stmt::Body;
use m51_text::Line;

// Whether they are, after a line.
fn with_control(body: &Body, before: bool) -> bool
    ensures { result ≡ with_control (body_tree body.now) before }
{
    match body {
        Body::Mod51(on) => *on,
        _ => before,
    }
}

/// Whether the names of the 8052 are predefined: in the whole text, as the last `$MOD51` or `$NOMOD51` says.
pub(crate) fn mod51(lines: &[Line]) -> bool
    ensures { result ≡ mod51 (map line_tree lines.now) }
{
    let mut on = true;
    for line in lines {
        on = with_control(&line.stmt.body, on);
    }
    on
}
