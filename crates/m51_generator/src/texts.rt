//! Lines appended to a text.
ghost use Rattle.std.specs.Prelude.{◌≡◌, ◌++◌, OnOk};
ghost use Rattle.m51_generator.specs.Lines.{lent, lines_as_text, opening_lines, main_lines, closing_lines};

use m51_cells::NoMemory;

// Appends these lines.
#[tactic(auto, unfolding(crate::specs::Lines::lines_as_text))]
pub(crate) fn push_lines(text: &mut Vec<u8>, lines: &[&str]) -> Result<(), NoMemory>
    ensures { OnOk result (text.new.items ≡ text.old.items ++ lines_as_text (lent lines.now)) }
{
    for line in lines {
        text.extend_from_slice(line.as_bytes())?;
        text.push(b'\n')?;
    }
    Ok(())
}

// Appends the module and its stack.
pub(crate) fn push_opening(text: &mut Vec<u8>) -> Result<(), NoMemory>
    ensures { OnOk result (text.new.items ≡ text.old.items ++ lines_as_text opening_lines) }
{
    push_lines(
        text,
        &["NAME GEN", "?STACK SEGMENT IDATA", "RSEG ?STACK", "DS 64"],
    )
}

// Appends the vectors, and MAIN up to its loop.
pub(crate) fn push_main(text: &mut Vec<u8>) -> Result<(), NoMemory>
    ensures { OnOk result (text.new.items ≡ text.old.items ++ lines_as_text main_lines) }
{
    push_lines(
        text,
        &[
            "CSEG AT 0",
            "LJMP MAIN",
            "CSEG AT 0BH",
            "LJMP HA",
            "CSEG AT 1BH",
            "LJMP HB",
            "CSEG AT 30H",
            "MAIN: MOV SP,#?STACK-1",
            "MOV TMOD,#22H",
            "MOV TH0,#38H",
            "MOV TH1,#64H",
            "MOV IP,#8",
            "MOV IE,#8AH",
            "SETB TR0",
            "SETB TR1",
            "LOOP: CLR A",
        ],
    )
}

// Appends the end of the loop and of the source.
pub(crate) fn push_closing(text: &mut Vec<u8>) -> Result<(), NoMemory>
    ensures { OnOk result (text.new.items ≡ text.old.items ++ lines_as_text closing_lines) }
{
    push_lines(text, &["LJMP LOOP", "END"])
}
