//! The text of the faults of a source.
ghost use Rattle.std.specs.Prelude.{◌≡◌, ◌++◌, IfOk, OnOk, Some, slice_get};
ghost use Rattle.std.specs.List.{filter};
ghost use Rattle.std.specs.Option.{option_copied};
ghost use Rattle.m51_jobs.specs.Endings.{is_include};
ghost use Rattle.m51_chain.specs.FaultLines.{fault_line, fault_lines, file_of_text, word_at};
ghost use Rattle.m51_chain.specs.Outcome.{refused, stopped};

use crate::work::{Reason, Stop};
use m51_args::{FileName, is_include};
use m51_cells::{Bytes, NoMemory};
use m51_module::{Fault, SourceFile};
use std::alloc::Global;

// The include of that number among the file arguments, counted from 0.
fn include_at(files: &[FileName], number: usize) -> Option<&FileName>
    ensures { option_copied result ≡ slice_get (filter is_include files.now) number }
{
    let mut left = number;
    for file in files {
        if is_include(file.as_str()) {
            if left == 0 {
                return Some(file);
            }
            left -= 1;
        }
    }
    None
}

// Appends the name of a file of a source: 0 is the source, k the k-th include among the file arguments.
fn push_file(
    text: &mut Vec<u8>,
    source: &[u8],
    files: &[FileName],
    number: u16,
) -> Result<(), NoMemory>
    ensures { OnOk result (text.new.items ≡ text.old.items ++ file_of_text source.now files.now number) }
{
    if number == 0 {
        text.extend_from_slice(source)?;
        return Ok(());
    }
    match include_at(files, usize::from(number - 1)) {
        Some(file) => text.extend_from_slice(file.as_str().as_bytes())?,
        None => {}
    }
    Ok(())
}

// Appends the line of a fault.
fn push_fault(
    alloc: Global,
    text: &mut Vec<u8>,
    source: &[u8],
    files: &[FileName],
    fault: &Fault,
) -> Result<(), NoMemory>
    ensures { OnOk result (text.new.items ≡ text.old.items ++ fault_line source.now files.now fault.now) }
{
    let Fault { file, line, number } = *fault;
    let words = format!(in alloc; "({line}): E{number}\n")?;
    push_file(text, source, files, file)?;
    text.extend_from_slice(words.as_bytes())?;
    Ok(())
}

// Appends the lines of the faults of a source of that name, whose includes are those among the file arguments.
pub(crate) fn push_faults(
    alloc: Global,
    text: &mut Vec<u8>,
    source: &[u8],
    files: &[FileName],
    faults: &[Fault],
) -> Result<(), NoMemory>
    ensures { OnOk result (text.new.items ≡ text.old.items ++ fault_lines source.now files.now faults.now) }
{
    for fault in faults {
        push_fault(alloc, text, source, files, fault)?;
    }
    Ok(())
}

// The file argument of that index, from 0; the empty text if there is no such argument.
pub(crate) fn word_at(files: &[FileName], word: usize) -> &str
    ensures { result.now ≡ word_at files.now word }
{
    match files.get(word) {
        Some(file) => file.as_str(),
        None => "",
    }
}

// A source has these faults.
pub(crate) fn refuse_source(
    alloc: Global,
    files: &[FileName],
    source: &SourceFile,
    faults: &[Fault],
) -> Result<Stop, NoMemory>
    ensures { IfOk result (λ stop. stopped stop
        ≡ Some (refused Reason.Source (fault_lines source.now.name files.now faults.now))) }
{
    let mut text = Vec::new(alloc);
    push_faults(alloc, &mut text, source.name.as_slice(), files, faults)?;
    Ok(Stop::Refused {
        why: Reason::Source,
        text: Bytes::of(text),
    })
}
