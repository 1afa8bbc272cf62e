//! The runs of addresses that content fills.
ghost use Rattle.std.specs.Prelude.{◌≡◌, ◌+◌, ◌<◌, ◌≤◌, All, IfOk, OnOk, length};
ghost use Rattle.m51_module.specs.declared.image.TheConstants.{IMAGE_LEN};
ghost use Rattle.m51_linker.specs.Growing.{AddsByte, AddsIf};
ghost use Rattle.m51_linker.specs.Memory.{IsHeldBelow};
ghost use Rattle.m51_linker.specs.Runs.{AreRuns};

use m51_cells::{ListOf, NoMemory};
use m51_module::{Run, Runs};
use std::alloc::Global;

// The address after a run.
fn end_of(run: &Run) -> u32
    requires { run.now.first + run.now.len ≤ 65536 }
    ensures { result ≡ run.now.first + run.now.len }
{
    u32::from(run.first) + run.len
}

// Adds the byte at the address, which lies after the runs: to the last run, where it ends there.
fn add_byte(runs: &mut Vec<Run>, address: u16) -> Result<(), NoMemory>
    requires { All (λ run. run.first + run.len ≤ address) runs.old.items }
    ensures { OnOk result (AddsByte address runs.old.items runs.new.items) }
{
    match runs.pop() {
        Some(run) if end_of(&run) == u32::from(address) => runs.push(Run {
            first: run.first,
            len: run.len + 1,
        })?,
        Some(run) => {
            runs.push(run)?;
            runs.push(Run {
                first: address,
                len: 1,
            })?
        }
        None => runs.push(Run {
            first: address,
            len: 1,
        })?,
    }
    Ok(())
}

// Adds the address to the runs, if the memory holds a byte there.
fn add_if(runs: &mut Vec<Run>, held: bool, address: u16) -> Result<(), NoMemory>
    requires { All (λ run. run.first + run.len ≤ address) runs.old.items }
    ensures { OnOk result (AddsIf held address runs.old.items runs.new.items) }
{
    if held {
        add_byte(runs, address)?;
    }
    Ok(())
}

// The runs of the addresses that have a byte.
pub(crate) fn runs_of(alloc: Global, content: &[Option<u8>]) -> Result<Runs, NoMemory>
    requires { length content.now ≡ IMAGE_LEN }
    ensures { IfOk result (λ runs. AreRuns (IsHeldBelow content.now IMAGE_LEN) runs) }
{
    let mut runs = Vec::new(alloc);
    for (address, byte) in content.iter().enumerate() {
        add_if(&mut runs, byte.is_some(), address as u16)?;
    }
    Ok(ListOf::of(runs))
}
