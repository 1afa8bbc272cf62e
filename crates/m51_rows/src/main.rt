//! Runs the stored cases of whole commands, over files and a sink in memory. It is no part of the product.
#![tactic(auto)]

mod answering;
mod cases;
mod failing;
mod files;
mod image;
mod pieces;
mod raising;
mod report;
mod sources;
mod system;
mod texts;
mod words;

use crate::report::Report;
use std::io;

fn main(rt: HostRuntime) -> io::Result<()> {
    let mut report = Report {
        passed: 0,
        failed: 0,
    };
    cases::run_all(&rt, &mut report)?;
    sources::run_all(&rt, &mut report)?;
    words::run_all(&rt, &mut report)?;
    raising::run_all(&rt, &mut report)?;
    system::run_all(&rt, &mut report)?;
    let Report { passed, failed } = report;
    println!(rt; "{passed} passed, {failed} failed")?;
    if failed > 0 {
        return Err(io::Error::other("a case failed"));
    }
    Ok(())
}
