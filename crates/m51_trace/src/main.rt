//! The program `m51-trace`: what happens inside a run of `m51 build`.
#![tactic(auto)]

mod requests;
mod top;
mod words;

use crate::top::trace;
use m51_chain::{DirShelf, NOT_TEXT, Status, StdSink};
use std::env;
use std::io::ErrorKind;
use std::process::ExitCode;

fn main(rt: HostRuntime) -> ExitCode {
    let mut words = Vec::new(rt.alloc());
    match env::args(&rt) {
        Ok(args) => {
            for word in args.skip(1) {
                if words.push(word).is_err() {
                    return ExitCode::from(Status::Memory as u8);
                }
            }
        }
        Err(error) if error.kind() == ErrorKind::OutOfMemory => return ExitCode::from(
            Status::Memory as u8,
        ),
        Err(_) => return ExitCode::from(NOT_TEXT),
    }
    let mut files = DirShelf::make(&rt);
    let mut out = StdSink::make(&rt);
    let status = trace(rt.alloc(), &words, &mut files, &mut out);
    // The variants of `Status` are in the order of their numbers.
    ExitCode::from(status as u8)
}
