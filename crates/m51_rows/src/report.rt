//! How many cases passed.
use std::io;

/// How many cases passed, and how many did not.
#[derive(Clone, Copy)]
pub(crate) struct Report {
    pub(crate) passed: u32,
    pub(crate) failed: u32,
}

impl Report {
    /// Counts the case of this name. That of one that failed is printed, and comes on standard error too, where `rt ci`
    /// says it.
    pub(crate) fn count(&mut self, rt: &HostRuntime, name: &[u8], passed: bool) -> io::Result<()> {
        if passed {
            self.passed = self.passed.saturating_add(1);
            return Ok(());
        }
        self.failed = self.failed.saturating_add(1);
        let name = match str::from_utf8(name) {
            Ok(name) => name,
            Err(_) => "a row that is not UTF-8",
        };
        eprintln!(rt; "{name}: failed")?;
        println!(rt; "{name}: failed")
    }
}
