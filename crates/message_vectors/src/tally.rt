//! Counts what is tried, and prints what is wrong.

use std::alloc::Global;
use std::io;

/// How much was right so far, and how much wrong.
#[derive(Drop)]
pub struct Tally<'r> {
    rt: &'r HostRuntime,
    right: u64,
    wrong: u64,
}

impl<'r> Tally<'r> {
    /// Nothing is counted yet.
    pub fn new(rt: &'r HostRuntime) -> Tally<'r> {
        Tally {
            rt,
            right: 0,
            wrong: 0,
        }
    }

    /// What is tried takes its memory from this.
    pub fn alloc(&self) -> Global {
        self.rt.alloc()
    }

    /// Counts what was tried, and prints it if it is wrong.
    pub fn note(&mut self, what: &str, is_right: bool) -> io::Result<()> {
        if is_right {
            self.right = self.right.saturating_add(1);
            return Ok(());
        }
        self.wrong = self.wrong.saturating_add(1);
        println!(self.rt; "wrong: {what}")
    }

    /// Prints the counts.
    pub fn end(self) -> io::Result<()> {
        let Tally { rt, right, wrong } = self;
        println!(rt; "{right} tests of messages are right, and {wrong} are wrong")
    }
}
