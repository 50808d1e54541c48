//! Counts the tests of a file and their values, and prints what differs.

use std::alloc::Global;
use std::io;

/// The counts of a file.
#[derive(Drop)]
pub struct Tally<'r> {
    rt: &'r HostRuntime,
    path: &'r str,
    tests: u64,
    values: u64,
    differ: u64,
}

impl<'r> Tally<'r> {
    /// Nothing is counted yet.
    pub fn new(rt: &'r HostRuntime, path: &'r str) -> Tally<'r> {
        Tally {
            rt,
            path,
            tests: 0,
            values: 0,
            differ: 0,
        }
    }

    /// What tests take their memory from.
    pub fn alloc(&self) -> Global {
        self.rt.alloc()
    }

    /// Begins a test, and counts it.
    pub fn begin(&mut self) {
        self.tests = self.tests.saturating_add(1);
    }

    /// Counts a value of a test, and prints it if it differs from what is wanted.
    pub fn compare(&mut self, test: &str, what: &str, found: &str, wanted: &str) -> io::Result<()> {
        self.values = self.values.saturating_add(1);
        if found == wanted {
            return Ok(());
        }
        self.differ = self.differ.saturating_add(1);
        let path = self.path;
        println!(self.rt; "{path}: {test}: {what}: wanted {wanted:?}, found {found:?}")
    }

    /// The same of numbers.
    pub fn compare_number(
        &mut self,
        test: &str,
        what: &str,
        found: u64,
        wanted: u64,
    ) -> io::Result<()> {
        self.values = self.values.saturating_add(1);
        if found == wanted {
            return Ok(());
        }
        self.differ = self.differ.saturating_add(1);
        let path = self.path;
        println!(self.rt; "{path}: {test}: {what}: wanted {wanted}, found {found}")
    }

    /// The same, if the test has such a value.
    pub fn compare_if(
        &mut self,
        test: &str,
        what: &str,
        found: &str,
        wanted: Option<&str>,
    ) -> io::Result<()> {
        match wanted {
            Some(wanted) => self.compare(test, what, found, wanted),
            None => Ok(()),
        }
    }

    /// Counts and prints a value that is no object of the members that it should have.
    pub fn differs(&mut self, test: &str, what: &str) -> io::Result<()> {
        self.compare(
            test,
            what,
            "other members",
            "the members of docs/VECTORS.md",
        )
    }

    /// Prints the counts, and returns whether nothing differs.
    pub fn end(self) -> io::Result<bool> {
        let Tally {
            path,
            tests,
            values,
            differ,
            ..
        } = self;
        println!(self.rt; "{path}: {tests} tests, {values} values, {differ} differ")?;
        Ok(differ == 0)
    }
}
