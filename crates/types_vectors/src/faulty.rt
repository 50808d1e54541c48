//! Readers and writers that are slow, are interrupted or fail.

ghost use Rattle.std.specs.Prelude.{Some};

use std::io;
use std::io::{ErrorKind, Read, Write};

/// Gives one byte per call; at one call, counted from 0, it fails with a kind instead.
#[derive(Drop)]
pub struct SlowReader<'a> {
    pub bytes: &'a [u8],
    pub calls_before_fault: u64,
    pub kind: ErrorKind,
}

impl Read for SlowReader<'_> {
    ghost remaining = { λ r. Some r.bytes.now };

    fn read(&mut self, buf: &mut [u8]) -> io::Result<usize> {
        let calls = self.calls_before_fault;
        self.calls_before_fault = calls.wrapping_sub(1);
        if calls == 0 {
            return Err(io::Error::from(self.kind));
        }
        let most = buf.len().min(1);
        self.bytes.read(&mut buf[..most])
    }
}

/// Takes one byte per call; at one call, counted from 0, it fails with a kind instead; and once its room is
/// used up it takes nothing.
#[derive(Drop)]
pub struct SlowWriter {
    pub taken: Vec<u8>,
    pub room: usize,
    pub calls_before_fault: u64,
    pub kind: ErrorKind,
}

impl Write for SlowWriter {
    ghost contents = { λ w. Some w.taken.items };

    fn write(&mut self, buf: &[u8]) -> io::Result<usize> {
        let calls = self.calls_before_fault;
        self.calls_before_fault = calls.wrapping_sub(1);
        if calls == 0 {
            return Err(io::Error::from(self.kind));
        }
        if self.room == 0 {
            return Ok(0);
        }
        self.room -= 1;
        let most = buf.len().min(1);
        self.taken.write(&buf[..most])
    }

    fn flush(&mut self) -> io::Result<()> {
        Ok(())
    }
}

/// Gives one byte per call, after it was interrupted a number of times before that byte.
#[derive(Drop)]
pub struct InterruptedReader<'a> {
    pub bytes: &'a [u8],
    pub interruptions: u64,
    pub met: u64,
}

impl Read for InterruptedReader<'_> {
    ghost remaining = { λ r. Some r.bytes.now };

    fn read(&mut self, buf: &mut [u8]) -> io::Result<usize> {
        if self.met < self.interruptions {
            self.met += 1;
            return Err(io::Error::from(ErrorKind::Interrupted));
        }
        self.met = 0;
        let most = buf.len().min(1);
        self.bytes.read(&mut buf[..most])
    }
}

/// Takes one byte per call, after it was interrupted a number of times before that byte.
#[derive(Drop)]
pub struct InterruptedWriter {
    pub taken: Vec<u8>,
    pub interruptions: u64,
    pub met: u64,
}

impl Write for InterruptedWriter {
    ghost contents = { λ w. Some w.taken.items };

    fn write(&mut self, buf: &[u8]) -> io::Result<usize> {
        if self.met < self.interruptions {
            self.met += 1;
            return Err(io::Error::from(ErrorKind::Interrupted));
        }
        self.met = 0;
        let most = buf.len().min(1);
        self.taken.write(&buf[..most])
    }

    fn flush(&mut self) -> io::Result<()> {
        Ok(())
    }
}
