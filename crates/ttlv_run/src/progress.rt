//! How far the reading of a long input is, reported as it goes.

ghost use Rattle.std.specs.Prelude.{◌≡◌};

use itoa::Buffer;
use kmip_ttlv_types::stream::Sink;
use std::io;
use std::io::{Read, Write};

/// The bytes of a mebibyte.
const MEBIBYTE: u64 = 1_048_576;

/// A reader that reports, each time when a mebibyte more was read, how many were: in one line, which is
/// written over and over, by whatever comes next too, and cleared where the input ends or can't be read.
///
/// The bytes are those of the reader that it stands in front of. Where the line can't be written, that
/// changes nothing else.
#[derive(Drop)]
pub struct Progress<R, E> {
    input: R,
    errors: E,
    total: Option<u64>,
    read: u64,
    reported: u64,
    shown: bool,
}

impl<R, E> Progress<R, E> {
    /// A reader in front of another, of so many bytes if that is known. It reports nothing if it is not
    /// `shown`, as where `errors` is no terminal.
    pub fn new(input: R, errors: E, total: Option<u64>, shown: bool) -> Self {
        Progress {
            input,
            errors,
            total,
            read: 0,
            reported: 0,
            shown,
        }
    }
}

impl<R: Read, E: Write> Progress<R, E> {
    // Reports how many mebibytes were read.
    fn report(&mut self)
        ensures { self.new.input ≡ self.old.input }
    {
        let _ = self
            .errors
            .send(Buffer::new().format(self.reported).as_bytes());
        if let Some(total) = self.total {
            let _ = self.errors.send(b" of ");
            let _ = self
                .errors
                .send(Buffer::new().format(total / MEBIBYTE).as_bytes());
        }
        let _ = self.errors.send(b" MiB read\r");
    }

    // Counts bytes that were read.
    fn count(&mut self, bytes: u64)
        ensures { self.new.input ≡ self.old.input }
    {
        self.read = self.read.saturating_add(bytes);
        let whole = self.read / MEBIBYTE;
        if self.shown && self.reported < whole {
            self.reported = whole;
            self.report();
        }
    }

    // Clears the line, if there is one.
    fn clear(&mut self)
        ensures { self.new.input ≡ self.old.input }
    {
        if self.reported > 0 {
            let _ = self.errors.send(b"\x1b[K");
            self.reported = 0;
        }
    }
}

impl<R: Read, E: Write> Read for Progress<R, E> {
    ghost remaining = { λ s. R.remaining s.input };

    fn read(&mut self, buf: &mut [u8]) -> io::Result<usize> {
        let read = self.input.read(buf);
        match &read {
            Ok(bytes) if *bytes > 0 => self.count(*bytes as u64),
            _ => self.clear(),
        }
        read
    }
}
