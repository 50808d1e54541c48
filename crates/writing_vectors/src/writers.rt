//! A writer that is slow, fails, or takes nothing, and what writing to it comes to.

use kmip_ttlv::error::ErrorKind;
use kmip_ttlv::shape::Serialize;
use kmip_ttlv::to_writer;
use std::alloc::Global;
use std::io;
use std::io::Write;

/// Keeps what it takes, at most `most` bytes a call, and fails with this kind once its room is used up. It counts the calls; one that
/// waits is interrupted at every other one.
#[derive(Drop)]
pub struct Fake {
    pub taken: Vec<u8>,
    pub calls: usize,
    pub room: usize,
    pub most: usize,
    pub waits: bool,
    pub is_waiting: bool,
    pub kind: io::ErrorKind,
}

impl Fake {
    /// Takes so many bytes, as they come.
    pub fn new(heap: Global, room: usize) -> Fake {
        Fake {
            taken: Vec::new(heap),
            calls: 0,
            room,
            most: usize::MAX,
            waits: false,
            is_waiting: false,
            kind: io::ErrorKind::BrokenPipe,
        }
    }
}

impl Write for Fake {
    fn write(&mut self, buf: &[u8]) -> io::Result<usize> {
        self.calls = self.calls.saturating_add(1);
        self.is_waiting = self.waits && !self.is_waiting;
        if self.is_waiting {
            return Err(io::Error::from(io::ErrorKind::Interrupted));
        }
        if self.room == 0 {
            return Err(io::Error::from(self.kind));
        }
        let count = buf.len().min(self.most).min(self.room);
        self.room -= count;
        self.taken.write(&buf[..count])
    }

    fn flush(&mut self) -> io::Result<()> {
        Ok(())
    }
}

/// Writes a value: none if it is written, and else the kind of the writer's error, `Other` for an error that isn't the writer's.
pub fn failure_of<T: Serialize>(
    heap: Global,
    value: &T,
    writer: &mut Fake,
) -> Option<io::ErrorKind> {
    match &to_writer(heap, value, writer) {
        Ok(()) => None,
        Err(error) => {
            match error.kind() {
                ErrorKind::IoError(cause) => Some(cause.kind()),
                _ => Some(io::ErrorKind::Other),
            }
        }
    }
}
