//! A message, a slow reader, and what a message is to be read as.

ghost use Rattle.std.specs.Prelude.{Some};

use crate::selves::Closed;
use kmip_ttlv::Config;
use kmip_ttlv_base::error::{Error, ErrorKind, ErrorLocation, MalformedTtlvError, SerdeError};
use kmip_ttlv_base::types::{ByteOffset, TtlvType};
use std::alloc::Allocator;
use std::io;
use std::io::Read;

/// A Structure AAAAAA of one Integer BBBBBB, of 3.
pub const MESSAGE: &str = "AAAAAA0100000010BBBBBB02000000040000000300000000";

/// Gives one byte a call, and at one call, counted from 0, fails with a kind instead.
#[derive(Drop)]
pub struct SlowReader<'a> {
    pub bytes: &'a [u8],
    pub calls_before_fault: u64,
    pub kind: io::ErrorKind,
}

impl Read for SlowReader<'_> {
    ghost remaining = { λ r. Some r.bytes.now };

    fn read(&mut self, buf: &mut [u8]) -> io::Result<usize> {
        let calls = self.calls_before_fault;
        self.calls_before_fault = calls.wrapping_sub(1);
        if calls == 0 {
            return Err(io::Error::from(self.kind));
        }
        let most = buf.len().min(1);
        self.bytes.read(&mut buf[..most])
    }
}

/// A reader of one byte a call that never fails.
pub fn slow(bytes: &[u8]) -> SlowReader<'_> {
    SlowReader {
        bytes,
        calls_before_fault: u64::MAX,
        kind: io::ErrorKind::Other,
    }
}

/// What a message is to be read as.
#[derive(Clone, Copy)]
pub enum Wanted {
    /// A message whose one number is this.
    Number(i32),
    /// An error of this size, behind the header of a Structure AAAAAA.
    TooLarge(usize),
    /// An error of this type's code.
    NoType(u8),
    /// An error of the tag CCCCCC where BBBBBB is due, behind its type.
    OtherTag,
    /// An IoError of this kind, at an unknown place.
    Fault(io::ErrorKind),
}

fn is_at<A: Allocator>(
    place: &ErrorLocation<A>,
    offset: u64,
    tag: u32,
    typ: Option<TtlvType>,
    depth: usize,
) -> bool {
    place.offset() == Some(ByteOffset(offset))
        && matches!(place.tag(), Some(found) if *found == tag)
        && place.typ() == typ
        && place.parent_tags().len() == depth
}

fn is_error<A: Allocator>(error: &Error<A>, wanted: Wanted) -> bool {
    let place = error.location();
    match error.kind() {
        ErrorKind::ResponseSizeExceedsLimit(size) => {
            matches!(wanted, Wanted::TooLarge(n) if n == *size)
                && is_at(place, 8, 0xAAAAAA, Some(TtlvType::Structure), 0)
        }
        ErrorKind::MalformedTtlv(MalformedTtlvError::InvalidType(code)) => {
            matches!(wanted, Wanted::NoType(c) if c == *code) && is_at(place, 3, 0xAAAAAA, None, 0)
        }
        ErrorKind::SerdeError(SerdeError::UnexpectedTag { expected, actual }) => {
            matches!(wanted, Wanted::OtherTag)
                && **expected == 0xBBBBBB
                && **actual == 0xCCCCCC
                && is_at(place, 12, 0xCCCCCC, Some(TtlvType::Integer), 1)
        }
        ErrorKind::IoError(fault) => {
            matches!(wanted, Wanted::Fault(kind) if kind == fault.kind()) && place.is_unknown()
        }
        _ => false,
    }
}

/// Whether this is the wanted answer.
pub fn is_wanted<A: Allocator>(found: &Result<Closed, Error<A>>, wanted: Wanted) -> bool {
    match found {
        Ok(single) => matches!(wanted, Wanted::Number(n) if n == single.number),
        Err(error) => is_error(error, wanted),
    }
}

/// Whether this is out of memory, at an unknown place.
pub fn is_memory<A: Allocator>(found: &Result<Closed, Error<A>>) -> bool {
    match found {
        Ok(_) => false,
        Err(error) => {
            matches!(error.kind(), ErrorKind::OutOfMemory) && error.location().is_unknown()
        }
    }
}

/// Whether the kept buffer is these bytes.
pub fn is_kept<A: Allocator>(config: &Config<A>, bytes: &[u8]) -> bool {
    match config.read_buf() {
        Some(kept) => kept.as_slice() == bytes,
        None => false,
    }
}
