//! Bytes are read from a reader or from memory, and written to a writer or into memory.
//!
//! A call of a reader or a writer that is interrupted is repeated, as often as a 64-bit count
//! allows. A reader or a writer can fail at any time; memory that has the bytes, or the room,
//! can't. The contracts of `Source` and `Sink` tell the two apart. A slice, a cursor or a vector
//! that is passed as a reader or a writer counts as one; `MemorySource`, `MemoryCursor` and
//! `MemorySink` are the memory that can't fail.

ghost use Rattle.std.specs.Prelude.{◌≡◌, ℕ, List, Bool, true, false, Option, None, Some, ◌<◌, ◌≤◌, ◌-◌, ◌+◌, ◌^◌};
ghost use Rattle.std.specs.Prelude.{length, take, drop, IfOk, IfErr, OnOk, OnErr, IsTrue, min, max, vec_len, vec_items, vec_capacity};
ghost use Rattle.std.specs.Io.{ReadsAtMost, WritesAtMost};
ghost use Rattle.std.specs.Io.Cursor.{cursor_position, cursor_inner, cursor_remaining};
ghost use Rattle.std.specs.Io.KnownBytes.{Appends, Consumes, IsAtEnd, Keeps};
ghost use Rattle.kmip_ttlv_types.specs.Streams.{AppendsFront, Fills, FillsAll, Takes, TakesAll, TakesMore, UsesRoom, IsTight};

use crate::error::Error;
use std::alloc::{AllocError, Allocator, Global};
use std::io;
use std::io::{AsBytes, Cursor, ErrorKind, Read, Write};

/// How filling a buffer ended.
#[derive(Drop)]
pub enum Filled {
    /// The buffer is full.
    Full,
    /// The input ended before the buffer was full.
    Ended,
    /// Reading failed before the buffer was full.
    Failed(io::Error),
}

/// What bytes are read from: any reader, or memory.
pub trait Source {
    // The bytes that are left, if they are known.
    ghost left: { Self → Option (List ℕ) };

    // Whether a call can fail though the bytes are there.
    ghost can_fail: { Bool };

    /// Fills the buffer with the next bytes. If that fails, some may have been consumed.
    fn fill(&mut self, buf: &mut [u8]) -> Filled
        ensures { Fills can_fail (left self.old) (left self.new) result buf.new };

    /// Fills a beginning of the buffer with the next bytes, and returns how many: none at the end of the input alone, or if the
    /// buffer is empty.
    fn fill_front(&mut self, buf: &mut [u8]) -> io::Result<usize>
        ensures bound { ReadsAtMost result buf.new }
        ensures ok { IfOk result (λ n. Consumes (left self.old) (left self.new) (take n buf.new)) }
        ensures end { IfOk result (λ n. n ≡ 0 → 0 < length buf.old → IsAtEnd (left self.new)) }
        ensures err { OnErr result (IsTrue can_fail × Keeps (left self.old) (left self.new)) };
}

/// What bytes are written to: any writer, or memory.
pub trait Sink {
    // The bytes that were emitted into it, if they are known.
    ghost emitted: { Self → Option (List ℕ) };

    // How many more bytes it has room for, if that is known.
    ghost room: { Self → Option ℕ };

    /// Writes all of the bytes. If that fails, a beginning of them may have been written.
    ///
    /// A writer that takes no byte is an error of kind `WriteZero`.
    fn send(&mut self, bytes: &[u8]) -> io::Result<()>
        ensures ok { OnOk result (Appends (emitted self.old) (emitted self.new) bytes.now) }
        ensures err { OnErr result (AppendsFront (emitted self.old) (emitted self.new) bytes.now) }
        ensures room { OnOk result (UsesRoom (room self.old) (room self.new) (length bytes.now)) }
        ensures tight { OnErr result (IsTight (room self.old) (length bytes.now)) };
}

impl<R: Read> Source for R {
    ghost left = { λ r. R.remaining r };

    ghost can_fail = { true };

    fn fill(&mut self, buf: &mut [u8]) -> Filled {
        fill_from(self, buf)
    }

    fn fill_front(&mut self, buf: &mut [u8]) -> io::Result<usize> {
        read_some(self, buf)
    }
}

impl<W: Write> Sink for W {
    ghost emitted = { λ w. W.contents w };

    ghost room = { λ _. None };

    fn send(&mut self, bytes: &[u8]) -> io::Result<()> {
        send_to(self, bytes)
    }
}

/// Bytes in memory, as a source. What was read is taken off the front of the slice.
///
/// ```
/// let mut source = MemorySource(b"\x42\0\x20\x02");
/// let tag = TtlvTag::read(&mut source)?;
/// assert!(rt; source.0 == b"\x02".as_slice());
/// ```
#[derive(Drop)]
pub struct MemorySource<'a>(pub &'a [u8]);

impl Source for MemorySource<'_> {
    ghost left = { λ s. Some s.0.now };

    ghost can_fail = { false };

    fn fill(&mut self, buf: &mut [u8]) -> Filled {
        let all: &[u8] = self.0;
        if all.len() < buf.len() {
            return Filled::Ended;
        }
        let (front, rest) = all.split_at(buf.len());
        buf.copy_from_slice(front);
        self.0 = rest;
        Filled::Full
    }

    fn fill_front(&mut self, buf: &mut [u8]) -> io::Result<usize> {
        let all: &[u8] = self.0;
        let count = copy_front(all, buf);
        self.0 = &all[count..];
        Ok(count)
    }
}

/// A vector, as a sink: bytes are appended, and the vector grows if it has no room.
///
/// ```
/// let mut sink = MemorySink(Vec::with_capacity(alloc, 16)?);
/// TtlvTag::from([0x42, 0x00, 0x20]).write(&mut sink)?;
/// TtlvInteger(8).write(&mut sink)?;
/// assert!(rt; sink.0.as_slice() == b"\x42\0\x20\x02\0\0\0\x04\0\0\0\x08\0\0\0\0".as_slice());
/// ```
#[derive(Drop)]
pub struct MemorySink<A: Allocator = Global>(pub Vec<u8, A>);

impl<A: Allocator> Sink for MemorySink<A> {
    ghost emitted = { λ s. Some s.0.items };

    ghost room = { λ s. Some (vec_capacity s.0 - vec_len s.0) };

    /// An error of kind `OutOfMemory` if there is no room and the vector can't grow.
    fn send(&mut self, bytes: &[u8]) -> io::Result<()> {
        self.0.extend_from_slice(bytes)?;
        Ok(())
    }
}

/// A cursor over bytes in memory. It is a source, from its position on. Over a borrowed mutable slice it is
/// a sink too, from its position on, with the slice's length as its limit.
///
/// ```
/// let mut source = MemoryCursor(Cursor::new(b"\x42\0\x20\x02".as_slice()));
/// let tag = TtlvTag::read(&mut source)?;
/// assert_eq!(rt; source.0.position(), 3);
/// ```
#[derive(Drop)]
pub struct MemoryCursor<T>(pub Cursor<T>);

impl<T: AsBytes> Source for MemoryCursor<T> {
    ghost left = { λ c. cursor_remaining T.bytes c.0 };

    ghost can_fail = { false };

    fn fill(&mut self, buf: &mut [u8]) -> Filled {
        let at = self.0.position();
        let all = self.0.get_ref().as_byte_slice();
        let rest = rest_from(all, at);
        if rest.len() < buf.len() {
            return Filled::Ended;
        }
        buf.copy_from_slice(&rest[..buf.len()]);
        self.0.set_position(at.saturating_add(buf.len() as u64));
        Filled::Full
    }

    fn fill_front(&mut self, buf: &mut [u8]) -> io::Result<usize> {
        let at = self.0.position();
        let all = self.0.get_ref().as_byte_slice();
        let count = copy_front(rest_from(all, at), buf);
        self.0.set_position(at.saturating_add(count as u64));
        Ok(count)
    }
}

impl Sink for MemoryCursor<&mut [u8]> {
    ghost emitted = { λ c. Some (take (cursor_position c.0) (cursor_inner c.0).now) };

    ghost room = { λ c. Some (length (cursor_inner c.0).now - cursor_position c.0) };

    /// An error of kind `WriteZero` if there isn't room for all of the bytes: those that fit are written.
    fn send(&mut self, bytes: &[u8]) -> io::Result<()> {
        if bytes.is_empty() {
            return Ok(());
        }
        if self.0.get_ref().len() as u64 <= self.0.position() {
            return Err(io::Error::from(ErrorKind::WriteZero));
        }
        let sent = self.0.write(bytes)?;
        if sent < bytes.len() {
            return Err(io::Error::from(ErrorKind::WriteZero));
        }
        Ok(())
    }
}

// The bytes from an offset on; none if it is past the end.
fn rest_from(all: &[u8], at: u64) -> &[u8]
    ensures rest { result.now ≡ drop at all.now }
    ensures len { length result.now ≡ length all.now - at }
{
    let start = (at as usize).min(all.len());
    &all[start..]
}

// Copies as many of the bytes as the buffer has room for, and returns how many.
fn copy_front(bytes: &[u8], buf: &mut [u8]) -> usize
    ensures count { result ≡ min (length bytes.now) (length buf.old) }
    ensures len { length buf.new ≡ length buf.old }
    ensures front { take result buf.new ≡ take result bytes.now }
{
    let count = bytes.len().min(buf.len());
    buf[..count].copy_from_slice(&bytes[..count]);
    count
}

/// One read. If it is interrupted, it is repeated, as often as a 64-bit count allows.
pub fn read_some<R: Read>(reader: &mut R, buf: &mut [u8]) -> io::Result<usize>
    ensures bound { ReadsAtMost result buf.new }
    ensures ok { IfOk result (λ n. Consumes (R.remaining reader.old) (R.remaining reader.new) (take n buf.new)) }
    ensures end { IfOk result (λ n. n ≡ 0 → 0 < length buf.old → IsAtEnd (R.remaining reader.new)) }
    ensures err { OnErr result (Keeps (R.remaining reader.old) (R.remaining reader.new)) }
{
    for _ in 0..u64::MAX {
        match reader.read(buf) {
            Ok(n) => return Ok(n),
            Err(e) => {
                if e.kind() != ErrorKind::Interrupted {
                    return Err(e);
                }
            }
        }
    }
    Err(io::Error::from(ErrorKind::Interrupted))
}

/// One write. If it is interrupted, it is repeated, as often as a 64-bit count allows.
pub fn write_some<W: Write>(writer: &mut W, bytes: &[u8]) -> io::Result<usize>
    ensures bound { WritesAtMost result bytes.now }
    ensures ok { IfOk result (λ n. Appends (W.contents writer.old) (W.contents writer.new) (take n bytes.now)) }
    ensures err { OnErr result (Keeps (W.contents writer.old) (W.contents writer.new)) }
{
    for _ in 0..u64::MAX {
        match writer.write(bytes) {
            Ok(n) => return Ok(n),
            Err(e) => {
                if e.kind() != ErrorKind::Interrupted {
                    return Err(e);
                }
            }
        }
    }
    Err(io::Error::from(ErrorKind::Interrupted))
}

// One read into `buf`, from the index `at` on.
fn read_at<R: Read>(reader: &mut R, buf: &mut [u8], at: usize) -> io::Result<usize>
    requires { at < length buf.old }
    ensures front { take at buf.new ≡ take at buf.old }
    ensures fits { IfOk result (λ n. at + n ≤ length buf.new) }
    ensures ok { IfOk result (λ n. Consumes (R.remaining reader.old) (R.remaining reader.new)
        (take n (drop at buf.new))) }
    ensures end { IfOk result (λ n. n ≡ 0 → IsAtEnd (R.remaining reader.new)) }
    ensures err { OnErr result (Keeps (R.remaining reader.old) (R.remaining reader.new)) }
{
    read_some(reader, &mut buf[at..])
}

// Fills `buf` from a reader.
fn fill_from<R: Read>(reader: &mut R, buf: &mut [u8]) -> Filled
    ensures { Fills true (R.remaining reader.old) (R.remaining reader.new) result buf.new }
{
    let mut filled = 0;
    while filled < buf.len() {
        match read_at(reader, buf, filled) {
            Ok(0) => return Filled::Ended,
            Ok(n) => filled += n,
            Err(e) => return Filled::Failed(e),
        }
    }
    Filled::Full
}

// Writes all of `bytes`, or a beginning of them if the writer fails or takes no byte.
fn send_to<W: Write>(writer: &mut W, bytes: &[u8]) -> io::Result<()>
    ensures ok { OnOk result (Appends (W.contents writer.old) (W.contents writer.new) bytes.now) }
    ensures err { OnErr result (AppendsFront (W.contents writer.old) (W.contents writer.new) bytes.now) }
{
    let mut sent = 0;
    while sent < bytes.len() {
        match write_some(writer, &bytes[sent..]) {
            Ok(0) => return Err(io::Error::from(ErrorKind::WriteZero)),
            Ok(n) => sent += n,
            Err(e) => return Err(e),
        }
    }
    Ok(())
}

/// Fills the buffer.
///
/// Fails with `IoError`: of kind `UnexpectedEof` if the input ends too early, of the reader's kind if reading
/// fails.
///
/// ```
/// let mut header = [0u8; 8];
/// fill_all(&mut source, &mut header)?;
/// ```
pub fn fill_all<S: Source>(source: &mut S, buf: &mut [u8]) -> Result<(), Error>
    ensures { FillsAll S.can_fail (S.left source.old) (S.left source.new) buf.new result }
{
    match source.fill(buf) {
        Filled::Full => Ok(()),
        Filled::Ended => Err(Error::IoError(io::Error::from(ErrorKind::UnexpectedEof))),
        Filled::Failed(e) => Err(Error::IoError(e)),
    }
}

/// The most bytes, 65,536, that are read at once, and the most that are allocated before any came.
pub const PIECE: usize = 65_536;

// How many bytes to allocate behind `len` bytes that came, if `due` are still to come: as many as came, so
// that they are moved rarely, but at least a piece, and never more than are due.
fn room_to_ask(len: usize, due: usize) -> usize
    ensures { result ≡ min (max len PIECE) due }
{
    len.max(PIECE).min(due)
}

// Makes sure of room for the next piece of the `due` bytes. A vector without that room grows by `room_to_ask`.
fn reserve_piece<A: Allocator>(bytes: &mut Vec<u8, A>, due: usize) -> Result<(), AllocError>
    ensures items { bytes.new.items ≡ bytes.old.items }
    ensures room { OnOk result (vec_len bytes.new + min due PIECE ≤ vec_capacity bytes.new) }
    ensures grown { OnOk result (vec_capacity bytes.old < vec_len bytes.old + min due PIECE
        → vec_len bytes.new + min (max (vec_len bytes.new) PIECE) due ≤ vec_capacity bytes.new) }
{
    let len = bytes.len();
    if bytes.capacity() - len < due.min(PIECE) {
        bytes.reserve_exact(room_to_ask(len, due))?;
    }
    Ok(())
}

// Appends `more` zeros, to be overwritten by the next of the `due` bytes.
fn grow<A: Allocator>(bytes: &mut Vec<u8, A>, more: usize, due: usize) -> Result<(), AllocError>
    requires { more ≤ min due PIECE }
    ensures len { OnOk result (vec_len bytes.new ≡ vec_len bytes.old + more) }
    ensures kept { take (vec_len bytes.old) bytes.new.items ≡ bytes.old.items }
{
    reserve_piece(bytes, due)?;
    bytes.resize(bytes.len() + more, 0)
}

// Fills the vector from the index `at` on.
fn fill_rest<S: Source, A: Allocator>(
    source: &mut S,
    bytes: &mut Vec<u8, A>,
    at: usize,
) -> Result<(), Error>
    requires { at ≤ vec_len bytes.old }
    ensures len { vec_len bytes.new ≡ vec_len bytes.old }
    ensures front { take at bytes.new.items ≡ take at bytes.old.items }
    ensures rest { FillsAll S.can_fail (S.left source.old) (S.left source.new) (drop at bytes.new.items) result }
{
    let all = bytes.as_mut_slice();
    fill_all(source, &mut all[at..])
}

// Reads `count` bytes, of `due` that are still to come, and appends them. The vector grows at most once.
fn append_piece<S: Source, A: Allocator>(
    source: &mut S,
    bytes: &mut Vec<u8, A>,
    count: usize,
    due: usize,
) -> Result<(), Error>
    requires some { 0 < count }
    requires within { count ≤ min due PIECE }
    ensures takes { TakesMore S.can_fail (S.left source.old) (S.left source.new)
        bytes.old.items bytes.new.items count result }
    ensures kept { take (vec_len bytes.old) bytes.new.items ≡ bytes.old.items }
{
    let at = bytes.len();
    grow(bytes, count, due)?;
    fill_rest(source, bytes, at)
}

/// Reads `count` bytes and appends them to `bytes`, which grows as they come.
///
/// It allocates at most 65,536 bytes more than twice those that are there, whatever `count` is, and never
/// more than `count` bytes need.
///
/// Fails with `IoError`, of kind `UnexpectedEof` if the input ends too early and of the reader's kind if
/// reading fails, or with `OutOfMemory`. Any bytes may then follow those that were there.
///
/// ```
/// let mut bytes = Vec::from_slice(alloc, b"\x42\0\x20")?;
/// append_bytes(&mut MemorySource(b"\x02\0\0\0\x04"), &mut bytes, 5)?;
/// assert!(rt; bytes.as_slice() == b"\x42\0\x20\x02\0\0\0\x04".as_slice());
/// ```
pub fn append_bytes<S: Source, A: Allocator>(
    source: &mut S,
    bytes: &mut Vec<u8, A>,
    count: usize,
) -> Result<(), Error>
    ensures takes { TakesMore S.can_fail (S.left source.old) (S.left source.new)
        bytes.old.items bytes.new.items count result }
    ensures kept { take (vec_len bytes.old) bytes.new.items ≡ bytes.old.items }
{
    let mut due = count;
    while 0 < due {
        let piece = due.min(PIECE);
        append_piece(source, bytes, piece, due)?;
        due -= piece;
    }
    Ok(())
}

/// Reads `len` bytes into a vector that grows as they come. It allocates at most 65,536 bytes more than twice
/// those that came, and never more than `len`.
///
/// Fails with `IoError`, of kind `UnexpectedEof` if the input ends too early and of the reader's kind if
/// reading fails, or with `OutOfMemory`.
///
/// ```
/// let mut source = MemorySource(b"\x01\x02\x03\xFF");
/// assert!(rt; take_bytes(alloc, &mut source, 3)?.as_slice() == b"\x01\x02\x03".as_slice());
/// ```
pub fn take_bytes<S: Source, A: Allocator>(
    alloc: A,
    source: &mut S,
    len: usize,
) -> Result<Vec<u8, A>, Error>
    ensures { Takes vec_items S.can_fail (S.left source.old) (S.left source.new) len result }
{
    let mut bytes = Vec::new(alloc);
    append_bytes(source, &mut bytes, len)?;
    Ok(bytes)
}

/// How many bytes `take_all` reads at once: on the stack.
const FRONT: usize = 4_096;

/// Reads all bytes that are left into a vector that grows as they come.
///
/// Fails with `IoError`, of the reader's kind, if reading fails, or with `OutOfMemory`.
///
/// ```
/// let mut source = MemorySource(b"\x01\x02\x03");
/// assert!(rt; take_all(alloc, &mut source)?.as_slice() == b"\x01\x02\x03".as_slice());
/// ```
pub fn take_all<S: Source, A: Allocator>(alloc: A, source: &mut S) -> Result<Vec<u8, A>, Error>
    ensures { TakesAll vec_items S.can_fail (S.left source.old) (S.left source.new) result }
{
    let mut bytes = Vec::new(alloc);
    let mut front = [0; FRONT];
    'pieces: loop {
        let count = source.fill_front(&mut front)?;
        if count == 0 {
            return Ok(bytes);
        }
        bytes.extend_from_slice(&front[..count])?;
    }
}
