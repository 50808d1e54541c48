//! The bytes of an input that were read and that nothing was printed of yet.

ghost use Rattle.std.specs.Prelude.{◌≡◌, ◌<◌, ◌≤◌, ◌+◌, true, false, [], ◌++◌, length, take, drop, IsTrue, IfOk, IfErr, OnOk, OnErr, vec_len};
ghost use Rattle.std.specs.Io.KnownBytes.{Consumes, IsAtEnd, Keeps};
ghost use Rattle.kmip_ttlv_items.specs.ItemWalks.{AreBytes};
ghost use Rattle.ttlv_run.specs.Inputs.{IsUnread};
ghost use Rattle.ttlv_run.specs.Backs.{IsOneLine};

use crate::back::line_end;
use crate::messages::size_stated;
use crate::run_error::RunError;
use kmip_ttlv_types::stream::{PIECE, Source};
use std::alloc::{AllocError, Allocator};
use std::io;

// The first bytes of some.
fn front(bytes: &[u8], count: usize) -> &[u8]
    requires { count ≤ length bytes.now }
    ensures are { result.now ≡ take count bytes.now }
    ensures bytes { AreBytes result.now }
{
    &bytes[..count]
}

// Puts so many zeros behind bytes.
fn grow<A: Allocator>(bytes: &mut Vec<u8, A>, more: usize) -> Result<(), AllocError>
    ensures len { OnOk result (vec_len bytes.new ≡ vec_len bytes.old + more) }
    ensures kept { take (vec_len bytes.old) bytes.new.items ≡ bytes.old.items }
{
    bytes.reserve_exact(more)?;
    bytes.resize(bytes.len() + more, 0)
}

// Puts bytes at a place.
fn put(all: &mut [u8], at: usize, bytes: &[u8])
    requires { at + length bytes.now ≤ length all.old }
    ensures { all.new ≡ take at all.old ++ (bytes.now ++ drop (at + length bytes.now) all.old) }
{
    all[at..at + bytes.len()].copy_from_slice(bytes);
}

// Whether a line feed stands behind a place.
fn has_line_feed(bytes: &[u8], at: usize) -> bool
    requires { at ≤ length bytes.now }
    ensures { result ≡ false → IsOneLine (drop at bytes.now) }
{
    let rest = &bytes[at..];
    line_end(rest) < rest.len()
}

// One read into `buf` from a place on.
fn read_at<R: Source>(reader: &mut R, buf: &mut [u8], at: usize) -> io::Result<usize>
    requires { at < length buf.old }
    ensures front { take at buf.new ≡ take at buf.old }
    ensures fits { IfOk result (λ n. at + n ≤ length buf.new) }
    ensures ok { IfOk result (λ n. Consumes (R.left reader.old) (R.left reader.new)
        (take n (drop at buf.new))) }
    ensures end { IfOk result (λ n. n ≡ 0 → IsAtEnd (R.left reader.new)) }
    ensures err { OnErr result (IsTrue R.can_fail × Keeps (R.left reader.old) (R.left reader.new)) }
{
    reader.fill_front(&mut buf[at..])
}

/// Bytes that were read, in front of room for more.
#[derive(Drop)]
pub struct Window<A: Allocator> {
    bytes: Vec<u8, A>,
    count: usize,
    ghost fits: { count ≤ vec_len bytes },
}

impl<A: Allocator> Window<A> {
    ghost use Rattle.ttlv_run.specs.Streaming.{window_bytes, YieldsBy, YieldsLines, LinesFail, YieldsAll};

    /// No bytes. Takes no memory.
    pub fn new(alloc: A) -> Window<A>
        ensures { window_bytes result ≡ [] }
    {
        Window {
            bytes: Vec::new(alloc),
            count: 0,
        }
    }

    /// The bytes that were read and are still needed.
    pub fn buffered(&self) -> &[u8]
        ensures are { result.now ≡ window_bytes self.now }
        ensures bytes { AreBytes result.now }
    {
        front(self.bytes.as_slice(), self.count)
    }

    // For how many bytes room is made: a piece, or as many as are there, but no more than the first message needs.
    fn room_to_ask(&self) -> usize
        ensures { 0 < result }
    {
        let due = match size_stated(self.buffered()) {
            Some(stated) => stated.saturating_sub(self.count),
            None => 0,
        };
        self.count.min(due).max(PIECE)
    }

    // Makes room for so many bytes where there is none for a few.
    fn make_room(&mut self, few: usize, more: usize) -> Result<(), AllocError>
        requires { few ≤ more }
        ensures buffered { window_bytes self.new ≡ window_bytes self.old }
        ensures count { self.new.count ≡ self.old.count }
        ensures room { OnOk result (self.new.count + few ≤ vec_len self.new.bytes) }
    {
        if few <= self.bytes.len() - self.count {
            return Ok(());
        }
        grow(&mut self.bytes, more)
    }

    // Reads once, behind the bytes that are there, into room for so many if there is none.
    fn read_behind<R: Source>(&mut self, input: &mut R, room: usize) -> Result<usize, RunError>
        requires { 0 < room }
        ensures ok { IfOk result (YieldsBy (R.left input.old) (R.left input.new) (window_bytes self.old) (window_bytes self.new)) }
        ensures why { IfErr result (IsUnread R.can_fail) }
        ensures err { OnErr result (Keeps (R.left input.old) (R.left input.new)) }
        ensures same { OnErr result (window_bytes self.new ≡ window_bytes self.old) }
    {
        self.make_room(1, room)?;
        match read_at(input, self.bytes.as_mut_slice(), self.count) {
            Ok(n) => {
                self.count += n;
                Ok(n)
            }
            Err(_) => Err(RunError::UnreadableInput),
        }
    }

    /// Reads once, behind the bytes that are there; gives how many came: none at the input's end.
    pub fn read_more<R: Source>(&mut self, input: &mut R) -> Result<usize, RunError>
        ensures ok { IfOk result (YieldsBy (R.left input.old) (R.left input.new) (window_bytes self.old) (window_bytes self.new)) }
        ensures why { IfErr result (IsUnread R.can_fail) }
        ensures err { OnErr result (Keeps (R.left input.old) (R.left input.new)) }
        ensures same { OnErr result (window_bytes self.new ≡ window_bytes self.old) }
    {
        let room = self.room_to_ask();
        self.read_behind(input, room)
    }

    // For how many bytes room is made behind a line or a value whose end isn't known: a piece, or a quarter of what is there, so that what is
    // there is moved a few times at most, however long the line gets.
    fn room_for_line(&self) -> usize
        ensures { 0 < result }
    {
        PIECE.max(self.count / 4)
    }

    /// Reads once, behind the bytes that are there and are part of a value that goes on; gives how many came: none at the input's end.
    pub fn read_piece<R: Source>(&mut self, input: &mut R) -> Result<usize, RunError>
        ensures ok { IfOk result (YieldsBy (R.left input.old) (R.left input.new) (window_bytes self.old) (window_bytes self.new)) }
        ensures why { IfErr result (IsUnread R.can_fail) }
        ensures err { OnErr result (Keeps (R.left input.old) (R.left input.new)) }
        ensures same { OnErr result (window_bytes self.new ≡ window_bytes self.old) }
    {
        let room = self.room_for_line();
        self.read_behind(input, room)
    }

    /// Reads until a line feed came or the input ended; returns whether it did.
    pub fn read_lines<R: Source>(&mut self, input: &mut R) -> Result<bool, RunError>
        ensures ok { IfOk result (YieldsLines (R.left input.old) (R.left input.new) (window_bytes self.old) (window_bytes self.new)) }
        ensures why { IfErr result (IsUnread R.can_fail) }
        ensures err { OnErr result (LinesFail (R.left input.old) (R.left input.new) (window_bytes self.old) (window_bytes self.new)) }
    {
        'pieces: loop {
            let before = self.buffered().len();
            let room = self.room_for_line();
            if self.read_behind(input, room)? == 0 {
                return Ok(true);
            }
            if has_line_feed(self.buffered(), before) {
                return Ok(false);
            }
        }
    }

    /// Reads all that is left, if the input didn't end before.
    pub fn read_rest<R: Source>(&mut self, ended: bool, input: &mut R) -> Result<(), RunError>
        requires { ended ≡ true → IsAtEnd (R.left input.old) }
        ensures ok { OnOk result (YieldsAll (R.left input.old) (R.left input.new) (window_bytes self.old) (window_bytes self.new)) }
        ensures why { IfErr result (IsUnread R.can_fail) }
    {
        let mut at_end = ended;
        'pieces: while !at_end {
            let room = self.room_for_line();
            at_end = self.read_behind(input, room)? == 0;
        }
        Ok(())
    }

    /// Adds bytes behind those that are there.
    pub fn add(&mut self, bytes: &[u8]) -> Result<(), AllocError>
        ensures ok { OnOk result (window_bytes self.new ≡ window_bytes self.old ++ bytes.now) }
        ensures err { OnErr result (window_bytes self.new ≡ window_bytes self.old) }
    {
        let room = self.room_to_ask().max(bytes.len());
        self.make_room(bytes.len(), room)?;
        put(self.bytes.as_mut_slice(), self.count, bytes);
        self.count += bytes.len();
        Ok(())
    }

    /// Lets go of so many bytes in front.
    pub fn discard(&mut self, count: usize)
        requires { count ≤ length (window_bytes self.old) }
        ensures { window_bytes self.new ≡ drop count (window_bytes self.old) }
    {
        if count == 0 {
            return;
        }
        self.bytes.as_mut_slice().copy_within(count..self.count, 0);
        self.count -= count;
    }
}
