//! What a long message of each kind that a sender may choose is read as, and how many bytes that asks of the
//! allocator in all: from a slice, from a stream that gives what it is asked for, and of types that read themselves. And what
//! a stream asks for that states more than it has.

ghost use Rattle.std.specs.Prelude.{Some};

use crate::answer::Of;
use crate::selves::{Closed, Lists};
use crate::stream_samples::{MESSAGE, Wanted, is_wanted};
use kmip_ttlv::{Config, from_reader, from_slice};
use kmip_ttlv_memory::BoundedAllocator;
use sample_shapes::inputs::{EMPTY, NUMBER, OTHER_NUMBER, TEXT, asked, long, repeated, tuples};
use sample_shapes::names::{TagB, TagC};
use sample_shapes::parts::{BigNumber, Number, Octets, OneField, Part, Sequence, Structure, Text};
use sample_shapes::run::Run;
use sample_shapes::shapes::{Asked, Empties, Fields, Numbers, Texts, Tuples};
use std::alloc::{AllocError, Allocator, Global};
use std::io;
use std::io::{ErrorKind, Read};
use std::test::Fail;

const MIB: u32 = 1_048_576;

// Gives as many bytes as it is asked for, and counts the calls.
#[derive(Drop)]
struct Counting<'a> {
    bytes: &'a [u8],
    calls: usize,
}

impl Read for Counting<'_> {
    ghost remaining = { λ r. Some r.bytes.now };

    fn read(&mut self, buf: &mut [u8]) -> io::Result<usize> {
        self.calls = self.calls.saturating_add(1);
        self.bytes.read(buf)
    }
}

// What was found: the elements of a sequence, and the bytes of a string.
type Found = (usize, usize);

fn found<P, A: Allocator, E>(read: &Result<Run<P, A>, E>) -> Option<Found> {
    match read {
        Ok(run) => Some((run.count, run.held)),
        Err(_) => None,
    }
}

// What is read from a slice with memory from here.
fn read_with<P: Part, A: Allocator + Copy>(alloc: A, message: &[u8]) -> Option<Found> {
    found(&from_slice::<Run<P, A>, _>(alloc, message))
}

// What is read from a slice, and what that asks for.
fn by_slice<P: Part>(alloc: Global, message: &[u8]) -> (Option<Found>, usize) {
    let heap = BoundedAllocator::in_blocks(alloc, usize::MAX);
    let read = read_with::<P, _>(&heap, message);
    (read, heap.asked())
}

// What is read from a stream with memory from here.
fn read_by<P: Part, A: Allocator + Copy>(alloc: A, reader: &mut Counting) -> Option<Found> {
    let mut config = Config::new(alloc);
    found(&from_reader::<Run<P, A>, _, _>(alloc, reader, &mut config))
}

// What is read from a stream, what that asks for, and in how many calls of the reader.
fn by_reader<P: Part>(alloc: Global, message: &[u8]) -> (Option<Found>, usize, usize) {
    let heap = BoundedAllocator::in_blocks(alloc, usize::MAX);
    let mut reader = Counting {
        bytes: message,
        calls: 0,
    };
    let read = read_by::<P, _>(&heap, &mut reader);
    (read, heap.asked(), reader.calls)
}

// Fails unless this is found in the message, at no more than this cost. A stream asks for at most three times the message and
// a piece of 65,536 bytes more, since its blocks double, and is called once for each piece and for the header.
fn costs<P: Part>(alloc: Global, message: Vec<u8>, wanted: Found, most: usize) -> Result<(), Fail> {
    let bytes = message.as_slice();
    let (read, cost) = by_slice::<P>(alloc, bytes);
    let (taken, whole, calls) = by_reader::<P>(alloc, bytes);
    let behind = whole.saturating_sub(cost);
    let is_found = read == Some(wanted) && taken == Some(wanted);
    let is_cheap = cost <= most
        && behind <= bytes.len().saturating_mul(3).saturating_add(66_048)
        && calls <= bytes.len() / 65_536 + 2;
    if is_found && is_cheap {
        return Ok(());
    }
    Err(Fail::new(format_args!("{read:?} for {cost}, {taken:?} for {behind} by {calls}")))
}

// A string is copied once. Decoded data takes 72 bytes an item, a sequence doubles as it grows, and a stored text of the ninth
// tag or a later one takes a place in a map; what is ignored takes nothing.
#[test]
fn what_each_kind_of_message_costs(rt: HostRuntime) -> Result<(), Fail> {
    type Structures = Of<Sequence<Structure<TagB, OneField<TagC, Number>>>>;
    let alloc = rt.alloc();
    costs::<Of<Octets>>(alloc, long(alloc, 8, MIB)?, (0, 1_048_576), 1_050_000)?;
    costs::<Of<Text>>(alloc, long(alloc, 7, MIB - 3)?, (0, 1_048_573), 1_050_000)?;
    costs::<Of<BigNumber>>(alloc, long(alloc, 4, MIB)?, (0, 1_048_576), 1_050_000)?;
    costs::<Numbers>(
        alloc,
        repeated(alloc, 24_000, &NUMBER)?,
        (24_000, 0),
        5_000_000,
    )?;
    costs::<Empties>(alloc, repeated(alloc, 4_096, &EMPTY)?, (4_096, 0), 650_000)?;
    costs::<Structures>(alloc, structures(alloc, 4_096)?, (4_096, 0), 950_000)?;
    costs::<Texts>(alloc, repeated(alloc, 4_096, &TEXT)?, (4_096, 0), 950_000)?;
    costs::<Tuples>(alloc, tuples(alloc, 2_048)?, (2_048, 0), 1_100_000)?;
    costs::<Asked>(
        alloc,
        asked(alloc, 65_536, 2_048)?,
        (2_048, 65_536),
        560_000,
    )?;
    costs::<Fields>(
        alloc,
        repeated(alloc, 4_096, &OTHER_NUMBER)?,
        (0, 0),
        40_000,
    )
}

// So many structures BBBBBB, each of a number CCCCCC.
fn structures(alloc: Global, count: u32) -> Result<Vec<u8>, AllocError> {
    let item = *b"\xBB\xBB\xBB\x01\0\0\0\x10\xCC\xCC\xCC\x02\0\0\0\x04\0\0\0\x07\0\0\0\0";
    repeated(alloc, count, &item)
}

// A number, and then so many numbers DDDDDD and texts EEEEEE.
fn lists(alloc: Global, count: u32) -> Result<Vec<u8>, AllocError> {
    let length = count.saturating_mul(32);
    let mut message = Vec::from_array(alloc, [0xAA, 0xAA, 0xAA, 1])?;
    message.extend_from_slice(&length.saturating_add(16).to_be_bytes())?;
    message.extend_from_slice(&NUMBER)?;
    for _ in 0..count {
        message.extend_from_slice(b"\xDD\xDD\xDD\x02\0\0\0\x04\0\0\0\x07\0\0\0\0")?;
    }
    for _ in 0..count {
        message.extend_from_slice(b"\xEE\xEE\xEE\x07\0\0\0\x08Operands")?;
    }
    Ok(message)
}

// How many numbers and texts are read of a message by a type that reads itself, and what that asks for.
fn lists_read(alloc: Global, message: &[u8]) -> (Option<Found>, usize) {
    let heap = BoundedAllocator::in_blocks(alloc, usize::MAX);
    let read = match &from_slice::<Lists<_>, _>(&heap, message) {
        Ok(lists) => Some((lists.marks.len(), lists.texts.len())),
        Err(_) => None,
    };
    (read, heap.asked())
}

#[test]
fn what_a_type_that_reads_itself_costs(rt: HostRuntime) -> Result<(), Fail> {
    let message = lists(rt.alloc(), 2_048)?;
    let (read, cost) = lists_read(rt.alloc(), message.as_slice());
    assert!(rt;
        read == Some((2_048, 2_048)) && cost <= 180_000,
        "{read:?} for {cost}"
    );
    Ok(())
}

// What a stream asks for in all that states this length and has so many bytes of it, and in what block at most; if it ends
// early.
fn cut_takes(
    alloc: Global,
    length: [u8; 4],
    came: usize,
    largest: usize,
) -> Result<bool, AllocError> {
    let mut message = Vec::from_array(alloc, [0xAA, 0xAA, 0xAA, 1])?;
    message.extend_from_slice(&length)?;
    message.resize(8usize.saturating_add(came), 0)?;
    let heap = BoundedAllocator::in_blocks(alloc, largest);
    let mut config = Config::new(&heap).with_read_buf();
    let mut reader = message.as_slice();
    let read = from_reader::<Closed, _, _>(&heap, &mut reader, &mut config);
    Ok(is_wanted(&read, Wanted::Fault(ErrorKind::UnexpectedEof)))
}

// A block is at most 65,536 bytes beyond twice those that came.
#[test]
fn a_stated_length_takes_what_came(rt: HostRuntime) -> Result<(), Fail> {
    for came in [0usize, 1, 1_000, 65_528, 200_000, 1_000_000] {
        for length in [[0xFF; 4], [0x7F, 0xFF, 0xFF, 0xF8], [0, 0x40, 0, 0]] {
            let largest = came.saturating_mul(2).saturating_add(8 + 65_536);
            let is_right = cut_takes(rt.alloc(), length, came, largest)?;
            assert!(rt; is_right, "{came} of {length:?}");
        }
    }
    Ok(())
}

// What a small message asks for that is read from a stream.
fn small_takes(alloc: Global) -> Result<usize, Fail> {
    let message = hex::decode(alloc, MESSAGE)?;
    let heap = BoundedAllocator::in_blocks(alloc, usize::MAX);
    let mut config = Config::new(&heap);
    let mut reader = message.as_slice();
    let read = from_reader::<Closed, _, _>(&heap, &mut reader, &mut config);
    if is_wanted(&read, Wanted::Number(3)) {
        return Ok(heap.asked());
    }
    Err(Fail::new("an error, or another number"))
}

#[test]
fn a_small_message_takes_512_bytes(rt: HostRuntime) -> Result<(), Fail> {
    let cost = small_takes(rt.alloc())?;
    assert!(rt; cost == 512, "{cost}");
    Ok(())
}
