//! Items written: those of a message, made ones, bad ones, and memory that runs out.

use kmip_ttlv_items::{FoundItem, walk_items};
use kmip_ttlv_memory::BoundedAllocator;
use kmip_ttlv_types::{TtlvTag, TtlvType};
use kmip_ttlv_write::{BadItem, BadKind, GiveItem, GivenItem, WriteError, write_into, write_items};
use std::alloc::{AllocError, Global};

// The protocol version 1.0, a structure of two integers, from the standard's worked messages; and the same with padding that
// is not zero.
const VERSION: [u8; 40] =
    *b"\x42\x00\x69\x01\0\0\0\x20\x42\x00\x6A\x02\0\0\0\x04\0\0\0\x01\0\0\0\0\x42\x00\x6B\x02\0\0\0\x04\0\0\0\0\0\0\0\0";

const DIRTY: [u8; 40] =
    *b"\x42\x00\x69\x01\0\0\0\x20\x42\x00\x6A\x02\0\0\0\x04\0\0\0\x01\0\0\0\x05\x42\x00\x6B\x02\0\0\0\x04\0\0\0\0\xFF\0\0\0";

// A Boolean of 2, a text that isn't UTF-8, and the two integers, after eight bytes that nothing reads.
const VALUES: [u8; 32] = *b"........\0\0\0\0\0\0\0\x02\xFF\0\0\0\0\0\0\0\0\0\0\x01\0\0\0\0";

// An item by its offset, depth, tag, type and length.
fn item(offset: usize, depth: usize, tag: u32, typ: u32, length: u32) -> GivenItem {
    GivenItem {
        offset,
        depth,
        tag,
        typ,
        length,
    }
}

// The items of the protocol version, their values among the others.
fn made() -> [GivenItem; 3] {
    [
        item(0, 0, 0x42_0069, 1, 0),
        item(16, 1, 0x42_006A, 2, 4),
        item(20, 1, 0x42_006B, 2, 4),
    ]
}

// Whether these items are written as the protocol version.
fn is_version<T: GiveItem>(alloc: Global, items: &[T], lent: &[u8]) -> bool {
    let Ok(out) = write_items(alloc, items, lent) else {
        return false;
    };
    out.as_slice() == VERSION.as_slice()
}

// An item that no message of these tests has.
fn unlike() -> Option<FoundItem> {
    Some(FoundItem {
        offset: 99,
        depth: 9,
        tag: TtlvTag::from_number(9)?,
        typ: TtlvType::Interval,
        length: 9,
    })
}

// Whether the items that a walk finds in a message are written as the protocol version.
fn is_written_back(alloc: Global, message: &[u8]) -> bool {
    let Some(other) = unlike() else {
        return false;
    };
    let mut found = [other; 3];
    let Ok(end) = walk_items(alloc, message, &mut found) else {
        return false;
    };
    end.count == 3 && is_version(alloc, &found, message)
}

#[test]
fn a_message_is_written_back(rt: HostRuntime) {
    assert!(rt; is_written_back(rt.alloc(), &VERSION));
    assert!(rt; is_written_back(rt.alloc(), &DIRTY));
    assert!(rt; is_version(rt.alloc(), &made(), &VALUES));
}

// An item's offset, depth, tag, type and length, and what is wrong with it.
type Row = (usize, usize, u32, u32, u32, BadKind);

// Rows for each kind, and for the first of several: the last item of three, of which the others are good.
const BAD: [Row; 12] = [
    (0, 2, 0x42_0020, 2, 4, BadKind::NotInside),
    (99, 2, 0x100_0000, 0, 5, BadKind::NotInside),
    (0, 1, 0x100_0000, 2, 4, BadKind::LongTag),
    (0, 1, 0x42_0020, 0, 4, BadKind::UnknownType),
    (0, 1, 0x42_0020, 0x102, 4, BadKind::UnknownType),
    (99, 1, 0x42_0020, 9, 4, BadKind::WrongLength),
    (0, 1, 0x42_0020, 6, 9, BadKind::WrongLength),
    (21, 1, 0x42_0020, 2, 4, BadKind::Outside),
    (25, 1, 0x42_0020, 8, 0, BadKind::Outside),
    (
        0xFFFF_FFFF_FFFF_FFFF,
        1,
        0x42_0020,
        8,
        0xFFFF_FFFF,
        BadKind::Outside,
    ),
    (0, 1, 0x42_0020, 6, 8, BadKind::InvalidValue),
    (8, 1, 0x42_0020, 7, 1, BadKind::InvalidValue),
];

// Whether the error names the third item, and a buffer stays as it was.
fn is_bad(alloc: Global, last: GivenItem, kind: BadKind) -> bool {
    let [root, first, _] = made();
    let items = [root, first, last];
    let wanted = BadItem { index: 2, kind };
    let mut out = [7; 64];
    let named = write_into(&items, &VALUES, &mut out) == Err(wanted);
    let Err(error) = write_items(alloc, &items, &VALUES) else {
        return false;
    };
    named && out == [7; 64] && error == WriteError::Bad(wanted)
}

#[test]
fn the_first_bad_item_is_named(rt: HostRuntime) {
    for (offset, depth, tag, typ, length, kind) in BAD {
        let last = item(offset, depth, tag, typ, length);
        assert!(rt; is_bad(rt.alloc(), last, kind), "{kind:?}");
    }
}

// Whether a buffer with enough room gets the protocol version and any other stays; its length is returned for both.
fn is_put(room: usize) -> bool {
    let mut out = [7; 64];
    let Some(lent) = out.get_mut(..room) else {
        return false;
    };
    let written = write_into(&made(), &VALUES, lent) == Ok(40);
    let mut wanted = [7; 64];
    if 40 <= room {
        wanted[..40].copy_from_slice(&VERSION);
    }
    written && out == wanted
}

#[test]
fn a_buffer_is_filled_if_it_has_room(rt: HostRuntime) {
    for room in [0, 8, 39, 40, 41, 64] {
        assert!(rt; is_put(room), "{room}");
    }
}

// Whether writing fails if and only if this growth fails.
fn returns_error(alloc: Global, before: u64) -> bool {
    let heap = BoundedAllocator::failing_after(alloc, before);
    match write_items(&heap, &made(), &VALUES) {
        Ok(out) => !heap.has_failed() && out.as_slice() == VERSION.as_slice(),
        Err(error) => heap.has_failed() && error == WriteError::OutOfMemory,
    }
}

#[test]
fn each_growth_may_fail(rt: HostRuntime) {
    for before in 0..3 {
        assert!(rt; returns_error(rt.alloc(), before), "{before}");
    }
}

// A thousand structures, each within the one before.
fn nested() -> [GivenItem; 1_000] {
    let mut items = [item(0, 0, 0x42_0069, 1, 0); 1_000];
    for (depth, item) in items.iter_mut().enumerate() {
        item.depth = depth;
    }
    items
}

// Whether this is the header of a structure of this length.
fn is_header(header: &[u8], length: u32) -> bool {
    match header {
        [_, _, _, typ, a, b, c, d] => {
            *typ == 1 && u32::from_be_bytes([*a, *b, *c, *d]) == length
        }
        _ => false,
    }
}

// Whether these are headers of structures: each length is less by eight.
fn lengths_fall(headers: &[u8], first: u32) -> bool {
    let mut wanted = first;
    for header in headers.chunks(8) {
        wanted = wanted.saturating_sub(8);
        if !is_header(header, wanted) {
            return false;
        }
    }
    true
}

fn is_nested(alloc: Global) -> bool {
    match &write_items(alloc, &nested(), &[]) {
        Ok(out) => out.len() == 8_000 && lengths_fall(out.as_slice(), 8_000),
        Err(_) => false,
    }
}

#[test]
fn structures_nest(rt: HostRuntime) {
    assert!(rt; is_nested(rt.alloc()));
}

// A structure of so many integers of 1.
fn flat(alloc: Global, count: u32) -> Result<Vec<GivenItem>, AllocError> {
    let mut items = Vec::from_slice(alloc, &[item(0, 0, 0x42_0069, 1, 0)])?;
    let all = (count as usize).saturating_add(1);
    items.resize(all, item(16, 1, 0x42_006A, 2, 4))?;
    Ok(items)
}

// Its bytes.
fn flat_bytes(alloc: Global, count: u32) -> Result<Vec<u8>, AllocError> {
    let mut bytes = Vec::from_array(alloc, [0x42, 0, 0x69, 1])?;
    bytes.extend_from_slice(&count.saturating_mul(16).to_be_bytes())?;
    for _ in 0..count {
        bytes.extend_from_slice(b"\x42\0\x6A\x02\0\0\0\x04\0\0\0\x01\0\0\0\0")?;
    }
    Ok(bytes)
}

// Whether items are written as these bytes, and that asks for no more memory than they have.
fn asks_for_bytes(alloc: Global, items: &[GivenItem], wanted: &[u8]) -> bool {
    let memory = BoundedAllocator::in_blocks(alloc, usize::MAX);
    let is_written = match &write_items(&memory, items, &VALUES) {
        Ok(out) => out.as_slice() == wanted,
        Err(_) => false,
    };
    is_written && memory.asked() <= wanted.len()
}

// Whether that is so of a structure of so many integers.
fn is_flat(alloc: Global, count: u32) -> bool {
    match (&flat(alloc, count), &flat_bytes(alloc, count)) {
        (Ok(items), Ok(bytes)) => asks_for_bytes(alloc, items, bytes),
        _ => false,
    }
}

#[test]
fn any_number_of_items(rt: HostRuntime) {
    for count in 0..=40u32 {
        assert!(rt; is_flat(rt.alloc(), count), "{count}");
    }
    assert!(rt; is_flat(rt.alloc(), 5_000));
}
