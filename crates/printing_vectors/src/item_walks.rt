//! Walks: items, lists that are too short, and failing allocations.

use hex::FromHexError;
use kmip_ttlv::items::{FoundItem, ItemWalk, Step, find_fault, walk_items};
use kmip_ttlv::types::{TtlvTag, TtlvType};
use kmip_ttlv_memory::BoundedAllocator;
use std::alloc::{Allocator, Global};

const NESTED: &str =
    "420069010000002042006A010000001042006B0200000004000000000000000042006C0700000000";

// Its items.
const ITEMS: [(usize, usize, TtlvType, u32); 4] = [
    (0, 0, TtlvType::Structure, 0x20),
    (8, 1, TtlvType::Structure, 0x10),
    (16, 2, TtlvType::Integer, 4),
    (32, 1, TtlvType::TextString, 0),
];

// The fields that the list above has.
fn parts(item: FoundItem) -> (usize, usize, TtlvType, u32) {
    (item.offset, item.depth, item.typ, item.length)
}

// Whether a list of this length gets the first items of the message, and the rest of it is unchanged.
fn is_listed(alloc: Global, room: usize) -> bool {
    let Ok(bytes) = hex::decode(alloc, NESTED) else {
        return false;
    };
    let Some(other) = unlike() else {
        return false;
    };
    let mut out = [other; 6];
    let Some(lent) = out.get_mut(..room) else {
        return false;
    };
    let end = walk_items(alloc, bytes.as_slice(), lent);
    let Ok(end) = end else {
        return false;
    };
    let mut holds = end.count == 4 && end.fault.is_none();
    for (index, found) in out.iter().enumerate() {
        let wanted = ITEMS.get(index).copied().unwrap_or(parts(other));
        let is_kept = index < room && index < 4;
        holds = holds && parts(*found) == if is_kept { wanted } else { parts(other) };
    }
    holds
}

// An item that is in no message of these tests.
fn unlike() -> Option<FoundItem> {
    Some(FoundItem {
        offset: 7,
        depth: 7,
        tag: TtlvTag::from_number(7)?,
        typ: TtlvType::Interval,
        length: 7,
    })
}

#[test]
fn items(rt: HostRuntime) {
    for room in 0..7 {
        assert!(rt; is_listed(rt.alloc(), room), "{room}");
    }
}

// The next step of a walk, retried if an allocation fails.
fn stepped<A: Allocator>(walk: &mut ItemWalk<'_, A>) -> Option<Step> {
    match walk.next() {
        Ok(step) => Some(step),
        Err(_) => walk.next().ok(),
    }
}

// Whether a walk with one failing allocation returns each item, and then the end, twice.
fn is_stepped(alloc: Global, bytes: &[u8], before: u64) -> bool {
    let heap = BoundedAllocator::failing_after(alloc, before);
    let mut walk = ItemWalk::new(&heap, bytes);
    for wanted in ITEMS {
        match stepped(&mut walk) {
            Some(Step::Item(item)) if parts(item) == wanted => {}
            _ => return false,
        }
    }
    let first = stepped(&mut walk) == Some(Step::End(None));
    let again = stepped(&mut walk) == Some(Step::End(None));
    first && again
}

#[test]
fn steps(rt: HostRuntime) -> Result<(), FromHexError> {
    let bytes = hex::decode(rt.alloc(), NESTED)?;
    for before in 0..4 {
        assert!(rt;
            is_stepped(rt.alloc(), bytes.as_slice(), before),
            "{before}"
        );
    }
    Ok(())
}

// Whether the walk and the check return out of memory if and only if this allocation fails.
fn returns_error(alloc: Global, bytes: &[u8], before: u64) -> bool {
    let heap = BoundedAllocator::failing_after(alloc, before);
    let mut none: [FoundItem; 0] = [];
    let walked = walk_items(&heap, bytes, &mut none).is_err() == heap.has_failed();
    let other = BoundedAllocator::failing_after(alloc, before);
    let checked = find_fault(&other, bytes).is_err() == other.has_failed();
    walked && checked
}

#[test]
fn each_growth_may_fail(rt: HostRuntime) -> Result<(), FromHexError> {
    let bytes = hex::decode(rt.alloc(), NESTED)?;
    for before in 0..4 {
        assert!(rt;
            returns_error(rt.alloc(), bytes.as_slice(), before),
            "{before}"
        );
    }
    Ok(())
}
