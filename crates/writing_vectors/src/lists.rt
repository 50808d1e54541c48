//! Messages that are lists of parts: with parts of every count and element, they are encoded, decoded, judged and compared, or memory
//! runs out; and what their bytes must not be.

use crate::bytes::{MANY, NAMED, comes_back, joined};
use kmip_ttlv::error::{Error, Result};
use kmip_ttlv::laws::Sound;
use kmip_ttlv::memory::BoundedAllocator;
use kmip_ttlv::reader::{BigNumber, DateTime, Interval};
use kmip_ttlv::types::ByteOffset;
use kmip_ttlv::{Boxed, from_slice, to_vec};
use sample_shapes::rereads::comes_back_in;
use std::alloc::{AllocError, Allocator, Global};
use ttlv_vectors::lists::{Binder, Many, Named, Reason, Remark};

// The parts of a message, in their order: a label, a remark, the numbers -1 and 2^62, FFFE and no byte, and -2^63. The parts between
// are `NAMED`, and `MANY` twice.
const LABEL: &str = "54009107000000075368656C66203300";

const REMARK: &str =
    "54008101000000205400820700000004576F726E0000000054000705000000048000000100000000";

const NUMBERS: &str = "5400030300000008FFFFFFFFFFFFFFFF54000303000000084000000000000000";

const CONTENTS: &str = "5400220800000002FFFE0000000000005400220800000000";

const BIG: &str = "54002304000000088000000000000000";

const ALL: [&str; 9] = [
    "5400900100000188",
    LABEL,
    REMARK,
    NAMED,
    NUMBERS,
    CONTENTS,
    BIG,
    MANY,
    MANY,
];

// The number 7, and an Interval, which is none of the parts.
const SEVEN: &str = "54000303000000080000000000000007";

const SECOND: &str = "5400060A000000040000000100000000";

const LEAVES: Many = Many {
    count: -2,
    other: 5,
    long: i64::MAX,
    date: DateTime(0x4AFB_E7C2),
    truth: true,
    seconds: Interval(3600),
};

fn named<A: Allocator + Copy>(alloc: A) -> std::result::Result<Named<A>, AllocError> {
    Ok(Named {
        name: String::from_str(alloc, "Text")?,
        count: -2,
        date: DateTime(0x4AFB_E7C2),
    })
}

fn remark(alloc: Global) -> std::result::Result<Remark, AllocError> {
    Ok(Remark {
        text: String::from_str(alloc, "Worn")?,
        reason: Reason {
            number: 0x8000_0001,
        },
    })
}

// A message of what is always there: a remark, a number, and a large number of these bytes.
fn small(alloc: Global, big: &[u8]) -> std::result::Result<Binder, AllocError> {
    let mut numbers = Vec::new(alloc);
    numbers.push(7i64)?;
    Ok(Binder {
        label: None,
        first: remark(alloc)?,
        named: None,
        numbers,
        contents: Vec::new(alloc),
        big: BigNumber {
            bytes: Vec::from_slice(alloc, big)?,
        },
        many: Vec::new(alloc),
    })
}

// A message of all parts.
fn whole(alloc: Global) -> std::result::Result<Binder, AllocError> {
    let mut binder = small(alloc, &[0x80, 0, 0, 0, 0, 0, 0, 0])?;
    binder.label = Some(String::from_str(alloc, "Shelf 3")?);
    binder.named = Some(Boxed::new(alloc, named(alloc)?)?);
    binder.numbers.clear();
    binder.numbers.push(-1)?;
    binder.numbers.push(1 << 62)?;
    binder
        .contents
        .push(Vec::from_slice(alloc, &[0xFF, 0xFE])?)?;
    binder.contents.push(Vec::new(alloc))?;
    binder.many.push(LEAVES)?;
    binder.many.push(LEAVES)?;
    Ok(binder)
}

// Whether a message is written as these parts, and read of them.
fn is_both_ways(
    alloc: Global,
    binder: &std::result::Result<Binder, AllocError>,
    parts: &[&str],
) -> bool {
    let (Ok(binder), Ok(bytes)) = (binder, &joined(alloc, parts)) else {
        return false;
    };
    let written =
        matches!(&to_vec(alloc, binder), Ok(found) if found.as_slice() == bytes.as_slice());
    let read: Result<Binder> = from_slice(alloc, bytes);
    written && matches!(&read, Ok(found) if *found == *binder)
}

fn messages_are_both_ways(alloc: Global) -> bool {
    let parts = ["5400900100000048", REMARK, SEVEN, BIG];
    is_both_ways(alloc, &small(alloc, &[0x80, 0, 0, 0, 0, 0, 0, 0]), &parts)
        && is_both_ways(alloc, &whole(alloc), &ALL)
}

// A large number of two bytes is not sound, and no more is a message without numbers.
fn are_judged(alloc: Global) -> bool {
    let (Ok(binder), Ok(short), Ok(mut empty)) = (
        &whole(alloc),
        &small(alloc, &[1, 1]),
        whole(alloc),
    ) else {
        return false;
    };
    empty.numbers.clear();
    binder.is_sound() && !short.is_sound() && !empty.is_sound() && *binder != empty
}

fn leaves_come_back(alloc: Global) -> bool {
    let is_named = match &named(alloc) {
        Ok(named) => named.is_sound() && comes_back(alloc, named, NAMED),
        Err(_) => false,
    };
    is_named && comes_back(alloc, &LEAVES, MANY)
}

#[test]
fn lists_come_back(rt: HostRuntime) {
    let alloc = rt.alloc();
    assert!(rt; leaves_come_back(alloc));
    assert!(rt; messages_are_both_ways(alloc));
    assert!(rt; are_judged(alloc));
}

// Whether an error is at this offset; or the message is read, where there is none.
fn is_at(read: &Result<Binder>, wanted: Option<u64>) -> bool {
    let found = match read {
        Ok(_) => None,
        Err(error) => offset_of(error),
    };
    match (found, wanted) {
        (Some(found), Some(wanted)) => found == ByteOffset(wanted),
        (None, None) => read.is_ok(),
        _ => false,
    }
}

fn offset_of(error: &Error) -> Option<ByteOffset> {
    error.location().offset()
}

// Where a message of these parts has an error, if it has one.
const BROKEN: [(&str, &[&str], Option<u64>); 7] = [
    ("few", &["5400900100000048", REMARK, SEVEN, BIG], None),
    (
        "an item behind the parts",
        &["5400900100000058", REMARK, SEVEN, BIG, SECOND],
        None,
    ),
    (
        "a part twice",
        &["5400900100000070", REMARK, SEVEN, BIG, REMARK],
        Some(84),
    ),
    ("no number", &["5400900100000038", REMARK, BIG], Some(52)),
    (
        "nothing behind the numbers",
        &["5400900100000038", REMARK, SEVEN],
        Some(64),
    ),
    (
        "an item behind the parts of a closed structure",
        &[
            "5400900100000058",
            "54008101000000305400820700000004576F726E0000000054000705000000048000000100000000",
            SECOND,
            SEVEN,
            BIG,
        ],
        Some(52),
    ),
    (
        "a number where a text is due",
        &[
            "5400900100000048",
            "5400910A000000040000000100000000",
            REMARK,
            SEVEN,
        ],
        Some(12),
    ),
];

#[test]
fn lists_are_refused(rt: HostRuntime) {
    let alloc = rt.alloc();
    for row in &BROKEN {
        let (what, parts, wanted) = *row;
        let is_right = match &joined(alloc, parts) {
            Ok(bytes) => is_at(&from_slice(alloc, bytes), wanted),
            Err(_) => false,
        };
        assert!(rt; is_right, "{what}");
    }
}

// Whether a message is decoded and comes back equal, with memory of this allocator.
fn binder_comes_back<A: Allocator + Copy>(alloc: A, bytes: &[u8]) -> bool {
    comes_back_in::<Binder<A>, A>(alloc, bytes)
}

// Whether memory runs out at each growth, more than twelve, and then the message comes back.
fn fails_at_each_growth(alloc: Global) -> bool {
    let Ok(bytes) = &joined(alloc, &ALL) else {
        return false;
    };
    for before in 0..100u64 {
        let memory = BoundedAllocator::failing_after(alloc, before);
        let is_back = binder_comes_back(&memory, bytes);
        if memory.has_failed() == is_back {
            return false;
        }
        if is_back {
            return before > 12;
        }
    }
    false
}

#[test]
fn each_growth_of_a_list_fails(rt: HostRuntime) {
    assert!(rt; fails_at_each_growth(rt.alloc()));
}
