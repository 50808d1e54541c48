//! Parts of every kind, written and decoded: present and absent, invalid, and with each allocation failing in turn; and what a
//! shape chooses.

use crate::bytes::{
    CONSTANT, CONTENTS, MOMENTS, NUMBERS, OPTIONAL_CONTENTS, OPTIONAL_NUMBERS, PAIR, REASONS,
    SECOND, SMALL, TEXT, THREE, WHOLE, is_both_ways, is_written, joined,
};
use kmip_ttlv::error::{ErrorKind, Result};
use kmip_ttlv::from_slice;
use kmip_ttlv::reader::{BigNumber, DateTime, Interval};
use kmip_ttlv_memory::BoundedAllocator;
use std::alloc::{AllocError, Allocator, Global};
use ttlv_vectors::choice::Choice;
use ttlv_vectors::leaves::{
    Contents, Kind, Moments, Numbers, OptionalContents, OptionalNumbers, Reasons,
};
use ttlv_vectors::message::Every;

const FULL_NUMBERS: Numbers = Numbers {
    count: -2,
    long: i64::MAX,
};

const FULL_MOMENTS: Moments = Moments {
    date: DateTime(0x4AFB_E7C2),
    truth: true,
    seconds: Interval(3600),
};

const ALL_NUMBERS: OptionalNumbers = OptionalNumbers {
    count: Some(-2),
    long: Some(i64::MAX),
    date: Some(DateTime(0x4AFB_E7C2)),
};

const NO_NUMBERS: OptionalNumbers = OptionalNumbers {
    count: None,
    long: None,
    date: None,
};

const BOTH_REASONS: Reasons = Reasons {
    first: 0x8000_0001,
    second: Some(9),
};

const ONE_REASON: Reasons = Reasons {
    first: 10,
    second: None,
};

const BIG: [u8; 8] = [0, 0, 0, 0, 0, 0, 1, 1];

/// Texts and bytes, with this large number.
pub fn contents(alloc: Global, big: &[u8]) -> std::result::Result<Contents, AllocError> {
    let mut contents = Contents {
        text: String::new(alloc),
        bytes: Vec::new(alloc),
        big: BigNumber {
            bytes: Vec::new(alloc),
        },
    };
    contents.text.push_str("ABC")?;
    contents.bytes.extend_from_slice(&[0xFF, 0xFE])?;
    contents.big.bytes.extend_from_slice(big)?;
    Ok(contents)
}

// What is absent is that.
fn no_contents() -> OptionalContents {
    OptionalContents {
        truth: None,
        seconds: None,
        text: None,
        bytes: None,
        big: None,
    }
}

// A message whose parts that may be absent together are empty, with this large number.
fn empty(alloc: Global, big: &[u8]) -> std::result::Result<Every, AllocError> {
    let mut every = Every {
        kind: Kind::First,
        numbers: FULL_NUMBERS,
        moments: FULL_MOMENTS,
        optional_numbers: Some(NO_NUMBERS),
        optional_contents: Some(no_contents()),
        reasons: ONE_REASON,
        contents: Vec::new(alloc),
    };
    every.contents.push(contents(alloc, big)?)?;
    Ok(every)
}

const EMPTY: [&str; 9] = [
    "54006001000000E0",
    CONSTANT,
    "54004005000000040000000100000000",
    NUMBERS,
    MOMENTS,
    "5400100100000000",
    "5400300100000000",
    "540015010000001054000705000000040000000A00000000",
    CONTENTS,
];

// Whether that is written so, also with a large number of two bytes, which is written as eight, and the first is read again.
fn empty_comes_back(alloc: Global) -> bool {
    let Ok(bytes) = &joined(alloc, &EMPTY) else {
        return false;
    };
    match (&empty(alloc, &BIG), &empty(alloc, &[1, 1])) {
        (Ok(whole), Ok(short)) => {
            is_both_ways(alloc, whole, &EMPTY) && is_written(alloc, short, bytes)
        }
        _ => false,
    }
}

#[test]
fn empty_parts_come_back(rt: HostRuntime) {
    let is_right = empty_comes_back(rt.alloc());
    assert!(rt; is_right);
}

const ALL: [&str; 10] = [
    WHOLE,
    CONSTANT,
    SECOND,
    NUMBERS,
    MOMENTS,
    OPTIONAL_NUMBERS,
    OPTIONAL_CONTENTS,
    REASONS,
    CONTENTS,
    CONTENTS,
];

const FEW: [&str; 7] = [SMALL, CONSTANT, SECOND, NUMBERS, MOMENTS, REASONS, CONTENTS];

fn are_contents<A: Allocator>(contents: &Contents<A>) -> bool {
    contents.text.as_str() == "ABC"
        && contents.bytes.as_slice() == [0xFF, 0xFE].as_slice()
        && contents.big.bytes.as_slice() == BIG.as_slice()
}

fn are_optional_contents<A: Allocator>(contents: &OptionalContents<A>) -> bool {
    let is_text = match &contents.text {
        Some(text) => text.as_str() == "ABC",
        None => false,
    };
    let are_bytes = match (&contents.bytes, &contents.big) {
        (Some(bytes), Some(big)) => {
            bytes.as_slice() == [0xFF, 0xFE].as_slice() && big.bytes.as_slice() == BIG.as_slice()
        }
        _ => false,
    };
    contents.truth == Some(true) && contents.seconds == Some(Interval(3600)) && is_text && are_bytes
}

// What is always there.
fn is_small<A: Allocator>(every: &Every<A>) -> bool {
    every.kind == Kind::Second
        && every.numbers == FULL_NUMBERS
        && every.moments == FULL_MOMENTS
        && every.reasons == BOTH_REASONS
        && !every.contents.is_empty()
        && every.contents.iter().all(|one| are_contents(one))
}

// That, and what may be absent.
fn is_whole<A: Allocator>(every: &Every<A>) -> bool {
    let are_there = match &every.optional_contents {
        Some(contents) => are_optional_contents(contents),
        None => false,
    };
    is_small(every)
        && every.contents.len() == 2
        && every.optional_numbers == Some(ALL_NUMBERS)
        && are_there
}

// That, and nothing that may be absent.
fn is_bare<A: Allocator>(every: &Every<A>) -> bool {
    is_small(every) && every.optional_numbers.is_none() && every.optional_contents.is_none()
}

// What is read of a message.
#[derive(Clone, Copy)]
enum Found {
    // All parts.
    Whole,
    // What is always there, and nothing more.
    Bare,
    OutOfMemory,
    // Another error.
    Refused,
    // Anything else.
    Wrong,
}

fn found_in<A: Allocator>(read: &Result<Every<A>, A>) -> Found {
    match read {
        Ok(every) if is_whole(every) => Found::Whole,
        Ok(every) if is_bare(every) => Found::Bare,
        Ok(_) => Found::Wrong,
        Err(error) if matches!(error.kind(), ErrorKind::OutOfMemory) => Found::OutOfMemory,
        Err(_) => Found::Refused,
    }
}

// Whether a message of these parts is found so, and if it is read, is written again.
fn is_found(alloc: Global, parts: &[&str], wanted: Found) -> bool {
    let Ok(bytes) = &joined(alloc, parts) else {
        return false;
    };
    let read: Result<Every> = from_slice(alloc, bytes);
    let is_right = match (found_in(&read), wanted) {
        (Found::Whole, Found::Whole) => true,
        (Found::Bare, Found::Bare) => true,
        (Found::Refused, Found::Refused) => true,
        _ => false,
    };
    let is_again = match &read {
        Ok(every) => is_written(alloc, every, bytes),
        Err(_) => true,
    };
    is_right && is_again
}

// A Long Integer in the place of a date, truth, and an hour.
const NO_MOMENTS: &str = "54000901000000305400040300000008000000004AFBE7C2\
540005060000000800000000000000015400060A0000000400000E1000000000";

// Messages of all parts and of few, and some that are errors.
const MESSAGES: [(&str, &[&str], Found); 6] = [
    ("all parts", &ALL, Found::Whole),
    ("few parts", &FEW, Found::Bare),
    (
        "a kind of 3",
        &[
            SMALL,
            CONSTANT,
            "54004005000000040000000300000000",
            NUMBERS,
            MOMENTS,
            REASONS,
            CONTENTS,
        ],
        Found::Refused,
    ),
    (
        "no contents at all",
        &[
            "54006001000000A8",
            CONSTANT,
            SECOND,
            NUMBERS,
            MOMENTS,
            REASONS,
        ],
        Found::Refused,
    ),
    (
        "another constant",
        &[
            SMALL,
            "54006105000000040000000200000000",
            SECOND,
            NUMBERS,
            MOMENTS,
            REASONS,
            CONTENTS,
        ],
        Found::Refused,
    ),
    (
        "a number that is no date",
        &[
            SMALL, CONSTANT, SECOND, NUMBERS, NO_MOMENTS, REASONS, CONTENTS,
        ],
        Found::Refused,
    ),
];

#[test]
fn messages_of_parts(rt: HostRuntime) {
    for row in &MESSAGES {
        let (what, parts, wanted) = *row;
        let is_right = is_found(rt.alloc(), parts, wanted);
        assert!(rt; is_right, "{what}");
    }
}

// A name that chooses nothing before a text.
const FOUR: &str =
    "54005001000000205400420700000004466F75720000000054004107000000034142430000000000";

// Whether a name chooses what follows it. What it chooses is in `choices.json` of the program `vectors`, by the same shape.
fn is_chosen(alloc: Global, text: &str) -> bool {
    let Ok(bytes) = &hex::decode(alloc, text) else {
        return false;
    };
    let read: Result<Choice> = from_slice(alloc, bytes);
    read.is_ok()
}

#[test]
fn a_name_chooses(rt: HostRuntime) {
    for (text, wanted) in [(TEXT, true), (PAIR, true), (THREE, true), (FOUR, false)] {
        let is_right = is_chosen(rt.alloc(), text) == wanted;
        assert!(rt; is_right, "{text}");
    }
}

// What is found of a message if the growth after the first `before` fails: all parts if nothing failed.
fn with_failed_growth(alloc: Global, bytes: &[u8], before: u64) -> Found {
    let heap = BoundedAllocator::failing_after(alloc, before);
    let read: Result<Every<_>, _> = from_slice(&heap, bytes);
    match (found_in(&read), heap.has_failed()) {
        (Found::Whole, false) => Found::Whole,
        (Found::OutOfMemory, true) => Found::OutOfMemory,
        _ => Found::Wrong,
    }
}

// Whether memory runs out at each growth, and then all parts are found.
fn fails_at_each_growth(alloc: Global) -> bool {
    let Ok(bytes) = &joined(alloc, &ALL) else {
        return false;
    };
    for before in 0..1000u64 {
        match with_failed_growth(alloc, bytes, before) {
            Found::Whole => return true,
            Found::OutOfMemory => {}
            _ => return false,
        }
    }
    false
}

#[test]
fn each_growth_fails(rt: HostRuntime) {
    let is_right = fails_at_each_growth(rt.alloc());
    assert!(rt; is_right);
}
