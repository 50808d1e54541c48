//! Structures on the heap: they are made, encoded, decoded, compared and taken back as what is in them, or memory runs out.

use crate::bytes::{CONTENTS, MOMENTS, is_both_ways, joined};
use crate::parts::contents;
use kmip_ttlv::Boxed;
use kmip_ttlv::laws::Sound;
use kmip_ttlv::memory::BoundedAllocator;
use kmip_ttlv::reader::{DateTime, Interval};
use sample_shapes::rereads::comes_back_in;
use std::alloc::{AllocError, Allocator, Global};
use ttlv_vectors::leaves::Moments;
use ttlv_vectors::parcel::{Note, Parcel};

// A note, and the header of a message of all three parts, and of one of what is always there.
const NOTE: &str = "540081010000001054008207000000026F6B000000000000";

const WHOLE: &str = "5400800100000088";

const SMALL: &str = "5400800100000038";

// What the parts are made of: the number is that of `CONTENTS`.
const TIMES: Moments = Moments {
    date: DateTime(0x4AFB_E7C2),
    truth: true,
    seconds: Interval(3600),
};

const BIG: [u8; 8] = [0, 0, 0, 0, 0, 0, 1, 1];

// A message of what is always there.
fn small<A: Allocator + Copy>(alloc: A) -> Result<Parcel<A>, AllocError> {
    Ok(Parcel {
        moments: Boxed::new(alloc, TIMES)?,
        contents: None,
        note: None,
    })
}

fn note(alloc: Global) -> Result<Note, AllocError> {
    let text = String::from_str(alloc, "ok")?;
    Ok(Note { text })
}

// A message of all parts, with this large number.
fn whole(alloc: Global, big: &[u8]) -> Result<Parcel, AllocError> {
    let mut parcel = small(alloc)?;
    parcel.contents = Some(Boxed::new(alloc, contents(alloc, big)?)?);
    parcel.note = Some(Boxed::new(alloc, note(alloc)?)?);
    Ok(parcel)
}

// Whether a message is written and read as these parts.
fn is_right(alloc: Global, parcel: &Result<Parcel, AllocError>, parts: &[&str]) -> bool {
    matches!(parcel, Ok(parcel) if is_both_ways(alloc, parcel, parts))
}

fn parts_are_both_ways(alloc: Global) -> bool {
    is_right(alloc, &small(alloc), &[SMALL, MOMENTS])
        && is_right(
            alloc,
            &whole(alloc, &BIG),
            &[WHOLE, MOMENTS, CONTENTS, NOTE],
        )
}

// What is in a box is seen without taking it out, and is what comes out.
fn has_what_was_put_in(alloc: Global) -> bool {
    match Boxed::new(alloc, TIMES) {
        Ok(moments) => {
            let seconds = moments.seconds;
            let inner = moments.into_inner();
            seconds.0 == 3600 && inner == TIMES
        }
        Err(_) => false,
    }
}

// The second of two messages has a large number of two bytes, which no bytes are read as.
fn are_judged(one: &Parcel, two: &Parcel) -> bool {
    one.is_sound() && !two.is_sound() && *one == *one && *one != *two
}

fn boxes_are_judged(alloc: Global) -> bool {
    match (&whole(alloc, &BIG), &whole(alloc, &[1, 1])) {
        (Ok(one), Ok(two)) => are_judged(one, two),
        _ => false,
    }
}

// Whether memory for a box runs out if there is none.
fn needs_memory(alloc: Global) -> bool {
    let none = BoundedAllocator::failing_after(alloc, 0);
    small(&none).is_err() && none.has_failed()
}

// Whether a message is decoded and comes back equal, with memory of this allocator.
fn parcel_comes_back<A: Allocator + Copy>(alloc: A, bytes: &[u8]) -> bool {
    comes_back_in::<Parcel<A>, A>(alloc, bytes)
}

// Whether memory runs out at each growth, more than six, and then the message comes back. Each of the three boxes is an allocation,
// twice.
fn fails_at_each_growth(alloc: Global) -> bool {
    let Ok(bytes) = &joined(alloc, &[WHOLE, MOMENTS, CONTENTS, NOTE]) else {
        return false;
    };
    for before in 0..100u64 {
        let memory = BoundedAllocator::failing_after(alloc, before);
        let is_back = parcel_comes_back(&memory, bytes);
        if memory.has_failed() == is_back {
            return false;
        }
        if is_back {
            return before > 6;
        }
    }
    false
}

#[test]
fn boxes(rt: HostRuntime) {
    let alloc = rt.alloc();
    for (what, is_right) in [
        ("parts are written and read", parts_are_both_ways(alloc)),
        ("a box has what was put in", has_what_was_put_in(alloc)),
        (
            "boxes are sound and equal by what is in them",
            boxes_are_judged(alloc),
        ),
        ("a box needs memory", needs_memory(alloc)),
        (
            "a message fails at each growth",
            fails_at_each_growth(alloc),
        ),
    ] {
        assert!(rt; is_right, "{what}");
    }
}
