//! The low-level types by the paths of `kmip_ttlv`: what a number is written as, and names of tags. And
//! the comparisons of texts for the other tests.

use kmip_ttlv::types::{SerializableTtlvType, TtlvInteger, TtlvTag};
use std::alloc::{AllocError, Global};

/// Whether this is the text.
pub fn is_text(text: &Result<String, AllocError>, wanted: &str) -> bool {
    match text {
        Ok(text) => text.as_str() == wanted,
        Err(_) => false,
    }
}

/// Whether these are the bytes, in hexadecimal.
pub fn are_bytes(heap: Global, bytes: &[u8], wanted: &str) -> bool {
    match &hex::encode_upper(heap, bytes) {
        Ok(text) => text.as_str() == wanted,
        Err(_) => false,
    }
}

// Whether an Integer is written, without its tag, as these bytes.
fn integer_is_written(heap: Global, number: i32, wanted: &str) -> bool {
    let mut written = Vec::new(heap);
    TtlvInteger(number).write(&mut written).is_ok() && are_bytes(heap, &written, wanted)
}

// Whether the name is that of a tag of this number, or where none is given, is an error.
fn names_tag(heap: Global, name: &str, number: Option<u32>) -> bool {
    match &TtlvTag::from_str(heap, name) {
        Ok(tag) => number == Some(**tag),
        Err(_) => number.is_none(),
    }
}

#[test]
fn a_number_and_names_of_tags(rt: HostRuntime) {
    let is_right = integer_is_written(rt.alloc(), 8, "02000000040000000800000000");
    assert!(rt; is_right);
    for (name, number) in [
        ("0x0x1", Some(1)),
        ("+1F", Some(0x1F)),
        ("0x1000000", None),
        ("", None),
        ("XYZ", None),
    ] {
        let is_right = names_tag(rt.alloc(), name, number);
        assert!(rt; is_right, "{name}");
    }
    let tag = TtlvTag::from([0, 0, 0x12]);
    let is_right = is_text(&format!(in rt.alloc(); "{tag}"), "0x000012");
    assert!(rt; is_right);
}
