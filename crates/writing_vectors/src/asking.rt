//! What is asked for attributes: with a field that may be absent, and one that may come often.

use crate::low_level::are_bytes;
use kmip_ttlv::to_vec;
use std::alloc::Global;
use ttlv_vectors::get_attributes::{AttributeName, GetAttributes, UniqueIdentifier};

// Whether these attributes of this object are asked for in these bytes, in hexadecimal.
fn asks(
    alloc: Global,
    identifier: Option<&'static str>,
    names: &[AttributeName<'static>],
    text: &str,
) -> bool {
    let request = GetAttributes {
        unique_identifier: match identifier {
            Some(text) => Some(UniqueIdentifier { text }),
            None => None,
        },
        attribute_names: names,
    };
    match &to_vec(alloc, &request) {
        Ok(bytes) => are_bytes(alloc, bytes.as_slice(), text),
        Err(_) => false,
    }
}

// What is asked for, and its bytes, in hexadecimal.
const ASKED: [(Option<&str>, &[AttributeName<'static>], &str); 4] = [
    (
        Some("49a1ca88"),
        &NAMES,
        "420079010000003842009407000000083439613163613838\
42000A070000000C4F626A6563742047726F75700000000042000A07000000055374617465000000",
    ),
    (
        Some("49a1ca88"),
        &[],
        "420079010000001042009407000000083439613163613838",
    ),
    (
        None,
        &NAMES,
        "420079010000002842000A070000000C4F626A6563742047726F75700000000042000A07000000055374617465000000",
    ),
    (None, &[], "4200790100000000"),
];

const NAMES: [AttributeName<'static>; 2] = [
    AttributeName {
        text: "Object Group",
    },
    AttributeName { text: "State" },
];

#[test]
fn attributes_are_asked_for(rt: HostRuntime) {
    for row in &ASKED {
        let (identifier, names, text) = *row;
        let is_right = asks(rt.alloc(), identifier, names, text);
        assert!(rt; is_right, "{text}");
    }
}
