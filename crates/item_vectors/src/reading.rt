//! Each form of XML with its bytes, each error with its offset, and memory that runs out.

use crate::rows::{READ, REFUSED};
use kmip_ttlv_memory::BoundedAllocator;
use kmip_ttlv_xml::{XmlError, from_xml};
use std::alloc::Global;
use std::test::*;

// Whether a text is read as these bytes.
fn is_read(alloc: Global, text: &str, digits: &str) -> bool {
    let Ok(bytes) = hex::decode(alloc, digits) else {
        return false;
    };
    match from_xml(alloc, text) {
        Ok(found) => found.as_slice() == bytes.as_slice(),
        Err(_error) => false,
    }
}

#[test]
fn each_form(rt: HostRuntime) -> Result<(), Fail> {
    for (text, digits) in &READ {
        assert!(rt; is_read(rt.alloc(), text, digits), "{text}");
    }
    Ok(())
}

// Whether a text is refused so.
fn is_refused(alloc: Global, text: &str, error: XmlError) -> bool {
    match from_xml(alloc, text) {
        Ok(_bytes) => false,
        Err(found) => found == error,
    }
}

#[test]
fn each_error(rt: HostRuntime) -> Result<(), Fail> {
    for (text, error) in &REFUSED {
        assert!(rt; is_refused(rt.alloc(), text, *error), "{text}");
    }
    Ok(())
}
