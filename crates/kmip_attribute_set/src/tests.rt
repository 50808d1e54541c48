//! Attributes by tags and back, and references to them: the items were worked out after the standard, by an encoder of its own.

use crate::attributes::Attributes;
use crate::building::of_key;
use crate::copies::{copy, read_alone};
use crate::references::{names_of, references};
use crate::tags::Tagged;
use kmip_attributes::attribute::AttributeValue;
use kmip_attributes::values::{cryptographic_algorithm, object_type, state};
use kmip_ttlv_base::error::{Error, ErrorKind, SerdeError};
use kmip_ttlv_memory::BoundedAllocator;
use kmip_ttlv_parts::Kept;
use kmip_ttlv_reader::reader::DateTime;
use std::alloc::{AllocError, Allocator};
use std::test::Fail;

// What a new key is given.
const KEY: &str =
    "4200280500000004000000030000000042002a0200000004000001000000000042002c02000000040000000c00000000420053010000002042005507000000046469736b00000000420054050000000400000001000000004200570500000004000000020000000042008d05000000040000000200000000";

// Attributes of every type, a vendor's, and tags that are no attribute's.
const OTHERS: &str =
    "4200390900000008000000005f5e10004200490a0000000400000e10000000004200a806000000080000000000000001420094070000000469642d31000000004201360800000003010203000000000042ffff0300000008fffffffffffffffb42fffe0500000004000000070000000042004a010000002042004b0500000004000001010000000042004c070000000469642d3200000000420008010000003042009d0700000001780000000000000042000a0700000005636f6c6f7200000042000b0700000003726564000000000042fffd0400000008ffffffffffffffff42fffc0100000000";

// A Name without its text.
const BAD: &str = "4200530100000000";

// References to State and Name.
const REFERENCES: &str = "42013b05000000040042008d0000000042013b05000000040042005300000000";

// A reference to Cryptographic Algorithm, one to a vendor's attribute, and a Unique Identifier.
const VENDORS: &str =
    "42013b0500000004004200280000000042013b010000002042009d0700000001780000000000000042000a0700000005636f6c6f72000000420094070000000469642d3100000000";

// The structure Attributes of the items that digits are.
fn items<A: Allocator + Copy>(alloc: A, digits: &str) -> Result<Kept<A>, Fail> {
    let items = hex::decode(alloc, digits)?;
    let length = u32::try_from(items.len()).unwrap_or(0);
    let mut bytes = Vec::from_slice(alloc, &[0x42, 0x01, 0x25, 0x01])?;
    bytes.extend_from_slice(&length.to_be_bytes())?;
    bytes.extend_from_slice(items.as_slice())?;
    Ok(read_alone(alloc, 0x42_0125, bytes.as_slice())?)
}

// What a new key is given, as built.
fn key<A: Allocator + Copy>(alloc: A) -> Result<Attributes<A>, AllocError> {
    of_key(alloc, cryptographic_algorithm::AES, 256, 12, "disk")?
        .with_object_type(object_type::SYMMETRIC_KEY)?
        .with_state(state::ACTIVE)
}

#[test]
fn attributes_go_by_tags(rt: HostRuntime) -> Result<(), Fail> {
    let alloc = rt.alloc();
    let built = key(alloc)?;
    assert_eq!(rt;
        hex::encode(alloc, built.to_tags(alloc)?.as_bytes())?.as_str(),
        KEY
    );
    let key = Attributes::from_tags(alloc, &items(alloc, KEY)?)?;
    assert!(rt; key == built);
    assert_eq!(rt;
        key.cryptographic_algorithm(),
        Some(cryptographic_algorithm::AES)
    );
    assert_eq!(rt;
        (key.cryptographic_length(), key.cryptographic_usage_mask()),
        (Some(256), Some(12))
    );
    assert_eq!(rt;
        (key.object_type(), key.state()),
        (Some(object_type::SYMMETRIC_KEY), Some(state::ACTIVE))
    );
    assert_eq!(rt;
        (key.first_name(), key.unique_identifier()),
        (Some("disk"), None)
    );
    Ok(())
}

#[test]
fn nothing_is_lost(rt: HostRuntime) -> Result<(), Fail> {
    let alloc = rt.alloc();
    let others = Attributes::from_tags(alloc, &items(alloc, OTHERS)?)?;
    assert_eq!(rt;
        hex::encode(alloc, others.to_tags(alloc)?.as_bytes())?.as_str(),
        OTHERS
    );
    let names = [
        "Initial Date",
        "Lease Time",
        "Fresh",
        "Unique Identifier",
        "Short Unique Identifier",
        "0x42FFFF",
        "0x42FFFE",
        "Link",
        "0x420008",
        "0x42FFFD",
        "0x42FFFC",
    ];
    assert!(rt;
        others
            .list
            .iter()
            .map(|it| it.name.as_str())
            .eq(names.iter().copied())
    );
    assert_eq!(rt; others.initial_date(), Some(DateTime(1_600_000_000)));
    assert_eq!(rt;
        (others.unique_identifier(), others.state()),
        (Some("id-1"), None)
    );
    assert!(rt; Attributes::from_tags(alloc, &items(alloc, BAD)?).is_err());
    let vendors = key(alloc)?.with("x-color", AttributeValue::Boolean(true))?;
    match vendors.to_tags(alloc) {
        Ok(_) => assert!(rt; false),
        Err(error) => match error.kind() {
            ErrorKind::SerdeError(SerdeError::InvalidTag(name)) => {
                assert_eq!(rt; name.as_str(), "x-color")
            }
            _ => assert!(rt; false),
        },
    }
    Ok(())
}

#[test]
fn attributes_are_referred_to(rt: HostRuntime) -> Result<(), Fail> {
    let alloc = rt.alloc();
    let made = references(alloc, &["State", "Name"])?;
    assert_eq!(rt; hex::encode(alloc, made.as_bytes())?.as_str(), REFERENCES);
    assert!(rt; references(alloc, &["State", "x-color"]).is_err());
    for (digits, names) in [
        (REFERENCES, ["State", "Name"]),
        (VENDORS, ["Cryptographic Algorithm", "color"]),
    ] {
        let found = names_of(alloc, &items(alloc, digits)?)?;
        assert!(rt; found.iter().map(|it| it.as_str()).eq(names.iter().copied()));
    }
    Ok(())
}

#[test]
fn structures_are_copied(rt: HostRuntime) -> Result<(), Fail> {
    let alloc = rt.alloc();
    let (built, others) = (key(alloc)?, items(alloc, OTHERS)?);
    match (copy(alloc, &built)?, copy(alloc, &others)?) {
        (Some(same), Some(kept)) => {
            assert!(rt; same == built);
            assert!(rt; kept == others);
        }
        _ => assert!(rt; false),
    }
    Ok(())
}

// Attributes by tags and back, and a copy, with memory of this allocator.
fn there_and_back<A: Allocator + Copy>(alloc: A) -> Result<(), Error<A>> {
    let attributes = key(alloc)?;
    let back = Attributes::from_tags(alloc, &attributes.to_tags(alloc)?)?;
    let _same = copy(alloc, &back)?;
    Ok(())
}

#[test]
fn each_growth_may_fail(rt: HostRuntime) -> Result<(), Fail> {
    for before in 0..1_000 {
        let memory = BoundedAllocator::failing_after(rt.alloc(), before);
        match there_and_back(&memory) {
            Ok(()) => {
                assert!(rt; before > 20);
                return Ok(());
            }
            Err(error) => assert!(rt; matches!(error.kind(), ErrorKind::OutOfMemory)),
        }
    }
    assert!(rt; false);
    Ok(())
}
