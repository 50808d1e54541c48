//! Messages as JSON: hidden values, several messages, and messages with a fault. What JSON a message has are tests that are data
//! (crates/vectors).

use crate::looks::KEY_BLOCK;
use crate::runs::{VERSION, run_with};
use std::alloc::{AllocError, Global};
use ttlv_run::{Encoding, Hiding, Task};

/// The line of JSON that [`VERSION`] is printed as.
pub const VERSION_JSON: &str =
    "{\"tag\":\"0x420069\",\"type\":\"Structure\",\"value\":[{\"tag\":\"0x42006A\",\"type\":\"Integer\",\"value\":\"0x00000001\"},{\"tag\":\"0x42006B\",\"type\":\"Integer\",\"value\":\"0x00000000\"}]}\n";

// An item of each type that the version doesn't have, and an empty structure in front of another.
const TYPES: &str =
    "4200690100000078420001030000000800000000000001024200020400000008FFFFFFFFFFFFFFFF420003060000000800000000000000014200040600000008000000000000000042000508000000030102AB00000000004200060A0000000400000E1000000000420007010000000042000801000000084200090100000000";

const TYPES_JSON: &str =
    "{\"tag\":\"0x420069\",\"type\":\"Structure\",\"value\":[{\"tag\":\"0x420001\",\"type\":\"LongInteger\",\"value\":\"0x0000000000000102\"},{\"tag\":\"0x420002\",\"type\":\"BigInteger\",\"value\":\"0xFFFFFFFFFFFFFFFF\"},{\"tag\":\"0x420003\",\"type\":\"Boolean\",\"value\":true},{\"tag\":\"0x420004\",\"type\":\"Boolean\",\"value\":false},{\"tag\":\"0x420005\",\"type\":\"ByteString\",\"value\":\"0102AB\"},{\"tag\":\"0x420006\",\"type\":\"Interval\",\"value\":\"0x00000E10\"},{\"tag\":\"0x420007\",\"type\":\"Structure\",\"value\":[]},{\"tag\":\"0x420008\",\"type\":\"Structure\",\"value\":[{\"tag\":\"0x420009\",\"type\":\"Structure\",\"value\":[]}]}]}\n";

const TYPES_HIDDEN: &str =
    "{\"tag\":\"0x420069\",\"type\":\"Structure\",\"value\":[{\"tag\":\"0x420001\",\"type\":\"LongInteger\",\"value\":null},{\"tag\":\"0x420002\",\"type\":\"BigInteger\",\"value\":null},{\"tag\":\"0x420003\",\"type\":\"Boolean\",\"value\":null},{\"tag\":\"0x420004\",\"type\":\"Boolean\",\"value\":null},{\"tag\":\"0x420005\",\"type\":\"ByteString\",\"value\":null},{\"tag\":\"0x420006\",\"type\":\"Interval\",\"value\":null},{\"tag\":\"0x420007\",\"type\":\"Structure\",\"value\":[]},{\"tag\":\"0x420008\",\"type\":\"Structure\",\"value\":[{\"tag\":\"0x420009\",\"type\":\"Structure\",\"value\":[]}]}]}\n";

// The key block without its key material, its credential and its password.
const KEY_BLOCK_HIDDEN: &str =
    "{\"tag\":\"0x420040\",\"type\":\"Structure\",\"value\":[{\"tag\":\"0x420042\",\"type\":\"Enumeration\",\"value\":\"0x00000001\"},{\"tag\":\"0x420045\",\"type\":\"Structure\",\"value\":[{\"tag\":\"0x420043\",\"type\":\"Structure\",\"value\":[{\"tag\":\"0x42003F\",\"type\":\"ByteString\",\"value\":null},{\"tag\":\"0x420075\",\"type\":\"Enumeration\",\"value\":null}]},{\"tag\":\"0x420009\",\"type\":\"Integer\",\"value\":null}]},{\"tag\":\"0x420025\",\"type\":\"Structure\",\"value\":[{\"tag\":\"0x420099\",\"type\":\"TextString\",\"value\":null},{\"tag\":\"0x4200A1\",\"type\":\"TextString\",\"value\":null}]},{\"tag\":\"0x420094\",\"type\":\"TextString\",\"value\":\"id\"}]}\n";

/// The line of JSON with names that [`VERSION`] is printed as.
const VERSION_NAMED: &str =
    "{\"tag\":\"ProtocolVersion\",\"value\":[{\"tag\":\"ProtocolVersionMajor\",\"type\":\"Integer\",\"value\":1},{\"tag\":\"ProtocolVersionMinor\",\"type\":\"Integer\",\"value\":0}]}\n";

// The key block with names, and without what is secret in it.
const KEY_BLOCK_NAMED: &str =
    "{\"tag\":\"KeyBlock\",\"value\":[{\"tag\":\"KeyFormatType\",\"type\":\"Enumeration\",\"value\":\"Raw\"},{\"tag\":\"KeyValue\",\"value\":[{\"tag\":\"KeyMaterial\",\"value\":[{\"tag\":\"Key\",\"type\":\"ByteString\",\"value\":null},{\"tag\":\"RecommendedCurve\",\"type\":\"Enumeration\",\"value\":null}]},{\"tag\":\"AttributeIndex\",\"type\":\"Integer\",\"value\":null}]},{\"tag\":\"CredentialValue\",\"value\":[{\"tag\":\"Username\",\"type\":\"TextString\",\"value\":null},{\"tag\":\"Password\",\"type\":\"TextString\",\"value\":null}]},{\"tag\":\"UniqueIdentifier\",\"type\":\"TextString\",\"value\":\"id\"}]}\n";

// What is hidden, whether names are printed, an input, its JSON, and what is printed on standard error.
type Row = (Hiding, bool, &'static str, &'static str, &'static str);

const ROWS: [Row; 9] = [
    (Hiding::Nothing, false, VERSION, VERSION_JSON, ""),
    (Hiding::Nothing, true, VERSION, VERSION_NAMED, ""),
    (Hiding::Secrets, true, KEY_BLOCK, KEY_BLOCK_NAMED, ""),
    (Hiding::Values, false, TYPES, TYPES_HIDDEN, ""),
    (Hiding::Secrets, false, TYPES, TYPES_JSON, ""),
    (Hiding::Secrets, false, KEY_BLOCK, KEY_BLOCK_HIDDEN, ""),
    // Two messages, a line each.
    (
        Hiding::Nothing,
        false,
        "420069010000000042006A0100000000",
        "{\"tag\":\"0x420069\",\"type\":\"Structure\",\"value\":[]}\n{\"tag\":\"0x42006A\",\"type\":\"Structure\",\"value\":[]}\n",
        "",
    ),
    // A message that is cut, behind a whole one: it has no line.
    (
        Hiding::Nothing,
        false,
        "42006901000000004200690100000010",
        "{\"tag\":\"0x420069\",\"type\":\"Structure\",\"value\":[]}\n",
        "capture: byte 16: no tag: the input ends within the message\n",
    ),
    // The first item is whole, and the second has a wrong length.
    (
        Hiding::Nothing,
        false,
        "420069010000002042006A0200000004000000010000000042006B02000000050000000000000000",
        "",
        "capture: byte 24: Protocol Version Minor (0x42006B): wrong length for the type\n",
    ),
];

fn prints(alloc: Global, row: Row) -> Result<bool, AllocError> {
    let (hiding, named, input, json, errors) = row;
    let task = Task::Json { hiding, named };
    let outcome = run_with(alloc, alloc, task, Encoding::Detected, input.as_bytes())?;
    let status = if errors.is_empty() { 0 } else { 1 };
    Ok(outcome.is(status, json, errors))
}

#[test]
fn messages_as_json(rt: HostRuntime) {
    for row in ROWS {
        assert!(rt; prints(rt.alloc(), row) == Ok(true), "{row:?}");
    }
}
