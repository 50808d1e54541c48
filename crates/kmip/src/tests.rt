//! Commands with memory that runs out at each growth, and streams that end at each byte: they end with the status that says so, and print
//! nothing else. The messages are those of worked.py.

use crate::asking::converse;
use crate::failing::{BROKEN, push_failure, status_of};
use crate::request::{Asked, FIRST_ASKED, NewKey, Request};
use crate::showing::push_done;
use kmip_client::client::Client;
use kmip_client::connection::Connection;
use kmip_messages::values::cryptographic_algorithm;
use kmip_ttlv_memory::BoundedAllocator;
use kmip_ttlv_types::stream::{MemoryCursor, MemorySink, MemorySource, Sink, Source};
use std::alloc::{AllocError, Allocator, Global};
use std::io::Cursor;
use std::test::Fail;

// A server that has KMIP 1.2, and gives a key.
const KEY: &str =
    "42007B01000000A842007A0100000048420069010000002042006A0200000004000000010000000042006B020000000400000001000000004200920900000008000000005D77AA4042000D0200000004000000010000000042000F010000005042005C05000000040000001E0000000042007F0500000004000000000000000042007C0100000028420069010000002042006A0200000004000000010000000042006B0200000004000000020000000042007B010000010042007A0100000048420069010000002042006A0200000004000000010000000042006B020000000400000002000000004200920900000008000000005D77AA4042000D0200000004000000010000000042000F01000000A842005C05000000040000000A0000000042007F0500000004000000000000000042007C010000008042005705000000040000000200000000420094070000000469642D310000000042008F010000005842004001000000504200420500000004000000010000000042004501000000184200430800000010000102030405060708090A0B0C0D0E0F4200280500000004000000030000000042002A02000000040000008000000000";

// The same, and gives attributes.
const ATTRIBUTES: &str =
    "42007B01000000A842007A0100000048420069010000002042006A0200000004000000010000000042006B020000000400000001000000004200920900000008000000005D77AA4042000D0200000004000000010000000042000F010000005042005C05000000040000001E0000000042007F0500000004000000000000000042007C0100000028420069010000002042006A0200000004000000010000000042006B0200000004000000020000000042007B010000013842007A0100000048420069010000002042006A0200000004000000010000000042006B020000000400000002000000004200920900000008000000005D77AA4042000D0200000004000000010000000042000F01000000E042005C05000000040000000B0000000042007F0500000004000000000000000042007C01000000B8420094070000000469642D3100000000420008010000002042000A0700000005537461746500000042000B05000000040000000200000000420008010000004842000A07000000044E616D65000000004200090200000004000000010000000042000B01000000204200550700000002611B00000000000042005405000000040000000100000000420008010000002842000A0700000006446967657374000042000B010000001042003805000000040000000600000000";

// The same, and makes a key.
const MADE: &str =
    "42007B01000000A842007A0100000048420069010000002042006A0200000004000000010000000042006B020000000400000001000000004200920900000008000000005D77AA4042000D0200000004000000010000000042000F010000005042005C05000000040000001E0000000042007F0500000004000000000000000042007C0100000028420069010000002042006A0200000004000000010000000042006B0200000004000000020000000042007B01000000A042007A0100000048420069010000002042006A0200000004000000010000000042006B020000000400000002000000004200920900000008000000005D77AA4042000D0200000004000000010000000042000F010000004842005C0500000004000000010000000042007F0500000004000000000000000042007C010000002042005705000000040000000200000000420094070000000469642D3100000000";

// A server that has KMIP 2.0, and gives attributes by their tags.
const ATTRIBUTES_BY_TAG: &str =
    "42007B01000000D042007A0100000048420069010000002042006A0200000004000000010000000042006B020000000400000001000000004200920900000008000000005D77AA4042000D0200000004000000010000000042000F010000007842005C05000000040000001E0000000042007F0500000004000000000000000042007C0100000050420069010000002042006A0200000004000000020000000042006B02000000040000000000000000420069010000002042006A0200000004000000010000000042006B0200000004000000020000000042007B01000000E842007A0100000048420069010000002042006A0200000004000000020000000042006B020000000400000000000000004200920900000008000000005D77AA4042000D0200000004000000010000000042000F010000009042005C05000000040000000B0000000042007F0500000004000000000000000042007C0100000068420094070000000469642D3100000000420125010000005042008D0500000004000000020000000042005301000000204200550700000002611B00000000000042005405000000040000000100000000420034010000001042003805000000040000000600000000";

// The same, and makes a key.
const MADE_BY_TAG: &str =
    "42007B01000000A842007A0100000048420069010000002042006A0200000004000000010000000042006B020000000400000001000000004200920900000008000000005D77AA4042000D0200000004000000010000000042000F010000005042005C05000000040000001E0000000042007F0500000004000000000000000042007C0100000028420069010000002042006A0200000004000000020000000042006B0200000004000000000000000042007B01000000A042007A0100000048420069010000002042006A0200000004000000020000000042006B020000000400000000000000004200920900000008000000005D77AA4042000D0200000004000000010000000042000F010000004842005C0500000004000000010000000042007F0500000004000000000000000042007C010000002042005705000000040000000200000000420094070000000469642D3100000000";

const COMMANDS: [(&str, &str); 5] = [
    (KEY, "000102030405060708090A0B0C0D0E0F\n"),
    (
        ATTRIBUTES,
        "State: Active\nName[1]: a\\u{1b}\nDigest: Hashing Algorithm SHA-256\n",
    ),
    (MADE, "id-1\n"),
    (
        ATTRIBUTES_BY_TAG,
        "State: Active\nName: a\\u{1b}\nDigest: Hashing Algorithm SHA-256\n",
    ),
    (MADE_BY_TAG, "id-1\n"),
];

// The names of attributes that are asked for.
fn names<'w>(alloc: Global) -> Result<Vec<&'w str>, AllocError> {
    let mut names = Vec::new(alloc);
    for name in ["State", "Name", "Digest"] {
        names.push(name)?;
    }
    Ok(names)
}

// The request of a row.
fn request<'w>(alloc: Global, at: usize) -> Result<Request<'w>, AllocError> {
    let asked = match at {
        0 => Asked::Get("id-1"),
        1 | 3 => Asked::Attributes {
            identifier: "id-1",
            names: names(alloc)?,
        },
        _ => Asked::Create {
            key: NewKey {
                algorithm: cryptographic_algorithm::AES,
                usage: 12,
                name: "disk",
            },
            length: 256,
        },
    };
    Ok(Request {
        asked,
        version: None,
        output: None,
    })
}

// What a command prints, or its status if it fails.
fn said<S: Source + Drop, W: Sink + Drop, A: Allocator + Copy>(
    alloc: A,
    request: &Request<'_>,
    reader: S,
    writer: W,
) -> Result<String<A>, u8> {
    let mut text = String::new(alloc);
    let connection = Connection::new(alloc, 4_096, reader, writer);
    let mut client = Client::new(alloc, FIRST_ASKED, connection);
    match converse(&mut client, request, b"") {
        Ok(done) => match push_done(alloc, &mut text, done) {
            Ok(()) => Ok(text),
            Err(_) => Err(BROKEN),
        },
        Err(failure) => match push_failure(&mut text, &failure) {
            Ok(()) => Err(status_of(&failure)),
            Err(_) => Err(BROKEN),
        },
    }
}

// Whether a command prints what its row says; or fails as what is broken does, if something is.
fn is_said<A: Allocator>(said: &Result<String<A>, u8>, wanted: &str, is_broken: bool) -> bool {
    match said {
        Ok(text) => !is_broken && text.as_str() == wanted,
        Err(status) => is_broken && *status == BROKEN,
    }
}

// Whether a command with so many growths before one that fails does what it is to do, and whether one failed.
fn with_memory(
    rt: &HostRuntime,
    at: usize,
    bytes: &[u8],
    wanted: &str,
    before: u64,
) -> Result<(bool, bool), AllocError> {
    let request = request(rt.alloc(), at)?;
    let memory = BoundedAllocator::failing_after(rt.alloc(), before);
    let reader = MemorySource(bytes);
    let writer = MemorySink(Vec::new(rt.alloc()));
    let outcome = said(&memory, &request, reader, writer);
    let has_failed = memory.has_failed();
    Ok((is_said(&outcome, wanted, has_failed), has_failed))
}

#[test]
fn memory_runs_out(rt: HostRuntime) -> Result<(), Fail> {
    for (at, (bytes, wanted)) in COMMANDS.iter().enumerate() {
        let bytes = hex::decode(rt.alloc(), *bytes)?;
        for before in 0..200 {
            let (is_right, has_failed) = with_memory(&rt, at, bytes.as_slice(), wanted, before)?;
            assert!(rt; is_right, "row {at}, growth {before}");
            assert!(rt;
                if has_failed { before < 199 } else { before > 9 },
                "row {at}: not each growth failed"
            );
        }
    }
    Ok(())
}

#[test]
fn inputs_end(rt: HostRuntime) -> Result<(), Fail> {
    let bytes = hex::decode(rt.alloc(), KEY)?;
    let wanted = COMMANDS[0].1;
    let request = request(rt.alloc(), 0)?;
    for end in 0..=bytes.len() {
        let reader = MemorySource(&bytes[..end]);
        let writer = MemorySink(Vec::new(rt.alloc()));
        let outcome = said(rt.alloc(), &request, reader, writer);
        assert!(rt;
            is_said(&outcome, wanted, end < bytes.len()),
            "an input of {end} bytes"
        );
    }
    Ok(())
}

// The bytes of the two requests: which versions there are, and for the key.
const ASKED: usize = 464;

#[test]
fn outputs_are_full(rt: HostRuntime) -> Result<(), Fail> {
    let bytes = hex::decode(rt.alloc(), KEY)?;
    let wanted = COMMANDS[0].1;
    let request = request(rt.alloc(), 0)?;
    let mut room = [0u8; ASKED];
    for end in 0..=ASKED {
        let reader = MemorySource(bytes.as_slice());
        let writer = MemoryCursor(Cursor::new(&mut room[..end]));
        let outcome = said(rt.alloc(), &request, reader, writer);
        assert!(rt;
            is_said(&outcome, wanted, end < ASKED),
            "an output of {end} bytes"
        );
    }
    Ok(())
}
