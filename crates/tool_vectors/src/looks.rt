//! Readable lines as options change them: offsets, lengths, dates, masks, parts of byte strings, some tags, colours and secrets.

use crate::runs::{VERSION, run_with};
use std::alloc::{AllocError, Global};
use ttlv_run::{Encoding, Look, Task, Values};

/// A key block with a key in parts, and a credential.
pub const KEY_BLOCK: &str =
    "4200400100000088420042050000000400000001000000004200450100000038420043010000002042003F0800000008090909090909090942007505000000040000000400000000420009020000000400000007000000004200250100000020420099070000000446726564000000004200A10700000002707700000000000042009407000000026964000000000000";

// How lines are printed, a message, and its lines.
type Row = (Look<'static>, &'static str, &'static str);

const OFFSETS: Look<'static> = Look {
    offsets: true,
    ..Look::PLAIN
};

const LENGTHS: Look<'static> = Look {
    lengths: true,
    width: Some(4),
    ..Look::PLAIN
};

const BOTH: Look<'static> = Look {
    offsets: true,
    lengths: true,
    ..Look::PLAIN
};

const BYTES: Look<'static> = Look {
    bytes: true,
    ..Look::PLAIN
};

const ALL_COLUMNS: Look<'static> = Look {
    offsets: true,
    lengths: true,
    bytes: true,
    width: Some(4),
    ..Look::PLAIN
};

const COLORS: Look<'static> = Look {
    colored: true,
    ..Look::PLAIN
};

const WIDTH: Look<'static> = Look {
    width: Some(4),
    ..Look::PLAIN
};

const SECRETS: Look<'static> = Look {
    secrets_hidden: true,
    ..Look::PLAIN
};

// The items with the tag Key Material, with everything in them.
const KEY_MATERIAL: Look<'static> = Look {
    only: Some(&[0x420043]),
    ..Look::PLAIN
};

// Key, and Key Material, which has such an item in it.
const KEYS: Look<'static> = Look {
    only: Some(&[0x42003F, 0x420043]),
    ..Look::PLAIN
};

// Password, Key Material and Attribute Index, and a tag that isn't there.
const SEVERAL: Look<'static> = Look {
    only: Some(&[0x4200A1, 0x420043, 0x42000D, 0x420009]),
    ..Look::PLAIN
};

const ROWS: [Row; 12] = [
    (
        OFFSETS,
        VERSION,
        "0\tTag: Protocol Version (0x420069), Type: Structure (0x01), Data:\n8\t  Tag: Protocol Version Major (0x42006A), Type: Integer (0x02), Data: 0x000001 (1)\n24\t  Tag: Protocol Version Minor (0x42006B), Type: Integer (0x02), Data: 0x000000 (0)\n",
    ),
    // Offsets in the second message count from the start of the first.
    (
        OFFSETS,
        "420069010000000042006A0100000000",
        "0\tTag: Protocol Version (0x420069), Type: Structure (0x01), Data:\n8\tTag: Protocol Version Major (0x42006A), Type: Structure (0x01), Data:\n",
    ),
    // Lengths are those of values, without their padding; a part that is printed doesn't change them.
    (
        LENGTHS,
        "42009101000000284200430800000004010203AB000000004200430800000005010203AB050000004200430800000000",
        "40\tTag: Template-Attribute (0x420091), Type: Structure (0x01), Data:\n4\t  Tag: Key Material (0x420043), Type: ByteString (0x08), Data: 010203AB\n5\t  Tag: Key Material (0x420043), Type: ByteString (0x08), Data: 010203AB.. (5 bytes)\n0\t  Tag: Key Material (0x420043), Type: ByteString (0x08), Data: \n",
    ),
    // Offsets come first.
    (
        BOTH,
        VERSION,
        "0\t32\tTag: Protocol Version (0x420069), Type: Structure (0x01), Data:\n8\t4\t  Tag: Protocol Version Major (0x42006A), Type: Integer (0x02), Data: 0x000001 (1)\n24\t4\t  Tag: Protocol Version Minor (0x42006B), Type: Integer (0x02), Data: 0x000000 (0)\n",
    ),
    // Of a structure its header, of a leaf its header and its value.
    (
        BYTES,
        VERSION,
        "4200690100000020\tTag: Protocol Version (0x420069), Type: Structure (0x01), Data:\n42006A020000000400000001\t  Tag: Protocol Version Major (0x42006A), Type: Integer (0x02), Data: 0x000001 (1)\n42006B020000000400000000\t  Tag: Protocol Version Minor (0x42006B), Type: Integer (0x02), Data: 0x000000 (0)\n",
    ),
    // Bytes come last; of a value at most as many as of a byte string.
    (
        ALL_COLUMNS,
        "42009101000000284200430800000004010203AB000000004200430800000005010203AB050000004200430800000000",
        "0\t40\t4200910100000028\tTag: Template-Attribute (0x420091), Type: Structure (0x01), Data:\n8\t4\t4200430800000004010203AB\t  Tag: Key Material (0x420043), Type: ByteString (0x08), Data: 010203AB\n24\t5\t4200430800000005010203AB..\t  Tag: Key Material (0x420043), Type: ByteString (0x08), Data: 010203AB.. (5 bytes)\n40\t0\t4200430800000000\t  Tag: Key Material (0x420043), Type: ByteString (0x08), Data: \n",
    ),
    (
        COLORS,
        "420069010000001042006A02000000040000000100000000",
        "\u{1b}[36mTag: Protocol Version (0x420069)\u{1b}[0m, Type: Structure (0x01), Data:\n\u{1b}[36m  Tag: Protocol Version Major (0x42006A)\u{1b}[0m, Type: Integer (0x02), Data: \u{1b}[32m0x000001 (1)\u{1b}[0m\n",
    ),
    // Masks: two bits; a bit without a name and two with names; one without a name; no bit; a storage status. A number is no mask.
    (
        Look::PLAIN,
        "420091010000006042002C02000000040000000C0000000042002C0200000004010000410000000042002C0200000004010000000000000042002C0200000004000000000000000042008E0200000004000000030000000042000D02000000040000000300000000",
        "Tag: Template-Attribute (0x420091), Type: Structure (0x01), Data:\n  Tag: Cryptographic Usage Mask (0x42002C), Type: Integer (0x02), Data: 0x00000C (12) Encrypt | Decrypt\n  Tag: Cryptographic Usage Mask (0x42002C), Type: Integer (0x02), Data: 0x1000041 (16777281) Sign | Export\n  Tag: Cryptographic Usage Mask (0x42002C), Type: Integer (0x02), Data: 0x1000000 (16777216)\n  Tag: Cryptographic Usage Mask (0x42002C), Type: Integer (0x02), Data: 0x000000 (0)\n  Tag: Storage Status Mask (0x42008E), Type: Integer (0x02), Data: 0x000003 (3) Online Storage | Archival Storage\n  Tag: Batch Count (0x42000D), Type: Integer (0x02), Data: 0x000003 (3)\n",
    ),
    // Dates: the first second, the ends of two days, the day after the 28 February of 2100, and the last second; later and earlier
    // ones are numbers.
    (
        Look::PLAIN,
        "42009101000000704200010900000008000000000000000042000109000000080000000038BB0BFF42000109000000080000000038BC5D7F420001090000000800000000F4D41F8042000109000000080000003AFFF4417F42000109000000080000003AFFF441804200010900000008FFFFFFFFFFFFFFFF",
        "Tag: Template-Attribute (0x420091), Type: Structure (0x01), Data:\n  Tag: Activation Date (0x420001), Type: DateTime (0x09), Data: 0x000000 1970-01-01T00:00:00Z\n  Tag: Activation Date (0x420001), Type: DateTime (0x09), Data: 0x38BB0BFF 2000-02-28T23:59:59Z\n  Tag: Activation Date (0x420001), Type: DateTime (0x09), Data: 0x38BC5D7F 2000-02-29T23:59:59Z\n  Tag: Activation Date (0x420001), Type: DateTime (0x09), Data: 0xF4D41F80 2100-03-01T00:00:00Z\n  Tag: Activation Date (0x420001), Type: DateTime (0x09), Data: 0x3AFFF4417F 9999-12-31T23:59:59Z\n  Tag: Activation Date (0x420001), Type: DateTime (0x09), Data: 0x3AFFF44180\n  Tag: Activation Date (0x420001), Type: DateTime (0x09), Data: 0xFFFFFFFFFFFFFFFF\n",
    ),
    // A byte string that is as long as the width, a longer one and an empty one.
    (
        WIDTH,
        "42009101000000284200430800000004010203AB000000004200430800000005010203AB050000004200430800000000",
        "Tag: Template-Attribute (0x420091), Type: Structure (0x01), Data:\n  Tag: Key Material (0x420043), Type: ByteString (0x08), Data: 010203AB\n  Tag: Key Material (0x420043), Type: ByteString (0x08), Data: 010203AB.. (5 bytes)\n  Tag: Key Material (0x420043), Type: ByteString (0x08), Data: \n",
    ),
    // A key whose numbers stand behind a Key Material of no length, and behind the Key Value around that.
    (
        SECRETS,
        "420040010000005042004205000000040000000A00000000420045010000000842004301000000004200630400000008000000000000001142005E0400000008000000000000000D42003F08000000030102030000000000",
        "Tag: Key Block (0x420040), Type: Structure (0x01), Data:\n  Tag: Key Format Type (0x420042), Type: Enumeration (0x05), Data: 0x00000A (10) Transparent RSA Private Key\n  Tag: Key Value (0x420045), Type: Structure (0x01), Data:\n    Tag: Key Material (0x420043), Type: Structure (0x01), Data:\n  Tag: Private Exponent (0x420063), Type: BigInteger (0x04), Data: <redacted>\n  Tag: P (0x42005E), Type: BigInteger (0x04), Data: <redacted>\n  Tag: Key (0x42003F), Type: ByteString (0x08), Data: <redacted>\n",
    ),
    // All values in a key, beside it in its Key Value, and in a credential are hidden.
    (
        SECRETS,
        KEY_BLOCK,
        "Tag: Key Block (0x420040), Type: Structure (0x01), Data:\n  Tag: Key Format Type (0x420042), Type: Enumeration (0x05), Data: 0x000001 (1) Raw\n  Tag: Key Value (0x420045), Type: Structure (0x01), Data:\n    Tag: Key Material (0x420043), Type: Structure (0x01), Data:\n      Tag: Key (0x42003F), Type: ByteString (0x08), Data: <redacted>\n      Tag: Recommended Curve (0x420075), Type: Enumeration (0x05), Data: <redacted>\n    Tag: Attribute Index (0x420009), Type: Integer (0x02), Data: <redacted>\n  Tag: Credential Value (0x420025), Type: Structure (0x01), Data:\n    Tag: Username (0x420099), Type: TextString (0x07), Data: <redacted>\n    Tag: Password (0x4200A1), Type: TextString (0x07), Data: <redacted>\n  Tag: Unique Identifier (0x420094), Type: TextString (0x07), Data: id\n",
    ),
];

const KEY_MATERIAL_LINES: &str =
    "    Tag: Key Material (0x420043), Type: Structure (0x01), Data:\n      Tag: Key (0x42003F), Type: ByteString (0x08), Data: 0909090909090909\n      Tag: Recommended Curve (0x420075), Type: Enumeration (0x05), Data: 0x000004 (4) P-224\n";

fn prints(alloc: Global, row: Row) -> bool {
    let (look, input, text) = row;
    let task = Task::Show { look };
    match run_with(alloc, alloc, task, Encoding::Hexadecimal, input.as_bytes()) {
        Ok(outcome) => outcome.is(0, text, ""),
        Err(AllocError) => false,
    }
}

#[test]
fn looks(rt: HostRuntime) {
    for row in ROWS {
        assert!(rt; prints(rt.alloc(), row), "{row:?}");
    }
}

const SEVERAL_LINES: &str =
    "    Tag: Key Material (0x420043), Type: Structure (0x01), Data:\n      Tag: Key (0x42003F), Type: ByteString (0x08), Data: 0909090909090909\n      Tag: Recommended Curve (0x420075), Type: Enumeration (0x05), Data: 0x000004 (4) P-224\n    Tag: Attribute Index (0x420009), Type: Integer (0x02), Data: 0x000007 (7)\n    Tag: Password (0x4200A1), Type: TextString (0x07), Data: pw\n";

#[test]
fn some_tags(rt: HostRuntime) {
    for row in [
        (KEY_MATERIAL, KEY_BLOCK, KEY_MATERIAL_LINES),
        (KEYS, KEY_BLOCK, KEY_MATERIAL_LINES),
        (SEVERAL, KEY_BLOCK, SEVERAL_LINES),
    ] {
        assert!(rt; prints(rt.alloc(), row), "{row:?}");
    }
}

// Every bit of a mask is set: the names of those that have one, in their order.
const ALL_BITS: Row = (
    Look::PLAIN,
    "420091010000001042002C0200000004FFFFFFFF00000000",
    "Tag: Template-Attribute (0x420091), Type: Structure (0x01), Data:\n  Tag: Cryptographic Usage Mask (0x42002C), Type: Integer (0x02), Data: 0xFFFFFFFF (-1) Sign | Verify | Encrypt | Decrypt | Wrap Key | Unwrap Key | Export | MAC Generate | MAC Verify | Derive Key | Content Commitment | Key Agreement | Certificate Sign | CRL Sign | Generate Cryptogram | Validate Cryptogram | Translate Encrypt | Translate Decrypt | Translate Wrap | Translate Unwrap | Authenticate | Unrestricted | FPE Encrypt | FPE Decrypt\n",
);

#[test]
fn all_bits(rt: HostRuntime) {
    assert!(rt; prints(rt.alloc(), ALL_BITS));
}
