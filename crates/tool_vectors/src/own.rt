//! A user's names of tags, of enumerations' values and of masks' bits.

use crate::runs::{Outcome, VERSION, of};
use kmip_ttlv_memory::BoundedAllocator;
use kmip_ttlv_names::{
    STANDARD_TAGS, TableError, own_names, standard_masks, standard_secrets, standard_values,
    tag_names, tags_by_name,
};
use std::alloc::Global;
use ttlv_run::run::run;
use ttlv_run::table::own_table;
use ttlv_run::{Asked, Encoding, Look, Names, Task};

// A user's table, a message, and its lines.
const ROWS: [(&str, &str, &str); 6] = [
    // Of a tag with a name, too, all six digits are shown.
    (
        "000012 Small\n",
        "0000120100000000",
        "Tag: Small (0x000012), Type: Structure (0x01), Data:\n",
    ),
    // A tag's name comes before the standard's.
    (
        "420069 Which Version\n",
        VERSION,
        "Tag: Which Version (0x420069), Type: Structure (0x01), Data:\n  Tag: Protocol Version Major (0x42006A), Type: Integer (0x02), Data: 0x000001 (1)\n  Tag: Protocol Version Minor (0x42006B), Type: Integer (0x02), Data: 0x000000 (0)\n",
    ),
    // Of an own tag a value with a name, by its last line, and one without; the same number in an Integer is a bit.
    (
        "540001 Own Kind\n540001:00000002 Own Value\n540001:2 Last Line\n",
        "5400000100000030540001050000000400000002000000005400010500000004000000030000000054000102000000040000000600000000",
        "Tag: 0x540000, Type: Structure (0x01), Data:\n  Tag: Own Kind (0x540001), Type: Enumeration (0x05), Data: 0x000002 (2) Last Line\n  Tag: Own Kind (0x540001), Type: Enumeration (0x05), Data: 0x000003 (3)\n  Tag: Own Kind (0x540001), Type: Integer (0x02), Data: 0x000006 (6) Last Line\n",
    ),
    // KMIP's Operation and Cryptographic Usage Mask: an own name, and the standard's where there is none.
    (
        "42005C:00000001 Make\n0x42002C:0x4 Encipher\n",
        "540000010000003042005C0500000004000000010000000042005C0500000004000000020000000042002C02000000040000000C00000000",
        "Tag: 0x540000, Type: Structure (0x01), Data:\n  Tag: Operation (0x42005C), Type: Enumeration (0x05), Data: 0x000001 (1) Make\n  Tag: Operation (0x42005C), Type: Enumeration (0x05), Data: 0x000002 (2) Create Key Pair\n  Tag: Cryptographic Usage Mask (0x42002C), Type: Integer (0x02), Data: 0x00000C (12) Encipher | Decrypt\n",
    ),
    // Attributes by a user's names of tags: of an own tag, and of one of KMIP's.
    (
        "540001 Own Kind\n540001:00000002 Own Value\n42008D Own State\n",
        "420091010000005842000A07000000084F776E204B696E6442000B0500000004000000020000000042000B0200000004000000060000000042000A07000000094F776E2053746174650000000000000042000B05000000040000000100000000",
        "Tag: Template-Attribute (0x420091), Type: Structure (0x01), Data:\n  Tag: Attribute Name (0x42000A), Type: TextString (0x07), Data: Own Kind\n  Tag: Attribute Value (0x42000B), Type: Enumeration (0x05), Data: 0x000002 (2) Own Value\n  Tag: Attribute Value (0x42000B), Type: Integer (0x02), Data: 0x000006 (6) Own Value\n  Tag: Attribute Name (0x42000A), Type: TextString (0x07), Data: Own State\n  Tag: Attribute Value (0x42000B), Type: Enumeration (0x05), Data: 0x000001 (1) Pre-Active\n",
    ),
    // The lowest bit and the highest; values of another tag, and of another number, name nothing.
    (
        "540002:00000001 Low\n540002:80000000 High\n540003:4 Another\n",
        "54000001000000205400020200000004800000050000000054000302000000040000000300000000",
        "Tag: 0x540000, Type: Structure (0x01), Data:\n  Tag: 0x540002, Type: Integer (0x02), Data: 0x80000005 (-2147483643) Low | High\n  Tag: 0x540003, Type: Integer (0x02), Data: 0x000003 (3)\n",
    ),
];

// What is printed of a message with a user's table of names.
fn printed(alloc: Global, table: &str, message: &str) -> Result<Outcome, TableError> {
    let mut output = Vec::new(alloc);
    let mut errors = Vec::new(alloc);
    let Ok(all) = own_table(
        alloc,
        STANDARD_TAGS,
        "names",
        &mut table.as_bytes(),
        &mut errors,
    ) else {
        return Err(TableError::OutOfMemory);
    };
    let own = own_names(alloc, all.as_str())?;
    let Ok(by_name) = tags_by_name(alloc, all.as_str()) else {
        return Err(TableError::OutOfMemory);
    };
    let names = Names {
        tags: own.tags,
        by_name,
        values: standard_values(alloc)?,
        masks: standard_masks(alloc)?,
        own: own.values,
        secrets: standard_secrets(alloc)?,
        words: None,
    };
    let asked = Asked::Print {
        task: Task::Show { look: Look::PLAIN },
        encoding: Encoding::Hexadecimal,
    };
    let status = run(
        of(alloc),
        asked,
        "capture",
        &names,
        &mut message.as_bytes(),
        &mut output,
        &mut errors,
    );
    Ok(Outcome {
        status,
        output,
        errors,
    })
}

fn is_printed(alloc: Global, row: (&str, &str, &str)) -> bool {
    let (table, message, text) = row;
    match printed(alloc, table, message) {
        Ok(outcome) => outcome.is(0, text, ""),
        Err(_) => false,
    }
}

#[test]
fn a_users_names(rt: HostRuntime) {
    for row in ROWS {
        assert!(rt; is_printed(rt.alloc(), row), "{row:?}");
    }
}

// Where a table may name tags alone, a line for a value is bad.
#[test]
fn a_value_is_no_tag(rt: HostRuntime) {
    let table = "540001 Own Tag\n540001:00000002 Own Value\n";
    assert!(rt; matches!(tag_names(rt.alloc(), table), Err(TableError::BadLine(2))));
}

// Whether reading a table is out of memory if and only if this allocation fails.
fn returns_error(alloc: Global, before: u64) -> bool {
    let heap = BoundedAllocator::failing_after(alloc, before);
    let own = own_names(
        &heap,
        "540001 Own Tag\n540001:2 Own Value\n540001:3 Another\n",
    );
    matches!(own, Err(TableError::OutOfMemory)) == heap.has_failed()
}

#[test]
fn each_growth_may_fail(rt: HostRuntime) {
    for before in 0..4 {
        assert!(rt; returns_error(rt.alloc(), before), "{before}");
    }
}
