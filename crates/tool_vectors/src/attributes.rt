//! How the values of attributes are named: by the Attribute Name in front, and references by their tags.

use crate::runs::{Outcome, names_in, of, run_with};
use kmip_ttlv_types::TtlvTag;
use std::alloc::{AllocError, Global};
use ttlv_run::run::run;
use ttlv_run::{Asked, Encoding, Look, Task, Values};

// How lines are printed, a message, and its lines.
type Row = (Look<'static>, &'static str, &'static str);

const HIDDEN: Look<'static> = Look {
    values: Values::Hidden,
    ..Look::PLAIN
};

const SECRETS: Look<'static> = Look {
    secrets_hidden: true,
    ..Look::PLAIN
};

const ROWS: [Row; 7] = [
    // A request to create a key (KMIP 1.0, section 4.1): AES, of 128 bits, to encrypt and decrypt.
    (
        Look::PLAIN,
        "42007801000001204200770100000038420069010000002042006A0200000004000000010000000042006B0200000004000000000000000042000D0200000004000000010000000042000F01000000D842005C0500000004000000010000000042007901000000C04200570500000004000000020000000042009101000000A8420008010000003042000A070000001743727970746F6772617068696320416C676F726974686D0042000B05000000040000000300000000420008010000003042000A070000001443727970746F67726170686963204C656E6774680000000042000B02000000040000008000000000420008010000003042000A070000001843727970746F67726170686963205573616765204D61736B42000B02000000040000000C00000000",
        "Tag: Request Message (0x420078), Type: Structure (0x01), Data:\n  Tag: Request Header (0x420077), Type: Structure (0x01), Data:\n    Tag: Protocol Version (0x420069), Type: Structure (0x01), Data:\n      Tag: Protocol Version Major (0x42006A), Type: Integer (0x02), Data: 0x000001 (1)\n      Tag: Protocol Version Minor (0x42006B), Type: Integer (0x02), Data: 0x000000 (0)\n    Tag: Batch Count (0x42000D), Type: Integer (0x02), Data: 0x000001 (1)\n  Tag: Batch Item (0x42000F), Type: Structure (0x01), Data:\n    Tag: Operation (0x42005C), Type: Enumeration (0x05), Data: 0x000001 (1) Create\n    Tag: Request Payload (0x420079), Type: Structure (0x01), Data:\n      Tag: Object Type (0x420057), Type: Enumeration (0x05), Data: 0x000002 (2) Symmetric Key\n      Tag: Template-Attribute (0x420091), Type: Structure (0x01), Data:\n        Tag: Attribute (0x420008), Type: Structure (0x01), Data:\n          Tag: Attribute Name (0x42000A), Type: TextString (0x07), Data: Cryptographic Algorithm\n          Tag: Attribute Value (0x42000B), Type: Enumeration (0x05), Data: 0x000003 (3) AES\n        Tag: Attribute (0x420008), Type: Structure (0x01), Data:\n          Tag: Attribute Name (0x42000A), Type: TextString (0x07), Data: Cryptographic Length\n          Tag: Attribute Value (0x42000B), Type: Integer (0x02), Data: 0x000080 (128)\n        Tag: Attribute (0x420008), Type: Structure (0x01), Data:\n          Tag: Attribute Name (0x42000A), Type: TextString (0x07), Data: Cryptographic Usage Mask\n          Tag: Attribute Value (0x42000B), Type: Integer (0x02), Data: 0x00000C (12) Encrypt | Decrypt\n",
    ),
    // An index between; the last of two names, for two values, and one that is no tag; a value in front of a name, and a name in
    // lowercase; and a name that is no text.
    (
        Look::PLAIN,
        "4200910100000110420008010000003042000A070000000553746174650000004200090200000004000000000000000042000B05000000040000000200000000420008010000007042000A07000000094F7065726174696F6E0000000000000042000A070000000B4F626A6563742054797065000000000042000B0500000004000000020000000042000B0500000004000000010000000042000A0700000003782D31000000000042000B05000000040000000200000000420008010000003042000B0500000004000000020000000042000A0700000005737461746500000042000B05000000040000000200000000420008010000002042000A0500000004000000020000000042000B05000000040000000200000000",
        "Tag: Template-Attribute (0x420091), Type: Structure (0x01), Data:\n  Tag: Attribute (0x420008), Type: Structure (0x01), Data:\n    Tag: Attribute Name (0x42000A), Type: TextString (0x07), Data: State\n    Tag: Attribute Index (0x420009), Type: Integer (0x02), Data: 0x000000 (0)\n    Tag: Attribute Value (0x42000B), Type: Enumeration (0x05), Data: 0x000002 (2) Active\n  Tag: Attribute (0x420008), Type: Structure (0x01), Data:\n    Tag: Attribute Name (0x42000A), Type: TextString (0x07), Data: Operation\n    Tag: Attribute Name (0x42000A), Type: TextString (0x07), Data: Object Type\n    Tag: Attribute Value (0x42000B), Type: Enumeration (0x05), Data: 0x000002 (2) Symmetric Key\n    Tag: Attribute Value (0x42000B), Type: Enumeration (0x05), Data: 0x000001 (1) Certificate\n    Tag: Attribute Name (0x42000A), Type: TextString (0x07), Data: x-1\n    Tag: Attribute Value (0x42000B), Type: Enumeration (0x05), Data: 0x000002 (2)\n  Tag: Attribute (0x420008), Type: Structure (0x01), Data:\n    Tag: Attribute Value (0x42000B), Type: Enumeration (0x05), Data: 0x000002 (2)\n    Tag: Attribute Name (0x42000A), Type: TextString (0x07), Data: state\n    Tag: Attribute Value (0x42000B), Type: Enumeration (0x05), Data: 0x000002 (2)\n  Tag: Attribute (0x420008), Type: Structure (0x01), Data:\n    Tag: Attribute Name (0x42000A), Type: Enumeration (0x05), Data: 0x000002 (2)\n    Tag: Attribute Value (0x42000B), Type: Enumeration (0x05), Data: 0x000002 (2)\n",
    ),
    // A name in the structure around, behind a structure, and in one that ended.
    (
        Look::PLAIN,
        "420091010000007842000A07000000055374617465000000420008010000001042000B0500000004000000020000000042000B05000000040000000200000000420008010000002842000A070000000B4F626A6563742054797065000000000042000B0500000004000000020000000042000B05000000040000000200000000",
        "Tag: Template-Attribute (0x420091), Type: Structure (0x01), Data:\n  Tag: Attribute Name (0x42000A), Type: TextString (0x07), Data: State\n  Tag: Attribute (0x420008), Type: Structure (0x01), Data:\n    Tag: Attribute Value (0x42000B), Type: Enumeration (0x05), Data: 0x000002 (2)\n  Tag: Attribute Value (0x42000B), Type: Enumeration (0x05), Data: 0x000002 (2) Active\n  Tag: Attribute (0x420008), Type: Structure (0x01), Data:\n    Tag: Attribute Name (0x42000A), Type: TextString (0x07), Data: Object Type\n    Tag: Attribute Value (0x42000B), Type: Enumeration (0x05), Data: 0x000002 (2) Symmetric Key\n  Tag: Attribute Value (0x42000B), Type: Enumeration (0x05), Data: 0x000002 (2)\n",
    ),
    // An Integer is named as a mask, an Enumeration as a value, and an item of another tag as those of that tag are.
    (
        Look::PLAIN,
        "420091010000008042000A0700000005537461746500000042000B0200000004000000020000000042005C0500000004000000020000000042000A070000001843727970746F67726170686963205573616765204D61736B42000B02000000040000000C0000000042000B0500000004000000040000000042002C02000000040000000100000000",
        "Tag: Template-Attribute (0x420091), Type: Structure (0x01), Data:\n  Tag: Attribute Name (0x42000A), Type: TextString (0x07), Data: State\n  Tag: Attribute Value (0x42000B), Type: Integer (0x02), Data: 0x000002 (2)\n  Tag: Operation (0x42005C), Type: Enumeration (0x05), Data: 0x000002 (2) Create Key Pair\n  Tag: Attribute Name (0x42000A), Type: TextString (0x07), Data: Cryptographic Usage Mask\n  Tag: Attribute Value (0x42000B), Type: Integer (0x02), Data: 0x00000C (12) Encrypt | Decrypt\n  Tag: Attribute Value (0x42000B), Type: Enumeration (0x05), Data: 0x000004 (4)\n  Tag: Cryptographic Usage Mask (0x42002C), Type: Integer (0x02), Data: 0x000001 (1) Sign\n",
    ),
    // References to an attribute: a tag with a name, one without, a number that is no tag, and an Integer; and an attribute that
    // is a reference.
    (
        Look::PLAIN,
        "420091010000007042013B0500000004004200280000000042013B0500000004004200000000000042013B0500000004014200280000000042013B0200000004004200280000000042000A0700000013417474726962757465205265666572656E6365000000000042000B05000000040042002C00000000",
        "Tag: Template-Attribute (0x420091), Type: Structure (0x01), Data:\n  Tag: Attribute Reference (0x42013B), Type: Enumeration (0x05), Data: 0x420028 (4325416) Cryptographic Algorithm\n  Tag: Attribute Reference (0x42013B), Type: Enumeration (0x05), Data: 0x420000 (4325376)\n  Tag: Attribute Reference (0x42013B), Type: Enumeration (0x05), Data: 0x1420028 (21102632)\n  Tag: Attribute Reference (0x42013B), Type: Integer (0x02), Data: 0x420028 (4325416)\n  Tag: Attribute Name (0x42000A), Type: TextString (0x07), Data: Attribute Reference\n  Tag: Attribute Value (0x42000B), Type: Enumeration (0x05), Data: 0x42002C (4325420) Cryptographic Usage Mask\n",
    ),
    // Where values are hidden, a name names nothing, since it is hidden too.
    (
        HIDDEN,
        "420091010000004042000A0700000005537461746500000042000B0500000004000000020000000042000B0200000004000000020000000042013B05000000040042008D00000000",
        "Tag: Template-Attribute (0x420091), Type: Structure (0x01), Data:\n  Tag: Attribute Name (0x42000A), Type: TextString (0x07), Data: <redacted>\n  Tag: Attribute Value (0x42000B), Type: Enumeration (0x05), Data: 0x000002 (2)\n  Tag: Attribute Value (0x42000B), Type: Integer (0x02), Data: <redacted>\n  Tag: Attribute Reference (0x42013B), Type: Enumeration (0x05), Data: 0x42008D (4325517) State\n",
    ),
    // In a secret structure both are hidden; behind it they are not.
    (
        SECRETS,
        "4200910100000048420025010000002042000A0700000005537461746500000042000B0500000004000000020000000042000A0700000005537461746500000042000B05000000040000000200000000",
        "Tag: Template-Attribute (0x420091), Type: Structure (0x01), Data:\n  Tag: Credential Value (0x420025), Type: Structure (0x01), Data:\n    Tag: Attribute Name (0x42000A), Type: TextString (0x07), Data: <redacted>\n    Tag: Attribute Value (0x42000B), Type: Enumeration (0x05), Data: <redacted>\n  Tag: Attribute Name (0x42000A), Type: TextString (0x07), Data: State\n  Tag: Attribute Value (0x42000B), Type: Enumeration (0x05), Data: 0x000002 (2) Active\n",
    ),
];

fn prints(alloc: Global, row: Row) -> bool {
    let (look, input, text) = row;
    let task = Task::Show { look };
    match run_with(alloc, alloc, task, Encoding::Hexadecimal, input.as_bytes()) {
        Ok(outcome) => outcome.is(0, text, ""),
        Err(AllocError) => false,
    }
}

#[test]
fn attributes(rt: HostRuntime) {
    for row in ROWS {
        assert!(rt; prints(rt.alloc(), row), "{row:?}");
    }
}

// A name and a value.
const NAMED: &str =
    "420008010000002042000A0700000005537461746500000042000B05000000040000000200000000";

// The lines where names of attributes are secret.
const SECRET_LINES: &str =
    "Tag: Attribute (0x420008), Type: Structure (0x01), Data:\n  Tag: Attribute Name (0x42000A), Type: TextString (0x07), Data: <redacted>\n  Tag: Attribute Value (0x42000B), Type: Enumeration (0x05), Data: 0x000002 (2)\n";

// What is printed where a user's table calls names of attributes secret.
fn secret_names(alloc: Global) -> Result<Outcome, AllocError> {
    let mut names = names_in(alloc)?;
    if names
        .secrets
        .insert(TtlvTag::from([0x42, 0x00, 0x0A]), "Attribute Name")
        .is_err()
    {
        return Err(AllocError);
    }
    let asked = Asked::Print {
        task: Task::Show { look: SECRETS },
        encoding: Encoding::Hexadecimal,
    };
    let mut output = Vec::new(alloc);
    let mut errors = Vec::new(alloc);
    let status = run(
        of(alloc),
        asked,
        "capture",
        &names,
        &mut NAMED.as_bytes(),
        &mut output,
        &mut errors,
    );
    Ok(Outcome {
        status,
        output,
        errors,
    })
}

// A name that is hidden names nothing.
#[test]
fn a_secret_name(rt: HostRuntime) {
    assert!(rt;
        match secret_names(rt.alloc()) {
            Ok(outcome) => outcome.is(0, SECRET_LINES, ""),
            Err(AllocError) => false,
        }
    );
}
