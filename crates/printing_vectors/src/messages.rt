//! Messages, and texts made of parts.

use std::alloc::{AllocError, Global};

/// A version of the protocol: two numbers.
pub const VERSION: &str =
    "420069010000002042006A0200000004000000010000000042006B02000000040000000000000000";

/// The readable text of [`VERSION`], without names of tags.
pub const VERSION_LINES: &str =
    "Tag: 0x420069, Type: Structure (0x01), Data:\n  Tag: 0x42006A, Type: Integer (0x02), Data: 0x000001 (1)\n  Tag: 0x42006B, Type: Integer (0x02), Data: 0x000000 (0)\n";

/// The lines that its diagnostic is read back as.
pub const REDACTED_LINES: &str =
    "Tag: 0x420069, Type: Structure (0x01), Data: \n  Tag: 0x42006A, Type: Integer (0x02), Data: <redacted>\n  Tag: 0x42006B, Type: Integer (0x02), Data: <redacted>";

/// A request to create a key (KMIP 1.0, section 4.1).
pub const CREATE_REQUEST: &str =
    "42007801000001204200770100000038420069010000002042006A0200000004000000010000000042006B0200000004000000000000000042000D0200000004000000010000000042000F01000000D842005C0500000004000000010000000042007901000000C04200570500000004000000020000000042009101000000A8420008010000003042000A070000001743727970746F6772617068696320416C676F726974686D0042000B05000000040000000300000000420008010000003042000A070000001443727970746F67726170686963204C656E6774680000000042000B02000000040000008000000000420008010000003042000A070000001843727970746F67726170686963205573616765204D61736B42000B02000000040000000C00000000";

/// A text of its beginning, of a part so many times, and of its end.
pub fn made_of(
    alloc: Global,
    first: &str,
    part: &str,
    times: usize,
    end: &str,
) -> Result<String, AllocError> {
    let mut text = String::from_str(alloc, first)?;
    for _ in 0..times {
        text.push_str(part)?;
    }
    text.push_str(end)?;
    Ok(text)
}

/// Whether a text is made of these.
pub fn is_made_of(text: &str, first: &str, part: &str, times: usize, end: &str) -> bool {
    let Some(mut rest) = text.strip_prefix(first) else {
        return false;
    };
    for _ in 0..times {
        match rest.strip_prefix(part) {
            Some(behind) => rest = behind,
            None => return false,
        }
    }
    rest == end
}
