//! Bytes of parts, in hexadecimal, as KMIP 1.0, section 9.1 has them; and whether a value is written as bytes, and read of them.

use hex::FromHexError;
use kmip_ttlv::error::Result;
use kmip_ttlv::shape::{Data, Decode, Serialize};
use kmip_ttlv::{from_slice, to_vec};
use std::alloc::Global;

/// Numbers: -2, and the greatest of 64 bits.
pub const NUMBERS: &str =
    "54000101000000205400020200000004FFFFFFFE0000000054000303000000087FFFFFFFFFFFFFFF";

/// A date, truth, and an hour.
pub const MOMENTS: &str = "54000901000000305400040900000008000000004AFBE7C2\
540005060000000800000000000000015400060A0000000400000E1000000000";

/// The same numbers and a date, which may be absent.
pub const OPTIONAL_NUMBERS: &str = "54001001000000305400020200000004FFFFFFFE00000000\
54000303000000087FFFFFFFFFFFFFFF5400040900000008000000004AFBE7C2";

/// A text, bytes, and the number 257.
pub const CONTENTS: &str =
    "5400200100000030540021070000000341424300000000005400220800000002FFFE000000000000\
54002304000000080000000000000101";

/// The same, behind truth and an hour.
pub const OPTIONAL_CONTENTS: &str = "540030010000005054000506000000080000000000000001\
5400060A0000000400000E1000000000540021070000000341424300000000005400220800000002FFFE000000000000\
54002304000000080000000000000101";

/// A vendor's number, and 9.
pub const REASONS: &str =
    "54001501000000205400070500000004800000010000000054000805000000040000000900000000";

/// A text that its name chooses.
pub const TEXT: &str =
    "54005001000000205400420700000004546578740000000054004107000000034142430000000000";

/// A number and bytes in a Structure, which their name chooses.
pub const PAIR: &str = "5400500100000038540042070000000450616972000000005400410100000020\
540002020000000400000005000000005400220800000001FF00000000000000";

/// An Enumeration of 3 behind a name that chooses nothing.
pub const THREE: &str =
    "54005001000000205400420700000005546872656500000054004105000000040000000300000000";

/// A name, -2 and a date.
pub const NAMED: &str = "540070010000003054004207000000045465787400000000\
5400020200000004FFFFFFFE000000005400040900000008000000004AFBE7C2";

/// -2, 5, the greatest number of 64 bits, a date, truth, and an hour.
pub const MANY: &str =
    "54008001000000605400020200000004FFFFFFFE0000000054008102000000040000000500000000\
54000303000000087FFFFFFFFFFFFFFF5400040900000008000000004AFBE7C2\
540005060000000800000000000000015400060A0000000400000E1000000000";

/// An Enumeration with the number 1, which its type always has.
pub const CONSTANT: &str = "54006105000000040000000100000000";

/// The second of two.
pub const SECOND: &str = "54004005000000040000000200000000";

/// The header of a message of all of these parts, and of one without those that may be absent.
pub const WHOLE: &str = "54006001000001A8";

pub const SMALL: &str = "54006001000000E0";

/// The bytes of texts in hexadecimal, one after the other.
pub fn joined(alloc: Global, texts: &[&str]) -> std::result::Result<Vec<u8>, FromHexError> {
    let mut text = String::new(alloc);
    for one in texts {
        text.push_str(one)?;
    }
    hex::decode(alloc, text.as_str())
}

/// What data is written as.
pub fn data_bytes(alloc: Global, data: &Data) -> Result<Vec<u8>> {
    to_vec(alloc, data)
}

/// Whether a value is written as these bytes.
pub fn is_written<T: Serialize>(alloc: Global, value: &T, bytes: &[u8]) -> bool {
    matches!(&to_vec(alloc, value), Ok(found) if found.as_slice() == bytes)
}

// Whether this value is what was read.
fn is_found<T: PartialEq>(found: &Result<T>, value: &T) -> bool {
    matches!(found, Ok(found) if *found == *value)
}

/// Whether a message is written as the bytes of texts in hexadecimal, and read of them.
pub fn is_both_ways<T: Serialize + Decode<Global> + PartialEq>(
    alloc: Global,
    value: &T,
    texts: &[&str],
) -> bool {
    match &joined(alloc, texts) {
        Ok(bytes) => is_written(alloc, value, bytes) && is_found(&from_slice(alloc, bytes), value),
        Err(_) => false,
    }
}

/// Whether a message is written as these bytes, in hexadecimal, and read of them.
pub fn comes_back<T: Serialize + Decode<Global> + PartialEq>(
    alloc: Global,
    value: &T,
    text: &str,
) -> bool {
    is_both_ways(alloc, value, &[text])
}
