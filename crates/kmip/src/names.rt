//! What the standard calls tags and values.

use kmip_ttlv_names::{STANDARD_MASKS, STANDARD_TAGS, STANDARD_VALUES, value_name};
use kmip_ttlv_types::number;

/// What is behind the tag in the line of a tag, in a table of names.
pub fn line_of(table: &str, tag: u32) -> Option<&str> {
    for line in table.split('\n') {
        if let Some((digits, names)) = line.split_once(' ')
            && number(digits) == Some(tag)
        {
            return Some(names);
        }
    }
    None
}

/// The name of a tag.
pub fn name_of_tag(tag: u32) -> Option<&'static str> {
    line_of(STANDARD_TAGS, tag)
}

/// The name of a value of an Enumeration under a tag.
pub fn name_of_value(tag: u32, value: u32) -> Option<&'static str> {
    value_name(line_of(STANDARD_VALUES, tag)?, value)
}

/// The list of values of an Enumeration, as `1=DES;2=3DES`; empty if it has none.
pub fn values_of(tag: u32) -> &'static str {
    line_of(STANDARD_VALUES, tag).unwrap_or("")
}

/// The list of bits of a mask, likewise, if it is one.
pub fn bits_of(tag: u32) -> Option<&'static str> {
    line_of(STANDARD_MASKS, tag)
}
