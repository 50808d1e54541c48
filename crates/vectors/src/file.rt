//! What a file of tests holds: objects, each with the members that docs/VECTORS.md has. A value that a test doesn't have is not tried.

use serde_json::Value;

/// What a member is.
#[derive(Clone, Copy)]
pub enum Kind {
    Text,
    Flag,
    Number,
    List,
    /// What it is, is seen where it is tried.
    Any,
}

/// A member's name, what it is, and whether each such object has it.
pub type Member = (&'static str, Kind, bool);

/// A file: what it is about, where the expected values come from, and its lists of tests.
pub const FILE: [Member; 8] = [
    ("description", Kind::Text, true),
    ("source", Kind::Text, true),
    ("messages", Kind::List, false),
    ("diagnostics", Kind::List, false),
    ("names", Kind::List, false),
    ("jsons", Kind::List, false),
    ("decodings", Kind::List, false),
    ("encodings", Kind::List, false),
];

/// The bytes of a message, in hexadecimal, and what is made of them.
pub const MESSAGE: [Member; 12] = [
    ("name", Kind::Text, true),
    ("comment", Kind::Text, true),
    ("bytes", Kind::Text, true),
    // Why they are not one whole message, unless they are.
    ("fault", Kind::Any, false),
    // How many items stand before the fault, or at all.
    ("items", Kind::Number, false),
    // Whether each beginning of the bytes, without the last, is tried: it is cut.
    ("cuts", Kind::Flag, false),
    // The readable text, and that with closed empty structures.
    ("text", Kind::Text, false),
    ("closed_text", Kind::Text, false),
    ("diagnostics", Kind::List, false),
    // The JSON, that with hidden values, and the bytes that the first is read back as.
    ("json", Kind::Text, false),
    ("hidden_json", Kind::Text, false),
    ("canonical", Kind::Text, false),
];

/// The first fault, and the offset of its item.
pub const FAULT: [Member; 2] = [("kind", Kind::Text, true), ("offset", Kind::Number, true)];

/// A diagnostic without this prefix of tags, in which empty structures are closed or stay open, and how many items the
/// printer tries to read.
pub const SHOWN: [Member; 4] = [
    ("prefix", Kind::Text, true),
    ("closed", Kind::Flag, true),
    ("text", Kind::Text, true),
    ("read", Kind::Number, true),
];

/// A diagnostic without this prefix of tags, and the lines that it is read back as.
pub const DIAGNOSTIC: [Member; 5] = [
    ("name", Kind::Text, true),
    ("comment", Kind::Text, true),
    ("prefix", Kind::Text, true),
    ("diagnostic", Kind::Text, true),
    ("lines", Kind::Text, true),
];

/// A table of names of tags, or the standard's if there is none: texts with these names, or the line that can't be read.
pub const NAMED: [Member; 9] = [
    ("name", Kind::Text, true),
    ("comment", Kind::Text, true),
    ("table", Kind::Text, false),
    ("bad_line", Kind::Number, false),
    // The bytes of a message, in hexadecimal, and its readable text with closed empty structures.
    ("bytes", Kind::Text, false),
    ("text", Kind::Text, false),
    // A diagnostic without this prefix of tags, and the lines that it is read back as.
    ("prefix", Kind::Text, false),
    ("diagnostic", Kind::Text, false),
    ("lines", Kind::Text, false),
];

/// JSON, and the message that it is read back as, in hexadecimal, or what is wrong with it.
pub const JSON: [Member; 7] = [
    ("name", Kind::Text, true),
    ("comment", Kind::Text, true),
    ("json", Kind::Text, true),
    ("bytes", Kind::Text, false),
    ("error", Kind::Text, false),
    // The JSON with names of the message, and that with hidden values.
    ("named", Kind::Text, false),
    ("hidden_named", Kind::Text, false),
];

/// A shape, and what bytes are decoded as by it.
pub const DECODINGS: [Member; 2] = [("shape", Kind::Any, true), ("tests", Kind::List, true)];

/// Bytes in hexadecimal, and the value with which they begin, or the error.
pub const DECODING: [Member; 6] = [
    ("name", Kind::Text, true),
    ("comment", Kind::Text, true),
    ("bytes", Kind::Text, true),
    // Whether each beginning of the bytes ends too early.
    ("cuts", Kind::Flag, false),
    ("value", Kind::Any, false),
    ("error", Kind::Any, false),
];

/// A value, and its canonical bytes in hexadecimal, or the error.
pub const ENCODING: [Member; 5] = [
    ("name", Kind::Text, true),
    ("comment", Kind::Text, true),
    ("value", Kind::Any, true),
    ("bytes", Kind::Text, false),
    ("error", Kind::Any, false),
];

// Whether a value is this.
fn is_of(kind: Kind, value: &Value) -> bool {
    match kind {
        Kind::Text => matches!(value, Value::String(_)),
        Kind::Flag => matches!(value, Value::Bool(_)),
        Kind::Number => value.as_u64().is_some(),
        Kind::List => matches!(value, Value::Array(_)),
        Kind::Any => true,
    }
}

// Whether a member is one of these.
fn is_listed(members: &[Member], found: &str, value: &Value) -> bool {
    for (name, kind, _) in members {
        if *name == found {
            return is_of(*kind, value);
        }
    }
    false
}

// Whether the members that each such object has are there.
fn has_needed(members: &[Member], object: &Value) -> bool {
    for (name, _, is_needed) in members {
        if *is_needed && value(object, name).is_none() {
            return false;
        }
    }
    true
}

/// Whether a value is an object of these members.
pub fn has_members(members: &[Member], object: &Value) -> bool {
    let Value::Object(all) = object else {
        return false;
    };
    for (name, inner) in all.iter() {
        if !is_listed(members, name.as_str(), inner) {
            return false;
        }
    }
    has_needed(members, object)
}

/// The member of this name.
pub fn value<'v>(object: &'v Value, name: &str) -> Option<&'v Value> {
    object.get(name)
}

/// The text that a member is, if the object has it.
pub fn text_if<'v>(object: &'v Value, name: &str) -> Option<&'v str> {
    match value(object, name) {
        Some(Value::String(text)) => Some(text.as_str()),
        _ => None,
    }
}

/// The text that a member is, or none.
pub fn text<'v>(object: &'v Value, name: &str) -> &'v str {
    text_if(object, name).unwrap_or("")
}

/// Whether a member is true.
pub fn flag(object: &Value, name: &str) -> bool {
    matches!(value(object, name), Some(Value::Bool(true)))
}

/// The number that a member is, if the object has it.
pub fn number_if(object: &Value, name: &str) -> Option<u64> {
    match value(object, name) {
        Some(number) => number.as_u64(),
        None => None,
    }
}

/// The values of a list, or none.
pub fn list<'v>(object: &'v Value, name: &str) -> &'v [Value] {
    match value(object, name) {
        Some(Value::Array(items)) => items.as_slice(),
        _ => &[],
    }
}
