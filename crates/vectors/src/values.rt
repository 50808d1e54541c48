//! Values as JSON, and the data that they are (docs/VECTORS.md).

use kmip_ttlv_base::shape::Data;
use serde_json::Value;
use std::alloc::{AllocError, Global};

/// How deep JSON is read: no file is read that is deeper.
pub const MOST_DEEP: u32 = 127;

// Bytes for as long as the program runs.
fn lasting_bytes(alloc: Global, bytes: &[u8]) -> Result<&'static [u8], AllocError> {
    let lasting = Vec::from_slice(alloc, bytes)?;
    Ok(lasting.leak())
}

/// A name for as long as the program runs, as shapes and data have it.
pub fn lasting(alloc: Global, name: &str) -> Result<&'static str, AllocError> {
    match str::from_utf8(lasting_bytes(alloc, name.as_bytes())?) {
        Ok(text) => Ok(text),
        Err(_) => Ok("no text"),
    }
}

/// The only member of an object: its name and its value.
pub fn member(json: &Value) -> Option<(&str, &Value)> {
    let Value::Object(members) = json else {
        return None;
    };
    let mut all = members.iter();
    match (all.next(), all.next()) {
        (Some((name, inner)), None) => Some((name.as_str(), inner)),
        _ => None,
    }
}

/// The items of an array.
pub fn items(json: &Value) -> Option<&[Value]> {
    match json {
        Value::Array(items) => Some(items.as_slice()),
        _ => None,
    }
}

/// An array of a text and something else.
pub fn pair(json: &Value) -> Option<(&str, &Value)> {
    match items(json)? {
        [Value::String(name), inner] => Some((name.as_str(), inner)),
        _ => None,
    }
}

// A number without a sign that is data, if it is one.
fn unsigned_of(kind: &str, number: u64) -> Option<Data> {
    match kind {
        "enumeration" => Some(Data::U32(u32::try_from(number).ok()?)),
        "interval" => Some(Data::Interval(u32::try_from(number).ok()?)),
        "date_time_bits" => Some(Data::U64(number)),
        _ => None,
    }
}

// A number with a sign that is data, if it is one.
fn signed_of(kind: &str, number: i64) -> Option<Data> {
    match kind {
        "integer_8" => Some(Data::I8(i8::try_from(number).ok()?)),
        "integer_16" => Some(Data::I16(i16::try_from(number).ok()?)),
        "integer" => Some(Data::I32(i32::try_from(number).ok()?)),
        "long_integer" => Some(Data::I64(number)),
        "date_time" => Some(Data::DateTime(number)),
        _ => None,
    }
}

// A number that is data, if it is one.
fn number_of(kind: &str, json: &Value) -> Option<Data> {
    match kind {
        "boolean" => Some(Data::Bool(json.as_bool()?)),
        "enumeration" | "interval" | "date_time_bits" => unsigned_of(kind, json.as_u64()?),
        _ => signed_of(kind, json.as_i64()?),
    }
}

// A text or bytes.
fn string_of(alloc: Global, kind: &str, text: &str) -> Option<Data> {
    match kind {
        "text" => Some(Data::Text(String::from_str(alloc, text).ok()?)),
        "bytes" => Some(Data::Bytes(hex::decode(alloc, text).ok()?)),
        "big_integer" => Some(Data::BigInteger(hex::decode(alloc, text).ok()?)),
        "unsupported" => Some(Data::Unsupported(lasting(alloc, text).ok()?)),
        _ => None,
    }
}

// The data that each value is.
#[cycle(data)]
fn all_of(alloc: Global, json: &Value, depth: u32) -> Option<Vec<Data>> {
    let mut all = Vec::new(alloc);
    for item in items(json)? {
        all.push(data_of(alloc, item, depth)?).ok()?;
    }
    Some(all)
}

// Data in a box.
fn in_box(alloc: Global, data: Data) -> Option<Box<Data>> {
    Box::new(alloc, data).ok()
}

// The data that a value is, in a box.
#[cycle(data)]
fn boxed(alloc: Global, json: &Value, depth: u32) -> Option<Box<Data>> {
    match data_of(alloc, json, depth) {
        Some(data) => in_box(alloc, data),
        None => None,
    }
}

// The data of a variant: of a value, or of a list of them.
#[cycle(data)]
fn variant_of(alloc: Global, kind: &str, json: &Value, depth: u32) -> Option<Data> {
    let [Value::String(name), Value::String(variant), inner] = items(json)? else {
        return None;
    };
    let name = lasting(alloc, name.as_str()).ok()?;
    let variant = lasting(alloc, variant.as_str()).ok()?;
    if kind == "tuple" {
        let fields = all_of(alloc, inner, depth)?;
        return Some(Data::TupleVariant {
            name,
            variant,
            fields,
        });
    }
    let inner = boxed(alloc, inner, depth)?;
    Some(Data::NewtypeVariant {
        name,
        variant,
        inner,
    })
}

// The data under a name.
#[cycle(data)]
fn named_of(alloc: Global, kind: &str, json: &Value, depth: u32) -> Option<Data> {
    let (name, inner) = pair(json)?;
    let name = lasting(alloc, name).ok()?;
    match kind {
        "structure" => {
            let fields = all_of(alloc, inner, depth)?;
            Some(Data::Struct { name, fields })
        }
        "newtype" => {
            let inner = boxed(alloc, inner, depth)?;
            Some(Data::Newtype { name, inner })
        }
        "unit" => {
            let variant = lasting(alloc, inner.as_str()?).ok()?;
            Some(Data::UnitVariant { name, variant })
        }
        _ => None,
    }
}

// The data under a tag by its number.
#[cycle(data)]
fn numbered_of(alloc: Global, kind: &str, json: &Value, depth: u32) -> Option<Data> {
    let [number, inner] = items(json)? else {
        return None;
    };
    let tag = u32::try_from(number.as_u64()?).ok()?;
    if kind == "tagged" {
        let inner = boxed(alloc, inner, depth)?;
        return Some(Data::Tagged { tag, inner });
    }
    let fields = all_of(alloc, inner, depth)?;
    Some(Data::Structure { tag, fields })
}

/// The data that JSON no deeper than this is, if it is a value.
#[cycle(data)]
pub fn data_of(alloc: Global, json: &Value, depth: u32) -> Option<Data> {
    if depth == 0 {
        return None;
    }
    let Some((kind, inner)) = member(json) else {
        return if json.as_str() == Some("absent") {
            Some(Data::None)
        } else {
            None
        };
    };
    match kind {
        "present" => Some(Data::Some(boxed(alloc, inner, depth - 1)?)),
        "sequence" => Some(Data::Seq(all_of(alloc, inner, depth - 1)?)),
        "variant" | "tuple" => variant_of(alloc, kind, inner, depth - 1),
        "structure" | "newtype" | "unit" => named_of(alloc, kind, inner, depth - 1),
        "tagged" | "numbered" => numbered_of(alloc, kind, inner, depth - 1),
        _ => match inner {
            Value::String(text) => string_of(alloc, kind, text.as_str()),
            _ => number_of(kind, inner),
        },
    }
}
