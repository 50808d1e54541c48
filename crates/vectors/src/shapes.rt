//! Shapes as JSON, and as what bytes are decoded by (docs/VECTORS.md).

use crate::values::{items, lasting, member, pair};
use kmip_ttlv_base::shape::{FieldShape, Shape, VariantContent, VariantShape};
use serde_json::Value;
use std::alloc::Global;

// The shape of a leaf.
fn leaf_of(name: &str) -> Option<Shape> {
    match name {
        "boolean" => Some(Shape::Bool),
        "integer" => Some(Shape::I32),
        "enumeration" => Some(Shape::U32),
        "long_integer" => Some(Shape::I64),
        "date_time" => Some(Shape::DateTime),
        "interval" => Some(Shape::Interval),
        "text" => Some(Shape::Text),
        "bytes" => Some(Shape::Bytes),
        "big_integer" => Some(Shape::BigInteger),
        _ => None,
    }
}

// A shape in a box.
fn in_box(alloc: Global, shape: Shape) -> Option<Box<Shape>> {
    Box::new(alloc, shape).ok()
}

// The shape that JSON is, in a box.
#[cycle(shapes)]
fn boxed(alloc: Global, json: &Value, depth: u32) -> Option<Box<Shape>> {
    match shape_of(alloc, json, depth) {
        Some(shape) => in_box(alloc, shape),
        None => None,
    }
}

// The shapes of a tuple.
#[cycle(shapes)]
fn shapes_of(alloc: Global, json: &Value, depth: u32) -> Option<Vec<Shape>> {
    let mut shapes = Vec::new(alloc);
    for item in items(json)? {
        shapes.push(shape_of(alloc, item, depth)?).ok()?;
    }
    Some(shapes)
}

// The fields of a struct.
#[cycle(shapes)]
fn fields_of(alloc: Global, json: &Value, depth: u32) -> Option<Vec<FieldShape>> {
    let mut fields = Vec::new(alloc);
    for item in items(json)? {
        let (name, inner) = pair(item)?;
        let name = lasting(alloc, name).ok()?;
        let shape = shape_of(alloc, inner, depth)?;
        fields.push(FieldShape { name, shape }).ok()?;
    }
    Some(fields)
}

// The content of a variant.
#[cycle(shapes)]
fn content_of(alloc: Global, json: &Value, depth: u32) -> Option<VariantContent> {
    match member(json) {
        Some(("one", inner)) => Some(VariantContent::Newtype(boxed(alloc, inner, depth)?)),
        Some(("tuple", inner)) => Some(VariantContent::Tuple(shapes_of(alloc, inner, depth)?)),
        None if json.as_str() == Some("nothing") => Some(VariantContent::Unit),
        _ => None,
    }
}

// The variants of an enum.
#[cycle(shapes)]
fn variants_of(alloc: Global, json: &Value, depth: u32) -> Option<Vec<VariantShape>> {
    let mut variants = Vec::new(alloc);
    for item in items(json)? {
        let (name, inner) = pair(item)?;
        let name = lasting(alloc, name).ok()?;
        let content = content_of(alloc, inner, depth)?;
        variants.push(VariantShape { name, content }).ok()?;
    }
    Some(variants)
}

// A shape with a name.
#[cycle(shapes)]
fn named_of(alloc: Global, kind: &str, json: &Value, depth: u32) -> Option<Shape> {
    let (name, inner) = pair(json)?;
    let name = lasting(alloc, name).ok()?;
    match kind {
        "newtype" => {
            let inner = boxed(alloc, inner, depth)?;
            Some(Shape::Newtype { name, inner })
        }
        "choice" => {
            let variants = variants_of(alloc, inner, depth)?;
            Some(Shape::Enum { name, variants })
        }
        "structure" | "closed_structure" => {
            let fields = fields_of(alloc, inner, depth)?;
            Some(Shape::Struct {
                name,
                fields,
                deny_unknown: kind == "closed_structure",
            })
        }
        _ => None,
    }
}

/// The shape that JSON no deeper than this is, if it is one.
#[cycle(shapes)]
pub fn shape_of(alloc: Global, json: &Value, depth: u32) -> Option<Shape> {
    if depth == 0 {
        return None;
    }
    let Some((kind, inner)) = member(json) else {
        return leaf_of(json.as_str()?);
    };
    match kind {
        "optional" => Some(Shape::Option(boxed(alloc, inner, depth - 1)?)),
        "sequence" => Some(Shape::Seq(boxed(alloc, inner, depth - 1)?)),
        _ => named_of(alloc, kind, inner, depth - 1),
    }
}
