//! Items of any tags and types, as they stand in bytes: a visitor gets the events of all that is in them, and no tree is made.

ghost use Rattle.std.specs.Prelude.{◌≡◌, ℕ, suc, ◌+◌, ◌<◌, length, true, IfOk, OnErr, OnOk};
ghost use Rattle.kmip_ttlv_types.specs.Leaves.{is_valid};
ghost use Rattle.kmip_ttlv_base.specs.Values.{Value, Values};
ghost use Rattle.kmip_ttlv_base.specs.Visits.{Receives, ReceivesEach, leaf_value};
ghost use Rattle.kmip_ttlv_reader.specs.Outcomes.{any_leaf_outcome, any_outcome, each_outcome, node_outcome};
ghost use Rattle.kmip_ttlv_reader.specs.Reads.{decoded_leaf, form_of_type};
ghost use Rattle.kmip_ttlv_reader.specs.Steps.{gives};

use kmip_ttlv_base::parts::{begin_structure, end_structure, tagged};
use kmip_ttlv_base::types::TtlvType;
use kmip_ttlv_base::types::numbers::{number_of_eight, number_of_four};
use kmip_ttlv_base::types::places::{content_at, length_at, size_of, tag_at, type_at};
use kmip_ttlv_base::visit::{Leaf, Visitor};
use kmip_ttlv_reader::leaf::text_of;
use std::alloc::AllocError;

// The leaf that content of this type is.
fn leaf_of(typ: TtlvType, content: &[u8]) -> Leaf<'_>
    requires { is_valid typ content.now ≡ true }
    ensures { leaf_value result ≡ decoded_leaf (form_of_type typ) content.now }
{
    match typ {
        TtlvType::Integer => Leaf::I32(number_of_four(content).cast_signed()),
        TtlvType::LongInteger => Leaf::I64(number_of_eight(content).cast_signed()),
        TtlvType::BigInteger => Leaf::BigInteger(content),
        TtlvType::Enumeration => Leaf::U32(number_of_four(content)),
        TtlvType::Boolean => Leaf::Bool(number_of_eight(content) == 1),
        TtlvType::TextString => Leaf::Text(text_of(content)),
        TtlvType::DateTime => Leaf::DateTime(number_of_eight(content).cast_signed()),
        TtlvType::Interval => Leaf::Interval(number_of_four(content)),
        TtlvType::ByteString | TtlvType::Structure => Leaf::Bytes(content),
    }
}

// The leaf at this place: the place after it.
fn visit_leaf<V: Visitor>(
    bytes: &[u8],
    pos: usize,
    end: usize,
    typ: TtlvType,
    visitor: &mut V,
) -> Result<usize, AllocError>
    requires there { (x : Value × ℕ) × (any_leaf_outcome typ bytes.now pos end ≡ gives x) }
    ensures visited { IfOk result (λ q. (v : Value) × (any_leaf_outcome typ bytes.now pos end ≡ gives (v, q))
        × Receives V.knows V.step v visitor.old visitor.new) }
    ensures further { IfOk result (λ q. pos < q) }
    ensures stopped { OnErr result (V.stopped visitor.new) }
{
    let n = length_at(bytes, pos);
    let content = content_at(bytes, pos, n);
    tagged(visitor, *tag_at(bytes, pos), leaf_of(typ, content))?;
    Ok(pos + size_of(typ, n))
}

// The structure at this place, whose items have so many levels at most: the place after it.
#[cycle(visited)]
fn visit_node<V: Visitor>(
    bytes: &[u8],
    pos: usize,
    end: usize,
    levels: usize,
    visitor: &mut V,
) -> Result<usize, AllocError>
    requires there { (x : Value × ℕ) × (node_outcome (any_outcome levels) bytes.now pos end ≡ gives x) }
    ensures visited { IfOk result (λ q. (v : Value) × (node_outcome (any_outcome levels) bytes.now pos end ≡ gives (v, q))
        × Receives V.knows V.step v visitor.old visitor.new) }
    ensures further { IfOk result (λ q. pos < q) }
    ensures stopped { OnErr result (V.stopped visitor.new) }
{
    let tag = *tag_at(bytes, pos);
    let next = pos + 8 + length_at(bytes, pos) as usize;
    begin_structure(visitor, tag)?;
    visit_items(bytes, pos + 8, next, levels, visitor)?;
    end_structure(visitor, tag)?;
    Ok(next)
}

// The item at this place, of so many levels at most: the place after it.
#[cycle(visited)]
fn visit_item<V: Visitor>(
    bytes: &[u8],
    pos: usize,
    end: usize,
    levels: usize,
    visitor: &mut V,
) -> Result<usize, AllocError>
    requires there { (x : Value × ℕ) × (any_outcome levels bytes.now pos end ≡ gives x) }
    ensures visited { IfOk result (λ q. (v : Value) × (any_outcome levels bytes.now pos end ≡ gives (v, q))
        × Receives V.knows V.step v visitor.old visitor.new) }
    ensures further { IfOk result (λ q. pos < q) }
    ensures stopped { OnErr result (V.stopped visitor.new) }
{
    let Some(typ) = type_at(bytes, pos) else {
        unreachable!()
    };
    if typ == TtlvType::Structure {
        visit_node(bytes, pos, end, levels - 1, visitor)
    } else {
        visit_leaf(bytes, pos, end, typ, visitor)
    }
}

/// Calls a visitor with the items from one place to another, which are whole, and have so many levels at most. The error is the
/// visitor's.
#[cycle(visited)]
pub fn visit_items<V: Visitor>(
    bytes: &[u8],
    pos: usize,
    end: usize,
    levels: usize,
    visitor: &mut V,
) -> Result<(), AllocError>
    requires there { (vs : Values) × (each_outcome (suc (length bytes.now)) (any_outcome levels) bytes.now pos end ≡ gives vs) }
    ensures visited { OnOk result ((vs : Values) × (each_outcome (suc (length bytes.now)) (any_outcome levels) bytes.now pos end ≡ gives vs)
        × ReceivesEach V.knows V.step vs visitor.old visitor.new) }
    ensures stopped { OnErr result (V.stopped visitor.new) }
{
    let mut next = pos;
    'items: while next < end {
        next = visit_item(bytes, next, end, levels, visitor)?;
    }
    Ok(())
}
