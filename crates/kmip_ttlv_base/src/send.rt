//! How leaves and data call a visitor.

ghost use Rattle.std.specs.Prelude.{OnOk, OnErr};
ghost use Rattle.kmip_ttlv_base.specs.Values.{view, views};
ghost use Rattle.kmip_ttlv_base.specs.Visits.{Receives, ReceivesEach, Encloses, leaf_value, around, visited, visited_in};

use crate::shape::{Data, Serialize};
use crate::visit::{Group, Leaf, Visitor};
use std::alloc::{AllocError, Allocator};

/// A leaf stands for the value that it is.
impl<'a> Serialize for Leaf<'a> {
    ghost stated = { λ l. leaf_value l };

    #[inline]
    #[tactic(auto, using(crate::proofs::Visiting::visited_leaf))]
    fn visit<V: Visitor>(&self, visitor: &mut V) -> Result<(), AllocError> {
        visitor.leaf(*self)
    }
}

/// Data stands for itself.
impl<A: Allocator> Serialize for Data<A> {
    ghost stated = { λ d. view d };

    fn visit<V: Visitor>(&self, visitor: &mut V) -> Result<(), AllocError> {
        send(self, visitor)
    }
}

// The events of the data.
#[cycle(send)]
fn send<A: Allocator, V: Visitor>(value: &Data<A>, visitor: &mut V) -> Result<(), AllocError>
    ensures received { OnOk result (Receives V.knows V.step (view value.now) visitor.old visitor.new) }
    ensures stopped { OnErr result (V.stopped visitor.new) }
{
    match value {
        Data::Bool(b) => visitor.leaf(Leaf::Bool(*b)),
        Data::I8(n) => visitor.leaf(Leaf::I8(*n)),
        Data::I16(n) => visitor.leaf(Leaf::I16(*n)),
        Data::I32(n) => visitor.leaf(Leaf::I32(*n)),
        Data::U32(n) => visitor.leaf(Leaf::U32(*n)),
        Data::I64(n) => visitor.leaf(Leaf::I64(*n)),
        Data::U64(n) => visitor.leaf(Leaf::U64(*n)),
        Data::DateTime(seconds) => visitor.leaf(Leaf::DateTime(*seconds)),
        Data::Interval(n) => visitor.leaf(Leaf::Interval(*n)),
        Data::Text(text) => visitor.leaf(Leaf::Text(text)),
        Data::Bytes(bytes) => visitor.leaf(Leaf::Bytes(bytes)),
        Data::BigInteger(bytes) => visitor.leaf(Leaf::BigInteger(bytes)),
        Data::None => visitor.leaf(Leaf::None),
        Data::Some(inner) => send_one(inner, Group::Some, visitor),
        Data::Seq(values) => send_group(values, Group::Seq, visitor),
        Data::Struct { name, fields } => send_group(fields, Group::Struct { name }, visitor),
        Data::Newtype { name, inner } => send_one(inner, Group::Newtype { name }, visitor),
        Data::Tagged { tag, inner } => send_one(inner, Group::Tagged { tag: *tag }, visitor),
        Data::Structure { tag, fields } => {
            send_group(fields, Group::Structure { tag: *tag }, visitor)
        }
        Data::UnitVariant { name, variant } => visitor.leaf(Leaf::UnitVariant { name, variant }),
        Data::NewtypeVariant {
            name,
            variant,
            inner,
        } => send_one(inner, Group::NewtypeVariant { name, variant }, visitor),
        Data::TupleVariant {
            name,
            variant,
            fields,
        } => send_group(fields, Group::TupleVariant { name, variant }, visitor),
        Data::Unsupported(name) => visitor.leaf(Leaf::Unsupported(name)),
    }
}

// The events of the group with this one value.
#[cycle(send)]
fn send_one<A: Allocator, V: Visitor>(
    inner: &Data<A>,
    group: Group,
    visitor: &mut V,
) -> Result<(), AllocError>
    ensures received { OnOk result (Encloses V.knows V.step (around group) (visited V.step (view inner.now)) visitor.old visitor.new) }
    ensures stopped { OnErr result (V.stopped visitor.new) }
{
    visitor.begin(group)?;
    send(inner, visitor)?;
    visitor.end(group)
}

// The events of the group of these values.
#[cycle(send)]
fn send_group<A: Allocator, V: Visitor>(
    values: &[Data<A>],
    group: Group,
    visitor: &mut V,
) -> Result<(), AllocError>
    ensures received { OnOk result (Encloses V.knows V.step (around group) (visited_in V.step (views values.now)) visitor.old visitor.new) }
    ensures stopped { OnErr result (V.stopped visitor.new) }
{
    visitor.begin(group)?;
    send_each(values, visitor)?;
    visitor.end(group)
}

// The events of the values, one after the other.
#[cycle(send)]
fn send_each<A: Allocator, V: Visitor>(
    values: &[Data<A>],
    visitor: &mut V,
) -> Result<(), AllocError>
    ensures received { OnOk result (ReceivesEach V.knows V.step (views values.now) visitor.old visitor.new) }
    ensures stopped { OnErr result (V.stopped visitor.new) }
{
    for value in values {
        send(value, visitor)?;
    }
    Ok(())
}
