//! The visitor that builds data from the events of a value.

ghost use Rattle.std.specs.Prelude.{◌≡◌, IfOk, map};
ghost use Rattle.kmip_ttlv_base.specs.Values.{view};
ghost use Rattle.kmip_ttlv_base.specs.Visits.{around, leaf_value};
ghost use Rattle.kmip_ttlv_base.specs.Builds.{Unfinished, unfinished, first_of, group_value, outside, build_step};

use crate::shape::{Data, Serialize};
use crate::visit::{Group, Leaf, Visitor};
use std::alloc::{AllocError, Allocator};
use std::mem;

// The values so far of the innermost open group, and of each group around it, the outermost first.
#[derive(Drop)]
pub struct Builder<A: Allocator> {
    alloc: A,
    values: Vec<Data<A>, A>,
    around: Vec<Vec<Data<A>, A>, A>,
}

// The data that stands for a value.
pub fn data_of<A: Allocator + Copy, T: Serialize>(
    alloc: A,
    value: &T,
) -> Result<Data<A>, AllocError>
    ensures { IfOk result (λ d. view d ≡ T.stated value.now) }
{
    let mut builder = Builder {
        alloc,
        values: Vec::new(alloc),
        around: Vec::new(alloc),
    };
    value.visit(&mut builder)?;
    Ok(first(builder.values))
}

// The first of these values, or None if there are none.
fn first<A: Allocator>(mut values: Vec<Data<A>, A>) -> Data<A>
    ensures { view result ≡ first_of (map view values.items) }
{
    if values.is_empty() {
        Data::None
    } else {
        values.remove(0)
    }
}

// The data that a leaf is.
fn leaf_data<A: Allocator>(alloc: A, leaf: Leaf<'_>) -> Result<Data<A>, AllocError>
    ensures { IfOk result (λ d. view d ≡ leaf_value leaf.entry) }
{
    Ok(match leaf {
        Leaf::Bool(b) => Data::Bool(b),
        Leaf::I8(n) => Data::I8(n),
        Leaf::I16(n) => Data::I16(n),
        Leaf::I32(n) => Data::I32(n),
        Leaf::U32(n) => Data::U32(n),
        Leaf::I64(n) => Data::I64(n),
        Leaf::U64(n) => Data::U64(n),
        Leaf::DateTime(seconds) => Data::DateTime(seconds),
        Leaf::Interval(n) => Data::Interval(n),
        Leaf::Text(text) => Data::Text(String::from_str(alloc, text)?),
        Leaf::Bytes(bytes) => Data::Bytes(Vec::from_slice(alloc, bytes)?),
        Leaf::BigInteger(bytes) => Data::BigInteger(Vec::from_slice(alloc, bytes)?),
        Leaf::None => Data::None,
        Leaf::UnitVariant { name, variant } => Data::UnitVariant { name, variant },
        Leaf::Unsupported(name) => Data::Unsupported(name),
    })
}

// The data that a group of these values is.
fn group_data<A: Allocator>(
    alloc: A,
    group: Group,
    values: Vec<Data<A>, A>,
) -> Result<Data<A>, AllocError>
    ensures { IfOk result (λ d. view d ≡ group_value (around group) (map view values.items)) }
{
    match group {
        Group::Some => Ok(Data::Some(Box::new(alloc, first(values))?)),
        Group::Seq => Ok(Data::Seq(values)),
        Group::Struct { name } => Ok(Data::Struct {
            name,
            fields: values,
        }),
        Group::Newtype { name } => Ok(Data::Newtype {
            name,
            inner: Box::new(alloc, first(values))?,
        }),
        Group::Tagged { tag } => Ok(Data::Tagged {
            tag,
            inner: Box::new(alloc, first(values))?,
        }),
        Group::Structure { tag } => Ok(Data::Structure {
            tag,
            fields: values,
        }),
        Group::NewtypeVariant { name, variant } => Ok(Data::NewtypeVariant {
            name,
            variant,
            inner: Box::new(alloc, first(values))?,
        }),
        Group::TupleVariant { name, variant } => Ok(Data::TupleVariant {
            name,
            variant,
            fields: values,
        }),
    }
}

impl<A: Allocator + Copy> Builder<A> {
    // Closes the innermost group, and returns its values. The group around it becomes the innermost.
    fn leave(&mut self) -> Vec<Data<A>, A>
        ensures values { map view result.items ≡ map view self.old.values.items }
        ensures around { unfinished self.new ≡ outside (unfinished self.old).around }
    {
        match self.around.pop() {
            Some(outer) => mem::replace(&mut self.values, outer),
            None => mem::replace(&mut self.values, Vec::new(self.alloc)),
        }
    }
}

impl<A: Allocator + Copy> Visitor for Builder<A> {
    ghost State = { Unfinished };

    ghost knows = { λ b s. s ≡ unfinished b };

    ghost step = { build_step };

    ghost stopped = { λ _. Unit {0} };

    fn leaf(&mut self, leaf: Leaf<'_>) -> Result<(), AllocError> {
        let value = leaf_data(self.alloc, leaf)?;
        Ok(self.values.push(value)?)
    }

    fn begin(&mut self, _group: Group) -> Result<(), AllocError> {
        let values = mem::replace(&mut self.values, Vec::new(self.alloc));
        Ok(self.around.push(values)?)
    }

    fn end(&mut self, group: Group) -> Result<(), AllocError> {
        let values = self.leave();
        let value = group_data(self.alloc, group, values)?;
        Ok(self.values.push(value)?)
    }
}
