//! Reading long messages by a shape that stands for a type of no use but to see how much was read.
//! Stands on `parts`.

use crate::parts::Part;
use kmip_ttlv::shape::{ByShape, Data, Deserialize, Shape};
use std::alloc::{AllocError, Allocator, Global};
use std::marker::PhantomData;

/// What was read of a structure by the shape `P`. Nothing is promised of it: tests compare it.
#[derive(Drop)]
pub struct Run<P, A: Allocator = Global> {
    /// How many elements the sequence has that is the first one among the fields.
    pub count: usize,
    /// The data of the last one, as text.
    pub last: String<A>,
    /// How many bytes the string has that is the first one among the fields.
    pub held: usize,
    shape: PhantomData<P>,
}

// The fields of a struct.
fn fields_of<A: Allocator>(value: &Data<A>) -> &[Data<A>] {
    match value {
        Data::Struct { fields, .. } => fields.as_slice(),
        _ => &[],
    }
}

// The elements of the sequence that is the first one among the fields.
fn elements<A: Allocator>(fields: &[Data<A>]) -> &[Data<A>] {
    for field in fields {
        if let Data::Seq(all) = field {
            return all.as_slice();
        }
    }
    &[]
}

// How many bytes the string has that is the first one among the fields.
fn held<A: Allocator>(fields: &[Data<A>]) -> usize {
    for field in fields {
        match field {
            Data::Text(text) => return text.len(),
            Data::Bytes(bytes) | Data::BigInteger(bytes) => return bytes.len(),
            _ => {}
        }
    }
    0
}

impl<P, A: Allocator> ByShape for Run<P, A> {}

impl<P: Part, A: Allocator + Copy> Deserialize<A> for Run<P, A> {
    ghost form = { P.part };

    ghost is_value = { λ v x. Unit {0} };

    fn shape(alloc: A) -> Result<Shape<A>, AllocError> {
        P::shape(alloc)
    }

    fn from_data(alloc: A, value: &mut Data<A>) -> Result<Run<P, A>, AllocError> {
        let fields = fields_of(&*value);
        let all = elements(fields);
        let last = match all.last() {
            Some(one) => format!(in alloc; "{one:?}")?,
            None => String::new(alloc),
        };
        Ok(Run {
            count: all.len(),
            last,
            held: held(fields),
            shape: PhantomData,
        })
    }
}
