//! Reading by a shape that stands for a type of no use but to see what was read.

ghost use Rattle.std.specs.Prelude.{◌≡◌};

use kmip_ttlv::shape::{ByShape, Data, Deserialize, Shape};
use sample_shapes::parts::Part;
use std::alloc::{AllocError, Allocator, Global};
use std::marker::PhantomData;

/// What was read by the shape `P`, as the text of its data. Nothing is promised of the text: tests
/// compare it.
#[derive(Drop)]
pub struct Reading<P, A: Allocator = Global> {
    pub text: String<A>,
    shape: PhantomData<P>,
}

impl<P, A: Allocator> ByShape for Reading<P, A> {}

impl<P: Part, A: Allocator + Copy> Deserialize<A> for Reading<P, A> {
    ghost form = { P.part };

    ghost is_value = { λ v x. Unit {0} };

    fn shape(alloc: A) -> Result<Shape<A>, AllocError> {
        P::shape(alloc)
    }

    fn from_data(alloc: A, value: &mut Data<A>) -> Result<Reading<P, A>, AllocError> {
        let text = format!(in alloc; "{:?}", &*value)?;
        Ok(Reading {
            text,
            shape: PhantomData,
        })
    }
}
