//! The traits of types that are decoded: `Decode`, which the calls need, and `Deserialize`, for a type that is decoded by its
//! shape. Stands on whole messages, in `root`.

ghost use Rattle.std.specs.Prelude.{◌≡◌, IfOk};
ghost use Rattle.kmip_ttlv_base.specs.Values.{Value, view};
ghost use Rattle.kmip_ttlv_base.specs.Forms.{Form, form_of};
ghost use Rattle.kmip_ttlv_base.specs.Gives.{Gives};
ghost use Rattle.kmip_ttlv_reader.specs.Outcomes.{root_outcome};
ghost use Rattle.kmip_ttlv_reader.specs.ReadResults.{IsReadAs};

use crate::root::read_root;
use kmip_ttlv_base::error::Error;
use kmip_ttlv_base::shape::{Data, Shape};
use std::alloc::{AllocError, Allocator};

/// A type that is decoded from bytes: what `from_slice` and `from_reader` need.
///
/// A type that reads itself implements it by `read_message`, in one line. A type with a shape implements `Deserialize` and
/// `ByShape`, and has this by them.
pub trait Decode<A: Allocator + Copy>: Sized + Drop {
    // The form that the bytes are read by.
    ghost form: { Form };

    // Whether this is the value for data that the form gives.
    ghost is_value: { Value → Self → Type 0 };

    /// The value with which the bytes begin: one Structure, padding included (KMIP 1.0, section 9.1). It has
    /// the errors of `from_slice`, which calls it.
    fn decode(alloc: A, bytes: &[u8]) -> Result<Self, Error<A>>
        // Which value comes, or which error and where: unless memory runs out, what the form reads the bytes as.
        ensures equals { IsReadAs is_value (root_outcome form bytes.now) result };
}

/// A type that is decoded by its shape, as its `Deserialize` says for each allocator.
pub trait ByShape: Sized + Drop {}

/// A type that says its shape, and is made of the data that this shape reads.
pub trait Deserialize<A: Allocator + Copy>: ByShape + Sized + Drop {
    // The shape that the type is read by.
    ghost form: { Form };

    // Whether this is the value for data that the shape gives.
    ghost is_value: { Value → Self → Type 0 };

    /// The shape that the type is read by.
    fn shape(alloc: A) -> Result<Shape<A>, AllocError>
        ensures { IfOk result (λ s. form_of s ≡ form) };

    /// The value for data that the shape gives. Texts and bytes may be moved out of the data: nothing is said of
    /// what is left in it. An AllocError when out of memory.
    fn from_data(alloc: A, value: &mut Data<A>) -> Result<Self, AllocError>
        requires { Gives form (view value.old) }
        ensures { IfOk result (λ v. is_value (view value.old) v) };
}

/// The shape is made, data is read by it, and the value is made of the data.
impl<T: ByShape + Deserialize<A>, A: Allocator + Copy> Decode<A> for T {
    ghost form = { T.form };

    ghost is_value = { T.is_value };

    fn decode(alloc: A, bytes: &[u8]) -> Result<T, Error<A>> {
        let shape = T::shape(alloc)?;
        let mut data = read_root(alloc, &shape, bytes)?;
        Ok(T::from_data(alloc, &mut data)?)
    }
}
