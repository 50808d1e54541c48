//! Data that is made of other data: what is around a value that was read.

ghost use Rattle.std.specs.Prelude.{◌≡◌, IfOk};
ghost use Rattle.kmip_ttlv_base.specs.Values.{view, some_value, newtype_value, newtype_variant_value};

use kmip_ttlv_base::shape::Data;
use std::alloc::{AllocError, Allocator};

/// An option in which this is.
pub fn some<A: Allocator>(alloc: A, value: Data<A>) -> Result<Data<A>, AllocError>
    ensures { IfOk result (λ made. view made ≡ some_value (view value)) }
{
    Ok(Data::Some(Box::new(alloc, value)?))
}

/// A newtype of this.
pub fn newtype<A: Allocator>(
    alloc: A,
    name: &'static str,
    value: Data<A>,
) -> Result<Data<A>, AllocError>
    ensures { IfOk result (λ made. view made ≡ newtype_value name.now (view value)) }
{
    let inner = Box::new(alloc, value)?;
    Ok(Data::Newtype { name, inner })
}

/// A variant that has this as its content.
pub fn newtype_variant<A: Allocator>(
    alloc: A,
    name: &'static str,
    variant: &'static str,
    value: Data<A>,
) -> Result<Data<A>, AllocError>
    ensures { IfOk result (λ made. view made ≡ newtype_variant_value name.now variant.now (view value)) }
{
    let inner = Box::new(alloc, value)?;
    Ok(Data::NewtypeVariant {
        name,
        variant,
        inner,
    })
}
