//! A part of a message on the heap, so that what has room for it stays small. What is encoded, decoded, sound and equal is
//! what is in the box: for these laws a boxed part is the part itself.

ghost use Rattle.std.specs.Prelude.{◌≡◌, IfOk};
ghost use Rattle.std.specs.Cmp.{on_per};
ghost use Rattle.kmip_ttlv_parts.specs.Boxes.{boxed, IsBoxed};

use crate::sound::Sound;
use kmip_ttlv_base::shape::Serialize;
use kmip_ttlv_base::visit::Visitor;
use std::alloc::{AllocError, Allocator, Global};
use std::ops::Deref;

/// A structure on the heap. A type has room for a pointer to it in the place of its fields, which pays where the structure is
/// large and often absent; one that is there costs an allocation.
///
/// ```
/// let key = Boxed::new(alloc, SymmetricKey { key_block })?;
/// assert!(rt; key.key_block.key_format_type == KeyFormatType::Raw);
/// ```
#[derive(Drop)]
pub struct Boxed<T, A: Allocator = Global> {
    /// The structure.
    pub inner: Box<T, A>,
}

impl<T, A: Allocator> Boxed<T, A> {
    /// Puts a structure on the heap. Fails if memory runs out.
    pub fn new(alloc: A, inner: T) -> Result<Boxed<T, A>, AllocError>
    where
        T: Drop,
        ensures { IfOk result (λ x. x.inner.value ≡ inner) }
    {
        let inner = Box::new(alloc, inner)?;
        Ok(Boxed { inner })
    }

    /// Takes the structure off the heap.
    pub fn into_inner(self) -> T
        ensures { result ≡ self.inner.value }
    {
        Box::into_inner(self.inner)
    }
}

impl<T, A: Allocator> Deref for Boxed<T, A> {
    type Target = T;

    ghost deref_gives = { λ x y. y ≡ x.inner.value };

    fn deref(&self) -> &T
        ensures { result.now ≡ self.now.inner.value }
    {
        self.inner.as_ref()
    }
}

impl<T: PartialEq, A: Allocator> PartialEq for Boxed<T, A> {
    ghost eq = { λ x y. T.eq x.inner.value y.inner.value };

    ghost laws = { on_per (λ x. x.inner.value) T.laws };

    fn eq(&self, other: &Boxed<T, A>) -> bool {
        *self.inner.as_ref() == *other.inner.as_ref()
    }
}

impl<T: Serialize, A: Allocator> Serialize for Boxed<T, A> {
    ghost stated = { boxed T.stated };

    fn visit<V: Visitor>(&self, visitor: &mut V) -> Result<(), AllocError> {
        self.inner.as_ref().visit(visitor)
    }
}

impl<T: Sound, A: Allocator> Sound for Boxed<T, A> {
    ghost IsSound = { IsBoxed T.IsSound };

    fn is_sound(&self) -> bool {
        self.inner.as_ref().is_sound()
    }
}
