//! Laws of every structure and every choice: what is encoded of a sound structure is decoded, and as an equal one.

ghost use Rattle.std.specs.Prelude.{◌≡◌, ◌%◌, ◌^◌};
ghost use Rattle.kmip_ttlv_parts.specs.Equal.{AreEqual};
ghost use Rattle.kmip_ttlv_parts.specs.Rereads.{Rereads};
ghost use Rattle.kmip_ttlv_kinds.specs.Laws.{AreEqualByValue, AreReadBack};

use crate::choices::Choice;
use crate::elements::{Element, Of};
use crate::structure::Structure;
use kmip_ttlv_parts::laws::agreeing_values_come_back;
use std::alloc::Allocator;

/// A sound structure comes back as a message: what is encoded of it is decoded, and as an equal one. It is what `Message` asks of
/// a type, for every structure.
pub fn structures_come_back<T: Structure<A>, const TAG: u32, A: Allocator + Copy>()
    // The tag must have three bytes: of a number above them the last three are written, and read.
    requires { TAG % 2 ^ 24 ≡ TAG }
    ensures { Rereads ⟦<Of<T, TAG> as Element<A>>⟧.rules.written ⟦<Of<T, TAG> as Element<A>>⟧.form (λ v x. v ≡ ⟦<Of<T, TAG> as Element<A>>⟧.value x)
        ⟦<Of<T, TAG> as Element<A>>⟧.rules.eq ⟦<Of<T, TAG> as Element<A>>⟧.rules.IsSound }
{}

/// The bytes of a sound structure begin with the value that it is read from and with no other, whatever stands behind them.
pub fn structures_are_read_back<T: Structure<A>, const TAG: u32, A: Allocator + Copy>()
    requires { TAG % 2 ^ 24 ≡ TAG }
    ensures { AreReadBack ⟦<Of<T, TAG> as Element<A>>⟧.rules }
{
    agreeing_values_come_back();
}

/// Structures that stand for the same are equal: no type loses a part of what it is decoded from.
pub fn equal_structures<T: Structure<A>, const TAG: u32, A: Allocator + Copy>()
    ensures { AreEqualByValue ⟦<Of<T, TAG> as Element<A>>⟧.rules }
{}

/// The same of a choice.
pub fn equal_choices<C: Choice<A>, A: Allocator + Copy>()
    ensures { AreEqual C.chosen.value C.chosen.rules.eq }
{}
