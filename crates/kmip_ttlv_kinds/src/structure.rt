//! Structures that are lists of parts: what a type says of itself, and what follows from that.

ghost use Rattle.std.specs.Prelude.{◌≡◌, ◌↔◌, ◌+◌, ◌≤◌, IfOk, IsTrue, OnErr, OnOk};
ghost use Rattle.kmip_ttlv_base.specs.Visits.{Receives};
ghost use Rattle.kmip_ttlv_reader.specs.Outcomes.{outcome};
ghost use Rattle.kmip_ttlv_kinds.specs.Parts.{IsWithinSound, within};
ghost use Rattle.kmip_ttlv_reader.specs.Spots.{IsReadTo, IsWithin, at, structure_form, structure_value};

use crate::lists::PartList;
use crate::walks::{Judges, Visits, Walk};
use kmip_ttlv_base::parts::{begin_structure, end_structure};
use kmip_ttlv_base::visit::Visitor;
use kmip_ttlv_reader::reader::{Cursor, Scope, Step};
use std::alloc::{AllocError, Allocator};

/// A type that is made of what these parts hold.
pub trait FromParts<A: Allocator + Copy, L: PartList<A>>: Sized + Drop {
    // What its parts hold.
    ghost parts: { Self → L.Holds };

    /// The value of these parts.
    fn from_parts(held: L::Holds) -> Self
        ensures { parts result ≡ held };
}

/// A type that is a structure: a list of parts, under any tag.
pub trait Structure<A: Allocator + Copy>: Sized + Drop {
    ghost use Rattle.kmip_ttlv_kinds.specs.Parts.{StructureRules, told_of};

    // Its form, the value that it is read as, what is written of it, which are sound, and that these come back.
    ghost rules: { StructureRules Self };

    /// The structure of this tag from the cursor on, header and all: by `read_structure`.
    fn read<'b>(scope: &Scope<'b, A>, tag: u32, cursor: &mut Cursor<'b, A>) -> Step<Self, A>
        requires within { IsWithin scope.now cursor.old }
        ensures read { IsReadTo (structure_value tag rules.values) cursor.new
            (at (outcome (structure_form tag rules.fields rules.closed)) scope.now cursor.old) result }
        ensures within { IfOk result (λ _. IsWithin scope.now cursor.new) }
        ensures further { IfOk result (λ _. cursor.old.pos + 8 ≤ cursor.new.pos) };

    /// Tells a walk of its parts, in their order.
    fn tell_parts<W: Walk<A>>(&self, state: &mut W::State) -> Result<(), AllocError>
        ensures told { OnOk result (W.steps.Takes state.old (told_of rules self.now) state.new) }
        ensures stopped { OnErr result (W.Stopped state.new) };
}

/// A structure that a type may hold as what is in it, without the structure around it.
pub trait Wrapper<I: Drop, A: Allocator + Copy>: Structure<A> {
    ghost use Rattle.kmip_ttlv_kinds.specs.Parts.{told_of};

    // The structure around what is in it.
    ghost wrap: { I → Self };

    /// What is in it.
    fn into_inner(self) -> I
        ensures { wrap result ≡ self };

    /// Tells a walk of the parts of the structure around this, in their order.
    fn tell_inner<W: Walk<A>>(inner: &I, state: &mut W::State) -> Result<(), AllocError>
        ensures told { OnOk result (W.steps.Takes state.old (told_of Self.Structure.rules (wrap inner.now)) state.new) }
        ensures stopped { OnErr result (W.Stopped state.new) };
}

/// Calls a visitor with a structure under this tag. The error is the visitor's.
#[tactic(auto, unfolding(crate::specs::Parts::within))]
#[inline(always)]
pub fn visit_structure<T: Structure<A>, V: Visitor, A: Allocator + Copy>(
    structure: &T,
    tag: u32,
    visitor: &mut V,
) -> Result<(), AllocError>
    ensures received { OnOk result (Receives V.knows V.step (structure_value tag (within T.rules.written) structure.now) visitor.old visitor.new) }
    ensures stopped { OnErr result (V.stopped visitor.new) }
{
    begin_structure(visitor, tag)?;
    structure.tell_parts::<Visits<V>>(visitor)?;
    end_structure(visitor, tag)
}

/// Whether a structure is sound, so that what is encoded of it is decoded as an equal one.
#[tactic(auto, unfolding(crate::specs::Parts::IsWithinSound))]
pub fn is_structure_whole<T: Structure<A>, A: Allocator + Copy>(structure: &T) -> bool
    ensures { IsTrue result ↔ IsWithinSound T.rules.IsSound structure.now }
{
    let mut good = true;
    match structure.tell_parts::<Judges>(&mut good) {
        Ok(()) => good,
        Err(_) => false,
    }
}
