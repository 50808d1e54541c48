//! Items that are kept as they are, whatever they are: those behind the parts of a structure, or all that are in one.

ghost use Rattle.std.specs.Prelude.{◌≡◌, ◌↔◌, ◌≤◌, true, length, IfOk, IsTrue};
ghost use Rattle.std.specs.Cmp.Lexicographic.{pointwise};
ghost use Rattle.kmip_ttlv_base.specs.Forms.{any_items};
ghost use Rattle.kmip_ttlv_reader.specs.Results.{IsStep};
ghost use Rattle.kmip_ttlv_parts.specs.Kept.{items_outcome};
ghost use Rattle.kmip_ttlv_parts.specs.KeptItems.{first_kept, values_kept};
ghost use Rattle.kmip_ttlv_parts.proofs.KeptLemmas.{equal_bytes};
ghost use Rattle.kmip_ttlv_kinds.specs.KeptRules.{kept_rules, rest_rules};
ghost use Rattle.kmip_ttlv_kinds.specs.Parts.{is_apart};

use crate::lists::PartList;
use crate::reading::read_structure;
use crate::structure::{FromParts, Structure};
use crate::walks::Walk;
use kmip_ttlv_base::types::TtlvTag;
use kmip_ttlv_parts::Kept;
use kmip_ttlv_reader::any_item::{MOST_LEVELS, items_passed};
use kmip_ttlv_reader::reader::{Cursor, Scope, Step};
use std::alloc::{AllocError, Allocator};

// All items from this place to the structure's end.
#[tactic(auto, using(kmip_ttlv_reader::proofs::Steps::failure_then))]
fn read_items<A: Allocator + Copy>(scope: &Scope<'_, A>, pos: usize) -> Step<Kept<A>, A>
    requires inside { pos ≤ length scope.now.bytes.now }
    requires before { pos ≤ scope.now.end }
    ensures read { IsStep values_kept (items_outcome scope.now.bytes.now pos scope.now.end) result }
    ensures whole { IfOk result (λ k. scope.now.end ≤ length scope.now.bytes.now) }
{
    if pos == scope.end {
        return Ok(Kept::none(scope.alloc));
    }
    items_passed(scope, MOST_LEVELS, pos)?;
    Ok(Kept::from_items(scope.alloc, scope.bytes, pos, scope.end)?)
}

/// The end of a list of parts: what stands behind them in the structure is kept, whatever it is.
#[derive(Drop)]
pub struct Rest {}

impl<A: Allocator + Copy> PartList<A> for Rest {
    type Holds = Kept<A>;

    ghost fields = { any_items };

    ghost values = { values_kept };

    ghost rules = { rest_rules ⟦<Kept<A> as PartialEq>⟧.eq (λ x y e. equal_bytes e) };

    fn has_parts() -> bool {
        true
    }

    fn is_part(_tag: TtlvTag) -> bool {
        false
    }

    #[tactic(auto, unfolding(kmip_ttlv_reader::specs::Outcomes::fields_outcome), using(kmip_ttlv_reader::proofs::Steps::failure_then))]
    fn read_list<'b>(scope: &Scope<'b, A>, cursor: &mut Cursor<'b, A>) -> Step<Kept<A>, A> {
        let kept = read_items(scope, cursor.pos())?;
        cursor.go_to(scope.end);
        Ok(kept)
    }
}

impl<A: Allocator + Copy> FromParts<A, Rest> for Kept<A> {
    ghost parts = { λ x. x };

    fn from_parts(held: Kept<A>) -> Self {
        held
    }
}

impl<A: Allocator + Copy> Structure<A> for Kept<A> {
    ghost rules = { kept_rules ⟦<Kept<A> as PartialEq>⟧.eq (λ x y e. equal_bytes e) };

    fn read<'b>(scope: &Scope<'b, A>, tag: u32, cursor: &mut Cursor<'b, A>) -> Step<Self, A> {
        read_structure::<Rest, Self, A>(scope, tag, true, cursor)
    }

    fn tell_parts<W: Walk<A>>(&self, state: &mut W::State) -> Result<(), AllocError> {
        W::kept(state, self)
    }
}

/// Whether what is kept behind the parts of this list begins with no item of a part's tag: such an item might be decoded as the part,
/// and not be kept again.
pub fn is_apart<L: PartList<A>, A: Allocator + Copy>(rest: &Kept<A>) -> bool
    ensures { IsTrue result ↔ is_apart L.fields (first_kept rest.now) ≡ true }
{
    match rest.first_tag() {
        Some(tag) => !L::is_part(tag),
        None => true,
    }
}
