//! Items of any tags and types, with all that is in them: whether they are whole, and where they end. No value is made of them here.

ghost use Rattle.std.specs.Prelude.{◌≡◌, ◌≢◌, suc, ◌+◌, ◌≤◌, length, IfOk};
ghost use Rattle.kmip_ttlv_types.specs.declared.typ.TtlvType.TheVariants as types;
ghost use Rattle.kmip_ttlv_reader.specs.Outcomes.{any_leaf_outcome, any_outcome, each_outcome, node_outcome};
ghost use Rattle.kmip_ttlv_reader.specs.ReadFaults.{too_deep};
ghost use Rattle.kmip_ttlv_reader.specs.Reads.{is_full};
ghost use Rattle.kmip_ttlv_reader.specs.Results.{IsFailureOf, IsPassed, IsPassedTo};

use crate::failure::{Cause, Failure, Step, at_item, within};
use crate::head::{content_there, inside, length_there, tag_at, type_there};
use crate::scope::Scope;
use kmip_ttlv_base::error::{MalformedTtlvError, SerdeError};
use kmip_ttlv_base::types::TtlvType;
use kmip_ttlv_base::types::places::length_at;
use std::alloc::Allocator;

/// How many levels such an item may have: a leaf is one, and a structure one more than what is in it. What a sender chooses
/// takes no more of the stack than that.
pub const MOST_LEVELS: usize = 64;

// The item has too many levels.
#[cold]
fn too_deep<A: Allocator + Copy>(scope: &Scope<'_, A>, pos: usize, typ: TtlvType) -> Failure<A>
    requires there { pos + 4 ≤ length scope.now.bytes.now }
    ensures { IsFailureOf (too_deep scope.now.bytes.now pos typ) result }
{
    match String::from_str(scope.alloc, "too many levels") {
        Ok(words) => {
            let cause = Cause::Mismatch(SerdeError::Other(words));
            at_item(scope.alloc, scope.bytes, pos, 4, typ, cause)
        }
        Err(_) => Failure::OutOfMemory,
    }
}

// Whether a leaf's content is as long as it is written.
#[inline(always)]
fn is_full(typ: TtlvType, content: &[u8]) -> bool
    ensures { result ≡ is_full typ content.now }
{
    typ != TtlvType::BigInteger || content.len() % 8 == 0
}

// A leaf of this type: the place after it.
#[tactic(auto, unfolding(crate::specs::Outcomes::any_leaf_outcome), using(crate::proofs::Steps::failing))]
#[inline(always)]
fn leaf_passed<A: Allocator + Copy>(
    scope: &Scope<'_, A>,
    typ: TtlvType,
    pos: usize,
) -> Step<usize, A>
    requires there { pos + 4 ≤ length scope.now.bytes.now }
    requires leaf { typ ≢ types.Structure }
    ensures passed { IsPassedTo (any_leaf_outcome typ scope.now.bytes.now pos scope.now.end) result }
    ensures further { IfOk result (λ q. (pos + 8 ≤ q) × (q ≤ scope.now.end) × (q ≤ length scope.now.bytes.now)) }
{
    let (content, next) = content_there(scope.alloc, scope.bytes, pos, typ)?;
    if !is_full(typ, content) {
        let n = length_at(scope.bytes, pos);
        let cause = Cause::Malformed(MalformedTtlvError::InvalidValue { typ });
        return Err(at_item(scope.alloc, scope.bytes, pos, 8 + n as usize, typ, cause));
    }
    inside(scope.alloc, scope.bytes, pos, scope.end, typ, next)?;
    Ok(next)
}

// A structure whose items have so many levels at most: the place after it.
#[tactic(auto, unfolding(crate::specs::Outcomes::node_outcome), using(crate::proofs::Steps::failure_then))]
#[cycle(passed)]
fn structure_passed<A: Allocator + Copy>(
    scope: &Scope<'_, A>,
    levels: usize,
    pos: usize,
) -> Step<usize, A>
    requires there { pos + 4 ≤ length scope.now.bytes.now }
    ensures passed { IsPassedTo (node_outcome (any_outcome levels) scope.now.bytes.now pos scope.now.end) result }
    ensures further { IfOk result (λ q. (pos + 8 ≤ q) × (q ≤ scope.now.end) × (q ≤ length scope.now.bytes.now)) }
{
    let n = length_there(scope.bytes, pos)?;
    let owner = tag_at(scope.bytes, pos);
    let content = Scope {
        alloc: scope.alloc,
        bytes: scope.bytes,
        owner,
        end: pos + 8 + n as usize,
    };
    match items_passed(&content, levels, pos + 8) {
        Ok(()) => {
            inside(
                scope.alloc,
                scope.bytes,
                pos,
                scope.end,
                TtlvType::Structure,
                content.end,
            )?;
            Ok(content.end)
        }
        Err(failure) => Err(within(owner, failure)),
    }
}

// An item with all that is in it, of so many levels at most: the place after it.
#[tactic(auto, unfolding(crate::specs::Outcomes::any_outcome), using(crate::proofs::Steps::failing))]
#[cycle(passed)]
fn item_passed<A: Allocator + Copy>(
    scope: &Scope<'_, A>,
    levels: usize,
    pos: usize,
) -> Step<usize, A>
    requires inside { pos ≤ length scope.now.bytes.now }
    ensures passed { IsPassedTo (any_outcome levels scope.now.bytes.now pos scope.now.end) result }
    ensures further { IfOk result (λ q. (pos + 8 ≤ q) × (q ≤ scope.now.end) × (q ≤ length scope.now.bytes.now)) }
{
    let typ = type_there(scope.alloc, scope.bytes, pos)?;
    if levels == 0 {
        return Err(too_deep(scope, pos, typ));
    }
    if typ == TtlvType::Structure {
        structure_passed(scope, levels - 1, pos)
    } else {
        leaf_passed(scope, typ, pos)
    }
}

/// Items from this place to the structure's end, of any tags and types, each with all that is in it, of so many levels at most: an error
/// if they are not whole.
#[cycle(passed)]
pub fn items_passed<A: Allocator + Copy>(
    scope: &Scope<'_, A>,
    levels: usize,
    pos: usize,
) -> Step<(), A>
    requires inside { pos ≤ length scope.now.bytes.now }
    requires before { pos ≤ scope.now.end }
    ensures passed { IsPassed (each_outcome (suc (length scope.now.bytes.now)) (any_outcome levels) scope.now.bytes.now pos scope.now.end) result }
    ensures whole { IfOk result (λ u. scope.now.end ≤ length scope.now.bytes.now) }
{
    let mut next = pos;
    'items: while next < scope.end {
        next = item_passed(scope, levels, next)?;
    }
    Ok(())
}
