//! Reading a structure's parts: its header, the parts, what follows them, and the end.

ghost use Rattle.std.specs.Prelude.{◌≡◌, suc, ◌+◌, ◌≤◌, length, IfErr, IfOk};
ghost use Rattle.kmip_ttlv_base.specs.Values.{Value};
ghost use Rattle.kmip_ttlv_types.specs.Digits.{tag_text};
ghost use Rattle.kmip_ttlv_reader.specs.Outcomes.{all_outcome, fields_outcome, first_outcome, ignored, opened, outcome, rest_outcome, root_outcome, struct_outcome};
ghost use Rattle.kmip_ttlv_reader.specs.ReadResults.{ErrorStands, IsReadAs, early_end, sort_of};
ghost use Rattle.kmip_ttlv_reader.specs.Reads.{Begins};
ghost use Rattle.kmip_ttlv_reader.specs.Wholes.{BeginsWhole};
ghost use Rattle.kmip_ttlv_reader.specs.Results.{IsStep};
ghost use Rattle.kmip_ttlv_kinds.specs.Parts.{within};
ghost use Rattle.kmip_ttlv_reader.specs.Spots.{IsReadTo, IsWithin, at, structure_form, structure_value};

use crate::lists::PartList;
use crate::structure::FromParts;
use kmip_ttlv_base::error::{Error, SerdeError};
use kmip_ttlv_base::types::TtlvType;
use kmip_ttlv_reader::cursor::tag_is;
use kmip_ttlv_reader::errors::error;
use kmip_ttlv_reader::failure::{at_item, in_struct, within};
use kmip_ttlv_reader::head::{
    inside, item_end, length_there, structure_wanted, tag_at, type_there,
};
use kmip_ttlv_reader::reader::{Cause, Cursor, Scope, Step};
use std::alloc::Allocator;

// Where the content of a structure of this tag ends.
#[tactic(auto, unfolding(kmip_ttlv_reader::specs::Outcomes::opened), using(kmip_ttlv_reader::proofs::Steps::failure_then))]
#[inline(always)]
fn opened<A: Allocator + Copy>(alloc: A, tag: u32, bytes: &[u8], pos: usize) -> Step<usize, A>
    requires inside { pos ≤ length bytes.now }
    ensures step { IsStep (λ q. q) (opened (tag_text tag) bytes.now pos) result }
    ensures there { IfOk result (λ q. (pos + 8 ≤ length bytes.now) × (pos + 8 ≤ q)) }
{
    let typ = type_there(alloc, bytes, pos)?;
    tag_is(alloc, tag, bytes, pos, typ)?;
    structure_wanted(alloc, bytes, pos, typ)?;
    let n = length_there(bytes, pos)?;
    Ok(pos + 8 + n as usize)
}

// An item behind the parts, which is ignored, unless the structure is closed.
#[tactic(auto, unfolding(kmip_ttlv_reader::specs::Outcomes::ignored), using(kmip_ttlv_reader::proofs::Steps::failing))]
fn read_ignored<'b, L: PartList<A>, A: Allocator + Copy>(
    scope: &Scope<'b, A>,
    closed: bool,
    pos: usize,
) -> Step<usize, A>
    requires inside { pos ≤ length scope.now.bytes.now }
    ensures step { IsStep (λ q. q) (ignored L.fields closed scope.now.bytes.now scope.now.owner pos scope.now.end) result }
    ensures further { IfOk result (λ q. (pos + 8 ≤ q) × (q ≤ scope.now.end) × (q ≤ length scope.now.bytes.now)) }
{
    let typ = type_there(scope.alloc, scope.bytes, pos)?;
    if !L::has_parts() {
        let cause = Cause::Mismatch(SerdeError::MissingIdentifier);
        return Err(at_item(scope.alloc, scope.bytes, pos, 4, typ, cause));
    }
    if L::is_part(tag_at(scope.bytes, pos)) {
        return Err(in_struct(scope.alloc, pos + 4, scope.owner, "duplicate field"));
    }
    if closed {
        return Err(in_struct(scope.alloc, pos + 4, scope.owner, "unknown field"));
    }
    let next = item_end(scope.alloc, scope.bytes, pos, typ)?;
    inside(scope.alloc, scope.bytes, pos, scope.end, typ, next)?;
    Ok(next)
}

// What follows the parts, up to the end: in most messages nothing.
#[tactic(auto, using(kmip_ttlv_reader::proofs::Steps::failure_then))]
#[inline(always)]
fn read_rest<'b, L: PartList<A>, A: Allocator + Copy>(
    scope: &Scope<'b, A>,
    closed: bool,
    pos: usize,
) -> Step<usize, A>
    requires inside { pos ≤ length scope.now.bytes.now }
    requires before { pos ≤ scope.now.end }
    ensures step { IsStep (λ q. q) (rest_outcome (suc (length scope.now.bytes.now)) L.fields closed
        scope.now.bytes.now scope.now.owner pos scope.now.end) result }
    ensures whole { IfOk result (λ q. (q ≡ scope.now.end) × (scope.now.end ≤ length scope.now.bytes.now)) }
{
    let mut next = pos;
    while next < scope.end {
        next = read_ignored::<L, A>(scope, closed, next)?;
    }
    Ok(next)
}

// All that the structure contains.
#[tactic(auto, unfolding(kmip_ttlv_reader::specs::Outcomes::all_outcome), using(kmip_ttlv_reader::proofs::Steps::failure_then))]
#[inline(always)]
fn read_content<'b, L: PartList<A>, T: FromParts<A, L>, A: Allocator + Copy>(
    scope: &Scope<'b, A>,
    closed: bool,
    cursor: &mut Cursor<'b, A>,
) -> Step<T, A>
    requires within { IsWithin scope.now cursor.old }
    ensures read { IsReadTo (λ x. L.values (T.parts x)) cursor.new
        (at (all_outcome L.fields closed (fields_outcome L.fields)) scope.now cursor.old) result }
    ensures whole { IfOk result (λ _. (cursor.new.pos ≡ scope.now.end) × (scope.now.end ≤ length scope.now.bytes.now)) }
{
    let parts = L::read_list(scope, cursor)?;
    let next = read_rest::<L, A>(scope, closed, cursor.pos())?;
    cursor.go_to(next);
    Ok(T::from_parts(parts))
}

// A structure of this tag within another, header and all.
#[tactic(auto, unfolding(kmip_ttlv_reader::specs::Outcomes::struct_outcome), using(kmip_ttlv_reader::proofs::Steps::failure_then))]
#[inline(always)]
fn read_whole<'b, L: PartList<A>, T: FromParts<A, L>, A: Allocator + Copy>(
    scope: &Scope<'b, A>,
    tag: u32,
    closed: bool,
    cursor: &mut Cursor<'b, A>,
) -> Step<T, A>
    requires within { IsWithin scope.now cursor.old }
    ensures read { IsReadTo (λ x. L.values (T.parts x)) cursor.new
        (at (struct_outcome (tag_text tag) L.fields closed (fields_outcome L.fields)) scope.now cursor.old) result }
    ensures within { IfOk result (λ _. IsWithin scope.now cursor.new) }
    ensures further { IfOk result (λ _. cursor.old.pos + 8 ≤ cursor.new.pos) }
{
    let pos = cursor.pos();
    let end = opened(scope.alloc, tag, scope.bytes, pos)?;
    let owner = tag_at(scope.bytes, pos);
    let content = Scope {
        alloc: scope.alloc,
        bytes: scope.bytes,
        owner,
        end,
    };
    cursor.go_to(pos + 8);
    match read_content::<L, T, A>(&content, closed, cursor) {
        Ok(structure) => {
            inside(
                scope.alloc,
                scope.bytes,
                pos,
                scope.end,
                TtlvType::Structure,
                end,
            )?;
            Ok(structure)
        }
        Err(failure) => Err(within(owner, failure)),
    }
}

/// The structure of this tag and these parts from the cursor on, header and all, for a `read`. If it is closed, an item behind the
/// parts is an error.
#[inline(always)]
pub fn read_structure<'b, L: PartList<A>, T: FromParts<A, L>, A: Allocator + Copy>(
    scope: &Scope<'b, A>,
    tag: u32,
    closed: bool,
    cursor: &mut Cursor<'b, A>,
) -> Step<T, A>
    requires within { IsWithin scope.now cursor.old }
    ensures read { IsReadTo (structure_value tag (λ x. L.values (T.parts x))) cursor.new
        (at (outcome (structure_form tag L.fields closed)) scope.now cursor.old) result }
    ensures within { IfOk result (λ _. IsWithin scope.now cursor.new) }
    ensures further { IfOk result (λ _. cursor.old.pos + 8 ≤ cursor.new.pos) }
{
    match read_whole::<L, T, A>(scope, tag, closed, cursor) {
        Ok(structure) => Ok(structure),
        Err(failure) => Err(failure),
    }
}

// The structure that a message is.
#[tactic(auto, unfolding(kmip_ttlv_reader::specs::Outcomes::first_outcome), using(kmip_ttlv_reader::proofs::Steps::failure_then))]
fn read_first<L: PartList<A>, T: FromParts<A, L>, A: Allocator + Copy>(
    alloc: A,
    tag: u32,
    closed: bool,
    bytes: &[u8],
) -> Step<T, A>
    ensures step { IsStep (λ x. L.values (T.parts x)) (first_outcome (tag_text tag) L.fields closed (fields_outcome L.fields) bytes.now) result }
{
    let end = opened(alloc, tag, bytes, 0)?;
    let owner = tag_at(bytes, 0);
    let content = Scope {
        alloc,
        bytes,
        owner,
        end,
    };
    let mut cursor = Cursor::new(alloc, 8);
    match read_content::<L, T, A>(&content, closed, &mut cursor) {
        Ok(structure) => Ok(structure),
        Err(failure) => Err(within(owner, failure)),
    }
}

// What a message is read as.
#[tactic(auto, unfolding(crate::specs::Parts::within))]
fn decode_root<L: PartList<A>, T: FromParts<A, L>, A: Allocator + Copy>(
    alloc: A,
    tag: u32,
    closed: bool,
    bytes: &[u8],
) -> Result<T, Error<A>>
    ensures equals { IsReadAs (λ v x. v ≡ structure_value tag (within (λ y. L.values (T.parts y))) x)
        (root_outcome (structure_form tag L.fields closed) bytes.now) result }
{
    match read_first::<L, T, A>(alloc, tag, closed, bytes) {
        Ok(structure) => Ok(structure),
        Err(failure) => Err(error(failure)),
    }
}

/// The structure of this tag and these parts with which the bytes begin, for a `decode`. It has the errors of `from_slice`.
pub fn decode_structure<L: PartList<A>, T: FromParts<A, L>, A: Allocator + Copy>(
    alloc: A,
    tag: u32,
    closed: bool,
    bytes: &[u8],
) -> Result<T, Error<A>>
    // Which value comes, or which error and where: unless memory runs out, what the form reads the bytes as.
    ensures equals { IsReadAs (λ v x. v ≡ structure_value tag (within (λ y. L.values (T.parts y))) x)
        (root_outcome (structure_form tag L.fields closed) bytes.now) result }
    // What is returned is the value with which the bytes begin.
    ensures found { IfOk result (λ x. (v : Value) × Begins (structure_form tag L.fields closed) bytes.now v
        × (v ≡ structure_value tag (within (λ y. L.values (T.parts y))) x)) }
    // Bytes with an error begin with no value; but for an early end, whatever bytes follow.
    ensures refused { IfErr result (λ e. ErrorStands (structure_form tag L.fields closed) bytes.now e) }
    // A Structure that is split into items at every depth never ends too early.
    ensures whole { IfErr result (λ e. BeginsWhole bytes.now → sort_of e ≡ early_end → ⊥) }
{
    decode_root::<L, T, A>(alloc, tag, closed, bytes)
}
