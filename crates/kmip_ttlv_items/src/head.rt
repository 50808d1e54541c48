//! The item at an offset, checked against the structure around it. Nothing is allocated.

ghost use Rattle.std.specs.Prelude.{◌≡◌, ◌<◌, ◌≤◌, ◌+◌, ◌^◌, length, IfOk, IfErr, IfSome};
ghost use Rattle.kmip_ttlv_types.specs.declared.typ.TtlvType.TheVariants.{Structure as TheStructure};
ghost use Rattle.kmip_ttlv_types.specs.ItemTypes.{fixed_length};
ghost use Rattle.kmip_ttlv_types.specs.Places.{size};
ghost use Rattle.kmip_ttlv_items.specs.ItemWalks.{has_length, IsWhole, Misfits, RootMisfits};
ghost use Rattle.kmip_ttlv_items.specs.WalkPlaces.{JudgesValue, IsLeafTo, PassesLeaves};

use crate::found::{FaultKind, FoundItem};
use kmip_ttlv_types::TtlvType;
use kmip_ttlv_types::places::{
    content_at, fixed_length, is_valid, length_at, size_of, tag_at, type_at,
};

// Whether a value of this type may have this length.
#[inline(always)]
fn has_length(typ: TtlvType, n: u32) -> bool
    ensures { result ≡ has_length (fixed_length typ) n }
{
    match fixed_length(typ) {
        Some(fixed) => n == fixed,
        None => true,
    }
}

// What is wrong with the value of the item at this offset, which passes no end, if anything is.
#[inline(always)]
#[tactic(auto, using(crate::proofs::Spans::own_leaf, crate::proofs::Spans::own_structure))]
fn value_fault(bytes: &[u8], offset: usize, typ: TtlvType) -> Option<FaultKind>
    requires { offset + 8 ≤ length bytes.now }
    ensures { JudgesValue bytes.now offset typ result }
{
    if typ == TtlvType::Structure {
        return None;
    }
    let length = length_at(bytes, offset);
    if bytes.len() - offset < size_of(typ, length) {
        return Some(FaultKind::Cut);
    }
    if !is_valid(typ, content_at(bytes, offset, length)) {
        return Some(FaultKind::InvalidValue);
    }
    None
}

/// The item at this offset, in `depth` structures, the innermost of which ends at `end`; or what is wrong
/// with it. The bytes may end before the structure does.
#[inline(always)]
pub fn item_at(
    bytes: &[u8],
    offset: usize,
    end: usize,
    depth: usize,
) -> Result<FoundItem, FaultKind>
    requires before { offset ≤ end }
    requires within { offset ≤ length bytes.now }
    ensures ok { IfOk result (λ item. IsWhole bytes.now offset end depth item) }
    ensures err { IfErr result (λ kind. Misfits bytes.now offset end kind) }
{
    if end - offset < 8 {
        return Err(FaultKind::PartialHeader);
    }
    if bytes.len() - offset < 8 {
        return Err(FaultKind::Cut);
    }
    let Some(typ) = type_at(bytes, offset) else {
        return Err(FaultKind::UnknownType);
    };
    let length = length_at(bytes, offset);
    if !has_length(typ, length) {
        return Err(FaultKind::WrongLength);
    }
    if end - offset < size_of(typ, length) {
        return Err(FaultKind::Overlong);
    }
    if let Some(kind) = value_fault(bytes, offset, typ) {
        return Err(kind);
    }
    let tag = tag_at(bytes, offset);
    Ok(FoundItem {
        offset,
        depth,
        tag,
        typ,
        length,
    })
}

/// The root, which is a Structure whose header is at the start of the bytes; or what is wrong with it.
#[tactic(auto, using(crate::proofs::Spans::own_structure))]
pub fn root_of(bytes: &[u8]) -> Result<FoundItem, FaultKind>
    ensures ok { IfOk result (λ root. IsWhole bytes.now 0 (size root.typ root.length) 0 root × (root.typ ≡ TheStructure)
        × (root.length < 2 ^ 32)) }
    ensures err { IfErr result (λ kind. RootMisfits bytes.now kind) }
{
    if bytes.len() < 8 {
        return Err(FaultKind::Cut);
    }
    let Some(typ) = type_at(bytes, 0) else {
        return Err(FaultKind::UnknownType);
    };
    if typ != TtlvType::Structure {
        return Err(FaultKind::NoStructure);
    }
    let length = length_at(bytes, 0);
    let tag = tag_at(bytes, 0);
    Ok(FoundItem {
        offset: 0,
        depth: 0,
        tag,
        typ,
        length,
    })
}

// The offset behind the leaf at this offset, if it is whole, and valid, and ends by `stop`.
#[inline(always)]
fn behind_leaf(bytes: &[u8], offset: usize, stop: usize) -> Option<usize>
    requires before { offset ≤ stop }
    requires within { stop ≤ length bytes.now }
    ensures { IfSome result (λ next. IsLeafTo bytes.now offset stop next) }
{
    if stop - offset < 8 {
        return None;
    }
    let typ = type_at(bytes, offset)?;
    let length = length_at(bytes, offset);
    let size = size_of(typ, length);
    if stop - offset < size || !is_valid(typ, content_at(bytes, offset, length)) {
        return None;
    }
    Some(offset + size)
}

/// The offset behind all whole and valid leaves that follow one another from this offset on, in a structure
/// that ends at `end`.
pub fn behind_leaves(bytes: &[u8], offset: usize, end: usize) -> usize
    requires before { offset ≤ end }
    requires within { offset ≤ length bytes.now }
    ensures { PassesLeaves bytes.now end offset result }
{
    let stop = end.min(bytes.len());
    let mut at = offset;
    'leaves: while let Some(next) = behind_leaf(bytes, at, stop) {
        at = next;
    }
    at
}
