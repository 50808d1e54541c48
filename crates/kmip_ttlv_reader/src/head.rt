//! The steps of reading an item. Each function's contract cites the definition of its name in specs/Outcomes.

ghost use Rattle.std.specs.Prelude.{◌≡◌, ◌≢◌, ◌+◌, ◌<◌, ◌≤◌, ◌^◌, length, IfOk, true};
ghost use Rattle.kmip_ttlv_types.specs.Places.{length_at, size};
ghost use Rattle.kmip_ttlv_types.specs.Leaves.{is_valid};
ghost use Rattle.kmip_ttlv_reader.specs.Outcomes.{type_there, tag_wanted, length_there, structure_wanted, inside, type_wanted};
ghost use Rattle.kmip_ttlv_reader.specs.Outcomes.{content_there, opened, length_wanted, end_there, item_end, goes_on};
ghost use Rattle.kmip_ttlv_reader.specs.Results.{IsStep};
ghost use Rattle.kmip_ttlv_reader.specs.Reads.{has_tag, is_number_type};

use crate::failure::{Cause, Failure, Step, at_item, bad_code, overflow};
use kmip_ttlv_base::error::{MalformedTtlvError, SerdeError};
pub use kmip_ttlv_base::types::places::tag_at;
use kmip_ttlv_base::types::{TtlvTag, TtlvType, places};
use std::alloc::Allocator;

/// The type at a place.
#[tactic(auto, unfolding(crate::specs::Outcomes::type_there), using(crate::proofs::Steps::fault_is))]
#[inline(always)]
pub fn type_there<A: Allocator + Copy>(alloc: A, bytes: &[u8], pos: usize) -> Step<TtlvType, A>
    requires inside { pos ≤ length bytes.now }
    ensures step { IsStep (λ t. t) (type_there bytes.now pos) result }
    ensures there { IfOk result (λ t. pos + 4 ≤ length bytes.now) }
{
    if bytes.len() - pos < 4 {
        return Err(Failure::EarlyEnd);
    }
    match places::type_at(bytes, pos) {
        Some(typ) => Ok(typ),
        None => Err(bad_code(alloc, bytes, pos)),
    }
}

/// The item's tag is the one that the name is.
#[tactic(auto, unfolding(crate::specs::Outcomes::tag_wanted), using(crate::proofs::Steps::fault_is))]
#[inline(always)]
pub fn tag_wanted<A: Allocator + Copy>(
    alloc: A,
    name: &str,
    bytes: &[u8],
    pos: usize,
    typ: TtlvType,
) -> Step<(), A>
    requires there { pos + 4 ≤ length bytes.now }
    ensures step { IsStep (λ u. tt) (tag_wanted name.now bytes.now pos typ) result }
{
    match TtlvTag::from_name(name) {
        Some(tag) => {
            if tag != tag_at(bytes, pos) {
                let cause = Cause::Mismatch(SerdeError::UnexpectedTag {
                    expected: tag,
                    actual: tag_at(bytes, pos),
                });
                return Err(at_item(alloc, bytes, pos, 4, typ, cause));
            }
            Ok(())
        }
        None => {
            let name = String::from_str(alloc, name)?;
            let cause = Cause::Mismatch(SerdeError::InvalidTag(name));
            Err(at_item(alloc, bytes, pos, 4, typ, cause))
        }
    }
}

/// The length at a place.
#[tactic(auto, unfolding(crate::specs::Outcomes::length_there))]
#[inline(always)]
pub fn length_there<A: Allocator + Copy>(bytes: &[u8], pos: usize) -> Step<u32, A>
    requires there { pos ≤ length bytes.now }
    ensures step { IsStep (λ n. n) (length_there bytes.now pos) result }
    ensures there { IfOk result (λ n. (pos + 8 ≤ length bytes.now) × (n ≡ length_at bytes.now pos)) }
{
    if bytes.len() - pos < 8 {
        return Err(Failure::EarlyEnd);
    }
    Ok(places::length_at(bytes, pos))
}

/// The item is a Structure.
#[tactic(auto, unfolding(crate::specs::Outcomes::structure_wanted), using(crate::proofs::Steps::fault_is))]
#[inline(always)]
pub fn structure_wanted<A: Allocator + Copy>(
    alloc: A,
    bytes: &[u8],
    pos: usize,
    typ: TtlvType,
) -> Step<(), A>
    requires there { pos + 4 ≤ length bytes.now }
    ensures step { IsStep (λ u. tt) (structure_wanted bytes.now pos typ) result }
{
    if typ != TtlvType::Structure {
        let cause = Cause::Malformed(MalformedTtlvError::UnexpectedType {
            expected: TtlvType::Structure,
            actual: typ,
        });
        return Err(at_item(alloc, bytes, pos, 4, typ, cause));
    }
    Ok(())
}

/// The item goes no further than the structure around it.
#[tactic(auto, unfolding(crate::specs::Outcomes::inside), using(crate::proofs::Steps::fault_is))]
#[inline(always)]
pub fn inside<A: Allocator + Copy>(
    alloc: A,
    bytes: &[u8],
    pos: usize,
    end: usize,
    typ: TtlvType,
    next: usize,
) -> Step<(), A>
    requires there { pos + 4 ≤ length bytes.now }
    ensures step { IsStep (λ u. tt) (inside bytes.now pos end typ next) result }
    ensures before { IfOk result (λ u. next ≤ end) }
{
    if end < next {
        return Err(overflow(alloc, bytes, pos, end, typ, next));
    }
    Ok(())
}

/// A leaf of a type that the shape takes.
#[tactic(auto, unfolding(crate::specs::Outcomes::type_wanted), using(crate::proofs::Steps::fault_is))]
#[inline(always)]
pub fn type_wanted<A: Allocator + Copy>(
    alloc: A,
    takes: bool,
    wanted: TtlvType,
    bytes: &[u8],
    pos: usize,
    typ: TtlvType,
) -> Step<(), A>
    requires there { pos + 4 ≤ length bytes.now }
    ensures step { IsStep (λ u. tt) (type_wanted takes wanted bytes.now pos typ) result }
    ensures taken { IfOk result (λ u. takes ≡ true) }
{
    if !takes {
        let cause = Cause::Mismatch(SerdeError::UnexpectedType {
            expected: wanted,
            actual: typ,
        });
        return Err(at_item(alloc, bytes, pos, 4, typ, cause));
    }
    Ok(())
}

/// The length is the one of the type, if that is fixed.
#[tactic(auto, using(crate::proofs::Steps::fault_is))]
#[inline(always)]
pub fn length_wanted<A: Allocator + Copy>(
    alloc: A,
    bytes: &[u8],
    pos: usize,
    after: usize,
    typ: TtlvType,
    wanted: Option<u32>,
) -> Step<(), A>
    requires there { pos + 8 ≤ length bytes.now }
    requires fits { after < 2 ^ 33 }
    ensures { IsStep (λ u. tt) (length_wanted bytes.now pos after typ wanted) result }
{
    if let Some(w) = wanted {
        let n = places::length_at(bytes, pos);
        if n != w {
            let cause = Cause::Malformed(MalformedTtlvError::InvalidLength {
                expected: w,
                actual: n,
                typ,
            });
            return Err(at_item(alloc, bytes, pos, after, typ, cause));
        }
    }
    Ok(())
}

/// The content of a leaf, and the place after its padding.
#[tactic(auto, unfolding(crate::specs::Outcomes::content_there), using(crate::proofs::Steps::failing))]
#[inline(always)]
pub fn content_there<A: Allocator + Copy>(
    alloc: A,
    bytes: &[u8],
    pos: usize,
    typ: TtlvType,
) -> Step<(&[u8], usize), A>
    requires there { pos + 4 ≤ length bytes.now }
    requires leaf { typ ≢ TtlvType.Structure }
    ensures step { IsStep (λ r. (r.0.now, r.1)) (content_there bytes.now pos typ) result }
    ensures there { IfOk result (λ r. (is_valid typ r.0.now ≡ true) × (pos + 8 ≤ r.1) × (r.1 ≤ length bytes.now)) }
{
    let n = length_there(bytes, pos)?;
    length_wanted(alloc, bytes, pos, 8, typ, places::fixed_length(typ))?;
    if bytes.len() - pos - 8 < n as usize {
        return Err(Failure::EarlyEnd);
    }
    let content = places::content_at(bytes, pos, n);
    if !places::is_valid(typ, content) {
        let cause = Cause::Malformed(MalformedTtlvError::InvalidValue { typ });
        return Err(at_item(alloc, bytes, pos, 8 + n as usize, typ, cause));
    }
    let next = end_there(bytes, pos, typ, n)?;
    Ok((content, next))
}

/// The place after an item's padding.
#[tactic(auto, unfolding(crate::specs::Outcomes::end_there))]
#[inline(always)]
pub fn end_there<A: Allocator + Copy>(
    bytes: &[u8],
    pos: usize,
    typ: TtlvType,
    n: u32,
) -> Step<usize, A>
    requires inside { pos ≤ length bytes.now }
    ensures step { IsStep (λ q. q) (end_there bytes.now pos typ n) result }
    ensures there { IfOk result (λ q. (q ≡ pos + size typ n) × (q ≤ length bytes.now)) }
{
    match places::end_of(bytes, pos, typ, n) {
        Some(next) => Ok(next),
        None => Err(Failure::EarlyEnd),
    }
}

/// Where the content of a struct's item ends.
#[tactic(auto, unfolding(crate::specs::Outcomes::opened), using(crate::proofs::Steps::failure_then))]
#[inline(always)]
pub fn opened<A: Allocator + Copy>(alloc: A, name: &str, bytes: &[u8], pos: usize) -> Step<usize, A>
    requires inside { pos ≤ length bytes.now }
    ensures step { IsStep (λ q. q) (opened name.now bytes.now pos) result }
    ensures there { IfOk result (λ q. (pos + 8 ≤ length bytes.now) × (pos + 8 ≤ q)) }
{
    let typ = type_there(alloc, bytes, pos)?;
    tag_wanted(alloc, name, bytes, pos, typ)?;
    structure_wanted(alloc, bytes, pos, typ)?;
    let n = length_there(bytes, pos)?;
    Ok(pos + 8 + n as usize)
}

/// The name is that of this tag.
#[inline(always)]
pub fn has_tag(name: &str, tag: TtlvTag) -> bool
    ensures { result ≡ has_tag name.now tag }
{
    TtlvTag::from_name(name) == Some(tag)
}

/// The place after an item.
#[tactic(auto, unfolding(crate::specs::Outcomes::item_end), using(crate::proofs::Steps::failure_then))]
#[inline(always)]
pub fn item_end<A: Allocator + Copy>(
    alloc: A,
    bytes: &[u8],
    pos: usize,
    typ: TtlvType,
) -> Step<usize, A>
    requires there { pos + 4 ≤ length bytes.now }
    ensures step { IsStep (λ q. q) (item_end bytes.now pos typ) result }
    ensures further { IfOk result (λ q. (pos + 8 ≤ q) × (q ≤ length bytes.now)) }
{
    if typ == TtlvType::Structure {
        let n = length_there(bytes, pos)?;
        let next = end_there(bytes, pos, typ, n)?;
        return Ok(next);
    }
    let (_, next) = content_there(alloc, bytes, pos, typ)?;
    Ok(next)
}

/// Whether the next item is there, with the first one's tag and type.
#[tactic(auto, unfolding(crate::specs::Outcomes::goes_on), using(crate::proofs::Steps::failure_then))]
#[inline(always)]
pub fn goes_on<A: Allocator + Copy>(
    alloc: A,
    bytes: &[u8],
    first: usize,
    pos: usize,
    end: usize,
) -> Step<bool, A>
    requires first { first + 4 ≤ length bytes.now }
    requires inside { pos ≤ length bytes.now }
    ensures step { IsStep (λ more. more) (goes_on bytes.now first pos end) result }
    ensures there { IfOk result (λ more. more ≡ true → pos + 4 ≤ length bytes.now) }
{
    if pos == end {
        return Ok(false);
    }
    let _ = type_there(alloc, bytes, pos)?;
    Ok(tag_at(bytes, pos) == tag_at(bytes, first) && bytes[pos + 3] == bytes[first + 3])
}

/// Whether an enum is read from an item of this type by its number.
#[inline(always)]
pub fn is_number_type(typ: TtlvType) -> bool
    ensures { result ≡ is_number_type typ }
{
    typ == TtlvType::Integer || typ == TtlvType::Enumeration
}
