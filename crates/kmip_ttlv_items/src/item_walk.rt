//! The walk over the items of a message, step by step: it keeps the offset of the next item and the ends of
//! the open structures.

ghost use Rattle.std.specs.Prelude.{◌≡◌, ◌+◌, ◌<◌, ◌^◌, ℕ, List, [], length, IfOk, OnErr};
ghost use Rattle.kmip_ttlv_types.specs.Places.{size};
ghost use Rattle.kmip_ttlv_items.specs.declared.found.FoundItem.{FoundItem as AnItem};
ghost use Rattle.kmip_ttlv_items.specs.Enclosing.{open_ends};
ghost use Rattle.kmip_ttlv_items.specs.ItemWalks.{Meets, CanStand, Ended};
ghost use Rattle.kmip_ttlv_items.specs.WalkPlaces.{Continues, Due};

use crate::ends::Ends;
use crate::found::{Fault, FaultKind, FoundItem, Step};
use crate::head::{behind_leaves, item_at, root_of};
use kmip_ttlv_types::TtlvType;
use kmip_ttlv_types::places::size_of;
use std::alloc::{AllocError, Allocator, Global};

// The step at offset 0, where no item was met yet: the root, which is a Structure.
#[cold]
fn root_due(bytes: &[u8]) -> Step
    ensures { (es : List ℕ) → Due bytes.now 0 es result }
{
    match root_of(bytes) {
        Ok(root) => Step::Item(root),
        Err(kind) => Step::End(Some(Fault { offset: 0, kind })),
    }
}

// The end of a walk that has left the root.
#[cold]
fn end_behind(bytes: &[u8], offset: usize) -> Option<Fault>
    requires { 0 < offset }
    ensures { (xs : List AnItem) → Meets bytes.now offset [] xs → Ended bytes.now xs result }
{
    if offset < bytes.len() {
        let kind = FaultKind::Surplus;
        return Some(Fault { offset, kind });
    }
    None
}

// The step at an offset. It removes the ends that are reached.
#[inline(always)]
fn due<A: Allocator>(bytes: &[u8], offset: usize, ends: &mut Ends<A>) -> Step
    requires { CanStand bytes.now offset (open_ends ends.old) }
    ensures stays { (xs : List AnItem) → Meets bytes.now offset (open_ends ends.old) xs → Meets bytes.now offset (open_ends ends.new) xs }
    ensures due { Due bytes.now offset (open_ends ends.new) result }
{
    if offset == 0 {
        return root_due(bytes);
    }
    let Some(end) = ends.leave(offset) else {
        return Step::End(end_behind(bytes, offset));
    };
    match item_at(bytes, offset, end, ends.depth()) {
        Ok(item) => Step::Item(item),
        Err(kind) => Step::End(Some(Fault { offset, kind })),
    }
}

// The offset after a leaf, or after the header of a structure, whose end it pushes.
#[inline(always)]
fn enter<A: Allocator>(ends: &mut Ends<A>, item: &FoundItem) -> Result<usize, AllocError>
    requires { item.now.offset + size item.now.typ item.now.length < 2 ^ 64 }
    ensures ok { IfOk result (λ place. Continues item.now (open_ends ends.old) place (open_ends ends.new)) }
    ensures err { OnErr result (open_ends ends.new ≡ open_ends ends.old) }
{
    let next = item.offset + size_of(item.typ, item.length);
    if item.typ != TtlvType::Structure {
        return Ok(next);
    }
    ends.push(next)?;
    Ok(item.offset + 8)
}

/// A walk over the items of any bytes, in document order, up to the first fault.
///
/// It allocates only the ends of the structures that are open at a time, eight bytes each.
///
/// ```
/// let bytes = hex::decode(alloc, "420069010000000842006A0200000004")?;
/// let mut walk = ItemWalk::new(alloc, &bytes);
/// let _root = walk.next()?;
/// let fault = Fault { offset: 8, kind: FaultKind::Overlong };
/// assert!(rt; walk.next()? == Step::End(Some(fault)));
/// ```
#[derive(Drop)]
pub struct ItemWalk<'b, A: Allocator = Global> {
    bytes: &'b [u8],
    offset: usize,
    ends: Ends<A>,
    ghost stands: { CanStand bytes.now offset (open_ends ends) },
}

impl<'b, A: Allocator> ItemWalk<'b, A> {
    ghost use Rattle.kmip_ttlv_items.specs.Stepping.{Met, Steps, Stays, Passes};

    /// Creates a walk at the first byte.
    pub fn new(alloc: A, bytes: &'b [u8]) -> ItemWalk<'b, A>
        ensures bytes { result.bytes.now ≡ bytes.now }
        ensures met { Met result [] }
    {
        ItemWalk {
            bytes,
            offset: 0,
            ends: Ends::new(alloc),
        }
    }

    /// Returns the next item, or the end of the walk; further calls return the end again.
    ///
    /// The only error is out of memory; the next call then retries the same step.
    pub fn next(&mut self) -> Result<Step, AllocError>
        ensures bytes { self.new.bytes.now ≡ self.old.bytes.now }
        ensures ok { IfOk result (λ step. Steps self.old self.new step) }
        ensures err { OnErr result (Stays self.old self.new) }
    {
        let step = due(self.bytes, self.offset, &mut self.ends);
        if let Step::Item(item) = &step {
            self.offset = enter(&mut self.ends, item)?;
        }
        Ok(step)
    }

    /// Moves past all whole leaves that come next in the innermost structure: faster than by steps.
    #[inline(always)]
    pub(crate) fn pass_leaves(&mut self)
        ensures { Passes self.old self.new }
    {
        if let Some(end) = self.ends.innermost() {
            self.offset = behind_leaves(self.bytes, self.offset, end);
        }
    }
}
