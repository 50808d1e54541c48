//! All items of a message, and its first fault.

ghost use Rattle.std.specs.Prelude.{◌≡◌, IfOk, length, slice_set};
ghost use Rattle.kmip_ttlv_items.specs.ItemWalks.{Finds, Judges};

use crate::found::{Fault, FoundItem, FromFoundItem, Step, WalkEnd};
use crate::item_walk::ItemWalk;
use std::alloc::{AllocError, Allocator};

/// Stores an item at an index of a list, if the list is that long.
fn put<T: FromFoundItem>(out: &mut [T], index: usize, item: FoundItem)
    ensures { out.new ≡ slice_set out.old index (T.converted item) }
{
    if index < out.len() {
        out[index] = T::from_item(item);
    }
}

/// Walks over the items of any bytes, in document order, up to the first fault, and stores them in `out`
/// from its first element on, as far as there is room. The other elements are unchanged.
///
/// If there is no fault, the bytes are one whole message, and all its items were found. It allocates only
/// the ends of the structures that are open at a time; the only error is out of memory.
///
/// ```
/// let bytes = hex::decode(alloc, "4200690100000000")?;
/// let mut none: [FoundItem; 0] = [];
/// let end = walk_items(alloc, &bytes, &mut none)?;
/// assert!(rt; end.count == 1 && end.fault.is_none());
/// ```
pub fn walk_items<T: FromFoundItem, A: Allocator>(
    alloc: A,
    bytes: &[u8],
    out: &mut [T],
) -> Result<WalkEnd, AllocError>
    ensures { IfOk result (λ r. Finds T.converted bytes.now out.old out.new r) }
{
    let mut walk = ItemWalk::new(alloc, bytes);
    let mut count = 0;
    'walk: loop {
        match walk.next()? {
            Step::Item(item) => {
                put(out, count, item);
                count += 1;
            }
            Step::End(fault) => return Ok(WalkEnd { count, fault }),
        }
    }
}

/// Returns the first fault in document order, or none if the bytes are one whole message.
///
/// The only error is out of memory.
///
/// ```
/// let bytes = hex::decode(alloc, "42006A0B00000000")?;
/// let fault = Fault { offset: 0, kind: FaultKind::UnknownType };
/// assert!(rt; find_fault(alloc, &bytes)? == Some(fault));
/// ```
pub fn find_fault<A: Allocator>(alloc: A, bytes: &[u8]) -> Result<Option<Fault>, AllocError>
    ensures { IfOk result (λ fault. Judges bytes.now fault) }
{
    let mut walk = ItemWalk::new(alloc, bytes);
    'walk: loop {
        walk.pass_leaves();
        if let Step::End(fault) = walk.next()? {
            return Ok(fault);
        }
    }
}
