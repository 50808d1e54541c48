//! Writes items, into the caller's buffer or into a new vector.

ghost use Rattle.std.specs.Prelude.{◌≡◌, IfOk, IfErr, OnErr, map};
ghost use Rattle.kmip_ttlv_write.specs.GivenItems.{IsWritten};
ghost use Rattle.kmip_ttlv_write.specs.FlatWrites.{HasNone, FillsFront, FailsToWrite};

use crate::emit::emit;
use crate::given::{BadItem, GiveItem, WriteError};
use crate::measure::measure;
use std::alloc::Allocator;

/// Writes items as canonical TTLV bytes to the front of `out`, if there is room for all of them, and returns how many bytes
/// they take, in either case. The rest of `out` is unchanged.
///
/// An item belongs to the last Structure before it of one depth less. The value of a leaf is the `length` bytes of `lent`
/// from its `offset` + 8 on. Nothing is allocated: one pass over the items computes their length, and one writes them.
///
/// If an item can't be written, it returns the first such item, and `out` is unchanged.
///
/// ```
/// let message = [0x42, 0, 0x6A, 1, 0, 0, 0, 0];
/// let item = GivenItem { offset: 0, depth: 0, tag: 0x42_006A, typ: 1, length: 0 };
/// let mut out = [0; 8];
/// assert!(rt; write_into(&[item], b"", &mut out) == Ok(8) && out == message);
/// ```
pub fn write_into<T: GiveItem>(items: &[T], lent: &[u8], out: &mut [u8]) -> Result<usize, BadItem>
    ensures ok { IfOk result (λ len. FillsFront (map T.given items.now) lent.now len out.old out.new) }
    ensures err { IfErr result (λ bad. HasNone (map T.given items.now) lent.now bad) }
    ensures unchanged { OnErr result (out.new ≡ out.old) }
{
    let length = measure(items, lent)?;
    if length <= out.len() {
        emit(items, lent, &mut out[..length]);
    }
    Ok(length)
}

/// Returns items as canonical TTLV bytes.
///
/// An item belongs to the last Structure before it of one depth less. The value of a leaf is the `length` bytes of `lent`
/// from its `offset` + 8 on. Of the items that `walk_items` found in a whole message, with the message as `lent`, it makes
/// the message's canonical bytes: the message itself, if its padding is zero. It allocates once, exactly that length.
///
/// Errors: `Bad` with the first item that can't be written; `OutOfMemory`.
///
/// ```
/// let root = GivenItem { offset: 0, depth: 0, tag: 0x42_0069, typ: 1, length: 0 };
/// let major = GivenItem { offset: 0, depth: 1, tag: 0x42_006A, typ: 2, length: 4 };
/// let bytes = write_items(alloc, &[root, major], b"........\0\0\0\x01")?;
/// let message = hex::decode(alloc, "420069010000001042006A02000000040000000100000000")?;
/// assert!(rt; bytes.as_slice() == message.as_slice());
/// ```
pub fn write_items<T: GiveItem, A: Allocator>(
    alloc: A,
    items: &[T],
    lent: &[u8],
) -> Result<Vec<u8, A>, WriteError>
    ensures ok { IfOk result (λ out. IsWritten (map T.given items.now) lent.now out.items) }
    ensures err { IfErr result (λ e. FailsToWrite (map T.given items.now) lent.now e) }
{
    let mut out = Vec::new(alloc);
    let length = match measure(items, lent) {
        Ok(length) => length,
        Err(bad) => return Err(WriteError::Bad(bad)),
    };
    out.resize(length, 0)?;
    emit(items, lent, out.as_mut_slice());
    Ok(out)
}
