//! The calls that walk over a message's items.

ghost use Rattle.std.specs.Prelude.{◌≡◌};
ghost use Rattle.kmip_ttlv_items.specs.declared.found.FoundItem.{FoundItem as AnItem};
ghost use Rattle.kmip_ttlv_c.specs.LentItems.{c_item, c_kind, c_fault, AnswersWalk, AnswersCheck};

use crate::status::{MALFORMED, NO_ROOM, OK, OUT_OF_MEMORY};
use kmip_ttlv_items::{Fault, FaultKind, FoundItem, FromFoundItem, find_fault, walk_items};
use std::alloc::Global;

/// An item of a message.
#[repr(C)]
#[derive(Clone, Copy, Debug)]
pub struct KmipTtlvItem {
    /// The offset of its header, in bytes from the first.
    pub offset: usize,
    /// How many structures it is in.
    pub depth: usize,
    /// Its tag, a number below 2^24.
    pub tag: u32,
    /// The code of its type.
    pub typ: u32,
    /// The length of its value as the header states it, in bytes.
    pub length: u32,
}

/// What is wrong with a message, and where.
#[repr(C)]
#[derive(Clone, Copy, Debug)]
pub struct KmipTtlvFault {
    /// The offset of the bad item, or of the first surplus byte, in bytes from the first; 0 for no fault.
    pub offset: usize,
    /// The number of what is wrong; 0 for nothing.
    pub kind: u32,
}

impl FromFoundItem for KmipTtlvItem {
    ghost converted = { c_item };

    fn from_item(item: FoundItem) -> KmipTtlvItem {
        KmipTtlvItem {
            offset: item.offset,
            depth: item.depth,
            tag: *item.tag,
            typ: u32::from(item.typ.code()),
            length: item.length,
        }
    }
}

/// The number of a kind of fault in C.
fn kind_of(kind: FaultKind) -> u32
    ensures { result ≡ c_kind kind }
{
    match kind {
        FaultKind::Cut => 1,
        FaultKind::NoStructure => 2,
        FaultKind::UnknownType => 3,
        FaultKind::PartialHeader => 4,
        FaultKind::WrongLength => 5,
        FaultKind::Overlong => 6,
        FaultKind::InvalidValue => 7,
        FaultKind::Surplus => 8,
    }
}

/// A fault in the form for C.
pub fn fault_of(fault: Option<Fault>) -> KmipTtlvFault
    ensures { result ≡ c_fault fault }
{
    match fault {
        None => KmipTtlvFault { offset: 0, kind: 0 },
        Some(fault) => KmipTtlvFault {
            offset: fault.offset,
            kind: kind_of(fault.kind),
        },
    }
}

/// Writes the items of a message, in document order, up to its first fault.
#[unsafe(no_mangle)]
pub extern "C" fn kmip_ttlv_items(
    alloc: Global,
    bytes: &[u8],
    out: &mut [KmipTtlvItem],
    count: &mut usize,
    fault: &mut KmipTtlvFault,
) -> u32
    ensures { AnswersWalk bytes.now result count.new fault.new out.old out.new }
{
    *count = 0;
    *fault = fault_of(None);
    let Ok(end) = walk_items(alloc, bytes, out) else {
        return OUT_OF_MEMORY;
    };
    *count = end.count;
    *fault = fault_of(end.fault);
    if end.fault.is_some() {
        return MALFORMED;
    }
    if end.count > out.len() {
        return NO_ROOM;
    }
    OK
}

/// Checks whether bytes are one whole message, and sets the first fault.
#[unsafe(no_mangle)]
pub extern "C" fn kmip_ttlv_check(alloc: Global, bytes: &[u8], fault: &mut KmipTtlvFault) -> u32
    ensures { AnswersCheck bytes.now result fault.new }
{
    *fault = fault_of(None);
    let Ok(found) = find_fault(alloc, bytes) else {
        return OUT_OF_MEMORY;
    };
    *fault = fault_of(found);
    if found.is_some() {
        return MALFORMED;
    }
    OK
}
