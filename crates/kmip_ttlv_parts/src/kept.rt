//! A structure that is kept as it is: the items in it, whatever their tags and types are, with all that is in them.

ghost use Rattle.std.specs.Prelude.{◌≡◌, ◌≤◌, length, true, IfOk, OnErr, OnOk};
ghost use Rattle.kmip_ttlv_base.specs.Values.{seq_value};
ghost use Rattle.kmip_ttlv_base.specs.Visits.{ReceivesEach};
ghost use Rattle.kmip_ttlv_reader.specs.ReadLaws.{AreBytes};
ghost use Rattle.kmip_ttlv_parts.specs.Kept.{given_values, is_given, is_kept, items_outcome, kept_values};

use crate::visited::visit_items;
use kmip_ttlv_base::parts::{begin_seq, end_seq};
use kmip_ttlv_base::shape::Serialize;
use kmip_ttlv_base::types::TtlvTag;
use kmip_ttlv_base::types::places::tag_at;
use kmip_ttlv_base::visit::Visitor;
use kmip_ttlv_reader::any_item::MOST_LEVELS;
use kmip_ttlv_ser::to_vec;
use std::alloc::{AllocError, Allocator, Global};

// Items as they stand in a message, from one place to another.
#[derive(Drop)]
struct ItemsThere<'b> {
    bytes: &'b [u8],
    pos: usize,
    end: usize,
    ghost whole: { is_given (items_outcome bytes.now pos end) ≡ true },
}

impl<'b> Serialize for ItemsThere<'b> {
    ghost stated = { λ x. seq_value (given_values (items_outcome x.bytes.now x.pos x.end)) };

    fn visit<V: Visitor>(&self, visitor: &mut V) -> Result<(), AllocError> {
        begin_seq(visitor)?;
        visit_items(self.bytes, self.pos, self.end, MOST_LEVELS, visitor)?;
        end_seq(visitor)
    }
}

// What is known of the bytes of a slice, for the invariant of a vector.
#[inline(always)]
fn are_bytes(_bytes: &[u8])
    ensures { AreBytes _bytes.now }
{}

/// A structure that is kept as it is: any items, of any tags and types, with all that is in them. They are whole (KMIP 1.0, section
/// 9.1.1), of at most 64 levels, and no Big Integer among them has a length that is no multiple of eight. It is encoded as the same
/// items, with zeros as padding. Two are equal if their items are.
#[derive(Drop)]
#[derive_where(PartialEq)]
pub struct Kept<A: Allocator = Global> {
    items: Vec<u8, A>,
    ghost kept: { is_kept items.items ≡ true },
}

impl<A: Allocator + Copy> Kept<A> {
    ghost use Rattle.kmip_ttlv_base.specs.Values.{no_values};
    ghost use Rattle.kmip_ttlv_parts.specs.KeptItems.{bytes_kept, first_kept, values_kept};

    /// No items.
    pub fn none(alloc: A) -> Kept<A>
        ensures { values_kept result ≡ no_values }
    {
        Kept {
            items: Vec::new(alloc),
        }
    }

    /// The items of a message from one place to another, in bytes from the first byte. The only error is out of memory.
    pub fn from_items(alloc: A, bytes: &[u8], pos: usize, end: usize) -> Result<Kept<A>, AllocError>
        requires before { pos ≤ end }
        requires within { pos ≤ length bytes.now }
        requires whole { is_given (items_outcome bytes.now pos end) ≡ true }
        ensures { IfOk result (λ k. values_kept k ≡ given_values (items_outcome bytes.now pos end)) }
    {
        let there = ItemsThere { bytes, pos, end };
        match to_vec(alloc, &there) {
            Ok(items) => {
                are_bytes(items.as_slice());
                Ok(Kept { items })
            }
            Err(_) => Err(AllocError),
        }
    }

    /// The canonical bytes of its items, one after the other.
    pub fn as_bytes(&self) -> &[u8]
        ensures canonical { is_kept result.now ≡ true }
        ensures values { kept_values result.now ≡ values_kept self.now }
        ensures bytes { result.now ≡ bytes_kept self.now }
    {
        self.items.as_slice()
    }

    /// The tag of its first item, if it has any.
    pub fn first_tag(&self) -> Option<TtlvTag>
        ensures { result ≡ first_kept self.now }
    {
        let bytes = self.items.as_slice();
        if bytes.is_empty() {
            None
        } else {
            Some(tag_at(bytes, 0))
        }
    }

    /// Calls a visitor with its items. The error is the visitor's.
    pub fn visit_items<V: Visitor>(&self, visitor: &mut V) -> Result<(), AllocError>
        ensures received { OnOk result (ReceivesEach V.knows V.step (values_kept self.now) visitor.old visitor.new) }
        ensures stopped { OnErr result (V.stopped visitor.new) }
    {
        let bytes = self.items.as_slice();
        visit_items(bytes, 0, bytes.len(), MOST_LEVELS, visitor)
    }
}
