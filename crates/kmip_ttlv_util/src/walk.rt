//! A walk over any bytes: the offset of the next item, and the ends of the open structures. The
//! callers loop over its steps, so nesting costs memory but no stack.

ghost use Rattle.std.specs.Prelude.{◌≡◌, ℕ, ◌+◌, ◌<◌, ◌≤◌, ◌^◌, List, length, OnOk};
ghost use Rattle.kmip_ttlv_util.specs.declared.walk.Next.TheVariants.{Closes as Closing};
ghost use Rattle.kmip_ttlv_util.specs.WalkPlaces.{after, has_end, start};
ghost use Rattle.kmip_ttlv_util.specs.Entries.{extent};
ghost use Rattle.kmip_ttlv_util.specs.Walks.{place_of, Ready, Advances};

use kmip_ttlv_types::TtlvType;
use std::alloc::{AllocError, Allocator};

/// Where a walk is. Offsets are in bytes from the first.
#[derive(Drop)]
pub struct Walk<A: Allocator> {
    /// The offset of the next item.
    pub pos: usize,
    /// The ends of the open structures, the innermost last.
    pub ends: Vec<usize, A>,
    /// How many empty structures are open that no end closes.
    pub endless: usize,
    /// Whether an end may be passed, because an empty structure stayed open.
    pub loose: bool,
}

/// What a walk comes to next: an item, or the end of a structure.
#[derive(Clone, Copy)]
pub enum Next {
    /// A structure closes, and others stay open.
    Closes,
    /// The last structure with an end closes.
    Over,
    /// The innermost end was passed.
    Past,
    /// An item is due, at the walk's offset.
    Reads,
}

/// Whether a structure whose content has this length gets an end of its own.
fn has_end(closed: bool, len: u32) -> bool
    ensures { result ≡ has_end closed len }
{
    closed || len > 0
}

impl<A: Allocator> Walk<A> {
    /// A walk at the first byte.
    pub fn new(alloc: A) -> Walk<A>
        ensures { place_of result ≡ start }
    {
        Walk {
            pos: 0,
            ends: Vec::new(alloc),
            endless: 0,
            loose: false,
        }
    }

    /// How many structures are open.
    #[inline(always)]
    pub fn depth(&self) -> usize
        requires { self.now.endless + length self.now.ends.items < 2 ^ 64 }
        ensures { result ≡ self.now.endless + length self.now.ends.items }
    {
        self.endless + self.ends.as_slice().len()
    }

    /// Returns what comes next, and removes an end that is reached.
    #[inline(always)]
    pub fn next(&mut self) -> Next
        ensures advances { Advances (place_of self.old) (place_of self.new) result }
        ensures pos { self.new.pos ≡ self.old.pos }
        ensures shorter { result ≡ Closing → length self.new.ends.items < length self.old.ends.items }
    {
        let Some(end) = self.ends.last().copied() else {
            return Next::Reads;
        };
        if end == self.pos {
            self.ends.pop();
            if self.ends.is_empty() {
                return Next::Over;
            }
            return Next::Closes;
        }
        if end < self.pos && !self.loose {
            return Next::Past;
        }
        Next::Reads
    }

    /// Moves on past an item: `len` is the length that it states, and `next` the offset of the next item.
    #[inline(always)]
    pub fn step(
        &mut self,
        closed: bool,
        typ: TtlvType,
        len: u32,
        next: usize,
    ) -> Result<(), AllocError>
        requires ready { Ready (place_of self.old) }
        requires next { next ≡ self.old.pos + extent typ len }
        requires fits { next + len < 2 ^ 64 }
        requires few { self.old.endless + 1 < 2 ^ 64 }
        ensures goes { OnOk result (place_of self.new ≡ after closed (place_of self.old) typ len) }
        ensures longer { OnOk result (length self.new.ends.items ≤ length self.old.ends.items + 1) }
    {
        if typ == TtlvType::Structure {
            if has_end(closed, len) {
                self.ends.push(next + len as usize)?;
            } else {
                self.loose = true;
                match self.ends.last().copied() {
                    Some(end) => self.ends.push(end)?,
                    None => self.endless += 1,
                }
            }
        }
        self.pos = next;
        Ok(())
    }
}
