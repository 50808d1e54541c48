//! The ends of the structures that are open where a walk is.

ghost use Rattle.std.specs.Prelude.{◌≡◌, ◌∷◌, length, reverse, OnOk, OnErr};

use std::alloc::{AllocError, Allocator};

/// The ends of open structures. The innermost is kept beside the others, so that a message without a
/// structure in its root needs no memory.
#[derive(Drop)]
pub struct Ends<A: Allocator> {
    innermost: Option<usize>,
    outer: Vec<usize, A>,
}

impl<A: Allocator> Ends<A> {
    ghost use Rattle.std.specs.Prelude.{[]};
    ghost use Rattle.kmip_ttlv_items.specs.Enclosing.{open_ends};
    ghost use Rattle.kmip_ttlv_items.specs.WalkPlaces.{unreached, innermost};

    /// No structure is open. Takes no memory.
    pub fn new(alloc: A) -> Ends<A>
        ensures { open_ends result ≡ [] }
    {
        Ends {
            innermost: None,
            outer: Vec::new(alloc),
        }
    }

    /// How many structures are open.
    pub fn depth(&self) -> usize
        ensures { result ≡ length (open_ends self.now) }
    {
        match self.innermost {
            Some(_) => self.outer.len() + 1,
            None => self.outer.len(),
        }
    }

    /// Where the innermost open structure ends, as an offset; none if no structure is open.
    pub fn innermost(&self) -> Option<usize>
        ensures { result ≡ innermost (open_ends self.now) }
    {
        match self.innermost {
            Some(end) => Some(end),
            None => self.outer.last().copied(),
        }
    }

    // Takes the outer ends that are not at an offset, from the innermost on; returns the innermost of them.
    fn leave_outer(&mut self, offset: usize) -> Option<usize>
        ensures ends { open_ends self.new ≡ unreached offset (reverse self.old.outer.items) }
        ensures innermost { result ≡ innermost (open_ends self.new) }
    {
        'leaving: while let Some(end) = self.outer.pop() {
            if end != offset {
                self.innermost = Some(end);
                return Some(end);
            }
        }
        self.innermost = None;
        None
    }

    /// Removes the ends that are reached, and returns the innermost of the others.
    #[inline(always)]
    pub fn leave(&mut self, offset: usize) -> Option<usize>
        ensures ends { open_ends self.new ≡ unreached offset (open_ends self.old) }
        ensures innermost { result ≡ innermost (open_ends self.new) }
    {
        match self.innermost {
            Some(end) if end != offset => Some(end),
            _ => self.leave_outer(offset),
        }
    }

    /// Adds the end of a structure in the others.
    pub fn push(&mut self, end: usize) -> Result<(), AllocError>
        ensures ok { OnOk result (open_ends self.new ≡ end ∷ open_ends self.old) }
        ensures err { OnErr result (open_ends self.new ≡ open_ends self.old) }
    {
        if let Some(around) = self.innermost {
            self.outer.push(around)?;
        }
        self.innermost = Some(end);
        Ok(())
    }
}
