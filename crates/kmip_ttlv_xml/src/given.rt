//! The items of elements, given to be written, with their values in lent bytes.

ghost use Rattle.std.specs.Prelude.{◌≡◌, ◌<◌, ◌≤◌, map, length, OnOk, IfOk, IfErr};
ghost use Rattle.kmip_ttlv_xml.specs.declared.given.Refusal.TheVariants.{NoMemory as IsNoMemory};
ghost use Rattle.kmip_ttlv_xml.specs.GivenElements.{item_view, moved_view, IsSound, Adds, AreGiven, AreUngiven};

use crate::element::{Item, Stop, item_of};
use crate::failure::BadElement;
use kmip_ttlv_write::GivenItem;
use kmip_words::LateWords;
use plain_xml::Element;
use std::alloc::{AllocError, Allocator};

/// Items, and the bytes that have their values, behind eight that say nothing.
#[derive(Drop)]
pub struct Given<A: Allocator> {
    pub items: Vec<GivenItem, A>,
    pub lent: Vec<u8, A>,
}

/// Why elements are no items that can be written.
#[derive(Clone, Copy)]
pub enum Refusal {
    NoMemory,
    /// What is wrong with the first element that is no item, and its index.
    Wrong { bad: BadElement, index: usize },
    /// The index of the first item that stands in one which is no Structure.
    InLeaf { index: usize },
    /// The index of the item with which a Structure is too long.
    TooLong { index: usize },
}

impl From<AllocError> for Refusal {
    ghost from_gives = { λ _ e. e ≡ IsNoMemory };

    fn from(_: AllocError) -> Refusal {
        Refusal::NoMemory
    }
}

// Adds an item at a depth.
fn push_item<A: Allocator>(
    given: &mut Given<A>,
    depth: usize,
    item: &Item<A>,
) -> Result<(), AllocError>
    requires filled { 8 ≤ length given.old.lent.items }
    requires sound { IsSound (item_view item.now) }
    ensures { OnOk result (Adds given.old.items.items given.new.items.items given.old.lent.items given.new.lent.items depth (item_view item.now)) }
{
    let offset = given.lent.len() - 8;
    given.lent.extend_from_slice(item.content.as_slice())?;
    given.items.push(GivenItem {
        offset,
        depth,
        tag: *item.tag,
        typ: u32::from(item.typ.code()),
        length: item.content.len() as u32,
    })?;
    Ok(())
}

/// Gives the items of elements, each in so many structures less, or what is wrong with the first that is none.
pub fn given_of<A: Allocator + Copy>(
    alloc: A,
    words: &mut LateWords<A>,
    elements: &[Element<A>],
    around: usize,
) -> Result<Given<A>, Refusal>
    ensures ok { IfOk result (λ g. AreGiven (map (moved_view around) elements.now) g.items.items g.lent.items) }
    ensures err { IfErr result (λ e. AreUngiven (map (moved_view around) elements.now) e) }
{
    let mut given = Given {
        items: Vec::new(alloc),
        lent: Vec::from_slice(alloc, &[0; 8])?,
    };
    let mut index = 0;
    for element in elements {
        let item = match item_of(alloc, words, element) {
            Ok(item) => item,
            Err(Stop::NoMemory) => return Err(Refusal::NoMemory),
            Err(Stop::Bad(bad)) => return Err(Refusal::Wrong { bad, index }),
        };
        push_item(&mut given, element.depth.saturating_sub(around), &item)?;
        index += 1;
    }
    Ok(given)
}
