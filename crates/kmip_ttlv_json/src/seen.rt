//! What a value of JSON is seen as: as much of it as an item's members can be told from, whatever they are.

ghost use Rattle.std.specs.Prelude.{◌≡◌, option_map};
ghost use Rattle.kmip_ttlv_json.specs.Events.{text_in, items_at, item_at};

use crate::failure::{BadItem, BadMember};

/// A whole number.
#[derive(Clone, Copy)]
pub struct Whole {
    /// Whether a minus sign stands in front.
    pub minus: bool,
    /// The number without it.
    pub size: u64,
}

/// What a value of JSON is seen as.
#[derive(Clone, Copy)]
pub enum Seen<'t> {
    /// A text.
    Text(&'t str),
    /// `true` or `false`.
    Truth(bool),
    /// An array: of items, whose bytes were added behind room for a header, or what is wrong with the first that isn't one.
    Items(Result<(), BadItem>),
    /// An object: an item, whose bytes were added, and whether it is a Structure, or what is wrong with it.
    Item(Result<bool, BadItem>),
    /// A number, if it is whole and has 64 bits at most.
    Number(Option<Whole>),
    /// `null`.
    Null,
}

impl<'t> Seen<'t> {
    /// The text that it is.
    pub fn text(self) -> Option<&'t str>
        ensures { option_map (λ s. s.now) result ≡ text_in self.entry }
    {
        match self {
            Seen::Text(text) => Some(text),
            _ => None,
        }
    }

    /// What is wrong with it as the value of a Structure behind so many tokens.
    pub fn items(self, at: usize) -> Result<(), BadItem>
        ensures { result ≡ items_at at self.entry }
    {
        match self {
            Seen::Items(items) => items,
            _ => Err(BadItem {
                bad: BadMember::Value,
                at,
            }),
        }
    }

    /// What is wrong with it as an item behind so many tokens, or whether it is a Structure.
    pub fn item(self, at: usize) -> Result<bool, BadItem>
        ensures { result ≡ item_at at self.entry }
    {
        match self {
            Seen::Item(item) => item,
            _ => Err(BadItem {
                bad: BadMember::Members,
                at,
            }),
        }
    }
}
