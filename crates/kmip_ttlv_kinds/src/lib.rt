//! Message types that are lists of parts: a type names its parts once, each by a kind, and is encoded, decoded, checked and proved to come
//! back by them.
//!
//! A structure implements [`Structure`], with a [`PartList`]: a tuple of up to four kinds, or [`Before`] or [`Four`] of them with others
//! behind. It may end with [`Rest`], which keeps what stands behind its parts. A kind is a count, [`One`], [`Maybe`], [`Several`] or
//! [`Any`], of an element: another structure ([`Of`]), be it one that is kept with any items in it (`Kept`), or a leaf of a type of Rust
//! under a tag ([`LeafItem`]). [`Leaf`] is one leaf, [`MaybeLeaf`] one that may be absent.
//!
//! ```
//! #[derive(Clone, Copy, PartialEq)]
//! pub struct Version {
//!     pub major: i32,
//!     pub minor: i32,
//! }
//!
//! type Major = Leaf<i32, 0x42006A>;
//! type Minor = Leaf<i32, 0x42006B>;
//! ```
//!
//! What a structure has to prove of itself is computed: that no two parts have one tag is `refl`.
#![tactic(auto)]

mod choices;
mod conversion;
mod counts;
mod elements;
mod fields;
mod kept;
mod laws;
mod leaves;
mod listed;
mod lists;
mod reading;
mod structure;
mod walks;

pub use crate::choices::{Choice, MaybeOneOf, OneOf, is_choice_whole, read_choice};
pub use crate::conversion::convert;
pub use crate::counts::{Any, Maybe, One, Part, Several};
pub use crate::elements::{Element, InBox, Inside, Leaf, LeafItem, MaybeLeaf, Of, Under};
pub use crate::kept::{Rest, is_apart};
pub use crate::laws::{
    equal_choices, equal_structures, structures_are_read_back, structures_come_back,
};
pub use crate::leaves::LeafKind;
pub use crate::listed::{Listed, ListedItem};
pub use crate::lists::{Alone, Before, Four, Holds, PartList};
pub use crate::reading::{decode_structure, read_structure};
pub use crate::structure::{FromParts, Structure, Wrapper, is_structure_whole, visit_structure};
pub use crate::walks::{Decided, Judges, Visits, Walk};
