//! Elements and their attributes.

use std::alloc::Allocator;

/// An attribute of an element.
#[derive(Debug, Drop)]
pub struct Attribute<A: Allocator> {
    /// Its name.
    pub name: String<A>,
    /// Its value, with references replaced; a tab or a line feed that stands in the text itself is a blank (3.3.3).
    pub value: String<A>,
}

/// An element of a document.
#[derive(Debug, Drop)]
pub struct Element<A: Allocator> {
    /// How many elements it is in.
    pub depth: usize,
    /// Its name.
    pub name: String<A>,
    /// Its attributes, in the order of the text.
    pub attributes: Vec<Attribute<A>, A>,
}
