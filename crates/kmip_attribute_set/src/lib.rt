//! The attributes of an object as one thing, whether a message has them by their names, as in KMIP 1.x, or by their tags, as in KMIP 2.0.
//!
//! `attributes` has the type, which `codegen/codegen` writes of `types.table`; `building` puts attributes together, and `looking` says
//! what they say. `tags` makes items under their own tags of them, and back, by `items`; `references` names attributes by tags, and `names` knows which
//! name has which tag.
//! `copies` reads a structure of what a value is encoded as, and so copies any.
#![tactic(auto)]

pub mod attributes;
pub mod building;
pub mod copies;
mod items;
pub mod looking;
pub mod names;
pub mod references;
pub mod tags;
#[cfg(test)]
mod tests;
