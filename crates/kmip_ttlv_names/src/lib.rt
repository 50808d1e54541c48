//! Names of tags and of values: from a user's table, and those of the KMIP specifications.
//!
//! A table is a text with a line for each tag: its hexadecimal digits, a space, its name; that of a user may
//! name values too. The names are borrowed from it, so that parsing it allocates only the map. `STANDARD_TAGS` is the table of the
//! tags of KMIP 1.0 (9.1.3.1) and of the later versions. specs/ defines what a table means.
#![tactic(auto)]

mod by_name;
mod enumerations;
mod masks;
mod own;
mod secrets;
mod standard;
mod table;
mod values;

pub use by_name::{TagsByName, tags_by_name};
pub use enumerations::STANDARD_VALUES;
pub use masks::STANDARD_MASKS;
pub use own::{OwnNames, ValueMap, own_names, value_key};
pub use secrets::STANDARD_SECRETS;
pub use standard::STANDARD_TAGS;
pub use table::{TableError, standard_names, tag_named, tag_names};
pub use values::{
    secrets_are_named, standard_masks, standard_secrets, standard_values, value_name,
};
