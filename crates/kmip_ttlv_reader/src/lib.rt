//! What every way of reading TTLV bytes takes (KMIP 1.0, section 9.1): an item's header (`head`), leaves (`leaf`), the texts that
//! rules ask for (`store`), rules (`rules`), and errors (`failure`, `errors`).
//!
//! `kmip_ttlv_de` reads by a shape with these steps, `kmip_ttlv_kinds` the types that are lists of their parts. `reader` names what a
//! type that reads itself needs.
//!
//! What is read is defined in specs/: `Outcomes` says as one total function which value comes, or which
//! error and where; `Reads` has one rule for each way to read from a list of items, and `Begins` says that
//! bytes begin with an item from which a form reads a value.
#![tactic(auto)]

pub mod any_item;
pub mod choice;
pub mod cursor;
pub mod errors;
pub mod failure;
pub mod head;
pub mod history;
pub mod leaf;
pub mod number_text;
pub mod reader;
pub mod rules;
pub mod scope;
pub mod store;
pub mod values;
