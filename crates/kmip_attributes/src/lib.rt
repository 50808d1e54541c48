//! Attributes of managed objects (KMIP 1.0, section 3): `attribute` is one, by its name; `structures` and `values` are what it says.
//! `codegen/codegen` writes them of `types.table`.
#![tactic(auto)]

pub mod attribute;
pub mod structures;
pub mod values;
