//! Managed objects (KMIP 1.0, section 2): keys, certificates and the like, and what they are made with, as `codegen/codegen` writes them of `types.table`.
#![tactic(auto)]

pub mod key;
pub mod object;
pub mod template;
