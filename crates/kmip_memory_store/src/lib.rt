//! What a server keeps in memory: objects under identifiers, and where each is in its life (KMIP 1.0, section 3.17).
//!
//! `store` has the calls, `object` what they keep. What is known of an object beside its material, its state and its dates is of a type
//! of the program's own. It needs only std.
#![tactic(auto)]

pub mod object;
pub mod store;
#[cfg(test)]
mod tests;
