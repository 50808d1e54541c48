//! KMIP's operations on objects that a server keeps in memory. Each takes what a request asks for, and returns the payload of its answer,
//! or why it is refused; a program's `Handler` chooses which it has.
//!
//! `objects` keeps objects under Unique Identifiers, `about` is what is known of one, and `attributes` the same as attributes; `tagging` has
//! these by tags, as KMIP 2.0 does. `making` has Create, `showing` Get, Get Attributes and Get Attribute List, `finding` and `matching` Locate,
//! `living` Activate, Revoke and Destroy. `system` is what a server takes of the system that it runs on. It needs `kmip_memory_store`,
//! `kmip_attribute_set` and `kmip_server`.
#![tactic(auto)]

pub mod about;
pub mod attributes;
pub mod finding;
pub mod living;
pub mod making;
pub mod matching;
pub mod objects;
pub mod showing;
pub mod system;
pub mod tagging;
#[cfg(test)]
mod tests;

use kmip_messages::header::ProtocolVersion;

/// The versions of KMIP whose attributes these operations know, the best first.
pub const VERSIONS: [ProtocolVersion; 6] = [
    ProtocolVersion { major: 2, minor: 0 },
    ProtocolVersion { major: 1, minor: 4 },
    ProtocolVersion { major: 1, minor: 3 },
    ProtocolVersion { major: 1, minor: 2 },
    ProtocolVersion { major: 1, minor: 1 },
    ProtocolVersion { major: 1, minor: 0 },
];
