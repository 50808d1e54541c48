//! What KMIP's requests ask for (KMIP 1.0, section 4): the payloads of the operations, as `codegen/codegen` writes them of
//! `types.table`.
#![tactic(auto)]

pub mod request_payload;
