//! What KMIP's messages begin with (KMIP 1.0, section 6): versions, credentials, the headers of requests and responses, and the
//! operations. `codegen/codegen` writes `header` of `types.table`; by hand are `request_header` and
//! `response_header`.
#![tactic(auto)]

pub mod header;
pub mod request_header;
pub mod response_header;
