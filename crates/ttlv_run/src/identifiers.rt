//! The tags of KMIP's items that identify something made in a run.

/// The tags of KMIP 1.0 to 2.0 whose values a server or a client makes anew in each run, to identify an object, a batch item, a nonce or
/// an operation, as a table: a line for each, in the order of their numbers, with its name in the standard.
pub const STANDARD_IDENTIFIERS: &str = "\
420006 Asynchronous Correlation Value
42004C Linked Object Identifier
420066 Private Key Unique Identifier
42006F Public Key Unique Identifier
420076 Replaced Unique Identifier
420093 Unique Batch Item ID
420094 Unique Identifier
4200C9 Nonce ID
4200D6 Correlation Value
420105 Client Correlation Value
420106 Server Correlation Value
420136 Short Unique Identifier
420139 Certificate Request Unique Identifier
";
