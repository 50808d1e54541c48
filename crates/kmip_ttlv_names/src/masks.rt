//! The bits of KMIP's masks, with the names that its specifications give them.
//! Written by codegen/names from data/kmip_enumerations.tsv: change that, and run codegen/names.

/// The masks of KMIP 1.0 (9.1.3.3) and of the later versions up to 2.0, as a table: a line for each, in the order of
/// their tags' numbers, with the list of its bits. Masks are Integers.
pub const STANDARD_MASKS: &str = "\
42002C 1=Sign;2=Verify;4=Encrypt;8=Decrypt;10=Wrap Key;20=Unwrap Key;40=Export;80=MAC Generate;\
    100=MAC Verify;200=Derive Key;400=Content Commitment;800=Key Agreement;\
    1000=Certificate Sign;2000=CRL Sign;4000=Generate Cryptogram;8000=Validate Cryptogram;\
    10000=Translate Encrypt;20000=Translate Decrypt;40000=Translate Wrap;80000=Translate Unwrap;\
    100000=Authenticate;200000=Unrestricted;400000=FPE Encrypt;800000=FPE Decrypt
42008E 1=Online Storage;2=Archival Storage;4=Destroyed Storage
42015E 1=Software;2=Hardware;4=On Processor;8=On System;10=Off System;20=Hypervisor;\
    40=Operating System;80=Container;100=On Premises;200=Off Premises;400=Self Managed;\
    800=Outsourced;1000=Validated;2000=Same Jurisdiction
";
