//! The tags of KMIP's items that are secret.
//! Written by codegen/names from data/kmip_tags.tsv: change that, and run codegen/names.

/// The tags of KMIP 1.0 (9.1.3.1) and of the later versions up to 2.0 whose items can hold a key,
/// data to encrypt or decrypt, or proof of identity, as a table: a line for each, in the order of their numbers, with
/// its name. Every other tag is marked as public in `data/kmip_tags.tsv`.
pub const STANDARD_SECRETS: &str = "\
420025 Credential Value
420027 CRT Coefficient
42002E D
420030 Derivation Data
420035 Digest Value
42003F Key
420043 Key Material
420045 Key Value
42005A Opaque Data Value
42005E P
420060 Prime Exponent P
420061 Prime Exponent Q
420063 Private Exponent
420071 Q
42009C Vendor Extension
42009F X
4200A1 Password
4200A2 Device Identifier
4200A9 Machine Identifier
4200AA Media Identifier
4200AB Network Identifier
4200B0 Device Serial Number
4200C2 Data
4200C3 Signature Data
4200C6 MAC Data
4200CB Attestation Measurement
4200CC Attestation Assertion
4200FE Authenticated Encryption Additional Data
420107 Digested Data
42014B Ticket Value
420155 Server Hashed Password
420156 One Time Password
420157 Hashed Password
42015B PKCS#11 Input Parameters
42015C PKCS#11 Output Parameters
";
