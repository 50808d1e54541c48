// Written by codegen from types.table: change that, and run codegen/codegen.
//! What attributes that are numbers say: Enumerations (KMIP 1.0, section 9.1.3.2).

use kmip_ttlv_parts::Enumeration;

/// What an object is (KMIP 1.0, sections 3.3 and 9.1.3.2.11).
pub type ObjectType = Enumeration<0x420057>;

/// The numbers of `ObjectType` that have a name.
pub mod object_type {
    use super::ObjectType;

    /// A certificate.
    pub const CERTIFICATE: ObjectType = ObjectType { number: 0x00000001 };
    /// A symmetric key.
    pub const SYMMETRIC_KEY: ObjectType = ObjectType { number: 0x00000002 };
    /// A public key.
    pub const PUBLIC_KEY: ObjectType = ObjectType { number: 0x00000003 };
    /// A private key.
    pub const PRIVATE_KEY: ObjectType = ObjectType { number: 0x00000004 };
    /// One of the parts that a key was split into.
    pub const SPLIT_KEY: ObjectType = ObjectType { number: 0x00000005 };
    /// Attributes that other objects are made with.
    pub const TEMPLATE: ObjectType = ObjectType { number: 0x00000006 };
    /// A secret that is no key.
    pub const SECRET_DATA: ObjectType = ObjectType { number: 0x00000007 };
    /// Bytes that the server doesn't interpret.
    pub const OPAQUE_OBJECT: ObjectType = ObjectType { number: 0x00000008 };
}

/// What a key is for (KMIP 1.0, sections 3.4 and 9.1.3.2.12).
pub type CryptographicAlgorithm = Enumeration<0x420028>;

/// The numbers of `CryptographicAlgorithm` that have a name.
pub mod cryptographic_algorithm {
    use super::CryptographicAlgorithm;

    /// DES.
    pub const DES: CryptographicAlgorithm = CryptographicAlgorithm { number: 0x00000001 };
    /// 3DES.
    pub const TRIPLE_DES: CryptographicAlgorithm = CryptographicAlgorithm { number: 0x00000002 };
    /// AES.
    pub const AES: CryptographicAlgorithm = CryptographicAlgorithm { number: 0x00000003 };
    /// RSA.
    pub const RSA: CryptographicAlgorithm = CryptographicAlgorithm { number: 0x00000004 };
    /// DSA.
    pub const DSA: CryptographicAlgorithm = CryptographicAlgorithm { number: 0x00000005 };
    /// ECDSA.
    pub const ECDSA: CryptographicAlgorithm = CryptographicAlgorithm { number: 0x00000006 };
    /// HMAC with SHA-1.
    pub const HMAC_SHA1: CryptographicAlgorithm = CryptographicAlgorithm { number: 0x00000007 };
    /// HMAC with SHA-224.
    pub const HMAC_SHA224: CryptographicAlgorithm = CryptographicAlgorithm { number: 0x00000008 };
    /// HMAC with SHA-256.
    pub const HMAC_SHA256: CryptographicAlgorithm = CryptographicAlgorithm { number: 0x00000009 };
    /// HMAC with SHA-384.
    pub const HMAC_SHA384: CryptographicAlgorithm = CryptographicAlgorithm { number: 0x0000000A };
    /// HMAC with SHA-512.
    pub const HMAC_SHA512: CryptographicAlgorithm = CryptographicAlgorithm { number: 0x0000000B };
    /// HMAC with MD5.
    pub const HMAC_MD5: CryptographicAlgorithm = CryptographicAlgorithm { number: 0x0000000C };
    /// Diffie-Hellman.
    pub const DH: CryptographicAlgorithm = CryptographicAlgorithm { number: 0x0000000D };
    /// Elliptic curve Diffie-Hellman.
    pub const ECDH: CryptographicAlgorithm = CryptographicAlgorithm { number: 0x0000000E };
    /// Elliptic curve Menezes-Qu-Vanstone.
    pub const ECMQV: CryptographicAlgorithm = CryptographicAlgorithm { number: 0x0000000F };
    /// Blowfish.
    pub const BLOWFISH: CryptographicAlgorithm = CryptographicAlgorithm { number: 0x00000010 };
    /// Camellia.
    pub const CAMELLIA: CryptographicAlgorithm = CryptographicAlgorithm { number: 0x00000011 };
    /// CAST5.
    pub const CAST5: CryptographicAlgorithm = CryptographicAlgorithm { number: 0x00000012 };
    /// IDEA.
    pub const IDEA: CryptographicAlgorithm = CryptographicAlgorithm { number: 0x00000013 };
    /// MARS.
    pub const MARS: CryptographicAlgorithm = CryptographicAlgorithm { number: 0x00000014 };
    /// RC2.
    pub const RC2: CryptographicAlgorithm = CryptographicAlgorithm { number: 0x00000015 };
    /// RC4.
    pub const RC4: CryptographicAlgorithm = CryptographicAlgorithm { number: 0x00000016 };
    /// RC5.
    pub const RC5: CryptographicAlgorithm = CryptographicAlgorithm { number: 0x00000017 };
    /// SKIPJACK.
    pub const SKIPJACK: CryptographicAlgorithm = CryptographicAlgorithm { number: 0x00000018 };
    /// Twofish.
    pub const TWOFISH: CryptographicAlgorithm = CryptographicAlgorithm { number: 0x00000019 };
}

/// What a certificate is (KMIP 1.0, sections 3.8 and 9.1.3.2.6).
pub type CertificateType = Enumeration<0x42001D>;

/// The numbers of `CertificateType` that have a name.
pub mod certificate_type {
    use super::CertificateType;

    /// One of X.509.
    pub const X509: CertificateType = CertificateType { number: 0x00000001 };
    /// One of PGP.
    pub const PGP: CertificateType = CertificateType { number: 0x00000002 };
}

/// Where an object is in its life (KMIP 1.0, sections 3.17 and 9.1.3.2.17).
pub type State = Enumeration<0x42008D>;

/// The numbers of `State` that have a name.
pub mod state {
    use super::State;

    /// It isn't in use yet.
    pub const PRE_ACTIVE: State = State { number: 0x00000001 };
    /// It is in use.
    pub const ACTIVE: State = State { number: 0x00000002 };
    /// It no longer protects anything new.
    pub const DEACTIVATED: State = State { number: 0x00000003 };
    /// Others may know it.
    pub const COMPROMISED: State = State { number: 0x00000004 };
    /// It is gone.
    pub const DESTROYED: State = State { number: 0x00000005 };
    /// It is gone, and others may know it.
    pub const DESTROYED_COMPROMISED: State = State { number: 0x00000006 };
}

/// How a name is to be read (KMIP 1.0, section 9.1.3.2.10).
pub type NameType = Enumeration<0x420054>;

/// The numbers of `NameType` that have a name.
pub mod name_type {
    use super::NameType;

    /// As any text.
    pub const UNINTERPRETED_TEXT_STRING: NameType = NameType { number: 0x00000001 };
    /// As a URI.
    pub const URI: NameType = NameType { number: 0x00000002 };
}

/// The mode of a block cipher (KMIP 1.0, section 9.1.3.2.13).
pub type BlockCipherMode = Enumeration<0x420011>;

/// The numbers of `BlockCipherMode` that have a name.
pub mod block_cipher_mode {
    use super::BlockCipherMode;

    /// Cipher block chaining.
    pub const CBC: BlockCipherMode = BlockCipherMode { number: 0x00000001 };
    /// Electronic code book.
    pub const ECB: BlockCipherMode = BlockCipherMode { number: 0x00000002 };
    /// Propagating cipher block chaining.
    pub const PCBC: BlockCipherMode = BlockCipherMode { number: 0x00000003 };
    /// Cipher feedback.
    pub const CFB: BlockCipherMode = BlockCipherMode { number: 0x00000004 };
    /// Output feedback.
    pub const OFB: BlockCipherMode = BlockCipherMode { number: 0x00000005 };
    /// Counter.
    pub const CTR: BlockCipherMode = BlockCipherMode { number: 0x00000006 };
    /// The authentication code CMAC.
    pub const CMAC: BlockCipherMode = BlockCipherMode { number: 0x00000007 };
    /// Counter with CBC-MAC.
    pub const CCM: BlockCipherMode = BlockCipherMode { number: 0x00000008 };
    /// Galois and counter.
    pub const GCM: BlockCipherMode = BlockCipherMode { number: 0x00000009 };
    /// The authentication code CBC-MAC.
    pub const CBC_MAC: BlockCipherMode = BlockCipherMode { number: 0x0000000A };
    /// Tweaked code book with ciphertext stealing.
    pub const XTS: BlockCipherMode = BlockCipherMode { number: 0x0000000B };
    /// AES key wrap with padding.
    pub const AES_KEY_WRAP_PADDING: BlockCipherMode = BlockCipherMode { number: 0x0000000C };
    /// AES key wrap of NIST.
    pub const NIST_KEY_WRAP: BlockCipherMode = BlockCipherMode { number: 0x0000000D };
    /// AESKW of X9.102.
    pub const X9102_AESKW: BlockCipherMode = BlockCipherMode { number: 0x0000000E };
    /// TDKW of X9.102.
    pub const X9102_TDKW: BlockCipherMode = BlockCipherMode { number: 0x0000000F };
    /// AKW1 of X9.102.
    pub const X9102_AKW1: BlockCipherMode = BlockCipherMode { number: 0x00000010 };
    /// AKW2 of X9.102.
    pub const X9102_AKW2: BlockCipherMode = BlockCipherMode { number: 0x00000011 };
}

/// How content is filled up to whole blocks (KMIP 1.0, section 9.1.3.2.14).
pub type PaddingMethod = Enumeration<0x42005F>;

/// The numbers of `PaddingMethod` that have a name.
pub mod padding_method {
    use super::PaddingMethod;

    /// It isn't.
    pub const NO_PADDING: PaddingMethod = PaddingMethod { number: 0x00000001 };
    /// OAEP.
    pub const OAEP: PaddingMethod = PaddingMethod { number: 0x00000002 };
    /// PKCS #5.
    pub const PKCS5: PaddingMethod = PaddingMethod { number: 0x00000003 };
    /// SSL 3.
    pub const SSL3: PaddingMethod = PaddingMethod { number: 0x00000004 };
    /// By zeros.
    pub const ZEROS: PaddingMethod = PaddingMethod { number: 0x00000005 };
    /// ANSI X9.23.
    pub const ANSI_X923: PaddingMethod = PaddingMethod { number: 0x00000006 };
    /// ISO 10126.
    pub const ISO10126: PaddingMethod = PaddingMethod { number: 0x00000007 };
    /// PKCS #1, version 1.5.
    pub const PKCS1_V15: PaddingMethod = PaddingMethod { number: 0x00000008 };
    /// X9.31.
    pub const X931: PaddingMethod = PaddingMethod { number: 0x00000009 };
    /// PSS.
    pub const PSS: PaddingMethod = PaddingMethod { number: 0x0000000A };
}

/// What makes a hash (KMIP 1.0, section 9.1.3.2.15).
pub type HashingAlgorithm = Enumeration<0x420038>;

/// The numbers of `HashingAlgorithm` that have a name.
pub mod hashing_algorithm {
    use super::HashingAlgorithm;

    /// MD2.
    pub const MD2: HashingAlgorithm = HashingAlgorithm { number: 0x00000001 };
    /// MD4.
    pub const MD4: HashingAlgorithm = HashingAlgorithm { number: 0x00000002 };
    /// MD5.
    pub const MD5: HashingAlgorithm = HashingAlgorithm { number: 0x00000003 };
    /// SHA-1.
    pub const SHA1: HashingAlgorithm = HashingAlgorithm { number: 0x00000004 };
    /// SHA-224.
    pub const SHA224: HashingAlgorithm = HashingAlgorithm { number: 0x00000005 };
    /// SHA-256.
    pub const SHA256: HashingAlgorithm = HashingAlgorithm { number: 0x00000006 };
    /// SHA-384.
    pub const SHA384: HashingAlgorithm = HashingAlgorithm { number: 0x00000007 };
    /// SHA-512.
    pub const SHA512: HashingAlgorithm = HashingAlgorithm { number: 0x00000008 };
}

/// What a key is for, by the names of ANSI X9 TR-31 (KMIP 1.0, section 9.1.3.2.16).
pub type KeyRoleType = Enumeration<0x420083>;

/// The numbers of `KeyRoleType` that have a name.
pub mod key_role_type {
    use super::KeyRoleType;

    /// A base derivation key.
    pub const BDK: KeyRoleType = KeyRoleType { number: 0x00000001 };
    /// It verifies cards.
    pub const CVK: KeyRoleType = KeyRoleType { number: 0x00000002 };
    /// It encrypts data.
    pub const DEK: KeyRoleType = KeyRoleType { number: 0x00000003 };
    /// An EMV master key for application cryptograms.
    pub const MKAC: KeyRoleType = KeyRoleType { number: 0x00000004 };
    /// An EMV master key for secure messaging, secret.
    pub const MKSMC: KeyRoleType = KeyRoleType { number: 0x00000005 };
    /// An EMV master key for secure messaging, intact.
    pub const MKSMI: KeyRoleType = KeyRoleType { number: 0x00000006 };
    /// An EMV master key for data authentication codes.
    pub const MKDAC: KeyRoleType = KeyRoleType { number: 0x00000007 };
    /// An EMV master key for dynamic numbers.
    pub const MKDN: KeyRoleType = KeyRoleType { number: 0x00000008 };
    /// An EMV master key for personalizing cards.
    pub const MKCP: KeyRoleType = KeyRoleType { number: 0x00000009 };
    /// Another EMV master key.
    pub const MKOTH: KeyRoleType = KeyRoleType { number: 0x0000000A };
    /// It encrypts keys.
    pub const KEK: KeyRoleType = KeyRoleType { number: 0x0000000B };
    /// A key of ISO 16609.
    pub const MAC16609: KeyRoleType = KeyRoleType { number: 0x0000000C };
    /// A key of ISO 9797-1, algorithm 1.
    pub const MAC97971: KeyRoleType = KeyRoleType { number: 0x0000000D };
    /// A key of ISO 9797-1, algorithm 2.
    pub const MAC97972: KeyRoleType = KeyRoleType { number: 0x0000000E };
    /// A key of ISO 9797-1, algorithm 3.
    pub const MAC97973: KeyRoleType = KeyRoleType { number: 0x0000000F };
    /// A key of ISO 9797-1, algorithm 4.
    pub const MAC97974: KeyRoleType = KeyRoleType { number: 0x00000010 };
    /// A key of ISO 9797-1, algorithm 5.
    pub const MAC97975: KeyRoleType = KeyRoleType { number: 0x00000011 };
    /// It encrypts PINs.
    pub const ZPK: KeyRoleType = KeyRoleType { number: 0x00000012 };
    /// It verifies PINs as IBM 3624 says.
    pub const PVKIBM: KeyRoleType = KeyRoleType { number: 0x00000013 };
    /// It verifies PINs by a PIN verification value.
    pub const PVKPVV: KeyRoleType = KeyRoleType { number: 0x00000014 };
    /// It verifies PINs otherwise.
    pub const PVKOTH: KeyRoleType = KeyRoleType { number: 0x00000015 };
}

/// An elliptic curve (KMIP 1.0, section 9.1.3.2.5).
pub type RecommendedCurve = Enumeration<0x420075>;

/// The numbers of `RecommendedCurve` that have a name.
pub mod recommended_curve {
    use super::RecommendedCurve;

    /// P-192.
    pub const P192: RecommendedCurve = RecommendedCurve { number: 0x00000001 };
    /// K-163.
    pub const K163: RecommendedCurve = RecommendedCurve { number: 0x00000002 };
    /// B-163.
    pub const B163: RecommendedCurve = RecommendedCurve { number: 0x00000003 };
    /// P-224.
    pub const P224: RecommendedCurve = RecommendedCurve { number: 0x00000004 };
    /// K-233.
    pub const K233: RecommendedCurve = RecommendedCurve { number: 0x00000005 };
    /// B-233.
    pub const B233: RecommendedCurve = RecommendedCurve { number: 0x00000006 };
    /// P-256.
    pub const P256: RecommendedCurve = RecommendedCurve { number: 0x00000007 };
    /// K-283.
    pub const K283: RecommendedCurve = RecommendedCurve { number: 0x00000008 };
    /// B-283.
    pub const B283: RecommendedCurve = RecommendedCurve { number: 0x00000009 };
    /// P-384.
    pub const P384: RecommendedCurve = RecommendedCurve { number: 0x0000000A };
    /// K-409.
    pub const K409: RecommendedCurve = RecommendedCurve { number: 0x0000000B };
    /// B-409.
    pub const B409: RecommendedCurve = RecommendedCurve { number: 0x0000000C };
    /// P-521.
    pub const P521: RecommendedCurve = RecommendedCurve { number: 0x0000000D };
    /// K-571.
    pub const K571: RecommendedCurve = RecommendedCurve { number: 0x0000000E };
    /// B-571.
    pub const B571: RecommendedCurve = RecommendedCurve { number: 0x0000000F };
}

/// How the bytes of a key are to be read (KMIP 1.0, section 9.1.3.2.3).
pub type KeyFormatType = Enumeration<0x420042>;

/// The numbers of `KeyFormatType` that have a name.
pub mod key_format_type {
    use super::KeyFormatType;

    /// As they are.
    pub const RAW: KeyFormatType = KeyFormatType { number: 0x00000001 };
    /// As the server doesn't know.
    pub const OPAQUE: KeyFormatType = KeyFormatType { number: 0x00000002 };
    /// As PKCS #1 says.
    pub const PKCS1: KeyFormatType = KeyFormatType { number: 0x00000003 };
    /// As PKCS #8 says.
    pub const PKCS8: KeyFormatType = KeyFormatType { number: 0x00000004 };
    /// As X.509 says.
    pub const X509: KeyFormatType = KeyFormatType { number: 0x00000005 };
    /// As SEC 1 says.
    pub const EC_PRIVATE_KEY: KeyFormatType = KeyFormatType { number: 0x00000006 };
    /// As a structure of a symmetric key.
    pub const TRANSPARENT_SYMMETRIC_KEY: KeyFormatType = KeyFormatType { number: 0x00000007 };
}

/// What is counted of an object's use (KMIP 1.0, section 9.1.3.2.30).
pub type UsageLimitsUnit = Enumeration<0x420098>;

/// The numbers of `UsageLimitsUnit` that have a name.
pub mod usage_limits_unit {
    use super::UsageLimitsUnit;

    /// Bytes.
    pub const BYTE: UsageLimitsUnit = UsageLimitsUnit { number: 0x00000001 };
    /// Objects.
    pub const OBJECT: UsageLimitsUnit = UsageLimitsUnit { number: 0x00000002 };
}

/// Why an object is revoked (KMIP 1.0, section 9.1.3.2.18).
pub type RevocationReasonCode = Enumeration<0x420082>;

/// The numbers of `RevocationReasonCode` that have a name.
pub mod revocation_reason_code {
    use super::RevocationReasonCode;

    /// No reason is given.
    pub const UNSPECIFIED: RevocationReasonCode = RevocationReasonCode { number: 0x00000001 };
    /// Others may know the key.
    pub const KEY_COMPROMISE: RevocationReasonCode = RevocationReasonCode { number: 0x00000002 };
    /// Others may know the authority's key.
    pub const CA_COMPROMISE: RevocationReasonCode = RevocationReasonCode { number: 0x00000003 };
    /// Its owner belongs elsewhere.
    pub const AFFILIATION_CHANGED: RevocationReasonCode = RevocationReasonCode {
        number: 0x00000004,
    };
    /// Another is in its place.
    pub const SUPERSEDED: RevocationReasonCode = RevocationReasonCode { number: 0x00000005 };
    /// It isn't needed any more.
    pub const CESSATION_OF_OPERATION: RevocationReasonCode = RevocationReasonCode {
        number: 0x00000006,
    };
    /// Its owner has lost the right to it.
    pub const PRIVILEGE_WITHDRAWN: RevocationReasonCode = RevocationReasonCode {
        number: 0x00000007,
    };
}

/// How two objects belong together (KMIP 1.0, section 9.1.3.2.19).
pub type LinkType = Enumeration<0x42004B>;

/// The numbers of `LinkType` that have a name.
pub mod link_type {
    use super::LinkType;

    /// The certificate of a public key.
    pub const CERTIFICATE_LINK: LinkType = LinkType { number: 0x00000101 };
    /// The public key of a private key or of a certificate.
    pub const PUBLIC_KEY_LINK: LinkType = LinkType { number: 0x00000102 };
    /// The private key of a public key.
    pub const PRIVATE_KEY_LINK: LinkType = LinkType { number: 0x00000103 };
    /// What it was derived from.
    pub const DERIVATION_BASE_OBJECT_LINK: LinkType = LinkType { number: 0x00000104 };
    /// What was derived from it.
    pub const DERIVED_KEY_LINK: LinkType = LinkType { number: 0x00000105 };
    /// What is in its place.
    pub const REPLACEMENT_OBJECT_LINK: LinkType = LinkType { number: 0x00000106 };
    /// In whose place it is.
    pub const REPLACED_OBJECT_LINK: LinkType = LinkType { number: 0x00000107 };
}
