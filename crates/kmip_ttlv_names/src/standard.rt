//! The tags of KMIP, with the names that its specifications give them.
//! Written by codegen/names from data/kmip_tags.tsv: change that, and run codegen/names.

/// The tags of KMIP 1.0 (9.1.3.1) and of the later versions up to 2.0, as a table: a line for each, in the
/// order of their numbers.
pub const STANDARD_TAGS: &str = "\
420001 Activation Date
420002 Application Data
420003 Application Namespace
420004 Application Specific Information
420005 Archive Date
420006 Asynchronous Correlation Value
420007 Asynchronous Indicator
420008 Attribute
420009 Attribute Index
42000A Attribute Name
42000B Attribute Value
42000C Authentication
42000D Batch Count
42000E Batch Error Continuation Option
42000F Batch Item
420010 Batch Order Option
420011 Block Cipher Mode
420012 Cancellation Result
420013 Certificate
420014 Certificate Identifier
420015 Certificate Issuer
420016 Certificate Issuer Alternative Name
420017 Certificate Issuer Distinguished Name
420018 Certificate Request
420019 Certificate Request Type
42001A Certificate Subject
42001B Certificate Subject Alternative Name
42001C Certificate Subject Distinguished Name
42001D Certificate Type
42001E Certificate Value
42001F Common Template-Attribute
420020 Compromise Date
420021 Compromise Occurrence Date
420022 Contact Information
420023 Credential
420024 Credential Type
420025 Credential Value
420026 Criticality Indicator
420027 CRT Coefficient
420028 Cryptographic Algorithm
420029 Cryptographic Domain Parameters
42002A Cryptographic Length
42002B Cryptographic Parameters
42002C Cryptographic Usage Mask
42002D Custom Attribute
42002E D
42002F Deactivation Date
420030 Derivation Data
420031 Derivation Method
420032 Derivation Parameters
420033 Destroy Date
420034 Digest
420035 Digest Value
420036 Encryption Key Information
420037 G
420038 Hashing Algorithm
420039 Initial Date
42003A Initialization Vector
42003B Issuer
42003C Iteration Count
42003D IV/Counter/Nonce
42003E J
42003F Key
420040 Key Block
420041 Key Compression Type
420042 Key Format Type
420043 Key Material
420044 Key Part Identifier
420045 Key Value
420046 Key Wrapping Data
420047 Key Wrapping Specification
420048 Last Change Date
420049 Lease Time
42004A Link
42004B Link Type
42004C Linked Object Identifier
42004D MAC/Signature
42004E MAC/Signature Key Information
42004F Maximum Items
420050 Maximum Response Size
420051 Message Extension
420052 Modulus
420053 Name
420054 Name Type
420055 Name Value
420056 Object Group
420057 Object Type
420058 Offset
420059 Opaque Data Type
42005A Opaque Data Value
42005B Opaque Object
42005C Operation
42005D Operation Policy Name
42005E P
42005F Padding Method
420060 Prime Exponent P
420061 Prime Exponent Q
420062 Prime Field Size
420063 Private Exponent
420064 Private Key
420065 Private Key Template-Attribute
420066 Private Key Unique Identifier
420067 Process Start Date
420068 Protect Stop Date
420069 Protocol Version
42006A Protocol Version Major
42006B Protocol Version Minor
42006C Public Exponent
42006D Public Key
42006E Public Key Template-Attribute
42006F Public Key Unique Identifier
420070 Put Function
420071 Q
420072 Q String
420073 Qlength
420074 Query Function
420075 Recommended Curve
420076 Replaced Unique Identifier
420077 Request Header
420078 Request Message
420079 Request Payload
42007A Response Header
42007B Response Message
42007C Response Payload
42007D Result Message
42007E Result Reason
42007F Result Status
420080 Revocation Message
420081 Revocation Reason
420082 Revocation Reason Code
420083 Key Role Type
420084 Salt
420085 Secret Data
420086 Secret Data Type
420087 Serial Number
420088 Server Information
420089 Split Key
42008A Split Key Method
42008B Split Key Parts
42008C Split Key Threshold
42008D State
42008E Storage Status Mask
42008F Symmetric Key
420090 Template
420091 Template-Attribute
420092 Time Stamp
420093 Unique Batch Item ID
420094 Unique Identifier
420095 Usage Limits
420096 Usage Limits Count
420097 Usage Limits Total
420098 Usage Limits Unit
420099 Username
42009A Validity Date
42009B Validity Indicator
42009C Vendor Extension
42009D Vendor Identification
42009E Wrapping Method
42009F X
4200A0 Y
4200A1 Password
4200A2 Device Identifier
4200A3 Encoding Option
4200A4 Extension Information
4200A5 Extension Name
4200A6 Extension Tag
4200A7 Extension Type
4200A8 Fresh
4200A9 Machine Identifier
4200AA Media Identifier
4200AB Network Identifier
4200AC Object Group Member
4200AD Certificate Length
4200AE Digital Signature Algorithm
4200AF Certificate Serial Number
4200B0 Device Serial Number
4200B1 Issuer Alternative Name
4200B2 Issuer Distinguished Name
4200B3 Subject Alternative Name
4200B4 Subject Distinguished Name
4200B5 X.509 Certificate Identifier
4200B6 X.509 Certificate Issuer
4200B7 X.509 Certificate Subject
4200B8 Key Value Location
4200B9 Key Value Location Value
4200BA Key Value Location Type
4200BB Key Value Present
4200BC Original Creation Date
4200BD PGP Key
4200BE PGP Key Version
4200BF Alternative Name
4200C0 Alternative Name Value
4200C1 Alternative Name Type
4200C2 Data
4200C3 Signature Data
4200C4 Data Length
4200C5 Random IV
4200C6 MAC Data
4200C7 Attestation Type
4200C8 Nonce
4200C9 Nonce ID
4200CA Nonce Value
4200CB Attestation Measurement
4200CC Attestation Assertion
4200CD IV Length
4200CE Tag Length
4200CF Fixed Field Length
4200D0 Counter Length
4200D1 Initial Counter Value
4200D2 Invocation Field Length
4200D3 Attestation Capable Indicator
4200D4 Offset Items
4200D5 Located Items
4200D6 Correlation Value
4200D7 Init Indicator
4200D8 Final Indicator
4200D9 RNG Parameters
4200DA RNG Algorithm
4200DB DRBG Algorithm
4200DC FIPS186 Variation
4200DD Prediction Resistance
4200DE Random Number Generator
4200DF Validation Information
4200E0 Validation Authority Type
4200E1 Validation Authority Country
4200E2 Validation Authority URI
4200E3 Validation Version Major
4200E4 Validation Version Minor
4200E5 Validation Type
4200E6 Validation Level
4200E7 Validation Certificate Identifier
4200E8 Validation Certificate URI
4200E9 Validation Vendor URI
4200EA Validation Profile
4200EB Profile Information
4200EC Profile Name
4200ED Server URI
4200EE Server Port
4200EF Streaming Capability
4200F0 Asynchronous Capability
4200F1 Attestation Capability
4200F2 Unwrap Mode
4200F3 Destroy Action
4200F4 Shredding Algorithm
4200F5 RNG Mode
4200F6 Client Registration Method
4200F7 Capability Information
4200F8 Key Wrap Type
4200F9 Batch Undo Capability
4200FA Batch Continue Capability
4200FB PKCS#12 Friendly Name
4200FC Description
4200FD Comment
4200FE Authenticated Encryption Additional Data
4200FF Authenticated Encryption Tag
420100 Salt Length
420101 Mask Generator
420102 Mask Generator Hashing Algorithm
420103 P Source
420104 Trailer Field
420105 Client Correlation Value
420106 Server Correlation Value
420107 Digested Data
420108 Certificate Subject CN
420109 Certificate Subject O
42010A Certificate Subject OU
42010B Certificate Subject Email
42010C Certificate Subject C
42010D Certificate Subject ST
42010E Certificate Subject L
42010F Certificate Subject UID
420110 Certificate Subject Serial Number
420111 Certificate Subject Title
420112 Certificate Subject DC
420113 Certificate Subject DN Qualifier
420114 Certificate Issuer CN
420115 Certificate Issuer O
420116 Certificate Issuer OU
420117 Certificate Issuer Email
420118 Certificate Issuer C
420119 Certificate Issuer ST
42011A Certificate Issuer L
42011B Certificate Issuer UID
42011C Certificate Issuer Serial Number
42011D Certificate Issuer Title
42011E Certificate Issuer DC
42011F Certificate Issuer DN Qualifier
420120 Sensitive
420121 Always Sensitive
420122 Extractable
420123 Never Extractable
420124 Replace Existing
420125 Attributes
420126 Common Attributes
420127 Private Key Attributes
420128 Public Key Attributes
420129 Extension Enumeration
42012A Extension Attribute
42012B Extension Parent Structure Tag
42012C Extension Description
42012D Server Name
42012E Server Serial Number
42012F Server Version
420130 Server Load
420131 Product Name
420132 Build Level
420133 Build Date
420134 Cluster Info
420135 Alternate Failover Endpoints
420136 Short Unique Identifier
420137 Reserved
420138 Tag
420139 Certificate Request Unique Identifier
42013A NIST Key Type
42013B Attribute Reference
42013C Current Attribute
42013D New Attribute
420140 Certificate Request Value
420141 Log Message
420142 Profile Version
420143 Profile Version Major
420144 Profile Version Minor
420145 Protection Level
420146 Protection Period
420147 Quantum Safe
420148 Quantum Safe Capability
420149 Ticket
42014A Ticket Type
42014B Ticket Value
42014C Request Count
42014D Rights
42014E Objects
42014F Operations
420150 Right
420151 Endpoint Role
420152 Defaults Information
420153 Object Defaults
420154 Ephemeral
420155 Server Hashed Password
420156 One Time Password
420157 Hashed Password
420158 Adjustment Type
420159 PKCS#11 Interface
42015A PKCS#11 Function
42015B PKCS#11 Input Parameters
42015C PKCS#11 Output Parameters
42015D PKCS#11 Return Code
42015E Protection Storage Mask
42015F Protection Storage Masks
420160 Interop Function
420161 Interop Identifier
420162 Adjustment Value
420163 Common Protection Storage Masks
420164 Private Protection Storage Masks
420165 Public Protection Storage Masks
";
