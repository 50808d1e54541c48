//! The values of KMIP's enumerations, with the names that its specifications give them.
//! Written by codegen/names from data/kmip_enumerations.tsv: change that, and run codegen/names.

/// The enumerations of KMIP 1.0 (9.1.3.2) and of the later versions up to 2.0, as a table: a line for each, in
/// the order of their tags' numbers, with the list of its values. Masks, which are Integers, have none.
pub const STANDARD_VALUES: &str = "\
420007 1=Mandatory;2=Optional;3=Prohibited
42000E 1=Continue;2=Stop;3=Undo
420011 1=CBC;2=ECB;3=PCBC;4=CFB;5=OFB;6=CTR;7=CMAC;8=CCM;9=GCM;A=CBC-MAC;B=XTS;\
    C=AESKeyWrapPadding;D=NISTKeyWrap;E=X9.102 AESKW;F=X9.102 TDKW;10=X9.102 AKW1;\
    11=X9.102 AKW2;12=AEAD
420012 1=Canceled;2=Unable to Cancel;3=Completed;4=Failed;5=Unavailable
420019 1=CRMF;2=PKCS#10;3=PEM;4=PGP
42001D 1=X.509;2=PGP
420024 1=Username and Password;2=Device;3=Attestation;4=One Time Password;5=Hashed Password;\
    6=Ticket
420028 1=DES;2=3DES;3=AES;4=RSA;5=DSA;6=ECDSA;7=HMAC-SHA1;8=HMAC-SHA224;9=HMAC-SHA256;\
    A=HMAC-SHA384;B=HMAC-SHA512;C=HMAC-MD5;D=DH;E=ECDH;F=ECMQV;10=Blowfish;11=Camellia;12=CAST5;\
    13=IDEA;14=MARS;15=RC2;16=RC4;17=RC5;18=SKIPJACK;19=Twofish;1A=EC;1B=One Time Pad;\
    1C=ChaCha20;1D=Poly1305;1E=ChaCha20Poly1305;1F=SHA3-224;20=SHA3-256;21=SHA3-384;22=SHA3-512;\
    23=HMAC-SHA3-224;24=HMAC-SHA3-256;25=HMAC-SHA3-384;26=HMAC-SHA3-512;27=SHAKE-128;\
    28=SHAKE-256;29=ARIA;2A=SEED;2B=SM2;2C=SM3;2D=SM4;2E=GOST R 34.10-2012;2F=GOST R 34.11-2012;\
    30=GOST R 34.13-2015;31=GOST 28147-89;32=XMSS;33=SPHINCS-256;34=McEliece;\
    35=McEliece-6960119;36=McEliece-8192128;37=Ed25519;38=Ed448
420031 1=PBKDF2;2=HASH;3=HMAC;4=ENCRYPT;5=NIST800-108-C;6=NIST800-108-F;7=NIST800-108-DPI;\
    8=Asymmetric Key;9=AWS Signature Version 4;A=HKDF
420038 1=MD2;2=MD4;3=MD5;4=SHA-1;5=SHA-224;6=SHA-256;7=SHA-384;8=SHA-512;9=RIPEMD-160;A=Tiger;\
    B=Whirlpool;C=SHA-512/224;D=SHA-512/256;E=SHA-3-224;F=SHA-3-256;10=SHA-3-384;11=SHA-3-512
420041 1=EC Public Key Type Uncompressed;2=EC Public Key Type X9.62 Compressed Prime;\
    3=EC Public Key Type X9.62 Compressed Char2;4=EC Public Key Type X9.62 Hybrid
420042 1=Raw;2=Opaque;3=PKCS#1;4=PKCS#8;5=X.509;6=ECPrivateKey;7=Transparent Symmetric Key;\
    8=Transparent DSA Private Key;9=Transparent DSA Public Key;A=Transparent RSA Private Key;\
    B=Transparent RSA Public Key;C=Transparent DH Private Key;D=Transparent DH Public Key;\
    E=Transparent ECDSA Private Key;F=Transparent ECDSA Public Key;\
    10=Transparent ECDH Private Key;11=Transparent ECDH Public Key;\
    12=Transparent ECMQV Private Key;13=Transparent ECMQV Public Key;\
    14=Transparent EC Private Key;15=Transparent EC Public Key;16=PKCS#12
42004B 101=Certificate Link;102=Public Key Link;103=Private Key Link;\
    104=Derivation Base Object Link;105=Derived Key Link;106=Replacement Object Link;\
    107=Replaced Object Link;108=Parent Link;109=Child Link;10A=Previous Link;10B=Next Link;\
    10C=PKCS#12 Certificate Link;10D=PKCS#12 Password Link;10E=Wrapping Key Link
420054 1=Uninterpreted Text String;2=URI
420057 1=Certificate;2=Symmetric Key;3=Public Key;4=Private Key;5=Split Key;6=Template;\
    7=Secret Data;8=Opaque Object;9=PGP Key;A=Certificate Request
42005C 1=Create;2=Create Key Pair;3=Register;4=Re-key;5=Derive Key;6=Certify;7=Re-certify;\
    8=Locate;9=Check;A=Get;B=Get Attributes;C=Get Attribute List;D=Add Attribute;\
    E=Modify Attribute;F=Delete Attribute;10=Obtain Lease;11=Get Usage Allocation;12=Activate;\
    13=Revoke;14=Destroy;15=Archive;16=Recover;17=Validate;18=Query;19=Cancel;1A=Poll;1B=Notify;\
    1C=Put;1D=Re-key Key Pair;1E=Discover Versions;1F=Encrypt;20=Decrypt;21=Sign;\
    22=Signature Verify;23=MAC;24=MAC Verify;25=RNG Retrieve;26=RNG Seed;27=Hash;\
    28=Create Split Key;29=Join Split Key;2A=Import;2B=Export;2C=Log;2D=Login;2E=Logout;\
    2F=Delegated Login;30=Adjust Attribute;31=Set Attribute;32=Set Endpoint Role;33=PKCS#11;\
    34=Interop;35=Re-Provision
42005F 1=None;2=OAEP;3=PKCS5;4=SSL3;5=Zeros;6=ANSI X9.23;7=ISO 10126;8=PKCS1 v1.5;9=X9.31;A=PSS
420070 1=New;2=Replace
420074 1=Query Operations;2=Query Objects;3=Query Server Information;\
    4=Query Application Namespaces;5=Query Extension List;6=Query Extension Map;\
    7=Query Attestation Types;8=Query RNGs;9=Query Validations;A=Query Profiles;\
    B=Query Capabilities;C=Query Client Registration Methods;D=Query Defaults Information;\
    E=Query Storage Protection Masks
420075 1=P-192;2=K-163;3=B-163;4=P-224;5=K-233;6=B-233;7=P-256;8=K-283;9=B-283;A=P-384;B=K-409;\
    C=B-409;D=P-521;E=K-571;F=B-571;10=SECP112R1;11=SECP112R2;12=SECP128R1;13=SECP128R2;\
    14=SECP160K1;15=SECP160R1;16=SECP160R2;17=SECP191K1;18=SECP224K1;19=SECP256K1;1A=SECT113R1;\
    1B=SECT113R2;1C=SECT131R1;1D=SECT131R2;1E=SECT163R1;1F=SECT193R1;20=SECT193R2;21=SECT239K1;\
    22=ANSIX9P192V2;23=ANSIX9P192V3;24=ANSIX9P239V1;25=ANSIX9P239V2;26=ANSIX9P239V3;\
    27=ANSIX9C2PNB163V1;28=ANSIX9C2PNB163V2;29=ANSIX9C2PNB163V3;2A=ANSIX9C2PNB176V1;\
    2B=ANSIX9C2TNB191V1;2C=ANSIX9C2TNB191V2;2D=ANSIX9C2TNB191V3;2E=ANSIX9C2PNB208W1;\
    2F=ANSIX9C2TNB239V1;30=ANSIX9C2TNB239V2;31=ANSIX9C2TNB239V3;32=ANSIX9C2PNB272W1;\
    33=ANSIX9C2PNB304W1;34=ANSIX9C2TNB359V1;35=ANSIX9C2PNB368W1;36=ANSIX9C2TNB431R1;\
    37=BRAINPOOLP160R1;38=BRAINPOOLP160T1;39=BRAINPOOLP192R1;3A=BRAINPOOLP192T1;\
    3B=BRAINPOOLP224R1;3C=BRAINPOOLP224T1;3D=BRAINPOOLP256R1;3E=BRAINPOOLP256T1;\
    3F=BRAINPOOLP320R1;40=BRAINPOOLP320T1;41=BRAINPOOLP384R1;42=BRAINPOOLP384T1;\
    43=BRAINPOOLP512R1;44=BRAINPOOLP512T1;45=CURVE25519;46=CURVE448
42007E 1=Item Not Found;2=Response Too Large;3=Authentication Not Successful;4=Invalid Message;\
    5=Operation Not Supported;6=Missing Data;7=Invalid Field;8=Feature Not Supported;\
    9=Operation Canceled by Requester;A=Cryptographic Failure;B=Illegal Operation;\
    C=Permission Denied;D=Object Archived;E=Index Out of Bounds;\
    F=Application Namespace Not Supported;10=Key Format Type Not Supported;\
    11=Key Compression Type Not Supported;12=Encoding Option Error;13=Key Value Not Present;\
    14=Attestation Required;15=Attestation Failed;16=Sensitive;17=Not Extractable;\
    18=Object Already Exists;19=Invalid Ticket;1A=Usage Limit Exceeded;1B=Numeric Range;\
    1C=Invalid Data Type;1D=Read Only Attribute;1E=Multi Valued Attribute;\
    1F=Unsupported Attribute;20=Attribute Instance Not Found;21=Attribute Not Found;\
    22=Attribute Read Only;23=Attribute Single Valued;24=Bad Cryptographic Parameters;\
    25=Bad Password;26=Codec Error;28=Illegal Object Type;\
    29=Incompatible Cryptographic Usage Mask;2A=Internal Server Error;\
    2B=Invalid Asynchronous Correlation Value;2C=Invalid Attribute;2D=Invalid Attribute Value;\
    2E=Invalid Correlation Value;2F=Invalid CSR;30=Invalid Object Type;\
    32=Key Wrap Type Not Supported;34=Missing Initialization Vector;\
    35=Non Unique Name Attribute;36=Object Destroyed;37=Object Not Found;39=Not Authorised;\
    3A=Server Limit Exceeded;3B=Unknown Enumeration;3C=Unknown Message Extension;3D=Unknown Tag;\
    3E=Unsupported Cryptographic Parameters;3F=Unsupported Protocol Version;\
    40=Wrapping Object Archived;41=Wrapping Object Destroyed;42=Wrapping Object Not Found;\
    43=Wrong Key Lifecycle State;44=Protection Storage Unavailable;45=PKCS#11 Codec Error;\
    46=PKCS#11 Invalid Function;47=PKCS#11 Invalid Interface;100=General Failure
42007F 0=Success;1=Operation Failed;2=Operation Pending;3=Operation Undone
420082 1=Unspecified;2=Key Compromise;3=CA Compromise;4=Affiliation Changed;5=Superseded;\
    6=Cessation of Operation;7=Privilege Withdrawn
420083 1=BDK;2=CVK;3=DEK;4=MKAC;5=MKSMC;6=MKSMI;7=MKDAC;8=MKDN;9=MKCP;A=MKOTH;B=KEK;C=MAC16609;\
    D=MAC97971;E=MAC97972;F=MAC97973;10=MAC97974;11=MAC97975;12=ZPK;13=PVKIBM;14=PVKPVV;\
    15=PVKOTH;16=DUKPT;17=IV;18=TRKBK
420086 1=Password;2=Seed
42008A 1=XOR;2=Polynomial Sharing GF(2^16);3=Polynomial Sharing Prime Field;\
    4=Polynomial Sharing GF(2^8)
42008D 1=Pre-Active;2=Active;3=Deactivated;4=Compromised;5=Destroyed;6=Destroyed Compromised
420094 1=ID Placeholder;2=Certify;3=Create;4=Create Key Pair;5=Create Key Pair Private Key;\
    6=Create Key Pair Public Key;7=Create Split Key;8=Derive Key;9=Import;A=Join Split Key;\
    B=Locate;C=Register;D=Re-key;E=Re-certify;F=Re-key Key Pair;10=Re-key Key Pair Private Key;\
    11=Re-key Key Pair Public Key
420098 1=Byte;2=Object
42009B 1=Valid;2=Invalid;3=Unknown
42009E 1=Encrypt;2=MAC/sign;3=Encrypt then MAC/sign;4=MAC/sign then encrypt;5=TR-31
4200A3 1=No Encoding;2=TTLV Encoding
4200AC 1=Group Member Fresh;2=Group Member Default
4200AE 1=MD2 with RSA Encryption;2=MD5 with RSA Encryption;3=SHA-1 with RSA Encryption;\
    4=SHA-224 with RSA Encryption;5=SHA-256 with RSA Encryption;6=SHA-384 with RSA Encryption;\
    7=SHA-512 with RSA Encryption;8=RSASSA-PSS;9=DSA with SHA-1;A=DSA with SHA224;\
    B=DSA with SHA256;C=ECDSA with SHA-1;D=ECDSA with SHA224;E=ECDSA with SHA256;\
    F=ECDSA with SHA384;10=ECDSA with SHA512;11=SHA3-256 with RSA Encryption;\
    12=SHA3-384 with RSA Encryption;13=SHA3-512 with RSA Encryption
4200BA 1=Uninterpreted Text String;2=URI
4200C1 1=Uninterpreted Text String;2=URI;3=Object Serial Number;4=Email Address;5=DNS Name;\
    6=X.500 Distinguished Name;7=IP Address
4200C7 1=TPM Quote;2=TCG Integrity Report;3=SAML Assertion
4200DA 1=Unspecified;2=FIPS 186-2;3=DRBG;4=NRBG;5=ANSI X9.31;6=ANSI X9.62
4200DB 1=Unspecified;2=Dual-EC;3=Hash;4=HMAC;5=CTR
4200DC 1=Unspecified;2=GP x-Original;3=GP x-Change Notice;4=x-Original;5=x-Change Notice;\
    6=k-Original;7=k-Change Notice
4200E0 1=Unspecified;2=NIST CMVP;3=Common Criteria
4200E5 1=Unspecified;2=Hardware;3=Software;4=Firmware;5=Hybrid
4200EC 1=Baseline Server Basic KMIP v1.2;2=Baseline Server TLS v1.2 KMIP v1.2;\
    3=Baseline Client Basic KMIP v1.2;4=Baseline Client TLS v1.2 KMIP v1.2;\
    5=Complete Server Basic KMIP v1.2;6=Complete Server TLS v1.2 KMIP v1.2;\
    7=Tape Library Client KMIP v1.0;8=Tape Library Client KMIP v1.1;\
    9=Tape Library Client KMIP v1.2;A=Tape Library Server KMIP v1.0;\
    B=Tape Library Server KMIP v1.1;C=Tape Library Server KMIP v1.2;\
    D=Symmetric Key Lifecycle Client KMIP v1.0;E=Symmetric Key Lifecycle Client KMIP v1.1;\
    F=Symmetric Key Lifecycle Client KMIP v1.2;10=Symmetric Key Lifecycle Server KMIP v1.0;\
    11=Symmetric Key Lifecycle Server KMIP v1.1;12=Symmetric Key Lifecycle Server KMIP v1.2;\
    13=Asymmetric Key Lifecycle Client KMIP v1.0;14=Asymmetric Key Lifecycle Client KMIP v1.1;\
    15=Asymmetric Key Lifecycle Client KMIP v1.2;16=Asymmetric Key Lifecycle Server KMIP v1.0;\
    17=Asymmetric Key Lifecycle Server KMIP v1.1;18=Asymmetric Key Lifecycle Server KMIP v1.2;\
    19=Basic Cryptographic Client KMIP v1.2;1A=Basic Cryptographic Server KMIP v1.2;\
    1B=Advanced Cryptographic Client KMIP v1.2;1C=Advanced Cryptographic Server KMIP v1.2;\
    1D=RNG Cryptographic Client KMIP v1.2;1E=RNG Cryptographic Server KMIP v1.2;\
    1F=Basic Symmetric Key Foundry Client KMIP v1.0;\
    20=Intermediate Symmetric Key Foundry Client KMIP v1.0;\
    21=Advanced Symmetric Key Foundry Client KMIP v1.0;\
    22=Basic Symmetric Key Foundry Client KMIP v1.1;\
    23=Intermediate Symmetric Key Foundry Client KMIP v1.1;\
    24=Advanced Symmetric Key Foundry Client KMIP v1.1;\
    25=Basic Symmetric Key Foundry Client KMIP v1.2;\
    26=Intermediate Symmetric Key Foundry Client KMIP v1.2;\
    27=Advanced Symmetric Key Foundry Client KMIP v1.2;\
    28=Symmetric Key Foundry Server KMIP v1.0;29=Symmetric Key Foundry Server KMIP v1.1;\
    2A=Symmetric Key Foundry Server KMIP v1.2;2B=Opaque Managed Object Store Client KMIP v1.0;\
    2C=Opaque Managed Object Store Client KMIP v1.1;\
    2D=Opaque Managed Object Store Client KMIP v1.2;\
    2E=Opaque Managed Object Store Server KMIP v1.0;\
    2F=Opaque Managed Object Store Server KMIP v1.1;\
    30=Opaque Managed Object Store Server KMIP v1.2;31=Suite B minLOS_128 Client KMIP v1.0;\
    32=Suite B minLOS_128 Client KMIP v1.1;33=Suite B minLOS_128 Client KMIP v1.2;\
    34=Suite B minLOS_128 Server KMIP v1.0;35=Suite B minLOS_128 Server KMIP v1.1;\
    36=Suite B minLOS_128 Server KMIP v1.2;37=Suite B minLOS_192 Client KMIP v1.0;\
    38=Suite B minLOS_192 Client KMIP v1.1;39=Suite B minLOS_192 Client KMIP v1.2;\
    3A=Suite B minLOS_192 Server KMIP v1.0;3B=Suite B minLOS_192 Server KMIP v1.1;\
    3C=Suite B minLOS_192 Server KMIP v1.2;\
    3D=Storage Array With Self-Encrypting Drive Client KMIP v1.0;\
    3E=Storage Array With Self-Encrypting Drive Client KMIP v1.1;\
    3F=Storage Array With Self-Encrypting Drive Client KMIP v1.2;\
    40=Storage Array With Self-Encrypting Drive Server KMIP v1.0;\
    41=Storage Array With Self-Encrypting Drive Server KMIP v1.1;\
    42=Storage Array With Self-Encrypting Drive Server KMIP v1.2;43=HTTPS Client KMIP v1.0;\
    44=HTTPS Client KMIP v1.1;45=HTTPS Client KMIP v1.2;46=HTTPS Server KMIP v1.0;\
    47=HTTPS Server KMIP v1.1;48=HTTPS Server KMIP v1.2;49=JSON Client KMIP v1.0;\
    4A=JSON Client KMIP v1.1;4B=JSON Client KMIP v1.2;4C=JSON Server KMIP v1.0;\
    4D=JSON Server KMIP v1.1;4E=JSON Server KMIP v1.2;4F=XML Client KMIP v1.0;\
    50=XML Client KMIP v1.1;51=XML Client KMIP v1.2;52=XML Server KMIP v1.0;\
    53=XML Server KMIP v1.1;54=XML Server KMIP v1.2;55=Baseline Server Basic KMIP v1.3;\
    56=Baseline Server TLS v1.2 KMIP v1.3;57=Baseline Client Basic KMIP v1.3;\
    58=Baseline Client TLS v1.2 KMIP v1.3;59=Complete Server Basic KMIP v1.3;\
    5A=Complete Server TLS v1.2 KMIP v1.3;5B=Tape Library Client KMIP v1.3;\
    5C=Tape Library Server KMIP v1.3;5D=Symmetric Key Lifecycle Client KMIP v1.3;\
    5E=Symmetric Key Lifecycle Server KMIP v1.3;5F=Asymmetric Key Lifecycle Client KMIP v1.3;\
    60=Asymmetric Key Lifecycle Server KMIP v1.3;61=Basic Cryptographic Client KMIP v1.3;\
    62=Basic Cryptographic Server KMIP v1.3;63=Advanced Cryptographic Client KMIP v1.3;\
    64=Advanced Cryptographic Server KMIP v1.3;65=RNG Cryptographic Client KMIP v1.3;\
    66=RNG Cryptographic Server KMIP v1.3;67=Basic Symmetric Key Foundry Client KMIP v1.3;\
    68=Intermediate Symmetric Key Foundry Client KMIP v1.3;\
    69=Advanced Symmetric Key Foundry Client KMIP v1.3;\
    6A=Symmetric Key Foundry Server KMIP v1.3;6B=Opaque Managed Object Store Client KMIP v1.3;\
    6C=Opaque Managed Object Store Server KMIP v1.3;6D=Suite B minLOS_128 Client KMIP v1.3;\
    6E=Suite B minLOS_128 Server KMIP v1.3;6F=Suite B minLOS_192 Client KMIP v1.3;\
    70=Suite B minLOS_192 Server KMIP v1.3;\
    71=Storage Array With Self-Encrypting Drive Client KMIP v1.3;\
    72=Storage Array With Self-Encrypting Drive Server KMIP v1.3;73=HTTPS Client KMIP v1.3;\
    74=HTTPS Server KMIP v1.3;75=JSON Client KMIP v1.3;76=JSON Server KMIP v1.3;\
    77=XML Client KMIP v1.3;78=XML Server KMIP v1.3;79=Baseline Server Basic KMIP v1.4;\
    7A=Baseline Server TLS v1.2 KMIP v1.4;7B=Baseline Client Basic KMIP v1.4;\
    7C=Baseline Client TLS v1.2 KMIP v1.4;7D=Complete Server Basic KMIP v1.4;\
    7E=Complete Server TLS v1.2 KMIP v1.4;7F=Tape Library Client KMIP v1.4;\
    80=Tape Library Server KMIP v1.4;81=Symmetric Key Lifecycle Client KMIP v1.4;\
    82=Symmetric Key Lifecycle Server KMIP v1.4;83=Asymmetric Key Lifecycle Client KMIP v1.4;\
    84=Asymmetric Key Lifecycle Server KMIP v1.4;85=Basic Cryptographic Client KMIP v1.4;\
    86=Basic Cryptographic Server KMIP v1.4;87=Advanced Cryptographic Client KMIP v1.4;\
    88=Advanced Cryptographic Server KMIP v1.4;89=RNG Cryptographic Client KMIP v1.4;\
    8A=RNG Cryptographic Server KMIP v1.4;8B=Basic Symmetric Key Foundry Client KMIP v1.4;\
    8C=Intermediate Symmetric Key Foundry Client KMIP v1.4;\
    8D=Advanced Symmetric Key Foundry Client KMIP v1.4;\
    8E=Symmetric Key Foundry Server KMIP v1.4;8F=Opaque Managed Object Store Client KMIP v1.4;\
    90=Opaque Managed Object Store Server KMIP v1.4;91=Suite B minLOS_128 Client KMIP v1.4;\
    92=Suite B minLOS_128 Server KMIP v1.4;93=Suite B minLOS_192 Client KMIP v1.4;\
    94=Suite B minLOS_192 Server KMIP v1.4;\
    95=Storage Array With Self-Encrypting Drive Client KMIP v1.4;\
    96=Storage Array With Self-Encrypting Drive Server KMIP v1.4;97=HTTPS Client KMIP v1.4;\
    98=HTTPS Server KMIP v1.4;99=JSON Client KMIP v1.4;9A=JSON Server KMIP v1.4;\
    9B=XML Client KMIP v1.4;9C=XML Server KMIP v1.4;104=Complete Server Basic;\
    105=Complete Server TLS v1.2;106=Tape Library Client;107=Tape Library Server;\
    108=Symmetric Key Lifecycle Client;109=Symmetric Key Lifecycle Server;\
    10A=Asymmetric Key Lifecycle Client;10B=Asymmetric Key Lifecycle Server;\
    10C=Basic Cryptographic Client;10D=Basic Cryptographic Server;\
    10E=Advanced Cryptographic Client;10F=Advanced Cryptographic Server;\
    110=RNG Cryptographic Client;111=RNG Cryptographic Server;\
    112=Basic Symmetric Key Foundry Client;113=Intermediate Symmetric Key Foundry Client;\
    114=Advanced Symmetric Key Foundry Client;115=Symmetric Key Foundry Server;\
    116=Opaque Managed Object Store Client;117=Opaque Managed Object Store Server;\
    118=Suite B minLOS_128 Client;119=Suite B minLOS_128 Server;11A=Suite B minLOS_192 Client;\
    11B=Suite B minLOS_192 Server;11C=Storage Array With Self-Encrypting Drive Client;\
    11D=Storage Array With Self-Encrypting Drive Server;11E=HTTPS Client;11F=HTTPS Server;\
    120=JSON Client;121=JSON Server;122=XML Client;123=XML Server;124=AES-XTS Client;\
    125=AES-XTS Server;126=Quantum Safe Client;127=Quantum Safe Server;128=PKCS#11 Client;\
    129=PKCS#11 Server;12A=Baseline Client;12B=Baseline Server;12C=Complete Server
4200F2 1=Unspecified;2=Processed;3=Not Processed
4200F3 1=Unspecified;2=Key Material Deleted;3=Key Material Shredded;4=Metadata Deleted;\
    5=Metadata Shredded;6=Deleted;7=Shredded
4200F4 1=Unspecified;2=Cryptographic;3=Unsupported
4200F5 1=Unspecified;2=Shared Instantiation;3=Non-Shared Instantiation
4200F6 1=Unspecified;2=Server Pre-Generated;3=Server On-Demand;4=Client Generated;\
    5=Client Registered
4200F8 1=Not Wrapped;2=As Registered
420101 1=MGF1
42013A 1=Private Signature Key;2=Public Signature Verification Key;\
    3=Symmetric Authentication Key;4=Private Authentication Key;5=Public Authentication Key;\
    6=Symmetric Data Encryption Key;7=Symmetric Key Wrapping Key;\
    8=Symmetric Random Number Generation Key;9=Symmetric Master Key;A=Private Key Transport Key;\
    B=Public Key Transport Key;C=Symmetric Key Agreement Key;D=Private Static Key Agreement Key;\
    E=Public Static Key Agreement Key;F=Private Ephemeral Key Agreement Key;\
    10=Public Ephemeral Key Agreement Key;11=Symmetric Authorization Key;\
    12=Private Authorization Key;13=Public Authorization Key
420145 1=High;2=Low
42014A 1=Login
420151 1=Client;2=Server
420158 1=Increment;2=Decrement;3=Negate
";
