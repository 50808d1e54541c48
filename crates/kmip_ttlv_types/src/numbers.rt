//! Numbers from the bytes that encode them, the highest byte first.

ghost use Rattle.std.specs.Prelude.{◌≡◌, ◌<◌, ◌^◌, length};
ghost use Rattle.std.specs.Int.{w32, w64, to_be_bytes, from_be_bytes, bytes_high_first, cast_unsigned};
ghost use Rattle.kmip_ttlv_types.specs.Primitives.{sign_byte};

// The number of three bytes.
pub(crate) fn triple_of(bytes: &[u8; 3]) -> u32
    ensures value { bytes_high_first 3 result ≡ bytes.now }
    ensures small { result < 2 ^ 24 }
{
    let [a, b, c] = *bytes;
    u32::from_be_bytes([0, a, b, c])
}

// The number of four bytes.
pub(crate) fn word_of(bytes: &[u8; 4]) -> u32
    ensures { to_be_bytes w32 result ≡ bytes.now }
{
    u32::from_be_bytes(*bytes)
}

// The signed number of four bytes.
pub(crate) fn signed_word_of(bytes: &[u8; 4]) -> i32
    ensures { to_be_bytes w32 (cast_unsigned w32 result) ≡ bytes.now }
{
    word_of(bytes).cast_signed()
}

// The number of eight bytes.
pub(crate) fn long_of(bytes: &[u8; 8]) -> u64
    ensures { to_be_bytes w64 result ≡ bytes.now }
{
    u64::from_be_bytes(*bytes)
}

// The signed number of eight bytes.
pub(crate) fn signed_long_of(bytes: &[u8; 8]) -> i64
    ensures { to_be_bytes w64 (cast_unsigned w64 result) ≡ bytes.now }
{
    long_of(bytes).cast_signed()
}

/// The number that four bytes encode, the highest first.
///
/// ```
/// assert_eq!(rt; number_of_four(b"\x00\x00\x00\xFF"), 255);
/// ```
pub fn number_of_four(bytes: &[u8]) -> u32
    requires { length bytes.now ≡ 4 }
    ensures { result ≡ from_be_bytes w32 bytes.now }
{
    u32::from_be_bytes([bytes[0], bytes[1], bytes[2], bytes[3]])
}

/// The number that eight bytes encode, the highest first.
///
/// ```
/// assert_eq!(rt; number_of_eight(b"\x01\xB6\x9B\x4B\xA5\x74\x92\x00"), 123_456_789_000_000_000);
/// ```
pub fn number_of_eight(bytes: &[u8]) -> u64
    requires { length bytes.now ≡ 8 }
    ensures { result ≡ from_be_bytes w64 bytes.now }
{
    u64::from_be_bytes([
        bytes[0], bytes[1], bytes[2], bytes[3], bytes[4], bytes[5], bytes[6], bytes[7],
    ])
}

/// The byte that extends the sign of a number in two's complement (KMIP 1.0, section 9.1.1.4).
///
/// ```
/// assert_eq!(rt; sign_of(b"\x80"), 0xFF);
/// assert_eq!(rt; sign_of(b"\x7F\x00\x00\x00\x00\x00\x01"), 0);
/// ```
pub fn sign_of(bytes: &[u8]) -> u8
    ensures { result ≡ sign_byte bytes.now }
{
    match bytes.first() {
        Some(first) if *first >= 0x80 => 0xFF,
        _ => 0,
    }
}
