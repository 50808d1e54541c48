//! Numbers in bytes: a byte behind the end counts as 0.

ghost use Rattle.std.specs.Prelude.{◌≡◌, ◌<◌, ◌≤◌, ◌^◌, slice_index, drop, take, length};
ghost use Rattle.ttlv_packets.specs.Numbers.{be16, be32, be64, number16, number32, part};

/// The byte at a place.
pub fn byte_at(bytes: &[u8], at: usize) -> usize
    ensures is { result ≡ slice_index bytes.now at }
    ensures small { result < 256 }
{
    if at < bytes.len() {
        return bytes[at] as usize;
    }
    0
}

/// Two bytes, the greater first.
pub fn be16(bytes: &[u8], at: usize) -> usize
    requires { at < 1024 }
    ensures is { result ≡ be16 bytes.now at }
    ensures small { result < 65536 }
{
    256 * byte_at(bytes, at) + byte_at(bytes, at + 1)
}

/// Four bytes, the greatest first.
pub fn be32(bytes: &[u8], at: usize) -> usize
    requires { at < 1000 }
    ensures is { result ≡ be32 bytes.now at }
    ensures small { result < 2 ^ 32 }
{
    65536 * be16(bytes, at) + be16(bytes, at + 2)
}

/// Eight bytes, the greatest first.
pub fn be64(bytes: &[u8], at: usize) -> u64
    requires { at < 900 }
    ensures is { result ≡ be64 bytes.now at }
{
    4_294_967_296 * be32(bytes, at) as u64 + be32(bytes, at + 4) as u64
}

/// Two bytes in the order of a capture.
pub fn number16(big: bool, bytes: &[u8], at: usize) -> usize
    requires { at < 1024 }
    ensures is { result ≡ number16 big bytes.now at }
    ensures small { result < 65536 }
{
    if big {
        return be16(bytes, at);
    }
    byte_at(bytes, at) + 256 * byte_at(bytes, at + 1)
}

/// Four bytes in the order of a capture.
pub fn number32(big: bool, bytes: &[u8], at: usize) -> usize
    requires { at < 1000 }
    ensures is { result ≡ number32 big bytes.now at }
    ensures small { result < 2 ^ 32 }
{
    if big {
        return be32(bytes, at);
    }
    number16(false, bytes, at) + 65536 * number16(false, bytes, at + 2)
}

/// What stands behind so many bytes.
pub fn behind(bytes: &[u8], count: usize) -> &[u8]
    ensures is { result.now ≡ drop count bytes.now }
    ensures fewer { length result.now ≤ length bytes.now }
{
    &bytes[count.min(bytes.len())..]
}

/// So many bytes from a place on, as far as they are there.
pub fn part(bytes: &[u8], start: usize, count: usize) -> &[u8]
    ensures is { result.now ≡ part bytes.now start count }
{
    let rest = behind(bytes, start);
    &rest[..count.min(rest.len())]
}
