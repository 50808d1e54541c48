//! Texts that are written into the caller's buffer.

ghost use Rattle.std.specs.Prelude.{◌≡◌};
ghost use Rattle.kmip_ttlv_c.specs.Buffers.{Offers};

use crate::status::{NO_ROOM, OK};

/// Writes a text to the front of a buffer if there is room for it, and sets how long the text is.
pub fn offer(text: &[u8], out: &mut [u8], length: &mut usize) -> u32
    ensures { Offers text.now result length.new out.old out.new }
{
    *length = text.len();
    if text.len() > out.len() {
        return NO_ROOM;
    }
    out[..text.len()].copy_from_slice(text);
    OK
}
