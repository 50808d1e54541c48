//! Decoding one message from a stream, by the form of its type.
//!
//! `from_reader` is the call, `Config` its settings. specs/StreamMessages defines which bytes it reads, which are
//! those of one message, and what it returns for them, which is the result of `from_slice`.

ghost use Rattle.std.specs.Prelude.{◌≡◌, ℕ, List, Some, false, IfErr, IfOk};
ghost use Rattle.kmip_ttlv_de.specs.Settings.{settings_of, is_between, KeepsSettings};
ghost use Rattle.kmip_ttlv_de.specs.StreamMessages.{SliceResult, Ends, IsBySize, Exactly, Leaves};

mod config;
mod take;

use crate::deserialize::Decode;
use crate::from_slice;
use crate::stream::config::Buffer;
pub use crate::stream::config::Config;
use crate::stream::take::{is_structure, take_message};
use kmip_ttlv_base::error::Result;
use kmip_ttlv_types::stream::Source;
use std::alloc::Allocator;

/// Decodes one message from a stream: a Structure, by the form of `T` (KMIP 1.0, section 9.1).
///
/// It reads the eight bytes of the header, checks its type and then its size against the limit, and reads as
/// many bytes as the header states, never more. The result is that of `from_slice` on these bytes, or one
/// of these errors:
///
/// - `InvalidType`, with the header's code, at offset 3 and with the header's tag: the code is no type's,
///   whatever `T` and the limit are. Only the header was read.
/// - `ResponseSizeExceedsLimit`, with the message's size, at offset 8 and with the header's tag and type: the
///   message is larger than the limit. Only the header was read.
/// - `IoError` of kind UnexpectedEof, without a place: the stream ends within the message.
/// - `IoError` of the reader's kind, without a place: reading failed. Interrupted reads are repeated.
///
/// Memory for 512 bytes is taken first, and grows as more bytes come. A kept buffer then holds the bytes that
/// were read; if too few came, or memory ran out, it may hold any. `Config::is_between_messages` then says whether the
/// next byte of the reader is the next message's first.
///
/// ```
/// let mut config = Config::new(alloc).with_max_bytes(65_536).with_read_buf();
/// let message: Request = from_reader(alloc, &mut reader, &mut config)?;
/// ```
pub fn from_reader<T: Decode<A>, S: Source, A: Allocator + Copy>(
    alloc: A,
    reader: &mut S,
    config: &mut Config<A>,
) -> Result<T, A>
    // Which bytes are read from the stream, and what is returned.
    ensures ends { Ends (SliceResult T.form T.is_value) S.can_fail (settings_of config.old).limit
        (S.left reader.old) (S.left reader.new) (settings_of config.new).reused result }
    // An error by size is only returned for a message that is larger than the limit.
    ensures limit { IfErr result (IsBySize (settings_of config.old).limit (S.left reader.old) (S.left reader.new)) }
    // The same by cases, if the stream's bytes are known and reading them can't fail.
    ensures exact { S.can_fail ≡ false → (bytes : List ℕ) → S.left reader.old ≡ Some bytes
        → Exactly (SliceResult T.form T.is_value) (settings_of config.old).limit bytes
        (S.left reader.new) (settings_of config.new).reused result }
    // The limit stays, and afterwards there is a buffer if and only if there was one.
    ensures config { KeepsSettings (settings_of config.old) (settings_of config.new) }
    // Whether the reader is left between two messages.
    ensures between { Leaves S.can_fail (settings_of config.old).limit (S.left reader.old) (S.left reader.new)
        (settings_of config.new).reused (is_between config.new) result }
{
    match &mut config.buffer {
        Buffer::Reused(bytes) => {
            read_message(alloc, reader, config.limit, bytes, &mut config.between)
        }
        Buffer::Fresh(_) => {
            let mut bytes = Vec::new(alloc);
            read_message(alloc, reader, config.limit, &mut bytes, &mut config.between)
        }
    }
}

// Reads a message into the buffer, in place of what that held, and decodes it. Notes whether the reader is left between two messages.
fn read_message<T: Decode<A>, S: Source, A: Allocator + Copy>(
    alloc: A,
    reader: &mut S,
    limit: Option<u32>,
    bytes: &mut Vec<u8, A>,
    between: &mut bool,
) -> Result<T, A>
    ensures ends { Ends (SliceResult T.form T.is_value) S.can_fail limit (S.left reader.old) (S.left reader.new)
        (Some bytes.new.items) result }
    ensures between { Leaves S.can_fail limit (S.left reader.old) (S.left reader.new) (Some bytes.new.items) between.new result }
{
    *between = false;
    take_message(reader, limit, bytes)?;
    *between = is_structure(bytes.as_slice());
    from_slice(alloc, bytes.as_slice())
}
