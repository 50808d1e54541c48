//! The settings of `from_reader`: a limit, and a buffer that is kept from message to message; and where it left the reader.

ghost use Rattle.std.specs.Prelude.{◌≡◌, Some, None, true, [], option_map, is_some};
ghost use Rattle.kmip_ttlv_de.specs.Settings.{settings_of, is_between};

use std::alloc::{Allocator, Global};
use std::fmt;

/// How messages are read from a stream: up to which size, and whether their bytes are kept.
///
/// ```
/// let config = Config::new(alloc).with_max_bytes(65_536).with_read_buf();
/// ```
#[derive(Drop)]
pub struct Config<A: Allocator = Global> {
    pub(crate) limit: Option<u32>,
    pub(crate) buffer: Buffer<A>,
    pub(crate) between: bool,
}

// The bytes of the last message; or only the allocator, if they aren't kept.
#[derive(Drop)]
pub(crate) enum Buffer<A: Allocator> {
    Reused(Vec<u8, A>),
    Fresh(A),
}

impl<A: Allocator> Config<A> {
    /// No limit and no buffer. Doesn't allocate.
    pub fn new(alloc: A) -> Config<A>
        ensures settings { settings_of result ≡ record { limit = None; reused = None } }
        ensures between { is_between result ≡ true }
    {
        Config {
            limit: None,
            buffer: Buffer::Fresh(alloc),
            between: true,
        }
    }

    /// The limit, if there is one: the size in bytes, header included, of the largest message that is read.
    pub fn max_bytes(&self) -> Option<u32>
        ensures { result ≡ (settings_of self.now).limit }
    {
        self.limit
    }

    /// Whether there is a buffer.
    pub fn has_buf(&self) -> bool
        ensures { result ≡ is_some (settings_of self.now).reused }
    {
        matches!(self.buffer, Buffer::Reused(_))
    }

    /// The buffer, if there is one: the bytes of the last message.
    pub fn read_buf(&self) -> Option<&Vec<u8, A>>
        ensures { option_map (λ b. b.now.items) result ≡ (settings_of self.now).reused }
    {
        match &self.buffer {
            Buffer::Reused(bytes) => Some(bytes),
            Buffer::Fresh(_) => None,
        }
    }

    /// Whether the reader stands between two messages: nothing was read with these settings yet, or the last call of `from_reader`
    /// took all bytes of one message, a Structure, whatever it returned. The next byte is then the next message's first. Otherwise the
    /// stream ended or failed, or only a header was taken, or an item that is no Structure, and what comes next is no message's
    /// beginning: to read on would take the inside of a message for a message.
    pub fn is_between_messages(&self) -> bool
        ensures { result ≡ is_between self.now }
    {
        self.between
    }

    /// The same with this limit in bytes: a larger message is an error before its body is read.
    pub fn with_max_bytes(self, max_bytes: u32) -> Config<A>
        ensures settings { settings_of result ≡ record { limit = Some max_bytes; reused = (settings_of self).reused } }
        ensures between { is_between result ≡ is_between self }
    {
        Config {
            limit: Some(max_bytes),
            buffer: self.buffer,
            between: self.between,
        }
    }

    /// The same with an empty buffer, which is kept from message to message. Doesn't allocate.
    pub fn with_read_buf(self) -> Config<A>
        ensures settings { settings_of result ≡ record { limit = (settings_of self).limit; reused = Some [] } }
        ensures between { is_between result ≡ is_between self }
    {
        Config {
            limit: self.limit,
            buffer: Buffer::Reused(emptied(self.buffer)),
            between: self.between,
        }
    }
}

impl<A: Allocator + Copy> Config<A> {
    /// The same limit, and an empty buffer if there is one, with nothing read yet. Doesn't allocate.
    pub fn clone(&self) -> Config<A>
        ensures settings { settings_of result
            ≡ record { limit = (settings_of self.now).limit; reused = option_map (λ _. []) (settings_of self.now).reused } }
        ensures between { is_between result ≡ true }
    {
        Config {
            limit: self.limit,
            buffer: match &self.buffer {
                Buffer::Reused(bytes) => Buffer::Reused(Vec::new(*bytes.allocator())),
                Buffer::Fresh(alloc) => Buffer::Fresh(*alloc),
            },
            between: true,
        }
    }
}

// The buffer without its bytes, or a new one. Doesn't allocate.
fn emptied<A: Allocator>(buffer: Buffer<A>) -> Vec<u8, A>
    ensures { result.items ≡ [] }
{
    match buffer {
        Buffer::Reused(mut bytes) => {
            bytes.clear();
            bytes
        }
        Buffer::Fresh(alloc) => Vec::new(alloc),
    }
}

/// The limit, and whether there is a buffer, without any bytes of messages.
impl<A: Allocator> fmt::Debug for Config<A> {
    fn fmt<W: fmt::Write>(&self, f: &mut fmt::Formatter<W>) -> fmt::Result {
        let limit = self.limit;
        let keeps = self.has_buf();
        write!(f, "Config {{ max_bytes: {limit:?}, has_buf: {keeps} }}")
    }
}
