//! A buffer of a fixed size, whose bytes are not sent yet.

ghost use Rattle.std.specs.Prelude.{◌≡◌, ◌+◌, ◌≤◌, [], ◌++◌, length};

/// The most bytes that it can hold.
pub const ROOM: usize = 8_192;

/// The buffered bytes, followed by free room.
#[derive(Drop)]
pub struct Buffer {
    bytes: [u8; 8_192],
    len: usize,
    ghost fits: { len ≤ 8192 },
}

impl Buffer {
    ghost use Rattle.kmip_ttlv_util.specs.Waiting.{waiting};

    /// A buffer in which nothing waits. Doesn't allocate.
    pub fn new() -> Buffer
        ensures { waiting result ≡ [] }
    {
        Buffer {
            bytes: [0; 8_192],
            len: 0,
        }
    }

    /// The bytes that wait to be sent, in the order in which they came.
    pub fn bytes(&self) -> &[u8]
        ensures { result.now ≡ waiting self.now }
    {
        &self.bytes[..self.len]
    }

    /// How many more bytes there is room for.
    pub fn room(&self) -> usize
        ensures { result + length (waiting self.now) ≡ 8192 }
    {
        ROOM - self.len
    }

    /// Adds a piece behind the bytes that wait. There has to be room for it.
    pub fn push(&mut self, piece: &[u8])
        requires { length (waiting self.old) + length piece.now ≤ 8192 }
        ensures { waiting self.new ≡ waiting self.old ++ piece.now }
    {
        let end = self.len + piece.len();
        self.bytes[self.len..end].copy_from_slice(piece);
        self.len = end;
    }

    /// Forgets the bytes that waited, as after they were sent.
    pub fn clear(&mut self)
        ensures { waiting self.new ≡ [] }
    {
        self.len = 0;
    }
}
