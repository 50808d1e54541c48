//! Lent room of a fixed size, whose front is written.

ghost use Rattle.std.specs.Prelude.{◌≡◌, ◌+◌, ◌-◌, ◌<◌, ◌≤◌, [], ◌++◌, length, take, drop, replicate, OnOk};

use std::alloc::AllocError;

/// Lent bytes, and how many of them are written.
#[derive(Drop)]
pub struct Room<'a> {
    bytes: &'a mut [u8],
    len: usize,
    ghost fits: { len ≤ length bytes.now },
}

impl<'a> Room<'a> {
    ghost use Rattle.kmip_ttlv_ser.specs.Waiting.{filled};

    /// Room of which nothing is written.
    #[inline(always)]
    pub fn new(bytes: &'a mut [u8]) -> Room<'a>
        ensures empty { filled result ≡ [] }
    {
        Room { bytes, len: 0 }
    }

    /// The bytes that are written.
    #[inline(always)]
    pub fn bytes(&self) -> &[u8]
        ensures { result.now ≡ filled self.now }
    {
        &self.bytes[..self.len]
    }

    /// How many bytes are written.
    #[inline(always)]
    pub fn len(&self) -> usize
        ensures value { result ≡ length (filled self.now) }
        ensures len { result ≡ self.now.len }
    {
        self.len
    }

    /// Fails if there is no room for so many bytes more.
    #[inline(always)]
    pub fn has_room(&self, count: usize) -> Result<(), AllocError>
        ensures { OnOk result (self.now.len + count ≤ length self.now.bytes.now) }
    {
        if count > self.bytes.len() - self.len {
            return Err(AllocError);
        }
        Ok(())
    }

    /// Writes a piece, for which there is room.
    #[inline(always)]
    pub fn push(&mut self, piece: &[u8])
        requires { self.old.len + length piece.now ≤ length self.old.bytes.now }
        ensures size { length self.new.bytes.now ≡ length self.old.bytes.now }
        ensures len { self.new.len ≡ self.old.len + length piece.now }
        ensures written { filled self.new ≡ filled self.old ++ piece.now }
    {
        let end = self.len + piece.len();
        self.bytes[self.len..end].copy_from_slice(piece);
        self.len = end;
    }

    /// Writes fewer than eight bytes, all of this value. There has to be room for eight.
    #[inline(always)]
    pub fn fill(&mut self, byte: u8, count: usize)
        requires few { count < 8 }
        requires room { self.old.len + 8 ≤ length self.old.bytes.now }
        ensures size { length self.new.bytes.now ≡ length self.old.bytes.now }
        ensures len { self.new.len ≡ self.old.len + count }
        ensures written { filled self.new ≡ filled self.old ++ replicate count byte }
    {
        self.push(&[byte; 8]);
        self.len -= 8 - count;
    }

    /// Writes four bytes over those that end here, and returns what they were.
    #[inline(always)]
    pub fn replace(&mut self, end: usize, word: [u8; 4]) -> [u8; 4]
        requires { (4 ≤ end) × (end ≤ self.old.len) }
        ensures len { self.new.len ≡ self.old.len }
        ensures before { result ≡ take 4 (drop (end - 4) (filled self.old)) }
        ensures written { filled self.new ≡ take (end - 4) (filled self.old) ++ word ++ drop end (filled self.old) }
    {
        let place = &mut self.bytes[end - 4..end];
        let before = [place[0], place[1], place[2], place[3]];
        place.copy_from_slice(&word);
        before
    }
}
