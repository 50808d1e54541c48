//! A sink that gets a text in pieces, so that the whole text is never in memory.

ghost use Rattle.std.specs.Prelude.{◌≡◌, [], false, OnOk, OnErr};
ghost use Rattle.kmip_ttlv_util.specs.Pieces.{Moves, Stops, MovesFront, Closes, buffered};
ghost use Rattle.kmip_ttlv_util.specs.Waiting.{waiting};
ghost use Rattle.kmip_ttlv_util.specs.Sinks.{moves_none, moves_both, front_first, front_second, front_after};

use crate::buffer::{Buffer, ROOM};
use crate::sink::TextSink;
use kmip_ttlv_types::stream::Sink;
use std::io;
use std::io::{Error, ErrorKind};

/// A buffer before a writer: it collects up to 8,192 bytes of small pieces, and passes longer pieces on as they are.
///
/// [`Pieces::finish`] sends what is buffered. After an error the buffer is empty: what was not sent is lost.
///
/// ```
/// let mut written = Vec::new(alloc);
/// let mut pieces = Pieces::new(&mut written);
/// push_diag(alloc, &mut pieces, "", true, b"")?;
/// pieces.finish()?;
/// assert!(rt; written.as_slice() == "ERR".as_bytes());
/// ```
#[derive(Drop)]
pub struct Pieces<'w, S: Sink> {
    sink: &'w mut S,
    buffer: Buffer,
    failed: bool,
}

impl<'w, S: Sink> Pieces<'w, S> {
    /// Wraps a writer, or memory. Nothing is buffered yet.
    pub fn new(sink: &'w mut S) -> Pieces<'w, S>
        ensures same_reference { result.sink.ghost_name ≡ sink.entry.ghost_name }
        ensures sink { result.sink.now ≡ sink.old }
        ensures empty { waiting result.buffer ≡ [] }
        ensures going { result.failed ≡ false }
    {
        Pieces {
            sink,
            buffer: Buffer::new(),
            failed: false,
        }
    }

    /// Sends what is buffered. The writer is not flushed.
    ///
    /// It returns the writer's error, or `WriteZero` if the writer takes no byte; a beginning of what was
    /// buffered may have been written then. Interrupted writes are retried, as often as a 64-bit counter allows.
    pub fn finish(&mut self) -> io::Result<()>
        ensures ok { OnOk result (Moves (buffered S.emitted S.room self.old) [] (buffered S.emitted S.room self.new)) }
        ensures err { OnErr result (Stops (buffered S.emitted S.room self.old) [] (buffered S.emitted S.room self.new)) }
        ensures empty { waiting self.new.buffer ≡ [] }
    {
        let result = self.sink.send(self.buffer.bytes());
        self.buffer.clear();
        self.failed |= result.is_err();
        result
    }

    /// Appends a piece. It takes no memory.
    ///
    /// Its errors are those of [`Pieces::finish`]; a beginning of the piece may have been written too.
    ///
    /// ```
    /// let mut written = Vec::new(alloc);
    /// let mut pieces = Pieces::new(&mut written);
    /// pieces.push(b"ERR")?;
    /// pieces.finish()?;
    /// assert!(rt; written.as_slice() == b"ERR".as_slice());
    /// ```
    #[inline(always)]
    pub fn push(&mut self, piece: &[u8]) -> io::Result<()>
        ensures ok { OnOk result (Moves (buffered S.emitted S.room self.old) piece.now (buffered S.emitted S.room self.new)) }
        ensures err { OnErr result (Stops (buffered S.emitted S.room self.old) piece.now (buffered S.emitted S.room self.new)) }
    {
        if piece.len() <= self.buffer.room() {
            self.buffer.push(piece);
            return Ok(());
        }
        self.push_far(piece)
    }

    /// Sends what is buffered at the end of what is printed, if that didn't fail, and returns what came of both.
    ///
    /// The error is that of [`Pieces::finish`]; if printing failed, its own where a write had failed, which is the writer's, and
    /// `OutOfMemory` where none had.
    pub fn close<T: Drop>(&mut self, printed: io::Result<T>) -> io::Result<T>
        ensures { Closes printed (buffered S.emitted S.room self.old) (buffered S.emitted S.room self.new) result }
    {
        match printed {
            Ok(value) => {
                self.finish()?;
                Ok(value)
            }
            Err(error) => {
                if self.failed {
                    return Err(error);
                }
                Err(Error::from(ErrorKind::OutOfMemory))
            }
        }
    }

    // Sends a piece that there is no room for in the buffer, which is empty.
    fn send_piece(&mut self, piece: &[u8]) -> io::Result<()>
        requires empty { waiting self.old.buffer ≡ [] }
        ensures ok { OnOk result (Moves (buffered S.emitted S.room self.old) piece.now (buffered S.emitted S.room self.new)) }
        ensures err { OnErr result (Stops (buffered S.emitted S.room self.old) piece.now (buffered S.emitted S.room self.new)) }
    {
        let result = self.sink.send(piece);
        self.failed |= result.is_err();
        result
    }

    // Sends what is buffered, then takes a piece that there was no room for.
    #[cold]
    fn push_far(&mut self, piece: &[u8]) -> io::Result<()>
        ensures ok { OnOk result (Moves (buffered S.emitted S.room self.old) piece.now (buffered S.emitted S.room self.new)) }
        ensures err { OnErr result (Stops (buffered S.emitted S.room self.old) piece.now (buffered S.emitted S.room self.new)) }
    {
        self.finish()?;
        if piece.len() <= ROOM {
            self.buffer.push(piece);
            return Ok(());
        }
        self.send_piece(piece)
    }
}

impl<S: Sink> TextSink for Pieces<'_, S> {
    type Error = Error;

    ghost adds = { λ a text b. Moves (buffered S.emitted S.room a) text (buffered S.emitted S.room b) };

    ghost breaks = { λ a text b. MovesFront (buffered S.emitted S.room a) text (buffered S.emitted S.room b) };

    ghost adds_none = { λ a. moves_none (buffered S.emitted S.room a) };

    ghost adds_both = { λ a b c s t. moves_both (buffered S.emitted S.room a) (buffered S.emitted S.room b)
        (buffered S.emitted S.room c) s t };

    ghost breaks_first = { λ a b s t. front_first (buffered S.emitted S.room a) (buffered S.emitted S.room b) s t };

    ghost breaks_second = { λ a b c s t. front_second (buffered S.emitted S.room a) (buffered S.emitted S.room b)
        (buffered S.emitted S.room c) s t };

    ghost breaks_after = { λ a b s. front_after (buffered S.emitted S.room a) (buffered S.emitted S.room b) s };

    #[inline(always)]
    fn push_str(&mut self, text: &str) -> io::Result<()> {
        self.push(text.as_bytes())
    }
}
