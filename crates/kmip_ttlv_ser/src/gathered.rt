//! A sink after a buffer, which gathers small pieces. Long ones go to the sink directly.

ghost use Rattle.std.specs.Prelude.{◌≡◌, ℕ, List, [], None as SpecNone};
ghost use Rattle.kmip_ttlv_types.specs.Held.{held};
ghost use Rattle.kmip_ttlv_ser.specs.Waiting.{waiting};
ghost use Rattle.kmip_ttlv_ser.specs.Outputs.{Given};
ghost use Rattle.kmip_ttlv_ser.specs.Gathers.{Lent, IsGathered, Sends};

use crate::buffer::{Buffer, ROOM};
use crate::output::Output;
use kmip_ttlv_types::stream::Sink;
use std::io::Error;

/// A sink after a buffer. After a write failed, no other is made.
#[derive(Drop)]
pub struct Gathered<'w, S: Sink> {
    sink: &'w mut S,
    buffer: &'w mut Buffer,
    pub failure: Option<Error>,
}

/// Writes all of these bytes, unless a write failed before.
fn send<S: Sink>(sink: &mut S, failure: &mut Option<Error>, bytes: &[u8])
    ensures { Sends (held S.emitted S.room sink.old)
        (held S.emitted S.room sink.new) failure.old failure.new bytes.now }
{
    if failure.is_some() {
        return;
    }
    if let Err(error) = sink.send(bytes) {
        *failure = Some(error);
    }
}

impl<'w, S: Sink> Gathered<'w, S> {
    /// A sink after an empty buffer. The buffer is lent so that it isn't moved.
    pub fn new(sink: &'w mut S, buffer: &'w mut Buffer) -> Gathered<'w, S>
        ensures same_reference { result.sink.ghost_name ≡ sink.entry.ghost_name }
        ensures sink { result.sink.now ≡ sink.old }
        ensures empty { waiting result.buffer.now ≡ [] }
        ensures failure { result.failure ≡ SpecNone }
    {
        buffer.clear();
        Gathered {
            sink,
            buffer,
            failure: None,
        }
    }

    /// Writes what is buffered.
    pub fn flush(&mut self)
        ensures same_reference { self.new.sink.ghost_name ≡ self.old.sink.ghost_name }
        ensures sent { Sends (held S.emitted S.room self.old.sink.now)
            (held S.emitted S.room self.new.sink.now)
            self.old.failure self.new.failure (waiting self.old.buffer.now) }
        ensures empty { waiting self.new.buffer.now ≡ [] }
    {
        send(self.sink, &mut self.failure, self.buffer.bytes());
        self.buffer.clear();
    }
}

impl<S: Sink> Output for Gathered<'_, S> {
    ghost Start = { Lent };

    ghost given = { λ start sent g. IsGathered start sent g.sink.ghost_name
        (held S.emitted S.room g.sink.now) (waiting g.buffer.now) g.failure };

    fn give(&mut self, piece: &[u8]) {
        if piece.len() <= self.buffer.room() {
            return self.buffer.push(piece);
        }
        self.flush();
        if piece.len() <= ROOM {
            return self.buffer.push(piece);
        }
        send(self.sink, &mut self.failure, piece);
    }
}
