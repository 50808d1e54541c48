//! Where the bytes of a value go, piece after piece, until one fails.

ghost use Rattle.std.specs.Prelude.{◌≡◌, ℕ, List, None as SpecNone};
ghost use Rattle.kmip_ttlv_ser.specs.Outputs.{Given, IsGiven};
ghost use Rattle.kmip_ttlv_types.specs.Held.{Held};

use kmip_ttlv_types::stream::Sink;
use std::io::Error;

/// Takes the bytes of a value. After a piece failed it takes no other, and keeps the error.
pub trait Output: Drop {
    // What it was before the first piece.
    ghost Start: { Type 0 };

    // Whether it got these bytes since then.
    ghost given: { Start → List ℕ → Self → Type 0 };

    /// Takes a piece, after those that it has.
    fn give(&mut self, piece: &[u8])
        ensures { Given given piece.now self.old self.new };
}

/// A sink that each piece is written to at once.
#[derive(Drop)]
pub struct Direct<S: Sink + Drop> {
    pub sink: S,
    pub failure: Option<Error>,
}

impl<S: Sink + Drop> Direct<S> {
    /// A sink that got nothing yet.
    pub fn new(sink: S) -> Direct<S>
        ensures sink { result.sink ≡ sink }
        ensures failure { result.failure ≡ SpecNone }
    {
        Direct {
            sink,
            failure: None,
        }
    }
}

impl<S: Sink + Drop> Output for Direct<S> {
    ghost Start = { Held };

    ghost given = { λ start sent d. IsGiven start sent (S.emitted d.sink) (S.room d.sink) d.failure };

    #[inline(always)]
    fn give(&mut self, piece: &[u8]) {
        if self.failure.is_some() {
            return;
        }
        if let Err(error) = self.sink.send(piece) {
            self.failure = Some(error);
        }
    }
}
