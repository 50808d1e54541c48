//! Why an item, or a whole message, is refused.

ghost use Rattle.std.specs.Prelude.{◌≡◌};
ghost use Rattle.kmip_server.specs.Refusals.{reason_of, message_of, IsOfMemory};

use kmip_messages::response::{ResultReason, result_reason};
use std::alloc::{AllocError, AllocFailed};

/// Why an item is refused: one of the standard's reasons (KMIP 1.0, sections 9.1.3.2.28 and 11), and a message for a person. It is made
/// without memory, and its message can hold nothing of a request.
#[derive(Clone, Copy)]
pub struct Refusal {
    /// The reason, for the client's program.
    pub reason: ResultReason,
    /// More about it, for a person.
    pub message: &'static str,
}

impl Refusal {
    /// A refusal with this reason and message.
    pub fn new(reason: ResultReason, message: &'static str) -> Refusal
        ensures reason { reason_of result ≡ reason.number }
        ensures message { message_of result ≡ message.now }
    {
        Refusal { reason, message }
    }
}

/// A General Failure: memory ran out.
impl From<AllocError> for Refusal {
    ghost from_gives = { λ _ r. IsOfMemory r };

    fn from(_error: AllocError) -> Refusal {
        Refusal {
            reason: result_reason::GENERAL_FAILURE,
            message: "out of memory",
        }
    }
}

/// A General Failure: memory ran out.
impl<T: Drop> From<AllocFailed<T>> for Refusal {
    ghost from_gives = { λ _ r. IsOfMemory r };

    fn from(_error: AllocFailed<T>) -> Refusal {
        Refusal {
            reason: result_reason::GENERAL_FAILURE,
            message: "out of memory",
        }
    }
}
