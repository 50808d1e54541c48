//! Why there is no diagnostic of bytes that have to be one whole message.

ghost use Rattle.std.specs.Prelude.{◌≡◌};
ghost use Rattle.kmip_ttlv_util.specs.declared.checked.CheckedError.TheVariants.{OutOfMemory};

use kmip_ttlv_items::Fault;
use std::alloc::AllocError;

/// Why there is no diagnostic.
#[derive(Clone, Copy, Debug, PartialEq, Eq)]
pub enum CheckedError {
    /// The bytes are not one whole message: the first fault, with its offset.
    Malformed(Fault),
    /// An allocation failed, while the bytes were checked or printed.
    OutOfMemory,
}

impl From<AllocError> for CheckedError {
    ghost from_gives = { λ _ e. e ≡ OutOfMemory };

    fn from(_: AllocError) -> CheckedError {
        CheckedError::OutOfMemory
    }
}
