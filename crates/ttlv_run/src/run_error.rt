//! Why a run ends early, with status 2 or 3; or with status 1 for an input without a message.

ghost use Rattle.std.specs.Prelude.{◌≡◌};
ghost use Rattle.ttlv_run.specs.Reasons.{status_of, status_in, words_of};

use crate::misread::Misread;
use std::alloc::AllocError;

/// Why a run ends early, or reads an input that has no message.
#[derive(Clone, Copy, Debug, PartialEq, Eq)]
pub enum RunError {
    /// The input can't be opened.
    UnopenedInput,
    /// The input can't be read.
    UnreadableInput,
    /// The input, taken as an encoding, stands for no bytes.
    MisreadInput(Misread),
    /// The input is no UTF-8.
    NotUtf8,
    /// The input has no message, and the task wants one.
    NoMessage,
    /// The output can't be written.
    UnwritableOutput,
    /// No one reads the output any more.
    ClosedPipe,
    /// An allocation failed, so what was printed may end anywhere.
    NoMemory,
}

impl RunError {
    /// The status with which a run ends.
    pub fn status(self) -> u8
        ensures { result ≡ status_of self }
    {
        match self {
            RunError::UnopenedInput
            | RunError::UnreadableInput
            | RunError::MisreadInput(_)
            | RunError::NotUtf8 => 2,
            RunError::NoMessage => 1,
            RunError::UnwritableOutput | RunError::ClosedPipe | RunError::NoMemory => 3,
        }
    }

    /// What is wrong, in words.
    pub fn words(self) -> &'static str
        ensures { result.now ≡ words_of self }
    {
        match self {
            RunError::UnopenedInput => "it can't be opened",
            RunError::UnreadableInput => "it can't be read",
            RunError::MisreadInput(_) => "it stands for no bytes",
            RunError::NotUtf8 => "it is not UTF-8",
            RunError::NoMessage => "no message",
            RunError::UnwritableOutput => "the output can't be written",
            RunError::ClosedPipe => "",
            RunError::NoMemory => "out of memory",
        }
    }
}

/// The exit status of a run in which all is whole or not, or which ended early.
pub fn status_in(outcome: Result<bool, RunError>) -> u8
    ensures { result ≡ status_in outcome }
{
    match outcome {
        Ok(true) => 0,
        Ok(false) => 1,
        Err(why) => why.status(),
    }
}

impl From<AllocError> for RunError {
    ghost use Rattle.ttlv_run.specs.declared.run_error.RunError.TheVariants.{NoMemory};

    ghost from_gives = { λ _ r. r ≡ NoMemory };

    fn from(_error: AllocError) -> RunError {
        RunError::NoMemory
    }
}
