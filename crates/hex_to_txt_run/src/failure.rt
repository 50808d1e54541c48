//! Why the program ends with status 1.

ghost use Rattle.std.specs.Prelude.{◌≡◌, IfOk, string_bytes};
ghost use Rattle.hex_to_txt_run.specs.Reasons.{line_of, reason_of};
ghost use Rattle.hex_to_txt_run.specs.TaskTexts.{IsErrorLine, IsReasonOf};

use kmip_ttlv::error::{Error, ErrorKind};
use std::alloc::{AllocError, Allocator};

/// Why the program ends with status 1, in the order of the checks; out of memory can come in place
/// of any other.
#[derive(Drop)]
pub enum Failure<A: Allocator> {
    UnknownWords,
    UnreadableInput,
    NotHexadecimal,
    NotUtf8,
    /// The input's bytes are no pair: the error line.
    NotAPair(String<A>),
    UnwritableOutput,
    OutOfMemory,
}

impl<A: Allocator> Failure<A> {
    /// The line for standard error.
    pub fn line(&self) -> &str
        ensures { result.now ≡ line_of (reason_of self.now) }
    {
        match self {
            Failure::UnknownWords => "usage: hex_to_txt flat|text|diag|closed|undiag [prefix]\n",
            Failure::UnreadableInput => "cannot read\n",
            Failure::NotHexadecimal => "not hexadecimal\n",
            Failure::NotUtf8 => "not UTF-8\n",
            Failure::NotAPair(line) => line.as_str(),
            Failure::UnwritableOutput => "cannot write\n",
            Failure::OutOfMemory => "out of memory\n",
        }
    }
}

impl<A: Allocator> From<AllocError> for Failure<A> {
    ghost use Rattle.hex_to_txt_run.specs.declared.failure.Failure.TheVariants.{OutOfMemory};

    ghost from_gives = { λ _ r. r ≡ OutOfMemory };

    fn from(_error: AllocError) -> Failure<A> {
        Failure::OutOfMemory
    }
}

// The error line if bytes are no pair.
fn error_line<A: Allocator + Copy>(alloc: A, error: &Error<A>) -> Result<String<A>, AllocError>
    ensures { IfOk result (λ line. IsErrorLine (string_bytes line)) }
{
    let words = format!(in alloc; "{error}")?;
    let mut line = String::from_str(alloc, "refused: ")?;
    line.push_str(words.as_str())?;
    line.push_str("\n")?;
    Ok(line)
}

/// Why bytes are no pair: the decoder's error, or out of memory.
pub fn failure_of<A: Allocator + Copy>(alloc: A, error: &Error<A>) -> Failure<A>
    ensures { IsReasonOf error.now (reason_of result) }
{
    if let ErrorKind::OutOfMemory = error.kind() {
        return Failure::OutOfMemory;
    }
    match error_line(alloc, error) {
        Ok(line) => Failure::NotAPair(line),
        Err(AllocError) => Failure::OutOfMemory,
    }
}
