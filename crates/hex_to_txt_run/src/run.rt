//! The whole program, over any reader and any writers.

ghost use Rattle.std.specs.Prelude.{◌≡◌, ◌≤◌, map, string_bytes, None};
ghost use Rattle.std.specs.Io.KnownBytes.{Keeps};
ghost use Rattle.hex_to_txt_run.specs.Reasons.{reason_of, line_of};
ghost use Rattle.hex_to_txt_run.specs.Tasks.{task_of};
ghost use Rattle.hex_to_txt_run.specs.Runs.{streams, Responds, Printed, Failed, HasNoText};

use crate::failure::Failure;
use crate::input::read_all;
use crate::task::task_of;
use crate::texts::text_of;
use kmip_ttlv::types::stream::{Sink, Source};
use std::alloc::Allocator;

// Prints what the arguments ask for, or returns why it can't. Output is buffered: nothing is written
// until the whole text is made.
fn respond<A: Allocator + Copy, B: Allocator, I: Source, O: Sink>(
    alloc: A,
    words: &[String<B>],
    input: &mut I,
    output: &mut O,
) -> Result<(), Failure<A>>
    ensures { Responds reason_of (task_of (map string_bytes words.now))
        (streams I.can_fail (I.left input.old) (I.left input.new) (O.room output.old) (O.emitted output.old) (O.emitted output.new)) result }
{
    let Some(task) = task_of(words) else {
        return Err(Failure::UnknownWords);
    };
    let bytes = read_all(alloc, input)?;
    let text = text_of(alloc, task, bytes.as_slice())?;
    match output.send(text.as_bytes()) {
        Ok(()) => Ok(()),
        Err(_) => Err(Failure::UnwritableOutput),
    }
}

/// Runs the program: reads `input` to its end, prints the text that the arguments ask for to `output`,
/// and returns the exit status, 0 or 1. With status 1 it writes one error line to `errors`.
///
/// Interrupted reads and writes are retried, as often as a 64-bit counter allows. If `errors`
/// can't be written, the status is the same. Memory that is passed as the input can't fail, nor can
/// memory with room for the text as the output.
pub fn run<A: Allocator + Copy, B: Allocator, I: Source, O: Sink, E: Sink>(
    alloc: A,
    words: &[String<B>],
    input: &mut I,
    output: &mut O,
    errors: &mut E,
) -> u8
    ensures status { result ≤ 1 }
    // With status 0 the text of the whole input was appended to the output, and nothing else.
    ensures printed { result ≡ 0 → Printed (task_of (map string_bytes words.now))
        (streams I.can_fail (I.left input.old) (I.left input.new) (O.room output.old) (O.emitted output.old) (O.emitted output.new))
        × Keeps (E.emitted errors.old) (E.emitted errors.new) }
    // With status 1 there is a reason, which is true of the arguments and the input.
    ensures failed { result ≡ 1 → Failed (task_of (map string_bytes words.now))
        (streams I.can_fail (I.left input.old) (I.left input.new) (O.room output.old) (O.emitted output.old) (O.emitted output.new))
        (E.emitted errors.old) (E.room errors.old) (E.emitted errors.new) }
    // If the input has no text, nothing is written to the output.
    ensures nothing { HasNoText (task_of (map string_bytes words.now)) (I.left input.old)
        → (result ≡ 1) × Keeps (O.emitted output.old) (O.emitted output.new) }
{
    match respond(alloc, words, input, output) {
        Ok(()) => 0,
        Err(failure) => {
            let _ = errors.send(failure.line().as_bytes());
            1
        }
    }
}
