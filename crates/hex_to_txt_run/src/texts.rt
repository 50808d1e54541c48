//! The texts that the program prints.

ghost use Rattle.std.specs.Prelude.{◌≡◌, ◌-◌, [], ◌∷◌, ◌++◌, length, slice_get, IfOk, string_bytes};
ghost use Rattle.kmip_ttlv.specs.Trees.{bytes};
ghost use Rattle.hex_to_txt_run.specs.Pair.{pair_tree, pair_text};
ghost use Rattle.hex_to_txt_run.specs.Reasons.{reason_of};
ghost use Rattle.hex_to_txt_run.specs.Tasks.{pair_task, readable_task, diagnostic_task, read_back_task, seen_task};
ghost use Rattle.hex_to_txt_run.specs.TaskTexts.{TaskReturns, ended, is_line_feed};

use crate::failure::{Failure, failure_of};
use crate::input::{decode, text_in};
use crate::pair::Pair;
use crate::task::Task;
use kmip_ttlv::error::ErrorKind;
use kmip_ttlv::{PrettyPrinter, from_slice, to_vec};
use std::alloc::{AllocError, Allocator};

// The encoding of a pair.
fn pair_bytes<A: Allocator + Copy>(alloc: A, pair: &Pair) -> Result<Vec<u8, A>, AllocError>
    ensures { IfOk result (λ v. v.items ≡ bytes (pair_tree pair.now.first pair.now.second)) }
{
    match to_vec(alloc, pair) {
        Ok(bytes) => Ok(bytes),
        Err(error) => match error.kind() {
            ErrorKind::OutOfMemory => Err(AllocError),
            _ => unreachable!(),
        },
    }
}

// A pair's numbers, then its bytes in hexadecimal, one per line.
fn pair_text<A: Allocator + Copy>(alloc: A, pair: &Pair) -> Result<String<A>, AllocError>
    ensures { IfOk result (λ s. string_bytes s ≡ pair_text pair.now.first pair.now.second) }
{
    let bytes = pair_bytes(alloc, pair)?;
    let digits = hex::encode_upper(alloc, bytes.as_slice())?;
    let first = pair.first;
    let second = pair.second;
    format!(in alloc; "0xBBBBBB {first}\n0xCCCCCC {second}\n{digits}\n")
}

// The text of the pair that the input's bytes begin with.
fn flat_text<A: Allocator + Copy>(alloc: A, input: &[u8]) -> Result<String<A>, Failure<A>>
    ensures { TaskReturns string_bytes reason_of pair_task input.now result }
{
    let bytes = decode(alloc, input)?;
    match from_slice::<Pair, A>(alloc, bytes.as_slice()) {
        Ok(pair) => Ok(pair_text(alloc, &pair)?),
        Err(error) => Err(failure_of(alloc, &error)),
    }
}

fn ends_line(text: &str) -> bool
    ensures { result ≡ is_line_feed (slice_get text.now (length text.now - 1)) }
{
    match text.as_bytes().last() {
        Some(last) => *last == 10,
        None => false,
    }
}

fn with_line_feed<A: Allocator>(text: String<A>) -> Result<String<A>, AllocError>
    ensures { IfOk result (λ s. string_bytes s ≡ string_bytes text ++ 10 ∷ []) }
{
    let mut text = text;
    text.push('\n')?;
    Ok(text)
}

// A text, and a line feed if it doesn't end with one.
fn ended<A: Allocator>(text: String<A>) -> Result<String<A>, AllocError>
    ensures { IfOk result (λ s. string_bytes s ≡ ended (string_bytes text)) }
{
    if ends_line(text.as_str()) {
        return Ok(text);
    }
    with_line_feed(text)
}

// The readable text of the input's bytes.
fn readable_text<A: Allocator + Copy>(alloc: A, input: &[u8]) -> Result<String<A>, Failure<A>>
    ensures { TaskReturns string_bytes reason_of readable_task input.now result }
{
    let bytes = decode(alloc, input)?;
    let printer = PrettyPrinter::new(alloc);
    let text = printer.to_string(bytes.as_slice())?;
    Ok(ended(text)?)
}

// The diagnostic of the input's bytes under a tag prefix, and a line feed.
fn diagnostic_text<A: Allocator + Copy>(
    alloc: A,
    closed: bool,
    prefix: &str,
    input: &[u8],
) -> Result<String<A>, Failure<A>>
    ensures { TaskReturns string_bytes reason_of (diagnostic_task closed prefix.now) input.now result }
{
    let bytes = decode(alloc, input)?;
    let mut printer = PrettyPrinter::new(alloc);
    printer.with_tag_prefix(String::from_str(alloc, prefix)?);
    printer.with_closed_empty(closed);
    let text = printer.to_diag_string(bytes.as_slice())?;
    Ok(with_line_feed(text)?)
}

// What the input, a diagnostic under a tag prefix, is read back as, and a line feed.
fn read_back_text<A: Allocator + Copy>(
    alloc: A,
    prefix: &str,
    input: &[u8],
) -> Result<String<A>, Failure<A>>
    ensures { TaskReturns string_bytes reason_of (read_back_task prefix.now) input.now result }
{
    let Some(diagnostic) = text_in(input) else {
        return Err(Failure::NotUtf8);
    };
    let mut printer = PrettyPrinter::new(alloc);
    printer.with_tag_prefix(String::from_str(alloc, prefix)?);
    let text = printer.from_diag_string(diagnostic)?;
    Ok(with_line_feed(text)?)
}

/// What a task prints for an input.
pub fn text_of<A: Allocator + Copy>(
    alloc: A,
    task: Task<'_>,
    input: &[u8],
) -> Result<String<A>, Failure<A>>
    ensures { TaskReturns string_bytes reason_of (seen_task task.entry) input.now result }
{
    match task {
        Task::Flat => flat_text(alloc, input),
        Task::Text => readable_text(alloc, input),
        Task::Diagnostic { closed, prefix } => diagnostic_text(alloc, closed, prefix, input),
        Task::ReadBack { prefix } => read_back_text(alloc, prefix, input),
    }
}
