//! The messages of two inputs, compared: the first with the first, and so on. What is printed of each input, lines of hexadecimal digits, is
//! gathered in memory; then the readable lines of each pair of messages are compared, without the values that differ in each run.

ghost use Rattle.std.specs.Prelude.{◌≡◌, ◌&&◌, ◌||◌, ℕ, List, [], map, not, option_map, IfOk, IfErr, string_bytes};
ghost use Rattle.std.specs.List.{slice_get};
ghost use Rattle.std.specs.Result.{is_err};
ghost use Rattle.kmip_ttlv_types.specs.Held.{held, Gets};
ghost use Rattle.kmip_ttlv_names.specs.NameTables.{lines_of};
ghost use Rattle.ttlv_run.specs.Compares.{decoded, messages_in, AreLinesOf, ComparesPair, FailsPair, PrintsAll, PrintsSome, EndsComparing, GathersFile, ComparesFiles};
ghost use Rattle.kmip_ttlv_util.specs.Pieces.{SomeText};
ghost use Rattle.ttlv_run.specs.Differences.{lines_in};
ghost use Rattle.ttlv_run.specs.Texts.{names_of};

use crate::differences::push_differences;
use crate::files::{Opener, greater, run_file};
use crate::from_json::send;
use crate::job::{Asked, Look, Names, Values};
use crate::lines::push_lines;
use crate::memory::Memory;
use crate::run::report_error;
use crate::run_error::{RunError, status_in};
use hex::FromHexError;
use kmip_ttlv_types::stream::{MemorySink, Sink};
use std::alloc::{AllocError, Allocator};

/// Two files whose messages are compared.
#[derive(Clone, Copy, Debug, PartialEq, Eq)]
pub struct Pair<'w> {
    /// The name of the first.
    pub first: &'w str,
    /// The name of the second.
    pub second: &'w str,
}

// The lines of a text, and what is behind its last line feed.
fn rows_of<'t, A: Allocator>(alloc: A, text: &'t [u8]) -> Result<Vec<&'t [u8], A>, AllocError>
    ensures { IfOk result (λ rows. map (λ s. s.now) rows.items ≡ lines_of text.now) }
{
    text.split(|b| *b == b'\n').collect(alloc)
}

// The lines of a text; behind the last line feed there is none, unless something stands there.
fn rows_in<'t, A: Allocator>(alloc: A, text: &'t [u8]) -> Result<Vec<&'t [u8], A>, AllocError>
    ensures { IfOk result (λ rows. map (λ s. s.now) rows.items ≡ lines_in text.now) }
{
    let mut rows = rows_of(alloc, text)?;
    if let Some(last) = rows.last()
        && last.is_empty()
    {
        rows.pop();
    }
    Ok(rows)
}

// The message that the digits of a line are. What was printed in hexadecimal has no other lines.
fn message_in<B: Allocator + Copy>(alloc: B, digits: &[u8]) -> Result<Vec<u8, B>, AllocError>
    ensures { IfOk result (λ message. message.items ≡ decoded digits.now) }
{
    match hex::decode(alloc, digits) {
        Ok(message) => Ok(message),
        Err(FromHexError::OutOfMemory) => Err(AllocError),
        Err(_) => Ok(Vec::new(alloc)),
    }
}

// The readable lines of the message in a line of digits, without values that differ in each run; none without a message.
fn text_of<B: Allocator + Copy>(
    alloc: B,
    names: &Names<'_, B>,
    digits: Option<&[u8]>,
) -> Result<String<B>, AllocError>
    ensures { IfOk result (λ text. AreLinesOf (names_of names.now) (option_map (λ d. decoded d.now) digits.entry) (string_bytes text)) }
{
    let mut text = String::new(alloc);
    let Some(digits) = digits else {
        return Ok(text);
    };
    let message = message_in(alloc, digits)?;
    let look = Look {
        values: Values::Lasting,
        ..Look::PLAIN
    };
    push_lines(alloc, &mut text, names, look, 0, message.as_slice())?;
    Ok(text)
}

// Adds what is printed of two messages, or of one alone, to an empty text; returns whether their lines differ.
fn push_pair<B: Allocator + Copy>(
    alloc: B,
    out: &mut String<B>,
    names: &Names<'_, B>,
    first: Option<&[u8]>,
    second: Option<&[u8]>,
) -> Result<bool, AllocError>
    requires { string_bytes out.old ≡ [] }
    ensures { IfOk result (ComparesPair (names_of names.now) (option_map (λ d. decoded d.now) first.entry)
        (option_map (λ d. decoded d.now) second.entry) (string_bytes out.new)) }
{
    let one = text_of(alloc, names, first)?;
    let other = text_of(alloc, names, second)?;
    push_differences(alloc, out, one.as_str(), other.as_str())
}

// Prints the lines of two messages, or of one alone, if they differ; returns whether they do.
fn print_pair<B: Allocator + Copy, W: Sink>(
    alloc: B,
    names: &Names<'_, B>,
    first: Option<&[u8]>,
    second: Option<&[u8]>,
    output: &mut W,
) -> Result<bool, RunError>
    ensures ok { IfOk result (λ differ. SomeText (λ t. ComparesPair (names_of names.now) (option_map (λ d. decoded d.now) first.entry)
        (option_map (λ d. decoded d.now) second.entry) t differ) (Gets (held W.emitted W.room output.old) (held W.emitted W.room output.new))) }
    ensures err { IfErr result (FailsPair (names_of names.now) (option_map (λ d. decoded d.now) first.entry)
        (option_map (λ d. decoded d.now) second.entry) (held W.emitted W.room output.old) (held W.emitted W.room output.new)) }
{
    let mut text = String::new(alloc);
    let differ = push_pair(alloc, &mut text, names, first, second)?;
    send(output, text.as_bytes())?;
    Ok(differ)
}

// The line of digits at a place, if there is one.
fn row_at<'t>(rows: &[&'t [u8]], at: usize) -> Option<&'t [u8]>
    ensures { option_map (λ d. decoded d.now) result ≡ slice_get (map (λ d. decoded d.now) rows.now) at }
{
    rows.get(at).copied()
}

// Whether no pair differs, if one more does or not.
fn still_alike(alike: bool, differ: bool) -> bool
    ensures { result ≡ (not differ && alike) }
{
    !differ && alike
}

// Prints the differences of the messages in lines of digits, the first with the first and so on; returns whether there are none.
fn print_pairs<B: Allocator + Copy, W: Sink>(
    alloc: B,
    names: &Names<'_, B>,
    first: &[&[u8]],
    second: &[&[u8]],
    output: &mut W,
) -> Result<bool, RunError>
    ensures ok { IfOk result (PrintsAll (names_of names.now) (map (λ d. decoded d.now) first.now) (map (λ d. decoded d.now) second.now)
        (held W.emitted W.room output.old) (held W.emitted W.room output.new)) }
    ensures err { IfErr result (PrintsSome (names_of names.now) (map (λ d. decoded d.now) first.now) (map (λ d. decoded d.now) second.now)
        (held W.emitted W.room output.old) (held W.emitted W.room output.new)) }
{
    let count = first.len().max(second.len());
    let mut alike = true;
    'pairs: for at in 0..count {
        let one = row_at(first, at);
        let other = row_at(second, at);
        let differ = print_pair(alloc, names, one, other, output)?;
        alike = still_alike(alike, differ);
    }
    Ok(alike)
}

// Prints the differences of two inputs, of which this was gathered; returns whether there are none.
fn print_differences<B: Allocator + Copy, W: Sink>(
    alloc: B,
    names: &Names<'_, B>,
    first: &[u8],
    second: &[u8],
    output: &mut W,
) -> Result<bool, RunError>
    ensures ok { IfOk result (PrintsAll (names_of names.now) (messages_in first.now) (messages_in second.now)
        (held W.emitted W.room output.old) (held W.emitted W.room output.new)) }
    ensures err { IfErr result (PrintsSome (names_of names.now) (messages_in first.now) (messages_in second.now)
        (held W.emitted W.room output.old) (held W.emitted W.room output.new)) }
{
    let rows = rows_in(alloc, first)?;
    let others = rows_in(alloc, second)?;
    print_pairs(alloc, names, rows.as_slice(), others.as_slice(), output)
}

// The same, and why not all of them were printed is reported.
fn respond_differences<B: Allocator + Copy, W: Sink, E: Sink>(
    alloc: B,
    names: &Names<'_, B>,
    first: &[u8],
    second: &[u8],
    output: &mut W,
    errors: &mut E,
) -> Result<bool, RunError>
    ensures { EndsComparing (names_of names.now) (messages_in first.now) (messages_in second.now)
        (held W.emitted W.room output.old) (held W.emitted W.room output.new)
        (held E.emitted E.room errors.old) (held E.emitted E.room errors.new) result }
{
    match print_differences(alloc, names, first, second, output) {
        Ok(alike) => Ok(alike),
        Err(why) => {
            report_error(errors, "ttlv", why);
            Err(why)
        }
    }
}

// Opens a file and does with it what is asked, but what is printed is gathered in memory.
fn gather_file<B: Allocator + Copy, O: Opener, E: Sink>(
    memory: Memory<B, B>,
    asked: Asked<'_>,
    name: &str,
    names: &Names<'_, B>,
    opener: &mut O,
    errors: &mut E,
) -> (Vec<u8, B>, Result<bool, RunError>)
    ensures { GathersFile (record { opens = O.opens; left = O.Input.left; can_fail = O.Input.can_fail })
        (names_of names.now) asked.entry name.entry opener.old opener.new
        (held E.emitted E.room errors.old) (held E.emitted E.room errors.new) result.0.items result.1 }
{
    let mut sink = MemorySink(Vec::new(memory.rest));
    let outcome = run_file(memory, asked, false, name, names, opener, &mut sink, errors);
    let MemorySink(values) = sink;
    (values, outcome)
}

// Whether not all of two files was read.
fn is_unread(one: Result<bool, RunError>, other: Result<bool, RunError>) -> bool
    ensures { result ≡ (is_err one || is_err other) }
{
    one.is_err() || other.is_err()
}

/// Compares the messages of two files, the first with the first and so on, by their readable lines without dates and identifiers, and
/// returns the exit status: 0 if all are alike, 1 if not or if a file has a malformed message, whose lines up to its fault are compared
/// too; 2 if one can't be opened, read or decoded; 3 when out of memory or if the output can't be written. Of a pair whose lines differ
/// all lines of both are printed, each behind its mark, and so are those of messages that one file has more; of others nothing is. If a
/// file can't be opened or not all of it can be read, nothing is compared. What is asked prints the messages in hexadecimal, a line each.
pub fn run_compared<B: Allocator + Copy, O: Opener, W: Sink, E: Sink>(
    memory: Memory<B, B>,
    asked: Asked<'_>,
    pair: Pair<'_>,
    names: &Names<'_, B>,
    opener: &mut O,
    output: &mut W,
    errors: &mut E,
) -> u8
    ensures { ComparesFiles (record { opens = O.opens; left = O.Input.left; can_fail = O.Input.can_fail })
        (names_of names.now) asked.entry pair.entry
        (record { opener = opener.old; output = held W.emitted W.room output.old; errors = held E.emitted E.room errors.old })
        (record { opener = opener.new; output = held W.emitted W.room output.new; errors = held E.emitted E.room errors.new }) result }
{
    let (first, one) = gather_file(memory, asked, pair.first, names, opener, errors);
    let (second, other) = gather_file(memory, asked, pair.second, names, opener, errors);
    let status = greater(status_in(one), status_in(other));
    if is_unread(one, other) {
        return status;
    }
    let alike = respond_differences(
        memory.rest,
        names,
        first.as_slice(),
        second.as_slice(),
        output,
        errors,
    );
    greater(status, status_in(alike))
}
