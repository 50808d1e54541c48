//! Prints the messages of a text of digits as they come.

ghost use Rattle.std.specs.Prelude.{◌≡◌, ◌<◌, ◌≤◌, ◌+◌, ◌-◌, ◌^◌, ◌++◌, true, false, ℕ, List, [], Some, None, Ok, Option, OnOk, IfOk, length};
ghost use Rattle.std.specs.Io.KnownBytes.{Consumes, IsAtEnd};
ghost use Rattle.kmip_ttlv_types.specs.Held.{held};
ghost use Rattle.ttlv_run.specs.Decoding.{characters, Reading, Grows, Puts, DecodesRun, DecodesPiece, DecodesMore, is_last};
ghost use Rattle.ttlv_run.specs.Fronts.{front_size};
ghost use Rattle.ttlv_run.specs.Inputs.{form_of, encoding_of};
ghost use Rattle.ttlv_run.specs.Runs.{streams, Places};
ghost use Rattle.ttlv_run.specs.Streaming.{window_bytes};
ghost use Rattle.ttlv_run.specs.Texts.{names_of};

use crate::coding::{Undecoded, misread, taken_as};
use crate::decoder::{Decoder, Made, RUN};
use crate::form::Form;
use crate::guess::mark_length;
use crate::job::{Job, Names};
use crate::memory::Memory;
use crate::messages::{Place, Reached};
use crate::run::{behind_all, print_messages};
use crate::run_error::RunError;
use crate::window::Window;
use kmip_ttlv_types::stream::{Sink, Source};
use std::alloc::Allocator;

// Puts what a character came to behind bytes; gives the error, if it is one.
fn put<A: Allocator>(made: Made, bytes: &mut Window<A>) -> Result<Option<Undecoded>, RunError>
    ensures { Puts (window_bytes bytes.old) (window_bytes bytes.new) made result }
{
    match made {
        Made::Nothing => Ok(None),
        Made::Bytes(group) => {
            bytes.add(group.as_slice())?;
            Ok(None)
        }
        Made::Failed(why) => Ok(Some(why)),
    }
}

// Puts the bytes of a run of digits behind bytes, by way of some room. The first of these characters waits; gives how many came
// behind it.
fn decode_run<A: Allocator>(
    decoder: &mut Decoder,
    chars: &[u8],
    room: &mut [u8],
    bytes: &mut Window<A>,
) -> Result<usize, RunError>
    requires room { length room.old ≡ 384 }
    requires offset { decoder.old.offset + length chars.now < 2 ^ 64 }
    ensures made { Grows (window_bytes bytes.old) (window_bytes bytes.new) (λ came. (mark : ℕ) (s all : List ℕ) → Reading decoder.old mark s all
        → DecodesRun decoder.new mark s chars.now (all ++ came) result) }
    ensures within { IfOk result (λ n. n ≤ length chars.now - 1) }
    ensures offset { decoder.new.offset ≤ decoder.old.offset + (length chars.now - 1) }
    ensures moved { IfOk result (λ n. decoder.new.offset ≤ decoder.old.offset + n) }
    ensures count { IfOk result (λ n. characters decoder.new ≡ characters decoder.old + n) }
    ensures form { decoder.new.form ≡ decoder.old.form }
    ensures room { length room.new ≡ 384 }
{
    let count = decoder.run_in(chars);
    if count == 0 {
        return Ok(0);
    }
    match decoder.push_run(&chars[..count], chars[count], room) {
        Some(few) => {
            bytes.add(&room[..few])?;
            Ok(count)
        }
        None => Ok(0),
    }
}

// Puts the bytes of a text's next characters behind bytes, up to the first error, and gives that.
fn decode_piece<A: Allocator>(
    decoder: &mut Decoder,
    piece: &[u8],
    bytes: &mut Window<A>,
) -> Result<Option<Undecoded>, RunError>
    requires { decoder.old.offset + length piece.now < 2 ^ 64 - 1 }
    ensures made { Grows (window_bytes bytes.old) (window_bytes bytes.new) (λ came. (mark : ℕ) (s all : List ℕ) → Reading decoder.old mark s all
        → DecodesPiece decoder.new mark s piece.now (all ++ came) result) }
    ensures offset { decoder.new.offset ≤ decoder.old.offset + length piece.now }
    ensures count { result ≡ Ok None → characters decoder.new ≡ characters decoder.old + length piece.now }
    ensures form { decoder.new.form ≡ decoder.old.form }
{
    let mut room = [0; RUN / 4 * 3];
    let mut at = 0;
    'characters: while at < piece.len() {
        if let Some(why) = put(decoder.push(piece[at]), bytes)? {
            return Ok(Some(why));
        }
        let run = decode_run(decoder, &piece[at..], &mut room, bytes)?;
        at += run + 1;
    }
    Ok(None)
}

// Puts the bytes of all characters that came behind bytes, and lets go of the characters; gives the first error.
fn decode_more<A: Allocator>(
    decoder: &mut Decoder,
    text: &mut Window<A>,
    ended: bool,
    bytes: &mut Window<A>,
) -> Result<Option<Undecoded>, RunError>
    ensures made { Grows (window_bytes bytes.old) (window_bytes bytes.new) (λ came. (mark : ℕ) (s all : List ℕ) → Reading decoder.old mark s all
        → DecodesMore decoder.new mark s (window_bytes text.old) ended (all ++ came) result) }
    ensures form { decoder.new.form ≡ decoder.old.form }
    ensures left { OnOk result (window_bytes text.new ≡ []) }
    ensures count { result ≡ Ok None → ended ≡ false
        → (characters decoder.new ≡ characters decoder.old + length (window_bytes text.old)) × (characters decoder.new < 2 ^ 64) }
{
    let piece = text.buffered();
    let count = piece.len();
    if usize::MAX - decoder.offset() <= count {
        return Err(RunError::NoMemory);
    }
    if let Some(why) = decode_piece(decoder, piece, bytes)? {
        text.discard(count);
        return Ok(Some(why));
    }
    text.discard(count);
    if ended {
        return put(decoder.finish(), bytes);
    }
    Ok(None)
}

// Whether the bytes that came are the last: the text ended, without an error.
fn is_last(ended: bool, wrong: Option<Undecoded>) -> bool
    ensures { result ≡ is_last ended wrong }
{
    match wrong {
        Some(_) => false,
        None => ended,
    }
}

/// Prints what a job asks for of a text's messages, each when the character behind its last digit is there, and gives the
/// first fault.
pub fn print_digits<A: Allocator + Copy, B: Allocator + Copy, R: Source, W: Sink>(
    memory: Memory<A, B>,
    job: &Job<'_>,
    names: &Names<'_, B>,
    form: Form,
    mut text: Window<A>,
    mut ended: bool,
    input: &mut R,
    output: &mut W,
) -> Result<Option<Place>, RunError>
    requires form { form_of (encoding_of job.now.encoding (window_bytes text)) ≡ Some form }
    requires front { ended ≡ false → front_size job.now.encoding (window_bytes text) ≤ length (window_bytes text) }
    requires at_end { ended ≡ true → IsAtEnd (R.left input.old) }
    ensures { (known : Option (List ℕ)) → Consumes known (R.left input.old) (window_bytes text)
        → Places (names_of names.now) job.now
        (streams R.can_fail known (R.left input.new) (held W.emitted W.room output.old) (held W.emitted W.room output.new)) result }
{
    let mark = mark_length(text.buffered());
    text.discard(mark);
    let mut decoder = Decoder::new(form, mark);
    let mut bytes = Window::new(memory.input);
    let mut base = 0;
    'pieces: loop {
        let wrong = decode_more(&mut decoder, &mut text, ended, &mut bytes)?;
        let buffered = bytes.buffered();
        if usize::MAX - base < buffered.len() {
            return Err(RunError::NoMemory);
        }
        let last = is_last(ended, wrong);
        match print_messages(memory.rest, names, job.task, base, buffered, last, output)? {
            Reached::Behind(count) => {
                base += count;
                bytes.discard(count);
            }
            Reached::Fault(place) => return Ok(Some(place)),
        }
        if let Some(why) = wrong {
            return Err(misread(job.encoding, taken_as(form), why));
        }
        if ended {
            return behind_all(job.task, base);
        }
        ended = text.read_more(input)? == 0;
    }
}
