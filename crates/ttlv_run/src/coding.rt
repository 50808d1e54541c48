//! The bytes that digits stand for, a group at a time, and what the encoding of an input says of its digits.

ghost use Rattle.std.specs.Prelude.{◌≡◌, ◌<◌, ◌≤◌, ◌+◌, ◌*◌, ◌/◌, ℕ, List, length, take, Some, None, IfOk, IfErr, IfSome, IfNone};
ghost use Rattle.base64.specs.GeneralPurpose.{IsBytes};
ghost use Rattle.ttlv_run.specs.declared.run_error.RunError.TheVariants.{MisreadInput as AMisread};
ghost use Rattle.ttlv_run.specs.Fronts.{front_size, taken_as};
ghost use Rattle.ttlv_run.specs.Inputs.{TakesAll, IsUnread, has_padding, url_alphabet, alphabet_of, width, decode_form, form_of, port_of, encoding_of, is_detected};

use crate::form::Form;
use crate::guess::{FRONT, LONG_FRONT, encoding_found, front_of, looks_raw};
use crate::job::Encoding;
use crate::misread::{Misread, MisreadKind};
use crate::run_error::RunError;
use base64::engine::general_purpose::{STANDARD, URL_SAFE, URL_SAFE_NO_PAD};
use kmip_ttlv_types::Error;
use kmip_ttlv_types::stream::{Source, take_all};
use std::alloc::Allocator;

/// The digits that bytes are written in.
#[derive(Clone, Copy, PartialEq, Eq)]
pub enum Alphabet {
    HexadecimalDigits,
    Base64Digits,
    UrlDigits,
    BareUrlDigits,
}

/// All bytes of a reader.
pub fn read_all<A: Allocator, R: Source>(alloc: A, input: &mut R) -> Result<Vec<u8, A>, RunError>
    ensures ok { IfOk result (λ all. TakesAll (R.left input.old) (R.left input.new) all.items) }
    ensures err { IfErr result (IsUnread R.can_fail) }
{
    match take_all(alloc, input) {
        Ok(bytes) => Ok(bytes),
        Err(Error::OutOfMemory) => Err(RunError::NoMemory),
        Err(_) => Err(RunError::UnreadableInput),
    }
}

// Where and why a text stands for no bytes.
#[derive(Clone, Copy, PartialEq, Eq)]
pub struct Undecoded {
    pub offset: usize,
    pub kind: MisreadKind,
}

// Whether digits end with padding.
fn has_padding(digits: &[u8]) -> bool
    ensures { result ≡ has_padding digits.now }
{
    digits.len() > 0 && digits[digits.len() - 1] == 61
}

fn url_alphabet(padded: bool) -> Alphabet
    ensures { result ≡ url_alphabet padded }
{
    if padded {
        return Alphabet::UrlDigits;
    }
    Alphabet::BareUrlDigits
}

// The alphabet of the digits of a text.
fn alphabet_of(form: Form, padded: bool) -> Alphabet
    ensures { result ≡ alphabet_of form padded }
{
    match form {
        Form::HexadecimalText | Form::DumpText | Form::PacketText => Alphabet::HexadecimalDigits,
        Form::Base64Text | Form::ArmouredText => Alphabet::Base64Digits,
        Form::Base64UrlText => url_alphabet(padded),
    }
}

/// How many digits are a group.
pub fn width(form: Form) -> usize
    ensures is { result ≡ width form }
    ensures most { result ≤ 4 }
{
    match form {
        Form::HexadecimalText | Form::DumpText | Form::PacketText => 2,
        Form::Base64Text | Form::ArmouredText | Form::Base64UrlText => 4,
    }
}

/// Decodes digits into the front of `bytes`, and gives how many bytes they stand for.
pub fn decode_form(form: Form, digits: &[u8], bytes: &mut [u8]) -> Option<usize>
    requires room { length digits.now ≤ 4 * (length bytes.old / 3) }
    ensures within { IfSome result (λ n. n ≤ length bytes.new) }
    ensures some { IfSome result (λ n. decode_form form digits.now ≡ Some (take n bytes.new)) }
    ensures none { IfNone result (decode_form form digits.now ≡ None) }
    ensures digits { IsBytes digits.now }
    ensures bytes { IsBytes bytes.new }
    ensures len { length bytes.new ≡ length bytes.old }
{
    match alphabet_of(form, has_padding(digits)) {
        Alphabet::HexadecimalDigits => {
            let count = digits.len() / 2;
            hex::decode_to_slice(digits, &mut bytes[..count]).ok()?;
            Some(count)
        }
        Alphabet::Base64Digits => STANDARD.decode_slice_unchecked(digits, bytes).ok(),
        Alphabet::UrlDigits => URL_SAFE.decode_slice_unchecked(digits, bytes).ok(),
        Alphabet::BareUrlDigits => URL_SAFE_NO_PAD.decode_slice_unchecked(digits, bytes).ok(),
    }
}

/// The port of a packet capture; none of anything else.
pub fn port_of(encoding: Encoding) -> Option<usize>
    ensures { result ≡ port_of encoding }
{
    match encoding {
        Encoding::Capture { port } => Some(port),
        _ => None,
    }
}

/// How digits stand in an input of an encoding; none where there are no digits.
pub fn form_of(encoding: Encoding) -> Option<Form>
    ensures { result ≡ form_of encoding }
{
    match encoding {
        Encoding::Detected | Encoding::Raw | Encoding::Capture { .. } => None,
        Encoding::Hexadecimal => Some(Form::HexadecimalText),
        Encoding::Base64 => Some(Form::Base64Text),
        Encoding::Base64Url => Some(Form::Base64UrlText),
        Encoding::Armoured => Some(Form::ArmouredText),
        Encoding::Dump => Some(Form::DumpText),
        Encoding::Packets => Some(Form::PacketText),
    }
}

fn is_detected(encoding: Encoding) -> bool
    ensures { result ≡ is_detected encoding }
{
    match encoding {
        Encoding::Detected => true,
        Encoding::Raw
        | Encoding::Hexadecimal
        | Encoding::Base64
        | Encoding::Base64Url
        | Encoding::Armoured
        | Encoding::Dump
        | Encoding::Packets
        | Encoding::Capture { .. } => false,
    }
}

/// The encoding of an input: the one that was named, or else what the input looks like.
pub fn encoding_of(encoding: Encoding, input: &[u8]) -> Encoding
    ensures { result ≡ encoding_of encoding input.now }
{
    if is_detected(encoding) {
        return encoding_found(input);
    }
    encoding
}

/// How many bytes of an input decide its encoding, or all of a shorter one, where these bytes of it are there.
pub fn front_size(encoding: Encoding, input: &[u8]) -> usize
    ensures { result ≡ front_size encoding input.now }
{
    if !is_detected(encoding) || input.len() < 4 || looks_raw(input) {
        return 4;
    }
    if input.len() < FRONT || front_of(input).is_some() {
        return FRONT;
    }
    LONG_FRONT
}

/// The error of an input that was taken as an encoding and stands for no bytes.
pub fn misread(encoding: Encoding, taken: Encoding, why: Undecoded) -> RunError
    ensures { result ≡ AMisread (record {
      taken = taken;
      guessed = is_detected encoding;
      offset = why.offset;
      kind = why.kind;
    }) }
{
    RunError::MisreadInput(Misread {
        taken,
        guessed: is_detected(encoding),
        offset: why.offset,
        kind: why.kind,
    })
}

/// The encoding of a text.
pub fn taken_as(form: Form) -> Encoding
    ensures { result ≡ taken_as form }
{
    match form {
        Form::HexadecimalText => Encoding::Hexadecimal,
        Form::Base64Text => Encoding::Base64,
        Form::Base64UrlText => Encoding::Base64Url,
        Form::ArmouredText => Encoding::Armoured,
        Form::DumpText => Encoding::Dump,
        Form::PacketText => Encoding::Packets,
    }
}
