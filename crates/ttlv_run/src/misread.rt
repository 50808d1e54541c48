//! Why an input, taken as an encoding, stands for no bytes, and the line that says so.

ghost use Rattle.std.specs.Prelude.{◌≡◌, ◌++◌, ◌<◌, true, ℕ, List};
ghost use Rattle.kmip_ttlv_types.specs.Held.{Held, held, Says};
ghost use Rattle.std.specs.Fmt.{digit_glyph};
ghost use Rattle.ttlv_run.specs.Reasons.{Reports};
ghost use Rattle.ttlv_run.specs.Misreadings.{is_printable, byte_shown, with_kind, line_end, misread_line};

use crate::job::Encoding;
use crate::run::{report, report_place};
use itoa::Buffer;
use kmip_ttlv_types::stream::Sink;

/// What is wrong with an input.
#[derive(Clone, Copy, Debug, PartialEq, Eq)]
pub enum MisreadKind {
    /// This byte is no digit of the encoding, and can't stand there.
    NoDigit(u8),
    /// The digits up to the input's end are those of no bytes: one is missing, or too many are there.
    WrongCount,
}

/// Why an input stands for no bytes.
#[derive(Clone, Copy, Debug, PartialEq, Eq)]
pub struct Misread {
    /// What it was taken as.
    pub taken: Encoding,
    /// Whether that was guessed.
    pub guessed: bool,
    /// Where it is wrong, in bytes from the input's first.
    pub offset: usize,
    /// What is wrong there.
    pub kind: MisreadKind,
}

fn is_printable(b: u8) -> bool
    ensures { result ≡ is_printable b }
{
    33 <= b && b <= 126
}

// Writes bytes behind others, where those were written to their end; returns whether these were too.
fn report_bytes<E: Sink>(errors: &mut E, writable: bool, bytes: &[u8]) -> bool
    ensures { (known : Held) (front : List ℕ) → Reports writable known (held E.emitted E.room errors.old) front
        → Reports result known (held E.emitted E.room errors.new) (front ++ bytes.now) }
{
    writable && errors.send(bytes).is_ok()
}

// A hexadecimal digit.
fn digit(n: u8) -> u8
    requires { n < 16 }
    ensures { result ≡ digit_glyph true n }
{
    if n < 10 {
        return 48 + n;
    }
    55 + n
}

// Writes a byte as a character in quotes, or in hexadecimal where it isn't printable.
fn report_byte<E: Sink>(errors: &mut E, writable: bool, b: u8) -> bool
    ensures { (known : Held) (front : List ℕ) → Reports writable known (held E.emitted E.room errors.old) front
        → Reports result known (held E.emitted E.room errors.new) (front ++ byte_shown b) }
{
    if is_printable(b) {
        return report_bytes(errors, writable, &[39, b, 39]);
    }
    report_bytes(errors, writable, &[48, 120, digit(b / 16), digit(b % 16)])
}

// Writes what is wrong at an offset.
fn report_kind<E: Sink>(errors: &mut E, writable: bool, kind: MisreadKind) -> bool
    ensures { (known : Held) (front : List ℕ) → Reports writable known (held E.emitted E.room errors.old) front
        → Reports result known (held E.emitted E.room errors.new) (with_kind front kind) }
{
    match kind {
        MisreadKind::NoDigit(b) => {
            let writable = report(errors, writable, ", ");
            let writable = report_byte(errors, writable, b);
            report(errors, writable, ", is no digit")
        }
        MisreadKind::WrongCount => report(
            errors,
            writable,
            ": digits are missing at the end, or too many are there",
        ),
    }
}

// The end of the line: the option that names another encoding, where this one was guessed.
fn line_end(guessed: bool) -> &'static str
    ensures { result.now ≡ line_end guessed }
{
    if guessed {
        return " (--input)\n";
    }
    "\n"
}

/// Writes the line of an input that stands for no bytes, as far as it can be written. It takes no memory.
pub fn report_misread<E: Sink>(errors: &mut E, name: &str, misread: Misread)
    ensures { Says (held E.emitted E.room errors.old) (held E.emitted E.room errors.new) (misread_line name.now misread) }
{
    let writable = report_place(errors, name, None);
    let writable = report(errors, writable, ": taken as ");
    let writable = report(errors, writable, misread.taken.words());
    let writable = report(errors, writable, ": byte ");
    let writable = report(errors, writable, Buffer::new().format(misread.offset));
    let writable = report_kind(errors, writable, misread.kind);
    report(errors, writable, line_end(misread.guessed));
}
