//! Decodes a text of digits as it comes: each group of digits when the character behind its last one is there.

ghost use Rattle.std.specs.Prelude.{◌≡◌, ◌<◌, ◌≤◌, ◌+◌, ◌-◌, ◌*◌, ◌/◌, ◌^◌, ◌∷◌, ◌++◌, ℕ, true, List, [], length, take, drop, slice_index, Some, None, IfSome, IfNone};
ghost use Rattle.std.specs.List.{list_all};
ghost use Rattle.base64.specs.GeneralPurpose.{IsBytes};
ghost use Rattle.ttlv_run.specs.declared.misread.MisreadKind.TheVariants.{NoDigit as IsNoDigit, WrongCount as IsWrongCount};
ghost use Rattle.ttlv_run.specs.Columns.{is_plain};
ghost use Rattle.ttlv_run.specs.Inputs.{width, decode_form};

use crate::coding::{Undecoded, decode_form, width};
use crate::form::{Form, LinePart, Step, first_part, is_plain, step_of};
use crate::misread::MisreadKind;

/// The bytes of a group of digits: three at most.
#[derive(Clone, Copy)]
pub struct Group {
    bytes: [u8; 3],
    count: usize,
    ghost fits: { count ≤ 3 },
}

impl Group {
    ghost use Rattle.ttlv_run.specs.Decoding.{bytes_in};

    // The bytes of digits, four at most.
    fn of(form: Form, digits: &[u8]) -> Option<Group>
        requires { length digits.now ≤ 4 }
        ensures some { IfSome result (λ g. decode_form form digits.now ≡ Some (bytes_in g)) }
        ensures none { IfNone result (decode_form form digits.now ≡ None) }
        ensures bytes { IfSome result (λ g. IsBytes (bytes_in g)) }
        ensures digits { IsBytes digits.now }
    {
        let mut bytes = [0; 3];
        let count = decode_form(form, digits, &mut bytes)?;
        Some(Group { bytes, count })
    }

    /// The bytes that the group's digits stand for, three at most.
    pub fn as_slice(&self) -> &[u8]
        ensures are { result.now ≡ bytes_in self.now }
        ensures few { length result.now ≤ 3 }
    {
        &self.bytes[..self.count]
    }
}

/// What a character comes to.
#[derive(Clone, Copy)]
pub enum Made {
    /// No bytes so far.
    Nothing,
    /// Those of a group of digits.
    Bytes(Group),
    /// An error: the text stands for no more bytes.
    Failed(Undecoded),
}

/// What may follow the digits that were read.
#[derive(Clone, Copy, PartialEq, Eq)]
pub enum Phase {
    /// More digits may follow, or padding.
    Groups,
    /// No digit: there was padding.
    Padded,
    /// Whatever follows, the digits are those of no bytes.
    Spoilt,
}

/// The most digits that are decoded at once.
pub const RUN: usize = 512;

// How many of some characters, from the first on, are digits that are no padding: one more than a run at most.
fn digits_in(form: Form, chars: &[u8]) -> usize
    ensures within { result ≤ length chars.now }
    ensures most { result ≤ 513 }
    ensures all { list_all (is_plain form) (take result chars.now) ≡ true }
{
    let most = chars.len().min(RUN + 1);
    let mut count = 0;
    'digits: while count < most && is_plain(form, chars[count]) {
        count += 1;
    }
    count
}

/// A text whose front was read.
#[derive(Clone, Copy)]
pub struct Decoder {
    form: Form,
    // The part of a line in which the character that waits stands.
    part: LinePart,
    phase: Phase,
    // The digits of a group that isn't whole yet, in front of room for more.
    digits: [u8; 4],
    count: usize,
    // The last character, which only the next one decides: both may be `0x` or `\x`.
    waiting: Option<u8>,
    // How many characters stand in front of it.
    offset: usize,
    ghost fits: { count < width form },
}

impl Decoder {
    ghost use Rattle.ttlv_run.specs.declared.decoder.Made.TheVariants.{Failed as AnError};
    ghost use Rattle.ttlv_run.specs.declared.decoder.Phase.TheVariants.{Groups};
    ghost use Rattle.ttlv_run.specs.Decoding.{open_digits, characters, BeginsGroup, IsRun, IsOpen, Knows, Holds, Yields, Takes, Reading, Pushes, Finishes, Ends};

    /// A decoder in front of a text behind its mark, which has so many bytes.
    pub fn new(form: Form, mark: usize) -> Decoder
        ensures reading { Reading result mark [] [] }
        ensures form { result.form ≡ form }
    {
        Decoder {
            form,
            part: first_part(form),
            phase: Phase::Groups,
            digits: [0; 4],
            count: 0,
            waiting: None,
            offset: mark,
        }
    }

    /// How many characters stand in front of the one that waits.
    pub fn offset(&self) -> usize
        ensures { result ≡ self.now.offset }
    {
        self.offset
    }

    // Puts a digit into the open group, and decodes that if it is whole.
    fn put(&mut self, b: u8) -> Made
        requires { self.old.phase ≡ Groups }
        ensures made { (digits bytes : List ℕ) → IsOpen self.old.form digits (open_digits self.old) bytes
            → Yields self.new (digits ++ b ∷ []) bytes result }
        ensures form { self.new.form ≡ self.old.form }
        ensures part { self.new.part ≡ self.old.part }
        ensures waiting { self.new.waiting ≡ self.old.waiting }
        ensures offset { self.new.offset ≡ self.old.offset }
    {
        let width = width(self.form);
        self.digits[self.count] = b;
        if self.count + 1 < width {
            self.count += 1;
            return Made::Nothing;
        }
        self.count = 0;
        let Some(group) = Group::of(self.form, &self.digits[..width]) else {
            self.phase = Phase::Spoilt;
            return Made::Nothing;
        };
        if group.count + 1 < width {
            self.phase = Phase::Padded;
        }
        Made::Bytes(group)
    }

    // Counts a digit.
    fn count(&mut self, b: u8) -> Made
        ensures made { (digits bytes : List ℕ) → Knows self.old.phase self.old.form digits (open_digits self.old) bytes
            → Yields self.new (digits ++ b ∷ []) bytes result }
        ensures form { self.new.form ≡ self.old.form }
        ensures part { self.new.part ≡ self.old.part }
        ensures waiting { self.new.waiting ≡ self.old.waiting }
        ensures offset { self.new.offset ≡ self.old.offset }
    {
        match self.phase {
            Phase::Groups => self.put(b),
            Phase::Padded | Phase::Spoilt => {
                self.phase = Phase::Spoilt;
                Made::Nothing
            }
        }
    }

    // The error of a character that can't stand where it does.
    fn failed(&self, b: u8) -> Made
        ensures { result ≡ AnError (record { offset = self.now.offset; kind = IsNoDigit b }) }
    {
        Made::Failed(Undecoded {
            offset: self.offset,
            kind: MisreadKind::NoDigit(b),
        })
    }

    // The error of a text, behind the character that waited, whose digits are those of no bytes.
    fn miscounted(&self) -> Made
        requires { self.now.offset < 2 ^ 64 - 1 }
        ensures { result ≡ AnError (record { offset = self.now.offset + 1; kind = IsWrongCount }) }
    {
        Made::Failed(Undecoded {
            offset: self.offset + 1,
            kind: MisreadKind::WrongCount,
        })
    }

    // Takes a character, in front of the next one (0 at the end).
    fn take(&mut self, b: u8, next: u8) -> Made
        ensures made { (s bytes rest : List ℕ) → next ≡ slice_index rest 0 → Holds self.old s bytes (b ∷ rest)
            → Takes self.old self.new s bytes b rest result }
        ensures form { self.new.form ≡ self.old.form }
        ensures waiting { self.new.waiting ≡ self.old.waiting }
        ensures offset { self.new.offset ≡ self.old.offset }
    {
        match step_of(self.form, self.part, b, next) {
            Step::Counts(part) => {
                self.part = part;
                self.count(b)
            }
            Step::Skips(part) => {
                self.part = part;
                Made::Nothing
            }
            Step::Wrong => self.failed(b),
        }
    }

    // What is left at the end, behind the character that waited: the bytes of the open group, or an error.
    fn ended(&self) -> Made
        requires { self.now.offset < 2 ^ 64 - 1 }
        ensures { (digits bytes : List ℕ) → Knows self.now.phase self.now.form digits (open_digits self.now) bytes
            → Ends self.now digits bytes result }
    {
        match self.phase {
            Phase::Groups => match Group::of(self.form, &self.digits[..self.count]) {
                Some(group) => Made::Bytes(group),
                None => self.miscounted(),
            },
            Phase::Padded => Made::Nothing,
            Phase::Spoilt => self.miscounted(),
        }
    }

    /// Takes the character that waits, in front of the next one, which waits from now on.
    pub fn push(&mut self, b: u8) -> Made
        requires { self.old.offset < 2 ^ 64 - 1 }
        ensures made { (mark : ℕ) (s bytes : List ℕ) → Reading self.old mark s bytes
            → Pushes self.old self.new mark s b bytes result }
        ensures form { self.new.form ≡ self.old.form }
        ensures offset { self.new.offset ≤ self.old.offset + 1 }
        ensures count { characters self.new ≡ characters self.old + 1 }
    {
        let Some(first) = self.waiting else {
            self.waiting = Some(b);
            return Made::Nothing;
        };
        let made = self.take(first, b);
        self.waiting = Some(b);
        self.offset += 1;
        made
    }

    // Whether the character that waits is the first of some, and begins a group of digits where these stand freely.
    fn begins_group(&self, chars: &[u8]) -> bool
        ensures { result ≡ true → BeginsGroup self.now (slice_index chars.now 0) × (0 < length chars.now) }
    {
        let begins = self.part == LinePart::Free && self.phase == Phase::Groups && self.count == 0;
        begins && chars.len() > 0 && self.waiting == Some(chars[0])
    }

    /// How many characters, of which the first waits, can be decoded at once: whole groups of digits in front of one more digit,
    /// or none.
    pub fn run_in(&self, chars: &[u8]) -> usize
        ensures within { result ≤ length chars.now - 1 }
        ensures most { result ≤ 512 }
        ensures run { 0 < result → IsRun self.now (take result chars.now) (slice_index chars.now result) }
    {
        if !self.begins_group(chars) {
            return 0;
        }
        let width = width(self.form);
        digits_in(self.form, chars).saturating_sub(1) / width * width
    }

    /// Takes digits, the first of which waits, in front of the next one, which waits from now on. Gives how many bytes they stand
    /// for, which are put into the front of `bytes`; or takes none.
    pub fn push_run(&mut self, digits: &[u8], next: u8, bytes: &mut [u8]) -> Option<usize>
        requires run { IsRun self.old digits.now next }
        requires room { length digits.now ≤ 4 * (length bytes.old / 3) }
        requires offset { self.old.offset + length digits.now < 2 ^ 64 }
        ensures some { IfSome result (λ n. (mark : ℕ) (s all : List ℕ) → Reading self.old mark s all
            → Reading self.new mark (s ++ (drop 1 digits.now ++ next ∷ [])) (all ++ take n bytes.new)) }
        ensures none { IfNone result (self.new ≡ self.old) }
        ensures within { IfSome result (λ n. n ≤ length bytes.new) }
        ensures offset { self.new.offset ≤ self.old.offset + length digits.now }
        ensures count { IfSome result (λ n. characters self.new ≡ characters self.old + length digits.now) }
        ensures form { self.new.form ≡ self.old.form }
        ensures len { length bytes.new ≡ length bytes.old }
    {
        let count = decode_form(self.form, digits, bytes)?;
        let width = width(self.form);
        if count != digits.len() / width * (width - 1) {
            return None;
        }
        self.waiting = Some(next);
        self.offset += digits.len();
        Some(count)
    }

    /// Takes the character that waits, at the text's end.
    pub fn finish(&mut self) -> Made
        requires { self.old.offset < 2 ^ 64 - 1 }
        ensures made { (mark : ℕ) (s bytes : List ℕ) → Reading self.old mark s bytes
            → Finishes self.old.form mark s bytes result }
        ensures form { self.new.form ≡ self.old.form }
    {
        let Some(last) = self.waiting else {
            return Made::Nothing;
        };
        match self.take(last, 0) {
            Made::Nothing => self.ended(),
            made => made,
        }
    }
}
