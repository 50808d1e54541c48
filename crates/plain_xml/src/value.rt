//! The value of an attribute, with its references replaced (2.3, 3.3.3, 4.1, 4.6).

ghost use Rattle.std.specs.Prelude.{◌≡◌, ◌≤◌, length, string_bytes, option_map};
ghost use Rattle.std.specs.List.{prefix_len};
ghost use Rattle.plain_xml.specs.Faults.{Gives};
ghost use Rattle.plain_xml.specs.Values.{character_of, digits_value, number_in, numbered, two, three, four, predefined, referenced};
ghost use Rattle.plain_xml.specs.Values.{is_other, split_at_first, reference_at, character_at, next_in, closed, quoted, value_at};

use crate::characters::is_character;
use crate::failure::{Flaw, Stop, fault_at};
use std::alloc::Allocator;

// The character of a number.
#[tactic(auto, unfolding(crate::specs::Characters::is_character))]
fn character_of(number: u32) -> Option<char>
    ensures { result ≡ character_of number }
{
    if !is_character(number) {
        return None;
    }
    char::from_u32(number)
}

// The number of digits, if it is that of a character or none much greater.
fn digits_value(radix: u32, digits: &[char]) -> Option<u32>
    requires least { 2 ≤ radix }
    requires most { radix ≤ 16 }
    ensures { result ≡ digits_value radix 0 digits.now }
{
    let mut rest = digits;
    let mut number = 0;
    'digits: while let [digit, more @ ..] = rest {
        let next = number * radix + digit.to_digit(radix)?;
        if next > 0x10_FFFF {
            return None;
        }
        number = next;
        rest = more;
    }
    Some(number)
}

// The character whose number these digits are.
fn number_in(radix: u32, digits: &[char]) -> Option<char>
    requires least { 2 ≤ radix }
    requires most { radix ≤ 16 }
    ensures { result ≡ number_in radix digits.now }
{
    match digits {
        [] => None,
        [_, ..] => character_of(digits_value(radix, digits)?),
    }
}

// The character that a reference has behind its `#`.
fn numbered(digits: &[char]) -> Option<char>
    ensures { result ≡ numbered digits.now }
{
    match digits {
        ['x', more @ ..] => number_in(16, more),
        _ => number_in(10, digits),
    }
}

// The entities of two letters.
fn two(a: char, b: char) -> Option<char>
    ensures { result ≡ two a b }
{
    match (a, b) {
        ('l', 't') => Some('<'),
        ('g', 't') => Some('>'),
        _ => None,
    }
}

// That of three.
fn three(a: char, b: char, c: char) -> Option<char>
    ensures { result ≡ three a b c }
{
    match (a, b, c) {
        ('a', 'm', 'p') => Some('&'),
        _ => None,
    }
}

// Those of four.
fn four(a: char, b: char, c: char, d: char) -> Option<char>
    ensures { result ≡ four a b c d }
{
    match (a, b, c, d) {
        ('q', 'u', 'o', 't') => Some('"'),
        ('a', 'p', 'o', 's') => Some('\''),
        _ => None,
    }
}

// The character of a predefined entity.
fn predefined(name: &[char]) -> Option<char>
    ensures { result ≡ predefined name.now }
{
    match name {
        [a, b] => two(*a, *b),
        [a, b, c] => three(*a, *b, *c),
        [a, b, c, d] => four(*a, *b, *c, *d),
        _ => None,
    }
}

// The character that a reference stands for, by what is between its `&` and its `;`.
#[tactic(auto, unfolding(crate::specs::Values::referenced))]
fn referenced(name: &[char]) -> Option<char>
    ensures { result ≡ referenced name.now }
{
    match name {
        ['#', digits @ ..] => numbered(digits),
        _ => predefined(name),
    }
}

// Whether a character is another than this.
fn is_other(stop: char, c: char) -> bool
    ensures { result ≡ is_other stop c }
{
    c != stop
}

// How many characters stand before the first of these, or in all of a text.
fn len_before(stop: char, text: &[char]) -> usize
    ensures is { result ≡ prefix_len (is_other stop) text.now }
    ensures within { result ≤ length text.now }
{
    let mut rest = text;
    let mut len = 0;
    'characters: while let [c, more @ ..] = rest {
        if !is_other(stop, *c) {
            return len;
        }
        rest = more;
        len += 1;
    }
    len
}

// What stands before the first of these characters, and behind it.
#[tactic(auto, unfolding(crate::specs::Values::split_at_first))]
fn split_at_first(stop: char, text: &[char]) -> Option<(&[char], &[char])>
    ensures { option_map (λ p. (p.0.now, p.1.now)) result ≡ split_at_first stop text.now }
{
    let (front, back) = text.split_at(len_before(stop, text));
    match back {
        [] => None,
        [_, rest @ ..] => Some((front, rest)),
    }
}

// The character of a reference, of which the text begins behind the `&`, and what follows it.
#[tactic(auto, unfolding(crate::specs::Values::reference_at))]
fn reference_at(text: &[char]) -> Option<(char, &[char])>
    ensures { option_map (λ p. (p.0, p.1.now)) result ≡ reference_at text.now }
{
    let (name, rest) = split_at_first(';', text)?;
    Some((referenced(name)?, rest))
}

// The first character of a value, and what follows it.
#[tactic(auto, unfolding(crate::specs::Values::character_at))]
fn character_at(text: &[char]) -> Result<(char, &[char]), Stop>
    ensures { Gives (λ x. (x.0, x.1.now)) result (character_at text.now) }
{
    match text {
        ['&', more @ ..] => { reference_at(more).ok_or(Stop::At(fault_at(Flaw::Reference, text))) }
        ['\t' | '\n', more @ ..] => Ok((' ', more)),
        [c, more @ ..] if *c != '<' && *c != '\r' => Ok((*c, more)),
        _ => Err(Stop::At(fault_at(Flaw::Value, text))),
    }
}

// The next character of a value that ends with this quote, and what follows it.
fn next_in(quote: char, text: &[char]) -> Result<Option<(char, &[char])>, Stop>
    ensures { Gives (option_map (λ x. (x.0, x.1.now))) result (next_in quote text.now) }
{
    match text {
        [] => Ok(None),
        [c, ..] if *c == quote => Ok(None),
        [_, ..] => Ok(Some(character_at(text)?)),
    }
}

// A value behind which its quote stands, if any does.
fn closed<A: Allocator>(value: String<A>, text: &[char]) -> Result<(String<A>, &[char]), Stop>
    ensures { Gives (λ x. (string_bytes x.0, x.1.now)) result (closed (string_bytes value, text.now)) }
{
    match text {
        [] => Err(Stop::At(fault_at(Flaw::Unfinished, text))),
        [_, rest @ ..] => Ok((value, rest)),
    }
}

// The value that ends with this quote, and what follows that.
#[tactic(auto, using(crate::proofs::Loops::value_done))]
fn quoted<A: Allocator>(alloc: A, quote: char, text: &[char]) -> Result<(String<A>, &[char]), Stop>
    ensures { Gives (λ x. (string_bytes x.0, x.1.now)) result (quoted quote text.now) }
{
    let mut value = String::new(alloc);
    let mut rest = text;
    'characters: while let Some((read, after)) = next_in(quote, rest)? {
        value.push(read)?;
        rest = after;
    }
    closed(value, rest)
}

/// The value that a text begins with, between quotes of either kind, and what follows it.
#[tactic(auto, unfolding(crate::specs::Values::value_at))]
pub fn value_at<A: Allocator>(alloc: A, text: &[char]) -> Result<(String<A>, &[char]), Stop>
    ensures { Gives (λ x. (string_bytes x.0, x.1.now)) result (value_at text.now) }
{
    match text {
        [quote, more @ ..] if *quote == '"' || *quote == '\'' => quoted(alloc, *quote, more),
        _ => Err(Stop::At(fault_at(Flaw::Tag, text))),
    }
}
