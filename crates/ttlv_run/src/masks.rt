//! The names of values, and of a mask's bits.

ghost use Rattle.std.specs.Prelude.{◌≡◌, ◌<◌, ◌^◌, ℕ, true, Some, None, OnOk, OnErr, option_map};
ghost use Rattle.std.specs.List.{before_first, after_first};
ghost use Rattle.kmip_ttlv_names.specs.OwnNames.{value_key};
ghost use Rattle.kmip_ttlv_names.specs.ValueNames.{is_semicolon};
ghost use Rattle.kmip_ttlv_util.specs.TagNames.{name_in};
ghost use Rattle.ttlv_run.specs.Masks.{value_in, value_named, mark, behind_mark, still_first, set_name, mask_names, BeginsFor, IsEntry, IsNext, NamesAbove};

use crate::job::Names;
use kmip_ttlv_names::{value_key, value_name};
use kmip_ttlv_types::{TtlvTag, number};
use kmip_ttlv_util::TextSink;
use memchr::memchr;
use std::alloc::Allocator;

// The user's own name of a tag's value.
fn own_name<'n, A: Allocator>(names: &Names<'n, A>, tag: TtlvTag, value: u32) -> Option<&'n str>
    ensures { option_map (λ s. s.now) result ≡ name_in names.now.own (value_key tag value) }
{
    if names.own.is_empty() {
        return None;
    }
    names.own.get(&value_key(tag, value)).copied()
}

// The name of a value in a list, where there is one.
fn listed_name(list: Option<&str>, value: u32) -> Option<&str>
    ensures { option_map (λ s. s.now) result ≡ value_in (option_map (λ s. s.now) list.entry) value }
{
    match list {
        Some(list) => value_name(list, value),
        None => None,
    }
}

/// The name of a tag's value: the user's, or else that in a list.
pub fn value_named<'n, A: Allocator>(
    names: &Names<'n, A>,
    list: Option<&'n str>,
    tag: TtlvTag,
    value: u32,
) -> Option<&'n str>
    ensures { option_map (λ s. s.now) result ≡ value_named (name_in names.now.own)
        (option_map (λ s. s.now) list.entry) tag value }
{
    match own_name(names, tag, value) {
        Some(name) => Some(name),
        None => listed_name(list, value),
    }
}

// An entry of a list of names, where those of a value and of greater ones are wanted.
#[derive(Clone, Copy)]
pub(crate) enum Entry<'l> {
    /// It is for none of them.
    Passed,
    /// It is for the value: its name.
    Named(&'l str),
    /// It is for a greater one.
    Later,
}

// What an entry is, where the names of this value and of greater ones are wanted.
fn entry_for(entry: &str, value: u32) -> Entry<'_>
    ensures { IsEntry value entry.now result }
{
    let Some((digits, name)) = entry.split_once('=') else {
        return Entry::Passed;
    };
    let Some(n) = number(digits) else {
        return Entry::Passed;
    };
    if n < value {
        Entry::Passed
    } else if n == value {
        Entry::Named(name)
    } else {
        Entry::Later
    }
}

// How an entry of a list begins that is for each bit, from the lowest on: with its number and an equals sign.
const FRONTS: [&str; 32] = [
    "1=",
    "2=",
    "4=",
    "8=",
    "10=",
    "20=",
    "40=",
    "80=",
    "100=",
    "200=",
    "400=",
    "800=",
    "1000=",
    "2000=",
    "4000=",
    "8000=",
    "10000=",
    "20000=",
    "40000=",
    "80000=",
    "100000=",
    "200000=",
    "400000=",
    "800000=",
    "1000000=",
    "2000000=",
    "4000000=",
    "8000000=",
    "10000000=",
    "20000000=",
    "40000000=",
    "80000000=",
];

// How an entry of a list begins that is for the bit so many places from the lowest.
fn front_of(place: usize) -> &'static str
    requires { place < 32 }
    ensures { BeginsFor (2 ^ place) result.now }
{
    FRONTS[place]
}

// The first entry of a list, and the others.
fn cut(list: &str) -> (&str, &str)
    ensures entry { result.0.now ≡ before_first is_semicolon list.now }
    ensures others { result.1.now ≡ after_first is_semicolon list.now }
{
    match memchr(b';', list.as_bytes()) {
        Some(place) => (&list[..place], &list[place + 1..]),
        None => (list, ""),
    }
}

// The name of a value in a list, and what is left of the list for greater ones. Lists are in the order of their values, so each
// entry is passed once; another order costs time alone.
fn next_name(list: &str, value: u32) -> (Option<&str>, &str)
    ensures { IsNext value list.now (option_map (λ s. s.now) result.0) result.1.now }
{
    let mut rest = list;
    'entries: while !rest.is_empty() {
        let (entry, others) = cut(rest);
        match entry_for(entry, value) {
            Entry::Passed => rest = others,
            Entry::Named(name) => return (Some(name), others),
            Entry::Later => return (value_name(rest, value), rest),
        }
    }
    (None, "")
}

// The name of a bit in a list, and what is left of the list for greater ones. The bit's entry is the first as a rule.
fn bit_name<'l>(list: &'l str, bit: u32, front: &str) -> (Option<&'l str>, &'l str)
    requires { BeginsFor bit front.now }
    ensures { IsNext bit list.now (option_map (λ s. s.now) result.0) result.1.now }
{
    match list.strip_prefix(front) {
        Some(named) => {
            let (name, others) = cut(named);
            (Some(name), others)
        }
        None => next_name(list, bit),
    }
}

// The name of a bit of a mask, if it is set and has one, and what is left of the list for greater bits.
fn set_name<'n, A: Allocator>(
    names: &Names<'n, A>,
    list: &'n str,
    tag: TtlvTag,
    place: usize,
    is_set: bool,
) -> (Option<&'n str>, &'n str)
    requires { place < 32 }
    ensures name { option_map (λ s. s.now) result.0 ≡ set_name (value_named (name_in names.now.own)
        (Some list.now) tag) (2 ^ place) is_set }
    ensures rest { NamesAbove (2 ^ place) list.now result.1.now }
{
    if !is_set {
        return (None, list);
    }
    let bit = 1 << place;
    let (listed, rest) = bit_name(list, bit, front_of(place));
    match own_name(names, tag, bit) {
        Some(name) => (Some(name), rest),
        None => (listed, rest),
    }
}

// What stands in front of a name: a space, or a bar where it isn't the first.
fn mark(is_first: bool) -> &'static str
    ensures { result.now ≡ mark is_first }
{
    if is_first { " " } else { " | " }
}

// Adds the name of a bit that is set, if it has one, behind a space or, if it isn't the first, behind a bar.
fn push_bit<S: TextSink>(out: &mut S, is_first: bool, name: Option<&str>) -> Result<(), S::Error>
    ensures ok { OnOk result (S.adds out.old (behind_mark is_first (option_map (λ s. s.now) name.entry)) out.new) }
    ensures err { OnErr result (S.breaks out.old (behind_mark is_first (option_map (λ s. s.now) name.entry)) out.new) }
{
    match name {
        Some(name) => {
            out.push_str(mark(is_first))?;
            out.push_str(name)
        }
        None => Ok(()),
    }
}

// Whether the next name is the first, where one more was due.
fn still_first(is_first: bool, name: Option<&str>) -> bool
    ensures { result ≡ still_first is_first (option_map (λ s. s.now) name.entry) }
{
    match name {
        Some(_) => false,
        None => is_first,
    }
}

// Whether no value has a name: a list is empty, and the user names none.
fn is_unnamed<A: Allocator>(names: &Names<'_, A>, list: &str) -> bool
    ensures { result ≡ true → (tag value : ℕ) → value_named (name_in names.now.own) (Some list.now) tag value ≡ None }
{
    list.is_empty() && names.own.is_empty()
}

/// Adds the names of the bits of a mask that are set, from the lowest on: the user's, or else those in a list.
///
/// It fails where the sink fails.
pub fn push_mask<'n, S: TextSink, A: Allocator>(
    out: &mut S,
    names: &Names<'n, A>,
    list: Option<&'n str>,
    tag: TtlvTag,
    mask: u32,
) -> Result<(), S::Error>
    ensures ok { OnOk result (S.adds out.old (mask_names (value_named (name_in names.now.own)
        (option_map (λ s. s.now) list.entry) tag) mask) out.new) }
    ensures err { OnErr result (S.breaks out.old (mask_names (value_named (name_in names.now.own)
        (option_map (λ s. s.now) list.entry) tag) mask) out.new) }
{
    let mut entries = list.unwrap_or("");
    let mut rest = mask;
    let mut place = 0;
    let mut is_first = true;
    'bits: while rest > 0 && !is_unnamed(names, entries) {
        let (name, others) = set_name(names, entries, tag, place, rest % 2 == 1);
        push_bit(out, is_first, name)?;
        is_first = still_first(is_first, name);
        entries = others;
        rest /= 2;
        place += 1;
    }
    Ok(())
}
