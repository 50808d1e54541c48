//! A program that tests the words of `kmip_words` against a script that normalizes the standard's names, and writes dates, by itself
//! (`worked.py`). Standard input has a line for each test: what is tried, a number, and a text. A line that fails is printed, and last their count.
//!
//! - `tag TAG WORD`, `value TAG:VALUE WORD` and `date SECONDS TEXT`: each is written as the other, and read as it;
//! - `mask TAG:MASK WORDS` and `read SECONDS TEXT`: the text is read as the number;
//! - `other TAG: WORD` and `none 0 TEXT`: the word stands for no value, the text for no date;
//! - `unwritten SECONDS -`: no date is written.
#![tactic(auto)]

use kmip_ttlv_types::{TtlvTag, number};
use kmip_words::{Words, date_of, date_text, standard_words};
use std::alloc::Global;
use std::{io, str};

fn is_tag(words: &Words<Global>, tag: &str, word: &str) -> bool {
    match TtlvTag::from_name(tag) {
        Some(tag) => words.tag_word(tag) == Some(word) && words.tag_of(word) == Some(tag),
        None => false,
    }
}

// Whether a value of a tag is that of a word, both ways, or whether a mask is that of words, or no value is that of a word.
fn is_value(words: &Words<Global>, what: &str, place: &str, word: &str) -> bool {
    let Some((tag, value)) = place.split_once(':') else {
        return false;
    };
    let Some(tag) = TtlvTag::from_name(tag) else {
        return false;
    };
    let Some(value) = number(value) else {
        return what == "other" && words.value_of(tag, word).is_none();
    };
    if what == "mask" {
        return words.mask_of(tag, '|', word) == Some(value);
    }
    words.value_word(tag, value) == Some(word) && words.value_of(tag, word) == Some(value)
}

fn is_written(seconds: u64, text: &str) -> bool {
    match date_text(seconds) {
        Some(written) => written.as_slice() == text.as_bytes(),
        None => false,
    }
}

fn is_date(what: &str, seconds: &str, text: &str) -> bool {
    let Ok(seconds) = seconds.parse::<u64>() else {
        return false;
    };
    match what {
        "date" => is_written(seconds, text) && date_of(text) == Some(seconds),
        "read" => date_of(text) == Some(seconds),
        "none" => date_of(text).is_none(),
        "unwritten" => date_text(seconds).is_none(),
        _ => false,
    }
}

fn holds(words: &Words<Global>, line: &str) -> bool {
    let Some((what, rest)) = line.split_once(' ') else {
        return false;
    };
    let Some((place, text)) = rest.split_once(' ') else {
        return false;
    };
    match what {
        "tag" => is_tag(words, place, text),
        "value" | "mask" | "other" => is_value(words, what, place, text),
        _ => is_date(what, place, text),
    }
}

fn main(rt: HostRuntime) -> io::Result<()> {
    let Ok(words) = standard_words(rt.alloc()) else {
        return println!(rt; "out of memory");
    };
    let (mut good, mut bad) = (0u64, 0u64);
    for line in rt.lines(rt.alloc()) {
        let line = line?;
        if holds(&words, line.as_str()) {
            good = good.saturating_add(1);
        } else {
            println!(rt; "otherwise: {line}")?;
            bad = bad.saturating_add(1);
        }
    }
    println!(rt; "{good} hold, {bad} do not")
}
