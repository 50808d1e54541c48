//! Choices by the type of an item and by a word: they come back equal, if the word chooses them.

use kmip_ttlv::laws::{Message, reread};
use sample_shapes::rereads::{comes_back, decoded};
use std::alloc::{AllocError, Global};
use ttlv_vectors::chosen::{Chosen, Named, Said};

// Messages, made of items by hand, and whether they come back, or aren't decoded.
const MESSAGES: [(&str, &str, bool); 5] = [
    (
        "a label: texts, and a number more",
        "540074010000004054007007000000054C6162656C00000054007107000000036F6E650000000000540072070000000374776F000000000054007302000000040000000300000000",
        true,
    ),
    (
        "a number: two numbers",
        "540074010000003054007007000000064E756D62657200005400710200000004FFFFFFFF0000000054007202000000040000000200000000",
        true,
    ),
    (
        "an address: a number, a text, and a text more",
        "54007401000000485400700700000007416464726573730054007102000000040000000000000000540072070000000D4D61696E20737472656574203100000054007307000000046D6F726500000000",
        true,
    ),
    (
        "a word that chooses nothing, where nothing is to be chosen",
        "54007401000000205400700700000005506C61636500000054007102000000040000000000000000",
        true,
    ),
    (
        "a word that chooses nothing, before what it has to choose",
        "54007401000000305400700700000005506C6163650000005400710200000004000000000000000054007202000000040000000200000000",
        false,
    ),
];

// Whether that is so of a message.
fn becomes(alloc: Global, digits: &str, wanted: bool) -> bool {
    comes_back::<Chosen>(alloc, digits) == wanted
        && decoded::<Chosen>(alloc, digits).is_some() == wanted
}

#[test]
fn choices_come_back(rt: HostRuntime) {
    for row in &MESSAGES {
        let (what, digits, wanted) = *row;
        let is_right = becomes(rt.alloc(), digits, wanted);
        assert!(rt; is_right, "{what}");
    }
}

// A message with this word and a number.
fn chosen(alloc: Global, word: &str) -> Result<Chosen, AllocError> {
    Ok(Chosen {
        word: String::from_str(alloc, word)?,
        said: Said::Line(String::new(alloc)),
        named: Some(Named::Count(3)),
        more: None,
    })
}

// Whether a message is sound and comes back equal, or neither.
fn is_judged<T: Message<Global>>(alloc: Global, message: &T, wanted: bool) -> bool {
    let is_back = matches!(&reread(alloc, message), Ok(other) if *message == *other);
    message.is_sound() == wanted && is_back == wanted
}

// Whether that is so of a message with this word and a number.
fn word_is_judged(alloc: Global, word: &str, wanted: bool) -> bool {
    match &chosen(alloc, word) {
        Ok(message) => is_judged(alloc, message, wanted),
        Err(_) => false,
    }
}

#[test]
fn the_word_chooses(rt: HostRuntime) {
    for (word, wanted) in [("Number", true), ("Label", false)] {
        let is_right = word_is_judged(rt.alloc(), word, wanted);
        assert!(rt; is_right, "{word}");
    }
}
