//! What values have in place of digits, in JSON with names: the standard's words, and numbers.

ghost use Rattle.std.specs.Prelude.{◌≡◌, ◌++◌, ◌^◌, true, None, codes, nat_le, unsigned_abs, OnOk, OnErr};
ghost use Rattle.kmip_ttlv_types.specs.declared.typ.TtlvType.TheVariants.{Integer as AnInteger, Enumeration as AnEnumeration, DateTime as ADate};
ghost use Rattle.kmip_ttlv_types.specs.Leaves.{is_valid};
ghost use Rattle.kmip_words.specs.Words.{is_word};
ghost use Rattle.kmip_ttlv_json.specs.Spellings.{spelled};
ghost use Rattle.kmip_ttlv_json.specs.Jsons.{exact_num, has_words, value_words, value_number};
ghost use Rattle.kmip_ttlv_json.specs.Parts.{worded_text};

use crate::masks::mask_text;
use crate::plain::{eight_bytes, four_bytes, push_plain};
use crate::quoted::push_quoted;
use itoa::Buffer;
use kmip_ttlv_types::{TtlvTag, TtlvType};
use kmip_ttlv_util::TextSink;
use kmip_words::{Words, date_text};
use std::alloc::Allocator;

// Adds a word and the end of its JSON string.
fn push_word_end<S: TextSink>(out: &mut S, word: &str) -> Result<(), S::Error>
    ensures ok { OnOk result (S.adds out.old (word.now ++ codes "\"") out.new) }
    ensures err { OnErr result (S.breaks out.old (word.now ++ codes "\"") out.new) }
{
    out.push_str(word)?;
    out.push_str("\"")
}

// Adds a word as a JSON string.
fn push_word<S: TextSink>(out: &mut S, word: &str) -> Result<(), S::Error>
    requires { is_word word.now ≡ true }
    ensures ok { OnOk result (S.adds out.old (spelled word.now) out.new) }
    ensures err { OnErr result (S.breaks out.old (spelled word.now) out.new) }
{
    out.push_str("\"")?;
    push_word_end(out, word)
}

// Whether JSON may have a number as one.
fn is_exact(number: i64) -> bool
    ensures { result ≡ nat_le (unsigned_abs number) (2 ^ 52) }
{
    number.unsigned_abs() <= 1 << 52
}

// Adds a number, or its digits where JSON may not have it as a number.
fn push_exact<S: TextSink>(
    out: &mut S,
    number: i64,
    typ: TtlvType,
    content: &[u8],
) -> Result<(), S::Error>
    requires { is_valid typ content.now ≡ true }
    ensures ok { OnOk result (S.adds out.old (worded_text None (exact_num number) typ content.now) out.new) }
    ensures err { OnErr result (S.breaks out.old (worded_text None (exact_num number) typ content.now) out.new) }
{
    if is_exact(number) {
        out.push_str(Buffer::new().format(number))
    } else {
        push_plain(out, typ, content)
    }
}

// Whether the numbers of a tag have words, as the bits of a mask have.
fn has_words<A: Allocator>(words: &Words<A>, tag: TtlvTag) -> bool
    ensures { result ≡ has_words tag }
{
    words.value_word(tag, 1).is_some()
}

// Adds an Integer without words: the number, or its digits if it is a mask.
fn push_wordless<S: TextSink, A: Allocator>(
    out: &mut S,
    words: &Words<A>,
    tag: TtlvTag,
    content: &[u8],
) -> Result<(), S::Error>
    requires { is_valid AnInteger content.now ≡ true }
    ensures ok { OnOk result (S.adds out.old (worded_text None (value_number tag AnInteger content.now) AnInteger content.now) out.new) }
    ensures err { OnErr result (S.breaks out.old (worded_text None (value_number tag AnInteger content.now) AnInteger content.now) out.new) }
{
    if has_words(words, tag) {
        return push_plain(out, TtlvType::Integer, content);
    }
    let number = four_bytes(content).cast_signed() as i64;
    push_exact(out, number, TtlvType::Integer, content)
}

// Adds an enumeration's value: its word, if it has one.
fn push_enumeration<S: TextSink, A: Allocator>(
    out: &mut S,
    words: &Words<A>,
    tag: TtlvTag,
    content: &[u8],
) -> Result<(), S::Error>
    requires { is_valid AnEnumeration content.now ≡ true }
    ensures ok { OnOk result (S.adds out.old (worded_text (value_words tag AnEnumeration content.now) None AnEnumeration content.now) out.new) }
    ensures err { OnErr result (S.breaks out.old (worded_text (value_words tag AnEnumeration content.now) None AnEnumeration content.now) out.new) }
{
    match words.value_word(tag, four_bytes(content)) {
        Some(word) => push_word(out, word),
        None => push_plain(out, TtlvType::Enumeration, content),
    }
}

// Adds an Integer: the words of its bits, if each has one, or what it is without words.
fn push_integer<S: TextSink, A: Allocator>(
    alloc: A,
    out: &mut S,
    words: &Words<A>,
    tag: TtlvTag,
    content: &[u8],
) -> Result<(), S::Error>
    requires { is_valid AnInteger content.now ≡ true }
    ensures ok { OnOk result (S.adds out.old (worded_text (value_words tag AnInteger content.now) (value_number tag AnInteger content.now) AnInteger content.now) out.new) }
    ensures err { OnErr result (S.breaks out.old (worded_text (value_words tag AnInteger content.now) (value_number tag AnInteger content.now) AnInteger content.now) out.new) }
{
    match mask_text(alloc, words, tag, '|', four_bytes(content))? {
        Some(text) => push_quoted(out, text.as_bytes()),
        None => push_wordless(out, words, tag, content),
    }
}

// Adds a Date-Time: the text of its date, if it has one.
fn push_date<S: TextSink>(out: &mut S, tag: TtlvTag, content: &[u8]) -> Result<(), S::Error>
    requires { is_valid ADate content.now ≡ true }
    ensures ok { OnOk result (S.adds out.old (worded_text (value_words tag ADate content.now) None ADate content.now) out.new) }
    ensures err { OnErr result (S.breaks out.old (worded_text (value_words tag ADate content.now) None ADate content.now) out.new) }
{
    match date_text(eight_bytes(content)) {
        Some(text) => push_quoted(out, &text),
        None => push_plain(out, TtlvType::DateTime, content),
    }
}

/// Adds the value of a leaf: by its words, or as a number, if it is one.
pub fn push_worded<S: TextSink, A: Allocator>(
    alloc: A,
    out: &mut S,
    words: &Words<A>,
    tag: TtlvTag,
    typ: TtlvType,
    content: &[u8],
) -> Result<(), S::Error>
    requires { is_valid typ content.now ≡ true }
    ensures ok { OnOk result (S.adds out.old (worded_text (value_words tag typ content.now) (value_number tag typ content.now) typ content.now) out.new) }
    ensures err { OnErr result (S.breaks out.old (worded_text (value_words tag typ content.now) (value_number tag typ content.now) typ content.now) out.new) }
{
    match typ {
        TtlvType::Enumeration => push_enumeration(out, words, tag, content),
        TtlvType::Integer => push_integer(alloc, out, words, tag, content),
        TtlvType::DateTime => push_date(out, tag, content),
        TtlvType::LongInteger => push_exact(out, eight_bytes(content).cast_signed(), typ, content),
        TtlvType::Interval => push_exact(out, four_bytes(content) as i64, typ, content),
        _ => push_plain(out, typ, content),
    }
}
