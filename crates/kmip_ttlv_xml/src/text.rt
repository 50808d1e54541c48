//! The XML of items.

ghost use Rattle.std.specs.Prelude.{◌≡◌, true};
ghost use Rattle.std.specs.List.{AllByRecursion};
ghost use Rattle.kmip_ttlv_types.specs.declared.typ.TtlvType.TheVariants.{Integer as AnInteger, Enumeration as AnEnumeration, DateTime as ADate};
ghost use Rattle.kmip_ttlv_types.specs.Leaves.{is_valid};
ghost use Rattle.kmip_ttlv_json.specs.Printings.{IsThere};

use crate::held::content_of;
use itoa::Buffer;
use kmip_ttlv_items::FoundItem;
use kmip_ttlv_json::values::{eight_bytes, four_bytes, mask_text};
use kmip_ttlv_types::{TtlvTag, TtlvType};
use kmip_ttlv_util::push_value;
use kmip_words::{Words, date_text};
use plain_xml::push_escaped;
use std::alloc::{AllocError, Allocator};
use std::str;

// The name of a type.
fn type_name(typ: TtlvType) -> &'static str {
    match typ {
        TtlvType::Structure => "Structure",
        TtlvType::Integer => "Integer",
        TtlvType::LongInteger => "LongInteger",
        TtlvType::BigInteger => "BigInteger",
        TtlvType::Enumeration => "Enumeration",
        TtlvType::Boolean => "Boolean",
        TtlvType::TextString => "TextString",
        TtlvType::ByteString => "ByteString",
        TtlvType::DateTime => "DateTime",
        TtlvType::Interval => "Interval",
    }
}

// Adds 0x and the digits of bytes.
fn push_0x<A: Allocator>(out: &mut String<A>, bytes: &[u8]) -> Result<(), AllocError> {
    out.push_str("0x")?;
    push_value(out, TtlvType::ByteString, bytes)
}

// Adds the name of a tag with what stands in front of it; of a tag without a name an attribute, if it is in a start tag.
fn push_name<A: Allocator>(
    out: &mut String<A>,
    words: &Words<A>,
    front: &str,
    tag: TtlvTag,
) -> Result<(), AllocError> {
    out.push_str(front)?;
    match words.tag_word(tag) {
        Some(word) => out.push_str(word),
        None => {
            out.push_str("TTLV")?;
            if front == "</" {
                return Ok(());
            }
            let bytes: [u8; 3] = tag.into();
            out.push_str(" tag=\"")?;
            push_0x(out, &bytes)?;
            out.push_str("\"")
        }
    }
}

// Adds an Integer: the words of a mask, or a decimal number.
fn push_integer<A: Allocator>(
    alloc: A,
    out: &mut String<A>,
    words: &Words<A>,
    tag: TtlvTag,
    content: &[u8],
) -> Result<(), AllocError>
    requires { is_valid AnInteger content.now ≡ true }
{
    let number = four_bytes(content);
    match mask_text(alloc, words, tag, ' ', number)? {
        Some(text) => out.push_str(text.as_str()),
        None => out.push_str(Buffer::new().format(number.cast_signed())),
    }
}

// Adds an Enumeration: its word, or digits.
fn push_enumeration<A: Allocator>(
    out: &mut String<A>,
    words: &Words<A>,
    tag: TtlvTag,
    content: &[u8],
) -> Result<(), AllocError>
    requires { is_valid AnEnumeration content.now ≡ true }
{
    match words.value_word(tag, four_bytes(content)) {
        Some(word) => out.push_str(word),
        None => push_0x(out, content),
    }
}

// Adds a Date-Time: a date, or digits.
fn push_date<A: Allocator>(out: &mut String<A>, content: &[u8]) -> Result<(), AllocError>
    requires { is_valid ADate content.now ≡ true }
{
    if let Some(text) = date_text(eight_bytes(content)) {
        if let Ok(date) = str::from_utf8(&text) {
            return out.push_str(date);
        }
    }
    push_0x(out, content)
}

// Adds the value of a leaf.
fn push_content<A: Allocator>(
    alloc: A,
    out: &mut String<A>,
    words: &Words<A>,
    tag: TtlvTag,
    typ: TtlvType,
    content: &[u8],
) -> Result<(), AllocError>
    requires { is_valid typ content.now ≡ true }
{
    match typ {
        TtlvType::Integer => push_integer(alloc, out, words, tag, content),
        TtlvType::LongInteger => {
            out.push_str(Buffer::new().format(eight_bytes(content).cast_signed()))
        }
        TtlvType::Enumeration => push_enumeration(out, words, tag, content),
        TtlvType::TextString => push_escaped(out, unsafe { str::from_utf8_unchecked(content) }),
        TtlvType::DateTime => push_date(out, content),
        TtlvType::Interval => out.push_str(Buffer::new().format(four_bytes(content))),
        TtlvType::Boolean | TtlvType::ByteString => push_value(out, typ, content),
        TtlvType::Structure | TtlvType::BigInteger => push_0x(out, content),
    }
}

// Adds the element of a leaf.
fn push_leaf<A: Allocator>(
    alloc: A,
    out: &mut String<A>,
    words: &Words<A>,
    item: &FoundItem,
    content: &[u8],
) -> Result<(), AllocError>
    requires { is_valid item.now.typ content.now ≡ true }
{
    push_name(out, words, "<", item.tag)?;
    out.push_str(" type=\"")?;
    out.push_str(type_name(item.typ))?;
    out.push_str("\" value=\"")?;
    push_content(alloc, out, words, item.tag, item.typ, content)?;
    out.push_str("\"/>")
}

// Ends elements until so many are open.
fn push_ends<A: Allocator>(
    out: &mut String<A>,
    words: &Words<A>,
    open: &mut Vec<TtlvTag, A>,
    depth: usize,
) -> Result<(), AllocError> {
    for _ in depth..open.len() {
        if let Some(tag) = open.pop() {
            push_name(out, words, "</", tag)?;
            out.push_str(">")?;
        }
    }
    Ok(())
}

// Adds the start tag of a structure, which is the end tag too where nothing is in it.
fn push_start<A: Allocator>(
    out: &mut String<A>,
    words: &Words<A>,
    open: &mut Vec<TtlvTag, A>,
    item: &FoundItem,
) -> Result<(), AllocError> {
    push_name(out, words, "<", item.tag)?;
    if item.length == 0 {
        return out.push_str("/>");
    }
    open.push(item.tag)?;
    out.push_str(">")
}

/// The XML of the items of a message. The only error is out of memory.
pub fn text_of<A: Allocator + Copy>(
    alloc: A,
    words: &Words<A>,
    items: &[FoundItem],
    message: &[u8],
) -> Result<String<A>, AllocError>
    requires { AllByRecursion (IsThere message.now) items.now }
{
    let mut out = String::new(alloc);
    let mut open = Vec::new(alloc);
    let mut rest = items;
    'items: while let [item, more @ ..] = rest {
        push_ends(&mut out, words, &mut open, item.depth)?;
        if item.typ == TtlvType::Structure {
            push_start(&mut out, words, &mut open, item)?;
        } else {
            let content = content_of(message, item);
            push_leaf(alloc, &mut out, words, item, content)?;
        }
        rest = more;
    }
    push_ends(&mut out, words, &mut open, 0)?;
    Ok(out)
}
