//! Each construct, each error with its offset, hostile texts, and memory that runs out.

use kmip_ttlv_memory::BoundedAllocator;
use plain_xml::{Element, Flaw, XmlError, read};
use std::alloc::{AllocError, Allocator, Global};
use std::test::*;

// The elements as a text of its own: depth, name and attributes of each.
fn shown<A: Allocator + Copy>(alloc: A, text: &str) -> Result<String<A>, XmlError> {
    let elements = read(alloc, text)?;
    let mut out = String::new(alloc);
    for element in &elements {
        let done = push_shown(&mut out, element);
        if done.is_err() {
            return Err(XmlError::OutOfMemory);
        }
    }
    Ok(out)
}

fn push_shown<A: Allocator>(out: &mut String<A>, element: &Element<A>) -> Result<(), AllocError> {
    for _ in 0..element.depth {
        out.push('.')?;
    }
    out.push_str(element.name.as_str())?;
    for attribute in &element.attributes {
        out.push('[')?;
        out.push_str(attribute.name.as_str())?;
        out.push('=')?;
        out.push_str(attribute.value.as_str())?;
        out.push(']')?;
    }
    out.push(';')
}

// Whether a text has these elements.
fn is_shown(alloc: Global, text: &str, wanted: &str) -> bool {
    match shown(alloc, text) {
        Ok(found) => found.as_str() == wanted,
        Err(_other) => false,
    }
}

const SHOWN: [(&str, &str); 11] = [
    ("<a/>", "a;"),
    ("<a></a>", "a;"),
    ("<a ></a >\n", "a;"),
    ("<a><b/><c><d/></c></a>", "a;.b;.c;..d;"),
    (" \t\r\n<a>\r\n<b/>\r\n</a>\r\n", "a;.b;"),
    (
        "<?xml version=\"1.0\"?><!-- - --><a><!----><?p ?q?></a><!--x-->",
        "a;",
    ),
    (
        "<a b=\"1\" c = '2'\n_:d-.9 =\"\"/>",
        "a[b=1][c=2][_:d-.9=];",
    ),
    (
        "<a b=\"it's &lt;&gt;&amp;&quot;&apos;\" c='\">'/>",
        "a[b=it's <>&\"'][c=\">];",
    ),
    (
        "<a b=\"&#65;&#x4a;&#x10FFFF;&#000066;&#9;&#13;\"/>",
        "a[b=AJ\u{10FFFF}B\t\r];",
    ),
    ("<a b=\"x\ty\nz\"/>", "a[b=x y z];"),
    (
        "<a b=\"\u{E4}\u{20AC}\u{1F511}\"/>",
        "a[b=\u{E4}\u{20AC}\u{1F511}];",
    ),
];

#[test]
fn each_construct(rt: HostRuntime) -> Result<(), Fail> {
    for (text, wanted) in &SHOWN {
        assert!(rt; is_shown(rt.alloc(), text, wanted), "{text}");
    }
    Ok(())
}

// Whether a text has this flaw.
fn is_refused(alloc: Global, text: &str, flaw: Flaw, offset: usize) -> bool {
    match read(alloc, text) {
        Ok(_elements) => false,
        Err(error) => error == XmlError::Malformed { flaw, offset },
    }
}

const TAGS: [(&str, Flaw, usize); 20] = [
    ("", Flaw::Unfinished, 0),
    (" ", Flaw::Unfinished, 1),
    ("<", Flaw::Unfinished, 1),
    ("<a", Flaw::Unfinished, 2),
    ("<a>", Flaw::Unfinished, 3),
    ("<a b=\"1", Flaw::Unfinished, 7),
    ("< a/>", Flaw::Tag, 1),
    ("<1/>", Flaw::Tag, 1),
    ("<a/ >", Flaw::Tag, 2),
    ("<a b/>", Flaw::Tag, 4),
    ("<a b=1/>", Flaw::Tag, 5),
    ("<a b=\"1\"c=\"2\"/>", Flaw::Tag, 8),
    ("<a></a b>", Flaw::Tag, 7),
    ("<a b=\"\" b=''/>", Flaw::Repeated, 8),
    ("<a></b>", Flaw::EndTag, 3),
    ("<a></A>", Flaw::EndTag, 3),
    ("</a>", Flaw::EndTag, 0),
    ("<a><b></a></b>", Flaw::EndTag, 6),
    ("<a/></a>", Flaw::EndTag, 4),
    ("<a/><b/>", Flaw::SecondRoot, 4),
];

#[test]
fn tags_that_are_none(rt: HostRuntime) -> Result<(), Fail> {
    for (text, flaw, offset) in &TAGS {
        assert!(rt; is_refused(rt.alloc(), text, *flaw, *offset), "{text}");
    }
    Ok(())
}

const OTHERS: [(&str, Flaw, usize); 25] = [
    ("x<a/>", Flaw::Text, 0),
    ("<a>x</a>", Flaw::Text, 3),
    ("<a>&#32;</a>", Flaw::Text, 3),
    ("<!DOCTYPE a><a/>", Flaw::Declaration, 2),
    ("<a><![CDATA[]]></a>", Flaw::Declaration, 5),
    ("<!- --><a/>", Flaw::Declaration, 2),
    ("<!-- -- --><a/>", Flaw::Comment, 7),
    ("<!-- --->", Flaw::Comment, 7),
    ("<!-- --", Flaw::Unfinished, 7),
    ("<?p", Flaw::Unfinished, 3),
    ("<a b=\"<\"/>", Flaw::Value, 6),
    ("<a b=\"\r\"/>", Flaw::Value, 6),
    ("<a b=\"&\"/>", Flaw::Reference, 6),
    ("<a b=\"&nbsp;\"/>", Flaw::Reference, 6),
    ("<a b=\"&#;\"/>", Flaw::Reference, 6),
    ("<a b=\"&#x;\"/>", Flaw::Reference, 6),
    ("<a b=\"&#X41;\"/>", Flaw::Reference, 6),
    ("<a b=\"&#0;\"/>", Flaw::Reference, 6),
    ("<a b=\"&#xD800;\"/>", Flaw::Reference, 6),
    ("<a b=\"&#xFFFE;\"/>", Flaw::Reference, 6),
    ("<a b=\"&#x110000;\"/>", Flaw::Reference, 6),
    ("<a b=\"&#4294967361;\"/>", Flaw::Reference, 6),
    ("<a b=\"\u{E4}&x;\"/>", Flaw::Reference, 8),
    ("<a b=\"\u{1}\"/>", Flaw::Character, 6),
    ("<\u{1F511}\u{FFFF}", Flaw::Character, 5),
];

#[test]
fn what_else_is_none(rt: HostRuntime) -> Result<(), Fail> {
    for (text, flaw, offset) in &OTHERS {
        assert!(rt; is_refused(rt.alloc(), text, *flaw, *offset), "{text}");
    }
    Ok(())
}

// A text of so many pieces, and as many of another behind.
fn around(alloc: Global, open: &str, close: &str, count: usize) -> Result<String, AllocError> {
    let mut text = String::new(alloc);
    for _ in 0..count {
        text.push_str(open)?;
    }
    for _ in 0..count {
        text.push_str(close)?;
    }
    Ok(text)
}

// Whether a text of 3,000 elements, each in the one before it, is read.
fn nests(alloc: Global) -> Option<bool> {
    let text = around(alloc, "<a>", "</a>", 3_000).ok()?;
    let elements = read(alloc, text.as_str()).ok()?;
    let last = elements.last()?;
    Some(elements.len() == 3_000 && last.depth == 2_999)
}

// Whether one whose end tags are missing is not.
fn ends_early(alloc: Global) -> Option<bool> {
    let text = around(alloc, "<a>", "", 3_000).ok()?;
    Some(is_refused(alloc, text.as_str(), Flaw::Unfinished, 9_000))
}

#[test]
fn nested_deep(rt: HostRuntime) -> Result<(), Fail> {
    assert!(rt; matches!(nests(rt.alloc()), Some(true)));
    assert!(rt; matches!(ends_early(rt.alloc()), Some(true)));
    Ok(())
}

// A start tag with so many attributes, each of seven bytes.
fn with_attributes(alloc: Global, count: u8) -> Result<String, AllocError> {
    let mut text = String::new(alloc);
    text.push_str("<a")?;
    for i in 0..count {
        text.push_str(" b")?;
        text.push((b'0' + i / 10 % 10) as char)?;
        text.push((b'0' + i % 10) as char)?;
        text.push_str("=''")?;
    }
    text.push_str("/>")?;
    Ok(text)
}

// Whether there may be 64 attributes, and no more.
fn counts_attributes(alloc: Global) -> Option<bool> {
    let most = with_attributes(alloc, 64).ok()?;
    let elements = read(alloc, most.as_str()).ok()?;
    let more = with_attributes(alloc, 65).ok()?;
    let is_refused = is_refused(alloc, more.as_str(), Flaw::TooMany, 2 + 64 * 7 + 1);
    Some(is_refused && elements.first()?.attributes.len() == 64)
}

#[test]
fn many_attributes(rt: HostRuntime) -> Result<(), Fail> {
    assert!(rt; matches!(counts_attributes(rt.alloc()), Some(true)));
    Ok(())
}

const WHOLE: &str = "<a b=\"1\"><c d='2' e='3'/></a>";

// Whether reading runs out of memory, where so many allocations succeed before one fails, and returns the elements if not: room
// that is asked for ahead may fail, and is asked for again. None if it does neither.
fn runs_out(alloc: Global, before: u64) -> Option<bool> {
    let memory = BoundedAllocator::failing_after(alloc, before);
    let read = read(&memory, WHOLE);
    match read {
        Ok(elements) => (elements.len() == 2).then_some(false),
        Err(error) => (error == XmlError::OutOfMemory).then_some(true),
    }
}

#[test]
fn each_allocation_fails_in_turn(rt: HostRuntime) -> Result<(), Fail> {
    for before in 0..16u64 {
        assert!(rt; runs_out(rt.alloc(), before).is_some(), "at {before}");
    }
    assert!(rt; matches!(runs_out(rt.alloc(), 100), Some(false)));
    Ok(())
}
