//! A page of HTML with lines of items: each structure folds with what is in it.

ghost use Rattle.std.specs.Prelude.{◌≡◌, ◌≢◌, ◌<◌, ◌≤◌, ◌-◌, ◌++◌, ◌∷◌, [], ℕ, length, slice_index, IfOk, OnOk};
ghost use Rattle.std.specs.List.{before_first, after_first};
ghost use Rattle.kmip_ttlv_names.specs.NameTables.{is_line_feed, lines_of};
ghost use Rattle.ttlv_run.specs.Pages.{text_of, spaces, indent, first_indent, row_of, page_byte, page_text, row_begins, row_ends, closings, around, with_own, row_in, open_after, head, foot, page};

use memchr::{memchr, memrchr};
use std::alloc::{AllocError, Allocator};

/// What a page begins with: how it looks, and that it may load and run nothing. The text of an item stands behind its offset and its
/// length, and in front of its bytes; what doesn't fit there goes on in the next line. Where a line is its text alone it has all the room.
const HEAD: &str = "\
<!DOCTYPE html>
<html lang=\"en\">
<head>
<meta charset=\"utf-8\">
<meta http-equiv=\"Content-Security-Policy\" content=\"default-src 'none'; style-src 'unsafe-inline'\">
<title>TTLV messages</title>
<style>
:root { color-scheme: light dark; }
body { margin: 1em 2em; font: 13px/1.5 monospace; }
h2 { margin: 1.5em 0 0.5em; font-size: 1em; }
div, summary { display: grid; grid-template-columns: 8ch 7ch minmax(0, 2fr) minmax(16ch, 1fr); column-gap: 2ch; position: relative; }
span { white-space: pre-wrap; overflow-wrap: anywhere; }
span:not(:last-child) { opacity: 0.6; text-align: right; }
span:nth-child(3):not(:last-child) { order: 1; text-align: left; }
div > span:last-child, summary > span:last-child { padding-left: 10ch; text-indent: -10ch; }
span:only-child { grid-column: 1 / -1; }
summary { cursor: pointer; }
summary::before { content: \"\\25B8\"; position: absolute; left: -1.5ch; opacity: 0.6; }
details[open] > summary::before { content: \"\\25BE\"; }
div:hover, summary:hover { background: rgb(128 128 128 / 0.15); }
</style>
</head>
<body>
";

/// What it ends with.
const FOOT: &str = "</body>\n</html>\n";

/// What stands in a page for a line.
#[derive(Clone, Copy, Debug, PartialEq, Eq)]
pub enum Row {
    /// Nothing, for an empty one.
    Blank,
    /// A heading.
    Heading,
    /// A structure that folds.
    Structure,
    /// Any other item.
    Leaf,
}

// The first line of a text, and the others.
fn cut(text: &[u8]) -> (&[u8], &[u8])
    ensures line { result.0.now ≡ before_first is_line_feed text.now }
    ensures others { result.1.now ≡ after_first is_line_feed text.now }
    ensures fewer { 0 < length text.now → length result.1.now < length text.now }
{
    match memchr(b'\n', text) {
        Some(at) => (&text[..at], &text[at + 1..]),
        None => (text, &[]),
    }
}

// The text of a line, behind its columns.
fn text_of(line: &[u8]) -> &[u8]
    ensures { result.now ≡ text_of line.now }
{
    match memrchr(b'\t', line) {
        Some(at) => &line[at + 1..],
        None => line,
    }
}

// How many spaces a text begins with.
fn spaces(text: &[u8]) -> usize
    ensures { result ≡ spaces text.now }
{
    let mut count = 0;
    'spaces: while count < text.len() && text[count] == b' ' {
        count += 1;
    }
    count
}

// How far an item is indented.
fn indent(line: &[u8]) -> usize
    ensures { result ≡ indent line.now }
{
    spaces(text_of(line))
}

// How far the first line of a text is indented.
fn first_indent(text: &[u8]) -> usize
    ensures { result ≡ first_indent (lines_of text.now) }
{
    let (line, _) = cut(text);
    indent(line)
}

// What stands in a page for a line, of which the next one is indented so far.
fn row_of(line: &[u8], next: usize) -> Row
    ensures { result ≡ row_of line.now next }
{
    if line.is_empty() {
        Row::Blank
    } else if line.starts_with(b"At ") {
        Row::Heading
    } else if line.ends_with(b", Data:") && indent(line) < next {
        Row::Structure
    } else {
        Row::Leaf
    }
}

// The marks in front of a line.
fn row_begins(row: Row) -> &'static str
    ensures { result.now ≡ row_begins row }
{
    match row {
        Row::Blank => "",
        Row::Heading => "<h2><span>",
        Row::Structure => "<details open><summary><span>",
        Row::Leaf => "<div><span>",
    }
}

// The marks behind a line.
fn row_ends(row: Row) -> &'static str
    ensures { result.now ≡ row_ends row }
{
    match row {
        Row::Blank => "",
        Row::Heading => "</span></h2>\n",
        Row::Structure => "</span></summary>\n",
        Row::Leaf => "</span></div>\n",
    }
}

// Adds a byte of a line.
fn push_byte<A: Allocator>(page: &mut Vec<u8, A>, b: u8) -> Result<(), AllocError>
    ensures { OnOk result (page.new.items ≡ page.old.items ++ page_byte b) }
{
    match b {
        b'\t' => page.extend_from_slice(b"</span><span>"),
        b'&' => page.extend_from_slice(b"&amp;"),
        b'<' => page.extend_from_slice(b"&lt;"),
        b'>' => page.extend_from_slice(b"&gt;"),
        b'"' => page.extend_from_slice(b"&quot;"),
        _ => page.extend_from_slice(&[b]),
    }
}

// Adds a text.
fn push_text<A: Allocator>(page: &mut Vec<u8, A>, text: &[u8]) -> Result<(), AllocError>
    ensures { OnOk result (page.new.items ≡ page.old.items ++ page_text text.now) }
{
    for b in text {
        push_byte(page, *b)?;
    }
    Ok(())
}

// Adds the ends of so many structures.
fn push_closings<A: Allocator>(page: &mut Vec<u8, A>, count: usize) -> Result<(), AllocError>
    ensures { OnOk result (page.new.items ≡ page.old.items ++ closings count) }
{
    for _ in 0..count {
        page.extend_from_slice(b"</details>\n")?;
    }
    Ok(())
}

// Adds a line, in its marks.
fn push_line<A: Allocator>(page: &mut Vec<u8, A>, row: Row, line: &[u8]) -> Result<(), AllocError>
    ensures { OnOk result (page.new.items ≡ page.old.items ++ (row_begins row ++ (page_text line.now ++ row_ends row))) }
{
    page.extend_from_slice(row_begins(row).as_bytes())?;
    push_text(page, line)?;
    page.extend_from_slice(row_ends(row).as_bytes())
}

// Keeps those of some structures that an item is in.
fn keep_around<A: Allocator>(outer: &mut Vec<usize, A>, far: usize)
    ensures kept { outer.new.items ≡ around far outer.old.items }
    ensures fewer { length outer.new.items ≤ length outer.old.items }
{
    outer.retain(|other| *other < far);
}

// Adds a structure to others.
fn push_own<A: Allocator>(outer: &mut Vec<usize, A>, row: Row, far: usize) -> Result<(), AllocError>
    ensures { OnOk result (outer.new.items ≡ with_own row far outer.old.items) }
{
    match row {
        Row::Structure => Ok(outer.push(far)?),
        _ => Ok(()),
    }
}

// Adds a line, and the ends of the structures that it isn't in.
fn push_row<A: Allocator>(
    page: &mut Vec<u8, A>,
    outer: &mut Vec<usize, A>,
    line: &[u8],
    next: usize,
) -> Result<(), AllocError>
    ensures row { OnOk result (page.new.items ≡ page.old.items ++ row_in outer.old.items line.now next) }
    ensures outer { OnOk result (outer.new.items ≡ open_after outer.old.items line.now next) }
{
    let far = indent(line);
    let row = row_of(line, next);
    let count = outer.len();
    keep_around(outer, far);
    push_closings(page, count - outer.len())?;
    push_line(page, row, line)?;
    push_own(outer, row, far)?;
    Ok(())
}

// What a page begins with.
#[tactic(auto, unfolding(crate::specs::Pages::head))]
fn head<A: Allocator>(alloc: A) -> Result<Vec<u8, A>, AllocError>
    ensures { IfOk result (λ page. page.items ≡ head) }
{
    Vec::from_slice(alloc, HEAD.as_bytes())
}

// Adds what a page ends with.
#[tactic(auto, unfolding(crate::specs::Pages::foot))]
fn push_foot<A: Allocator>(page: &mut Vec<u8, A>) -> Result<(), AllocError>
    ensures { OnOk result (page.new.items ≡ page.old.items ++ foot) }
{
    page.extend_from_slice(FOOT.as_bytes())
}

/// A page with the lines of a text.
///
/// It fails only if memory runs out.
pub fn page_of<A: Allocator + Copy>(alloc: A, text: &[u8]) -> Result<Vec<u8, A>, AllocError>
    ensures { IfOk result (λ page_made. page_made.items ≡ page text.now) }
{
    let mut page = head(alloc)?;
    let mut outer = Vec::new(alloc);
    let mut rest = text;
    'lines: while !rest.is_empty() {
        let (line, more) = cut(rest);
        push_row(&mut page, &mut outer, line, first_indent(more))?;
        rest = more;
    }
    push_closings(&mut page, outer.len())?;
    push_foot(&mut page)?;
    Ok(page)
}
