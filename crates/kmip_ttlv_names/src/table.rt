//! Tables of names.

ghost use Rattle.std.specs.Prelude.{◌≡◌, IfOk, IfErr, OnOk, OnErr};
ghost use Rattle.kmip_ttlv_util.specs.TagNames.{name_in};
ghost use Rattle.kmip_ttlv_names.specs.NameTables.{line_of, Means, names_of, bad_line, IsUnread, AddsLine, tag_if, tag_named};

use crate::standard::STANDARD_TAGS;
use kmip_ttlv_types::TtlvTag;
use kmip_ttlv_util::LentTagMap;
use std::alloc::{AllocError, Allocator};
use std::collections::HashMap;

/// Why a table can't be parsed.
#[derive(Clone, Copy, Debug, PartialEq, Eq)]
pub enum TableError {
    /// The line with this number, from 1, is neither empty nor a comment nor a tag with a name.
    BadLine(usize),
    /// An allocation failed: memory for the names ran out.
    OutOfMemory,
}

/// What a line of a table means.
#[derive(Clone, Copy)]
pub(crate) enum Line<'t> {
    /// Nothing: it is empty, or a comment.
    Blank,
    /// The name of a tag.
    Name(TtlvTag, &'t str),
    /// It can't be parsed.
    Bad,
}

/// Parses a line: it is blank if it is empty or begins with `#`; otherwise its first word is a tag, and the
/// rest the tag's name. White space at its end is dropped.
pub(crate) fn read_line(line: &str) -> Line<'_>
    ensures { Means (line_of line.now) result }
{
    let line = line.trim_end();
    if line.is_empty() {
        return Line::Blank;
    }
    if line.as_bytes()[0] == b'#' {
        return Line::Blank;
    }
    let Some((digits, name)) = line.split_once(' ') else {
        return Line::Bad;
    };
    match TtlvTag::from_name(digits) {
        Some(tag) => Line::Name(tag, name),
        None => Line::Bad,
    }
}

/// Adds what a line means, and returns whether it could be parsed.
pub(crate) fn add_line<'t, A: Allocator + Copy>(
    names: &mut LentTagMap<'t, A>,
    line: &'t str,
) -> Result<bool, AllocError>
    ensures { IfOk result (λ good. AddsLine (name_in names.old) line.now good (name_in names.new)) }
{
    match read_line(line) {
        Line::Blank => Ok(true),
        Line::Name(tag, name) => match names.insert(tag, name) {
            Ok(_) => Ok(true),
            Err(_) => Err(AllocError),
        },
        Line::Bad => Ok(false),
    }
}

/// Parses a table of tag names: a line for each tag, with its hexadecimal digits, a space and its
/// name. Empty lines and lines that begin with `#` are ignored. If a tag has several lines, the last one
/// counts.
///
/// Errors: `BadLine` for the first line of another form; `OutOfMemory`.
///
/// ```
/// let names = tag_names(alloc, "0x42006A Major\n42006B Minor\n")?;
/// let tag = TtlvTag::from([0x42, 0x00, 0x6A]);
/// assert!(rt; names.get(&tag).copied() == Some("Major"));
/// ```
pub fn tag_names<'t, A: Allocator + Copy>(
    alloc: A,
    table: &'t str,
) -> Result<LentTagMap<'t, A>, TableError>
    ensures names { IfOk result (λ names. name_in names ≡ names_of table.now) }
    ensures good { OnOk result (bad_line table.now ≡ None) }
    ensures bad { IfErr result (λ e. IsUnread (bad_line table.now) e) }
{
    let mut names = HashMap::new(alloc);
    let mut rest = table;
    let mut number = 1;
    'lines: while let Some((line, more)) = rest.split_once('\n') {
        match add_line(&mut names, line) {
            Ok(true) => {}
            Ok(false) => return Err(TableError::BadLine(number)),
            Err(_) => return Err(TableError::OutOfMemory),
        }
        rest = more;
        number += 1;
    }
    match add_line(&mut names, rest) {
        Ok(true) => Ok(names),
        Ok(false) => Err(TableError::BadLine(number)),
        Err(_) => Err(TableError::OutOfMemory),
    }
}

// The tag in a line, if the line gives it this name.
fn tag_if(line: &str, name: &str) -> Option<TtlvTag>
    ensures { result ≡ tag_if name.now (line_of line.now) }
{
    match read_line(line) {
        Line::Name(tag, own) => { if own == name { Some(tag) } else { None } }
        Line::Blank | Line::Bad => None,
    }
}

/// Returns the tag of a name: that of the first line of a table with this name. Never allocates.
///
/// ```
/// let tag = tag_named("42006A Major\n42006B Minor\n", "Major");
/// assert!(rt; tag == Some(TtlvTag::from([0x42, 0x00, 0x6A])));
/// ```
pub fn tag_named(table: &str, name: &str) -> Option<TtlvTag>
    ensures { result ≡ tag_named name.now table.now }
{
    let mut rest = table;
    'lines: while let Some((line, more)) = rest.split_once('\n') {
        if let Some(tag) = tag_if(line, name) {
            return Some(tag);
        }
        rest = more;
    }
    tag_if(rest, name)
}

/// Returns the names of the tags in the KMIP specifications (9.1.3.1).
///
/// The only error is `OutOfMemory`.
///
/// ```
/// let names = standard_names(alloc)?;
/// let tag = TtlvTag::from([0x42, 0x00, 0x94]);
/// assert!(rt; names.get(&tag).copied() == Some("Unique Identifier"));
/// ```
pub fn standard_names<A: Allocator + Copy>(alloc: A) -> Result<LentTagMap<'static, A>, TableError>
    ensures names { IfOk result (λ names. name_in names ≡ names_of STANDARD_TAGS.now) }
    ensures memory { IfErr result (λ e. e ≡ TableError.OutOfMemory) }
{
    tag_names(alloc, STANDARD_TAGS)
}
