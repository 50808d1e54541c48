//! How far readable lines are indented, and how they begin.

ghost use Rattle.std.specs.Prelude.{OnOk, OnErr};
ghost use Rattle.kmip_ttlv_util.specs.Lines.{depth_mark, bounded_part, indented};
ghost use Rattle.kmip_ttlv_util.specs.TagNames.{name_in, named};

use crate::lines::{LentTagMap, name_of, push_named_part};
use crate::sink::TextSink;
use itoa::Buffer;
use kmip_ttlv_types::TtlvTag;
use std::alloc::Allocator;

/// How far a line is indented for the structures around its item.
///
/// ```
/// let none: LentTagMap = HashMap::new(alloc);
/// let mut line = String::new(alloc);
/// push_beginning(&mut line, &none, Indentation::Bounded, 65, TtlvTag::from([0x42, 0, 0x69]))?;
/// assert!(rt; line.as_str().trim_start() == "[65] Tag: 0x420069");
/// ```
#[derive(Clone, Copy, Debug, PartialEq, Eq)]
pub enum Indentation {
    /// By two spaces for each of them; a tag has at least four digits.
    Full,
    /// By two spaces for each, up to 64 of them. If there are more, their number follows in brackets, so
    /// that a text can't grow with the square of the depth. A tag has six digits.
    Bounded,
}

/// The indentation of 64 levels, and an opening bracket.
const LEVELS: &str =
    "                                                                                                                                [";

// What precedes the tag of an item in more than 64 structures.
fn push_depth<S: TextSink>(out: &mut S, depth: usize) -> Result<(), S::Error>
    ensures ok { OnOk result (S.adds out.old (depth_mark depth) out.new) }
    ensures err { OnErr result (S.breaks out.old (depth_mark depth) out.new) }
{
    out.push_str(LEVELS)?;
    out.push_str(Buffer::new().format(depth))?;
    out.push_str("] ")
}

// The beginning of a line that is indented by at most 64 levels, and has six digits of its tag.
fn push_bounded<S: TextSink>(
    out: &mut S,
    name: Option<&str>,
    depth: usize,
    tag: TtlvTag,
) -> Result<(), S::Error>
    ensures ok { OnOk result (S.adds out.old (bounded_part (named name.entry) depth tag) out.new) }
    ensures err { OnErr result (S.breaks out.old (bounded_part (named name.entry) depth tag) out.new) }
{
    if depth <= 64 {
        return push_named_part(out, 6, name, depth, tag);
    }
    push_depth(out, depth)?;
    push_named_part(out, 6, name, 0, tag)
}

/// The beginning of the line of an item at this depth, up to its tag, with the tag's name if it has
/// one.
#[inline(always)]
pub fn push_named_beginning<S: TextSink>(
    out: &mut S,
    name: Option<&str>,
    indentation: Indentation,
    depth: usize,
    tag: TtlvTag,
) -> Result<(), S::Error>
    ensures ok { OnOk result (S.adds out.old (indented indentation (named name.entry) depth tag) out.new) }
    ensures err { OnErr result (S.breaks out.old (indented indentation (named name.entry) depth tag) out.new) }
{
    match indentation {
        Indentation::Full => push_named_part(out, 4, name, depth, tag),
        Indentation::Bounded => push_bounded(out, name, depth, tag),
    }
}

/// Appends the beginning of the line of an item in `depth` structures, up to its tag.
///
/// It returns the sink's error: out of memory, or the writer's.
///
/// ```
/// let mut line = String::new(alloc);
/// push_beginning(&mut line, &none, Indentation::Full, 1, TtlvTag::from([0x42, 0, 0x6A]))?;
/// assert!(rt; line.as_str() == "  Tag: 0x42006A"); // none: a map without names
/// ```
pub fn push_beginning<S: TextSink, A: Allocator>(
    out: &mut S,
    names: &LentTagMap<'_, A>,
    indentation: Indentation,
    depth: usize,
    tag: TtlvTag,
) -> Result<(), S::Error>
    ensures ok { OnOk result (S.adds out.old (indented indentation (name_in names.now) depth tag) out.new) }
    ensures err { OnErr result (S.breaks out.old (indented indentation (name_in names.now) depth tag) out.new) }
{
    push_named_beginning(out, name_of(names, tag), indentation, depth, tag)
}
