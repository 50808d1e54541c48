//! How the parts of a place are printed.

ghost use Rattle.std.specs.Prelude.{◌≡◌, ◌++◌, true, Some, option_map, codes, [], if◌then◌else◌};
ghost use Rattle.std.specs.Fmt.{DisplaysOnOk};
ghost use Rattle.kmip_ttlv_types.specs.Digits.{tag_text};
ghost use Rattle.kmip_ttlv_types.specs.TypeTexts.{type_text};
ghost use Rattle.kmip_ttlv_base.specs.LocationTexts.{position_text, more_tags, parents_text, WritesPart};

use crate::types::{ByteOffset, TtlvTag, TtlvType};
use std::fmt;

/// Writes the offset, if it is known. Returns whether the next part is the first.
pub fn write_position<W: fmt::Write>(
    f: &mut fmt::Formatter<W>,
    offset: Option<ByteOffset>,
) -> Result<bool, fmt::Error>
    ensures { WritesPart W.write_str_gives f.old true (option_map (λ o. position_text o.0) offset) result f.new }
{
    let Some(offset) = offset else {
        return Ok(true);
    };
    let count = offset.0;
    write!(f, "pos: {count} bytes")?;
    Ok(false)
}

/// Writes the tags around, if there are any, after a comma if they aren't the first part. Returns whether the
/// next part is the first.
pub fn write_parents<W: fmt::Write>(
    f: &mut fmt::Formatter<W>,
    is_first: bool,
    parents: &[TtlvTag],
) -> Result<bool, fmt::Error>
    ensures { WritesPart W.write_str_gives f.old is_first (parents_text parents.now) result f.new }
{
    let Some((outermost, others)) = parents.split_first() else {
        return Ok(is_first);
    };
    write_separator(f, is_first)?;
    write!(f, "parent tags: {outermost}")?;
    write_more_tags(f, others)?;
    Ok(false)
}

/// Writes the tag, if it is known, after a comma if it isn't the first part. Returns whether the next part is
/// the first.
pub fn write_tag<W: fmt::Write>(
    f: &mut fmt::Formatter<W>,
    is_first: bool,
    tag: Option<TtlvTag>,
) -> Result<bool, fmt::Error>
    ensures { WritesPart W.write_str_gives f.old is_first
        (option_map (λ t. codes "tag: " ++ tag_text t) tag) result f.new }
{
    let Some(tag) = tag else {
        return Ok(is_first);
    };
    write_separator(f, is_first)?;
    write!(f, "tag: {tag}")?;
    Ok(false)
}

/// Writes the type, if it is known, after a comma if it isn't the first part. Returns whether no part was
/// written.
pub fn write_type<W: fmt::Write>(
    f: &mut fmt::Formatter<W>,
    is_first: bool,
    typ: Option<TtlvType>,
) -> Result<bool, fmt::Error>
    ensures { WritesPart W.write_str_gives f.old is_first
        (option_map (λ t. codes "type: " ++ type_text t) typ) result f.new }
{
    let Some(typ) = typ else {
        return Ok(is_first);
    };
    write_separator(f, is_first)?;
    write!(f, "type: {typ}")?;
    Ok(false)
}

// A comma and a space, except before the first part.
fn write_separator<W: fmt::Write>(f: &mut fmt::Formatter<W>, is_first: bool) -> fmt::Result
    ensures { DisplaysOnOk W.write_str_gives f.old result (Some (if is_first then [] else codes ", ")) f.new }
{
    f.write_str(if is_first { "" } else { ", " })
}

// Each tag, after an angle bracket.
fn write_more_tags<W: fmt::Write>(f: &mut fmt::Formatter<W>, tags: &[TtlvTag]) -> fmt::Result
    ensures { DisplaysOnOk W.write_str_gives f.old result (Some (more_tags tags.now)) f.new }
{
    for tag in tags {
        write!(f, " > {tag}")?;
    }
    Ok(())
}
