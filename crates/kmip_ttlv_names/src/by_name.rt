//! The tags of a table by their names: what [`tag_named`](crate::tag_named) finds line by line, in one lookup.

ghost use Rattle.std.specs.Prelude.{◌≡◌, ℕ, List, IfOk, OnOk};
ghost use Rattle.kmip_ttlv_names.specs.NameTables.{line_of, first_of, tag_if, tag_named, tag_in};

use crate::table::{Line, read_line};
use kmip_ttlv_types::TtlvTag;
use std::alloc::{AllocError, Allocator, Global};
use std::collections::HashMap;
use std::hash::{BuildHasherDefault, FoldHasher};

/// Tags by their names.
pub type TagsByName<'n, A = Global> = HashMap<&'n str, TtlvTag, BuildHasherDefault<FoldHasher>, A>;

// Adds the tag in a line by its name, unless an earlier line has that name.
fn add_tag<'t, A: Allocator + Copy>(
    tags: &mut TagsByName<'t, A>,
    line: &'t str,
) -> Result<(), AllocError>
    ensures { OnOk result ((name : List ℕ)
        → tag_in tags.new name ≡ first_of (tag_in tags.old name) (tag_if name (line_of line.now))) }
{
    let Line::Name(tag, name) = read_line(line) else {
        return Ok(());
    };
    if tags.contains_key(name) {
        return Ok(());
    }
    match tags.insert(name, tag) {
        Ok(_) => Ok(()),
        Err(_) => Err(AllocError),
    }
}

/// Returns the tags of a table by their names: for each name what [`tag_named`](crate::tag_named) returns. A line that
/// can't be parsed is passed over.
///
/// The only error is out of memory.
///
/// ```
/// let tags = tags_by_name(alloc, "42006A Major\n42006B Minor\n")?;
/// assert!(rt; tags.get("Minor").copied() == Some(TtlvTag::from([0x42, 0x00, 0x6B])));
/// ```
pub fn tags_by_name<'t, A: Allocator + Copy>(
    alloc: A,
    table: &'t str,
) -> Result<TagsByName<'t, A>, AllocError>
    ensures { IfOk result (λ tags. tag_in tags ≡ (λ name. tag_named name table.now)) }
{
    let mut tags = HashMap::new(alloc);
    let mut rest = table;
    'lines: while let Some((line, more)) = rest.split_once('\n') {
        add_tag(&mut tags, line)?;
        rest = more;
    }
    add_tag(&mut tags, rest)?;
    Ok(tags)
}
