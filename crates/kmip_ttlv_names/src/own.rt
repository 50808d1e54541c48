//! Tables of a user's names: of tags, as in any table, and of values: an enumeration's values, or a mask's bits. A line
//! for a value is its tag, a colon, the value, a space and its name, as `540001:00000002 Own Value`. No tag has a
//! colon, so where a table may name tags alone such a line can't be parsed.

ghost use Rattle.std.specs.Prelude.{◌≡◌, ◌||◌, None, IfOk, IfErr, OnOk};
ghost use Rattle.kmip_ttlv_util.specs.TagNames.{name_in};
ghost use Rattle.kmip_ttlv_names.specs.NameTables.{names_of, IsUnread, AddsLine};
ghost use Rattle.kmip_ttlv_names.specs.OwnNames.{value_key, value_line_of, value_names_of, bad_own_line, MeansValue, AddsValue, AddsOwn};

use crate::table::{TableError, add_line};
use kmip_ttlv_types::{TtlvTag, number};
use kmip_ttlv_util::LentTagMap;
use std::alloc::{AllocError, Allocator, Global};
use std::collections::HashMap;
use std::hash::{BuildHasherDefault, FoldHasher};

/// Names of values, by [`value_key`].
pub type ValueMap<'n, A = Global> = HashMap<u64, &'n str, BuildHasherDefault<FoldHasher>, A>;

/// The names that a user's table gives.
#[derive(Drop)]
pub struct OwnNames<'t, A: Allocator = Global> {
    /// Names of tags, by the tag.
    pub tags: LentTagMap<'t, A>,
    /// Names of values, by [`value_key`], which is of a tag and a value.
    pub values: ValueMap<'t, A>,
}

/// A tag and a value of its items as one number: the digits of the tag, and then eight of the value.
///
/// ```
/// let tag = TtlvTag::from([0x54, 0x00, 0x01]);
/// assert_eq!(rt; value_key(tag, 2), 0x540001_00000002);
/// ```
pub fn value_key(tag: TtlvTag, value: u32) -> u64
    ensures { result ≡ value_key tag value }
{
    u64::from(*tag) * 0x1_0000_0000 + u64::from(value)
}

// The value and the name in a line, if it names a value.
fn read_value(line: &str) -> Option<(u64, &str)>
    ensures { MeansValue (value_line_of line.now) result }
{
    let line = line.trim_end();
    let Some((word, name)) = line.split_once(' ') else {
        return None;
    };
    let Some((digits, value)) = word.split_once(':') else {
        return None;
    };
    let Some(tag) = TtlvTag::from_name(digits) else {
        return None;
    };
    match number(value) {
        Some(value) => Some((value_key(tag, value), name)),
        None => None,
    }
}

// Adds the value that a line names, and returns whether it names one.
fn add_value<'t, A: Allocator + Copy>(
    values: &mut ValueMap<'t, A>,
    line: &'t str,
) -> Result<bool, AllocError>
    ensures { IfOk result (λ good. AddsValue (name_in values.old) line.now good (name_in values.new)) }
{
    match read_value(line) {
        Some((key, name)) => match values.insert(key, name) {
            Ok(_) => Ok(true),
            Err(_) => Err(AllocError),
        },
        None => Ok(false),
    }
}

// Adds what a line names, and returns whether it could be parsed.
fn add_own_line<'t, A: Allocator + Copy>(
    names: &mut OwnNames<'t, A>,
    line: &'t str,
) -> Result<bool, AllocError>
    ensures { IfOk result (λ good. AddsOwn (name_in names.old.tags) (name_in names.old.values) line.now good
        (name_in names.new.tags) (name_in names.new.values)) }
{
    let named = add_line(&mut names.tags, line)?;
    let valued = add_value(&mut names.values, line)?;
    Ok(named || valued)
}

/// Parses a table of the names of tags, as [`tag_names`](crate::tag_names) does, and of values: a line for each, with
/// the tag's hexadecimal digits, a colon, the value's, a space and its name. If a value has several lines, the last one
/// counts.
///
/// Errors: `BadLine` for the first line of another form; `OutOfMemory`.
///
/// ```
/// let own = own_names(alloc, "540001 Own Tag\n540001:00000002 Own Value\n")?;
/// let tag = TtlvTag::from([0x54, 0x00, 0x01]);
/// assert!(rt; own.values.get(&value_key(tag, 2)).copied() == Some("Own Value"));
/// ```
pub fn own_names<'t, A: Allocator + Copy>(
    alloc: A,
    table: &'t str,
) -> Result<OwnNames<'t, A>, TableError>
    ensures tags { IfOk result (λ own. name_in own.tags ≡ names_of table.now) }
    ensures values { IfOk result (λ own. name_in own.values ≡ value_names_of table.now) }
    ensures good { OnOk result (bad_own_line table.now ≡ None) }
    ensures bad { IfErr result (λ e. IsUnread (bad_own_line table.now) e) }
{
    let mut names = OwnNames {
        tags: HashMap::new(alloc),
        values: HashMap::new(alloc),
    };
    let mut rest = table;
    let mut number = 1;
    'lines: while let Some((line, more)) = rest.split_once('\n') {
        match add_own_line(&mut names, line) {
            Ok(true) => {}
            Ok(false) => return Err(TableError::BadLine(number)),
            Err(_) => return Err(TableError::OutOfMemory),
        }
        rest = more;
        number += 1;
    }
    match add_own_line(&mut names, rest) {
        Ok(true) => Ok(names),
        Ok(false) => Err(TableError::BadLine(number)),
        Err(_) => Err(TableError::OutOfMemory),
    }
}
