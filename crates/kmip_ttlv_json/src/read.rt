//! A message read back from its JSON: event by event, with no tree between.

ghost use Rattle.std.specs.Prelude.{◌≡◌, ◌+◌, ◌-◌, ◌^◌, ◌≤◌, ◌<◌, ◌++◌, ℕ, List, true, None, Ok, Err, IfOk, IfErr, OnOk, length, take, drop};
ghost use Rattle.json.specs.Json.{value, items, members};
ghost use Rattle.serde_json.specs.Data.{Members as DataMembers, object, no_members};
ghost use Rattle.serde_json.specs.Read.{read, converted, of_json, of_items, of_members};
ghost use Rattle.kmip_ttlv_types.specs.declared.typ.TtlvType.TheVariants.{Structure as AStructure};
ghost use Rattle.kmip_ttlv_types.specs.Items.{header};
ghost use Rattle.kmip_ttlv_json.specs.declared.read.Stop.TheVariants.{NotJson as IsNotJson, NoMemory as IsNoMemory};
ghost use Rattle.kmip_ttlv_json.specs.JsonTrees.{tree_of};
ghost use Rattle.kmip_ttlv_json.specs.Readings.{IsReadAs, FailsToRead, error_offset};
ghost use Rattle.kmip_ttlv_json.specs.Events.{items_at, both_at, bad_at, placed, unplaced, kept, AddsItem, HasRoom, Meets, Stops, Reads, ReadsItems, ReadsMembers, ReadsMember, ReadsText};
ghost use Rattle.kmip_ttlv_json.specs.Spots.{all_of, IsPlaced, ArePlaced, IsItemPlaced, IsEndPlaced, MeetsPlaced, StopsThere, StopsInItems, StopsInMembers, StopsInText, IsTextPlaced};

use crate::adding::{push_value, set_header};
use crate::failure::{BadItem, BadMember, JsonError};
use crate::members::{Members, tag_of, type_met};
use crate::nesting::first_deep;
use crate::number::{is_in_range, whole_of};
use crate::places::offset_of;
use crate::seen::Seen;
use crate::tokens::Tokens;
use json::{Reader, Scratch, Token};
use kmip_ttlv_types::{TtlvTag, TtlvType};
use kmip_words::LateWords;
use std::alloc::{AllocError, Allocator};

// How deep JSON may nest.
const MAX_DEPTH: usize = 127;

/// Why reading stopped.
#[derive(Clone, Copy)]
pub enum Stop {
    /// The text is not JSON: how many tokens are in front of the first that can't stand there.
    NotJson { at: usize },
    /// Out of memory.
    NoMemory,
}

impl From<AllocError> for Stop {
    ghost from_gives = { λ _ e. e ≡ IsNoMemory };

    fn from(_: AllocError) -> Stop {
        Stop::NoMemory
    }
}

// What is wrong with items, behind which there is one more.
fn both(items: Result<(), BadItem>, item: Result<bool, BadItem>) -> Result<(), BadItem>
    ensures { result ≡ both_at items item }
{
    match (items, item) {
        (Ok(()), Ok(_)) => Ok(()),
        (Ok(()), Err(bad)) => Err(bad),
        (Err(bad), _) => Err(bad),
    }
}

// Drops the bytes behind a mark, unless all are items.
fn keep_items<A: Allocator>(out: &mut Vec<u8, A>, mark: usize, items: Result<(), BadItem>)
    ensures { out.new.items ≡ kept mark (unplaced items) out.old.items }
{
    if items.is_err() {
        out.truncate(mark);
    }
}

// Ends the structure behind so many tokens, whose items' bytes are behind room at an offset, if its value is items.
fn end_structure<A: Allocator>(
    out: &mut Vec<u8, A>,
    top: usize,
    at: usize,
    tag: TtlvTag,
    value: Seen<'_>,
) -> Result<bool, BadItem>
    requires { items_at at value ≡ Ok tt → top + 8 ≤ length out.old.items }
    ensures ok { IfOk result (λ structure. (structure ≡ true) × (items_at at value.entry ≡ Ok tt) × (out.new.items ≡ take top out.old.items
        ++ (header tag AStructure (length out.old.items - (top + 8)) ++ drop (top + 8) out.old.items))) }
    ensures err { IfErr result (λ bad. (items_at at value.entry ≡ Err bad) × (out.new.items ≡ out.old.items)) }
{
    value.items(at)?;
    set_header(out.as_mut_slice(), top, tag);
    Ok(true)
}

// Gives what is wrong with the item behind so many tokens itself.
fn bad_item(at: usize, bad: BadMember) -> Result<bool, BadItem>
    ensures { result ≡ bad_at at bad }
{
    Err(BadItem { bad, at })
}

// What an item comes to that is behind so many tokens.
fn placed(at: usize, item: Result<bool, BadMember>) -> Result<bool, BadItem>
    ensures { result ≡ placed at item }
{
    match item {
        Ok(structure) => Ok(structure),
        Err(bad) => bad_item(at, bad),
    }
}

// Ends the item behind so many tokens, whose members were met, and whose value's bytes are behind an offset.
fn end_item<A: Allocator + Copy>(
    alloc: A,
    words: &mut LateWords<A>,
    out: &mut Vec<u8, A>,
    top: usize,
    at: usize,
    met: Members<'_>,
) -> Result<Result<bool, BadItem>, AllocError>
    requires { HasRoom met top (length out.old.items) }
    ensures adds { IfOk result (λ item. (json : DataMembers) (front : List ℕ) → length front ≡ top → Meets json met.entry front out.old.items
        → AddsItem (tree_of (object json)) front out.new.items (unplaced item)) }
    ensures placed { IfOk result (λ item. (json : DataMembers) (front : List ℕ) → Meets json met.entry front out.old.items
        → IsEndPlaced at met.entry.value (object json) item) }
{
    if met.others {
        return Ok(bad_item(at, BadMember::Members));
    }
    let Some(tag) = met.tag else {
        return Ok(bad_item(at, BadMember::Members));
    };
    let Some(value) = met.value else {
        return Ok(bad_item(at, BadMember::Members));
    };
    let Some(tag) = tag_of(alloc, words, tag.text())? else {
        return Ok(bad_item(at, BadMember::Tag));
    };
    let Some(typ) = type_met(met.typ) else {
        return Ok(bad_item(at, BadMember::Typ));
    };
    if typ == TtlvType::Structure {
        return Ok(end_structure(out, top, at, tag, value));
    }
    out.truncate(top);
    let item = push_value(alloc, words, out, tag, typ, value)?;
    Ok(placed(at, item))
}

// Reads a value, and adds the bytes of the items that it is.
#[cycle(read)]
fn read_value<'t, A: Allocator + Copy>(
    alloc: A,
    words: &mut LateWords<A>,
    reader: &mut Tokens<'t>,
    depth: usize,
    out: &mut Vec<u8, A>,
) -> Result<Seen<'t>, Stop>
    requires { all_of reader.old < 2 ^ 64 }
    ensures ok { IfOk result (Reads depth reader.old.reader reader.new.reader out.old.items out.new.items) }
    ensures shorter { OnOk result (length reader.new.reader < length reader.old.reader) }
    ensures counted { OnOk result (all_of reader.new ≡ all_of reader.old) }
    ensures placed { IfOk result (IsPlaced (all_of reader.old) depth reader.old.reader) }
    ensures err { IfErr result (Stops (converted of_json (value depth reader.old.reader))) }
    ensures there { IfErr result (StopsThere (all_of reader.old) depth reader.old.reader) }
{
    let at = reader.taken;
    let Some(token) = reader.next() else {
        return Err(Stop::NotJson { at });
    };
    match token {
        Token::String(text) => Ok(Seen::Text(text)),
        Token::Number(text) => if is_in_range(text) {
            Ok(Seen::Number(whole_of(text)))
        } else {
            Err(Stop::NotJson { at })
        },
        Token::Bool(truth) => Ok(Seen::Truth(truth)),
        Token::Null => Ok(Seen::Null),
        Token::EndObject | Token::EndArray | Token::Key(_) | Token::Bad => Err(Stop::NotJson {
            at,
        }),
        Token::BeginArray => {
            if depth == 0 {
                return Err(Stop::NotJson { at });
            }
            Ok(Seen::Items(read_items(alloc, words, reader, depth - 1, out)?))
        }
        Token::BeginObject => {
            if depth == 0 {
                return Err(Stop::NotJson { at });
            }
            Ok(Seen::Item(read_members(alloc, words, reader, depth - 1, at, out)?))
        }
    }
}

// Reads the rest of an array, and adds the bytes of its items behind room for a header.
#[cycle(read)]
fn read_items<'t, A: Allocator + Copy>(
    alloc: A,
    words: &mut LateWords<A>,
    reader: &mut Tokens<'t>,
    depth: usize,
    out: &mut Vec<u8, A>,
) -> Result<Result<(), BadItem>, Stop>
    requires { all_of reader.old < 2 ^ 64 }
    ensures ok { IfOk result (λ all. ReadsItems depth reader.old.reader reader.new.reader out.old.items out.new.items (unplaced all)) }
    ensures shorter { OnOk result (length reader.new.reader < length reader.old.reader) }
    ensures counted { OnOk result (all_of reader.new ≡ all_of reader.old) }
    ensures placed { IfOk result (ArePlaced (all_of reader.old) depth reader.old.reader) }
    ensures err { IfErr result (Stops (converted of_items (items (value depth) (length reader.old.reader) reader.old.reader))) }
    ensures there { IfErr result (StopsInItems (all_of reader.old) depth reader.old.reader) }
{
    out.extend_from_slice(&[0; 8])?;
    let mut all = Ok(());
    'items: while !reader.take_end_array() {
        let mark = out.len();
        let at = reader.taken;
        let seen = read_value(alloc, words, reader, depth, out)?;
        all = both(all, seen.item(at));
        keep_items(out, mark, all);
    }
    Ok(all)
}

// Reads the rest of an object that is behind so many tokens, and adds the bytes of the item that it is.
#[cycle(read)]
fn read_members<'t, A: Allocator + Copy>(
    alloc: A,
    words: &mut LateWords<A>,
    reader: &mut Tokens<'t>,
    depth: usize,
    at: usize,
    out: &mut Vec<u8, A>,
) -> Result<Result<bool, BadItem>, Stop>
    requires { all_of reader.old < 2 ^ 64 }
    ensures ok { IfOk result (λ item. ReadsMembers depth reader.old.reader reader.new.reader out.old.items out.new.items (unplaced item)) }
    ensures shorter { OnOk result (length reader.new.reader < length reader.old.reader) }
    ensures counted { OnOk result (all_of reader.new ≡ all_of reader.old) }
    ensures placed { IfOk result (IsItemPlaced (all_of reader.old) depth at reader.old.reader) }
    ensures err { IfErr result (Stops (converted (λ ms. of_members ms no_members) (members (value depth) (length reader.old.reader) reader.old.reader))) }
    ensures there { IfErr result (StopsInMembers (all_of reader.old) depth reader.old.reader) }
{
    let top = out.len();
    let mut met = Members {
        tag: None,
        typ: None,
        value: None,
        others: false,
    };
    'members: while let Some(name) = reader.next_key()? {
        met = read_member(alloc, words, reader, depth, out, top, name, met)?;
    }
    Ok(end_item(alloc, words, out, top, at, met)?)
}

// Reads a member with this name behind those that were met. Of its value the bytes stay, behind an offset.
#[cycle(read)]
fn read_member<'t, A: Allocator + Copy>(
    alloc: A,
    words: &mut LateWords<A>,
    reader: &mut Tokens<'t>,
    depth: usize,
    out: &mut Vec<u8, A>,
    top: usize,
    name: &str,
    met: Members<'t>,
) -> Result<Members<'t>, Stop>
    requires { (top ≤ length out.old.items) × (all_of reader.old < 2 ^ 64) }
    ensures ok { IfOk result (ReadsMember depth name.now reader.old.reader reader.new.reader top out.old.items out.new.items met.entry) }
    ensures shorter { OnOk result (length reader.new.reader < length reader.old.reader) }
    ensures counted { OnOk result (all_of reader.new ≡ all_of reader.old) }
    ensures placed { IfOk result (MeetsPlaced (all_of reader.old) depth name.now reader.old.reader met.entry) }
    ensures err { IfErr result (Stops (converted of_json (value depth reader.old.reader))) }
    ensures there { IfErr result (StopsThere (all_of reader.old) depth reader.old.reader) }
{
    if name == "value" {
        out.truncate(top);
        let seen = read_value(alloc, words, reader, depth, out)?;
        return Ok(Members {
            value: Some(seen),
            ..met
        });
    }
    let mark = out.len();
    let seen = read_value(alloc, words, reader, depth, out)?;
    out.truncate(mark);
    if name == "tag" {
        return Ok(Members {
            tag: Some(seen),
            ..met
        });
    }
    if name == "type" {
        return Ok(Members {
            typ: Some(seen),
            ..met
        });
    }
    Ok(Members {
        others: true,
        ..met
    })
}

// Reads a text that is an item, and adds its bytes to none.
fn read_text<A: Allocator + Copy>(
    alloc: A,
    words: &mut LateWords<A>,
    text: &str,
    scratch: &mut Scratch<A>,
    out: &mut Vec<u8, A>,
) -> Result<Result<bool, BadItem>, Stop>
    ensures ok { IfOk result (λ item. ReadsText text.now out.old.items out.new.items (unplaced item)) }
    ensures placed { IfOk result (IsTextPlaced text.now) }
    ensures err { IfErr result (Stops (read text.now)) }
    ensures there { IfErr result (StopsInText text.now) }
{
    let mut reader = Tokens {
        reader: Reader::new(text, scratch)?,
        taken: 0,
    };
    let seen = read_value(alloc, words, &mut reader, MAX_DEPTH, out)?;
    let at = reader.taken;
    match reader.next() {
        Some(_) => Err(Stop::NotJson { at }),
        None => Ok(seen.item(0)),
    }
}

// Why a text is not read as JSON, where that is seen behind so many tokens.
fn refusal<A: Allocator>(
    text: &str,
    scratch: &mut Scratch<A>,
    at: usize,
) -> Result<JsonError, AllocError>
    requires { (read text.now ≡ None) × StopsInText text.now (IsNotJson at) }
    ensures why { IfOk result (FailsToRead text.now) }
    ensures within { IfOk result (λ e. error_offset e ≤ length text.now) }
{
    let offset = offset_of(text, at);
    Ok(match first_deep(text, scratch)? {
        Some(deep) if deep == at => JsonError::TooDeep { offset },
        _ => JsonError::NotJson { offset },
    })
}

/// Reads a message from its JSON, and returns its canonical bytes.
///
/// An item is an object of exactly the members `tag`, `type` and `value`, in any order, in the forms of OASIS "KMIP Additional Message
/// Encodings":
///
/// - a tag is its normalized name, or `0x` and six digits; a type is its name, and may be left out for a Structure;
/// - each value but a Text String, a Byte String and a Structure's may be `0x` and the digits of its bytes, a Byte String is digits
///   alone. All digits are of either case;
/// - an Integer may be a number, or the normalized names of a mask's bits, with `|` between them; an Interval may be a number, and so may
///   a Long Integer and a Big Integer of 2^52 at most, without their signs; an Enumeration may be its value's normalized name, a Boolean
///   `true` or `false`, and a Date-Time ISO 8601's text, with an offset.
///
/// Of a member that is given twice the last counts. The words are those of `kmip_words`: of the standard's names.
///
/// It takes twice the text's length of memory and half of its longest value at most, stack for 127 levels, and where there is a word the
/// memory of [`standard_words`](kmip_words::standard_words).
///
/// Errors, each with its offset in the text, which is its length at most: `NotJson` and `TooDeep`; `NotItem` with what is wrong with the first item that isn't one; `NotStructure` if
/// the root isn't one; `TooLong` if a Structure has 2^32 bytes of content or more. And `OutOfMemory`.
pub fn from_json<A: Allocator + Copy>(alloc: A, text: &str) -> Result<Vec<u8, A>, JsonError>
    ensures ok { IfOk result (λ out. IsReadAs text.now out.items) }
    ensures err { IfErr result (FailsToRead text.now) }
    ensures within { IfErr result (λ e. error_offset e ≤ length text.now) }
{
    from_json_by(alloc, &mut LateWords::new(), text)
}

/// The same by words that are lent, for a reader of many texts: their maps are made once.
pub fn from_json_by<A: Allocator + Copy>(
    alloc: A,
    words: &mut LateWords<A>,
    text: &str,
) -> Result<Vec<u8, A>, JsonError>
    ensures ok { IfOk result (λ out. IsReadAs text.now out.items) }
    ensures err { IfErr result (FailsToRead text.now) }
    ensures within { IfErr result (λ e. error_offset e ≤ length text.now) }
{
    let mut scratch = Scratch::new(alloc);
    let mut out = Vec::new(alloc);
    out.reserve_exact(text.len())?;
    let item = match read_text(alloc, words, text, &mut scratch, &mut out) {
        Ok(item) => item,
        Err(Stop::NotJson { at }) => return Err(refusal(text, &mut scratch, at)?),
        Err(Stop::NoMemory) => return Err(JsonError::OutOfMemory),
    };
    let offset = offset_of(text, 0);
    match item {
        Ok(true) if out.len() >= 8 + (1 << 32) => Err(JsonError::TooLong { offset }),
        Ok(true) => Ok(out),
        Ok(false) => Err(JsonError::NotStructure { offset }),
        Err(item) => Err(JsonError::NotItem {
            bad: item.bad,
            offset: offset_of(text, item.at),
        }),
    }
}
