//! The readable lines of one message: a line for each item that a walk over it meets, or for those that are asked for.

ghost use Rattle.std.specs.Prelude.{◌≡◌, ◌≢◌, ◌<◌, ◌+◌, ◌^◌, ◌++◌, codes, length, Option, IfOk, OnOk, OnErr};
ghost use Rattle.std.specs.Fmt.{decimal};
ghost use Rattle.ttlv_run.specs.declared.job.Task.TheVariants.{Show as ToShow};
ghost use Rattle.kmip_ttlv_types.specs.declared.typ.TtlvType.TheVariants.{Structure as TheStructure};
ghost use Rattle.kmip_ttlv_items.specs.declared.found.Fault.{Fault as AFault};
ghost use Rattle.kmip_ttlv_items.specs.ItemWalks.{content_at};
ghost use Rattle.kmip_ttlv_util.specs.Pieces.{SomeText};
ghost use Rattle.ttlv_run.specs.Items.{IsGood};
ghost use Rattle.ttlv_run.specs.Texts.{names_of, column_part, tag_part, value_part, item_line, values_shown, is_passed, bare_line, path_reach, ends_path, item_text, is_asked, reach_end, reach_after, IsMessageText};

use crate::attributes::{Attribute, attribute_after, naming_tag};
use crate::bare::push_bare;
use crate::colors::{NONE, TAG, VALUE, push_color};
use crate::job::{Look, Names, Values};
use crate::own_bytes::{content_of, push_own_bytes};
use crate::values::push_shown;
use itoa::Buffer;
use kmip_ttlv_items::{Fault, FoundItem, ItemWalk, Step};
use kmip_ttlv_types::{TtlvTag, TtlvType};
use kmip_ttlv_util::{Indentation, TextSink, push_beginning, push_data_part};
use std::alloc::Allocator;

/// How far the items of some tags reach that a walk has met, in bytes from the message's first, 0 where it met none; and the
/// attribute that it is in.
#[derive(Clone, Copy)]
pub struct Reach {
    /// Those whose values are secret.
    pub secret: u128,
    /// Those that are asked for.
    pub asked: u128,
    /// The attribute that the last Attribute Name names, while the walk is in the structure of that.
    pub attribute: Option<Attribute>,
    /// How many tags of the path, if one is asked for, the structures around the last item and it itself have.
    pub path: usize,
}

// How far items reach, where one more was met.
fn reach_end(is_one: bool, end: u128, item: &FoundItem) -> u128
    ensures { result ≡ reach_end is_one end item.now }
{
    let own = item.offset as u128 + 8 + item.length as u128;
    if is_one && end < own { own } else { end }
}

/// Whether a tag's values are secret.
pub fn is_secret<A: Allocator>(names: &Names<'_, A>, tag: TtlvTag) -> bool
    ensures { result ≡ (names_of names.now).secrets tag }
{
    match names.secrets.get(&tag) {
        Some(_) => true,
        None => false,
    }
}

// Whether a tag is one of those that are asked for.
fn is_asked(only: Option<&[u32]>, tag: TtlvTag) -> bool
    ensures { result ≡ is_asked only.entry tag }
{
    match only {
        Some(tags) => tags.contains(&*tag),
        None => false,
    }
}

// What is said of an item's value, where secret items reach so far.
fn values_shown(look: &Look<'_>, secret: u128, item: &FoundItem) -> Values
    ensures { result ≡ values_shown look.now secret item.now }
{
    if look.secrets_hidden && (item.offset as u128) < secret {
        Values::Secret
    } else {
        look.values
    }
}

// How many tags of a path an item and the structures around it have, where so many were those of the last one.
fn path_reach(path: Option<&[u32]>, met: usize, item: &FoundItem) -> usize
    ensures { result ≡ path_reach path.entry met item.now }
{
    let Some(path) = path else {
        return 0;
    };
    if item.depth < path.len() && item.depth <= met && path[item.depth] == *item.tag {
        return item.depth + 1;
    }
    item.depth.min(met)
}

// Whether an item is at the end of a path.
fn ends_path(path: &[u32], met: usize, item: &FoundItem) -> bool
    ensures { result ≡ ends_path path.now met item.now }
{
    met == path.len() && met > 0 && met - 1 == item.depth
}

// How far the items of both kinds and the path reach, and the attribute, where one more item was met.
fn reach_after<A: Allocator>(
    names: &Names<'_, A>,
    look: &Look<'_>,
    bytes: &[u8],
    reach: Reach,
    item: &FoundItem,
) -> Reach
    requires { IsGood bytes.now item.now }
    ensures { result ≡ reach_after (names_of names.now) look.now bytes.now reach item.now }
{
    let secret = reach_end(is_secret(names, item.tag), reach.secret, item);
    let asked = reach_end(is_asked(look.only, item.tag), reach.asked, item);
    let values = values_shown(look, secret, item);
    let attribute = attribute_after(names, values, bytes, reach.attribute, item);
    Reach {
        secret,
        asked,
        attribute,
        path: path_reach(look.path, reach.path, item),
    }
}

// Adds a number and a tab.
fn push_number<S: TextSink>(out: &mut S, number: usize) -> Result<(), S::Error>
    ensures ok { OnOk result (S.adds out.old (decimal number ++ codes "\t") out.new) }
    ensures err { OnErr result (S.breaks out.old (decimal number ++ codes "\t") out.new) }
{
    out.push_str(Buffer::new().format(number))?;
    out.push_str("\t")
}

// Adds a number and a tab, where such numbers are printed.
fn push_column<S: TextSink>(out: &mut S, printed: bool, number: usize) -> Result<(), S::Error>
    ensures ok { OnOk result (S.adds out.old (column_part printed number) out.new) }
    ensures err { OnErr result (S.breaks out.old (column_part printed number) out.new) }
{
    if printed {
        return push_number(out, number);
    }
    Ok(())
}

// Adds the beginning of an item's line, up to its tag.
fn push_head<S: TextSink, A: Allocator>(
    out: &mut S,
    names: &Names<'_, A>,
    colored: bool,
    item: &FoundItem,
) -> Result<(), S::Error>
    ensures ok { OnOk result (S.adds out.old (tag_part (names_of names.now) colored item.now) out.new) }
    ensures err { OnErr result (S.breaks out.old (tag_part (names_of names.now) colored item.now) out.new) }
{
    push_color(out, colored, TAG)?;
    push_beginning(out, &names.tags, Indentation::Bounded, item.depth, item.tag)?;
    push_color(out, colored, NONE)
}

// Adds the value of an item; a structure has none of its own.
fn push_content<S: TextSink, A: Allocator>(
    out: &mut S,
    names: &Names<'_, A>,
    look: &Look<'_>,
    reach: &Reach,
    bytes: &[u8],
    item: &FoundItem,
) -> Result<(), S::Error>
    requires { IsGood bytes.now item.now }
    ensures ok { OnOk result (S.adds out.old (value_part (names_of names.now) look.now reach.now bytes.now item.now) out.new) }
    ensures err { OnErr result (S.breaks out.old (value_part (names_of names.now) look.now reach.now bytes.now item.now) out.new) }
{
    if item.typ == TtlvType::Structure {
        return Ok(());
    }
    let content = &bytes[item.offset + 8..item.offset + 8 + item.length as usize];
    push_color(out, look.colored, VALUE)?;
    let values = values_shown(look, reach.secret, item);
    let tag = naming_tag(&reach.attribute, item);
    push_shown(out, names, values, look.width, tag, item.typ, content)?;
    push_color(out, look.colored, NONE)
}

// Adds the line of an item of a message that begins at an offset.
fn push_line<S: TextSink, A: Allocator>(
    out: &mut S,
    names: &Names<'_, A>,
    look: &Look<'_>,
    reach: &Reach,
    at: usize,
    bytes: &[u8],
    item: &FoundItem,
) -> Result<(), S::Error>
    requires good { IsGood bytes.now item.now }
    requires within { at + length bytes.now < 2 ^ 64 }
    ensures ok { OnOk result (S.adds out.old (item_line (names_of names.now) look.now reach.now at bytes.now item.now) out.new) }
    ensures err { OnErr result (S.breaks out.old (item_line (names_of names.now) look.now reach.now at bytes.now item.now) out.new) }
{
    push_column(out, look.offsets, at + item.offset)?;
    push_column(out, look.lengths, item.length as usize)?;
    push_own_bytes(out, look, bytes, item)?;
    push_head(out, names, look.colored, item)?;
    push_data_part(out, item.typ)?;
    push_content(out, names, look, reach, bytes, item)?;
    out.push_str("\n")
}

// Adds the line of an item's value alone.
#[tactic(auto, unfolding(crate::specs::Texts::bare_line))]
fn push_bare_line<S: TextSink, A: Allocator>(
    out: &mut S,
    names: &Names<'_, A>,
    look: &Look<'_>,
    reach: &Reach,
    bytes: &[u8],
    item: &FoundItem,
) -> Result<(), S::Error>
    requires { IsGood bytes.now item.now }
    ensures ok { OnOk result (S.adds out.old (bare_line (names_of names.now) look.now reach.now bytes.now item.now) out.new) }
    ensures err { OnErr result (S.breaks out.old (bare_line (names_of names.now) look.now reach.now bytes.now item.now) out.new) }
{
    let values = values_shown(look, reach.secret, item);
    let tag = naming_tag(&reach.attribute, item);
    let content = content_of(bytes, item);
    push_bare(out, names, values, look.width, tag, item.typ, content)?;
    out.push_str("\n")
}

// Whether an item is passed over, where tags are asked for and their items reach so far.
fn is_passed(look: &Look<'_>, reach: &Reach, item: &FoundItem) -> bool
    ensures { result ≡ is_passed look.now.only reach.now item.now }
{
    match look.only {
        Some(_) => reach.asked <= item.offset as u128,
        None => false,
    }
}

// Adds the line of an item, if it is asked for.
#[tactic(auto, unfolding(crate::specs::Texts::item_text))]
fn push_item<S: TextSink, A: Allocator>(
    out: &mut S,
    names: &Names<'_, A>,
    look: &Look<'_>,
    reach: &Reach,
    at: usize,
    bytes: &[u8],
    item: &FoundItem,
) -> Result<(), S::Error>
    requires good { IsGood bytes.now item.now }
    requires within { at + length bytes.now < 2 ^ 64 }
    ensures ok { OnOk result (S.adds out.old (item_text (names_of names.now) look.now reach.now at bytes.now item.now) out.new) }
    ensures err { OnErr result (S.breaks out.old (item_text (names_of names.now) look.now reach.now at bytes.now item.now) out.new) }
{
    if let Some(path) = look.path {
        if ends_path(path, reach.path, item) {
            return push_bare_line(out, names, look, reach, bytes, item);
        }
        return Ok(());
    }
    if is_passed(look, reach, item) {
        return Ok(());
    }
    push_line(out, names, look, reach, at, bytes, item)
}

/// Adds the lines of a message, which begins at an offset among the bytes of all, up to its first fault, and gives that
/// fault.
///
/// It takes memory for the ends of the structures that are open at a time, and no list of the items. It fails
/// where the sink fails and when out of memory; a beginning of the lines was added then.
pub fn push_lines<S: TextSink, A: Allocator + Copy>(
    alloc: A,
    out: &mut S,
    names: &Names<'_, A>,
    look: Look<'_>,
    at: usize,
    message: &[u8],
) -> Result<Option<Fault>, S::Error>
    requires { at + length message.now < 2 ^ 64 }
    ensures ok { IfOk result (λ fault. SomeText
        (λ t. IsMessageText (names_of names.now) (ToShow look.entry) at message.now t fault)
        (λ t. S.adds out.old t out.new)) }
    ensures err { OnErr result (SomeText
        (λ t. (fault : Option AFault) × IsMessageText (names_of names.now) (ToShow look.entry) at message.now t fault)
        (λ t. S.breaks out.old t out.new)) }
{
    let mut walk = ItemWalk::new(alloc, message);
    let mut reach = Reach {
        secret: 0,
        asked: 0,
        attribute: None,
        path: 0,
    };
    'items: loop {
        match walk.next()? {
            Step::Item(item) => {
                reach = reach_after(names, &look, message, reach, &item);
                push_item(out, names, &look, &reach, at, message, &item)?;
            }
            Step::End(fault) => return Ok(fault),
        }
    }
}
