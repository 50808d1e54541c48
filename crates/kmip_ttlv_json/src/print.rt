//! A message as a line of JSON, item by item: by its digits, or with the standard's names.

ghost use Rattle.std.specs.Prelude.{◌≡◌, ◌++◌, ℕ, Bool, true, Option, None, IfOk, OnOk, OnErr, codes, option_map};
ghost use Rattle.kmip_ttlv_types.specs.declared.typ.TtlvType.TheVariants.{Structure as AStructure};
ghost use Rattle.kmip_ttlv_types.specs.Leaves.{is_valid};
ghost use Rattle.kmip_ttlv_items.specs.declared.found.Fault.{Fault as AFault};
ghost use Rattle.kmip_ttlv_items.specs.ItemWalks.{content_at, Judges};
ghost use Rattle.kmip_ttlv_util.specs.Pieces.{SomeText};
ghost use Rattle.kmip_ttlv_write.specs.FlatWrites.{opened};
ghost use Rattle.hex.specs.Hex.{encode_upper};
ghost use Rattle.std.specs.Int.{bytes_high_first};
ghost use Rattle.kmip_ttlv_json.specs.declared.print.Style.TheVariants.{Digits as ByDigits, Names as ByNames};
ghost use Rattle.kmip_ttlv_json.specs.Jsons.{within, is_hidden, word_of_tag, words_for, number_for};
ghost use Rattle.kmip_ttlv_json.specs.Parts.{closes, is_inside, spot_after, gap, tag_part, type_part, opening, worded_text, value_text, value_part};
ghost use Rattle.kmip_ttlv_json.specs.Printings.{style_of, secrets_of, shown_of, has_line, IsJson, IsThere};

use crate::plain::push_plain;
use crate::quoted::push_hex;
use crate::worded::push_worded;
use kmip_ttlv_items::{Fault, FoundItem, ItemWalk, Step, find_fault};
use kmip_ttlv_types::{TtlvTag, TtlvType};
use kmip_ttlv_util::{LentTagMap, TextSink};
use kmip_words::Words;
use std::alloc::Allocator;

/// How items are written.
#[derive(Clone, Copy)]
pub enum Style {
    /// By the digits of their tags and values, each with its type.
    Digits,
    /// With the standard's words for their tags and values, and without the type of a Structure.
    Names,
}

/// Which values are hidden.
#[derive(Clone, Copy, Debug, PartialEq, Eq)]
pub enum Hiding {
    /// No value is hidden.
    Nothing,
    /// Those of items whose tags are secret, and of the items in them; an enumeration's too.
    Secrets,
    /// All but those of enumerations.
    Values,
}

/// What is shown of the value of a leaf.
#[derive(Clone, Copy)]
pub enum Shown {
    /// The value, of whatever type it is.
    All,
    /// That of an enumeration alone.
    Enumerations,
    /// No value: `null` stands in its place.
    Nothing,
}

/// Where printing stands: what decides how the next item begins, and whether its value is hidden.
#[derive(Clone, Copy)]
pub struct Spot {
    /// How many structures are open.
    pub depth: u128,
    /// Whether no item of the innermost was met yet.
    pub first: bool,
    /// How many structures the outermost open secret item is in, where there is one.
    pub secret: Option<usize>,
}

// What stands between the tag of a Structure and its value.
fn structure_part<A: Allocator>(words: Option<&Words<A>>) -> &'static str
    ensures { result.now ≡ type_part (style_of words.entry) AStructure }
{
    match words {
        Some(_) => "\",\"value\":",
        None => "\",\"type\":\"Structure\",\"value\":",
    }
}

// What stands between the tag and the value of an item of this type.
fn type_part<A: Allocator>(words: Option<&Words<A>>, typ: TtlvType) -> &'static str
    ensures { result.now ≡ type_part (style_of words.entry) typ }
{
    match typ {
        TtlvType::Structure => structure_part(words),
        TtlvType::Integer => "\",\"type\":\"Integer\",\"value\":",
        TtlvType::LongInteger => "\",\"type\":\"LongInteger\",\"value\":",
        TtlvType::BigInteger => "\",\"type\":\"BigInteger\",\"value\":",
        TtlvType::Enumeration => "\",\"type\":\"Enumeration\",\"value\":",
        TtlvType::Boolean => "\",\"type\":\"Boolean\",\"value\":",
        TtlvType::TextString => "\",\"type\":\"TextString\",\"value\":",
        TtlvType::ByteString => "\",\"type\":\"ByteString\",\"value\":",
        TtlvType::DateTime => "\",\"type\":\"DateTime\",\"value\":",
        TtlvType::Interval => "\",\"type\":\"Interval\",\"value\":",
    }
}

// Whether the values of a tag are secret.
fn is_secret<A: Allocator>(hiding: Hiding, secrets: &LentTagMap<'_, A>, tag: TtlvTag) -> bool
    ensures { result ≡ secrets_of hiding (has_line secrets.now) tag }
{
    match hiding {
        Hiding::Secrets => match secrets.get(&tag) {
            Some(_) => true,
            None => false,
        },
        _ => false,
    }
}

// What is shown of leaves that are not secret.
fn shown_of(hiding: Hiding) -> Shown
    ensures { result ≡ shown_of hiding }
{
    match hiding {
        Hiding::Values => Shown::Enumerations,
        _ => Shown::All,
    }
}

// What is shown of a leaf that is secret or not.
fn within(shown: Shown, is_secret: bool) -> Shown
    ensures { result ≡ within shown is_secret }
{
    if is_secret { Shown::Nothing } else { shown }
}

// Whether an item in so many structures is in a secret one.
fn is_inside(secret: Option<usize>, depth: usize) -> bool
    ensures { result ≡ is_inside secret depth }
{
    match secret {
        Some(secret) => secret < depth,
        None => false,
    }
}

// How many structures are open behind an item.
fn opened(typ: TtlvType, depth: usize) -> u128
    ensures { result ≡ opened typ depth }
{
    match typ {
        TtlvType::Structure => depth as u128 + 1,
        _ => depth as u128,
    }
}

// Where printing stands behind an item.
fn spot_after(spot: Spot, is_secret: bool, item: &FoundItem) -> Spot
    ensures { (secrets : ℕ → Bool) → is_secret ≡ secrets item.now.tag
        → result ≡ spot_after secrets spot item.now.depth item.now.tag item.now.typ }
{
    let secret = if is_inside(spot.secret, item.depth) {
        spot.secret
    } else if is_secret {
        Some(item.depth)
    } else {
        None
    };
    Spot {
        depth: opened(item.typ, item.depth),
        first: item.typ == TtlvType::Structure,
        secret,
    }
}

// Adds the ends of so many structures.
fn push_closes<S: TextSink>(out: &mut S, count: u128) -> Result<(), S::Error>
    ensures ok { OnOk result (S.adds out.old (closes count) out.new) }
    ensures err { OnErr result (S.breaks out.old (closes count) out.new) }
{
    let mut left = count;
    'closing: while left > 0 {
        out.push_str("]}")?;
        left -= 1;
    }
    Ok(())
}

// Adds what stands in front of an item.
fn push_gap<S: TextSink>(out: &mut S, spot: Spot, depth: usize) -> Result<(), S::Error>
    ensures ok { OnOk result (S.adds out.old (gap spot depth) out.new) }
    ensures err { OnErr result (S.breaks out.old (gap spot depth) out.new) }
{
    push_closes(out, spot.depth.saturating_sub(depth as u128))?;
    out.push_str(if spot.first && spot.depth == depth as u128 {
        ""
    } else {
        ","
    })
}

// The word of a tag, if it has one, and words are at hand.
fn word_of_tag<A: Allocator>(words: Option<&Words<A>>, tag: TtlvTag) -> Option<&'static str>
    ensures { option_map (λ s. s.now) result ≡ word_of_tag (style_of words.entry) tag }
{
    match words {
        Some(words) => words.tag_word(tag),
        None => None,
    }
}

// Adds the beginning of an item, up to its tag's word.
fn push_tag_word<S: TextSink>(out: &mut S, word: &str) -> Result<(), S::Error>
    ensures ok { OnOk result (S.adds out.old (codes "{\"tag\":\"" ++ word.now) out.new) }
    ensures err { OnErr result (S.breaks out.old (codes "{\"tag\":\"" ++ word.now) out.new) }
{
    out.push_str("{\"tag\":\"")?;
    out.push_str(word)
}

// Adds the beginning of an item, up to the digits of its tag.
fn push_tag_digits<S: TextSink>(out: &mut S, tag: TtlvTag) -> Result<(), S::Error>
    ensures ok { OnOk result (S.adds out.old (codes "{\"tag\":\"0x" ++ encode_upper (bytes_high_first 3 tag)) out.new) }
    ensures err { OnErr result (S.breaks out.old (codes "{\"tag\":\"0x" ++ encode_upper (bytes_high_first 3 tag)) out.new) }
{
    let bytes: [u8; 3] = tag.into();
    out.push_str("{\"tag\":\"0x")?;
    push_hex(out, &bytes)
}

// Adds the beginning of an item, up to its tag.
fn push_tag_part<S: TextSink, A: Allocator>(
    out: &mut S,
    words: Option<&Words<A>>,
    tag: TtlvTag,
) -> Result<(), S::Error>
    ensures ok { OnOk result (S.adds out.old (tag_part (style_of words.entry) tag) out.new) }
    ensures err { OnErr result (S.breaks out.old (tag_part (style_of words.entry) tag) out.new) }
{
    match word_of_tag(words, tag) {
        Some(word) => push_tag_word(out, word),
        None => push_tag_digits(out, tag),
    }
}

// Adds an item up to its value.
#[tactic(auto, unfolding(crate::specs::Parts::opening))]
fn push_opening<S: TextSink, A: Allocator>(
    out: &mut S,
    words: Option<&Words<A>>,
    tag: TtlvTag,
    typ: TtlvType,
) -> Result<(), S::Error>
    ensures ok { OnOk result (S.adds out.old (opening (style_of words.entry) tag typ) out.new) }
    ensures err { OnErr result (S.breaks out.old (opening (style_of words.entry) tag typ) out.new) }
{
    push_tag_part(out, words, tag)?;
    out.push_str(type_part(words, typ))
}

// Whether the value of a leaf is hidden.
fn is_hidden(shown: Shown, typ: TtlvType) -> bool
    ensures { result ≡ is_hidden shown typ }
{
    match shown {
        Shown::All => false,
        Shown::Enumerations => typ != TtlvType::Enumeration,
        Shown::Nothing => true,
    }
}

// Adds the value of a leaf that is shown: with words at hand by its words, or as a number, if it is one.
fn push_shown<S: TextSink, A: Allocator>(
    alloc: A,
    out: &mut S,
    words: Option<&Words<A>>,
    tag: TtlvTag,
    typ: TtlvType,
    content: &[u8],
) -> Result<(), S::Error>
    requires { is_valid typ content.now ≡ true }
    ensures ok { OnOk result (S.adds out.old (worded_text (words_for (style_of words.entry) tag typ content.now) (number_for (style_of words.entry) tag typ content.now) typ content.now) out.new) }
    ensures err { OnErr result (S.breaks out.old (worded_text (words_for (style_of words.entry) tag typ content.now) (number_for (style_of words.entry) tag typ content.now) typ content.now) out.new) }
{
    match words {
        Some(words) => push_worded(alloc, out, words, tag, typ, content),
        None => push_plain(out, typ, content),
    }
}

// Adds the value of a leaf.
fn push_leaf<S: TextSink, A: Allocator>(
    alloc: A,
    out: &mut S,
    words: Option<&Words<A>>,
    shown: Shown,
    tag: TtlvTag,
    typ: TtlvType,
    content: &[u8],
) -> Result<(), S::Error>
    requires { is_valid typ content.now ≡ true }
    ensures ok { OnOk result (S.adds out.old (value_text (style_of words.entry) shown tag typ content.now) out.new) }
    ensures err { OnErr result (S.breaks out.old (value_text (style_of words.entry) shown tag typ content.now) out.new) }
{
    if is_hidden(shown, typ) {
        out.push_str("null")
    } else {
        push_shown(alloc, out, words, tag, typ, content)
    }
}

// Adds the value of an item and its end; of a structure the beginning of it.
fn push_value_part<S: TextSink, A: Allocator>(
    alloc: A,
    out: &mut S,
    words: Option<&Words<A>>,
    shown: Shown,
    bytes: &[u8],
    item: &FoundItem,
) -> Result<(), S::Error>
    requires { IsThere bytes.now item.now }
    ensures ok { OnOk result (S.adds out.old (value_part (style_of words.entry) shown item.now.tag item.now.typ (content_at bytes.now item.now.offset)) out.new) }
    ensures err { OnErr result (S.breaks out.old (value_part (style_of words.entry) shown item.now.tag item.now.typ (content_at bytes.now item.now.offset)) out.new) }
{
    if item.typ == TtlvType::Structure {
        return out.push_str("[");
    }
    let content = &bytes[item.offset + 8..item.offset + 8 + item.length as usize];
    push_leaf(alloc, out, words, shown, item.tag, item.typ, content)?;
    out.push_str("}")
}

// Adds an item.
fn push_own<S: TextSink, A: Allocator>(
    alloc: A,
    out: &mut S,
    words: Option<&Words<A>>,
    shown: Shown,
    bytes: &[u8],
    item: &FoundItem,
) -> Result<(), S::Error>
    requires { IsThere bytes.now item.now }
    ensures ok { OnOk result (S.adds out.old (opening (style_of words.entry) item.now.tag item.now.typ
        ++ value_part (style_of words.entry) shown item.now.tag item.now.typ (content_at bytes.now item.now.offset)) out.new) }
    ensures err { OnErr result (S.breaks out.old (opening (style_of words.entry) item.now.tag item.now.typ
        ++ value_part (style_of words.entry) shown item.now.tag item.now.typ (content_at bytes.now item.now.offset)) out.new) }
{
    push_opening(out, words, item.tag, item.typ)?;
    push_value_part(alloc, out, words, shown, bytes, item)
}

// Adds an item, with what stands in front of it.
fn push_item<S: TextSink, A: Allocator>(
    alloc: A,
    out: &mut S,
    words: Option<&Words<A>>,
    spot: Spot,
    shown: Shown,
    bytes: &[u8],
    item: &FoundItem,
) -> Result<(), S::Error>
    requires { IsThere bytes.now item.now }
    ensures ok { OnOk result (S.adds out.old
        (gap spot item.now.depth ++ (opening (style_of words.entry) item.now.tag item.now.typ
        ++ value_part (style_of words.entry) shown item.now.tag item.now.typ (content_at bytes.now item.now.offset))) out.new) }
    ensures err { OnErr result (S.breaks out.old
        (gap spot item.now.depth ++ (opening (style_of words.entry) item.now.tag item.now.typ
        ++ value_part (style_of words.entry) shown item.now.tag item.now.typ (content_at bytes.now item.now.offset))) out.new) }
{
    push_gap(out, spot, item.depth)?;
    push_own(alloc, out, words, shown, bytes, item)
}

// What is shown of an item's value, where its tag is secret or not.
fn shown_at(hiding: Hiding, spot: Spot, is_secret: bool, depth: usize) -> Shown
    ensures { result ≡ within (within (shown_of hiding) (is_inside spot.secret depth)) is_secret }
{
    within(
        within(shown_of(hiding), is_inside(spot.secret, depth)),
        is_secret,
    )
}

// Adds the ends of the structures that are open, and the end of the line.
fn push_end<S: TextSink>(out: &mut S, depth: u128) -> Result<(), S::Error>
    ensures ok { OnOk result (S.adds out.old (closes depth ++ codes "\n") out.new) }
    ensures err { OnErr result (S.breaks out.old (closes depth ++ codes "\n") out.new) }
{
    push_closes(out, depth)?;
    out.push_str("\n")
}

// Adds the line of a message that has no fault, and gives the end of the walk over it.
fn push_line<S: TextSink, A: Allocator + Copy>(
    alloc: A,
    out: &mut S,
    words: Option<&Words<A>>,
    hiding: Hiding,
    secrets: &LentTagMap<'_, A>,
    message: &[u8],
) -> Result<Option<Fault>, S::Error>
    requires { Judges message.now None }
    ensures ok { IfOk result (λ fault. SomeText
        (λ t. IsJson (style_of words.entry) (secrets_of hiding (has_line secrets.now)) (shown_of hiding) message.now t fault)
        (λ t. S.adds out.old t out.new)) }
    ensures err { OnErr result (SomeText
        (λ t. (fault : Option AFault) × IsJson (style_of words.entry) (secrets_of hiding (has_line secrets.now)) (shown_of hiding) message.now t fault)
        (λ t. S.breaks out.old t out.new)) }
{
    let mut walk = ItemWalk::new(alloc, message);
    let mut spot = Spot {
        depth: 0,
        first: true,
        secret: None,
    };
    'items: loop {
        match walk.next()? {
            Step::Item(item) => {
                let is_secret = is_secret(hiding, secrets, item.tag);
                let shown = shown_at(hiding, spot, is_secret, item.depth);
                push_item(alloc, out, words, spot, shown, message, &item)?;
                spot = spot_after(spot, is_secret, &item);
            }
            Step::End(fault) => {
                push_end(out, spot.depth)?;
                return Ok(fault);
            }
        }
    }
}

// Adds a message as a line of JSON, if it has no fault.
fn push_message<'l, S: TextSink, A: Allocator + Copy>(
    alloc: A,
    out: &mut S,
    words: Option<&'l Words<A>>,
    hiding: Hiding,
    secrets: &'l LentTagMap<'_, A>,
    message: &[u8],
) -> Result<Option<Fault>, S::Error>
    ensures ok { IfOk result (λ fault. SomeText
        (λ t. IsJson (style_of words.entry) (secrets_of hiding (has_line secrets.now)) (shown_of hiding) message.now t fault)
        (λ t. S.adds out.old t out.new)) }
    ensures err { OnErr result (SomeText
        (λ t. (fault : Option AFault) × IsJson (style_of words.entry) (secrets_of hiding (has_line secrets.now)) (shown_of hiding) message.now t fault)
        (λ t. S.breaks out.old t out.new)) }
{
    if let Some(fault) = find_fault(alloc, message)? {
        return Ok(Some(fault));
    }
    push_line(alloc, out, words, hiding, secrets, message)
}

/// Adds a message as a line of JSON, and gives its first fault; of a message with a fault it adds nothing.
///
/// It takes memory for the ends of the structures that are open at a time. It fails where the sink fails and when out of
/// memory; a beginning of the line was added then.
pub fn push_json<S: TextSink, A: Allocator + Copy>(
    alloc: A,
    out: &mut S,
    hiding: Hiding,
    secrets: &LentTagMap<'_, A>,
    message: &[u8],
) -> Result<Option<Fault>, S::Error>
    ensures ok { IfOk result (λ fault. SomeText
        (λ t. IsJson ByDigits (secrets_of hiding (has_line secrets.now)) (shown_of hiding) message.now t fault)
        (λ t. S.adds out.old t out.new)) }
    ensures err { OnErr result (SomeText
        (λ t. (fault : Option AFault) × IsJson ByDigits (secrets_of hiding (has_line secrets.now)) (shown_of hiding) message.now t fault)
        (λ t. S.breaks out.old t out.new)) }
{
    push_message(alloc, out, None, hiding, secrets, message)
}

/// The same with the standard's names, as other implementations write JSON: the words of tags, of the values of enumerations and of the
/// bits of masks, and the texts of dates. A Structure has no `type`.
///
/// Integers whose tags are no mask's, Long Integers of 2^52 at most, and Intervals are numbers. A tag or a value without words, or whose words would
/// be read as another, is written as by [`push_json`], and so is any other value; a value that is hidden is `null`. Make the words once,
/// by `standard_words`. It takes memory for the words of a mask, too.
pub fn push_named_json<'l, S: TextSink, A: Allocator + Copy>(
    alloc: A,
    out: &mut S,
    words: &'l Words<A>,
    hiding: Hiding,
    secrets: &'l LentTagMap<'_, A>,
    message: &[u8],
) -> Result<Option<Fault>, S::Error>
    ensures ok { IfOk result (λ fault. SomeText
        (λ t. IsJson ByNames (secrets_of hiding (has_line secrets.now)) (shown_of hiding) message.now t fault)
        (λ t. S.adds out.old t out.new)) }
    ensures err { OnErr result (SomeText
        (λ t. (fault : Option AFault) × IsJson ByNames (secrets_of hiding (has_line secrets.now)) (shown_of hiding) message.now t fault)
        (λ t. S.breaks out.old t out.new)) }
{
    push_message(alloc, out, Some(words), hiding, secrets, message)
}
