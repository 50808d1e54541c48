//! The texts that were read, and the numbers that chose a variant: what the rules of later
//! variants see. Of each tag the last text alone is stored. The texts of the first few tags are stored
//! in rows, which take no memory; those of all others in an ordered map, so that a rule finds one in
//! a few steps however many texts there were, and whatever tags their sender chose.

ghost use Rattle.std.specs.Prelude.{◌≡◌, ◌<◌, ◌≤◌, ◌++◌, ◌∷◌, [], Some, None, IfOk, IfSome, length, set, option_map};
ghost use Rattle.std.specs.Option.{option_copied};
ghost use Rattle.kmip_ttlv_reader.specs.Reads.{number_text};
ghost use Rattle.kmip_ttlv_reader.specs.StoredTexts.{text_of, stored_text_of, row_for, in_rows};
ghost use Rattle.kmip_ttlv_reader.specs.TagValues.{TagValue, last, with_number};
ghost use Rattle.kmip_ttlv_reader.specs.StoredValue.{tag_value_of};

use crate::history::{History, StoredValue};
use crate::number_text::NumberText;
use kmip_ttlv_base::types::{TtlvTag, number};
use std::alloc::{AllocError, Allocator, Global};
use std::collections::BTreeMap;
use std::marker::Model;

// The most bytes of a text that is parsed each time a rule asks for its number.
const SHORT: usize = 32;

/// Where a text lies.
#[derive(Clone, Copy, Drop)]
pub enum TextPlace<'b> {
    /// Lent, from the message or from the name of a variant.
    Lent(&'b str),
    /// The text of a number that no variant has as its name.
    Number(NumberText),
}

/// The number that a text is, if it is one. A long text is parsed once, as it is stored, however many rules ask for its
/// number; a short one when a rule asks.
#[derive(Clone, Copy, Drop)]
pub enum TextNumber {
    /// The text is still to be parsed.
    Unparsed,
    /// It was parsed: the number, or none if the text is no number.
    Parsed(Option<u32>),
}

/// A stored text, and the number that it is, as far as that was asked for.
#[derive(Clone, Copy, Drop)]
pub struct StoredText<'b> {
    place: TextPlace<'b>,
    number: TextNumber,
}

/// A text that is stored under a tag, in a row.
#[derive(Clone, Copy, Drop)]
pub struct Row<'b> {
    tag: u32,
    stored_text: StoredText<'b>,
}

impl<'b> StoredText<'b> {
    // A text that is lent.
    #[inline(always)]
    fn lent(text: &'b str) -> StoredText<'b>
        ensures { stored_text_of result ≡ with_number text.now }
    {
        let number = if text.len() <= SHORT {
            TextNumber::Unparsed
        } else {
            TextNumber::Parsed(number(text))
        };
        StoredText {
            place: TextPlace::Lent(text),
            number,
        }
    }

    // The text of a number.
    #[inline(always)]
    fn of_number(text: NumberText) -> StoredText<'b>
        ensures { stored_text_of result ≡ with_number text.digits }
    {
        StoredText {
            place: TextPlace::Number(text),
            number: TextNumber::Unparsed,
        }
    }

    // The text.
    #[inline(always)]
    fn text(&self) -> &str
        ensures { result.now ≡ text_of self.now }
    {
        match &self.place {
            TextPlace::Lent(text) => *text,
            TextPlace::Number(text) => text.as_str(),
        }
    }

    // The text, and the number that it is.
    fn with_number(&self) -> (&str, Option<u32>)
        ensures { (result.0.now, result.1) ≡ stored_text_of self.now }
    {
        let text = self.text();
        match self.number {
            TextNumber::Unparsed => (text, number(text)),
            TextNumber::Parsed(number) => (text, number),
        }
    }
}

// Rows that texts are stored in, each under a tag of its own.
#[derive(Clone, Copy, Drop)]
struct Rows<'b> {
    rows: [Option<Row<'b>>; 8],
}

impl<'b> Rows<'b> {
    // The row that takes a text under this tag: the first one that is empty or holds a text under it.
    #[inline(always)]
    fn row_for(&self, tag: u32) -> Option<usize>
        ensures there { IfSome result (λ at. (at ≡ row_for self.now.rows tag) × (at < length self.now.rows)) }
        ensures full { result ≡ None → length self.now.rows ≤ row_for self.now.rows tag }
    {
        let rows = &self.rows[..];
        let mut at = 0;
        while at < rows.len() {
            match &rows[at] {
                Some(row) if row.tag != tag => at += 1,
                _ => return Some(at),
            }
        }
        None
    }

    // Puts a text into a row.
    #[inline(always)]
    fn put(&mut self, at: usize, row: Row<'b>)
        requires { at < length self.old.rows }
        ensures { self.new.rows ≡ set self.old.rows at (Some row.entry) }
    {
        let rows = &mut self.rows[..];
        rows[at] = Some(row);
    }

    // What is stored under a tag.
    #[inline(always)]
    fn stored_text(&self, tag: u32) -> Option<&StoredText<'b>>
        ensures { option_copied result ≡ in_rows self.now.rows None tag }
    {
        let rows = &self.rows[..];
        for row in rows {
            match row {
                Some(row) if row.tag == tag => return Some(&row.stored_text),
                _ => {}
            }
        }
        None
    }
}

/// The stored texts. Contracts see all of them, as a list; memory holds the last one of each
/// tag.
#[derive(Drop)]
pub struct TagValueStore<'b, A: Allocator = Global> {
    rows: Rows<'b>,
    others: BTreeMap<u32, StoredText<'b>, A>,
    all: History,
}

impl<'b, A: Allocator> Model for TagValueStore<'b, A> {
    ghost use Rattle.std.specs.Prelude.{List, option_map};
    ghost use Rattle.std.specs.Ordering.{nat_cmp};
    ghost use Rattle.std.specs.BTreeMap.{get};
    ghost use Rattle.kmip_ttlv_reader.specs.TagValues.{TagValue, HoldsLast, tag_values_code};
    ghost use Rattle.kmip_ttlv_reader.specs.StoredTexts.{stored_text_of, in_rows};

    ghost Value = { List TagValue };

    ghost coded = { tag_values_code };

    ghost view = { λ k. k.all.listed };

    ghost invariant = { λ k. HoldsLast (λ t. option_map stored_text_of (in_rows k.rows.rows (get nat_cmp k.others t) t)) k.all.listed };
}

impl<'b, A: Allocator + Copy> TagValueStore<'b, A> {
    /// No texts. Takes no memory.
    #[inline(always)]
    pub fn new(alloc: A) -> TagValueStore<'b, A>
        ensures { result ≡ [] }
    {
        TagValueStore {
            rows: Rows { rows: [None; 8] },
            others: BTreeMap::new(alloc),
            all: History::new(),
        }
    }

    // One more text, which takes the place of the one that was stored under its tag.
    fn put_text(
        &mut self,
        one: &StoredValue<'_>,
        stored_text: StoredText<'b>,
    ) -> Result<(), AllocError>
        requires { stored_text_of stored_text ≡ with_number one.now.text.now }
        ensures { IfOk result (λ _. self.new ≡ self.old ++ tag_value_of one.now ∷ []) }
    {
        let TagValueStore { rows, others, all } = self;
        let tag = *one.tag;
        if let Some(at) = rows.row_for(tag) {
            rows.put(at, Row { tag, stored_text });
            *all = all.and(one);
            return Ok(());
        }
        others.insert(tag, stored_text)?;
        *all = all.and(one);
        Ok(())
    }

    /// One more text, which takes the place of the one that was stored under its tag. Fails only when out of memory, and
    /// takes none for the first eight tags.
    #[inline(always)]
    pub fn store(&mut self, tag: TtlvTag, text: &'b str) -> Result<(), AllocError>
        ensures { IfOk result (λ _. self.new ≡ self.old ++ record { tag = tag; text = text.now } ∷ []) }
    {
        self.put_text(&StoredValue { tag, text }, StoredText::lent(text))
    }

    /// The same of the text of a number: `0x` and the eight uppercase digits of these four bytes.
    #[inline(always)]
    pub fn store_number(&mut self, tag: TtlvTag, content: &[u8]) -> Result<(), AllocError>
        requires { length content.now ≡ 4 }
        ensures { IfOk result (λ _. self.new ≡ self.old ++ record { tag = tag; text = number_text content.now } ∷ []) }
    {
        let number = NumberText::new(content);
        let text = number.as_str();
        self.put_text(&StoredValue { tag, text }, StoredText::of_number(number))
    }

    // What is stored under a tag.
    #[inline(always)]
    fn stored_text(&self, tag: u32) -> Option<&StoredText<'b>>
        ensures { option_map (λ h. stored_text_of h.now) result ≡ option_map with_number (last self.now tag) }
    {
        match self.rows.stored_text(tag) {
            Some(stored_text) => Some(stored_text),
            None => self.others.get(&tag),
        }
    }

    /// The last text stored under a tag, if there is one.
    #[inline(always)]
    pub fn last(&self, tag: TtlvTag) -> Option<&str>
        ensures { option_copied result ≡ last self.now tag }
    {
        self.last_under(*tag)
    }

    /// The same, by the tag's number.
    #[inline(always)]
    pub fn last_under(&self, tag: u32) -> Option<&str>
        ensures { option_copied result ≡ last self.now tag }
    {
        match self.stored_text(tag) {
            Some(stored_text) => Some(stored_text.text()),
            None => None,
        }
    }

    /// The last text stored under a tag, and the number that it is, if it is one. A long text is not parsed for
    /// it.
    pub fn last_with_number(&self, tag: TtlvTag) -> Option<(&str, Option<u32>)>
        ensures { option_map (λ x. (x.0.now, x.1)) result ≡ option_map with_number (last self.now tag) }
    {
        match self.stored_text(*tag) {
            Some(stored_text) => Some(stored_text.with_number()),
            None => None,
        }
    }
}
