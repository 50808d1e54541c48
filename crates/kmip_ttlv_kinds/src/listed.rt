//! Enumerations of listed numbers, as elements: each value of a type is one of them. A type of a single value is a constant.

ghost use Rattle.std.specs.Prelude.{◌≡◌, ◌+◌, ◌≤◌, length, IfOk};
ghost use Rattle.kmip_ttlv_types.specs.Digits.{tag_text};
ghost use Rattle.kmip_ttlv_base.specs.Forms.{enum};
ghost use Rattle.kmip_ttlv_base.specs.Values.{unit_variant_value};
ghost use Rattle.kmip_ttlv_reader.specs.Outcomes.{number_outcome, outcome, unit_wanted};
ghost use Rattle.kmip_ttlv_reader.specs.Reads.{first_named};
ghost use Rattle.kmip_ttlv_reader.specs.Results.{IsStep};
ghost use Rattle.kmip_ttlv_reader.specs.Spots.{IsReadTo, IsWithin, at};
ghost use Rattle.kmip_ttlv_kinds.specs.Listed.{listed_item, listed_value};
ghost use Rattle.kmip_ttlv_kinds.specs.ListedRows.{AreListed, IsRowNamed};

use crate::elements::Element;
use kmip_ttlv_base::parts;
use kmip_ttlv_base::types::TtlvType;
use kmip_ttlv_base::visit::Visitor;
use kmip_ttlv_reader::cursor::field_there;
use kmip_ttlv_reader::failure::in_struct;
use kmip_ttlv_reader::head::{
    content_there, inside, is_number_type, length_there, length_wanted, tag_at, type_there,
    type_wanted,
};
use kmip_ttlv_reader::number_text::number_text;
use kmip_ttlv_reader::reader::{Cursor, Scope, Step};
use std::alloc::{AllocError, Allocator};
use std::marker::PhantomData;
use std::str;

/// A type whose values are listed numbers of an Enumeration.
pub trait Listed: Copy + Drop + 'static {
    ghost use Rattle.std.specs.Prelude.{ℕ};
    ghost use Rattle.kmip_ttlv_base.specs.Forms.{Variants};
    ghost use Rattle.kmip_ttlv_kinds.specs.Listed.{ListedRules};

    // The number of its tag.
    ghost tag: { ℕ };

    // The numbers, as variants: a unit for each.
    ghost variants: { Variants };

    // The number of each value, and that they come back.
    ghost rules: { ListedRules Self variants };

    /// Its numbers, as texts of `0x` and eight digits with capital letters, each with its value.
    fn table() -> &'static [(&'static str, Self)]
        ensures { AreListed (tag_text tag) (listed_value tag rules) variants result.now };

    /// The number of its tag.
    fn tag() -> u32
        ensures { result ≡ tag };

    /// Its tag, as a name: `0x` and six digits.
    fn name() -> &'static str
        ensures { result.now ≡ tag_text tag };

    /// Its number, as rules see it: `0x` and eight digits.
    fn number_text(self) -> &'static str
        ensures { result.now ≡ rules.number self };
}

// The first row of this name.
#[inline(always)]
fn row_named<E: Listed>(name: &str, table: &[(&'static str, E)]) -> Option<(&'static str, E)>
    requires { AreListed (tag_text E.tag) (listed_value E.tag E.rules) E.variants table.now }
    ensures { IsRowNamed (tag_text E.tag) (listed_value E.tag E.rules) name.now (first_named name.now E.variants) result }
{
    for (text, value) in table {
        if *text == name {
            return Some((*text, *value));
        }
    }
    None
}

// The row that a number's text names.
#[tactic(auto, using(kmip_ttlv_reader::proofs::Steps::fault_is))]
#[inline(always)]
fn row_wanted<E: Listed, A: Allocator + Copy>(
    scope: &Scope<'_, A>,
    table: &[(&'static str, E)],
    typ: TtlvType,
    pos: usize,
    text: &str,
) -> Step<(&'static str, E), A>
    requires there { pos + 4 ≤ length scope.now.bytes.now }
    requires listed { AreListed (tag_text E.tag) (listed_value E.tag E.rules) E.variants table.now }
    ensures step { IsStep (λ _. tt) (unit_wanted scope.now.bytes.now scope.now.owner pos typ (first_named text.now E.variants)) result }
    ensures row { IfOk result (λ r. (r.0.now ≡ text.now) × (listed_value E.tag E.rules r.1 ≡ unit_variant_value (tag_text E.tag) text.now)) }
{
    match row_named(text, table) {
        Some(row) => Ok(row),
        None => Err(in_struct(scope.alloc, pos + 16, scope.owner, "unknown variant")),
    }
}

// The value that a number names.
#[tactic(auto, unfolding(kmip_ttlv_reader::specs::Outcomes::number_outcome), using(kmip_ttlv_reader::proofs::Steps::failure_then))]
#[inline(always)]
fn read_number<'b, E: Listed, A: Allocator + Copy>(
    scope: &Scope<'b, A>,
    table: &[(&'static str, E)],
    typ: TtlvType,
    cursor: &mut Cursor<'b, A>,
) -> Step<E, A>
    requires within { IsWithin scope.now cursor.old }
    requires there { cursor.old.pos + 4 ≤ length scope.now.bytes.now }
    requires listed { AreListed (tag_text E.tag) (listed_value E.tag E.rules) E.variants table.now }
    ensures read { IsReadTo (listed_value E.tag E.rules) cursor.new (at (number_outcome (tag_text E.tag) E.variants typ) scope.now cursor.old) result }
    ensures within { IfOk result (λ _. IsWithin scope.now cursor.new) }
    ensures further { IfOk result (λ _. cursor.old.pos + 8 ≤ cursor.new.pos) }
{
    let pos = cursor.pos();
    type_wanted(
        scope.alloc,
        is_number_type(typ),
        TtlvType::Enumeration,
        scope.bytes,
        pos,
        typ,
    )?;
    let _ = length_there(scope.bytes, pos)?;
    length_wanted(scope.alloc, scope.bytes, pos, 4, typ, Some(4))?;
    let (content, next) = content_there(scope.alloc, scope.bytes, pos, typ)?;
    let digits = number_text(content);
    let text = unsafe { str::from_utf8_unchecked(&digits) };
    let (name, value) = row_wanted(scope, table, typ, pos, text)?;
    inside(scope.alloc, scope.bytes, pos, scope.end, typ, next)?;
    let lent: &'b str = name;
    cursor.store(tag_at(scope.bytes, pos), lent)?;
    cursor.go_to(next);
    Ok(value)
}

// The value that the next item's number names.
#[inline(always)]
fn read_listed<'b, E: Listed, A: Allocator + Copy>(
    scope: &Scope<'b, A>,
    cursor: &mut Cursor<'b, A>,
) -> Step<E, A>
    requires within { IsWithin scope.now cursor.old }
    ensures read { IsReadTo (listed_value E.tag E.rules) cursor.new (at (outcome (enum (tag_text E.tag) E.variants)) scope.now cursor.old) result }
    ensures within { IfOk result (λ _. IsWithin scope.now cursor.new) }
    ensures further { IfOk result (λ _. cursor.old.pos + 8 ≤ cursor.new.pos) }
{
    let table = E::table();
    let typ = type_there(scope.alloc, scope.bytes, cursor.pos())?;
    read_number(scope, table, typ, cursor)
}

/// An Enumeration of listed numbers, as an element.
#[derive(Drop)]
pub struct ListedItem<E> {
    kind: PhantomData<E>,
}

impl<E: Listed, A: Allocator + Copy> Element<A> for ListedItem<E> {
    type Holds = E;

    ghost form = { enum (tag_text E.tag) E.variants };

    ghost value = { listed_value E.tag E.rules };

    ghost rules = { listed_item E.tag E.rules };

    #[inline(always)]
    fn number() -> u32 {
        E::tag()
    }

    #[inline(always)]
    fn read_one<'b>(scope: &Scope<'b, A>, cursor: &mut Cursor<'b, A>) -> Step<E, A> {
        read_listed(scope, cursor)
    }

    #[inline(always)]
    fn read_field<'b>(scope: &Scope<'b, A>, cursor: &mut Cursor<'b, A>) -> Step<E, A> {
        match field_there(scope, E::tag(), cursor.pos()) {
            Ok(()) => read_listed(scope, cursor),
            Err(failure) => Err(failure),
        }
    }

    #[inline(always)]
    fn visit_one<V: Visitor>(held: &E, visitor: &mut V) -> Result<(), AllocError> {
        parts::unit_variant(visitor, E::name(), held.number_text())
    }

    #[inline(always)]
    fn is_whole(_held: &E) -> bool {
        true
    }
}
