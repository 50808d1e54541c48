//! Which objects have the attributes that are sought (KMIP 1.0, section 4.8).

ghost use Rattle.std.specs.Prelude.{◌≡◌, is_some, map, string_bytes};
ghost use Rattle.std.specs.List.{list_all, list_any};
ghost use Rattle.kmip_operations.specs.Listing.{meaning_of, saying_of};
ghost use Rattle.kmip_operations.specs.Matching.{date_under, fits, is_from, is_up_to, is_algorithm, is_date, is_kind, is_like, is_mask, is_name, is_number, is_in_range, is_sought, is_state, is_text, is_timely};

use kmip_messages::attribute::{Attribute, AttributeStructure, AttributeValue};
use kmip_messages::structures::Name;
use kmip_messages::values::{CryptographicAlgorithm, ObjectType, State};
use kmip_ttlv::reader::DateTime;
use std::alloc::Allocator;

// Whether a value is this text.
fn is_text<A: Allocator>(value: &AttributeValue<A>, text: &str) -> bool
    ensures { result ≡ is_text text.now (meaning_of value.now) }
{
    match value {
        AttributeValue::TextString(it) => it.as_str() == text,
        _ => false,
    }
}

// Whether a value is this name.
fn is_name<A: Allocator>(value: &AttributeValue<A>, name: &Name<A>) -> bool
    ensures { result ≡ is_name (string_bytes name.now.value) name.now.name_type (meaning_of value.now) }
{
    match value {
        AttributeValue::Structure(AttributeStructure::Name(it)) => {
            it.value.as_str() == name.value.as_str() && it.name_type == name.name_type
        }
        _ => false,
    }
}

// Whether a value is this type of object.
fn is_kind<A: Allocator>(value: &AttributeValue<A>, kind: ObjectType) -> bool
    ensures { result ≡ is_kind kind (meaning_of value.now) }
{
    match value {
        AttributeValue::ObjectType(it) => *it == kind,
        _ => false,
    }
}

// Whether a value is this algorithm.
fn is_algorithm<A: Allocator>(value: &AttributeValue<A>, algorithm: CryptographicAlgorithm) -> bool
    ensures { result ≡ is_algorithm algorithm (meaning_of value.now) }
{
    match value {
        AttributeValue::CryptographicAlgorithm(it) => *it == algorithm,
        _ => false,
    }
}

// Whether a value is this state.
fn is_state<A: Allocator>(value: &AttributeValue<A>, state: State) -> bool
    ensures { result ≡ is_state state (meaning_of value.now) }
{
    match value {
        AttributeValue::State(it) => *it == state,
        _ => false,
    }
}

// Whether a value is this number.
fn is_number<A: Allocator>(value: &AttributeValue<A>, number: i32) -> bool
    ensures { result ≡ is_number number (meaning_of value.now) }
{
    match value {
        AttributeValue::Integer(it) => *it == number,
        _ => false,
    }
}

// Whether a value is a mask of which these bits have all.
fn is_mask<A: Allocator>(value: &AttributeValue<A>, bits: i32) -> bool
    ensures { result ≡ is_mask bits (meaning_of value.now) }
{
    match value {
        AttributeValue::Integer(mask) => *mask & bits == *mask,
        _ => false,
    }
}

// Whether a value is a date.
fn is_date<A: Allocator>(value: &AttributeValue<A>) -> bool
    ensures { result ≡ is_date (meaning_of value.now) }
{
    match value {
        AttributeValue::DateTime(_) => true,
        _ => false,
    }
}

// Whether a value that is sought is like an object's own, of an attribute of this name. Any date is like a date: see `is_timely`.
fn is_like<A: Allocator>(name: &str, one: &AttributeValue<A>, own: &AttributeValue<A>) -> bool
    ensures { result ≡ is_like name.now (meaning_of one.now) (meaning_of own.now) }
{
    match own {
        AttributeValue::TextString(own) => is_text(one, own.as_str()),
        AttributeValue::Structure(AttributeStructure::Name(own)) => is_name(one, own),
        AttributeValue::ObjectType(own) => is_kind(one, *own),
        AttributeValue::CryptographicAlgorithm(own) => is_algorithm(one, *own),
        AttributeValue::State(own) => is_state(one, *own),
        AttributeValue::Integer(own) if name == "Cryptographic Usage Mask" => is_mask(one, *own),
        AttributeValue::Integer(own) => is_number(one, *own),
        AttributeValue::DateTime(_) => is_date(one),
        _ => false,
    }
}

// Whether an attribute of an object is one that is sought, whatever its index.
#[tactic(auto, unfolding(crate::specs::Matching::fits))]
fn fits<A: Allocator>(one: &Attribute<A>, own: &Attribute<A>) -> bool
    ensures { result ≡ fits (saying_of one.now) (saying_of own.now) }
{
    one.name.as_str() == own.name.as_str() && is_like(own.name.as_str(), &one.value, &own.value)
}

// The date that an attribute is, if it has this name.
#[tactic(auto, unfolding(crate::specs::Matching::date_under))]
fn date_under<A: Allocator>(name: &str, attribute: &Attribute<A>) -> Option<i64>
    ensures { result ≡ date_under name.now (saying_of attribute.now) }
{
    match &attribute.value {
        AttributeValue::DateTime(date) if attribute.name.as_str() == name => Some(date.0),
        _ => None,
    }
}

// Whether there is a date, and none after this one.
fn is_up_to(date: DateTime, bound: Option<i64>) -> bool
    ensures { result ≡ is_up_to date.0 bound }
{
    match bound {
        Some(bound) => bound <= date.0,
        None => false,
    }
}

// Whether there is a date, and none before this one.
fn is_from(date: DateTime, bound: Option<i64>) -> bool
    ensures { result ≡ is_from date.0 bound }
{
    match bound {
        Some(bound) => date.0 <= bound,
        None => false,
    }
}

// Whether an attribute is a date under this name.
fn is_dated<A: Allocator>(name: &str, one: &Attribute<A>) -> bool
    ensures { result ≡ is_some (date_under name.now (saying_of one.now)) }
{
    date_under(name, one).is_some()
}

// Whether it is one that is not after this date.
fn is_begun<A: Allocator>(name: &str, date: DateTime, one: &Attribute<A>) -> bool
    ensures { result ≡ is_up_to date.0 (date_under name.now (saying_of one.now)) }
{
    is_up_to(date, date_under(name, one))
}

// Whether it is one that is not before this date.
fn is_ended<A: Allocator>(name: &str, date: DateTime, one: &Attribute<A>) -> bool
    ensures { result ≡ is_from date.0 (date_under name.now (saying_of one.now)) }
{
    is_from(date, date_under(name, one))
}

// Whether there are dates under this name.
fn has_dates<A: Allocator>(sought: &[Attribute<A>], name: &str) -> bool
    ensures { result ≡ list_any (λ one. is_some (date_under name.now (saying_of one))) sought.now }
{
    for one in sought {
        if is_dated(name, one) {
            return true;
        }
    }
    false
}

// Whether one of the dates under this name is not after a date.
fn begins_by<A: Allocator>(sought: &[Attribute<A>], name: &str, date: DateTime) -> bool
    ensures { result ≡ list_any (λ one. is_up_to date.0 (date_under name.now (saying_of one))) sought.now }
{
    for one in sought {
        if is_begun(name, date, one) {
            return true;
        }
    }
    false
}

// Whether one of the dates under this name is not before a date.
fn ends_by<A: Allocator>(sought: &[Attribute<A>], name: &str, date: DateTime) -> bool
    ensures { result ≡ list_any (λ one. is_from date.0 (date_under name.now (saying_of one))) sought.now }
{
    for one in sought {
        if is_ended(name, date, one) {
            return true;
        }
    }
    false
}

// Whether a date lies between those that are sought under its name, if there are any: one, or two for a range.
fn is_in_range<A: Allocator>(sought: &[Attribute<A>], name: &str, date: DateTime) -> bool
    ensures { result ≡ is_in_range name.now date.0 (map saying_of sought.now) }
{
    if !has_dates(sought, name) {
        return true;
    }
    begins_by(sought, name, date) && ends_by(sought, name, date)
}

// Whether an attribute of an object, if it is a date, lies between those that are sought.
fn is_timely<A: Allocator>(sought: &[Attribute<A>], own: &Attribute<A>) -> bool
    ensures { result ≡ is_timely (map saying_of sought.now) (saying_of own.now) }
{
    match &own.value {
        AttributeValue::DateTime(date) => is_in_range(sought, own.name.as_str(), *date),
        _ => true,
    }
}

// Whether one of an object's attributes is one that is sought.
fn has<A: Allocator>(owned: &[Attribute<A>], one: &Attribute<A>) -> bool
    ensures { result ≡ list_any (λ own. fits (saying_of one.now) (saying_of own)) owned.now }
{
    for own in owned {
        if fits(one, own) {
            return true;
        }
    }
    false
}

// Whether an object has all attributes that are sought, with any dates.
fn has_all<A: Allocator>(sought: &[Attribute<A>], owned: &[Attribute<A>]) -> bool
    ensures { result ≡ list_all (λ one. list_any (λ own. fits (saying_of one) (saying_of own)) owned.now) sought.now }
{
    for one in sought {
        if !has(owned, one) {
            return false;
        }
    }
    true
}

// Whether an object's dates lie between those that are sought.
fn are_timely<A: Allocator>(sought: &[Attribute<A>], owned: &[Attribute<A>]) -> bool
    ensures { result ≡ list_all (λ own. is_timely (map saying_of sought.now) (saying_of own)) owned.now }
{
    for own in owned {
        if !is_timely(sought, own) {
            return false;
        }
    }
    true
}

/// Whether an object with these attributes is sought: it has each attribute that is sought. An object may have more bits than a Cryptographic
/// Usage Mask that is sought, and two dates under one name are the ends of a range.
pub fn is_sought<A: Allocator>(sought: &[Attribute<A>], owned: &[Attribute<A>]) -> bool
    ensures { result ≡ is_sought (map saying_of sought.now) (map saying_of owned.now) }
{
    has_all(sought, owned) && are_timely(sought, owned)
}
