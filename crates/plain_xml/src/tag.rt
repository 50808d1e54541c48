//! Tags with their attributes (3.1).

ghost use Rattle.std.specs.Prelude.{◌≡◌, map, string_bytes, option_map};
ghost use Rattle.std.specs.List.{list_any};
ghost use Rattle.std.specs.Str.{bytes_eq};
ghost use Rattle.plain_xml.specs.Faults.{Gives};
ghost use Rattle.plain_xml.specs.Elements.{attribute_view};
ghost use Rattle.plain_xml.specs.Tags.{has_name, attribute_at, attribute_start, admitted, attributes_at, tag_end, opening_at, ending_at};

use crate::characters::is_name_start;
use crate::element::Attribute;
use crate::failure::{Flaw, Stop, fault_at};
use crate::value::value_at;
use crate::words::{after_space, name_at};
use std::alloc::Allocator;

/// How many attributes an element has at most.
pub const MAX_ATTRIBUTES: usize = 64;

// Whether one of these attributes has this name.
fn has_name<A: Allocator>(attributes: &[Attribute<A>], name: &str) -> bool
    ensures { result ≡ has_name (map attribute_view attributes.now) name.now }
{
    let mut rest = attributes;
    'attributes: while let [attribute, more @ ..] = rest {
        if attribute.name.as_str() == name {
            return true;
        }
        rest = more;
    }
    false
}

// The attribute that a text begins with, and what follows it.
#[tactic(auto, unfolding(crate::specs::Tags::attribute_at))]
fn attribute_at<A: Allocator + Copy>(
    alloc: A,
    text: &[char],
) -> Result<(Attribute<A>, &[char]), Stop>
    ensures { Gives (λ x. (attribute_view x.0, x.1.now)) result (attribute_at text.now) }
{
    let (name, rest) = name_at(alloc, text)?;
    let ['=', rest @ ..] = after_space(rest) else {
        return Err(Stop::At(fault_at(Flaw::Tag, after_space(rest))));
    };
    let (value, rest) = value_at(alloc, after_space(rest))?;
    Ok((Attribute { name, value }, rest))
}

// Where the next attribute begins, if there is one; white space stands in front of it.
#[tactic(auto, unfolding(crate::specs::Tags::attribute_start))]
fn attribute_start(text: &[char]) -> Result<Option<&[char]>, Stop>
    ensures { Gives (option_map (λ s. s.now)) result (attribute_start text.now) }
{
    let rest = after_space(text);
    match rest {
        [c, ..] if is_name_start(*c) => {
            if rest.len() == text.len() {
                return Err(Stop::At(fault_at(Flaw::Tag, rest)));
            }
            Ok(Some(rest))
        }
        _ => Ok(None),
    }
}

// Whether an attribute of this name, which begins there, may follow others.
#[tactic(auto, unfolding(crate::specs::Tags::admitted))]
fn admitted<A: Allocator>(
    attributes: &[Attribute<A>],
    name: &str,
    text: &[char],
) -> Result<(), Stop>
    ensures { Gives (λ x. x) result (admitted (map attribute_view attributes.now) name.now text.now) }
{
    if attributes.len() >= MAX_ATTRIBUTES {
        return Err(Stop::At(fault_at(Flaw::TooMany, text)));
    }
    if has_name(attributes, name) {
        return Err(Stop::At(fault_at(Flaw::Repeated, text)));
    }
    Ok(())
}

// The attributes that a text begins with, each behind white space, and what follows them.
#[tactic(auto, using(crate::proofs::Loops::attributes_done))]
fn attributes_at<A: Allocator + Copy>(
    alloc: A,
    text: &[char],
) -> Result<(Vec<Attribute<A>, A>, &[char]), Stop>
    ensures { Gives (λ x. (map attribute_view x.0.items, x.1.now)) result (attributes_at text.now) }
{
    let mut attributes = Vec::new(alloc);
    let mut rest = text;
    'attributes: while let Some(start) = attribute_start(rest)? {
        let (attribute, after) = attribute_at(alloc, start)?;
        admitted(attributes.as_slice(), attribute.name.as_str(), start)?;
        attributes.push(attribute)?;
        rest = after;
    }
    Ok((attributes, rest))
}

// The end of a start tag: whether the element is empty, and what follows.
#[tactic(auto, unfolding(crate::specs::Tags::tag_end))]
fn tag_end(text: &[char]) -> Result<(bool, &[char]), Stop>
    ensures { Gives (λ x. (x.0, x.1.now)) result (tag_end text.now) }
{
    let rest = after_space(text);
    match rest {
        ['>', more @ ..] => Ok((false, more)),
        ['/', '>', more @ ..] => Ok((true, more)),
        _ => Err(Stop::At(fault_at(Flaw::Tag, rest))),
    }
}

/// A start tag.
#[derive(Drop)]
pub struct Opening<A: Allocator> {
    pub name: String<A>,
    pub attributes: Vec<Attribute<A>, A>,
    /// Whether it is the end tag too.
    pub is_empty: bool,
}

/// The start tag that begins behind a `<`, and what follows it.
#[tactic(auto, unfolding(crate::specs::Tags::opening_at))]
pub fn opening_at<A: Allocator + Copy>(
    alloc: A,
    text: &[char],
) -> Result<(Opening<A>, &[char]), Stop>
    ensures { Gives (λ x. (string_bytes x.0.name, map attribute_view x.0.attributes.items, x.0.is_empty, x.1.now)) result (opening_at text.now) }
{
    let (name, rest) = name_at(alloc, text)?;
    let (attributes, rest) = attributes_at(alloc, rest)?;
    let (is_empty, rest) = tag_end(rest)?;
    Ok((
        Opening {
            name,
            attributes,
            is_empty,
        },
        rest,
    ))
}

/// The name of the end tag that begins behind a `</`, and what follows the tag.
#[tactic(auto, unfolding(crate::specs::Tags::ending_at))]
pub fn ending_at<A: Allocator>(alloc: A, text: &[char]) -> Result<(String<A>, &[char]), Stop>
    ensures { Gives (λ x. (string_bytes x.0, x.1.now)) result (ending_at text.now) }
{
    let (name, rest) = name_at(alloc, text)?;
    match after_space(rest) {
        ['>', more @ ..] => Ok((name, more)),
        rest => Err(Stop::At(fault_at(Flaw::Tag, rest))),
    }
}
