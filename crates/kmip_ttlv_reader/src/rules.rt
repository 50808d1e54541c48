//! Rules in the names of variants: `if TAG==TEXT`, `if type==TYPE`, `if TAG>=NUMBER` and
//! `if TAG in [TEXT, ..]` say of the texts that were read, or of an item's type, whether a variant
//! is read. No rule takes memory: an error borrows the text that it names.

ghost use Rattle.std.specs.Prelude.{◌≡◌, ◌+◌, ◌≤◌, length, IfOk, option_map};
ghost use Rattle.std.specs.Option.{option_copied};
ghost use Rattle.std.specs.List.{list_any};
ghost use Rattle.std.specs.Str.{bytes_eq};
ghost use Rattle.kmip_ttlv_base.specs.Errors.{mismatch, view_of_serde};
ghost use Rattle.kmip_ttlv_reader.specs.ReadFaults.{at_item};
ghost use Rattle.kmip_ttlv_reader.specs.Results.{IsFailureOf};
ghost use Rattle.kmip_ttlv_reader.specs.Rules.{rule, type_name, sides, in_brackets, equal, at_least, member, plain_verdict};
ghost use Rattle.kmip_ttlv_reader.specs.RuleParts.{holds, is_stored, texts_of};
ghost use Rattle.kmip_ttlv_reader.specs.Verdicts.{verdict_of, mismatch_of};

use crate::failure::{Cause, Failure, at_item};
use crate::store::TagValueStore;
use kmip_ttlv_base::error::SerdeError;
use kmip_ttlv_base::types::{TtlvTag, TtlvType, number};
use std::alloc::{AllocError, Allocator};

/// Why a rule is an error.
#[derive(Clone, Copy)]
pub enum RuleError<'n> {
    /// The whole name of a variant that begins as a rule and has no operator.
    InvalidVariantMatcherSyntax(&'n str),
    /// A text that is no tag, or no number, where the rule needs one.
    InvalidTag(&'n str),
}

/// What a variant's name says of the texts that were read and of an item's type.
#[derive(Clone, Copy)]
pub enum Verdict<'n> {
    /// The name is no rule.
    NoRule,
    /// The rule holds: its variant is read.
    Holds,
    /// The rule doesn't hold.
    Fails,
    /// The name is no rule that can be tested: reading ends.
    Refused(RuleError<'n>),
}

/// What the name of a variant says of the stored texts, of which the last one under a tag counts,
/// and of an item's type.
///
/// A name that begins with `if ` is a rule. The rest is cut at its first `==`; without one at its
/// first `>=`; without one at its first `in`; both sides are trimmed.
///
/// - `type==NAME` holds for the type of that name.
/// - `TAG==TEXT` holds where the text stored under the tag is that one; not where there is no such
///   tag.
/// - `TAG>=NUMBER` holds where the text stored under the tag is a number and at least the other.
/// - `TAG in [TEXT, ..]` holds where the text stored under the tag is one of those between the
///   commas, each trimmed; not where the brackets are missing.
///
/// A rule without operator is an error with the whole name. `>=`, and `in` with brackets, are
/// an error with the first side where it is no tag; `>=` where a text is stored, with that text or
/// else the second side, where it is no number.
#[tactic(auto, unfolding(crate::specs::Rules::rule))]
#[inline(always)]
pub fn rule<'n, 'b, A: Allocator + Copy>(
    name: &'n str,
    stored: &'n TagValueStore<'b, A>,
    typ: TtlvType,
) -> Verdict<'n>
    ensures { verdict_of result ≡ rule name.now stored.now typ }
{
    let Some(body) = name.strip_prefix("if ") else {
        return Verdict::NoRule;
    };
    if let Some((left, right)) = sides("==", body) {
        return equal(left, right, stored, typ);
    }
    if let Some((left, right)) = sides(">=", body) {
        return at_least(left, right, stored);
    }
    match sides("in", body) {
        Some((left, right)) => member(left, right, stored),
        None => Verdict::Refused(RuleError::InvalidVariantMatcherSyntax(name)),
    }
}

/// A rule in parts, by which it is tested without its name being parsed.
#[derive(Clone, Copy)]
pub enum RuleParts {
    /// It holds where the last text stored under the tag is one of the texts.
    Texts {
        /// The tag under which the text has to be stored.
        tag: u32,
        /// The texts of which the stored one has to be one.
        texts: &'static [&'static str],
    },
    /// It holds of an item of this type.
    Type(TtlvType),
}

/// Whether a rule in parts holds, by the stored texts and of an item of this type.
#[inline(always)]
pub fn parts_hold<'b, A: Allocator + Copy>(
    parts: RuleParts,
    stored: &TagValueStore<'b, A>,
    typ: TtlvType,
) -> bool
    ensures { result ≡ holds parts stored.now typ }
{
    match parts {
        RuleParts::Texts { tag, texts } => is_stored(tag, texts, stored),
        RuleParts::Type(asked) => asked == typ,
    }
}

// Whether the last text stored under the tag is one of these.
#[inline(always)]
fn is_stored<'b, A: Allocator + Copy>(
    tag: u32,
    texts: &[&str],
    stored: &TagValueStore<'b, A>,
) -> bool
    ensures { result ≡ is_stored tag (texts_of texts.now) stored.now }
{
    match stored.last_under(tag) {
        Some(text) => is_among(text, texts),
        None => false,
    }
}

/// Whether a text is one of these.
pub fn is_among(text: &str, texts: &[&str]) -> bool
    ensures { result ≡ list_any (λ one. bytes_eq text.now one.now) texts.now }
{
    for one in texts {
        if text == *one {
            return true;
        }
    }
    false
}

// The verdict of a rule without an error.
#[inline(always)]
fn verdict_by<'n>(answer: bool) -> Verdict<'n>
    ensures { verdict_of result ≡ plain_verdict answer }
{
    if answer {
        Verdict::Holds
    } else {
        Verdict::Fails
    }
}

// Both sides of the first place where the operator stands, trimmed.
fn sides<'n>(operator: &str, body: &'n str) -> Option<(&'n str, &'n str)>
    ensures { option_map (λ x. (x.0.now, x.1.now)) result ≡ sides operator.now body.now }
{
    let (left, right) = body.split_once(operator)?;
    Some((left.trim(), right.trim()))
}

// The name by which a rule asks for a type.
fn type_name(typ: TtlvType) -> &'static str
    ensures { result.now ≡ type_name typ }
{
    match typ {
        TtlvType::Structure => "Structure",
        TtlvType::Integer => "Integer",
        TtlvType::LongInteger => "LongInteger",
        TtlvType::BigInteger => "BigInteger",
        TtlvType::Enumeration => "Enumeration",
        TtlvType::Boolean => "Boolean",
        TtlvType::TextString => "TextString",
        TtlvType::ByteString => "ByteString",
        TtlvType::DateTime => "DateTime",
        TtlvType::Interval => "Interval",
    }
}

// `==`
#[tactic(auto, unfolding(crate::specs::Rules::equal))]
fn equal<'n, 'b, A: Allocator + Copy>(
    left: &str,
    right: &str,
    stored: &TagValueStore<'b, A>,
    typ: TtlvType,
) -> Verdict<'n>
    ensures { verdict_of result ≡ equal stored.now typ left.now right.now }
{
    if left == "type" {
        return verdict_by(right == type_name(typ));
    }
    let Some(tag) = TtlvTag::from_name(left) else {
        return Verdict::Fails;
    };
    let Some(text) = stored.last(tag) else {
        return Verdict::Fails;
    };
    verdict_by(text == right)
}

// `>=`
#[tactic(auto, unfolding(crate::specs::Rules::at_least))]
fn at_least<'n, 'b, A: Allocator + Copy>(
    left: &'n str,
    right: &'n str,
    stored: &'n TagValueStore<'b, A>,
) -> Verdict<'n>
    ensures { verdict_of result ≡ at_least stored.now left.now right.now }
{
    let Some(tag) = TtlvTag::from_name(left) else {
        return Verdict::Refused(RuleError::InvalidTag(left));
    };
    let Some((text, seen)) = stored.last_with_number(tag) else {
        return Verdict::Fails;
    };
    let Some(seen) = seen else {
        return Verdict::Refused(RuleError::InvalidTag(text));
    };
    let Some(wanted) = number(right) else {
        return Verdict::Refused(RuleError::InvalidTag(right));
    };
    verdict_by(seen >= wanted)
}

// `in`
#[tactic(auto, unfolding(crate::specs::Rules::member))]
fn member<'n, 'b, A: Allocator + Copy>(
    left: &'n str,
    right: &str,
    stored: &TagValueStore<'b, A>,
) -> Verdict<'n>
    ensures { verdict_of result ≡ member stored.now left.now right.now }
{
    let Some(all) = in_brackets(right) else {
        return Verdict::Fails;
    };
    let Some(tag) = TtlvTag::from_name(left) else {
        return Verdict::Refused(RuleError::InvalidTag(left));
    };
    let Some(text) = stored.last(tag) else {
        return Verdict::Fails;
    };
    verdict_by(all.split(',').any(|one| one.trim() == text))
}

// What stands between a bracket at the start and a later one at the end.
fn in_brackets(text: &str) -> Option<&str>
    ensures { option_copied result ≡ in_brackets text.now }
{
    text.strip_prefix("[")?.strip_suffix("]")
}

// What is wrong with a rule.
fn wrong_rule<'n, A: Allocator>(alloc: A, rule: RuleError<'n>) -> Result<SerdeError<A>, AllocError>
    ensures { IfOk result (λ e. view_of_serde e ≡ mismatch_of rule.entry) }
{
    match rule {
        RuleError::InvalidVariantMatcherSyntax(name) => {
            let name = String::from_str(alloc, name)?;
            Ok(SerdeError::InvalidVariantMatcherSyntax(name))
        }
        RuleError::InvalidTag(name) => {
            let name = String::from_str(alloc, name)?;
            Ok(SerdeError::InvalidTag(name))
        }
    }
}

/// A rule that can't be tested.
#[cold]
pub fn bad_rule<'n, A: Allocator + Copy>(
    alloc: A,
    bytes: &[u8],
    pos: usize,
    typ: TtlvType,
    rule: RuleError<'n>,
) -> Failure<A>
    requires there { pos + 4 ≤ length bytes.now }
    ensures { IsFailureOf (at_item bytes.now pos 4 typ (mismatch (mismatch_of rule.entry))) result }
{
    match wrong_rule(alloc, rule) {
        Ok(wrong) => at_item(alloc, bytes, pos, 4, typ, Cause::Mismatch(wrong)),
        Err(_) => Failure::OutOfMemory,
    }
}
