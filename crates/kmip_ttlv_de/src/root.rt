//! Whole messages.

ghost use Rattle.kmip_ttlv_types.specs.Names.{tag_of};
ghost use Rattle.kmip_ttlv_base.specs.Values.{view, views};
ghost use Rattle.kmip_ttlv_base.specs.Forms.{form_of, fields_of};
ghost use Rattle.kmip_ttlv_reader.specs.Outcomes.{root_outcome, first_outcome, fields_outcome, named_first};
ghost use Rattle.kmip_ttlv_reader.specs.Results.{IsStep, IsOutcome};

use crate::made::{newtype, some};
use crate::read::read_content;
use kmip_ttlv_base::error::{MalformedTtlvError, Result, SerdeError};
use kmip_ttlv_base::shape::{Data, FieldShape, Shape};
use kmip_ttlv_base::types::{FieldType, TtlvTag};
use kmip_ttlv_reader::errors::error;
use kmip_ttlv_reader::failure::{Cause, Step, at_first, within};
use kmip_ttlv_reader::head::{opened, tag_at};
use kmip_ttlv_reader::scope::Scope;
use kmip_ttlv_reader::store::TagValueStore;
use std::alloc::Allocator;

// The name of the message's struct is a tag.
#[tactic(auto, using(kmip_ttlv_reader::proofs::Steps::fault_is))]
fn named_first<A: Allocator + Copy>(alloc: A, name: &str) -> Step<(), A>
    ensures { IsStep (λ _. tt) (named_first name.now (tag_of name.now)) result }
{
    match TtlvTag::from_name(name) {
        Some(_) => Ok(()),
        None => {
            let cause = Cause::Mismatch(SerdeError::InvalidTag(String::from_str(alloc, name)?));
            Err(at_first(alloc, cause))
        }
    }
}

// The fields of the struct that a message is.
#[tactic(auto, unfolding(kmip_ttlv_reader::specs::Outcomes::first_outcome), using(kmip_ttlv_reader::proofs::Steps::failure_then))]
fn read_first<A: Allocator + Copy>(
    alloc: A,
    name: &str,
    fields: &[FieldShape<A>],
    deny: bool,
    bytes: &[u8],
) -> Step<Vec<Data<A>, A>, A>
    ensures step { IsStep (λ v. views v.items) (first_outcome name.now (fields_of fields.now) deny
        (fields_outcome (fields_of fields.now)) bytes.now) result }
{
    named_first(alloc, name)?;
    let end = opened(alloc, name, bytes, 0)?;
    let owner = tag_at(bytes, 0);
    let scope = Scope {
        alloc,
        bytes,
        owner,
        end,
    };
    let mut stored = TagValueStore::new(alloc);
    match read_content(&scope, fields, deny, 8, &mut stored) {
        Ok((values, _)) => Ok(values),
        Err(failure) => Err(within(owner, failure)),
    }
}

// What a whole message is read as.
#[tactic(auto, unfolding(kmip_ttlv_reader::specs::Outcomes::root_outcome), using(kmip_ttlv_reader::proofs::Steps::failing))]
fn read_message<A: Allocator + Copy>(alloc: A, shape: &Shape<A>, bytes: &[u8]) -> Step<Data<A>, A>
    ensures step { IsStep view (root_outcome (form_of shape.now) bytes.now) result }
{
    match shape {
        Shape::Option(inner) => {
            let data = read_message(alloc, inner, bytes)?;
            Ok(some(alloc, data)?)
        }
        Shape::Newtype { name, inner } => {
            let data = read_message(alloc, inner, bytes)?;
            Ok(newtype(alloc, name, data)?)
        }
        Shape::Struct {
            name,
            fields,
            deny_unknown,
        } => {
            let fields = read_first(alloc, name, fields, *deny_unknown, bytes)?;
            Ok(Data::Struct { name, fields })
        }
        Shape::Seq(_) | Shape::Enum { .. } => {
            let words = String::from_str(alloc, "no struct")?;
            let cause = Cause::Mismatch(SerdeError::Other(words));
            Err(at_first(alloc, cause))
        }
        Shape::I32
        | Shape::I64
        | Shape::Bool
        | Shape::Text
        | Shape::Bytes
        | Shape::DateTime
        | Shape::Interval
        | Shape::BigInteger
        | Shape::U32 => {
            let cause = Cause::Malformed(MalformedTtlvError::UnexpectedTtlvField {
                expected: FieldType::Tag,
                actual: FieldType::LengthAndValue,
            });
            Err(at_first(alloc, cause))
        }
    }
}

/// The value with which the bytes begin, by a shape that may stand for a whole message: a struct,
/// with options and newtypes around it.
pub fn read_root<A: Allocator + Copy>(
    alloc: A,
    shape: &Shape<A>,
    bytes: &[u8],
) -> Result<Data<A>, A>
    ensures { IsOutcome view (root_outcome (form_of shape.now) bytes.now) result }
{
    match read_message(alloc, shape, bytes) {
        Ok(data) => Ok(data),
        Err(failure) => Err(error(failure)),
    }
}
