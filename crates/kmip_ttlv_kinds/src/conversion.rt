//! A structure of one type as another type: a kept one as a type that a program knows, and the other way.

ghost use Rattle.std.specs.Prelude.{◌≡◌};
ghost use Rattle.kmip_ttlv_reader.specs.Outcomes.{root_outcome};
ghost use Rattle.kmip_ttlv_reader.specs.ReadLaws.{AreBytes};
ghost use Rattle.kmip_ttlv_reader.specs.ReadResults.{IsReadAs};
ghost use Rattle.kmip_ttlv_reader.specs.Spots.{structure_form, structure_value};
ghost use Rattle.kmip_ttlv_ser.specs.EncodeResults.{Encodes};
ghost use Rattle.kmip_ttlv_kinds.specs.Laws.{IsReadFrom};
ghost use Rattle.kmip_ttlv_kinds.specs.Parts.{within};

use crate::structure::{Structure, visit_structure};
use kmip_ttlv_base::error::Error;
use kmip_ttlv_base::shape::Serialize;
use kmip_ttlv_base::types::TtlvTag;
use kmip_ttlv_base::visit::Visitor;
use kmip_ttlv_reader::errors::error;
use kmip_ttlv_reader::reader::{Cursor, Scope};
use kmip_ttlv_ser::to_vec;
use std::alloc::{AllocError, Allocator};

// A structure under a tag, which is in no other.
#[derive(Drop)]
struct Lone<T: Structure<A>, A: Allocator + Copy> {
    alloc: A,
    tag: u32,
    structure: T,
}

impl<T: Structure<A>, A: Allocator + Copy> Serialize for Lone<T, A> {
    ghost stated = { λ x. structure_value x.tag (within T.rules.written) x.structure };

    fn visit<V: Visitor>(&self, visitor: &mut V) -> Result<(), AllocError> {
        visit_structure(&self.structure, self.tag, visitor)
    }
}

// The bytes of a structure under this tag.
fn write_alone<T: Structure<A>, A: Allocator + Copy>(
    alloc: A,
    tag: u32,
    structure: T,
) -> Result<Vec<u8, A>, Error<A>>
    ensures { Encodes (structure_value tag (within T.rules.written) structure) result }
{
    let lone = Lone {
        alloc,
        tag,
        structure,
    };
    to_vec(alloc, &lone)
}

// The structure of this tag that all the bytes are.
#[tactic(auto, unfolding(crate::specs::Parts::within))]
fn read_alone<T: Structure<A>, A: Allocator + Copy>(
    alloc: A,
    tag: u32,
    bytes: &[u8],
) -> Result<T, Error<A>>
    ensures equals { IsReadAs (λ v x. v ≡ structure_value tag (within T.rules.values) x)
        (root_outcome (structure_form tag T.rules.fields T.rules.closed) bytes.now) result }
    ensures are { AreBytes bytes.now }
{
    // no structure is around it
    let owner = TtlvTag::from([0, 0, 0]);
    let scope = Scope {
        alloc,
        bytes,
        owner,
        end: bytes.len(),
    };
    let mut cursor = Cursor::new(alloc, 0);
    match T::read(&scope, tag, &mut cursor) {
        Ok(structure) => Ok(structure),
        Err(failure) => Err(error(failure)),
    }
}

/// A structure as another type: what that type reads of its bytes under a tag, as of a `Kept` payload, `KeyMaterial` or extension the
/// structure that it is; and of any structure the `Kept` one.
///
/// It fails as `to_vec` does of the structure, and as `from_slice` does of its bytes: offsets count from the first byte of its header.
pub fn convert<S: Structure<A>, T: Structure<A>, A: Allocator + Copy>(
    alloc: A,
    structure: S,
    tag: u32,
) -> Result<T, Error<A>>
    ensures { IsReadFrom (structure_value tag (within S.rules.written) structure) (structure_form tag T.rules.fields T.rules.closed)
        (structure_value tag (within T.rules.values)) result }
{
    let bytes = write_alone(alloc, tag, structure)?;
    read_alone(alloc, tag, bytes.as_slice())
}
