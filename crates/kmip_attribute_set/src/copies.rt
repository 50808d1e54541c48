//! What a structure's type reads of the bytes that a value is encoded as: so a structure is copied, too.

ghost use Rattle.std.specs.Prelude.{◌≡◌, true};
ghost use Rattle.kmip_ttlv_reader.specs.Outcomes.{root_outcome};
ghost use Rattle.kmip_ttlv_reader.specs.ReadLaws.{AreBytes};
ghost use Rattle.kmip_ttlv_reader.specs.ReadResults.{IsReadAs};
ghost use Rattle.kmip_ttlv_reader.specs.Spots.{structure_form, structure_value};
ghost use Rattle.kmip_ttlv_kinds.specs.Laws.{IsReadFrom};
ghost use Rattle.kmip_ttlv_kinds.specs.Parts.{IsWithinSound, within};
ghost use Rattle.kmip_ttlv_ser.specs.EncodeResults.{Encodes, IsTooLong, origin};
ghost use Rattle.kmip_attribute_set.specs.Copies.{IsCopy, IsFound, IsFoundAs};

use kmip_ttlv_base::error::{Error, ErrorKind};
use kmip_ttlv_base::shape::Serialize;
use kmip_ttlv_base::types::TtlvTag;
use kmip_ttlv_base::visit::Visitor;
use kmip_ttlv_kinds::{Structure, structures_come_back, visit_structure};
use kmip_ttlv_reader::errors::error;
use kmip_ttlv_reader::reader::{Cursor, Scope};
use kmip_ttlv_ser::to_vec;
use std::alloc::{AllocError, Allocator};

// The structure of this tag that all the bytes are.
#[tactic(auto, unfolding(kmip_ttlv_kinds::specs::Parts::within))]
pub(crate) fn read_alone<T: Structure<A>, A: Allocator + Copy>(
    alloc: A,
    tag: u32,
    bytes: &[u8],
) -> Result<T, Error<A>>
    ensures equals { IsReadAs (λ v x. v ≡ structure_value tag (within T.rules.values) x)
        (root_outcome (structure_form tag T.rules.fields T.rules.closed) bytes.now) result }
    ensures are { AreBytes bytes.now }
{
    // no structure is around it
    let owner = TtlvTag::from([0, 0, 0]);
    let scope = Scope {
        alloc,
        bytes,
        owner,
        end: bytes.len(),
    };
    let mut cursor = Cursor::new(alloc, 0);
    match T::read(&scope, tag, &mut cursor) {
        Ok(structure) => Ok(structure),
        Err(failure) => Err(error(failure)),
    }
}

/// A value as a structure of this tag: what the structure's type reads of the value's bytes.
///
/// It fails as `to_vec` does of the value, and as `from_slice` does of its bytes: offsets count from the first of these.
pub fn read_again<Q: Serialize, T: Structure<A>, A: Allocator + Copy>(
    alloc: A,
    value: &Q,
    tag: u32,
) -> Result<T, Error<A>>
    ensures { IsReadFrom (Q.stated value.now) (structure_form tag T.rules.fields T.rules.closed) (structure_value tag (within T.rules.values)) result }
{
    let bytes = to_vec(alloc, value)?;
    read_alone(alloc, tag, bytes.as_slice())
}

// The tag under which a structure is copied: any would do.
const COPIED: u32 = 0x42_0091;

// A structure that is lent, as one that is in no other.
#[derive(Drop)]
struct Lent<'t, T: Structure<A>, A: Allocator + Copy> {
    alloc: A,
    structure: &'t T,
}

impl<T: Structure<A>, A: Allocator + Copy> Serialize for Lent<'_, T, A> {
    ghost stated = { λ x. structure_value 0x420091 (within T.rules.written) x.structure.now };

    fn visit<V: Visitor>(&self, visitor: &mut V) -> Result<(), AllocError> {
        visit_structure(self.structure, COPIED, visitor)
    }
}

// What there is, unless memory ran out.
#[tactic(auto, unfolding(crate::specs::Copies::IsFound))]
fn found<T: Drop, A: Allocator>(made: Result<T, Error<A>>) -> Result<Option<T>, AllocError>
    ensures { IsFound made result }
{
    match made {
        Ok(found) => Ok(Some(found)),
        Err(error) if matches!(error.kind(), ErrorKind::OutOfMemory) => Err(AllocError),
        Err(_error) => Ok(None),
    }
}

// The bytes of a value, if it has any. No error of encoding is in its signature, since that names lifetimes.
fn bytes_of<Q: Serialize, A: Allocator + Copy>(
    alloc: A,
    value: &Q,
) -> Result<Option<Vec<u8, A>>, AllocError>
    ensures { IsFoundAs (Encodes (Q.stated value.now)) result }
{
    let encoded = to_vec(alloc, value);
    found(encoded)
}

/// A copy of a structure, as of a key, a template or attributes that are passed on and kept. The copy of a sound one is equal to it.
///
/// There is none if a length doesn't fit into four bytes; or if the structure isn't sound, and has no encoding or one that isn't decoded.
/// It fails if memory runs out.
pub fn copy<T: Structure<A>, A: Allocator + Copy>(
    alloc: A,
    structure: &T,
) -> Result<Option<T>, AllocError>
    ensures { IsCopy (IsWithinSound T.rules.IsSound structure.now) (λ other. T.rules.eq structure.now other ≡ true)
        (IsTooLong (structure_value 0x420091 (within T.rules.written) structure.now) origin) result }
{
    structures_come_back::<T, 0x420091, A>();
    let Some(bytes) = bytes_of(alloc, &Lent { alloc, structure })? else {
        return Ok(None);
    };
    let read = read_alone(alloc, COPIED, bytes.as_slice());
    found(read)
}
