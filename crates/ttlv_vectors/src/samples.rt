//! Small types with their laws.

ghost use Rattle.std.specs.Prelude.{◌≡◌, IfOk, codes};
ghost use Rattle.kmip_ttlv.specs.Gives.{Gives};
ghost use Rattle.kmip_ttlv.specs.Values.{view, views, struct_value};
ghost use Rattle.ttlv_vectors.specs.Samples.{single_form, read_single, written_single, enclosed};

use crate::data::number_of;
use kmip_ttlv::laws::agreeing_values_come_back;
use kmip_ttlv::parts::{begin_struct, begin_structure, end_struct, end_structure, integer, tagged};
use kmip_ttlv::shape::{ByShape, Data, Deserialize, FieldShape, Serialize, Shape};
use kmip_ttlv::visit::{Leaf, Visitor};
use kmip_ttlv::{from_slice, to_vec};
use std::alloc::{AllocError, Allocator};

/// A structure of one number.
#[derive(Clone, Copy, Debug, PartialEq, Eq)]
pub struct Single {
    pub number: i32,
}

impl Serialize for Single {
    ghost stated = { λ s. written_single s.number };

    fn visit<V: Visitor>(&self, visitor: &mut V) -> Result<(), AllocError> {
        begin_struct(visitor, "0xAAAAAA")?;
        integer(visitor, "Transparent:0xBBBBBB", self.number)?;
        end_struct(visitor, "0xAAAAAA")?;
        Ok(())
    }
}

// The fields of the data that the shape gives.
fn fields_of<A: Allocator>(value: &Data<A>) -> &Vec<Data<A>, A>
    requires { Gives single_form (view value.now) }
    ensures { view value.now ≡ struct_value (codes "0xAAAAAA") (views result.now.items) }
{
    match value {
        Data::Struct { name: _, fields } => fields,
        Data::Structure { tag: _, fields } => fields,
        _ => unreachable!(),
    }
}

impl ByShape for Single {}

impl<A: Allocator + Copy> Deserialize<A> for Single {
    ghost form = { single_form };

    ghost is_value = { λ v s. v ≡ read_single s.number };

    fn shape(alloc: A) -> Result<Shape<A>, AllocError> {
        let mut fields = Vec::new(alloc);
        fields.push(FieldShape {
            name: "0xBBBBBB",
            shape: Shape::I32,
        })?;
        Ok(Shape::Struct {
            name: "0xAAAAAA",
            fields,
            deny_unknown: false,
        })
    }

    fn from_data(_alloc: A, value: &mut Data<A>) -> Result<Single, AllocError> {
        let fields = fields_of(&*value);
        Ok(Single {
            number: number_of(&fields[0]),
        })
    }
}

/// A number in a structure, whose tags are parameters.
#[derive(Clone, Copy, Debug, PartialEq, Eq)]
pub struct Enclosed<const OUTER: u32, const INNER: u32> {
    pub number: i32,
}

impl<const OUTER: u32, const INNER: u32> Serialize for Enclosed<OUTER, INNER> {
    ghost stated = { λ s. enclosed OUTER INNER s.number };

    fn visit<V: Visitor>(&self, visitor: &mut V) -> Result<(), AllocError> {
        begin_structure(visitor, OUTER)?;
        tagged(visitor, INNER, Leaf::I32(self.number))?;
        end_structure(visitor, OUTER)?;
        Ok(())
    }
}

/// Writes a message, and reads it back from its bytes: what comes back is the same. The law that it
/// calls does nothing; it is what that rests on.
pub fn there_and_back<A: Allocator + Copy>(
    alloc: A,
    message: Single,
) -> kmip_ttlv::error::Result<Single, A>
    ensures { IfOk result (λ back. back ≡ message) }
{
    agreeing_values_come_back();
    let bytes = to_vec(alloc, &message)?;
    let back: Single = from_slice(alloc, bytes.as_slice())?;
    Ok(back)
}
