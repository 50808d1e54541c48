//! The type that `flat` decodes and encodes.

ghost use Rattle.std.specs.Prelude.{◌≡◌, codes};
ghost use Rattle.kmip_ttlv.specs.Gives.{Gives, IsI32};
ghost use Rattle.kmip_ttlv.specs.Values.{view, views, i32_value, struct_value};
ghost use Rattle.hex_to_txt_run.specs.Pair.{pair_form, read_pair, written_pair};

use kmip_ttlv::parts::{begin_struct, end_struct, integer};
use kmip_ttlv::shape::{ByShape, Data, Deserialize, FieldShape, Serialize, Shape};
use kmip_ttlv::visit::Visitor;
use std::alloc::{AllocError, Allocator};

/// A structure of two numbers.
#[derive(Clone, Copy, Debug, PartialEq, Eq)]
pub struct Pair {
    pub first: i32,
    pub second: i32,
}

// The number in the data.
fn number_of<A: Allocator>(value: &Data<A>) -> i32
    requires { IsI32 (view value.now) }
    ensures { view value.now ≡ i32_value result }
{
    match value {
        Data::I32(number) => *number,
        _ => unreachable!(),
    }
}

// The fields of the data that the shape gives.
fn fields_of<A: Allocator>(value: &Data<A>) -> &Vec<Data<A>, A>
    requires { Gives pair_form (view value.now) }
    ensures { view value.now ≡ struct_value (codes "0xAAAAAA") (views result.now.items) }
{
    match value {
        Data::Struct { name: _, fields } => fields,
        Data::Structure { tag: _, fields } => fields,
        _ => unreachable!(),
    }
}

impl Serialize for Pair {
    ghost stated = { λ p. written_pair p.first p.second };

    fn visit<V: Visitor>(&self, visitor: &mut V) -> Result<(), AllocError> {
        begin_struct(visitor, "0xAAAAAA")?;
        integer(visitor, "Transparent:0xBBBBBB", self.first)?;
        integer(visitor, "Transparent:0xCCCCCC", self.second)?;
        end_struct(visitor, "0xAAAAAA")?;
        Ok(())
    }
}

impl ByShape for Pair {}

impl<A: Allocator + Copy> Deserialize<A> for Pair {
    ghost form = { pair_form };

    ghost is_value = { λ v p. v ≡ read_pair p.first p.second };

    fn shape(alloc: A) -> Result<Shape<A>, AllocError> {
        let mut fields = Vec::new(alloc);
        fields.push(FieldShape {
            name: "0xBBBBBB",
            shape: Shape::I32,
        })?;
        fields.push(FieldShape {
            name: "0xCCCCCC",
            shape: Shape::I32,
        })?;
        Ok(Shape::Struct {
            name: "0xAAAAAA",
            fields,
            deny_unknown: false,
        })
    }

    fn from_data(_alloc: A, value: &mut Data<A>) -> Result<Pair, AllocError> {
        let fields = fields_of(&*value);
        Ok(Pair {
            first: number_of(&fields[0]),
            second: number_of(&fields[1]),
        })
    }
}
