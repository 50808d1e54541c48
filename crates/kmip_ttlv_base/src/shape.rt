//! What users' types are made of: the data of a value, the shape that a type is decoded by, and the trait of
//! types that can be encoded. The trait of types that can be decoded is in `kmip_ttlv_de`.

ghost use Rattle.std.specs.Prelude.{◌≡◌, IfOk, OnOk, OnErr};
ghost use Rattle.kmip_ttlv_base.specs.Values.{Value, view};
ghost use Rattle.kmip_ttlv_base.specs.Visits.{Receives};

use crate::build::data_of;
use crate::visit::Visitor;
use std::alloc::{AllocError, Allocator, Global};

/// A value to encode, or one that was decoded. A name is a tag if it is a number below 2^24, such as
/// `0x420020`. A leaf has the tag that a wrapper, which is named `Transparent`, puts on it.
///
/// ```
/// let inner = Box::new(alloc, Data::I32(8))?;
/// let number = Data::Newtype { name: "Transparent:0x420020", inner };
/// let bytes = to_vec(alloc, &number)?; // 42002002 00000004 00000008 00000000
/// ```
#[derive(Drop)]
#[derive_where(Debug, PartialEq)]
pub enum Data<A: Allocator = Global> {
    /// A Boolean: the number 0 or 1 in eight bytes.
    Bool(bool),
    /// An Integer of four bytes. It is decoded as an `I32`.
    I8(i8),
    /// An Integer of four bytes. It is decoded as an `I32`.
    I16(i16),
    /// An Integer: a signed number of four bytes.
    I32(i32),
    /// An Enumeration, by its number of four bytes.
    U32(u32),
    /// A Long Integer. It is also decoded from a Date-Time.
    I64(i64),
    /// A Date-Time, by its 64 bits.
    U64(u64),
    /// A Date-Time, in seconds since 1970.
    DateTime(i64),
    /// An Interval, in seconds.
    Interval(u32),
    /// A Text String, in UTF-8.
    Text(String<A>),
    /// A Byte String. It is also decoded from a Big Integer.
    Bytes(Vec<u8, A>),
    /// A Big Integer. It is encoded with its sign extended to a multiple of eight bytes.
    BigInteger(Vec<u8, A>),
    /// What is decoded if an optional field is absent. It is no item and can't be encoded.
    None,
    /// The value in it.
    Some(Box<Data<A>, A>),
    /// The values, one after the other. The first item uses a pending tag up.
    Seq(Vec<Data<A>, A>),
    /// A Structure of the fields, under the tag that the name is.
    Struct {
        name: &'static str,
        fields: Vec<Data<A>, A>,
    },
    /// A Structure of one field, under the tag that the name is. If the name begins with `Transparent:`, it is
    /// the value in it instead, whose item gets the tag that the rest of the name is.
    Newtype {
        name: &'static str,
        inner: Box<Data<A>, A>,
    },
    /// The value in it, whose item gets the tag of this number, of which the last 24 bits count.
    Tagged {
        tag: u32,
        inner: Box<Data<A>, A>,
    },
    /// A Structure of the fields, under the tag of this number, of which the last 24 bits count.
    Structure {
        tag: u32,
        fields: Vec<Data<A>, A>,
    },
    /// An Enumeration under the tag that the name is, of the number that the variant's name is.
    UnitVariant {
        name: &'static str,
        variant: &'static str,
    },
    /// A Structure of one field, under the tag that the name is. If the variant is named `Transparent`, it is
    /// the value in it instead, whose item gets that tag; and if the name begins with `Override:`,
    /// which is no part of the tag, that tag replaces the item's own.
    NewtypeVariant {
        name: &'static str,
        variant: &'static str,
        inner: Box<Data<A>, A>,
    },
    /// A Structure of the fields, under the tag that the name is, without a leading `Override:`.
    TupleVariant {
        name: &'static str,
        variant: &'static str,
        fields: Vec<Data<A>, A>,
    },
    /// A value of a Rust type that can't be encoded, by the type's name.
    Unsupported(&'static str),
}

/// What a type is decoded by. It is finite: no shape contains itself.
///
/// ```
/// let mut fields = Vec::new(alloc);
/// fields.push(FieldShape { name: "0xBBBBBB", shape: Shape::I32 })?;
/// let shape = Shape::Struct { name: "0xAAAAAA", fields, deny_unknown: false };
/// ```
#[derive(Drop)]
#[derive_where(Debug, PartialEq)]
#[cycle(shapes)]
pub enum Shape<A: Allocator = Global> {
    /// A Structure whose fields come in this order. With `deny_unknown` nothing may follow them.
    Struct {
        name: &'static str,
        fields: Vec<FieldShape<A>, A>,
        deny_unknown: bool,
    },
    /// As a field: None if the next item has another tag than the field, or if there is no item; otherwise
    /// what the shape in it decodes.
    Option(Box<Shape<A>, A>),
    /// One item or more, each decoded by the shape in it, as long as the next has the first one's tag and type.
    Seq(Box<Shape<A>, A>),
    /// What the shape in it decodes.
    Newtype {
        name: &'static str,
        inner: Box<Shape<A>, A>,
    },
    /// A choice of variants, by their rules or by a number.
    Enum {
        name: &'static str,
        variants: Vec<VariantShape<A>, A>,
    },
    /// An Integer, as `Data::I32`.
    I32,
    /// A Long Integer or a Date-Time.
    I64,
    /// A Boolean, as `Data::Bool`.
    Bool,
    /// A Text String. Rules of later enums may test it.
    Text,
    /// A Byte String or a Big Integer.
    Bytes,
    /// A Date-Time, as `Data::DateTime`: in seconds since 1970.
    DateTime,
    /// An Interval, as `Data::Interval`: in seconds.
    Interval,
    /// A Big Integer, as `Data::BigInteger`: its bytes as they came.
    BigInteger,
    /// An Enumeration of any number. Rules of later enums may test it, as they test a unit's number.
    U32,
}

/// A field of a struct. Its name is its tag.
#[derive(Drop)]
#[derive_where(Debug, PartialEq)]
#[cycle(shapes)]
pub struct FieldShape<A: Allocator = Global> {
    /// The field's tag, as a number in hexadecimal.
    pub name: &'static str,
    /// What the field is decoded by.
    pub shape: Shape<A>,
}

/// A variant of an enum. Its name is a rule if it begins with `if `, otherwise a number.
#[derive(Drop)]
#[derive_where(Debug, PartialEq)]
#[cycle(shapes)]
pub struct VariantShape<A: Allocator = Global> {
    /// A rule or a number.
    pub name: &'static str,
    /// What is decoded if this variant is chosen.
    pub content: VariantContent<A>,
}

/// What a variant contains.
#[derive(Drop)]
#[derive_where(Debug, PartialEq)]
#[cycle(shapes)]
pub enum VariantContent<A: Allocator = Global> {
    /// Nothing: the variant is chosen by its number.
    Unit,
    /// What one shape decodes from the item.
    Newtype(Box<Shape<A>, A>),
    /// What these shapes decode from the items of a Structure, all of which they must use up.
    Tuple(Vec<Shape<A>, A>),
}

/// A type whose values can be encoded. `parts` has an example of `visit`.
pub trait Serialize {
    // The value that this one is encoded as.
    ghost stated: { Self → Value };

    /// Calls a visitor with what this value is: each group and leaf of the data that stands for it, in their
    /// order. Returns the first error that the visitor returns, and no other.
    fn visit<V: Visitor>(&self, visitor: &mut V) -> Result<(), AllocError>
        ensures received { OnOk result (Receives V.knows V.step (stated self.now) visitor.old visitor.new) }
        ensures stopped { OnErr result (V.stopped visitor.new) };

    /// The data that stands for this value. Fails if memory runs out.
    ///
    /// ```
    /// assert!(rt; Leaf::I32(8).to_data(alloc)? == Data::I32(8));
    /// ```
    final fn to_data<A: Allocator + Copy>(&self, alloc: A) -> Result<Data<A>, AllocError>
    where
        Self: Sized,
        ensures { IfOk result (λ d. view d ≡ stated self.now) }
    {
        data_of(alloc, self)
    }
}
