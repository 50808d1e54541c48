//! Shapes put together by types: each type here stands for one shape, whatever memory it lies in.

ghost use Rattle.std.specs.Prelude.{◌≡◌, List, ℕ, IfOk};
ghost use Rattle.kmip_ttlv.specs.Forms.{Form, struct, option, seq, newtype, enum, int32, int64, boolean, text, octets};
ghost use Rattle.kmip_ttlv.specs.Forms.{interval, big_integer, any_number, Fields, no_fields, field, Variants, no_variants};
ghost use Rattle.kmip_ttlv.specs.Forms.{variant, Content, unit, wrapped, tuple, Forms, no_forms, form, form_of};
ghost use Rattle.kmip_ttlv.specs.Forms.{forms_of, content_of, fields_of, variants_of};
ghost use Rattle.sample_shapes.specs.ManyFields.{many};

use kmip_ttlv::shape::{FieldShape, Shape, VariantContent, VariantShape};
use std::alloc::{AllocError, Allocator};
use std::marker::PhantomData;

/// A type that stands for a name.
pub trait Name {
    // The name.
    ghost letters: { List ℕ };

    /// The name that the type stands for.
    fn name() -> &'static str
        ensures { result.now ≡ letters };
}

/// A type that stands for a shape.
pub trait Part {
    // The form that the shape is.
    ghost part: { Form };

    /// The shape that the type stands for. Fails if memory runs out.
    fn shape<A: Allocator + Copy>(alloc: A) -> Result<Shape<A>, AllocError>
        ensures { IfOk result (λ s. form_of s ≡ part) };
}

/// A type that stands for the fields of a struct.
pub trait FieldList {
    // The fields.
    ghost all: { Fields };

    /// The fields that the type stands for, in order. Fails if memory runs out.
    fn fields<A: Allocator + Copy>(alloc: A) -> Result<Vec<FieldShape<A>, A>, AllocError>
        ensures { IfOk result (λ v. fields_of v.items ≡ all) };
}

/// A type that stands for shapes, one after the other.
pub trait PartList {
    // The forms.
    ghost all: { Forms };

    /// The shapes that the type stands for, in order. Fails if memory runs out.
    fn shapes<A: Allocator + Copy>(alloc: A) -> Result<Vec<Shape<A>, A>, AllocError>
        ensures { IfOk result (λ v. forms_of v.items ≡ all) };
}

/// A type that stands for the content of a variant.
pub trait Contained {
    // The content.
    ghost inside: { Content };

    /// The content that the type stands for. Fails if memory runs out.
    fn content<A: Allocator + Copy>(alloc: A) -> Result<VariantContent<A>, AllocError>
        ensures { IfOk result (λ c. content_of c ≡ inside) };
}

/// A type that stands for the variants of an enum.
pub trait VariantList {
    // The variants.
    ghost all: { Variants };

    /// The variants that the type stands for, in order. Fails if memory runs out.
    fn variants<A: Allocator + Copy>(alloc: A) -> Result<Vec<VariantShape<A>, A>, AllocError>
        ensures { IfOk result (λ v. variants_of v.items ≡ all) };
}

/// A signed number of four bytes.
pub struct Number;

impl Part for Number {
    ghost part = { int32 };

    fn shape<A: Allocator + Copy>(_alloc: A) -> Result<Shape<A>, AllocError> {
        Ok(Shape::I32)
    }
}

/// A signed number of eight bytes.
pub struct LongNumber;

impl Part for LongNumber {
    ghost part = { int64 };

    fn shape<A: Allocator + Copy>(_alloc: A) -> Result<Shape<A>, AllocError> {
        Ok(Shape::I64)
    }
}

/// A truth value: the shape of a Boolean.
pub struct Truth;

impl Part for Truth {
    ghost part = { boolean };

    fn shape<A: Allocator + Copy>(_alloc: A) -> Result<Shape<A>, AllocError> {
        Ok(Shape::Bool)
    }
}

/// A text: the shape of a Text String.
pub struct Text;

impl Part for Text {
    ghost part = { text };

    fn shape<A: Allocator + Copy>(_alloc: A) -> Result<Shape<A>, AllocError> {
        Ok(Shape::Text)
    }
}

/// Bytes: the shape of a Byte String or a Big Integer.
pub struct Octets;

impl Part for Octets {
    ghost part = { octets };

    fn shape<A: Allocator + Copy>(_alloc: A) -> Result<Shape<A>, AllocError> {
        Ok(Shape::Bytes)
    }
}

/// A span of time.
pub struct Span;

impl Part for Span {
    ghost part = { interval };

    fn shape<A: Allocator + Copy>(_alloc: A) -> Result<Shape<A>, AllocError> {
        Ok(Shape::Interval)
    }
}

/// A number of any length.
pub struct BigNumber;

impl Part for BigNumber {
    ghost part = { big_integer };

    fn shape<A: Allocator + Copy>(_alloc: A) -> Result<Shape<A>, AllocError> {
        Ok(Shape::BigInteger)
    }
}

/// An Enumeration of any number.
pub struct AnyNumber;

impl Part for AnyNumber {
    ghost part = { any_number };

    fn shape<A: Allocator + Copy>(_alloc: A) -> Result<Shape<A>, AllocError> {
        Ok(Shape::U32)
    }
}

// The shape, in a box.
fn boxed<P: Part, A: Allocator + Copy>(alloc: A) -> Result<Box<Shape<A>, A>, AllocError>
    ensures { IfOk result (λ b. form_of b.value ≡ P.part) }
{
    Ok(Box::new(alloc, P::shape(alloc)?)?)
}

/// What may be left out.
pub struct Maybe<P>(PhantomData<P>);

impl<P: Part> Part for Maybe<P> {
    ghost part = { option P.part };

    fn shape<A: Allocator + Copy>(alloc: A) -> Result<Shape<A>, AllocError> {
        Ok(Shape::Option(boxed::<P, A>(alloc)?))
    }
}

/// One after the other.
pub struct Sequence<P>(PhantomData<P>);

impl<P: Part> Part for Sequence<P> {
    ghost part = { seq P.part };

    fn shape<A: Allocator + Copy>(alloc: A) -> Result<Shape<A>, AllocError> {
        Ok(Shape::Seq(boxed::<P, A>(alloc)?))
    }
}

/// A newtype of this name.
pub struct Wrapping<N, P>(PhantomData<N>, PhantomData<P>);

impl<N: Name, P: Part> Part for Wrapping<N, P> {
    ghost part = { newtype N.letters P.part };

    fn shape<A: Allocator + Copy>(alloc: A) -> Result<Shape<A>, AllocError> {
        let inner = boxed::<P, A>(alloc)?;
        Ok(Shape::Newtype {
            name: N::name(),
            inner,
        })
    }
}

/// A struct of this name. Whether it has no further fields is said last.
pub struct StructureOf<N, L, const DENY: bool>(PhantomData<N>, PhantomData<L>);

/// A struct of this name, after whose fields others may come.
pub type Structure<N, L> = StructureOf<N, L, false>;

/// A struct of this name, with no further fields.
pub type ClosedStructure<N, L> = StructureOf<N, L, true>;

impl<N: Name, L: FieldList, const DENY: bool> Part for StructureOf<N, L, DENY> {
    ghost part = { struct N.letters L.all DENY };

    fn shape<A: Allocator + Copy>(alloc: A) -> Result<Shape<A>, AllocError> {
        let fields = L::fields(alloc)?;
        Ok(Shape::Struct {
            name: N::name(),
            fields,
            deny_unknown: DENY,
        })
    }
}

/// The end of a list of fields.
pub struct NoFields;

impl FieldList for NoFields {
    ghost all = { no_fields };

    fn fields<A: Allocator + Copy>(alloc: A) -> Result<Vec<FieldShape<A>, A>, AllocError> {
        Ok(Vec::new(alloc))
    }
}

/// A field, its name and its shape, and then others.
pub struct Field<N, P, L>(PhantomData<N>, PhantomData<P>, PhantomData<L>);

impl<N: Name, P: Part, L: FieldList> FieldList for Field<N, P, L> {
    ghost all = { field N.letters P.part L.all };

    fn fields<A: Allocator + Copy>(alloc: A) -> Result<Vec<FieldShape<A>, A>, AllocError> {
        let mut fields = L::fields(alloc)?;
        let shape = P::shape(alloc)?;
        let name = N::name();
        fields.insert(0, FieldShape { name, shape })?;
        Ok(fields)
    }
}

/// So many fields of one name and shape, and then others.
pub struct Repeated<N, P, const COUNT: u8, L>(PhantomData<N>, PhantomData<P>, PhantomData<L>);

impl<N: Name, P: Part, const COUNT: u8, L: FieldList> FieldList for Repeated<N, P, COUNT, L> {
    ghost all = { many N.letters P.part COUNT L.all };

    fn fields<A: Allocator + Copy>(alloc: A) -> Result<Vec<FieldShape<A>, A>, AllocError> {
        let mut fields = L::fields(alloc)?;
        for _i in 0..COUNT {
            let shape = P::shape(alloc)?;
            let name = N::name();
            fields.insert(0, FieldShape { name, shape })?;
        }
        Ok(fields)
    }
}

/// One field: its name and its shape.
pub type OneField<N, P> = Field<N, P, NoFields>;

/// Two fields: their names, each with its shape.
pub type TwoFields<N, P, M, Q> = Field<N, P, Field<M, Q, NoFields>>;

/// Three fields: their names, each with its shape.
pub type ThreeFields<N, P, M, Q, O, R> = Field<N, P, Field<M, Q, Field<O, R, NoFields>>>;

/// What a unit variant has as its content: nothing.
pub struct NoContent;

impl Contained for NoContent {
    ghost inside = { unit };

    fn content<A: Allocator + Copy>(_alloc: A) -> Result<VariantContent<A>, AllocError> {
        Ok(VariantContent::Unit)
    }
}

/// Content of one shape.
pub struct Content<P>(PhantomData<P>);

impl<P: Part> Contained for Content<P> {
    ghost inside = { wrapped P.part };

    fn content<A: Allocator + Copy>(alloc: A) -> Result<VariantContent<A>, AllocError> {
        Ok(VariantContent::Newtype(boxed::<P, A>(alloc)?))
    }
}

/// The end of a list of shapes.
pub struct NoParts;

impl PartList for NoParts {
    ghost all = { no_forms };

    fn shapes<A: Allocator + Copy>(alloc: A) -> Result<Vec<Shape<A>, A>, AllocError> {
        Ok(Vec::new(alloc))
    }
}

/// A shape, and then others.
pub struct Parts<P, L>(PhantomData<P>, PhantomData<L>);

impl<P: Part, L: PartList> PartList for Parts<P, L> {
    ghost all = { form P.part L.all };

    fn shapes<A: Allocator + Copy>(alloc: A) -> Result<Vec<Shape<A>, A>, AllocError> {
        let mut shapes = L::shapes(alloc)?;
        let shape = P::shape(alloc)?;
        shapes.insert(0, shape)?;
        Ok(shapes)
    }
}

/// A tuple of these shapes.
pub struct Tuple<L>(PhantomData<L>);

impl<L: PartList> Contained for Tuple<L> {
    ghost inside = { tuple L.all };

    fn content<A: Allocator + Copy>(alloc: A) -> Result<VariantContent<A>, AllocError> {
        let shapes = L::shapes(alloc)?;
        Ok(VariantContent::Tuple(shapes))
    }
}

/// An enum of this name.
pub struct Choice<N, L>(PhantomData<N>, PhantomData<L>);

impl<N: Name, L: VariantList> Part for Choice<N, L> {
    ghost part = { enum N.letters L.all };

    fn shape<A: Allocator + Copy>(alloc: A) -> Result<Shape<A>, AllocError> {
        let variants = L::variants(alloc)?;
        Ok(Shape::Enum {
            name: N::name(),
            variants,
        })
    }
}

/// The end of a list of variants.
pub struct NoVariants;

impl VariantList for NoVariants {
    ghost all = { no_variants };

    fn variants<A: Allocator + Copy>(alloc: A) -> Result<Vec<VariantShape<A>, A>, AllocError> {
        Ok(Vec::new(alloc))
    }
}

/// A variant, its name and its content, and then others.
pub struct Variant<N, C, L>(PhantomData<N>, PhantomData<C>, PhantomData<L>);

impl<N: Name, C: Contained, L: VariantList> VariantList for Variant<N, C, L> {
    ghost all = { variant N.letters C.inside L.all };

    fn variants<A: Allocator + Copy>(alloc: A) -> Result<Vec<VariantShape<A>, A>, AllocError> {
        let mut variants = L::variants(alloc)?;
        let content = C::content(alloc)?;
        let name = N::name();
        variants.insert(0, VariantShape { name, content })?;
        Ok(variants)
    }
}

/// One variant: its name and its content.
pub type OneVariant<N, C> = Variant<N, C, NoVariants>;

/// Two variants: their names, each with its content.
pub type TwoVariants<N, C, M, D> = Variant<N, C, Variant<M, D, NoVariants>>;
