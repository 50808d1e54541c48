//! The shapes that the messages of `inputs` are decoded by.

use crate::names::{
    IfAtLeastOne, IfInteger, IfOtherAtLeastWord, IfStructure, IfText, TagA, TagB, TagC,
};
use crate::parts::{
    Choice, Content, Maybe, NoFields, NoParts, Number, Octets, OneField, OneVariant, Parts,
    Repeated, Sequence, Structure, Text, Tuple, TwoFields, TwoVariants,
};

/// A structure of one field.
type Of<P> = Structure<TagA, OneField<TagB, P>>;

/// A structure of a sequence of integers, as many as a sender likes.
pub type Numbers = Of<Sequence<Number>>;

/// A structure of one byte string, as long as a sender likes.
pub type Long = Of<Octets>;

/// Many structures with no content.
pub type Empties = Of<Sequence<Structure<TagB, NoFields>>>;

/// A rule that asks for a text which never comes, and one that is true.
type TextByRule = TwoVariants<IfOtherAtLeastWord, Content<Text>, IfText, Content<Text>>;

/// Many texts under one tag, each chosen by a rule that asks for another tag.
pub type Texts = Of<Sequence<Choice<TagB, TextByRule>>>;

type NumberByRule = TwoVariants<IfOtherAtLeastWord, Content<Number>, IfInteger, Content<Number>>;

type Pair = Tuple<Parts<Text, Parts<Choice<TagC, NumberByRule>, NoParts>>>;

/// Many tuples, each of a text and of a number that is chosen by a rule which asks for another tag.
pub type Tuples = Of<Sequence<Choice<TagB, OneVariant<IfStructure, Pair>>>>;

type ByText = Choice<TagC, OneVariant<IfAtLeastOne, Content<Number>>>;

/// A text, and many integers, each chosen by a rule that asks for the number that the text is.
pub type Asked = Structure<TagA, TwoFields<TagB, Text, TagC, Sequence<ByText>>>;

/// A structure of a hundred fields of one name, each of which may be absent.
pub type Fields = Structure<TagA, Repeated<TagB, Maybe<Number>, 100, NoFields>>;
