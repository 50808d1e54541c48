//! A value calls a visitor with one event after the other: the leaves, and where each group of values begins
//! and ends. So the tree that `Data` is needn't be built.

ghost use Rattle.std.specs.Prelude.{OnOk, OnErr};
ghost use Rattle.kmip_ttlv_base.specs.Visits.{Event, alone, begun, ended, leaf_value, around, ReceivesEvent};

use std::alloc::AllocError;

/// A value that contains no other: the variant of `Data` with the same name.
#[derive(Clone, Copy, Debug, PartialEq, Eq)]
pub enum Leaf<'a> {
    /// A Boolean: the number 0 or 1 in eight bytes.
    Bool(bool),
    /// An Integer of four bytes, of a number of 8 bits.
    I8(i8),
    /// An Integer of four bytes, of a number of 16 bits.
    I16(i16),
    /// An Integer: a signed number of four bytes.
    I32(i32),
    /// An Enumeration, by its number of four bytes.
    U32(u32),
    /// A Long Integer: a signed number of eight bytes.
    I64(i64),
    /// A Date-Time, by its 64 bits.
    U64(u64),
    /// A Date-Time, in seconds since 1970.
    DateTime(i64),
    /// An Interval, in seconds.
    Interval(u32),
    /// A Text String, in UTF-8.
    Text(&'a str),
    /// A Byte String, as it is.
    Bytes(&'a [u8]),
    /// A Big Integer, the highest byte first. Its sign is extended to a multiple of eight bytes.
    BigInteger(&'a [u8]),
    /// No item: it can't be encoded. For a field that is absent, call the visitor with nothing instead.
    None,
    /// An Enumeration under the tag that the name is, of the number that the variant's name is.
    UnitVariant {
        name: &'static str,
        variant: &'static str,
    },
    /// A value of a Rust type that can't be encoded, by the type's name.
    Unsupported(&'static str),
}

/// A group of values: the variant of `Data` with the same name, without the values in it.
#[derive(Clone, Copy, Debug, PartialEq, Eq)]
pub enum Group {
    /// The value in it.
    Some,
    /// The values, one after the other.
    Seq,
    /// A Structure of the fields.
    Struct {
        name: &'static str,
    },
    /// A Structure of one field, or a wrapper if the name begins with `Transparent:`.
    Newtype {
        name: &'static str,
    },
    /// The value in it, whose item gets the tag of this number: what a newtype named `Transparent:` and the tag's
    /// six digits is. Of a number above 2^24 - 1 the last 24 bits count.
    Tagged {
        tag: u32,
    },
    /// A Structure of the fields under the tag of this number: what a struct named by the tag is. Of a number
    /// above 2^24 - 1 the last 24 bits count.
    Structure {
        tag: u32,
    },
    /// A Structure of one field, or a wrapper if the variant is named `Transparent`.
    NewtypeVariant {
        name: &'static str,
        variant: &'static str,
    },
    /// A Structure of the fields.
    TupleVariant {
        name: &'static str,
        variant: &'static str,
    },
}

/// Gets the events of a value. After an AllocError it gets no more.
pub trait Visitor {
    // What can be known of the events so far.
    ghost State: { Type 0 };

    // Whether this is known of the visitor.
    ghost knows: { Self → State → Type 0 };

    // What is known after this event.
    ghost step: { Event → State → State };

    // What holds of a visitor that returned an error. One that never does has the empty type here.
    ghost stopped: { Self → Type 0 };

    /// A value that contains no other.
    fn leaf(&mut self, leaf: Leaf<'_>) -> Result<(), AllocError>
        ensures received { OnOk result (ReceivesEvent knows step (alone (leaf_value leaf.entry)) self.old self.new) }
        ensures stopped { OnErr result (stopped self.new) };

    /// The start of a group: what follows, up to its end, is in it.
    fn begin(&mut self, group: Group) -> Result<(), AllocError>
        ensures received { OnOk result (ReceivesEvent knows step (begun (around group)) self.old self.new) }
        ensures stopped { OnErr result (stopped self.new) };

    /// The end of this group, the innermost open one.
    fn end(&mut self, group: Group) -> Result<(), AllocError>
        ensures received { OnOk result (ReceivesEvent knows step (ended (around group)) self.old self.new) }
        ensures stopped { OnErr result (stopped self.new) };
}
