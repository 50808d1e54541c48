//! Decoding values from TTLV bytes, and from a stream of bytes; and reading them by the shape of their type.
//!
//! `from_slice` is the entry, and `from_reader` that for a stream. `from_slice` calls `Decode::decode`, which goes by the shape
//! for a type that has one; a type that reads itself has a `decode` of its own. What a shape reads is defined in the specs/ of
//! kmip_ttlv_reader: `Outcomes` says as one total function which value comes, or which error and where; `Reads` has one rule
//! for each way to read from a list of items, and `Begins` says that bytes begin with an item from which a form reads a value.
//! The two agree (`read_by_rules`).
#![tactic(auto)]

ghost use Rattle.std.specs.Prelude.{◌≡◌, ◌+◌, ◌≤◌, ◌++◌, List, ℕ, length, IfOk, IfErr};
ghost use Rattle.kmip_ttlv_types.specs.Items.{Raw, Splits};
ghost use Rattle.kmip_ttlv_types.specs.Places.{ItemsAt};
ghost use Rattle.kmip_ttlv_base.specs.Values.{Value, view};
ghost use Rattle.kmip_ttlv_base.specs.Forms.{Form, form_of};
ghost use Rattle.kmip_ttlv_base.specs.Gives.{Gives};
ghost use Rattle.kmip_ttlv_reader.specs.TagValues.{TagValue};
ghost use Rattle.kmip_ttlv_reader.specs.Reads.{Reads, Begins};
ghost use Rattle.kmip_ttlv_reader.specs.Steps.{Read, gives, ends_early, reads};
ghost use Rattle.kmip_ttlv_reader.specs.Outcomes.{outcome, root_outcome};
ghost use Rattle.kmip_ttlv_reader.specs.ReadResults.{IsReadAs, ErrorStands, early_end, sort_of};
ghost use Rattle.kmip_ttlv_reader.specs.Wholes.{BeginsWhole};
ghost use Rattle.kmip_ttlv_reader.specs.ReadLaws.{AreBytes, Stands};

mod deserialize;
mod field_tags;
mod made;
mod number;
mod read;
mod rest;
mod root;
mod rows;
mod stream;
mod variant;

pub use crate::deserialize::{ByShape, Decode, Deserialize};
use crate::root::read_root;
pub use crate::rows::small_messages;
pub use crate::stream::{Config, from_reader};
use kmip_ttlv_base::error::Result;
use kmip_ttlv_base::shape::{Data, Shape};
use std::alloc::Allocator;

/// The value with which the bytes begin: one Structure, padding included, by the form of `T`
/// (KMIP 1.0, section 9.1). Bytes after that item are not read.
///
/// Errors without a place:
///
/// - `OutOfMemory`: memory ran out.
/// - `IoError` of kind UnexpectedEof: the bytes end too early.
///
/// Every other error says where it is, in bytes from the first byte, with the tag and the type of the
/// item and the tags of the structures around it. More bytes don't help. `MalformedTtlv`:
///
/// - `InvalidType`: an item's code is that of no type.
/// - `InvalidLength`: an item has another length than its type's.
/// - `InvalidValue`: a Boolean of another number than 0 and 1, or a text that is not UTF-8.
/// - `Overflow`: an item goes past the end of the Structure around it.
/// - `UnexpectedType`: a leaf where a struct or a tuple needs a Structure.
/// - `UnexpectedTtlvField`: the root's shape is a leaf; a rule chose a variant without content, or
///   a number chose one with content.
///
/// `SerdeError`:
///
/// - `UnexpectedTag`: an item's tag is not the one of the field or of the struct.
/// - `UnexpectedType`: an item is not of the type that a leaf's shape needs, or no number where one
///   would choose a variant.
/// - `InvalidTag`: the name of a struct or of a field is no tag, or a rule's text is no tag or no
///   number.
/// - `InvalidVariantMatcherSyntax`: a rule has no operator.
/// - `MissingIdentifier`: an item in a struct without fields.
/// - `Other`: the root's shape is a sequence or an enum; a Structure ends before its fields, or the
///   parts of a tuple, are read; an item is too many for a tuple; an item after the fields has the
///   tag of one of them, or the struct allows no other; a number names no variant.
///
/// ```
/// let bytes = hex::decode(alloc, "420078010000002042000D0200000004000000010000000042005002000000040000100000000000")?;
/// let ping: Ping = from_slice(alloc, &bytes)?; // the type of docs/LIBRARY.md
/// assert!(rt; ping.count == 1 && ping.maximum_size == 4096);
/// ```
pub fn from_slice<T: Decode<A>, A: Allocator + Copy>(alloc: A, bytes: &[u8]) -> Result<T, A>
    // Which value comes, or which error and where: unless memory runs out, what the form reads the bytes as.
    ensures equals { IsReadAs T.is_value (root_outcome T.form bytes.now) result }
    // What is returned is the value for data with which the bytes begin.
    ensures found { IfOk result (λ x. (v : Value) × Begins T.form bytes.now v × T.is_value v x) }
    // Bytes with an error begin with no data; but for an early end, whatever bytes follow.
    ensures refused { IfErr result (λ e. ErrorStands T.form bytes.now e) }
    // A Structure that is split into items at every depth never ends too early.
    ensures whole { IfErr result (λ e. BeginsWhole bytes.now → sort_of e ≡ early_end → ⊥) }
{
    T::decode(alloc, bytes)
}

/// The data with which the bytes begin, by a shape that may be made at run time: one Structure, padding included
/// (KMIP 1.0, section 9.1). Bytes after that item are not read. It has the errors of `from_slice`.
///
/// ```
/// let mut fields = Vec::new(alloc);
/// fields.push(FieldShape { name: "0xBBBBBB", shape: Shape::I32 })?;
/// let shape = Shape::Struct { name: "0xAAAAAA", fields, deny_unknown: false };
/// let data = from_slice_by_shape(alloc, &shape, bytes)?; // Data::Struct { .. }
/// ```
pub fn from_slice_by_shape<A: Allocator + Copy>(
    alloc: A,
    shape: &Shape<A>,
    bytes: &[u8],
) -> Result<Data<A>, A>
    // Which data comes, or which error and where: unless memory runs out, what the shape reads the bytes as.
    ensures equals { IsReadAs (λ v d. v ≡ view d) (root_outcome (form_of shape.now) bytes.now) result }
    // The bytes begin with what is returned.
    ensures found { IfOk result (λ d. Begins (form_of shape.now) bytes.now (view d)) }
    // Bytes with an error begin with no data; but for an early end, whatever bytes follow.
    ensures refused { IfErr result (λ e. ErrorStands (form_of shape.now) bytes.now e) }
    // A Structure that is split into items at every depth never ends too early.
    ensures whole { IfErr result (λ e. BeginsWhole bytes.now → sort_of e ≡ early_end → ⊥) }
{
    read_root(alloc, shape, bytes)
}

/// What a form reads by its rules, that comes of the bytes, and nothing else.
pub fn read_by_rules()
    // From items that stand from one place to another.
    ensures complete { (s : Form) (bytes : List ℕ) (o : ℕ) (k k' : List TagValue) (p e : ℕ) (xs ys : List Raw) (v : Value)
        → p ≤ length bytes
        → ItemsAt bytes p e xs
        → Reads s k xs v k' ys
        → (q : ℕ) × (outcome s bytes o k p e ≡ reads v k' q) × ItemsAt bytes q e ys }
    ensures sound { (s : Form) (bytes : List ℕ) (o : ℕ) (k : List TagValue) (p e : ℕ) (r : Read Value)
        → AreBytes bytes
        → p ≤ e
        → p ≤ length bytes
        → outcome s bytes o k p e ≡ gives r
        → (ys : List Raw)
        → ItemsAt bytes r.next e ys
        → (xs : List Raw) × ItemsAt bytes p e xs × Reads s k xs r.value r.stored ys }
    // Of whole messages.
    ensures whole_complete { (s : Form) (bytes : List ℕ) (v : Value)
        → Begins s bytes v
        → root_outcome s bytes ≡ gives v }
    ensures whole_sound { (s : Form) (bytes : List ℕ) (v : Value)
        → AreBytes bytes
        → root_outcome s bytes ≡ gives v
        → Begins s bytes v }
{}

/// A value stands whatever bytes follow, and so does an error other than an early end.
pub fn results_stand()
    ensures { (s : Form) (bytes after : List ℕ) → Stands (root_outcome s bytes) (root_outcome s (bytes ++ after)) }
{}

/// A Structure that is split into items at every depth never ends too early.
pub fn whole_messages_never_end_early()
    ensures { (s : Form) (bytes : List ℕ) → BeginsWhole bytes → root_outcome s bytes ≡ ends_early → ⊥ }
{}

/// What is read, from items or from bytes, is of the form's kind and names.
pub fn what_begins_is_given()
    ensures items { (s : Form) (k k' : List TagValue) (xs ys : List Raw) (v : Value)
        → Reads s k xs v k' ys
        → Gives s v }
    ensures bytes { (s : Form) (bytes : List ℕ) (v : Value) → Begins s bytes v → Gives s v }
{}

/// At most one value is read from the same bytes.
pub fn one_value()
    ensures { (s : Form) (bytes : List ℕ) (v w : Value) → Begins s bytes v → Begins s bytes w → v ≡ w }
{}

/// At most one list of items splits bytes.
pub fn one_split()
    ensures { (bytes : List ℕ) (xs ys : List Raw) → Splits xs bytes → Splits ys bytes → xs ≡ ys }
{}
