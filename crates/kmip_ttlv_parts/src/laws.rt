//! Laws of encoding and decoding together: what is true of them for any values, shapes and bytes.
//!
//! Each law is the contract of a function with an empty body, so that a proof can call it. specs/ReadingLaws
//! has the statements, in terms of the contracts of encoding and decoding: `IsWrittenAs` is what `to_vec`
//! returns, and `Begins` what `from_slice` finds. specs/Padding defines items that are the same but for
//! padding. A comment at each law says which of its premises is needed, with a small example
//! without it.

ghost use Rattle.kmip_ttlv_base.specs.declared.shape.Data.{Data};
ghost use Rattle.kmip_ttlv_base.specs.Values.{view};
ghost use Rattle.kmip_ttlv_parts.specs.Texts.{TextsAreUtf8};
ghost use Rattle.kmip_ttlv_parts.specs.ReadingLaws.{LaterBytes, MessageAlone, CutMessages, OneTree};
ghost use Rattle.kmip_ttlv_parts.specs.ReadingLaws.{ReadingWhatWasWritten, PaddingIsFree, TextsDifferInPadding};
ghost use Rattle.kmip_ttlv_parts.specs.ReadingLaws.{PaddingOfTreesIsFree, PaddingIsRequired, PaddingOfRootsIsRequired};
ghost use Rattle.kmip_ttlv_parts.specs.ReadingLaws.{WrittenIsWellFormed, WrittenIsItems, CanonicalIsText, ReadingTrees};
ghost use Rattle.kmip_ttlv_parts.specs.ReadingLaws.{LeavesComeBack, UnitsComeBack, AgreeingIsWritten, AgreeingIsRead};
ghost use Rattle.kmip_ttlv_parts.specs.Equal.{AreEqual};
ghost use Rattle.kmip_ttlv_parts.specs.Enumerations.{EnumerationsAgree, enumeration_value};
ghost use Rattle.kmip_ttlv_parts.specs.WorkedAgreements.{AttributesAgree, OptionsAgree, SequencesAgree};

use crate::enumeration::Enumeration;
pub use crate::sound::{Sound, is_absent_or_whole, is_none_of, is_whole};
use std::alloc::Allocator;

/// If the root item's bytes are all there, bytes after it change neither whether it is decoded as a value
/// nor as which.
///
/// So framing code may pass on a message by itself, or with whatever follows it in a buffer. By `message`
/// it needs to look at no more than the length: only the first 8 + length bytes count, whether or not they
/// are an item.
pub fn later_bytes()
    // The item's bytes must be there: the first seven bytes of `42 00 01 01 00 00 00 00` begin with no
    // value, and followed by the eighth they are an empty Structure.
    ensures item { LaterBytes }
    // So must those that the length states: `42 00 01 01 00 00 00 08` begins with no value, and does
    // so when `42 00 02 01 00 00 00 00` follows.
    ensures message { MessageAlone }
{}

/// If a message is cut anywhere before its end, the rest may still come: it begins with no value, and no
/// error of it stays, so `from_slice` returns an early end or out of memory.
///
/// So code that reads until a message is whole never takes a cut message for a whole one, nor for one that
/// lacks a field.
pub fn cut_messages_end_early()
    // The whole must be a message that is decoded: if its tag isn't the shape's, that is the error, cut
    // or not. And bytes must be missing.
    ensures { CutMessages }
{}

/// Bytes encode at most one tree.
///
/// So one can speak of the tree of a message, as decoding, printing and their proofs do.
pub fn one_tree()
    // The leaves must be valid, as they are in a tree that bytes encode: otherwise the same bytes could be
    // a leaf of type Structure and a Structure.
    ensures { OneTree }
{}

/// Encoded bytes are decoded as their first item is: a shape that is a struct, possibly within newtypes and
/// options, finds a value in the bytes if and only if it reads that value from the first of the encoded
/// items alone.
///
/// Every round trip of a type that clients and servers share rests on it. It is also true of what a serializer
/// appends to the bytes of earlier calls.
pub fn reading_what_was_written()
    // That the bytes were encoded means that the items fit: the length of content of 2^32 bytes
    // would be written as 0, and its item read as an empty one. A shape that is no such struct isn't a
    // message's: the integer 1 in a newtype `Transparent:0x420001` is encoded as one leaf, which the
    // shape of an integer reads, but no message begins with a leaf.
    ensures { ReadingWhatWasWritten }
{}

/// A well-formed message is decoded as its tree is: the same as the law above for any bytes that encode a
/// tree, whoever wrote them.
///
/// So a message from another implementation means what its tree means.
pub fn reading_trees()
    // A shape that is no struct reads leaves, and no message begins with one.
    ensures { ReadingTrees }
{}

/// Padding changes neither whether a message is decoded as a value nor as which: items that differ in the
/// values of padding bytes alone are decoded alike, at every depth, whatever follows them.
///
/// So other implementations may pad with any bytes.
pub fn padding_is_free()
    // The items must be the same but for padding: the last four bytes of the Integer
    // `42 00 02 02 00 00 00 04 00 00 00 01 00 00 00 00` are padding, and the four before them are
    // its value. In content that isn't a list of items no byte is padding.
    ensures { PaddingIsFree }
{}

/// The same for well-formed messages: all encodings of one tree begin with the same values.
///
/// So messages, of other implementations too, may be compared by their trees.
pub fn padding_of_trees_is_free()
    // All encodings of a tree encode items that are the same but for padding.
    ensures items { TextsDifferInPadding }
    // Both must encode the same tree: an Integer 1 and an Integer 2 don't.
    ensures values { PaddingOfTreesIsFree }
{}

/// Padding must be there: from a Structure whose last item has too little of it no shape reads a value,
/// wherever the Structure is, and no message begins with it.
///
/// So no item is cut short in what is decoded, whoever wrote it.
pub fn padding_is_required()
    // It must be the last item: otherwise the first bytes of the next item are the padding. So
    // `42 00 02 02 00 00 00 04 00 00 00 01` and `42 00 03 08 00 00 00 01 00 00 00 04 00 00 00 00`, an
    // Integer that lacks its padding and a Byte String, are an Integer with the padding `42 00 03 08`
    // and a Structure of four bytes. And a Structure that is ignored needn't be items at all, so
    // this law is about what is read.
    ensures anywhere { PaddingIsRequired }
    ensures root { PaddingOfRootsIsRequired }
{}

/// Encoded bytes are the items of the value, in order, and each Structure's content is the items of what is in
/// it, at every depth.
///
/// Round trips of users' types rest on it, structure by structure: it says what a shape finds in a
/// Structure that was encoded.
pub fn written_is_items()
    // The value must have an encoding, so that it fits: content of 2^32 bytes would be that of no item.
    ensures { WrittenIsItems }
{}

/// Encoded bytes are well-formed: the canonical bytes of each item, in order, and each leaf's content is valid
/// for its type.
///
/// So what is true of well-formed messages, when they are decoded or printed, is true of what was encoded.
pub fn written_is_well_formed()
    // The value's texts must be UTF-8, as those of data are, by the law below: a text of the one byte FF
    // would be written as it is, and be no valid Text String.
    ensures { WrittenIsWellFormed }
{}

/// The texts in data are UTF-8, so data is encoded as well-formed bytes.
///
/// It is what `written_is_well_formed` needs for data.
pub fn texts_of_data_are_utf8<A: Allocator>()
    ensures { (d : Data A) → TextsAreUtf8 (view d) }
{}

/// A tree that has an encoding has its canonical bytes as one, of the same length.
///
/// So a proxy that encodes again what it decoded needs no more room.
pub fn canonical_is_text()
    // It must have one: a tree whose content has 2^32 bytes, or with an invalid leaf, has none.
    ensures { CanonicalIsText }
{}

/// A leaf that was encoded is decoded again: an integer of 8, 16 or 32 bits as the same integer of 32, a
/// Long Integer, Boolean, Text String, Byte String, `DateTime`, Interval and Enumeration as itself, a `U64` as the
/// `I64` of its bits, and a Big Integer as its sign-extended bytes.
///
/// Round trips of users' types rest on it, field by field.
pub fn leaves_are_read_back()
    // The numbers must fit, and the text must be UTF-8: 2^31 would come back as -2^31.
    ensures { LeavesComeBack }
{}

/// A unit variant that was encoded is decoded by its number: as the unit whose name, in an enum's shape, is that
/// number as `0x` and eight uppercase digits, and so as itself if its own name is that text.
///
/// Round trips of users' enums rest on it.
pub fn units_are_read_back()
    // No rule may choose a variant before the number does, and the first variant of that name must be a
    // unit: a variant named `0x1` is encoded as 00000001, and looked for as `0x00000001`. The name must be
    // one that can be taken: under a pending tag that doesn't override nothing is encoded.
    ensures { UnitsComeBack }
{}

/// An encoded value is decoded: if it agrees with a shape's form, its bytes begin with the value that it agrees
/// as, and with no other.
///
/// Round trips of users' messages rest on it: a type shows that what it is encoded as agrees with its form, as
/// what it is decoded as, and this law gives the rest.
pub fn agreeing_values_come_back()
    // An empty sequence and an option that is left out are encoded as no item, so what agrees is more than these.
    ensures written { AgreeingIsWritten }
    // The bytes must be those of the value, so that all lengths fit. A shape that is no struct decodes no message.
    ensures read { AgreeingIsRead }
{}

/// An Enumeration of any number comes back as itself, whatever its tag is, and two that stand for the same are equal.
///
/// It is what the laws of message types say of each Enumeration in them.
pub fn enumerations_come_back<const TAG: u32>()
    // The number must be one of four bytes: of 2^32 the bytes would be those of 0.
    ensures agrees { EnumerationsAgree TAG }
    ensures equal { AreEqual (enumeration_value {tag = TAG}) ⟦<Enumeration<TAG> as PartialEq>⟧.eq }
{}

/// Worked values that agree with a form: attributes of a key, each decoded by the rule that its own name
/// chooses, options of which one is left out, and sequences that may be empty.
pub fn worked_values_agree()
    ensures attributes { AttributesAgree }
    ensures options { OptionsAgree }
    ensures sequences { SequencesAgree }
{}
