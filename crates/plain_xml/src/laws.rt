//! A law of the definitions that reading's contract cites, on a function without a body.

ghost use Rattle.std.specs.Prelude.{encode_utf8_all};
ghost use Rattle.std.specs.Str.{chars};
ghost use Rattle.plain_xml.specs.Elements.{Tree};
ghost use Rattle.plain_xml.specs.Forms.{IsXmlOf};
ghost use Rattle.plain_xml.specs.Writings.{IsWritable, text_of};

/// The canonical text of an element that XML can hold is a form of it, so [`read`] returns its elements.
///
/// [`read`]: crate::read
pub fn a_canonical_text_is_a_form()
    ensures { (root : Tree) → IsWritable root → IsXmlOf (chars (encode_utf8_all (text_of root))) root }
{}
