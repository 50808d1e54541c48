//! Reading a text.

ghost use Rattle.std.specs.Prelude.{◌≡◌, ◌<◌, ◌≤◌, ◌^◌, length, map, not, position, encode_utf8_all, IfOk, MatchResult};
ghost use Rattle.std.specs.Str.{chars};
ghost use Rattle.plain_xml.specs.Characters.{is_character};
ghost use Rattle.plain_xml.specs.Faults.{Gives};
ghost use Rattle.plain_xml.specs.Elements.{Tree, flat, element_view};
ghost use Rattle.plain_xml.specs.Documents.{document};
ghost use Rattle.plain_xml.specs.Forms.{IsXmlOf, AreElementsOf};
ghost use Rattle.plain_xml.specs.Readings.{IsNoMemory, IsErrorOf, FailsFirst};

use crate::characters::is_character;
use crate::document::elements_of;
use crate::element::Element;
use crate::failure::{Fault, Flaw, Stop, XmlError};
use std::alloc::{AllocError, Allocator};

/// Where the first character is that XML can't hold.
pub fn wrong_character(text: &[char]) -> Option<usize>
    ensures { result ≡ position (λ c. not (is_character c)) text.now }
{
    text.iter().position(|c| !is_character(*c as u32))
}

// The elements of a text.
#[tactic(auto, unfolding(crate::specs::Documents::document))]
fn document<A: Allocator + Copy>(alloc: A, text: &[char]) -> Result<Vec<Element<A>, A>, Stop>
    ensures { Gives (λ v. map element_view v.items) result (document text.now) }
{
    match wrong_character(text) {
        Some(at) => Err(Stop::At(Fault {
            flaw: Flaw::Character,
            left: text.len() - at,
        })),
        None => elements_of(alloc, text),
    }
}

/// How many bytes characters take.
#[tactic(auto, using(crate::proofs::Offsets::length_encodes_cons))]
pub fn byte_len(characters: &[char]) -> usize
    requires { length (encode_utf8_all characters.now) < 2 ^ 64 }
    ensures { result ≡ length (encode_utf8_all characters.now) }
{
    let mut rest = characters;
    let mut len = 0;
    'characters: while let [c, more @ ..] = rest {
        len += c.len_utf8();
        rest = more;
    }
    len
}

/// The characters of a text.
pub fn characters_of<A: Allocator>(alloc: A, text: &str) -> Result<Vec<char, A>, AllocError>
    ensures { IfOk result (λ v. v.items ≡ chars text.now) }
{
    text.chars().collect(alloc)
}

// What is returned for a stop.
#[tactic(auto, using(crate::proofs::Offsets::length_encodes_take))]
fn error_of(text: &[char], stop: Stop) -> XmlError
    requires { length (encode_utf8_all text.now) < 2 ^ 64 }
    ensures { IsErrorOf text.now stop result }
{
    match stop {
        Stop::NoMemory => XmlError::OutOfMemory,
        Stop::At(fault) => {
            let before = text.len().saturating_sub(fault.left);
            XmlError::Malformed {
                flaw: fault.flaw,
                offset: byte_len(&text[..before]),
            }
        }
    }
}

// What is returned for what was read.
fn conclusion<A: Allocator>(
    size: usize,
    text: &[char],
    elements: Result<Vec<Element<A>, A>, Stop>,
) -> Result<Vec<Element<A>, A>, XmlError>
    requires read { Gives (λ v. map element_view v.items) elements (document text.now) }
    requires small { length (encode_utf8_all text.now) ≤ size }
    ensures found { IfOk result (λ v. AreElementsOf text.now (map element_view v.items)) }
    ensures only { (root : Tree) → IsXmlOf text.now root
        → MatchResult result (λ v. map element_view v.items ≡ flat 0 root) IsNoMemory }
    ensures exact { MatchResult result (λ v. document text.now ≡ Ok (map element_view v.items))
        (λ error. FailsFirst text.now error) }
{
    match elements {
        Ok(elements) => Ok(elements),
        Err(stop) => Err(error_of(text, stop)),
    }
}

/// Returns the elements of a text in document order. Takes memory for four bytes a character beside what is returned, and time in
/// proportion to the text's length.
///
/// # Errors
///
/// [`Malformed`](XmlError::Malformed) with the first flaw, but one in a character before all others, and where it begins; and
/// [`OutOfMemory`](XmlError::OutOfMemory).
pub fn read<A: Allocator + Copy>(alloc: A, text: &str) -> Result<Vec<Element<A>, A>, XmlError>
    // What is returned are the elements of a form of XML, which the text is.
    ensures found { IfOk result (λ v. AreElementsOf (chars text.now) (map element_view v.items)) }
    // Of each form of an element the elements are returned, unless memory runs out.
    ensures only { (root : Tree) → IsXmlOf (chars text.now) root
        → MatchResult result (λ v. map element_view v.items ≡ flat 0 root) IsNoMemory }
    // Which error it is.
    ensures exact { MatchResult result (λ v. document (chars text.now) ≡ Ok (map element_view v.items))
        (λ error. FailsFirst (chars text.now) error) }
{
    let characters = match characters_of(alloc, text) {
        Ok(characters) => characters,
        Err(_other) => return Err(XmlError::OutOfMemory),
    };
    let elements = document(alloc, characters.as_slice());
    conclusion(text.len(), characters.as_slice(), elements)
}
