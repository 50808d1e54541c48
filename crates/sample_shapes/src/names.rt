//! The names of tags and variants in the shapes of the tests.

ghost use Rattle.std.specs.Prelude.{◌≡◌, [], map, slice_index_or};
ghost use Rattle.sample_shapes.specs.declared.names.TheConstants.{NAMES};

use crate::parts::Name;

// Each name, at its place.
const NAMES: [&str; 32] = [
    "0xAAAAAA", // 0
    "0xBBBBBB", // 1
    "0xCCCCCC", // 2
    "0xDDDDDD", // 3
    "0xEEEEEE", // 4
    "x", // 5
    "0x00000001", // 6
    "0x00000007", // 7
    "if 0xBBBBBB==0x00000001", // 8
    "if 0xBBBBBB>=0x2", // 9
    "if 0xBBBBBB>=1", // 10
    "if 0xDDDDDD>=zz", // 11
    "if type==Integer", // 12
    "if type==TextString", // 13
    "if type==Structure", // 14
    "if 0xBBBBBB==b", // 15
    "0x42007B", // 16
    "0x42007A", // 17
    "0x420069", // 18
    "0x42006A", // 19
    "0x42006B", // 20
    "0x420092", // 21
    "0x42000D", // 22
    "0x42000F", // 23
    "0x42005C", // 24
    "0x42007F", // 25
    "0x42007C", // 26
    "0x420057", // 27
    "0x420094", // 28
    "0x00000000", // 29
    "0x00000002", // 30
    "if 0xCCCCCC>=0x2", // 31
];

// The text at this place, or none behind the last.
fn text_at(texts: &[&'static str], place: usize) -> &'static str
    ensures { result.now ≡ slice_index_or (map (λ x. x.now) texts.now) place [] }
{
    match texts.get(place) {
        Some(text) => *text,
        None => "",
    }
}

/// A type that stands for the name at this place of the list.
pub struct Listed<const N: u8>;

impl<const N: u8> Name for Listed<N> {
    ghost letters = { slice_index_or (map (λ x. x.now) NAMES) N [] };

    fn name() -> &'static str {
        text_at(&NAMES, N as usize)
    }
}

/// The tag AAAAAA, by its name `0xAAAAAA`.
pub type TagA = Listed<0>;

/// The tag BBBBBB, by its name `0xBBBBBB`.
pub type TagB = Listed<1>;

/// The tag CCCCCC, by its name `0xCCCCCC`.
pub type TagC = Listed<2>;

/// The tag DDDDDD, by its name `0xDDDDDD`.
pub type TagD = Listed<3>;

/// The tag EEEEEE, by its name `0xEEEEEE`.
pub type TagE = Listed<4>;

/// A name that is no tag.
pub type NoTag = Listed<5>;

/// The number of a variant.
pub type One = Listed<6>;

/// The number of a variant.
pub type Seven = Listed<7>;

/// A rule: the text is `0x00000001`.
pub type IfOne = Listed<8>;

/// A rule: the number is at least two.
pub type IfAtLeastTwo = Listed<9>;

/// A rule: the number is at least one.
pub type IfAtLeastOne = Listed<10>;

/// A rule that compares with a word.
pub type IfOtherAtLeastWord = Listed<11>;

/// A rule: the type is Integer.
pub type IfInteger = Listed<12>;

/// A rule: the type is TextString.
pub type IfText = Listed<13>;

/// A rule: the type is Structure.
pub type IfStructure = Listed<14>;

/// A rule: the text is `b`.
pub type IfTextB = Listed<15>;

/// The tag of a response.
pub type ResponseMessage = Listed<16>;

/// The tag of a response's header.
pub type ResponseHeader = Listed<17>;

/// The tag of the protocol's version.
pub type ProtocolVersion = Listed<18>;

/// The tag of the version's first number.
pub type MajorVersion = Listed<19>;

/// The tag of the version's second number.
pub type MinorVersion = Listed<20>;

/// The tag of the time of a message.
pub type TimeStamp = Listed<21>;

/// The tag of how many items a message has.
pub type BatchCount = Listed<22>;

/// The tag of an item of a message.
pub type BatchItem = Listed<23>;

/// The tag of what is to be done.
pub type Operation = Listed<24>;

/// The tag of how it went.
pub type ResultStatus = Listed<25>;

/// The tag of what an operation answers.
pub type ResponsePayload = Listed<26>;

/// The tag of the kind of an object.
pub type ObjectType = Listed<27>;

/// The tag of an object's name.
pub type UniqueIdentifier = Listed<28>;

/// The number of a variant.
pub type Zero = Listed<29>;

/// The number of a variant.
pub type Two = Listed<30>;

/// A rule: the number that a text is, is at least two.
pub type IfTextAtLeastTwo = Listed<31>;
