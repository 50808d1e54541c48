//! Why a text is not read as XML.

ghost use Rattle.std.specs.Prelude.{◌≡◌};
ghost use Rattle.plain_xml.specs.declared.failure.Stop.TheVariants.{NoMemory};
ghost use Rattle.plain_xml.specs.Faults.{fault_at};

use std::alloc::{AllocError, AllocFailed};

/// What is wrong with a text.
#[derive(Clone, Copy, Debug, PartialEq, Eq)]
pub enum Flaw {
    /// A character that XML can't hold (2.2): a control character, U+FFFE or U+FFFF.
    Character,
    /// The text ends too early: in a tag, in an element, or without one.
    Unfinished,
    /// Text between tags that is no white space.
    Text,
    /// A `<!` that begins no comment: a DOCTYPE or a CDATA section.
    Declaration,
    /// A `--` in a comment that doesn't end it.
    Comment,
    /// A character that can't stand at its place in a tag.
    Tag,
    /// A `<` or a carriage return in an attribute's value, where a reference has to stand for it.
    Value,
    /// An `&` that begins no character reference and no predefined entity.
    Reference,
    /// An attribute whose name an earlier one of its element has.
    Repeated,
    /// An attribute behind [`MAX_ATTRIBUTES`] others.
    ///
    /// [`MAX_ATTRIBUTES`]: crate::MAX_ATTRIBUTES
    TooMany,
    /// An end tag that is not that of the innermost open element.
    EndTag,
    /// A second element behind the root.
    SecondRoot,
}

/// A flaw, and how many characters of the text stand from there to its end.
#[derive(Clone, Copy, Debug, PartialEq, Eq)]
pub struct Fault {
    pub flaw: Flaw,
    pub left: usize,
}

/// Why reading stops.
#[derive(Clone, Copy, Debug)]
pub enum Stop {
    NoMemory,
    At(Fault),
}

/// Why a text is not read.
#[derive(Clone, Copy, Debug, PartialEq, Eq)]
pub enum XmlError {
    /// What is wrong first, and its offset in bytes from the text's first.
    Malformed { flaw: Flaw, offset: usize },
    /// An allocation failed, so nothing is said of the text.
    OutOfMemory,
}

/// A flaw where the rest of the text begins; at its end the text is unfinished.
pub fn fault_at(flaw: Flaw, rest: &[char]) -> Fault
    ensures { result ≡ fault_at flaw rest.now }
{
    match rest {
        [] => Fault {
            flaw: Flaw::Unfinished,
            left: 0,
        },
        [_, ..] => Fault {
            flaw,
            left: rest.len(),
        },
    }
}

impl From<AllocError> for Stop {
    ghost from_gives = { λ _ e. e ≡ NoMemory };

    fn from(_: AllocError) -> Stop {
        Stop::NoMemory
    }
}

impl<T: Drop> From<AllocFailed<T>> for Stop {
    ghost from_gives = { λ _ e. e ≡ NoMemory };

    fn from(_: AllocFailed<T>) -> Stop {
        Stop::NoMemory
    }
}
