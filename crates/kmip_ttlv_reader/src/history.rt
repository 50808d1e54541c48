//! All stored texts, as proofs speak of them. Nothing of it is there when the code runs.
//! Stands on the definitions of stored texts in specs/ alone.

ghost use Rattle.std.specs.Prelude.{◌≡◌, [], ◌∷◌, ◌++◌, List};
ghost use Rattle.std.specs.Borrow.{ftrue};
ghost use Rattle.kmip_ttlv_reader.specs.TagValues.{TagValue, tag_values_code};
ghost use Rattle.kmip_ttlv_reader.specs.StoredValue.{tag_value_of};

use kmip_ttlv_base::types::TtlvTag;
use std::marker::Model;

/// A text under the tag of the item that it was read from.
#[derive(Clone, Copy)]
pub struct StoredValue<'b> {
    /// The tag of the item.
    pub tag: TtlvTag,
    /// The text itself, or of a number `0x` and its eight uppercase digits.
    pub text: &'b str,
}

/// The list of the stored texts, the first one first. It takes no memory and no time.
#[derive(Drop)]
pub struct History {
    ghost listed: { List TagValue } by { tag_values_code },
}

// It owns nothing.
impl Model for History {
    ghost also_owns = { λ _. ftrue };
}

impl History {
    /// The history before anything was stored.
    pub fn new() -> History
        ensures { result.listed ≡ [] }
    {
        History {}
    }

    /// This history, with one more stored text at its end.
    pub fn and(&self, _one: &StoredValue<'_>) -> History
        ensures { result.listed ≡ self.now.listed ++ tag_value_of _one.now ∷ [] }
    {
        History {}
    }
}
