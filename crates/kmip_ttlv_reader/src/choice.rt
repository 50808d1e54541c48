//! Choices among variants whose rules are known in parts: which rule is the first that holds, and what it comes to where none does.

ghost use Rattle.std.specs.Prelude.{◌≡◌, ◌+◌, ◌≤◌, length, position};
ghost use Rattle.kmip_ttlv_reader.specs.Chosen.{IsFailed, unnamed};
ghost use Rattle.kmip_ttlv_reader.specs.RuleParts.{holds};

use crate::failure::{Step, in_struct};
use crate::head::{
    content_there, is_number_type, length_there, length_wanted, type_there, type_wanted,
};
use crate::rules::{RuleParts, parts_hold};
use crate::scope::Scope;
use crate::store::TagValueStore;
use kmip_ttlv_base::types::TtlvType;
use std::alloc::Allocator;

/// The place of the first rule that holds, by the stored texts and of an item of this type.
#[inline(always)]
pub fn first_that_holds<'b, A: Allocator + Copy>(
    rules: &[RuleParts],
    stored: &TagValueStore<'b, A>,
    typ: TtlvType,
) -> Option<usize>
    ensures { result ≡ position (λ rule. holds rule stored.now typ) rules.now }
{
    let Some(RuleParts::Texts { tag, .. }) = rules.first() else {
        return rules.iter().position(|rule| parts_hold(*rule, stored, typ));
    };
    // most rules of a choice ask for a text of one tag, which is looked up once
    let found = stored.last_under(*tag);
    let mut at = 0;
    while at < rules.len() {
        let holds = match rules[at] {
            RuleParts::Texts { tag: asked, texts } if asked == *tag => match found {
                Some(text) => crate::rules::is_among(text, texts),
                None => false,
            },
            rule => parts_hold(rule, stored, typ),
        };
        if holds {
            return Some(at);
        }
        at += 1;
    }
    None
}

/// What is read where no rule holds and no number names a variant: an error, of an item that is no number, or of a number.
#[cold]
#[tactic(auto, unfolding(crate::specs::Chosen::unnamed), using(crate::proofs::Steps::failing))]
pub fn unnamed<'b, X: Drop, A: Allocator + Copy>(
    scope: &Scope<'b, A>,
    pos: usize,
    typ: TtlvType,
) -> Step<X, A>
    requires there { pos + 4 ≤ length scope.now.bytes.now }
    ensures { IsFailed (unnamed scope.now.bytes.now scope.now.owner pos typ) result }
{
    type_wanted(
        scope.alloc,
        is_number_type(typ),
        TtlvType::Enumeration,
        scope.bytes,
        pos,
        typ,
    )?;
    let _ = length_there(scope.bytes, pos)?;
    length_wanted(scope.alloc, scope.bytes, pos, 4, typ, Some(4))?;
    let _ = content_there(scope.alloc, scope.bytes, pos, typ)?;
    Err(in_struct(scope.alloc, pos + 16, scope.owner, "unknown variant"))
}
