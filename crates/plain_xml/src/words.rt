//! White space and names.

ghost use Rattle.std.specs.Prelude.{◌≡◌, ◌≤◌, length, string_bytes};
ghost use Rattle.std.specs.List.{prefix_len};
ghost use Rattle.plain_xml.specs.Characters.{is_name_part};
ghost use Rattle.plain_xml.specs.Faults.{Gives};
ghost use Rattle.plain_xml.specs.Reading.{after_space, name_at};

use crate::characters::{is_name_part, is_name_start, is_space};
use crate::failure::{Flaw, Stop, fault_at};
use std::alloc::Allocator;

/// What stands behind white space.
pub fn after_space(text: &[char]) -> &[char]
    ensures { result.now ≡ after_space text.now }
{
    let mut rest = text;
    'spaces: while let [c, more @ ..] = rest {
        if !is_space(*c) {
            return rest;
        }
        rest = more;
    }
    rest
}

// How many characters of a name a text begins with.
fn name_len(text: &[char]) -> usize
    ensures is { result ≡ prefix_len is_name_part text.now }
    ensures within { result ≤ length text.now }
{
    let mut rest = text;
    let mut len = 0;
    'characters: while let [c, more @ ..] = rest {
        if !is_name_part(*c) {
            return len;
        }
        rest = more;
        len += 1;
    }
    len
}

/// The name that a text begins with, and what follows it.
#[tactic(auto, unfolding(crate::specs::Reading::name_at))]
pub fn name_at<A: Allocator>(alloc: A, text: &[char]) -> Result<(String<A>, &[char]), Stop>
    ensures { Gives (λ x. (string_bytes x.0, x.1.now)) result (name_at text.now) }
{
    match text {
        [c, ..] if is_name_start(*c) => {
            let (name, rest) = text.split_at(name_len(text));
            Ok((name.iter().copied().collect(alloc)?, rest))
        }
        _ => Err(Stop::At(fault_at(Flaw::Tag, text))),
    }
}
