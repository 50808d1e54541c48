//! What a text is made of: tags, and what is passed between them.

ghost use Rattle.std.specs.Prelude.{◌≡◌};
ghost use Rattle.plain_xml.specs.Faults.{Gives};
ghost use Rattle.plain_xml.specs.Marks.{mark_view, markup_at, mark_at};

use crate::characters::is_space;
use crate::failure::{Flaw, Stop, fault_at};
use crate::skipped::{after_instruction, comment_at};
use crate::tag::{Opening, ending_at, opening_at};
use std::alloc::Allocator;

/// A piece of a text.
#[derive(Drop)]
pub enum Mark<A: Allocator> {
    /// White space, a comment or a processing instruction.
    Passed,
    /// A start tag.
    Opens(Opening<A>),
    /// An end tag of this name.
    Ends(String<A>),
}

// What begins behind a `<`, and what follows it.
#[tactic(auto, unfolding(crate::specs::Marks::markup_at))]
fn markup_at<A: Allocator + Copy>(alloc: A, text: &[char]) -> Result<(Mark<A>, &[char]), Stop>
    ensures { Gives (λ x. (mark_view x.0, x.1.now)) result (markup_at text.now) }
{
    match text {
        ['/', more @ ..] => {
            let (name, rest) = ending_at(alloc, more)?;
            Ok((Mark::Ends(name), rest))
        }
        ['!', more @ ..] => Ok((Mark::Passed, comment_at(more)?)),
        ['?', more @ ..] => Ok((Mark::Passed, after_instruction(more)?)),
        _ => {
            let (opening, rest) = opening_at(alloc, text)?;
            Ok((Mark::Opens(opening), rest))
        }
    }
}

/// The piece that a text begins with, and what follows it.
#[tactic(auto, unfolding(crate::specs::Marks::mark_at))]
pub fn mark_at<A: Allocator + Copy>(alloc: A, text: &[char]) -> Result<(Mark<A>, &[char]), Stop>
    ensures { Gives (λ x. (mark_view x.0, x.1.now)) result (mark_at text.now) }
{
    match text {
        ['<', more @ ..] => markup_at(alloc, more),
        [c, more @ ..] if is_space(*c) => Ok((Mark::Passed, more)),
        _ => Err(Stop::At(fault_at(Flaw::Text, text))),
    }
}
