//! Comments and processing instructions, which are passed (2.5, 2.6).

ghost use Rattle.std.specs.Prelude.{◌≡◌, option_map};
ghost use Rattle.plain_xml.specs.Faults.{Gives};
ghost use Rattle.plain_xml.specs.Skipping.{behind_two, comment_end, after_comment, comment_at, after_instruction};

use crate::failure::{Flaw, Stop, fault_at};

// What follows these two characters.
fn behind_two(a: char, b: char, text: &[char]) -> Option<&[char]>
    ensures { option_map (λ s. s.now) result ≡ behind_two a b text.now }
{
    match text {
        [c, d, rest @ ..] if *c == a && *d == b => Some(rest),
        _ => None,
    }
}

// What follows a comment that has two hyphens behind which this stands.
fn comment_end(text: &[char]) -> Result<&[char], Stop>
    ensures { Gives (λ s. s.now) result (comment_end text.now) }
{
    match text {
        ['>', rest @ ..] => Ok(rest),
        _ => Err(Stop::At(fault_at(Flaw::Comment, text))),
    }
}

// What follows a comment, of which this is the rest.
fn after_comment(text: &[char]) -> Result<&[char], Stop>
    ensures { Gives (λ s. s.now) result (after_comment text.now) }
{
    let mut rest = text;
    'characters: while let [_, more @ ..] = rest {
        if let Some(end) = behind_two('-', '-', rest) {
            return comment_end(end);
        }
        rest = more;
    }
    Err(Stop::At(fault_at(Flaw::Unfinished, rest)))
}

/// What follows the comment that begins behind a `<!`.
#[tactic(auto, unfolding(crate::specs::Skipping::comment_at))]
pub fn comment_at(text: &[char]) -> Result<&[char], Stop>
    ensures { Gives (λ s. s.now) result (comment_at text.now) }
{
    match behind_two('-', '-', text) {
        Some(rest) => after_comment(rest),
        None => Err(Stop::At(fault_at(Flaw::Declaration, text))),
    }
}

/// What follows a processing instruction, of which this is the rest. What it says is not looked at.
pub fn after_instruction(text: &[char]) -> Result<&[char], Stop>
    ensures { Gives (λ s. s.now) result (after_instruction text.now) }
{
    let mut rest = text;
    'characters: while let [_, more @ ..] = rest {
        if let Some(end) = behind_two('?', '>', rest) {
            return Ok(end);
        }
        rest = more;
    }
    Err(Stop::At(fault_at(Flaw::Unfinished, rest)))
}
