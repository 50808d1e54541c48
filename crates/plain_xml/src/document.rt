//! All of a text: its elements, each with its depth.

ghost use Rattle.std.specs.Prelude.{◌≡◌, ◌++◌, ◌∷◌, [], map, reverse, string_bytes, IfOk, if◌then◌else◌};
ghost use Rattle.plain_xml.specs.Faults.{Gives};
ghost use Rattle.plain_xml.specs.Elements.{element_view, attribute_view};
ghost use Rattle.plain_xml.specs.Marks.{mark_view};
ghost use Rattle.plain_xml.specs.Documents.{progress_view, has_ended, is_closed, opened, ended, entered, next_pair, finished, elements_of};

use crate::element::Element;
use crate::failure::{Fault, Flaw, Stop, fault_at};
use crate::mark::{Mark, mark_at};
use crate::tag::Opening;
use std::alloc::{AllocError, Allocator};

/// How far a document was read.
#[derive(Drop)]
pub struct Progress<A: Allocator> {
    /// The names of the open elements, the innermost last.
    pub names: Vec<String<A>, A>,
    /// The elements so far.
    pub elements: Vec<Element<A>, A>,
}

// Whether the root has ended, where so many elements are open of so many.
fn has_ended(names: usize, elements: usize) -> bool
    ensures { result ≡ has_ended names elements }
{
    names == 0 && elements != 0
}

// Whether the root has ended.
fn is_closed<A: Allocator>(names: &[String<A>], elements: &[Element<A>]) -> bool
    ensures { result ≡ is_closed (reverse (map string_bytes names.now)) (map element_view elements.now) }
{
    has_ended(names.len(), elements.len())
}

// The names of open elements with one more, unless it has ended already.
#[tactic(auto, using(crate::proofs::Names::names))]
fn with_name<A: Allocator + Copy>(
    mut names: Vec<String<A>, A>,
    name: &String<A>,
    is_empty: bool,
) -> Result<Vec<String<A>, A>, AllocError>
    ensures { IfOk result (λ v. reverse (map string_bytes v.items)
        ≡ (if is_empty then reverse (map string_bytes names.items) else string_bytes name.now ∷ reverse (map string_bytes names.items))) }
{
    if is_empty {
        return Ok(names);
    }
    names.push(name.clone()?)?;
    Ok(names)
}

// Elements with one more.
#[tactic(auto, using(crate::proofs::Names::elements))]
fn with_element<A: Allocator>(
    mut elements: Vec<Element<A>, A>,
    element: Element<A>,
) -> Result<Vec<Element<A>, A>, AllocError>
    ensures { IfOk result (λ v. map element_view v.items ≡ map element_view elements.items ++ element_view element ∷ []) }
{
    elements.push(element)?;
    Ok(elements)
}

// A start tag is next.
#[tactic(auto, unfolding(crate::specs::Documents::opened), using(crate::proofs::Names::names))]
fn opened<A: Allocator + Copy>(
    progress: Progress<A>,
    opening: Opening<A>,
    text: &[char],
) -> Result<Progress<A>, Stop>
    ensures { Gives progress_view result (opened (progress_view progress) (string_bytes opening.name) (map attribute_view opening.attributes.items) opening.is_empty text.now) }
{
    let Progress { names, elements } = progress;
    if is_closed(names.as_slice(), elements.as_slice()) {
        return Err(Stop::At(fault_at(Flaw::SecondRoot, text)));
    }
    let depth = names.len();
    let names = with_name(names, &opening.name, opening.is_empty)?;
    let element = Element {
        depth,
        name: opening.name,
        attributes: opening.attributes,
    };
    let elements = with_element(elements, element)?;
    Ok(Progress { names, elements })
}

// An end tag is next.
fn ended<A: Allocator>(
    progress: Progress<A>,
    name: &str,
    text: &[char],
) -> Result<Progress<A>, Stop>
    ensures { Gives progress_view result (ended (progress_view progress) name.now text.now) }
{
    let Progress {
        mut names,
        elements,
    } = progress;
    match names.pop() {
        Some(innermost) if innermost.as_str() == name => Ok(Progress { names, elements }),
        _ => Err(Stop::At(fault_at(Flaw::EndTag, text))),
    }
}

// A piece that begins there is next.
fn entered<A: Allocator + Copy>(
    progress: Progress<A>,
    mark: Mark<A>,
    text: &[char],
) -> Result<Progress<A>, Stop>
    ensures { Gives progress_view result (entered (progress_view progress) (mark_view mark) text.now) }
{
    match mark {
        Mark::Passed => Ok(progress),
        Mark::Opens(opening) => opened(progress, opening, text),
        Mark::Ends(name) => ended(progress, name.as_str(), text),
    }
}

// The elements, once the text has ended.
fn finished<A: Allocator>(progress: Progress<A>) -> Result<Vec<Element<A>, A>, Stop>
    ensures { Gives (λ v. map element_view v.items) result (finished (progress_view progress)) }
{
    if is_closed(progress.names.as_slice(), progress.elements.as_slice()) {
        return Ok(progress.elements);
    }
    Err(Stop::At(Fault {
        flaw: Flaw::Unfinished,
        left: 0,
    }))
}

// The piece that a text begins with is next: how far that leads, and what follows it.
#[tactic(auto, unfolding(crate::specs::Documents::next_pair))]
fn next_pair<A: Allocator + Copy>(
    alloc: A,
    progress: Progress<A>,
    text: &[char],
) -> Result<(Progress<A>, &[char]), Stop>
    ensures { Gives (λ x. (progress_view x.0, x.1.now)) result (next_pair (progress_view progress) text.now) }
{
    let (mark, rest) = mark_at(alloc, text)?;
    let next = entered(progress, mark, text)?;
    Ok((next, rest))
}

/// The elements of a text, whose characters are right.
pub fn elements_of<A: Allocator + Copy>(alloc: A, text: &[char]) -> Result<Vec<Element<A>, A>, Stop>
    ensures { Gives (λ v. map element_view v.items) result (elements_of text.now) }
{
    let mut progress = Progress {
        names: Vec::new(alloc),
        elements: Vec::new(alloc),
    };
    let mut rest = text;
    'marks: while let [_, ..] = rest {
        let (next, after) = next_pair(alloc, progress, rest)?;
        progress = next;
        rest = after;
    }
    finished(progress)
}
