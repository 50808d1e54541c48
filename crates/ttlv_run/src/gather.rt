//! What is made of what was printed of an input: it is printed into memory, and what is made of it is sent when all of the input was read.

ghost use Rattle.std.specs.Prelude.{◌≡◌, true, Ok, IfOk, IfErr, OnOk};
ghost use Rattle.kmip_ttlv_types.specs.Held.{held};
ghost use Rattle.ttlv_run.specs.declared.job.Product.TheVariants.{Values as OfPath, Page as OfLines};
ghost use Rattle.ttlv_run.specs.declared.run_error.RunError.TheVariants.{NoMemory as MemoryEnded};
ghost use Rattle.ttlv_run.specs.Gathers.{Sends, Unsent, SendsMade, RespondsGather};
ghost use Rattle.ttlv_run.specs.Products.{IsMade};
ghost use Rattle.ttlv_run.specs.Runs.{streams};
ghost use Rattle.ttlv_run.specs.Texts.{names_of};

use crate::document::document_of;
use crate::from_json::send;
use crate::job::{Job, Names, Product};
use crate::memory::Memory;
use crate::page::page_of;
use crate::run::{print_asked, report_words};
use crate::run_error::RunError;
use kmip_ttlv_types::stream::{MemorySink, Sink, Source};
use std::alloc::Allocator;

/// What is made of a text.
pub enum Made<A: Allocator> {
    /// This.
    Whole(Vec<u8, A>),
    /// Nothing, for this reason in words.
    Lacks(&'static str),
}

// The values of a path, if there are some.
fn values_of<A: Allocator>(text: Vec<u8, A>) -> Made<A>
    ensures { IsMade OfPath text.items result }
{
    if text.is_empty() {
        return Made::Lacks("no item has this path");
    }
    Made::Whole(text)
}

// The page of readable lines.
fn page_made<A: Allocator + Copy>(alloc: A, text: &[u8]) -> Result<Made<A>, RunError>
    ensures ok { IfOk result (IsMade OfLines text.now) }
    ensures err { IfErr result (λ why. why ≡ MemoryEnded) }
{
    Ok(Made::Whole(page_of(alloc, text)?))
}

// What is made of a text that was printed.
fn made_of<A: Allocator + Copy>(
    alloc: A,
    product: Product,
    text: Vec<u8, A>,
) -> Result<Made<A>, RunError>
    ensures ok { IfOk result (IsMade product text.items) }
    ensures err { IfErr result (λ why. why ≡ MemoryEnded) }
{
    match product {
        Product::Values => Ok(values_of(text)),
        Product::Document => document_of(alloc, text.as_slice()),
        Product::Page => page_made(alloc, text.as_slice()),
    }
}

// Sends what is made of a text, if anything is.
fn send_of<A: Allocator + Copy, W: Sink>(
    alloc: A,
    product: Product,
    text: Vec<u8, A>,
    output: &mut W,
) -> Result<(), RunError>
    ensures ok { OnOk result (Sends product text.items (held W.emitted W.room output.old) (held W.emitted W.room output.new)) }
    ensures err { IfErr result (Unsent product text.items (held W.emitted W.room output.old) (held W.emitted W.room output.new)) }
{
    match made_of(alloc, product, text)? {
        Made::Whole(made) => send(output, made.as_slice()),
        Made::Lacks(_) => Ok(()),
    }
}

// Sends what is made of a text of a whole input, and returns whether anything is. If not, that is reported.
fn send_whole<A: Allocator + Copy, W: Sink, E: Sink>(
    alloc: A,
    product: Product,
    text: Vec<u8, A>,
    name: &str,
    output: &mut W,
    errors: &mut E,
) -> Result<bool, RunError>
    ensures { SendsMade product text.items (Ok true) name.now (held W.emitted W.room output.old) (held W.emitted W.room output.new)
        (held E.emitted E.room errors.old) (held E.emitted E.room errors.new) result }
{
    match made_of(alloc, product, text)? {
        Made::Whole(made) => {
            send(output, made.as_slice())?;
            Ok(true)
        }
        Made::Lacks(words) => {
            report_words(errors, name, words);
            Ok(false)
        }
    }
}

// Sends what is made of a text that was printed of an input, of which this came, and returns whether that is whole and anything is made
// of it. If nothing is made of a whole one, that is reported.
fn send_made<A: Allocator + Copy, W: Sink, E: Sink>(
    alloc: A,
    product: Product,
    text: Vec<u8, A>,
    outcome: Result<bool, RunError>,
    name: &str,
    output: &mut W,
    errors: &mut E,
) -> Result<bool, RunError>
    ensures { SendsMade product text.items outcome name.now (held W.emitted W.room output.old) (held W.emitted W.room output.new)
        (held E.emitted E.room errors.old) (held E.emitted E.room errors.new) result }
{
    match outcome {
        Ok(true) => send_whole(alloc, product, text, name, output, errors),
        Ok(false) => {
            send_of(alloc, product, text, output)?;
            Ok(false)
        }
        Err(early) => {
            send_of(alloc, product, text, output)?;
            Err(early)
        }
    }
}

/// Prints what a job asks for of an input into memory, and sends what is made of that when all of it was read. Returns whether it is
/// whole and anything is made of it. What isn't is reported.
pub(crate) fn gather<A: Allocator + Copy, B: Allocator + Copy, R: Source, W: Sink, E: Sink>(
    memory: Memory<A, B>,
    job: &Job<'_>,
    product: Product,
    names: &Names<'_, B>,
    input: &mut R,
    output: &mut W,
    errors: &mut E,
) -> Result<bool, RunError>
    ensures { RespondsGather (names_of names.now) job.now product
        (streams R.can_fail (R.left input.old) (R.left input.new) (held W.emitted W.room output.old) (held W.emitted W.room output.new))
        (held E.emitted E.room errors.old) (held E.emitted E.room errors.new) result }
{
    let mut text = MemorySink(Vec::new(memory.rest));
    let outcome = print_asked(memory, job, names, input, &mut text, errors);
    send_made(
        memory.rest,
        product,
        text.0,
        outcome,
        job.name,
        output,
        errors,
    )
}
