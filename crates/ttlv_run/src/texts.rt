//! What is printed of one message.

ghost use Rattle.std.specs.Prelude.{◌≡◌, ◌<◌, ◌+◌, ◌^◌, ◌++◌, ◌∷◌, [], length, Option, None, IfOk, OnOk, OnErr};
ghost use Rattle.hex.specs.Hex.{encode_upper};
ghost use Rattle.kmip_ttlv_items.specs.declared.found.Fault.{Fault as AFault};
ghost use Rattle.kmip_ttlv_items.specs.ItemWalks.{Judges};
ghost use Rattle.kmip_ttlv_util.specs.Diagnostics.{hostile};
ghost use Rattle.kmip_ttlv_util.specs.Pieces.{SomeText};
ghost use Rattle.kmip_ttlv_util.specs.Traces.{trace};
ghost use Rattle.ttlv_run.specs.declared.job.Task.TheVariants.{Whole as OfWhole};
ghost use Rattle.kmip_ttlv_json.specs.declared.print.Style.TheVariants.{Names as ByNames};
ghost use Rattle.kmip_ttlv_json.specs.Printings.{secrets_of, shown_of, IsJson};
ghost use Rattle.ttlv_run.specs.Texts.{names_of, style_in, IsMessageText};

use crate::job::{Names, Strict, Task};
use crate::lines::push_lines;
use kmip_ttlv_items::{Fault, find_fault};
use kmip_ttlv_json::{Hiding, push_json, push_named_json};
use kmip_ttlv_types::TtlvType;
use kmip_ttlv_util::{TextSink, push_diag, push_value};
use kmip_words::standard_words;
use std::alloc::Allocator;

// Adds the diagnostic of a message and a line feed.
fn push_diagnostic<S: TextSink, A: Allocator + Copy>(
    alloc: A,
    out: &mut S,
    closed: bool,
    prefix: &str,
    message: &[u8],
) -> Result<(), S::Error>
    ensures ok { OnOk result (S.adds out.old
        (hostile prefix.now closed (length message.now) (trace closed message.now) ++ 10 ∷ []) out.new) }
    ensures err { OnErr result (S.breaks out.old
        (hostile prefix.now closed (length message.now) (trace closed message.now) ++ 10 ∷ []) out.new) }
{
    push_diag(alloc, out, prefix, closed, message)?;
    out.push_str("\n")
}

/// Adds the bytes of a message in hexadecimal and a line feed.
pub(crate) fn push_hexadecimal<S: TextSink>(out: &mut S, message: &[u8]) -> Result<(), S::Error>
    ensures ok { OnOk result (S.adds out.old (encode_upper message.now ++ 10 ∷ []) out.new) }
    ensures err { OnErr result (S.breaks out.old (encode_upper message.now ++ 10 ∷ []) out.new) }
{
    push_value(out, TtlvType::ByteString, message)?;
    out.push_str("\n")
}

// Adds a message as a line of JSON with the standard's names, and gives its first fault; of a message with a fault it adds nothing.
fn push_named<S: TextSink, A: Allocator + Copy>(
    alloc: A,
    out: &mut S,
    names: &Names<'_, A>,
    hiding: Hiding,
    message: &[u8],
) -> Result<Option<Fault>, S::Error>
    ensures ok { IfOk result (λ fault. SomeText
        (λ t. IsJson ByNames (secrets_of hiding (names_of names.now).secrets) (shown_of hiding) message.now t fault)
        (λ t. S.adds out.old t out.new)) }
    ensures err { OnErr result (SomeText
        (λ t. (fault : Option AFault) × IsJson ByNames (secrets_of hiding (names_of names.now).secrets) (shown_of hiding) message.now t fault)
        (λ t. S.breaks out.old t out.new)) }
{
    if let Some(words) = &names.words {
        return push_named_json(alloc, out, words, hiding, &names.secrets, message);
    }
    let words = standard_words(alloc)?;
    push_named_json(alloc, out, &words, hiding, &names.secrets, message)
}

// The same, with names or by digits.
fn push_styled<S: TextSink, A: Allocator + Copy>(
    alloc: A,
    out: &mut S,
    names: &Names<'_, A>,
    hiding: Hiding,
    named: bool,
    message: &[u8],
) -> Result<Option<Fault>, S::Error>
    ensures ok { IfOk result (λ fault. SomeText
        (λ t. IsJson (style_in named) (secrets_of hiding (names_of names.now).secrets) (shown_of hiding) message.now t fault)
        (λ t. S.adds out.old t out.new)) }
    ensures err { OnErr result (SomeText
        (λ t. (fault : Option AFault) × IsJson (style_in named) (secrets_of hiding (names_of names.now).secrets) (shown_of hiding) message.now t fault)
        (λ t. S.breaks out.old t out.new)) }
{
    if named {
        return push_named(alloc, out, names, hiding, message);
    }
    push_json(alloc, out, hiding, &names.secrets, message)
}

// Adds what is printed of a message that has no fault, and gives the end of the walk over it.
fn push_judged<S: TextSink, A: Allocator + Copy>(
    alloc: A,
    out: &mut S,
    names: &Names<'_, A>,
    strict: Strict<'_>,
    at: usize,
    message: &[u8],
) -> Result<Option<Fault>, S::Error>
    requires within { at + length message.now < 2 ^ 64 }
    requires judged { Judges message.now None }
    ensures ok { IfOk result (λ fault. SomeText
        (λ t. IsMessageText (names_of names.now) (OfWhole strict.entry) at message.now t fault)
        (λ t. S.adds out.old t out.new)) }
    ensures err { OnErr result (SomeText
        (λ t. (fault : Option AFault) × IsMessageText (names_of names.now) (OfWhole strict.entry) at message.now t fault)
        (λ t. S.breaks out.old t out.new)) }
{
    match strict {
        Strict::Show { look } => push_lines(alloc, out, names, look, at, message),
        Strict::Json { hiding, named } => push_styled(alloc, out, names, hiding, named, message),
        Strict::Hexadecimal => {
            push_hexadecimal(out, message)?;
            Ok(None)
        }
        Strict::Diagnose { closed, prefix } => {
            push_diagnostic(alloc, out, closed, prefix, message)?;
            Ok(None)
        }
    }
}

// Adds what is printed of a whole message, and gives the first fault of one that isn't; of that it adds nothing.
fn push_whole<S: TextSink, A: Allocator + Copy>(
    alloc: A,
    out: &mut S,
    names: &Names<'_, A>,
    strict: Strict<'_>,
    at: usize,
    message: &[u8],
) -> Result<Option<Fault>, S::Error>
    requires { at + length message.now < 2 ^ 64 }
    ensures ok { IfOk result (λ fault. SomeText
        (λ t. IsMessageText (names_of names.now) (OfWhole strict.entry) at message.now t fault)
        (λ t. S.adds out.old t out.new)) }
    ensures err { OnErr result (SomeText
        (λ t. (fault : Option AFault) × IsMessageText (names_of names.now) (OfWhole strict.entry) at message.now t fault)
        (λ t. S.breaks out.old t out.new)) }
{
    if let Some(fault) = find_fault(alloc, message)? {
        return Ok(Some(fault));
    }
    push_judged(alloc, out, names, strict, at, message)
}

/// Adds what a task prints of a message, which begins at an offset among the bytes of all, and gives its first fault; its
/// lines come up to there, and its JSON doesn't come.
///
/// It fails where the sink fails and when out of memory; a beginning of the text was added then.
pub fn push_message<S: TextSink, A: Allocator + Copy>(
    alloc: A,
    out: &mut S,
    names: &Names<'_, A>,
    task: Task<'_>,
    at: usize,
    message: &[u8],
) -> Result<Option<Fault>, S::Error>
    requires { at + length message.now < 2 ^ 64 }
    ensures ok { IfOk result (λ fault. SomeText
        (λ t. IsMessageText (names_of names.now) task.entry at message.now t fault)
        (λ t. S.adds out.old t out.new)) }
    ensures err { OnErr result (SomeText
        (λ t. (fault : Option AFault) × IsMessageText (names_of names.now) task.entry at message.now t fault)
        (λ t. S.breaks out.old t out.new)) }
{
    match task {
        Task::Show { look } => return push_lines(alloc, out, names, look, at, message),
        Task::Json { hiding, named } => {
            return push_styled(alloc, out, names, hiding, named, message);
        }
        Task::Whole { strict } => return push_whole(alloc, out, names, strict, at, message),
        Task::Diagnose { closed, prefix } => push_diagnostic(alloc, out, closed, prefix, message)?,
        Task::Hexadecimal => push_hexadecimal(out, message)?,
        Task::Check { .. } => {}
    }
    Ok(find_fault(alloc, message)?)
}
