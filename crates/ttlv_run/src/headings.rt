//! The line with a file's name, which stands in front of what is shown of it where there are several.

ghost use Rattle.std.specs.Prelude.{◌≡◌, true, ℕ, IfErr, OnOk, OnErr, nat_lt};
ghost use Rattle.kmip_ttlv_types.specs.Held.{held, Gets};
ghost use Rattle.ttlv_run.specs.Headings.{asks_for_lines, is_headed, heading, Heads, HeadFails};
ghost use Rattle.ttlv_run.specs.Reasons.{IsOfPrinting, PrintsFront};

use crate::escape::push_text;
use crate::job::{Asked, Strict, Task};
use crate::run::run_error_of;
use crate::run_error::RunError;
use kmip_ttlv_types::stream::Sink;
use kmip_ttlv_util::{Pieces, TextSink};

// Whether readable lines are asked for.
fn asks_for_lines(asked: Asked<'_>) -> bool
    ensures { result ≡ asks_for_lines asked.entry }
{
    match asked {
        Asked::Print {
            task: Task::Show { .. },
            ..
        } => true,
        Asked::Print {
            task: Task::Whole {
                strict: Strict::Show { .. },
            },
            ..
        } => true,
        Asked::Find { .. } => true,
        _ => false,
    }
}

/// Whether the line stands in front of what is printed of each of so many files.
pub fn is_headed(asked: Asked<'_>, count: usize) -> bool
    ensures { result ≡ is_headed asked.entry count }
{
    1 < count && asks_for_lines(asked)
}

// Adds the line of a name, in which that is escaped.
fn push_heading<S: TextSink>(out: &mut S, name: &str) -> Result<(), S::Error>
    ensures ok { OnOk result (S.adds out.old (heading name.now) out.new) }
    ensures err { OnErr result (S.breaks out.old (heading name.now) out.new) }
{
    out.push_str("==> ")?;
    push_text(out, name)?;
    out.push_str(" <==\n")
}

// Writes the line of a name.
fn print_heading<W: Sink>(output: &mut W, name: &str) -> Result<(), RunError>
    ensures ok { OnOk result (Gets (held W.emitted W.room output.old) (held W.emitted W.room output.new) (heading name.now)) }
    ensures why { IfErr result IsOfPrinting }
    ensures err { IfErr result (λ why. PrintsFront why (held W.emitted W.room output.old) (held W.emitted W.room output.new) (heading name.now)) }
{
    let mut pieces = Pieces::new(output);
    let printed = push_heading(&mut pieces, name);
    match pieces.close(printed) {
        Ok(()) => Ok(()),
        Err(e) => Err(run_error_of(&e)),
    }
}

/// Writes the line of a file's name, where it has one.
pub fn print_head<W: Sink>(output: &mut W, headed: bool, name: &str) -> Result<(), RunError>
    ensures ok { OnOk result (Heads headed name.now (held W.emitted W.room output.old) (held W.emitted W.room output.new)) }
    ensures err { IfErr result (HeadFails headed name.now (held W.emitted W.room output.old) (held W.emitted W.room output.new)) }
{
    if headed {
        return print_heading(output, name);
    }
    Ok(())
}
