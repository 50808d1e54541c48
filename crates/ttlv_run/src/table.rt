//! The table of names: the standard's of tags, and behind it that of a user's file, which may name values too.

ghost use Rattle.std.specs.Prelude.{◌≡◌, ◌++◌, IfOk, IfErr, OnOk, codes, string_bytes};
ghost use Rattle.std.specs.Fmt.{decimal};
ghost use Rattle.std.specs.List.{list_any};
ghost use Rattle.std.specs.Str.{chars};
ghost use Rattle.kmip_ttlv_types.specs.Held.{held, Says};
ghost use Rattle.ttlv_run.specs.declared.table.TableFault.{TableFault as ATableFault};
ghost use Rattle.ttlv_run.specs.Escapes.{is_hidden};
ghost use Rattle.ttlv_run.specs.Reasons.{place_report};
ghost use Rattle.ttlv_run.specs.Tables.{is_comment, has_hidden, hidden_line, IsJoined, LacksTable, table_status, table_line};

use crate::coding::read_all;
use crate::escape::is_hidden;
use crate::run::{report, report_error, report_place};
use crate::run_error::RunError;
use itoa::Buffer;
use kmip_ttlv_names::{TableError, own_names};
use kmip_ttlv_types::stream::{Sink, Source};
use std::alloc::{AllocError, Allocator};
use std::str;

// A table, and behind it another.
fn joined<A: Allocator>(alloc: A, front: &str, table: &str) -> Result<String<A>, AllocError>
    ensures { IfOk result (λ all. string_bytes all ≡ front.now ++ table.now) }
{
    let mut all = String::from_str(alloc, front)?;
    all.push_str(table)?;
    Ok(all)
}

/// Why a file has no table.
#[derive(Clone, Copy, Debug, PartialEq, Eq)]
pub enum TableFault {
    /// It can't be read, it is no UTF-8, or memory ran out.
    Unread(RunError),
    /// The line with this number, from 1, names neither a tag nor a value.
    NamesNothing(usize),
    /// The line behind so many has a control character, or one that can't be seen.
    Hides(usize),
}

// Whether a line is a comment.
fn is_comment(line: &str) -> bool
    ensures { result ≡ is_comment line.now }
{
    let bytes = line.as_bytes();
    !bytes.is_empty() && bytes[0] == b'#'
}

// Whether a text has a character that isn't shown as itself.
fn hides(text: &str) -> bool
    ensures { result ≡ list_any is_hidden (chars text.now) }
{
    text.chars().any(|c| is_hidden(c))
}

// Whether a line that is none has a character that isn't shown as itself, in front of white space at its end.
fn has_hidden(line: &str) -> bool
    ensures { result ≡ has_hidden line.now }
{
    !is_comment(line) && hides(line.trim_end())
}

// How many lines precede the first such line.
fn hidden_line(table: &str) -> Option<usize>
    ensures { result ≡ hidden_line table.now }
{
    table.split('\n').position(|line| has_hidden(line))
}

// The standard's table, and behind it that which an input has.
fn read_table<A: Allocator + Copy, R: Source>(
    alloc: A,
    standard: &str,
    input: &mut R,
) -> Result<String<A>, TableFault>
    ensures ok { IfOk result (λ all. IsJoined standard.now (R.left input.old) (R.left input.new)
        (string_bytes all)) }
    ensures err { IfErr result (LacksTable R.can_fail (R.left input.old) (R.left input.new)) }
{
    let bytes = match read_all(alloc, input) {
        Ok(bytes) => bytes,
        Err(why) => return Err(TableFault::Unread(why)),
    };
    let Ok(table) = str::from_utf8(bytes.as_slice()) else {
        return Err(TableFault::Unread(RunError::NotUtf8));
    };
    match own_names(alloc, table) {
        Ok(_) => {}
        Err(TableError::BadLine(line)) => return Err(TableFault::NamesNothing(line)),
        Err(TableError::OutOfMemory) => return Err(TableFault::Unread(RunError::NoMemory)),
    }
    if let Some(before) = hidden_line(table) {
        return Err(TableFault::Hides(before));
    }
    match joined(alloc, standard, table) {
        Ok(all) => Ok(all),
        Err(_) => Err(TableFault::Unread(RunError::NoMemory)),
    }
}

// The exit status: 3 out of memory, and else 2.
fn status(fault: TableFault) -> u8
    ensures { result ≡ table_status fault }
{
    match fault {
        TableFault::Unread(why) => why.status(),
        TableFault::NamesNothing(_) | TableFault::Hides(_) => 2,
    }
}

// Writes the line that says something of a table's line.
fn report_line<E: Sink>(errors: &mut E, name: &str, line: u128, words: &str)
    ensures { Says (held E.emitted E.room errors.old) (held E.emitted E.room errors.new)
        (place_report name.now None ++ codes ": line " ++ decimal line ++ words.now) }
{
    let writable = report_place(errors, name, None);
    let writable = report(errors, writable, ": line ");
    let writable = report(errors, writable, Buffer::new().format(line));
    report(errors, writable, words);
}

// Writes the line that says why there is no table, as far as it can be written.
fn report_table<E: Sink>(errors: &mut E, name: &str, fault: TableFault)
    ensures { Says (held E.emitted E.room errors.old) (held E.emitted E.room errors.new) (table_line name.now fault) }
{
    match fault {
        TableFault::Unread(why) => report_error(errors, name, why),
        TableFault::NamesNothing(line) => {
            report_line(errors, name, line as u128, " names no tag\n")
        }
        TableFault::Hides(before) => report_line(
            errors,
            name,
            before as u128 + 1,
            " has a control character, or one that can't be seen\n",
        ),
    }
}

/// The standard's table and behind it that which `input` has to its end. It is called `name` in the line on
/// `errors` that says why there is none.
///
/// The error is the exit status: 2 where the input can't be read, is not UTF-8, or has a line that names no
/// tag, or has a control character, or one that can't be seen, and is no comment (white space at its end is no
/// part of a line); and 3 when out of memory.
pub fn own_table<A: Allocator + Copy, R: Source, E: Sink>(
    alloc: A,
    standard: &str,
    name: &str,
    input: &mut R,
    errors: &mut E,
) -> Result<String<A>, u8>
    ensures ok { IfOk result (λ all. IsJoined standard.now (R.left input.old) (R.left input.new)
        (string_bytes all)) }
    ensures quiet { OnOk result (errors.new ≡ errors.old) }
    ensures err { IfErr result (λ status. (fault : ATableFault) × LacksTable R.can_fail (R.left input.old) (R.left input.new) fault
        × (status ≡ table_status fault) × Says (held E.emitted E.room errors.old) (held E.emitted E.room errors.new) (table_line name.now fault)) }
{
    match read_table(alloc, standard, input) {
        Ok(all) => Ok(all),
        Err(fault) => {
            report_table(errors, name, fault);
            Err(status(fault))
        }
    }
}
