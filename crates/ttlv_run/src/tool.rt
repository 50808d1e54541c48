//! What a request comes to: its tables are read, and what it asks for is done with each of its inputs.

ghost use Rattle.std.specs.Prelude.{◌≡◌, ℕ, List, None, IfOk, IfErr, OnOk, option_map, string_bytes};
ghost use Rattle.clap.specs.Words.{kind_of};
ghost use Rattle.kmip_ttlv_types.specs.Held.{held, Says};
ghost use Rattle.kmip_ttlv_names.specs.NameTables.{bad_line};
ghost use Rattle.kmip_ttlv_names.specs.declared.table.TableError.TheVariants.{BadLine as ABadLine};
ghost use Rattle.ttlv_run.specs.Texts.{names_of};
ghost use Rattle.ttlv_run.specs.Tags.{AreTags};
ghost use Rattle.ttlv_run.specs.Tools.{is_colored, IsUsage, no_memory_line, IsTable, LacksFile, AreRead, LacksOne, HasBadLine, word_of, LacksTag, only_of, getting, with_path, lines_with, with_look, names_for, InputsDone, RequestDone};

use crate::comparison::run_comparison;
use crate::files::{Opener, run_files};
use crate::job::{Asked, Encoding, Look, Names, Product, Strict, Task};
use crate::memory::Memory;
use crate::request::{Color, Request};
use crate::run::{report_words, run};
use crate::table::own_table;
use crate::tags::{TagError, tags_asked};
use clap::Error;
use clap::error::ErrorKind;
use kmip_ttlv_names::{
    STANDARD_SECRETS, STANDARD_TAGS, TableError, own_names, standard_masks, standard_values,
    tag_names, tags_by_name,
};
use kmip_ttlv_types::stream::{Sink, Source};
use kmip_words::{Words, standard_words};
use std::alloc::{AllocError, Allocator};
use std::io::{Eprint, Print};

/// The status of wrong usage, and of a table that can't be read.
const USAGE: u8 = 2;

/// The exit status if memory runs out, or the output can't be written.
const FAILED: u8 = 3;

/// What is known of where the output goes.
#[derive(Clone, Copy)]
pub struct Terminal<'t> {
    /// Whether it is a terminal.
    pub is_one: bool,
    /// The value of the variable NO_COLOR, if it is set.
    pub no_color: Option<&'t str>,
}

// Whether lines are coloured.
fn is_colored(color: Color, terminal: Terminal<'_>) -> bool
    ensures { result ≡ is_colored color terminal.entry.is_one (option_map (λ s. s.now) terminal.entry.no_color) }
{
    match color {
        Color::Always => true,
        Color::Never => false,
        Color::Auto => match terminal.no_color {
            Some(value) => terminal.is_one && value.is_empty(),
            None => terminal.is_one,
        },
    }
}

/// Reports that memory ran out before an input was read, and returns the exit status.
pub(crate) fn no_memory<E: Sink>(errors: &mut E) -> u8
    ensures status { result ≡ 3 }
    ensures reported { Says (held E.emitted E.room errors.old) (held E.emitted E.room errors.new) no_memory_line }
{
    report_words(errors, "ttlv", "out of memory");
    FAILED
}

/// Reports what is wrong with the words, or prints the help or the version that they ask for, and returns the exit status.
pub fn report_usage<R: Print + Eprint, E: Sink>(rt: &R, errors: &mut E, error: &Error) -> u8
    ensures { IsUsage (kind_of error.now) result }
{
    if error.kind() == ErrorKind::OutOfMemory {
        return no_memory(errors);
    }
    let printed = error.print(rt);
    if error.use_stderr() {
        return USAGE;
    }
    if printed.is_err() { FAILED } else { 0 }
}

/// A table of tags, and behind it that of a file, if one is named; or the status where there is none.
pub(crate) fn table<B: Allocator + Copy, T: Opener, E: Sink>(
    alloc: B,
    tables: &mut T,
    standard: &str,
    path: Option<&str>,
    errors: &mut E,
) -> Result<String<B>, u8>
    ensures ok { IfOk result (λ all. IsTable (record { opens = T.opens; left = T.Input.left; can_fail = T.Input.can_fail }) standard.now
        tables.old tables.new path.entry (string_bytes all)) }
    ensures quiet { OnOk result (errors.new ≡ errors.old) }
    ensures err { IfErr result (λ status. (line : List ℕ)
        × LacksFile (record { opens = T.opens; left = T.Input.left; can_fail = T.Input.can_fail }) tables.old tables.new path.entry status line
        × Says (held E.emitted E.room errors.old) (held E.emitted E.room errors.new) line) }
{
    let Some(path) = path else {
        let alone: Result<String<B>, AllocError> = String::from_str(alloc, standard);
        return match alone {
            Ok(table) => Ok(table),
            Err(_) => Err(no_memory(errors)),
        };
    };
    match tables.open(path) {
        Some(mut input) => own_table(alloc, standard, path, &mut input, errors),
        None => {
            report_words(errors, path, "it can't be opened");
            Err(USAGE)
        }
    }
}

// A word of the request, if it is there.
fn word_of<'w>(word: Option<&'w str>) -> &'w str
    ensures { result.now ≡ word_of word.entry }
{
    match word {
        Some(word) => word,
        None => "",
    }
}

// The tags that are asked for; or the status where a word is no tag.
fn tags_of<B: Allocator, E: Sink>(
    alloc: B,
    table: &str,
    words: &[&str],
    errors: &mut E,
) -> Result<Vec<u32, B>, u8>
    ensures ok { IfOk result (λ tags. AreTags table.now words.now tags.items) }
    ensures quiet { OnOk result (errors.new ≡ errors.old) }
    ensures err { IfErr result (λ status. (line : List ℕ) × LacksTag table.now words.now status line
        × Says (held E.emitted E.room errors.old) (held E.emitted E.room errors.new) line) }
{
    match tags_asked(alloc, table, words) {
        Ok(tags) => Ok(tags),
        Err(TagError::NoTag(word)) => {
            report_words(errors, word, "no tag has this name");
            Err(USAGE)
        }
        Err(TagError::OutOfMemory) => Err(no_memory(errors)),
    }
}

// The tags whose items alone are shown, where some are asked for.
fn only_of(tags: &[u32]) -> Option<&[u32]>
    ensures { result ≡ only_of tags.entry }
{
    if tags.is_empty() { None } else { Some(tags) }
}

// What is asked of messages, for the values of a path.
fn getting<'w>(task: Task<'w>, path: &'w [u32], encoding: Encoding) -> Asked<'w>
    ensures { result ≡ getting task.entry path.entry encoding }
{
    match task {
        Task::Show { look } => {
            let path = Some(path);
            let task = Task::Show {
                look: Look { path, ..look },
            };
            Asked::Gather {
                task,
                encoding,
                product: Product::Values,
            }
        }
        Task::Whole {
            strict: Strict::Show { look },
        } => {
            let path = Some(path);
            let strict = Strict::Show {
                look: Look { path, ..look },
            };
            let task = Task::Whole { strict };
            Asked::Gather {
                task,
                encoding,
                product: Product::Values,
            }
        }
        task => Asked::Print { task, encoding },
    }
}

// What is asked, for the values of a path if one is named.
fn with_path<'w>(asked: Asked<'w>, path: &'w [u32]) -> Asked<'w>
    ensures { result ≡ with_path asked.entry path.entry }
{
    if path.is_empty() {
        return asked;
    }
    match asked {
        Asked::Print { task, encoding } => getting(task, path, encoding),
        asked => asked,
    }
}

// What is printed of messages, with the colours and the tags of readable lines.
fn lines_with<'w>(task: Task<'w>, colored: bool, tags: &'w [u32]) -> Task<'w>
    ensures { result ≡ lines_with task.entry colored tags.entry }
{
    let only = only_of(tags);
    match task {
        Task::Show { look } => {
            let look = Look {
                colored,
                only,
                ..look
            };
            Task::Show { look }
        }
        Task::Whole {
            strict: Strict::Show { look },
        } => {
            let look = Look {
                colored,
                only,
                ..look
            };
            let strict = Strict::Show { look };
            Task::Whole { strict }
        }
        task => task,
    }
}

// What is asked, with the colours and the tags of readable lines; those that are printed into memory have no colours.
fn with_look<'w>(asked: Asked<'w>, colored: bool, tags: &'w [u32]) -> Asked<'w>
    ensures { result ≡ with_look asked.entry colored tags.entry }
{
    match asked {
        Asked::Print { task, encoding } => Asked::Print {
            task: lines_with(task, colored, tags),
            encoding,
        },
        Asked::Gather {
            task,
            encoding,
            product,
        } => Asked::Gather {
            task: lines_with(task, false, tags),
            encoding,
            product,
        },
        Asked::Find { look } => Asked::Find {
            look: Look {
                colored,
                only: only_of(tags),
                ..look
            },
        },
        asked => asked,
    }
}

// Whether JSON with names is asked for.
fn is_worded(asked: Asked<'_>) -> bool {
    match asked {
        Asked::Print {
            task: Task::Json { named, .. },
            ..
        } => named,
        Asked::Print {
            task: Task::Whole {
                strict: Strict::Json { named, .. },
            },
            ..
        } => named,
        _ => false,
    }
}

// The words of JSON with names, where they are wanted.
fn words_for<B: Allocator + Copy>(alloc: B, worded: bool) -> Result<Option<Words<B>>, AllocError> {
    if !worded {
        return Ok(None);
    }
    Ok(Some(standard_words(alloc)?))
}

/// The names of tags and of values, and the tags of secrets, by their tables.
pub(crate) fn names_in<'t, B: Allocator + Copy>(
    alloc: B,
    tags: &'t str,
    secrets: &'t str,
    worded: bool,
) -> Result<Names<'t, B>, TableError>
    ensures names { IfOk result (λ names. names_of names ≡ names_for tags.now secrets.now) }
    ensures tags_alone { OnOk result (bad_line secrets.now ≡ None) }
    ensures bad { IfErr result (λ e. (n : ℕ) → e ≡ ABadLine n → HasBadLine tags.now secrets.now n) }
{
    let own = own_names(alloc, tags)?;
    let Ok(by_name) = tags_by_name(alloc, tags) else {
        return Err(TableError::OutOfMemory);
    };
    let Ok(words) = words_for(alloc, worded) else {
        return Err(TableError::OutOfMemory);
    };
    Ok(Names {
        tags: own.tags,
        by_name,
        values: standard_values(alloc)?,
        masks: standard_masks(alloc)?,
        own: own.values,
        secrets: tag_names(alloc, secrets)?,
        words,
    })
}

// Does with each input what is asked.
fn run_inputs<B: Allocator + Copy, O: Opener, R: Source, W: Sink, E: Sink>(
    memory: Memory<B, B>,
    asked: Asked<'_>,
    files: &[&str],
    names: &Names<'_, B>,
    opener: &mut O,
    stdin: &mut R,
    output: &mut W,
    errors: &mut E,
) -> u8
    ensures { InputsDone (record { opens = O.opens; left = O.Input.left; can_fail = O.Input.can_fail })
        (names_of names.now) asked.entry files.now
        (record { opener = opener.old; output = held W.emitted W.room output.old; errors = held E.emitted E.room errors.old })
        (record { opener = opener.new; output = held W.emitted W.room output.new; errors = held E.emitted E.room errors.new })
        R.can_fail (R.left stdin.old) (R.left stdin.new) result }
{
    if files.is_empty() {
        return run(
            memory,
            asked,
            "standard input",
            names,
            stdin,
            output,
            errors,
        );
    }
    run_files(memory, asked, names, files, opener, output, errors)
}

// The tables of names and of secrets; or the status where there is none.
fn tables_of<B: Allocator + Copy, T: Opener, E: Sink>(
    alloc: B,
    tables: &mut T,
    names: Option<&str>,
    secrets: Option<&str>,
    errors: &mut E,
) -> Result<(String<B>, String<B>), u8>
    ensures ok { IfOk result (λ r. AreRead (record { opens = T.opens; left = T.Input.left; can_fail = T.Input.can_fail }) names.entry secrets.entry
        tables.old tables.new (string_bytes r.0) (string_bytes r.1)) }
    ensures quiet { OnOk result (errors.new ≡ errors.old) }
    ensures err { IfErr result (λ status. (line : List ℕ)
        × LacksOne (record { opens = T.opens; left = T.Input.left; can_fail = T.Input.can_fail }) names.entry secrets.entry tables.old tables.new status line
        × Says (held E.emitted E.room errors.old) (held E.emitted E.room errors.new) line) }
{
    let tags = table(alloc, tables, STANDARD_TAGS, names, errors)?;
    let secret = table(alloc, tables, STANDARD_SECRETS, secrets, errors)?;
    Ok((tags, secret))
}

/// Does what a request asks for, and returns the exit status: those of [`run`] and [`run_files`]; 2 for a table that can't
/// be read, a table of secrets that names values, and a word for a tag that is none; and 3 when out of memory. Tables are opened by
/// `tables`, files by `opener`; where none is named, `stdin` is the input. Memory is taken
/// from `alloc`: also for the bytes of the input.
pub fn run_request<B: Allocator + Copy, T: Opener, O: Opener, R: Source, W: Sink, E: Sink>(
    alloc: B,
    request: &Request<'_>,
    terminal: Terminal<'_>,
    tables: &mut T,
    opener: &mut O,
    stdin: &mut R,
    output: &mut W,
    errors: &mut E,
) -> u8
    ensures { RequestDone (record { opens = T.opens; left = T.Input.left; can_fail = T.Input.can_fail })
        (record { opens = O.opens; left = O.Input.left; can_fail = O.Input.can_fail })
        request.now terminal.entry tables.old tables.new
        (record { opener = opener.old; output = held W.emitted W.room output.old; errors = held E.emitted E.room errors.old })
        (record { opener = opener.new; output = held W.emitted W.room output.new; errors = held E.emitted E.room errors.new })
        R.can_fail (R.left stdin.old) (R.left stdin.new) result }
{
    if let Some(pair) = request.compares {
        return run_comparison(alloc, request, pair, tables, opener, output, errors);
    }
    let (tags, secret) = match tables_of(alloc, tables, request.names, request.secrets, errors) {
        Ok(read) => read,
        Err(status) => return status,
    };
    let only = match tags_of(alloc, tags.as_str(), request.tags.as_slice(), errors) {
        Ok(only) => only,
        Err(status) => return status,
    };
    let path = match tags_of(alloc, tags.as_str(), request.path.as_slice(), errors) {
        Ok(path) => path,
        Err(status) => return status,
    };
    let names = match names_in(
        alloc,
        tags.as_str(),
        secret.as_str(),
        is_worded(request.asked),
    ) {
        Ok(names) => names,
        Err(TableError::BadLine(_)) => {
            report_words(
                errors,
                word_of(request.secrets),
                "a table of secrets names tags alone, as `540001 Own Secret`",
            );
            return USAGE;
        }
        Err(TableError::OutOfMemory) => return no_memory(errors),
    };
    let colored = is_colored(request.color, terminal);
    let looked = with_look(request.asked, colored, only.as_slice());
    let asked = with_path(looked, path.as_slice());
    let memory = Memory {
        input: alloc,
        rest: alloc,
    };
    run_inputs(
        memory,
        asked,
        request.files.as_slice(),
        &names,
        opener,
        stdin,
        output,
        errors,
    )
}
