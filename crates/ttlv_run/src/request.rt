//! What the words ask for.

ghost use Rattle.std.specs.Prelude.{◌≡◌, ℕ, List, false, map, bytes_eq, codes, IfOk, option_map};
ghost use Rattle.clap.specs.Matches.{found_of, one_text};
ghost use Rattle.clap.specs.declared.parser.matches.Found.{Found};
ghost use Rattle.ttlv_run.specs.Requests.{is_given, is_set, port_or, by_port, encoding_in, IsEncoding, prefix_in, values_in, IsWidth, IsLook, hiding_in, color_in, is_closed, is_redacted, is_strict, IsHexadecimal, page_values, IsPageLook, IsPageTask, IsTask, texts_in, IsAsked, IsRequest, is_useless, tells_values, finds, names_encoding, path_words, path_in, gets_lines, names_capture, names_port, pair_of, lacks_pair};

use crate::command::program;
use crate::compared::Pair;
use crate::guess::KMIP_PORT;
use crate::job::{Asked, Encoding, Look, Product, Strict, Task, Values};
use clap::error::ErrorKind;
use clap::{ArgMatches, Error};
use kmip_ttlv_json::Hiding;
use std::alloc::{AllocError, Global};

/// Why a table of secrets is refused.
const NO_USE: &str = "--secrets hides nothing without --redact=keys";

/// Why lengths and bytes are refused.
const TELLS: &str = "--lengths and --bytes tell of the values that --redact hides";

/// Why an encoding and a port are refused where messages are looked for.
const ANY_NOTATION: &str =
    "--find looks for messages in any notation, so it takes no --input and no --port";

/// Why what stands in lines of items is refused where values are asked for.
const VALUES_ALONE: &str =
    "--get prints values alone, so it takes no --find, --tag, --offsets, --lengths and --bytes";

/// Why files are refused where two are compared.
const TWO_FILES: &str = "diff compares two files, so it takes two names";

/// Why a port is refused.
const NO_PORT: &str = "--port is that of a packet capture, and --input names another encoding";

/// When lines are coloured.
#[derive(Clone, Copy, Debug, PartialEq, Eq)]
pub enum Color {
    /// On any output, also a file.
    Always,
    /// On no output, also a terminal.
    Never,
    /// Where the output is a terminal, and no colours are wanted nowhere.
    Auto,
}

/// What the program is to do.
#[derive(Drop)]
pub struct Request<'w> {
    /// What is to be done with each input.
    pub asked: Asked<'w>,
    /// The file with further names of tags, where there is one.
    pub names: Option<&'w str>,
    /// The file with further tags of secrets, if any.
    pub secrets: Option<&'w str>,
    /// The tags whose items alone are shown, each by its name or its hexadecimal digits; none for all items.
    pub tags: Vec<&'w str>,
    /// The tags from a message's root to the items of which the values alone are printed, likewise; none for lines of items.
    pub path: Vec<&'w str>,
    /// When lines are coloured.
    pub color: Color,
    /// The files to be read; none for standard input.
    pub files: Vec<&'w str>,
    /// These files, if their messages are compared.
    pub compares: Option<Pair<'w>>,
}

// Whether the word of an option is this one.
fn is_given(matches: &ArgMatches<'_>, option: &str, word: &str) -> bool
    ensures { result ≡ is_given (found_of matches.now) option.now word.now }
{
    match matches.get_str(option) {
        Some(text) => text == word,
        None => false,
    }
}

// Whether a flag is given.
fn is_set(matches: &ArgMatches<'_>, flag: &str) -> bool
    ensures { result ≡ is_set (found_of matches.now) flag.now }
{
    is_given(matches, flag, "true")
}

// A packet capture, of a port or of that of KMIP.
fn port_or(port: Option<usize>) -> Encoding
    ensures { result ≡ port_or port }
{
    match port {
        Some(port) => Encoding::Capture { port },
        None => Encoding::Capture { port: KMIP_PORT },
    }
}

// A port without an encoding is that of a packet capture.
fn by_port(port: Option<usize>) -> Encoding
    ensures { result ≡ by_port port }
{
    match port {
        Some(port) => Encoding::Capture { port },
        None => Encoding::Detected,
    }
}

fn port_of(matches: &ArgMatches<'_>) -> Option<usize>
    ensures { IsWidth (one_text (found_of matches.now) (codes "port")) result }
{
    matches.get_one("port")
}

fn encoding_of(matches: &ArgMatches<'_>) -> Encoding
    ensures { IsEncoding (found_of matches.now) result }
{
    encoding_by(matches, port_of(matches))
}

#[tactic(auto, unfolding(crate::specs::Requests::encoding_in))]
fn encoding_by(matches: &ArgMatches<'_>, port: Option<usize>) -> Encoding
    ensures { result ≡ encoding_in (found_of matches.now) port }
{
    if is_given(matches, "input", "raw") {
        Encoding::Raw
    } else if is_given(matches, "input", "hex") {
        Encoding::Hexadecimal
    } else if is_given(matches, "input", "base64") {
        Encoding::Base64
    } else if is_given(matches, "input", "base64url") {
        Encoding::Base64Url
    } else if is_given(matches, "input", "pem") {
        Encoding::Armoured
    } else if is_given(matches, "input", "xxd") {
        Encoding::Dump
    } else if is_given(matches, "input", "hexdump") {
        Encoding::Dump
    } else if is_given(matches, "input", "od") {
        Encoding::Dump
    } else if is_given(matches, "input", "tcpdump") {
        port_or(port)
    } else if is_given(matches, "input", "pcap") {
        port_or(port)
    } else if is_given(matches, "input", "pcapng") {
        port_or(port)
    } else {
        by_port(port)
    }
}

fn prefix_of<'w>(matches: &ArgMatches<'w>) -> &'w str
    ensures { result.now ≡ prefix_in (found_of matches.now) }
{
    match matches.get_str("prefix") {
        Some(prefix) => prefix,
        None => "",
    }
}

// What is hidden is never printed raw.
#[tactic(auto, unfolding(crate::specs::Requests::values_in))]
fn values_of(matches: &ArgMatches<'_>) -> Values
    ensures { result ≡ values_in (found_of matches.now) }
{
    if is_given(matches, "redact", "all") {
        Values::Hidden
    } else if is_given(matches, "redact", "keys") {
        Values::Escaped
    } else if is_set(matches, "raw") {
        Values::Raw
    } else {
        Values::Escaped
    }
}

fn width_of(matches: &ArgMatches<'_>) -> Option<usize>
    ensures { IsWidth (one_text (found_of matches.now) (codes "width")) result }
{
    matches.get_one("width")
}

// Colours and the tags are not known before the names and the terminal are.
fn look_of<'w>(matches: &ArgMatches<'w>) -> Look<'w>
    ensures { IsLook (found_of matches.now) result }
{
    Look {
        values: values_of(matches),
        secrets_hidden: is_given(matches, "redact", "keys"),
        offsets: is_set(matches, "offsets"),
        lengths: is_set(matches, "lengths"),
        bytes: is_set(matches, "bytes"),
        width: width_of(matches),
        colored: false,
        only: None,
        path: None,
    }
}

#[tactic(auto, unfolding(crate::specs::Requests::hiding_in))]
fn hiding_of(matches: &ArgMatches<'_>) -> Hiding
    ensures { result ≡ hiding_in (found_of matches.now) }
{
    if is_given(matches, "redact", "all") {
        Hiding::Values
    } else if is_given(matches, "redact", "keys") {
        Hiding::Secrets
    } else {
        Hiding::Nothing
    }
}

#[tactic(auto, unfolding(crate::specs::Requests::color_in))]
fn color_of(matches: &ArgMatches<'_>) -> Color
    ensures { result ≡ color_in (found_of matches.now) }
{
    if is_given(matches, "color", "always") {
        Color::Always
    } else if is_given(matches, "color", "never") {
        Color::Never
    } else {
        Color::Auto
    }
}

// Whether empty structures are closed.
fn is_closed(matches: &ArgMatches<'_>) -> bool
    ensures { result ≡ is_closed (found_of matches.now) }
{
    is_set(matches, "closed") || !is_set(matches, "unclosed")
}

// Whether any values are hidden.
fn is_redacted(matches: &ArgMatches<'_>) -> bool
    ensures { result ≡ is_redacted (found_of matches.now) }
{
    is_given(matches, "redact", "all") || is_given(matches, "redact", "keys")
}

// Whether nothing is printed of a malformed message.
fn is_strict(matches: &ArgMatches<'_>) -> bool
    ensures { result ≡ is_strict (found_of matches.now) }
{
    is_set(matches, "strict") || is_redacted(matches)
}

fn show_of<'w>(matches: &ArgMatches<'w>) -> Task<'w>
    ensures { IsTask (codes "show") (found_of matches.now) result }
{
    let look = look_of(matches);
    if is_strict(matches) {
        let strict = Strict::Show { look };
        return Task::Whole { strict };
    }
    Task::Show { look }
}

// What a page says of values.
fn page_values(matches: &ArgMatches<'_>) -> Values
    ensures { result ≡ page_values (found_of matches.now) }
{
    if is_given(matches, "redact", "all") {
        Values::Hidden
    } else {
        Values::Escaped
    }
}

// How the lines of a page are printed.
fn page_look<'w>(matches: &ArgMatches<'w>) -> Look<'w>
    ensures { IsPageLook (found_of matches.now) result }
{
    let shown = !is_redacted(matches);
    Look {
        values: page_values(matches),
        secrets_hidden: is_given(matches, "redact", "keys"),
        offsets: shown,
        lengths: shown,
        bytes: shown,
        width: width_of(matches),
        colored: false,
        only: None,
        path: None,
    }
}

// The lines of a page.
fn page_task<'w>(matches: &ArgMatches<'w>) -> Task<'w>
    ensures { IsPageTask (found_of matches.now) result }
{
    let look = page_look(matches);
    if is_strict(matches) {
        let strict = Strict::Show { look };
        return Task::Whole { strict };
    }
    Task::Show { look }
}

fn diagnose_of<'w>(matches: &ArgMatches<'w>) -> Task<'w>
    ensures { IsTask (codes "diag") (found_of matches.now) result }
{
    let closed = is_closed(matches);
    let prefix = prefix_of(matches);
    if is_strict(matches) {
        let strict = Strict::Diagnose { closed, prefix };
        return Task::Whole { strict };
    }
    Task::Diagnose { closed, prefix }
}

fn json_of<'w>(matches: &ArgMatches<'w>) -> Task<'w>
    ensures { IsTask (codes "json") (found_of matches.now) result }
{
    let hiding = hiding_of(matches);
    let named = is_set(matches, "named");
    if is_strict(matches) {
        let strict = Strict::Json { hiding, named };
        return Task::Whole { strict };
    }
    Task::Json { hiding, named }
}

// Each message in hexadecimal, also for a document that is made of it.
fn hexadecimal_of(matches: &ArgMatches<'_>) -> Task<'static>
    ensures { IsHexadecimal (found_of matches.now) result }
{
    if is_strict(matches) {
        let strict = Strict::Hexadecimal;
        return Task::Whole { strict };
    }
    Task::Hexadecimal
}

fn task_of<'w>(command: &str, matches: &ArgMatches<'w>) -> Task<'w>
    requires undiag { bytes_eq command.now (codes "undiag") ≡ false }
    requires from_json { bytes_eq command.now (codes "from-json") ≡ false }
    requires from_xml { bytes_eq command.now (codes "from-xml") ≡ false }
    requires xml { bytes_eq command.now (codes "xml") ≡ false }
    requires html { bytes_eq command.now (codes "html") ≡ false }
    ensures { IsTask command.now (found_of matches.now) result }
{
    if command == "show" {
        show_of(matches)
    } else if command == "diag" {
        diagnose_of(matches)
    } else if command == "hex" {
        hexadecimal_of(matches)
    } else if command == "diff" {
        Task::Hexadecimal
    } else if command == "json" {
        json_of(matches)
    } else {
        Task::Check {
            kmip: command == "check" && is_set(matches, "kmip"),
            empty: command == "check" && is_set(matches, "allow-empty"),
        }
    }
}

// The words of an option that may be given several times.
fn texts_of<'w>(
    alloc: Global,
    matches: &ArgMatches<'w>,
    option: &str,
) -> Result<Vec<&'w str>, AllocError>
    ensures { IfOk result (λ texts. map (λ s. s.now) texts.items ≡ texts_in (found_of matches.now) option.now) }
{
    match matches.get_strs(option) {
        Some(texts) => Vec::from_slice(alloc, texts),
        None => Ok(Vec::new(alloc)),
    }
}

// The names between the slashes of a path.
fn path_words<'w>(alloc: Global, path: &'w str) -> Result<Vec<&'w str>, AllocError>
    ensures { IfOk result (λ words. map (λ s. s.now) words.items ≡ path_words path.now) }
{
    path.split('/').collect(alloc)
}

fn path_of<'w>(alloc: Global, matches: &ArgMatches<'w>) -> Result<Vec<&'w str>, AllocError>
    ensures { IfOk result (λ words. map (λ s. s.now) words.items ≡ path_in (found_of matches.now)) }
{
    match matches.get_str("get") {
        Some(path) => path_words(alloc, path),
        None => Ok(Vec::new(alloc)),
    }
}

// Whether messages are looked for within anything else.
fn finds(command: &str, matches: &ArgMatches<'_>) -> bool
    ensures { result ≡ finds command.now (found_of matches.now) }
{
    command == "show" && is_set(matches, "find")
}

fn asked_of<'w>(command: &str, matches: &ArgMatches<'w>) -> Asked<'w>
    ensures { IsAsked command.now (found_of matches.now) result }
{
    if command == "undiag" {
        Asked::ReadBack {
            prefix: prefix_of(matches),
        }
    } else if command == "from-json" {
        Asked::FromJson {
            raw: is_set(matches, "raw"),
        }
    } else if command == "from-xml" {
        Asked::FromXml {
            raw: is_set(matches, "raw"),
        }
    } else if command == "xml" {
        Asked::Gather {
            task: hexadecimal_of(matches),
            encoding: encoding_of(matches),
            product: Product::Document,
        }
    } else if command == "html" {
        Asked::Gather {
            task: page_task(matches),
            encoding: encoding_of(matches),
            product: Product::Page,
        }
    } else if finds(command, matches) {
        Asked::Find {
            look: look_of(matches),
        }
    } else {
        Asked::Print {
            task: task_of(command, matches),
            encoding: encoding_of(matches),
        }
    }
}

// The two files of a command that compares.
fn pair_of<'w>(command: &str, files: &[&'w str]) -> Option<Pair<'w>>
    ensures { option_map (λ p. (p.first.now, p.second.now)) result ≡ pair_of command.now (map (λ s. s.now) files.now) }
{
    if command != "diff" {
        return None;
    }
    match files {
        [first, second] => Some(Pair { first, second }),
        _ => None,
    }
}

/// What a command asks for with these options.
///
/// It fails only if memory runs out.
pub fn request_in<'w>(
    alloc: Global,
    command: &str,
    matches: &ArgMatches<'w>,
) -> Result<Request<'w>, AllocError>
    ensures { IfOk result (IsRequest command.now (found_of matches.now)) }
{
    let files = texts_of(alloc, matches, "files")?;
    Ok(Request {
        asked: asked_of(command, matches),
        names: matches.get_str("names"),
        secrets: matches.get_str("secrets"),
        tags: texts_of(alloc, matches, "tag")?,
        path: path_of(alloc, matches)?,
        color: color_of(matches),
        compares: pair_of(command, files.as_slice()),
        files,
    })
}

// Whether two files are to be compared, and others are named.
fn lacks_pair(command: &str, request: &Request<'_>) -> bool
    ensures { result ≡ lacks_pair command.now request.now }
{
    command == "diff" && request.compares.is_none()
}

// Whether a table of secrets is named where they are not hidden.
fn is_useless(matches: &ArgMatches<'_>) -> bool
    ensures { result ≡ is_useless (found_of matches.now) }
{
    matches.contains_id("secrets") && !is_given(matches, "redact", "keys")
}

// Whether lengths or bytes are asked for where values are hidden.
fn tells_values(matches: &ArgMatches<'_>) -> bool
    ensures { result ≡ tells_values (found_of matches.now) }
{
    (is_set(matches, "lengths") || is_set(matches, "bytes")) && is_redacted(matches)
}

// Whether messages are looked for in any notation, and an encoding or a port is named.
fn names_encoding(matches: &ArgMatches<'_>) -> bool
    ensures { result ≡ names_encoding (found_of matches.now) }
{
    is_set(matches, "find") && (matches.contains_id("input") || matches.contains_id("port"))
}

// Whether values alone are asked for, and what stands in lines of items or in front of them.
fn gets_lines(matches: &ArgMatches<'_>) -> bool
    ensures { result ≡ gets_lines (found_of matches.now) }
{
    matches.contains_id("get")
        && (is_set(matches, "find")
            || matches.contains_id("tag")
            || is_set(matches, "offsets")
            || is_set(matches, "lengths")
            || is_set(matches, "bytes"))
}

// Whether an encoding is that of a packet capture.
fn names_capture(matches: &ArgMatches<'_>) -> bool
    ensures { result ≡ names_capture (found_of matches.now) }
{
    is_given(matches, "input", "tcpdump")
        || is_given(matches, "input", "pcap")
        || is_given(matches, "input", "pcapng")
}

// Whether a port is named where the input is no packet capture.
fn names_port(matches: &ArgMatches<'_>) -> bool
    ensures { result ≡ names_port (found_of matches.now) }
{
    matches.contains_id("port") && matches.contains_id("input") && !names_capture(matches)
}

/// What words ask for, the first of which is the program's name. Wrong usage are `--secrets` without `--redact=keys`, `--lengths` or `--bytes`
/// with any `--redact`, `--find` with `--input` or `--port`, `--get` with `--find`, `--tag`, `--offsets`, `--lengths` or `--bytes`, `--port` with an
/// `--input` that is no packet capture, and `diff` without two files. The error is to be printed, on standard output for help and the version, and
/// has the exit status.
pub fn request_of<'w>(alloc: Global, words: &'w [String]) -> Result<Request<'w>, Error>
    ensures { IfOk result (λ r. (command : List ℕ) × (f : Found) × IsRequest command f r
        × (is_useless f ≡ false) × (tells_values f ≡ false) × (names_encoding f ≡ false)
        × (gets_lines f ≡ false) × (names_port f ≡ false) × (lacks_pair command r ≡ false)) }
{
    let mut program = program(alloc)?;
    let matches = program.try_get_matches_from_mut(words)?;
    let Some((command, found)) = matches.subcommand() else {
        return Err(program.error(ErrorKind::MissingSubcommand, "a command is missing")?);
    };
    if is_useless(found) {
        return Err(program.error(ErrorKind::MissingRequiredArgument, NO_USE)?);
    }
    if tells_values(found) {
        return Err(program.error(ErrorKind::ArgumentConflict, TELLS)?);
    }
    if names_encoding(found) {
        return Err(program.error(ErrorKind::ArgumentConflict, ANY_NOTATION)?);
    }
    if gets_lines(found) {
        return Err(program.error(ErrorKind::ArgumentConflict, VALUES_ALONE)?);
    }
    if names_port(found) {
        return Err(program.error(ErrorKind::ArgumentConflict, NO_PORT)?);
    }
    let request = request_in(alloc, command, found)?;
    if lacks_pair(command, &request) {
        return Err(program.error(ErrorKind::WrongNumberOfValues, TWO_FILES)?);
    }
    Ok(request)
}
