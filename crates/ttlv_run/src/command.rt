//! The commands and their options.

use clap::builder::ValueParser;
use clap::{Arg, ArgAction, Command};
use std::alloc::{AllocError, Global};

/// What `--version` prints; an unproved build puts `-unproved` behind it.
const VERSION: &str = "0.1.0";

const EXAMPLES: &str = "Examples:
  ttlv show capture.bin          what a capture says, item by item
  ttlv show --redact < log.hex   the same without values, to be kept in a log
  ttlv html capture.bin > a.html the same as a page, with the bytes beside each item
  ttlv diag --prefix 4200 a b    one short line for each message, without values
  ttlv undiag --prefix 4200      such lines, read back
  ttlv check *.bin               the first fault of each file, if there is one
  ttlv hex capture.b64           one line of hexadecimal digits for each message
  ttlv json capture.bin          one line of JSON for each message
  ttlv from-json messages.json   the message of each value of JSON, in hexadecimal
  ttlv xml capture.bin           the messages as one document of XML, in the form of OASIS's test cases
  ttlv from-xml test-case.xml    the messages of such a document, in hexadecimal
  ttlv diff run1.bin run2.bin    the messages that differ, but for dates and identifiers
  ttlv show --find server.log    the messages within anything else
  ttlv show capture.pcapng       the messages that TCP carries in a packet capture
  tcpdump -xr a.pcap | ttlv show the same of what tcpdump -x, -X, -xx or -XX prints
  xxd key.bin | ttlv show        a dump of xxd, hexdump -C or od -A x -t x1

Input is raw TTLV, hexadecimal, base64, a dump, or a packet capture; messages stand one
after the other.
Statuses: 0 whole; 1 malformed; 2 usage, or input that can't be read or decoded;
3 out of memory, or output that can't be written.";

const ENCODINGS: [&str; 11] = [
    "raw",
    "hex",
    "base64",
    "base64url",
    "pem",
    "xxd",
    "hexdump",
    "od",
    "tcpdump",
    "pcap",
    "pcapng",
];

/// What may stand behind a command's name.
#[derive(Clone, Copy)]
enum Part {
    Files,
    File,
    Two,
    Input,
    Port,
    Prefix,
    Names,
    Named,
    Offsets,
    Lengths,
    Bytes,
    Find,
    Width,
    Tag,
    Get,
    Color,
    Redact,
    Secrets,
    Strict,
    Raw,
    RawBytes,
    Closed,
    Unclosed,
    Kmip,
    Empty,
}

/// Each command: its name, what it does, and what may stand behind it.
const COMMANDS: [(&str, &str, &[Part]); 11] = [
    (
        "show",
        "Prints a readable line for each item; control characters in texts are escaped",
        &[
            Part::Redact,
            Part::Secrets,
            Part::Strict,
            Part::Raw,
            Part::Find,
            Part::Offsets,
            Part::Lengths,
            Part::Bytes,
            Part::Width,
            Part::Tag,
            Part::Get,
            Part::Color,
            Part::Names,
            Part::Input,
            Part::Port,
            Part::Files,
        ],
    ),
    (
        "html",
        "Prints a page of HTML with the lines of show, in which structures fold, and the bytes of each item",
        &[
            Part::Redact,
            Part::Secrets,
            Part::Strict,
            Part::Width,
            Part::Tag,
            Part::Names,
            Part::Input,
            Part::Port,
            Part::File,
        ],
    ),
    (
        "diag",
        "Prints a redacted diagnostic of each message, a line each",
        &[
            Part::Prefix,
            Part::Closed,
            Part::Unclosed,
            Part::Strict,
            Part::Input,
            Part::Port,
            Part::Files,
        ],
    ),
    (
        "undiag",
        "Prints what diagnostics, a line each, are read back as",
        &[Part::Prefix, Part::Names, Part::Files],
    ),
    (
        "check",
        "Prints nothing but the first fault of each input",
        &[
            Part::Kmip,
            Part::Empty,
            Part::Input,
            Part::Port,
            Part::Files,
        ],
    ),
    (
        "hex",
        "Prints each message in hexadecimal digits, a line each",
        &[Part::Strict, Part::Input, Part::Port, Part::Files],
    ),
    (
        "json",
        "Prints each message as JSON, a line each",
        &[
            Part::Named,
            Part::Redact,
            Part::Secrets,
            Part::Strict,
            Part::Input,
            Part::Port,
            Part::Files,
        ],
    ),
    (
        "xml",
        "Prints the messages as one document of XML",
        &[Part::Strict, Part::Input, Part::Port, Part::File],
    ),
    (
        "from-xml",
        "Prints the messages that a document of XML is, in hexadecimal digits, a line each",
        &[Part::RawBytes, Part::Files],
    ),
    (
        "from-json",
        "Prints the messages that values of JSON are, in hexadecimal digits, a line each",
        &[Part::RawBytes, Part::Files],
    ),
    (
        "diff",
        "Prints the lines of messages that differ in two files, but for dates and identifiers",
        &[Part::Names, Part::Input, Part::Port, Part::Two],
    ),
];

fn files<'w>(alloc: Global) -> Arg<'w> {
    Arg::new(alloc, "files")
        .value_name("FILE")
        .num_args(0..)
        .action(ArgAction::Append)
        .help("What to read; standard input where none is named")
}

fn file<'w>(alloc: Global) -> Arg<'w> {
    Arg::new(alloc, "files")
        .value_name("FILE")
        .help("What to read; standard input if it isn't named")
}

fn two<'w>(alloc: Global) -> Arg<'w> {
    Arg::new(alloc, "files")
        .value_name("FILE")
        .num_args(0..)
        .action(ArgAction::Append)
        .help("The two files whose messages are compared; - is standard input")
}

fn input<'w>(alloc: Global) -> Arg<'w> {
    Arg::new(alloc, "input")
        .long("input")
        .value_name("ENCODING")
        .value_parser(ENCODINGS.as_slice())
        .help("What the input is, in place of what it looks like")
}

fn port<'w>(alloc: Global) -> Arg<'w> {
    Arg::new(alloc, "port")
        .long("port")
        .value_name("NUMBER")
        .value_parser(ValueParser::unsigned(0, 65_535))
        .help("The TCP port of a packet capture; 5696 where none is named")
}

fn prefix<'w>(alloc: Global) -> Arg<'w> {
    Arg::new(alloc, "prefix")
        .long("prefix")
        .value_name("DIGITS")
        .default_value("")
        .help("Hexadecimal digits that are left out in front of tags")
}

fn names<'w>(alloc: Global) -> Arg<'w> {
    Arg::new(alloc, "names")
        .long("names")
        .value_name("TABLE")
        .help(
            "A file with further names, a line each: `540001 Own Tag`, `540001:00000002 Own Value`",
        )
}

fn named<'w>(alloc: Global) -> Arg<'w> {
    Arg::new(alloc, "named")
        .long("names")
        .action(ArgAction::SetTrue)
        .help(
            "Prints the standard's names of tags, enumeration values and mask bits, dates as text, and numbers as such",
        )
}

fn offsets<'w>(alloc: Global) -> Arg<'w> {
    Arg::new(alloc, "offsets")
        .short('o')
        .long("offsets")
        .action(ArgAction::SetTrue)
        .help("Prints the offset of each item, in bytes, in front of its line")
}

fn lengths<'w>(alloc: Global) -> Arg<'w> {
    Arg::new(alloc, "lengths")
        .long("lengths")
        .action(ArgAction::SetTrue)
        .help(
            "Prints how many bytes the value of each item has, in front of its line; not with --redact",
        )
}

fn bytes<'w>(alloc: Global) -> Arg<'w> {
    Arg::new(alloc, "bytes")
        .long("bytes")
        .action(ArgAction::SetTrue)
        .help(
            "Prints the bytes of each item in hexadecimal digits, in front of its line: its header and, but for a structure, its value; not with --redact",
        )
}

fn find<'w>(alloc: Global) -> Arg<'w> {
    Arg::new(alloc, "find")
        .long("find")
        .action(ArgAction::SetTrue)
        .help(
            "Prints the request and response messages that stand anywhere in the input, with their offsets: in a log, a literal, HTTP",
        )
}

fn width<'w>(alloc: Global) -> Arg<'w> {
    Arg::new(alloc, "width")
        .long("width")
        .value_name("BYTES")
        .value_parser(ValueParser::unsigned(0, u64::MAX))
        .help("The most bytes that are printed of a byte string, and with --bytes of each value")
}

fn tag<'w>(alloc: Global) -> Arg<'w> {
    Arg::new(alloc, "tag")
        .long("tag")
        .value_name("NAME")
        .action(ArgAction::Append)
        .help(
            "Prints only the items of this tag, with what is in them: its name in any spelling, or six hexadecimal digits; given again, of that one too",
        )
}

fn get<'w>(alloc: Global) -> Arg<'w> {
    Arg::new(alloc, "get").long("get").value_name("PATH").help(
        "Prints only the values of the items of this path, a line each: the names of the tags from a message's root, as for --tag, with slashes between; status 1 if there is none",
    )
}

fn color<'w>(alloc: Global) -> Arg<'w> {
    Arg::new(alloc, "color")
        .long("color")
        .value_name("WHEN")
        .default_value("auto")
        .value_parser(["always", "never", "auto"].as_slice())
        .help("Whether lines are coloured; auto: on a terminal, unless NO_COLOR is set")
}

fn redact<'w>(alloc: Global) -> Arg<'w> {
    Arg::new(alloc, "redact")
        .long("redact")
        .value_name("WHAT")
        .num_args(0..=1)
        .require_equals(true)
        .default_missing_value("all")
        .value_parser(["all", "keys"].as_slice())
        .help(
            "Hides all values but those of enumerations, or those of keys, passwords and credentials alone",
        )
}

fn secrets<'w>(alloc: Global) -> Arg<'w> {
    Arg::new(alloc, "secrets")
        .long("secrets")
        .value_name("TABLE")
        .help(
            "A file with further tags that --redact=keys hides, as `540001 Own Secret`, a line for each",
        )
}

fn strict<'w>(alloc: Global) -> Arg<'w> {
    Arg::new(alloc, "strict")
        .long("strict")
        .action(ArgAction::SetTrue)
        .help("Prints nothing of a malformed message, and no tag at its error; so does --redact")
}

fn raw<'w>(alloc: Global) -> Arg<'w> {
    Arg::new(alloc, "raw")
        .long("raw")
        .action(ArgAction::SetTrue)
        .help("Prints texts as they are, with their control characters and backslashes")
}

fn raw_bytes<'w>(alloc: Global) -> Arg<'w> {
    Arg::new(alloc, "raw")
        .long("raw")
        .action(ArgAction::SetTrue)
        .help("Prints raw messages in place of hexadecimal digits")
}

fn closed<'w>(alloc: Global) -> Arg<'w> {
    Arg::new(alloc, "closed")
        .long("closed")
        .action(ArgAction::SetTrue)
        .help("Closes empty structures: the default")
}

fn unclosed<'w>(alloc: Global) -> Arg<'w> {
    Arg::new(alloc, "unclosed")
        .long("unclosed")
        .action(ArgAction::SetTrue)
        .help("Leaves empty structures open, as the crate kmip-ttlv does")
}

fn kmip<'w>(alloc: Global) -> Arg<'w> {
    Arg::new(alloc, "kmip")
        .long("kmip")
        .action(ArgAction::SetTrue)
        .help("Wants each message to be a Request Message or a Response Message")
}

fn empty<'w>(alloc: Global) -> Arg<'w> {
    Arg::new(alloc, "allow-empty")
        .long("allow-empty")
        .action(ArgAction::SetTrue)
        .help("Takes an input without a message, too")
}

fn arg<'w>(alloc: Global, part: Part) -> Arg<'w> {
    match part {
        Part::Files => files(alloc),
        Part::File => file(alloc),
        Part::Two => two(alloc),
        Part::Input => input(alloc),
        Part::Port => port(alloc),
        Part::Prefix => prefix(alloc),
        Part::Names => names(alloc),
        Part::Named => named(alloc),
        Part::Offsets => offsets(alloc),
        Part::Lengths => lengths(alloc),
        Part::Bytes => bytes(alloc),
        Part::Find => find(alloc),
        Part::Width => width(alloc),
        Part::Tag => tag(alloc),
        Part::Get => get(alloc),
        Part::Color => color(alloc),
        Part::Redact => redact(alloc),
        Part::Secrets => secrets(alloc),
        Part::Strict => strict(alloc),
        Part::Raw => raw(alloc),
        Part::RawBytes => raw_bytes(alloc),
        Part::Closed => closed(alloc),
        Part::Unclosed => unclosed(alloc),
        Part::Kmip => kmip(alloc),
        Part::Empty => empty(alloc),
    }
}

fn command<'w>(
    alloc: Global,
    name: &'w str,
    about: &'w str,
    parts: &[Part],
) -> Result<Command<'w>, AllocError> {
    let mut made = Command::new(alloc, name).about(about);
    for part in parts {
        made = made.arg(arg(alloc, *part))?;
    }
    Ok(made)
}

/// The program with its commands.
pub fn program<'w>(alloc: Global) -> Result<Command<'w>, AllocError> {
    let mut made = Command::new(alloc, "ttlv")
        .about("Prints and checks messages in TTLV, the encoding of OASIS KMIP")
        .version(VERSION)
        .after_help(EXAMPLES)
        .subcommand_required(true)
        .disable_help_subcommand(true);
    for (name, about, parts) in COMMANDS {
        made = made.subcommand(command(alloc, name, about, parts)?)?;
    }
    Ok(made)
}
