//! The commands and their options.

use clap::builder::ValueParser;
use clap::{Arg, ArgAction, Command};
use std::alloc::{AllocError, Global};

/// What `--version` prints.
const VERSION: &str = "0.1.0";

const EXAMPLES: &str =
    "Requests go to standard output, responses come on standard input, and what is found
goes to standard error. With socat, over TLS:
  socat EXEC:\"kmip query\" OPENSSL:host:5696,cert=c.pem,key=k.pem,cafile=ca.pem
  socat EXEC:\"kmip get 1 --output key\" OPENSSL:host:5696,cert=c.pem,key=k.pem,cafile=ca.pem

Statuses: 0 done; 1 refused, or a response or a file that is no good; 2 usage;
3 out of memory, or a stream that broke.";

const VERSIONS: [&str; 6] = ["2.0", "1.4", "1.3", "1.2", "1.1", "1.0"];

const REASONS: [&str; 7] = [
    "unspecified",
    "key-compromise",
    "ca-compromise",
    "affiliation-changed",
    "superseded",
    "cessation-of-operation",
    "privilege-withdrawn",
];

/// What may stand behind a command's name.
#[derive(Clone, Copy)]
enum Part {
    Algorithm,
    Length,
    Name,
    Sought,
    Usage,
    File,
    Identifier,
    Output,
    Attributes,
    Reason,
}

/// Each command: its name, what it does, and what may stand behind it.
const COMMANDS: [(&str, &str, &[Part]); 10] = [
    ("query", "Prints what the server can do", &[]),
    (
        "versions",
        "Prints the versions of KMIP that the server has",
        &[],
    ),
    (
        "create",
        "Has a symmetric key made, and prints its identifier",
        &[Part::Algorithm, Part::Length, Part::Name, Part::Usage],
    ),
    (
        "register",
        "Has the bytes of a file kept as a symmetric key, and prints its identifier",
        &[Part::Algorithm, Part::Name, Part::Usage, Part::File],
    ),
    (
        "locate",
        "Prints the identifiers of objects, a line each",
        &[Part::Sought],
    ),
    (
        "get",
        "Prints the bytes of an object in hexadecimal digits",
        &[Part::Identifier, Part::Output],
    ),
    (
        "attributes",
        "Prints attributes of an object, a line each",
        &[Part::Identifier, Part::Attributes],
    ),
    ("activate", "Puts an object to use", &[Part::Identifier]),
    (
        "revoke",
        "Takes an object out of use",
        &[Part::Identifier, Part::Reason],
    ),
    ("destroy", "Has an object destroyed", &[Part::Identifier]),
];

fn algorithm<'w>(alloc: Global) -> Arg<'w> {
    Arg::new(alloc, "algorithm")
        .long("algorithm")
        .value_name("NAME")
        .required(true)
        .help("What the key is for, as the standard names it: AES, 3DES, HMAC-SHA256 ..")
}

fn bits<'w>(alloc: Global) -> Arg<'w> {
    Arg::new(alloc, "length")
        .long("length")
        .value_name("BITS")
        .required(true)
        .value_parser(ValueParser::unsigned(1, 2_147_483_647))
        .help("How long the key is to be")
}

fn name<'w>(alloc: Global) -> Arg<'w> {
    Arg::new(alloc, "name")
        .long("name")
        .value_name("NAME")
        .required(true)
        .help("What the key is to be called")
}

fn sought<'w>(alloc: Global) -> Arg<'w> {
    Arg::new(alloc, "name")
        .long("name")
        .value_name("NAME")
        .help("Prints only those of this name")
}

fn usage<'w>(alloc: Global) -> Arg<'w> {
    Arg::new(alloc, "usage")
        .long("usage")
        .value_name("NAMES")
        .value_delimiter(',')
        .action(ArgAction::Append)
        .default_value("encrypt,decrypt")
        .help(
            "What the key may be used for: encrypt, decrypt, sign, verify, wrap-key, unwrap-key, mac-generate ..",
        )
}

fn file<'w>(alloc: Global) -> Arg<'w> {
    Arg::new(alloc, "file")
        .value_name("FILE")
        .required(true)
        .help("The file with the bytes of the key")
}

fn identifier<'w>(alloc: Global) -> Arg<'w> {
    Arg::new(alloc, "id")
        .value_name("ID")
        .required(true)
        .help("The identifier of the object")
}

fn output<'w>(alloc: Global) -> Arg<'w> {
    Arg::new(alloc, "output")
        .long("output")
        .value_name("FILE")
        .help(
            "Puts the bytes into this file, which must not exist yet, and which only its owner can read",
        )
}

fn attributes<'w>(alloc: Global) -> Arg<'w> {
    Arg::new(alloc, "names")
        .value_name("NAME")
        .num_args(0..)
        .action(ArgAction::Append)
        .help("The attributes to print, as \"State\"; all if none is named")
}

fn reason<'w>(alloc: Global) -> Arg<'w> {
    Arg::new(alloc, "reason")
        .long("reason")
        .value_name("REASON")
        .value_parser(REASONS.as_slice())
        .default_value("unspecified")
        .help("Why it is taken out of use")
}

fn version<'w>(alloc: Global) -> Arg<'w> {
    Arg::new(alloc, "kmip-version")
        .long("kmip-version")
        .value_name("VERSION")
        .value_parser(VERSIONS.as_slice())
        .global(true)
        .help("The version of KMIP to speak, in place of the best that the server has too")
}

fn arg<'w>(alloc: Global, part: Part) -> Arg<'w> {
    match part {
        Part::Algorithm => algorithm(alloc),
        Part::Length => bits(alloc),
        Part::Name => name(alloc),
        Part::Sought => sought(alloc),
        Part::Usage => usage(alloc),
        Part::File => file(alloc),
        Part::Identifier => identifier(alloc),
        Part::Output => output(alloc),
        Part::Attributes => attributes(alloc),
        Part::Reason => reason(alloc),
    }
}

fn command<'w>(
    alloc: Global,
    name: &'w str,
    about: &'w str,
    parts: &[Part],
) -> Result<Command<'w>, AllocError> {
    let mut made = Command::new(alloc, name).about(about);
    for part in parts {
        made = made.arg(arg(alloc, *part))?;
    }
    Ok(made)
}

/// The program with its commands.
pub fn program<'w>(alloc: Global) -> Result<Command<'w>, AllocError> {
    let mut made = Command::new(alloc, "kmip")
        .about("Asks a server of KMIP for keys")
        .version(VERSION)
        .after_help(EXAMPLES)
        .subcommand_required(true)
        .disable_help_subcommand(true)
        .arg(version(alloc))?;
    for (name, about, parts) in COMMANDS {
        made = made.subcommand(command(alloc, name, about, parts)?)?;
    }
    Ok(made)
}
