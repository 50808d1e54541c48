//! What the words of the command line ask for.

use crate::command::program;
use crate::names::{bits_of, values_of};
use crate::spelling::number_named;
use clap::{ArgMatches, Error};
use kmip_messages::header::ProtocolVersion;
use kmip_messages::values::{CryptographicAlgorithm, RevocationReasonCode};
use std::alloc::{AllocError, Global};

// Tags whose values have names.
const CRYPTOGRAPHIC_ALGORITHM: u32 = 0x42_0028;

const CRYPTOGRAPHIC_USAGE_MASK: u32 = 0x42_002C;

const REVOCATION_REASON_CODE: u32 = 0x42_0082;

/// The version in which a server is asked which versions it has: the first in which it can be (KMIP 1.1, section 4.26).
pub const FIRST_ASKED: ProtocolVersion = ProtocolVersion { major: 1, minor: 1 };

/// What a new key is to be.
#[derive(Clone, Copy)]
pub struct NewKey<'w> {
    /// What it is for.
    pub algorithm: CryptographicAlgorithm,
    /// What it may be used for, a bit each.
    pub usage: i32,
    /// What it is called.
    pub name: &'w str,
}

/// What is asked of a server.
#[derive(Drop)]
pub enum Asked<'w> {
    /// What it can do.
    Query,
    /// Which versions it has.
    Versions,
    /// To make a key of so many bits.
    Create {
        key: NewKey<'w>,
        length: i32,
    },
    /// To keep the bytes of a file as a key.
    Register {
        key: NewKey<'w>,
        file: &'w str,
    },
    /// Which objects have this name, or which there are.
    Locate(Option<&'w str>),
    /// The object of this identifier.
    Get(&'w str),
    /// What is known of it: attributes of these names, or all.
    Attributes {
        identifier: &'w str,
        names: Vec<&'w str>,
    },
    /// To put it to use.
    Activate(&'w str),
    /// To take it out of use.
    Revoke {
        identifier: &'w str,
        reason: RevocationReasonCode,
    },
    /// To destroy it.
    Destroy(&'w str),
}

/// What the program is to do.
#[derive(Drop)]
pub struct Request<'w> {
    /// What is asked of the server.
    pub asked: Asked<'w>,
    /// The version to speak; none for the best that both have.
    pub version: Option<ProtocolVersion>,
    /// The file for the bytes of an object; none to print them.
    pub output: Option<&'w str>,
}

/// Why words ask for nothing.
#[derive(Drop)]
pub enum BadWords<'w> {
    /// They are no words of the program, or ask for its help.
    Grammar(Error),
    /// They name no command.
    Command,
    /// No algorithm has this name.
    Algorithm(&'w str),
    /// No usage of a key has this name.
    Usage(&'w str),
    /// Memory ran out.
    Memory,
}

impl From<AllocError> for BadWords<'_> {
    fn from(_error: AllocError) -> Self {
        BadWords::Memory
    }
}

// The word of an argument that is always there.
fn text<'w>(matches: &ArgMatches<'w>, id: &str) -> &'w str {
    matches.get_str(id).unwrap_or("")
}

// The sum of the bits that words name.
fn usage_of<'w>(matches: &ArgMatches<'w>) -> Result<i32, BadWords<'w>> {
    let bits = bits_of(CRYPTOGRAPHIC_USAGE_MASK).unwrap_or("");
    let mut usage = 0;
    for word in matches.get_strs("usage").unwrap_or(&[]) {
        match number_named(bits, word) {
            Some(bit) => usage |= bit,
            None => return Err(BadWords::Usage(word)),
        }
    }
    Ok(usage.cast_signed())
}

fn key_of<'w>(matches: &ArgMatches<'w>) -> Result<NewKey<'w>, BadWords<'w>> {
    let word = text(matches, "algorithm");
    let Some(number) = number_named(values_of(CRYPTOGRAPHIC_ALGORITHM), word) else {
        return Err(BadWords::Algorithm(word));
    };
    let usage = usage_of(matches)?;
    Ok(NewKey {
        algorithm: CryptographicAlgorithm { number },
        usage,
        name: text(matches, "name"),
    })
}

// The words let no other reason through.
fn reason_of(matches: &ArgMatches<'_>) -> RevocationReasonCode {
    let named = number_named(values_of(REVOCATION_REASON_CODE), text(matches, "reason"));
    RevocationReasonCode {
        number: named.unwrap_or(1),
    }
}

fn version_of(matches: &ArgMatches<'_>, asked: &Asked<'_>) -> Option<ProtocolVersion> {
    let Some(word) = matches.get_str("kmip-version") else {
        return match asked {
            Asked::Versions => Some(FIRST_ASKED),
            _ => None,
        };
    };
    let (major, minor) = match word {
        "1.0" => (1, 0),
        "1.1" => (1, 1),
        "1.2" => (1, 2),
        "1.3" => (1, 3),
        "1.4" => (1, 4),
        _ => (2, 0),
    };
    Some(ProtocolVersion { major, minor })
}

fn names_of<'w>(alloc: Global, matches: &ArgMatches<'w>) -> Result<Vec<&'w str>, AllocError> {
    Vec::from_slice(alloc, matches.get_strs("names").unwrap_or(&[]))
}

fn asked_of<'w>(
    alloc: Global,
    command: &str,
    matches: &ArgMatches<'w>,
) -> Result<Asked<'w>, BadWords<'w>> {
    Ok(match command {
        "query" => Asked::Query,
        "versions" => Asked::Versions,
        "create" => Asked::Create {
            key: key_of(matches)?,
            length: matches.get_one("length").unwrap_or(0),
        },
        "register" => Asked::Register {
            key: key_of(matches)?,
            file: text(matches, "file"),
        },
        "locate" => Asked::Locate(matches.get_str("name")),
        "get" => Asked::Get(text(matches, "id")),
        "attributes" => Asked::Attributes {
            identifier: text(matches, "id"),
            names: names_of(alloc, matches)?,
        },
        "activate" => Asked::Activate(text(matches, "id")),
        "revoke" => Asked::Revoke {
            identifier: text(matches, "id"),
            reason: reason_of(matches),
        },
        _ => Asked::Destroy(text(matches, "id")),
    })
}

/// What words ask for, of which the first is the program's name.
pub fn request_of<'w>(alloc: Global, words: &'w [String]) -> Result<Request<'w>, BadWords<'w>> {
    let matches = match program(alloc)?.try_get_matches_from(words) {
        Ok(matches) => matches,
        Err(error) => return Err(BadWords::Grammar(error)),
    };
    let Some((command, inner)) = matches.subcommand() else {
        return Err(BadWords::Command);
    };
    let asked = asked_of(alloc, command, inner)?;
    let version = version_of(inner, &asked);
    Ok(Request {
        asked,
        version,
        output: inner.get_str("output"),
    })
}
