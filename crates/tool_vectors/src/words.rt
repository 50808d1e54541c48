//! What the command line asks for.

use std::alloc::{AllocError, Global};
use ttlv_run::{Asked, Encoding, Hiding, Look, Pair, Product, Strict, Task, Values, request_of};

// Arguments, what they ask for, the file of names, and how many files are read.
type Row = (&'static str, Asked<'static>, Option<&'static str>, usize);

const ASKED: [Row; 39] = [
    ("ttlv from-json", Asked::FromJson { raw: false }, None, 0),
    (
        "ttlv show --find a",
        Asked::Find { look: Look::PLAIN },
        None,
        1,
    ),
    (
        "ttlv from-json --raw a b",
        Asked::FromJson { raw: true },
        None,
        2,
    ),
    (
        "ttlv json --input raw a",
        Asked::Print {
            task: Task::Json {
                hiding: Hiding::Nothing,
                named: false,
            },
            encoding: Encoding::Raw,
        },
        None,
        1,
    ),
    (
        "ttlv json --names --redact=keys",
        Asked::Print {
            task: Task::Whole {
                strict: Strict::Json {
                    hiding: Hiding::Secrets,
                    named: true,
                },
            },
            encoding: Encoding::Detected,
        },
        None,
        0,
    ),
    (
        "ttlv json --names",
        Asked::Print {
            task: Task::Json {
                hiding: Hiding::Nothing,
                named: true,
            },
            encoding: Encoding::Detected,
        },
        None,
        0,
    ),
    (
        "ttlv json --redact",
        Asked::Print {
            task: Task::Whole {
                strict: Strict::Json {
                    hiding: Hiding::Values,
                    named: false,
                },
            },
            encoding: Encoding::Detected,
        },
        None,
        0,
    ),
    (
        "ttlv json --redact=keys",
        Asked::Print {
            task: Task::Whole {
                strict: Strict::Json {
                    hiding: Hiding::Secrets,
                    named: false,
                },
            },
            encoding: Encoding::Detected,
        },
        None,
        0,
    ),
    (
        "ttlv show",
        Asked::Print {
            task: Task::Show { look: Look::PLAIN },
            encoding: Encoding::Detected,
        },
        None,
        0,
    ),
    (
        "ttlv show --redact --names own.txt a b",
        Asked::Print {
            task: Task::Whole {
                strict: Strict::Show {
                    look: Look {
                        values: Values::Hidden,
                        ..Look::PLAIN
                    },
                },
            },
            encoding: Encoding::Detected,
        },
        Some("own.txt"),
        2,
    ),
    (
        "ttlv show --raw a",
        Asked::Print {
            task: Task::Show {
                look: Look {
                    values: Values::Raw,
                    ..Look::PLAIN
                },
            },
            encoding: Encoding::Detected,
        },
        None,
        1,
    ),
    (
        "ttlv show --lengths a -o",
        Asked::Print {
            task: Task::Show {
                look: Look {
                    offsets: true,
                    lengths: true,
                    ..Look::PLAIN
                },
            },
            encoding: Encoding::Detected,
        },
        None,
        1,
    ),
    (
        "ttlv show --bytes --width 8",
        Asked::Print {
            task: Task::Show {
                look: Look {
                    bytes: true,
                    width: Some(8),
                    ..Look::PLAIN
                },
            },
            encoding: Encoding::Detected,
        },
        None,
        0,
    ),
    // The lines of a page have everything in front of them, and redacted ones nothing.
    (
        "ttlv html --width 8 a",
        Asked::Gather {
            task: Task::Show {
                look: Look {
                    offsets: true,
                    lengths: true,
                    bytes: true,
                    width: Some(8),
                    ..Look::PLAIN
                },
            },
            encoding: Encoding::Detected,
            product: Product::Page,
        },
        None,
        1,
    ),
    (
        "ttlv html --redact --names own.txt",
        Asked::Gather {
            task: Task::Whole {
                strict: Strict::Show {
                    look: Look {
                        values: Values::Hidden,
                        ..Look::PLAIN
                    },
                },
            },
            encoding: Encoding::Detected,
            product: Product::Page,
        },
        Some("own.txt"),
        0,
    ),
    (
        "ttlv html --redact=keys --port 1 a",
        Asked::Gather {
            task: Task::Whole {
                strict: Strict::Show {
                    look: Look {
                        secrets_hidden: true,
                        ..Look::PLAIN
                    },
                },
            },
            encoding: Encoding::Capture { port: 1 },
            product: Product::Page,
        },
        None,
        1,
    ),
    // `--redact` hides values even with `--raw`.
    (
        "ttlv show --raw --redact",
        Asked::Print {
            task: Task::Whole {
                strict: Strict::Show {
                    look: Look {
                        values: Values::Hidden,
                        ..Look::PLAIN
                    },
                },
            },
            encoding: Encoding::Detected,
        },
        None,
        0,
    ),
    (
        "ttlv diag --prefix 4200 --closed a",
        Asked::Print {
            task: Task::Diagnose {
                closed: true,
                prefix: "4200",
            },
            encoding: Encoding::Detected,
        },
        None,
        1,
    ),
    // Empty structures are closed, if it isn't asked that they aren't.
    (
        "ttlv diag --input=raw",
        Asked::Print {
            task: Task::Diagnose {
                closed: true,
                prefix: "",
            },
            encoding: Encoding::Raw,
        },
        None,
        0,
    ),
    (
        "ttlv diag --unclosed",
        Asked::Print {
            task: Task::Diagnose {
                closed: false,
                prefix: "",
            },
            encoding: Encoding::Detected,
        },
        None,
        0,
    ),
    (
        "ttlv check --allow-empty --kmip",
        Asked::Print {
            task: Task::Check {
                kmip: true,
                empty: true,
            },
            encoding: Encoding::Detected,
        },
        None,
        0,
    ),
    (
        "ttlv undiag --prefix 4200",
        Asked::ReadBack { prefix: "4200" },
        None,
        0,
    ),
    ("ttlv undiag", Asked::ReadBack { prefix: "" }, None, 0),
    (
        "ttlv diff --names own.txt --input raw a b",
        Asked::Print {
            task: Task::Hexadecimal,
            encoding: Encoding::Raw,
        },
        Some("own.txt"),
        2,
    ),
    (
        "ttlv check --input hex a b c",
        Asked::Print {
            task: Task::Check {
                kmip: false,
                empty: false,
            },
            encoding: Encoding::Hexadecimal,
        },
        None,
        3,
    ),
    (
        "ttlv check --kmip a",
        Asked::Print {
            task: Task::Check {
                kmip: true,
                empty: false,
            },
            encoding: Encoding::Detected,
        },
        None,
        1,
    ),
    (
        "ttlv hex --input base64 -- -a",
        Asked::Print {
            task: Task::Hexadecimal,
            encoding: Encoding::Base64,
        },
        None,
        1,
    ),
    (
        "ttlv check --input base64url",
        Asked::Print {
            task: Task::Check {
                kmip: false,
                empty: false,
            },
            encoding: Encoding::Base64Url,
        },
        None,
        0,
    ),
    (
        "ttlv check --input pem",
        Asked::Print {
            task: Task::Check {
                kmip: false,
                empty: false,
            },
            encoding: Encoding::Armoured,
        },
        None,
        0,
    ),
    (
        "ttlv check --input xxd",
        Asked::Print {
            task: Task::Check {
                kmip: false,
                empty: false,
            },
            encoding: Encoding::Dump,
        },
        None,
        0,
    ),
    (
        "ttlv check --input hexdump",
        Asked::Print {
            task: Task::Check {
                kmip: false,
                empty: false,
            },
            encoding: Encoding::Dump,
        },
        None,
        0,
    ),
    (
        "ttlv check --input od",
        Asked::Print {
            task: Task::Check {
                kmip: false,
                empty: false,
            },
            encoding: Encoding::Dump,
        },
        None,
        0,
    ),
    (
        "ttlv check --input tcpdump",
        Asked::Print {
            task: Task::Check {
                kmip: false,
                empty: false,
            },
            encoding: Encoding::Capture { port: 5696 },
        },
        None,
        0,
    ),
    ("ttlv from-xml", Asked::FromXml { raw: false }, None, 0),
    (
        "ttlv from-xml --raw a b",
        Asked::FromXml { raw: true },
        None,
        2,
    ),
    (
        "ttlv xml --input raw a",
        Asked::Gather {
            task: Task::Hexadecimal,
            encoding: Encoding::Raw,
            product: Product::Document,
        },
        None,
        1,
    ),
    (
        "ttlv xml --strict --port 5697",
        Asked::Gather {
            task: Task::Whole {
                strict: Strict::Hexadecimal,
            },
            encoding: Encoding::Capture { port: 5697 },
            product: Product::Document,
        },
        None,
        0,
    ),
    (
        "ttlv hex --strict",
        Asked::Print {
            task: Task::Whole {
                strict: Strict::Hexadecimal,
            },
            encoding: Encoding::Detected,
        },
        None,
        0,
    ),
    (
        "ttlv hex",
        Asked::Print {
            task: Task::Hexadecimal,
            encoding: Encoding::Detected,
        },
        None,
        0,
    ),
];

// Arguments that ask for no run, and the exit status: help, the version, and mistakes.
const OTHERS: [(&str, i32); 38] = [
    ("ttlv xml a b", 2),
    ("ttlv xml --redact", 2),
    ("ttlv from-xml --input raw", 2),
    ("ttlv xml --help", 0),
    ("ttlv show --find --port 5696", 2),
    ("ttlv show --get 420078 --find", 2),
    ("ttlv show --get 420078 --tag 420078", 2),
    ("ttlv show --get 420078 --offsets", 2),
    ("ttlv show --get 420078 --lengths", 2),
    ("ttlv show --get 420078 --bytes", 2),
    ("ttlv diag --get 420078", 2),
    ("ttlv show --port 5696 --input hex", 2),
    ("ttlv check --input raw --port 5696", 2),
    ("ttlv from-json --input raw", 2),
    ("ttlv --help", 0),
    ("ttlv show --help", 0),
    ("ttlv --version", 0),
    ("ttlv", 2),
    ("ttlv shout", 2),
    ("ttlv show --closed", 2),
    // Lengths tell something of values that are hidden, and bytes all.
    ("ttlv show --lengths --redact", 2),
    ("ttlv show --redact=all --lengths", 2),
    ("ttlv show --lengths --redact=keys", 2),
    ("ttlv json --lengths", 2),
    ("ttlv show --bytes --redact", 2),
    ("ttlv show --redact=keys --bytes", 2),
    ("ttlv json --bytes", 2),
    // A page is of one file; its texts are escaped, and it has no colours.
    ("ttlv html a b", 2),
    ("ttlv html --raw a", 2),
    ("ttlv html --color always a", 2),
    ("ttlv html --secrets own.txt a", 2),
    ("ttlv diag --redact", 2),
    ("ttlv diag --raw", 2),
    ("ttlv check --input ebcdic", 2),
    ("ttlv diag --prefix", 2),
    ("ttlv diff", 2),
    ("ttlv diff a", 2),
    ("ttlv diff a b c", 2),
];

fn words_of(alloc: Global, line: &str) -> Result<Vec<String>, AllocError> {
    let mut words = Vec::new(alloc);
    for word in line.split_whitespace() {
        words.push(String::from_str(alloc, word)?)?;
    }
    Ok(words)
}

fn asks(alloc: Global, row: Row) -> bool {
    let (line, asked, names, files) = row;
    let Ok(words) = words_of(alloc, line) else {
        return false;
    };
    match request_of(alloc, words.as_slice()) {
        Ok(request) => request.asked == asked
            && request.names == names
            && request.files.len() == files,
        Err(_) => false,
    }
}

// The file of further tags of secrets that a line names.
fn has_secrets(alloc: Global, line: &str, secrets: Option<&str>) -> bool {
    let Ok(words) = words_of(alloc, line) else {
        return false;
    };
    match request_of(alloc, words.as_slice()) {
        Ok(request) => request.secrets == secrets,
        Err(_) => false,
    }
}

#[test]
fn tables_of_secrets(rt: HostRuntime) {
    for (line, secrets) in [
        (
            "ttlv show --redact=keys --secrets own.txt a",
            Some("own.txt"),
        ),
        ("ttlv json --secrets own.txt --redact=keys", Some("own.txt")),
        ("ttlv show --redact=keys a", None),
        ("ttlv json --redact=keys a", None),
    ] {
        assert!(rt; has_secrets(rt.alloc(), line, secrets), "{line}");
    }
}

// The files that a line compares.
fn has_pair(alloc: Global, line: &str, pair: Option<Pair<'_>>) -> bool {
    let Ok(words) = words_of(alloc, line) else {
        return false;
    };
    match request_of(alloc, words.as_slice()) {
        Ok(request) => request.compares == pair,
        Err(_) => false,
    }
}

#[test]
fn pairs(rt: HostRuntime) {
    let pair = Pair {
        first: "a",
        second: "-",
    };
    assert!(rt; has_pair(rt.alloc(), "ttlv diff a -", Some(pair)));
    assert!(rt; has_pair(rt.alloc(), "ttlv hex a -", None));
}

fn ends(alloc: Global, line: &str, status: i32) -> bool {
    let Ok(words) = words_of(alloc, line) else {
        return false;
    };
    match request_of(alloc, words.as_slice()) {
        Ok(_) => false,
        Err(error) => error.exit_code() == status && error.use_stderr() == (status != 0),
    }
}

#[test]
fn requests(rt: HostRuntime) {
    for row in ASKED {
        assert!(rt; asks(rt.alloc(), row), "{row:?}");
    }
    for (line, status) in OTHERS {
        assert!(rt; ends(rt.alloc(), line, status), "{line}");
    }
}
