//! Streams, and what is read of them.

use crate::selves::Closed;
use crate::stream_samples::{MESSAGE, Wanted, is_kept, is_wanted, slow};
use kmip_ttlv::types::stream::MemorySource;
use kmip_ttlv::{Config, from_reader};
use std::alloc::Global;
use std::io::ErrorKind;

// A stream and a limit; what is read, which bytes are kept, if that is promised, which are left, and whether these begin a message.
#[derive(Clone, Copy)]
struct Row {
    stream: &'static str,
    limit: Option<u32>,
    wanted: Wanted,
    kept: Option<&'static str>,
    left: &'static str,
    between: bool,
}

const OTHER: &str = "AAAAAA0100000010CCCCCC02000000040000000500000000";

const ROWS: [Row; 17] = [
    Row {
        stream: MESSAGE,
        limit: Some(0),
        wanted: Wanted::TooLarge(24),
        kept: Some("AAAAAA0100000010"),
        left: "BBBBBB02000000040000000300000000",
        between: false,
    },
    Row {
        stream: MESSAGE,
        limit: Some(1),
        wanted: Wanted::TooLarge(24),
        kept: Some("AAAAAA0100000010"),
        left: "BBBBBB02000000040000000300000000",
        between: false,
    },
    Row {
        stream: MESSAGE,
        limit: Some(2),
        wanted: Wanted::TooLarge(24),
        kept: Some("AAAAAA0100000010"),
        left: "BBBBBB02000000040000000300000000",
        between: false,
    },
    Row {
        stream: MESSAGE,
        limit: Some(10),
        wanted: Wanted::TooLarge(24),
        kept: Some("AAAAAA0100000010"),
        left: "BBBBBB02000000040000000300000000",
        between: false,
    },
    Row {
        stream: "",
        limit: None,
        wanted: Wanted::Fault(ErrorKind::UnexpectedEof),
        kept: None,
        left: "",
        between: false,
    },
    Row {
        stream: "AA",
        limit: None,
        wanted: Wanted::Fault(ErrorKind::UnexpectedEof),
        kept: None,
        left: "",
        between: false,
    },
    Row {
        stream: "AAAA",
        limit: None,
        wanted: Wanted::Fault(ErrorKind::UnexpectedEof),
        kept: None,
        left: "",
        between: false,
    },
    Row {
        stream: "AAAAAA0100000010BBBB",
        limit: None,
        wanted: Wanted::Fault(ErrorKind::UnexpectedEof),
        kept: None,
        left: "",
        between: false,
    },
    Row {
        stream: MESSAGE,
        limit: Some(7),
        wanted: Wanted::TooLarge(24),
        kept: Some("AAAAAA0100000010"),
        left: "BBBBBB02000000040000000300000000",
        between: false,
    },
    Row {
        stream: "AAAAAA0100000010BBBBBB02000000040000000300000000FF",
        limit: Some(24),
        wanted: Wanted::Number(3),
        kept: Some(MESSAGE),
        left: "FF",
        between: true,
    },
    Row {
        stream: MESSAGE,
        limit: Some(23),
        wanted: Wanted::TooLarge(24),
        kept: Some("AAAAAA0100000010"),
        left: "BBBBBB02000000040000000300000000",
        between: false,
    },
    Row {
        stream: MESSAGE,
        limit: None,
        wanted: Wanted::Number(3),
        kept: Some(MESSAGE),
        left: "",
        between: true,
    },
    Row {
        stream: "AAAAAA0C00000010",
        limit: Some(7),
        wanted: Wanted::NoType(0x0C),
        kept: Some("AAAAAA0C00000010"),
        left: "",
        between: false,
    },
    Row {
        stream: "AAAAAA01FFFFFFFF",
        limit: Some(4_294_967_295),
        wanted: Wanted::TooLarge(4_294_967_303),
        kept: Some("AAAAAA01FFFFFFFF"),
        left: "",
        between: false,
    },
    Row {
        stream: "AAAAAA0100",
        limit: None,
        wanted: Wanted::Fault(ErrorKind::UnexpectedEof),
        kept: None,
        left: "",
        between: false,
    },
    Row {
        stream: "AAAAAA0100000010BBBBBB0200",
        limit: None,
        wanted: Wanted::Fault(ErrorKind::UnexpectedEof),
        kept: None,
        left: "",
        between: false,
    },
    Row {
        stream: "AAAAAA0100000010CCCCCC02000000040000000500000000FF",
        limit: None,
        wanted: Wanted::OtherTag,
        kept: Some(OTHER),
        left: "FF",
        between: true,
    },
];

fn settings(alloc: Global, row: &Row) -> Config {
    let config = Config::new(alloc).with_read_buf();
    match row.limit {
        Some(limit) => config.with_max_bytes(limit),
        None => config,
    }
}

// Whether a clone has the same limit, and an empty buffer, and nothing was read with it.
fn is_cloned(config: &Config, row: &Row) -> bool {
    let clone = config.clone();
    clone.max_bytes() == row.limit
        && clone.has_buf()
        && is_kept(&clone, &[])
        && clone.is_between_messages()
}

// Whether the row's answer comes from a reader of one byte a call, which leaves these bytes, and these are kept, if the row says so.
fn is_read_of(alloc: Global, row: &Row, stream: &[u8], left: &[u8], kept: &[u8]) -> bool {
    let mut config = settings(alloc, row);
    let mut reader = slow(stream);
    let found = from_reader::<Closed, _, _>(alloc, &mut reader, &mut config);
    is_wanted(&found, row.wanted)
        && reader.bytes == left
        && config.is_between_messages() == row.between
        && (row.kept.is_none() || is_kept(&config, kept))
        && is_cloned(&config, row)
}

fn is_read_slowly(alloc: Global, row: &Row) -> bool {
    match (
        &hex::decode(alloc, row.stream),
        &hex::decode(alloc, row.left),
        &hex::decode(alloc, row.kept.unwrap_or("")),
    ) {
        (Ok(stream), Ok(left), Ok(kept)) => is_read_of(alloc, row, stream, left, kept),
        _ => false,
    }
}

// Whether the row's answer comes from memory, by settings without a buffer.
fn is_read_at_once(alloc: Global, row: &Row) -> bool {
    let Ok(stream) = &hex::decode(alloc, row.stream) else {
        return false;
    };
    let mut config = Config::new(alloc);
    if let Some(limit) = row.limit {
        config = config.with_max_bytes(limit);
    }
    let mut source = MemorySource(stream.as_slice());
    let found = from_reader::<Closed, _, _>(alloc, &mut source, &mut config);
    is_wanted(&found, row.wanted)
        && !config.has_buf()
        && config.max_bytes() == row.limit
        && config.is_between_messages() == row.between
}

#[test]
fn rows_are_read(rt: HostRuntime) {
    for (at, row) in ROWS.iter().enumerate() {
        let is_right = is_read_slowly(rt.alloc(), row) && is_read_at_once(rt.alloc(), row);
        assert!(rt; is_right, "row {at}");
    }
}

// An Integer is taken to its last byte, and its padding is left.
#[test]
fn behind_an_integer_no_message_begins(rt: HostRuntime) {
    let stream = b"\xAA\xAA\xAA\x02\x00\x00\x00\x04\x00\x00\x00\x03\x00\x00\x00\x00";
    let mut config = Config::new(rt.alloc());
    assert!(rt; config.is_between_messages());
    let mut reader = slow(stream);
    let found = from_reader::<Closed, _, _>(rt.alloc(), &mut reader, &mut config);
    assert!(rt; found.is_err() && reader.bytes == [0, 0, 0, 0].as_slice());
    assert!(rt; !config.is_between_messages());
}

// Whether these settings are shown as this text.
fn is_shown(alloc: Global, limit: Option<u32>, keeps: bool, wanted: &str) -> bool {
    let mut config = Config::new(alloc);
    if let Some(limit) = limit {
        config = config.with_max_bytes(limit);
    }
    if keeps {
        config = config.with_read_buf();
    }
    matches!(&format!(in alloc; "{config:?}"), Ok(text) if text.as_str() == wanted)
}

// A limit, whether bytes are kept, and how these settings are shown.
const SHOWN: [(Option<u32>, bool, &str); 4] = [
    (None, false, "Config { max_bytes: None, has_buf: false }"),
    (None, true, "Config { max_bytes: None, has_buf: true }"),
    (
        Some(0),
        false,
        "Config { max_bytes: Some(0), has_buf: false }",
    ),
    (
        Some(24),
        true,
        "Config { max_bytes: Some(24), has_buf: true }",
    ),
];

#[test]
fn settings_are_shown_without_bytes(rt: HostRuntime) {
    for (limit, keeps, text) in SHOWN {
        let is_right = is_shown(rt.alloc(), limit, keeps, text);
        assert!(rt; is_right, "{text}");
    }
}
