//! Payloads with sequences that may be empty, a search (Locate) and what a server can do (Query), and items that failed, with
//! Enumerations of any number: read and written. The bytes are those of KMIP 1.0, sections 4.8, 4.24, 7 and 9.1.

use crate::bytes::{is_both_ways, joined};
use crate::low_level::is_text;
use kmip_ttlv::error::{Error, ErrorKind};
use kmip_ttlv::from_slice;
use kmip_ttlv::shape::Decode;
use kmip_ttlv_memory::BoundedAllocator;
use std::alloc::{AllocError, Global};
use ttlv_vectors::query::{
    FailedItem, LocateRequestPayload, ObjectType, Operation, QueryResponsePayload, ResultReason,
    ResultStatus, TextAttribute, operation, result_reason,
};

// Ten at most; the group of an object.
const TEN: &str = "42004F02000000040000000A00000000";

const GROUP: &str =
    "420008010000002842000A070000000C4F626A6563742047726F75700000000042000B070000000647726F7570310000";

// Operations, a symmetric key, a name, and a namespace.
const LOCATE: &str = "42005C05000000040000000800000000";

const GET: &str = "42005C05000000040000000A00000000";

const QUERY: &str = "42005C05000000040000001800000000";

const KEY: &str = "42005705000000040000000200000000";

const ACME: &str = "42009D070000000441434D4500000000";

const SSL: &str = "420003070000000373736C0000000000";

fn group(alloc: Global) -> Result<TextAttribute, AllocError> {
    let mut group = TextAttribute {
        name: String::new(alloc),
        value: String::new(alloc),
    };
    group.name.push_str("Object Group")?;
    group.value.push_str("Group1")?;
    Ok(group)
}

// A search for so many groups.
fn search(
    alloc: Global,
    is_bounded: bool,
    count: usize,
) -> Result<LocateRequestPayload, AllocError> {
    let maximum_items = if is_bounded { Some(10) } else { None };
    let mut search = LocateRequestPayload {
        maximum_items,
        attributes: Vec::new(alloc),
    };
    for _ in 0..count {
        search.attributes.push(group(alloc)?)?;
    }
    Ok(search)
}

// Searches: at most ten or as many as there are, with so many attributes.
const SEARCHES: [(bool, usize, &[&str]); 4] = [
    (false, 0, &["4200790100000000"]),
    (false, 1, &["4200790100000030", GROUP]),
    (true, 0, &["4200790100000010", TEN]),
    (true, 3, &["42007901000000A0", TEN, GROUP, GROUP, GROUP]),
];

// Whether such a search is both ways.
fn search_is_both_ways(alloc: Global, is_bounded: bool, count: usize, parts: &[&str]) -> bool {
    match &search(alloc, is_bounded, count) {
        Ok(search) => is_both_ways(alloc, search, parts),
        Err(_) => false,
    }
}

#[test]
fn searches(rt: HostRuntime) {
    for row in &SEARCHES {
        let (is_bounded, count, parts) = *row;
        let is_right = search_is_both_ways(rt.alloc(), is_bounded, count, parts);
        assert!(rt; is_right, "{count}");
    }
}

// What a server has: operations, types of objects, a vendor, and so many namespaces; and the bytes of such an answer.
type AnswerRow = (
    &'static [Operation],
    &'static [ObjectType],
    Option<&'static str>,
    usize,
    &'static [&'static str],
);

const ANSWERS: [AnswerRow; 4] = [
    (&[], &[], None, 0, &["42007C0100000000"]),
    (&[operation::GET], &[], None, 0, &["42007C0100000010", GET]),
    (
        &[],
        &[ObjectType::SymmetricKey],
        None,
        3,
        &["42007C0100000040", KEY, SSL, SSL, SSL],
    ),
    (
        &[operation::LOCATE, operation::GET, operation::QUERY],
        &[ObjectType::SymmetricKey],
        Some("ACME"),
        1,
        &["42007C0100000060", LOCATE, GET, QUERY, KEY, ACME, SSL],
    ),
];

// A text that may be absent.
fn text(alloc: Global, text: Option<&str>) -> Result<Option<String>, AllocError> {
    match text {
        Some(text) => Ok(Some(String::from_str(alloc, text)?)),
        None => Ok(None),
    }
}

// An answer of these.
fn answer(alloc: Global, row: &AnswerRow) -> Result<QueryResponsePayload, AllocError> {
    let vendor = text(alloc, row.2)?;
    let mut answer = QueryResponsePayload {
        operations: Vec::new(alloc),
        object_types: Vec::new(alloc),
        vendor,
        application_namespaces: Vec::new(alloc),
    };
    answer.operations.extend_from_slice(row.0)?;
    answer.object_types.extend_from_slice(row.1)?;
    for _ in 0..row.3 {
        answer
            .application_namespaces
            .push(String::from_str(alloc, "ssl")?)?;
    }
    Ok(answer)
}

// Whether it is both ways.
fn answer_is_both_ways(alloc: Global, row: &AnswerRow) -> bool {
    match &answer(alloc, row) {
        Ok(payload) => is_both_ways(alloc, payload, row.4),
        Err(_) => false,
    }
}

#[test]
fn answers(rt: HostRuntime) {
    for row in &ANSWERS {
        let is_right = answer_is_both_ways(rt.alloc(), row);
        assert!(rt; is_right);
    }
}

// Whether bytes are no such payload, for this error and place.
fn is_error<T: Decode<Global>>(alloc: Global, text: &str, wanted: &str) -> bool {
    let Ok(bytes) = &hex::decode(alloc, text) else {
        return false;
    };
    let found: Result<T, Error> = from_slice(alloc, bytes);
    match &found {
        Ok(_) => false,
        Err(error) => is_text(
            &format!(in alloc; "{:?}; {}", error.kind(), error.location()),
            wanted,
        ),
    }
}

// Searches whose first attribute is no Structure, or has another part, and one with an attribute behind another item; answers whose
// first or second operation is a text, whose operation is an Integer or has eight bytes, whose type of object isn't listed, and whose
// namespace is bytes. Before each stands whether it is a search.
const ERRORS: [(bool, &str, &str); 9] = [
    (
        true,
        "420079010000001042000802000000040000000A00000000",
        "MalformedTtlv(UnexpectedType { expected: Structure, actual: Integer }); pos: 12 bytes, parent tags: 0x420079, tag: 0x420008, type: Integer (0x02)",
    ),
    (
        true,
        "4200790100000018420008010000001042000B070000000161000000000000",
        "SerdeError(UnexpectedTag { expected: 0x42000A, actual: 0x42000B }); pos: 20 bytes, parent tags: 0x420079 > 0x420008, tag: 0x42000B, type: TextString (0x07)",
    ),
    (
        true,
        "420079010000001842000C02000000040000000A000000004200080100000000",
        "SerdeError(Other(\"duplicate field\")); pos: 28 bytes, parent tags: 0x420079, tag: 0x420079, type: Structure (0x01)",
    ),
    (
        false,
        "42007C010000001042005C070000000361626300000000",
        "SerdeError(UnexpectedType { expected: Enumeration, actual: TextString }); pos: 12 bytes, parent tags: 0x42007C, tag: 0x42005C, type: TextString (0x07)",
    ),
    (
        false,
        "42007C010000002042005C0500000004000000080000000042005C07000000036162630000000000",
        "SerdeError(Other(\"duplicate field\")); pos: 28 bytes, parent tags: 0x42007C, tag: 0x42007C, type: Structure (0x01)",
    ),
    (
        false,
        "42007C010000001042005C02000000040000000800000000",
        "SerdeError(UnexpectedType { expected: Enumeration, actual: Integer }); pos: 12 bytes, parent tags: 0x42007C, tag: 0x42005C, type: Integer (0x02)",
    ),
    (
        false,
        "42007C010000001042005C05000000080000000800000000",
        "MalformedTtlv(InvalidLength { expected: 4, actual: 8, typ: Enumeration }); pos: 16 bytes, parent tags: 0x42007C, tag: 0x42005C, type: Enumeration (0x05)",
    ),
    (
        false,
        "42007C010000001042005705000000040000000500000000",
        "SerdeError(Other(\"unknown variant\")); pos: 24 bytes, parent tags: 0x42007C, tag: 0x42007C, type: Structure (0x01)",
    ),
    (
        false,
        "42007C010000001042000308000000016100000000000000",
        "SerdeError(UnexpectedType { expected: TextString, actual: ByteString }); pos: 12 bytes, parent tags: 0x42007C, tag: 0x420003, type: ByteString (0x08)",
    ),
];

// Whether a message is no search, or no answer, for this error and place.
fn is_no_payload(alloc: Global, of_search: bool, message: &str, wanted: &str) -> bool {
    if of_search {
        is_error::<LocateRequestPayload>(alloc, message, wanted)
    } else {
        is_error::<QueryResponsePayload>(alloc, message, wanted)
    }
}

#[test]
fn elements_that_are_errors(rt: HostRuntime) {
    for row in &ERRORS {
        let (of_search, message, wanted) = *row;
        let is_right = is_no_payload(rt.alloc(), of_search, message, wanted);
        assert!(rt; is_right, "{message}");
    }
}

// The status of such an item, an operation and a reason without a name here, a reason with one, and a message.
const FAILED: &str = "42007F05000000040000000100000000";

const CHECK: &str = "42005C05000000040000000900000000";

const VENDORS: &str = "42007E05000000048000000100000000";

const GENERAL: &str = "42007E05000000040000010000000000";

const NO: &str = "42007D07000000024E6F000000000000";

// An item that failed: its operation, reason and message, and its bytes.
type FailedRow = (
    Operation,
    Option<ResultReason>,
    Option<&'static str>,
    &'static [&'static str],
);

const FAILURES: [FailedRow; 3] = [
    (
        Operation { number: 9 },
        Some(ResultReason {
            number: 0x8000_0001,
        }),
        Some("No"),
        &["42000F0100000040", CHECK, FAILED, VENDORS, NO],
    ),
    (
        operation::QUERY,
        Some(result_reason::GENERAL_FAILURE),
        None,
        &["42000F0100000030", QUERY, FAILED, GENERAL],
    ),
    (
        operation::GET,
        None,
        None,
        &["42000F0100000020", GET, FAILED],
    ),
];

// Whether such an item is both ways.
fn failure_is_both_ways(alloc: Global, row: &FailedRow) -> bool {
    let Ok(message) = text(alloc, row.2) else {
        return false;
    };
    let item = FailedItem {
        operation: row.0,
        status: ResultStatus::Failed,
        reason: row.1,
        message,
    };
    is_both_ways(alloc, &item, row.3)
}

#[test]
fn any_number_is_read_and_written(rt: HostRuntime) {
    for row in &FAILURES {
        let is_right = failure_is_both_ways(rt.alloc(), row);
        assert!(rt; is_right);
    }
    assert!(rt; operation::LOCATE.number == 8);
    assert!(rt; operation::QUERY.number == 0x18);
    assert!(rt; result_reason::GENERAL_FAILURE.number == 0x100);
}

// Whether a search with three attributes is read if the growth after so many fails: whether memory runs out, or none if it is read
// though one failed, or for any other answer.
fn runs_out(alloc: Global, bytes: &[u8], before: u64) -> Option<bool> {
    let heap = BoundedAllocator::failing_after(alloc, before);
    let read: Result<LocateRequestPayload<_>, Error<_>> = from_slice(&heap, bytes);
    match (&read, heap.has_failed()) {
        (Ok(payload), false) if payload.attributes.len() == 3 => Some(false),
        (Err(error), true) if matches!(error.kind(), ErrorKind::OutOfMemory) => Some(true),
        _ => None,
    }
}

// Whether memory runs out at each growth, and then the search is read.
fn fails_at_each_growth(alloc: Global, parts: &[&str]) -> bool {
    let Ok(bytes) = &joined(alloc, parts) else {
        return false;
    };
    for before in 0..100u64 {
        match runs_out(alloc, bytes, before) {
            Some(true) => {}
            Some(false) => return true,
            None => return false,
        }
    }
    false
}

#[test]
fn each_growth_fails(rt: HostRuntime) {
    let (_, _, parts) = SEARCHES[3];
    let is_right = fails_at_each_growth(rt.alloc(), parts);
    assert!(rt; is_right);
}
