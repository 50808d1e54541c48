//! What bytes are read as by types that read themselves with items, sequences, an Enumeration and a choice, and with which errors: in
//! rows, and for bytes that are cut or changed as the shape of the same form reads them.

use crate::selves::{Detail, Lists, Maybes, Order, Point, Sorts, Task};
use crate::selves_rows::{
    NUMBER, POINT, PointShape, TEXT, agree_nearby, check_rows, is_read_as, joined,
};
use kmip_ttlv::error::{Error, ErrorKind};
use kmip_ttlv::from_slice;
use kmip_ttlv::reader::{BigNumber, Interval};
use kmip_ttlv_memory::BoundedAllocator;
use sample_shapes::names::{IfInteger, IfOne, IfText, One, Seven, TagA, TagB, TagC, TagD, TagE};
use sample_shapes::parts::{
    self, AnyNumber, Choice, Content, Field, Maybe, NoContent, Number, Octets, OneField, Sequence,
    Span, Structure, Text, Truth, TwoVariants, Variant,
};
use std::alloc::{AllocError, Allocator, Global};
use std::test::Fail;

// Shapes of the same forms, without the wrappers around leaves.
type ListsShape = Structure<
    TagA,
    Field<
        TagB,
        Number,
        Field<TagC, Maybe<Number>, Field<TagD, Sequence<Number>, OneField<TagE, Sequence<Text>>>>,
    >,
>;

type MaybesShape = Structure<
    TagA,
    Field<
        TagB,
        Maybe<Sequence<Number>>,
        Field<TagC, Maybe<Sequence<Text>>, OneField<TagD, Maybe<Sequence<PointShape>>>>,
    >,
>;

type SortsShape = Structure<
    TagA,
    Field<
        TagB,
        Truth,
        Field<
            TagC,
            Span,
            Field<
                TagD,
                Maybe<AnyNumber>,
                Field<TagE, Octets, OneField<TagA, Maybe<parts::BigNumber>>>,
            >,
        >,
    >,
>;

type OrderShape = Choice<TagB, TwoVariants<One, NoContent, Seven, NoContent>>;

type DetailShape = Choice<
    TagD,
    Variant<
        IfOne,
        Content<PointShape>,
        TwoVariants<IfText, Content<Text>, IfInteger, Content<Number>>,
    >,
>;

type TaskShape = Structure<
    TagA,
    Field<TagB, OrderShape, Field<TagC, Maybe<Text>, OneField<TagD, DetailShape>>>,
>;

const OTHER: &str = "CCCCCC02000000040000000300000000";

const ONE: &str = "BBBBBB05000000040000000100000000";

const SEVEN: &str = "BBBBBB05000000040000000700000000";

// Messages of each kind, with and without what may be absent.
const LISTED: [&str; 7] = [
    "AAAAAA0100000060",
    NUMBER,
    OTHER,
    "DDDDDD02000000040000000700000000",
    "DDDDDD02000000040000000700000000",
    "EEEEEE07000000016100000000000000",
    "EEEEEE07000000016100000000000000",
];

const SHORTEST: [&str; 4] = [
    "AAAAAA0100000030",
    NUMBER,
    "DDDDDD02000000040000000700000000",
    "EEEEEE07000000016100000000000000",
];

const ALL_MAYBES: [&str; 6] = ["AAAAAA0100000060", NUMBER, TEXT, TEXT, POINT, POINT];

const TASK_OF_POINT: [&str; 3] = ["AAAAAA0100000028", ONE, POINT];

const TASK_OF_TEXT: [&str; 3] = [
    "AAAAAA0100000020",
    SEVEN,
    "DDDDDD07000000016100000000000000",
];

const TASK_OF_MARK: [&str; 4] = [
    "AAAAAA0100000030",
    SEVEN,
    TEXT,
    "DDDDDD02000000040000000300000000",
];

// Two texts.
fn texts(alloc: Global) -> Result<Vec<String>, AllocError> {
    let mut texts = Vec::new(alloc);
    for _ in 0..2u8 {
        texts.push(String::from_str(alloc, "a")?)?;
    }
    Ok(texts)
}

fn lists(alloc: Global) -> Result<Lists, AllocError> {
    Ok(Lists {
        mark: 7,
        other: Some(3),
        marks: Vec::from_slice(alloc, &[7, 7])?,
        texts: texts(alloc)?,
    })
}

#[test]
fn lists_are_read(rt: HostRuntime) {
    let is_right = is_read_as(rt.alloc(), &lists(rt.alloc()), &LISTED);
    assert!(rt; is_right);
}

// Whether these are so many marks, texts and points.
fn is_of(found: &Maybes, wanted: (usize, usize, usize)) -> bool {
    found.marks.iter().all(|mark| *mark == 7)
        && found.texts.iter().all(|text| text.as_str() == "a")
        && found.points.iter().all(|point| point.number == 3)
        && (found.marks.len(), found.texts.len(), found.points.len()) == wanted
}

// Whether a message of sequences that may be empty is read as so many.
fn are_maybes(alloc: Global, text: &str, wanted: (usize, usize, usize)) -> bool {
    match &hex::decode(alloc, text) {
        Ok(bytes) =>
            matches!(&from_slice::<Maybes, _>(alloc, bytes), Ok(found) if is_of(found, wanted)),
        Err(_) => false,
    }
}

// Sequences, and how many marks, texts and points they are.
const COUNTED: [(&str, (usize, usize, usize)); 4] = [
    (
        "AAAAAA0100000060BBBBBB02000000040000000700000000CCCCCC07000000016100000000000000CCCCCC07000000016100000000000000DDDDDD0100000010BBBBBB02000000040000000300000000DDDDDD0100000010BBBBBB02000000040000000300000000",
        (1, 2, 2),
    ),
    ("AAAAAA0100000000", (0, 0, 0)),
    (
        "AAAAAA0100000010CCCCCC07000000016100000000000000",
        (0, 1, 0),
    ),
    (
        "AAAAAA0100000058BBBBBB02000000040000000700000000DDDDDD0100000010BBBBBB02000000040000000300000000DDDDDD0100000010BBBBBB02000000040000000300000000DDDDDD0100000010BBBBBB02000000040000000300000000",
        (1, 0, 3),
    ),
];

#[test]
fn optional_lists_are_read(rt: HostRuntime) {
    for (text, wanted) in COUNTED {
        let is_right = are_maybes(rt.alloc(), text, wanted);
        assert!(rt; is_right, "{text}");
    }
}

// Truth, an hour, a vendor's number, two bytes, and the number 257.
const SORTS: &str =
    "AAAAAA0100000050BBBBBB06000000080000000000000001CCCCCC0A0000000400000E1000000000\
DDDDDD05000000048000000100000000EEEEEE0800000002FFFE000000000000AAAAAA04000000080000000000000101";

fn sorts(alloc: Global) -> Result<Sorts, AllocError> {
    Ok(Sorts {
        truth: true,
        span: Interval(3600),
        reason: Some(0x8000_0001),
        bytes: Vec::from_slice(alloc, &[0xFF, 0xFE])?,
        big: Some(BigNumber {
            bytes: Vec::from_slice(alloc, &[0, 0, 0, 0, 0, 0, 1, 1])?,
        }),
    })
}

fn sorts_are_read(alloc: Global) -> bool {
    match (&sorts(alloc), &hex::decode(alloc, SORTS)) {
        (Ok(wanted), Ok(bytes)) => {
            matches!(&from_slice::<Sorts, _>(alloc, bytes), Ok(found) if found == wanted)
        }
        _ => false,
    }
}

#[test]
fn leaves_are_read(rt: HostRuntime) {
    let is_right = sorts_are_read(rt.alloc());
    assert!(rt; is_right);
}

#[test]
fn leaves_are_read_as_the_shape_does(rt: HostRuntime) {
    let few =
        "AAAAAA0100000028BBBBBB06000000080000000000000000CCCCCC0A0000000400000E1000000000EEEEEE0800000000";
    for text in [SORTS, few] {
        let is_right = agree_nearby::<Sorts, SortsShape>(rt.alloc(), &[text]);
        assert!(rt; is_right, "{text}");
    }
}

// A task of this order, text and detail.
fn task(
    alloc: Global,
    order: Order,
    text: Option<&str>,
    detail: Detail,
) -> Result<Task, AllocError> {
    Ok(Task {
        order,
        text: match text {
            Some(text) => Some(String::from_str(alloc, text)?),
            None => None,
        },
        detail,
    })
}

fn task_of_text(alloc: Global) -> Result<Task, AllocError> {
    task(
        alloc,
        Order::Seven,
        None,
        Detail::Text(String::from_str(alloc, "a")?),
    )
}

fn tasks_are_read(alloc: Global) -> bool {
    let point = Detail::Point(Point { number: 3 });
    is_read_as(alloc, &task(alloc, Order::One, None, point), &TASK_OF_POINT)
}

fn tasks_by_type_are_read(alloc: Global) -> bool {
    let mark = Detail::Mark(3);
    is_read_as(
        alloc,
        &task(alloc, Order::Seven, Some("a"), mark),
        &TASK_OF_MARK,
    ) && is_read_as(alloc, &task_of_text(alloc), &TASK_OF_TEXT)
}

#[test]
fn choices_are_read(rt: HostRuntime) {
    let is_right = tasks_are_read(rt.alloc()) && tasks_by_type_are_read(rt.alloc());
    assert!(rt; is_right);
}

// Items and sequences of them.
const LISTS: [(&str, &str); 7] = [
    (
        "AAAAAA0100000000",
        "SerdeError(Other(\"missing field\")); pos: 8 bytes, parent tags: 0xAAAAAA, tag: 0xAAAAAA, type: Structure (0x01)",
    ),
    (
        "AAAAAA0100000010CCCCCC02",
        "SerdeError(UnexpectedTag { expected: 0xBBBBBB, actual: 0xCCCCCC }); pos: 12 bytes, parent tags: 0xAAAAAA, tag: 0xCCCCCC, type: Integer (0x02)",
    ),
    (
        "AAAAAA0100000010BBBBBB03",
        "SerdeError(UnexpectedType { expected: Integer, actual: LongInteger }); pos: 12 bytes, parent tags: 0xAAAAAA, tag: 0xBBBBBB, type: LongInteger (0x03)",
    ),
    (
        "AAAAAA0100000010BBBBBB02000000040000000700000000",
        "SerdeError(Other(\"missing field\")); pos: 24 bytes, parent tags: 0xAAAAAA, tag: 0xAAAAAA, type: Structure (0x01)",
    ),
    (
        "AAAAAA0100000020BBBBBB02000000040000000700000000CCCCCC03",
        "SerdeError(UnexpectedType { expected: Integer, actual: LongInteger }); pos: 28 bytes, parent tags: 0xAAAAAA, tag: 0xCCCCCC, type: LongInteger (0x03)",
    ),
    (
        "AAAAAA0100000030BBBBBB02000000040000000700000000DDDDDD02000000040000000700000000DDDDDD03",
        "SerdeError(UnexpectedTag { expected: 0xEEEEEE, actual: 0xDDDDDD }); pos: 44 bytes, parent tags: 0xAAAAAA, tag: 0xDDDDDD, type: LongInteger (0x03)",
    ),
    (
        "AAAAAA0100000030BBBBBB02000000040000000700000000DDDDDD02000000040000000700000000DDDDDD0200000008",
        "MalformedTtlv(InvalidLength { expected: 4, actual: 8, typ: Integer }); pos: 48 bytes, parent tags: 0xAAAAAA, tag: 0xDDDDDD, type: Integer (0x02)",
    ),
];

// Sequences that may be empty.
const MAYBES: [(&str, &str); 4] = [
    ("AAAAAA0100000000", "read"),
    (
        "AAAAAA0100000010BBBBBB03",
        "SerdeError(UnexpectedType { expected: Integer, actual: LongInteger }); pos: 12 bytes, parent tags: 0xAAAAAA, tag: 0xBBBBBB, type: LongInteger (0x03)",
    ),
    (
        "AAAAAA0100000018DDDDDD0100000010BBBBBB03",
        "SerdeError(UnexpectedType { expected: Integer, actual: LongInteger }); pos: 20 bytes, parent tags: 0xAAAAAA > 0xDDDDDD, tag: 0xBBBBBB, type: LongInteger (0x03)",
    ),
    (
        "AAAAAA0100000020CCCCCC07000000016100000000000000BBBBBB02",
        "SerdeError(Other(\"duplicate field\")); pos: 28 bytes, parent tags: 0xAAAAAA, tag: 0xAAAAAA, type: Structure (0x01)",
    ),
];

// An Enumeration of listed numbers.
const NUMBERS: [(&str, &str); 5] = [
    (
        "AAAAAA0100000010BBBBBB07",
        "SerdeError(UnexpectedType { expected: Enumeration, actual: TextString }); pos: 12 bytes, parent tags: 0xAAAAAA, tag: 0xBBBBBB, type: TextString (0x07)",
    ),
    (
        "AAAAAA0100000010BBBBBB0500000008",
        "MalformedTtlv(InvalidLength { expected: 4, actual: 8, typ: Enumeration }); pos: 12 bytes, parent tags: 0xAAAAAA, tag: 0xBBBBBB, type: Enumeration (0x05)",
    ),
    (
        "AAAAAA0100000010BBBBBB05000000040000000200000000",
        "SerdeError(Other(\"unknown variant\")); pos: 24 bytes, parent tags: 0xAAAAAA, tag: 0xAAAAAA, type: Structure (0x01)",
    ),
    (
        "AAAAAA0100000004BBBBBB05000000040000000200000000",
        "SerdeError(Other(\"unknown variant\")); pos: 24 bytes, parent tags: 0xAAAAAA, tag: 0xAAAAAA, type: Structure (0x01)",
    ),
    (
        "AAAAAA0100000004BBBBBB05000000040000000100000000",
        "MalformedTtlv(Overflow { field_end: ByteOffset(12) }); pos: 24 bytes, parent tags: 0xAAAAAA, tag: 0xBBBBBB, type: Enumeration (0x05)",
    ),
];

// A choice: what its variants want, and no rule that holds.
const CHOICES: [(&str, &str); 3] = [
    (
        "AAAAAA0100000020BBBBBB05000000040000000100000000DDDDDD02",
        "MalformedTtlv(UnexpectedType { expected: Structure, actual: Integer }); pos: 28 bytes, parent tags: 0xAAAAAA, tag: 0xDDDDDD, type: Integer (0x02)",
    ),
    (
        "AAAAAA0100000020BBBBBB05000000040000000700000000DDDDDD03",
        "SerdeError(UnexpectedType { expected: Enumeration, actual: LongInteger }); pos: 28 bytes, parent tags: 0xAAAAAA, tag: 0xDDDDDD, type: LongInteger (0x03)",
    ),
    (
        "AAAAAA0100000020BBBBBB05000000040000000700000000DDDDDD05000000040000000700000000",
        "SerdeError(Other(\"unknown variant\")); pos: 40 bytes, parent tags: 0xAAAAAA, tag: 0xAAAAAA, type: Structure (0x01)",
    ),
];

#[test]
fn errors_have_their_places(rt: HostRuntime) -> Result<(), Fail> {
    check_rows::<Lists>(rt.alloc(), &LISTS)?;
    check_rows::<Maybes>(rt.alloc(), &MAYBES)?;
    check_rows::<Task>(rt.alloc(), &NUMBERS)?;
    check_rows::<Task>(rt.alloc(), &CHOICES)
}

#[test]
fn lists_are_read_as_the_shape_does(rt: HostRuntime) {
    let is_right = agree_nearby::<Lists, ListsShape>(rt.alloc(), &LISTED)
        && agree_nearby::<Lists, ListsShape>(rt.alloc(), &SHORTEST)
        && agree_nearby::<Maybes, MaybesShape>(rt.alloc(), &ALL_MAYBES);
    assert!(rt; is_right);
}

#[test]
fn choices_are_read_as_the_shape_does(rt: HostRuntime) {
    let tasks: [&[&str]; 3] = [&TASK_OF_POINT, &TASK_OF_TEXT, &TASK_OF_MARK];
    for texts in tasks {
        let is_right = agree_nearby::<Task, TaskShape>(rt.alloc(), texts);
        assert!(rt; is_right);
    }
}

// Whether a message was read, and whether memory ran out.
fn ending<T: Drop, A: Allocator>(found: Result<T, Error<A>>) -> (bool, bool) {
    match found {
        Ok(_) => (true, false),
        Err(error) => (false, matches!(error.kind(), ErrorKind::OutOfMemory)),
    }
}

// What comes of these messages if the growth after so many fails: whether both are read, whether memory ran out for one, and
// whether a growth failed.
fn both_after(alloc: Global, lists: &[u8], task: &[u8], before: u64) -> (bool, bool, bool) {
    let heap = BoundedAllocator::failing_after(alloc, before);
    let (is_read, is_short) = ending::<Lists<_>, _>(from_slice(&heap, lists));
    let (is_task, lacks) = ending::<Task<_>, _>(from_slice(&heap, task));
    (is_read && is_task, is_short || lacks, heap.has_failed())
}

// Fails unless reading these messages runs out of memory at each growth that fails.
fn grows(alloc: Global, lists: &[u8], task: &[u8]) -> Result<(), Fail> {
    for before in 0..100u64 {
        let (are_read, is_short, has_failed) = both_after(alloc, lists, task, before);
        if !has_failed && are_read {
            return Ok(());
        }
        if !has_failed || !is_short {
            return Err(Fail::new(format_args!("at {before}")));
        }
    }
    Err(Fail::new("it grows without end"))
}

#[test]
fn it_may_run_out_of_memory(rt: HostRuntime) -> Result<(), Fail> {
    let lists = joined(rt.alloc(), &LISTED)?;
    let task = joined(rt.alloc(), &TASK_OF_MARK)?;
    grows(rt.alloc(), lists.as_slice(), task.as_slice())
}
