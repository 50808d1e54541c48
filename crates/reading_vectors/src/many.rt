//! Messages of many stored texts, of a long one that many rules ask for, or of many ignored items. What
//! is read of them is what the last stored text says. A text of four mebibytes that is parsed for each of 16,384
//! items takes longer than a test may. What such messages cost, `bench/run --sizes` prints.

use crate::answer::Of;
use crate::reading::Reading;
use kmip_ttlv::from_slice;
use sample_shapes::inputs::asked;
use sample_shapes::names::{
    IfAtLeastOne, IfAtLeastTwo, IfInteger, IfOtherAtLeastWord, IfStructure, IfText, IfTextB, TagA,
    TagB, TagC, TagD,
};
use sample_shapes::parts::{
    Choice, Content, Field, FieldList, Maybe, NoFields, NoParts, Number, OneVariant, Part, Parts,
    Repeated, Sequence, Structure, Text, Tuple, TwoFields, TwoVariants,
};
use sample_shapes::run::Run;
use std::alloc::{AllocError, Global};
use std::test::Fail;

// The header of a structure AAAAAA of so many bytes.
fn begun(alloc: Global, length: u32) -> Result<Vec<u8>, AllocError> {
    let mut message = Vec::from_array(alloc, [0xAA, 0xAA, 0xAA, 1])?;
    message.extend_from_slice(&length.to_be_bytes())?;
    Ok(message)
}

// Fails unless so many elements are read, and the last one is as is wanted.
fn check_run<P: Part>(alloc: Global, message: &[u8], count: usize, last: &str) -> Result<(), Fail> {
    let read = from_slice::<Run<P>, _>(alloc, message);
    if matches!(&read, Ok(run) if run.count == count && run.last.as_str() == last) {
        return Ok(());
    }
    Err(Fail::new("an error, or other elements"))
}

// A rule asks, for each of many texts, for a tag under which none was stored.
#[test]
fn many_texts_under_one_tag(rt: HostRuntime) -> Result<(), Fail> {
    type Texts = TwoVariants<IfOtherAtLeastWord, Content<Text>, IfText, Content<Text>>;
    let count = 16_384u32;
    let mut message = begun(rt.alloc(), count * 8)?;
    for _ in 0..count {
        message.extend_from_slice(&[0xBB, 0xBB, 0xBB, 7, 0, 0, 0, 0])?;
    }
    check_run::<Of<Sequence<Choice<TagB, Texts>>>>(
        rt.alloc(),
        message.as_slice(),
        16_384,
        "NewtypeVariant { name: \"0xBBBBBB\", variant: \"if type==TextString\", inner: Text(\"\") }",
    )
}

// Two rules ask, for each of many integers, for the number that one long text is.
#[test]
fn a_long_text_that_many_rules_ask_for(rt: HostRuntime) -> Result<(), Fail> {
    type Numbers = TwoVariants<IfAtLeastTwo, Content<Number>, IfAtLeastOne, Content<Number>>;
    type Asking = TwoFields<TagB, Text, TagC, Sequence<Choice<TagC, Numbers>>>;
    let message = asked(rt.alloc(), 4_194_304, 16_384)?;
    check_run::<Structure<TagA, Asking>>(
        rt.alloc(),
        message.as_slice(),
        16_384,
        "NewtypeVariant { name: \"0xCCCCCC\", variant: \"if 0xBBBBBB>=1\", inner: I32(7) }",
    )
}

// Each of many tuples has a text under a tag of its own; the rule asks for the first tuple's.
#[test]
fn many_texts_under_many_tags(rt: HostRuntime) -> Result<(), Fail> {
    type Numbers = TwoVariants<IfTextB, Content<Number>, IfInteger, Content<Number>>;
    type Pair = Tuple<Parts<Text, Parts<Choice<TagC, Numbers>, NoParts>>>;
    let count = 4_096u32;
    let mut message = begun(rt.alloc(), count * 40)?;
    for i in 0..count {
        let tag = if i == 0 { 0xBB_BBBB } else { i };
        let [_, a, b, c] = tag.to_be_bytes();
        message.extend_from_slice(&[0xBB, 0xBB, 0xBB, 1, 0, 0, 0, 32])?;
        message.extend_from_slice(&[a, b, c, 7, 0, 0, 0, 1, 0x62, 0, 0, 0, 0, 0, 0, 0])?;
        message.extend_from_slice(&[0xCC, 0xCC, 0xCC, 2, 0, 0, 0, 4, 0, 0, 0, 7, 0, 0, 0, 0])?;
    }
    check_run::<Of<Sequence<Choice<TagB, OneVariant<IfStructure, Pair>>>>>(
        rt.alloc(),
        message.as_slice(),
        4_096,
        "TupleVariant { name: \"0xBBBBBB\", variant: \"if type==Structure\", fields: [Text(\"b\"), NewtypeVariant { name: \"0xCCCCCC\", variant: \"if 0xBBBBBB==b\", inner: I32(7) }] }",
    )
}

type Many<L> = Repeated<TagB, Maybe<Number>, 100, L>;

// Where a structure is an error that has many items behind its fields, of which the last is as given.
fn place_of<L: FieldList>(alloc: Global, count: u32, last: [u8; 16]) -> Result<String, Fail> {
    let mut message = begun(alloc, count.saturating_mul(16).saturating_add(16))?;
    for _ in 0..count {
        message.extend_from_slice(&[0xCC, 0xCC, 0xCC, 2, 0, 0, 0, 4, 0, 0, 0, 7, 0, 0, 0, 0])?;
    }
    message.extend_from_slice(&last)?;
    match from_slice::<Reading<Structure<TagA, L>>, _>(alloc, message.as_slice()) {
        Ok(_) => Ok(String::from_str(alloc, "nowhere")?),
        Err(error) => {
            let place = error.location();
            Ok(format!(in alloc; "{place}")?)
        }
    }
}

// The last of many items has the tag of a field that stands before many others, or behind them.
#[test]
fn many_items_behind_many_fields(rt: HostRuntime) -> Result<(), Fail> {
    type Before = Field<TagD, Maybe<Number>, Many<NoFields>>;
    type Behind = Many<Field<TagD, Maybe<Number>, NoFields>>;
    let ignored = [0xEE, 0xEE, 0xEE, 2, 0, 0, 0, 4, 0, 0, 0, 7, 0, 0, 0, 0];
    let read = [0xDD, 0xDD, 0xDD, 2, 0, 0, 0, 4, 0, 0, 0, 7, 0, 0, 0, 0];
    let place = "pos: 131084 bytes, parent tags: 0xAAAAAA, tag: 0xAAAAAA, type: Structure (0x01)";
    let found = place_of::<Before>(rt.alloc(), 8_192, ignored)?;
    assert_eq!(rt; found.as_str(), "nowhere");
    let found = place_of::<Before>(rt.alloc(), 8_192, read)?;
    assert_eq!(rt; found.as_str(), place);
    let found = place_of::<Behind>(rt.alloc(), 8_192, read)?;
    assert_eq!(rt; found.as_str(), place);
    Ok(())
}
