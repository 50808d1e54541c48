//! Headers with the code of no type, of which neither the shape nor the limit is judged; and long messages.

use crate::answer::{Of, compare, text_of};
use kmip_ttlv::types::stream::MemorySource;
use kmip_ttlv::{Config, from_reader};
use sample_shapes::names::{NoTag, Seven, TagA, TagB};
use sample_shapes::parts::{
    Choice, NoContent, Number, OneField, OneVariant, Part, Sequence, Structure, Wrapping,
};
use sample_shapes::run::Run;
use std::alloc::{AllocError, Global};
use std::test::Fail;

const NO_TYPE: &str = "AAAAAA0C00000000";

// What is read of the header by a limit.
fn read_within<P: Part>(alloc: Global, limit: Option<u32>) -> Result<String, Fail> {
    let bytes = hex::decode(alloc, NO_TYPE)?;
    let mut config = Config::new(alloc);
    if let Some(limit) = limit {
        config = config.with_max_bytes(limit);
    }
    let mut source = MemorySource(bytes.as_slice());
    text_of::<P>(alloc, from_reader(alloc, &mut source, &mut config))
}

// Fails unless the header is an error for its code, whatever the limit.
fn is_of_no_type<P: Part>(alloc: Global) -> Result<(), Fail> {
    let wanted = "MalformedTtlv(InvalidType(12)); pos: 3 bytes, tag: 0xAAAAAA";
    for limit in [None, Some(0), Some(7), Some(8)] {
        let found = read_within::<P>(alloc, limit)?;
        compare(found.as_str(), NO_TYPE, wanted)?;
    }
    Ok(())
}

#[test]
fn roots_of_every_kind(rt: HostRuntime) -> Result<(), Fail> {
    let heap = rt.alloc();
    is_of_no_type::<Number>(heap)?;
    is_of_no_type::<Sequence<Number>>(heap)?;
    is_of_no_type::<Choice<TagA, OneVariant<Seven, NoContent>>>(heap)?;
    is_of_no_type::<Structure<NoTag, OneField<TagB, Number>>>(heap)?;
    is_of_no_type::<Wrapping<TagA, Number>>(heap)?;
    is_of_no_type::<Structure<TagB, OneField<TagB, Number>>>(heap)?;
    is_of_no_type::<Structure<TagA, OneField<TagB, Number>>>(heap)
}

// A structure AAAAAA of 12,500 Integers BBBBBB, each of 7: 200,008 bytes.
fn long_message(alloc: Global) -> Result<Vec<u8>, AllocError> {
    let mut message = Vec::from_array(alloc, [0xAA, 0xAA, 0xAA, 1, 0, 3, 0x0D, 0x40])?;
    for _ in 0..12_500u32 {
        message.extend_from_slice(&[0xBB, 0xBB, 0xBB, 2, 0, 0, 0, 4, 0, 0, 0, 7, 0, 0, 0, 0])?;
    }
    Ok(message)
}

// Fails unless so many elements were read, the last one 7.
fn check_elements<P: Part>(read: Result<Run<P>, kmip_ttlv::error::Error>) -> Result<(), Fail> {
    let Ok(run) = read else {
        return Err(Fail::new("it is refused"));
    };
    if run.count == 12_500 && run.last.as_str() == "I32(7)" {
        return Ok(());
    }
    let (count, last) = (run.count, run.last);
    Err(Fail::new(format_args!("{count} elements, the last one {last}")))
}

#[test]
fn a_message_longer_than_a_piece(rt: HostRuntime) -> Result<(), Fail> {
    let message = long_message(rt.alloc())?;
    let mut config = Config::new(rt.alloc()).with_read_buf();
    let mut reader = message.as_slice();
    check_elements::<Of<Sequence<Number>>>(from_reader(rt.alloc(), &mut reader, &mut config))?;
    let mut source = MemorySource(message.as_slice());
    check_elements::<Of<Sequence<Number>>>(from_reader(rt.alloc(), &mut source, &mut config))?;
    let kept = config.read_buf();
    assert!(rt; kept.is_some_and(|bytes| bytes.as_slice() == message.as_slice()));
    Ok(())
}
