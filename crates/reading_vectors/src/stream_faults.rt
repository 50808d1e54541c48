//! Each read of a stream fails in turn.

use crate::selves::Closed;
use crate::stream_samples::{MESSAGE, SlowReader, Wanted, is_wanted};
use kmip_ttlv::{Config, from_reader};
use std::alloc::Global;
use std::io::ErrorKind;
use std::test::Fail;

// Whether a reader of one byte a call that fails at one call, with this kind, makes an IoError of that
// kind and has given the bytes before that call; and one that does not fail before the end, or is only
// interrupted, gives the value.
fn is_read_or_failed(alloc: Global, kind: ErrorKind, count: usize) -> Result<bool, Fail> {
    let stream = hex::decode(alloc, MESSAGE)?;
    if count > stream.len() {
        return Ok(false);
    }
    let mut reader = SlowReader {
        bytes: stream.as_slice(),
        calls_before_fault: count as u64,
        kind,
    };
    let mut config = Config::new(alloc).with_read_buf();
    let found = from_reader::<Closed, _, _>(alloc, &mut reader, &mut config);
    if count < stream.len() && kind != ErrorKind::Interrupted {
        return Ok(
            is_wanted(&found, Wanted::Fault(kind)) && reader.bytes == &stream.as_slice()[count..],
        );
    }
    Ok(is_wanted(&found, Wanted::Number(3)) && reader.bytes.is_empty())
}

#[test]
fn each_read_fails(rt: HostRuntime) -> Result<(), Fail> {
    for kind in [
        ErrorKind::BrokenPipe,
        ErrorKind::PermissionDenied,
        ErrorKind::ConnectionReset,
        ErrorKind::OutOfMemory,
        ErrorKind::WouldBlock,
        ErrorKind::Interrupted,
    ] {
        for count in 0..=24usize {
            assert!(rt;
                is_read_or_failed(rt.alloc(), kind, count)?,
                "{kind:?} at {count}"
            );
        }
    }
    Ok(())
}
