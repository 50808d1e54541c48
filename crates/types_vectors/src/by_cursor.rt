//! A function over any primitive whose proof needs only the laws and the contracts of the low-level types.

ghost use Rattle.std.specs.Prelude.{◌≡◌, IfOk};
ghost use Rattle.kmip_ttlv_types.specs.Primitives.{content_of};

use kmip_ttlv_types::laws::what_was_written_is_read_back;
use kmip_ttlv_types::stream::{MemoryCursor, MemorySink};
use kmip_ttlv_types::{Result, SerializableTtlvType, TtlvType};
use std::alloc::Allocator;
use std::io::Cursor;

/// Writes a value into memory, and reads it back by a cursor. The value that is read has the bytes that were
/// written.
pub fn write_and_read<T: SerializableTtlvType, A: Allocator>(
    room: A,
    alloc: T::Alloc,
    value: &T,
) -> Result<T>
    ensures { IfOk result (λ w. T.SerializableTtlvType.value_bytes w ≡ content_of T.HasTtlvType.TTLV_TYPE (T.SerializableTtlvType.value_bytes value.now)) }
{
    what_was_written_is_read_back(value);
    let mut written = MemorySink(Vec::new(room));
    value.write(&mut written)?;
    let mut source = MemoryCursor(Cursor::new(written.0.as_slice()));
    TtlvType::read(&mut source)?;
    T::read(alloc, &mut source)
}

#[cfg(test)]
mod tests {
    use super::*;
    use kmip_ttlv_types::{TtlvBigInteger, TtlvLongInteger};
    use std::alloc::Global;
    use std::test::Fail;

    // Whether a big integer of these bytes comes back as one of those.
    fn comes_back_as(heap: Global, number: &[u8], wanted: &[u8]) -> bool {
        let Ok(number) = Vec::from_slice(heap, number) else {
            return false;
        };
        is_read_as(heap, &TtlvBigInteger(number), wanted)
    }

    fn is_read_as(heap: Global, number: &TtlvBigInteger, wanted: &[u8]) -> bool {
        match &write_and_read(heap, heap, number) {
            Ok(read) => read.as_slice() == wanted,
            Err(_) => false,
        }
    }

    #[test]
    fn a_number_comes_back(rt: HostRuntime) -> std::result::Result<(), Fail> {
        let read = write_and_read(rt.alloc(), (), &TtlvLongInteger(-3));
        assert!(rt; matches!(read, Ok(TtlvLongInteger(-3))));
        assert!(rt; comes_back_as(rt.alloc(), b"\x80", b"\xFF\xFF\xFF\xFF\xFF\xFF\xFF\x80"));
        Ok(())
    }
}
