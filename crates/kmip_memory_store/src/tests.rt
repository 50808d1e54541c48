//! An object's life, and growths that fail: values by KMIP 1.0, section 3.17.

use crate::object::{Denied, State, Step};
use crate::store::Store;
use kmip_ttlv_memory::BoundedAllocator;
use std::alloc::{AllocError, Allocator};
use std::test::Fail;

// Whether of two objects the second takes steps as it may, and the first stays as it came.
fn life<A: Allocator + Copy>(alloc: A) -> Result<bool, AllocError> {
    let mut store = Store::new(alloc);
    let first = store.add((), b"first".to_vec(alloc)?, 10)?;
    let second = store.add((), b"second".to_vec(alloc)?, 11)?;
    let denied = [
        store.take(second, Step::Deactivate, 12),
        store.take(9, Step::Activate, 12),
    ] == [Err(Denied::WrongState), Err(Denied::NotFound)];
    let done = [
        store.take(second, Step::Activate, 13),
        store.take(second, Step::Deactivate, 14),
        store.take(second, Step::Destroy, 15),
        store.take(second, Step::Compromise, 16),
    ] == [Ok(()); 4];
    let (Some(kept), Some(gone)) = (store.get(first), store.get(second)) else {
        return Ok(false);
    };
    let is_kept = kept.state == State::PreActive
        && matches!(&kept.material, Some(bytes) if bytes.as_slice() == b"first".as_slice());
    let dates = gone.dates;
    let is_gone = gone.state == State::DestroyedCompromised
        && gone.material.is_none()
        && (dates.initial, dates.activation, dates.deactivation) == (11, Some(13), Some(14))
        && (dates.destroy, dates.compromise, dates.last_change) == (Some(15), Some(16), 16);
    Ok(denied && done && is_kept && is_gone && store.count() == 2)
}

#[test]
fn an_object_lives(rt: HostRuntime) -> Result<(), Fail> {
    assert!(rt; life(rt.alloc())?);
    Ok(())
}

#[test]
fn growths_fail_in_turn(rt: HostRuntime) -> Result<(), Fail> {
    for before in 0..9u64 {
        let memory = BoundedAllocator::failing_after(rt.alloc(), before);
        let is_whole = life(&memory);
        assert!(rt; memory.has_failed() == is_whole.is_err(), "growth {before}");
        assert!(rt; before > 0 || memory.has_failed());
    }
    Ok(())
}
