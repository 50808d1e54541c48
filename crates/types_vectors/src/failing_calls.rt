//! The allocator that the tests of failing growths use, and its limits; and the one that wipes.

use kmip_ttlv_memory::{BoundedAllocator, Wiping};
use std::alloc::{AllocError, Allocator, Global};
use std::test::Fail;

// Allocates three times: for a text, for a vector, and for the vector's second growth.
fn grow<A: Allocator + Copy>(alloc: A) -> Result<usize, AllocError> {
    let text = String::from_str(alloc, "text")?;
    let mut bytes = Vec::with_capacity(alloc, 1)?;
    for byte in text.as_bytes() {
        bytes.push(*byte)?;
    }
    Ok(bytes.len())
}

// Whether the growth after this many fails, and no other.
fn one_fails(alloc: Global, before: u64) -> bool {
    let heap = BoundedAllocator::failing_after(alloc, before);
    grow(&heap).is_err() && heap.has_failed() && grow(&heap).ok() == Some(4)
}

// Whether no growth fails if this many may succeed.
fn none_fails(alloc: Global, before: u64) -> bool {
    let heap = BoundedAllocator::failing_after(alloc, before);
    grow(&heap).ok() == Some(4) && !heap.has_failed()
}

#[test]
fn one_growth_fails(rt: HostRuntime) -> Result<(), Fail> {
    for before in 0..3u64 {
        assert!(rt; one_fails(rt.alloc(), before), "at {before}");
    }
    assert!(rt; none_fails(rt.alloc(), 3));
    Ok(())
}

// Whether the vector takes ten bytes more.
fn takes_ten<A: Allocator>(bytes: &mut Vec<u8, A>) -> bool {
    for byte in 0..10u8 {
        if bytes.push(byte).is_err() {
            return false;
        }
    }
    true
}

// Whether ten bytes fit if blocks are limited to ten, and no more.
fn ten_bytes_fit(alloc: Global) -> Option<bool> {
    let heap = BoundedAllocator::in_blocks(alloc, 10);
    let mut bytes = Vec::with_capacity(&heap, 10).ok()?;
    Some(takes_ten(&mut bytes) && bytes.push(10).is_err() && bytes.len() == 10)
}

// Whether room for this many values can't be had if blocks are limited to ten bytes.
fn room_runs_out<T: Drop>(alloc: Global, len: usize) -> bool {
    let heap = BoundedAllocator::in_blocks(alloc, 10);
    let room: Result<Vec<T, _>, AllocError> = Vec::with_capacity(&heap, len);
    room.is_err()
}

#[test]
fn large_requests_fail(rt: HostRuntime) -> Result<(), Fail> {
    assert!(rt; matches!(ten_bytes_fit(rt.alloc()), Some(true)));
    assert!(rt; room_runs_out::<u8>(rt.alloc(), 11));
    assert!(rt; room_runs_out::<u64>(rt.alloc(), 2));
    Ok(())
}

// Whether two vectors of six bytes fit into a budget of twelve, a byte more doesn't, and what one gives back can be
// allocated again.
fn budget_holds(alloc: Global) -> Option<bool> {
    let memory = BoundedAllocator::new(alloc, 12);
    let first: Vec<u8, _> = Vec::with_capacity(&memory, 6).ok()?;
    let second: Vec<u8, _> = Vec::with_capacity(&memory, 6).ok()?;
    let is_spent = memory.left() == 0 && !memory.has_failed() && fails(&memory, 1);
    drop(first);
    let is_back = memory.left() == 6
        && memory.has_failed()
        && !fails(&memory, 6)
        && fails(&memory, 7);
    drop(second);
    Some(is_spent && is_back && memory.left() == 12)
}

// Whether room for this many bytes can't be had.
fn fails<A: Allocator>(alloc: A, len: usize) -> bool {
    let room: Result<Vec<u8, A>, AllocError> = Vec::with_capacity(alloc, len);
    room.is_err()
}

#[test]
fn a_budget_is_of_all_blocks(rt: HostRuntime) -> Result<(), Fail> {
    assert!(rt; matches!(budget_holds(rt.alloc()), Some(true)));
    Ok(())
}

// Whether what is asked for is counted, also after it was freed, and what fails isn't.
fn asked_is_a_sum(alloc: Global) -> bool {
    let memory = BoundedAllocator::in_blocks(alloc, 10);
    let first = fails(&memory, 6);
    let asked = memory.asked();
    let large = fails(&memory, 11);
    let second = fails(&memory, 7);
    !first && asked == 6 && large && !second && memory.asked() == 13
}

#[test]
fn what_is_asked_for_is_counted(rt: HostRuntime) {
    assert!(rt; asked_is_a_sum(rt.alloc()));
}

// Whether a vector of eight bytes, of a budget of a hundred over blocks of ten, can't grow by ten, which costs nothing; nor does a new
// block.
fn growth_costs_nothing<A: Allocator + Copy>(memory: &BoundedAllocator<A>) -> Option<bool> {
    let mut bytes = Vec::with_capacity(memory, 8).ok()?;
    let is_refused = fails(memory, 11);
    let before = memory.left();
    let has_grown = takes_ten(&mut bytes);
    Some(is_refused && before == 92 && !has_grown && memory.left() == 92)
}

// Whether what the allocator below refuses costs nothing of a budget: neither a new block, nor the growth of a vector.
fn refusals_cost_nothing(alloc: Global) -> bool {
    let below = BoundedAllocator::in_blocks(alloc, 10);
    let memory = BoundedAllocator::new(&below, 100);
    let costs_nothing = growth_costs_nothing(&memory);
    matches!(costs_nothing, Some(true))
        && below.has_failed()
        && !memory.has_failed()
        && memory.left() == 100
}

#[test]
fn a_budget_counts_what_was_given(rt: HostRuntime) {
    assert!(rt; refusals_cost_nothing(rt.alloc()));
}

// Whether a vector that grows keeps what is in it, which is memory of the allocator below, and a hundred bytes more can't be had.
fn keeps_ten<A: Allocator + Copy>(memory: A, below: &BoundedAllocator<Global>) -> bool {
    let mut bytes = Vec::new(memory);
    let is_taken = takes_ten(&mut bytes);
    let left = below.left();
    let is_refused = fails(memory, 100);
    is_taken
        && left <= 90
        && is_refused
        && bytes.as_slice() == [0, 1, 2, 3, 4, 5, 6, 7, 8, 9].as_slice()
}

// Whether an allocator that wipes gives what the one below has, keeps what is in a vector that grows, and gives all back.
fn gives_and_wipes(alloc: Global) -> bool {
    let below = BoundedAllocator::new(alloc, 100);
    let memory = Wiping::new(&below);
    let is_kept = keeps_ten(&memory, &below);
    is_kept && below.has_failed() && below.left() == 100
}

#[test]
fn an_allocator_that_wipes_gives_all_back(rt: HostRuntime) {
    assert!(rt; gives_and_wipes(rt.alloc()));
}
