//! A publisher takes no memory, and what it was handed is let go of with it, or as soon as another is held in its place.

use super::refusals::WIDE;
use crate::exchange::publish::frames::{NO_TIME, changed, control, octet_strings, publisher, step};
use mms_data::UtcTime;
use publish_core::{PublishFault, Publisher, Table};
use std::alloc::{AllocError, Global};
use std::test::Fail;
use test_support::RefusingAlloc;

type Memory<'a> = &'a RefusingAlloc<Global>;

/// Whether a change to two octet strings at a moment in microseconds, a poll that gives a frame and one that gives none
/// ask for no memory.
fn are_free<'a>(
    alloc: Memory<'a>,
    publisher: &mut Publisher<Memory<'a>>,
    moment: u64,
) -> Result<bool, AllocError> {
    let values = octet_strings(alloc, 2, 5)?;
    alloc.refuse_from(0);
    let is_changed = changed(publisher, moment, NO_TIME, values).is_ok();
    let is_polled = publisher.poll(moment.saturating_add(10_000)).is_some();
    let is_quiet = publisher.poll(moment.saturating_add(10_000)).is_none();
    let is_free = !alloc.has_refused();
    alloc.allow();
    Ok(is_changed && is_polled && is_quiet && is_free)
}

/// Whether a change to so many octet strings of so many octets is refused for this reason, and asks for no memory.
fn is_refused<'a>(
    alloc: Memory<'a>,
    publisher: &mut Publisher<Memory<'a>>,
    (t, count, size): (UtcTime, u32, usize),
    wanted: PublishFault,
) -> Result<bool, AllocError> {
    let values = octet_strings(alloc, count, size)?;
    alloc.refuse_from(0);
    let refused = changed(publisher, 0, t, values).err();
    let is_free = !alloc.has_refused();
    alloc.allow();
    Ok(refused == Some((wanted, count as usize)) && is_free)
}

/// Changes that are refused, and why.
const REFUSALS: [((UtcTime, u32, usize), PublishFault); 3] = [
    ((NO_TIME, 3, 5), PublishFault::EntriesDiffer),
    ((WIDE, 2, 5), PublishFault::NotSpellable),
    ((NO_TIME, 2, 1500), PublishFault::WouldNotFit),
];

/// How many of three changes and of these refusals ask for no memory, before the first that does. Of the control two texts
/// are out, and of the last change a list and its two values.
fn free_calls<'a>(
    alloc: Memory<'a>,
    publisher: &mut Publisher<Memory<'a>>,
) -> Result<usize, AllocError> {
    let mut free = 0usize;
    for moment in &[0u64, 20_000, 40_000] {
        if !are_free(alloc, publisher, *moment)? || alloc.blocks_out() != 5 {
            return Ok(free);
        }
        free = free.saturating_add(1);
    }
    for (change, wanted) in &REFUSALS {
        if !is_refused(alloc, publisher, *change, *wanted)? || alloc.blocks_out() != 5 {
            return Ok(free);
        }
        free = free.saturating_add(1);
    }
    Ok(free)
}

/// The same of a publisher that is let go of.
fn free_calls_of_one(alloc: Memory<'_>) -> Result<usize, Fail> {
    let mut publisher = publisher(control(alloc, 2)?, &[step(10, 2000)])?;
    Ok(free_calls(alloc, &mut publisher)?)
}

#[test]
fn no_memory_is_taken_and_none_is_kept(rt: HostRuntime) -> Result<(), Fail> {
    let alloc = RefusingAlloc::new(rt.alloc(), usize::MAX);
    let free = free_calls_of_one(&alloc)?;
    assert!(rt; free == 6, "the first {free} alone");
    assert!(rt; alloc.blocks_out() == 0);
    Ok(())
}

#[test]
fn a_control_that_is_refused_is_let_go_of(rt: HostRuntime) -> Result<(), Fail> {
    let alloc = RefusingAlloc::new(rt.alloc(), usize::MAX);
    let refused = Publisher::new(control(&alloc, 2)?, Table::new(&[step(10, 2000)])?, 0);
    assert!(rt; refused.err() == Some(PublishFault::FirstState));
    assert!(rt; alloc.blocks_out() == 0);
    Ok(())
}
