//! A whole run: which frames come when, with which numbers, and the greatest moment so far.

use crate::exchange::publish::frames::{
    NO_TIME, booleans, control, frame, is_changed, publisher, step,
};
use mms_data::ValueList;
use publish_core::Publisher;
use std::alloc::{AllocError, Global};
use std::test::Fail;

/// Whether a poll at a moment in microseconds gives the frame with these numbers and this boolean, or none.
fn is_polled(
    publisher: &mut Publisher<Global>,
    moment: u64,
    wanted: Option<(u8, u8, bool)>,
) -> bool {
    match (publisher.poll(moment), wanted) {
        (None, None) => true,
        (Some(octets), Some((state, sequence, value))) => {
            octets.as_slice() == frame(state, sequence, value).as_slice()
        }
        _ => false,
    }
}

/// Whether each of these polls does.
fn are_polled(publisher: &mut Publisher<Global>, polls: &[(u64, Option<(u8, u8, bool)>)]) -> bool {
    for (moment, wanted) in polls {
        if !is_polled(publisher, *moment, *wanted) {
            return false;
        }
    }
    true
}

const FIRST_STATE: [(u64, Option<(u8, u8, bool)>); 4] = [
    (10_004, None),
    (10_005, Some((1, 1, true))),
    (1_010_004, None),
    (1_010_005, Some((1, 2, true))),
];

/// Whether two states and the first frame of a third come where they are due. A poll before the first change counts its
/// moment; a moment that goes back counts as the greatest so far.
fn is_run_given(alloc: Global, publisher: &mut Publisher<Global>) -> Result<bool, AllocError> {
    Ok(
        publisher.moment() == 0
            && are_polled(publisher, &[(5, None)])
            && is_changed(alloc, publisher, 0, (1, true))?
            && are_polled(publisher, &FIRST_STATE)
            && is_changed(alloc, publisher, 1_500_000, (2, false))?
            && are_polled(publisher, &[(7, None)])
            && publisher.moment() == 1_500_000
            && are_polled(publisher, &[(u64::MAX, Some((2, 1, false)))])
            && is_changed(alloc, publisher, 0, (3, true))?
            && are_polled(publisher, &[(u64::MAX, None)])
            && publisher.moment() == u64::MAX,
    )
}

/// The same of a publisher.
fn gives_run(alloc: Global) -> Result<bool, Fail> {
    let steps = [step(10, 2000), step(1000, 3000)];
    let mut publisher = publisher(control(alloc, 1)?, &steps)?;
    Ok(is_run_given(alloc, &mut publisher)?)
}

#[test]
fn frames_come_where_they_are_due(rt: HostRuntime) -> Result<(), Fail> {
    assert!(rt; gives_run(rt.alloc())?);
    Ok(())
}

/// The first frame of state 1 with a lifetime of 20 ms, which has one octet.
const SHORT_LIVED: [u8; 66] = [
    0x01, 0x0c, 0xcd, 0x01, 0x00, 0x01, 0x02, 0x00, 0x00, 0x00, 0x00, 0x01, 0x88, 0xb8, 0x00, 0x01,
    0x00, 0x34, 0x00, 0x00, 0x00, 0x00, 0x61, 0x2a, 0x80, 0x01, 0x47, 0x81, 0x01, 0x14, 0x82, 0x01,
    0x44, 0x84, 0x08, 0x00, 0x00, 0x00, 0x00, 0x00, 0x00, 0x00, 0x00, 0x85, 0x01, 0x01, 0x86, 0x01,
    0x00, 0x87, 0x01, 0x00, 0x88, 0x01, 0x01, 0x89, 0x01, 0x00, 0x8a, 0x01, 0x01, 0xab, 0x03, 0x83,
    0x01, 0xff,
];

/// The same with another sequence number and another lifetime, each of one octet.
fn short_lived(sequence: u8, live: u8) -> [u8; 66] {
    let mut frame = SHORT_LIVED;
    frame[29] = live;
    frame[48] = sequence;
    frame
}

/// Whether frames are lent where they are kept: written over, and made anew where the lifetime has an octet more. A poll
/// that gives none lends the frame before it.
fn are_lent(publisher: &mut Publisher<Global>, values: ValueList<Global>) -> bool {
    publisher.held_frame().is_empty()
        && publisher.change_held(0, NO_TIME, values).is_ok()
        && publisher.held_frame() == short_lived(0, 20).as_slice()
        && publisher.poll_held(10_000)
        && publisher.held_frame() == short_lived(1, 30).as_slice()
        && !publisher.poll_held(10_001)
        && publisher.held_frame() == short_lived(1, 30).as_slice()
        && publisher.poll_held(20_000)
        && publisher.held_frame() == frame(1, 2, true).as_slice()
        && publisher.poll_held(1_020_000)
        && publisher.held_frame() == frame(1, 3, true).as_slice()
}

/// The same of a publisher.
fn lends(alloc: Global) -> Result<bool, Fail> {
    let steps = [step(10, 20), step(10, 30), step(1000, 3000)];
    let mut publisher = publisher(control(alloc, 1)?, &steps)?;
    let values = booleans(alloc, 1, true)?;
    Ok(are_lent(&mut publisher, values))
}

#[test]
fn frames_are_lent_where_they_are_kept(rt: HostRuntime) -> Result<(), Fail> {
    assert!(rt; lends(rt.alloc())?);
    Ok(())
}
