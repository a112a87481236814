//! How often a frame of many members grows memory: they are copied for an action alone.

use super::given::{Told, Want, event_with_frame, put_block, tells};
use crate::exchange::publish::frames::{NO_TIME, changed, control, octet_strings, publisher, step};
use arrayvec::ArrayVec;
use list_core::Event;
use mms_data::ValueList;
use publish_core::Publisher;
use std::alloc::{AllocError, Allocator, Global};
use std::test::Fail;
use subscribe_core::{Entry, Subscriber};
use test_support::RefusingAlloc;

type Memory<'a> = &'a RefusingAlloc<Global>;

/// How many members the frames have, each an octet string of one octet.
const MEMBERS: u32 = 100;

/// The first frame of a state, and the one after it.
type Frames = (ArrayVec<u8, 1600>, ArrayVec<u8, 1600>);

/// The frames of a state of these values.
fn frames_of(publisher: &mut Publisher<Global>, values: ValueList<Global>) -> Option<Frames> {
    let first = changed(publisher, 0, NO_TIME, values).ok()?;
    let next = publisher.poll(10_000)?;
    Some((first, next))
}

/// The frames of a publisher.
fn two_frames(alloc: Global) -> Result<Frames, Fail> {
    let mut publisher = publisher(control(alloc, MEMBERS)?, &[step(10, 2000)])?;
    let values = octet_strings(alloc, MEMBERS, 1)?;
    Ok(frames_of(&mut publisher, values).ok_or("no frame")?)
}

/// A list of entries.
type List<'a> = Vec<Entry<Memory<'a>>, Memory<'a>>;

/// Tells an event in a list that is used again, or in a new one.
fn take<A: Allocator + Copy>(
    subscriber: &mut Subscriber<A>,
    (entries, is_again): (&mut Vec<Entry<A>, A>, bool),
    event: &Event<A>,
) -> Result<(), AllocError> {
    if is_again {
        subscriber.take_into(event, entries)?;
    } else {
        *entries = subscriber.take(event)?;
    }
    Ok(())
}

/// What is told of an event so, and how many growths the subscriber takes for it.
fn told_and_grown<'a>(
    alloc: Memory<'a>,
    subscriber: &mut Subscriber<Memory<'a>>,
    (entries, is_again): (&mut List<'a>, bool),
    event: &Event<Memory<'a>>,
) -> Result<(Want, usize), AllocError> {
    let before = alloc.growths();
    take(subscriber, (entries, is_again), event)?;
    let grown = alloc.growths().saturating_sub(before);
    Ok((tells(entries.as_slice()), grown))
}

/// Whether the first frame comes or the one after it, what is told of it, and the least and the greatest count of growths
/// that it may take.
type Example = (bool, Told, usize, usize);

/// Whether an example is told so of these octets, and is looked up.
fn is_told<'a>(
    alloc: Memory<'a>,
    subscriber: &mut Subscriber<Memory<'a>>,
    list: (&mut List<'a>, bool),
    octets: &[u8],
    (_is_first, wanted, least, most): Example,
) -> Result<bool, AllocError> {
    let event = event_with_frame(alloc, 0, octets)?;
    let (tells, grown) = told_and_grown(alloc, subscriber, list, &event)?;
    let looks = subscriber.looks();
    Ok(tells == Want::One(wanted) && least <= grown && grown <= most && 1 <= looks && looks <= 2)
}

/// How many examples are told so, before the first that is not.
fn told_in_turn<'a>(
    alloc: Memory<'a>,
    subscriber: &mut Subscriber<Memory<'a>>,
    (entries, is_again): (&mut List<'a>, bool),
    (first, next): (&[u8], &[u8]),
    examples: &[Example],
) -> Result<usize, AllocError> {
    let mut told = 0usize;
    for example in examples {
        let octets = if example.0 { first } else { next };
        if !is_told(alloc, subscriber, (entries, is_again), octets, *example)? {
            break;
        }
        told = told.saturating_add(1);
    }
    Ok(told)
}

/// A subscriber of the frames.
fn subscriber<A: Allocator + Copy>(alloc: A) -> Result<Subscriber<A>, Fail> {
    let mut blocks = Vec::new(alloc);
    put_block(alloc, &mut blocks, 1, MEMBERS)?;
    Ok(Subscriber::new(alloc, blocks)?)
}

/// The same of a subscriber that is let go of.
fn told_by_one(
    alloc: Memory<'_>,
    is_again: bool,
    frames: (&[u8], &[u8]),
    examples: &[Example],
) -> Result<usize, Fail> {
    let mut subscriber = subscriber(alloc)?;
    let mut entries = Vec::new(alloc);
    Ok(told_in_turn(
        alloc,
        &mut subscriber,
        (&mut entries, is_again),
        frames,
        examples,
    )?)
}

/// The same, and how many blocks of memory are out then.
fn told_and_out(
    memory: Global,
    is_again: bool,
    examples: &[Example],
) -> Result<(usize, usize), Fail> {
    let alloc = RefusingAlloc::new(memory, usize::MAX);
    let (first, next) = two_frames(memory)?;
    let frames = (first.as_slice(), next.as_slice());
    let told = told_by_one(&alloc, is_again, frames, examples)?;
    Ok((told, alloc.blocks_out()))
}

// The list of entries, and for an action the members, of which each has its octet.
const IN_NEW_LISTS: [Example; 4] = [
    (true, Told::Act(0, 1, 0, None), 102, 103),
    (false, Told::Refreshed(0, 1, 1), 1, 2),
    (false, Told::Repeated(0, 1, 1), 1, 1),
    (true, Told::Older(0, 1, 0), 1, 1),
];

#[test]
fn members_are_copied_for_an_action_alone(rt: HostRuntime) -> Result<(), Fail> {
    let (told, out) = told_and_out(rt.alloc(), false, &IN_NEW_LISTS)?;
    assert!(rt; told == 4 && out == 0, "the first {told} alone, {out} out");
    Ok(())
}

// A block that is renewed again and again takes memory for its members alone, where the list of entries is used again.
const IN_ONE_LIST: [Example; 4] = [
    (true, Told::Act(0, 1, 0, None), 102, 103),
    (false, Told::Refreshed(0, 1, 1), 0, 0),
    (false, Told::Repeated(0, 1, 1), 0, 0),
    (true, Told::Older(0, 1, 0), 0, 0),
];

#[test]
fn entries_are_told_in_one_list(rt: HostRuntime) -> Result<(), Fail> {
    let (told, out) = told_and_out(rt.alloc(), true, &IN_ONE_LIST)?;
    assert!(rt; told == 4 && out == 0, "the first {told} alone, {out} out");
    Ok(())
}
