//! Where memory is refused, at each growth in turn.

use super::given::{Given, Numbers, TRUE, Told, Want, event, put_block, tells};
use ber_core::Cause;
use list_core::Event;
use std::alloc::{AllocError, Allocator, Global};
use std::test::Fail;
use subscribe_core::{Block, Reason, SubscribeFault, Subscriber};
use test_support::RefusingAlloc;

/// What `new` answers.
#[derive(Clone, Copy, PartialEq, Eq)]
enum Made {
    Made,
    Twice(usize),
    NoMemory,
}

/// Appends blocks with these APPIDs, of one member.
fn put_blocks<A: Allocator + Copy>(
    alloc: A,
    blocks: &mut Vec<Block<A>, A>,
    app_ids: &[u16],
) -> Result<(), AllocError> {
    for app_id in app_ids {
        put_block(alloc, blocks, *app_id, 1)?;
    }
    Ok(())
}

/// What `new` answers to these blocks.
fn answer_to<A: Allocator + Copy>(alloc: A, blocks: Vec<Block<A>, A>) -> Made {
    match Subscriber::new(alloc, blocks) {
        Ok(_subscriber) => Made::Made,
        Err(SubscribeFault::SameBlockTwice(i)) => Made::Twice(i),
        Err(SubscribeFault::Memory(_error)) => Made::NoMemory,
    }
}

/// What `new` answers to blocks with these APPIDs, this growth and all after it refused, and whether a growth was refused.
/// Nothing is out then.
fn answer_of_new(
    memory: Global,
    app_ids: &[u16],
    first_refused: usize,
) -> Result<(Made, bool), Fail> {
    let alloc = RefusingAlloc::new(memory, 0);
    alloc.allow();
    let mut blocks = Vec::new(&alloc);
    put_blocks(&alloc, &mut blocks, app_ids)?;
    alloc.refuse_from(first_refused);
    let made = answer_to(&alloc, blocks);
    if alloc.blocks_out() != 0 {
        return Err(Fail::from("a block of memory is still out"));
    }
    Ok((made, alloc.has_refused()))
}

#[test]
fn new_where_each_growth_is_refused(rt: HostRuntime) -> Result<(), Fail> {
    for first_refused in 0..100usize {
        let answer = answer_of_new(rt.alloc(), &[1, 2], first_refused)?;
        if answer == (Made::Made, false) {
            assert!(rt; first_refused >= 3);
            return Ok(());
        }
        assert!(rt; answer == (Made::NoMemory, true), "growth {first_refused}");
    }
    Err(Fail::from("each call was refused memory"))
}

#[test]
fn new_where_no_memory_is_needed(rt: HostRuntime) -> Result<(), Fail> {
    assert!(rt; answer_of_new(rt.alloc(), &[], 0)? == (Made::Made, false));
    assert!(rt; answer_of_new(rt.alloc(), &[1, 2, 1, 1], 0)? == (Made::Twice(2), false));
    Ok(())
}

/// What is told of an event, if memory does not want.
fn taken<A: Allocator + Copy>(subscriber: &mut Subscriber<A>, event: &Event<A>) -> Option<Want> {
    match subscriber.take(event) {
        Ok(entries) => Some(tells(&entries)),
        Err(_error) => None,
    }
}

/// What is told of an event where this growth and all after it are refused, if memory did not want, and whether a growth was
/// refused.
fn told<'a>(
    alloc: &'a RefusingAlloc<Global>,
    subscriber: &mut Subscriber<&'a RefusingAlloc<Global>>,
    event: &Event<&'a RefusingAlloc<Global>>,
    first_refused: usize,
) -> (Option<Want>, bool) {
    alloc.refuse_from(first_refused);
    let told = taken(subscriber, event);
    let has_refused = alloc.has_refused();
    alloc.allow();
    (told, has_refused)
}

/// Takes an event, of which this is to be told, each growth refused in turn, and the same event again after each refusal. How
/// many growths it takes; `None` where something else is told, or memory is wanted where none was refused, or the other way.
fn growths<'a>(
    alloc: &'a RefusingAlloc<Global>,
    subscriber: &mut Subscriber<&'a RefusingAlloc<Global>>,
    event: &Event<&'a RefusingAlloc<Global>>,
    want: Want,
) -> Option<usize> {
    for first_refused in 0..100usize {
        match told(alloc, subscriber, event, first_refused) {
            (None, true) => {}
            (Some(told), false) if told == want => return Some(first_refused),
            _ => return None,
        }
    }
    None
}

/// An event, what is told of it, and the least and the greatest count of growths that it may take.
type Example = (Given, Want, usize, usize);

const EXAMPLES: [Example; 19] = [
    (
        Given::Goose(Numbers(0, 1, 0, 2000)),
        Want::One(Told::Act(0, 1, 0, TRUE)),
        2,
        9,
    ),
    (
        Given::Other(Numbers(500, 1, 0, 2000)),
        Want::One(Told::Act(1, 1, 0, TRUE)),
        2,
        2,
    ),
    (
        Given::Other(Numbers(2000, 1, 1, 2000)),
        Want::Two(Told::Expired(0), Told::Refreshed(1, 1, 1)),
        1,
        9,
    ),
    (Given::Clock(4000), Want::One(Told::Expired(1)), 1, 9),
    (
        Given::Goose(Numbers(5000, 2, 1, 2000)),
        Want::One(Told::Act(0, 2, 1, TRUE)),
        2,
        9,
    ),
    (
        Given::Goose(Numbers(5001, 2, 1, 2000)),
        Want::One(Told::Repeated(0, 2, 1)),
        1,
        1,
    ),
    (
        Given::Goose(Numbers(5001, 2, 0, 2000)),
        Want::One(Told::Older(0, 2, 0)),
        1,
        1,
    ),
    (
        Given::Changed(5001, 46, 0),
        Want::One(Told::Refused(0, Reason::StateZero)),
        1,
        1,
    ),
    (
        Given::Changed(5001, 15, 9),
        Want::One(Told::NotSubscribed),
        1,
        1,
    ),
    (Given::Sampled(5001), Want::One(Told::Sampled), 1, 1),
    (
        Given::Cut(5001),
        Want::One(Told::Faulty(66, Cause::Truncated)),
        1,
        1,
    ),
    (Given::Clock(5001), Want::Nothing, 0, 0),
    (Given::Mode(5001, true), Want::Nothing, 0, 0),
    (
        Given::Simulated(Numbers(5002, 1, 0, 2000)),
        Want::Two(Told::Switched(0), Told::Act(0, 1, 0, TRUE)),
        2,
        9,
    ),
    (
        Given::Goose(Numbers(5003, 3, 0, 2000)),
        Want::One(Told::Refused(0, Reason::Simulated)),
        1,
        1,
    ),
    (
        Given::Simulated(Numbers(7002, 2, 0, 2000)),
        Want::Two(Told::Expired(0), Told::Act(0, 2, 0, TRUE)),
        2,
        9,
    ),
    (Given::Mode(7003, false), Want::One(Told::Switched(0)), 1, 9),
    (Given::Mode(7003, false), Want::Nothing, 0, 0),
    (Given::Clock(9999), Want::Nothing, 0, 0),
];

/// Whether an example is told as it is to be, and takes as many growths.
fn is_right<'a>(
    alloc: &'a RefusingAlloc<Global>,
    subscriber: &mut Subscriber<&'a RefusingAlloc<Global>>,
    (given, want, least, most): Example,
) -> Result<bool, AllocError> {
    let event = event(alloc, given)?;
    match growths(alloc, subscriber, &event, want) {
        Some(count) => Ok(least <= count && count <= most),
        None => Ok(false),
    }
}

/// The place of the first example that is not told as it is to be, or takes another count of growths; else how many there are.
fn first_wrong<'a>(
    alloc: &'a RefusingAlloc<Global>,
    subscriber: &mut Subscriber<&'a RefusingAlloc<Global>>,
) -> Result<usize, AllocError> {
    for (at, example) in EXAMPLES.iter().enumerate() {
        if !is_right(alloc, subscriber, *example)? {
            return Ok(at);
        }
    }
    Ok(EXAMPLES.len())
}

/// A subscriber of two blocks.
fn subscriber<A: Allocator + Copy>(alloc: A) -> Result<Subscriber<A>, Fail> {
    let mut blocks = Vec::new(alloc);
    put_blocks(alloc, &mut blocks, &[1, 2])?;
    Ok(Subscriber::new(alloc, blocks)?)
}

/// The same of a subscriber that is let go of.
fn first_wrong_of_one(alloc: &RefusingAlloc<Global>) -> Result<usize, Fail> {
    let mut subscriber = subscriber(alloc)?;
    Ok(first_wrong(alloc, &mut subscriber)?)
}

#[test]
fn take_where_each_growth_is_refused(rt: HostRuntime) -> Result<(), Fail> {
    let alloc = RefusingAlloc::new(rt.alloc(), 0);
    alloc.allow();
    let at = first_wrong_of_one(&alloc)?;
    assert!(rt; at == EXAMPLES.len(), "at {at}");
    assert!(rt; alloc.blocks_out() == 0);
    Ok(())
}
