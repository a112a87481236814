//! Any count of members, and many blocks, with ample memory.

use super::given::{event_with_frame, put_block};
use crate::exchange::publish::frames::{NO_TIME, booleans, changed, control, publisher, step};
use arrayvec::ArrayVec;
use list_core::{Event, EventKind};
use mms_data::Octets;
use std::alloc::{AllocError, Global};
use std::test::Fail;
use subscribe_core::{Block, Entry, Subscriber};
use test_support::FRAME;

/// The most booleans that a frame holds, and the greatest APPID: each block has as many members as its APPID says.
const MOST: u16 = 480;

/// Appends all these blocks.
fn put_blocks(alloc: Global, blocks: &mut Vec<Block<Global>>) -> Result<(), AllocError> {
    for count in 0..MOST + 1 {
        put_block(alloc, blocks, count, u32::from(count))?;
    }
    Ok(())
}

/// A subscriber of all these blocks.
fn subscriber(alloc: Global) -> Result<Subscriber<Global>, Fail> {
    let mut blocks = Vec::new(alloc);
    put_blocks(alloc, &mut blocks)?;
    Ok(Subscriber::new(alloc, blocks)?)
}

/// The first frame that a publisher sends of the block of so many members.
fn first_frame(
    alloc: Global,
    count: u16,
    is_simulated: bool,
) -> Result<Option<ArrayVec<u8, 1600>>, Fail> {
    let mut control = control(alloc, u32::from(count))?;
    control.app_id = count;
    control.simulation = is_simulated;
    let mut publisher = publisher(control, &[step(10, 2000)])?;
    let values = booleans(alloc, u32::from(count), true)?;
    Ok(changed(&mut publisher, 0, NO_TIME, values).ok())
}

/// How many members are acted on, where the last entry is an action.
fn acted_on(entries: &[Entry<Global>]) -> Option<usize> {
    match entries.last() {
        Some(Entry::Act { members, .. }) => Some(members.as_slice().len()),
        _ => None,
    }
}

/// The same of the entries of an event.
fn acted_on_by(
    subscriber: &mut Subscriber<Global>,
    event: Event<Global>,
) -> Result<Option<usize>, AllocError> {
    Ok(acted_on(&subscriber.take(&event)?))
}

/// Whether the last entry of a frame is an action on so many members, and one block or two are looked at.
fn acts(
    alloc: Global,
    subscriber: &mut Subscriber<Global>,
    octets: &[u8],
    count: u16,
) -> Result<bool, AllocError> {
    let acted_on = acted_on_by(subscriber, event_with_frame(alloc, 0, octets)?)?;
    let looks = subscriber.looks();
    Ok(acted_on == Some(usize::from(count)) && 1 <= looks && looks <= 2)
}

/// Whether each block acts on its first frame, one after another, with all members, and each frame reaches its block alone.
fn each_acts(
    alloc: Global,
    subscriber: &mut Subscriber<Global>,
    is_simulated: bool,
) -> Result<bool, Fail> {
    for count in 0..MOST + 1 {
        let Some(octets) = first_frame(alloc, count, is_simulated)? else {
            return Ok(false);
        };
        if !acts(alloc, subscriber, octets.as_slice(), count)? {
            return Ok(false);
        }
    }
    Ok(true)
}

/// How many entries this has at a moment in microseconds.
fn entries_at(
    subscriber: &mut Subscriber<Global>,
    moment: u64,
    kind: EventKind<Global>,
) -> Result<usize, AllocError> {
    Ok(subscriber.take(&Event { moment, kind })?.len())
}

/// How many blocks there are.
const ALL: usize = 481;

/// Whether all blocks act on their frames, and no moment before their end has entries.
fn all_act(alloc: Global, subscriber: &mut Subscriber<Global>) -> Result<bool, Fail> {
    Ok(
        subscriber.looks() == 0
            && each_acts(alloc, subscriber, false)?
            && entries_at(subscriber, 1_999_999, EventKind::Clock)? == 0
            && subscriber.looks() == 0,
    )
}

/// Whether all blocks then go over to simulated frames and back.
fn all_switch(alloc: Global, subscriber: &mut Subscriber<Global>) -> Result<bool, Fail> {
    Ok(
        entries_at(subscriber, 1_999_999, EventKind::Mode(true))? == 0
            && each_acts(alloc, subscriber, true)?
            && entries_at(subscriber, 1_999_999, EventKind::Mode(false))? == ALL
            && each_acts(alloc, subscriber, false)?,
    )
}

/// Whether all blocks act, go over to simulated frames and back, and expire.
fn all_act_switch_and_expire(
    alloc: Global,
    subscriber: &mut Subscriber<Global>,
) -> Result<bool, Fail> {
    Ok(
        all_act(alloc, subscriber)?
            && all_switch(alloc, subscriber)?
            && entries_at(subscriber, 3_999_999, EventKind::Clock)? == ALL
            && subscriber.looks() == 481,
    )
}

#[test]
fn blocks_of_each_count_of_members(rt: HostRuntime) -> Result<(), Fail> {
    let mut subscriber = subscriber(rt.alloc())?;
    assert!(rt; all_act_switch_and_expire(rt.alloc(), &mut subscriber)?);
    let frame = Octets::from(Vec::from_slice(rt.alloc(), &FRAME)?);
    assert!(rt; entries_at(&mut subscriber, u64::MAX, EventKind::Frame(frame))? == 1);
    assert!(rt; entries_at(&mut subscriber, u64::MAX, EventKind::Clock)? == 0);
    Ok(())
}
