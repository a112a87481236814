//! Blocks, events and what is told of an entry.

use ber_core::Cause;
use list_core::{Event, EventKind};
use mms_data::{Octets, Value};
use std::alloc::{AllocError, Allocator};
use subscribe_core::{Block, Entry, Reason};
use test_support::{FRAME, SAMPLED};

/// The numbers of a frame with one boolean: its moment in milliseconds, status and sequence number, and timeAllowedtoLive.
#[derive(Clone, Copy)]
pub struct Numbers(pub u32, pub u8, pub u8, pub u16);

/// What happens, its moment in milliseconds first.
#[derive(Clone, Copy)]
pub enum Given {
    /// A frame of the block whose APPID is 1.
    Goose(Numbers),
    /// The same with the simulation flag.
    Simulated(Numbers),
    /// A frame of the block whose APPID is 2.
    Other(Numbers),
    /// The frame with another octet at a place.
    Changed(u32, usize, u8),
    /// A frame of Sampled Values.
    Sampled(u32),
    /// The frame without its last octet.
    Cut(u32),
    /// The clock.
    Clock(u32),
    /// The simulation mode.
    Mode(u32, bool),
}

/// What is told of an entry: its numbers, and of an action whether it has one boolean, and which.
#[derive(Clone, Copy, PartialEq, Eq)]
pub enum Told {
    Expired(usize),
    Switched(usize),
    Act(usize, u32, u32, Option<bool>),
    Refreshed(usize, u32, u32),
    Repeated(usize, u32, u32),
    Older(usize, u32, u32),
    Refused(usize, Reason),
    NotSubscribed,
    Sampled,
    Faulty(usize, Cause),
}

/// What is told of the entries of an event.
#[derive(Clone, Copy, PartialEq, Eq)]
pub enum Want {
    Nothing,
    One(Told),
    Two(Told, Told),
    More,
}

/// One boolean that is true.
pub const TRUE: Option<bool> = Some(true);

/// The one boolean of these values.
fn boolean<A: Allocator>(values: &[Value<A>]) -> Option<bool> {
    match values {
        [Value::Boolean(is_true)] => Some(*is_true),
        _ => None,
    }
}

/// What is told of an entry.
fn summary<A: Allocator>(entry: &Entry<A>) -> Told {
    match entry {
        Entry::Expired { block } => Told::Expired(*block),
        Entry::Switched { block } => Told::Switched(*block),
        Entry::Act {
            block,
            state,
            sequence,
            t: _,
            members,
        } => Told::Act(*block, *state, *sequence, boolean(members.as_slice())),
        Entry::Refreshed {
            block,
            state,
            sequence,
        } => Told::Refreshed(*block, *state, *sequence),
        Entry::Repeated {
            block,
            state,
            sequence,
        } => Told::Repeated(*block, *state, *sequence),
        Entry::Older {
            block,
            state,
            sequence,
        } => Told::Older(*block, *state, *sequence),
        Entry::Refused { block, reason } => Told::Refused(*block, *reason),
        Entry::NotSubscribed => Told::NotSubscribed,
        Entry::Sampled => Told::Sampled,
        Entry::Faulty(fault) => Told::Faulty(fault.place, fault.cause),
    }
}

/// What is told of the entries of an event.
pub fn tells<A: Allocator>(entries: &[Entry<A>]) -> Want {
    match entries {
        [] => Want::Nothing,
        [a] => Want::One(summary(a)),
        [a, b] => Want::Two(summary(a), summary(b)),
        _ => Want::More,
    }
}

/// The frame with these numbers and another octet at a place.
fn octets(numbers: Numbers, place: usize, octet: u8) -> [u8; 67] {
    let [high, low] = numbers.3.to_be_bytes();
    let mut frame = FRAME;
    frame[46] = numbers.1;
    frame[49] = numbers.2;
    frame[29] = high;
    frame[30] = low;
    if place < 67 {
        frame[place] = octet;
    }
    frame
}

/// Octets of a frame at a moment in milliseconds.
pub fn event_with_frame<A: Allocator>(
    alloc: A,
    moment: u32,
    octets: &[u8],
) -> Result<Event<A>, AllocError> {
    Ok(Event {
        moment: u64::from(moment) * 1000,
        kind: EventKind::Frame(Octets::from(Vec::from_slice(alloc, octets)?)),
    })
}

/// An event without octets, at a moment in milliseconds.
fn plain<A: Allocator>(moment: u32, kind: EventKind<A>) -> Event<A> {
    Event {
        moment: u64::from(moment) * 1000,
        kind,
    }
}

/// The event.
pub fn event<A: Allocator>(alloc: A, given: Given) -> Result<Event<A>, AllocError> {
    match given {
        Given::Goose(numbers) => event_with_frame(alloc, numbers.0, &octets(numbers, 67, 0)),
        Given::Simulated(numbers) => event_with_frame(alloc, numbers.0, &octets(numbers, 52, 0xff)),
        Given::Other(numbers) => event_with_frame(alloc, numbers.0, &octets(numbers, 15, 2)),
        Given::Changed(moment, place, octet) => {
            let numbers = Numbers(moment, 1, 0, 2000);
            event_with_frame(alloc, moment, &octets(numbers, place, octet))
        }
        Given::Sampled(moment) => event_with_frame(alloc, moment, &SAMPLED),
        Given::Cut(moment) => event_with_frame(alloc, moment, &FRAME[..66]),
        Given::Clock(moment) => Ok(plain(moment, EventKind::Clock)),
        Given::Mode(moment, on) => Ok(plain(moment, EventKind::Mode(on))),
    }
}

/// Appends a block of control block G with data set D, so many members and revision 1.
pub fn put_block<A: Allocator + Copy>(
    alloc: A,
    blocks: &mut Vec<Block<A>, A>,
    app_id: u16,
    entries: u32,
) -> Result<(), AllocError> {
    blocks.push(Block {
        app_id,
        gocb_ref: Octets::from(Vec::from_slice(alloc, b"G")?),
        dat_set: Octets::from(Vec::from_slice(alloc, b"D")?),
        go_id: None,
        conf_rev: 1,
        entries,
    })?;
    Ok(())
}
