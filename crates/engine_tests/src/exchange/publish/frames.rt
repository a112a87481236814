//! A control block, its frames with one boolean, and what makes them.

use arrayvec::ArrayVec;
use mms_data::{Octets, UtcTime, Value, ValueList};
use publish_core::{Control, PublishFault, Publisher, Step, Table};
use std::alloc::{AllocError, Allocator};
use test_support::FRAME;

/// `FRAME` with another status number, sequence number and boolean. The first frame of a state lives 2,000 ms, the others
/// 3,000.
pub fn frame(state: u8, sequence: u8, value: bool) -> [u8; 67] {
    let mut frame = FRAME;
    frame[46] = state;
    frame[49] = sequence;
    if sequence != 0 {
        frame[29] = 0x0b;
        frame[30] = 0xb8;
    }
    if !value {
        frame[66] = 0;
    }
    frame
}

/// The moment of a change that the frames carry.
pub const NO_TIME: UtcTime = UtcTime {
    seconds: 0,
    fraction: 0,
    quality: 0,
};

/// The control block of the frames, with a count of entries.
pub fn control<A: Allocator + Copy>(alloc: A, entries: u32) -> Result<Control<A>, AllocError> {
    Ok(Control {
        destination: [0x01, 0x0c, 0xcd, 0x01, 0x00, 0x01],
        source: [0x02, 0x00, 0x00, 0x00, 0x00, 0x01],
        tag: None,
        app_id: 1,
        gocb_ref: Octets::from(Vec::from_slice(alloc, b"G")?),
        dat_set: Octets::from(Vec::from_slice(alloc, b"D")?),
        go_id: None,
        conf_rev: 1,
        entries,
        simulation: false,
        nds_com: false,
    })
}

pub fn step(wait_ms: u32, live_ms: u32) -> Step {
    Step { wait_ms, live_ms }
}

/// So many equal booleans.
pub fn booleans<A: Allocator>(
    alloc: A,
    count: u32,
    value: bool,
) -> Result<ValueList<A>, AllocError> {
    let mut values = Vec::new(alloc);
    for _ in 0..count {
        values.push(Value::Boolean(value))?;
    }
    Ok(ValueList::from(values))
}

/// So many octet strings of so many octets.
pub fn octet_strings<A: Allocator + Copy>(
    alloc: A,
    count: u32,
    size: usize,
) -> Result<ValueList<A>, AllocError> {
    let mut values = Vec::new(alloc);
    for _ in 0..count {
        values.push(Value::Octets(Octets::from(vec![in alloc; 7; size]?)))?;
    }
    Ok(ValueList::from(values))
}

/// A publisher whose first status number is 1.
pub fn publisher<A: Allocator>(
    control: Control<A>,
    steps: &[Step],
) -> Result<Publisher<A>, PublishFault> {
    let table = Table::new(steps)?;
    Publisher::new(control, table, 1)
}

/// What a change gives: its octets, or its fault and how many values are handed back.
pub fn changed<A: Allocator>(
    publisher: &mut Publisher<A>,
    moment: u64,
    t: UtcTime,
    values: ValueList<A>,
) -> Result<ArrayVec<u8, 1600>, (PublishFault, usize)> {
    match publisher.change(moment, t, values) {
        Ok(octets) => Ok(octets),
        Err((fault, values)) => Err((fault, values.as_slice().len())),
    }
}

/// Whether a change to a boolean at a moment in microseconds gives the first frame of this state.
pub fn is_changed<A: Allocator>(
    alloc: A,
    publisher: &mut Publisher<A>,
    moment: u64,
    (state, value): (u8, bool),
) -> Result<bool, AllocError> {
    let values = booleans(alloc, 1, value)?;
    match changed(publisher, moment, NO_TIME, values) {
        Ok(octets) => Ok(octets.as_slice() == frame(state, 0, value).as_slice()),
        Err(_refused) => Ok(false),
    }
}
