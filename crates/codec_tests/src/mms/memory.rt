//! Each call that can want memory: with ample memory it gives the values that the octets were made of, on every kind of
//! value, and gives some on many counts, up to what a frame has room for; and each growth is refused in turn.

use crate::memory::{Call, are_answered, are_owned, takes};
use crate::mms::writing::{WRITTEN, count_at, element, empty_values};
use crate::mms::{DEEP, seen};
use arrayvec::ArrayVec;
use mms_data::{Octets, ReadFault, Value, ValueList, View, put_value, put_values, read_members};
use std::alloc::{AllocError, Allocator, Global};
use std::test::Fail;
use test_support::RefusingAlloc;

// The calls that can want memory.
const CALLS: &[Call] = &[
    Call::ReadMembers,
    Call::ToValues,
    Call::CopyList,
    Call::ToValue,
    Call::CopyValue,
];

// Whether the values are written as these octets, which are at most 64.
fn are_written<A: Allocator>(values: Vec<Value<A>, A>, octets: &[u8]) -> bool {
    let mut out = ArrayVec::<u8, 64>::new();
    put_values(&mut out, &ValueList::from(values)).is_ok() && out.as_slice() == octets
}

/// Whether what is read of the octets is written as they are.
pub fn are_read<A: Allocator + Copy>(memory: A, octets: &[u8]) -> Result<bool, ReadFault> {
    let values = read_members(memory, octets, 0, octets.len(), 1)?;
    Ok(are_written(values, octets))
}

// A copy of the values.
fn copied<A: Allocator + Copy>(
    memory: A,
    values: Vec<Value<A>, A>,
) -> Result<Vec<Value<A>, A>, AllocError> {
    Ok(ValueList::from(values).try_copy(memory)?.into_vec())
}

/// The same of a copy of what is read.
pub fn are_copied<A: Allocator + Copy>(memory: A, octets: &[u8]) -> Result<bool, ReadFault> {
    let values = read_members(memory, octets, 0, octets.len(), 1)?;
    Ok(are_written(copied(memory, values)?, octets))
}

/// The same of what is made of the views.
pub fn are_made<A: Allocator + Copy>(memory: A, octets: &[u8]) -> Result<bool, ReadFault> {
    let values = seen(octets)?.to_values(memory)?;
    Ok(are_written(values, octets))
}

// Whether the octets, of whose members the first is written in at most 64, begin as the value is written.
fn is_first<A: Allocator>(value: Value<A>, octets: &[u8]) -> bool {
    let mut out = ArrayVec::<u8, 64>::new();
    put_value(&mut out, &value).is_ok() && octets.starts_with(out.as_slice())
}

// The same of the value that is made of the view.
fn is_made<A: Allocator + Copy>(
    memory: A,
    view: &View<'_>,
    octets: &[u8],
) -> Result<bool, AllocError> {
    Ok(is_first(view.to_value(memory)?, octets))
}

/// Whether the first value that is made is written as the octets begin.
pub fn is_first_made<A: Allocator + Copy>(memory: A, octets: &[u8]) -> Result<bool, ReadFault> {
    match seen(octets)?.next() {
        Some(view) => Ok(is_made(memory, &view, octets)?),
        None => Ok(octets.is_empty()),
    }
}

// A copy of the value.
fn copy<A: Allocator + Copy>(memory: A, value: Value<A>) -> Result<Value<A>, AllocError> {
    value.try_copy(memory)
}

// Whether the copy of the value that is made of the view is written as the octets begin.
fn is_copied<A: Allocator + Copy>(
    memory: A,
    view: &View<'_>,
    octets: &[u8],
) -> Result<bool, AllocError> {
    Ok(is_first(copy(memory, view.to_value(memory)?)?, octets))
}

/// The same of its copy.
pub fn is_first_copied<A: Allocator + Copy>(memory: A, octets: &[u8]) -> Result<bool, ReadFault> {
    match seen(octets)?.next() {
        Some(view) => Ok(is_copied(memory, &view, octets)?),
        None => Ok(octets.is_empty()),
    }
}

#[test]
fn each_kind_is_owned(rt: HostRuntime) {
    let ample = RefusingAlloc::new(rt.alloc(), usize::MAX);
    for octets in WRITTEN {
        are_owned(&rt, &ample, CALLS, octets);
    }
    are_owned(&rt, &ample, CALLS, &[]);
    are_owned(&rt, &ample, CALLS, &DEEP[2..]);
}

#[test]
fn octets_of_each_count_are_answered(rt: HostRuntime) -> Result<(), Fail> {
    let ample = RefusingAlloc::new(rt.alloc(), usize::MAX);
    for (identifier, contents) in [
        (0x84, [0; 1600].as_slice()),
        (0x87, &[0; 16]),
        (0x89, &[0; 1600]),
        (0x8a, &[0x41; 1600]),
        (0x90, &[0x41; 1600]),
    ] {
        for step in 1..=326 {
            if let Some(part) = contents.get(..count_at(step)) {
                are_answered(&rt, &ample, CALLS, element(identifier, part)?.as_slice());
            }
        }
    }
    Ok(())
}

#[test]
fn members_of_each_count_are_answered(rt: HostRuntime) -> Result<(), Fail> {
    let ample = RefusingAlloc::new(rt.alloc(), usize::MAX);
    for step in 0..=314 {
        let octets = empty_values(count_at(step))?;
        are_answered(&rt, &ample, CALLS, octets.as_slice());
        for identifier in [0xa1, 0xa2] {
            let nested = element(identifier, octets.as_slice())?;
            are_answered(&rt, &ample, CALLS, nested.as_slice());
        }
    }
    Ok(())
}

// A structure of an array of a visible text and octets, of bits, and of a text.
const NESTED: [u8; 19] = [
    0xa2, 0x11, 0xa1, 8, 0x8a, 2, 0x41, 0x42, 0x89, 2, 1, 2, 0x84, 2, 4, 0xa0, 0x90, 1, 0x43,
];

// A list takes memory once, and so do octets.
#[test]
fn each_growth_is_refused(rt: HostRuntime) {
    let memory = RefusingAlloc::new(rt.alloc(), 0);
    for (call, growths) in [
        (Call::ReadMembers, 7),
        (Call::ToValues, 7),
        (Call::CopyList, 14),
        (Call::ToValue, 6),
        (Call::CopyValue, 12),
    ] {
        assert!(rt; takes(&memory, call, &NESTED, growths), "{call:?}");
    }
}

// Whether so many octets are taken from a slice, and copied.
fn are_taken_and_copied(alloc: Global, count: usize) -> Result<bool, AllocError> {
    let octets = Octets::from(vec![in alloc; 7; count]?);
    let taken = Octets::try_from_slice(alloc, octets.as_slice())?;
    let copied = octets.try_copy(alloc)?.into_vec();
    Ok(taken.as_slice() == octets.as_slice() && copied.as_slice() == octets.as_slice())
}

#[test]
fn octets_are_taken_and_copied(rt: HostRuntime) {
    for count in [0, 1, 8, 1000, 65_535, 65_536, 1_000_000] {
        assert!(rt;
            are_taken_and_copied(rt.alloc(), count) == Ok(true),
            "at {count}"
        );
    }
}
