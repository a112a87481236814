//! A frame of one boolean, and frames that differ from it.

use arrayvec::ArrayVec;
use ber_core::{Cause, Fault};
use frame_core::{Frame, decode, encode, view_frame};
use mms_data::ReadFault;
use std::alloc::{Allocator, Global};
use test_support::{FRAME, RefusingAlloc};

/// `FRAME` with needlessly long lengths and status number: two octets for the APDU's length, four for stNum.
pub const LONG: [u8; 72] = [
    0x01, 0x0c, 0xcd, 0x01, 0x00, 0x01, 0x02, 0x00, 0x00, 0x00, 0x00, 0x01, 0x88, 0xb8, 0x00, 0x01,
    0x00, 0x3a, 0x00, 0x00, 0x00, 0x00, 0x61, 0x82, 0x00, 0x2e, 0x80, 0x01, 0x47, 0x81, 0x02, 0x07,
    0xd0, 0x82, 0x01, 0x44, 0x84, 0x08, 0x00, 0x00, 0x00, 0x00, 0x00, 0x00, 0x00, 0x00, 0x85, 0x04,
    0x00, 0x00, 0x00, 0x01, 0x86, 0x01, 0x00, 0x87, 0x01, 0x00, 0x88, 0x01, 0x01, 0x89, 0x01, 0x00,
    0x8a, 0x01, 0x01, 0xab, 0x03, 0x83, 0x01, 0xff,
];

/// The same with a tag of priority 4 and four octets behind the APDU.
pub const TAGGED: [u8; 75] = [
    0x01, 0x0c, 0xcd, 0x01, 0x00, 0x01, 0x02, 0x00, 0x00, 0x00, 0x00, 0x01, 0x81, 0x00, 0x80, 0x00,
    0x88, 0xb8, 0x00, 0x01, 0x00, 0x35, 0x00, 0x00, 0x00, 0x00, 0x61, 0x2b, 0x80, 0x01, 0x47, 0x81,
    0x02, 0x07, 0xd0, 0x82, 0x01, 0x44, 0x84, 0x08, 0x00, 0x00, 0x00, 0x00, 0x00, 0x00, 0x00, 0x00,
    0x85, 0x01, 0x01, 0x86, 0x01, 0x00, 0x87, 0x01, 0x00, 0x88, 0x01, 0x01, 0x89, 0x01, 0x00, 0x8a,
    0x01, 0x01, 0xab, 0x03, 0x83, 0x01, 0xff, 0x00, 0x00, 0x00, 0x00,
];

/// The frame with another octet at a place, if it reaches there.
pub fn changed(place: usize, octet: u8) -> [u8; 67] {
    let mut frame = FRAME;
    if place < 67 {
        frame[place] = octet;
    }
    frame
}

/// The fault of the octets, by the view, if they have one.
pub fn seen(octets: &[u8]) -> Result<(), Fault> {
    view_frame(octets)?;
    Ok(())
}

/// The same by the owned frame. Refused memory is told as a fault that no octets have.
pub fn read(alloc: Global, octets: &[u8]) -> Result<(), Fault> {
    match decode(alloc, octets) {
        Err(ReadFault::Fault(fault)) => Err(fault),
        Err(ReadFault::Memory(_)) => Err(Cause::Ends.at(usize::MAX)),
        Ok(_) => Ok(()),
    }
}

/// The fault of the octets by the owned frame, if they have one.
fn fault_of<A: Allocator + Copy>(alloc: A, octets: &[u8]) -> Option<Fault> {
    match decode(alloc, octets) {
        Err(ReadFault::Fault(fault)) => Some(fault),
        _ => None,
    }
}

/// Whether the octets have this fault by the owned frame, and no memory is asked for.
fn is_fault_without_memory(memory: Global, octets: &[u8], fault: Fault) -> bool {
    let alloc = RefusingAlloc::new(memory, 0);
    fault_of(&alloc, octets) == Some(fault) && !alloc.has_refused()
}

/// Whether this is the first fault of the octets, as a view and as a frame, whatever memory there is.
pub fn has_fault(alloc: Global, octets: &[u8], place: usize, cause: Cause) -> bool {
    let fault = cause.at(place);
    seen(octets) == Err(fault) && is_fault_without_memory(alloc, octets, fault)
}

/// The written form of the frame, if there is one.
fn written<A: Allocator>(frame: Frame<A>) -> Option<ArrayVec<u8, 1600>> {
    match encode(&frame) {
        Ok(form) => Some(form),
        Err(_) => None,
    }
}

/// The written form of the frame of these octets, if there is one.
pub fn form_of(alloc: Global, octets: &[u8]) -> Option<ArrayVec<u8, 1600>> {
    match decode(alloc, octets) {
        Ok(frame) => written(frame),
        Err(_) => None,
    }
}

/// Whether the frame of these octets has this written form.
pub fn has_form(alloc: Global, octets: &[u8], form: &[u8]) -> bool {
    match form_of(alloc, octets) {
        Some(written) => written.as_slice() == form,
        None => false,
    }
}

/// Whether the frame's written form is these octets.
pub fn is_written_as<A: Allocator>(frame: Frame<A>, octets: &[u8]) -> bool {
    match encode(&frame) {
        Ok(form) => form.as_slice() == octets,
        Err(_) => false,
    }
}
