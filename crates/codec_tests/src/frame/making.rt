//! Frames made in memory of their own, whatever they hold: of each kind of member, with each field that may be absent,
//! and without. What is made is written as the octets that it was made of. Each growth is refused in turn; then,
//! granted memory, the same call makes the frame.

use crate::frame::frames::{TAGGED, is_written_as};
use crate::frame::sampled_frames::TAGGED_SAMPLED;
use arrayvec::ArrayVec;
use frame_core::{Apdu, Frame, FrameView, decode, view_frame};
use mms_data::{Octets, ReadFault};
use std::alloc::{Allocator, Global};
use std::process::Abort;
use std::test::Fail;
use test_support::{FRAME, RefusingAlloc, SAMPLED};

/// The calls that make a frame, or its APDU, in memory of its own.
#[derive(Clone, Copy, Debug)]
enum Call {
    Decode,
    ToFrame,
    ToApdu,
}

/// Whether `decode` makes the frame of these octets; None where memory is refused.
fn is_decoded<A: Allocator + Copy>(alloc: A, octets: &[u8]) -> Option<bool> {
    match decode(alloc, octets) {
        Ok(frame) => Some(is_written_as(frame, octets)),
        Err(ReadFault::Memory(_)) => None,
        Err(ReadFault::Fault(_)) => Some(false),
    }
}

/// The same of `to_frame`.
fn is_frame_made<A: Allocator + Copy>(alloc: A, octets: &[u8]) -> Option<bool> {
    let Ok(view) = view_frame(octets) else {
        return Some(false);
    };
    match view.to_frame(alloc) {
        Ok(frame) => Some(is_written_as(frame, octets)),
        Err(_) => None,
    }
}

/// The frame of this APDU in the envelope of the view, without its trailer.
fn framed<A: Allocator + Copy>(alloc: A, view: &FrameView<'_>, apdu: Apdu<A>) -> Frame<A> {
    Frame {
        destination: view.destination,
        source: view.source,
        tag: view.tag,
        app_id: view.app_id,
        reserved1: view.reserved1,
        reserved2: view.reserved2,
        apdu,
        trailer: Octets::from(Vec::new(alloc)),
    }
}

/// The same of `to_apdu`, in a frame without the trailer.
fn is_apdu_made<A: Allocator + Copy>(alloc: A, octets: &[u8]) -> Option<bool> {
    let Ok(view) = view_frame(octets) else {
        return Some(false);
    };
    let Some(front) = octets.strip_suffix(view.trailer) else {
        return Some(false);
    };
    match view.apdu.to_apdu(alloc) {
        Ok(apdu) => Some(is_written_as(framed(alloc, &view, apdu), front)),
        Err(_) => None,
    }
}

/// The same of the call.
fn is_made<A: Allocator + Copy>(call: Call, alloc: A, octets: &[u8]) -> Option<bool> {
    match call {
        Call::Decode => is_decoded(alloc, octets),
        Call::ToFrame => is_frame_made(alloc, octets),
        Call::ToApdu => is_apdu_made(alloc, octets),
    }
}

/// Whether the call makes the frame of these octets at once, without a refusal; false where it is refused memory, and
/// makes it once that is granted. None where it does anything else, or where memory is out behind it.
fn is_made_at_once(call: Call, alloc: &RefusingAlloc<Global>, octets: &[u8]) -> Option<bool> {
    let made = is_made(call, alloc, octets);
    if made.is_some() != !alloc.has_refused() || alloc.blocks_out() != 0 {
        return None;
    }
    alloc.allow();
    if is_made(call, alloc, octets) != Some(true) || alloc.blocks_out() != 0 {
        return None;
    }
    Some(made.is_some())
}

/// How many growths the call takes to make the frame of these octets, where each is refused in turn. None where it does
/// not make it.
fn growths(memory: Global, call: Call, octets: &[u8]) -> Option<usize> {
    for first_refused in 0..100usize {
        let alloc = RefusingAlloc::new(memory, first_refused);
        match is_made_at_once(call, &alloc, octets) {
            Some(false) => {}
            Some(true) => return Some(first_refused),
            None => return None,
        }
    }
    None
}

/// Whether each call makes the frame of these octets, and takes memory for it.
fn is_made_by_all(memory: Global, octets: &[u8]) -> bool {
    for call in [Call::Decode, Call::ToFrame, Call::ToApdu] {
        if growths(memory, call, octets).unwrap_or(0) == 0 {
            return false;
        }
    }
    true
}

/// A frame of GOOSE in its written form with twelve members: the simple ones, an array of them, an empty structure. Its
/// members begin at 64.
const EACH_KIND: [u8; 144] = [
    0x01, 0x0c, 0xcd, 0x01, 0x00, 0x01, 0x02, 0x00, 0x00, 0x00, 0x00, 0x01, 0x88, 0xb8, 0x00, 0x01,
    0x00, 0x82, 0x00, 0x00, 0x00, 0x00, 0x61, 0x78, 0x80, 0x01, 0x47, 0x81, 0x02, 0x07, 0xd0, 0x82,
    0x01, 0x44, 0x84, 0x08, 0x00, 0x00, 0x00, 0x00, 0x00, 0x00, 0x00, 0x00, 0x85, 0x01, 0x01, 0x86,
    0x01, 0x00, 0x87, 0x01, 0x00, 0x88, 0x01, 0x01, 0x89, 0x01, 0x00, 0x8a, 0x01, 0x0c, 0xab, 0x50,
    0x83, 0x01, 0xff, 0x84, 0x02, 0x04, 0xa0, 0x85, 0x01, 0xfb, 0x86, 0x02, 0x00, 0xc8, 0x87, 0x05,
    0x08, 0x41, 0x20, 0x00, 0x00, 0x89, 0x02, 0x01, 0x02, 0x8a, 0x02, 0x41, 0x42, 0x8c, 0x04, 0x00,
    0x00, 0x00, 0x01, 0x90, 0x01, 0x43, 0x91, 0x08, 0x60, 0x00, 0x00, 0x01, 0x80, 0x00, 0x00, 0x0a,
    0xa1, 0x1c, 0x83, 0x01, 0x00, 0x84, 0x01, 0x00, 0x85, 0x01, 0x05, 0x86, 0x01, 0x07, 0x89, 0x00,
    0x8a, 0x00, 0x8c, 0x06, 0x00, 0x00, 0x00, 0x01, 0x00, 0x02, 0x90, 0x00, 0xa1, 0x00, 0xa2, 0x00,
];

/// The element goID with the text I.
const GO_ID: [u8; 3] = [0x83, 0x01, 0x49];

/// The octets of these parts, one behind another.
fn joined(parts: &[&[u8]]) -> Result<ArrayVec<u8, 1600>, Fail> {
    let mut octets = ArrayVec::new();
    for part in parts {
        octets.try_extend_from_slice(part)?;
    }
    Ok(octets)
}

/// The frame of one boolean, with this element of a goID, or none, and so many other members. Its lengths are written in
/// one octet.
fn goose(go_id: &[u8], entries: u8, members: &[u8]) -> Result<ArrayVec<u8, 1600>, Fail> {
    let size = u8::try_from(members.len())?;
    let fields = u8::try_from(go_id.len().saturating_add(members.len()).saturating_add(40))?;
    joined(&[
        &FRAME[..17],
        &[fields.wrapping_add(10)],
        &FRAME[18..23],
        &[fields],
        &FRAME[24..34],
        go_id,
        &FRAME[34..61],
        &[entries, 0xab, size],
        members,
    ])
}

/// An ASDU of all fields.
const FULL: [u8; 45] = [
    0x30, 0x2b, 0x80, 0x01, 0x53, 0x81, 0x01, 0x44, 0x82, 0x02, 0x0f, 0x9e, 0x83, 0x04, 0x00, 0x00,
    0x00, 0x01, 0x84, 0x08, 0x60, 0x00, 0x00, 0x01, 0x80, 0x00, 0x00, 0x0a, 0x85, 0x01, 0x02, 0x86,
    0x02, 0x0f, 0xa0, 0x87, 0x02, 0x00, 0x2a, 0x88, 0x01, 0x00, 0x89, 0x01, 0x07,
];

/// An ASDU of those fields alone that are always there.
const BARE: [u8; 22] = [
    0x30, 0x14, 0x80, 0x01, 0x53, 0x82, 0x02, 0x0f, 0x9e, 0x83, 0x04, 0x00, 0x00, 0x00, 0x01, 0x85,
    0x01, 0x02, 0x87, 0x02, 0x00, 0x2a,
];

/// The same, of which the text and the sample are empty.
const EMPTY: [u8; 19] = [
    0x30, 0x11, 0x80, 0x00, 0x82, 0x02, 0x0f, 0x9e, 0x83, 0x04, 0x00, 0x00, 0x00, 0x01, 0x85, 0x01,
    0x02, 0x87, 0x00,
];

/// A frame of Sampled Values: what stands behind the APPID and before the first ASDU, and so many equal ASDUs.
fn sampled(front: &[u8], count: u8, asdu: &[u8]) -> Result<ArrayVec<u8, 1600>, Fail> {
    let mut octets = joined(&[&SAMPLED[..16], front])?;
    for _ in 0..count {
        octets.try_extend_from_slice(asdu)?;
    }
    Ok(octets)
}

/// A frame of field Length 1,500: its one member is 1,442 octets 00.
fn longest() -> [u8; 1514] {
    let mut frame = [0; 1514];
    frame[..22].copy_from_slice(&FRAME[..22]);
    frame[16] = 0x05;
    frame[17] = 0xdc;
    frame[22..26].copy_from_slice(&[0x61, 0x82, 0x05, 0xd0]);
    frame[26..64].copy_from_slice(&FRAME[24..62]);
    frame[64..72].copy_from_slice(&[0xab, 0x82, 0x05, 0xa6, 0x89, 0x82, 0x05, 0xa2]);
    frame
}

#[test]
fn tagged_frames_and_long_ones_are_made(rt: HostRuntime) {
    let longest = longest();
    for octets in [TAGGED.as_slice(), &TAGGED_SAMPLED, &longest] {
        assert!(rt; is_made_by_all(rt.alloc(), octets), "{octets:?}");
    }
}

#[test]
fn each_growth_is_counted(rt: HostRuntime) {
    for (call, least) in [
        (Call::Decode, 4usize),
        (Call::ToFrame, 4),
        (Call::ToApdu, 3),
    ] {
        for octets in [TAGGED.as_slice(), &TAGGED_SAMPLED] {
            let growths = growths(rt.alloc(), call, octets).unwrap_or(0);
            assert!(rt; growths >= least, "{call:?} by {growths}");
        }
    }
}

#[test]
fn a_trailer_of_each_size_is_made(rt: HostRuntime) {
    let mut octets = [0; 1600];
    octets[..67].copy_from_slice(&FRAME);
    for size in 67..=1600usize {
        assert!(rt;
            is_made_by_all(rt.alloc(), &octets[..size]),
            "{size} octets"
        );
    }
}

/// Fifteen arrays inside one another, and a boolean inside the last.
const FIFTEEN: [u8; 33] = [
    0xa1, 0x1f, 0xa1, 0x1d, 0xa1, 0x1b, 0xa1, 0x19, 0xa1, 0x17, 0xa1, 0x15, 0xa1, 0x13, 0xa1, 0x11,
    0xa1, 0x0f, 0xa1, 0x0d, 0xa1, 0x0b, 0xa1, 0x09, 0xa1, 0x07, 0xa1, 0x05, 0xa1, 0x03, 0x83, 0x01,
    0xff,
];

/// Members of each kind, each in its written form: whole, empty or at its limits, and inside others.
const MEMBERS: [&[u8]; 27] = [
    &[0x83, 0x01, 0x00],
    &[0x83, 0x01, 0xff],
    &[0x84, 0x01, 0x00],
    &[0x84, 0x02, 0x07, 0x80],
    &[0x84, 0x03, 0x00, 0x12, 0x34],
    &[0x85, 0x01, 0xfb],
    &[0x85, 0x08, 0x80, 0x00, 0x00, 0x00, 0x00, 0x00, 0x00, 0x00],
    &[0x86, 0x01, 0x07],
    &[
        0x86, 0x09, 0x00, 0xff, 0xff, 0xff, 0xff, 0xff, 0xff, 0xff, 0xff,
    ],
    &[0x87, 0x01, 0x08],
    &[0x87, 0x05, 0x08, 0x41, 0x20, 0x00, 0x00],
    &[0x89, 0x00],
    &[0x89, 0x02, 0x01, 0x02],
    &[0x8a, 0x00],
    &[0x8a, 0x02, 0x41, 0x42],
    &[0x8c, 0x04, 0x00, 0x00, 0x00, 0x01],
    &[0x8c, 0x06, 0x00, 0x00, 0x00, 0x01, 0x00, 0x02],
    &[0x90, 0x00],
    &[0x90, 0x01, 0x43],
    &[0x91, 0x08, 0x60, 0x00, 0x00, 0x01, 0x80, 0x00, 0x00, 0x0a],
    &[0xa1, 0x00],
    &[0xa1, 0x02, 0xa2, 0x00],
    &[0xa1, 0x03, 0x83, 0x01, 0xff],
    &[0xa2, 0x00],
    &[0xa2, 0x02, 0xa1, 0x00],
    &[0xa2, 0x07, 0xa2, 0x02, 0x8a, 0x00, 0x84, 0x01, 0x00],
    &FIFTEEN,
];

#[test]
fn a_member_alone_is_made(rt: HostRuntime) -> Result<(), Fail> {
    for member in MEMBERS {
        for go_id in [GO_ID.as_slice(), b""] {
            let octets = goose(go_id, 1, member)?;
            assert!(rt; is_made_by_all(rt.alloc(), octets.as_slice()), "{member:?}");
        }
    }
    Ok(())
}

#[test]
fn members_of_each_kind_and_none_are_made(rt: HostRuntime) -> Result<(), Fail> {
    for (entries, members) in [(0u8, b"".as_slice()), (12, &EACH_KIND[64..])] {
        for go_id in [GO_ID.as_slice(), &[0x83, 0x00], b""] {
            let octets = goose(go_id, entries, members)?;
            assert!(rt;
                is_made_by_all(rt.alloc(), octets.as_slice()),
                "{entries}, goID {go_id:?}"
            );
        }
    }
    Ok(())
}

#[test]
fn asdus_of_all_fields_and_of_few_are_made(rt: HostRuntime) -> Result<(), Fail> {
    for (front, count, asdu) in [
        (
            b"\x00\x3c\0\0\0\0\x60\x32\x80\x01\x01\xa2\x2d".as_slice(),
            1u8,
            FULL.as_slice(),
        ),
        (
            b"\x01\x7b\0\0\0\0\x60\x82\x01\x6f\x80\x01\x08\xa2\x82\x01\x68",
            8,
            &FULL,
        ),
        (b"\x00\x25\0\0\0\0\x60\x1b\x80\x01\x01\xa2\x16", 1, &BARE),
        (
            b"\x00\xc1\0\0\0\0\x60\x81\xb6\x80\x01\x08\xa2\x81\xb0",
            8,
            &BARE,
        ),
        (b"\x00\x22\0\0\0\0\x60\x18\x80\x01\x01\xa2\x13", 1, &EMPTY),
    ] {
        let octets = sampled(front, count, asdu)?;
        assert!(rt;
            is_made_by_all(rt.alloc(), octets.as_slice()),
            "{count} of {asdu:?}"
        );
    }
    Ok(())
}
