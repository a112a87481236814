//! An APDU of GOOSE in memory of its own: with ample memory it is the one that the octets were made of, whatever their
//! counts; and each growth is refused in turn.

use crate::memory::{Call, are_answered, are_owned, takes};
use crate::mms::writing::{count_at, element, empty_values};
use crate::pdu::goose::{NESTED, TIGHT};
use arrayvec::ArrayVec;
use ber_core::put_integer;
use mms_data::ReadFault;
use pdu_core::{GoosePdu, put_goose, read_goose, view_goose};
use std::alloc::Allocator;
use std::test::Fail;
use test_support::RefusingAlloc;

// The calls that can want memory.
const CALLS: &[Call] = &[Call::ReadGoose, Call::ToGoosePdu];

// Whether the APDU is written as the octets, which are at most 128.
fn is_written<A: Allocator>(pdu: GoosePdu<A>, octets: &[u8]) -> bool {
    let mut out = ArrayVec::<u8, 128>::new();
    put_goose(&mut out, &pdu).is_ok() && out.as_slice() == octets
}

/// Whether the APDU that is read is written as the octets.
pub fn is_read<A: Allocator + Copy>(memory: A, octets: &[u8]) -> Result<bool, ReadFault> {
    let pdu = read_goose(memory, octets, 0, octets.len())?;
    Ok(is_written(pdu, octets))
}

/// The same of the APDU that is made of its view.
pub fn is_made<A: Allocator + Copy>(memory: A, octets: &[u8]) -> Result<bool, ReadFault> {
    let pdu = view_goose(octets, 0, octets.len())?.to_pdu(memory)?;
    Ok(is_written(pdu, octets))
}

// Puts a field of these contents behind the others.
fn put_field(fields: &mut ArrayVec<u8, 2100>, identifier: u8, contents: &[u8]) -> Result<(), Fail> {
    fields.try_extend_from_slice(element(identifier, contents)?.as_slice())?;
    Ok(())
}

// The APDU of these texts, of which the last may be absent, and so many members.
fn goose(
    gocb_ref: &[u8],
    dat_set: &[u8],
    go_id: Option<&[u8]>,
    members: usize,
) -> Result<ArrayVec<u8, 2100>, Fail> {
    let mut fields = ArrayVec::<u8, 2100>::new();
    put_field(&mut fields, 0x80, gocb_ref)?;
    put_field(&mut fields, 0x81, &[0x07, 0xd0])?;
    put_field(&mut fields, 0x82, dat_set)?;
    if let Some(go_id) = go_id {
        put_field(&mut fields, 0x83, go_id)?;
    }
    fields.try_extend_from_slice(&[0x84, 0x08, 0, 0, 0, 1, 0, 0, 0, 0, 0x85, 0x01, 0x01])?;
    fields.try_extend_from_slice(&[
        0x86, 0x01, 0, 0x87, 0x01, 0, 0x88, 0x01, 0x01, 0x89, 0x01, 0,
    ])?;
    put_integer(&mut fields, 0x8a, members as i128)?;
    put_field(&mut fields, 0xab, empty_values(members)?.as_slice())?;
    element(0x61, fields.as_slice())
}

#[test]
fn texts_and_members_of_each_count_are_answered(rt: HostRuntime) -> Result<(), Fail> {
    let ample = RefusingAlloc::new(rt.alloc(), usize::MAX);
    let letters = [0x41; 1500];
    for step in 0..=324 {
        let count = count_at(step);
        let text = letters.get(..count).ok_or("too few octets")?;
        for (gocb_ref, dat_set, go_id, members) in [
            (text, b"D".as_slice(), None, 1),
            (b"G", text, Some(b"I".as_slice()), 1),
            (b"G", b"", Some(text), 1),
            (b"", b"D", Some(b""), count.min(1000)),
        ] {
            let octets = goose(gocb_ref, dat_set, go_id, members)?;
            are_answered(&rt, &ample, CALLS, octets.as_slice());
        }
    }
    Ok(())
}

#[test]
fn members_of_each_kind_are_owned(rt: HostRuntime) {
    let ample = RefusingAlloc::new(rt.alloc(), usize::MAX);
    are_owned(&rt, &ample, CALLS, &TIGHT);
}

#[test]
fn each_growth_is_refused(rt: HostRuntime) {
    let memory = RefusingAlloc::new(rt.alloc(), 0);
    for call in CALLS {
        assert!(rt; takes(&memory, *call, &NESTED, 7), "{call:?}");
    }
}
