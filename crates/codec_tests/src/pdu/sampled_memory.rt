//! Sampled Values in memory of their own: with ample memory they are those that the octets were made of, whatever their
//! counts; and each growth is refused in turn.

use crate::memory::{Call, are_answered, are_owned, gives, takes};
use crate::mms::writing::count_at;
use crate::pdu::sampled::FULL;
use arrayvec::ArrayVec;
use ber_core::put_integer;
use mms_data::{ReadFault, put_element};
use pdu_core::{AsduList, Asdus, SvPdu, put_sv, read_sv, view_sv};
use std::alloc::{AllocError, Allocator};
use std::test::Fail;
use test_support::RefusingAlloc;

// The calls that can want memory.
const CALLS: &[Call] = &[Call::ReadSv, Call::ToSvPdu, Call::ToAsdu];

// Whether the APDU is written as the octets, which are at most 64.
fn is_written<A: Allocator>(pdu: SvPdu<A>, octets: &[u8]) -> bool {
    let mut out = ArrayVec::<u8, 64>::new();
    put_sv(&mut out, &pdu).is_ok() && out.as_slice() == octets
}

/// Whether the APDU that is read is written as the octets.
pub fn is_read<A: Allocator + Copy>(memory: A, octets: &[u8]) -> Result<bool, ReadFault> {
    let pdu = read_sv(memory, octets, 0, octets.len())?;
    Ok(is_written(pdu, octets))
}

/// The same of the APDU that is made of its view.
pub fn is_made<A: Allocator + Copy>(memory: A, octets: &[u8]) -> Result<bool, ReadFault> {
    let pdu = view_sv(octets, 0, octets.len())?.to_pdu(memory)?;
    Ok(is_written(pdu, octets))
}

// The APDU of the first of these ASDUs alone.
fn first_alone<A: Allocator + Copy>(
    memory: A,
    mut views: Asdus<'_>,
) -> Result<SvPdu<A>, AllocError> {
    let mut asdus = Vec::with_capacity(memory, 1)?;
    if let Some(first) = views.next() {
        asdus.push(first.to_asdu(memory)?)?;
    }
    Ok(SvPdu {
        asdus: AsduList::from(asdus),
    })
}

/// The same of an APDU of the first ASDU alone.
pub fn is_first_made<A: Allocator + Copy>(memory: A, octets: &[u8]) -> Result<bool, ReadFault> {
    let pdu = first_alone(memory, view_sv(octets, 0, octets.len())?.asdus)?;
    Ok(is_written(pdu, octets))
}

// An APDU of so many ASDUs, which stand in these octets.
fn sampled(count: usize, asdus: &[u8]) -> Result<ArrayVec<u8, 20_100>, Fail> {
    let mut fields = ArrayVec::<u8, 20_100>::new();
    put_integer(&mut fields, 0x80, count as i128)?;
    put_element(&mut fields, 0xa2, asdus)?;
    let mut octets = ArrayVec::new();
    put_element(&mut octets, 0x60, fields.as_slice())?;
    Ok(octets)
}

// An ASDU in which of the fields that may be absent none is there.
const SMALL: [u8; 20] = [
    0x30, 0x12, 0x80, 0x01, 0x53, 0x82, 0x02, 0x00, 0x00, 0x83, 0x04, 0xff, 0xff, 0xff, 0xff, 0x85,
    0x01, 0xff, 0x87, 0x00,
];

#[test]
fn asdus_of_each_count_are_answered(rt: HostRuntime) -> Result<(), Fail> {
    let ample = RefusingAlloc::new(rt.alloc(), usize::MAX);
    let mut asdus = ArrayVec::<u8, 20_100>::new();
    for count in 1..=1000 {
        asdus.try_extend_from_slice(&SMALL)?;
        if count <= 100 || count % 50 == 0 {
            are_answered(
                &rt,
                &ample,
                CALLS,
                sampled(count, asdus.as_slice())?.as_slice(),
            );
        }
    }
    Ok(())
}

// The list takes memory once, whatever its count, and each ASDU for its text alone, since its sample is empty.
#[test]
fn a_list_of_asdus_grows_once(rt: HostRuntime) -> Result<(), Fail> {
    let mut asdus = ArrayVec::<u8, 20_100>::new();
    for count in 1..=8usize {
        asdus.try_extend_from_slice(&SMALL)?;
        let octets = sampled(count, asdus.as_slice())?;
        for call in [Call::ReadSv, Call::ToSvPdu] {
            let memory = RefusingAlloc::new(rt.alloc(), usize::MAX);
            assert!(rt; gives(call, &memory, octets.as_slice()).is_ok(), "{call:?}");
            assert!(rt;
                memory.growths() == count.saturating_add(1),
                "{call:?} of {count}"
            );
        }
    }
    Ok(())
}

// The fields of an ASDU that has all of them, each beside the bit that tells that it is absent, if it may be.
const FIELDS: [(u8, &[u8]); 10] = [
    (0, &[0x80, 0x01, 0x53]),
    (1, &[0x81, 0x01, 0x44]),
    (0, &[0x82, 0x02, 0x00, 0x00]),
    (0, &[0x83, 0x04, 0xff, 0xff, 0xff, 0xff]),
    (
        2,
        &[0x84, 0x08, 0x00, 0x00, 0x00, 0x01, 0xff, 0xff, 0xff, 0x02],
    ),
    (0, &[0x85, 0x01, 0x00]),
    (4, &[0x86, 0x02, 0x00, 0x50]),
    (0, &[0x87, 0x00]),
    (8, &[0x88, 0x01, 0x00]),
    (16, &[0x89, 0x02, 0x01, 0x02]),
];

// An APDU of one ASDU of these fields.
fn alone(fields: &[u8]) -> Result<ArrayVec<u8, 20_100>, Fail> {
    let mut asdu = ArrayVec::<u8, 20_100>::new();
    put_element(&mut asdu, 0x30, fields)?;
    sampled(1, asdu.as_slice())
}

#[test]
fn asdus_of_any_fields_are_owned(rt: HostRuntime) -> Result<(), Fail> {
    let ample = RefusingAlloc::new(rt.alloc(), usize::MAX);
    for absent in 0..32 {
        let mut fields = ArrayVec::<u8, 64>::new();
        for (bit, field) in FIELDS {
            if absent & bit == 0 {
                fields.try_extend_from_slice(field)?;
            }
        }
        are_owned(&rt, &ample, CALLS, alone(fields.as_slice())?.as_slice());
    }
    Ok(())
}

// An ASDU of these texts and this sample.
fn with(sv_id: &[u8], dat_set: &[u8], sample: &[u8]) -> Result<ArrayVec<u8, 20_100>, Fail> {
    let mut fields = ArrayVec::<u8, 2100>::new();
    put_element(&mut fields, 0x80, sv_id)?;
    put_element(&mut fields, 0x81, dat_set)?;
    fields.try_extend_from_slice(&SMALL[5..18])?;
    put_element(&mut fields, 0x87, sample)?;
    alone(fields.as_slice())
}

#[test]
fn texts_and_samples_of_each_count_are_answered(rt: HostRuntime) -> Result<(), Fail> {
    let ample = RefusingAlloc::new(rt.alloc(), usize::MAX);
    let letters = [0x41; 1500];
    for step in 0..=324 {
        let text = letters.get(..count_at(step)).ok_or("too few octets")?;
        are_answered(&rt, &ample, CALLS, with(text, b"D", b"")?.as_slice());
        are_answered(&rt, &ample, CALLS, with(b"", text, &[7])?.as_slice());
        are_answered(&rt, &ample, CALLS, with(b"S", b"", text)?.as_slice());
    }
    Ok(())
}

// The list, two texts, the sample and two fields more.
#[test]
fn each_of_six_growths_is_refused(rt: HostRuntime) {
    let memory = RefusingAlloc::new(rt.alloc(), 0);
    for call in CALLS {
        assert!(rt; takes(&memory, *call, &FULL, 6), "{call:?}");
    }
}
