//! Sampled Values: a recorded APDU, and one with each field, whose octets are changed one at a time.

use arrayvec::ArrayVec;
use ber_core::{Cause, Fault};
use mms_data::{ReadFault, UtcTime};
use pdu_core::{Asdu, AsduView, SvPdu, read_sv, view_sv};
use std::alloc::Global;
use std::test::Fail;
use test_support::SAMPLED;

/// An APDU of one ASDU with each field.
pub const FULL: [u8; 54] = [
    0x60, 0x34, 0x80, 0x01, 0x01, 0xa2, 0x2f, 0x30, 0x2d, 0x80, 0x01, 0x53, 0x81, 0x01, 0x44, 0x82,
    0x02, 0x00, 0x07, 0x83, 0x04, 0x00, 0x00, 0x00, 0x02, 0x84, 0x08, 0x00, 0x00, 0x00, 0x01, 0x00,
    0x00, 0x02, 0x03, 0x85, 0x01, 0x01, 0x86, 0x02, 0x0f, 0xa0, 0x87, 0x03, 0x01, 0x02, 0x03, 0x88,
    0x02, 0x00, 0x05, 0x89, 0x01, 0x07,
];

const TIME: UtcTime = UtcTime {
    seconds: 1,
    fraction: 2,
    quality: 3,
};

// The one ASDU of the APDU.
fn one_asdu(octets: &[u8]) -> Option<AsduView<'_>> {
    let Ok(view) = view_sv(octets, 0, octets.len()) else {
        return None;
    };
    let mut asdus = view.asdus;
    let first = asdus.next();
    if view.count == 1 && asdus.next().is_none() {
        first
    } else {
        None
    }
}

#[test]
fn the_recorded_pdu_stands(rt: HostRuntime) -> Result<(), Fail> {
    let asdu = one_asdu(&SAMPLED[22..]).ok_or("not one ASDU")?;
    assert!(rt; asdu.sv_id == b"S".as_slice() && asdu.dat_set.is_none());
    assert!(rt; (asdu.smp_cnt, asdu.conf_rev, asdu.smp_synch) == (3998, 1, 2));
    assert!(rt; asdu.refr_tm.is_none() && asdu.smp_rate.is_none() && asdu.field_89.is_none());
    assert!(rt; asdu.sample == [0x00, 0x2a].as_slice() && asdu.smp_mod == Some([0].as_slice()));
    Ok(())
}

#[test]
fn each_field_stands(rt: HostRuntime) -> Result<(), Fail> {
    let asdu = one_asdu(&FULL).ok_or("not one ASDU")?;
    assert!(rt; asdu.sv_id == b"S".as_slice() && asdu.dat_set == Some(b"D".as_slice()));
    assert!(rt; (asdu.smp_cnt, asdu.conf_rev, asdu.smp_synch) == (7, 2, 1));
    assert!(rt; asdu.refr_tm == Some(TIME) && asdu.smp_rate == Some(4000));
    assert!(rt; asdu.sample == [1, 2, 3].as_slice());
    assert!(rt; asdu.smp_mod == Some([0, 5].as_slice()) && asdu.field_89 == Some([7].as_slice()));
    Ok(())
}

// Whether the ASDU is that of the frame.
fn is_recorded(asdu: &Asdu<Global>) -> bool {
    asdu.sv_id.as_slice() == b"S".as_slice()
        && asdu.dat_set.is_none()
        && (asdu.smp_cnt, asdu.conf_rev, asdu.smp_synch) == (3998, 1, 2)
        && asdu.refr_tm.is_none()
        && asdu.smp_rate.is_none()
        && asdu.field_89.is_none()
        && asdu.sample.as_slice() == [0x00, 0x2a].as_slice()
        && asdu.smp_mod.is_some()
}

// Whether it is the one ASDU of the APDU.
fn is_recorded_alone(pdu: SvPdu<Global>) -> bool {
    matches!(pdu.asdus.as_slice(), [asdu] if is_recorded(asdu))
}

#[test]
fn the_recorded_pdu_is_read(rt: HostRuntime) -> Result<(), Fail> {
    assert!(rt; is_recorded_alone(read_sv(rt.alloc(), &SAMPLED, 22, 54)?));
    Ok(())
}

// The fault of the APDU with each field, with this octet at this place.
fn fault(place: usize, octet: u8) -> Option<Fault> {
    let mut pdu = FULL;
    if let Some(at) = pdu.get_mut(place) {
        *at = octet;
    }
    view_sv(&pdu, 0, 54).err()
}

#[test]
fn faults_at_their_places(rt: HostRuntime) {
    for (place, octet, wanted) in [
        (0, 0x61, Cause::UnexpectedTag.at(0)),
        (1, 0x33, Cause::LengthPastEnd.at(6)),
        (4, 0x00, Cause::IntegerRange.at(4)),
        (4, 0x02, Cause::AsduCount.at(2)),
        (7, 0x3f, Cause::HighTag.at(7)),
        (11, 0x7f, Cause::NotVisible.at(11)),
        (16, 0x03, Cause::FixedLength.at(16)),
        (25, 0x86, Cause::UnexpectedTag.at(25)),
        (48, 0x00, Cause::FixedLength.at(48)),
        (51, 0x88, Cause::ExtraOctets.at(51)),
    ] {
        assert!(rt; fault(place, octet) == Some(wanted), "at {place}");
    }
}

#[test]
fn the_element_fills_the_region(rt: HostRuntime) {
    assert!(rt; view_sv(&SAMPLED, 22, 22).err() == Some(Cause::ElementMissing.at(22)));
    let answer = read_sv(rt.alloc(), &SAMPLED, 22, 53);
    let wanted = Cause::LengthPastEnd.at(23);
    assert!(rt; matches!(answer, Err(ReadFault::Fault(fault)) if fault == wanted));
}

/// The front of eight ASDUs like the recorded one, up to the first of them.
pub const EIGHT: [u8; 9] = [0x60, 0x81, 0xce, 0x80, 0x01, 0x08, 0xa2, 0x81, 0xc8];

// The recorded ASDU with the count 0, which stands at 7.
const ASDU: [u8; 25] = [
    0x30, 0x17, 0x80, 0x01, 0x53, 0x82, 0x02, 0x00, 0x00, 0x83, 0x04, 0x00, 0x00, 0x00, 0x01, 0x85,
    0x01, 0x02, 0x87, 0x02, 0x00, 0x2a, 0x88, 0x01, 0x00,
];

/// An APDU of eight ASDUs, the recorded one with the counts 0 to 7, behind this front.
pub fn eight(front: &[u8]) -> Result<ArrayVec<u8, 212>, Fail> {
    let mut pdu = ArrayVec::new();
    pdu.try_extend_from_slice(front)?;
    let mut asdu = ASDU;
    for count in 0..8u8 {
        asdu[8] = count;
        pdu.try_extend_from_slice(&asdu)?;
    }
    Ok(pdu)
}

#[test]
fn asdus_come_in_their_order(rt: HostRuntime) -> Result<(), Fail> {
    let pdu = eight(&EIGHT)?;
    let view = view_sv(pdu.as_slice(), 0, pdu.len())?;
    assert!(rt; view.count == 8);
    let mut asdus = view.asdus;
    for count in 0..8u16 {
        let asdu = asdus.next().ok_or("too few ASDUs")?;
        assert!(rt; asdu.smp_cnt == count && asdu.sv_id == b"S".as_slice());
    }
    assert!(rt; asdus.next().is_none());
    Ok(())
}
