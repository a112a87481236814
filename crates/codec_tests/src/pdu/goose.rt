//! Outside examples: a recorded frame of GOOSE whose octets are changed one at a time, and APDUs in other forms.

use arrayvec::ArrayVec;
use ber_core::{Cause, Fault, Full};
use mms_data::{Octets, PutFault, ReadFault, UtcTime, Value, View};
use pdu_core::{
    GoosePdu, GooseView, are_spellable_parts, is_spellable, laws, put_goose, put_goose_parts,
    put_goose_view, read_goose, see_goose, slice_if, view_goose, written_goose_length,
};
use std::alloc::{Allocator, Global};
use std::test::Fail;
use test_support::FRAME;

// The APDU of `FRAME` with a longer spelling of its length and of stNum.
const LONG: [u8; 50] = [
    0x61, 0x82, 0x00, 0x2e, 0x80, 0x01, 0x47, 0x81, 0x02, 0x07, 0xd0, 0x82, 0x01, 0x44, 0x84, 0x08,
    0x00, 0x00, 0x00, 0x00, 0x00, 0x00, 0x00, 0x00, 0x85, 0x04, 0x00, 0x00, 0x00, 0x01, 0x86, 0x01,
    0x00, 0x87, 0x01, 0x00, 0x88, 0x01, 0x01, 0x89, 0x01, 0x00, 0x8a, 0x01, 0x01, 0xab, 0x03, 0x83,
    0x01, 0xff,
];

// The same APDU without simulation and ndsCom.
const SHORT: [u8; 39] = [
    0x61, 0x25, 0x80, 0x01, 0x47, 0x81, 0x02, 0x07, 0xd0, 0x82, 0x01, 0x44, 0x84, 0x08, 0x00, 0x00,
    0x00, 0x00, 0x00, 0x00, 0x00, 0x00, 0x85, 0x01, 0x01, 0x86, 0x01, 0x00, 0x88, 0x01, 0x01, 0x8a,
    0x01, 0x01, 0xab, 0x03, 0x83, 0x01, 0xff,
];

// An APDU with an identifier and two members: a structure of an array of a text and of a text, and a boolean.
pub(super) const NESTED: [u8; 58] = [
    0x61, 0x38, 0x80, 0x01, 0x41, 0x81, 0x01, 0x01, 0x82, 0x00, 0x83, 0x01, 0x49, 0x84, 0x08, 0x00,
    0x00, 0x00, 0x01, 0xff, 0xff, 0xff, 0x02, 0x85, 0x02, 0x00, 0x80, 0x86, 0x01, 0x00, 0x87, 0x01,
    0xff, 0x88, 0x01, 0x01, 0x89, 0x01, 0x00, 0x8a, 0x01, 0x02, 0xab, 0x0e, 0xa2, 0x09, 0xa1, 0x04,
    0x8a, 0x02, 0x41, 0x42, 0x90, 0x01, 0x43, 0x83, 0x01, 0x00,
];

// An APDU with a member of each kind, spelled longer than need be, with another octet for true and unused bits set.
const LOOSE: [u8; 109] = [
    0x61, 0x6b, 0x80, 0x01, 0x47, 0x81, 0x01, 0x01, 0x82, 0x01, 0x44, 0x84, 0x08, 0x00, 0x00, 0x00,
    0x01, 0xff, 0xff, 0xff, 0x02, 0x85, 0x01, 0x01, 0x86, 0x01, 0x00, 0x88, 0x01, 0x01, 0x8a, 0x01,
    0x0c, 0xab, 0x4a, 0xa1, 0x03, 0x83, 0x01, 0x07, 0xa2, 0x81, 0x0b, 0xa1, 0x82, 0x00, 0x03, 0x83,
    0x01, 0x00, 0x85, 0x02, 0x00, 0x05, 0x83, 0x01, 0x80, 0x84, 0x03, 0x03, 0xff, 0xff, 0x85, 0x04,
    0xff, 0xff, 0xff, 0x80, 0x86, 0x03, 0x00, 0x00, 0x80, 0x87, 0x81, 0x05, 0x08, 0x3f, 0x80, 0x00,
    0x00, 0x89, 0x02, 0x01, 0x02, 0x8a, 0x02, 0x41, 0x42, 0x8c, 0x04, 0x00, 0x00, 0x00, 0x01, 0x90,
    0x02, 0xc3, 0xa9, 0x91, 0x08, 0x00, 0x00, 0x00, 0x02, 0x00, 0x00, 0x01, 0x0a,
];

// Its written form.
pub(super) const TIGHT: [u8; 106] = [
    0x61, 0x68, 0x80, 0x01, 0x47, 0x81, 0x01, 0x01, 0x82, 0x01, 0x44, 0x84, 0x08, 0x00, 0x00, 0x00,
    0x01, 0xff, 0xff, 0xff, 0x02, 0x85, 0x01, 0x01, 0x86, 0x01, 0x00, 0x87, 0x01, 0x00, 0x88, 0x01,
    0x01, 0x89, 0x01, 0x00, 0x8a, 0x01, 0x0c, 0xab, 0x41, 0xa1, 0x03, 0x83, 0x01, 0xff, 0xa2, 0x08,
    0xa1, 0x03, 0x83, 0x01, 0x00, 0x85, 0x01, 0x05, 0x83, 0x01, 0xff, 0x84, 0x03, 0x03, 0xff, 0xf8,
    0x85, 0x01, 0x80, 0x86, 0x02, 0x00, 0x80, 0x87, 0x05, 0x08, 0x3f, 0x80, 0x00, 0x00, 0x89, 0x02,
    0x01, 0x02, 0x8a, 0x02, 0x41, 0x42, 0x8c, 0x04, 0x00, 0x00, 0x00, 0x01, 0x90, 0x02, 0xc3, 0xa9,
    0x91, 0x08, 0x00, 0x00, 0x00, 0x02, 0x00, 0x00, 0x01, 0x0a,
];

const NO_TIME: UtcTime = UtcTime {
    seconds: 0,
    fraction: 0,
    quality: 0,
};

// Whether the view is that of the frame.
fn is_recorded(view: &GooseView<'_>) -> bool {
    let mut members = view.members;
    view.gocb_ref == b"G".as_slice()
        && view.live == 2000
        && view.dat_set == b"D".as_slice()
        && view.go_id.is_none()
        && view.t == NO_TIME
        && (view.st_num, view.sq_num, view.conf_rev) == (1, 0, 1)
        && (view.simulation, view.nds_com) == (false, false)
        && view.entries == 1
        && matches!(members.next(), Some(View::Boolean(true)))
}

// The view of the APDU that fills the octets from one place to another, at most their end.
fn view_between(octets: &[u8], at: usize, end: usize) -> Result<GooseView<'_>, Fault> {
    let end = end.min(octets.len());
    view_goose(octets, at.min(end), end)
}

#[test]
fn the_recorded_pdu_stands(rt: HostRuntime) -> Result<(), Fail> {
    assert!(rt; is_recorded(&view_between(&FRAME, 22, 67)?));
    assert!(rt; is_recorded(&view_between(&LONG, 0, 50)?));
    assert!(rt; is_recorded(&view_between(&SHORT, 0, 39)?));
    Ok(())
}

// The view of the APDU that stands from this place on, noted or not.
fn noted(octets: &[u8], at: usize, notes: bool) -> Result<GooseView<'_>, Fault> {
    see_goose(octets, at.min(octets.len()), octets.len(), notes)
}

#[test]
fn a_pdu_in_its_written_form_is_noted(rt: HostRuntime) -> Result<(), Fail> {
    for (octets, at, is_written) in [
        (FRAME.as_slice(), 22, true),
        (&NESTED, 0, true),
        (&TIGHT, 0, true),
        (&LONG, 0, false),
        (&SHORT, 0, false),
    ] {
        assert!(rt;
            noted(octets, at, true)?.written == is_written,
            "{octets:?}"
        );
    }
    Ok(())
}

#[test]
fn each_field_stands(rt: HostRuntime) -> Result<(), Fail> {
    let view = view_between(&NESTED, 0, 58)?;
    assert!(rt; view.gocb_ref == b"A".as_slice() && view.dat_set.is_empty());
    assert!(rt; view.go_id == Some(b"I".as_slice()));
    assert!(rt; (view.t.seconds, view.t.fraction, view.t.quality) == (1, 0xff_ffff, 2));
    assert!(rt; (view.st_num, view.sq_num, view.conf_rev) == (128, 0, 1));
    assert!(rt; (view.simulation, view.nds_com) == (true, false) && view.entries == 2);
    Ok(())
}

// Whether the texts of the APDU are those of the frame.
fn has_texts(pdu: &GoosePdu<Global>) -> bool {
    pdu.gocb_ref.as_slice() == b"G".as_slice()
        && pdu.dat_set.as_slice() == b"D".as_slice()
        && pdu.go_id.is_none()
        && slice_if(&pdu.go_id).is_none()
}

// Whether the APDU is that of the frame.
fn is_owned(pdu: GoosePdu<Global>) -> bool {
    has_texts(&pdu)
        && pdu.live == 2000
        && pdu.t == NO_TIME
        && (pdu.st_num, pdu.sq_num, pdu.conf_rev) == (1, 0, 1)
        && (pdu.simulation, pdu.nds_com) == (false, false)
        && matches!(pdu.members.as_slice(), [Value::Boolean(true)])
}

#[test]
fn the_recorded_pdu_is_read(rt: HostRuntime) -> Result<(), Fail> {
    assert!(rt; is_owned(read_goose(rt.alloc(), &FRAME, 22, 67)?));
    Ok(())
}

// The APDU of the frame, with this octet at this place, and its fault.
fn fault(place: usize, octet: u8) -> Option<Fault> {
    let mut frame = FRAME;
    if let Some(at) = frame.get_mut(place) {
        *at = octet;
    }
    view_goose(&frame, 22, 67).err()
}

#[test]
fn faults_at_their_places(rt: HostRuntime) {
    for (place, octet, wanted) in [
        (22, 0x60, Cause::UnexpectedTag.at(22)),
        (23, 0x2a, Cause::LengthPastEnd.at(63)),
        (26, 0x07, Cause::NotVisible.at(26)),
        (35, 0x07, Cause::FixedLength.at(35)),
        (46, 0xff, Cause::IntegerRange.at(46)),
        (51, 0x02, Cause::BooleanLength.at(51)),
        (61, 0x02, Cause::EntryCount.at(59)),
        (64, 0x88, Cause::UnexpectedTag.at(64)),
    ] {
        assert!(rt; fault(place, octet) == Some(wanted), "at {place}");
    }
}

#[test]
fn the_element_fills_the_region(rt: HostRuntime) {
    let mut longer = [0; 68];
    longer[..67].copy_from_slice(&FRAME);
    assert!(rt; view_between(&longer, 22, 68).err() == Some(Cause::ExtraOctets.at(67)));
    assert!(rt; view_between(&FRAME, 22, 22).err() == Some(Cause::ElementMissing.at(22)));
    let answer = read_goose(rt.alloc(), &FRAME, 22, 66);
    let wanted = Cause::LengthPastEnd.at(23);
    assert!(rt; matches!(answer, Err(ReadFault::Fault(fault)) if fault == wanted));
}

// How the APDU from this place on is put behind what the vector holds, from where it stands, noted or not.
fn put_seen<const N: usize>(
    out: &mut ArrayVec<u8, N>,
    octets: &[u8],
    at: usize,
    notes: bool,
) -> Option<Result<(), Full>> {
    match noted(octets, at, notes) {
        Ok(view) => Some(put_goose_view(out, &view)),
        Err(_) => None,
    }
}

// How the APDU is put there.
fn put_whole<A: Allocator, const N: usize>(
    out: &mut ArrayVec<u8, N>,
    pdu: GoosePdu<A>,
) -> Result<(), PutFault> {
    put_goose(out, &pdu)
}

// The same where its texts and members are kept elsewhere.
fn put_by_parts<A: Allocator, const N: usize>(
    out: &mut ArrayVec<u8, N>,
    pdu: GoosePdu<A>,
) -> Result<(), PutFault> {
    put_goose_parts(out, &pdu.parts())
}

// How the APDU from this place on is put there from memory of its own.
fn put_read<const N: usize>(
    out: &mut ArrayVec<u8, N>,
    alloc: Global,
    octets: &[u8],
    at: usize,
) -> Option<Result<(), PutFault>> {
    match read_goose(alloc, octets, at.min(octets.len()), octets.len()) {
        Ok(pdu) => Some(put_whole(out, pdu)),
        Err(_) => None,
    }
}

// The same of the APDU whose texts and members are kept elsewhere.
fn put_parts<const N: usize>(
    out: &mut ArrayVec<u8, N>,
    alloc: Global,
    octets: &[u8],
    at: usize,
) -> Option<Result<(), PutFault>> {
    match read_goose(alloc, octets, at.min(octets.len()), octets.len()) {
        Ok(pdu) => Some(put_by_parts(out, pdu)),
        Err(_) => None,
    }
}

// Whether the APDU that the octets spell has this written form, from where it stands, noted or not.
fn is_seen_as(octets: &[u8], notes: bool, form: &[u8]) -> bool {
    let mut out = ArrayVec::<u8, 128>::new();
    put_seen(&mut out, octets, 0, notes) == Some(Ok(())) && out.as_slice() == form
}

// The same from memory of its own.
fn is_read_as(alloc: Global, octets: &[u8], form: &[u8]) -> bool {
    let mut out = ArrayVec::<u8, 128>::new();
    put_read(&mut out, alloc, octets, 0) == Some(Ok(())) && out.as_slice() == form
}

// The same of the APDU whose texts and members are kept elsewhere.
fn is_kept_as(alloc: Global, octets: &[u8], form: &[u8]) -> bool {
    let mut out = ArrayVec::<u8, 128>::new();
    put_parts(&mut out, alloc, octets, 0) == Some(Ok(())) && out.as_slice() == form
}

#[test]
fn each_pdu_has_its_written_form(rt: HostRuntime) {
    for (octets, form) in [
        (&FRAME[22..], &FRAME[22..]),
        (&LONG, &FRAME[22..]),
        (&SHORT, &FRAME[22..]),
        (&NESTED, &NESTED),
        (&LOOSE, &TIGHT),
    ] {
        assert!(rt; is_seen_as(octets, false, form), "{octets:?}");
        assert!(rt; is_seen_as(octets, true, form), "{octets:?}");
        assert!(rt; is_read_as(rt.alloc(), octets, form), "{octets:?}");
        assert!(rt; is_kept_as(rt.alloc(), octets, form), "{octets:?}");
    }
}

#[test]
fn the_written_form_is_measured_where_members_stand_in_theirs(rt: HostRuntime) -> Result<(), Fail> {
    for (octets, notes, length) in [
        (&FRAME[22..], true, Some(45)),
        (&LONG, true, Some(45)),
        (&SHORT, true, Some(45)),
        (&NESTED, true, Some(58)),
        (&LOOSE, true, None),
        (&TIGHT, true, Some(106)),
        (&FRAME[22..], false, None),
    ] {
        let view = noted(octets, 0, notes)?;
        assert!(rt; written_goose_length(&view) == length, "{octets:?}");
    }
    Ok(())
}

#[test]
fn a_pdu_fits_or_leaves_the_vector(rt: HostRuntime) {
    let mut short = ArrayVec::<u8, 45>::new();
    short.push(7);
    assert!(rt; put_read(&mut short, rt.alloc(), &FRAME, 22) == Some(Err(PutFault::Full)));
    assert!(rt; put_parts(&mut short, rt.alloc(), &FRAME, 22) == Some(Err(PutFault::Full)));
    assert!(rt; put_seen(&mut short, &FRAME, 22, false) == Some(Err(Full)));
    assert!(rt; short.as_slice() == [7].as_slice());
}

// How the APDU with this fraction of a second is put where there is no room, and whether it has a spelling.
fn judged_at(mut pdu: GoosePdu<Global>, fraction: u32) -> (Result<(), PutFault>, bool) {
    pdu.t.fraction = fraction;
    let mut none = ArrayVec::<u8, 0>::new();
    (put_goose(&mut none, &pdu), is_spellable(&pdu))
}

// The same of the nested one.
fn judged(alloc: Global, fraction: u32) -> Option<(Result<(), PutFault>, bool)> {
    match read_goose(alloc, &NESTED, 0, 58) {
        Ok(pdu) => Some(judged_at(pdu, fraction)),
        Err(_) => None,
    }
}

// Whether the goID of the APDU is I, and whether the APDU has a spelling with this gocbRef.
fn judged_with(mut pdu: GoosePdu<Global>, gocb_ref: Octets<Global>) -> (bool, bool) {
    let is_named = slice_if(&pdu.go_id) == Some(b"I".as_slice());
    pdu.gocb_ref = gocb_ref;
    (is_named, are_spellable_parts(&pdu.parts()))
}

#[test]
fn what_has_no_spelling_is_refused(rt: HostRuntime) -> Result<(), Fail> {
    assert!(rt; judged(rt.alloc(), 0x100_0000) == Some((Err(PutFault::NotSpellable), false)));
    assert!(rt; judged(rt.alloc(), 0xff_ffff) == Some((Err(PutFault::Full), true)));
    let odd = Octets::try_from_slice(rt.alloc(), b"A\x7f")?;
    assert!(rt; judged_with(read_goose(rt.alloc(), &NESTED, 0, 58)?, odd) == (true, false));
    Ok(())
}

#[test]
fn laws_hold() {
    laws::one_reading::<Global>();
    laws::written_is_spelled::<Global>();
    laws::spelled_is_spellable::<Global>();
    laws::seen_is_spelled::<Global>();
}
