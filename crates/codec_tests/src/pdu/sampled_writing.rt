//! Sampled Values written, from memory of their own and from where they stand.

use crate::pdu::sampled::{EIGHT, FULL, eight};
use arrayvec::ArrayVec;
use ber_core::Full;
use mms_data::{Octets, PutFault};
use pdu_core::{Asdu, AsduList, SvPdu, is_spellable_sv, put_sv, put_sv_view, read_sv, view_sv};
use std::alloc::{AllocError, Global};
use std::test::Fail;
use test_support::SAMPLED;

// How the APDU from this place on is put behind what the vector holds, from where it stands.
fn put_seen<const N: usize>(
    out: &mut ArrayVec<u8, N>,
    octets: &[u8],
    at: usize,
) -> Option<Result<(), Full>> {
    match view_sv(octets, at.min(octets.len()), octets.len()) {
        Ok(view) => Some(put_sv_view(out, &view)),
        Err(_) => None,
    }
}

// The same from memory of its own.
fn put_read<const N: usize>(
    out: &mut ArrayVec<u8, N>,
    alloc: Global,
    octets: &[u8],
    at: usize,
) -> Option<Result<(), PutFault>> {
    match read_sv(alloc, octets, at.min(octets.len()), octets.len()) {
        Ok(pdu) => Some(put_sv(out, &pdu)),
        Err(_) => None,
    }
}

// Whether the APDU that the octets spell has this written form, from where it stands.
fn is_seen_as(octets: &[u8], form: &[u8]) -> bool {
    let mut out = ArrayVec::<u8, 209>::new();
    put_seen(&mut out, octets, 0) == Some(Ok(())) && out.as_slice() == form
}

// The same from memory of its own.
fn is_read_as(alloc: Global, octets: &[u8], form: &[u8]) -> bool {
    let mut out = ArrayVec::<u8, 209>::new();
    put_read(&mut out, alloc, octets, 0) == Some(Ok(())) && out.as_slice() == form
}

#[test]
fn each_pdu_has_its_written_form(rt: HostRuntime) -> Result<(), Fail> {
    let long = [0x60, 0x82, 0, 0xd0, 0x80, 2, 0, 8, 0xa2, 0x82, 0, 0xc8];
    let (loose, tight) = (eight(&long)?, eight(&EIGHT)?);
    for (octets, form) in [
        (&SAMPLED[22..], &SAMPLED[22..]),
        (&FULL, &FULL),
        (loose.as_slice(), tight.as_slice()),
    ] {
        assert!(rt; is_seen_as(octets, form), "{octets:?}");
        assert!(rt; is_read_as(rt.alloc(), octets, form), "{octets:?}");
    }
    Ok(())
}

#[test]
fn a_pdu_fits_or_leaves_the_vector(rt: HostRuntime) {
    let mut short = ArrayVec::<u8, 32>::new();
    short.push(7);
    assert!(rt; put_read(&mut short, rt.alloc(), &SAMPLED, 22) == Some(Err(PutFault::Full)));
    assert!(rt; put_seen(&mut short, &SAMPLED, 22) == Some(Err(Full)));
    assert!(rt; short.as_slice() == [7].as_slice());
}

// These octets in memory of their own.
fn owned(alloc: Global, octets: &[u8]) -> Result<Octets<Global>, AllocError> {
    Octets::try_from_slice(alloc, octets)
}

// The recorded ASDU with this text, this sample and this smpMod.
fn recorded(sv_id: Octets<Global>, sample: Octets<Global>, mode: Octets<Global>) -> Asdu<Global> {
    Asdu {
        sv_id,
        dat_set: None,
        smp_cnt: 3998,
        conf_rev: 1,
        refr_tm: None,
        smp_synch: 2,
        smp_rate: None,
        sample,
        smp_mod: Some(mode),
        field_89: None,
    }
}

// An APDU of one ASDU with so many octets 00 of smpMod, at most 17.
fn with_mode(alloc: Global, count: usize) -> Result<SvPdu<Global>, AllocError> {
    let mode = owned(alloc, &[0; 17][..count.min(17)])?;
    let asdu = recorded(owned(alloc, b"S")?, owned(alloc, &[0x00, 0x2a])?, mode);
    let mut asdus = Vec::new(alloc);
    asdus.push(asdu)?;
    Ok(SvPdu {
        asdus: AsduList::from(asdus),
    })
}

// The written form of the APDU, if it has one and so many octets at most.
fn put_alone<const N: usize>(pdu: &SvPdu<Global>) -> Result<ArrayVec<u8, N>, PutFault> {
    let mut out = ArrayVec::new();
    put_sv(&mut out, pdu)?;
    Ok(out)
}

// Whether the APDU is judged to have a spelling, and whether it is written.
fn judged(pdu: SvPdu<Global>) -> (bool, bool) {
    (is_spellable_sv(&pdu), put_alone::<64>(&pdu).is_ok())
}

// Whether the APDU, of one ASDU, is written as the recorded one into the room that this needs.
fn is_recorded(pdu: SvPdu<Global>) -> bool {
    match put_alone::<32>(&pdu) {
        Ok(form) => form.as_slice() == &SAMPLED[22..] && pdu.asdus.into_vec().len() == 1,
        Err(_) => false,
    }
}

#[test]
fn what_has_no_spelling_is_refused(rt: HostRuntime) -> Result<(), Fail> {
    for (count, is_good) in [(0, false), (1, true), (16, true), (17, false)] {
        assert!(rt;
            judged(with_mode(rt.alloc(), count)?) == (is_good, is_good),
            "{count} octets"
        );
    }
    assert!(rt; is_recorded(with_mode(rt.alloc(), 1)?));
    let empty = AsduList::from(Vec::new(rt.alloc()));
    assert!(rt; put_alone::<0>(&SvPdu { asdus: empty }).err() == Some(PutFault::NotSpellable));
    Ok(())
}
