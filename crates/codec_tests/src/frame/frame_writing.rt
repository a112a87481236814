//! Frames in their written form.

use crate::frame::frames::{LONG, TAGGED, has_form};
use crate::frame::sampled_frames::{TAGGED_SAMPLED, of_eight};
use arrayvec::ArrayVec;
use ber_core::Full;
use frame_core::{
    Apdu, EncodeFault, Frame, GooseFrame, decode, encode, encode_goose, encode_view, see_frame,
    view_frame, written_length,
};
use mms_data::Octets;
use pdu_core::{AsduList, SvPdu};
use std::alloc::Global;
use std::process::Abort;
use std::test::Fail;
use test_support::{FRAME, SAMPLED};

/// Whether the view of these octets has this written form.
fn has_view_form(octets: &[u8], form: &[u8]) -> bool {
    let Ok(view) = view_frame(octets) else {
        return false;
    };
    let mut written = ArrayVec::<u8, 1600>::new();
    encode_view(&view, &mut written) == Ok(()) && written.as_slice() == form
}

/// Whether it is noted that these octets are their frame's written form.
fn is_noted(octets: &[u8]) -> bool {
    let Ok(view) = see_frame(octets, true) else {
        return false;
    };
    view.apdu.is_written()
}

/// How many octets the written form has, where this is known of what is noted.
fn noted_length(octets: &[u8]) -> Option<usize> {
    match see_frame(octets, true) {
        Ok(view) => written_length(&view),
        Err(_) => None,
    }
}

/// Whether these octets have this written form, as a frame and as a view.
fn have_form(alloc: Global, octets: &[u8], form: &[u8]) -> bool {
    has_form(alloc, octets, form) && has_view_form(octets, form)
}

#[test]
fn a_frame_has_one_written_form(rt: HostRuntime) {
    let eight = of_eight();
    assert!(rt; have_form(rt.alloc(), &LONG, &FRAME) && !is_noted(&LONG));
    for octets in [FRAME.as_slice(), &TAGGED, &SAMPLED, &TAGGED_SAMPLED, &eight] {
        assert!(rt;
            have_form(rt.alloc(), octets, octets) && is_noted(octets),
            "{octets:?}"
        );
    }
}

#[test]
fn the_written_form_is_measured(rt: HostRuntime) {
    for (octets, length) in [
        (FRAME.as_slice(), Some(67)),
        (&LONG, Some(67)),
        (&TAGGED, Some(TAGGED.len())),
        (&SAMPLED, None),
    ] {
        assert!(rt; noted_length(octets) == length, "{octets:?}");
    }
}

/// Whether the GOOSE frame has this written form where its APDU is kept elsewhere, without its trailer.
fn is_written_by_parts(frame: &Frame<Global>, form: &[u8]) -> bool {
    let Apdu::Goose(unit) = &frame.apdu else {
        return false;
    };
    let parts = GooseFrame {
        destination: frame.destination,
        source: frame.source,
        tag: frame.tag,
        app_id: frame.app_id,
        reserved1: frame.reserved1,
        reserved2: frame.reserved2,
        parts: unit.parts(),
    };
    match encode_goose(&parts) {
        Ok(written) => written.as_slice() == form,
        Err(_) => false,
    }
}

/// The same of the frame of these octets.
fn has_form_by_parts(alloc: Global, octets: &[u8], form: &[u8]) -> bool {
    match decode(alloc, octets) {
        Ok(frame) => is_written_by_parts(&frame, form),
        Err(_) => false,
    }
}

#[test]
fn a_frame_by_parts_has_the_same_form(rt: HostRuntime) {
    assert!(rt; has_form_by_parts(rt.alloc(), &LONG, &FRAME));
    assert!(rt; has_form_by_parts(rt.alloc(), &TAGGED, &TAGGED[..71]));
}

/// How the view of the frame of one boolean is written with this trailer: whether it is too long, and the size.
fn written_with(trailer: &[u8]) -> Option<(Result<(), Full>, usize)> {
    let Ok(mut view) = view_frame(&FRAME) else {
        return None;
    };
    view.trailer = trailer;
    let mut written = ArrayVec::<u8, 1600>::new();
    let answer = encode_view(&view, &mut written);
    Some((answer, written.len()))
}

#[test]
fn a_frame_that_is_seen_may_have_too_long_a_form(rt: HostRuntime) {
    let trailer = [0; 1534];
    assert!(rt; written_with(&trailer[..1533]) == Some((Ok(()), 1600)));
    assert!(rt; written_with(&trailer) == Some((Err(Full), 0)));
}

/// A frame of no ASDUs, with this trailer.
fn of_no_asdus(alloc: Global, trailer: Octets<Global>) -> Frame<Global> {
    Frame {
        destination: [0x01, 0x0c, 0xcd, 0x04, 0x00, 0x01],
        source: [0x02, 0x00, 0x00, 0x00, 0x00, 0x01],
        tag: None,
        app_id: 0x4000,
        reserved1: 0,
        reserved2: 0,
        apdu: Apdu::Sampled(SvPdu {
            asdus: AsduList::from(Vec::new(alloc)),
        }),
        trailer,
    }
}

#[test]
fn no_asdus_have_no_spelling(rt: HostRuntime) -> Result<(), Fail> {
    let trailer = Octets::try_from_slice(rt.alloc(), &[0; 1600])?;
    let empty = of_no_asdus(rt.alloc(), trailer);
    assert!(rt; encode(&empty).err() == Some(EncodeFault::NotSpellable));
    Ok(())
}
