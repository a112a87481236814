//! Frames that are read, and the first fault of those that are not.

use crate::frame::frames::{LONG, TAGGED, changed, has_fault, read, seen};
use crate::frame::sampled_frames::{TAGGED_SAMPLED, changed_sampled, of_eight};
use ber_core::Cause;
use frame_core::{ApduView, FrameView, VlanTag, laws, view_frame};
use pdu_core::{AsduView, GooseView, SvView};
use std::alloc::Global;
use std::process::Abort;
use test_support::{FRAME, SAMPLED};

/// Whether the view has this tag and trailer, and the reserved fields and the source of the worked frames.
fn has_envelope(view: &FrameView<'_>, tag: Option<VlanTag>, trailer: &[u8]) -> bool {
    view.source == [0x02, 0x00, 0x00, 0x00, 0x00, 0x01]
        && view.tag == tag
        && (view.reserved1, view.reserved2) == (0, 0)
        && view.trailer == trailer
}

/// Whether the APDU is that of one boolean.
fn is_worked(goose: &GooseView<'_>) -> bool {
    goose.gocb_ref == b"G".as_slice()
        && goose.live == 2000
        && goose.dat_set == b"D".as_slice()
        && (goose.st_num, goose.sq_num) == (1, 0)
        && goose.entries == 1
}

/// Whether the view of these octets is of the frame of one boolean, with this tag and trailer.
fn is_seen(octets: &[u8], tag: Option<VlanTag>, trailer: &[u8]) -> bool {
    let Ok(view) = view_frame(octets) else {
        return false;
    };
    has_envelope(&view, tag, trailer)
        && view.destination == [0x01, 0x0c, 0xcd, 0x01, 0x00, 0x01]
        && view.app_id == 1
        && match &view.apdu {
            ApduView::Goose(goose) => is_worked(goose),
            ApduView::Sampled(_) => false,
        }
}

const PRIORITY_4: Option<VlanTag> = Some(VlanTag { control: 0x8000 });

#[test]
fn a_frame_is_seen(rt: HostRuntime) {
    for (octets, tag, trailer) in [
        (FRAME.as_slice(), None, b"".as_slice()),
        (&LONG, None, b""),
        (&TAGGED, PRIORITY_4, &[0; 4]),
    ] {
        assert!(rt; is_seen(octets, tag, trailer), "{octets:?}");
    }
}

/// Whether the ASDU is that of the worked frame.
fn is_worked_asdu(asdu: &AsduView<'_>) -> bool {
    asdu.sv_id == b"S".as_slice()
        && asdu.dat_set.is_none()
        && (asdu.smp_cnt, asdu.conf_rev, asdu.smp_synch) == (3998, 1, 2)
        && asdu.sample == [0x00, 0x2a].as_slice()
        && asdu.smp_mod == Some([0x00].as_slice())
}

/// Whether there are so many ASDUs, each that of the worked frame.
fn are_worked_asdus(apdu: &SvView<'_>, count: u16) -> bool {
    let mut asdus = apdu.asdus;
    for _ in 0..count {
        match asdus.next() {
            Some(asdu) if is_worked_asdu(&asdu) => {}
            _ => return false,
        }
    }
    apdu.count == count && asdus.next().is_none()
}

/// Whether the view of these octets is of a frame of so many such ASDUs, with this tag and trailer.
fn is_sampled_seen(octets: &[u8], count: u16, tag: Option<VlanTag>, trailer: &[u8]) -> bool {
    let Ok(view) = view_frame(octets) else {
        return false;
    };
    has_envelope(&view, tag, trailer)
        && view.destination == [0x01, 0x0c, 0xcd, 0x04, 0x00, 0x01]
        && view.app_id == 0x4000
        && match &view.apdu {
            ApduView::Sampled(apdu) => are_worked_asdus(apdu, count),
            ApduView::Goose(_) => false,
        }
}

#[test]
fn sampled_values_are_seen(rt: HostRuntime) {
    let eight = of_eight();
    for (octets, count, tag, trailer) in [
        (SAMPLED.as_slice(), 1u16, None, b"".as_slice()),
        (&eight, 8, None, b""),
        (&TAGGED_SAMPLED, 1, PRIORITY_4, &[0; 4]),
    ] {
        assert!(rt; is_sampled_seen(octets, count, tag, trailer), "{octets:?}");
    }
}

#[test]
fn a_tag_has_three_parts(rt: HostRuntime) {
    for (control, priority, is_drop_eligible, vlan) in [
        (0x8000u16, 4u8, false, 0u16),
        (0xb123, 5, true, 0x123),
    ] {
        let tag = VlanTag { control };
        assert!(rt; tag.priority() == priority);
        assert!(rt; tag.drop_eligible() == is_drop_eligible);
        assert!(rt; tag.vlan() == vlan);
    }
}

/// Whether so many octets from the front are told to be cut off at their end.
fn is_truncated_at(alloc: Global, octets: &[u8], size: usize) -> bool {
    match octets.get(..size) {
        Some(front) => has_fault(alloc, front, size, Cause::Truncated),
        None => false,
    }
}

#[test]
fn a_cut_frame_is_truncated(rt: HostRuntime) {
    let eight = of_eight();
    for (octets, whole) in [
        (FRAME.as_slice(), 67usize),
        (&TAGGED, 71),
        (&SAMPLED, 54),
        (&TAGGED_SAMPLED, 58),
        (&eight, 231),
    ] {
        for size in 0..whole {
            assert!(rt;
                is_truncated_at(rt.alloc(), octets, size),
                "{size} of {whole}"
            );
        }
    }
}

#[test]
fn each_cause_stands_at_its_place(rt: HostRuntime) {
    for (place, octet, told, cause) in [
        (24usize, 0x9fu8, 24usize, Cause::HighTag),
        (23, 0x80, 23, Cause::Indefinite),
        (23, 0x85, 23, Cause::LengthForm),
        (23, 0x2c, 23, Cause::LengthPastEnd),
        (45, 0, 45, Cause::IntegerLength),
        (22, 0x60, 22, Cause::UnexpectedTag),
        (51, 2, 51, Cause::BooleanLength),
        (46, 0xff, 46, Cause::IntegerRange),
        (35, 7, 35, Cause::FixedLength),
        (26, 7, 26, Cause::NotVisible),
        (61, 2, 59, Cause::EntryCount),
        (64, 0x84, 66, Cause::BitUnused),
        (13, 0xb9, 12, Cause::EtherType),
        (13, 0xba, 22, Cause::UnexpectedTag),
        (17, 7, 16, Cause::LengthField),
        (17, 0x36, 67, Cause::Truncated),
    ] {
        let octets = changed(place, octet);
        assert!(rt;
            has_fault(rt.alloc(), &octets, told, cause),
            "{octet} at {place}"
        );
    }
}

#[test]
fn each_cause_stands_at_its_place_in_sampled_values(rt: HostRuntime) {
    for (place, octet, told, cause) in [
        (26usize, 2u8, 24usize, Cause::AsduCount),
        (26, 0, 26, Cause::IntegerRange),
        (29, 0x31, 29, Cause::UnexpectedTag),
        (35, 3, 35, Cause::FixedLength),
        (13, 0xb9, 12, Cause::EtherType),
        (13, 0xb8, 22, Cause::UnexpectedTag),
    ] {
        let octets = changed_sampled(place, octet);
        assert!(rt;
            has_fault(rt.alloc(), &octets, told, cause),
            "{octet} at {place}"
        );
    }
}

#[test]
fn a_frame_has_1600_octets_at_most(rt: HostRuntime) {
    let mut octets = [0; 1601];
    octets[..67].copy_from_slice(&FRAME);
    assert!(rt; seen(&octets[..1600]) == Ok(()));
    assert!(rt; read(rt.alloc(), &octets[..1600]) == Ok(()));
    assert!(rt; has_fault(rt.alloc(), &octets, 1600, Cause::FrameTooLong));
}

#[test]
fn laws_hold() {
    laws::one_reading::<Global>();
    laws::reading_tells::<Global>();
    laws::written_is_spelled::<Global>();
    laws::spelled_is_spellable::<Global>();
    laws::parts_make_the_control();
    laws::written_event_reads_back::<Global>();
    laws::stops_tell_the_ending::<u8, u8, u8>();
    laws::a_line_says_what_it_spells::<Global>();
}
