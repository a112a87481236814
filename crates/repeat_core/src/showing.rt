//! The view of a frame that is noted.

ghost use Rattle.std.specs.Prelude.{◌≡◌, ◌≤◌, ◌+◌, length, slice_range, Bool, IfSome};
ghost use Rattle.mms_data.specs.Meaning.{left};
ghost use Rattle.mms_data.specs.Place.{IsPart, source_of};
ghost use Rattle.mms_data.specs.computed.Left.{AreMembers, data_in};
ghost use Rattle.pdu_core.specs.Views.{GooseIsPart, IsPartIf, octets_if, pdu_of};
ghost use Rattle.frame_core.specs.Envelope.{ether_place, word_at};
ghost use Rattle.frame_core.specs.FrameViews.{FrameIsPart, apdu_of, frame_of, is_written};
ghost use Rattle.frame_core.specs.Frame.{SpellsFrame};
ghost use Rattle.frame_core.specs.computed.FrameReading.{tag_at};
ghost use Rattle.frame_core.specs.declared.frame.Apdu.TheVariants.{Goose};
ghost use Rattle.repeat_core.specs.Noted.{IsPlaced, noted_pdu, part_if, part_of};
ghost use Rattle.repeat_core.specs.Standing.{HasMembers, Shows};

use crate::notes::{Notes, Part};
use byteorder::{BigEndian, ByteOrder};
use frame_core::{ApduView, FrameView, VlanTag};
use mms_data::{Members, members};
use pdu_core::GooseView;

// The word that announces a tag (IEEE 802.1Q).
const TAGGED: u16 = 0x8100;

// The word at a place.
#[inline(always)]
fn word(octets: &[u8], place: usize) -> u16
    requires { place + 2 ≤ length octets.now }
    ensures { result ≡ word_at octets.now place }
{
    BigEndian::read_u16(&octets[place..])
}

// The six octets of an address.
#[inline(always)]
fn address_at(octets: &[u8], place: usize) -> [u8; 6]
    requires { place + 6 ≤ length octets.now }
    ensures { result ≡ slice_range octets.now place (place + 6) }
{
    let mut address = [0; 6];
    address.copy_from_slice(&octets[place..place + 6]);
    address
}

// The tag, if one stands behind the addresses.
#[inline(always)]
fn tag(octets: &[u8]) -> Option<VlanTag>
    requires { ether_place octets.now + 2 ≤ length octets.now }
    ensures { result ≡ tag_at octets.now }
{
    if word(octets, 12) == TAGGED {
        Some(VlanTag {
            control: word(octets, 14),
        })
    } else {
        None
    }
}

#[inline(always)]
fn octets_of<'a>(octets: &'a [u8], part: &Part) -> &'a [u8]
    requires ordered { part.now.from ≤ part.now.to }
    requires inside { part.now.to ≤ length octets.now }
    ensures value { result.now ≡ part_of octets.now part.now }
    ensures part { IsPart result octets.entry }
{
    &octets[part.from..part.to]
}

#[inline(always)]
fn octets_there<'a>(there: bool, octets: &'a [u8], part: &Part) -> Option<&'a [u8]>
    requires ordered { part.now.from ≤ part.now.to }
    requires inside { part.now.to ≤ length octets.now }
    ensures value { octets_if result ≡ part_if there octets.now part.now }
    ensures part { IsPartIf result octets.entry }
{
    if there {
        Some(octets_of(octets, part))
    } else {
        None
    }
}

// The members that are known to stand here.
#[inline(always)]
fn known_members<'a>(octets: &'a [u8], part: &Part) -> Members<'a>
    requires ordered { part.now.from ≤ part.now.to }
    requires inside { part.now.to ≤ length octets.now }
    requires spelled { AreMembers 16 (part_of octets.now part.now) }
    ensures value { left result ≡ data_in 16 (part_of octets.now part.now) }
    ensures part { IsPart (source_of result) octets.entry }
{
    members(octets, part.from, part.to, 1)
}

// The APDU that is noted of these octets, with these numbers.
#[inline(always)]
fn noted_goose<'a>(
    octets: &'a [u8],
    notes: &Notes,
    live: u32,
    sq_num: u32,
    written: bool,
) -> GooseView<'a>
    requires placed { IsPlaced (length octets.now) notes.now }
    requires members { HasMembers octets.now notes.now }
    ensures value { pdu_of {A = Unit {0}} result ≡ noted_pdu octets.now notes.now live sq_num }
    ensures parts { GooseIsPart result octets.entry }
    ensures written { result.written ≡ written }
{
    GooseView {
        gocb_ref: octets_of(octets, &notes.gocb_ref),
        live,
        dat_set: octets_of(octets, &notes.dat_set),
        go_id: octets_there(notes.has_go_id, octets, &notes.go_id),
        t: notes.t,
        st_num: notes.st_num,
        sq_num,
        simulation: notes.simulation,
        conf_rev: notes.conf_rev,
        nds_com: notes.nds_com,
        entries: notes.entries,
        members: known_members(octets, &notes.members),
        written,
    }
}

/// The frame that is noted of these octets, with these numbers as timeAllowedtoLive and sqNum.
#[inline(always)]
pub(crate) fn noted_frame<'a>(
    octets: &'a [u8],
    notes: &Notes,
    live: u32,
    sq_num: u32,
    written: bool,
) -> FrameView<'a>
    requires { Shows octets.now notes.now live sq_num }
    ensures found { SpellsFrame {A = Unit {0}} (frame_of result) octets.now }
    ensures apdu { apdu_of {A = Unit {0}} result.apdu ≡ Goose (noted_pdu octets.now notes.now live sq_num) }
    ensures parts { FrameIsPart result octets.entry }
    ensures written { is_written result.apdu ≡ written }
{
    let place = notes.ether_type;
    FrameView {
        destination: address_at(octets, 0),
        source: address_at(octets, 6),
        tag: tag(octets),
        app_id: word(octets, place + 2),
        reserved1: word(octets, place + 6),
        reserved2: word(octets, place + 8),
        apdu: ApduView::Goose(noted_goose(octets, notes, live, sq_num, written)),
        trailer: &octets[notes.end..],
    }
}
