//! Frames that a source has at hand as wholes: each is judged where it stands, and copied once.
ghost use Rattle.std.specs.Prelude.{◌≡◌, IfSome, None};
ghost use Rattle.list_core.specs.declared.device.InputEnd.{InputEnd};
ghost use Rattle.capture_core.specs.computed.AtHand.{GivesFrame, GivesRecord, IsFrameAhead};
ghost use Rattle.capture_core.specs.computed.Sections.{settled};

use crate::block::is_bad_length;
use crate::body::{ENHANCED, ETHERNET, memory_of};
use crate::form::{CaptureForm, OctetOrder};
use crate::numbers::long_at;
use crate::packet_block::{LONGEST_PACKET, PacketBlock, Section, judge_packet};
use crate::record::moment_in;
use ber_core::Octets;
use list_core::{Event, EventKind, Source};
use std::alloc::Allocator;

/// The least total length of an enhanced packet block (draft-ietf-opsawg-pcapng, 4.3).
const LEAST: u32 = 32;

/// A frame in a block that is at hand.
#[derive(Clone, Copy)]
pub(crate) struct FrameAhead<'a> {
    /// When it was captured, in microseconds.
    pub moment: u64,
    /// Its octets.
    pub octets: &'a [u8],
    /// The total length of its block.
    pub total: usize,
}

// The frame of the block that comes first of these octets, where that is an enhanced packet block from Ethernet, they have all of it, and nothing
// is wrong with it.
#[inline(always)]
fn frame_ahead<'a>(section: Section, ahead: &'a [u8]) -> Option<FrameAhead<'a>>
    ensures { IfSome result (λ f. IsFrameAhead (settled section.entry) ahead.now f) }
{
    let Some((head, behind)) = ahead.split_first_chunk::<8>() else {
        return None;
    };
    let total = long_at(section.order, head, 4);
    if long_at(section.order, head, 0) != ENHANCED || is_bad_length(LEAST, total) {
        return None;
    }
    let total = total as usize;
    let Some(rest) = behind.get(..total - 8) else {
        return None;
    };
    let (body, end) = rest.split_at(total - 12);
    let (front, captured) = body.split_at(20);
    match judge_packet(PacketBlock::Enhanced, section, front, body.len()) {
        Ok(found)
            if found.link_type == ETHERNET
                && found.size > 0
                && long_at(section.order, end, 0) as usize == total => {
            Some(FrameAhead {
                moment: found.moment,
                octets: &captured[..found.size],
                total,
            })
        }
        _ => None,
    }
}

// The same, where each order has code of its own, which does not ask for it at each number.
#[inline(always)]
fn frame_by_order<'a>(section: Section, ahead: &'a [u8]) -> Option<FrameAhead<'a>>
    ensures { IfSome result (λ f. IsFrameAhead (settled section.entry) ahead.now f) }
{
    let order = section.order;
    match order {
        OctetOrder::LittleEndian => {
            let order = OctetOrder::LittleEndian;
            frame_ahead(Section { order, ..section }, ahead)
        }
        OctetOrder::BigEndian => {
            let order = OctetOrder::BigEndian;
            frame_ahead(Section { order, ..section }, ahead)
        }
    }
}

// A copy of octets in the memory of a spare event, if there is memory for it.
#[inline(always)]
fn copied<A: Allocator + Copy>(
    alloc: A,
    spare: &mut Option<Event<A>>,
    octets: &[u8],
) -> Option<Vec<u8, A>>
    ensures { IfSome result (λ m. m.items ≡ octets.now) }
{
    let mut memory = memory_of(alloc, spare);
    memory.clear();
    match memory.extend_from_slice(octets) {
        Ok(()) => Some(memory),
        Err(_) => None,
    }
}

// Reads a block where it is at hand and a frame, and answers its event. Where it does not, nothing was read.
#[inline(always)]
pub(crate) fn take_frame<R: Source, A: Allocator + Copy>(
    reader: &mut R,
    alloc: A,
    spare: &mut Option<Event<A>>,
    section: Section,
) -> Option<Event<A>>
    requires open { R.ending reader.old ≡ InputEnd.Open }
    ensures taken { IfSome result (λ e. GivesFrame (settled section.entry) (R.left reader.old) e (R.left reader.new)) }
    ensures kept { result ≡ None → R.left reader.new ≡ R.left reader.old }
    ensures ending { R.ending reader.new ≡ R.ending reader.old }
{
    let Some(frame) = frame_by_order(section, reader.at_hand()) else {
        return None;
    };
    let FrameAhead {
        moment,
        octets,
        total,
    } = frame;
    let Some(memory) = copied(alloc, spare, octets) else {
        return None;
    };
    if !reader.take_at_hand(total) {
        return None;
    }
    Some(Event {
        moment,
        kind: EventKind::Frame(Octets::from(memory)),
    })
}

// Reads a record where it is at hand and a frame, and answers its event. Where it does not, nothing was read.
#[inline(always)]
pub(crate) fn take_record<R: Source, A: Allocator + Copy>(
    reader: &mut R,
    alloc: A,
    spare: &mut Option<Event<A>>,
    form: CaptureForm,
) -> Option<Event<A>>
    requires open { R.ending reader.old ≡ InputEnd.Open }
    ensures taken { IfSome result (λ e. GivesRecord form (R.left reader.old) e (R.left reader.new)) }
    ensures kept { result ≡ None → R.left reader.new ≡ R.left reader.old }
    ensures ending { R.ending reader.new ≡ R.ending reader.old }
{
    let Some((head, behind)) = reader.at_hand().split_first_chunk::<16>() else {
        return None;
    };
    let moment = moment_in(form, head);
    let size = long_at(form.order, head, 8) as usize;
    if size == 0 || size > LONGEST_PACKET {
        return None;
    }
    let Some(octets) = behind.get(..size) else {
        return None;
    };
    let Some(memory) = copied(alloc, spare, octets) else {
        return None;
    };
    if !reader.take_at_hand(16 + size) {
        return None;
    }
    Some(Event {
        moment,
        kind: EventKind::Frame(Octets::from(memory)),
    })
}
