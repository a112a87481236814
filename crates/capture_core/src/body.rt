//! The bodies of blocks: each is read once, and only a frame of it is held.
ghost use Rattle.std.specs.Prelude.{◌≡◌, ◌==◌, ◌≤◌, ◌<◌, ◌-◌, []};
ghost use Rattle.capture_core.specs.Numbers.{number_at};
ghost use Rattle.capture_core.specs.Packets.{event_of};
ghost use Rattle.capture_core.specs.Blocks.{body_said, packet_in, head_size};
ghost use Rattle.capture_core.specs.computed.Filling.{ReadsKept, ReadsPart};
ghost use Rattle.capture_core.specs.computed.Sections.{IsCaptured, IsFrameHead, IsSaidAs, TellsFrame, TellsFrameOf, block_rest, settled};

use crate::capture_fault::CaptureCause;
use crate::filling::{Short, Unread, pass, take};
use crate::form::OctetOrder;
use crate::interface::Interface;
use crate::numbers::long_at;
use crate::options::read_interface;
use crate::packet_block::{PacketBlock, PacketHead, Section, head_size, judge_packet};
use ber_core::Octets;
use list_core::{Event, EventKind, Source};
use std::alloc::Allocator;

/// The most interfaces of a section.
const MOST_INTERFACES: usize = 65_536;

/// The link type of Ethernet.
pub(crate) const ETHERNET: u16 = 1;

/// The type of an enhanced packet block.
pub(crate) const ENHANCED: u32 = 6;

/// What a block says.
#[derive(Drop)]
pub(crate) enum Said<A: Allocator> {
    /// A section begins, whose numbers have this order.
    Begins(OctetOrder),
    /// The section has this interface.
    Describes(Interface),
    /// A packet was captured on Ethernet, which is this event.
    Captures(Event<A>),
    /// A packet was captured at this moment on a link of this type, which is not Ethernet.
    CapturesOther { moment: u64, link_type: u16 },
    /// Nothing that is looked at.
    Passes,
}

// Memory for octets: that of a spare event, if it has some.
#[inline(always)]
pub(crate) fn memory_of<A: Allocator>(alloc: A, spare: &mut Option<Event<A>>) -> Vec<u8, A> {
    match spare.take() {
        Some(
            Event {
                moment: _,
                kind: EventKind::Frame(octets),
            },
        ) => octets.into_vec(),
        _ => Vec::new(alloc),
    }
}

// Reads so many octets to the front of this memory, and nothing else is left in it.
fn read_octets<R: Source, A: Allocator>(
    reader: &mut R,
    memory: Vec<u8, A>,
    size: usize,
) -> Result<Vec<u8, A>, Unread>
    ensures { ReadsKept (λ r octets. r.items ≡ octets) (λ given. given ≡ []) size (R.left reader.old) (R.ending reader.old) result (R.left reader.new) (R.ending reader.new) }
{
    let mut octets = memory;
    match octets.resize(size, 0) {
        Ok(()) => {}
        Err(error) => return Err(Unread::Memory(error)),
    }
    take(reader, octets.as_mut_slice())?;
    Ok(octets)
}

// Reads the captured octets of a packet on Ethernet, and answers its event, which has the octets if there are any.
pub(crate) fn read_event<R: Source, A: Allocator + Copy>(
    reader: &mut R,
    alloc: A,
    spare: &mut Option<Event<A>>,
    moment: u64,
    size: usize,
) -> Result<Event<A>, Unread>
    ensures { ReadsKept (λ e octets. e ≡ event_of (record { moment = moment; link_type = 1; octets = octets })) (λ given. (given ≡ []) × (0 < size))
        size (R.left reader.old) (R.ending reader.old) result (R.left reader.new) (R.ending reader.new) }
{
    if size == 0 {
        return Ok(Event {
            moment,
            kind: EventKind::Clock,
        });
    }
    let octets = read_octets(reader, memory_of(alloc, spare), size)?;
    Ok(Event {
        moment,
        kind: EventKind::Frame(Octets::from(octets)),
    })
}

// Reads the captured octets of a packet, and answers what its block says. Inlined, so that an event is not moved for it.
#[inline(always)]
fn read_captured<R: Source, A: Allocator + Copy>(
    reader: &mut R,
    alloc: A,
    spare: &mut Option<Event<A>>,
    head: PacketHead,
) -> Result<Said<A>, Unread>
    ensures { ReadsKept (λ said octets. IsCaptured said (record { moment = head.moment; link_type = head.link_type; octets = octets })) (λ given. (given ≡ []) × IsFrameHead head)
        head.size (R.left reader.old) (R.ending reader.old) result (R.left reader.new) (R.ending reader.new) }
{
    let moment = head.moment;
    let link_type = head.link_type;
    if link_type != ETHERNET {
        pass(reader, head.size)?;
        return Ok(Said::CapturesOther { moment, link_type });
    }
    let event = read_event(reader, alloc, spare, moment, head.size)?;
    Ok(Said::Captures(event))
}

// Reads the body of a packet block.
fn read_packet<R: Source, A: Allocator + Copy>(
    reader: &mut R,
    alloc: A,
    spare: &mut Option<Event<A>>,
    section: Section,
    kind: PacketBlock,
    size: usize,
) -> Result<Result<Said<A>, CaptureCause>, Unread>
    ensures { ReadsKept (λ r body. IsSaidAs r (packet_in kind (settled section.entry) body)) (TellsFrame (settled section.entry) kind size)
        size (R.left reader.old) (R.ending reader.old) result (R.left reader.new) (R.ending reader.new) }
{
    let before = head_size(kind);
    if size < before {
        pass(reader, size)?;
        return Ok(Err(CaptureCause::BlockForm));
    }
    let mut buffer = [0u8; 20];
    let head = &mut buffer[..before];
    take(reader, head)?;
    match judge_packet(kind, section, head, size) {
        Ok(found) => {
            let said = read_captured(reader, alloc, spare, found)?;
            pass(reader, size - before - found.size)?;
            Ok(Ok(said))
        }
        Err(cause) => {
            pass(reader, size - before)?;
            Ok(Err(cause))
        }
    }
}

// Reads the body of a block of this type, a section header aside.
fn read_body<R: Source, A: Allocator + Copy>(
    reader: &mut R,
    alloc: A,
    spare: &mut Option<Event<A>>,
    section: Section,
    kind: u32,
    size: usize,
) -> Result<Result<Said<A>, CaptureCause>, Unread>
    ensures { ReadsKept (λ r body. IsSaidAs r (body_said (settled section.entry) kind body)) (TellsFrameOf (settled section.entry) kind size) size (R.left reader.old) (R.ending reader.old) result (R.left reader.new) (R.ending reader.new) }
{
    let kind = match kind {
        1 => {
            return match read_interface(reader, section.order, size)? {
                Some(interface) if section.interfaces.len() < MOST_INTERFACES => {
                    Ok(Ok(Said::Describes(interface)))
                }
                _ => Ok(Err(CaptureCause::BlockForm)),
            };
        }
        2 => PacketBlock::Obsolete,
        3 => PacketBlock::Simple,
        ENHANCED => PacketBlock::Enhanced,
        _ => {
            pass(reader, size)?;
            return Ok(Ok(Said::Passes));
        }
    };
    read_packet(reader, alloc, spare, section, kind, size)
}

// Reads the total length behind a body, and answers whether it is this one.
pub(crate) fn read_end<R: Source>(
    reader: &mut R,
    order: OctetOrder,
    total: u32,
) -> Result<bool, Short>
    ensures { ReadsPart (λ r octets. r ≡ (number_at order 4 octets 0 == total)) 4 (R.left reader.old) (R.ending reader.old) result (R.left reader.new) (R.ending reader.new) }
{
    let mut end = [0u8; 4];
    take(reader, &mut end)?;
    Ok(long_at(order, &end, 0) == total)
}

// Reads what follows the first eight octets of a block, a section header aside.
pub(crate) fn read_rest<R: Source, A: Allocator + Copy>(
    reader: &mut R,
    alloc: A,
    spare: &mut Option<Event<A>>,
    section: Section,
    kind: u32,
    total: u32,
) -> Result<Result<Said<A>, CaptureCause>, Unread>
    requires { 12 ≤ total }
    ensures { ReadsKept (λ r rest. IsSaidAs r (block_rest section.entry.order total rest (body_said (settled section.entry) kind))) (TellsFrameOf (settled section.entry) kind (total - 12))
        (total - 8) (R.left reader.old) (R.ending reader.old) result (R.left reader.new) (R.ending reader.new) }
{
    let said = read_body(reader, alloc, spare, section, kind, total as usize - 12)?;
    if read_end(reader, section.order, total)? {
        Ok(said)
    } else {
        Ok(Err(CaptureCause::BlockLength))
    }
}
