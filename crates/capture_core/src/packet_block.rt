//! The blocks of packets: what stands before the captured octets.
ghost use Rattle.std.specs.Prelude.{◌≡◌, ◌≤◌, ◌<◌, ◌*◌, ◌+◌, ◌^◌, length, slice_get, IfOk};
ghost use Rattle.capture_core.specs.Interfaces.{padded};
ghost use Rattle.capture_core.specs.Blocks.{captured_length, head_on, head_size, interface_number, packet_head, packet_moment, ticks_in, within_snapshot};
ghost use Rattle.capture_core.specs.computed.Sections.{settled};

use crate::capture_fault::CaptureCause;
use crate::form::OctetOrder;
use crate::interface::{Interface, moment_after};
use crate::numbers::{long_at, short_at};

/// A kind of block that holds a packet (draft-ietf-opsawg-pcapng).
#[derive(Clone, Copy)]
pub(crate) enum PacketBlock {
    /// Enhanced packet block, type 6 (4.3).
    Enhanced,
    /// Packet block, type 2, obsolete (A).
    Obsolete,
    /// Simple packet block, type 3 (4.4).
    Simple,
}

/// What the blocks before a block have settled.
#[derive(Clone, Copy)]
pub(crate) struct Section<'a> {
    /// The order of the octets of the section's numbers.
    pub order: OctetOrder,
    /// The interfaces that were described in the section.
    pub interfaces: &'a [Interface],
    /// The moment of the last packet, in microseconds.
    pub moment: u64,
}

/// What stands before the captured octets says of a packet.
#[derive(Clone, Copy)]
pub(crate) struct PacketHead {
    /// When it was captured, in microseconds.
    pub moment: u64,
    /// The type of its link.
    pub link_type: u16,
    /// How many octets were captured.
    pub size: usize,
}

/// The most captured octets of a packet.
pub(crate) const LONGEST_PACKET: usize = 262_144;

// How many octets these are with their padding, a multiple of 4.
pub(crate) fn padded(size: usize) -> usize
    requires { size < 2 ^ 32 }
    ensures { result ≡ padded size }
{
    (size + 3) / 4 * 4
}

// How many octets stand before the captured ones.
pub(crate) fn head_size(kind: PacketBlock) -> usize
    ensures value { result ≡ head_size kind }
    ensures short { (4 ≤ result) × (result ≤ 20) }
{
    match kind {
        PacketBlock::Enhanced => 20,
        PacketBlock::Obsolete => 20,
        PacketBlock::Simple => 4,
    }
}

// The interface of a packet.
fn interface_of(kind: PacketBlock, section: Section, head: &[u8]) -> Option<Interface>
    requires { head_size kind ≤ length head.now }
    ensures { result ≡ slice_get (settled section.entry).interfaces (interface_number kind section.entry.order head.now) }
{
    let number = match kind {
        PacketBlock::Enhanced => long_at(section.order, head, 0) as usize,
        PacketBlock::Obsolete => short_at(section.order, head, 0) as usize,
        PacketBlock::Simple => 0,
    };
    section.interfaces.get(number).copied()
}

// How many octets of a packet were captured.
fn captured_length(kind: PacketBlock, order: OctetOrder, interface: Interface, head: &[u8]) -> u32
    requires { head_size kind ≤ length head.now }
    ensures { result ≡ captured_length kind order interface head.now }
{
    match kind {
        PacketBlock::Enhanced => long_at(order, head, 12),
        PacketBlock::Obsolete => long_at(order, head, 12),
        PacketBlock::Simple => within_snapshot(interface.snapshot_length, long_at(order, head, 0)),
    }
}

// A length, or the snapshot length where there is one and it is less.
fn within_snapshot(snapshot: u32, size: u32) -> u32
    ensures { result ≡ within_snapshot snapshot size }
{
    if snapshot == 0 {
        size
    } else {
        snapshot.min(size)
    }
}

// The ticks of a packet.
fn ticks_in(order: OctetOrder, head: &[u8]) -> u64
    requires { 20 ≤ length head.now }
    ensures { result ≡ ticks_in order head.now }
{
    let high = long_at(order, head, 4) as u64;
    let low = long_at(order, head, 8) as u64;
    high * (1 << 32) + low
}

// The moment of a packet.
#[inline(always)]
fn packet_moment(
    kind: PacketBlock,
    section: Section,
    interface: Interface,
    head: &[u8],
) -> Option<u64>
    requires { head_size kind ≤ length head.now }
    ensures { result ≡ packet_moment kind (settled section.entry) interface head.now }
{
    match kind {
        PacketBlock::Enhanced => moment_after(&interface, ticks_in(section.order, head)),
        PacketBlock::Obsolete => moment_after(&interface, ticks_in(section.order, head)),
        PacketBlock::Simple => Some(section.moment),
    }
}

// Judges what stands before the captured octets, in a body of so many octets. Inlined, since each packet is judged.
#[inline(always)]
pub(crate) fn judge_packet(
    kind: PacketBlock,
    section: Section,
    head: &[u8],
    size: usize,
) -> Result<PacketHead, CaptureCause>
    requires head { length head.now ≡ head_size kind }
    requires within { head_size kind ≤ size }
    ensures value { result ≡ packet_head kind (settled section.entry) head.now size }
    ensures fits { IfOk result (λ h. (h.size ≤ 262144) × (head_size kind + padded h.size ≤ size)) }
{
    let Some(interface) = interface_of(kind, section, head) else {
        return Err(CaptureCause::Interface);
    };
    let captured = captured_length(kind, section.order, interface, head) as usize;
    if captured > LONGEST_PACKET {
        return Err(CaptureCause::RecordLength);
    }
    if size < head_size(kind) + padded(captured) {
        return Err(CaptureCause::BlockForm);
    }
    match packet_moment(kind, section, interface, head) {
        Some(moment) => Ok(PacketHead {
            moment,
            link_type: interface.link_type,
            size: captured,
        }),
        None => Err(CaptureCause::PacketTime),
    }
}
