//! The numbers of a capture, by the order of their octets.
ghost use Rattle.std.specs.Prelude.{◌≡◌, ◌+◌, ◌≤◌, length};
ghost use Rattle.capture_core.specs.Numbers.{number_at};

use crate::form::OctetOrder;
use byteorder::{BigEndian, ByteOrder, LittleEndian};

// The number of 16 bits at a place.
#[tactic(auto, unfolding(crate::specs::Numbers::number_at))]
pub(crate) fn short_at(order: OctetOrder, octets: &[u8], place: usize) -> u16
    requires { place + 2 ≤ length octets.now }
    ensures { result ≡ number_at order 2 octets.now place }
{
    match order {
        OctetOrder::BigEndian => BigEndian::read_u16(&octets[place..]),
        OctetOrder::LittleEndian => LittleEndian::read_u16(&octets[place..]),
    }
}

// The number of 32 bits at a place.
#[tactic(auto, unfolding(crate::specs::Numbers::number_at))]
pub(crate) fn long_at(order: OctetOrder, octets: &[u8], place: usize) -> u32
    requires { place + 4 ≤ length octets.now }
    ensures { result ≡ number_at order 4 octets.now place }
{
    match order {
        OctetOrder::BigEndian => BigEndian::read_u32(&octets[place..]),
        OctetOrder::LittleEndian => LittleEndian::read_u32(&octets[place..]),
    }
}

// The number of 64 bits at a place.
#[tactic(auto, unfolding(crate::specs::Numbers::number_at))]
pub(crate) fn double_at(order: OctetOrder, octets: &[u8], place: usize) -> u64
    requires { place + 8 ≤ length octets.now }
    ensures { result ≡ number_at order 8 octets.now place }
{
    match order {
        OctetOrder::BigEndian => BigEndian::read_u64(&octets[place..]),
        OctetOrder::LittleEndian => LittleEndian::read_u64(&octets[place..]),
    }
}
