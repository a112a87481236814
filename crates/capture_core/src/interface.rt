//! Interfaces of a section, and the moments of their packets.
ghost use Rattle.std.specs.Prelude.{◌≡◌, ◌<◌, ◌≤◌, ◌*◌, ◌/◌, ◌^◌, IfSome};
ghost use Rattle.capture_core.specs.Interfaces.{moment_after, seconds_back, seconds_forth, units_of};

/// An interface of a section, as its description block has it (draft-ietf-opsawg-pcapng, 4.2).
#[derive(Clone, Copy)]
pub(crate) struct Interface {
    /// The type of its link; 1 is Ethernet.
    pub link_type: u16,
    /// The most octets that are captured of a packet, 0 where none is stated.
    pub snapshot_length: u32,
    /// The unit of its ticks: below 128 that power of ten to a second, from 128 on a power of two.
    pub resolution: u8,
    /// The seconds that are added to its times, in two's complement.
    pub offset: u64,
}

/// The greatest moment of a packet.
const LAST_MOMENT: u64 = 999_999_999_999_999_999;

/// The resolution of microseconds, and that of nanoseconds.
pub(crate) const MICROSECONDS: u8 = 6;

const NANOSECONDS: u8 = 9;

/// The least resolution that is a power of two.
const POWERS_OF_TWO: u8 = 128;

/// The greatest power of ten by which the most microseconds give more than 0.
const MOST_TENS: u8 = 25;

// Microseconds of ticks, rounded down.
fn microseconds_of(resolution: u8, ticks: u64) -> u128
    ensures value { result ≡ ticks * 1000000 / units_of resolution }
    ensures short { result < 2 ^ 84 }
{
    match resolution {
        MICROSECONDS => u128::from(ticks),
        NANOSECONDS => u128::from(ticks / 1000),
        _ => rounded_down(resolution, u128::from(ticks) * 1_000_000),
    }
}

// So many microseconds over the ticks of a second, rounded down.
fn rounded_down(resolution: u8, fine: u128) -> u128
    requires { fine < 2 ^ 84 }
    ensures value { result ≡ fine / units_of resolution }
    ensures short { result < 2 ^ 84 }
{
    if resolution >= POWERS_OF_TWO {
        fine >> (resolution - POWERS_OF_TWO)
    } else if resolution <= MOST_TENS {
        fine / 10u128.pow(u32::from(resolution))
    } else {
        0
    }
}

// The microseconds that an offset adds, and those that it takes away.
fn offset_of(offset: u64) -> (u128, u128)
    ensures forth { result.0 ≡ 1000000 * seconds_forth offset }
    ensures back { result.1 ≡ 1000000 * seconds_back offset }
    ensures short { (result.0 < 2 ^ 84) × (result.1 < 2 ^ 84) }
{
    if offset < 1 << 63 {
        (u128::from(offset) * 1_000_000, 0)
    } else {
        (0, (u128::from(u64::MAX - offset) + 1) * 1_000_000)
    }
}

// The microseconds of ticks, rounded down, where these are microseconds or nanoseconds.
#[inline(always)]
fn plain_microseconds(resolution: u8, ticks: u64) -> Option<u64>
    ensures { IfSome result (λ m. m ≡ ticks * 1000000 / units_of resolution) }
{
    match resolution {
        MICROSECONDS => Some(ticks),
        NANOSECONDS => Some(ticks / 1000),
        _ => None,
    }
}

// The moment of a packet that was captured after so many ticks. Without an offset most need no large numbers.
#[inline(always)]
pub(crate) fn moment_after(interface: &Interface, ticks: u64) -> Option<u64>
    ensures { result ≡ moment_after interface.now ticks }
{
    if interface.offset == 0 {
        if let Some(moment) = plain_microseconds(interface.resolution, ticks) {
            return if moment > LAST_MOMENT {
                None
            } else {
                Some(moment)
            };
        }
    }
    moment_with_offset(interface, ticks)
}

// The moment of a packet that was captured after so many ticks of any resolution, with an offset.
fn moment_with_offset(interface: &Interface, ticks: u64) -> Option<u64>
    ensures { result ≡ moment_after interface.now ticks }
{
    let (added, back) = offset_of(interface.offset);
    let forth = microseconds_of(interface.resolution, ticks) + added;
    if forth < back {
        return None;
    }
    let moment = forth - back;
    if moment > u128::from(LAST_MOMENT) {
        return None;
    }
    Some(moment as u64)
}
