//! What a list holds: frames, clock moments and modes.

use ber_core::Octets;
use std::alloc::Allocator;

/// What happened at a moment.
#[derive(Drop)]
pub struct Event<A: Allocator> {
    /// Microseconds, 0 to 999,999,999,999,999,999 in a list.
    pub moment: u64,
    /// What happened then.
    pub kind: EventKind<A>,
}

/// A frame, nothing but the clock, or a mode.
#[derive(Drop)]
pub enum EventKind<A: Allocator> {
    /// The octets of a frame, 1 to 2,000 in a list, good or bad.
    Frame(Octets<A>),
    /// The clock alone.
    Clock,
    /// The simulation mode is set on or off.
    Mode(bool),
}
