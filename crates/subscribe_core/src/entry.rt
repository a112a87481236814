//! What a subscriber answers to an event.

ghost use Rattle.std.specs.Prelude.{◌≡◌};
ghost use Rattle.subscribe_core.specs.Changes.{is_change};
ghost use Rattle.subscribe_core.specs.computed.Sinks.{whole_entry};

use ber_core::Fault;
use mms_data::{UtcTime, ValueList};
use std::alloc::Allocator;

/// Why a frame of a block is refused. Where several hold, the first in this order is told.
#[derive(Clone, Copy, Debug, PartialEq, Eq)]
pub enum Reason {
    /// datSet is another than the block's.
    DatSet,
    /// The block has a goID, and the frame has another or none.
    GoId,
    /// confRev is another than the block's.
    ConfRev,
    /// ndsCom is true: the control block wants further configuration.
    Commissioning,
    /// The frame is simulated and the simulation mode is off, or it is real and the block takes simulated frames.
    Simulated,
    /// The count of members is another than the block's.
    Entries,
    /// stNum is 0.
    StateZero,
    /// timeAllowedtoLive is 0.
    LiveZero,
}

/// What an event means. `block` is a position in the list of blocks, from 0; `state` and `sequence` are the frame's stNum and
/// sqNum.
#[derive(Drop)]
pub enum Entry<A: Allocator> {
    /// The block's lifetime is over.
    Expired {
        block: usize,
    },
    /// The block goes over to simulated frames, or back to real ones.
    Switched {
        block: usize,
    },
    /// The frame is acted on: it is the first good one of its epoch, or its status number is above all earlier ones of it.
    Act {
        block: usize,
        state: u32,
        sequence: u32,
        t: UtcTime,
        members: ValueList<A>,
    },
    /// A later frame of the state that was acted on, which renews the lifetime.
    Refreshed {
        block: usize,
        state: u32,
        sequence: u32,
    },
    /// The frame's numbers are those that the block holds.
    Repeated {
        block: usize,
        state: u32,
        sequence: u32,
    },
    /// The frame's numbers are below those that the block holds.
    Older {
        block: usize,
        state: u32,
        sequence: u32,
    },
    /// A frame of the block that is not good, and why.
    Refused {
        block: usize,
        reason: Reason,
    },
    /// A frame of GOOSE that is none of the blocks'.
    NotSubscribed,
    /// A frame of Sampled Values.
    Sampled,
    /// Octets that spell no frame, and their first fault.
    Faulty(Fault),
}

impl<A: Allocator> Entry<A> {
    /// Whether it is a change: what the block holds is another, or the frame is not as it should be. A frame that says nothing
    /// new is none, and neither is one that is none of the blocks', or of Sampled Values.
    pub fn is_change(&self) -> bool
        ensures { result ≡ is_change self.now }
    {
        match self {
            Entry::Expired { .. }
            | Entry::Switched { .. }
            | Entry::Act { .. }
            | Entry::Older { .. }
            | Entry::Refused { .. }
            | Entry::Faulty(_) => true,
            Entry::Refreshed { .. }
            | Entry::Repeated { .. }
            | Entry::NotSubscribed
            | Entry::Sampled => false,
        }
    }
}

/// An entry that has no members: all but actions.
#[derive(Clone, Copy)]
pub enum PlainEntry {
    Expired {
        block: usize,
    },
    Switched {
        block: usize,
    },
    Refreshed {
        block: usize,
        state: u32,
        sequence: u32,
    },
    Repeated {
        block: usize,
        state: u32,
        sequence: u32,
    },
    Older {
        block: usize,
        state: u32,
        sequence: u32,
    },
    Refused {
        block: usize,
        reason: Reason,
    },
    NotSubscribed,
    Sampled,
    Faulty(Fault),
}

impl PlainEntry {
    /// It as one of all entries.
    #[inline(always)]
    pub fn whole<A: Allocator>(self) -> Entry<A>
        ensures { result ≡ whole_entry self }
    {
        match self {
            PlainEntry::Expired { block } => Entry::Expired { block },
            PlainEntry::Switched { block } => Entry::Switched { block },
            PlainEntry::Refreshed {
                block,
                state,
                sequence,
            } => Entry::Refreshed {
                block,
                state,
                sequence,
            },
            PlainEntry::Repeated {
                block,
                state,
                sequence,
            } => Entry::Repeated {
                block,
                state,
                sequence,
            },
            PlainEntry::Older {
                block,
                state,
                sequence,
            } => Entry::Older {
                block,
                state,
                sequence,
            },
            PlainEntry::Refused { block, reason } => Entry::Refused { block, reason },
            PlainEntry::NotSubscribed => Entry::NotSubscribed,
            PlainEntry::Sampled => Entry::Sampled,
            PlainEntry::Faulty(fault) => Entry::Faulty(fault),
        }
    }
}
