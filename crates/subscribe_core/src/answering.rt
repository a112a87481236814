//! The entries of a good frame, and what it gives its block to hold.

ghost use Rattle.std.specs.Prelude.{◌≡◌, ◌∷◌, [], None, false, IfOk, IsOk, OnOk};
ghost use Rattle.subscribe_core.specs.Changes.{changes, is_change};
ghost use Rattle.subscribe_core.specs.FrameEntry.{entry_of};
ghost use Rattle.subscribe_core.specs.computed.Indexed.{good_entries, good_renewal, switches};
ghost use Rattle.subscribe_core.specs.computed.Received.{received_frame};
ghost use Rattle.subscribe_core.specs.computed.Steps.{held_after_frame};

use crate::entry::PlainEntry;
use crate::entry_sink::EntrySink;
use crate::matching::{Received, facts_in};
use crate::registers::{Facts, LiveState, Register, Verdict, held_at, judge};
use std::alloc::{AllocError, Allocator};

// Hands over the entry that says the verdict on a frame of the block at a position.
#[inline(always)]
fn put_verdict<A: Allocator + Copy, E: EntrySink<A>>(
    alloc: A,
    block: usize,
    frame: &Received<'_>,
    verdict: Verdict,
    entries: &mut E,
) -> Result<(), AllocError>
    ensures entry { OnOk result (E.gets entries.old (entry_of block (received_frame frame.now) verdict ∷ []) entries.new) }
    ensures grown { E.grows entries.old entries.new }
    ensures quiet { is_change (entry_of {A = A} block (received_frame frame.now) verdict) ≡ false → E.has_room entries.old → IsOk result }
{
    let (state, sequence) = (frame.goose.st_num, frame.goose.sq_num);
    match verdict {
        Verdict::Act => entries.put_act(alloc, block, &frame.goose),
        Verdict::Refreshed => entries.put_entry(PlainEntry::Refreshed {
            block,
            state,
            sequence,
        }),
        Verdict::Repeated => entries.put_entry(PlainEntry::Repeated {
            block,
            state,
            sequence,
        }),
        Verdict::Older => entries.put_entry(PlainEntry::Older {
            block,
            state,
            sequence,
        }),
    }
}

// What an action and a renewal give the block to hold.
fn renewal(verdict: Verdict, now: u64, facts: &Facts) -> Option<LiveState>
    ensures { result ≡ held_after_frame verdict None now facts.now }
{
    match verdict {
        Verdict::Act | Verdict::Refreshed => Some(LiveState {
            state: facts.state,
            sequence: facts.sequence,
            deadline: u128::from(now) + u128::from(facts.lifetime),
        }),
        Verdict::Repeated | Verdict::Older => None,
    }
}

// Whether a good frame of the block with this register has it go over to simulated frames.
pub(crate) fn is_switching(old: &Register, frame: &Received<'_>) -> bool
    ensures { result ≡ switches old.now (received_frame frame.now) }
{
    frame.goose.simulation && !old.takes_simulated
}

// Hands over the entries of a good frame of the block at a position, whose register is given, and says what it gives the block
// to hold.
#[inline(always)]
pub(crate) fn put_good<A: Allocator + Copy, E: EntrySink<A>>(
    alloc: A,
    block: usize,
    now: u64,
    old: &Register,
    frame: &Received<'_>,
    entries: &mut E,
) -> Result<Option<LiveState>, AllocError>
    ensures entries { OnOk result (E.gets entries.old (good_entries block now old.now (received_frame frame.now)) entries.new) }
    ensures held { IfOk result (λ held. held ≡ good_renewal now old.now (received_frame frame.now)) }
    ensures grown { E.grows entries.old entries.new }
    ensures room { changes (good_entries {A = A} block now old.now (received_frame frame.now)) ≡ [] → E.has_room entries.old → IsOk result }
{
    let mut held = held_at(&old.held, now);
    if is_switching(old, frame) {
        entries.put_entry(PlainEntry::Switched { block })?;
        held = None;
    }
    let facts = facts_in(frame);
    let verdict = judge(&held, &facts);
    put_verdict(alloc, block, frame, verdict, entries)?;
    Ok(renewal(verdict, now, &facts))
}
