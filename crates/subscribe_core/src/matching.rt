//! A frame against its block: the first reason for which it is refused, and what is read off a good one.

ghost use Rattle.std.specs.Prelude.{◌≡◌};
ghost use Rattle.subscribe_core.specs.Matching.{facts_of_frame, has_other_id, reason_of};
ghost use Rattle.pdu_core.specs.Views.{octets_if};
ghost use Rattle.subscribe_core.specs.computed.Received.{received_frame};
ghost use Rattle.subscribe_core.specs.Simulation.{is_other_kind as means_other_kind};

use crate::entry::Reason;
use crate::registers::Facts;
use block_core::Block;
use mms_data::Octets;
use pdu_core::GooseView;
use std::alloc::Allocator;

/// A frame of GOOSE as a subscriber goes by it, where it stands.
#[derive(Clone, Copy)]
pub struct Received<'a> {
    pub app_id: u16,
    pub goose: GooseView<'a>,
}

// Whether a goID is awaited, and the frame has another or none.
#[inline(always)]
fn is_other_id<A: Allocator>(awaited: &Option<Octets<A>>, id: Option<&[u8]>) -> bool
    ensures { result ≡ has_other_id awaited.now (octets_if id.entry) }
{
    match (awaited, id) {
        (None, _) => false,
        (Some(_), None) => true,
        (Some(awaited), Some(id)) => awaited.as_slice() != id,
    }
}

// Whether the frame is simulated where its block takes real ones, or the other way round.
pub(crate) fn is_other_kind(frame: &Received<'_>, mode: bool, takes_simulated: bool) -> bool
    ensures { result ≡ means_other_kind (received_frame frame.now) mode takes_simulated }
{
    if frame.goose.simulation {
        !mode
    } else {
        takes_simulated
    }
}

// The first reason for which a frame of the block is refused.
#[inline(always)]
pub(crate) fn first_reason<A: Allocator>(
    block: &Block<A>,
    frame: &Received<'_>,
    is_other_kind: bool,
) -> Option<Reason>
    ensures { result ≡ reason_of is_other_kind block.now (received_frame frame.now) }
{
    let goose = &frame.goose;
    if block.dat_set.as_slice() != goose.dat_set {
        Some(Reason::DatSet)
    } else if is_other_id(&block.go_id, goose.go_id) {
        Some(Reason::GoId)
    } else if block.conf_rev != goose.conf_rev {
        Some(Reason::ConfRev)
    } else if goose.nds_com {
        Some(Reason::Commissioning)
    } else if is_other_kind {
        Some(Reason::Simulated)
    } else if block.entries as usize != goose.entries {
        Some(Reason::Entries)
    } else if goose.st_num == 0 {
        Some(Reason::StateZero)
    } else if goose.live == 0 {
        Some(Reason::LiveZero)
    } else {
        None
    }
}

// The facts of a frame.
pub(crate) fn facts_in(frame: &Received<'_>) -> Facts
    ensures { result ≡ facts_of_frame (received_frame frame.now) }
{
    Facts {
        state: frame.goose.st_num,
        sequence: frame.goose.sq_num,
        lifetime: 1000 * u64::from(frame.goose.live),
    }
}
