//! What is told of the frames of events, and kept of them.

ghost use Rattle.std.specs.Prelude.{◌≡◌, ◌∷◌, [], IfOk, OnErr, length, map, take};
ghost use Rattle.pdu_core.specs.SampledViews.{asdu_of, asdus_left};
ghost use Rattle.pdu_core.specs.Views.{pdu_of};
ghost use Rattle.frame_core.specs.computed.FrameReading.{frame_at};
ghost use Rattle.loss_engine.specs.Sights.{sight_of_asdu, sight_of_goose, sights_of, sights_read};
ghost use Rattle.loss_engine.specs.computed.Held.{kept_by, periods_by};
ghost use Rattle.loss_engine.specs.computed.Telling.{TellsAll, TellsSights, WantsAll, WantsFor};

use crate::key::{Key, SenderKey, StreamKey};
use crate::losses::Losses;
use crate::texts::told::{put_back, put_frame, put_sample};
use frame_core::{ApduView, view_frame};
use list_core::EventKind;
use loss_core::Pair;
use object_core::Heading;
use pdu_core::{AsduView, GooseView, SvView};
use repeat_core::{FrameMemory, Nothing};
use std::alloc::{AllocError, Allocator};

// Appends what a frame of GOOSE tells, and answers whether it is a loss. Inlined, so that of a frame that repeats no view is made.
#[inline(always)]
fn put_goose<A: Allocator + Copy>(
    alloc: A,
    losses: &mut Losses<A>,
    out: &mut Vec<u8, A>,
    heading: Heading,
    app_id: u16,
    goose: &GooseView<'_>,
) -> Result<bool, AllocError>
    ensures tells { IfOk result (λ found. TellsSights heading (periods_by losses.old) (kept_by losses.old) (sight_of_goose (kept_by losses.old).moment app_id (pdu_of {A = Unit {0}} goose.now) ∷ [])
        out.old.items found out.new.items (kept_by losses.new)) }
    ensures periods { periods_by losses.new ≡ periods_by losses.old }
    ensures wants { OnErr result (WantsFor heading (periods_by losses.old) (kept_by losses.old) (sight_of_goose (kept_by losses.old).moment app_id (pdu_of {A = Unit {0}} goose.now) ∷ [])) }
    ensures kept { take (length out.old.items) out.new.items ≡ out.old.items }
{
    let key = SenderKey {
        app_id,
        reference: goose.gocb_ref,
        simulation: goose.simulation,
    };
    let pair = Pair {
        state: goose.st_num,
        sequence: goose.sq_num,
    };
    let (frame, told) = losses.take_frame(alloc, key, pair, goose.live)?;
    let found = put_frame(out, heading, &Key::Sender(key), frame, told)?;
    Ok(found)
}

// Appends what an ASDU tells, and answers whether it is a loss.
fn put_asdu<A: Allocator + Copy>(
    alloc: A,
    losses: &mut Losses<A>,
    out: &mut Vec<u8, A>,
    heading: &Heading,
    app_id: u16,
    source: [u8; 6],
    asdu: &AsduView<'_>,
) -> Result<bool, AllocError>
    ensures tells { IfOk result (λ found. TellsSights heading.now (periods_by losses.old) (kept_by losses.old) (sight_of_asdu (kept_by losses.old).moment app_id source (asdu_of {A = Unit {0}} asdu.now) ∷ [])
        out.old.items found out.new.items (kept_by losses.new)) }
    ensures periods { periods_by losses.new ≡ periods_by losses.old }
    ensures wants { OnErr result (WantsFor heading.now (periods_by losses.old) (kept_by losses.old) (sight_of_asdu (kept_by losses.old).moment app_id source (asdu_of {A = Unit {0}} asdu.now) ∷ [])) }
    ensures kept { take (length out.old.items) out.new.items ≡ out.old.items }
{
    let key = StreamKey {
        app_id,
        source,
        id: asdu.sv_id,
    };
    let count = asdu.smp_cnt;
    let synch = asdu.smp_synch;
    let (came, before) = losses.take_sample(alloc, key, count, synch)?;
    let periods = losses.periods();
    let found = put_sample(out, heading, key, periods, count, came, before, synch)?;
    Ok(found)
}

// Appends what the ASDUs of a frame tell, and answers whether one of them is a loss.
fn put_asdus<A: Allocator + Copy>(
    alloc: A,
    losses: &mut Losses<A>,
    out: &mut Vec<u8, A>,
    heading: Heading,
    app_id: u16,
    source: [u8; 6],
    sampled: &SvView<'_>,
) -> Result<bool, AllocError>
    ensures tells { IfOk result (λ found. TellsSights heading (periods_by losses.old) (kept_by losses.old) (map (sight_of_asdu (kept_by losses.old).moment app_id source) (asdus_left {A = Unit {0}} sampled.now.asdus))
        out.old.items found out.new.items (kept_by losses.new)) }
    ensures periods { periods_by losses.new ≡ periods_by losses.old }
    ensures wants { OnErr result (WantsFor heading (periods_by losses.old) (kept_by losses.old) (map (sight_of_asdu (kept_by losses.old).moment app_id source) (asdus_left {A = Unit {0}} sampled.now.asdus))) }
    ensures kept { take (length out.old.items) out.new.items ≡ out.old.items }
{
    let mut found = false;
    for asdu in sampled.asdus {
        found |= put_asdu(alloc, losses, out, &heading, app_id, source, &asdu)?;
    }
    Ok(found)
}

// Appends what the octets of a frame tell, which are read, and answers whether it is a loss.
fn put_read<A: Allocator + Copy>(
    alloc: A,
    memory: &mut FrameMemory<A, Nothing>,
    losses: &mut Losses<A>,
    out: &mut Vec<u8, A>,
    heading: Heading,
    octets: &[u8],
) -> Result<bool, AllocError>
    ensures tells { IfOk result (λ found. TellsSights heading (periods_by losses.old) (kept_by losses.old)
        (sights_read {A = Unit {0}} (kept_by losses.old).moment (frame_at octets.now)) out.old.items found out.new.items (kept_by losses.new)) }
    ensures periods { periods_by losses.new ≡ periods_by losses.old }
    ensures wants { OnErr result (WantsFor heading (periods_by losses.old) (kept_by losses.old) (sights_read {A = Unit {0}} (kept_by losses.old).moment (frame_at octets.now))) }
    ensures kept { take (length out.old.items) out.new.items ≡ out.old.items }
{
    let Ok(view) = view_frame(octets) else {
        return Ok(false);
    };
    memory.note(octets, &view);
    match &view.apdu {
        ApduView::Goose(goose) => put_goose(alloc, losses, out, heading, view.app_id, goose),
        ApduView::Sampled(sampled) => put_asdus(
            alloc,
            losses,
            out,
            heading,
            view.app_id,
            view.source,
            sampled,
        ),
    }
}

// Appends what the frame of an event tells, and answers whether it is a loss; nothing of the clock and of modes. Memory is wanted
// for a sender or a stream that is new, and for what is told.
fn put_frame_of<A: Allocator + Copy>(
    alloc: A,
    memory: &mut FrameMemory<A, Nothing>,
    losses: &mut Losses<A>,
    out: &mut Vec<u8, A>,
    heading: Heading,
    kind: &EventKind<A>,
) -> Result<bool, AllocError>
    ensures tells { IfOk result (λ found. TellsSights heading (periods_by losses.old) (kept_by losses.old) (sights_of (kept_by losses.old).moment kind.now) out.old.items found out.new.items (kept_by losses.new)) }
    ensures periods { periods_by losses.new ≡ periods_by losses.old }
    ensures wants { OnErr result (WantsFor heading (periods_by losses.old) (kept_by losses.old) (sights_of (kept_by losses.old).moment kind.now)) }
    ensures kept { take (length out.old.items) out.new.items ≡ out.old.items }
{
    let EventKind::Frame(octets) = kind else {
        return Ok(false);
    };
    let octets = octets.as_slice();
    if let Some(again) = memory.alike(octets) {
        let frame = again.frame(octets);
        if let ApduView::Goose(goose) = &frame.apdu {
            return put_goose(alloc, losses, out, heading, frame.app_id, goose);
        }
    }
    put_read(alloc, memory, losses, out, heading, octets)
}

/// Appends what an event tells: that time goes back by so much, where it does, and what its frame tells, which is viewed through a
/// memory of frames. Answers whether it is a
/// finding. Memory is wanted for a sender or a stream that is new, and for what is told.
pub fn put_event<A: Allocator + Copy>(
    alloc: A,
    memory: &mut FrameMemory<A, Nothing>,
    losses: &mut Losses<A>,
    out: &mut Vec<u8, A>,
    heading: Heading,
    back: Option<u64>,
    kind: &EventKind<A>,
) -> Result<bool, AllocError>
    ensures tells { IfOk result (λ found. TellsAll heading back (periods_by losses.old) (kept_by losses.old) (sights_of (kept_by losses.old).moment kind.now) out.old.items found out.new.items (kept_by losses.new)) }
    ensures periods { periods_by losses.new ≡ periods_by losses.old }
    ensures wants { OnErr result (WantsAll heading back (periods_by losses.old) (kept_by losses.old) (sights_of (kept_by losses.old).moment kind.now)) }
    ensures kept { take (length out.old.items) out.new.items ≡ out.old.items }
{
    put_back(out, heading, back)?;
    let found = put_frame_of(alloc, memory, losses, out, heading, kind)?;
    Ok(back.is_some() || found)
}
