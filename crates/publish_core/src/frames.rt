//! Frames of a state: their octets, and how many these are.

ghost use Rattle.std.specs.Prelude.{◌≡◌, ◌<◌, ◌≤◌, ◌^◌, IfErr, IfOk, OnOk, length};
ghost use Rattle.ber_core.specs.Written.{signed_size};
ghost use Rattle.frame_core.specs.GooseFrame.{frame_of_parts};
ghost use Rattle.frame_core.specs.Written.{IsTooLong, written_frame};
ghost use Rattle.publish_core.specs.Frames.{change, frame_with, simulation_word};
ghost use Rattle.publish_core.specs.Refusal.{CanBeSpelled};
ghost use Rattle.publish_core.specs.computed.Sizes.{IsEncodeFault, head_size};

use crate::control::Control;
use arrayvec::ArrayVec;
use frame_core::{EncodeFault, GooseFrame, encode_goose};
use mms_data::{UtcTime, ValueList};
use pdu_core::{GooseParts, slice_if};
use std::alloc::Allocator;

// The numbers of a frame: status number, sequence number, and how long it lives, in milliseconds.
#[derive(Clone, Copy)]
pub struct FrameNumbers {
    pub state: u32,
    pub sequence: u32,
    pub live_ms: u32,
}

// Reserved 1: the simulation bit.
fn simulation_bit(simulation: bool) -> u16
    ensures { result ≡ simulation_word simulation }
{
    if simulation { 0x8000 } else { 0 }
}

// The frame of a change with these numbers.
fn frame_with<'a, A: Allocator>(
    control: &'a Control<A>,
    t: UtcTime,
    values: &'a ValueList<A>,
    numbers: FrameNumbers,
) -> GooseFrame<'a, A>
    ensures { frame_of_parts result ≡ frame_with control.now (change t values.now) numbers.state numbers.sequence numbers.live_ms }
{
    GooseFrame {
        destination: control.destination,
        source: control.source,
        tag: control.tag,
        app_id: control.app_id,
        reserved1: simulation_bit(control.simulation),
        reserved2: 0,
        parts: GooseParts {
            gocb_ref: control.gocb_ref.as_slice(),
            live: numbers.live_ms,
            dat_set: control.dat_set.as_slice(),
            go_id: slice_if(&control.go_id),
            t,
            st_num: numbers.state,
            sq_num: numbers.sequence,
            simulation: control.simulation,
            conf_rev: control.conf_rev,
            nds_com: control.nds_com,
            members: values,
        },
    }
}

// Each number lies in the range of its type; nothing is computed.
fn know_ranges(numbers: FrameNumbers, conf_rev: u32, entries: u32)
    ensures state { numbers.state < 2 ^ 32 }
    ensures sequence { numbers.sequence < 2 ^ 32 }
    ensures live { numbers.live_ms < 2 ^ 32 }
    ensures conf_rev { conf_rev < 2 ^ 32 }
    ensures entries { entries < 2 ^ 32 }
{
    let _ = (numbers.state, numbers.sequence, numbers.live_ms);
}

// The octets of the frame with these numbers, or why it has none.
pub fn encode_state<A: Allocator>(
    control: &Control<A>,
    t: UtcTime,
    values: &ValueList<A>,
    numbers: FrameNumbers,
) -> Result<ArrayVec<u8, 1600>, EncodeFault>
    requires { length values.now ≡ control.now.entries }
    ensures fault { IfErr result (λ e. IsEncodeFault control.now (change t values.now) numbers.state numbers.sequence numbers.live_ms e) }
    ensures spelled { OnOk result (CanBeSpelled control.now (change t values.now)) }
    ensures short { OnOk result (¬ IsTooLong (frame_with control.now (change t values.now) numbers.state numbers.sequence numbers.live_ms)) }
    ensures written { IfOk result (λ o. o.items ≡ written_frame (frame_with control.now (change t values.now) numbers.state numbers.sequence numbers.live_ms)) }
{
    know_ranges(numbers, control.conf_rev, control.entries);
    encode_goose(&frame_with(control, t, values, numbers))
}

// How many octets stand before the APDU of a frame.
pub fn head_length<A: Allocator>(control: &Control<A>) -> usize
    ensures size { result ≡ head_size control.now }
    ensures most { result ≤ 26 }
{
    let addresses = control.destination.len() + control.source.len();
    if control.tag.is_some() {
        addresses + 14
    } else {
        addresses + 10
    }
}

// How many octets a number has in a frame, from 1 to 5.
#[tactic(auto, unfolding(ber_core::specs::Written::integer_size))]
pub fn number_length(number: u32) -> usize
    ensures size { result ≡ signed_size number }
    ensures least { 1 ≤ result }
    ensures most { result ≤ 5 }
{
    match number {
        0..=0x7f => 1,
        0x80..=0x7fff => 2,
        0x8000..=0x7f_ffff => 3,
        0x80_0000..=0x7fff_ffff => 4,
        _ => 5,
    }
}
