//! Frames that are kept, whose numbers are written over where they stand.

ghost use Rattle.std.specs.Prelude.{◌≡◌, ◌<◌, ◌≤◌, ◌+◌, ◌^◌, ℕ, IfSome, length};
ghost use Rattle.arrayvec.specs.ArrayVec.{array_vec_len};
ghost use Rattle.ber_core.specs.Written.{signed_size};
ghost use Rattle.frame_core.specs.Written.{IsTooLong, written_frame};
ghost use Rattle.mms_data.specs.Written.{header_size};
ghost use Rattle.publish_core.specs.Frames.{change, frame_with};
ghost use Rattle.publish_core.specs.Refusal.{CanBeSpelled};
ghost use Rattle.publish_core.specs.computed.Sizes.{HasShortTexts, between_size, head_size, live_place, text_size, text_size_if, written_over};

use crate::control::Control;
use crate::frames::{FrameNumbers, encode_state, head_length, number_length};
use arrayvec::ArrayVec;
use byteorder::{BigEndian, ByteOrder};
use mms_data::{Octets, UtcTime, ValueList, header_length};
use std::alloc::Allocator;

// How many octets the header of an element has, which has so many in all.
fn header_within(element: usize) -> usize
    requires { element ≤ 1600 }
    ensures size { (contents : ℕ) → header_size contents + contents ≡ element → result ≡ header_size contents }
    ensures most { result ≤ 4 }
{
    if element < 130 {
        2
    } else if element < 259 {
        3
    } else {
        4
    }
}

// How many octets the element of a text has.
fn text_length(text: &[u8]) -> usize
    requires { length text.now ≤ 1600 }
    ensures size { result ≡ text_size text.now }
    ensures most { result ≤ 1606 }
{
    header_length(text.len()) + text.len()
}

// The same of a text that may be absent.
fn text_length_if<A: Allocator>(text: &Option<Octets<A>>) -> usize
    requires { IfSome text.now (λ t. length t ≤ 1600) }
    ensures size { result ≡ text_size_if text.now }
    ensures most { result ≤ 1606 }
{
    match text {
        Some(text) => text_length(text.as_slice()),
        None => 0,
    }
}

// Where the octets of the lifetime stand in a frame of so many.
fn place_of_live<A: Allocator>(control: &Control<A>, size: usize) -> usize
    requires size { size ≤ 1600 }
    requires short { HasShortTexts control.now }
    ensures place { (fields : ℕ) → head_size control.now + (header_size fields + fields) ≡ size → result ≡ live_place control.now fields }
    ensures most { result ≤ 1700 }
{
    let head = head_length(control);
    let apdu = size.saturating_sub(head);
    head + header_within(apdu) + text_length(control.gocb_ref.as_slice()) + 2
}

// How many octets stand between those of the lifetime and those of the sequence number.
fn length_between<A: Allocator>(control: &Control<A>, state: u32) -> usize
    requires { HasShortTexts control.now }
    ensures size { result ≡ between_size control.now state }
    ensures most { result ≤ 3300 }
{
    let texts = text_length(control.dat_set.as_slice()) + text_length_if(&control.go_id);
    texts + number_length(state) + 14
}

// Writes a number over octets, as many as it has, from a place on.
fn write_over(octets: &mut [u8], place: usize, number: u32)
    requires { place + signed_size number ≤ length octets.old }
    ensures { octets.new ≡ written_over octets.old place number }
{
    let count = number_length(number);
    BigEndian::write_uint(&mut octets[place..], u64::from(number), count);
}

// The same in a frame that is kept.
fn write_kept(kept: &mut ArrayVec<u8, 1600>, place: usize, number: u32)
    requires { place + signed_size number ≤ array_vec_len kept.old }
    ensures { kept.new.items ≡ written_over kept.old.items place number }
{
    write_over(kept.as_mut_slice(), place, number);
}

// Writes both numbers over those of the frame before, which have as many octets.
fn write_numbers<A: Allocator>(
    kept: &mut ArrayVec<u8, 1600>,
    control: &Control<A>,
    t: UtcTime,
    values: &ValueList<A>,
    before: FrameNumbers,
    numbers: FrameNumbers,
)
    requires state { before.state ≡ numbers.state }
    requires sequence { signed_size before.sequence ≡ signed_size numbers.sequence }
    requires live { signed_size before.live_ms ≡ signed_size numbers.live_ms }
    requires kept { kept.old.items ≡ written_frame (frame_with control.now (change t values.now) before.state before.sequence before.live_ms) }
    ensures { kept.new.items ≡ written_frame (frame_with control.now (change t values.now) numbers.state numbers.sequence numbers.live_ms) }
{
    let live = place_of_live(control, kept.len());
    let sequence = live + number_length(numbers.live_ms) + length_between(control, numbers.state);
    write_kept(kept, live, numbers.live_ms);
    write_kept(kept, sequence, numbers.sequence);
}

// Has the frame with these numbers kept, made anew. Never inlined, since the room for another frame would be cleared at each call.
#[inline(never)]
fn write_anew<A: Allocator>(
    kept: &mut ArrayVec<u8, 1600>,
    control: &Control<A>,
    t: UtcTime,
    values: &ValueList<A>,
    numbers: FrameNumbers,
)
    requires entries { length values.now ≡ control.now.entries }
    requires spelled { CanBeSpelled control.now (change t values.now) }
    requires fits { ¬ IsTooLong (frame_with control.now (change t values.now) numbers.state numbers.sequence numbers.live_ms) }
    ensures { kept.new.items ≡ written_frame (frame_with control.now (change t values.now) numbers.state numbers.sequence numbers.live_ms) }
{
    *kept = encode_state(control, t, values, numbers).unwrap();
}

// Has the frame with these numbers kept in place of the one before, which differs in its lifetime and its sequence number. All
// other octets stay where each of the two has as many octets as before.
pub fn renew<A: Allocator>(
    kept: &mut ArrayVec<u8, 1600>,
    control: &Control<A>,
    t: UtcTime,
    values: &ValueList<A>,
    before: FrameNumbers,
    numbers: FrameNumbers,
)
    requires entries { length values.now ≡ control.now.entries }
    requires spelled { CanBeSpelled control.now (change t values.now) }
    requires fits { ¬ IsTooLong (frame_with control.now (change t values.now) numbers.state numbers.sequence numbers.live_ms) }
    requires state { before.state ≡ numbers.state }
    requires kept { kept.old.items ≡ written_frame (frame_with control.now (change t values.now) before.state before.sequence before.live_ms) }
    ensures { kept.new.items ≡ written_frame (frame_with control.now (change t values.now) numbers.state numbers.sequence numbers.live_ms) }
{
    if number_length(before.sequence) == number_length(numbers.sequence)
        && number_length(before.live_ms) == number_length(numbers.live_ms)
    {
        write_numbers(kept, control, t, values, before, numbers);
    } else {
        write_anew(kept, control, t, values, numbers);
    }
}
