//! A frame is unwrapped in place: tag by tag, what stands before it moves up, and in the end all moves to the front at once.
ghost use Rattle.std.specs.Prelude.{◌≡◌, ◌≤◌, ◌+◌, ◌++◌, IfSome, None, drop, length, option_map, take};
ghost use Rattle.std.specs.Vec.{vec_capacity};
ghost use Rattle.unwrap_core.specs.Tags.{without};
ghost use Rattle.unwrap_core.specs.Unwrapped.{Unwraps, tag_out, unwrapped};

use crate::tags::{Tag, tag_in};
use std::alloc::Allocator;

// Takes a tag out of a frame: what stands before it moves up, and so many octets at the front are no longer the frame's.
fn take_out(frame: &mut [u8], tag: Tag)
    requires { tag.place + tag.count ≤ length frame.old }
    ensures left { drop tag.count frame.new ≡ without tag.place tag.count frame.old }
    ensures len { length frame.new ≡ length frame.old }
{
    frame.copy_within(..tag.place, tag.count);
}

// Takes out the tag that is to be taken out first, and answers how many octets at the front are then no longer the frame's.
fn take_first(frame: &mut [u8]) -> Option<usize>
    ensures left { tag_out frame.old ≡ option_map (λ n. drop n frame.new) result }
    ensures within { IfSome result (λ n. n ≤ length frame.old) }
    ensures kept { result ≡ None → frame.new ≡ frame.old }
    ensures len { length frame.new ≡ length frame.old }
{
    let tag = tag_in(frame)?;
    take_out(frame, tag);
    Some(tag.count)
}

// Takes out one tag after another, until there is none, and answers how many octets at the front are then no longer the frame's.
fn take_each(frame: &mut [u8]) -> usize
    ensures left { drop result frame.new ≡ unwrapped frame.old }
    ensures within { result ≤ length frame.new }
    ensures len { length frame.new ≡ length frame.old }
{
    let mut from = 0;
    for turn in 0..frame.len() {
        match take_first(&mut frame[from..]) {
            Some(count) => from += count,
            None => return from,
        }
    }
    from
}

// Leaves of a frame what is unwrapped.
fn leave_unwrapped<A: Allocator>(frame: &mut Vec<u8, A>)
    ensures exact { frame.new.items ≡ unwrapped frame.old.items }
    ensures room { vec_capacity frame.new ≡ vec_capacity frame.old }
{
    let from = take_each(frame.as_mut_slice());
    if from > 0 {
        let len = frame.len();
        frame.as_mut_slice().copy_within(from..len, 0);
        frame.truncate(len - from);
    }
}

/// Unwraps a frame (IEC 62439-3, IEEE 802.1Q), however long it is: HSR tags are taken out, behind the addresses and behind a VLAN
/// tag, and each VLAN tag before another; what stands behind an HSR tag's EtherType is not judged. No memory is taken.
pub fn unwrap_frame<A: Allocator>(frame: &mut Vec<u8, A>)
    ensures exact { frame.new.items ≡ unwrapped frame.old.items }
    ensures unwraps { Unwraps frame.old.items frame.new.items }
    ensures room { vec_capacity frame.new ≡ vec_capacity frame.old }
{
    leave_unwrapped(frame)
}
