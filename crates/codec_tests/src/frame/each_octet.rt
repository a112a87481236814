//! Frames of which one octet is replaced by each other one.

use crate::frame::frames::{changed, form_of, has_form, read, seen};
use crate::frame::sampled_frames::changed_sampled;
use std::alloc::Global;
use std::process::Abort;

/// Whether the frame of these octets has a written form that is read, and written as it stands.
fn has_lasting_form(alloc: Global, octets: &[u8]) -> bool {
    match form_of(alloc, octets) {
        Some(form) => has_form(alloc, form.as_slice(), form.as_slice()),
        None => false,
    }
}

/// Whether the view and the frame of these octets are refused alike, at a place up to their end; or the frame has a
/// written form that lasts.
fn are_judged(alloc: Global, octets: &[u8]) -> bool {
    let told = seen(octets);
    if read(alloc, octets) != told {
        return false;
    }
    match told {
        Err(fault) => fault.place <= octets.len(),
        Ok(()) => has_lasting_form(alloc, octets),
    }
}

#[test]
fn each_octet_of_a_frame_is_judged(rt: HostRuntime) {
    for place in 0..67usize {
        for octet in 0..=255u8 {
            assert!(rt;
                are_judged(rt.alloc(), &changed(place, octet)),
                "{octet} at {place}"
            );
        }
    }
}

#[test]
fn each_octet_of_sampled_values_is_judged(rt: HostRuntime) {
    for place in 0..54usize {
        for octet in 0..=255u8 {
            assert!(rt;
                are_judged(rt.alloc(), &changed_sampled(place, octet)),
                "{octet} at {place}"
            );
        }
    }
}
