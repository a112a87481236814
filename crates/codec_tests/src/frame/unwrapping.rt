//! Frames without what a ring or a provider's network put round them.

use crate::frame::list_reading::is_listed_as;
use list_core::{Event, EventLines, ItemReader, ReadItems};
use std::alloc::Global;
use test_support::{NEVER, source_of};
use unwrap_core::{Changes, Unwrap, unwrap_frame};

// The octets of a frame and of what is left of it: an HSR tag, one behind a VLAN tag, two VLAN tags, a provider's tag before a VLAN
// tag and an HSR tag, one tag, none, an HSR tag that ends the frame, and a frame that is cut off before its EtherType.
const FRAMES: [(&[u8], &[u8]); 8] = [
    (
        &[
            1, 1, 1, 1, 1, 1, 2, 2, 2, 2, 2, 2, 0x89, 0x2f, 0x10, 0x9a, 0, 7, 0x88, 0xb8, 5,
        ],
        &[1, 1, 1, 1, 1, 1, 2, 2, 2, 2, 2, 2, 0x88, 0xb8, 5],
    ),
    (
        &[
            1, 1, 1, 1, 1, 1, 2, 2, 2, 2, 2, 2, 0x81, 0, 0x80, 5, 0x89, 0x2f, 0x10, 0x9a, 0, 7,
            0x88, 0xb8,
        ],
        &[
            1, 1, 1, 1, 1, 1, 2, 2, 2, 2, 2, 2, 0x81, 0, 0x80, 5, 0x88, 0xb8,
        ],
    ),
    (
        &[
            1, 1, 1, 1, 1, 1, 2, 2, 2, 2, 2, 2, 0x81, 0, 0, 1, 0x81, 0, 0, 2, 0x88, 0xb8,
        ],
        &[
            1, 1, 1, 1, 1, 1, 2, 2, 2, 2, 2, 2, 0x81, 0, 0, 2, 0x88, 0xb8,
        ],
    ),
    (
        &[
            1, 1, 1, 1, 1, 1, 2, 2, 2, 2, 2, 2, 0x88, 0xa8, 0, 1, 0x81, 0, 0, 2, 0x89, 0x2f, 1, 2,
            3, 4, 0x88, 0xba,
        ],
        &[
            1, 1, 1, 1, 1, 1, 2, 2, 2, 2, 2, 2, 0x81, 0, 0, 2, 0x88, 0xba,
        ],
    ),
    (
        &[
            1, 1, 1, 1, 1, 1, 2, 2, 2, 2, 2, 2, 0x88, 0xa8, 0, 1, 0x88, 0xb8, 9,
        ],
        &[
            1, 1, 1, 1, 1, 1, 2, 2, 2, 2, 2, 2, 0x88, 0xa8, 0, 1, 0x88, 0xb8, 9,
        ],
    ),
    (
        &[1, 1, 1, 1, 1, 1, 2, 2, 2, 2, 2, 2, 0x88, 0xb8],
        &[1, 1, 1, 1, 1, 1, 2, 2, 2, 2, 2, 2, 0x88, 0xb8],
    ),
    (
        &[
            1, 1, 1, 1, 1, 1, 2, 2, 2, 2, 2, 2, 0x89, 0x2f, 0x10, 0x9a, 0, 7, 0x88,
        ],
        &[
            1, 1, 1, 1, 1, 1, 2, 2, 2, 2, 2, 2, 0x89, 0x2f, 0x10, 0x9a, 0, 7, 0x88,
        ],
    ),
    (&[1, 1, 1], &[1, 1, 1]),
];

// Whether this is left of these octets.
fn is_left(alloc: Global, octets: &[u8], left: &[u8]) -> bool {
    let mut frame = Vec::new(alloc);
    if frame.extend_from_slice(octets).is_err() {
        return false;
    }
    unwrap_frame(&mut frame);
    frame.as_slice() == left
}

#[test]
fn tags_are_taken_out_of_a_frame(rt: HostRuntime) {
    let mut case = 0u32;
    for (octets, left) in FRAMES {
        assert!(rt; is_left(rt.alloc(), octets, left), "case {case}");
        case = case.saturating_add(1);
    }
}

// A list: a frame with an HSR tag, a clock moment, a frame with two tags and a mode.
const LIST: &[u8] = b"V2\n\
F 1 010ccd010001020000000001892f109a000788b8\n\
C 2\n\
F 3 010ccd0100010200000000018100000181008005\n\
M 4 on\n";

// What is left of it where frames are unwrapped, and where they are not.
const UNWRAPPED: [&str; 4] = [
    "F 1 010ccd01000102000000000188b8",
    "C 2",
    "F 3 010ccd01000102000000000181008005",
    "M 4 on",
];

const PLAIN: [&str; 4] = [
    "F 1 010ccd010001020000000001892f109a000788b8",
    "C 2",
    "F 3 010ccd0100010200000000018100000181008005",
    "M 4 on",
];

// Whether a reader gives these events, each handed back as spare, and then ends.
fn gives<I: ReadItems<Global, Item = Event<Global>>>(
    alloc: Global,
    items: &mut I,
    wanted: &[&str],
) -> bool {
    let mut spare = None;
    for line in wanted {
        let Ok(Some(event)) = items.read_item(alloc, &mut spare) else {
            return false;
        };
        if !is_listed_as(alloc, &event, line.as_bytes()) {
            return false;
        }
        spare = Some(event);
    }
    matches!(items.read_item(alloc, &mut spare), Ok(None))
}

#[test]
fn a_reader_unwraps_frames_where_it_is_asked_to(rt: HostRuntime) {
    let events = ItemReader::new(source_of(LIST, 4096, NEVER), EventLines::First);
    assert!(rt;
        gives(
            rt.alloc(),
            &mut Unwrap::new(events, Changes { unwraps: true }),
            &UNWRAPPED
        )
    );
    let events = ItemReader::new(source_of(LIST, 4096, NEVER), EventLines::First);
    assert!(rt;
        gives(
            rt.alloc(),
            &mut Unwrap::new(events, Changes { unwraps: false }),
            &PLAIN
        )
    );
}
