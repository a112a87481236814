//! Frames of other protocols, passed over.

use crate::frame::list_reading::is_listed_as;
use frame_core::SkipOther;
use list_core::{Event, EventLines, ItemReader, ReadItems};
use std::alloc::{AllocError, Global};
use tally_core::{KindTotal, Total};
use test_support::{Give, NEVER, RefusingAlloc, source_of};

// A reader of the events of a list.
type Events<'a> = ItemReader<Give<'a>, EventLines>;

// A list: two frames of ARP, one of GOOSE that is cut off, one that is cut off before its EtherType, and one of PTP behind a
// tag; a clock moment and a mode.
const LIST: &[u8] = b"V2\n\
F 1 ffffffffffff02000000000108060001\n\
F 2 010ccd01000102000000000188b8\n\
F 3 ffffffffffff0200000000010806ffff\n\
C 4\n\
F 5 ffffffffffff02000000000108\n\
M 6 on\n\
F 7 011b190000000200000000018100800088f7\n";

// What is left of it, with the numbers of its lines.
const LEFT: [(&str, u64); 7] = [
    ("C 1", 2),
    ("F 2 010ccd01000102000000000188b8", 3),
    ("C 3", 4),
    ("C 4", 5),
    ("F 5 ffffffffffff02000000000108", 6),
    ("M 6 on", 7),
    ("C 7", 8),
];

fn events_of(text: &[u8]) -> Events<'_> {
    ItemReader::new(source_of(text, 4096, NEVER), EventLines::First)
}

// Whether the next event is this one, with this number; it is kept as spare.
fn is_next<I: ReadItems<Global, Item = Event<Global>>>(
    alloc: Global,
    items: &mut I,
    spare: &mut Option<Event<Global>>,
    (line, number): (&str, u64),
) -> bool {
    let Ok(Some(event)) = items.read_item(alloc, spare) else {
        return false;
    };
    let is_right = items.item_number() == number && is_listed_as(alloc, &event, line.as_bytes());
    *spare = Some(event);
    is_right
}

// Whether a reader gives these events, with these numbers, and then ends.
fn gives<I: ReadItems<Global, Item = Event<Global>>>(
    alloc: Global,
    items: &mut I,
    wanted: &[(&str, u64)],
) -> bool {
    let mut spare = None;
    for event in wanted {
        if !is_next(alloc, items, &mut spare, *event) {
            return false;
        }
    }
    matches!(items.read_item(alloc, &mut spare), Ok(None))
}

#[test]
fn a_frame_of_another_protocol_tells_its_time(rt: HostRuntime) {
    let mut items = SkipOther::new(events_of(LIST));
    assert!(rt; gives(rt.alloc(), &mut items, &LEFT));
    let passed = items.passed_over();
    let arp = KindTotal {
        kind: 0x0806,
        total: Total { count: 2, first: 2 },
    };
    let ptp = KindTotal {
        kind: 0x88f7,
        total: Total { count: 1, first: 8 },
    };
    assert!(rt; passed.kinds() == [arp, ptp].as_slice());
    assert!(rt; passed.others() == None);
}

// How many growths it takes to read all events of a list, each handed back as spare.
fn growths_of<'a, I: ReadItems<&'a RefusingAlloc<Global>, Item = Event<&'a RefusingAlloc<Global>>>>(
    alloc: &'a RefusingAlloc<Global>,
    items: &mut I,
) -> Option<usize> {
    let before = alloc.growths();
    let mut spare = None;
    for _ in 0..100 {
        match items.read_item(alloc, &mut spare) {
            Ok(Some(event)) => spare = Some(event),
            Ok(None) => return Some(alloc.growths().saturating_sub(before)),
            Err(_) => return None,
        }
    }
    None
}

// Frames of ARP and of GOOSE that is cut off in turn, none longer than the first.
const FRAMES: &[u8] = b"V2\n\
F 1 ffffffffffff02000000000108060001\n\
F 2 ffffffffffff02000000000108060001\n\
F 3 010ccd01000102000000000188b8\n\
F 4 ffffffffffff02000000000108060001\n\
F 5 ffffffffffff02000000000108060001\n";

// The same of a list, all of whose events are told.
fn growths_to_tell(alloc: &RefusingAlloc<Global>, text: &[u8]) -> Option<usize> {
    growths_of(alloc, &mut events_of(text))
}

// The same of a list, of which the frames of other protocols are passed over.
fn growths_to_skip(alloc: &RefusingAlloc<Global>, text: &[u8]) -> Option<usize> {
    growths_of(alloc, &mut SkipOther::new(events_of(text)))
}

#[test]
fn memory_is_wanted_as_often_as_without(rt: HostRuntime) {
    let alloc = RefusingAlloc::new(rt.alloc(), usize::MAX);
    for (text, wanted) in [(FRAMES, 1usize), (LIST, 3)] {
        assert!(rt; growths_to_tell(&alloc, text) == Some(wanted));
        assert!(rt; growths_to_skip(&alloc, text) == Some(wanted));
    }
    assert!(rt; alloc.blocks_out() == 0);
}

// The EtherTypes of frames of other protocols: the last two of the eighteen come when sixteen are told apart.
const TYPES: [u8; 22] = [
    0, 1, 2, 3, 4, 5, 6, 7, 8, 9, 10, 11, 12, 13, 14, 15, 16, 17, 3, 17, 16, 0,
];

// A number below 16 as a digit.
fn digit(number: u8) -> u8 {
    b"0123456789abcdef"[(number % 16) as usize]
}

// A list of frames with these EtherTypes.
fn list_of_types(alloc: Global) -> Result<Vec<u8>, AllocError> {
    let mut text = Vec::new(alloc);
    text.extend_from_slice(b"V2\n")?;
    for ether_type in TYPES {
        text.extend_from_slice(b"F 0 00000000000000000000000000")?;
        text.push(digit(ether_type / 16))?;
        text.push(digit(ether_type))?;
        text.extend_from_slice(b"\n")?;
    }
    Ok(text)
}

// The frames of an EtherType of those below 16, of which two come twice.
fn kind(ether_type: u16) -> KindTotal {
    let count = if ether_type == 0 || ether_type == 3 {
        2
    } else {
        1
    };
    let first = ether_type as u64 + 2;
    KindTotal {
        kind: ether_type,
        total: Total { count, first },
    }
}

// Whether these are the frames of each EtherType below 16.
fn are_all_kinds(kinds: &[KindTotal]) -> bool {
    for ether_type in 0..16u16 {
        if kinds.get(ether_type as usize) != Some(&kind(ether_type)) {
            return false;
        }
    }
    kinds.len() == 16
}

// Whether a reader gives so many events.
fn gives_so_many<I: ReadItems<Global, Item = Event<Global>>>(
    alloc: Global,
    items: &mut I,
    count: usize,
) -> bool {
    for _ in 0..count {
        if !matches!(items.read_item(alloc, &mut None), Ok(Some(_))) {
            return false;
        }
    }
    true
}

// The frames of further kinds.
const OTHERS: Total = Total {
    count: 4,
    first: 18,
};

// Whether all frames of the list are given, and sixteen kinds of them told apart.
fn are_told_apart(alloc: Global, text: &[u8]) -> bool {
    let mut items = SkipOther::new(events_of(text));
    if !gives_so_many(alloc, &mut items, TYPES.len()) {
        return false;
    }
    let passed = items.passed_over();
    are_all_kinds(passed.kinds()) && passed.others() == Some(OTHERS)
}

#[test]
fn sixteen_kinds_are_told_apart(rt: HostRuntime) -> Result<(), AllocError> {
    let text = list_of_types(rt.alloc())?;
    assert!(rt; are_told_apart(rt.alloc(), text.as_slice()));
    Ok(())
}
