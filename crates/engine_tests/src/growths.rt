//! The memory of an event, its line and what is told of it serves the next: past the first few events of one size, a run asks
//! for no memory, and it holds little at once. Names have 200 octets. Where `blocks`, `losses` and `publish` keep something of
//! an event, it is little.

use crate::engines::Example;
use crate::styles::{Case, STYLES, run_case};
use capture_core::PacketReader;
use engine_core::{Ending, Style};
use frame_engines::show_over;
use linked_list_allocator::LocalHeap;
use object_core::Form;
use std::alloc::{AllocError, Global};
use test_support::{FRAME, NEVER, RefusingAlloc, sink_of, source_of};

/// So many events, or pairs of them, have been read when no more memory is to be asked for, and so many in all.
const FEW: u32 = 10;

const MANY: u32 = 45;

/// So many octets a run may hold at once beside what it keeps of its events: some times an event, its line, or an object of it.
const LITTLE: usize = 8192;

/// What a run may ask for: so often more over many events than over few, and so many octets an event, which it keeps.
#[derive(Clone, Copy)]
struct Asks {
    growths: usize,
    octets: usize,
}

const NOTHING: Asks = Asks {
    growths: 0,
    octets: 0,
};

/// What an input has.
#[derive(Clone, Copy)]
enum Events {
    /// These lines, again and again.
    Lines(&'static [u8]),
    /// Frames of one control block, of which each has a confRev of its own.
    Revisions,
    /// Frames of control blocks, each with an APPID of its own.
    Blocks,
    /// Records of a capture, each with `FRAME`.
    Records,
    /// A script's changes.
    Changes,
    /// A script's polls.
    Polls,
}

// Two frames of a control block whose names have 200 octets. Between them a state and frames are missing: each is late, or
// ahead, behind the other.
const LOST: &[u8] =
    b"F 0 010ccd01000102000000000188b8000101c700000000618201bb8081c84747474747474747474747474747474747474747474747474747474747474747474747474747474747474747474747474747474747474747474747474747474747474747474747474747474747474747474747474747474747474747474747474747474747474747474747474747474747474747474747474747474747474747474747474747474747474747474747474747474747474747474747474747474747474747474747474747474747474747474747474747474747474747474747474747474747474747810207d08281c84444444444444444444444444444444444444444444444444444444444444444444444444444444444444444444444444444444444444444444444444444444444444444444444444444444444444444444444444444444444444444444444444444444444444444444444444444444444444444444444444444444444444444444444444444444444444444444444444444444444444444444444444444444444444444444444444444444444444444444444444444444444444444444444444444444444444444840800000000000000008501018601008701008801018901008a0101ab038301ff\nF 0 010ccd01000102000000000188b8000101c700000000618201bb8081c84747474747474747474747474747474747474747474747474747474747474747474747474747474747474747474747474747474747474747474747474747474747474747474747474747474747474747474747474747474747474747474747474747474747474747474747474747474747474747474747474747474747474747474747474747474747474747474747474747474747474747474747474747474747474747474747474747474747474747474747474747474747474747474747474747474747474747810207d08281c84444444444444444444444444444444444444444444444444444444444444444444444444444444444444444444444444444444444444444444444444444444444444444444444444444444444444444444444444444444444444444444444444444444444444444444444444444444444444444444444444444444444444444444444444444444444444444444444444444444444444444444444444444444444444444444444444444444444444444444444444444444444444444444444444444444444444444840800000000000000008501038601028701008801018901008a0101ab038301ff\n";

// A sample of a stream whose name has 200 octets.
const LONG_STREAM: &[u8] =
    b"F 0 010ccd04000102000000000188ba400000f0000000006081e5800101a281df3081dc8081c85353535353535353535353535353535353535353535353535353535353535353535353535353535353535353535353535353535353535353535353535353535353535353535353535353535353535353535353535353535353535353535353535353535353535353535353535353535353535353535353535353535353535353535353535353535353535353535353535353535353535353535353535353535353535353535353535353535353535353535353535353535353535353535353535353535353535353820200038304000000018501028702002a\n";

// A frame of the block of the examples.
const REPEATED: &[u8] =
    b"F 0 010ccd01000102000000000188b80001003500000000612b800147810207d0820144840800000000000000008501018601008701008801018901008a0101ab038301ff\n";

// A sample of the stream that is watched.
const WATCHED: &[u8] =
    b"F 0 010ccd04000102000000000188ba4000002500000000601b800101a2163014800153820200038304000000018501028702002a\n";

// A frame of one octet.
const CUT: &[u8] = b"F 0 00\n";

// The header of a classic capture, and the header of a record of `FRAME`.
const CAPTURE: &[u8] =
    b"\xd4\xc3\xb2\xa1\x02\x00\x04\x00\x00\x00\x00\x00\x00\x00\x00\x00\xff\xff\x00\x00\x01\x00\x00\x00";

const RECORD: &[u8] = b"\x01\x00\x00\x00\x02\x00\x00\x00\x43\x00\x00\x00\x43\x00\x00\x00";

// What a script says before its calls, and its first change.
const SET_UP: &[u8] = b"control,010ccd010001,020000000001,,0001,G,D,,1,1,0,0,1\nstep,10,2000\n";

const CHANGE: &[u8] = b"change,0,0000000000000000,8301ff\n";

// What comes before the events.
fn put_head(octets: &mut Vec<u8>, events: Events) -> Result<(), AllocError> {
    match events {
        Events::Records => octets.extend_from_slice(CAPTURE),
        Events::Changes => octets.extend_from_slice(SET_UP),
        Events::Polls => {
            octets.extend_from_slice(SET_UP)?;
            octets.extend_from_slice(CHANGE)
        }
        _ => Ok(()),
    }
}

// Appends the last two decimal digits of a number, which are an octet's hexadecimal digits too.
fn put_digits(octets: &mut Vec<u8>, number: u32) -> Result<(), AllocError> {
    octets.push(b'0' + (number / 10 % 10) as u8)?;
    octets.push(b'0' + (number % 10) as u8)?;
    Ok(())
}

// Appends a frame of the control block G with the data set D, an APPID and a confRev of at most two decimal digits.
fn put_frame(octets: &mut Vec<u8>, app_id: u32, revision: u32) -> Result<(), AllocError> {
    octets.extend_from_slice(b"F 0 010ccd01000102000000000188b800")?;
    put_digits(octets, app_id)?;
    octets.extend_from_slice(
        b"003500000000612b800147810207d0820144840800000000000000008501018601008701008801",
    )?;
    put_digits(octets, revision)?;
    octets.extend_from_slice(b"8901008a0101ab038301ff\n")
}

// Appends the event of a number below 100.
fn put_event(octets: &mut Vec<u8>, events: Events, number: u32) -> Result<(), AllocError> {
    match events {
        Events::Lines(lines) => octets.extend_from_slice(lines),
        Events::Revisions => put_frame(octets, 1, number),
        Events::Blocks => put_frame(octets, number, 1),
        Events::Records => {
            octets.extend_from_slice(RECORD)?;
            octets.extend_from_slice(FRAME.as_slice())
        }
        Events::Changes => octets.extend_from_slice(CHANGE),
        Events::Polls => octets.extend_from_slice(b"poll,0\n"),
    }
}

// An input of so many events.
fn input_of(memory: Global, events: Events, count: u32) -> Result<Vec<u8>, AllocError> {
    let mut octets = Vec::new(memory);
    put_head(&mut octets, events)?;
    for number in 0..count {
        put_event(&mut octets, events, number)?;
    }
    Ok(octets)
}

// How often a run asks for memory that has a heap of so many octets and reads all of its input; none where it does not.
fn growths(
    case: Case,
    memory: Global,
    heap: usize,
    octets: &[u8],
) -> Result<Option<usize>, AllocError> {
    let heap = LocalHeap::new(memory, heap)?;
    let alloc = RefusingAlloc::new(&heap, usize::MAX);
    let mut sink = sink_of(memory, 65536, NEVER);
    let (ending, _source) = run_case(case, &alloc, source_of(octets, 4096, NEVER), &mut sink);
    match ending {
        Ending::Done | Ending::Findings => Ok(Some(alloc.growths())),
        _ => Ok(None),
    }
}

// The same of `show` over a capture.
fn growths_of_capture(
    memory: Global,
    heap: usize,
    octets: &[u8],
) -> Result<Option<usize>, AllocError> {
    let heap = LocalHeap::new(memory, heap)?;
    let alloc = RefusingAlloc::new(&heap, usize::MAX);
    let mut sink = sink_of(memory, 65536, NEVER);
    let packets = PacketReader::new(&alloc, source_of(octets, 4096, NEVER));
    let stopped = show_over(&alloc, Style::Lines(Form::Text), packets, &mut sink);
    match stopped.ending {
        Ending::Done => Ok(Some(alloc.growths())),
        _ => Ok(None),
    }
}

// Whether a run over many events ended as it should, as that over few did, and asked for memory so often more at most.
fn is_within(few: Option<usize>, many: Option<usize>, more: usize) -> bool {
    match (few, many) {
        (Some(few), Some(many)) => many.saturating_sub(few) <= more,
        _ => false,
    }
}

// Whether an engine asks for so much at most.
fn asks_for(memory: Global, case: Case, events: Events, asks: Asks) -> Result<bool, AllocError> {
    let few = input_of(memory, events, FEW)?;
    let many = input_of(memory, events, MANY)?;
    let heap = LITTLE.saturating_add(asks.octets.saturating_mul(MANY as usize));
    Ok(is_within(
        growths(case, memory, heap, few.as_slice())?,
        growths(case, memory, heap, many.as_slice())?,
        asks.growths,
    ))
}

#[test]
fn memory_of_one_event_serves_the_next(rt: HostRuntime) -> Result<(), AllocError> {
    for (number, (example, events)) in [
        (Example::Show, Events::Lines(LOST)),
        (Example::Show, Events::Lines(LONG_STREAM)),
        (Example::Rewrite, Events::Lines(LOST)),
        (Example::Check, Events::Lines(CUT)),
        (Example::Blocks, Events::Lines(LOST)),
        (Example::Blocks, Events::Lines(LONG_STREAM)),
        (Example::Replay, Events::Lines(REPEATED)),
        (Example::Watch, Events::Lines(WATCHED)),
        (Example::Losses, Events::Lines(LOST)),
        (Example::Losses, Events::Lines(LONG_STREAM)),
        (Example::Publish, Events::Polls),
        (Example::Import, Events::Records),
    ]
    .iter()
    .enumerate()
    {
        let case = Case {
            example: *example,
            style: None,
        };
        assert!(rt;
            asks_for(rt.alloc(), case, *events, NOTHING)?,
            "row {number}"
        );
    }
    Ok(())
}

#[test]
fn memory_of_one_event_serves_the_next_in_each_style(rt: HostRuntime) -> Result<(), AllocError> {
    for (number, (example, lines)) in [
        (Example::Show, LOST),
        (Example::Check, CUT),
        (Example::Blocks, LOST),
        (Example::Replay, REPEATED),
        (Example::Watch, WATCHED),
        (Example::Losses, LOST),
    ]
    .iter()
    .enumerate()
    {
        for style in STYLES {
            let case = Case {
                example: *example,
                style: Some(style),
            };
            let events = Events::Lines(lines);
            assert!(rt;
                asks_for(rt.alloc(), case, events, NOTHING)?,
                "row {number}"
            );
        }
    }
    Ok(())
}

#[test]
fn memory_of_one_packet_serves_the_next(rt: HostRuntime) -> Result<(), AllocError> {
    let few = input_of(rt.alloc(), Events::Records, FEW)?;
    let many = input_of(rt.alloc(), Events::Records, MANY)?;
    let of_few = growths_of_capture(rt.alloc(), LITTLE, few.as_slice())?;
    let of_many = growths_of_capture(rt.alloc(), LITTLE, many.as_slice())?;
    assert!(rt; is_within(of_few, of_many, 0));
    Ok(())
}

// Of each of the 35 events more, `blocks` keeps the text of a block, `losses` what it knows of a sender, and `publish` the values
// of a change: these in place of those before. What blocks and senders are held in grows a few times beside.
#[test]
fn what_is_kept_of_an_event_is_little(rt: HostRuntime) -> Result<(), AllocError> {
    for (number, (example, events, growths, octets)) in [
        (Example::Blocks, Events::Revisions, 35usize, 0usize),
        (Example::Blocks, Events::Blocks, 45, 256),
        (Example::Losses, Events::Blocks, 45, 512),
        (Example::Publish, Events::Changes, 35, 0),
    ]
    .iter()
    .enumerate()
    {
        let case = Case {
            example: *example,
            style: None,
        };
        let asks = Asks {
            growths: *growths,
            octets: *octets,
        };
        assert!(rt; asks_for(rt.alloc(), case, *events, asks)?, "row {number}");
    }
    Ok(())
}
