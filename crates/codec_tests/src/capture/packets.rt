//! The packets of a capture, in both forms.

use capture_core::{CaptureCause, CaptureFault, PacketReader};
use list_core::{Event, EventKind, ReadError, Source};
use std::alloc::{AllocError, Allocator, Global};
use std::process::Abort;
use test_support::{NEVER, RefusingAlloc, source_of};

/// A packet: its number, its moment, and the octets of its frame, none where only time has passed.
type Told<'a> = (u64, u64, &'a [u8]);

const CLASSIC: &[u8] =
    b"\xd4\xc3\xb2\xa1\x02\x00\x04\x00\x00\x00\x00\x00\x00\x00\x00\x00\xff\xff\x00\x00\x01\x00\x00\x00";

/// 1 second and 2 microseconds, three octets of nine; and no octets.
const RECORDS: &[u8] =
    b"\x01\x00\x00\x00\x02\x00\x00\x00\x03\x00\x00\x00\x09\x00\x00\x00\xaa\xbb\xcc\x01\x00\x00\x00\x03\x00\x00\x00\x00\x00\x00\x00\x09\x00\x00\x00";

const SECTION: &[u8] =
    b"\x0a\x0d\x0d\x0a\x1c\x00\x00\x00\x4d\x3c\x2b\x1a\x01\x00\x00\x00\xff\xff\xff\xff\xff\xff\xff\xff\x1c\x00\x00\x00";

const BIG_SECTION: &[u8] =
    b"\x0a\x0d\x0d\x0a\x00\x00\x00\x1c\x1a\x2b\x3c\x4d\x00\x01\x00\x00\x00\x00\x00\x00\x00\x00\x00\x00\x00\x00\x00\x1c";

/// An interface of Ethernet in nanoseconds (code 9), an hour ahead (code 14).
const NANOSECONDS: &[u8] =
    b"\x01\x00\x00\x00\x28\x00\x00\x00\x01\x00\x00\x00\x00\x00\x00\x00\x09\x00\x01\x00\x09\x00\x00\x00\x0e\x00\x08\x00\x10\x0e\x00\x00\x00\x00\x00\x00\x28\x00\x00\x00";

/// The same of another link, in microseconds, most significant octet first.
const BIG_OTHER_LINK: &[u8] =
    b"\x00\x00\x00\x01\x00\x00\x00\x14\x00\x71\x00\x00\x00\x00\x00\x02\x00\x00\x00\x14";

/// 5,999 ticks on the first interface: three octets and their padding.
const PACKET: &[u8] =
    b"\x06\x00\x00\x00\x24\x00\x00\x00\x00\x00\x00\x00\x00\x00\x00\x00\x6f\x17\x00\x00\x03\x00\x00\x00\x09\x00\x00\x00\xaa\xbb\xcc\x00\x24\x00\x00\x00";

/// A simple packet of two octets, most significant octet first.
const BIG_SIMPLE: &[u8] =
    b"\x00\x00\x00\x03\x00\x00\x00\x14\x00\x00\x00\x02\x01\x02\x00\x00\x00\x00\x00\x14";

/// A block of another type.
const OTHER: &[u8] = b"\x09\x00\x00\x00\x10\x00\x00\x00\x01\x02\x03\x04\x10\x00\x00\x00";

/// What the packet is where it is the first or the second, and one whose time alone is told.
const FIRST: Told<'static> = (1, 3_600_000_005, b"\xaa\xbb\xcc");

const SECOND: Told<'static> = (2, 3_600_000_005, b"\xaa\xbb\xcc");

const THIRD: Told<'static> = (3, 3_600_000_005, b"");

/// A capture: its name, its parts, the packets that it gives, and in which packet it then stops for which cause, if not at
/// its end.
type Case = (
    &'static str,
    &'static [&'static [u8]],
    &'static [Told<'static>],
    Option<(u64, CaptureCause)>,
);

/// The fault of this cause in this packet.
fn refused(number: u64, cause: CaptureCause) -> Option<CaptureFault> {
    Some(CaptureFault { number, cause })
}

/// Whether an event is this one.
fn is_event<A: Allocator>(event: &Event<A>, moment: u64, octets: &[u8]) -> bool {
    event.moment == moment
        && match &event.kind {
            EventKind::Frame(frame) => frame.as_slice() == octets && !octets.is_empty(),
            EventKind::Clock => octets.is_empty(),
            EventKind::Mode(_) => false,
        }
}

/// Where the next answer is that the capture has stopped: its fault, if it is not at its end.
fn next_stop<R: Source, A: Allocator + Copy>(
    alloc: A,
    reader: &mut PacketReader<R, A>,
) -> Option<Option<CaptureFault>> {
    match reader.next(alloc, &mut None) {
        Ok(None) => Some(None),
        Err(ReadError::Fault(fault)) => Some(Some(fault)),
        _ => None,
    }
}

/// Whether the next answer is that the capture has stopped so.
fn stops<R: Source, A: Allocator + Copy>(
    alloc: A,
    reader: &mut PacketReader<R, A>,
    stop: Option<CaptureFault>,
) -> bool {
    next_stop(alloc, reader) == Some(stop)
        && match stop {
            Some(fault) => reader.number() == fault.number,
            None => true,
        }
}

/// Whether the next answer is this packet, which is kept as spare. None where memory is refused.
fn is_next<R: Source, A: Allocator + Copy>(
    alloc: A,
    reader: &mut PacketReader<R, A>,
    spare: &mut Option<Event<A>>,
    (number, moment, octets): Told<'_>,
) -> Option<bool> {
    match reader.next(alloc, spare) {
        Ok(Some(event)) => {
            let is_right = is_event(&event, moment, octets) && reader.number() == number;
            *spare = Some(event);
            Some(is_right)
        }
        Err(ReadError::Memory(_)) => None,
        _ => Some(false),
    }
}

/// Whether a source gives these packets, and then stops so, twice. None where memory is refused.
fn tells<R: Source + Drop, A: Allocator + Copy>(
    alloc: A,
    source: R,
    packets: &[Told<'_>],
    stop: Option<CaptureFault>,
) -> Option<bool> {
    let mut reader = PacketReader::new(alloc, source);
    let mut spare = None;
    for packet in packets {
        if !is_next(alloc, &mut reader, &mut spare, *packet)? {
            return Some(false);
        }
    }
    Some(stops(alloc, &mut reader, stop) && stops(alloc, &mut reader, stop))
}

/// Octets one behind another.
fn joined(alloc: Global, parts: &[&[u8]]) -> Result<Vec<u8, Global>, AllocError> {
    let mut octets = Vec::new(alloc);
    for part in parts {
        octets.extend_from_slice(part)?;
    }
    Ok(octets)
}

/// Whether the capture of these parts gives these packets and stops so, in pieces of any size.
fn says(
    alloc: Global,
    parts: &[&[u8]],
    packets: &[Told<'_>],
    stop: Option<(u64, CaptureCause)>,
) -> Result<bool, AllocError> {
    let stop = match stop {
        Some((number, cause)) => refused(number, cause),
        None => None,
    };
    let octets = joined(alloc, parts)?;
    let mut all = true;
    for at_most in 1..=40usize {
        all &= tells(
            alloc,
            source_of(octets.as_slice(), at_most, NEVER),
            packets,
            stop,
        ) == Some(true);
    }
    Ok(all)
}

/// Captures of both forms.
const FORMS: [Case; 13] = [
    (
        "records",
        &[CLASSIC, RECORDS],
        &[(1, 1_000_002, b"\xaa\xbb\xcc"), (2, 1_000_003, b"")],
        None,
    ),
    ("no record", &[CLASSIC], &[], None),
    ("nothing", &[], &[], Some((0, CaptureCause::CaptureShort))),
    (
        "a cut record",
        &[CLASSIC, b"\x00"],
        &[],
        Some((1, CaptureCause::CaptureShort)),
    ),
    (
        "another file",
        &[b"\x1f\x8b\x08\x00"],
        &[],
        Some((0, CaptureCause::CaptureHeader)),
    ),
    (
        "packets",
        &[SECTION, NANOSECONDS, PACKET, OTHER, PACKET],
        &[FIRST, SECOND],
        None,
    ),
    (
        "two sections of two orders",
        &[
            SECTION,
            NANOSECONDS,
            PACKET,
            PACKET,
            BIG_SECTION,
            BIG_OTHER_LINK,
            BIG_SIMPLE,
        ],
        &[FIRST, SECOND, THIRD],
        None,
    ),
    (
        "no section",
        &[PACKET],
        &[],
        Some((0, CaptureCause::CaptureHeader)),
    ),
    (
        "no interface",
        &[SECTION, PACKET],
        &[],
        Some((1, CaptureCause::Interface)),
    ),
    (
        "a later section has none",
        &[SECTION, NANOSECONDS, PACKET, SECTION, PACKET],
        &[FIRST],
        Some((2, CaptureCause::Interface)),
    ),
    (
        "a cut block",
        &[SECTION, NANOSECONDS, PACKET, b"\x09\x00"],
        &[FIRST],
        Some((2, CaptureCause::CaptureShort)),
    ),
    (
        "another length behind the body",
        &[
            SECTION,
            NANOSECONDS,
            b"\x06\x00\x00\x00\x24\x00\x00\x00\x00\x00\x00\x00\x00\x00\x00\x00\x6f\x17\x00\x00\x03\x00\x00\x00\x09\x00\x00\x00\xaa\xbb\xcc\x00\x23\x00\x00\x00",
        ],
        &[],
        Some((1, CaptureCause::BlockLength)),
    ),
    (
        "a length over the limit",
        &[SECTION, b"\x09\x00\x00\x00\x04\x00\x00\x01"],
        &[],
        Some((1, CaptureCause::BlockLength)),
    ),
];

/// The name of the first capture that gives other packets, or stops otherwise.
fn first_wrong(alloc: Global, cases: &[Case]) -> Option<&'static str> {
    for (name, parts, packets, stop) in cases {
        if says(alloc, parts, packets, *stop) != Ok(true) {
            return Some(*name);
        }
    }
    None
}

#[test]
fn captures_of_both_forms(rt: HostRuntime) {
    let wrong = first_wrong(rt.alloc(), &FORMS);
    assert!(rt; wrong == None, "{wrong:?}");
}

/// How many growths it takes to give these packets, where each is refused in turn. None where others are given, or where
/// memory is out behind them.
fn growths(memory: Global, octets: &[u8], packets: &[Told<'_>]) -> Option<usize> {
    for first_refused in 0..100usize {
        let alloc = RefusingAlloc::new(memory, first_refused);
        let told = tells(&alloc, source_of(octets, 7, NEVER), packets, None);
        if told.is_some() == alloc.has_refused() || told == Some(false) || alloc.blocks_out() != 0 {
            return None;
        }
        if !alloc.has_refused() {
            return Some(first_refused);
        }
    }
    None
}

#[test]
fn packets_where_each_growth_is_refused(rt: HostRuntime) -> Result<(), AllocError> {
    let octets = joined(rt.alloc(), &[SECTION, NANOSECONDS, PACKET, OTHER, PACKET])?;
    // the interfaces, and the first frame: the second takes its memory
    assert!(rt; growths(rt.alloc(), octets.as_slice(), &[FIRST, SECOND]) == Some(2));
    Ok(())
}

/// Where the header or first section of a capture ends, and each record or block behind: there it is whole.
struct Ends<'a> {
    first: usize,
    wholes: &'a [usize],
    packets: &'a [Told<'a>],
    /// Where these packets end.
    packets_end: &'a [usize],
}

/// The packets that are whole in so many octets of it.
fn packets_within<'a>(ends: &Ends<'a>, size: usize) -> &'a [Told<'a>] {
    let mut count = 0usize;
    for end in ends.packets_end {
        if *end <= size {
            count = count.saturating_add(1);
        }
    }
    ends.packets.get(..count).unwrap_or(ends.packets)
}

/// The fault of this cause behind so many octets and packets of it.
fn refused_behind(
    ends: &Ends<'_>,
    size: usize,
    packets: usize,
    cause: CaptureCause,
) -> Option<CaptureFault> {
    if size < ends.first {
        refused(0, cause)
    } else {
        refused((packets as u64).saturating_add(1), cause)
    }
}

/// Whether the capture of these octets says what so many of them say, where a read fails behind these.
fn fails_behind(alloc: Global, octets: &[u8], ends: &Ends<'_>, size: usize) -> bool {
    let packets = packets_within(ends, size);
    let stop = refused_behind(ends, size, packets.len(), CaptureCause::ReadFailed);
    tells(alloc, source_of(octets, 1, size as u64), packets, stop) == Some(true)
}

/// The same where the capture is cut behind these.
fn is_cut_behind(alloc: Global, octets: &[u8], ends: &Ends<'_>, size: usize) -> bool {
    let packets = packets_within(ends, size);
    let stop = if size == ends.first || ends.wholes.contains(&size) {
        None
    } else {
        refused_behind(ends, size, packets.len(), CaptureCause::CaptureShort)
    };
    let part = octets.get(..size).unwrap_or(octets);
    tells(alloc, source_of(part, 4096, NEVER), packets, stop) == Some(true)
}

/// The first count of octets of the capture of these parts behind which it is cut, or a read fails, and that says otherwise.
fn first_wrong_size(
    alloc: Global,
    parts: &[&[u8]],
    ends: &Ends<'_>,
) -> Result<Option<usize>, AllocError> {
    let octets = joined(alloc, parts)?;
    let octets = octets.as_slice();
    for size in 0..=octets.len() {
        if !is_cut_behind(alloc, octets, ends, size) || !fails_behind(alloc, octets, ends, size) {
            return Ok(Some(size));
        }
    }
    Ok(None)
}

const BLOCKS_END: Ends<'static> = Ends {
    first: 28,
    wholes: &[68, 104, 120, 156],
    packets: &[FIRST, SECOND],
    packets_end: &[104, 156],
};

const RECORDS_END: Ends<'static> = Ends {
    first: 24,
    wholes: &[43, 59],
    packets: &[(1, 1_000_002, b"\xaa\xbb\xcc"), (2, 1_000_003, b"")],
    packets_end: &[43, 59],
};

#[test]
fn captures_that_are_cut_or_fail(rt: HostRuntime) -> Result<(), AllocError> {
    let blocks = [SECTION, NANOSECONDS, PACKET, OTHER, PACKET];
    let wrong = first_wrong_size(rt.alloc(), &blocks, &BLOCKS_END)?;
    assert!(rt; wrong == None, "of blocks, behind {wrong:?}");
    let wrong = first_wrong_size(rt.alloc(), &[CLASSIC, RECORDS], &RECORDS_END)?;
    assert!(rt; wrong == None, "of records, behind {wrong:?}");
    Ok(())
}

/// An interface of Ethernet in microseconds, a second back, and one whose packets have two octets at most.
const BEFORE: &[u8] =
    b"\x01\x00\x00\x00\x20\x00\x00\x00\x01\x00\x00\x00\x00\x00\x00\x00\x0e\x00\x08\x00\xff\xff\xff\xff\xff\xff\xff\xff\x20\x00\x00\x00";

const SNAPPED: &[u8] =
    b"\x01\x00\x00\x00\x14\x00\x00\x00\x01\x00\x00\x00\x02\x00\x00\x00\x14\x00\x00\x00";

/// Captures with a block or record of each kind, or with one at fault.
const KINDS: [Case; 14] = [
    (
        "an obsolete packet",
        &[
            SECTION,
            NANOSECONDS,
            b"\x02\x00\x00\x00\x24\x00\x00\x00\x00\x00\xff\xff\x00\x00\x00\x00\x6f\x17\x00\x00\x03\x00\x00\x00\x09\x00\x00\x00\xaa\xbb\xcc\x00\x24\x00\x00\x00",
        ],
        &[FIRST],
        None,
    ),
    (
        "a simple packet of three octets, of which two were kept",
        &[
            SECTION,
            SNAPPED,
            b"\x03\x00\x00\x00\x14\x00\x00\x00\x03\x00\x00\x00\x01\x02\x03\x00\x14\x00\x00\x00",
        ],
        &[(1, 0, b"\x01\x02")],
        None,
    ),
    (
        "a time before 1970",
        &[SECTION, BEFORE, PACKET],
        &[],
        Some((1, CaptureCause::PacketTime)),
    ),
    (
        "a body that is no interface",
        &[
            SECTION,
            b"\x01\x00\x00\x00\x10\x00\x00\x00\x01\x00\x00\x00\x10\x00\x00\x00",
        ],
        &[],
        Some((1, CaptureCause::BlockForm)),
    ),
    (
        "an option past the end",
        &[
            SECTION,
            b"\x01\x00\x00\x00\x18\x00\x00\x00\x01\x00\x00\x00\x00\x00\x00\x00\x02\x00\x08\x00\x18\x00\x00\x00",
        ],
        &[],
        Some((1, CaptureCause::BlockForm)),
    ),
    (
        "a resolution of two octets",
        &[
            SECTION,
            b"\x01\x00\x00\x00\x1c\x00\x00\x00\x01\x00\x00\x00\x00\x00\x00\x00\x09\x00\x02\x00\x06\x06\x00\x00\x1c\x00\x00\x00",
        ],
        &[],
        Some((1, CaptureCause::BlockForm)),
    ),
    (
        "no octets where one was captured",
        &[
            SECTION,
            SNAPPED,
            b"\x06\x00\x00\x00\x20\x00\x00\x00\x00\x00\x00\x00\x00\x00\x00\x00\x00\x00\x00\x00\x01\x00\x00\x00\x01\x00\x00\x00\x20\x00\x00\x00",
        ],
        &[],
        Some((1, CaptureCause::BlockForm)),
    ),
    (
        "262,145 octets in a packet",
        &[
            SECTION,
            SNAPPED,
            b"\x06\x00\x00\x00\x20\x00\x00\x00\x00\x00\x00\x00\x00\x00\x00\x00\x00\x00\x00\x00\x01\x00\x04\x00\x01\x00\x04\x00\x20\x00\x00\x00",
        ],
        &[],
        Some((1, CaptureCause::RecordLength)),
    ),
    (
        "262,145 octets in a record",
        &[
            CLASSIC,
            b"\x01\x00\x00\x00\x02\x00\x00\x00\x01\x00\x04\x00\x09\x00\x00\x00",
        ],
        &[],
        Some((1, CaptureCause::RecordLength)),
    ),
    (
        "a block of 8 octets",
        &[SECTION, b"\x09\x00\x00\x00\x08\x00\x00\x00"],
        &[],
        Some((1, CaptureCause::BlockLength)),
    ),
    (
        "a block of 14 octets",
        &[SECTION, b"\x09\x00\x00\x00\x0e\x00\x00\x00"],
        &[],
        Some((1, CaptureCause::BlockLength)),
    ),
    (
        "a section header of 24 octets",
        &[b"\x0a\x0d\x0d\x0a\x18\x00\x00\x00\x4d\x3c\x2b\x1a"],
        &[],
        Some((0, CaptureCause::BlockLength)),
    ),
    (
        "a first section of version 2",
        &[
            b"\x0a\x0d\x0d\x0a\x1c\x00\x00\x00\x4d\x3c\x2b\x1a\x02\x00\x00\x00\xff\xff\xff\xff\xff\xff\xff\xff\x1c\x00\x00\x00",
        ],
        &[],
        Some((0, CaptureCause::CaptureHeader)),
    ),
    (
        "a later section of version 2",
        &[
            SECTION,
            b"\x0a\x0d\x0d\x0a\x1c\x00\x00\x00\x4d\x3c\x2b\x1a\x02\x00\x00\x00\xff\xff\xff\xff\xff\xff\xff\xff\x1c\x00\x00\x00",
        ],
        &[],
        Some((1, CaptureCause::BlockForm)),
    ),
];

#[test]
fn blocks_of_each_kind(rt: HostRuntime) {
    let wrong = first_wrong(rt.alloc(), &KINDS);
    assert!(rt; wrong == None, "{wrong:?}");
}

/// Captures in which two things are wrong, of which the first is told, and some at the edge of a cause.
const JUDGED: [Case; 11] = [
    (
        "two lengths, and an interface that is not described",
        &[
            SECTION,
            SNAPPED,
            b"\x06\x00\x00\x00\x24\x00\x00\x00\x01\x00\x00\x00\x00\x00\x00\x00\x6f\x17\x00\x00\x03\x00\x00\x00\x09\x00\x00\x00\xaa\xbb\xcc\x00\x20\x00\x00\x00",
        ],
        &[],
        Some((1, CaptureCause::BlockLength)),
    ),
    (
        "16 octets of a packet, and an interface that is not described",
        &[
            SECTION,
            SNAPPED,
            b"\x06\x00\x00\x00\x1c\x00\x00\x00\x01\x00\x00\x00\x00\x00\x00\x00\x00\x00\x00\x00\x00\x00\x00\x00\x1c\x00\x00\x00",
        ],
        &[],
        Some((1, CaptureCause::BlockForm)),
    ),
    (
        "262,145 octets, and an interface that is not described",
        &[
            SECTION,
            SNAPPED,
            b"\x06\x00\x00\x00\x20\x00\x00\x00\x01\x00\x00\x00\x00\x00\x00\x00\x00\x00\x00\x00\x01\x00\x04\x00\x01\x00\x04\x00\x20\x00\x00\x00",
        ],
        &[],
        Some((1, CaptureCause::Interface)),
    ),
    (
        "octets past the end, and a time before 1970",
        &[
            SECTION,
            BEFORE,
            b"\x06\x00\x00\x00\x24\x00\x00\x00\x00\x00\x00\x00\x00\x00\x00\x00\x6f\x17\x00\x00\x05\x00\x00\x00\x09\x00\x00\x00\xaa\xbb\xcc\xdd\x24\x00\x00\x00",
        ],
        &[],
        Some((1, CaptureCause::BlockForm)),
    ),
    (
        "the last time",
        &[
            SECTION,
            SNAPPED,
            b"\x06\x00\x00\x00\x24\x00\x00\x00\x00\x00\x00\x00\xb3\xb6\xe0\x0d\xff\xff\x63\xa7\x03\x00\x00\x00\x09\x00\x00\x00\xaa\xbb\xcc\x00\x24\x00\x00\x00",
        ],
        &[(1, 999_999_999_999_999_999, b"\xaa\xbb\xcc")],
        None,
    ),
    (
        "a microsecond more",
        &[
            SECTION,
            SNAPPED,
            b"\x06\x00\x00\x00\x24\x00\x00\x00\x00\x00\x00\x00\xb3\xb6\xe0\x0d\x00\x00\x64\xa7\x03\x00\x00\x00\x09\x00\x00\x00\xaa\xbb\xcc\x00\x24\x00\x00\x00",
        ],
        &[],
        Some((1, CaptureCause::PacketTime)),
    ),
    (
        "a simple packet and no interface",
        &[
            SECTION,
            b"\x03\x00\x00\x00\x14\x00\x00\x00\x03\x00\x00\x00\x01\x02\x03\x00\x14\x00\x00\x00",
        ],
        &[],
        Some((1, CaptureCause::Interface)),
    ),
    (
        "an offset of four octets",
        &[
            SECTION,
            b"\x01\x00\x00\x00\x1c\x00\x00\x00\x01\x00\x00\x00\x00\x00\x00\x00\x0e\x00\x04\x00\x10\x0e\x00\x00\x1c\x00\x00\x00",
        ],
        &[],
        Some((1, CaptureCause::BlockForm)),
    ),
    (
        "another byte-order magic, and a section header of 24 octets",
        &[b"\x0a\x0d\x0d\x0a\x18\x00\x00\x00\x01\x02\x03\x04"],
        &[],
        Some((0, CaptureCause::CaptureHeader)),
    ),
    (
        "another byte-order magic behind a packet",
        &[
            SECTION,
            NANOSECONDS,
            PACKET,
            b"\x0a\x0d\x0d\x0a\x1c\x00\x00\x00\x01\x02\x03\x04",
        ],
        &[FIRST],
        Some((2, CaptureCause::BlockForm)),
    ),
    (
        "four octets of no format",
        &[b"\xd4\xc3\xb2\xa2"],
        &[],
        Some((0, CaptureCause::CaptureHeader)),
    ),
];

#[test]
fn the_first_of_two_faults(rt: HostRuntime) {
    let wrong = first_wrong(rt.alloc(), &JUDGED);
    assert!(rt; wrong == None, "{wrong:?}");
}
