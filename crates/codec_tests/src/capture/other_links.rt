//! Packets that were not captured on Ethernet, by the types of their links.

use capture_core::PacketReader;
use list_core::Source;
use std::alloc::{AllocError, Allocator, Global};
use tally_core::{KindTally, KindTotal, Total};
use test_support::{NEVER, source_of};

/// A section of which the interfaces are of link type 113, of Ethernet, and of 105. Then a packet of Ethernet and of no octets; of the first
/// interface, with an octet; of the third one; of the first one without octets; and of that once more, which is cut.
const PARTS: [&[u8]; 9] = [
    b"\x0a\x0d\x0d\x0a\x1c\x00\x00\x00\x4d\x3c\x2b\x1a\x01\x00\x00\x00\xff\xff\xff\xff\xff\xff\xff\xff\x1c\x00\x00\x00",
    b"\x01\x00\x00\x00\x14\x00\x00\x00\x71\x00\x00\x00\x00\x00\x00\x00\x14\x00\x00\x00",
    b"\x01\x00\x00\x00\x14\x00\x00\x00\x01\x00\x00\x00\x00\x00\x00\x00\x14\x00\x00\x00",
    b"\x01\x00\x00\x00\x14\x00\x00\x00\x69\x00\x00\x00\x00\x00\x00\x00\x14\x00\x00\x00",
    b"\x06\x00\x00\x00\x20\x00\x00\x00\x01\x00\x00\x00\x00\x00\x00\x00\x05\x00\x00\x00\x00\x00\x00\x00\x00\x00\x00\x00\x20\x00\x00\x00",
    b"\x06\x00\x00\x00\x24\x00\x00\x00\x00\x00\x00\x00\x00\x00\x00\x00\x06\x00\x00\x00\x01\x00\x00\x00\x01\x00\x00\x00\xaa\x00\x00\x00\x24\x00\x00\x00",
    b"\x06\x00\x00\x00\x20\x00\x00\x00\x02\x00\x00\x00\x00\x00\x00\x00\x07\x00\x00\x00\x00\x00\x00\x00\x00\x00\x00\x00\x20\x00\x00\x00",
    b"\x03\x00\x00\x00\x10\x00\x00\x00\x00\x00\x00\x00\x10\x00\x00\x00",
    b"\x06\x00\x00\x00\x20\x00\x00\x00\x00\x00\x00\x00\x00\x00\x00\x00\x07\x00\x00\x00\x00\x00\x00\x00\x00\x00\x00\x00",
];

/// What is kept of those on other links.
const LINKS: [KindTotal; 2] = [
    KindTotal {
        kind: 113,
        total: Total { count: 2, first: 2 },
    },
    KindTotal {
        kind: 105,
        total: Total { count: 1, first: 3 },
    },
];

// Whether a reader gives so many packets, and then the capture's fault.
fn is_cut_behind<R: Source, A: Allocator + Copy>(
    alloc: A,
    reader: &mut PacketReader<R, A>,
    count: u64,
) -> bool {
    for _ in 0..count {
        if !matches!(reader.next(alloc, &mut None), Ok(Some(_))) {
            return false;
        }
    }
    reader.next(alloc, &mut None).is_err() && reader.number() == count.saturating_add(1)
}

// Whether that is kept.
fn are_kept(links: &KindTally) -> bool {
    links.kinds() == LINKS.as_slice() && links.others() == None
}

// Whether that is kept of these octets, while the reader reads and once it is taken apart.
fn are_counted(alloc: Global, octets: &[u8]) -> bool {
    let mut reader = PacketReader::new(alloc, source_of(octets, 7, NEVER));
    if !reader.other_links().kinds().is_empty() {
        return false;
    }
    is_cut_behind(alloc, &mut reader, 4)
        && are_kept(reader.other_links())
        && are_kept(&reader.into_parts().1)
}

#[test]
fn packets_of_other_links_are_counted(rt: HostRuntime) -> Result<(), AllocError> {
    let mut octets = Vec::new(rt.alloc());
    for part in PARTS {
        octets.extend_from_slice(part)?;
    }
    assert!(rt; are_counted(rt.alloc(), octets.as_slice()));
    Ok(())
}
