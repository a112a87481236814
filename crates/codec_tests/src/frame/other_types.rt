//! The EtherType of frames of other protocols.

use crate::frame::frames::TAGGED;
use frame_core::other_ether_type;
use test_support::FRAME;

// Twelve octets of addresses, and what follows them.
const ARP: [u8; 16] = [
    0xff, 0xff, 0xff, 0xff, 0xff, 0xff, 2, 0, 0, 0, 0, 1, 0x08, 0x06, 0, 1,
];

// The same behind a tag.
const TAGGED_PTP: [u8; 18] = [
    1, 0x1b, 0x19, 0, 0, 0, 2, 0, 0, 0, 0, 1, 0x81, 0x00, 0x80, 0, 0x88, 0xf7,
];

// A second tag is not read.
const TWICE_TAGGED: [u8; 18] = [
    1, 0x0c, 0xcd, 1, 0, 1, 2, 0, 0, 0, 0, 1, 0x88, 0xa8, 0, 5, 0x88, 0xb8,
];

// Frames, and the EtherType of those of other protocols. Where it is not there whole, none is answered.
const TYPES: [(&[u8], Option<u16>); 10] = [
    (&ARP, Some(0x0806)),
    (&TAGGED_PTP, Some(0x88f7)),
    (&TWICE_TAGGED, Some(0x88a8)),
    (&FRAME, None),
    (&TAGGED, None),
    (&[], None),
    (&[0; 13], None),
    // A tag that ends before the EtherType behind it does.
    (
        &[0, 0, 0, 0, 0, 0, 0, 0, 0, 0, 0, 0, 0x81, 0, 0, 0, 8],
        None,
    ),
    // An EtherType of 0 is one, and a frame of another protocol is never too long.
    (&[0; 1600], Some(0)),
    (&[0; 1601], Some(0)),
];

#[test]
fn the_type_of_another_protocol(rt: HostRuntime) {
    let mut case = 0u32;
    for (octets, wanted) in TYPES {
        assert!(rt; other_ether_type(octets) == wanted, "case {case}");
        case = case.saturating_add(1);
    }
}

#[test]
fn a_long_frame_of_goose_is_of_no_other_protocol(rt: HostRuntime) {
    let mut octets = [0u8; 1601];
    octets[12] = 0x88;
    octets[13] = 0xb8;
    assert!(rt; other_ether_type(&octets) == None);
    octets[13] = 0xb9;
    assert!(rt; other_ether_type(&octets) == Some(0x88b9));
}
