//! The packets of a capture in pcapng.

use crate::capture::{place_in_frame, put_frame, put_quad};
use crate::chance::Chance;
use crate::feed::Maker;
use crate::sender::{FIRST, LAST, Sender, WORD_DIGITS, behind};
use crate::traffic::few;
use std::alloc::{AllocError, Global};

/// The time of the first packet, in nanoseconds.
const START: u64 = 1_700_000_000_000_000_000;

/// A section, and two interfaces of Ethernet whose times are nanoseconds.
const HEAD: [[u8; 4]; 23] = [
    *b"\x0a\x0d\x0d\x0a",
    [28, 0, 0, 0],
    [0x4D, 0x3C, 0x2B, 0x1A],
    [1, 0, 0, 0],
    [0xFF; 4],
    [0xFF; 4],
    [28, 0, 0, 0],
    [1, 0, 0, 0],
    [32, 0, 0, 0],
    [1, 0, 0, 0],
    [0, 0, 4, 0],
    [9, 0, 1, 0],
    [9, 0, 0, 0],
    [0; 4],
    [32, 0, 0, 0],
    [1, 0, 0, 0],
    [32, 0, 0, 0],
    [1, 0, 0, 0],
    [0, 0, 4, 0],
    [9, 0, 1, 0],
    [9, 0, 0, 0],
    [0; 4],
    [32, 0, 0, 0],
];

/// How many octets stand before a packet's frame, and how many behind its padding.
const BLOCK_HEAD: usize = 28;

const BLOCK_END: usize = 4;

/// Of a thousand packets so many are of another protocol. Of a thousand frames so many are of the next state, come twice, or come
/// where one was lost.
const OTHERS: u64 = 100;

const CHANGES: u64 = 20;

const TWICE: u64 = 10;

const LOST: u64 = 5;

/// The counts of a second.
const PERIOD: u16 = 4000;

/// A packet's block, whose numbers go on.
#[derive(Drop)]
struct Packet {
    octets: Vec<u8, Global>,
    /// Where stNum is, sqNum, and each smpCnt.
    state_at: Option<usize>,
    sequence_at: Option<usize>,
    counts_at: Vec<usize, Global>,
    state: u16,
    sequence: u16,
    count: u16,
}

/// The packets of a capture, from senders that are drawn by chance, with those of others between.
#[derive(Drop)]
pub struct Packets {
    /// Those of the senders, and then those of others.
    packets: Vec<Packet, Global>,
    senders: usize,
    chance: Chance,
    longest_wait: u32,
    now: u64,
    count: u64,
    left: u64,
}

// Writes a number of two octets at a place, the most significant first.
fn put_pair(octets: &mut [u8], from: usize, number: u16) {
    if let Some(pair) = behind(octets, from).first_chunk_mut::<2>() {
        *pair = number.to_be_bytes();
    }
}

// The place in a packet's block of a place in the digits of its line.
fn place_in_block(place: usize) -> usize {
    place_in_frame(place).saturating_add(BLOCK_HEAD)
}

// The block of a sender's line, on this interface.
fn packet_of(alloc: Global, sender: &Sender, interface: u64) -> Result<Packet, AllocError> {
    let mut octets = Vec::new(alloc);
    octets.extend_from_slice(&[0; BLOCK_HEAD])?;
    put_frame(&mut octets, sender)?;
    let size = octets.len().saturating_sub(BLOCK_HEAD) as u64;
    for _octet in 0..(4 - octets.len() % 4) % 4 {
        octets.push(0)?;
    }
    octets.extend_from_slice(&[0; BLOCK_END])?;
    let total = octets.len();
    for (from, number) in [
        (0usize, 6u64),
        (4, total as u64),
        (8, interface),
        (20, size),
        (24, size),
        (total.saturating_sub(BLOCK_END), total as u64),
    ] {
        put_quad(&mut octets, from, number);
    }
    let mut counts_at = Vec::new(alloc);
    for digits in sender.places_of_counts().chunks(WORD_DIGITS) {
        for first in digits.first() {
            counts_at.push(place_in_block(*first))?;
        }
    }
    Ok(Packet {
        octets,
        state_at: sender.place_of_state().map(place_in_block),
        sequence_at: sender.place_of_sequence().map(place_in_block),
        counts_at,
        state: FIRST,
        sequence: FIRST,
        count: 0,
    })
}

// Appends the blocks of senders, by turns on both interfaces.
fn put_packets(
    alloc: Global,
    packets: &mut Vec<Packet, Global>,
    senders: &[Sender],
) -> Result<(), AllocError> {
    for (at, sender) in senders.iter().enumerate() {
        packets.push(packet_of(alloc, sender, (at % 2) as u64)?)?;
    }
    Ok(())
}

// The number after this one, among those of two octets.
fn next(number: u16) -> u16 {
    if number < LAST { number + 1 } else { FIRST }
}

impl Packet {
    // Goes on, where this was drawn out of a thousand.
    fn go_on(&mut self, draw: u64) {
        if draw < CHANGES {
            self.state = next(self.state);
            self.sequence = FIRST;
        } else if draw >= CHANGES + TWICE {
            self.sequence = next(self.sequence);
        }
        if draw >= 1000 - LOST {
            self.sequence = next(self.sequence);
            self.count = (self.count % PERIOD + self.counts_at.len().min(8) as u16) % PERIOD;
        }
        if let Some(at) = self.state_at {
            put_pair(&mut self.octets, at, self.state);
        }
        if let Some(at) = self.sequence_at {
            put_pair(&mut self.octets, at, self.sequence);
        }
        for at in &self.counts_at {
            put_pair(&mut self.octets, *at, self.count);
            self.count = (self.count % PERIOD + 1) % PERIOD;
        }
    }

    // Has this time, in nanoseconds.
    fn stamp(&mut self, now: u64) {
        put_quad(&mut self.octets, 12, now >> 32);
        put_quad(&mut self.octets, 16, now);
    }
}

impl Packets {
    pub fn new(
        alloc: Global,
        senders: &[Sender],
        others: &[Sender],
        chance: Chance,
        longest_wait: u32,
        count: u64,
    ) -> Result<Packets, AllocError> {
        let mut packets = Vec::new(alloc);
        put_packets(alloc, &mut packets, senders)?;
        put_packets(alloc, &mut packets, others)?;
        Ok(Packets {
            packets,
            senders: senders.len(),
            chance,
            longest_wait,
            now: START,
            count,
            left: count,
        })
    }

    // The place of a packet by chance.
    fn drawn(&mut self) -> usize {
        if self.chance.below(1000) < OTHERS {
            let others = self.packets.len().saturating_sub(self.senders);
            let at = self.chance.below(few(others)) as usize;
            self.senders.saturating_add(at)
        } else {
            self.chance.below(few(self.senders)) as usize
        }
    }
}

impl Maker for Packets {
    fn append(&mut self, made: &mut Vec<u8, Global>) -> Result<bool, AllocError> {
        if self.left == 0 {
            return Ok(false);
        }
        if self.left == self.count {
            made.extend_from_slice(HEAD.as_flattened())?;
        }
        self.left -= 1;
        let wait = self.chance.below(self.longest_wait);
        self.now = self.now.saturating_add(wait);
        let at = self.drawn();
        let draw = self.chance.below(1000);
        if let Some(packet) = self.packets.get_mut(at) {
            packet.go_on(draw);
            packet.stamp(self.now);
            made.extend_from_slice(packet.octets.as_slice())?;
        }
        Ok(true)
    }
}
