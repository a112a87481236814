//! The records of a capture.

use crate::chance::Chance;
use crate::feed::Maker;
use crate::sender::{Sender, behind};
use crate::traffic::few;
use std::alloc::{AllocError, Global};

/// The time of the first record, in seconds.
const START: u64 = 1_700_000_000;

/// The header: microseconds in little-endian order, Ethernet.
const HEADER: [u8; 24] = [
    0xD4, 0xC3, 0xB2, 0xA1, 2, 0, 4, 0, 0, 0, 0, 0, 0, 0, 0, 0, 0xFF, 0xFF, 0, 0, 1, 0, 0, 0,
];

/// How many octets stand before a record's frame.
const RECORD_HEAD: usize = 16;

/// How many octets of a line stand before the digits of its frame.
const LINE_HEAD: usize = 19;

/// A record whose sqNum goes on.
#[derive(Drop)]
struct Record {
    octets: Vec<u8, Global>,
    /// Where sqNum is.
    at: Option<usize>,
    number: u16,
}

/// The records of a capture, from senders that are drawn by chance.
#[derive(Drop)]
pub struct Records {
    records: Vec<Record, Global>,
    chance: Chance,
    micros: u64,
    count: u64,
    left: u64,
}

/// The place in a frame of a place in the digits of its line.
pub fn place_in_frame(place: usize) -> usize {
    place.saturating_sub(LINE_HEAD) / 2
}

/// Appends the frame of a sender's line.
pub fn put_frame(octets: &mut Vec<u8, Global>, sender: &Sender) -> Result<(), AllocError> {
    let digits = match sender.line.get(LINE_HEAD..) {
        Some(digits) => digits,
        None => &[],
    };
    for pair in digits.chunks_exact(2) {
        let mut octet = 0u8;
        for digit in pair {
            let value = match *digit {
                b'a'..=b'f' => *digit - b'a' + 10,
                _ => digit.wrapping_sub(b'0') % 16,
            };
            octet = (octet % 16) * 16 + value;
        }
        octets.push(octet)?;
    }
    Ok(())
}

// The record of a sender's line.
fn record_of(alloc: Global, sender: &Sender) -> Result<Record, AllocError> {
    let mut octets = Vec::new(alloc);
    octets.extend_from_slice(&[0; RECORD_HEAD])?;
    put_frame(&mut octets, sender)?;
    let size = octets.len().saturating_sub(RECORD_HEAD) as u64;
    for from in [8usize, 12] {
        put_quad(&mut octets, from, size);
    }
    Ok(Record {
        octets,
        at: sender
            .place_of_sequence()
            .map(|place| place_in_frame(place).saturating_add(RECORD_HEAD)),
        number: 0x0100,
    })
}

/// Writes a number of four octets at a place, the least significant first.
pub fn put_quad(octets: &mut [u8], from: usize, number: u64) {
    if let Some(quad) = behind(octets, from).first_chunk_mut::<4>() {
        *quad = ((number % 0x1_0000_0000) as u32).to_le_bytes();
    }
}

impl Records {
    pub fn new(
        alloc: Global,
        senders: &[Sender],
        chance: Chance,
        count: u64,
    ) -> Result<Records, AllocError> {
        let mut records = Vec::new(alloc);
        for sender in senders {
            records.push(record_of(alloc, sender)?)?;
        }
        Ok(Records {
            records,
            chance,
            micros: 0,
            count,
            left: count,
        })
    }
}

impl Maker for Records {
    fn append(&mut self, made: &mut Vec<u8, Global>) -> Result<bool, AllocError> {
        if self.left == 0 {
            return Ok(false);
        }
        if self.left == self.count {
            made.extend_from_slice(&HEADER)?;
        }
        self.left -= 1;
        self.micros = self.micros.saturating_add(self.chance.below(500));
        let at = self.chance.below(few(self.records.len())) as usize;
        let Some(record) = self.records.get_mut(at) else {
            return Ok(true);
        };
        record.number = 0x0100 + record.number.wrapping_add(1) % 0x6000;
        put_quad(&mut record.octets, 0, START + self.micros / 1_000_000);
        put_quad(&mut record.octets, 4, self.micros % 1_000_000);
        if let Some(at) = record.at {
            if let Some(word) = behind(&mut record.octets, at).first_chunk_mut::<2>() {
                *word = record.number.to_be_bytes();
            }
        }
        made.extend_from_slice(&record.octets)?;
        Ok(true)
    }
}
