//! A line that is sent again and again with other digits.

use crate::chance::Chance;
use crate::shapes::Shape;
use std::alloc::{AllocError, Global};

const DIGITS: [u8; 16] = *b"0123456789abcdef";

/// Where the digits of a time are in a line of a list.
pub const LINE_MOMENT: usize = 2;

/// Half of the digits of a time, and how many numbers they write.
const HALF_DIGITS: usize = 8;

const HALF_UNITS: u64 = 100_000_000;

/// How many decimal digits a sender's number has in texts.
const NAME_DIGITS: usize = 5;

/// How many hexadecimal digits a number of two octets has.
pub const WORD_DIGITS: usize = 4;

/// The least and the greatest stNum and sqNum: those of two octets.
pub const FIRST: u16 = 0x0100;

pub const LAST: u16 = 0x7F00;

/// The digit of a number below 16.
pub fn digit(number: u64) -> u8 {
    DIGITS[(number % 16) as usize]
}

/// What is from a place on.
pub fn behind(octets: &mut [u8], from: usize) -> &mut [u8] {
    let at = from.min(octets.len());
    &mut octets[at..]
}

// Writes eight decimal digits of a number.
fn write_half(line: &mut [u8], number: u32) {
    let mut left = number;
    if let Some(digits) = line.first_chunk_mut::<HALF_DIGITS>() {
        for digit in digits.iter_mut().rev() {
            *digit = b'0' + (left % 10) as u8;
            left /= 10;
        }
    }
}

/// Writes a time of sixteen digits from this place on.
pub fn write_moment(line: &mut [u8], from: usize, moment: u64) {
    let (head, tail) = (moment / HALF_UNITS, moment % HALF_UNITS);
    write_half(behind(line, from), (head % HALF_UNITS) as u32);
    write_half(behind(line, from.saturating_add(HALF_DIGITS)), tail as u32);
}

// The places of a mark.
fn places_of(alloc: Global, line: &[u8], mark: u8) -> Result<Vec<usize, Global>, AllocError> {
    let mut places = Vec::new(alloc);
    for (place, octet) in line.iter().enumerate() {
        if *octet == mark {
            places.push(place)?;
        }
    }
    Ok(places)
}

// Writes a digit at a place.
fn put(line: &mut [u8], place: usize, octet: u8) {
    if let Some(at) = line.get_mut(place) {
        *at = octet;
    }
}

// Writes a number of two octets at four places.
fn put_word(line: &mut [u8], places: &[usize], number: u16) {
    let mut left = u64::from(number);
    for place in places.iter().rev() {
        put(line, *place, digit(left));
        left /= 16;
    }
}

/// A line with the places of its digits.
#[derive(Drop)]
pub struct Sender {
    pub line: Vec<u8, Global>,
    names: Vec<usize, Global>,
    words: Vec<usize, Global>,
    state: Vec<usize, Global>,
    sequence: Vec<usize, Global>,
    simulation: Vec<usize, Global>,
    flags: Vec<usize, Global>,
    values: Vec<usize, Global>,
    counts: Vec<usize, Global>,
    status_number: u16,
    sequence_number: u16,
    count: u16,
}

impl Sender {
    /// The sender of this number, of lines of this shape.
    pub fn new(
        alloc: Global,
        shape: Shape,
        number: u64,
        chance: &mut Chance,
    ) -> Result<Sender, AllocError> {
        let mut line = Vec::new(alloc);
        line.extend_from_slice(shape.head)?;
        for _piece in 0..shape.count {
            line.extend_from_slice(shape.piece)?;
        }
        line.push(b'\n')?;
        let mut sender = Sender {
            names: places_of(alloc, &line, b'N')?,
            words: places_of(alloc, &line, b'P')?,
            state: places_of(alloc, &line, b'S')?,
            sequence: places_of(alloc, &line, b'Q')?,
            simulation: places_of(alloc, &line, b'Y')?,
            flags: places_of(alloc, &line, b'Z')?,
            values: places_of(alloc, &line, b'X')?,
            counts: places_of(alloc, &line, b'K')?,
            line,
            status_number: FIRST,
            sequence_number: FIRST,
            count: (chance.below(4000) % 4000) as u16,
        };
        sender.rename(number);
        sender.simulate(false);
        sender.change(chance);
        sender.sample(0, chance);
        Ok(sender)
    }

    /// Gives the sender another number.
    pub fn rename(&mut self, number: u64) {
        for name in self.names.chunks(NAME_DIGITS) {
            let mut left = number;
            for place in name.iter().rev() {
                put(&mut self.line, *place, digit(left % 10));
                left /= 10;
            }
        }
        for word in self.words.chunks(WORD_DIGITS) {
            put_word(&mut self.line, word, (number % 65536) as u16);
        }
    }

    /// The first place of stNum.
    pub fn place_of_state(&self) -> Option<usize> {
        self.state.first().copied()
    }

    /// The first place of sqNum.
    pub fn place_of_sequence(&self) -> Option<usize> {
        self.sequence.first().copied()
    }

    /// The places of the digits of each smpCnt, four by four.
    pub fn places_of_counts(&self) -> &[usize] {
        self.counts.as_slice()
    }

    /// Marks the frames as simulated, or as real.
    pub fn simulate(&mut self, is_simulated: bool) {
        for place in &self.simulation {
            put(
                &mut self.line,
                *place,
                if is_simulated { b'f' } else { b'0' },
            );
        }
    }

    // Writes other values.
    fn write_values(&mut self, chance: &mut Chance) {
        for places in self.values.chunks(16) {
            let mut bits = chance.bits();
            for place in places {
                put(&mut self.line, *place, digit(bits));
                bits /= 16;
            }
        }
    }

    /// Goes on to the next state, with other values.
    pub fn change(&mut self, chance: &mut Chance) {
        for flag in self.flags.chunks(2) {
            let octet = if chance.below(10) < 3 { b'f' } else { b'0' };
            for place in flag {
                put(&mut self.line, *place, octet);
            }
        }
        self.write_values(chance);
        self.status_number = if self.status_number < LAST {
            self.status_number + 1
        } else {
            FIRST
        };
        put_word(&mut self.line, &self.state, self.status_number);
        self.sequence_number = FIRST;
        put_word(&mut self.line, &self.sequence, FIRST);
    }

    /// Goes on to a later frame of the state.
    pub fn go_on(&mut self, by: u16) {
        self.sequence_number = if self.sequence_number < LAST - by % 16 {
            self.sequence_number + by % 16
        } else {
            FIRST
        };
        put_word(&mut self.line, &self.sequence, self.sequence_number);
    }

    /// Writes the number of an earlier state, or the present one again.
    pub fn look_back(&mut self, by: u16) {
        put_word(
            &mut self.line,
            &self.state,
            self.status_number.saturating_sub(by),
        );
    }

    /// Goes on by so many samples for each ASDU, with other values; so many are lost before.
    pub fn sample(&mut self, lost: u16, chance: &mut Chance) {
        if self.counts.is_empty() {
            return;
        }
        self.write_values(chance);
        self.count = (self.count.saturating_add(lost)) % 4000;
        for count in self.counts.chunks(WORD_DIGITS) {
            put_word(&mut self.line, count, self.count);
            self.count = (self.count.saturating_add(1)) % 4000;
        }
    }
}
