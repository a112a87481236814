//! What is written is digested.
ghost use Rattle.std.specs.Prelude.{◌≡◌, IfOk, None, false};

use list_core::{DeviceFault, Sink};
use std::alloc::{AllocError, Global};

/// From how many octets on they are mixed in.
const BLOCK: usize = 16384;

/// How many octets are mixed in at once, eight in each lane.
const MIXED: usize = 32;

/// Octets that are mixed together, in whatever pieces they come.
#[derive(Drop)]
struct Mixture {
    held: Vec<u8, Global>,
    lanes: [u64; 4],
    count: u64,
}

/// A digest of all octets that were written.
#[derive(Drop)]
pub struct Digest {
    mixture: Mixture,
    failed: bool,
}

// The number that eight octets are.
fn word(octets: &[u8]) -> u64 {
    match octets.first_chunk::<8>() {
        Some(octets) => u64::from_le_bytes(*octets),
        None => 0,
    }
}

// Mixes a number into a lane.
fn mixed(lane: u64, word: u64) -> u64 {
    (lane ^ word)
        .wrapping_mul(0x9E37_79B9_7F4A_7C15)
        .rotate_left(29)
}

/// Folds a number into one that tells those before.
pub fn folded(told: u64, number: u64) -> u64 {
    let told = mixed(told, number);
    told ^ told >> 31
}

impl Mixture {
    // Mixes in the pieces that are held whole.
    fn mix(&mut self) {
        let [mut a, mut b, mut c, mut d] = self.lanes;
        let (pieces, _) = self.held.as_chunks::<MIXED>();
        for piece in pieces {
            a = mixed(a, word(&piece[..8]));
            b = mixed(b, word(&piece[8..16]));
            c = mixed(c, word(&piece[16..24]));
            d = mixed(d, word(&piece[24..]));
        }
        self.lanes = [a, b, c, d];
        let rest = self.held.len() % MIXED;
        let from = self.held.len() - rest;
        self.held.copy_within(from.., 0);
        self.held.truncate(rest);
    }

    // Takes in octets.
    fn take(&mut self, octets: &[u8]) -> Result<(), AllocError> {
        self.held.extend_from_slice(octets)?;
        self.count = self.count.wrapping_add(octets.len() as u64);
        if self.held.len() >= BLOCK {
            self.mix();
        }
        Ok(())
    }

    // The number of all octets.
    fn told(&mut self) -> Result<u64, AllocError> {
        let mut told = self.count;
        self.take(&[0; MIXED])?;
        self.mix();
        for lane in self.lanes {
            told = folded(told, lane);
        }
        Ok(told)
    }
}

impl Digest {
    /// The digest of no octets.
    pub fn new(alloc: Global) -> Result<Digest, AllocError>
        ensures { IfOk result (λ digest. digest.failed ≡ false) }
    {
        let mixture = Mixture {
            held: Vec::with_capacity(alloc, 2 * BLOCK)?,
            lanes: [1, 2, 3, 4],
            count: 0,
        };
        Ok(Digest {
            mixture,
            failed: false,
        })
    }

    /// The number that tells the octets.
    pub fn told(mut self) -> Result<u64, AllocError> {
        self.mixture.told()
    }
}

impl Sink for Digest {
    ghost contents = { λ _. None };

    ghost failed = { λ s. s.failed };

    fn write_some(&mut self, octets: &[u8]) -> Result<usize, DeviceFault> {
        match self.mixture.take(octets) {
            Ok(()) => Ok(octets.len()),
            Err(_) => {
                self.failed = true;
                Err(DeviceFault)
            }
        }
    }

    fn has_failed(&self) -> bool {
        self.failed
    }
}
