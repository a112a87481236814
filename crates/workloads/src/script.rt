//! The lines of a script.

use crate::chance::Chance;
use crate::feed::Maker;
use crate::sender::{Sender, write_moment};
use crate::shapes::{CHANGE, SET_UP};
use std::alloc::{AllocError, Global};

/// The time of the first call, in microseconds.
const START: u64 = 1_700_000_000_000_000;

/// A poll, with the digits of its time.
const POLL: &[u8] = b"poll,0000000000000000\n";

/// A script: a change, and then polls, most of which are due.
#[derive(Drop)]
pub struct Script {
    change: Sender,
    chance: Chance,
    now: u64,
    count: u64,
    left: u64,
}

impl Script {
    pub fn new(alloc: Global, mut chance: Chance, count: u64) -> Result<Script, AllocError> {
        Ok(Script {
            change: Sender::new(alloc, CHANGE, 0, &mut chance)?,
            chance,
            now: START,
            count,
            left: count,
        })
    }
}

impl Maker for Script {
    fn append(&mut self, made: &mut Vec<u8, Global>) -> Result<bool, AllocError> {
        if self.left == 0 {
            return Ok(false);
        }
        let is_first = self.left == self.count;
        if is_first {
            made.extend_from_slice(SET_UP)?;
        }
        self.left -= 1;
        let wait = if self.chance.below(5) == 0 {
            1000
        } else {
            10_000
        };
        self.now = self.now.saturating_add(wait);
        let before = made.len();
        let place = if is_first || self.chance.below(50) == 0 {
            self.change.change(&mut self.chance);
            made.extend_from_slice(&self.change.line)?;
            7
        } else {
            made.extend_from_slice(POLL)?;
            5
        };
        write_moment(made, before.saturating_add(place), self.now);
        Ok(true)
    }
}
