//! The memory of entries in sorted runs: in whichever order they come, runs take little more than their entries need, those too
//! that a cut has left half full.
ghost use Rattle.std.specs.Ordering.{nat_cmp};

use known_core::{Probe, Runs};
use linked_list_allocator::LocalHeap;
use std::alloc::AllocError;
use std::cmp::Ordering;

/// So many entries come, of eight octets each.
const COUNT: u64 = 2000;

/// So many octets the entries need, and half as many more may be held.
const NEEDED: usize = 16_000;

const MOST: usize = 24_000;

/// A number that is looked for.
#[derive(Clone, Copy)]
struct Sought(u64);

impl Probe<u64> for Sought {
    ghost cmp = { λ sought one. nat_cmp one sought.0 };

    fn compare(&self, one: &u64) -> Ordering {
        one.cmp(&self.0)
    }
}

/// How numbers come, and which runs are then left half full.
#[derive(Clone, Copy)]
enum Course {
    /// Each behind all before it: none.
    Rising,
    /// Each in front of all before it: those behind a cut.
    Falling,
    /// Each in front of the first alone: those in front of a cut.
    Between,
}

// The number that comes after so many.
fn number_of(course: Course, before: u64) -> u64 {
    match course {
        Course::Falling => COUNT.saturating_sub(before),
        Course::Between if before == 0 => COUNT,
        _ => before,
    }
}

// Puts the numbers into runs, and answers how many octets of the heap are then held.
fn held(heap: &LocalHeap, course: Course) -> Result<usize, AllocError> {
    let mut runs = Runs::new(heap);
    for before in 0..COUNT {
        let number = number_of(course, before);
        if let Err(place) = runs.place_of(&Sought(number)) {
            runs.insert(heap, place, number)?;
        }
    }
    Ok(heap.used())
}

#[test]
fn runs_take_little_more_than_their_entries_need(rt: HostRuntime) -> Result<(), AllocError> {
    let heap = LocalHeap::new(rt.alloc(), 1 << 16)?;
    for course in [Course::Rising, Course::Falling, Course::Between] {
        let octets = held(&heap, course)?;
        assert!(rt; NEEDED <= octets && octets <= MOST, "{octets} octets");
    }
    Ok(())
}
