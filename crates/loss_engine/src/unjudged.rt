//! The streams that were not judged, since they have no period.

use ber_core::Octets;
use std::alloc::Allocator;

/// How many svIDs are named at most.
const MOST_NAMED: usize = 4;

/// Streams that are counted alone: how many there are, and the svIDs of the first of them.
#[derive(Drop)]
pub struct Unjudged<A: Allocator> {
    count: u64,
    names: Vec<Octets<A>, A>,
    has_more: bool,
}

impl<A: Allocator + Copy> Unjudged<A> {
    /// None.
    pub fn new(alloc: A) -> Unjudged<A> {
        Unjudged {
            count: 0,
            names: Vec::new(alloc),
            has_more: false,
        }
    }

    /// How many streams there are.
    pub fn count(&self) -> u64 {
        self.count
    }

    /// The svID at a position among theirs, each once, in the order of their first occurrence: four at most, and fewer where memory
    /// is refused.
    pub fn name(&self, at: usize) -> Option<&[u8]> {
        match self.names.get(at) {
            Some(name) => Some(name.as_slice()),
            None => None,
        }
    }

    /// Whether there are further svIDs.
    pub fn has_more(&self) -> bool {
        self.has_more
    }

    // Whether an svID is named.
    fn has(&self, id: &[u8]) -> bool {
        for name in self.names.as_slice() {
            if name.as_slice() == id {
                return true;
            }
        }
        false
    }

    /// Takes one stream more, with this svID.
    pub fn take(&mut self, alloc: A, id: &[u8]) {
        self.count = self.count.saturating_add(1);
        if self.has(id) {
            return;
        }
        if self.names.len() >= MOST_NAMED {
            self.has_more = true;
            return;
        }
        match Octets::try_from_slice(alloc, id) {
            Ok(name) => {
                if self.names.push(name).is_err() {
                    self.has_more = true;
                }
            }
            Err(_) => self.has_more = true,
        }
    }
}
