//! Positions of entries that lie elsewhere, in the order of the entries' keys.

ghost use Rattle.std.specs.Prelude.{◌≡◌};
ghost use Rattle.known_core.specs.computed.Positions.{AnswersPosition, stands_at};

use crate::probe::Probe;
use crate::runs::{Place, Runs};
use std::alloc::Allocator;
use std::cmp::Ordering;

// An entry that is looked for, as what is looked for among positions: each stands as the entry there does.
#[derive(Clone, Copy)]
struct Sought<'a, E, P> {
    entries: &'a [E],
    probe: &'a P,
}

impl<E, P: Probe<E>> Probe<usize> for Sought<'_, E, P> {
    ghost cmp = { λ sought. stands_at (P.cmp sought.probe.now) sought.entries.now };

    #[inline(always)]
    fn compare(&self, one: &usize) -> Ordering {
        match self.entries.get(*one) {
            Some(entry) => self.probe.compare(entry),
            None => Ordering::Greater,
        }
    }
}

/// The position of an entry that is looked for, by the positions of all in the order of their keys; or the place that its
/// position would have among those.
pub fn find_position<E, A: Allocator + Copy, P: Probe<E>>(
    positions: &Runs<usize, A>,
    entries: &[E],
    probe: &P,
) -> Result<usize, Place>
    ensures { AnswersPosition (P.cmp probe.now) entries.now positions.now result }
{
    match positions.place_of(&Sought { entries, probe }) {
        Ok(place) => Ok(*positions.get(place)),
        Err(place) => Err(place),
    }
}
