//! Entries in runs that stand in order over all of them. No run is empty, and one that is full is cut in two: so a place more
//! moves the entries of one run behind it, and not all that are held.

ghost use Rattle.std.specs.Prelude.{◌≡◌, ℕ, ◌+◌, ◌-◌, ◌/◌, ◌<◌, ◌≤◌, max, [], ◌++◌, false, IfOk, IfSome, IsTrue, OnErr, OnOk, Vec, drop, length, slice_index_or, take, vec_capacity};
ghost use Rattle.std.specs.List.{insert};
ghost use Rattle.known_core.specs.computed.Held.{AnswersPlace, HoldsSame, IsCompact, IsPlace, PutsOne, TakesPlace, WritesOne, held, in_run, position_of};
ghost use Rattle.known_core.specs.computed.RunSteps.{AnswersSearch, IsRunOf, MovesPlace, begins_behind as stands_behind};

use crate::probe::Probe;
use std::alloc::{AllocError, Allocator};

// So many entries a run may have at least before it is cut.
const FEW: usize = 64;

// A run may have an entry for so many runs, so that with very many runs those of one and the runs themselves are as dear to
// move.
const RUNS_AN_ENTRY: usize = 32;

// A run that has no room left gets room for so many entries more. Fewer would move it more often; more would lie idle in each.
const MORE: usize = 8;

/// Entries that are held. They stand where they were put: who puts each at the place that `place_of` answers keeps them in order.
#[derive(Drop)]
pub struct Runs<E, A: Allocator> {
    runs: Vec<Vec<E, A>, A>,
}

/// The place of an entry: its run, and where it stands in that. It is so until another entry is put.
#[derive(Clone, Copy)]
pub struct Place {
    run: usize,
    at: usize,
}

impl Place {
    // This place, where the entries of its run from this one on are in the next run.
    fn behind(self, half: usize) -> Place
        requires { self.run < usize.MAX }
        ensures before { self.at ≤ half → result ≡ self }
        ensures behind { half < self.at → result ≡ record { run = self.run + 1; at = self.at - half } }
    {
        if self.at <= half {
            self
        } else {
            Place {
                run: self.run + 1,
                at: self.at - half,
            }
        }
    }
}

// Whether a run begins behind what is looked for.
fn begins_behind<E, P: Probe<E>>(run: &[E], probe: &P) -> bool
    ensures { result ≡ stands_behind (P.cmp probe.now) run.now }
{
    match run.first() {
        Some(one) => probe.compare(one).is_gt(),
        None => true,
    }
}

// The last run that does not begin behind what is looked for, or the first one.
fn run_of<E, A: Allocator, P: Probe<E>>(runs: &[Vec<E, A>], probe: &P) -> usize
    ensures { IsRunOf (P.cmp probe.now) runs.now result }
{
    let mut from = 0;
    let mut to = runs.len();
    while to - from > 1 {
        let middle = from + (to - from) / 2;
        if begins_behind(runs[middle].as_slice(), probe) {
            to = middle;
        } else {
            from = middle;
        }
    }
    from
}

// The position in a run of one that is looked for, or that which it would have.
fn find_in<E, P: Probe<E>>(run: &[E], probe: &P) -> Result<usize, usize>
    ensures { AnswersSearch (P.cmp probe.now) run.now result }
{
    run.binary_search_by(|one| probe.compare(one))
}

// So many entries a run has before it is cut.
fn full(runs: usize) -> usize
    ensures is { result ≡ max 64 (runs / 32) }
{
    FEW.max(runs / RUNS_AN_ENTRY)
}

// Puts one into a run.
fn put<E: Drop, A: Allocator>(run: &mut Vec<E, A>, at: usize, one: E) -> Result<(), AllocError>
    requires { at ≤ length run.old.items }
    ensures put { OnOk result (run.new.items ≡ insert run.old.items at one) }
    ensures kept { OnErr result (run.new.items ≡ run.old.items) }
    ensures room { vec_capacity run.old ≤ length run.old.items + 8 → vec_capacity run.new ≤ length run.new.items + 8 }
{
    if run.len() == run.capacity() {
        run.reserve_exact(MORE)?;
    }
    run.insert(at, one)?;
    Ok(())
}

// Moves the entries of a run from a position on into another, behind its own.
fn move_behind<E: Drop, A: Allocator>(run: &mut Vec<E, A>, from: usize, into: &mut Vec<E, A>)
    requires within { from ≤ length run.old.items }
    requires room { length into.old.items + (length run.old.items - from) ≤ vec_capacity into.old }
    ensures left { run.new.items ≡ take from run.old.items }
    ensures moved { into.new.items ≡ into.old.items ++ drop from run.old.items }
    ensures room { vec_capacity into.new ≡ vec_capacity into.old }
{
    for one in run.drain(from..) {
        into.push_reserved(one);
    }
}

impl<E: Drop, A: Allocator + Copy> Runs<E, A> {
    /// Nothing is held.
    pub fn new(alloc: A) -> Runs<E, A>
        ensures none { held result ≡ [] }
        ensures compact { IsCompact result }
    {
        Runs {
            runs: Vec::new(alloc),
        }
    }

    /// The place of one that is looked for, or that which it would have.
    pub fn place_of<P: Probe<E>>(&self, probe: &P) -> Result<Place, Place>
        ensures { AnswersPlace (P.cmp probe.now) self.now result }
    {
        let run = run_of(self.runs.as_slice(), probe);
        if run >= self.runs.len() {
            return Err(Place { run, at: 0 });
        }
        match find_in(self.runs[run].as_slice(), probe) {
            Ok(at) => Ok(Place { run, at }),
            Err(at) => Err(Place { run, at }),
        }
    }

    /// The one at a place.
    pub fn get(&self, place: Place) -> &E
        requires { IsPlace self.now place }
        ensures { (d : E) → result.now ≡ slice_index_or (held self.now) (position_of self.now place) d }
    {
        &self.runs[place.run][place.at]
    }

    /// The one at a place, where there is one: of a place that was so before others were put.
    #[inline(always)]
    pub fn get_if(&self, place: Place) -> Option<&E>
        ensures within { IfSome result (λ _. position_of self.now place < length (held self.now)) }
        ensures value { IfSome result (λ one. (d : E) → one.now ≡ slice_index_or (held self.now) (position_of self.now place) d) }
    {
        if place.run < self.runs.len() && place.at < self.runs[place.run].len() {
            Some(self.get(place))
        } else {
            None
        }
    }

    /// Puts another in the place of one.
    pub fn set(&mut self, place: Place, one: E)
        requires { IsPlace self.old place }
        ensures { WritesOne self.old self.new place one }
    {
        self.runs[place.run][place.at] = one;
    }

    // Whether a place is behind all that is held, and not in a run that has room: then one there begins a run, so that those
    // that come in order leave runs that are full.
    fn is_past(&self, place: Place) -> bool
        requires { TakesPlace self.now place }
        ensures past { IsTrue result → position_of self.now place ≡ length (held self.now) }
        ensures in_runs { result ≡ false → place.run < length self.now.runs.items }
        ensures full { IsTrue result → (i : ℕ) (d : Vec E A) → i + 1 ≡ length self.now.runs.items → max 64 (length self.now.runs.items / 32) ≤ length (in_run (slice_index_or self.now.runs.items i d)) }
    {
        let runs = self.runs.len();
        if place.run >= runs {
            return true;
        }
        if runs - place.run > 1 {
            return false;
        }
        let size = self.runs[place.run].len();
        size <= place.at && full(runs) <= size
    }

    // Puts one into a run of its own, behind all others, of which the last has many.
    fn begin(&mut self, alloc: A, place: Place, one: E) -> Result<(), AllocError>
        requires past { position_of self.old place ≡ length (held self.old) }
        requires many { (i : ℕ) (d : Vec E A) → i + 1 ≡ length self.old.runs.items → 32 ≤ length (in_run (slice_index_or self.old.runs.items i d)) }
        ensures put { OnOk result (PutsOne self.old self.new place one) }
        ensures kept { OnErr result (HoldsSame self.old self.new) }
    {
        let mut run = Vec::with_capacity(alloc, MORE)?;
        run.push_reserved(one);
        self.runs.push(run)?;
        Ok(())
    }

    // Cuts a run in two, and gives the place that has the same position then. Each half has room for its entries alone. The
    // memory is asked for first, so that nothing is lost where it is refused.
    fn cut(&mut self, alloc: A, place: Place) -> Result<Place, AllocError>
        requires in_runs { place.run < length self.old.runs.items }
        requires takes { TakesPlace self.old place }
        requires long { (d : Vec E A) → 64 ≤ length (in_run (slice_index_or self.old.runs.items place.run d)) }
        ensures moved { IfOk result (λ moved. MovesPlace self.old self.new place moved) }
        ensures kept { OnErr result (HoldsSame self.old self.new) }
    {
        let size = self.runs[place.run].len();
        let half = size / 2;
        let mut front = Vec::with_capacity(alloc, half)?;
        let mut behind = Vec::with_capacity(alloc, size - half)?;
        self.runs.reserve(1)?;
        let run = &mut self.runs[place.run];
        move_behind(run, half, &mut behind);
        move_behind(run, 0, &mut front);
        *run = front;
        self.runs.insert(place.run + 1, behind)?;
        Ok(place.behind(half))
    }

    // Sees to it that the run of a place may have one more.
    fn with_room(&mut self, alloc: A, place: Place) -> Result<Place, AllocError>
        requires in_runs { place.run < length self.old.runs.items }
        requires takes { TakesPlace self.old place }
        ensures moved { IfOk result (λ moved. MovesPlace self.old self.new place moved) }
        ensures kept { OnErr result (HoldsSame self.old self.new) }
    {
        if self.runs[place.run].len() < full(self.runs.len()) {
            Ok(place)
        } else {
            self.cut(alloc, place)
        }
    }

    /// Puts one at a place. Where memory is refused, what was held is held still.
    pub fn insert(&mut self, alloc: A, place: Place, one: E) -> Result<(), AllocError>
        requires { TakesPlace self.old place }
        ensures put { OnOk result (PutsOne self.old self.new place one) }
        ensures kept { OnErr result (HoldsSame self.old self.new) }
    {
        if self.is_past(place) {
            return self.begin(alloc, place, one);
        }
        let place = self.with_room(alloc, place)?;
        put(&mut self.runs[place.run], place.at, one)
    }
}
