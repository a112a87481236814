//! What comes of one stream.

ghost use Rattle.std.specs.Prelude.{◌≡◌, ◌+◌, ◌-◌, ◌<◌, ◌≤◌, ◌++◌, ◌∷◌, [], List, Some, None, min};
ghost use Rattle.loss_core.specs.Stream.{IsSampleToldLast, by_advance as told_by};
ghost use Rattle.loss_core.specs.StreamTotals.{is_behind_outage};
ghost use Rattle.loss_core.specs.computed.StreamSteps.{StreamStandsAfter, begun_of as begun_is, came_after, kept_after, run_of as run_is};

use crate::advance::{Advance, advance_between};
use std::marker::Model;

/// A sample as it came.
#[derive(Clone, Copy, Debug, PartialEq, Eq)]
pub struct Sample {
    /// Its count (smpCnt).
    pub count: u16,
    /// The greatest moment so far, in microseconds.
    pub moment: u64,
}

/// What a sample tells.
#[derive(Clone, Copy, Debug, PartialEq, Eq)]
pub enum Came {
    /// The first one in range.
    First,
    /// The one after the newest.
    Next,
    /// So many samples between the newest one and this are missing.
    Missing(u64),
    /// A sample that came before: the newest one, or one of the unbroken run up to it.
    Repeated,
    /// A sample from before the unbroken run.
    Late,
    /// A sample from before the stream's first one.
    BeforeFirst,
    /// Its count is not below the period.
    OutOfRange,
}

impl Came {
    /// Whether samples are missing before it.
    pub fn is_behind_outage(&self) -> bool
        ensures { result ≡ is_behind_outage self.now }
    {
        match self {
            Came::Missing(_) => true,
            Came::First
            | Came::Next
            | Came::Repeated
            | Came::Late
            | Came::BeforeFirst
            | Came::OutOfRange => false,
        }
    }
}

/// What is kept of a stream: its newest sample, how many came one by one up to it, and how far behind the first sample that run
/// began. The two numbers go as far as 4,294,967,295.
#[derive(Clone, Copy, Debug, PartialEq, Eq)]
pub struct Newest {
    /// The count of the newest sample.
    pub count: u16,
    /// The moment at which it came, in microseconds.
    pub moment: u64,
    /// How many came one by one up to it.
    pub run: u32,
    /// How many samples behind the stream's first one the first of these is.
    pub begun: u32,
}

/// A stream of so many samples a second, at which its count begins at 0 again.
#[derive(Drop)]
pub struct Stream {
    period: u32,
    newest: Option<Newest>,
}

impl Model for Stream {
    ghost use Rattle.std.specs.Prelude.{◌<◌, ◌≤◌};
    ghost use Rattle.loss_core.specs.computed.StreamSteps.{IsInRange, StreamState};

    ghost Value = { StreamState };

    ghost view = { λ s. record { period = s.period; newest = s.newest } };

    ghost invariant = { λ s. (0 < s.period) × (s.period ≤ 65536) × IsInRange s.period s.newest };
}

// What an advance tells, by the unbroken run, and by how far behind the first sample it began.
fn by_advance(run: u32, begun: u32, advance: Advance) -> Came
    ensures { result ≡ told_by run ((begun + run) - 1) advance }
{
    match advance {
        Advance::Ahead(1) => Came::Next,
        Advance::Ahead(further) => Came::Missing(further.saturating_sub(1)),
        Advance::Back(back) => {
            if back == 0 || back < run {
                return Came::Repeated;
            }
            let ahead = (u64::from(begun) + u64::from(run)).saturating_sub(1);
            if ahead < u64::from(back) {
                Came::BeforeFirst
            } else {
                Came::Late
            }
        }
    }
}

impl Stream {
    /// A stream with this many samples a second, 1 to 65,536, of which none came.
    pub fn new(period: u32) -> Stream
        requires some { 0 < period }
        requires most { period ≤ 65536 }
        ensures period { result.period ≡ period }
        ensures stands { StreamStandsAfter [] result }
        ensures fresh { result.newest ≡ None }
    {
        Stream {
            period,
            newest: None,
        }
    }

    /// The newest sample, and how many came one by one up to it.
    pub fn newest(&self) -> Option<Newest>
        ensures { result ≡ self.now.newest }
    {
        self.newest
    }

    // What a sample tells, by what is kept.
    fn judge(&self, sample: Sample) -> Came
        ensures { result ≡ came_after self.now.period self.now.newest sample }
    {
        let count = u32::from(sample.count);
        if self.period <= count {
            return Came::OutOfRange;
        }
        match self.newest {
            None => Came::First,
            Some(newest) => {
                let elapsed = sample.moment.saturating_sub(newest.moment);
                let from = u32::from(newest.count);
                by_advance(
                    newest.run,
                    newest.begun,
                    advance_between(self.period, elapsed, from, count),
                )
            }
        }
    }

    // How many samples came one by one up to the newest.
    fn run(&self) -> u32
        ensures { result ≡ run_is self.now.newest }
    {
        match self.newest {
            None => 0,
            Some(newest) => newest.run,
        }
    }

    // How far behind the first sample these began.
    fn begun(&self) -> u32
        ensures { result ≡ begun_is self.now.newest }
    {
        match self.newest {
            None => 0,
            Some(newest) => newest.begun,
        }
    }

    // How far behind the first sample a run begins, before which so many samples are missing.
    fn begun_behind(&self, missing: u64) -> u32
        ensures { result ≡ min ((begun_is self.now.newest + run_is self.now.newest) + missing) 4294967295 }
    {
        let ahead = u64::from(self.begun()) + u64::from(self.run());
        ahead.saturating_add(missing).min(u64::from(u32::MAX)) as u32
    }

    // Takes the next sample, and answers what it tells.
    fn step(&mut self, sample: Sample) -> Came
        ensures some { 0 < self.old.period }
        ensures most { self.old.period ≤ 65536 }
        ensures told { result ≡ came_after self.old.period self.old.newest sample }
        ensures period { self.new.period ≡ self.old.period }
        ensures newest { self.new.newest ≡ kept_after self.old.newest sample result }
    {
        let came = self.judge(sample);
        let (run, begun) = match came {
            Came::First => (1, 0),
            Came::Missing(missing) => (1, self.begun_behind(missing)),
            Came::Next => (self.run().saturating_add(1), self.begun()),
            Came::Repeated | Came::Late | Came::BeforeFirst | Came::OutOfRange => return came,
        };
        self.newest = Some(Newest {
            count: sample.count,
            moment: sample.moment,
            run,
            begun,
        });
        came
    }

    /// Takes the next sample, and answers what it tells.
    ///
    /// A count not below the period is `OutOfRange`, the first in range `First`. Else its advance on the newest sample tells:
    /// one is `Next`, more `Missing` with the count of those between. None, or so few back as the unbroken run reaches, is
    /// `Repeated`, as where two networks bring each frame; further back it is `Late`, and `BeforeFirst` where it lies before the
    /// first sample.
    pub fn take(&mut self, sample: Sample) -> Came
        // For all samples after which the stream stands: the answer is what this one tells after them, and the stream then
        // stands after it too.
        ensures told { (samples : List Sample) → StreamStandsAfter samples self.old → IsSampleToldLast self.old.period samples sample result }
        ensures stands { (samples : List Sample) → StreamStandsAfter samples self.old → StreamStandsAfter (samples ++ sample ∷ []) self.new }
        ensures period { self.new.period ≡ self.old.period }

        // For callers: the same by what is kept, and what a period is.
        ensures some { 0 < self.old.period }
        ensures most { self.old.period ≤ 65536 }
        ensures step { result ≡ came_after self.old.period self.old.newest sample }
        ensures newest { self.new.newest ≡ kept_after self.old.newest sample result }
    {
        self.step(sample)
    }
}
