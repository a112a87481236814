//! A stream, and what its samples come to.

ghost use Rattle.std.specs.Prelude.{◌≡◌, ◌+◌, ◌^◌, ◌<◌, ◌≤◌, ◌++◌, ◌∷◌, [], List, max};
ghost use Rattle.loss_core.specs.SenderTotals.{kept, one_if};
ghost use Rattle.loss_core.specs.Stream.{IsSampleToldLast};
ghost use Rattle.loss_core.specs.StreamTotals.{missing_before};
ghost use Rattle.loss_core.specs.computed.StreamSteps.{came_after, kept_after};
ghost use Rattle.loss_core.specs.computed.StreamTotalSteps.{AddsSample, StreamTallyStandsAfter, fresh_tally, stream_tally_after};

use crate::stream::{Came, Newest, Sample, Stream};
use std::marker::Model;

/// What the samples of a stream come to. A sum that would not fit stays at the greatest number.
#[derive(Clone, Copy, Debug, PartialEq, Eq)]
pub struct StreamTotals {
    /// How many samples came.
    pub samples: u64,
    /// How many are missing.
    pub missing: u64,
    /// How many were late.
    pub late: u64,
    /// How many came again.
    pub repeated: u64,
    /// How many had a count out of range.
    pub out_of_range: u64,
    /// How often samples are missing.
    pub outages: u64,
    /// The most that are missing at once.
    pub longest: u64,
}

/// A stream, and what its samples come to.
#[derive(Drop)]
pub struct StreamTally {
    stream: Stream,
    totals: StreamTotals,
}

impl Model for StreamTally {
    ghost use Rattle.loss_core.specs.computed.StreamTotalSteps.{StreamTallyState};

    ghost Value = { StreamTallyState };

    ghost view = { λ s. record { stream = s.stream; totals = s.totals } };
}

// One more.
fn one_more(count: u64) -> u64
    ensures { result ≡ kept (count + 1) }
{
    count.saturating_add(1)
}

// Each number lies in the range of its type; nothing is computed.
fn know_ranges(totals: StreamTotals)
    ensures missing { totals.missing < 2 ^ 64 }
    ensures late { totals.late < 2 ^ 64 }
    ensures repeated { totals.repeated < 2 ^ 64 }
    ensures out_of_range { totals.out_of_range < 2 ^ 64 }
    ensures outages { totals.outages < 2 ^ 64 }
    ensures longest { totals.longest < 2 ^ 64 }
{}

impl StreamTotals {
    // Adds a sample that tells this.
    fn add(&mut self, came: Came)
        ensures { AddsSample came self.old self.new }
    {
        know_ranges(*self);
        self.samples = one_more(self.samples);
        match came {
            Came::First => {}
            Came::Next => {}
            Came::BeforeFirst => {}
            Came::Missing(missing) => {
                self.missing = self.missing.saturating_add(missing);
                self.outages = one_more(self.outages);
                self.longest = self.longest.max(missing);
            }
            Came::Repeated => self.repeated = one_more(self.repeated),
            Came::Late => self.late = one_more(self.late),
            Came::OutOfRange => self.out_of_range = one_more(self.out_of_range),
        }
    }
}

impl StreamTally {
    /// The tally of a stream with this many samples a second, 1 to 65,536, of which none came.
    pub fn new(period: u32) -> StreamTally
        requires some { 0 < period }
        requires most { period ≤ 65536 }
        ensures period { result.stream.period ≡ period }
        ensures stands { StreamTallyStandsAfter [] result }
        ensures fresh { result ≡ fresh_tally period }
    {
        StreamTally {
            stream: Stream::new(period),
            totals: StreamTotals {
                samples: 0,
                missing: 0,
                late: 0,
                repeated: 0,
                out_of_range: 0,
                outages: 0,
                longest: 0,
            },
        }
    }

    /// What the samples come to.
    pub fn totals(&self) -> StreamTotals
        ensures { result ≡ self.now.totals }
    {
        self.totals
    }

    /// The newest sample, and how many came one by one up to it.
    pub fn newest(&self) -> Option<Newest>
        ensures { result ≡ self.now.stream.newest }
    {
        self.stream.newest()
    }

    // Takes the next sample, and answers what it tells.
    #[inline(always)]
    fn step(&mut self, sample: Sample) -> Came
        ensures some { 0 < self.old.stream.period }
        ensures most { self.old.stream.period ≤ 65536 }
        ensures told { result ≡ came_after self.old.stream.period self.old.stream.newest sample }
        ensures period { self.new.stream.period ≡ self.old.stream.period }
        ensures newest { self.new.stream.newest ≡ kept_after self.old.stream.newest sample result }
        ensures adds { AddsSample result self.old.totals self.new.totals }
    {
        let came = self.stream.take(sample);
        self.totals.add(came);
        came
    }

    /// Takes the next sample, and answers what it tells.
    #[inline(always)]
    pub fn take(&mut self, sample: Sample) -> Came
        // For all samples after which the tally stands: the answer is what this one tells after them, and the tally then
        // stands after it too.
        ensures told { (samples : List Sample) → StreamTallyStandsAfter samples self.old → IsSampleToldLast self.old.stream.period samples sample result }
        ensures stands { (samples : List Sample) → StreamTallyStandsAfter samples self.old → StreamTallyStandsAfter (samples ++ sample ∷ []) self.new }
        ensures period { self.new.stream.period ≡ self.old.stream.period }

        // For callers: the same by what is kept.
        ensures step { result ≡ came_after self.old.stream.period self.old.stream.newest sample }
        ensures after { self.new ≡ stream_tally_after self.old sample }
    {
        self.step(sample)
    }
}
