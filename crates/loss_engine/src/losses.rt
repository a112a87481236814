//! What is kept of all senders and streams.

ghost use Rattle.std.specs.Prelude.{◌≡◌, ◌∷◌, ◌++◌, ◌+◌, ◌*◌, ◌^◌, ◌-◌, ◌<◌, ℕ, length, IfSome, [], IfOk, OnErr, OnOk, None, Some, slice_get};
ghost use Rattle.loss_core.specs.Periods.{ArePeriods, IsPeriodOf, period_of as period_is};
ghost use Rattle.loss_core.specs.Sender.{told_after};
ghost use Rattle.loss_core.specs.computed.SenderTotalSteps.{first_tally};
ghost use Rattle.loss_engine.specs.KeySaid.{key_said, sender_said, stream_said};
ghost use Rattle.object_core.specs.declared.counted.Form.{Form};
ghost use Rattle.loss_engine.specs.computed.Closing.{IsClosingAt, closing_item};
ghost use Rattle.loss_engine.specs.computed.Entries.{progress_of};
ghost use Rattle.loss_engine.specs.Sights.{period_for, sample};
ghost use Rattle.loss_engine.specs.computed.Tracking.{CountsAs, back_by, back_where, first_came as first_is};
ghost use Rattle.loss_engine.specs.computed.Tracking.{frames, first_samples, kept_none, known_of, more_frames, passed, sender_of, silences_by, totals_by, track, with_progress};

use crate::closing::Closing;
use crate::entry::{Entry, Progress, first_told};
use crate::key::{Key, SenderKey, StreamKey};
use crate::roll::{Roll, number_of};
use crate::unjudged::Unjudged;
use loss_core::{
    Arrival, Came, Pair, Sample, SenderTally, StreamPeriod, StreamTally, Told, period_of,
};
use std::alloc::{AllocError, Allocator};

// How many microseconds below the greatest moment one lies at least that is far back.
const FAR_BACK: u64 = 1_000_000;

// By how much time goes back at an event, which is far back or not, by whether the one before was.
fn told_back(is_far: bool, was_far: bool, by: u64) -> Option<u64>
    ensures { result ≡ back_where is_far was_far by }
{
    match (is_far, was_far) {
        (true, false) => Some(by),
        (true, true) | (false, _) => None,
    }
}

// What the count of a stream's first sample tells, where the stream has a period.
fn first_came(period: Option<u32>, count: u16) -> Option<Came>
    ensures { (moment : ℕ) → result ≡ first_is period (record { count = count; moment = moment }) }
{
    match period {
        None => None,
        Some(period) if u32::from(count) < period => Some(Came::First),
        Some(_) => Some(Came::OutOfRange),
    }
}

// What is kept of a stream at its first sample.
fn first_samples(period: Option<u32>, sample: Sample, synch: u8) -> Progress
    requires { IsPeriodOf period }
    ensures { progress_of result ≡ first_samples period sample synch }
{
    match period {
        None => Progress::Counted(1, synch),
        Some(period) => {
            let mut tally = StreamTally::new(period);
            tally.take(sample);
            Progress::Samples(tally, synch)
        }
    }
}

/// What is kept of senders and streams, in the order of their first occurrence.
#[derive(Drop)]
pub struct Losses<A: Allocator> {
    periods: Vec<StreamPeriod<A>, A>,
    roll: Roll<A>,
    greatest: u64,
    // Whether the last event was far back.
    is_back: bool,
    ghost are_periods: { ArePeriods periods.items },
}

impl<A: Allocator + Copy> Losses<A> {
    ghost use Rattle.loss_engine.specs.computed.Held.{kept_by, periods_by};

    /// Of streams with these periods, each 2 to 65,536; of none of them anything came.
    pub fn new(alloc: A, periods: Vec<StreamPeriod<A>, A>) -> Losses<A>
        requires { ArePeriods periods.items }
        ensures periods { periods_by result ≡ periods.items }
        ensures none { kept_by result ≡ kept_none }
    {
        Losses {
            periods,
            roll: Roll::new(alloc),
            greatest: 0,
            is_back: false,
        }
    }

    /// The periods that are given.
    pub fn periods(&self) -> &[StreamPeriod<A>]
        ensures is { result.now ≡ periods_by self.now }
        ensures range { ArePeriods result.now }
    {
        self.periods.as_slice()
    }

    // The period of a stream with this svID.
    fn period(&self, id: &[u8]) -> Option<u32>
        ensures is { result ≡ period_is (periods_by self.now) id.now }
        ensures range { IsPeriodOf result }
    {
        period_of(self.periods.as_slice(), id)
    }

    /// The greatest moment so far.
    pub fn greatest(&self) -> u64
        ensures { result ≡ (kept_by self.now).moment }
    {
        self.greatest
    }

    /// A moment comes. Answers by how much time goes back with it, where it does.
    #[inline(always)]
    pub fn pass(&mut self, moment: u64) -> Option<u64>
        ensures back { result ≡ back_by (kept_by self.old) moment }
        ensures periods { periods_by self.new ≡ periods_by self.old }
        ensures kept { kept_by self.new ≡ passed (kept_by self.old) moment }
    {
        if self.greatest <= moment {
            self.greatest = moment;
            self.is_back = false;
            None
        } else {
            self.pass_below(moment)
        }
    }

    // A moment comes below the greatest one. A call of its own, since nearly every moment is the greatest.
    #[inline(never)]
    fn pass_below(&mut self, moment: u64) -> Option<u64>
        requires { moment < (kept_by self.old).moment }
        ensures back { result ≡ back_by (kept_by self.old) moment }
        ensures periods { periods_by self.new ≡ periods_by self.old }
        ensures kept { kept_by self.new ≡ passed (kept_by self.old) moment }
    {
        let by = self.greatest - moment;
        let is_far = by >= FAR_BACK;
        let back = told_back(is_far, self.is_back, by);
        self.is_back = is_far;
        back
    }

    // Puts one more, with a key that none has.
    fn put(&mut self, alloc: A, key: Key<'_>, progress: Progress) -> Result<(), AllocError>
        requires { known_of (kept_by self.old).tracked (key_said key) ≡ None }
        ensures put { OnOk result (kept_by self.new ≡ record (kept_by self.old) { tracked = (kept_by self.old).tracked ++ record { key = key_said key.entry; progress = progress_of progress } ∷ [] }) }
        ensures periods { periods_by self.new ≡ periods_by self.old }
    {
        let entry = Entry::new(alloc, key, progress)?;
        self.roll.push(alloc, entry)
    }

    /// Takes a frame of a sender with this lifetime in milliseconds, and answers what it tells. Memory is wanted for a new sender
    /// alone. Inlined, so that what a frame tells is not handed on in memory.
    #[inline(always)]
    pub fn take_frame(
        &mut self,
        alloc: A,
        key: SenderKey<'_>,
        pair: Pair,
        live: u32,
    ) -> Result<(Arrival, Told), AllocError>
        ensures arrival { IfOk result (λ r. r.0 ≡ record { pair = pair; moment = (kept_by self.old).moment; lifetime = 1000 * live }) }
        ensures told { IfOk result (λ r. r.1 ≡ told_after (sender_of (known_of (kept_by self.old).tracked (sender_said key.entry))) r.0) }
        ensures kept { IfOk result (λ r. kept_by self.new ≡ record (kept_by self.old) { tracked = with_progress (kept_by self.old).tracked (sender_said key.entry) (frames (first_tally r.0)) (more_frames r.0) }) }
        ensures periods { periods_by self.new ≡ periods_by self.old }
        ensures wants { OnErr result (known_of (kept_by self.old).tracked (sender_said key.entry) ≡ None) }
    {
        let frame = Arrival {
            pair,
            moment: self.greatest,
            lifetime: 1000 * u64::from(live),
        };
        match self.roll.position_of_sender(key) {
            Some(at) => {
                let told = self.roll.take_frame(number_of(Key::Sender(key)), at, frame);
                Ok((frame, told))
            }
            None => {
                let first = Progress::Frames(SenderTally::of_first(frame));
                self.put(alloc, Key::Sender(key), first)?;
                Ok((frame, first_told()))
            }
        }
    }

    // Takes the first sample of a stream. A call of its own, since there is one of each stream.
    #[inline(never)]
    fn take_first(
        &mut self,
        alloc: A,
        key: StreamKey<'_>,
        sample: Sample,
        synch: u8,
    ) -> Result<(Option<Came>, Option<u8>), AllocError>
        requires { known_of (kept_by self.old).tracked (stream_said key) ≡ None }
        ensures told { IfOk result (λ r. CountsAs (period_for (periods_by self.old) (stream_said key.entry)) None sample r) }
        ensures put { OnOk result (kept_by self.new ≡ record (kept_by self.old) {
          tracked = (kept_by self.old).tracked ++ record { key = stream_said key.entry; progress = first_samples (period_for (periods_by self.old) (stream_said key.entry)) sample synch } ∷ [];
        }) }
        ensures periods { periods_by self.new ≡ periods_by self.old }
    {
        let period = self.period(key.id);
        let first = first_samples(period, sample, synch);
        self.put(alloc, Key::Stream(key), first)?;
        Ok((first_came(period, sample.count), None))
    }

    /// Takes a sample of a stream with this smpSynch, and answers what its count tells, where the stream has a period, and the
    /// smpSynch before. Memory is wanted for a new stream alone.
    pub fn take_sample(
        &mut self,
        alloc: A,
        key: StreamKey<'_>,
        count: u16,
        synch: u8,
    ) -> Result<(Option<Came>, Option<u8>), AllocError>
        ensures told { IfOk result (λ r. CountsAs (period_for (periods_by self.old) (stream_said key.entry)) (known_of (kept_by self.old).tracked (stream_said key.entry)) (record { count = count; moment = (kept_by self.old).moment }) r) }
        ensures kept { OnOk result (kept_by self.new ≡ record (kept_by self.old)
            { tracked = track (periods_by self.old) (kept_by self.old).tracked (record { key = stream_said key.entry; moment = (kept_by self.old).moment; shown = sample count synch }) }) }
        ensures periods { periods_by self.new ≡ periods_by self.old }
        ensures wants { OnErr result (known_of (kept_by self.old).tracked (stream_said key.entry) ≡ None) }
    {
        let sample = Sample {
            count,
            moment: self.greatest,
        };
        match self.roll.position_of_stream(key) {
            Some(at) => {
                let number = number_of(Key::Stream(key));
                let answer = self.roll.take_sample(number, at, sample, synch);
                Ok(answer)
            }
            None => self.take_first(alloc, key, sample, synch),
        }
    }

    /// Notes the streams whose samples are counted alone.
    pub fn note_unjudged(&self, alloc: A, unjudged: &mut Unjudged<A>) {
        for at in 0..self.roll.len() {
            if let Some(id) = self.roll.entry(at).unjudged_id() {
                unjudged.take(alloc, id);
            }
        }
    }

    // What the line tells that says what has not come back of the one at a position.
    fn silence_at(&self, at: usize) -> Closing<'_>
        requires { at < length (kept_by self.now).tracked }
        ensures { (form : Form) → slice_get (silences_by form (kept_by self.now)) at ≡ Some (closing_item form (kept_by self.now).moment result) }
    {
        let entry = self.roll.entry(at);
        Closing::Silent(entry.key(), entry.progress.silent_since(self.greatest))
    }

    // What the line tells that is the total of the one at a position.
    fn total_at(&self, at: usize) -> Closing<'_>
        requires { at < length (kept_by self.now).tracked }
        ensures { (form : Form) → slice_get (totals_by form (kept_by self.now)) at ≡ Some (closing_item form (kept_by self.now).moment result) }
    {
        self.roll.entry(at).total(self.greatest)
    }

    /// What the line at the end tells that stands at this position: of each sender and stream what has not come back, and then
    /// of each its total.
    pub fn closing_at(&self, at: u128) -> Option<Closing<'_>>
        ensures is { IsClosingAt (kept_by self.now) at result }
        ensures few { IfSome result (λ _. at < length (kept_by self.now).tracked + length (kept_by self.now).tracked) }
        ensures most { length (kept_by self.now).tracked < 2 ^ 64 }
    {
        let count = self.roll.len() as u128;
        if at < count {
            return Some(self.silence_at(at as usize));
        }
        let behind = at - count;
        if behind < count {
            return Some(self.total_at(behind as usize));
        }
        None
    }
}
