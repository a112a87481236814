//! What is kept of one sender or one stream.

ghost use Rattle.std.specs.Prelude.{◌≡◌, IfOk, Some, None};
ghost use Rattle.loss_engine.specs.KeySaid.{key_said, sender_said, stream_said};
ghost use Rattle.loss_engine.specs.Sights.{same_key};
ghost use Rattle.loss_engine.specs.computed.Entries.{entry_key, progress_of};
ghost use Rattle.loss_engine.specs.LossText.{with_end};
ghost use Rattle.loss_engine.specs.computed.Closing.{closing_item};
ghost use Rattle.loss_engine.specs.computed.Tracking.{TellsSample, more_frames, more_samples, sender_of, silent_since, stale_newest, total_by};
ghost use Rattle.loss_core.specs.declared.sender.Arrival.{Arrival};
ghost use Rattle.loss_core.specs.Sender.{over_at, told_after};
ghost use Rattle.object_core.specs.declared.counted.Form.{Form};

use crate::closing::Closing;
use crate::key::{Key, SenderKey, StreamKey};
use ber_core::Octets;
use loss_core::{
    Arrival, Came, Newest, Sample, SenderTally, SenderTotals, Standing, StreamTally, Told,
};
use std::alloc::{AllocError, Allocator};

/// How far a sender or a stream has come.
#[derive(Drop)]
pub enum Progress {
    /// What the frames of a sender come to.
    Frames(SenderTally),
    /// What the samples of a stream come to, and the last smpSynch.
    Samples(StreamTally, u8),
    /// How many samples came, where no period is given, and the last smpSynch.
    Counted(u64, u8),
}

/// What tells senders and streams of one APPID and name apart.
#[derive(Clone, Copy)]
pub enum Origin {
    /// Of a sender, whether its frames are simulated.
    Sender(bool),
    /// Of a stream, the address that its frames are sent from.
    Stream([u8; 6]),
}

/// One sender or stream, its gocbRef or svID in memory of its own.
#[derive(Drop)]
pub struct Entry<A: Allocator> {
    app_id: u16,
    origin: Origin,
    name: Octets<A>,
    pub(crate) progress: Progress,
}

impl<A: Allocator> Entry<A> {
    /// One with this key, of which this is kept.
    pub fn new(alloc: A, key: Key<'_>, progress: Progress) -> Result<Entry<A>, AllocError>
        ensures key { IfOk result (λ e. entry_key e ≡ key_said key.entry) }
        ensures progress { IfOk result (λ e. e.progress ≡ progress) }
    {
        let (app_id, origin, name) = match key {
            Key::Sender(sender) => (
                sender.app_id,
                Origin::Sender(sender.simulation),
                sender.reference,
            ),
            Key::Stream(stream) => (stream.app_id, Origin::Stream(stream.source), stream.id),
        };
        let name = Octets::try_from_slice(alloc, name)?;
        Ok(Entry {
            app_id,
            origin,
            name,
            progress,
        })
    }

    /// Its key.
    #[inline(always)]
    pub fn key(&self) -> Key<'_>
        ensures { key_said result ≡ entry_key self.now }
    {
        let name = self.name.as_slice();
        match self.origin {
            Origin::Sender(simulation) => Key::Sender(SenderKey {
                app_id: self.app_id,
                reference: name,
                simulation,
            }),
            Origin::Stream(source) => Key::Stream(StreamKey {
                app_id: self.app_id,
                source,
                id: name,
            }),
        }
    }

    /// Whether this is the one with a key.
    #[inline]
    pub fn is_of(&self, key: Key<'_>) -> bool
        ensures { result ≡ same_key (entry_key self.now) (key_said key.entry) }
    {
        match (self.key(), key) {
            (Key::Sender(own), Key::Sender(other)) => own.is_same(other),
            (Key::Stream(own), Key::Stream(other)) => own.is_same(other),
            _ => false,
        }
    }

    /// Whether this is the sender with a key.
    #[inline(always)]
    pub fn is_sender(&self, key: SenderKey<'_>) -> bool
        ensures { result ≡ same_key (entry_key self.now) (sender_said key.entry) }
    {
        match self.key() {
            Key::Sender(own) => own.is_same(key),
            Key::Stream(_) => false,
        }
    }

    /// Whether this is the stream with a key.
    #[inline(always)]
    pub fn is_stream(&self, key: StreamKey<'_>) -> bool
        ensures { result ≡ same_key (entry_key self.now) (stream_said key.entry) }
    {
        match self.key() {
            Key::Sender(_) => false,
            Key::Stream(own) => own.is_same(key),
        }
    }

    /// The svID of a stream whose samples are counted alone.
    pub fn unjudged_id(&self) -> Option<&[u8]> {
        match &self.progress {
            Progress::Counted(_, _) => Some(self.name.as_slice()),
            Progress::Frames(_) | Progress::Samples(_, _) => None,
        }
    }

    /// What it comes to at the end.
    pub fn total(&self, end: u64) -> Closing<'_>
        ensures { (form : Form) → closing_item form end result ≡ total_by form end (entry_key self.now) (progress_of self.now.progress) }
    {
        let key = self.key();
        match &self.progress {
            Progress::Frames(tally) => {
                let since = over_at(tally.sender.deadline, end);
                Closing::Frames(key, with_end(since, tally.totals))
            }
            Progress::Samples(tally, _) => Closing::Samples(key, tally.totals()),
            Progress::Counted(count, _) => Closing::Counted(key, *count),
        }
    }
}

impl Progress {
    /// Takes a frame of a sender, and answers what it tells.
    pub fn take_frame(&mut self, frame: Arrival) -> Told
        ensures told { result ≡ told_after (sender_of (Some (progress_of self.old))) frame }
        ensures after { progress_of self.new ≡ more_frames frame (progress_of self.old) }
    {
        match self {
            Progress::Frames(tally) => tally.take(frame),
            Progress::Samples(_, _) => first_told(),
            Progress::Counted(_, _) => first_told(),
        }
    }

    /// Takes a sample of a stream with this smpSynch, and answers what its count tells, unless samples are counted alone, and the
    /// smpSynch before.
    pub fn take_sample(&mut self, sample: Sample, synch: u8) -> (Option<Came>, Option<u8>)
        ensures told { TellsSample (progress_of self.old) sample result }
        ensures after { progress_of self.new ≡ more_samples sample synch (progress_of self.old) }
    {
        match self {
            Progress::Frames(_) => (None, None),
            Progress::Samples(tally, last) => {
                let before = *last;
                *last = synch;
                (Some(tally.take(sample)), Some(before))
            }
            Progress::Counted(count, last) => {
                let before = *last;
                *last = synch;
                *count = count.saturating_add(1);
                (None, Some(before))
            }
        }
    }

    /// Since when it has not come back at the end, if it has not.
    pub fn silent_since(&self, end: u64) -> Option<u64>
        ensures { result ≡ silent_since end (progress_of self.now) }
    {
        match self {
            Progress::Frames(tally) => over_at(tally.sender.deadline, end),
            Progress::Samples(tally, _) => stale(tally.newest(), end),
            Progress::Counted(_, _) => None,
        }
    }
}

// The lifetime that is over at a moment.
fn over_at(deadline: u128, moment: u64) -> Option<u64>
    ensures { result ≡ over_at deadline moment }
{
    if deadline <= u128::from(moment) {
        Some(deadline as u64)
    } else {
        None
    }
}

// The moment of a newest sample, where that is a second or more before the end.
fn stale(newest: Option<Newest>, end: u64) -> Option<u64>
    ensures { result ≡ stale_newest newest end }
{
    match newest {
        Some(newest) if u128::from(newest.moment) + 1_000_000 <= u128::from(end) => {
            Some(newest.moment)
        }
        _ => None,
    }
}

// The totals of a sender, where its lifetime was over at the end too.
fn with_end(since: Option<u64>, totals: SenderTotals) -> SenderTotals
    ensures { result ≡ with_end since totals }
{
    match since {
        None => totals,
        Some(_) => SenderTotals {
            silent: totals.silent.saturating_add(1),
            ..totals
        },
    }
}

/// What the first frame of a sender tells.
pub fn first_told() -> Told
    ensures { (a : Arrival) → result ≡ told_after None a }
{
    Told {
        silent_since: None,
        standing: Standing::First,
    }
}
