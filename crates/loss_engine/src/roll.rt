//! Senders and streams in the order of their first occurrence, each found by its key.

ghost use Rattle.std.specs.Prelude.{◌≡◌, ◌<◌, ◌++◌, ◌∷◌, [], IfSome, IsSome, IsTrue, None, OnErr, OnOk, Some, length, slice_get};
ghost use Rattle.loss_core.specs.Sender.{told_after};
ghost use Rattle.loss_engine.specs.KeySaid.{key_said, sender_said, stream_said};
ghost use Rattle.loss_engine.specs.Sights.{Key as SpecKey};
ghost use Rattle.loss_engine.specs.computed.Entries.{Finds, IsFirstAt, all_tracked, entry_key, tracked_by};
ghost use Rattle.loss_engine.specs.computed.KeyOrder.{key_cmp};
ghost use Rattle.loss_engine.specs.computed.Roll.{HasKeyAt};
ghost use Rattle.loss_engine.specs.computed.Tracking.{Progress as Known, TellsSample, known_of, more_frames, more_samples, sender_of, with_progress};

use crate::entry::Entry;
use crate::key::{Key, SenderKey, StreamKey};
use crate::order::compare_keys;
use known_core::{Probe, Runs, find_position};
use loss_core::{Arrival, Came, Sample, Told};
use std::alloc::{AllocError, Allocator};
use std::cmp::Ordering;
use std::marker::Model;

impl<A: Allocator> Probe<Entry<A>> for Key<'_> {
    ghost cmp = { λ key one. key_cmp (entry_key one) (key_said key) };

    #[inline(always)]
    fn compare(&self, one: &Entry<A>) -> Ordering {
        compare_keys(one.key(), *self)
    }
}

// How many positions are guessed at: a key has one by a number of one octet. Where very many came none is, as another of the same
// number then comes between.
const GUESSES: usize = 256;

const FEW: usize = 4096;

/// Senders and streams in the order of their first occurrence.
#[derive(Drop)]
pub struct Roll<A: Allocator> {
    entries: Vec<Entry<A>, A>,
    positions: Runs<usize, A>,
    last: usize,
    // Where the one came last whose key has this number: a wrong guess costs a comparison.
    guesses: [usize; GUESSES],
}

impl<A: Allocator> Model for Roll<A> {
    ghost use Rattle.std.specs.Prelude.{List};
    ghost use Rattle.known_core.specs.computed.Positions.{AreInOrder};
    ghost use Rattle.loss_engine.specs.computed.Entries.{all_tracked, entry_key};
    ghost use Rattle.loss_engine.specs.computed.KeyOrder.{key_cmp};
    ghost use Rattle.loss_engine.specs.computed.Tracking.{Tracked};

    ghost Value = { List Tracked };

    ghost view = { λ r. all_tracked r.entries.items };

    ghost invariant = { λ r. AreInOrder key_cmp entry_key r.entries.items r.positions };
}

/// The number of a key. Control blocks and streams of one network mostly differ in APPID, and else in what their names end with.
#[inline(always)]
pub fn number_of(key: Key<'_>) -> u8 {
    let (app_id, name) = match key {
        Key::Sender(sender) => (sender.app_id, sender.reference),
        Key::Stream(stream) => (stream.app_id, stream.id),
    };
    let last = name.last().copied().unwrap_or(0);
    ((app_id % 256) as u8).wrapping_add(last)
}

// Where the one came last whose key has the number of this one.
#[inline(always)]
fn guess_of(guesses: &[usize; GUESSES], key: Key<'_>) -> usize {
    guesses[number_of(key) as usize]
}

// Whether the one at a position has a key.
fn has_at<A: Allocator>(entries: &[Entry<A>], at: usize, key: Key<'_>) -> bool
    ensures { IsTrue result → HasKeyAt entries.now (key_said key.entry) at }
{
    match entries.get(at) {
        Some(entry) => entry.is_of(key),
        None => false,
    }
}

// Whether the one at a position that is guessed at has a key.
fn has_guessed<A: Allocator>(entries: &[Entry<A>], guess: usize, key: Key<'_>) -> bool
    ensures { IsTrue result → HasKeyAt entries.now (key_said key.entry) guess }
{
    entries.len() <= FEW && has_at(entries, guess, key)
}

// Whether the one at a position that is guessed at is the sender with a key.
#[inline(always)]
fn has_sender_guessed<A: Allocator>(entries: &[Entry<A>], guess: usize, key: SenderKey<'_>) -> bool
    ensures { IsTrue result → HasKeyAt entries.now (sender_said key.entry) guess }
{
    if entries.len() > FEW {
        return false;
    }
    match entries.get(guess) {
        Some(entry) => entry.is_sender(key),
        None => false,
    }
}

// Whether the one at a position is the stream with a key.
#[inline(always)]
fn has_stream_at<A: Allocator>(entries: &[Entry<A>], at: usize, key: StreamKey<'_>) -> bool
    ensures { IsTrue result → HasKeyAt entries.now (stream_said key.entry) at }
{
    match entries.get(at) {
        Some(entry) => entry.is_stream(key),
        None => false,
    }
}

impl<A: Allocator + Copy> Roll<A> {
    /// None came.
    pub fn new(alloc: A) -> Roll<A>
        ensures { result ≡ [] }
    {
        Roll {
            entries: Vec::new(alloc),
            positions: Runs::new(alloc),
            last: 0,
            guesses: [0; GUESSES],
        }
    }

    /// How many came.
    pub fn len(&self) -> usize
        ensures { result ≡ length self.now }
    {
        self.entries.len()
    }

    /// The one at a position.
    pub fn entry(&self, at: usize) -> &Entry<A>
        requires { at < length self.now }
        ensures { slice_get self.now at ≡ Some (tracked_by result.now) }
    {
        &self.entries[at]
    }

    // The position behind the one that came last, or the first one.
    fn behind_last(&self) -> usize {
        let behind = self.last.saturating_add(1);
        if behind < self.entries.len() {
            behind
        } else {
            0
        }
    }

    /// The position of the one with a key. That which came last is tried first, then the one behind it, since streams often come in
    /// turns that stay, and then where one with the number of this key came last.
    #[inline(never)]
    pub fn position_of(&self, key: Key<'_>) -> Option<usize>
        ensures { Finds self.now (key_said key.entry) result }
    {
        if has_at(self.entries.as_slice(), self.last, key) {
            return Some(self.last);
        }
        let next = self.behind_last();
        if has_at(self.entries.as_slice(), next, key) {
            return Some(next);
        }
        let guess = guess_of(&self.guesses, key);
        if has_guessed(self.entries.as_slice(), guess, key) {
            return Some(guess);
        }
        match find_position(&self.positions, self.entries.as_slice(), &key) {
            Ok(at) => Some(at),
            Err(_) => None,
        }
    }

    /// The position of the sender with a key. Where one with its number came last is tried at once, since senders come in turns that
    /// do not stay.
    #[inline(always)]
    pub fn position_of_sender(&self, key: SenderKey<'_>) -> Option<usize>
        ensures { Finds self.now (sender_said key.entry) result }
    {
        let guess = guess_of(&self.guesses, Key::Sender(key));
        if has_sender_guessed(self.entries.as_slice(), guess, key) {
            Some(guess)
        } else {
            self.position_of(Key::Sender(key))
        }
    }

    /// The position of the stream with a key. That which came last is tried at once, since the ASDUs of a frame are often of one.
    #[inline(always)]
    pub fn position_of_stream(&self, key: StreamKey<'_>) -> Option<usize>
        ensures { Finds self.now (stream_said key.entry) result }
    {
        if has_stream_at(self.entries.as_slice(), self.last, key) {
            Some(self.last)
        } else {
            self.position_of(Key::Stream(key))
        }
    }

    /// Appends one with a key that none has.
    pub fn push(&mut self, alloc: A, entry: Entry<A>) -> Result<(), AllocError>
        requires { known_of self.old (entry_key entry) ≡ None }
        ensures pushed { OnOk result (self.new ≡ self.old ++ tracked_by entry ∷ []) }
        ensures kept { OnErr result (self.new ≡ self.old) }
    {
        let number = number_of(entry.key());
        let found = find_position(&self.positions, self.entries.as_slice(), &entry.key());
        let Err(place) = found else {
            return Ok(());
        };
        self.entries.reserve(1)?;
        let at = self.entries.len();
        self.positions.insert(alloc, place, at)?;
        self.entries.push_reserved(entry);
        self.last = at;
        self.guesses[number as usize] = at;
        Ok(())
    }

    /// Hands a frame to the sender at a position, whose key has this number.
    pub fn take_frame(&mut self, number: u8, at: usize, frame: Arrival) -> Told
        requires { at < length self.old }
        ensures told { (key : SpecKey) → IsFirstAt self.old key at → result ≡ told_after (sender_of (known_of self.old key)) frame }
        ensures kept { (key : SpecKey) (first : Known) → IsFirstAt self.old key at → self.new ≡ with_progress self.old key first (more_frames frame) }
    {
        self.last = at;
        self.guesses[number as usize] = at;
        self.entries[at].progress.take_frame(frame)
    }

    /// Hands a sample with this smpSynch to the stream at a position, whose key has this number.
    pub fn take_sample(
        &mut self,
        number: u8,
        at: usize,
        sample: Sample,
        synch: u8,
    ) -> (Option<Came>, Option<u8>)
        requires { at < length self.old }
        ensures told { (key : SpecKey) → IsFirstAt self.old key at → IfSome (known_of self.old key) (λ known. TellsSample known sample result) }
        ensures kept { (key : SpecKey) (first : Known) → IsFirstAt self.old key at → self.new ≡ with_progress self.old key first (more_samples sample synch) }
        ensures known { (key : SpecKey) → IsFirstAt self.old key at → IsSome (known_of self.old key) }
    {
        self.last = at;
        self.guesses[number as usize] = at;
        self.entries[at].progress.take_sample(sample, synch)
    }
}
