//! A sender, and what its frames come to.

ghost use Rattle.std.specs.Prelude.{◌≡◌, ◌+◌, ◌-◌, ◌++◌, ◌∷◌, [], List, Some, max, if◌then◌else◌};
ghost use Rattle.loss_core.specs.Sender.{IsToldLast, StandsAfter, sets, told_after};
ghost use Rattle.loss_core.specs.SenderTotals.{TallyStandsAfter, frames_missing_at, is_late, is_repeated, kept, missing_at, one_if, size, states_missing_at};
ghost use Rattle.loss_core.specs.computed.SenderSteps.{deadline_by, newest_by};
ghost use Rattle.loss_core.specs.computed.SenderTotalSteps.{AddsFrame, first_tally, tally_after};

use crate::missing::{Missing, Span, find_missing};
use crate::sender::{Arrival, Sender, Standing, Told};

/// What the frames of a sender come to. A sum that would not fit stays at the greatest number.
#[derive(Clone, Copy, Debug, PartialEq, Eq)]
pub struct SenderTotals {
    /// How many frames came.
    pub frames: u64,
    /// How many states no frame came of.
    pub states_missing: u64,
    /// How many frames are missing of states that came.
    pub frames_missing: u64,
    /// How many were late.
    pub late: u64,
    /// How many came again.
    pub repeated: u64,
    /// How often the sender was started anew.
    pub restarted: u64,
    /// How often a lifetime was over.
    pub silent: u64,
    /// The most microseconds from one frame that set the lifetime to the next.
    pub longest: u64,
}

/// A sender, and what its frames come to.
#[derive(Clone, Copy, Debug, PartialEq, Eq)]
pub struct SenderTally {
    /// The sender.
    pub sender: Sender,
    /// What its frames come to.
    pub totals: SenderTotals,
    /// The moment of the last frame that set the lifetime, in microseconds.
    pub set_at: u64,
}

// How many numbers a span has.
fn numbers_in(span: Option<Span>) -> u64
    ensures { result ≡ size span }
{
    match span {
        None => 0,
        Some(span) => u64::from(span.to).saturating_sub(u64::from(span.from)) + 1,
    }
}

// What a frame that tells this tells missing.
fn missing_at_frame(frame: Arrival, told: Told) -> Missing
    ensures { result ≡ missing_at frame told }
{
    match told.standing {
        Standing::Newer(newest) => find_missing(newest, frame.pair),
        Standing::First | Standing::Same | Standing::Below => Missing {
            states: None,
            frames: None,
        },
    }
}

// One more where it is so.
fn counted(count: u64, is_so: bool) -> u64
    ensures { result ≡ kept (count + one_if is_so) }
{
    if is_so {
        count.saturating_add(1)
    } else {
        count
    }
}

impl SenderTotals {
    // Adds a frame and what it tells, of which the last one before it that set the lifetime came at this moment.
    fn add(&mut self, frame: Arrival, told: Told, set_at: u64)
        ensures { AddsFrame frame told set_at self.old self.new }
    {
        let missing = missing_at_frame(frame, told);
        self.frames = self.frames.saturating_add(1);
        self.states_missing = self
            .states_missing
            .saturating_add(numbers_in(missing.states));
        self.frames_missing = self
            .frames_missing
            .saturating_add(numbers_in(missing.frames));
        self.late = counted(self.late, told.is_late());
        self.repeated = counted(self.repeated, told.standing == Standing::Same);
        self.restarted = counted(self.restarted, told.restarts());
        self.silent = counted(self.silent, told.silent_since.is_some());
        if told.sets() {
            self.longest = self.longest.max(frame.moment.saturating_sub(set_at));
        }
    }
}

impl SenderTally {
    /// The tally of a sender's first frame.
    pub fn of_first(first: Arrival) -> SenderTally
        ensures stands { TallyStandsAfter (first ∷ []) result }
        ensures first { result ≡ first_tally first }
    {
        SenderTally {
            sender: Sender::of_first(first),
            totals: SenderTotals {
                frames: 1,
                states_missing: 0,
                frames_missing: 0,
                late: 0,
                repeated: 0,
                restarted: 0,
                silent: 0,
                longest: 0,
            },
            set_at: first.moment,
        }
    }

    // Takes the next frame, and answers what it tells.
    fn step(&mut self, frame: Arrival) -> Told
        ensures told { result ≡ told_after (Some self.old.sender) frame }
        ensures newest { self.new.sender.newest ≡ newest_by self.old.sender.newest frame result }
        ensures deadline { self.new.sender.deadline ≡ deadline_by self.old.sender.deadline frame result }
        ensures adds { AddsFrame frame result self.old.set_at self.old.totals self.new.totals }
        ensures set { self.new.set_at ≡ (if sets result then frame.moment else self.old.set_at) }
    {
        let told = self.sender.take(frame);
        self.totals.add(frame, told, self.set_at);
        if told.sets() {
            self.set_at = frame.moment;
        }
        told
    }

    /// Takes the next frame, and answers what it tells.
    pub fn take(&mut self, frame: Arrival) -> Told
        // For all frames after which the tally stands: the answer is what this one tells after them, and the tally then
        // stands after it too.
        ensures told { (frames : List Arrival) → TallyStandsAfter frames self.old → IsToldLast frames frame result }
        ensures stands { (frames : List Arrival) → TallyStandsAfter frames self.old → TallyStandsAfter (frames ++ frame ∷ []) self.new }

        // For callers: the same by what is kept.
        ensures step { result ≡ told_after (Some self.old.sender) frame }
        ensures after { self.new ≡ tally_after self.old frame }
    {
        self.step(frame)
    }
}
