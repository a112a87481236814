//! What comes of one sender: the frames of a control block that are real, or those that are simulated.

ghost use Rattle.std.specs.Prelude.{◌≡◌, ◌+◌, ◌++◌, ◌∷◌, [], List, Some};
ghost use Rattle.loss_core.specs.Sender.{IsToldLast, StandsAfter, is_above as pair_is_above, is_newer, restarts, sets, standing_by, told_after, was_silent};
ghost use Rattle.loss_core.specs.SenderTotals.{is_late};
ghost use Rattle.loss_core.specs.computed.SenderSteps.{deadline_by, newest_by};

/// The status number and the sequence number of a frame.
#[derive(Clone, Copy, Debug, PartialEq, Eq)]
pub struct Pair {
    /// stNum, which counts changes.
    pub state: u32,
    /// sqNum, which counts retransmissions since the last change.
    pub sequence: u32,
}

impl Pair {
    /// Whether this pair is above another: a greater status number, or the same one and a greater sequence number.
    pub fn is_above(self, other: Pair) -> bool
        ensures { result ≡ pair_is_above self other }
    {
        other.state < self.state || (other.state == self.state && other.sequence < self.sequence)
    }
}

/// A frame of a sender as it came.
#[derive(Clone, Copy, Debug, PartialEq, Eq)]
pub struct Arrival {
    /// Its numbers.
    pub pair: Pair,
    /// The greatest moment so far, in microseconds.
    pub moment: u64,
    /// For how long the sender lets none follow, in microseconds: 1,000 times timeAllowedtoLive.
    pub lifetime: u64,
}

impl Arrival {
    /// The moment at which its lifetime is over, in microseconds.
    pub fn deadline(self) -> u128
        ensures { result ≡ self.moment + self.lifetime }
    {
        u128::from(self.moment) + u128::from(self.lifetime)
    }
}

/// How a pair stands to the newest one before it.
#[derive(Clone, Copy, Debug, PartialEq, Eq)]
pub enum Standing {
    /// There is none before it.
    First,
    /// It is above the newest one, which was this.
    Newer(Pair),
    /// It is the newest one again.
    Same,
    /// It is below the newest one.
    Below,
}

/// What a frame tells.
#[derive(Clone, Copy, Debug, PartialEq, Eq)]
pub struct Told {
    /// The moment at which the lifetime before it was over, in microseconds, where that is at most its own moment.
    pub silent_since: Option<u64>,
    /// How its pair stands to the newest one before it.
    pub standing: Standing,
}

/// What is kept of a sender: the newest pair since its last restart, and the moment at which its lifetime is over.
#[derive(Clone, Copy, Debug, PartialEq, Eq)]
pub struct Sender {
    /// The newest pair.
    pub newest: Pair,
    /// The moment, in microseconds.
    pub deadline: u128,
}

impl Told {
    // Whether the lifetime before the frame was over.
    fn was_silent(&self) -> bool
        ensures { result ≡ was_silent self.now }
    {
        self.silent_since.is_some()
    }

    /// Whether the frame is late: below the newest pair, where the lifetime before it was not over.
    pub fn is_late(&self) -> bool
        ensures { result ≡ is_late self.now }
    {
        match self.standing {
            Standing::First | Standing::Newer(_) | Standing::Same => false,
            Standing::Below => !self.was_silent(),
        }
    }

    /// Whether the frame sets the lifetime: its pair is newer, or the lifetime before it was over.
    pub fn sets(&self) -> bool
        ensures { result ≡ sets self.now }
    {
        self.was_silent() || self.is_newer()
    }

    // Whether the frame's pair is the first one, or above the newest one.
    fn is_newer(&self) -> bool
        ensures { result ≡ is_newer self.now.standing }
    {
        match self.standing {
            Standing::First | Standing::Newer(_) => true,
            Standing::Same | Standing::Below => false,
        }
    }

    /// Whether the frame restarts its sender: it is below the newest pair, and the lifetime before it was over.
    pub fn restarts(&self) -> bool
        ensures { result ≡ restarts self.now }
    {
        match self.standing {
            Standing::First | Standing::Newer(_) | Standing::Same => false,
            Standing::Below => self.was_silent(),
        }
    }
}

impl Sender {
    /// The sender of a first frame.
    pub fn of_first(first: Arrival) -> Sender
        ensures { StandsAfter (first ∷ []) result }
    {
        Sender {
            newest: first.pair,
            deadline: first.deadline(),
        }
    }

    // How a pair stands to the newest one.
    fn standing_of(&self, pair: Pair) -> Standing
        ensures { result ≡ standing_by self.now.newest pair }
    {
        if pair.is_above(self.newest) {
            Standing::Newer(self.newest)
        } else if self.newest.is_above(pair) {
            Standing::Below
        } else {
            Standing::Same
        }
    }

    // What the next frame tells, by what is kept.
    fn judge(&self, frame: Arrival) -> Told
        ensures { result ≡ told_after (Some self.now) frame }
    {
        let silent_since = if self.deadline <= u128::from(frame.moment) {
            Some(self.deadline as u64)
        } else {
            None
        };
        Told {
            silent_since,
            standing: self.standing_of(frame.pair),
        }
    }

    // Takes the next frame, and answers what it tells.
    fn step(&mut self, frame: Arrival) -> Told
        ensures told { result ≡ told_after (Some self.old) frame }
        ensures newest { self.new.newest ≡ newest_by self.old.newest frame result }
        ensures deadline { self.new.deadline ≡ deadline_by self.old.deadline frame result }
    {
        let told = self.judge(frame);
        if told.is_newer() || told.restarts() {
            self.newest = frame.pair;
        }
        if told.sets() {
            self.deadline = frame.deadline();
        }
        told
    }

    /// Takes the next frame, and answers what it tells.
    ///
    /// A frame whose pair is above the newest one sets pair and deadline. At the newest pair it sets the deadline, and below it
    /// both, where the lifetime before it was over; else nothing.
    pub fn take(&mut self, frame: Arrival) -> Told
        // For all frames after which the sender stands: the answer is what this one tells after them, and the sender then
        // stands after it too.
        ensures told { (frames : List Arrival) → StandsAfter frames self.old → IsToldLast frames frame result }
        ensures stands { (frames : List Arrival) → StandsAfter frames self.old → StandsAfter (frames ++ frame ∷ []) self.new }

        // For callers: the same by what is kept.
        ensures step { result ≡ told_after (Some self.old) frame }
        ensures newest { self.new.newest ≡ newest_by self.old.newest frame result }
        ensures deadline { self.new.deadline ≡ deadline_by self.old.deadline frame result }
    {
        self.step(frame)
    }
}
