//! What a subscriber keeps of a block, and how one frame changes it.

ghost use Rattle.std.specs.Prelude.{◌≡◌};
ghost use Rattle.subscribe_core.specs.computed.Steps.{after_clock, verdict_on};

/// What a block reads off a good frame.
#[derive(Clone, Copy)]
pub struct Facts {
    /// The status number.
    pub state: u32,
    /// The sequence number.
    pub sequence: u32,
    /// The lifetime, in microseconds.
    pub lifetime: u64,
}

/// What is said of a good frame.
#[derive(Clone, Copy)]
pub enum Verdict {
    Act,
    Refreshed,
    Repeated,
    Older,
}

/// What a block holds: the numbers of a frame, and the moment at which its lifetime is over, in microseconds.
#[derive(Clone, Copy)]
pub struct LiveState {
    pub state: u32,
    pub sequence: u32,
    pub deadline: u128,
}

/// What is kept of a block: what it holds, and whether it takes simulated frames.
#[derive(Clone, Copy)]
pub struct Register {
    pub held: Option<LiveState>,
    pub takes_simulated: bool,
}

// The verdict on a good frame.
pub(crate) fn judge(held: &Option<LiveState>, facts: &Facts) -> Verdict
    ensures { result ≡ verdict_on held.now facts.now }
{
    match held {
        None => Verdict::Act,
        Some(h) => {
            if h.state < facts.state {
                Verdict::Act
            } else if h.state == facts.state && h.sequence < facts.sequence {
                Verdict::Refreshed
            } else if h.state == facts.state && h.sequence == facts.sequence {
                Verdict::Repeated
            } else {
                Verdict::Older
            }
        }
    }
}

// What is still held at the moment.
pub(crate) fn held_at(held: &Option<LiveState>, now: u64) -> Option<LiveState>
    ensures { result ≡ after_clock held.now now }
{
    match held {
        None => None,
        Some(h) => {
            if h.deadline <= u128::from(now) {
                None
            } else {
                Some(*h)
            }
        }
    }
}
