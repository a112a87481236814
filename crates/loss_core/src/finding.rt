//! What is told of a frame or of a sample.

ghost use Rattle.std.specs.Prelude.{◌≡◌};
ghost use Rattle.loss_core.specs.Findings.{is_loss};

use crate::missing::Span;
use crate::sender::Pair;

/// What is told of a frame of a sender, or of a sample of a stream.
#[derive(Clone, Copy, Debug, PartialEq, Eq)]
pub enum Finding {
    /// Since this moment the lifetime was over, for so many microseconds.
    Silent(u64, u64),
    /// No frame came of these states.
    StatesMissing(Span),
    /// Of this state no frame came with these sequence numbers.
    FramesMissing(u32, Span),
    /// A frame below the newest pair, in its lifetime.
    Late(Pair),
    /// A frame below the newest pair, behind its lifetime.
    Restarted(Pair),
    /// Samples from this count on are missing, so many.
    SamplesMissing(u16, u64),
    /// A sample with this count that came before.
    SampleRepeated(u16),
    /// A sample with this count from before the unbroken run, and not from before the first sample.
    SampleLate(u16),
    /// A count that is not below the period.
    OutOfRange(u16),
    /// smpSynch changed from one value to another.
    Synch(u8, u8),
}

impl Finding {
    /// Whether it is a loss: a copy, and another smpSynch, are none.
    pub fn is_loss(self) -> bool
        ensures { result ≡ is_loss self }
    {
        match self {
            Finding::SampleRepeated(_) | Finding::Synch(_, _) => false,
            Finding::Silent(_, _)
            | Finding::StatesMissing(_)
            | Finding::FramesMissing(_, _)
            | Finding::Late(_)
            | Finding::Restarted(_)
            | Finding::SamplesMissing(_, _)
            | Finding::SampleLate(_)
            | Finding::OutOfRange(_) => true,
        }
    }
}
