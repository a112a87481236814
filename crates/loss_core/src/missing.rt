//! What is missing between the newest pair of a sender and one above it.

ghost use Rattle.std.specs.Prelude.{◌≡◌, ◌≤◌};
ghost use Rattle.loss_core.specs.Missing.{missing_between, sequences_from as first_sequence, span as span_is};

use crate::sender::Pair;

/// Numbers one after another.
#[derive(Clone, Copy, Debug, PartialEq, Eq)]
pub struct Span {
    /// The first one.
    pub from: u32,
    /// The last one.
    pub to: u32,
}

/// What is missing between two pairs.
#[derive(Clone, Copy, Debug, PartialEq, Eq)]
pub struct Missing {
    /// Status numbers of which no frame came.
    pub states: Option<Span>,
    /// Sequence numbers of the status number that came.
    pub frames: Option<Span>,
}

// The numbers from one up to, and without, another.
fn numbers_between(from: u64, until: u32) -> Option<Span>
    requires { from ≤ 4294967296 }
    ensures { result ≡ span_is from until }
{
    if from < u64::from(until) {
        Some(Span {
            from: from as u32,
            to: until - 1,
        })
    } else {
        None
    }
}

/// What is missing between the newest pair and one that came above it. Of the newest pair's own state nobody knows how many
/// retransmissions it had, so where another state followed nothing is said of its end.
pub fn find_missing(newest: Pair, came: Pair) -> Missing
    ensures { result ≡ missing_between newest came }
{
    let first = if newest.state == came.state {
        u64::from(newest.sequence) + 1
    } else {
        0
    };
    Missing {
        states: numbers_between(u64::from(newest.state) + 1, came.state),
        frames: numbers_between(first, came.sequence),
    }
}
