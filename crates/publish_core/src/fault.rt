//! Why a publisher refuses.

use thiserror::Error;

/// Why a table, a publisher or a change is refused. Of several reasons it is the first in this order.
#[derive(Clone, Copy, PartialEq, Eq, Debug, Error)]
pub enum PublishFault {
    /// The table has no step, or more than 16.
    #[error("a table has 1 to 16 steps")]
    StepCount,
    /// The step at this position, from 0, is the first that waits for nothing or does not live longer than it waits.
    #[error("step {0} waits 0 ms, or does not live longer than it waits")]
    StepTimes(usize),
    /// The status number of the first state is 0.
    #[error("the first stNum is 0")]
    FirstState,
    /// The count of values is not the control's.
    #[error("the number of members differs from the control's entries")]
    EntriesDiffer,
    /// A value, the time of the change or a text of the control has no spelling.
    #[error("a value, the time or a text has no encoding")]
    NotSpellable,
    /// A frame of the new state would be too long, the first or a retransmission.
    #[error("a frame of the new state would be too long")]
    WouldNotFit,
}
