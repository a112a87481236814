//! The lines of a script of `publish`: what they say, which may stand where, and why one is refused.

use ber_core::Fault;
use list_core::MomentUnit;
use mms_data::{UtcTime, ValueList};
use publish_core::{Control, Step};
use std::alloc::Allocator;
use thiserror::Error;

/// What a line of a script says.
#[derive(Drop)]
pub enum ScriptItem<A: Allocator> {
    /// The control block, and the status number of its first state.
    Control(Control<A>, u32),
    /// A step of the table.
    Step(Step),
    /// A change at a moment, in microseconds: the time of change that frames carry, and the values.
    Change(u64, UtcTime, ValueList<A>),
    /// A poll at a moment, in microseconds.
    Poll(u64),
}

/// Why a line of a script is refused, or what is missing at its end. Of several reasons for one line it is the first in
/// this order.
#[derive(Clone, Copy, Debug, PartialEq, Eq, Error)]
pub enum ScriptCause {
    /// The line has no such form, or a wrong place.
    #[error("this line is not allowed here")]
    ScriptForm,
    /// The first status number is 0.
    #[error("the first stNum is 0")]
    FirstState,
    /// The step waits for nothing, or lives no longer than it waits.
    #[error("the step waits 0 ms, or does not live longer than it waits")]
    StepTimes,
    /// There are 16 steps before this one, or none before the first change or poll or the end.
    #[error("there are 16 steps before this one, or none at all")]
    StepCount,
    /// The moment has no such digits.
    #[error("the time is not 1 to 15 decimal digits (1 to 18 after a first line V2)")]
    Moment,
    /// The time of change or the members have no such digits.
    #[error("T is not 16 hexadecimal digits, or MEMBERS not an even count of them")]
    Hex,
    /// The members have this fault, its place counted in their octets.
    #[error("the members: {0}")]
    Members(Fault),
    /// The count of values is not the control's.
    #[error("the number of members differs from the control's entries")]
    EntriesDiffer,
    /// A value, the time of the change or a text of the control has no spelling.
    #[error("a value, the time or a text has no encoding")]
    NotSpellable,
    /// A frame of the new state would be too long.
    #[error("a frame of the new state would be too long")]
    WouldNotFit,
}

/// Which lines of a script may stand next.
#[derive(Clone, Copy, Debug, PartialEq, Eq)]
pub enum ScriptPart {
    /// The control line.
    Control,
    /// A step behind so many others, or a change or a poll.
    Steps(u8),
    /// A change or a poll.
    Calls,
}

/// What the lines of a script have settled.
#[derive(Clone, Copy, Debug, PartialEq, Eq)]
pub enum ScriptLines {
    /// No line was read: the first one may be `V2`, after which moments are microseconds.
    First,
    /// A line was read: moments have this unit, and these lines may stand next.
    After(MomentUnit, ScriptPart),
}
