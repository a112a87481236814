//! The rules of a list of events: the unit of its moments, which the first line settles.
ghost use Rattle.list_core.specs.EventLine.{event_rules};

use crate::event::Event;
use crate::line_rules::LineRules;
use crate::list_fault::ListCause;
use crate::list_line::event_in;
use crate::read_error::ReadError;
use std::alloc::Allocator;

/// The unit of a moment's digits.
#[derive(Clone, Copy, Debug, PartialEq, Eq)]
pub enum MomentUnit {
    /// Milliseconds, of at most 15 digits.
    Milliseconds,
    /// Microseconds, of at most 18 digits.
    Microseconds,
}

/// What the lines of a list of events have settled.
#[derive(Clone, Copy, Debug, PartialEq, Eq)]
pub enum EventLines {
    /// No line was read: the first one may be `V2`, after which moments are microseconds.
    First,
    /// A line was read: moments have this unit.
    After(MomentUnit),
}

impl<A: Allocator + Copy> LineRules<A> for EventLines {
    type Item = Event<A>;

    type Cause = ListCause;

    ghost rules = { event_rules };

    #[inline(always)]
    fn item_in(
        &mut self,
        alloc: A,
        spare: &mut Option<Event<A>>,
        line: &[u8],
    ) -> Result<Option<Event<A>>, ReadError<ListCause>> {
        let unit = match *self {
            EventLines::After(unit) => unit,
            EventLines::First => match line {
                [b'V', b'2'] => {
                    *self = EventLines::After(MomentUnit::Microseconds);
                    return Ok(None);
                }
                _ => MomentUnit::Milliseconds,
            },
        };
        match event_in(alloc, spare, unit, line) {
            Ok(event) => {
                *self = EventLines::After(unit);
                Ok(event)
            }
            Err(error) => Err(error),
        }
    }

    fn lacks(&self) -> Option<ListCause> {
        None
    }
}
