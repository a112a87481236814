//! `losses`: what is missing of each control block and stream, when, and how much.
ghost use Rattle.std.specs.Prelude.{◌≡◌, ◌++◌, [], IfOk, IsOk, OnErr, OnOk, false, length, take};
ghost use Rattle.engine_core.specs.Ending.{is_write_fault};
ghost use Rattle.engine_core.specs.EventsText.{fault_text};
ghost use Rattle.engine_core.specs.Input.{reader_of};
ghost use Rattle.engine_core.specs.RunOver.{RunsOver};
ghost use Rattle.loss_core.specs.Periods.{ArePeriods};
ghost use Rattle.loss_engine.specs.LossText.{losses_text};
ghost use Rattle.loss_engine.specs.computed.Held.{kept_by, periods_by};
ghost use Rattle.loss_engine.specs.computed.Telling.{PutsPiece, WantsPiece};
ghost use Rattle.loss_engine.specs.computed.Tracking.{keep_all, kept_none};

use crate::closing::put_closing;
use crate::losses::Losses;
use crate::telling::put_event;
use crate::unjudged::Unjudged;
use engine_core::{Engine, Stopped, Style, put_dated, put_fault_in, run_on};
use list_core::{Event, InputFault, ReadError, ReadItems, Sink};
use loss_core::StreamPeriod;
use object_core::{Form, Heading, LastObject};
use repeat_core::{FrameMemory, Nothing};
use std::alloc::{AllocError, Allocator};
use text_core::LastLine;

/// What `losses` writes of events in a style, and what is kept of them.
#[derive(Drop)]
struct Losing<A: Allocator> {
    alloc: A,
    memory: FrameMemory<A, Nothing>,
    losses: Losses<A>,
    style: Style,
    // What is told of an event before its dates: its memory is used again for the next.
    undated: Vec<u8, A>,
}

impl<A: Allocator + Copy> Losing<A> {
    // Appends what the next event tells, in the style, and answers whether that is a finding.
    #[inline(always)]
    fn put_told(
        &mut self,
        line: &mut Vec<u8, A>,
        number: u64,
        event: &Event<A>,
    ) -> Result<bool, AllocError>
        ensures puts { IfOk result (λ found. PutsPiece (periods_by self.old.losses) self.old.style (kept_by self.old.losses) (number, event.now) line.old.items found line.new.items (kept_by self.new.losses)) }
        ensures wants { OnErr result (WantsPiece (periods_by self.old.losses) self.old.style (kept_by self.old.losses) (number, event.now)) }
        ensures kept { OnErr result (take (length line.old.items) line.new.items ≡ line.old.items) }
        ensures periods { periods_by self.new.losses ≡ periods_by self.old.losses }
        ensures style { self.new.style ≡ self.old.style }
    {
        let back = self.losses.pass(event.moment);
        match self.style {
            Style::Lines(form) => {
                let heading = Heading {
                    form,
                    number,
                    moment: event.moment,
                };
                put_event(
                    self.alloc,
                    &mut self.memory,
                    &mut self.losses,
                    line,
                    heading,
                    back,
                    &event.kind,
                )
            }
            Style::Dated => {
                self.undated.clear();
                let heading = Heading {
                    form: Form::Text,
                    number,
                    moment: event.moment,
                };
                let memory = &mut self.memory;
                let undated = &mut self.undated;
                let losses = &mut self.losses;
                let found = put_event(
                    self.alloc,
                    memory,
                    losses,
                    undated,
                    heading,
                    back,
                    &event.kind,
                )?;
                put_dated(line, event.moment, self.undated.as_slice())?;
                Ok(found)
            }
        }
    }
}

impl<A: Allocator + Copy, F: InputFault + LastLine + LastObject> Engine<A, F> for Losing<A> {
    type Item = Event<A>;

    ghost allows = { λ s. losses_text (record { periods = periods_by s.losses; style = s.style; last = fault_text F.last_line F.last_object }) };

    ghost stands = { λ s before. kept_by s.losses ≡ keep_all (periods_by s.losses) kept_none before };

    #[inline(always)]
    fn put_item(
        &mut self,
        line: &mut Vec<u8, A>,
        number: u64,
        event: Event<A>,
        spare: &mut Option<Event<A>>,
    ) -> Result<bool, ReadError<F::Refusal>> {
        let put = self.put_told(line, number, &event);
        *spare = Some(event);
        match put {
            Ok(found) => Ok(found),
            Err(error) => Err(ReadError::Memory(error)),
        }
    }

    fn put_end(&self, line: &mut Vec<u8, A>, at: u128) -> Result<Option<bool>, AllocError> {
        put_closing(&self.losses, self.style, line, at)
    }

    fn put_last(&self, line: &mut Vec<u8, A>, fault: &F) -> Result<(), AllocError> {
        put_fault_in(self.style, line, fault)
    }
}

/// Writes what is missing of each control block and stream that the events of a reader show, when a frame comes that shows it,
/// and at the end of the events what has not come back and a total for each, in a style. A stream has its period of those that are
/// given; without one it is counted alone, and noted. Hands out how that ended, the fault by which it did, and the reader.
///
/// A frame, or an end, that tells a loss is a finding. Behind a fault of the input nothing is told of the end.
#[inline(always)]
pub fn losses_over<
    A: Allocator + Copy,
    F: InputFault + LastLine + LastObject + Drop,
    I: ReadItems<A, Item = Event<A>, Fault = F>,
    W: Sink,
>(
    alloc: A,
    style: Style,
    mut events: I,
    periods: Vec<StreamPeriod<A>, A>,
    unjudged: &mut Unjudged<A>,
    writer: &mut W,
) -> Stopped<I, F>
    requires works { W.failed writer.old ≡ false }
    requires periods { ArePeriods periods.items }
    ensures text { RunsOver (reader_of I.answers I.number F.refused F.failed) (losses_text (record { periods = periods.items; style = style; last = fault_text F.last_line F.last_object }))
        events result (W.contents writer.old) (W.contents writer.new) }
    ensures fault { W.failed writer.new ≡ is_write_fault result.ending }
{
    let mut losing = Losing {
        alloc,
        memory: FrameMemory::new(alloc),
        losses: Losses::new(alloc, periods),
        style,
        undated: Vec::new(alloc),
    };
    let (ending, fault) = run_on(alloc, &mut losing, b"", &mut events, writer);
    losing.losses.note_unjudged(alloc, unjudged);
    Stopped {
        ending,
        fault,
        reader: events,
    }
}
