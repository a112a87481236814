//! Engines over events, whatever input the events come from: a list, or a capture.
ghost use Rattle.std.specs.Prelude.{◌≡◌, ◌++◌, ℕ, List, [], IsOk, OnErr, OnOk, false, length, take};
ghost use Rattle.list_core.specs.declared.event.Event.{Event};
ghost use Rattle.object_core.specs.declared.counted.Form.{Form};
ghost use Rattle.engine_core.specs.EventsText.{AgreesOnNothing, AlikeEvents, EventAllows, fault_text, in_style, line_in, over_in};
ghost use Rattle.engine_core.specs.Ending.{is_write_fault};
ghost use Rattle.engine_core.specs.Input.{reader_of};
ghost use Rattle.engine_core.specs.RunOver.{RunsOver};
ghost use Rattle.engine_core.specs.computed.EventStep.{TakesEvent};

use crate::dated::put_dated;
use crate::running::{Engine, run_over};
use crate::stopped::Stopped;
use crate::style::{HasStyle, InText, Style};
use list_core::{Event, InputFault, ReadError, ReadItems, Sink};
use object_core::{Form, LastObject};
use std::alloc::{AllocError, Allocator};
use text_core::LastLine;

/// What an engine writes for an event. It refuses none. A value stands after some events.
pub trait EventEngine<A: Allocator> {
    /// What may be written of an event in a form, by it and by those before it.
    ghost allows: { Self → Form → EventAllows A };

    /// The engine was handed these events.
    ghost stands: { Self → List (ℕ × Event A) → Type 0 };

    /// Appends the text of the next event in a form, and answers whether the event is a finding. Memory is wanted for a text alone: an
    /// event of which nothing is written asks for none. Where it is refused, the line's earlier text remains.
    fn put_event(
        &mut self,
        form: Form,
        line: &mut Vec<u8, A>,
        number: u64,
        event: &Event<A>,
    ) -> Result<bool, AllocError>
        ensures same { (each : Form) → AlikeEvents (allows self.old each) (allows self.new each) }
        ensures step { (before : List (ℕ × Event A)) → stands self.old before →
            TakesEvent (allows self.old form) (stands self.new) before (number, event.now) result line.old.items line.new.items }
        ensures kept { OnErr result (take (length line.old.items) line.new.items ≡ line.old.items) };

    /// Whether nothing is written of an event in a form is fixed by it and by those before it.
    ghost agrees: { (s : Self) (form : Form) → AgreesOnNothing (allows s form) };
}

// Appends the text of the next event, each line of it behind the event's date. Never inlined, so that a run without dates
// keeps its registers.
#[inline(never)]
fn put_dated_event<A: Allocator, E: EventEngine<A>>(
    engine: &mut E,
    undated: &mut Vec<u8, A>,
    line: &mut Vec<u8, A>,
    number: u64,
    event: &Event<A>,
) -> Result<bool, AllocError>
    ensures same { (each : Form) → AlikeEvents (E.allows engine.old each) (E.allows engine.new each) }
    ensures step { (before : List (ℕ × Event A)) → E.stands engine.old before →
        TakesEvent (in_style Style.Dated (E.allows engine.old)) (E.stands engine.new) before (number, event.now) result line.old.items line.new.items }
    ensures kept { OnErr result (take (length line.old.items) line.new.items ≡ line.old.items) }
{
    undated.clear();
    let found = engine.put_event(Form::Text, undated, number, event)?;
    put_dated(line, event.moment, undated.as_slice())?;
    Ok(found)
}

// Appends what is written of the next event in a style.
#[inline(always)]
fn put_in_style<A: Allocator, E: EventEngine<A>>(
    style: Style,
    engine: &mut E,
    undated: &mut Vec<u8, A>,
    line: &mut Vec<u8, A>,
    number: u64,
    event: &Event<A>,
) -> Result<bool, AllocError>
    ensures same { (each : Form) → AlikeEvents (E.allows engine.old each) (E.allows engine.new each) }
    ensures step { (before : List (ℕ × Event A)) → E.stands engine.old before →
        TakesEvent (in_style style (E.allows engine.old)) (E.stands engine.new) before (number, event.now) result line.old.items line.new.items }
    ensures kept { OnErr result (take (length line.old.items) line.new.items ≡ line.old.items) }
{
    match style {
        Style::Lines(form) => engine.put_event(form, line, number, event),
        Style::Dated => put_dated_event(engine, undated, line, number, event),
    }
}

/// Appends the last line, of a fault of the input, in a style. Where memory is refused, the line's earlier text remains.
pub fn put_fault_in<A: Allocator, F: LastLine + LastObject>(
    style: Style,
    line: &mut Vec<u8, A>,
    fault: &F,
) -> Result<(), AllocError>
    ensures text { OnOk result (line.new.items ≡ line.old.items ++ line_in style (F.last_line fault.now) (F.last_object fault.now)) }
    ensures kept { OnErr result (take (length line.old.items) line.new.items ≡ line.old.items) }
    ensures quiet { line_in style (F.last_line fault.now) (F.last_object fault.now) ≡ [] → IsOk result }
{
    match style {
        Style::Lines(Form::Text) => fault.put_last_line(line),
        Style::Lines(Form::Object(_)) => fault.put_last_object(line),
        Style::Dated => {
            line.extend_from_slice(b"- ")?;
            fault.put_last_line(line)
        }
    }
}

/// Such an engine over one input of events, the fault of which the last line tells.
#[derive(Drop)]
pub struct OfEvents<E, S, A: Allocator> {
    /// What writes of each event.
    pub engine: E,
    /// How that is laid out.
    pub style: S,
    /// What was written of an event before its dates: its memory is used again for the next.
    pub undated: Vec<u8, A>,
}

impl<A: Allocator, F: InputFault + LastLine + LastObject, S: HasStyle, E: EventEngine<A>> Engine<
    A,
    F,
> for OfEvents<E, S, A> {
    type Item = Event<A>;

    ghost allows = { λ s. over_in (S.style s.style) (E.allows s.engine) (fault_text F.last_line F.last_object) };

    ghost stands = { λ s before. E.stands s.engine before };

    #[inline(always)]
    fn put_item(
        &mut self,
        line: &mut Vec<u8, A>,
        number: u64,
        event: Event<A>,
        spare: &mut Option<Event<A>>,
    ) -> Result<bool, ReadError<F::Refusal>> {
        *spare = Some(event);
        let Some(event) = spare else { unreachable!() };
        let put = put_in_style(
            self.style.style(),
            &mut self.engine,
            &mut self.undated,
            line,
            number,
            event,
        );
        match put {
            Ok(found) => Ok(found),
            Err(error) => Err(ReadError::Memory(error)),
        }
    }

    fn put_end(&self, _line: &mut Vec<u8, A>, _at: u128) -> Result<Option<bool>, AllocError> {
        Ok(None)
    }

    fn put_last(&self, line: &mut Vec<u8, A>, fault: &F) -> Result<(), AllocError> {
        put_fault_in(self.style.style(), line, fault)
    }
}

/// Writes what an engine says of the events of a reader, in a style, and last the fault of its input. Hands out how that ended, the fault by
/// which it did, and the reader.
///
/// Lines of text have a run of their own, for which the compiler knows the style.
#[inline(always)]
pub fn run_events<
    A: Allocator + Copy,
    F: InputFault + LastLine + LastObject + Drop,
    I: ReadItems<A, Item = Event<A>, Fault = F>,
    E: EventEngine<A> + Drop,
    W: Sink,
>(alloc: A, style: Style, engine: E, events: I, writer: &mut W) -> Stopped<I, F>
    requires works { W.failed writer.old ≡ false }
    requires fresh { E.stands engine [] }
    ensures text { RunsOver (reader_of I.answers I.number F.refused F.failed) (over_in style (E.allows engine) (fault_text F.last_line F.last_object)) events result (W.contents writer.old) (W.contents writer.new) }
    ensures fault { W.failed writer.new ≡ is_write_fault result.ending }
{
    let undated = Vec::new(alloc);
    match style {
        Style::Lines(Form::Text) => {
            let plain = OfEvents {
                engine,
                style: InText,
                undated,
            };
            run_over(alloc, plain, b"", events, writer)
        }
        style => {
            let styled = OfEvents {
                engine,
                style,
                undated,
            };
            run_over(alloc, styled, b"", events, writer)
        }
    }
}
