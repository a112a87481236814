//! `blocks`: which control blocks and streams a list holds.

ghost use Rattle.std.specs.Prelude.{◌≡◌, ℕ, List, false};
ghost use Rattle.list_core.specs.declared.device.InputEnd.{InputEnd};
ghost use Rattle.list_core.specs.declared.event_lines.EventLines.TheVariants.{First};
ghost use Rattle.list_core.specs.Device.{GivesOctets};
ghost use Rattle.list_core.specs.EventLine.{event_rules};
ghost use Rattle.engine_core.specs.Ending.{is_write_fault};
ghost use Rattle.engine_core.proofs.EventSteps.{exactly_agrees};
ghost use Rattle.engine_core.specs.EventsText.{exactly_each, exactly_event, fault_text, over_in};
ghost use Rattle.engine_core.specs.Input.{reader_of};
ghost use Rattle.engine_core.specs.Run.{WritesSome};
ghost use Rattle.engine_core.specs.RunOver.{OfKind, RunsOver};
ghost use Rattle.inventory_engine.specs.Sightings.{sightings_in};
ghost use Rattle.inventory_engine.specs.BlocksText.{AreBlocksTexts, IsBlocksText};
ghost use Rattle.inventory_engine.specs.computed.BlocksStep.{Keeps, blocks_event};

use crate::inventory::Inventory;
use crate::kept_block::KeptBlock;
use crate::sighting::put_event;
use engine_core::{Ending, EventEngine, Stopped, Style, run_events};
use known_core::Runs;
use list_core::{Event, EventLines, InputFault, ItemReader, ReadItems, Sink, Source};
use object_core::{Form, Heading, LastObject};
use repeat_core::{Beside, FrameMemory};
use std::alloc::{AllocError, Allocator};
use text_core::LastLine;

/// What `blocks` writes, and what was seen by then.
#[derive(Drop)]
struct Listing<A: Allocator>
where
    KeptBlock<A>: Beside,
{
    alloc: A,
    memory: FrameMemory<A, KeptBlock<A>>,
    known: Inventory<A>,
}

impl<A: Allocator + Copy> EventEngine<A> for Listing<A> {
    ghost allows = { λ _ form. exactly_event (blocks_event form) };

    ghost stands = { λ s before. Keeps s.known (sightings_in before) };

    ghost agrees = { λ s form. exactly_agrees (blocks_event form) };

    #[inline(always)]
    fn put_event(
        &mut self,
        form: Form,
        line: &mut Vec<u8, A>,
        number: u64,
        event: &Event<A>,
    ) -> Result<bool, AllocError> {
        let heading = Heading {
            form,
            number,
            moment: event.moment,
        };
        put_event(
            self.alloc,
            &mut self.memory,
            &mut self.known,
            line,
            heading,
            &event.kind,
        )?;
        Ok(false)
    }
}

/// Writes which control blocks and streams the frames of a list show. A frame of GOOSE shows a control block by its
/// APPID and gocbRef (IEC 61850-8-1): a line `block` stands where no earlier frame shows it, and a line `block-changed`
/// where its configuration is another than at the newest earlier one. An ASDU of Sampled Values shows a stream by its
/// svID (IEC 61850-9-2): so do the lines `stream` and `stream-changed`. Nothing is written of anything else; where the
/// list has a fault, a last line tells it.
///
/// The reader is Open and the writer has not failed. The whole text is written at `Done`, `InputFault` and `ReadFault`,
/// a prefix of it at `WriteFault`, and its first lines at `Memory`: docs/PROOFS.md says it in full, under "What a run
/// leaves written".
///
/// What is held grows with the control blocks and streams alone. Looking one up takes about so many steps as their number
/// has binary digits, and no memory where it is configured as before.
#[inline(never)]
pub fn blocks<A: Allocator + Copy, R: Source, W: Sink>(
    alloc: A,
    reader: R,
    writer: &mut W,
) -> (Ending, R)
    requires open { R.ending reader ≡ InputEnd.Open }
    requires works { W.failed writer.old ≡ false }
    ensures text { (given : List ℕ) × GivesOctets (R.left reader) (R.left result.1) given
        × WritesSome (IsBlocksText {A = A}) event_rules First result.0 (R.ending result.1) given (W.contents writer.old) (W.contents writer.new) }
    ensures read_fault { result.0 ≡ Ending.ReadFault → R.ending result.1 ≡ InputEnd.Failed }
    ensures fault { W.failed writer.new ≡ is_write_fault result.0 }
{
    let events = ItemReader::new(reader, EventLines::First);
    blocks_over(alloc, Style::Lines(Form::Text), events, writer).into_source()
}

/// As `blocks`, over any reader of events, in a style: the last line is that of the input's fault. Hands out the fault by which
/// it ended, and the reader of the events.
#[inline(always)]
pub fn blocks_over<
    A: Allocator + Copy,
    F: InputFault + LastLine + LastObject + Drop,
    I: ReadItems<A, Item = Event<A>, Fault = F>,
    W: Sink,
>(alloc: A, style: Style, events: I, writer: &mut W) -> Stopped<I, F>
    requires works { W.failed writer.old ≡ false }
    ensures text { OfKind (AreBlocksTexts {A = A}) (λ texts. RunsOver (reader_of I.answers I.number F.refused F.failed) (over_in style (exactly_each texts) (fault_text F.last_line F.last_object))
        events result (W.contents writer.old) (W.contents writer.new)) }
    ensures fault { W.failed writer.new ≡ is_write_fault result.ending }
{
    let listing = Listing {
        alloc,
        memory: FrameMemory::new(alloc),
        known: Runs::new(alloc),
    };
    run_events(alloc, style, listing, events, writer)
}
