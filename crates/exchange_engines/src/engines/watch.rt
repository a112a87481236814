//! `watch`: what the counter of a stream of samples does.
ghost use Rattle.std.specs.Prelude.{◌≡◌, ◌++◌, [], ℕ, List, None, false, length, take, IsOk, MatchResult};
ghost use Rattle.list_core.specs.declared.device.InputEnd.{InputEnd};
ghost use Rattle.list_core.specs.declared.event_lines.EventLines.TheVariants.{First};
ghost use Rattle.list_core.specs.Device.{GivesOctets};
ghost use Rattle.list_core.specs.EventLine.{event_rules};
ghost use Rattle.pdu_core.specs.SampledViews.{asdu_of, asdus_left};
ghost use Rattle.block_core.specs.Period.{IsPeriod};
ghost use Rattle.subscribe_core.specs.computed.WatchAnswers.{seen_all};
ghost use Rattle.engine_core.specs.Ending.{is_write_fault};
ghost use Rattle.engine_core.proofs.EventSteps.{exactly_agrees};
ghost use Rattle.engine_core.specs.EventsText.{exactly_each, exactly_event, fault_text, over_in};
ghost use Rattle.engine_core.specs.Input.{reader_of};
ghost use Rattle.engine_core.specs.Run.{WritesSome};
ghost use Rattle.engine_core.specs.RunOver.{OfKind, RunsOver};
ghost use Rattle.text_core.specs.Pieces.{AppendsText};
ghost use Rattle.exchange_engines.specs.WatchText.{AreWatchTexts, IsWatchText, counts, counts_of, is_unexpected as unexpected, sample_at, samples_from, samples_of, watched};
ghost use Rattle.exchange_engines.specs.computed.WatchStep.{SamplesAppended, last_of, telling_at, watch_event};

use crate::texts::sample::put_sample_line;
use crate::texts::sample_object::put_sample_object;
use ber_core::Fault;
use engine_core::{Ending, EventEngine, Stopped, Style, run_events};
use frame_core::{ApduView, view_frame};
use list_core::{Event, EventKind, EventLines, InputFault, ItemReader, ReadItems, Sink, Source};
use object_core::event::put_fault_object;
use object_core::{Form, Heading, LastObject};
use pdu_core::{AsduView, SvView};
use std::alloc::{AllocError, Allocator};
use subscribe_core::{Seen, Watch};
use text_core::LastLine;
use text_core::line::put_fault_line;

// Whether a count is neither the first nor the next one.
fn is_unexpected(seen: Seen) -> bool
    ensures { result ≡ unexpected seen }
{
    match seen {
        Seen::First | Seen::Next => false,
        Seen::Skipped(_) | Seen::Same | Seen::Late | Seen::OutOfRange => true,
    }
}

// Appends what is told of a sample.
#[inline(always)]
fn put_told_sample<A: Allocator>(
    line: &mut Vec<u8, A>,
    heading: Heading,
    position: u64,
    count: u16,
    seen: Seen,
) -> Result<(), AllocError>
    ensures { AppendsText result line.old.items line.new.items ((telling_at heading).of_sample (record { position = position; count = count }) seen) }
{
    let Heading {
        form,
        number,
        moment,
    } = heading;
    match form {
        Form::Text => put_sample_line(line, number, position, count, seen),
        Form::Object(counted) => {
            put_sample_object(line, counted, number, moment, position, count, seen)
        }
    }
}

// Appends what is told of a frame's fault.
fn put_told_fault<A: Allocator>(
    line: &mut Vec<u8, A>,
    heading: Heading,
    fault: Fault,
) -> Result<(), AllocError>
    ensures { AppendsText result line.old.items line.new.items ((telling_at heading).of_fault fault) }
{
    let Heading {
        form,
        number,
        moment,
    } = heading;
    match form {
        Form::Text => put_fault_line(line, number, fault),
        Form::Object(counted) => put_fault_object(line, counted, number, moment, fault),
    }
}

// Appends what is told of an ASDU's count, if it is of the stream, and answers whether the count is unexpected. Inlined, so that
// of an ASDU no more is read than its name and its count.
#[inline(always)]
fn put_asdu_sample<A: Allocator>(
    watch: &mut Watch,
    id: &[u8],
    line: &mut Vec<u8, A>,
    heading: Heading,
    position: u64,
    asdu: &AsduView<'_>,
) -> Result<bool, AllocError>
    ensures written { MatchResult result
        (λ found. SamplesAppended watch.old.period (telling_at heading) watch.old.last (sample_at position id.now (asdu_of {A = Unit {0}} asdu.now)) line.old.items line.new.items found watch.new.last)
        (λ _. take (length line.old.items) line.new.items ≡ line.old.items) }
    ensures quiet { sample_at position id.now (asdu_of {A = Unit {0}} asdu.now) ≡ [] → IsOk result }
    ensures period { watch.new.period ≡ watch.old.period }
{
    if asdu.sv_id != id {
        return Ok(false);
    }
    let seen = watch.see(asdu.smp_cnt);
    put_told_sample(line, heading, position, asdu.smp_cnt, seen)?;
    Ok(is_unexpected(seen))
}

// Appends what is told of the stream's ASDUs, and answers whether one of their counts is unexpected. Inlined, so that a run over
// lines of text has that form alone.
#[inline(always)]
fn put_asdu_samples<A: Allocator>(
    watch: &mut Watch,
    id: &[u8],
    line: &mut Vec<u8, A>,
    heading: Heading,
    sampled: &SvView<'_>,
) -> Result<bool, AllocError>
    ensures written { MatchResult result
        (λ found. SamplesAppended watch.old.period (telling_at heading) watch.old.last (samples_from 0 id.now (asdus_left {A = Unit {0}} sampled.now.asdus)) line.old.items line.new.items found watch.new.last)
        (λ _. take (length line.old.items) line.new.items ≡ line.old.items) }
    ensures quiet { samples_from 0 id.now (asdus_left {A = Unit {0}} sampled.now.asdus) ≡ [] → IsOk result }
    ensures period { watch.new.period ≡ watch.old.period }
{
    let count = sampled.count as u64;
    let mut position = 0;
    let mut found = false;
    for asdu in sampled.asdus {
        found |= put_asdu_sample(watch, id, line, heading, position, &asdu)?;
        position = count.min(position + 1);
    }
    Ok(found)
}

// Appends what is written of an event, and answers whether it is a finding. Inlined for the same reason.
#[inline(always)]
fn put_watched<A: Allocator>(
    watch: &mut Watch,
    id: &[u8],
    line: &mut Vec<u8, A>,
    heading: Heading,
    kind: &EventKind<A>,
) -> Result<bool, AllocError>
    ensures written { MatchResult result
        (λ found. (line.new.items ≡ line.old.items ++ (watched (telling_at heading) id.now kind.now (seen_all watch.old.period watch.old.last (counts (samples_of id.now kind.now)))).0)
        × (found ≡ (watched (telling_at heading) id.now kind.now (seen_all watch.old.period watch.old.last (counts (samples_of id.now kind.now)))).1)
        × (watch.new.last ≡ last_of watch.old.period watch.old.last (counts (samples_of id.now kind.now))))
        (λ _. take (length line.old.items) line.new.items ≡ line.old.items) }
    ensures quiet { (watched (telling_at heading) id.now kind.now (seen_all watch.old.period watch.old.last (counts (samples_of id.now kind.now)))).0 ≡ [] → IsOk result }
    ensures period { watch.new.period ≡ watch.old.period }
{
    let EventKind::Frame(octets) = kind else {
        return Ok(false);
    };
    match view_frame(octets.as_slice()) {
        Err(fault) => {
            put_told_fault(line, heading, fault)?;
            Ok(true)
        }
        Ok(view) => match &view.apdu {
            ApduView::Goose(_) => Ok(false),
            ApduView::Sampled(sampled) => put_asdu_samples(watch, id, line, heading, sampled),
        },
    }
}

/// What `watch` writes: what a watch over the stream's counts sees.
#[derive(Drop)]
struct Watching<'a> {
    watch: Watch,
    id: &'a [u8],
}

impl<A: Allocator> EventEngine<A> for Watching<'_> {
    ghost allows = { λ s form. exactly_event (watch_event form s.watch.period s.id.now) };

    ghost stands = { λ s before. s.watch.last ≡ last_of s.watch.period None (counts_of s.id.now before) };

    ghost agrees = { λ s form. exactly_agrees (watch_event form s.watch.period s.id.now) };

    #[inline(always)]
    fn put_event(
        &mut self,
        form: Form,
        line: &mut Vec<u8, A>,
        number: u64,
        event: &Event<A>,
    ) -> Result<bool, AllocError> {
        let heading = Heading {
            form,
            number,
            moment: event.moment,
        };
        let found = put_watched(&mut self.watch, self.id, line, heading, &event.kind)?;
        Ok(found)
    }
}

/// Writes what the counter of a stream of samples does: a line for each ASDU with this svID, with its
/// position in the frame and its count, and whether that is the first one, the next one, so many later,
/// the same, a late one or out of range; and a line for each faulty frame. One counter runs over all
/// ASDUs and frames of the stream; it begins at 0 again after `period` counts, 2 to 65,536. Where the
/// list has a fault, a last line tells it.
///
/// Ends with `Findings` where a line other than `first` or `next` was written, and else with `Done`,
/// unless the list has a fault.
///
/// The reader is Open and the writer has not failed. The whole text is written at `Done`, `Findings`,
/// `InputFault` and `ReadFault`, a prefix of it at `WriteFault`, and its first lines at `Memory`:
/// docs/PROOFS.md says it in full, under "What a run leaves written".
#[inline(never)]
pub fn watch<A: Allocator + Copy, R: Source, W: Sink>(
    alloc: A,
    reader: R,
    period: u32,
    id: &[u8],
    writer: &mut W,
) -> (Ending, R)
    requires open { R.ending reader ≡ InputEnd.Open }
    requires works { W.failed writer.old ≡ false }
    requires period { IsPeriod period }
    ensures text { (given : List ℕ) × GivesOctets (R.left reader) (R.left result.1) given
        × WritesSome (IsWatchText {A = A} period id.now) event_rules First result.0 (R.ending result.1) given (W.contents writer.old) (W.contents writer.new) }
    ensures read_fault { result.0 ≡ Ending.ReadFault → R.ending result.1 ≡ InputEnd.Failed }
    ensures fault { W.failed writer.new ≡ is_write_fault result.0 }
{
    let events = ItemReader::new(reader, EventLines::First);
    let style = Style::Lines(Form::Text);
    watch_over(alloc, style, events, period, id, writer).into_source()
}

/// As `watch`, over any reader of events, in a style: the last line is that of the input's fault. Hands out the fault by which it
/// ended, and the reader of the events.
#[inline(always)]
pub fn watch_over<
    A: Allocator + Copy,
    F: InputFault + LastLine + LastObject + Drop,
    I: ReadItems<A, Item = Event<A>, Fault = F>,
    W: Sink,
>(alloc: A, style: Style, events: I, period: u32, id: &[u8], writer: &mut W) -> Stopped<I, F>
    requires works { W.failed writer.old ≡ false }
    requires period { IsPeriod period }
    ensures text { OfKind (AreWatchTexts {A = A} period id.now) (λ texts. RunsOver (reader_of I.answers I.number F.refused F.failed) (over_in style (exactly_each texts) (fault_text F.last_line F.last_object))
        events result (W.contents writer.old) (W.contents writer.new)) }
    ensures fault { W.failed writer.new ≡ is_write_fault result.ending }
{
    match Watch::new(period) {
        Ok(watch) => run_events(alloc, style, Watching { watch, id }, events, writer),
        // The period is in range.
        Err(_) => unreachable!(),
    }
}
