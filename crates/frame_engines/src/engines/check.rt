//! `check`: a line for each note on a frame.
ghost use Rattle.std.specs.Prelude.{◌≡◌, ◌≢◌, ◌++◌, [], ℕ, List, true, false, length, take, ⊤, IfSome, IsOk, MatchResult, Ok, Err};
ghost use Rattle.std.specs.Fmt.{decimal};
ghost use Rattle.list_core.specs.declared.device.InputEnd.{InputEnd};
ghost use Rattle.list_core.specs.declared.event_lines.EventLines.TheVariants.{First};
ghost use Rattle.list_core.specs.Device.{GivesOctets};
ghost use Rattle.list_core.specs.EventLine.{event_rules};
ghost use Rattle.frame_core.specs.FrameViews.{frame_of, is_written};
ghost use Rattle.frame_core.specs.Written.{ApduIsSpellable, written_frame};
ghost use Rattle.frame_core.specs.computed.FrameReading.{frame_at};
ghost use Rattle.frame_core.specs.computed.WrittenTest.{fits};
ghost use Rattle.repeat_core.specs.Beside.{Repeats};
ghost use Rattle.repeat_core.specs.OtherForm.{HasOtherForm};
ghost use Rattle.text_core.specs.Pieces.{AppendsText};
ghost use Rattle.frame_engines.specs.CheckObject.{check_event_in, notes_in};
ghost use Rattle.frame_engines.specs.CheckText.{check_text, goes_where_recommended, has_text, is_form};
ghost use Rattle.frame_engines.specs.computed.InForm.{frame_notes_in, note_end, note_in, note_kind, octets_notes_in};
ghost use Rattle.engine_core.specs.Ending.{is_write_fault};
ghost use Rattle.engine_core.proofs.EventSteps.{exactly_agrees};
ghost use Rattle.engine_core.specs.EventsText.{exactly_event, fault_text, over_in};
ghost use Rattle.engine_core.specs.Run.{Writes};
ghost use Rattle.engine_core.specs.Input.{reader_of};
ghost use Rattle.engine_core.specs.RunOver.{RunsOver};
ghost use Rattle.frame_engines.specs.WrittenForm.{fitting_form, written_form};

use arrayvec::ArrayVec;
use ber_core::Fault;
use byteorder::{BigEndian, ByteOrder};
use engine_core::{Ending, EventEngine, Stopped, Style, run_events};
use frame_core::{ApduView, FrameView, encode_view, see_frame, written_length};
use list_core::{Event, EventKind, EventLines, InputFault, ItemReader, ReadItems, Sink, Source};
use object_core::event::{put_event_object, put_fault_object};
use object_core::{Form, LastObject};
use repeat_core::{Again, FrameMemory, OtherForm};
use std::alloc::{AllocError, Allocator};
use text_core::LastLine;
use text_core::line::put_fault_line;
use text_core::pieces::put_decimal;

/// The first recommended destination of GOOSE, 01-0C-CD-01-00-00, and the last.
const GOOSE_DESTINATIONS: (u64, u64) = (0x010C_CD01_0000, 0x010C_CD01_01FF);

/// The first recommended destination of Sampled Values, 01-0C-CD-04-00-00, and the last.
const SAMPLED_DESTINATIONS: (u64, u64) = (0x010C_CD04_0000, 0x010C_CD04_01FF);

// Whether octets are those of the written form of the frame that they spell, and this form fits. Never inlined, so that
// room for the form is made only where one is written.
#[inline(never)]
fn is_in_written_form(view: &FrameView<'_>, octets: &[u8]) -> bool
    requires { ApduIsSpellable (frame_of {A = Unit {0}} view.now).apdu }
    ensures { result ≡ is_form (fitting_form (Ok (frame_of {A = Unit {0}} view.now))) octets.now }
{
    let mut form = ArrayVec::new();
    match encode_view(view, &mut form) {
        Ok(()) => form.as_slice() == octets,
        Err(_) => false,
    }
}

// Whether the written form of the frame is known to have another count of octets.
fn has_another_length(view: &FrameView<'_>, count: usize) -> bool
    ensures { result ≡ true → length (written_frame (frame_of {A = Unit {0}} view.now)) ≢ count }
{
    match written_length(view) {
        Some(written) => written != count,
        None => false,
    }
}

// Whether octets are those of the written form, and this form fits. It is not written where this is known, or where its length
// differs.
fn stands_in_written_form(view: &FrameView<'_>, octets: &[u8]) -> bool
    requires spellable { ApduIsSpellable (frame_of {A = Unit {0}} view.now).apdu }
    requires known { is_written view.now.apdu ≡ true → (octets.now ≡ written_frame (frame_of {A = Unit {0}} view.now)) × (fits (frame_of {A = Unit {0}} view.now) ≡ true) }
    ensures { result ≡ is_form (fitting_form (Ok (frame_of {A = Unit {0}} view.now))) octets.now }
{
    if view.apdu.is_written() {
        return true;
    }
    if has_another_length(view, octets.len()) {
        return false;
    }
    is_in_written_form(view, octets)
}

// Whether a frame is sent to a destination that is recommended for what it carries.
fn has_recommended_destination(view: &FrameView<'_>) -> bool
    ensures { result ≡ goes_where_recommended (frame_of {A = Unit {0}} view.now) }
{
    let destination = BigEndian::read_u48(&view.destination);
    let (first, last) = match view.apdu {
        ApduView::Goose(_) => GOOSE_DESTINATIONS,
        ApduView::Sampled(_) => SAMPLED_DESTINATIONS,
    };
    first <= destination && destination <= last
}

/// A note on a valid frame.
#[derive(Clone, Copy)]
enum Note {
    /// Its octets are not those of its written form.
    NotWritten,
    /// Its destination is not a recommended one.
    Destination,
}

// The end of the line of a note.
fn end_of_note(note: Note) -> &'static [u8]
    ensures { result.now ≡ note_end note }
{
    match note {
        Note::NotWritten => b" not-written\n",
        Note::Destination => b" destination\n",
    }
}

// The kind of a note.
fn kind_of_note(note: Note) -> &'static [u8]
    ensures { result.now ≡ note_kind note }
{
    match note {
        Note::NotWritten => b"not-written",
        Note::Destination => b"destination",
    }
}

// Appends the line of a note.
fn put_note_line<A: Allocator>(
    line: &mut Vec<u8, A>,
    number: u64,
    note: Note,
) -> Result<(), AllocError>
    ensures { AppendsText result line.old.items line.new.items (decimal number ++ note_end note) }
{
    put_decimal(line, number)?;
    line.extend_from_slice(end_of_note(note))
}

// Appends a note in a form where something does not hold. Inlined, so that where it holds no call is made.
#[inline(always)]
fn put_note<A: Allocator>(
    line: &mut Vec<u8, A>,
    form: Form,
    number: u64,
    moment: u64,
    note: Note,
    holds: bool,
) -> Result<(), AllocError>
    ensures text { AppendsText result line.old.items line.new.items (note_in form number moment note holds) }
    ensures quiet { holds ≡ true → IsOk result }
{
    if holds {
        return Ok(());
    }
    match form {
        Form::Text => put_note_line(line, number, note),
        Form::Object(counted) => put_event_object(
            line,
            counted,
            number,
            moment,
            kind_of_note(note),
        ),
    }
}

// Appends what is noted of a valid frame, which stands in its written form or does not, in a form.
#[inline(always)]
fn put_judged<A: Allocator>(
    line: &mut Vec<u8, A>,
    form: Form,
    number: u64,
    moment: u64,
    view: &FrameView<'_>,
    written: bool,
) -> Result<(), AllocError>
    ensures text { AppendsText result line.old.items line.new.items
        (note_in form number moment Note.NotWritten written
        ++ note_in form number moment Note.Destination (goes_where_recommended (frame_of {A = Unit {0}} view.now))) }
    ensures quiet { note_in form number moment Note.NotWritten written
        ++ note_in form number moment Note.Destination (goes_where_recommended (frame_of {A = Unit {0}} view.now)) ≡ [] → IsOk result }
{
    put_note(line, form, number, moment, Note::NotWritten, written)?;
    let recommended = has_recommended_destination(view);
    put_note(line, form, number, moment, Note::Destination, recommended)
}

// Appends what is noted of a valid frame in a form.
fn put_view_notes<A: Allocator>(
    line: &mut Vec<u8, A>,
    form: Form,
    number: u64,
    moment: u64,
    view: &FrameView<'_>,
    octets: &[u8],
) -> Result<(), AllocError>
    requires spellable { ApduIsSpellable (frame_of {A = Unit {0}} view.now).apdu }
    requires known { is_written view.now.apdu ≡ true → (octets.now ≡ written_frame (frame_of {A = Unit {0}} view.now)) × (fits (frame_of {A = Unit {0}} view.now) ≡ true) }
    ensures text { AppendsText result line.old.items line.new.items
        (note_in form number moment Note.NotWritten (is_form (fitting_form (Ok (frame_of {A = Unit {0}} view.now))) octets.now)
        ++ note_in form number moment Note.Destination (goes_where_recommended (frame_of {A = Unit {0}} view.now))) }
    ensures quiet { note_in form number moment Note.NotWritten (is_form (fitting_form (Ok (frame_of {A = Unit {0}} view.now))) octets.now)
        ++ note_in form number moment Note.Destination (goes_where_recommended (frame_of {A = Unit {0}} view.now)) ≡ [] → IsOk result }
{
    let written = stands_in_written_form(view, octets);
    put_judged(line, form, number, moment, view, written)
}

// Whether octets that repeat a frame that is held, seen so, are those of their written form, where this is known.
#[inline(always)]
fn form_again(again: &Again<'_, OtherForm>, view: &FrameView<'_>, octets: &[u8]) -> Option<bool>
    requires repeats { Repeats HasOtherForm again.now octets.now }
    requires seen { frame_at octets.now ≡ Ok (frame_of {A = Unit {0}} view.now) }
    requires known { is_written view.now.apdu ≡ true → (octets.now ≡ written_frame (frame_of {A = Unit {0}} view.now)) × (fits (frame_of {A = Unit {0}} view.now) ≡ true) }
    ensures { IfSome result (λ written. written ≡ is_form (written_form octets.now) octets.now) }
{
    if view.apdu.is_written() {
        return Some(true);
    }
    let other = again.beside?;
    if other.is_of(octets.len(), again.live, again.sq_num) {
        Some(false)
    } else {
        None
    }
}

// Keeps beside a frame that is held, which octets repeat, that its written form has another count of octets.
#[cold]
#[inline(never)]
fn keep_form<A: Allocator + Copy>(
    memory: &mut FrameMemory<A, OtherForm>,
    octets: &[u8],
    view: &FrameView<'_>,
)
    requires { frame_at octets.now ≡ Ok (frame_of {A = Unit {0}} view.now) }
{
    if let Some(other) = OtherForm::of(view, octets.len()) {
        memory.keep(octets, other);
    }
}

// Appends the fault of a frame in a form.
fn put_told_fault<A: Allocator>(
    line: &mut Vec<u8, A>,
    form: Form,
    number: u64,
    moment: u64,
    fault: Fault,
) -> Result<(), AllocError>
    ensures { AppendsText result line.old.items line.new.items (frame_notes_in {A = Unit {0}} form number moment [] (Err fault)) }
{
    match form {
        Form::Text => put_fault_line(line, number, fault),
        Form::Object(counted) => put_fault_object(line, counted, number, moment, fault),
    }
}

// Appends what is noted of the octets of a frame, which is read, in a form.
fn put_read_notes<A: Allocator + Copy>(
    memory: &mut FrameMemory<A, OtherForm>,
    line: &mut Vec<u8, A>,
    form: Form,
    number: u64,
    moment: u64,
    octets: &[u8],
    is_alike: bool,
) -> Result<(), AllocError>
    ensures text { AppendsText result line.old.items line.new.items (octets_notes_in form number moment octets.now) }
    ensures quiet { octets_notes_in form number moment octets.now ≡ [] → IsOk result }
{
    let viewed = see_frame(octets, true);
    match &viewed {
        Err(fault) => put_told_fault(line, form, number, moment, *fault),
        Ok(view) => {
            if is_alike {
                keep_form(memory, octets, view);
            } else {
                memory.note(octets, view);
            }
            put_view_notes(line, form, number, moment, view, octets)
        }
    }
}

// Appends what is noted of the octets of a frame in a form.
fn put_notes<A: Allocator + Copy>(
    memory: &mut FrameMemory<A, OtherForm>,
    line: &mut Vec<u8, A>,
    form: Form,
    number: u64,
    moment: u64,
    octets: &[u8],
) -> Result<(), AllocError>
    ensures text { AppendsText result line.old.items line.new.items (octets_notes_in form number moment octets.now) }
    ensures quiet { octets_notes_in form number moment octets.now ≡ [] → IsOk result }
{
    let again = memory.alike(octets);
    let is_alike = again.is_some();
    if let Some(again) = &again {
        let view = again.see(octets, true);
        if let Some(written) = form_again(again, &view, octets) {
            return put_judged(line, form, number, moment, &view, written);
        }
    }
    put_read_notes(memory, line, form, number, moment, octets, is_alike)
}

// Appends what is noted of an event in a form, and answers whether something is.
fn put_event_notes<A: Allocator + Copy>(
    memory: &mut FrameMemory<A, OtherForm>,
    line: &mut Vec<u8, A>,
    form: Form,
    number: u64,
    event: &Event<A>,
) -> Result<bool, AllocError>
    ensures noted { MatchResult result
        (λ found. (line.new.items ≡ line.old.items ++ notes_in form number event.now.moment event.now.kind) × (found ≡ has_text (notes_in form number event.now.moment event.now.kind)))
        (λ _. take (length line.old.items) line.new.items ≡ line.old.items) }
    ensures quiet { notes_in form number event.now.moment event.now.kind ≡ [] → IsOk result }
{
    let EventKind::Frame(octets) = &event.kind else {
        return Ok(false);
    };
    let before = line.len();
    put_notes(memory, line, form, number, event.moment, octets.as_slice())?;
    Ok(line.len() > before)
}

/// What `check` writes.
#[derive(Drop)]
struct CheckText<A: Allocator> {
    memory: FrameMemory<A, OtherForm>,
}

impl<A: Allocator + Copy> EventEngine<A> for CheckText<A> {
    ghost allows = { λ _ form. exactly_event (check_event_in form) };

    ghost stands = { λ _ _. ⊤ };

    ghost agrees = { λ _ form. exactly_agrees (check_event_in form) };

    #[inline(always)]
    fn put_event(
        &mut self,
        form: Form,
        line: &mut Vec<u8, A>,
        number: u64,
        event: &Event<A>,
    ) -> Result<bool, AllocError> {
        let found = put_event_notes(&mut self.memory, line, form, number, event)?;
        Ok(found)
    }
}

/// Writes what is to be noted of the frames of a list. Of a faulty frame that is its fault, with
/// place and cause. Of a grammatical one it is `not-written`, where its octets are not those of its
/// written form or this form would be too long, which is a note on encoding and no fault; and then
/// `destination`, where its destination is outside the range that is recommended for what it carries
/// (IEC 61850-8-1, IEC 61850-9-2). Nothing is noted of the clock and of modes. Where the list has a
/// fault, a last line tells it.
///
/// Ends with `Findings` where a line was written for an event, and else with `Done`, unless the list
/// has a fault.
///
/// The reader is Open and the writer has not failed. The whole text is written at `Done`, `Findings`,
/// `InputFault` and `ReadFault`, a prefix of it at `WriteFault`, and its first lines at `Memory`:
/// docs/PROOFS.md says it in full, under "What a run leaves written".
#[inline(never)]
pub fn check<A: Allocator + Copy, R: Source, W: Sink>(
    alloc: A,
    reader: R,
    writer: &mut W,
) -> (Ending, R)
    requires open { R.ending reader ≡ InputEnd.Open }
    requires works { W.failed writer.old ≡ false }
    ensures text { (given : List ℕ) × GivesOctets (R.left reader) (R.left result.1) given
        × Writes event_rules First (check_text {A = A}) result.0 (R.ending result.1) given (W.contents writer.old) (W.contents writer.new) }
    ensures read_fault { result.0 ≡ Ending.ReadFault → R.ending result.1 ≡ InputEnd.Failed }
    ensures fault { W.failed writer.new ≡ is_write_fault result.0 }
{
    let events = ItemReader::new(reader, EventLines::First);
    check_over(alloc, Style::Lines(Form::Text), events, writer).into_source()
}

/// As `check`, over any reader of events, in a style: the last line is that of the input's fault. Hands out the fault by which it
/// ended, and the reader of the events.
#[inline(always)]
pub fn check_over<
    A: Allocator + Copy,
    F: InputFault + LastLine + LastObject + Drop,
    I: ReadItems<A, Item = Event<A>, Fault = F>,
    W: Sink,
>(alloc: A, style: Style, events: I, writer: &mut W) -> Stopped<I, F>
    requires works { W.failed writer.old ≡ false }
    ensures text { RunsOver (reader_of I.answers I.number F.refused F.failed) (over_in style (λ form. exactly_event (check_event_in {A = A} form)) (fault_text F.last_line F.last_object))
        events result (W.contents writer.old) (W.contents writer.new) }
    ensures fault { W.failed writer.new ≡ is_write_fault result.ending }
{
    let engine = CheckText {
        memory: FrameMemory::new(alloc),
    };
    run_events(alloc, style, engine, events, writer)
}
