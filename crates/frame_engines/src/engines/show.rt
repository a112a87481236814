//! `show`: one line an event.
ghost use Rattle.std.specs.Prelude.{◌≡◌, ◌++◌, ℕ, List, Err, false, ⊤, codes};
ghost use Rattle.std.specs.Fmt.{decimal};
ghost use Rattle.list_core.specs.EventLine.{event_rules};
ghost use Rattle.list_core.specs.EventText.{mode_text};
ghost use Rattle.list_core.specs.declared.event.EventKind.TheVariants.{Clock, Mode};
ghost use Rattle.list_core.specs.declared.event_lines.EventLines.TheVariants.{First};
ghost use Rattle.list_core.specs.declared.device.InputEnd.{InputEnd};
ghost use Rattle.list_core.specs.Device.{GivesOctets};
ghost use Rattle.engine_core.specs.Ending.{is_write_fault};
ghost use Rattle.engine_core.specs.EventsText.{exactly_event, fault_text, over_in};
ghost use Rattle.engine_core.specs.Run.{Writes};
ghost use Rattle.engine_core.specs.Input.{reader_of};
ghost use Rattle.engine_core.specs.RunOver.{RunsOver};
ghost use Rattle.text_core.specs.Pieces.{AppendsText};
ghost use Rattle.frame_core.specs.computed.FrameReading.{frame_at};
ghost use Rattle.object_core.specs.Objects.{AppendsSome};
ghost use Rattle.frame_engines.specs.ShowObject.{IsAnswerObject, mode_object, show_allows};
ghost use Rattle.frame_engines.specs.ShowText.{octets_line, show_text};
ghost use Rattle.frame_engines.specs.computed.ShownObjects.{shown_agrees};
ghost use Rattle.frame_engines.specs.computed.InForm.{IsAnswerIn, IsKindIn};

use crate::texts::frame::put_frame_line;
use crate::texts::frame_object::put_frame_object;
use crate::texts::kept::{KeptLine, kept_line, put_kept_line, put_kept_object, put_whole_object};
use ber_core::Fault;
use engine_core::{Ending, EventEngine, Stopped, Style, run_events};
use frame_core::{ApduView, view_frame};
use list_core::{Event, EventKind, EventLines, InputFault, ItemReader, ReadItems, Sink, Source};
use object_core::event::{put_event_head, put_event_object, put_fault_object};
use object_core::fields::put_field_word;
use object_core::{Counted, Form, LastObject};
use repeat_core::{Beside, FrameMemory};
use std::alloc::{AllocError, Allocator};
use text_core::LastLine;
use text_core::line::{mode_word, put_clock_line, put_fault_line};
use text_core::pieces::put_decimal;

// Keeps what repetitions of the frame in these octets have in common in their lines, where it is held and there is memory for it.
#[cold]
#[inline(never)]
fn keep_line<A: Allocator + Copy>(
    alloc: A,
    memory: &mut FrameMemory<A, KeptLine<A>>,
    in_object: bool,
    octets: &[u8],
) {
    let Some(again) = memory.alike(octets) else {
        return;
    };
    let frame = again.frame(octets);
    if let Some(kept) = kept_line(alloc, in_object, &frame) {
        memory.keep(octets, kept);
    }
}

// Appends the line of the octets of a frame.
#[inline(always)]
fn put_octets_line<A: Allocator + Copy>(
    alloc: A,
    memory: &mut FrameMemory<A, KeptLine<A>>,
    line: &mut Vec<u8, A>,
    number: u64,
    octets: &[u8],
) -> Result<(), AllocError>
    ensures { AppendsText result line.old.items line.new.items (octets_line number octets.now) }
{
    if let Some(again) = memory.alike(octets) {
        if let Some(kept) = again.beside {
            if !kept.in_object {
                return put_kept_line(line, number, kept, again.live, again.sq_num);
            }
        }
        keep_line(alloc, memory, false, octets);
    }
    let viewed = view_frame(octets);
    match &viewed {
        Ok(frame) => {
            memory.note(octets, frame);
            put_frame_line(line, number, frame)
        }
        Err(fault) => put_fault_line(line, number, *fault),
    }
}

// Appends the object of the fault of a frame.
fn put_fault_answer<A: Allocator>(
    line: &mut Vec<u8, A>,
    counted: Counted,
    number: u64,
    moment: u64,
    fault: Fault,
) -> Result<(), AllocError>
    ensures { AppendsSome result line.old.items line.new.items (IsAnswerObject {A = Unit {0}} counted number moment (Err fault)) }
{
    put_fault_object(line, counted, number, moment, fault)
}

// Appends the object of the octets of a frame that is held, of which the line was to be kept now: from that, where it is whole.
#[cold]
#[inline(never)]
fn put_just_kept<A: Allocator + Copy>(
    memory: &FrameMemory<A, KeptLine<A>>,
    line: &mut Vec<u8, A>,
    counted: Counted,
    number: u64,
    moment: u64,
    octets: &[u8],
) -> Result<(), AllocError>
    ensures { AppendsSome result line.old.items line.new.items (IsAnswerObject {A = Unit {0}} counted number moment (frame_at octets.now)) }
{
    if let Some(again) = memory.alike(octets) {
        if let Some(kept) = again.beside {
            if kept.in_object && kept.whole {
                let (live, sq_num) = (again.live, again.sq_num);
                return put_whole_object(line, counted, number, moment, kept, live, sq_num);
            }
        }
    }
    let viewed = view_frame(octets);
    match &viewed {
        Ok(frame) => put_frame_object(line, counted, number, moment, frame),
        Err(fault) => put_fault_answer(line, counted, number, moment, *fault),
    }
}

// Appends the object of the octets of a frame. Never inlined, so that lines of text keep their registers.
#[inline(never)]
fn put_octets_object<A: Allocator + Copy>(
    alloc: A,
    memory: &mut FrameMemory<A, KeptLine<A>>,
    line: &mut Vec<u8, A>,
    counted: Counted,
    number: u64,
    moment: u64,
    octets: &[u8],
) -> Result<(), AllocError>
    ensures { AppendsSome result line.old.items line.new.items (IsAnswerObject {A = Unit {0}} counted number moment (frame_at octets.now)) }
{
    if let Some(again) = memory.alike(octets) {
        if let Some(kept) = again.beside {
            if kept.in_object {
                if kept.whole {
                    let (live, sq_num) = (again.live, again.sq_num);
                    return put_whole_object(line, counted, number, moment, kept, live, sq_num);
                }
                let frame = again.frame(octets);
                if let ApduView::Goose(goose) = &frame.apdu {
                    return put_kept_object(line, counted, number, moment, kept, &frame, goose);
                }
            }
        }
        keep_line(alloc, memory, true, octets);
        return put_just_kept(memory, line, counted, number, moment, octets);
    }
    let viewed = view_frame(octets);
    match &viewed {
        Ok(frame) => {
            memory.note(octets, frame);
            put_frame_object(line, counted, number, moment, frame)
        }
        Err(fault) => put_fault_answer(line, counted, number, moment, *fault),
    }
}

// Appends the octets of a frame in a form.
#[inline(always)]
fn put_shown_octets<A: Allocator + Copy>(
    alloc: A,
    memory: &mut FrameMemory<A, KeptLine<A>>,
    line: &mut Vec<u8, A>,
    form: Form,
    number: u64,
    moment: u64,
    octets: &[u8],
) -> Result<(), AllocError>
    ensures { AppendsSome result line.old.items line.new.items (IsAnswerIn {A = Unit {0}} form number moment (frame_at octets.now)) }
{
    match form {
        Form::Text => put_octets_line(alloc, memory, line, number, octets),
        Form::Object(counted) => {
            put_octets_object(alloc, memory, line, counted, number, moment, octets)
        }
    }
}

// Appends a clock moment in a form.
fn put_shown_clock<A: Allocator>(
    line: &mut Vec<u8, A>,
    form: Form,
    number: u64,
    moment: u64,
) -> Result<(), AllocError>
    ensures { AppendsSome result line.old.items line.new.items (IsKindIn {A = Unit {0}} form number moment Clock) }
{
    match form {
        Form::Text => put_clock_line(line, number, moment),
        Form::Object(counted) => put_event_object(line, counted, number, moment, b"clock"),
    }
}

// Appends the line of a mode.
fn put_mode_line<A: Allocator>(
    line: &mut Vec<u8, A>,
    number: u64,
    moment: u64,
    on: bool,
) -> Result<(), AllocError>
    ensures { AppendsText result line.old.items line.new.items
        (decimal number ++ codes " mode " ++ decimal moment ++ codes " " ++ mode_text on ++ codes "\n") }
{
    put_decimal(line, number)?;
    line.extend_from_slice(b" mode ")?;
    put_decimal(line, moment)?;
    line.extend_from_slice(b" ")?;
    line.extend_from_slice(mode_word(on))?;
    line.extend_from_slice(b"\n")
}

// Appends the object of a mode, as a line. Never inlined, so that lines of text keep their registers.
#[inline(never)]
fn put_mode_object<A: Allocator>(
    line: &mut Vec<u8, A>,
    counted: Counted,
    number: u64,
    moment: u64,
    on: bool,
) -> Result<(), AllocError>
    ensures { AppendsText result line.old.items line.new.items (mode_object counted number moment on) }
{
    put_event_head(line, counted, number, moment, b"mode")?;
    put_field_word(line, b",\"mode\":", mode_word(on))?;
    line.extend_from_slice(b"}\n")
}

// Appends a mode in a form.
fn put_shown_mode<A: Allocator>(
    line: &mut Vec<u8, A>,
    form: Form,
    number: u64,
    moment: u64,
    on: bool,
) -> Result<(), AllocError>
    ensures { AppendsSome result line.old.items line.new.items (IsKindIn {A = Unit {0}} form number moment (Mode on)) }
{
    match form {
        Form::Text => put_mode_line(line, number, moment, on),
        Form::Object(counted) => put_mode_object(line, counted, number, moment, on),
    }
}

// Appends an event in a form.
fn put_shown<A: Allocator + Copy>(
    alloc: A,
    memory: &mut FrameMemory<A, KeptLine<A>>,
    line: &mut Vec<u8, A>,
    form: Form,
    number: u64,
    event: &Event<A>,
) -> Result<(), AllocError>
    ensures { AppendsSome result line.old.items line.new.items (IsKindIn form number event.now.moment event.now.kind) }
{
    let moment = event.moment;
    match &event.kind {
        EventKind::Clock => put_shown_clock(line, form, number, moment),
        EventKind::Frame(octets) => {
            let octets = octets.as_slice();
            put_shown_octets(alloc, memory, line, form, number, moment, octets)
        }
        EventKind::Mode(on) => put_shown_mode(line, form, number, moment, *on),
    }
}

/// What `show` writes, and the frames whose repetitions it writes without reading them.
#[derive(Drop)]
struct ShowText<A: Allocator>
where
    KeptLine<A>: Beside,
{
    alloc: A,
    memory: FrameMemory<A, KeptLine<A>>,
}

impl<A: Allocator + Copy> EventEngine<A> for ShowText<A> {
    ghost allows = { λ _. show_allows };

    ghost stands = { λ _ _. ⊤ };

    ghost agrees = { λ _. shown_agrees };

    #[inline(always)]
    fn put_event(
        &mut self,
        form: Form,
        line: &mut Vec<u8, A>,
        number: u64,
        event: &Event<A>,
    ) -> Result<bool, AllocError> {
        put_shown(self.alloc, &mut self.memory, line, form, number, event)?;
        Ok(false)
    }
}

/// Writes one line for each event of a list: the clock moment, the mode, the frame, or the frame's
/// fault; and where the list has a fault, a last line with it. Moments are in microseconds.
///
/// The reader is Open and the writer has not failed. The whole text is written at `Done`, `InputFault`
/// and `ReadFault`, a prefix of it at `WriteFault`, and its first lines at `Memory`: docs/PROOFS.md says
/// it in full, under "What a run leaves written".
///
/// One line of the list is held at a time, and one event beside the one whose memory is used again; and of at most 256 frames that
/// were repeated, the octets and the text that their repetitions have in common.
#[inline(never)]
pub fn show<A: Allocator + Copy, R: Source, W: Sink>(
    alloc: A,
    reader: R,
    writer: &mut W,
) -> (Ending, R)
    requires open { R.ending reader ≡ InputEnd.Open }
    requires works { W.failed writer.old ≡ false }
    ensures text { (given : List ℕ) × GivesOctets (R.left reader) (R.left result.1) given
        × Writes event_rules First (show_text {A = A}) result.0 (R.ending result.1) given (W.contents writer.old) (W.contents writer.new) }
    ensures read_fault { result.0 ≡ Ending.ReadFault → R.ending result.1 ≡ InputEnd.Failed }
    ensures fault { W.failed writer.new ≡ is_write_fault result.0 }
{
    let events = ItemReader::new(reader, EventLines::First);
    show_over(alloc, Style::Lines(Form::Text), events, writer).into_source()
}

/// As `show`, over any reader of events, in a style, as text or as objects: the last line is that of the input's fault. Hands out the fault by which it
/// ended, and the reader of the events.
#[inline(always)]
pub fn show_over<
    A: Allocator + Copy,
    F: InputFault + LastLine + LastObject + Drop,
    I: ReadItems<A, Item = Event<A>, Fault = F>,
    W: Sink,
>(alloc: A, style: Style, events: I, writer: &mut W) -> Stopped<I, F>
    requires works { W.failed writer.old ≡ false }
    ensures text { RunsOver (reader_of I.answers I.number F.refused F.failed) (over_in style (show_allows {A = A}) (fault_text F.last_line F.last_object)) events result (W.contents writer.old) (W.contents writer.new) }
    ensures fault { W.failed writer.new ≡ is_write_fault result.ending }
{
    let shown = ShowText {
        alloc,
        memory: FrameMemory::new(alloc),
    };
    run_events(alloc, style, shown, events, writer)
}
