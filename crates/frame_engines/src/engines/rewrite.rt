//! `rewrite`: the list again, each grammatical frame in its written form.
ghost use Rattle.std.specs.Prelude.{◌≡◌, ◌++◌, ℕ, List, true, false, not, is_some, length, take, Some, None, Ok, ⊤, IfOk, MatchResult, codes, if◌then◌else◌};
ghost use Rattle.std.specs.Fmt.{decimal};
ghost use Rattle.hex.specs.Hex.{encode_lower};
ghost use Rattle.ber_core.specs.computed.Reading.{Gives};
ghost use Rattle.frame_core.specs.FrameViews.{frame_of};
ghost use Rattle.frame_core.specs.Written.{ApduIsSpellable};
ghost use Rattle.frame_core.specs.computed.FrameReading.{frame_at};
ghost use Rattle.list_core.specs.declared.device.InputEnd.{InputEnd};
ghost use Rattle.list_core.specs.Device.{GivesOctets};
ghost use Rattle.list_core.specs.EventLine.{event_rules};
ghost use Rattle.list_core.specs.EventText.{kind_text, mode_text};
ghost use Rattle.list_core.specs.declared.event_lines.EventLines.TheVariants.{First};
ghost use Rattle.engine_core.specs.Ending.{is_write_fault};
ghost use Rattle.list_core.specs.ItemReader.{item_state};
ghost use Rattle.engine_core.specs.EngineText.{exactly};
ghost use Rattle.engine_core.specs.Run.{Writes, list_input};
ghost use Rattle.engine_core.specs.RunOver.{Leaves};
ghost use Rattle.text_core.specs.Pieces.{AppendsText};
ghost use Rattle.frame_engines.specs.RewriteText.{form_or, is_kept, rewritten, rewrite_text};
ghost use Rattle.frame_engines.specs.WrittenForm.{written_form};

use arrayvec::ArrayVec;
use engine_core::{Ending, Engine, Stopped, run_to_stop};
use frame_core::{FrameView, encode_view};
use list_core::{
    Event, EventKind, EventLines, ItemFault, ItemReader, ListCause, ReadError, Sink, Source,
    fault_of_list,
};
use repeat_core::{FrameMemory, Nothing};
use std::alloc::{AllocError, Allocator};
use text_core::event::put_frame_event;
use text_core::line::{mode_word, put_list_fault_line};
use text_core::pieces::put_decimal;

// Appends the line of a clock moment in a list.
fn put_clock_event<A: Allocator>(line: &mut Vec<u8, A>, moment: u64) -> Result<(), AllocError>
    ensures { AppendsText result line.old.items line.new.items (codes "C " ++ decimal moment ++ codes "\n") }
{
    line.extend_from_slice(b"C ")?;
    put_decimal(line, moment)?;
    line.extend_from_slice(b"\n")
}

// Appends the line of a frame with its own octets, and answers what is handed in.
fn put_own_event<A: Allocator>(
    line: &mut Vec<u8, A>,
    moment: u64,
    octets: &[u8],
    kept: bool,
) -> Result<bool, AllocError>
    ensures text { AppendsText result line.old.items line.new.items
        (codes "F " ++ decimal moment ++ codes " " ++ encode_lower octets.now ++ codes "\n") }
    ensures kept { IfOk result (λ answer. answer ≡ kept) }
{
    put_frame_event(line, moment, octets)?;
    Ok(kept)
}

// Appends the line of the frame that the view stands for in its written form, or else of its own octets, and answers
// whether it keeps these. Never inlined, so that room for the form is made only where one is written.
#[inline(never)]
fn put_written_form<A: Allocator>(
    line: &mut Vec<u8, A>,
    moment: u64,
    octets: &[u8],
    view: &FrameView<'_>,
) -> Result<bool, AllocError>
    requires read { Gives (λ v. frame_of {A = Unit {0}} v) (Ok view.now) (frame_at octets.now) }
    requires spellable { ApduIsSpellable (frame_of {A = Unit {0}} view.now).apdu }
    ensures text { AppendsText result line.old.items line.new.items
        (codes "F " ++ decimal moment ++ codes " " ++ encode_lower (form_or (written_form octets.now) octets.now) ++ codes "\n") }
    ensures kept { IfOk result (λ kept. kept ≡ not (is_some (written_form octets.now))) }
{
    let mut form = ArrayVec::new();
    if encode_view(view, &mut form).is_err() {
        return put_own_event(line, moment, octets, true);
    }
    put_frame_event(line, moment, form.as_slice())?;
    Ok(false)
}

// Appends the line of a frame in its written form, or else of its own octets, and answers whether
// it keeps these. It is seen through a memory of frames, and not written anew where it stands in its written form.
fn put_rewritten<A: Allocator + Copy>(
    memory: &mut FrameMemory<A, Nothing>,
    line: &mut Vec<u8, A>,
    moment: u64,
    octets: &[u8],
) -> Result<bool, AllocError>
    ensures text { AppendsText result line.old.items line.new.items
        (codes "F " ++ decimal moment ++ codes " " ++ encode_lower (form_or (written_form octets.now) octets.now) ++ codes "\n") }
    ensures kept { IfOk result (λ kept. kept ≡ not (is_some (written_form octets.now))) }
{
    let Ok(view) = memory.see(octets, true) else {
        return put_own_event(line, moment, octets, true);
    };
    if view.apdu.is_written() {
        return put_own_event(line, moment, octets, false);
    }
    put_written_form(line, moment, octets, &view)
}

// Appends the line of a mode in a list.
fn put_mode_event<A: Allocator>(
    line: &mut Vec<u8, A>,
    moment: u64,
    on: bool,
) -> Result<(), AllocError>
    ensures { AppendsText result line.old.items line.new.items (codes "M " ++ decimal moment ++ codes " " ++ mode_text on ++ codes "\n") }
{
    line.extend_from_slice(b"M ")?;
    put_decimal(line, moment)?;
    line.extend_from_slice(b" ")?;
    line.extend_from_slice(mode_word(on))?;
    line.extend_from_slice(b"\n")
}

// Appends the line of an event, a frame in its written form, and answers whether a frame keeps its own octets.
fn put_rewritten_event<A: Allocator + Copy>(
    memory: &mut FrameMemory<A, Nothing>,
    line: &mut Vec<u8, A>,
    event: &Event<A>,
) -> Result<bool, AllocError>
    ensures { MatchResult result
        (λ found. (line.new.items ≡ line.old.items ++ kind_text (decimal event.now.moment) (rewritten event.now.kind)) × (found ≡ is_kept event.now.kind))
        (λ _. take (length line.old.items) line.new.items ≡ line.old.items) }
{
    match &event.kind {
        EventKind::Clock => {
            put_clock_event(line, event.moment)?;
            Ok(false)
        }
        EventKind::Frame(octets) => put_rewritten(memory, line, event.moment, octets.as_slice()),
        EventKind::Mode(on) => {
            put_mode_event(line, event.moment, *on)?;
            Ok(false)
        }
    }
}

/// What `rewrite` writes.
#[derive(Drop)]
struct RewriteText<A: Allocator> {
    memory: FrameMemory<A, Nothing>,
}

impl<A: Allocator + Copy> Engine<A, ItemFault<ListCause>> for RewriteText<A> {
    type Item = Event<A>;

    ghost allows = { λ _. exactly rewrite_text };

    ghost stands = { λ _ _. ⊤ };

    fn put_item(
        &mut self,
        line: &mut Vec<u8, A>,
        _number: u64,
        event: Event<A>,
        spare: &mut Option<Event<A>>,
    ) -> Result<bool, ReadError<ListCause>> {
        let put = put_rewritten_event(&mut self.memory, line, &event);
        *spare = Some(event);
        match put {
            Ok(kept) => Ok(kept),
            Err(error) => Err(ReadError::Memory(error)),
        }
    }

    fn put_end(&self, _line: &mut Vec<u8, A>, _at: u128) -> Result<Option<bool>, AllocError> {
        Ok(None)
    }

    fn put_last(
        &self,
        line: &mut Vec<u8, A>,
        fault: &ItemFault<ListCause>,
    ) -> Result<(), AllocError> {
        line.extend_from_slice(b"# ")?;
        put_list_fault_line(line, fault_of_list(fault))
    }
}

/// Writes a list again, in microseconds: first the line `V2`, before anything is read; then each
/// event as its one line, a grammatical frame with the octets of its written form, and a frame that
/// is faulty, or whose written form would be too long, with its own octets. Where the list has a
/// fault, the last line is a comment with it.
///
/// Ends with `Findings` where a frame kept its own octets for one of these two reasons, and else
/// with `Done`, unless the list has a fault.
///
/// The reader is Open and the writer has not failed. The whole text is written at `Done`, `Findings`,
/// `InputFault` and `ReadFault`, a prefix of it at `WriteFault`, and its first lines at `Memory`:
/// docs/PROOFS.md says it in full, under "What a run leaves written".
#[inline(never)]
pub fn rewrite<A: Allocator + Copy, R: Source, W: Sink>(
    alloc: A,
    reader: R,
    writer: &mut W,
) -> (Ending, R)
    requires open { R.ending reader ≡ InputEnd.Open }
    requires works { W.failed writer.old ≡ false }
    ensures text { (given : List ℕ) × GivesOctets (R.left reader) (R.left result.1) given
        × Writes event_rules First (rewrite_text {A = A}) result.0 (R.ending result.1) given (W.contents writer.old) (W.contents writer.new) }
    ensures read_fault { result.0 ≡ Ending.ReadFault → R.ending result.1 ≡ InputEnd.Failed }
    ensures fault { W.failed writer.new ≡ is_write_fault result.0 }
{
    rewrite_to_stop(alloc, reader, writer).into_source()
}

/// As `rewrite`, and hands out the fault by which it ended, and the reader of the events.
#[inline(never)]
pub fn rewrite_to_stop<A: Allocator + Copy, R: Source, W: Sink>(
    alloc: A,
    reader: R,
    writer: &mut W,
) -> Stopped<ItemReader<R, EventLines>, ItemFault<ListCause>>
    requires open { R.ending reader ≡ InputEnd.Open }
    requires works { W.failed writer.old ≡ false }
    ensures text { (given : List ℕ) × GivesOctets (R.left reader) (item_state R.left R.ending result.reader).left given
        × Leaves (list_input event_rules First) (exactly (rewrite_text {A = A})) result.ending result.fault (item_state R.left R.ending result.reader).ending given (W.contents writer.old) (W.contents writer.new) }
    ensures read_fault { result.ending ≡ Ending.ReadFault → (item_state R.left R.ending result.reader).ending ≡ InputEnd.Failed }
    ensures fault { W.failed writer.new ≡ is_write_fault result.ending }
{
    let memory = FrameMemory::new(alloc);
    run_to_stop(
        alloc,
        EventLines::First,
        RewriteText { memory },
        b"V2\n",
        reader,
        writer,
    )
}
