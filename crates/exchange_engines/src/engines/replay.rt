//! `replay`: the entries of a subscriber, one line an entry.
ghost use Rattle.std.specs.Prelude.{◌≡◌, ◌<◌, ◌≤◌, ◌++◌, [], ℕ, List, IfOk, IsOk, OnErr, OnOk, length, take, true, false, option_map, codes, vec_capacity};
ghost use Rattle.std.specs.Fmt.{decimal};
ghost use Rattle.list_core.specs.declared.device.InputEnd.{InputEnd};
ghost use Rattle.list_core.specs.Device.{GivesOctets};
ghost use Rattle.engine_core.specs.Ending.{is_write_fault};
ghost use Rattle.engine_core.specs.EventsText.{fault_text, line_in};
ghost use Rattle.engine_core.specs.Input.{reader_of};
ghost use Rattle.text_core.specs.Pieces.{AppendsText};
ghost use Rattle.exchange_engines.specs.ReplayText.{LeavesTwiceIn, ReplayWrites, ReplaysOver, told_of, twice_line, twice_stop};
ghost use Rattle.object_core.specs.Objects.{AppendsSome};
ghost use Rattle.exchange_engines.specs.EntryObject.{twice_object};
ghost use Rattle.exchange_engines.specs.computed.ReplayAgrees.{replay_agrees};
ghost use Rattle.exchange_engines.specs.computed.ReplayStep.{IsSaid, ReplayStands, kept_after, replay_allows};
ghost use Rattle.block_core.specs.declared.block.Block.{Block as SpecBlock};
ghost use Rattle.subscribe_core.specs.State.{fresh_state};
ghost use Rattle.subscribe_core.specs.computed.Content.{reading_of};
ghost use Rattle.subscribe_core.specs.computed.Steps.{step_entries, step_state};
ghost use Rattle.exchange_engines.specs.EntryText.{entry_lines};

use crate::texts::entry::put_entry_lines;
use crate::texts::entry_lines::{EntryLines, mark_heard};
use crate::texts::entry_object::{EntryHeading, put_entry_objects, put_twice_object};
use engine_core::{Ending, EventEngine, Stopped, Style, refuse, run_events};
use list_core::{Event, EventKind, EventLines, InputFault, ItemReader, ReadItems, Sink, Source};
use object_core::{Form, LastObject};
use repeat_core::{FrameMemory, Nothing};
use std::alloc::{AllocError, Allocator};
use std::mem::swap;
use subscribe_core::{Block, Entry, SubscribeFault, Subscriber};
use text_core::LastLine;
use text_core::pieces::put_decimal;

/// How a replay takes frames, and what it tells of them.
#[derive(Clone, Copy)]
pub struct ReplayManner {
    /// Simulated frames are taken from the start, as if the simulation mode were set on before the first event.
    pub simulates: bool,
    /// Of the entries of an event changes alone are told: neither frames that say nothing new, nor those that are none of the blocks'.
    pub changes_alone: bool,
}

/// Real frames are taken until the mode is set on, and each entry is told.
pub const PLAINLY: ReplayManner = ReplayManner {
    simulates: false,
    changes_alone: false,
};

// Leaves of the entries of an event what is told of them.
#[inline(always)]
fn keep_told<A: Allocator>(changes_alone: bool, entries: &mut Vec<Entry<A>, A>)
    ensures told { entries.new.items ≡ told_of changes_alone entries.old.items }
    ensures capacity { vec_capacity entries.old ≤ vec_capacity entries.new }
{
    if changes_alone {
        entries.retain(|entry| entry.is_change());
    }
}

/// What `replay` writes: what a subscriber answers, in a manner. The lines of entries are written as it tells them; those of which
/// objects are written are listed first, in memory that is used again. A frame that repeats is not read again.
#[derive(Drop)]
struct Replaying<'a, A: Allocator> {
    manner: ReplayManner,
    subscriber: Subscriber<A>,
    memory: FrameMemory<A, Nothing>,
    entries: Vec<Entry<A>, A>,
    lines: EntryLines<'a, A>,
}

// Appends what is written of the entries of an event in a form.
#[inline(always)]
fn put_said<A: Allocator>(
    line: &mut Vec<u8, A>,
    form: Form,
    number: u64,
    moment: u64,
    blocks: &[Block<A>],
    entries: &[Entry<A>],
) -> Result<(), AllocError>
    ensures text { AppendsSome result line.old.items line.new.items (IsSaid form number moment blocks.now entries.now) }
    ensures quiet { entries.now ≡ [] → IsOk result }
{
    match form {
        Form::Text => put_entry_lines(line, number, entries),
        Form::Object(counted) => {
            let heading = EntryHeading {
                counted,
                number,
                moment,
                blocks,
            };
            put_entry_objects(line, &heading, entries)
        }
    }
}

impl<A: Allocator + Copy> Replaying<'_, A> {
    // Appends the lines of what is told of the entries of an event.
    #[inline(always)]
    fn put_lines(
        &mut self,
        line: &mut Vec<u8, A>,
        number: u64,
        event: &Event<A>,
    ) -> Result<(), AllocError>
        ensures told { OnOk result (line.new.items ≡ line.old.items ++ entry_lines number (told_of self.old.manner.changes_alone (step_entries self.old.subscriber.state (reading_of event.now)))) }
        ensures kept { OnErr result (take (length line.old.items) line.new.items ≡ line.old.items) }
        ensures quiet { told_of self.old.manner.changes_alone (step_entries self.old.subscriber.state (reading_of event.now)) ≡ [] → IsOk result }
        ensures state { OnOk result (self.new.subscriber.state ≡ step_state self.old.subscriber.state (reading_of event.now)) }
        ensures blocks { self.new.subscriber.state.blocks ≡ self.old.subscriber.state.blocks }
        ensures manner { self.new.manner ≡ self.old.manner }
        ensures entries { self.new.entries ≡ self.old.entries }
    {
        self.lines.number = number;
        self.lines.changes_alone = self.manner.changes_alone;
        swap(line, &mut self.lines.line);
        let took = self
            .subscriber
            .take_to(&mut self.memory, event, &mut self.lines);
        swap(line, &mut self.lines.line);
        took
    }
}

impl<A: Allocator + Copy> EventEngine<A> for Replaying<'_, A> {
    ghost allows = { λ s. replay_allows s.manner s.subscriber.state.blocks };

    ghost stands = { λ s before. ReplayStands s.manner s.subscriber.state (vec_capacity s.entries) before };

    ghost agrees = { λ s form. replay_agrees s.manner s.subscriber.state.blocks form };

    #[inline(always)]
    fn put_event(
        &mut self,
        form: Form,
        line: &mut Vec<u8, A>,
        number: u64,
        event: &Event<A>,
    ) -> Result<bool, AllocError> {
        if let Form::Text = form {
            self.put_lines(line, number, event)?;
            return Ok(false);
        }
        self.subscriber
            .take_into_over(&mut self.memory, event, &mut self.entries)?;
        mark_heard(&mut self.lines, self.entries.as_slice());
        keep_told(self.manner.changes_alone, &mut self.entries);
        let blocks = self.subscriber.blocks();
        let entries = self.entries.as_slice();
        put_said(line, form, number, event.moment, blocks, entries)?;
        Ok(false)
    }
}

// Has a fresh subscriber take simulated frames, if it is to do so from the start.
fn open_mode<A: Allocator + Copy>(
    simulates: bool,
    subscriber: &mut Subscriber<A>,
    entries: &mut Vec<Entry<A>, A>,
) -> Result<(), AllocError>
    ensures state { (blocks : List (SpecBlock A)) → subscriber.old.state ≡ fresh_state blocks → OnOk result (subscriber.new.state ≡ kept_after simulates blocks []) }
    ensures quiet { (blocks : List (SpecBlock A)) → subscriber.old.state ≡ fresh_state blocks → IsOk result }
    ensures capacity { vec_capacity entries.old ≤ vec_capacity entries.new }
{
    if simulates {
        let mode_on = Event {
            moment: 0,
            kind: EventKind::Mode(true),
        };
        return subscriber.take_into(&mode_on, entries);
    }
    Ok(())
}

// A list for the entries of an event. Where changes alone are told, it has room for an entry, so that an event of which nothing
// is told needs no memory.
fn room_for<A: Allocator>(alloc: A, changes_alone: bool) -> Result<Vec<Entry<A>, A>, AllocError>
    ensures room { changes_alone ≡ true → IfOk result (λ entries. 0 < vec_capacity entries) }
    ensures quiet { changes_alone ≡ false → IsOk result }
{
    if changes_alone {
        Vec::with_capacity(alloc, 1)
    } else {
        Ok(Vec::new(alloc))
    }
}

// The engine of a replay before any event.
fn begun<'a, A: Allocator + Copy>(
    alloc: A,
    manner: ReplayManner,
    mut subscriber: Subscriber<A>,
    heard: &'a mut [bool],
) -> Result<Replaying<'a, A>, AllocError>
    ensures manner { IfOk result (λ s. s.manner ≡ manner) }
    ensures begun { (blocks : List (SpecBlock A)) → subscriber.state ≡ fresh_state blocks → IfOk result (λ s. (s.subscriber.state.blocks ≡ blocks) × ReplayStands manner s.subscriber.state (vec_capacity s.entries) []) }
    ensures quiet { (blocks : List (SpecBlock A)) → subscriber.state ≡ fresh_state blocks → manner.changes_alone ≡ false → IsOk result }
{
    let mut entries = room_for(alloc, manner.changes_alone)?;
    open_mode(manner.simulates, &mut subscriber, &mut entries)?;
    Ok(Replaying {
        manner,
        subscriber,
        memory: FrameMemory::new(alloc),
        entries,
        lines: EntryLines {
            line: Vec::new(alloc),
            number: 0,
            changes_alone: manner.changes_alone,
            heard,
        },
    })
}

// Appends a line of a word and a position.
fn put_position<A: Allocator>(
    line: &mut Vec<u8, A>,
    word: &[u8],
    position: usize,
) -> Result<(), AllocError>
    ensures { AppendsText result line.old.items line.new.items (word.now ++ decimal position ++ codes "\n") }
{
    line.extend_from_slice(word)?;
    put_decimal(line, position as u64)?;
    line.extend_from_slice(b"\n")
}

// Appends what is told of a block given twice, in a style.
fn put_twice<A: Allocator>(
    line: &mut Vec<u8, A>,
    style: Style,
    blocks: &[Block<A>],
    position: usize,
) -> Result<(), AllocError>
    ensures { AppendsText result line.old.items line.new.items (line_in style (twice_line position) (twice_object blocks.now position)) }
{
    match style {
        Style::Lines(Form::Text) => put_position(line, b"blocks SameBlockTwice ", position),
        Style::Lines(Form::Object(_)) => put_twice_object(line, blocks, position),
        Style::Dated => put_position(line, b"- blocks SameBlockTwice ", position),
    }
}

// Writes what is told of a block given twice, and answers how that ended. Nothing is read.
fn refuse_twice<A: Allocator, R, W: Sink>(
    alloc: A,
    style: Style,
    blocks: &[Block<A>],
    position: usize,
    reader: R,
    writer: &mut W,
) -> (Ending, R)
    requires { W.failed writer.old ≡ false }
    ensures written { LeavesTwiceIn style blocks.now position result.0 (W.contents writer.old) (W.contents writer.new) }
    ensures reader { result.1 ≡ reader }
    ensures fault { W.failed writer.new ≡ is_write_fault result.0 }
{
    let mut line = Vec::new(alloc);
    match put_twice(&mut line, style, blocks, position) {
        Ok(()) => refuse(line.as_slice(), reader, writer),
        Err(_) => (Ending::Memory, reader),
    }
}

/// Why a replay ended before its input did.
#[derive(Drop)]
pub enum ReplayStop<F> {
    /// The input has this fault.
    Input(F),
    /// The block at this position, from 0, has the APPID and the gocbRef of an earlier one. It is the first such.
    SameBlockTwice(usize),
}

// The reason for which a replay stops that was given a block twice.
fn stop_of_twice<F>(ending: Ending, position: usize) -> Option<ReplayStop<F>>
    ensures { result ≡ twice_stop ending position }
{
    match ending {
        Ending::InputFault => Some(ReplayStop::SameBlockTwice(position)),
        _ => None,
    }
}

/// What a run hands out that stops by no other reason than its input's fault.
#[inline(always)]
pub fn of_input<I, F>(stopped: Stopped<I, F>) -> Stopped<I, ReplayStop<F>>
    ensures ending { result.ending ≡ stopped.ending }
    ensures fault { result.fault ≡ option_map ReplayStop.Input stopped.fault }
    ensures reader { result.reader ≡ stopped.reader }
{
    let Stopped {
        ending,
        fault,
        reader,
    } = stopped;
    let fault = match fault {
        Some(fault) => Some(ReplayStop::Input(fault)),
        None => None,
    };
    Stopped {
        ending,
        fault,
        reader,
    }
}

// What a replay hands out that read nothing.
fn unread<I, F>(
    ending: Ending,
    fault: Option<ReplayStop<F>>,
    reader: I,
) -> Stopped<I, ReplayStop<F>>
    ensures ending { result.ending ≡ ending }
    ensures fault { result.fault ≡ fault }
    ensures reader { result.reader ≡ reader }
{
    Stopped {
        ending,
        fault,
        reader,
    }
}

/// Writes the entries that the events of a list have for a subscriber of these control blocks, one line
/// an entry: which frames it acts on, which it refuses and why, and when a block expires or is switched
/// between real and simulated frames. Where the list has a fault, a last line tells it.
///
/// A block has the APPID and the gocbRef of no earlier one; else that is written in one line, nothing is
/// read, and the run ends with `InputFault`.
///
/// The reader is Open and the writer has not failed. The whole text is written at `Done`, `InputFault`
/// and `ReadFault`, a prefix of it at `WriteFault`, and its first lines at `Memory`, or nothing where that
/// is for the blocks: docs/PROOFS.md says it in full, under "What a run leaves written".
#[inline(never)]
pub fn replay<A: Allocator + Copy, R: Source, W: Sink>(
    alloc: A,
    reader: R,
    blocks: Vec<Block<A>, A>,
    writer: &mut W,
) -> (Ending, R)
    requires open { R.ending reader ≡ InputEnd.Open }
    requires works { W.failed writer.old ≡ false }
    ensures text { (given : List ℕ) × GivesOctets (R.left reader) (R.left result.1) given
        × ReplayWrites blocks.items result.0 (R.ending result.1) given (W.contents writer.old) (W.contents writer.new) }
    ensures read_fault { result.0 ≡ Ending.ReadFault → R.ending result.1 ≡ InputEnd.Failed }
    ensures fault { W.failed writer.new ≡ is_write_fault result.0 }
{
    let events = ItemReader::new(reader, EventLines::First);
    let style = Style::Lines(Form::Text);
    replay_over(alloc, style, PLAINLY, events, blocks, &mut [], writer).into_source()
}

/// As `replay`, over any reader of events, in a style and a manner: the last line is that of the input's fault. Hands out why it ended, and the
/// reader of the events. Of each block that has had an entry, which a frame of it has, the flag at its position is set, if there is one.
#[inline(always)]
pub fn replay_over<
    A: Allocator + Copy,
    F: InputFault + LastLine + LastObject + Drop,
    I: ReadItems<A, Item = Event<A>, Fault = F>,
    W: Sink,
>(
    alloc: A,
    style: Style,
    manner: ReplayManner,
    events: I,
    blocks: Vec<Block<A>, A>,
    heard: &mut [bool],
    writer: &mut W,
) -> Stopped<I, ReplayStop<F>>
    requires works { W.failed writer.old ≡ false }
    ensures text { ReplaysOver style manner blocks.items (reader_of I.answers I.number F.refused F.failed) (fault_text F.last_line F.last_object) events result (W.contents writer.old) (W.contents writer.new) }
    ensures fault { W.failed writer.new ≡ is_write_fault result.ending }
{
    match Subscriber::of_blocks(alloc, blocks) {
        Ok(subscriber) => match begun(alloc, manner, subscriber, heard) {
            Ok(engine) => of_input(run_events(alloc, style, engine, events, writer)),
            Err(_) => unread(Ending::Memory, None, events),
        },
        Err((fault, blocks)) => match fault {
            SubscribeFault::SameBlockTwice(position) => {
                let blocks = blocks.as_slice();
                let (ending, events) = refuse_twice(alloc, style, blocks, position, events, writer);
                unread(ending, stop_of_twice(ending, position), events)
            }
            SubscribeFault::Memory(_) => unread(Ending::Memory, None, events),
        },
    }
}
