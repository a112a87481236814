//! `publish`: the list of what a publisher sends that a script sets up and calls.
ghost use Rattle.std.specs.Prelude.{◌≡◌, [], ℕ, List, IfErr, IfOk, OnErr, OnOk, Some, false, length, take};
ghost use Rattle.list_core.specs.declared.device.InputEnd.{InputEnd};
ghost use Rattle.list_core.specs.Device.{GivesOctets};
ghost use Rattle.publish_core.specs.Frames.{Setup, change, setup};
ghost use Rattle.publish_core.specs.Run.{Call, Changed, Polled, call};
ghost use Rattle.publish_core.specs.State.{PublisherStandsAfter};
ghost use Rattle.script_core.specs.declared.script.ScriptItem.{ScriptItem as SpecItem};
ghost use Rattle.script_core.specs.declared.script.ScriptLines.TheVariants.{First};
ghost use Rattle.engine_core.specs.Ending.{is_write_fault};
ghost use Rattle.list_core.specs.ItemReader.{item_state};
ghost use Rattle.engine_core.specs.EngineText.{exactly};
ghost use Rattle.engine_core.specs.Run.{WritesSome, list_input};
ghost use Rattle.engine_core.specs.RunOver.{Leaves, OfKind};
ghost use Rattle.exchange_engines.specs.PublishText.{IsPublishText, IsScriptSound, script_cause};
ghost use Rattle.exchange_engines.specs.computed.PublishStep.{Begins, Holds, Progress, Runs, TakesCall, TakesItem, progress_after, publish_text, setup_cause};
ghost use Rattle.script_core.specs.Script.{script_rules};

use crate::texts::script::put_script_fault_line;
use arrayvec::ArrayVec;
use engine_core::{Ending, Engine, Stopped, run_to_stop};
use list_core::{ItemFault, ItemReader, ReadError, Sink, Source};
use mms_data::{UtcTime, ValueList};
use publish_core::{Control, MOST_STEPS, PublishFault, Publisher, Step, Table};
use script_core::{ScriptCause, ScriptItem, ScriptLines};
use std::alloc::{AllocError, Allocator};
use std::mem;
use text_core::event::put_frame_event;

/// How far a script has come.
#[derive(Drop)]
pub enum Stage<A: Allocator> {
    /// Nothing was said.
    Start,
    /// The control line was read, with the status number of the first state, and these steps.
    Setup(Control<A>, u32, ArrayVec<Step, MOST_STEPS>),
    /// A call was made.
    Running(Publisher<A>),
}

// How a script names why something is refused.
fn cause_of(fault: PublishFault) -> ScriptCause
    ensures { result ≡ script_cause fault }
{
    match fault {
        PublishFault::StepCount => ScriptCause::StepCount,
        PublishFault::StepTimes(_) => ScriptCause::StepTimes,
        PublishFault::FirstState => ScriptCause::FirstState,
        PublishFault::EntriesDiffer => ScriptCause::EntriesDiffer,
        PublishFault::NotSpellable => ScriptCause::NotSpellable,
        PublishFault::WouldNotFit => ScriptCause::WouldNotFit,
    }
}

// A publisher that is set up so.
fn set_up<A: Allocator>(
    control: Control<A>,
    first: u32,
    steps: &[Step],
) -> Result<Publisher<A>, ScriptCause>
    ensures stands { IfOk result (λ s. PublisherStandsAfter (setup control steps.now first) [] s) }
    ensures sound { OnOk result (IsScriptSound (setup control steps.now first)) }
    ensures cause { IfErr result (λ why. setup_cause (setup control steps.now first) ≡ Some why) }
{
    let table = match Table::new(steps) {
        Ok(table) => table,
        Err(fault) => return Err(cause_of(fault)),
    };
    match Publisher::new(control, table, first) {
        Ok(publisher) => Ok(publisher),
        Err(fault) => Err(cause_of(fault)),
    }
}

// The publisher that runs from the first call on.
fn running<A: Allocator>(stage: Stage<A>) -> Result<Publisher<A>, ScriptCause>
    ensures { (g : Progress A) → Holds stage g → Runs g result }
{
    match stage {
        Stage::Start => Err(ScriptCause::ScriptForm),
        Stage::Setup(control, first, steps) => set_up(control, first, steps.as_slice()),
        Stage::Running(publisher) => Ok(publisher),
    }
}

// Has the publisher run from the first call on. One that runs stays where it stands: it is too large to be moved at each
// call.
fn begin<A: Allocator>(stage: &mut Stage<A>) -> Result<(), ScriptCause>
    ensures { (g : Progress A) → Holds stage.old g → Begins g result stage.new }
{
    match stage {
        Stage::Running(_) => Ok(()),
        _ => set_running(stage),
    }
}

// The same of one that does not run yet.
#[inline(never)]
fn set_running<A: Allocator>(stage: &mut Stage<A>) -> Result<(), ScriptCause>
    ensures { (g : Progress A) → Holds stage.old g → Begins g result stage.new }
{
    match running(mem::replace(stage, Stage::Start)) {
        Ok(publisher) => {
            *stage = Stage::Running(publisher);
            Ok(())
        }
        Err(cause) => Err(cause),
    }
}

// Changes the data set, and appends the line of the frame that this gives.
fn put_change<A: Allocator>(
    publisher: &mut Publisher<A>,
    line: &mut Vec<u8, A>,
    moment: u64,
    t: UtcTime,
    values: ValueList<A>,
) -> Result<(), ReadError<ScriptCause>>
    ensures call { (p : Setup A) (calls : List Call) → IsScriptSound p → PublisherStandsAfter p calls publisher.old →
        TakesCall p calls (call moment (Changed (change t values))) result line.old.items line.new.items publisher.new }
    ensures kept { OnErr result (take (length line.old.items) line.new.items ≡ line.old.items) }
{
    match publisher.change_held(moment, t, values) {
        Ok(()) => {}
        Err((fault, _values)) => return Err(ReadError::Fault(cause_of(fault))),
    }
    let first = publisher.held_frame();
    match put_frame_event(line, publisher.moment(), first) {
        Ok(()) => Ok(()),
        Err(error) => Err(ReadError::Memory(error)),
    }
}

// Asks for a frame, and appends its line where there is one.
fn put_poll<A: Allocator>(
    publisher: &mut Publisher<A>,
    line: &mut Vec<u8, A>,
    moment: u64,
) -> Result<(), ReadError<ScriptCause>>
    ensures call { (p : Setup A) (calls : List Call) → IsScriptSound p → PublisherStandsAfter p calls publisher.old →
        TakesCall p calls (call moment Polled) result line.old.items line.new.items publisher.new }
    ensures kept { OnErr result (take (length line.old.items) line.new.items ≡ line.old.items) }
{
    if !publisher.poll_held(moment) {
        return Ok(());
    }
    let next = publisher.held_frame();
    match put_frame_event(line, publisher.moment(), next) {
        Ok(()) => Ok(()),
        Err(error) => Err(ReadError::Memory(error)),
    }
}

// Takes the control line.
fn take_control<A: Allocator>(
    stage: &mut Stage<A>,
    control: Control<A>,
    first: u32,
) -> Result<(), ReadError<ScriptCause>>
    ensures { (g : Progress A) → Holds stage.old g → (text : List ℕ) → TakesItem g (SpecItem.Control control first) result stage.new text text }
{
    match stage {
        Stage::Start => {
            *stage = Stage::Setup(control, first, ArrayVec::new());
            Ok(())
        }
        _ => Err(ReadError::Fault(ScriptCause::ScriptForm)),
    }
}

// Takes a step of the table.
fn take_step<A: Allocator>(stage: &mut Stage<A>, step: Step) -> Result<(), ReadError<ScriptCause>>
    ensures { (g : Progress A) → Holds stage.old g → (text : List ℕ) → TakesItem g (SpecItem.Step step) result stage.new text text }
{
    match stage {
        Stage::Setup(_, _, steps) => match steps.try_push(step) {
            Ok(()) => Ok(()),
            Err(_) => Err(ReadError::Fault(ScriptCause::StepCount)),
        },
        _ => Err(ReadError::Fault(ScriptCause::ScriptForm)),
    }
}

// Takes a change, and appends what it writes.
fn take_change<A: Allocator>(
    stage: &mut Stage<A>,
    line: &mut Vec<u8, A>,
    moment: u64,
    t: UtcTime,
    values: ValueList<A>,
) -> Result<(), ReadError<ScriptCause>>
    ensures item { (g : Progress A) → Holds stage.old g → TakesItem g (SpecItem.Change moment t values) result stage.new line.old.items line.new.items }
    ensures kept { OnErr result (take (length line.old.items) line.new.items ≡ line.old.items) }
{
    if let Err(cause) = begin(stage) {
        return Err(ReadError::Fault(cause));
    }
    match stage {
        Stage::Running(publisher) => put_change(publisher, line, moment, t, values),
        _ => Err(ReadError::Fault(ScriptCause::ScriptForm)),
    }
}

// Takes a poll, and appends what it writes.
fn take_poll<A: Allocator>(
    stage: &mut Stage<A>,
    line: &mut Vec<u8, A>,
    moment: u64,
) -> Result<(), ReadError<ScriptCause>>
    ensures item { (g : Progress A) → Holds stage.old g → TakesItem g (SpecItem.Poll moment) result stage.new line.old.items line.new.items }
    ensures kept { OnErr result (take (length line.old.items) line.new.items ≡ line.old.items) }
{
    if let Err(cause) = begin(stage) {
        return Err(ReadError::Fault(cause));
    }
    match stage {
        Stage::Running(publisher) => put_poll(publisher, line, moment),
        _ => Err(ReadError::Fault(ScriptCause::ScriptForm)),
    }
}

// Takes an item, and appends what it writes.
fn take_item<A: Allocator>(
    stage: &mut Stage<A>,
    line: &mut Vec<u8, A>,
    item: ScriptItem<A>,
) -> Result<(), ReadError<ScriptCause>>
    ensures item { (g : Progress A) → Holds stage.old g → TakesItem g item result stage.new line.old.items line.new.items }
    ensures kept { OnErr result (take (length line.old.items) line.new.items ≡ line.old.items) }
{
    match item {
        ScriptItem::Control(control, first) => take_control(stage, control, first),
        ScriptItem::Step(step) => take_step(stage, step),
        ScriptItem::Change(moment, t, values) => take_change(stage, line, moment, t, values),
        ScriptItem::Poll(moment) => take_poll(stage, line, moment),
    }
}

/// What `publish` writes: what a publisher answers.
#[derive(Drop)]
struct Publishing<A: Allocator> {
    stage: Stage<A>,
}

impl<A: Allocator> Engine<A, ItemFault<ScriptCause>> for Publishing<A> {
    type Item = ScriptItem<A>;

    ghost allows = { λ _. exactly publish_text };

    ghost stands = { λ s before. Holds s.stage (progress_after before) };

    fn put_item(
        &mut self,
        line: &mut Vec<u8, A>,
        _number: u64,
        item: ScriptItem<A>,
        _spare: &mut Option<ScriptItem<A>>,
    ) -> Result<bool, ReadError<ScriptCause>> {
        match take_item(&mut self.stage, line, item) {
            Ok(()) => Ok(false),
            Err(error) => Err(error),
        }
    }

    fn put_end(&self, _line: &mut Vec<u8, A>, _at: u128) -> Result<Option<bool>, AllocError> {
        Ok(None)
    }

    fn put_last(
        &self,
        line: &mut Vec<u8, A>,
        fault: &ItemFault<ScriptCause>,
    ) -> Result<(), AllocError> {
        put_script_fault_line(line, fault)
    }
}

/// Runs a publisher by a script, and writes the list of what it sends: first the line `V2`, before
/// anything is read; then, for each accepted change and each poll that gives a frame, the line of
/// that frame with the publisher's moment, in microseconds. A poll that gives none writes nothing.
/// Where the script has a fault, or a change is refused, the last line is a comment with the number
/// of the line and the cause, and the run ends with `InputFault`.
///
/// The reader is Open and the writer has not failed. The whole text is written at `Done`, `InputFault`
/// and `ReadFault`, a prefix of it at `WriteFault`, and its first lines at `Memory`: docs/PROOFS.md says
/// it in full, under "What a run leaves written".
#[inline(never)]
pub fn publish<A: Allocator + Copy, R: Source, W: Sink>(
    alloc: A,
    reader: R,
    writer: &mut W,
) -> (Ending, R)
    requires open { R.ending reader ≡ InputEnd.Open }
    requires works { W.failed writer.old ≡ false }
    ensures text { (given : List ℕ) × GivesOctets (R.left reader) (R.left result.1) given
        × WritesSome (IsPublishText {A = A}) script_rules First result.0 (R.ending result.1) given (W.contents writer.old) (W.contents writer.new) }
    ensures read_fault { result.0 ≡ Ending.ReadFault → R.ending result.1 ≡ InputEnd.Failed }
    ensures fault { W.failed writer.new ≡ is_write_fault result.0 }
{
    publish_to_stop(alloc, reader, writer).into_source()
}

/// As `publish`, and hands out the fault by which it ended, and the reader of the script.
#[inline(never)]
pub fn publish_to_stop<A: Allocator + Copy, R: Source, W: Sink>(
    alloc: A,
    reader: R,
    writer: &mut W,
) -> Stopped<ItemReader<R, ScriptLines>, ItemFault<ScriptCause>>
    requires open { R.ending reader ≡ InputEnd.Open }
    requires works { W.failed writer.old ≡ false }
    ensures text { (given : List ℕ) × GivesOctets (R.left reader) (item_state R.left R.ending result.reader).left given
        × OfKind (IsPublishText {A = A}) (λ t. Leaves (list_input script_rules First) (exactly t) result.ending result.fault (item_state R.left R.ending result.reader).ending given (W.contents writer.old) (W.contents writer.new)) }
    ensures read_fault { result.ending ≡ Ending.ReadFault → (item_state R.left R.ending result.reader).ending ≡ InputEnd.Failed }
    ensures fault { W.failed writer.new ≡ is_write_fault result.ending }
{
    run_to_stop(
        alloc,
        ScriptLines::First,
        Publishing {
            stage: Stage::Start,
        },
        b"V2\n",
        reader,
        writer,
    )
}
