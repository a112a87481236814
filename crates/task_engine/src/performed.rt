//! What a task notes, and what it leaves, of what its engine's run hands out.
ghost use Rattle.std.specs.Prelude.{◌≡◌, None, option_map};
ghost use Rattle.list_core.specs.ItemReader.{item_state};
ghost use Rattle.task_engine.specs.HandedOut.{stop_of};
ghost use Rattle.task_engine.specs.InputText.{of_list, of_stop};

use crate::event_input::{EventInput, Parts};
use crate::stop::Stop;
use crate::told::Told;
use capture_core::CaptureFault;
use engine_core::{Ending, Stopped};
use exchange_engines::ReplayStop;
use list_core::{EventLines, InputFault, ItemFault, ItemReader, ListCause, Source};
use loss_engine::Unjudged;
use object_core::LastObject;
use script_core::{ScriptCause, ScriptLines};
use std::alloc::Global;
use tally_core::KindTally;
use text_core::LastLine;

/// What a task notes of its events, beside what it writes.
#[derive(Drop)]
pub struct Notes {
    /// A flag for each control block of a replay, by its position: it is set where the block has an entry, if there is one.
    pub heard: Vec<bool, Global>,
    /// The streams that `losses` counts alone.
    pub unjudged: Unjudged<Global>,
}

/// What a task leaves.
#[derive(Drop)]
pub struct Performed<R> {
    /// How it ended.
    pub ending: Ending,
    /// What is told of the fault by which it ended, if it ended by one.
    pub told: Option<Told>,
    /// The frames of other protocols that were passed over, where they are.
    pub passed: Option<KindTally>,
    /// The packets that were not captured on Ethernet, by their link types, where a capture was read.
    pub other_links: Option<KindTally>,
    /// The reader as it then stands.
    pub reader: R,
}

impl<R> Performed<R> {
    /// What a task leaves that kept nothing beside what it read.
    pub(crate) fn of_reader(ending: Ending, told: Option<Told>, reader: R) -> Performed<R>
        ensures ending { result.ending ≡ ending }
        ensures told { result.told ≡ told }
        ensures passed { result.passed ≡ None }
        ensures links { result.other_links ≡ None }
        ensures reader { result.reader ≡ reader }
    {
        Performed {
            ending,
            told,
            passed: None,
            other_links: None,
            reader,
        }
    }
}

// The line of a fault of a script.
fn line_of(fault: &ItemFault<ScriptCause>) -> u64 {
    match fault {
        ItemFault::Lines(fault) => fault.line,
        ItemFault::Line(line, _) => *line,
    }
}

// What a task leaves that ran by a script.
#[inline(never)]
pub fn of_script<R: Source>(
    stopped: Stopped<ItemReader<R, ScriptLines>, ItemFault<ScriptCause>>,
) -> Performed<R>
    ensures ending { result.ending ≡ stopped.ending }
    ensures left { R.left result.reader ≡ (item_state R.left R.ending stopped.reader).left }
    ensures source { R.ending result.reader ≡ (item_state R.left R.ending stopped.reader).ending }
    ensures told { stop_of result.told ≡ option_map Stop.Script stopped.fault }
    ensures passed { result.passed ≡ None }
    ensures links { result.other_links ≡ None }
{
    let told = match stopped.fault {
        Some(fault) => {
            let line = line_of(&fault);
            Some(Told::of_line(Stop::Script(fault), line, &stopped.reader))
        }
        None => None,
    };
    Performed::of_reader(stopped.ending, told, stopped.reader.into_reader())
}

// What a task leaves that ran over a list.
#[inline(never)]
pub fn of_list<R: Source>(
    stopped: Stopped<ItemReader<R, EventLines>, ItemFault<ListCause>>,
) -> Performed<R>
    ensures ending { result.ending ≡ stopped.ending }
    ensures left { R.left result.reader ≡ (item_state R.left R.ending stopped.reader).left }
    ensures source { R.ending result.reader ≡ (item_state R.left R.ending stopped.reader).ending }
    ensures told { stop_of result.told ≡ option_map of_list stopped.fault }
    ensures passed { result.passed ≡ None }
    ensures links { result.other_links ≡ None }
{
    let told = match stopped.fault {
        Some(fault) => Some(Told::of_list(&fault, &stopped.reader)),
        None => None,
    };
    Performed::of_reader(stopped.ending, told, stopped.reader.into_reader())
}

// What a task leaves that read a capture.
#[inline(never)]
pub fn of_capture<R>(stopped: Stopped<R, CaptureFault>) -> Performed<R>
    ensures ending { result.ending ≡ stopped.ending }
    ensures reader { result.reader ≡ stopped.reader }
    ensures told { stop_of result.told ≡ option_map Stop.Capture stopped.fault }
    ensures passed { result.passed ≡ None }
    ensures links { result.other_links ≡ None }
{
    let told = match stopped.fault {
        Some(fault) => Some(Told::at(Stop::Capture(fault), b"")),
        None => None,
    };
    Performed::of_reader(stopped.ending, told, stopped.reader)
}

// What is told of why a task over events stopped.
fn told_of<R: Source, F: InputFault + LastLine + LastObject + Drop, I: EventInput<R, F>>(
    why: Option<ReplayStop<F>>,
    events: &I,
) -> Option<Told>
    ensures { stop_of result ≡ option_map (of_stop I.stop) why }
{
    match why {
        Some(ReplayStop::Input(fault)) => Some(events.told(fault)),
        Some(ReplayStop::SameBlockTwice(position)) => {
            Some(Told::at(Stop::SameBlockTwice(position), b""))
        }
        None => None,
    }
}

/// What a task leaves that ran over events.
#[inline(never)]
pub fn of_events<R: Source, F: InputFault + LastLine + LastObject + Drop, I: EventInput<R, F>>(
    stopped: Stopped<I, ReplayStop<F>>,
) -> Performed<R>
    ensures ending { result.ending ≡ stopped.ending }
    ensures left { R.left result.reader ≡ (I.state stopped.reader).left }
    ensures source { R.ending result.reader ≡ (I.state stopped.reader).source }
    ensures told { stop_of result.told ≡ option_map (of_stop I.stop) stopped.fault }
    ensures passed { result.passed ≡ (I.state stopped.reader).passed }
    ensures links { result.other_links ≡ (I.state stopped.reader).links }
{
    let Stopped {
        ending,
        fault,
        reader,
    } = stopped;
    let told = told_of(fault, &reader);
    let Parts {
        reader,
        passed,
        other_links,
    } = reader.take_apart();
    Performed {
        ending,
        told,
        passed,
        other_links,
        reader,
    }
}
