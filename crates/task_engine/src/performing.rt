//! A task is performed by the engine that it asks for.
ghost use Rattle.std.specs.Prelude.{◌≡◌, ℕ, List, None, false};
ghost use Rattle.list_core.specs.declared.device.InputEnd.{InputEnd};
ghost use Rattle.list_core.specs.Device.{GivesOctets};
ghost use Rattle.engine_core.specs.Ending.{is_write_fault};
ghost use Rattle.words_core.specs.CommandLine.{HasPeriod, asked_by};
ghost use Rattle.task_engine.specs.EventTasks.{ended};
ghost use Rattle.task_engine.specs.HandedOut.{RequestLinks, RequestPasses, stop_of};
ghost use Rattle.task_engine.specs.RequestText.{RequestWrites, RewriteTells, manner_of};

use crate::event_tasks::{Checks, ListsBlocks, Replays, Shows, TellsLosses, Watches};
use crate::over_events::over_events;
use crate::performed::{Notes, Performed, of_capture, of_list, of_script};
use engine_core::Ending;
use exchange_engines::{ReplayManner, publish_to_stop};
use frame_engines::{import_to_stop, rewrite_to_stop};
use list_core::{Sink, Source};
use std::alloc::Global;
use words_core::{Options, Task};

// Writes a list in written form. A function of its own, so that it takes its room on the stack only where it runs.
#[inline(never)]
fn perform_rewrite<R: Source, W: Sink>(alloc: Global, reader: R, writer: &mut W) -> Performed<R>
    requires open { R.ending reader ≡ InputEnd.Open }
    requires works { W.failed writer.old ≡ false }
    ensures text { (given : List ℕ) × GivesOctets (R.left reader) (R.left result.reader) given
        × RewriteTells (ended result.ending (R.ending result.reader) given (W.contents writer.old) (W.contents writer.new)) (stop_of result.told) }
    ensures passed { result.passed ≡ None }
    ensures links { result.other_links ≡ None }
    ensures read_fault { result.ending ≡ Ending.ReadFault → R.ending result.reader ≡ InputEnd.Failed }
    ensures fault { W.failed writer.new ≡ is_write_fault result.ending }
{
    of_list(rewrite_to_stop(alloc, reader, writer))
}

// The manner of a replay that options ask for.
fn manner_of(options: Options) -> ReplayManner
    ensures { result ≡ manner_of options }
{
    ReplayManner {
        simulates: options.simulates,
        changes_alone: options.changes_alone,
    }
}

/// Does what a request asks for: reads the reader, writes the text that is defined for the task by its options, and hands out how
/// that ended, the fault by which it did, and the reader as it then stands. By options a task over events reads a capture in place of a
/// list, passes over the frames of other protocols, and writes each line behind the date of its event, or as an object; and a
/// replay takes simulated frames from the start, or tells changes alone.
///
/// The reader is Open and the writer has not failed. What is written at each ending, and which of them there are, is what
/// the engine of the task says; the exit status is that of `engine_core::status`.
#[inline(never)]
pub fn perform<R: Source, W: Sink>(
    alloc: Global,
    task: Task,
    options: Options,
    reader: R,
    notes: &mut Notes,
    writer: &mut W,
) -> Performed<R>
    requires open { R.ending reader ≡ InputEnd.Open }
    requires works { W.failed writer.old ≡ false }
    requires period { HasPeriod (asked_by task) }
    ensures text { (given : List ℕ) × GivesOctets (R.left reader) (R.left result.reader) given
        × RequestWrites options (asked_by task) (ended result.ending (R.ending result.reader) given (W.contents writer.old) (W.contents writer.new)) (stop_of result.told) }
    ensures passed { RequestPasses options (asked_by task) result.ending (R.ending result.reader) (R.left reader) (R.left result.reader) result.passed }
    ensures links { RequestLinks options (asked_by task) result.ending (R.ending result.reader) (R.left reader) (R.left result.reader) result.other_links }
    ensures read_fault { result.ending ≡ Ending.ReadFault → R.ending result.reader ≡ InputEnd.Failed }
    ensures fault { W.failed writer.new ≡ is_write_fault result.ending }
{
    match task {
        Task::Rewrite => perform_rewrite(alloc, reader, writer),
        Task::Publish => of_script(publish_to_stop(alloc, reader, writer)),
        Task::Import => of_capture(import_to_stop(alloc, reader, writer)),
        Task::Show => over_events(alloc, options, Shows, reader, writer),
        Task::Check => over_events(alloc, options, Checks, reader, writer),
        Task::Blocks => over_events(alloc, options, ListsBlocks, reader, writer),
        Task::Replay(blocks) => {
            let manner = manner_of(options);
            let heard = notes.heard.as_mut_slice();
            let task = Replays {
                manner,
                blocks,
                heard,
            };
            over_events(alloc, options, task, reader, writer)
        }
        Task::Watch { period, id } => {
            let id = id.as_slice();
            over_events(alloc, options, Watches { period, id }, reader, writer)
        }
        Task::Losses { periods } => {
            let unjudged = &mut notes.unjudged;
            over_events(
                alloc,
                options,
                TellsLosses { periods, unjudged },
                reader,
                writer,
            )
        }
    }
}
