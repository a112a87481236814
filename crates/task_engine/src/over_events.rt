//! Tasks by options: over the events of a list or of a capture, each frame unwrapped where frames are, or over what is left of them
//! where frames of other protocols are passed over, in a style.
ghost use Rattle.std.specs.Prelude.{◌≡◌, ℕ, List, false};
ghost use Rattle.list_core.specs.declared.device.InputEnd.{InputEnd};
ghost use Rattle.list_core.specs.Device.{GivesOctets};
ghost use Rattle.engine_core.specs.declared.ending.Ending.{Ending};
ghost use Rattle.engine_core.specs.Ending.{is_write_fault};
ghost use Rattle.engine_core.specs.EventsText.{fault_text};
ghost use Rattle.task_engine.specs.EventTasks.{ended};
ghost use Rattle.task_engine.specs.HandedOut.{LinksWhere, PassesWhere, stop_of};
ghost use Rattle.task_engine.specs.InputText.{EventsTell};
ghost use Rattle.task_engine.specs.RequestText.{EventsWrite, style_of};

use crate::event_input::{EventInput, LeftOfList, LeftOfPackets, ListEvents, PacketEvents};
use crate::event_tasks::EventTask;
use crate::performed::{Performed, of_events};
use engine_core::Style;
use list_core::{InputFault, Sink, Source};
use object_core::{Counted, Form, LastObject};
use std::alloc::Global;
use text_core::LastLine;
use words_core::{Options, Writing};

// Does a task over a reader of events. Each reader has a function of its own, so that it takes its room on the stack only where it is read.
#[inline(never)]
fn over<
    T: EventTask,
    R: Source,
    F: InputFault + LastLine + LastObject + Drop,
    I: EventInput<R, F>,
    W: Sink,
>(alloc: Global, options: Options, task: T, reader: R, writer: &mut W) -> Performed<R>
    requires open { R.ending reader ≡ InputEnd.Open }
    requires works { W.failed writer.old ≡ false }
    ensures text { (given : List ℕ) × GivesOctets (R.left reader) (R.left result.reader) given
        × EventsTell I.stop (style_of options) (T.asked task) (I.look options).input (fault_text F.last_line F.last_object)
        (ended result.ending (R.ending result.reader) given (W.contents writer.old) (W.contents writer.new)) (stop_of result.told) }
    ensures passed { (I.look options).passes result.ending (R.ending result.reader) (R.left reader) (R.left result.reader) result.passed }
    ensures links { (I.look options).links result.ending (R.ending result.reader) (R.left reader) (R.left result.reader) result.other_links }
    ensures read_fault { result.ending ≡ Ending.ReadFault → R.ending result.reader ≡ InputEnd.Failed }
    ensures fault { W.failed writer.new ≡ is_write_fault result.ending }
{
    let events = I::begin(alloc, options, reader);
    of_events(task.over(alloc, style_of(options), events, writer))
}

/// The style that options ask for.
pub fn style_of(options: Options) -> Style
    ensures { result ≡ style_of options }
{
    match options.writes {
        Writing::Lines => Style::Lines(Form::Text),
        Writing::Dated => Style::Dated,
        Writing::Objects if options.is_capture => Style::Lines(Form::Object(Counted::Packet)),
        Writing::Objects => Style::Lines(Form::Object(Counted::Line)),
    }
}

/// Does what a task asks for by its options: over the events of a capture in place of a list, with frames unwrapped, over what is
/// left of events where frames of other protocols are passed over, and in the style that is asked for.
pub fn over_events<T: EventTask, R: Source, W: Sink>(
    alloc: Global,
    options: Options,
    task: T,
    reader: R,
    writer: &mut W,
) -> Performed<R>
    requires open { R.ending reader ≡ InputEnd.Open }
    requires works { W.failed writer.old ≡ false }
    ensures text { (given : List ℕ) × GivesOctets (R.left reader) (R.left result.reader) given
        × EventsWrite options (T.asked task) (ended result.ending (R.ending result.reader) given (W.contents writer.old) (W.contents writer.new)) (stop_of result.told) }
    ensures passed { PassesWhere options.skips_other options result.ending (R.ending result.reader) (R.left reader) (R.left result.reader) result.passed }
    ensures links { LinksWhere options.is_capture result.ending (R.ending result.reader) (R.left reader) (R.left result.reader) result.other_links }
    ensures read_fault { result.ending ≡ Ending.ReadFault → R.ending result.reader ≡ InputEnd.Failed }
    ensures fault { W.failed writer.new ≡ is_write_fault result.ending }
{
    match (options.is_capture, options.skips_other) {
        (false, false) => over::<_, _, _, ListEvents<R>, _>(alloc, options, task, reader, writer),
        (false, true) => over::<_, _, _, LeftOfList<R>, _>(alloc, options, task, reader, writer),
        (true, false) => over::<_, _, _, PacketEvents<R>, _>(alloc, options, task, reader, writer),
        (true, true) => over::<_, _, _, LeftOfPackets<R>, _>(alloc, options, task, reader, writer),
    }
}
