//! Laws about runs. The functions compute nothing.
ghost use Rattle.engine_core.specs.DatedLaws.{DashGoesAway, DatedAsPlain, DatesGoAway, DatesGoEach};
ghost use Rattle.engine_core.specs.Laws.{RunsWriteWholeTexts};
ghost use Rattle.list_core.specs.declared.event.Event.{Event as SpecEvent};
ghost use Rattle.engine_core.specs.CaptureRun.{capture_input};
ghost use Rattle.engine_core.specs.MadeRun.{made};
ghost use Rattle.engine_core.specs.Run.{list_input};
ghost use Rattle.engine_core.specs.WholeRun.{InputsAreWrittenWhole, IsWrittenWhole};

use crate::running::Engine;
use capture_core::CaptureFault;
use list_core::{Event, InputFault, ItemFault, LineRules};
use std::alloc::Allocator;

/// Of the whole text of the list that was read, a run leaves all written where it ended at the end of the list or by a fault
/// of it, and else a prefix.
pub fn runs_write_whole_texts<S, X, C>()
    ensures { RunsWriteWholeTexts S X C }
{}

/// Of a whole text that an engine may write of what its input says, a run leaves all written where it ended with the input or by a
/// fault, and else a prefix of a front: so of each input, of a capture, and of a list.
pub fn inputs_are_written_whole<A: Allocator, F: InputFault, E: Engine<A, F>>()
    ensures { (engine : E) → InputsAreWrittenWhole (E.allows engine) }
{}

/// The same of a capture, and of what is made of each of its events.
pub fn captures_are_written_whole<A: Allocator, E: Engine<A, CaptureFault, Item = Event<A>>>()
    ensures { (engine : E) (make : SpecEvent A → SpecEvent A) → IsWrittenWhole (made make capture_input) (E.allows engine) }
{}

/// The same of a list, and of what is made of each of its items.
pub fn lists_are_written_whole<
    A: Allocator,
    G: LineRules<A>,
    E: Engine<A, ItemFault<G::Cause>, Item = G::Item>,
>()
    ensures { (engine : E) (rules : G) (make : G.Item → G.Item) → IsWrittenWhole (made make (list_input G.rules rules)) (E.allows engine) }
{}

/// What `--time` writes of an event is, without the first word of each line, what is written of it without the option; and
/// so are whole lines of several events, one after another.
pub fn dates_go_away()
    ensures one { DatesGoAway }
    ensures each { DatesGoEach }
    ensures dash { DashGoesAway }
{}

/// What a run wrote of events with `--time` is, without the first word of each line, what it writes of them without the option;
/// and the same events are findings.
pub fn dated_as_plain<A, C, F>()
    ensures { DatedAsPlain A C F }
{}
