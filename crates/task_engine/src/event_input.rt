//! Readers of the events of an input: each is begun over a source by options, and taken apart behind its run.
ghost use Rattle.std.specs.Prelude.{◌≡◌, ◌-◌, Some};
ghost use Rattle.list_core.specs.declared.device.InputEnd.{InputEnd};
ghost use Rattle.list_core.specs.EventLine.{event_rules};
ghost use Rattle.list_core.specs.ItemReader.{AnswersItem, item_number, item_state};
ghost use Rattle.capture_core.specs.PacketReader.{packet_state};
ghost use Rattle.frame_core.specs.SkipOther.{beneath, passed_over};
ghost use Rattle.unwrap_core.specs.UnwrapEvents.{change_event, under};
ghost use Rattle.words_core.specs.declared.option_words.Options.{Options};
ghost use Rattle.engine_core.specs.Input.{reader_of};
ghost use Rattle.task_engine.specs.declared.stop.Stop.{Stop};
ghost use Rattle.task_engine.specs.EventReader.{InputState, Look, LooksFrom, capture_look, capture_state, list_look, list_state, made_look, skipped_look};
ghost use Rattle.task_engine.specs.InputText.{changes_of, of_list};

use crate::stop::Stop;
use crate::told::Told;
use capture_core::{CaptureFault, PacketReader};
use frame_core::SkipOther;
use list_core::{
    Event, EventLines, InputFault, ItemFault, ItemReader, ListCause, ReadError, ReadItems, Source,
};
use object_core::LastObject;
use std::alloc::Global;
use tally_core::KindTally;
use text_core::LastLine;
use unwrap_core::{Changes, Unwrap};
use words_core::Options;

/// Reads the events of a list.
#[derive(Drop)]
pub struct ListReader<R> {
    lines: ItemReader<R, EventLines>,
}

/// The events of a list, each frame unwrapped where frames are.
pub type ListEvents<R> = Unwrap<ListReader<R>>;

/// What is left of them, where frames of other protocols are passed over.
pub type LeftOfList<R> = SkipOther<ListEvents<R>, Global>;

/// The events of a capture, each frame unwrapped where frames are.
pub type PacketEvents<R> = Unwrap<PacketReader<R, Global>>;

/// What is left of them, where frames of other protocols are passed over.
pub type LeftOfPackets<R> = SkipOther<PacketEvents<R>, Global>;

/// What a reader of events is taken apart into.
#[derive(Drop)]
pub struct Parts<R> {
    /// The reader of its octets as it then stands.
    pub reader: R,
    /// The frames of other protocols that were passed over, where they are.
    pub passed: Option<KindTally>,
    /// The packets that were not captured on Ethernet, by their link types, where a capture was read.
    pub other_links: Option<KindTally>,
}

/// A reader of the events of an input, which looks at them by options.
pub trait EventInput<R: Source, F: InputFault + LastLine + LastObject + Drop>: ReadItems<
    Global,
    Item = Event<Global>,
    Fault = F,
> {
    /// What it looks at by options.
    ghost look: { Options → Look F.Refusal F };

    /// How it stands.
    ghost state: { Self → InputState };

    /// What is told of a fault of it.
    ghost stop: { F → Stop };

    /// Begins to read what a source gives, by options.
    fn begin(alloc: Global, options: Options, reader: R) -> Self
        requires { R.ending reader ≡ InputEnd.Open }
        ensures left { (state result).left ≡ R.left reader }
        ensures looks { LooksFrom (reader_of Self.answers Self.number F.refused F.failed) (look options) state result };

    /// What is told of a fault of it.
    fn told(&self, fault: F) -> Told
        ensures { result.stop ≡ stop fault };

    /// The source as it stands, and what was kept beside what was read.
    fn take_apart(self) -> Parts<R>
        ensures left { R.left result.reader ≡ (state self).left }
        ensures source { R.ending result.reader ≡ (state self).source }
        ensures passed { result.passed ≡ (state self).passed }
        ensures links { result.other_links ≡ (state self).links };
}

impl<R: Source> ReadItems<Global> for ListReader<R> {
    type Item = Event<Global>;

    type Fault = ItemFault<ListCause>;

    ghost answers = { λ old answer new. AnswersItem event_rules (item_state R.left R.ending old.lines) answer (item_state R.left R.ending new.lines) };

    ghost number = { λ s. item_number s.lines };

    ghost most = { λ s. 1000000 - (item_state R.left R.ending s.lines).taken };

    #[inline(always)]
    fn read_item(
        &mut self,
        alloc: Global,
        spare: &mut Option<Event<Global>>,
    ) -> Result<Option<Event<Global>>, ReadError<ItemFault<ListCause>>> {
        self.lines.read_item(alloc, spare)
    }

    fn item_number(&self) -> u64 {
        self.lines.line_number()
    }
}

impl<R: Source> EventInput<R, ItemFault<ListCause>> for ListReader<R> {
    ghost look = { λ _. list_look };

    ghost state = { λ s. list_state (item_state R.left R.ending s.lines) };

    ghost stop = { of_list };

    #[inline(always)]
    fn begin(_: Global, _: Options, reader: R) -> Self {
        ListReader {
            lines: ItemReader::new(reader, EventLines::First),
        }
    }

    fn told(&self, fault: ItemFault<ListCause>) -> Told {
        Told::of_list(&fault, &self.lines)
    }

    #[inline(always)]
    fn take_apart(self) -> Parts<R> {
        let ListReader { lines } = self;
        Parts {
            reader: lines.into_reader(),
            passed: None,
            other_links: None,
        }
    }
}

impl<R: Source> EventInput<R, CaptureFault> for PacketReader<R, Global> {
    ghost look = { λ _. capture_look };

    ghost state = { λ s. capture_state (packet_state R.left R.ending s) };

    ghost stop = { λ f. Stop.Packet f };

    #[inline(always)]
    fn begin(alloc: Global, _: Options, reader: R) -> Self {
        PacketReader::new(alloc, reader)
    }

    fn told(&self, fault: CaptureFault) -> Told {
        Told::at(Stop::Packet(fault), b"")
    }

    #[inline(always)]
    fn take_apart(self) -> Parts<R> {
        let (reader, other_links) = self.into_parts();
        Parts {
            reader,
            passed: None,
            other_links: Some(other_links),
        }
    }
}

// How options ask events to be changed.
fn changes_of(options: Options) -> Changes
    ensures { result ≡ changes_of options }
{
    Changes {
        unwraps: options.unwraps,
    }
}

impl<R: Source, F: InputFault + LastLine + LastObject + Drop, I: EventInput<R, F>> EventInput<R, F>
    for Unwrap<I> {
    ghost look = { λ o. made_look (change_event (changes_of o)) (I.look o) };

    ghost state = { λ s. I.state (under s) };

    ghost stop = { I.stop };

    #[inline(always)]
    fn begin(alloc: Global, options: Options, reader: R) -> Self {
        Unwrap::new(I::begin(alloc, options, reader), changes_of(options))
    }

    fn told(&self, fault: F) -> Told {
        self.beneath().told(fault)
    }

    #[inline(always)]
    fn take_apart(self) -> Parts<R> {
        self.into_beneath().take_apart()
    }
}

impl<R: Source, F: InputFault + LastLine + LastObject + Drop, I: EventInput<R, F>> EventInput<R, F>
    for SkipOther<I, Global> {
    ghost look = { λ o. skipped_look (I.look o) };

    ghost state = { λ s. record (I.state (beneath s)) { passed = Some (passed_over s) } };

    ghost stop = { I.stop };

    #[inline(always)]
    fn begin(alloc: Global, options: Options, reader: R) -> Self {
        SkipOther::new(I::begin(alloc, options, reader))
    }

    fn told(&self, fault: F) -> Told {
        self.beneath().told(fault)
    }

    #[inline(always)]
    fn take_apart(self) -> Parts<R> {
        let (events, passed) = self.into_parts();
        let mut parts = events.take_apart();
        parts.passed = Some(passed);
        parts
    }
}
