//! Tasks over events that any reader has, in a style.
ghost use Rattle.std.specs.Prelude.{◌≡◌, false};
ghost use Rattle.block_core.specs.Period.{IsPeriod};
ghost use Rattle.engine_core.specs.Ending.{is_write_fault};
ghost use Rattle.engine_core.specs.EventsText.{fault_text};
ghost use Rattle.engine_core.specs.Input.{reader_of};
ghost use Rattle.loss_core.specs.Periods.{ArePeriods};
ghost use Rattle.words_core.specs.CommandLine.{check, list_blocks, losses, replay, show, watch};
ghost use Rattle.task_engine.specs.EventTasks.{OverWrites, Work, plain_work};

use block_core::Block;
use engine_core::{Stopped, Style};
use exchange_engines::{ReplayManner, ReplayStop, of_input, replay_over, watch_over};
use frame_engines::{check_over, show_over};
use inventory_engine::blocks_over;
use list_core::{Event, InputFault, ReadItems, Sink};
use loss_core::StreamPeriod;
use loss_engine::{Unjudged, losses_over};
use object_core::LastObject;
use std::alloc::Global;
use text_core::LastLine;

/// A task over events, whatever input has them.
pub trait EventTask {
    /// What is asked for, and in which manner a replay is done.
    ghost asked: { Self → Work };

    /// Writes what is asked for of the events of a reader in a style, and hands out how that ended, why, and the reader.
    fn over<
        F: InputFault + LastLine + LastObject + Drop,
        I: ReadItems<Global, Item = Event<Global>, Fault = F>,
        W: Sink,
    >(self, alloc: Global, style: Style, events: I, writer: &mut W) -> Stopped<I, ReplayStop<F>>
        requires works { W.failed writer.old ≡ false }
        ensures text { OverWrites style (asked self) (reader_of I.answers I.number F.refused F.failed) (fault_text F.last_line F.last_object) events result (W.contents writer.old) (W.contents writer.new) }
        ensures fault { W.failed writer.new ≡ is_write_fault result.ending };
}

/// One line an event.
#[derive(Drop)]
pub struct Shows;

impl EventTask for Shows {
    ghost asked = { λ _. plain_work show };

    #[inline(always)]
    fn over<
        F: InputFault + LastLine + LastObject + Drop,
        I: ReadItems<Global, Item = Event<Global>, Fault = F>,
        W: Sink,
    >(self, alloc: Global, style: Style, events: I, writer: &mut W) -> Stopped<I, ReplayStop<F>> {
        of_input(show_over(alloc, style, events, writer))
    }
}

/// One line a note on a frame.
#[derive(Drop)]
pub struct Checks;

impl EventTask for Checks {
    ghost asked = { λ _. plain_work check };

    #[inline(always)]
    fn over<
        F: InputFault + LastLine + LastObject + Drop,
        I: ReadItems<Global, Item = Event<Global>, Fault = F>,
        W: Sink,
    >(self, alloc: Global, style: Style, events: I, writer: &mut W) -> Stopped<I, ReplayStop<F>> {
        of_input(check_over(alloc, style, events, writer))
    }
}

/// One line a control block or a stream, and one where its configuration changes.
#[derive(Drop)]
pub struct ListsBlocks;

impl EventTask for ListsBlocks {
    ghost asked = { λ _. plain_work list_blocks };

    #[inline(always)]
    fn over<
        F: InputFault + LastLine + LastObject + Drop,
        I: ReadItems<Global, Item = Event<Global>, Fault = F>,
        W: Sink,
    >(self, alloc: Global, style: Style, events: I, writer: &mut W) -> Stopped<I, ReplayStop<F>> {
        of_input(blocks_over(alloc, style, events, writer))
    }
}

/// One line an entry of a subscriber of these control blocks that is told. The flag of each block that has an entry is set.
#[derive(Drop)]
pub struct Replays<'a> {
    /// How frames are taken, and what is told of them.
    pub manner: ReplayManner,
    /// The control blocks.
    pub blocks: Vec<Block<Global>, Global>,
    /// A flag for each of them, by its position.
    pub heard: &'a mut [bool],
}

impl EventTask for Replays<'_> {
    ghost asked = { λ s. record { asked = replay s.blocks.items; manner = s.manner } };

    #[inline(always)]
    fn over<
        F: InputFault + LastLine + LastObject + Drop,
        I: ReadItems<Global, Item = Event<Global>, Fault = F>,
        W: Sink,
    >(self, alloc: Global, style: Style, events: I, writer: &mut W) -> Stopped<I, ReplayStop<F>> {
        let Replays {
            manner,
            blocks,
            heard,
        } = self;
        replay_over(alloc, style, manner, events, blocks, heard, writer)
    }
}

/// One line a sample of the stream with this svID.
#[derive(Drop)]
pub struct Watches<'a> {
    /// After how many samples the counter begins at 0 again.
    pub period: u32,
    /// The svID.
    pub id: &'a [u8],
    ghost is_period: { IsPeriod period },
}

impl EventTask for Watches<'_> {
    ghost asked = { λ s. plain_work (watch s.period s.id.now) };

    #[inline(always)]
    fn over<
        F: InputFault + LastLine + LastObject + Drop,
        I: ReadItems<Global, Item = Event<Global>, Fault = F>,
        W: Sink,
    >(self, alloc: Global, style: Style, events: I, writer: &mut W) -> Stopped<I, ReplayStop<F>> {
        let Watches { period, id } = self;
        of_input(watch_over(alloc, style, events, period, id, writer))
    }
}

/// What is missing of each control block and stream, and at the end of the input what has not come back and what came in all.
#[derive(Drop)]
pub struct TellsLosses<'a> {
    /// The periods of streams; one without a period is counted alone.
    pub periods: Vec<StreamPeriod<Global>, Global>,
    /// The streams that are counted alone.
    pub unjudged: &'a mut Unjudged<Global>,
    ghost are_periods: { ArePeriods periods.items },
}

impl EventTask for TellsLosses<'_> {
    ghost asked = { λ s. plain_work (losses s.periods.items) };

    #[inline(always)]
    fn over<
        F: InputFault + LastLine + LastObject + Drop,
        I: ReadItems<Global, Item = Event<Global>, Fault = F>,
        W: Sink,
    >(self, alloc: Global, style: Style, events: I, writer: &mut W) -> Stopped<I, ReplayStop<F>> {
        let TellsLosses { periods, unjudged } = self;
        of_input(losses_over(alloc, style, events, periods, unjudged, writer))
    }
}
