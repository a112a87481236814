//! The control blocks that an input shows, which a first reading finds, and the replay of them in a second one.
ghost use Rattle.std.specs.Prelude.{◌≡◌, ℕ, List, IfOk, MatchResult, false};
ghost use Rattle.std.specs.Io.KnownBytes.{Appends};
ghost use Rattle.list_core.specs.declared.device.InputEnd.{InputEnd};
ghost use Rattle.list_core.specs.Device.{GivesOctets};
ghost use Rattle.engine_core.specs.Ending.{is_write_fault};
ghost use Rattle.inventory_engine.specs.ListedBlocks.{FindsOf};
ghost use Rattle.inventory_engine.specs.SubscribedText.{subscribed_text};
ghost use Rattle.task_engine.specs.EventTasks.{ended};
ghost use Rattle.task_engine.specs.HandedOut.{stop_of};
ghost use Rattle.task_engine.specs.ListedReplay.{FailsToBegin, FindsBy, ListedLinks, ReplaysListed};
ghost use Rattle.task_engine.specs.RequestText.{style_of};

use crate::event_input::{EventInput, LeftOfList, LeftOfPackets, ListEvents, PacketEvents};
use crate::over_events::style_of;
use crate::performed::{Notes, Performed};
use crate::performing::perform;
use engine_core::Ending;
use inventory_engine::{FoundBlocks, ListedBlock, find_blocks, put_all_subscribed};
use list_core::{InputFault, Sink, Source, put_all};
use object_core::LastObject;
use std::alloc::{AllocError, Global};
use text_core::LastLine;
use words_core::{Options, Task};

/// The control blocks that an input shows, and its reader as it then stands.
#[derive(Drop)]
pub struct Listed<R> {
    /// The control blocks that `blocks` lists.
    pub found: FoundBlocks<Global>,
    /// The reader.
    pub reader: R,
}

// Finds the control blocks that a reader of events shows. Each reader has a function of its own, so that it takes its room on the stack only where it is read.
#[inline(never)]
fn found_in<
    R: Source + Drop,
    F: InputFault + LastLine + LastObject + Drop,
    I: EventInput<R, F> + Drop,
>(alloc: Global, options: Options, reader: R) -> Result<Listed<R>, AllocError>
    requires open { R.ending reader ≡ InputEnd.Open }
    ensures { IfOk result (λ l. (given : List ℕ) × GivesOctets (R.left reader) (R.left l.reader) given × FindsOf (I.look options).input (R.ending l.reader) given l.found.listed.items l.found.blocks.items) }
{
    let mut events = I::begin(alloc, options, reader);
    let found = find_blocks(alloc, &mut events)?;
    let reader = events.take_apart().reader;
    Ok(Listed { found, reader })
}

/// Reads an input by options, and finds the control blocks that `blocks` lists of it by the same ones, in the order of its lines
/// `block`: of an input that has a fault those before it. The reader is Open.
///
/// # Errors
///
/// `AllocError` where memory is refused.
pub fn list_blocks<R: Source + Drop>(
    alloc: Global,
    options: Options,
    reader: R,
) -> Result<Listed<R>, AllocError>
    requires open { R.ending reader ≡ InputEnd.Open }
    ensures found { IfOk result (λ l. (given : List ℕ) × GivesOctets (R.left reader) (R.left l.reader) given × FindsBy options (R.ending l.reader) given l.found.listed.items l.found.blocks.items) }
{
    match (options.is_capture, options.skips_other) {
        (false, false) => found_in::<_, _, ListEvents<R>>(alloc, options, reader),
        (false, true) => found_in::<_, _, LeftOfList<R>>(alloc, options, reader),
        (true, false) => found_in::<_, _, PacketEvents<R>>(alloc, options, reader),
        (true, true) => found_in::<_, _, LeftOfPackets<R>>(alloc, options, reader),
    }
}

// Writes the lines of the control blocks that a BLOCK can name, or tells how that ends a run.
fn write_subscribed<W: Sink>(
    alloc: Global,
    options: Options,
    listed: &[ListedBlock<Global>],
    writer: &mut W,
) -> Result<(), Ending>
    requires works { W.failed writer.old ≡ false }
    ensures written { MatchResult result (λ _. Appends (W.contents writer.old) (W.contents writer.new) (subscribed_text (style_of options) listed.now))
        (λ ending. FailsToBegin (subscribed_text (style_of options) listed.now) ending (W.contents writer.old) (W.contents writer.new)) }
    ensures fault { MatchResult result (λ _. W.failed writer.new ≡ false) (λ ending. W.failed writer.new ≡ is_write_fault ending) }
{
    let mut lines = Vec::new(alloc);
    match put_all_subscribed(&mut lines, style_of(options), listed) {
        Ok(()) => match put_all(writer, lines.as_slice()) {
            Ok(()) => Ok(()),
            Err(_) => Err(Ending::WriteFault),
        },
        Err(_) => Err(Ending::Memory),
    }
}

/// Writes a line `subscribed` for each control block that was found and that a BLOCK can name, and behind them what a replay of
/// these blocks writes of the reader, by options: as [`perform`] does.
///
/// The reader is Open and the writer has not failed.
pub fn replay_listed<R: Source, W: Sink>(
    alloc: Global,
    found: FoundBlocks<Global>,
    options: Options,
    reader: R,
    notes: &mut Notes,
    writer: &mut W,
) -> Performed<R>
    requires open { R.ending reader ≡ InputEnd.Open }
    requires works { W.failed writer.old ≡ false }
    ensures text { (given : List ℕ) × GivesOctets (R.left reader) (R.left result.reader) given
        × ReplaysListed options found.listed.items found.blocks.items
        (ended result.ending (R.ending result.reader) given (W.contents writer.old) (W.contents writer.new)) (R.left reader) (R.left result.reader) (stop_of result.told) result.passed }
    ensures links { ListedLinks options found.blocks.items result.ending (R.ending result.reader) (R.left reader) (R.left result.reader) result.other_links }
    ensures read_fault { result.ending ≡ Ending.ReadFault → R.ending result.reader ≡ InputEnd.Failed }
    ensures fault { W.failed writer.new ≡ is_write_fault result.ending }
{
    let FoundBlocks { listed, blocks } = found;
    match write_subscribed(alloc, options, listed.as_slice(), writer) {
        Ok(()) => perform(alloc, Task::Replay(blocks), options, reader, notes, writer),
        Err(ending) => Performed::of_reader(ending, None, reader),
    }
}
