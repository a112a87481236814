//! The control blocks that `blocks` lists, kept in place of their lines.

ghost use Rattle.std.specs.Prelude.{◌≡◌, ◌∷◌, List, [], IfOk, OnOk};
ghost use Rattle.pdu_core.specs.Views.{pdu_of};
ghost use Rattle.engine_core.specs.Input.{reader_of};
ghost use Rattle.inventory_engine.specs.Configuration.{configuration_of};
ghost use Rattle.inventory_engine.specs.ListedBlocks.{FindsOver};
ghost use Rattle.inventory_engine.specs.Sightings.{Sighting, block_sighting, sightings_of};
ghost use Rattle.inventory_engine.specs.computed.BlocksStep.{Keeps};
ghost use Rattle.inventory_engine.specs.computed.FirstBlocks.{ListsMore, NotesSightings, firsts_of};
ghost use Rattle.inventory_engine.specs.computed.ShownFields.{configuration_shown};

use crate::block_text::{ShownBlock, block_shown};
use crate::inventory::{Inventory, Sought};
use crate::kept_block::KeptBlock;
use crate::listed_block::ListedBlock;
use crate::sighting::put_event;
use block_core::Block;
use frame_core::ApduView;
use known_core::Runs;
use list_core::{Event, EventKind, InputFault, ReadError, ReadItems};
use object_core::{Form, Heading};
use pdu_core::GooseView;
use repeat_core::FrameMemory;
use std::alloc::{AllocError, Allocator};

/// The control blocks that were found in an input.
#[derive(Drop)]
pub struct FoundBlocks<A: Allocator> {
    /// Those that `blocks` lists by a line `block`, in the order of these lines.
    pub listed: Vec<ListedBlock<A>, A>,
    /// Those of them that a BLOCK can name, as `replay` awaits them.
    pub blocks: Vec<Block<A>, A>,
}

impl<A: Allocator + Copy> FoundBlocks<A> {
    // Lists one more, as a frame shows it.
    fn push(&mut self, alloc: A, block: &ShownBlock<'_>) -> Result<(), AllocError>
        ensures { OnOk result (ListsMore (block_sighting (configuration_shown block.now) ∷ []) self.old self.new) }
    {
        let (listed, said) = ListedBlock::of(alloc, block)?;
        self.listed.push(listed)?;
        match said {
            Some(said) => {
                self.blocks.push(said)?;
                Ok(())
            }
            None => Ok(()),
        }
    }
}

// How the line of a control block is begun that is put together beside, and left.
const HEADING: Heading = Heading {
    form: Form::Text,
    number: 0,
    moment: 0,
};

// Lists the control block of a frame, where none is known by its key.
fn push_first<A: Allocator + Copy>(
    alloc: A,
    known: &Inventory<A>,
    found: &mut FoundBlocks<A>,
    app_id: u16,
    goose: &GooseView<'_>,
) -> Result<(), AllocError>
    ensures { OnOk result ((earlier : List Sighting) → Keeps known.now earlier → ListsMore (firsts_of earlier (block_sighting (configuration_of app_id (pdu_of {A = Unit {0}} goose.now)) ∷ [])) found.old found.new) }
{
    let sought = Sought {
        app_id: Some(app_id),
        name: goose.gocb_ref,
    };
    match known.place_of(&sought) {
        Ok(_) => Ok(()),
        Err(_) => found.push(alloc, &block_shown(app_id, goose)),
    }
}

// Lists the control block that an event shows, where none is known by its key.
fn push_shown<A: Allocator + Copy>(
    alloc: A,
    memory: &mut FrameMemory<A, KeptBlock<A>>,
    known: &Inventory<A>,
    found: &mut FoundBlocks<A>,
    kind: &EventKind<A>,
) -> Result<(), AllocError>
    ensures { OnOk result ((earlier : List Sighting) → Keeps known.now earlier → ListsMore (firsts_of earlier (sightings_of kind.now)) found.old found.new) }
{
    let EventKind::Frame(octets) = kind else {
        return Ok(());
    };
    match memory.view(octets.as_slice()) {
        Err(_) => Ok(()),
        Ok(view) => match &view.apdu {
            ApduView::Goose(goose) => push_first(alloc, known, found, view.app_id, goose),
            ApduView::Sampled(_) => Ok(()),
        },
    }
}

// Keeps what an event shows, and lists the control block that it shows for the first time. What `blocks` writes of the event is put
// together by its own call, and left.
fn note_event<A: Allocator + Copy>(
    alloc: A,
    memory: &mut FrameMemory<A, KeptBlock<A>>,
    known: &mut Inventory<A>,
    found: &mut FoundBlocks<A>,
    line: &mut Vec<u8, A>,
    kind: &EventKind<A>,
) -> Result<(), AllocError>
    ensures { OnOk result (NotesSightings (sightings_of kind.now) known.old known.new found.old found.new) }
{
    push_shown(alloc, memory, known, found, kind)?;
    line.clear();
    put_event(alloc, memory, known, line, HEADING, kind)
}

/// The control blocks that `blocks` lists of the events that a reader still gives: each as its first frame shows it, in the order
/// of the lines `block`. Where the input has a fault, those before it.
///
/// # Errors
///
/// `AllocError` where memory is refused.
pub fn find_blocks<
    A: Allocator + Copy,
    F: InputFault + Drop,
    I: ReadItems<A, Item = Event<A>, Fault = F>,
>(alloc: A, events: &mut I) -> Result<FoundBlocks<A>, AllocError>
    ensures { IfOk result (λ found. FindsOver (reader_of I.answers I.number F.refused F.failed) events.old events.new found.listed.items found.blocks.items) }
{
    let mut memory = FrameMemory::new(alloc);
    let mut known = Runs::new(alloc);
    let mut found = FoundBlocks {
        listed: Vec::new(alloc),
        blocks: Vec::new(alloc),
    };
    let mut line = Vec::new(alloc);
    let mut spare = None;
    'answers: loop {
        match events.read_item(alloc, &mut spare) {
            Ok(Some(event)) => {
                note_event(
                    alloc,
                    &mut memory,
                    &mut known,
                    &mut found,
                    &mut line,
                    &event.kind,
                )?;
                spare = Some(event);
            }
            Ok(None) => return Ok(found),
            Err(ReadError::Fault(_)) => return Ok(found),
            Err(ReadError::Memory(error)) => return Err(error),
        }
    }
}
