//! What is kept of the control block of a frame that is held: what is known of it once it was told, so that frames which repeat that
//! are told by it.

ghost use Rattle.std.specs.Prelude.{◌≡◌, ℕ, List, [], ◌∷◌, IfOk, Some, true};
ghost use Rattle.inventory_engine.specs.Sightings.{Sighting, block_text, key_of};
ghost use Rattle.inventory_engine.specs.BlocksText.{Telling};
ghost use Rattle.inventory_engine.specs.computed.BlocksStep.{AppendsLines};
ghost use Rattle.inventory_engine.specs.computed.KeptBlock.{IsShown, shown_once};
ghost use Rattle.inventory_engine.specs.computed.KnownTexts.{known_key, known_text};
ghost use Rattle.inventory_engine.specs.computed.ShownFields.{configuration_shown};

use crate::block_text::{ShownBlock, block_pieces, block_shown, has_fields, named_pieces};
use crate::inventory::{Inventory, Sought};
use crate::known::Known;
use frame_core::ApduView;
use known_core::Place;
use repeat_core::{Beside, FrameMemory};
use std::alloc::{AllocError, Allocator};
use std::cell::Cell;

/// The control block of a frame, and where it was found last among those that are known: a wrong guess costs a look-up.
#[derive(Drop)]
pub struct KeptBlock<A: Allocator> {
    block: Known<A>,
    place: Cell<Place>,
}

impl<A: Allocator> Beside for KeptBlock<A> {
    ghost suits = { λ k f. IsShown f (known_key k.block) (known_text k.block) };

    ghost suits_once = { λ k f. shown_once f (known_key k.block) (known_text k.block) };
}

impl<A: Allocator + Copy> KeptBlock<A> {
    /// Whether the control block is known with this text. Inlined, since nearly every frame asks it.
    #[inline(always)]
    pub fn is_known(&self, known: &Inventory<A>) -> bool
        ensures { (how : Telling) (s : Sighting) (line : List ℕ) → result ≡ true → key_of s ≡ known_key self.now.block → s.text ≡ known_text self.now.block → AppendsLines how (s ∷ []) known.now known.now line line }
    {
        match known.get_if(self.place.get()) {
            Some(one) if one.is_same(&self.block) => true,
            _ => self.is_found(known),
        }
    }

    // The same where it is looked for. A call of its own, since it seldom stands elsewhere than before.
    #[cold]
    #[inline(never)]
    fn is_found(&self, known: &Inventory<A>) -> bool
        ensures { (how : Telling) (s : Sighting) (line : List ℕ) → result ≡ true → key_of s ≡ known_key self.now.block → s.text ≡ known_text self.now.block → AppendsLines how (s ∷ []) known.now known.now line line }
    {
        self.place.set(place_of(known, &self.block));
        match known.get_if(self.place.get()) {
            Some(one) => one.is_same(&self.block),
            None => false,
        }
    }
}

// Where a control block stands among those that are known, or would stand.
fn place_of<A: Allocator + Copy>(known: &Inventory<A>, block: &Known<A>) -> Place {
    let sought = Sought {
        app_id: block.app_id,
        name: block.name(),
    };
    match known.place_of(&sought) {
        Ok(place) => place,
        Err(place) => place,
    }
}

// What is known of a control block once it was told.
fn known_block<A: Allocator>(alloc: A, block: &ShownBlock<'_>) -> Result<Known<A>, AllocError>
    ensures key { IfOk result (λ one. known_key one ≡ (Some block.now.app_id, block.now.gocb_ref.now)) }
    ensures text { IfOk result (λ one. known_text one ≡ block_text (configuration_shown block.now)) }
{
    let app_id = Some(block.app_id);
    if has_fields(block) {
        Known::new(alloc, app_id, block.gocb_ref, &block_pieces(block), 0)
    } else {
        Known::new(alloc, app_id, block.gocb_ref, &named_pieces(block), 0)
    }
}

/// Keeps the control block of the frame in these octets, where it is held and there is memory for it.
#[cold]
#[inline(never)]
pub fn keep_block<A: Allocator + Copy>(
    alloc: A,
    memory: &mut FrameMemory<A, KeptBlock<A>>,
    known: &Inventory<A>,
    octets: &[u8],
) {
    let Some(again) = memory.alike(octets) else {
        return;
    };
    let frame = again.frame(octets);
    let ApduView::Goose(goose) = &frame.apdu else {
        return;
    };
    if let Ok(block) = known_block(alloc, &block_shown(frame.app_id, goose)) {
        let place = Cell::new(place_of(known, &block));
        memory.keep(octets, KeptBlock { block, place });
    }
}
