//! The positions of the blocks that take simulated frames, so that the mode set off looks at no other block.

ghost use Rattle.std.specs.Prelude.{◌≡◌, ◌+◌, [], List, Some, true, false, IfOk, OnOk, OnErr, IsOk, IfSome, IfNone, length, slice_get, slice_set};
ghost use Rattle.subscribe_core.specs.declared.registers.Register.{Register as SpecRegister};
ghost use Rattle.subscribe_core.specs.computed.Flagged.{AreFlagged, flag_at, switched_at};
ghost use Rattle.subscribe_core.specs.computed.Indexed.{flagged_entries};

use crate::entry::PlainEntry;
use crate::entry_sink::EntrySink;
use std::alloc::{AllocError, Allocator};

/// The positions of the blocks that take simulated frames, each once, in no order: they are put in order where they are listed.
#[derive(Drop)]
pub struct Flagged<A: Allocator> {
    positions: Vec<usize, A>,
}

impl<A: Allocator + Copy> Flagged<A> {
    // Those where no block takes simulated frames.
    pub(crate) fn new(alloc: A) -> Flagged<A>
        ensures { result.positions.items ≡ [] }
    {
        Flagged {
            positions: Vec::new(alloc),
        }
    }

    // Puts in the position of a block that takes real frames.
    pub(crate) fn add(&mut self, at: usize) -> Result<(), AllocError>
        ensures added { OnOk result ((registers : List SpecRegister) (old new : SpecRegister) → slice_get registers at ≡ Some old → old.takes_simulated ≡ false → new.takes_simulated ≡ true
            → AreFlagged self.old.positions.items registers → AreFlagged self.new.positions.items (slice_set registers at new)) }
        ensures err { OnErr result (self.new.positions.items ≡ self.old.positions.items) }
    {
        self.positions.push(at)?;
        Ok(())
    }

    // Hands over an entry for each block that takes simulated frames, in their order.
    pub(crate) fn list<E: EntrySink<A>>(&mut self, entries: &mut E) -> Result<(), AllocError>
        ensures entries { (registers : List SpecRegister) → AreFlagged self.old.positions.items registers → OnOk result (E.gets entries.old (flagged_entries 0 registers) entries.new) }
        ensures quiet { (registers : List SpecRegister) → AreFlagged self.old.positions.items registers → flagged_entries {A = A} 0 registers ≡ [] → IsOk result }
        ensures flagged { (registers : List SpecRegister) → AreFlagged self.old.positions.items registers → AreFlagged self.new.positions.items registers }
        ensures grown { E.grows entries.old entries.new }
    {
        self.positions.sort_unstable();
        put_switched(&self.positions, entries)
    }

    // Takes out a position, if there is one.
    pub(crate) fn take_one(&mut self) -> Option<usize>
        ensures flagged { IfSome result (λ at. (registers : List SpecRegister) → AreFlagged self.old.positions.items registers → flag_at registers at ≡ true) }
        ensures taken { IfSome result (λ at. (registers : List SpecRegister) (new : SpecRegister) → new.takes_simulated ≡ false
            → AreFlagged self.old.positions.items registers → AreFlagged self.new.positions.items (slice_set registers at new)) }
        ensures fewer { IfSome result (λ at. length self.new.positions.items + 1 ≡ length self.old.positions.items) }
        ensures none { IfNone result (self.old.positions.items ≡ []) }
        ensures unchanged { IfNone result (self.new.positions.items ≡ self.old.positions.items) }
    {
        self.positions.pop()
    }
}

// Hands over an entry for each of the blocks at these positions, which go over to simulated frames or back.
fn put_switched<A: Allocator + Copy, E: EntrySink<A>>(
    positions: &[usize],
    entries: &mut E,
) -> Result<(), AllocError>
    ensures entries { OnOk result (E.gets entries.old (switched_at positions.now) entries.new) }
    ensures quiet { positions.now ≡ [] → IsOk result }
    ensures grown { E.grows entries.old entries.new }
{
    for at in positions {
        entries.put_entry(PlainEntry::Switched { block: *at })?;
    }
    Ok(())
}
