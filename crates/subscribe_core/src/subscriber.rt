//! The subscriber: one event at a time.

ghost use Rattle.std.specs.Prelude.{◌≡◌, ◌<◌, ◌≤◌, ◌+◌, ◌∷◌, ◌++◌, [], List, IfOk, OnOk, OnErr, IfErr, IsOk, length, vec_capacity};
ghost use Rattle.subscribe_core.specs.computed.Content.{reading_of};
ghost use Rattle.subscribe_core.specs.Entries.{AreEntriesAt};
ghost use Rattle.subscribe_core.specs.declared.entry.Entry.{Entry as SpecEntry};
ghost use Rattle.subscribe_core.specs.Changes.{changes};
ghost use Rattle.subscribe_core.specs.Looks.{expired_count, other_reaches};
ghost use Rattle.subscribe_core.specs.Faults.{IsFaultOf};
ghost use Rattle.subscribe_core.specs.Apart.{AreApart};
ghost use Rattle.subscribe_core.specs.State.{StandsAfter, fresh_state};
ghost use Rattle.subscribe_core.specs.computed.Steps.{step_entries, step_state};
ghost use Rattle.list_core.specs.declared.event.Event.{Event as SpecEvent};

use crate::entry::Entry;
use crate::entry_sink::EntrySink;
use crate::fault::SubscribeFault;
use crate::keeping::Keeper;
use block_core::Block;
use list_core::Event;
use repeat_core::{FrameMemory, Nothing};
use std::alloc::{AllocError, Allocator};
use std::marker::Model;

/// A subscriber of some control blocks of GOOSE.
#[derive(Drop)]
pub struct Subscriber<A: Allocator> {
    keeper: Keeper<A>,
}

impl<A: Allocator> Model for Subscriber<A> {
    ghost use Rattle.subscribe_core.specs.State.{StateAndLooks};

    ghost Value = { StateAndLooks A };

    ghost view = { λ s. record { state = s.keeper.state; looks = s.keeper.looks } };
}

impl<A: Allocator + Copy> Subscriber<A> {
    /// A subscriber of these blocks, none of which holds anything.
    ///
    /// # Errors
    ///
    /// `SameBlockTwice` with the least position of a block that has the APPID and the gocbRef of an earlier one; `Memory`
    /// where memory is refused. Without blocks none is asked for.
    pub fn new(alloc: A, blocks: Vec<Block<A>, A>) -> Result<Subscriber<A>, SubscribeFault>
        // Every block is idle and takes real frames; the mode is off.
        ensures fresh { IfOk result (λ s. s.state ≡ fresh_state blocks.items) }
        ensures stands { IfOk result (λ s. StandsAfter [] s.state) }
        ensures looks { IfOk result (λ s. s.looks ≡ 0) }

        // No two blocks have one name, and else the first that has an earlier one's name is told.
        ensures apart { OnOk result (AreApart blocks.items) }
        ensures fault { IfErr result (λ e. IsFaultOf blocks.items e) }
    {
        match Subscriber::of_blocks(alloc, blocks) {
            Ok(subscriber) => Ok(subscriber),
            Err((fault, _blocks)) => Err(fault),
        }
    }

    /// As `new`, and hands the blocks back where there is no subscriber of them.
    ///
    /// # Errors
    ///
    /// As those of `new`, with the blocks.
    pub fn of_blocks(
        alloc: A,
        blocks: Vec<Block<A>, A>,
    ) -> Result<Subscriber<A>, (SubscribeFault, Vec<Block<A>, A>)>
        // Every block is idle and takes real frames; the mode is off.
        ensures fresh { IfOk result (λ s. s.state ≡ fresh_state blocks.items) }
        ensures stands { IfOk result (λ s. StandsAfter [] s.state) }
        ensures looks { IfOk result (λ s. s.looks ≡ 0) }

        // No two blocks have one name, and else the first that has an earlier one's name is told.
        ensures apart { OnOk result (AreApart blocks.items) }
        ensures fault { IfErr result (λ e. IsFaultOf blocks.items e.0) }
        ensures back { IfErr result (λ e. e.1.items ≡ blocks.items) }
    {
        match Keeper::new(alloc, blocks) {
            Ok(keeper) => Ok(Subscriber { keeper }),
            Err(refused) => Err(refused),
        }
    }

    /// The blocks, in their order.
    pub fn blocks(&self) -> &[Block<A>]
        ensures { result.now ≡ self.now.state.blocks }
    {
        self.keeper.blocks()
    }

    /// How often the last `take`, `take_into` or `take_into_over` that answered Ok reached a block or its register, 0 before the first.
    pub fn looks(&self) -> u64
        ensures { result ≡ self.now.looks }
    {
        self.keeper.looks()
    }

    /// Takes one event, and says what it means for each block: first an `Expired` entry for each block whose lifetime is over
    /// at the greatest moment so far, the event's own included, then a `Switched` entry for each block that goes over to
    /// simulated frames or back, then one entry for a frame.
    ///
    /// # Errors
    ///
    /// `AllocError` where memory is refused. The subscriber is then as it was. A clock or mode event that gives no entry asks
    /// for no memory.
    pub fn take(&mut self, event: &Event<A>) -> Result<Vec<Entry<A>, A>, AllocError>
        // For every list of events after which the subscriber stands, the answer is the entries that the list with this event
        // has at it, and the subscriber then stands after that list.
        ensures entries { (events : List (SpecEvent A)) → StandsAfter events self.old.state →
            IfOk result (λ entries. AreEntriesAt self.old.state.blocks (events ++ event.now ∷ []) (length events) entries.items) }
        ensures stands { (events : List (SpecEvent A)) → StandsAfter events self.old.state →
            OnOk result (StandsAfter (events ++ event.now ∷ []) self.new.state) }

        // Where memory is refused nothing is changed; where the event has no entry no memory is asked for.
        ensures unchanged { OnErr result (self.new ≡ self.old) }
        ensures quiet { (events : List (SpecEvent A)) → StandsAfter events self.old.state →
            AreEntriesAt self.old.state.blocks (events ++ event.now ∷ []) (length events) [] → IsOk result }

        // How often a block or its register was reached: once for each that expires, twice for that of a frame, and once for each
        // that is switched where the mode is set off.
        ensures looks { IfOk result (λ entries. self.new.looks ≤ expired_count entries.items + other_reaches event.now.kind entries.items) }

        // The blocks stay, and no two have one name.
        ensures blocks { self.new.state.blocks ≡ self.old.state.blocks }
        ensures apart { AreApart self.old.state.blocks }

        // For callers: the same by what is kept.
        ensures step { IfOk result (λ entries. entries.items ≡ step_entries self.old.state (reading_of event.now)) }
        ensures state { OnOk result (self.new.state ≡ step_state self.old.state (reading_of event.now)) }
        ensures quiet_step { step_entries self.old.state (reading_of event.now) ≡ [] → IsOk result }
    {
        let mut entries = Vec::new(self.keeper.alloc());
        self.take_into(event, &mut entries)?;
        Ok(entries)
    }

    /// Takes one event as `take` does, and has a list be its entries. What stood in the list is let go, and its memory is used
    /// again.
    ///
    /// # Errors
    ///
    /// As those of `take`. What the list then holds is not said.
    pub fn take_into(
        &mut self,
        event: &Event<A>,
        entries: &mut Vec<Entry<A>, A>,
    ) -> Result<(), AllocError>
        // For every list of events after which the subscriber stands, the entries are those that the list with this event has at
        // it, and the subscriber then stands after that list.
        ensures entries { (events : List (SpecEvent A)) → StandsAfter events self.old.state →
            OnOk result (AreEntriesAt self.old.state.blocks (events ++ event.now ∷ []) (length events) entries.new.items) }
        ensures stands { (events : List (SpecEvent A)) → StandsAfter events self.old.state →
            OnOk result (StandsAfter (events ++ event.now ∷ []) self.new.state) }

        // Where memory is refused the subscriber is as it was; where the event has no entry no memory is asked for.
        ensures unchanged { OnErr result (self.new ≡ self.old) }
        ensures quiet { (events : List (SpecEvent A)) → StandsAfter events self.old.state →
            AreEntriesAt self.old.state.blocks (events ++ event.now ∷ []) (length events) [] → IsOk result }

        // How often a block or its register was reached: once for each that expires, twice for that of a frame, and once for each
        // that is switched where the mode is set off.
        ensures looks { OnOk result (self.new.looks ≤ expired_count entries.new.items + other_reaches event.now.kind entries.new.items) }

        // The blocks stay, and no two have one name.
        ensures blocks { self.new.state.blocks ≡ self.old.state.blocks }
        ensures apart { AreApart self.old.state.blocks }

        // For callers: the same by what is kept.
        ensures step { OnOk result (entries.new.items ≡ step_entries self.old.state (reading_of event.now)) }
        ensures state { OnOk result (self.new.state ≡ step_state self.old.state (reading_of event.now)) }
        ensures quiet_step { step_entries self.old.state (reading_of event.now) ≡ [] → IsOk result }

        // A list with room for an entry keeps it, and asks for no memory where no entry of the event is a change.
        ensures capacity { vec_capacity entries.old ≤ vec_capacity entries.new }
        ensures quiet_changes { changes (step_entries self.old.state (reading_of event.now)) ≡ [] → 0 < vec_capacity entries.old → IsOk result }
    {
        let mut memory = FrameMemory::without(self.keeper.alloc());
        self.take_into_over(&mut memory, event, entries)
    }

    /// Takes one event as `take_into` does, its frame seen through a memory of frames: one that repeats is not read again.
    ///
    /// # Errors
    ///
    /// As those of `take_into`. The memory of frames takes none that it must have.
    pub fn take_into_over(
        &mut self,
        memory: &mut FrameMemory<A, Nothing>,
        event: &Event<A>,
        entries: &mut Vec<Entry<A>, A>,
    ) -> Result<(), AllocError>
        // For every list of events after which the subscriber stands, the entries are those that the list with this event has at
        // it, and the subscriber then stands after that list.
        ensures entries { (events : List (SpecEvent A)) → StandsAfter events self.old.state →
            OnOk result (AreEntriesAt self.old.state.blocks (events ++ event.now ∷ []) (length events) entries.new.items) }
        ensures stands { (events : List (SpecEvent A)) → StandsAfter events self.old.state →
            OnOk result (StandsAfter (events ++ event.now ∷ []) self.new.state) }

        // Where memory is refused the subscriber is as it was; where the event has no entry no memory is asked for.
        ensures unchanged { OnErr result (self.new ≡ self.old) }
        ensures quiet { (events : List (SpecEvent A)) → StandsAfter events self.old.state →
            AreEntriesAt self.old.state.blocks (events ++ event.now ∷ []) (length events) [] → IsOk result }

        // How often a block or its register was reached: once for each that expires, twice for that of a frame, and once for each
        // that is switched where the mode is set off.
        ensures looks { OnOk result (self.new.looks ≤ expired_count entries.new.items + other_reaches event.now.kind entries.new.items) }

        // The blocks stay, and no two have one name.
        ensures blocks { self.new.state.blocks ≡ self.old.state.blocks }
        ensures apart { AreApart self.old.state.blocks }

        // For callers: the same by what is kept.
        ensures step { OnOk result (entries.new.items ≡ step_entries self.old.state (reading_of event.now)) }
        ensures state { OnOk result (self.new.state ≡ step_state self.old.state (reading_of event.now)) }
        ensures quiet_step { step_entries self.old.state (reading_of event.now) ≡ [] → IsOk result }

        // A list with room for an entry keeps it, and needs no memory where no entry of the event is a change.
        ensures capacity { vec_capacity entries.old ≤ vec_capacity entries.new }
        ensures quiet_changes { changes (step_entries self.old.state (reading_of event.now)) ≡ [] → 0 < vec_capacity entries.old → IsOk result }
    {
        entries.clear();
        self.take_to(memory, event, entries)?;
        Ok(())
    }

    /// Takes one event as `take_into_over` does, and hands its entries to a sink, one after another.
    ///
    /// # Errors
    ///
    /// As those of `take_into`, or where the sink wants memory for an entry and is refused it.
    #[inline(always)]
    pub fn take_to<E: EntrySink<A>>(
        &mut self,
        memory: &mut FrameMemory<A, Nothing>,
        event: &Event<A>,
        entries: &mut E,
    ) -> Result<(), AllocError>
        // For every list of events after which the subscriber stands, the sink is handed the entries that the list with this event
        // has at it, and the subscriber then stands after that list.
        ensures entries { (events : List (SpecEvent A)) → StandsAfter events self.old.state →
            OnOk result ((es : List (SpecEntry A)) × AreEntriesAt self.old.state.blocks (events ++ event.now ∷ []) (length events) es × E.gets entries.old es entries.new) }
        ensures stands { (events : List (SpecEvent A)) → StandsAfter events self.old.state →
            OnOk result (StandsAfter (events ++ event.now ∷ []) self.new.state) }

        // Where memory is refused the subscriber is as it was; where the event has no entry no memory is asked for.
        ensures unchanged { OnErr result (self.new ≡ self.old) }
        ensures quiet { (events : List (SpecEvent A)) → StandsAfter events self.old.state →
            AreEntriesAt self.old.state.blocks (events ++ event.now ∷ []) (length events) [] → IsOk result }

        // How often a block or its register was reached, by the entries.
        ensures looks { OnOk result (let es = step_entries self.old.state (reading_of event.now) in self.new.looks ≤ expired_count es + other_reaches event.now.kind es) }

        // The blocks stay, and no two have one name.
        ensures blocks { self.new.state.blocks ≡ self.old.state.blocks }
        ensures apart { AreApart self.old.state.blocks }

        // For callers: the same by what is kept.
        ensures step { OnOk result (E.gets entries.old (step_entries self.old.state (reading_of event.now)) entries.new) }
        ensures state { OnOk result (self.new.state ≡ step_state self.old.state (reading_of event.now)) }
        ensures quiet_step { step_entries self.old.state (reading_of event.now) ≡ [] → IsOk result }

        // The sink was handed entries, and has room for one that is no change where it had.
        ensures grown { E.grows entries.old entries.new }
        ensures quiet_changes { changes (step_entries self.old.state (reading_of event.now)) ≡ [] → E.has_room entries.old → IsOk result }
    {
        self.keeper.step(memory, event, entries)
    }
}
