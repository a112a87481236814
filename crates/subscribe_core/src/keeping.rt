//! What a subscriber keeps, and one event at it: blocks are found by name and by deadline, and each reach is counted.

ghost use Rattle.std.specs.Prelude.{◌≡◌, ◌<◌, ◌≤◌, ◌+◌, ◌-◌, ◌++◌, [], ℕ, true, false, ◌⊎◌, None, Some, IfOk, OnOk, OnErr, IfErr, IsOk, length, max, position, replicate, slice_get, slice_set, vec_capacity};
ghost use Rattle.subscribe_core.specs.computed.Content.{content_by, content_of, reading_of};
ghost use Rattle.subscribe_core.specs.computed.Deadlines.{due_count, helds};
ghost use Rattle.subscribe_core.specs.Changes.{changes};
ghost use Rattle.subscribe_core.specs.Looks.{expired_count, other_reaches, switched_count};
ghost use Rattle.subscribe_core.specs.computed.Flagged.{flagged_count};
ghost use Rattle.subscribe_core.specs.Faults.{IsFaultOf};
ghost use Rattle.subscribe_core.specs.computed.Indexed.{registers_after_clock, flagged_entries, switched_off};
ghost use Rattle.subscribe_core.specs.Matching.{is_of};
ghost use Rattle.subscribe_core.specs.EventsRead.{OfGoose, OfMode};
ghost use Rattle.subscribe_core.specs.computed.PrivateCalls.{IsFrame};
ghost use Rattle.subscribe_core.specs.computed.Received.{received_frame};
ghost use Rattle.subscribe_core.specs.Simulation.{mode_by};
ghost use Rattle.subscribe_core.specs.Apart.{AreApart};
ghost use Rattle.subscribe_core.specs.State.{fresh_state, idle};
ghost use Rattle.subscribe_core.specs.computed.Steps.{expired_entries, said_of, step_entries, step_state, switched_entries, registers_by};
ghost use Rattle.frame_core.specs.computed.FrameReading.{frame_at};
ghost use Rattle.subscribe_core.specs.declared.registers.Register.{Register as SpecRegister};

use crate::answering::{is_switching, put_good};
use crate::deadlines::Deadlines;
use crate::entry::PlainEntry;
use crate::entry_sink::EntrySink;
use crate::fault::SubscribeFault;
use crate::flagged::Flagged;
use crate::guesses::Guesses;
use crate::matching::{Received, first_reason, is_other_kind};
use crate::names::{self, Name};
use crate::registers::{LiveState, Register};
use crate::rows::{Reach, Rows};
use crate::twice::{fault_of, first_twice_of_few};
use block_core::Block;
use frame_core::ApduView;
use list_core::{Event, EventKind};
use repeat_core::{FrameMemory, Nothing};
use std::alloc::{AllocError, Allocator};
use std::marker::Model;

/// What a subscriber keeps, and how often the last event that was answered Ok reached a block or its register.
#[derive(Drop)]
pub struct Keeper<A: Allocator> {
    alloc: A,
    rows: Rows<A>,
    names: Vec<Name<A>, A>,
    deadlines: Deadlines<A>,
    flagged: Flagged<A>,
    guesses: Guesses,
    mode: bool,
    moment: u64,
    looks: u64,
}

impl<A: Allocator> Model for Keeper<A> {
    ghost use Rattle.subscribe_core.specs.computed.PrivateCalls.{StateAndReaches};
    ghost use Rattle.subscribe_core.specs.computed.Indexed.{IsIndexed};

    ghost Value = { StateAndReaches A };

    ghost view = { λ s. record { state = record { blocks = s.rows.blocks.items; registers = s.rows.registers.items; mode = s.mode; moment = s.moment }; looks = s.looks; reaches = s.rows.reaches } };

    ghost invariant = { λ s. IsIndexed s.rows.blocks.items s.rows.registers.items s.names.items s.deadlines s.flagged.positions.items };
}

// Registers that hold nothing.
fn idle_registers<A: Allocator>(alloc: A, count: usize) -> Result<Vec<Register, A>, AllocError>
    ensures registers { IfOk result (λ registers. registers.items ≡ replicate count idle) }
    ensures quiet { count ≡ 0 → IsOk result }
{
    let mut registers = Vec::new(alloc);
    registers.resize(
        count,
        Register {
            held: None,
            takes_simulated: false,
        },
    )?;
    Ok(registers)
}

impl<A: Allocator + Copy> Keeper<A> {
    // What a subscriber of these blocks keeps before any event; or why there is none, and the blocks.
    pub(crate) fn new(
        alloc: A,
        blocks: Vec<Block<A>, A>,
    ) -> Result<Keeper<A>, (SubscribeFault, Vec<Block<A>, A>)>
        ensures fresh { IfOk result (λ s. s.state ≡ fresh_state blocks.items) }
        ensures looks { IfOk result (λ s. s.looks ≡ 0) }
        ensures apart { OnOk result (AreApart blocks.items) }
        ensures fault { IfErr result (λ e. IsFaultOf blocks.items e.0) }
        ensures back { IfErr result (λ e. e.1.items ≡ blocks.items) }
    {
        if let Some(i) = first_twice_of_few(&blocks) {
            return Err((SubscribeFault::SameBlockTwice(i), blocks));
        }
        let registers = match idle_registers(alloc, blocks.len()) {
            Ok(registers) => registers,
            Err(refused) => return Err((fault_of(&blocks, refused), blocks)),
        };
        let names = match names::sorted(alloc, &blocks) {
            Ok(names) => names,
            Err(refused) => return Err((fault_of(&blocks, refused), blocks)),
        };
        if let Some(i) = names::first_twice(&names) {
            return Err((SubscribeFault::SameBlockTwice(i), blocks));
        }
        let deadlines = match Deadlines::new(alloc, blocks.len()) {
            Ok(deadlines) => deadlines,
            Err(refused) => return Err((SubscribeFault::Memory(refused), blocks)),
        };
        Ok(Keeper {
            alloc,
            rows: Rows::new(blocks, registers),
            names,
            deadlines,
            flagged: Flagged::new(alloc),
            guesses: Guesses::new(),
            mode: false,
            moment: 0,
            looks: 0,
        })
    }

    // The blocks.
    pub(crate) fn blocks(&self) -> &[Block<A>]
        ensures { result.now ≡ self.now.state.blocks }
    {
        self.rows.blocks()
    }

    // How often the last event that was answered Ok reached a block or its register, 0 before the first.
    pub(crate) fn looks(&self) -> u64
        ensures { result ≡ self.now.looks }
    {
        self.looks
    }

    // The simulation mode.
    fn is_simulating(&self) -> bool
        ensures { result ≡ self.now.state.mode }
    {
        self.mode
    }

    // The position of the frame's block.
    #[inline(always)]
    fn position_of(&mut self, frame: &Received<'_>) -> Option<usize>
        ensures found { result ≡ position (is_of (received_frame frame.now)) self.old.state.blocks }
        ensures sizes { length self.old.state.registers ≡ length self.old.state.blocks }
        ensures apart { AreApart self.old.state.blocks }
        ensures unchanged { self.new ≡ self.old }
    {
        let guesses = &mut self.guesses;
        names::position_named(&self.names, guesses, frame.app_id, frame.goose.gocb_ref)
    }

    // Reaches for the block at a position.
    fn reach(&mut self, at: usize) -> Reach
        ensures at { result.at ≡ at }
        ensures state { self.new.state ≡ self.old.state }
        ensures looks { self.new.looks ≡ self.old.looks }
        ensures count { self.new.reaches ≤ self.old.reaches + 1 }
    {
        self.rows.reach(at)
    }

    // The block that was reached for, and its register.
    fn look(&self, reach: Reach) -> (&Block<A>, Register)
        requires { reach.at < length self.now.state.blocks }
        ensures block { slice_get self.now.state.blocks reach.at ≡ Some result.0.now }
        ensures register { slice_get self.now.state.registers reach.at ≡ Some result.1 }
    {
        self.rows.look(reach)
    }

    // Hands over an entry for each block that expires at the moment, in their order.
    fn list_expired<E: EntrySink<A>>(&self, now: u64, entries: &mut E) -> Result<(), AllocError>
        ensures entries { OnOk result (E.gets entries.old (expired_entries now 0 self.now.state.registers) entries.new) }
        ensures quiet { expired_entries {A = A} now 0 self.now.state.registers ≡ [] → IsOk result }
        ensures grown { E.grows entries.old entries.new }
    {
        self.deadlines.list_due(now, entries)
    }

    // Lets go of what is over at the moment.
    fn expire(&mut self, now: u64)
        ensures registers { self.new.state.registers ≡ registers_after_clock now self.old.state.registers }
        ensures blocks { self.new.state.blocks ≡ self.old.state.blocks }
        ensures mode { self.new.state.mode ≡ self.old.state.mode }
        ensures moment { self.new.state.moment ≡ self.old.state.moment }
        ensures count { self.new.reaches ≤ self.old.reaches + due_count now (helds self.old.state.registers) }
    {
        while let Some(at) = self.deadlines.take_due(now) {
            self.rows.let_go(at);
        }
    }

    // Has a block hold something in place of what it held.
    #[inline(always)]
    fn hold(&mut self, at: usize, held: LiveState)
        requires within { at < length self.old.state.registers }
        requires live { 0 < held.deadline }
        ensures registers { (r : SpecRegister) → slice_get self.old.state.registers at ≡ Some r → self.new.state.registers ≡ slice_set self.old.state.registers at (record { held = Some held; takes_simulated = r.takes_simulated }) }
        ensures blocks { self.new.state.blocks ≡ self.old.state.blocks }
        ensures mode { self.new.state.mode ≡ self.old.state.mode }
        ensures moment { self.new.state.moment ≡ self.old.state.moment }
        ensures count { self.new.reaches ≤ self.old.reaches + 1 }
    {
        self.deadlines.renew(at, held.deadline);
        self.rows.hold(at, held);
    }

    // Has a block that takes real frames take simulated ones, and hold something in place of what it held.
    fn switch_on(&mut self, at: usize, held: LiveState) -> Result<(), AllocError>
        requires real { (r : SpecRegister) × (slice_get self.old.state.registers at ≡ Some r) × (r.takes_simulated ≡ false) }
        requires live { 0 < held.deadline }
        ensures registers { OnOk result (self.new.state.registers ≡ slice_set self.old.state.registers at (record { held = Some held; takes_simulated = true })) }
        ensures blocks { self.new.state.blocks ≡ self.old.state.blocks }
        ensures mode { self.new.state.mode ≡ self.old.state.mode }
        ensures moment { self.new.state.moment ≡ self.old.state.moment }
        ensures count { OnOk result (self.new.reaches ≤ self.old.reaches + 1) }
        ensures err { OnErr result (self.new ≡ self.old) }
    {
        self.flagged.add(at)?;
        self.deadlines.renew(at, held.deadline);
        self.rows.write(
            at,
            Register {
                held: Some(held),
                takes_simulated: true,
            },
        );
        Ok(())
    }

    // The allocator of the subscriber.
    pub(crate) fn alloc(&self) -> A
        ensures { length self.now.state.registers ≡ length self.now.state.blocks }
    {
        self.alloc
    }

    // There is a register for each block; nothing is computed.
    fn know_sizes(&self)
        ensures { length self.now.state.registers ≡ length self.now.state.blocks }
    {
        let _ = self.alloc();
    }

    // Takes a frame of GOOSE: its entries, and what its block then holds. Inlined where the memory has the frame, so that nothing of it
    // is moved that is not looked at.
    #[inline(always)]
    fn take_goose<E: EntrySink<A>>(
        &mut self,
        now: u64,
        frame: &Received<'_>,
        entries: &mut E,
    ) -> Result<(), AllocError>
        ensures entries { OnOk result (E.gets entries.old (switched_entries self.old.state.mode (OfGoose (received_frame frame.now)) 0 self.old.state.blocks self.old.state.registers
            ++ said_of now self.old.state.mode self.old.state.blocks self.old.state.registers (OfGoose (received_frame frame.now))) entries.new) }
        ensures registers { OnOk result (registers_after_clock now self.new.state.registers ≡ registers_by now self.old.state.mode (OfGoose (received_frame frame.now)) self.old.state.blocks self.old.state.registers) }
        ensures blocks { OnOk result (self.new.state.blocks ≡ self.old.state.blocks) }
        ensures mode { OnOk result (self.new.state.mode ≡ self.old.state.mode) }
        ensures moment { OnOk result (self.new.state.moment ≡ self.old.state.moment) }
        ensures count { OnOk result (self.new.reaches + due_count now (helds self.new.state.registers)
            ≤ self.old.reaches + due_count now (helds self.old.state.registers) + 2) }
        ensures err { OnErr result (self.new.state ≡ self.old.state) }
        ensures err_looks { OnErr result (self.new.looks ≡ self.old.looks) }
        ensures grown { E.grows entries.old entries.new }
        ensures room { changes (switched_entries {A = A} self.old.state.mode (OfGoose (received_frame frame.now)) 0 self.old.state.blocks self.old.state.registers
            ++ said_of now self.old.state.mode self.old.state.blocks self.old.state.registers (OfGoose (received_frame frame.now))) ≡ [] → E.has_room entries.old → IsOk result }
    {
        let Some(at) = self.position_of(frame) else {
            entries.put_entry(PlainEntry::NotSubscribed)?;
            return Ok(());
        };
        let alloc = self.alloc();
        let mode = self.is_simulating();
        let reach = self.reach(at);
        let (block, old) = self.look(reach);
        let is_other_kind = is_other_kind(frame, mode, old.takes_simulated);
        if let Some(reason) = first_reason(block, frame, is_other_kind) {
            entries.put_entry(PlainEntry::Refused { block: at, reason })?;
            return Ok(());
        }
        match put_good(alloc, at, now, &old, frame, entries)? {
            None => Ok(()),
            Some(held) => {
                if is_switching(&old, frame) {
                    self.switch_on(at, held)?;
                    return Ok(());
                }
                self.hold(at, held);
                Ok(())
            }
        }
    }

    // Takes the octets of a frame, which may be faulty, and is seen through a memory of frames.
    fn take_octets<E: EntrySink<A>>(
        &mut self,
        memory: &mut FrameMemory<A, Nothing>,
        now: u64,
        octets: &[u8],
        entries: &mut E,
    ) -> Result<(), AllocError>
        ensures entries { OnOk result (E.gets entries.old (switched_entries self.old.state.mode (content_by (frame_at octets.now)) 0 self.old.state.blocks self.old.state.registers
            ++ said_of now self.old.state.mode self.old.state.blocks self.old.state.registers (content_by (frame_at octets.now))) entries.new) }
        ensures registers { OnOk result (registers_after_clock now self.new.state.registers ≡ registers_by now self.old.state.mode (content_by (frame_at octets.now)) self.old.state.blocks self.old.state.registers) }
        ensures blocks { OnOk result (self.new.state.blocks ≡ self.old.state.blocks) }
        ensures mode { OnOk result (self.new.state.mode ≡ mode_by (content_by (frame_at octets.now)) self.old.state.mode) }
        ensures moment { OnOk result (self.new.state.moment ≡ self.old.state.moment) }
        ensures count { OnOk result (self.new.reaches + due_count now (helds self.new.state.registers)
            ≤ self.old.reaches + due_count now (helds self.old.state.registers) + 2) }
        ensures err { OnErr result (self.new.state ≡ self.old.state) }
        ensures err_looks { OnErr result (self.new.looks ≡ self.old.looks) }
        ensures grown { E.grows entries.old entries.new }
        ensures room { changes (switched_entries {A = A} self.old.state.mode (content_by (frame_at octets.now)) 0 self.old.state.blocks self.old.state.registers
            ++ said_of now self.old.state.mode self.old.state.blocks self.old.state.registers (content_by (frame_at octets.now))) ≡ [] → E.has_room entries.old → IsOk result }
    {
        self.know_sizes();
        if let Some(again) = memory.alike(octets) {
            let view = again.frame(octets);
            if let ApduView::Goose(goose) = view.apdu {
                let frame = Received {
                    app_id: view.app_id,
                    goose,
                };
                return self.take_goose(now, &frame, entries);
            }
        }
        match memory.view(octets) {
            Err(fault) => {
                entries.put_entry(PlainEntry::Faulty(fault))?;
                Ok(())
            }
            Ok(view) => match view.apdu {
                ApduView::Sampled(_) => {
                    entries.put_entry(PlainEntry::Sampled)?;
                    Ok(())
                }
                ApduView::Goose(goose) => {
                    let frame = Received {
                        app_id: view.app_id,
                        goose,
                    };
                    self.take_goose(now, &frame, entries)
                }
            },
        }
    }

    // Hands over an entry for each block that takes simulated frames.
    fn list_switched<E: EntrySink<A>>(&mut self, entries: &mut E) -> Result<(), AllocError>
        ensures entries { OnOk result (E.gets entries.old (flagged_entries 0 self.old.state.registers) entries.new) }
        ensures quiet { flagged_entries {A = A} 0 self.old.state.registers ≡ [] → IsOk result }
        ensures sizes { length self.old.state.registers ≡ length self.old.state.blocks }
        ensures unchanged { self.new ≡ self.old }
        ensures grown { E.grows entries.old entries.new }
    {
        self.flagged.list(entries)
    }

    // Has no block take simulated frames. Those that did let go of what they hold; no other is reached.
    fn switch_off(&mut self)
        ensures registers { self.new.state.registers ≡ switched_off self.old.state.registers }
        ensures blocks { self.new.state.blocks ≡ self.old.state.blocks }
        ensures mode { self.new.state.mode ≡ self.old.state.mode }
        ensures moment { self.new.state.moment ≡ self.old.state.moment }
        ensures count { self.new.reaches ≤ self.old.reaches + flagged_count self.old.state.registers }
    {
        while let Some(at) = self.flagged.take_one() {
            self.deadlines.let_go(at);
            let idle = Register {
                held: None,
                takes_simulated: false,
            };
            self.rows.write(at, idle);
        }
    }

    // Sets the mode alone.
    fn set_mode(&mut self, on: bool)
        ensures registers { self.new.state.registers ≡ self.old.state.registers }
        ensures blocks { self.new.state.blocks ≡ self.old.state.blocks }
        ensures mode { self.new.state.mode ≡ on }
        ensures moment { self.new.state.moment ≡ self.old.state.moment }
        ensures sizes { length self.new.state.registers ≡ length self.new.state.blocks }
        ensures reaches { self.new.reaches ≡ self.old.reaches }
    {
        self.mode = on;
    }

    // Takes a mode event: blocks that take simulated frames are switched where the mode is set off.
    fn take_mode<E: EntrySink<A>>(&mut self, on: bool, entries: &mut E) -> Result<(), AllocError>
        ensures entries { OnOk result (E.gets entries.old (switched_entries self.old.state.mode (OfMode on) 0 self.old.state.blocks self.old.state.registers) entries.new) }
        ensures registers { OnOk result ((now : ℕ) → registers_after_clock now self.new.state.registers ≡ registers_by now self.old.state.mode (OfMode on) self.old.state.blocks self.old.state.registers) }
        ensures blocks { OnOk result (self.new.state.blocks ≡ self.old.state.blocks) }
        ensures mode { OnOk result (self.new.state.mode ≡ on) }
        ensures moment { OnOk result (self.new.state.moment ≡ self.old.state.moment) }
        ensures count { OnOk result ((now : ℕ) → self.new.reaches + due_count now (helds self.new.state.registers)
            ≤ self.old.reaches + due_count now (helds self.old.state.registers) + switched_count (switched_entries {A = A} self.old.state.mode (OfMode on) 0 self.old.state.blocks self.old.state.registers)) }
        ensures quiet { switched_entries self.old.state.mode (OfMode on) 0 self.old.state.blocks self.old.state.registers ≡ [] → IsOk result }
        ensures err { OnErr result (self.new.state ≡ self.old.state) }
        ensures err_looks { OnErr result (self.new.looks ≡ self.old.looks) }
        ensures grown { E.grows entries.old entries.new }
    {
        if on {
            self.set_mode(true);
            return Ok(());
        }
        self.list_switched(entries)?;
        self.switch_off();
        self.set_mode(false);
        Ok(())
    }

    // Takes what happened: the entries after the expiries, and what the blocks then hold.
    fn take_kind<E: EntrySink<A>>(
        &mut self,
        memory: &mut FrameMemory<A, Nothing>,
        now: u64,
        kind: &EventKind<A>,
        entries: &mut E,
    ) -> Result<(), AllocError>
        ensures entries { OnOk result (E.gets entries.old (switched_entries self.old.state.mode (content_of kind.now) 0 self.old.state.blocks self.old.state.registers ++ said_of now self.old.state.mode self.old.state.blocks self.old.state.registers (content_of kind.now)) entries.new) }
        ensures registers { OnOk result (registers_after_clock now self.new.state.registers ≡ registers_by now self.old.state.mode (content_of kind.now) self.old.state.blocks self.old.state.registers) }
        ensures blocks { OnOk result (self.new.state.blocks ≡ self.old.state.blocks) }
        ensures mode { OnOk result (self.new.state.mode ≡ mode_by (content_of kind.now) self.old.state.mode) }
        ensures moment { OnOk result (self.new.state.moment ≡ self.old.state.moment) }
        ensures count { OnOk result (self.new.reaches + due_count now (helds self.new.state.registers)
            ≤ self.old.reaches + due_count now (helds self.old.state.registers) + other_reaches kind.now (switched_entries self.old.state.mode (content_of kind.now) 0 self.old.state.blocks self.old.state.registers)) }
        ensures quiet { IsFrame kind.now ⊎ (switched_entries self.old.state.mode (content_of kind.now) 0 self.old.state.blocks self.old.state.registers ≡ [] → IsOk result) }
        ensures err { OnErr result (self.new.state ≡ self.old.state) }
        ensures err_looks { OnErr result (self.new.looks ≡ self.old.looks) }
        ensures grown { E.grows entries.old entries.new }
        ensures room { changes (switched_entries self.old.state.mode (content_of kind.now) 0 self.old.state.blocks self.old.state.registers
            ++ said_of now self.old.state.mode self.old.state.blocks self.old.state.registers (content_of kind.now)) ≡ [] → E.has_room entries.old → IsOk result }
    {
        self.know_sizes();
        match kind {
            EventKind::Frame(octets) => self.take_octets(memory, now, octets.as_slice(), entries),
            EventKind::Clock => Ok(()),
            EventKind::Mode(on) => self.take_mode(*on, entries),
        }
    }

    // Takes one event, by what is kept, and hands over its entries.
    fn take_counted<E: EntrySink<A>>(
        &mut self,
        memory: &mut FrameMemory<A, Nothing>,
        event: &Event<A>,
        entries: &mut E,
    ) -> Result<(), AllocError>
        ensures entries { OnOk result (E.gets entries.old (step_entries self.old.state (reading_of event.now)) entries.new) }
        ensures state { OnOk result (self.new.state ≡ step_state self.old.state (reading_of event.now)) }
        ensures err { OnErr result (self.new.state ≡ self.old.state) }
        ensures err_looks { OnErr result (self.new.looks ≡ self.old.looks) }
        ensures quiet { IsFrame event.now.kind ⊎ (step_entries self.old.state (reading_of event.now) ≡ [] → IsOk result) }
        ensures count { OnOk result (self.new.reaches ≤ self.old.reaches + (expired_count (step_entries self.old.state (reading_of event.now)) + other_reaches event.now.kind (step_entries self.old.state (reading_of event.now)))) }
        ensures apart { AreApart self.old.state.blocks }
        ensures grown { E.grows entries.old entries.new }
        ensures room { changes (step_entries self.old.state (reading_of event.now)) ≡ [] → E.has_room entries.old → IsOk result }
    {
        let now = self.moment.max(event.moment);
        self.list_expired(now, entries)?;
        self.take_kind(memory, now, &event.kind, entries)?;
        self.expire(now);
        self.moment = now;
        Ok(())
    }

    // Takes one event, by what is kept, and hands its entries to a sink. What the memory of frames holds changes no answer.
    //
    // What `looks` then answers is by how much the count of all reaches grew.
    pub(crate) fn step<E: EntrySink<A>>(
        &mut self,
        memory: &mut FrameMemory<A, Nothing>,
        event: &Event<A>,
        entries: &mut E,
    ) -> Result<(), AllocError>
        ensures entries { OnOk result (E.gets entries.old (step_entries self.old.state (reading_of event.now)) entries.new) }
        ensures state { OnOk result (self.new.state ≡ step_state self.old.state (reading_of event.now)) }
        ensures err { OnErr result (self.new.state ≡ self.old.state) }
        ensures err_looks { OnErr result (self.new.looks ≡ self.old.looks) }
        ensures quiet { IsFrame event.now.kind ⊎ (step_entries self.old.state (reading_of event.now) ≡ [] → IsOk result) }
        ensures counted { OnOk result (self.new.looks ≡ self.new.reaches - self.old.reaches) }
        ensures looks { OnOk result (self.new.looks ≤ expired_count (step_entries self.old.state (reading_of event.now)) + other_reaches event.now.kind (step_entries self.old.state (reading_of event.now))) }
        ensures apart { AreApart self.old.state.blocks }
        ensures grown { E.grows entries.old entries.new }
        ensures room { changes (step_entries self.old.state (reading_of event.now)) ≡ [] → E.has_room entries.old → IsOk result }
    {
        let before = self.rows.reaches();
        self.take_counted(memory, event, entries)?;
        self.looks = self.rows.reaches().saturating_sub(before); // the count of all reaches never falls
        Ok(())
    }
}
