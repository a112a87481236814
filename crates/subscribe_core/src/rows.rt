//! The blocks and what is kept of each, reached by position alone.

ghost use Rattle.std.specs.Prelude.{◌≡◌, ◌<◌, ◌+◌, ◌-◌, ◌^◌, length, min, None, Some, slice_get, slice_set};
ghost use Rattle.subscribe_core.specs.declared.registers.Register.{Register as SpecRegister};

use crate::registers::{LiveState, Register};
use block_core::Block;
use std::alloc::Allocator;

/// One reach, counted: it is good for one look.
pub struct Reach {
    at: usize,
}

/// The blocks and what is kept of each. The only ways to a block or to a register for an event are a look, which takes a reach
/// that was counted, and the three writes, which count one each; all the blocks are for whoever gave them. Nothing lowers the
/// count: it is of all reaches ever, and stays at its greatest number.
#[derive(Drop)]
pub struct Rows<A: Allocator> {
    blocks: Vec<Block<A>, A>,
    registers: Vec<Register, A>,
    reaches: u64,
}

impl<A: Allocator> Rows<A> {
    // Blocks with a register for each, not reached yet.
    pub(crate) fn new(blocks: Vec<Block<A>, A>, registers: Vec<Register, A>) -> Rows<A>
        ensures { result ≡ record { blocks = blocks; registers = registers; reaches = 0 } }
    {
        Rows {
            blocks,
            registers,
            reaches: 0,
        }
    }

    // The blocks.
    pub(crate) fn blocks(&self) -> &[Block<A>]
        ensures { result.now ≡ self.now.blocks.items }
    {
        self.blocks.as_slice()
    }

    // How many blocks there are.
    pub(crate) fn count(&self) -> usize
        ensures { result ≡ length self.now.blocks.items }
    {
        self.blocks.len()
    }

    // How often a block or its register was reached in all.
    pub(crate) fn reaches(&self) -> u64
        ensures { result ≡ self.now.reaches }
    {
        self.reaches
    }

    // Reaches for the block at a position.
    pub(crate) fn reach(&mut self, at: usize) -> Reach
        ensures at { result.at ≡ at }
        ensures blocks { self.new.blocks ≡ self.old.blocks }
        ensures registers { self.new.registers ≡ self.old.registers }
        ensures count { self.new.reaches ≡ min (self.old.reaches + 1) (2 ^ 64 - 1) }
    {
        self.reaches = self.reaches.saturating_add(1);
        Reach { at }
    }

    // The block that was reached for, and its register.
    pub(crate) fn look(&self, reach: Reach) -> (&Block<A>, Register)
        requires within { reach.at < length self.now.blocks.items }
        requires sizes { length self.now.registers.items ≡ length self.now.blocks.items }
        ensures block { slice_get self.now.blocks.items reach.at ≡ Some result.0.now }
        ensures register { slice_get self.now.registers.items reach.at ≡ Some result.1 }
    {
        let Reach { at } = reach;
        (&self.blocks[at], self.registers[at])
    }

    // Writes the register of the block at a position.
    pub(crate) fn write(&mut self, at: usize, register: Register)
        requires within { at < length self.old.registers.items }
        ensures registers { self.new.registers.items ≡ slice_set self.old.registers.items at register }
        ensures blocks { self.new.blocks ≡ self.old.blocks }
        ensures count { self.new.reaches ≡ min (self.old.reaches + 1) (2 ^ 64 - 1) }
    {
        self.reaches = self.reaches.saturating_add(1);
        self.registers[at] = register;
    }

    // Has the block at a position hold something in place of what it held.
    pub(crate) fn hold(&mut self, at: usize, held: LiveState)
        requires within { at < length self.old.registers.items }
        ensures registers { (r : SpecRegister) → slice_get self.old.registers.items at ≡ Some r → self.new.registers.items ≡ slice_set self.old.registers.items at (record { held = Some held; takes_simulated = r.takes_simulated }) }
        ensures blocks { self.new.blocks ≡ self.old.blocks }
        ensures count { self.new.reaches ≡ min (self.old.reaches + 1) (2 ^ 64 - 1) }
    {
        self.reaches = self.reaches.saturating_add(1);
        self.registers[at].held = Some(held);
    }

    // Has the block at a position hold nothing.
    pub(crate) fn let_go(&mut self, at: usize)
        requires within { at < length self.old.registers.items }
        ensures registers { (r : SpecRegister) → slice_get self.old.registers.items at ≡ Some r → self.new.registers.items ≡ slice_set self.old.registers.items at (record { held = None; takes_simulated = r.takes_simulated }) }
        ensures blocks { self.new.blocks ≡ self.old.blocks }
        ensures count { self.new.reaches ≡ min (self.old.reaches + 1) (2 ^ 64 - 1) }
    {
        self.reaches = self.reaches.saturating_add(1);
        self.registers[at].held = None;
    }
}
