//! The deadlines of the holding blocks: a number for each block, and above them the least of ever more of them.

ghost use Rattle.std.specs.Prelude.{◌≡◌, ℕ, ◌<◌, ◌≤◌, ◌+◌, ◌-◌, ◌*◌, ◌^◌, [], List, Option, Some, None, false, IfOk, OnOk, IsOk, IsTrue, IfSome, IfNone, length, min, slice_set, slice_index, slice_index_or};
ghost use Rattle.subscribe_core.specs.declared.registers.LiveState.{LiveState as SpecLiveState};
ghost use Rattle.subscribe_core.specs.declared.registers.Register.{Register as SpecRegister};
ghost use Rattle.subscribe_core.specs.computed.Steps.{expired_entries, is_dead};
ghost use Rattle.subscribe_core.specs.computed.Deadlines.{AreLesser, AreLesserBut, Covers, IsBeside, IsNextDue, IsTree, KeepsDeadlinesOf, half, helds};

use crate::entry::PlainEntry;
use crate::entry_sink::EntrySink;
use std::alloc::{AllocError, Allocator};

// The last moment of a block that holds nothing: no moment comes behind it.
const NONE: u64 = u64::MAX;

// For how many blocks there is room, where there are so many: a power of two, or none.
fn room_for(count: usize) -> usize
    requires { count ≤ 2 ^ 63 }
    ensures room { count ≤ result }
    ensures few { 0 < count → result < 2 * count }
    ensures power { 0 < result → (k : ℕ) × (result ≡ 2 ^ k) }
    ensures none { count ≡ 0 → result ≡ 0 }
{
    if count == 0 {
        0
    } else {
        count.next_power_of_two()
    }
}

// The last moment at which what has this deadline is held; the greatest one, where it is held for longer.
fn last_before(deadline: u128) -> u64
    requires { 0 < deadline }
    ensures { result ≡ min (deadline - 1) (2 ^ 64 - 1) }
{
    (deadline - 1).min(u128::from(NONE)) as u64
}

/// The deadlines of the blocks that hold something, as nodes of a tree. The second half of the nodes are the blocks', in their
/// order: the last moment at which a block holds what it does, the greatest moment where it holds nothing or holds it for
/// ever. Before them each node i has the lesser of the nodes 2 i and 2 i + 1, so node 1 has the least. Node 0 is not used. All
/// nodes are made at once, so a renewal takes no memory; it writes those above its block that change.
#[derive(Drop)]
pub struct Deadlines<A: Allocator> {
    nodes: Vec<u64, A>,
}

impl<A: Allocator + Copy> Deadlines<A> {
    // Those of so many blocks that hold nothing.
    pub(crate) fn new(alloc: A, count: usize) -> Result<Deadlines<A>, AllocError>
        requires { count ≤ 2 ^ 63 }
        ensures kept { IfOk result (λ d. (held : List (Option SpecLiveState)) → length held ≡ count → ((p : ℕ) → slice_index_or held p None ≡ None) → KeepsDeadlinesOf d held) }
        ensures few { IfOk result (λ d. length d.nodes.items ≤ 4 * count) }
        ensures quiet { count ≡ 0 → IsOk result }
    {
        let mut nodes = Vec::new(alloc);
        nodes.resize(room_for(count).saturating_mul(2), NONE)?;
        Ok(Deadlines { nodes })
    }

    // The position of the first block that is due of those below a node, where one is.
    fn first_below(&self, from: usize, now: u64) -> usize
        requires some { 0 < from }
        ensures { (b k : ℕ) → IsTree self.now.nodes.items → Covers self.now.nodes.items from b k → slice_index self.now.nodes.items from < now → IsNextDue self.now.nodes.items now b result }
    {
        let half = self.nodes.len() / 2;
        let mut node = from;
        while node < half {
            node *= 2;
            if now <= self.nodes[node] {
                node += 1;
            }
        }
        node - half
    }

    // The first node to the right of the way from a block's up below which one is due.
    fn beside(&self, at: usize, now: u64) -> Option<usize>
        requires within { at < half self.now.nodes.items }
        requires tree { IsTree self.now.nodes.items }
        ensures found { IfSome result (λ node. IsBeside self.now.nodes.items now at node) }
        ensures none { IfNone result ((p : ℕ) → at < p → p < half self.now.nodes.items → now ≤ slice_index self.now.nodes.items (half self.now.nodes.items + p)) }
    {
        let mut node = self.nodes.len() / 2 + at;
        while 1 < node {
            if node % 2 == 0 && self.nodes[node + 1] < now {
                return Some(node + 1);
            }
            node /= 2;
        }
        None
    }

    // The position of the first block whose deadline is at most the moment.
    fn first_due(&self, now: u64) -> Option<usize>
        requires tree { IsTree self.now.nodes.items }
        ensures found { IfSome result (λ at. IsNextDue self.now.nodes.items now 0 at) }
        ensures none { IfNone result ((p : ℕ) → p < half self.now.nodes.items → now ≤ slice_index self.now.nodes.items (half self.now.nodes.items + p)) }
    {
        if self.nodes.len() < 2 || now <= self.nodes[1] {
            return None;
        }
        Some(self.first_below(1, now))
    }

    // That of the next one behind a position.
    fn next_due(&self, at: usize, now: u64) -> Option<usize>
        requires within { at < half self.now.nodes.items }
        requires tree { IsTree self.now.nodes.items }
        ensures found { IfSome result (λ next. IsNextDue self.now.nodes.items now (at + 1) next) }
        ensures none { IfNone result ((p : ℕ) → at < p → p < half self.now.nodes.items → now ≤ slice_index self.now.nodes.items (half self.now.nodes.items + p)) }
    {
        match self.beside(at, now) {
            None => None,
            Some(node) => Some(self.first_below(node, now)),
        }
    }

    // Hands over an entry for each block whose deadline is at most the moment, in their order.
    #[inline(always)]
    pub(crate) fn list_due<E: EntrySink<A>>(
        &self,
        now: u64,
        entries: &mut E,
    ) -> Result<(), AllocError>
        requires tree { IsTree self.now.nodes.items }
        ensures entries { (registers : List SpecRegister) → KeepsDeadlinesOf self.now (helds registers) → OnOk result (E.gets entries.old (expired_entries now 0 registers) entries.new) }
        ensures quiet { (registers : List SpecRegister) → KeepsDeadlinesOf self.now (helds registers) → expired_entries {A = A} now 0 registers ≡ [] → IsOk result }
        ensures grown { E.grows entries.old entries.new }
    {
        let mut next = self.first_due(now);
        while let Some(at) = next {
            entries.put_entry(PlainEntry::Expired { block: at })?;
            next = self.next_due(at, now);
        }
        Ok(())
    }

    // Has an inner node and those above it have the lesser of the nodes below them again.
    #[inline(always)]
    fn settle(&mut self, from: usize)
        requires { from < half self.old.nodes.items }
        ensures length { length self.new.nodes.items ≡ length self.old.nodes.items }
        ensures lesser { AreLesserBut self.old.nodes.items from → AreLesser self.new.nodes.items }
        ensures blocks { (i : ℕ) → half self.old.nodes.items ≤ i → slice_index self.new.nodes.items i ≡ slice_index self.old.nodes.items i }
    {
        let mut node = from;
        while 0 < node {
            let lesser = self.nodes[2 * node].min(self.nodes[2 * node + 1]);
            if self.nodes[node] == lesser {
                return;
            }
            self.nodes[node] = lesser;
            node /= 2;
        }
    }

    // Writes the deadline of the block at a position.
    #[inline(always)]
    fn put(&mut self, at: usize, last: u64)
        ensures length { length self.new.nodes.items ≡ length self.old.nodes.items }
        ensures lesser { AreLesser self.old.nodes.items → AreLesser self.new.nodes.items }
        ensures here { at < half self.old.nodes.items → slice_index self.new.nodes.items (half self.old.nodes.items + at) ≡ last }
        ensures others { (p : ℕ) → (p ≡ at → ⊥) → slice_index self.new.nodes.items (half self.old.nodes.items + p) ≡ slice_index self.old.nodes.items (half self.old.nodes.items + p) }
    {
        let half = self.nodes.len() / 2;
        if at < half {
            self.nodes[half + at] = last;
            self.settle((half + at) / 2);
        }
    }

    // Gives a block a deadline in place of the one that it had.
    #[inline(always)]
    pub(crate) fn renew(&mut self, at: usize, deadline: u128)
        requires { 0 < deadline }
        ensures { (held : List (Option SpecLiveState)) (new : SpecLiveState) → at < length held → new.deadline ≡ deadline
            → KeepsDeadlinesOf self.old held → KeepsDeadlinesOf self.new (slice_set held at (Some new)) }
    {
        self.put(at, last_before(deadline));
    }

    // Takes out a block's deadline, if it has one.
    pub(crate) fn let_go(&mut self, at: usize)
        ensures { (held : List (Option SpecLiveState)) → KeepsDeadlinesOf self.old held → KeepsDeadlinesOf self.new (slice_set held at None) }
    {
        self.put(at, NONE);
    }

    // Takes out a deadline that is at most the moment, if there is one, and gives its block's position.
    pub(crate) fn take_due(&mut self, now: u64) -> Option<usize>
        requires tree { IsTree self.old.nodes.items }
        ensures due { IfSome result (λ at. (held : List (Option SpecLiveState)) → KeepsDeadlinesOf self.old held → IsTrue (is_dead (slice_index_or held at None) now)) }
        ensures taken { IfSome result (λ at. (held : List (Option SpecLiveState)) → KeepsDeadlinesOf self.old held → KeepsDeadlinesOf self.new (slice_set held at None)) }
        ensures none { IfNone result ((held : List (Option SpecLiveState)) (at : ℕ) → KeepsDeadlinesOf self.old held → is_dead (slice_index_or held at None) now ≡ false) }
        ensures unchanged { IfNone result (self.new ≡ self.old) }
    {
        let Some(at) = self.first_due(now) else {
            return None;
        };
        self.let_go(at);
        Some(at)
    }
}
