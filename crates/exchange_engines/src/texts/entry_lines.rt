//! The lines of entries as a sink of entries.
ghost use Rattle.std.specs.Prelude.{◌≡◌, ◌++◌, ◌∷◌, [], IsOk, OnOk, codes, false, length, take, true};
ghost use Rattle.pdu_core.specs.Views.{pdu_of};
ghost use Rattle.subscribe_core.specs.Changes.{is_change};
ghost use Rattle.subscribe_core.specs.computed.Sinks.{act_of, whole_entry};
ghost use Rattle.text_core.specs.Pieces.{AppendsText};
ghost use Rattle.text_core.specs.ValueText.{time_text};
ghost use Rattle.exchange_engines.specs.EntryText.{entry_head, entry_line, pair_text};
ghost use Rattle.exchange_engines.specs.computed.LinesTold.{AreLinesTold, front_kept, front_same, room_kept, told_more, told_none};

use crate::texts::entry::put_entry_line;
use pdu_core::GooseView;
use std::alloc::{AllocError, Allocator};
use subscribe_core::{Entry, EntrySink, PlainEntry};
use text_core::short::ShortText;
use text_core::value::put_members_text;

/// The lines of entries, each of which is written when it is handed over.
#[derive(Drop)]
pub struct EntryLines<'a, A: Allocator> {
    /// The lines.
    pub line: Vec<u8, A>,
    /// The number of each.
    pub number: u64,
    /// Whether changes alone have lines.
    pub changes_alone: bool,
    /// Whether a block, by its position, has had an entry, for as many blocks as there are flags.
    pub heard: &'a mut [bool],
}

// The position of the block that an entry speaks of.
fn block_of<A: Allocator>(entry: &Entry<A>) -> Option<usize> {
    match entry {
        Entry::Expired { block }
        | Entry::Switched { block }
        | Entry::Act { block, .. }
        | Entry::Refreshed { block, .. }
        | Entry::Repeated { block, .. }
        | Entry::Older { block, .. }
        | Entry::Refused { block, .. } => Some(*block),
        Entry::NotSubscribed | Entry::Sampled | Entry::Faulty(_) => None,
    }
}

// Sets the flag of the block that an entry speaks of.
#[inline(always)]
fn mark_entry<A: Allocator>(heard: &mut [bool], entry: &Entry<A>) {
    if let Some(block) = block_of(entry) {
        mark_block(heard, block);
    }
}

/// Sets the flags of the blocks that entries speak of.
pub fn mark_heard<A: Allocator>(lines: &mut EntryLines<'_, A>, entries: &[Entry<A>]) {
    for entry in entries {
        mark_entry(lines.heard, entry);
    }
}

// Sets the flag of a block.
#[inline(always)]
fn mark_block(heard: &mut [bool], block: usize) {
    if let Some(flag) = heard.get_mut(block) {
        *flag = true;
    }
}

// Appends what the line of an action on a frame of the block at a position says before its members.
fn put_act_front<A: Allocator>(
    out: &mut Vec<u8, A>,
    number: u64,
    block: usize,
    goose: &GooseView<'_>,
) -> Result<(), AllocError>
    ensures { AppendsText result out.old.items out.new.items (entry_head number (codes " act ") block ++ pair_text goose.now.st_num goose.now.sq_num ++ (codes " t=" ++ time_text goose.now.t) ++ codes " ") }
{
    let mut text = ShortText::new();
    text.put(b" ");
    text.put_utc(goose.t);
    text.put(b" t=");
    text.put_decimal(goose.sq_num as u64);
    text.put(b" sq=");
    text.put_decimal(goose.st_num as u64);
    text.put(b" st=");
    text.put_decimal(block as u64);
    text.put(b" act ");
    text.put_decimal(number);
    text.append_to(out)
}

// Appends the line of an action on a frame of the block at a position.
fn put_act_of<A: Allocator>(
    out: &mut Vec<u8, A>,
    number: u64,
    block: usize,
    goose: &GooseView<'_>,
) -> Result<(), AllocError>
    ensures { AppendsText result out.old.items out.new.items (entry_line {A = Unit {0}} number (act_of block (pdu_of goose.now))) }
{
    put_act_front(out, number, block, goose)?;
    put_members_text(out, goose.members)?;
    out.extend_from_slice(b"\n")
}

impl<A: Allocator + Copy> EntrySink<A> for EntryLines<'_, A> {
    ghost gets = { λ a es b. AreLinesTold a.number a.changes_alone a.line.items es b.number b.changes_alone b.line.items };

    ghost grows = { λ a b. take (length a.line.items) b.line.items ≡ a.line.items };

    ghost has_room = { λ a. a.changes_alone ≡ true };

    #[inline(always)]
    fn put_entry(&mut self, entry: PlainEntry) -> Result<(), AllocError>
        ensures got { OnOk result (AreLinesTold self.old.number self.old.changes_alone self.old.line.items (whole_entry {A = A} entry ∷ []) self.new.number self.new.changes_alone self.new.line.items) }
        ensures grown { take (length self.old.line.items) self.new.line.items ≡ self.old.line.items }
        ensures quiet { is_change {A = A} (whole_entry entry) ≡ false → self.old.changes_alone ≡ true → IsOk result }
    {
        let entry: Entry<A> = entry.whole();
        mark_entry(self.heard, &entry);
        if self.changes_alone && !entry.is_change() {
            return Ok(());
        }
        put_entry_line(&mut self.line, self.number, &entry)?;
        Ok(())
    }

    #[inline(always)]
    fn put_act(&mut self, _: A, block: usize, goose: &GooseView<'_>) -> Result<(), AllocError>
        ensures got { OnOk result (AreLinesTold self.old.number self.old.changes_alone self.old.line.items (act_of {A = A} block (pdu_of goose.now) ∷ []) self.new.number self.new.changes_alone self.new.line.items) }
        ensures grown { take (length self.old.line.items) self.new.line.items ≡ self.old.line.items }
    {
        mark_block(self.heard, block);
        put_act_of(&mut self.line, self.number, block, goose)?;
        Ok(())
    }

    ghost gets_none = { λ s. told_none s.number s.changes_alone s.line.items };

    ghost gets_more = { λ a b c x y first second. told_more a.number a.changes_alone a.line.items x b.number b.changes_alone b.line.items y c.number c.changes_alone c.line.items first second };

    ghost grows_none = { λ s. front_same s.line.items };

    ghost grows_more = { λ a b c first second. front_kept a.line.items b.line.items c.line.items first second };

    ghost room_stays = { λ a b none grown room. room_kept none room };
}
