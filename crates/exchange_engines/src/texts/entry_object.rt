//! The objects of a subscriber's entries.
ghost use Rattle.std.specs.Prelude.{◌≡◌, ℕ, ◌+◌, ◌-ℤ◌, ◌≤◌, List, ◌++◌, ◌∷◌, [], IsOk, length, pos, codes};
ghost use Rattle.std.specs.Fmt.{decimal, signed_decimal};
ghost use Rattle.text_core.specs.Pieces.{AppendsText};
ghost use Rattle.object_core.specs.MemberObject.{AreMembers};
ghost use Rattle.object_core.specs.Objects.{AppendsSome, in_quotes, object_line, opened};
ghost use Rattle.object_core.specs.Onward.{onward};
ghost use Rattle.object_core.specs.Times.{time_fields};
ghost use Rattle.object_core.specs.EventObject.{event_fields};
ghost use Rattle.exchange_engines.specs.EntryObject.{AreEntryObjects, IsActObject, IsEntryObject, block_fields, delay_from, entry_fields, name_fields, pair_fields, pair_object, twice_object};
ghost use Rattle.exchange_engines.specs.ExchangeNames.{name_of_reason};

use crate::texts::names::reason_name;
use mms_data::{UtcTime, ValueList};
use object_core::Counted;
use object_core::event::{put_event_head, put_event_object, put_fault_object};
use object_core::fields::{put_field_octets, put_field_word};
use object_core::owned::put_values_object;
use object_core::times::{microseconds, put_time_fields};
use std::alloc::{AllocError, Allocator};
use subscribe_core::{Block, Entry, Reason};
use text_core::fields::put_text;
use text_core::pieces::put_decimal;
use text_core::short::ShortText;

/// Where the objects of an event's entries stand: what its number counts, the number, its moment in microseconds, and the
/// blocks of which entries speak.
#[derive(Drop)]
pub struct EntryHeading<'a, A: Allocator> {
    /// What the number counts.
    pub counted: Counted,
    /// The number of the event's line or packet.
    pub number: u64,
    /// The event's moment.
    pub moment: u64,
    /// The blocks, by their positions.
    pub blocks: &'a [Block<A>],
}

// Appends APPID and gocbRef of a block.
fn put_name_fields<A: Allocator>(out: &mut Vec<u8, A>, block: &Block<A>) -> Result<(), AllocError>
    ensures { AppendsText result out.old.items out.new.items (onward (name_fields (Some block.now))) }
{
    let app_id = [(block.app_id / 256) as u8, (block.app_id % 256) as u8];
    put_field_octets(out, b",\"appid\":", &app_id)?;
    put_text(out, b",\"gocbRef\":", block.gocb_ref.as_slice())
}

// Appends the position of a block, and its APPID and gocbRef.
fn put_block_fields<A: Allocator>(
    out: &mut Vec<u8, A>,
    blocks: &[Block<A>],
    position: usize,
) -> Result<(), AllocError>
    ensures { AppendsText result out.old.items out.new.items (onward (block_fields blocks.now position)) }
{
    out.extend_from_slice(b",\"block\":")?;
    put_decimal(out, position as u64)?;
    match blocks.get(position) {
        Some(block) => put_name_fields(out, block),
        None => Ok(()),
    }
}

// Appends what the object of an entry of a block begins with.
fn put_entry_object_head<A: Allocator>(
    out: &mut Vec<u8, A>,
    heading: &EntryHeading<'_, A>,
    kind: &[u8],
    block: usize,
) -> Result<(), AllocError>
    ensures { AppendsText result out.old.items out.new.items (opened (event_fields heading.now.counted heading.now.number heading.now.moment kind.now) ++ onward (block_fields heading.now.blocks.now block)) }
{
    put_event_head(out, heading.counted, heading.number, heading.moment, kind)?;
    put_block_fields(out, heading.blocks, block)
}

// Appends the object of an entry that says no more than its block.
fn put_word_object<A: Allocator>(
    out: &mut Vec<u8, A>,
    heading: &EntryHeading<'_, A>,
    kind: &[u8],
    block: usize,
) -> Result<(), AllocError>
    ensures { AppendsText result out.old.items out.new.items (object_line (entry_fields heading.now.counted heading.now.blocks.now heading.now.number heading.now.moment kind.now block)) }
{
    put_entry_object_head(out, heading, kind, block)?;
    out.extend_from_slice(b"}\n")
}

// Appends a frame's stNum and sqNum, and the end of an object.
fn put_pair_end<A: Allocator>(
    out: &mut Vec<u8, A>,
    state: u32,
    sequence: u32,
) -> Result<(), AllocError>
    ensures { AppendsText result out.old.items out.new.items (onward (pair_fields state sequence) ++ codes "}\n") }
{
    let mut text = ShortText::new();
    text.put(b"}\n");
    text.put_decimal(sequence as u64);
    text.put(b",\"sqNum\":");
    text.put_decimal(state as u64);
    text.put(b",\"stNum\":");
    text.append_to(out)
}

// Appends the object of an entry about a frame's numbers.
fn put_pair_object<A: Allocator>(
    out: &mut Vec<u8, A>,
    heading: &EntryHeading<'_, A>,
    kind: &[u8],
    block: usize,
    state: u32,
    sequence: u32,
) -> Result<(), AllocError>
    ensures { AppendsText result out.old.items out.new.items (pair_object heading.now.counted heading.now.blocks.now heading.now.number heading.now.moment kind.now block state sequence) }
{
    put_entry_object_head(out, heading, kind, block)?;
    put_pair_end(out, state, sequence)
}

// Puts the microseconds from t to a moment in front, after a minus sign where t is later.
#[inline(always)]
fn prepend_delay(text: &mut ShortText, t: u64, moment: u64)
    requires { length text.old + 21 ≤ 160 }
    ensures text { text.new ≡ signed_decimal (pos moment -ℤ pos t) ++ text.old }
    ensures size { length text.new ≤ length text.old + 21 }
{
    if t <= moment {
        text.put_decimal(moment - t);
    } else {
        text.put_decimal(t - moment);
        text.put(b"-");
    }
}

// Appends the microseconds from t to a moment, the frame's numbers, and the name of its members.
fn put_delay_fields<A: Allocator>(
    out: &mut Vec<u8, A>,
    t: UtcTime,
    moment: u64,
    state: u32,
    sequence: u32,
) -> Result<(), AllocError>
    ensures { AppendsText result out.old.items out.new.items (onward ((codes "delay", signed_decimal (delay_from t moment)) ∷ pair_fields state sequence) ++ codes ",\"members\":") }
{
    let mut text = ShortText::new();
    text.put(b",\"members\":");
    text.put_decimal(sequence as u64);
    text.put(b",\"sqNum\":");
    text.put_decimal(state as u64);
    text.put(b",\"stNum\":");
    prepend_delay(&mut text, microseconds(t), moment);
    text.put(b",\"delay\":");
    text.append_to(out)
}

// Appends t, the delay, the frame's numbers, and the name of its members.
fn put_act_fields<A: Allocator>(
    out: &mut Vec<u8, A>,
    t: UtcTime,
    moment: u64,
    state: u32,
    sequence: u32,
) -> Result<(), AllocError>
    ensures { AppendsText result out.old.items out.new.items (onward (time_fields (codes "t") (codes "tTime") (codes "tQuality") t
        ++ (codes "delay", signed_decimal (delay_from t moment)) ∷ pair_fields state sequence) ++ codes ",\"members\":") }
{
    put_time_fields(out, b",\"t\":", b",\"tTime\":", b",\"tQuality\":", t)?;
    put_delay_fields(out, t, moment, state, sequence)
}

// Appends the members that were published with a state, and the end of an object.
fn put_act_members<A: Allocator>(
    out: &mut Vec<u8, A>,
    members: &ValueList<A>,
) -> Result<(), AllocError>
    ensures { AppendsSome result out.old.items out.new.items (λ text. (held : List ℕ) × AreMembers members.now held × (text ≡ held ++ codes "}\n")) }
{
    put_values_object(out, members)?;
    out.extend_from_slice(b"}\n")
}

// Appends the object of an action.
fn put_act_object<A: Allocator>(
    out: &mut Vec<u8, A>,
    heading: &EntryHeading<'_, A>,
    block: usize,
    state: u32,
    sequence: u32,
    t: UtcTime,
    members: &ValueList<A>,
) -> Result<(), AllocError>
    ensures { AppendsSome result out.old.items out.new.items (IsActObject heading.now.counted heading.now.blocks.now heading.now.number heading.now.moment block state sequence t members.now) }
{
    put_entry_object_head(out, heading, b"act", block)?;
    put_act_fields(out, t, heading.moment, state, sequence)?;
    put_act_members(out, members)
}

// Appends the object of a frame that is refused.
fn put_refused_object<A: Allocator>(
    out: &mut Vec<u8, A>,
    heading: &EntryHeading<'_, A>,
    block: usize,
    reason: Reason,
) -> Result<(), AllocError>
    ensures { AppendsText result out.old.items out.new.items (object_line (entry_fields heading.now.counted heading.now.blocks.now heading.now.number heading.now.moment (codes "refused") block
        ++ (codes "reason", in_quotes (name_of_reason reason)) ∷ [])) }
{
    put_entry_object_head(out, heading, b"refused", block)?;
    put_field_word(out, b",\"reason\":", reason_name(reason))?;
    out.extend_from_slice(b"}\n")
}

// Appends the object of an entry.
fn put_entry_object<A: Allocator>(
    out: &mut Vec<u8, A>,
    heading: &EntryHeading<'_, A>,
    entry: &Entry<A>,
) -> Result<(), AllocError>
    ensures { AppendsSome result out.old.items out.new.items (IsEntryObject heading.now.counted heading.now.blocks.now heading.now.number heading.now.moment entry.now) }
{
    let (counted, number, moment) = (heading.counted, heading.number, heading.moment);
    match entry {
        Entry::Expired { block } => put_word_object(out, heading, b"expired", *block),
        Entry::Switched { block } => put_word_object(out, heading, b"switched", *block),
        Entry::Act {
            block,
            state,
            sequence,
            t,
            members,
        } => put_act_object(out, heading, *block, *state, *sequence, *t, members),
        Entry::Refreshed {
            block,
            state,
            sequence,
        } => put_pair_object(out, heading, b"refreshed", *block, *state, *sequence),
        Entry::Repeated {
            block,
            state,
            sequence,
        } => put_pair_object(out, heading, b"repeated", *block, *state, *sequence),
        Entry::Older {
            block,
            state,
            sequence,
        } => put_pair_object(out, heading, b"old", *block, *state, *sequence),
        Entry::Refused { block, reason } => put_refused_object(out, heading, *block, *reason),
        Entry::NotSubscribed => put_event_object(out, counted, number, moment, b"not-subscribed"),
        Entry::Sampled => put_event_object(out, counted, number, moment, b"sampled"),
        Entry::Faulty(fault) => put_fault_object(out, counted, number, moment, *fault),
    }
}

/// Appends the objects of the entries of an event, each as a line.
pub fn put_entry_objects<A: Allocator>(
    out: &mut Vec<u8, A>,
    heading: &EntryHeading<'_, A>,
    entries: &[Entry<A>],
) -> Result<(), AllocError>
    ensures text { AppendsSome result out.old.items out.new.items (AreEntryObjects heading.now.counted heading.now.blocks.now heading.now.number heading.now.moment entries.now) }
    ensures quiet { entries.now ≡ [] → IsOk result }
{
    for entry in entries {
        put_entry_object(out, heading, entry)?;
    }
    Ok(())
}

/// Appends the object of a block that is given twice, at its position.
pub fn put_twice_object<A: Allocator>(
    out: &mut Vec<u8, A>,
    blocks: &[Block<A>],
    position: usize,
) -> Result<(), AllocError>
    ensures { AppendsText result out.old.items out.new.items (twice_object blocks.now position) }
{
    out.extend_from_slice(b"{\"kind\":\"blocks\"")?;
    put_block_fields(out, blocks, position)?;
    out.extend_from_slice(b",\"error\":\"SameBlockTwice\"}\n")
}
