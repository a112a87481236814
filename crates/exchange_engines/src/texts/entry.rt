//! The lines of a subscriber's entries.
ghost use Rattle.std.specs.Fmt.{decimal};
ghost use Rattle.std.specs.Prelude.{◌≡◌, ◌≤◌, ◌++◌, [], length, IsOk, codes};
ghost use Rattle.subscribe_core.specs.declared.entry.Entry.TheVariants.{Refused};
ghost use Rattle.exchange_engines.specs.EntryText.{entry_head, entry_line, entry_lines, pair_line, pair_text};
ghost use Rattle.text_core.specs.Pieces.{AppendsText};
ghost use Rattle.text_core.specs.ValueText.{members_text, time_text};

use crate::texts::names::reason_name;
use mms_data::{UtcTime, ValueList};
use std::alloc::{AllocError, Allocator};
use subscribe_core::{Entry, Reason};
use text_core::fields::{put_number, put_time};
use text_core::line::put_fault_line;
use text_core::owned::put_values_text;
use text_core::pieces::put_decimal;
use text_core::short::ShortText;

// Appends the number of a line, a word, and the position of a block.
fn put_entry_head<A: Allocator>(
    out: &mut Vec<u8, A>,
    number: u64,
    word: &[u8],
    block: usize,
) -> Result<(), AllocError>
    ensures { AppendsText result out.old.items out.new.items (entry_head number word.now block) }
{
    put_decimal(out, number)?;
    out.extend_from_slice(word)?;
    put_decimal(out, block as u64)
}

// Appends a line of a word and the position of a block.
fn put_word_line<A: Allocator>(
    out: &mut Vec<u8, A>,
    number: u64,
    word: &[u8],
    block: usize,
) -> Result<(), AllocError>
    ensures { AppendsText result out.old.items out.new.items (entry_head number word.now block ++ codes "\n") }
{
    put_entry_head(out, number, word, block)?;
    out.extend_from_slice(b"\n")
}

// Appends a line about a frame's numbers.
fn put_pair_line<A: Allocator>(
    out: &mut Vec<u8, A>,
    number: u64,
    word: &[u8],
    block: usize,
    state: u32,
    sequence: u32,
) -> Result<(), AllocError>
    requires { length word.now ≤ 20 }
    ensures { AppendsText result out.old.items out.new.items (pair_line number word.now block state sequence) }
{
    let mut text = ShortText::new();
    text.put(b"\n");
    text.put_decimal(sequence as u64);
    text.put(b" sq=");
    text.put_decimal(state as u64);
    text.put(b" st=");
    text.put_decimal(block as u64);
    text.put(word);
    text.put_decimal(number);
    text.append_to(out)
}

// Appends the line of an action.
fn put_act_line<A: Allocator>(
    out: &mut Vec<u8, A>,
    number: u64,
    block: usize,
    state: u32,
    sequence: u32,
    t: UtcTime,
    members: &ValueList<A>,
) -> Result<(), AllocError>
    ensures { AppendsText result out.old.items out.new.items (entry_head number (codes " act ") block ++ pair_text state sequence ++ (codes " t=" ++ time_text t) ++ (codes " " ++ members_text members.now) ++ codes "\n") }
{
    put_entry_head(out, number, b" act ", block)?;
    put_number(out, b" st=", state)?;
    put_number(out, b" sq=", sequence)?;
    put_time(out, b" t=", t)?;
    out.push(b' ')?;
    put_values_text(out, members)?;
    out.extend_from_slice(b"\n")
}

// Appends the line of a frame that is refused.
fn put_refused_line<A: Allocator>(
    out: &mut Vec<u8, A>,
    number: u64,
    block: usize,
    reason: Reason,
) -> Result<(), AllocError>
    ensures { AppendsText result out.old.items out.new.items (entry_line {A = Unit {0}} number (Refused block reason)) }
{
    put_entry_head(out, number, b" refused ", block)?;
    out.extend_from_slice(b" ")?;
    out.extend_from_slice(reason_name(reason))?;
    out.extend_from_slice(b"\n")
}

// Appends the number of a line and what follows it.
fn put_alone_line<A: Allocator>(
    out: &mut Vec<u8, A>,
    number: u64,
    text: &[u8],
) -> Result<(), AllocError>
    ensures { AppendsText result out.old.items out.new.items (decimal number ++ text.now) }
{
    put_decimal(out, number)?;
    out.extend_from_slice(text)
}

// Appends the line of an entry.
#[inline(always)]
pub(crate) fn put_entry_line<A: Allocator>(
    out: &mut Vec<u8, A>,
    number: u64,
    entry: &Entry<A>,
) -> Result<(), AllocError>
    ensures { AppendsText result out.old.items out.new.items (entry_line number entry.now) }
{
    match entry {
        Entry::Expired { block } => put_word_line(out, number, b" expired ", *block),
        Entry::Switched { block } => put_word_line(out, number, b" switched ", *block),
        Entry::Act {
            block,
            state,
            sequence,
            t,
            members,
        } => put_act_line(out, number, *block, *state, *sequence, *t, members),
        Entry::Refreshed {
            block,
            state,
            sequence,
        } => put_pair_line(out, number, b" refreshed ", *block, *state, *sequence),
        Entry::Repeated {
            block,
            state,
            sequence,
        } => put_pair_line(out, number, b" repeated ", *block, *state, *sequence),
        Entry::Older {
            block,
            state,
            sequence,
        } => put_pair_line(out, number, b" old ", *block, *state, *sequence),
        Entry::Refused { block, reason } => put_refused_line(out, number, *block, *reason),
        Entry::NotSubscribed => put_alone_line(out, number, b" not-subscribed\n"),
        Entry::Sampled => put_alone_line(out, number, b" sampled\n"),
        Entry::Faulty(fault) => put_fault_line(out, number, *fault),
    }
}

/// Appends the lines of the entries of an event.
pub fn put_entry_lines<A: Allocator>(
    out: &mut Vec<u8, A>,
    number: u64,
    entries: &[Entry<A>],
) -> Result<(), AllocError>
    ensures text { AppendsText result out.old.items out.new.items (entry_lines number entries.now) }
    ensures quiet { entries.now ≡ [] → IsOk result }
{
    for entry in entries {
        put_entry_line(out, number, entry)?;
    }
    Ok(())
}
