//! The objects of the samples of a stream.
ghost use Rattle.std.specs.Prelude.{◌≡◌, ◌+◌, ◌≤◌, ◌++◌, ◌∷◌, length, codes};
ghost use Rattle.std.specs.Fmt.{decimal};
ghost use Rattle.text_core.specs.Pieces.{AppendsText};
ghost use Rattle.object_core.specs.Onward.{onward};
ghost use Rattle.exchange_engines.specs.SampleObject.{missing_fields, sample_object, seen_kind};

use object_core::Counted;
use object_core::event::put_event_head;
use std::alloc::{AllocError, Allocator};
use subscribe_core::Seen;
use text_core::short::ShortText;

// What a count is after those before it, as a word.
fn kind_of_seen(seen: Seen) -> &'static [u8]
    ensures { result.now ≡ seen_kind seen }
{
    match seen {
        Seen::First => b"first",
        Seen::Next => b"next",
        Seen::Skipped(_) => b"skipped",
        Seen::Same => b"same",
        Seen::Late => b"late",
        Seen::OutOfRange => b"out-of-range",
    }
}

// Puts how many counts are missing before one in front, where some are.
#[inline(always)]
fn prepend_missing(text: &mut ShortText, seen: Seen)
    requires { length text.old + 31 ≤ 160 }
    ensures text { text.new ≡ onward (missing_fields seen) ++ text.old }
    ensures size { length text.new ≤ length text.old + 31 }
{
    if let Seen::Skipped(missing) = seen {
        text.put_decimal(missing as u64);
        text.put(b",\"missing\":");
    }
}

// Appends the position of an ASDU, its count, how many are missing before it, and the end of an object.
fn put_sample_fields<A: Allocator>(
    out: &mut Vec<u8, A>,
    position: u64,
    count: u16,
    seen: Seen,
) -> Result<(), AllocError>
    ensures { AppendsText result out.old.items out.new.items (onward ((codes "asdu", decimal position) ∷ (codes "smpCnt", decimal count) ∷ missing_fields seen) ++ codes "}\n") }
{
    let mut text = ShortText::new();
    text.put(b"}\n");
    prepend_missing(&mut text, seen);
    text.put_decimal(count as u64);
    text.put(b",\"smpCnt\":");
    text.put_decimal(position);
    text.put(b",\"asdu\":");
    text.append_to(out)
}

/// Appends the object of a sample, as a line: the number of the event and its moment in microseconds, what its count is, the
/// position of the ASDU from 0, and the count.
pub fn put_sample_object<A: Allocator>(
    out: &mut Vec<u8, A>,
    counted: Counted,
    number: u64,
    moment: u64,
    position: u64,
    count: u16,
    seen: Seen,
) -> Result<(), AllocError>
    ensures { AppendsText result out.old.items out.new.items (sample_object counted number moment (record { position = position; count = count }) seen) }
{
    put_event_head(out, counted, number, moment, kind_of_seen(seen))?;
    put_sample_fields(out, position, count, seen)
}
