//! The lines of the samples of a stream.
ghost use Rattle.std.specs.Prelude.{◌≡◌, ◌+◌, ◌≤◌, ◌++◌, length};
ghost use Rattle.text_core.specs.Pieces.{AppendsText};
ghost use Rattle.exchange_engines.specs.SampleLine.{sample_line, seen_word};

use std::alloc::{AllocError, Allocator};
use subscribe_core::Seen;
use text_core::short::ShortText;

// Puts what a count is after those before it in front.
#[inline(always)]
fn prepend_seen(text: &mut ShortText, seen: Seen)
    requires { length text.old + 29 ≤ 160 }
    ensures text { text.new ≡ seen_word seen ++ text.old }
    ensures size { length text.new ≤ length text.old + 29 }
{
    match seen {
        Seen::First => text.put(b" first"),
        Seen::Next => text.put(b" next"),
        Seen::Skipped(missing) => {
            text.put_decimal(missing as u64);
            text.put(b" skipped ");
        }
        Seen::Same => text.put(b" same"),
        Seen::Late => text.put(b" late"),
        Seen::OutOfRange => text.put(b" out-of-range"),
    }
}

/// Appends the line of a sample: the number of the event's line, the position of the ASDU from 0, its
/// count, and what that is.
pub fn put_sample_line<A: Allocator>(
    out: &mut Vec<u8, A>,
    number: u64,
    position: u64,
    count: u16,
    seen: Seen,
) -> Result<(), AllocError>
    ensures { AppendsText result out.old.items out.new.items (sample_line number (record { position = position; count = count }) seen) }
{
    let mut text = ShortText::new();
    text.put(b"\n");
    prepend_seen(&mut text, seen);
    text.put_decimal(count as u64);
    text.put(b" ");
    text.put_decimal(position);
    text.put(b" ");
    text.put_decimal(number);
    text.append_to(out)
}
