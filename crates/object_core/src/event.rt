//! What the objects of events begin with, and the object of a faulty frame.
ghost use Rattle.std.specs.Prelude.{◌≡◌, ◌+◌, ◌≤◌, ◌++◌, ◌∷◌, length};
ghost use Rattle.std.specs.Fmt.{decimal};
ghost use Rattle.text_core.specs.Pieces.{AppendsText};
ghost use Rattle.object_core.specs.EventObject.{counted_name, event_fields, fault_object};
ghost use Rattle.object_core.specs.Objects.{date_value, field_text, object_line, opened};

use crate::counted::Counted;
use crate::fields::put_field_word;
use ber_core::Fault;
use date_core::date_of;
use std::alloc::{AllocError, Allocator};
use text_core::names::cause_name;
use text_core::pieces::put_decimal;
use text_core::short::ShortText;

// Puts the date of a moment in front, null after the year 9999.
#[inline(always)]
fn prepend_date(text: &mut ShortText, moment: u64)
    requires { length text.old + 29 ≤ 160 }
    ensures text { text.new ≡ date_value moment ++ text.old }
    ensures size { length text.new ≤ length text.old + 29 }
{
    match date_of(moment) {
        Some(date) => {
            text.put(b"\"");
            text.put(&date);
            text.put(b"\"");
        }
        None => text.put(b"null"),
    }
}

// Puts what an object begins with in front, up to the number of its event.
#[inline(always)]
fn prepend_number(text: &mut ShortText, counted: Counted, number: u64)
    requires { length text.old + 30 ≤ 160 }
    ensures { text.new ≡ 123 ∷ field_text (counted_name counted, decimal number) ++ text.old }
{
    text.put_decimal(number);
    match counted {
        Counted::Line => text.put(b"{\"line\":"),
        Counted::Packet => text.put(b"{\"packet\":"),
    }
}

/// Appends what the object of an event begins with: its number, its moment in microseconds since 1970, the date of it, and
/// what is told of it. The object is still open.
pub fn put_event_head<A: Allocator>(
    out: &mut Vec<u8, A>,
    counted: Counted,
    number: u64,
    moment: u64,
    kind: &[u8],
) -> Result<(), AllocError>
    ensures { AppendsText result out.old.items out.new.items (opened (event_fields counted number moment kind.now)) }
{
    let mut text = ShortText::new();
    prepend_date(&mut text, moment);
    text.put(b",\"time\":");
    text.put_decimal(moment);
    text.put(b",\"microseconds\":");
    prepend_number(&mut text, counted, number);
    text.append_to(out)?;
    put_field_word(out, b",\"kind\":", kind)
}

/// Appends the object of an event of which no more is told than what it is, as a line. Never inlined, so that lines of text keep
/// their registers.
#[inline(never)]
pub fn put_event_object<A: Allocator>(
    out: &mut Vec<u8, A>,
    counted: Counted,
    number: u64,
    moment: u64,
    kind: &[u8],
) -> Result<(), AllocError>
    ensures { AppendsText result out.old.items out.new.items (object_line (event_fields counted number moment kind.now)) }
{
    put_event_head(out, counted, number, moment, kind)?;
    out.extend_from_slice(b"}\n")
}

/// Appends the object of a faulty frame, as a line.
pub fn put_fault_object<A: Allocator>(
    out: &mut Vec<u8, A>,
    counted: Counted,
    number: u64,
    moment: u64,
    fault: Fault,
) -> Result<(), AllocError>
    ensures { AppendsText result out.old.items out.new.items (fault_object counted number moment fault) }
{
    put_event_head(out, counted, number, moment, b"fault")?;
    out.extend_from_slice(b",\"offset\":")?;
    put_decimal(out, fault.place as u64)?;
    put_field_word(out, b",\"error\":", cause_name(fault.cause))?;
    out.extend_from_slice(b"}\n")
}
