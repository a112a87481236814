//! The short lines: of a clock moment, of a faulty frame, and the last one, of a fault of the list.
ghost use Rattle.std.specs.Prelude.{◌≡◌, ◌++◌};
ghost use Rattle.list_core.specs.EventText.{mode_text};
ghost use Rattle.text_core.specs.LineText.{clock_line, fault_line, list_fault_line};
ghost use Rattle.text_core.specs.Pieces.{AppendsText};

use crate::names::{cause_name, list_cause_name};
use crate::pieces::put_decimal;
use crate::short::ShortText;
use ber_core::Fault;
use list_core::ListFault;
use std::alloc::{AllocError, Allocator};

/// Appends the line of a clock moment, in microseconds.
pub fn put_clock_line<A: Allocator>(
    out: &mut Vec<u8, A>,
    number: u64,
    moment: u64,
) -> Result<(), AllocError>
    ensures { AppendsText result out.old.items out.new.items (clock_line number moment) }
{
    put_decimal(out, number)?;
    out.extend_from_slice(b" clock ")?;
    put_decimal(out, moment)?;
    out.extend_from_slice(b"\n")
}

/// Appends the line of a faulty frame.
pub fn put_fault_line<A: Allocator>(
    out: &mut Vec<u8, A>,
    number: u64,
    fault: Fault,
) -> Result<(), AllocError>
    ensures { AppendsText result out.old.items out.new.items (fault_line number fault) }
{
    let mut text = ShortText::new();
    text.put(b"\n");
    text.put(cause_name(fault.cause));
    text.put(b" ");
    text.put_decimal(fault.place as u64);
    text.put(b" fault ");
    text.put_decimal(number);
    text.append_to(out)
}

/// Appends the last line, on a fault of the list.
pub fn put_list_fault_line<A: Allocator>(
    out: &mut Vec<u8, A>,
    fault: ListFault,
) -> Result<(), AllocError>
    ensures { AppendsText result out.old.items out.new.items (list_fault_line fault) }
{
    put_decimal(out, fault.line)?;
    out.extend_from_slice(b" list ")?;
    out.extend_from_slice(list_cause_name(fault.cause))?;
    out.extend_from_slice(b"\n")
}

/// The word for a mode.
pub fn mode_word(on: bool) -> &'static [u8]
    ensures { result.now ≡ mode_text on }
{
    if on { b"on" } else { b"off" }
}
