//! The last line of a publisher's list, where its script has a fault.
ghost use Rattle.std.specs.Prelude.{◌++◌, codes};
ghost use Rattle.std.specs.Fmt.{decimal};
ghost use Rattle.text_core.specs.Pieces.{AppendsText};
ghost use Rattle.exchange_engines.specs.ScriptFaultLine.{cause_detail, script_fault_line};

use crate::texts::names::script_cause_name;
use list_core::ItemFault;
use script_core::ScriptCause;
use std::alloc::{AllocError, Allocator};
use text_core::names::{cause_name, list_cause_name};
use text_core::pieces::put_decimal;

// Appends the place and cause of a fault in the members.
fn put_cause_detail<A: Allocator>(
    out: &mut Vec<u8, A>,
    cause: ScriptCause,
) -> Result<(), AllocError>
    ensures { AppendsText result out.old.items out.new.items (cause_detail cause) }
{
    match cause {
        ScriptCause::Members(fault) => {
            out.extend_from_slice(b" ")?;
            put_decimal(out, fault.place as u64)?;
            out.extend_from_slice(b" ")?;
            out.extend_from_slice(cause_name(fault.cause))
        }
        _ => Ok(()),
    }
}

// Appends how the line begins: that it is a comment, and the number of the bad line.
fn put_script_fault_head<A: Allocator>(out: &mut Vec<u8, A>, number: u64) -> Result<(), AllocError>
    ensures { AppendsText result out.old.items out.new.items (codes "# " ++ decimal number ++ codes " script ") }
{
    out.extend_from_slice(b"# ")?;
    put_decimal(out, number)?;
    out.extend_from_slice(b" script ")
}

/// Appends the last line, on a fault of the script or where a change is refused.
pub fn put_script_fault_line<A: Allocator>(
    out: &mut Vec<u8, A>,
    fault: &ItemFault<ScriptCause>,
) -> Result<(), AllocError>
    ensures { AppendsText result out.old.items out.new.items (script_fault_line fault.now) }
{
    match fault {
        ItemFault::Lines(fault) => {
            put_script_fault_head(out, fault.line)?;
            out.extend_from_slice(list_cause_name(fault.cause))?;
        }
        ItemFault::Line(number, cause) => {
            put_script_fault_head(out, *number)?;
            out.extend_from_slice(script_cause_name(*cause))?;
            put_cause_detail(out, *cause)?;
        }
    }
    out.extend_from_slice(b"\n")
}
