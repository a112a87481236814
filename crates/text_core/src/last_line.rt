//! The last line of what is written of an input that has a fault.
ghost use Rattle.std.specs.Prelude.{◌≡◌, ℕ, List, [], IsOk};
ghost use Rattle.list_core.specs.ListReader.{list_fault_of};
ghost use Rattle.text_core.specs.LineText.{capture_line, list_fault_line};
ghost use Rattle.text_core.specs.Pieces.{AppendsText};

use crate::line::put_list_fault_line;
use crate::names::capture_cause_name;
use crate::pieces::put_decimal;
use capture_core::CaptureFault;
use list_core::{ItemFault, ListCause, fault_of_list};
use std::alloc::{AllocError, Allocator};

/// A fault of an input that the last line tells.
pub trait LastLine {
    /// That line.
    ghost last_line: { Self → List ℕ };

    /// Appends that line. Where memory is refused, the earlier text remains; none is wanted for a line of no octets.
    fn put_last_line<A: Allocator>(&self, out: &mut Vec<u8, A>) -> Result<(), AllocError>
        ensures text { AppendsText result out.old.items out.new.items (last_line self.now) }
        ensures quiet { last_line self.now ≡ [] → IsOk result };
}

impl LastLine for ItemFault<ListCause> {
    ghost last_line = { λ f. list_fault_line (list_fault_of f) };

    fn put_last_line<A: Allocator>(&self, out: &mut Vec<u8, A>) -> Result<(), AllocError> {
        put_list_fault_line(out, fault_of_list(self))
    }
}

impl LastLine for CaptureFault {
    ghost last_line = { capture_line };

    fn put_last_line<A: Allocator>(&self, out: &mut Vec<u8, A>) -> Result<(), AllocError> {
        put_decimal(out, self.number)?;
        out.extend_from_slice(b" capture ")?;
        out.extend_from_slice(capture_cause_name(self.cause))?;
        out.extend_from_slice(b"\n")
    }
}
