//! The last object of what is written of an input that has a fault.
ghost use Rattle.std.specs.Prelude.{◌≡◌, ℕ, List, [], IsOk};
ghost use Rattle.list_core.specs.ListReader.{list_fault_of};
ghost use Rattle.object_core.specs.EventObject.{capture_fault_object, list_fault_object};
ghost use Rattle.text_core.specs.Pieces.{AppendsText};

use crate::fields::put_field_word;
use capture_core::CaptureFault;
use list_core::{ItemFault, ListCause, ListFault, fault_of_list};
use std::alloc::{AllocError, Allocator};
use text_core::names::{capture_cause_name, list_cause_name};
use text_core::pieces::put_decimal;

/// A fault of an input that the last object tells.
pub trait LastObject {
    /// That object, as a line.
    ghost last_object: { Self → List ℕ };

    /// Appends that object. Where memory is refused, the earlier text remains; none is wanted for one of no octets.
    fn put_last_object<A: Allocator>(&self, out: &mut Vec<u8, A>) -> Result<(), AllocError>
        ensures text { AppendsText result out.old.items out.new.items (last_object self.now) }
        ensures quiet { last_object self.now ≡ [] → IsOk result };
}

// Appends the object of a bad line.
fn put_list_fault<A: Allocator>(out: &mut Vec<u8, A>, fault: ListFault) -> Result<(), AllocError>
    ensures { AppendsText result out.old.items out.new.items (list_fault_object fault) }
{
    out.extend_from_slice(b"{\"line\":")?;
    put_decimal(out, fault.line)?;
    put_field_word(
        out,
        b",\"kind\":\"list\",\"error\":",
        list_cause_name(fault.cause),
    )?;
    out.extend_from_slice(b"}\n")
}

impl LastObject for ItemFault<ListCause> {
    ghost last_object = { λ f. list_fault_object (list_fault_of f) };

    fn put_last_object<A: Allocator>(&self, out: &mut Vec<u8, A>) -> Result<(), AllocError> {
        put_list_fault(out, fault_of_list(self))
    }
}

impl LastObject for CaptureFault {
    ghost last_object = { capture_fault_object };

    fn put_last_object<A: Allocator>(&self, out: &mut Vec<u8, A>) -> Result<(), AllocError> {
        out.extend_from_slice(b"{\"packet\":")?;
        put_decimal(out, self.number)?;
        put_field_word(
            out,
            b",\"kind\":\"capture\",\"error\":",
            capture_cause_name(self.cause),
        )?;
        out.extend_from_slice(b"}\n")
    }
}
