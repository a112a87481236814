//! Reading an APDU into memory of its own.

ghost use Rattle.std.specs.Prelude.{◌≡◌, ◌≤◌, Err, length, slice_range, IfOk, IsOk};
ghost use Rattle.ber_core.specs.declared.fault.Fault.{Fault};
ghost use Rattle.mms_data.specs.Answers.{IfRefused, Reads};
ghost use Rattle.pdu_core.specs.Goose.{GooseFault, SpellsGoose};
ghost use Rattle.pdu_core.specs.Memory.{GooseNeedsNoMemory};
ghost use Rattle.pdu_core.specs.declared.goose.GoosePdu.{GoosePdu};

use crate::goose::GoosePdu;
use crate::viewing::view_goose;
use mms_data::ReadFault;
use std::alloc::Allocator;

/// The APDU whose one element fills the octets from `at` to `end` (IEC 61850-8-1, IECGoosePdu), in memory of
/// its own.
///
/// # Errors
///
/// `Fault` as `view_goose` answers it; `Memory` where memory is refused.
pub fn read_goose<A: Allocator + Copy>(
    alloc: A,
    octets: &[u8],
    at: usize,
    end: usize,
) -> Result<GoosePdu<A>, ReadFault>
    requires ordered { at ≤ end }
    requires inside { end ≤ length octets.now }

    // What is read is spelled so, and what is spelled so is read, unless memory is refused.
    ensures found { IfOk result (λ p. SpellsGoose p (slice_range octets.now at end)) }
    ensures only { (p : GoosePdu A) → SpellsGoose p (slice_range octets.now at end) → Reads result p }

    // What needs no memory is read whatever memory there is.
    ensures none { (p : GoosePdu A) → SpellsGoose p (slice_range octets.now at end) → GooseNeedsNoMemory p → IsOk result }

    // The fault that is answered is there, and the fault that is there is answered, whatever memory there is.
    ensures fault { IfRefused result (λ f. GooseFault f at (slice_range octets.now at end)) }
    ensures fault_only { (f : Fault) → GooseFault f at (slice_range octets.now at end) → result ≡ Err (ReadFault.Fault f) }
{
    let view = view_goose(octets, at, end)?;
    Ok(view.to_pdu(alloc)?)
}
