//! Reading a savPdu into memory of its own.

ghost use Rattle.std.specs.Prelude.{◌≡◌, ◌≤◌, Err, length, slice_range, IfOk};
ghost use Rattle.ber_core.specs.declared.fault.Fault.{Fault};
ghost use Rattle.mms_data.specs.Answers.{IfRefused, Reads};
ghost use Rattle.pdu_core.specs.Sampled.{SpellsSv, SvFault};
ghost use Rattle.pdu_core.specs.declared.sampled.asdu.SvPdu.{SvPdu};

use crate::sampled::asdu::SvPdu;
use crate::sampled::viewing::view_sv;
use mms_data::ReadFault;
use std::alloc::Allocator;

/// The APDU whose one element fills the octets from `at` to `end` (IEC 61850-9-2, savPdu), in memory of its
/// own.
///
/// # Errors
///
/// `Fault` as `view_sv` answers it; `Memory` where memory is refused.
pub fn read_sv<A: Allocator + Copy>(
    alloc: A,
    octets: &[u8],
    at: usize,
    end: usize,
) -> Result<SvPdu<A>, ReadFault>
    requires ordered { at ≤ end }
    requires inside { end ≤ length octets.now }

    // What is read is spelled so, and what is spelled so is read, unless memory is refused.
    ensures found { IfOk result (λ p. SpellsSv p (slice_range octets.now at end)) }
    ensures only { (p : SvPdu A) → SpellsSv p (slice_range octets.now at end) → Reads result p }

    // The fault that is answered is there, and the fault that is there is answered, whatever memory there is.
    ensures fault { IfRefused result (λ f. SvFault f at (slice_range octets.now at end)) }
    ensures fault_only { (f : Fault) → SvFault f at (slice_range octets.now at end) → result ≡ Err (ReadFault.Fault f) }
{
    let view = view_sv(octets, at, end)?;
    Ok(view.to_pdu(alloc)?)
}
