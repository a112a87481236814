//! Frames of other protocols.

ghost use Rattle.std.specs.Prelude.{◌≡◌, ◌⊎◌, ℕ, IfSome, IsSome, Some};
ghost use Rattle.ber_core.specs.Faults.{fault_of};
ghost use Rattle.ber_core.specs.declared.fault.Cause.TheVariants as causes;
ghost use Rattle.ber_core.specs.declared.fault.Fault.{Fault};
ghost use Rattle.frame_core.specs.Envelope.{ether_place};
ghost use Rattle.frame_core.specs.FrameFault.{FrameFault};
ghost use Rattle.frame_core.specs.OtherType.{IsOther, other_type};

use crate::envelope::{announces_apdu, ether_type_place, word};

/// The EtherType of a frame of another protocol than GOOSE and Sampled Values (IEEE 802.3, IEEE 802.1Q), however long it is: a
/// network card puts segments together. `None` for each other frame, so where it ends before its EtherType does.
pub fn other_ether_type(octets: &[u8]) -> Option<u16>
    ensures exact { result ≡ other_type octets.now }
    ensures found { IfSome result (λ t. IsOther t octets.now) }
    ensures only { (t : ℕ) → IsOther t octets.now → result ≡ Some t }
    ensures fault { IfSome result (λ t. FrameFault (fault_of (ether_place octets.now) causes.EtherType) octets.now ⊎ FrameFault (fault_of 1600 causes.FrameTooLong) octets.now) }
    ensures every { (f : Fault) → FrameFault f octets.now → f.cause ≡ causes.EtherType → IsSome result }
{
    if octets.len() < 14 {
        return None;
    }
    let place = ether_type_place(octets);
    if octets.len() < place + 2 {
        return None;
    }
    let ether_type = word(octets, place);
    if announces_apdu(ether_type) {
        return None;
    }
    Some(ether_type)
}
