//! The fields of a sequence, one after the other (ISO/IEC 8825-1, 8.9): the element that may or must stand
//! at a place, and the sequence's end. What its contents spell is read by `contents` or by the crate whose
//! sequence it is. Inlined, so that no header is put together in memory for each field.

ghost use Rattle.std.specs.Prelude.{◌≡◌, ◌≤◌, ◌<◌, ◌↔◌, Ok, Err, Some, None, length, slice_range, IfOk, IfErr, IfSome, IsOk};
ghost use Rattle.ber_core.specs.Faults.{fault_of};
ghost use Rattle.ber_core.specs.computed.FieldReading.{absence, ends_at, required_at, there_at};
ghost use Rattle.ber_core.specs.Fields.{BeginsWith, IsField, PresentFault, RequiredFault};
ghost use Rattle.ber_core.specs.computed.Reading.{IsWithin};
ghost use Rattle.ber_core.specs.declared.element.Header.{Header};
ghost use Rattle.ber_core.specs.declared.fault.Fault.{Fault};

use crate::element::Header;
use crate::fault::{Cause, Fault};
use crate::reading::{header, known_header};

/// The element of this identifier that may stand at the place `at`, inside the region that ends at `end`;
/// `None` where the region ends there, or another identifier stands there.
///
/// # Errors
///
/// Those of the element's length, as `header` has them.
#[inline(always)]
pub fn there(octets: &[u8], at: usize, end: usize, identifier: u8) -> Result<Option<Header>, Fault>
    requires ordered { at ≤ end }
    requires inside { end ≤ length octets.now }

    // The element that is answered stands there, and the element that stands there is answered; and none exactly
    // where the identifier does not stand there.
    ensures found { IfOk result (λ there. IfSome there (IsField identifier octets.now at end)) }
    ensures only { (h : Header) → IsField identifier octets.now at end h → result ≡ Ok (Some h) }
    ensures absent { (result ≡ Ok None) ↔ (¬ BeginsWith identifier (slice_range octets.now at end)) }

    // The fault that is answered is there, and the fault that is there is answered.
    ensures fault { IfErr result (λ f. PresentFault identifier f at (slice_range octets.now at end)) }
    ensures fault_only { (f : Fault) → PresentFault identifier f at (slice_range octets.now at end) → result ≡ Err f }

    // For callers: the function on octets that it computes, and the order of the places.
    ensures exact { result ≡ there_at identifier octets.now at end }
    ensures places { IfOk result (λ there. IfSome there (λ h. IsWithin at end h)) }
{
    read_there(octets, at, end, identifier)
}

// The element, as reading gives it.
#[inline(always)]
#[tactic(auto, unfolding(crate::specs::computed::FieldReading::there_at))]
fn read_there(octets: &[u8], at: usize, end: usize, identifier: u8) -> Result<Option<Header>, Fault>
    requires ordered { at ≤ end }
    requires inside { end ≤ length octets.now }
    ensures exact { result ≡ there_at identifier octets.now at end }
    ensures places { IfOk result (λ there. IfSome there (λ h. IsWithin at end h)) }
{
    match &octets[at..end] {
        [] => Ok(None),
        [first, ..] => {
            if *first != identifier {
                return Ok(None);
            }
            Ok(Some(header(octets, at, end)?))
        }
    }
}

// The fault where a field that is always there is not.
fn absent(octets: &[u8], at: usize, end: usize) -> Fault
    requires ordered { at ≤ end }
    requires inside { end ≤ length octets.now }
    ensures { result ≡ absence at (slice_range octets.now at end) }
{
    match &octets[at..end] {
        [] => Cause::ElementMissing.at(at),
        [first, ..] => {
            if *first % 32 == 31 {
                Cause::HighTag.at(at)
            } else {
                Cause::UnexpectedTag.at(at)
            }
        }
    }
}

/// The element of this identifier that must stand at the place `at`, inside the region that ends at `end`.
///
/// # Errors
///
/// At `at`: `ElementMissing` where the region ends there, `HighTag` or `UnexpectedTag` where another
/// identifier stands there. Otherwise those of the element's length, as `header` has them.
#[inline(always)]
pub fn required(octets: &[u8], at: usize, end: usize, identifier: u8) -> Result<Header, Fault>
    requires ordered { at ≤ end }
    requires inside { end ≤ length octets.now }

    // The element that is answered stands there, and the element that stands there is answered.
    ensures found { IfOk result (IsField identifier octets.now at end) }
    ensures only { (h : Header) → IsField identifier octets.now at end h → result ≡ Ok h }

    // The same of the fault.
    ensures fault { IfErr result (λ f. RequiredFault identifier f at (slice_range octets.now at end)) }
    ensures fault_only { (f : Fault) → RequiredFault identifier f at (slice_range octets.now at end) → result ≡ Err f }

    // For callers: the function on octets that it computes, and the order of the places.
    ensures exact { result ≡ required_at identifier octets.now at end }
    ensures places { IfOk result (λ h. IsWithin at end h) }
{
    read_required(octets, at, end, identifier)
}

// The element, as reading gives it.
#[inline(always)]
#[tactic(auto, unfolding(crate::specs::computed::FieldReading::required_at))]
fn read_required(octets: &[u8], at: usize, end: usize, identifier: u8) -> Result<Header, Fault>
    requires ordered { at ≤ end }
    requires inside { end ≤ length octets.now }
    ensures exact { result ≡ required_at identifier octets.now at end }
    ensures places { IfOk result (λ h. IsWithin at end h) }
{
    match read_there(octets, at, end, identifier)? {
        Some(header) => Ok(header),
        None => Err(absent(octets, at, end)),
    }
}

/// The element that may stand at the place `at`, where it is known that `there` finds one or none there.
#[inline(always)]
#[tactic(auto, unfolding(crate::specs::computed::FieldReading::there_at))]
pub fn known_there(octets: &[u8], at: usize, end: usize, identifier: u8) -> Option<Header>
    requires ordered { at ≤ end }
    requires inside { end ≤ length octets.now }
    requires known { IsOk (there_at identifier octets.now at end) }

    // For callers: the function on octets that it computes, and the order of the places.
    ensures exact { there_at identifier octets.now at end ≡ Ok result }
    ensures places { IfSome result (λ h. IsWithin at end h) }
{
    match &octets[at..end] {
        [] => None,
        [first, ..] => {
            if identifier != *first {
                return None;
            }
            Some(known_header(octets, at, end))
        }
    }
}

/// The element that must stand at the place `at`, where it is known that `required` finds it there.
#[inline(always)]
pub fn known_required(octets: &[u8], at: usize, end: usize, identifier: u8) -> Header
    requires ordered { at ≤ end }
    requires inside { end ≤ length octets.now }
    requires known { IsOk (required_at identifier octets.now at end) }

    // For callers: the function on octets that it computes, and the order of the places.
    ensures exact { required_at identifier octets.now at end ≡ Ok result }
    ensures places { IsWithin at end result }
{
    known_header(octets, at, end)
}

/// Whether the sequence whose last field ended at `place` fills the region that ends at `end`.
///
/// # Errors
///
/// `ExtraOctets` at `place`, where octets follow.
#[inline(always)]
pub fn check_end(place: usize, end: usize) -> Result<(), Fault>
    ensures found { IfOk result (λ _. end ≤ place) }
    ensures only { end ≤ place → result ≡ Ok tt }
    ensures fault { IfErr result (λ f. (place < end) × (f ≡ fault_of place Cause.ExtraOctets)) }
    ensures fault_only { place < end → result ≡ Err (fault_of place Cause.ExtraOctets) }
    ensures exact { result ≡ ends_at place end }
{
    if place < end {
        Err(Cause::ExtraOctets.at(place))
    } else {
        Ok(())
    }
}
