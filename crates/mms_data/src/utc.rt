//! The contents of a UtcTime.

ghost use Rattle.std.specs.Prelude.{◌≡◌, ◌≤◌, ◌<◌, ◌+◌, ◌^◌, Ok, Err, IfOk, IfErr, length};
ghost use Rattle.ber_core.specs.Contents.{CountedFault};
ghost use Rattle.ber_core.specs.Element.{contents_of};
ghost use Rattle.ber_core.specs.declared.fault.Fault.{Fault};
ghost use Rattle.mms_data.specs.Utc.{SpellsUtc, utc_of};
ghost use Rattle.mms_data.specs.computed.UtcReading.{utc_at};
ghost use Rattle.mms_data.specs.declared.time.UtcTime.{UtcTime};

use crate::time::UtcTime;
use ber_core::{Cause, Fault, Header};
use byteorder::{BigEndian, ByteOrder};

/// The time that the contents behind `header` spell (IEC 61850-8-1).
///
/// # Errors
///
/// `FixedLength` at the identifier's place plus 1, where the contents are not eight octets.
#[inline(always)]
pub fn utc_time(octets: &[u8], header: &Header) -> Result<UtcTime, Fault>
    requires behind { header.now.at < header.now.contents_from }
    requires ordered { header.now.contents_from ≤ header.now.contents_to }
    requires inside { header.now.contents_to ≤ length octets.now }

    // The time that is answered is spelled there, and the time that is spelled there is answered.
    ensures found { IfOk result (λ t. SpellsUtc t (contents_of octets.now header.now)) }
    ensures only { (t : UtcTime) → SpellsUtc t (contents_of octets.now header.now) → result ≡ Ok t }

    // The same of the fault.
    ensures fault { IfErr result (λ f. CountedFault f 8 header.now.at (contents_of octets.now header.now)) }
    ensures fault_only { (f : Fault) → CountedFault f 8 header.now.at (contents_of octets.now header.now) → result ≡ Err f }

    // For callers: the function on octets that it computes.
    ensures exact { result ≡ utc_at header.now.at (contents_of octets.now header.now) }
{
    eight_octets(&octets[header.contents_from..header.contents_to], header.at)
}

// The time that the contents spell, behind the identifier that stands at `at`.
#[inline(always)]
#[tactic(auto, unfolding(crate::specs::computed::UtcReading::utc_at))]
pub(crate) fn eight_octets(contents: &[u8], at: usize) -> Result<UtcTime, Fault>
    requires { at + 1 < 2 ^ 64 }
    ensures { result ≡ utc_at at contents.now }
{
    if contents.len() != 8 {
        return Err(Cause::FixedLength.at(at + 1));
    }
    Ok(time_of(contents))
}

/// The time that eight octets spell (IEC 61850-8-1): four of seconds, three of the fraction, and the quality.
#[inline(always)]
pub fn time_of(contents: &[u8]) -> UtcTime
    requires { length contents.now ≡ 8 }
    ensures { result ≡ utc_of contents.now }
{
    UtcTime {
        seconds: BigEndian::read_u32(contents),
        fraction: BigEndian::read_u24(&contents[4..]),
        quality: contents[7],
    }
}
