//! The number in the contents of an element that is known to stand at a place.

ghost use Rattle.std.specs.Prelude.{◌≡◌, ◌≤◌, ◌<◌, ◌+◌, ◌*◌, ℕ, length, pos, true, IfSome};
ghost use Rattle.ber_core.specs.Element.{contents_of};
ghost use Rattle.ber_core.specs.Written.{short_integer};
ghost use Rattle.pdu_core.specs.computed.ContentsReading.{number_in};
ghost use Rattle.repeat_core.specs.Standing.{SpellsNumber};

use ber_core::contents::integer_in;
use ber_core::{Fault, Header};
use mms_data::standing::is_short;

/// The number behind a header, if its contents spell one; one of one octet, of two or of four, as most are, is read at once.
#[inline(always)]
pub(crate) fn number_at(octets: &[u8], header: &Header) -> Option<u32>
    requires behind { header.now.at < header.now.contents_from }
    requires ordered { header.now.contents_from ≤ header.now.contents_to }
    requires inside { header.now.contents_to ≤ length octets.now }
    ensures { IfSome result (λ n. SpellsNumber n octets.now header.now) }
{
    match &octets[header.contents_from..header.contents_to] {
        [octet @ 0..=0x7f] => Some(u32::from(*octet)),
        [high @ 0..=0x7f, low] => Some(number_of(*high, *low)),
        [high @ 0..=0x7f, second, third, low] => {
            let (front, back) = (number_of(*high, *second), number_of(*third, *low));
            Some(front * 65536 + back)
        }
        _ => any_number_at(octets, header),
    }
}

// The number of two octets.
#[inline(always)]
fn number_of(high: u8, low: u8) -> u32
    ensures { result ≡ high * 256 + low }
{
    u32::from(high) * 256 + u32::from(low)
}

// The same of contents of any octets.
fn any_number_at(octets: &[u8], header: &Header) -> Option<u32>
    requires behind { header.now.at < header.now.contents_from }
    requires ordered { header.now.contents_from ≤ header.now.contents_to }
    requires inside { header.now.contents_to ≤ length octets.now }
    ensures { IfSome result (λ n. SpellsNumber n octets.now header.now) }
{
    match read_number(octets, header) {
        Ok(number) => Some(number),
        Err(_) => None,
    }
}

// The number, as reading gives it.
#[tactic(auto, unfolding(pdu_core::specs::computed::ContentsReading::number_in))]
fn read_number(octets: &[u8], header: &Header) -> Result<u32, Fault>
    requires behind { header.now.at < header.now.contents_from }
    requires ordered { header.now.contents_from ≤ header.now.contents_to }
    requires inside { header.now.contents_to ≤ length octets.now }
    ensures { result ≡ number_in octets.now header.now }
{
    Ok(integer_in(octets, header, 0, 0xffff_ffff)? as u32)
}

/// Whether the number behind a header has the fewest octets.
#[inline(always)]
pub(crate) fn is_number_short(octets: &[u8], header: &Header) -> bool
    requires ordered { header.now.contents_from ≤ header.now.contents_to }
    requires inside { header.now.contents_to ≤ length octets.now }
    ensures { result ≡ true → (n : ℕ) → SpellsNumber n octets.now header.now → contents_of octets.now header.now ≡ short_integer (pos n) }
{
    is_short(&octets[header.contents_from..header.contents_to])
}
