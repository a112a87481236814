//! The fields of an ASDU that GOOSE has no like of, kind by kind: the value of each, the place behind it, and what is known
//! of their written form. Inlined as those of a GOOSE APDU are.

ghost use Rattle.std.specs.Prelude.{◌≡◌, ◌<◌, ◌≤◌, length, slice_range, true, IfOk, Some};
ghost use Rattle.byteorder.specs.Endian.{big_number};
ghost use Rattle.ber_core.specs.Element.{IsIdentifier, contents_of};
ghost use Rattle.ber_core.specs.computed.FieldReading.{field_as};
ghost use Rattle.ber_core.specs.Fields.{always, optional};
ghost use Rattle.ber_core.specs.computed.Reading.{Gives};
ghost use Rattle.mms_data.specs.Place.{IsPart};
ghost use Rattle.pdu_core.specs.Asdu.{fixed_if, some_octets_if, time_if};
ghost use Rattle.pdu_core.specs.Contents.{fixed, raw, few, time, a_fixed, some_octets};
ghost use Rattle.pdu_core.specs.computed.ContentsReading.{few_at, fixed_in, item_at};
ghost use Rattle.pdu_core.specs.Views.{octets_if, IsPartIf};
ghost use Rattle.pdu_core.specs.Written.{written_field};

use crate::fields::contents_there;
use ber_core::contents::counted;
use ber_core::fields::{required, there};
use ber_core::{Cause, Fault, Header};
use byteorder::{BigEndian, ByteOrder};
use mms_data::UtcTime;
use mms_data::standing::has_short_length;
use mms_data::utc::utc_time;

// The one to sixteen octets behind a header.
#[inline(always)]
#[tactic(auto, unfolding(crate::specs::computed::ContentsReading::few_at))]
fn few_octets<'a>(octets: &'a [u8], header: &Header) -> Result<&'a [u8], Fault>
    requires behind { header.now.at < header.now.contents_from }
    requires ordered { header.now.contents_from ≤ header.now.contents_to }
    requires inside { header.now.contents_to ≤ length octets.now }
    ensures exact { Gives (λ c. c.now) result (few_at header.now.at (contents_of octets.now header.now)) }
    ensures part { IfOk result (λ c. IsPart c octets.entry) }
{
    let contents = &octets[header.contents_from..header.contents_to];
    match contents.len() {
        1..=16 => Ok(contents),
        _ => Err(Cause::FixedLength.at(header.at + 1)),
    }
}

/// The octets of a number of `N` octets that is always there. One of a length of one octet, as is usual, is read at once.
#[inline(always)]
#[tactic(auto, unfolding(crate::specs::computed::ContentsReading::fixed_in))]
pub fn fixed_field<'a, const N: usize>(
    octets: &'a [u8],
    at: usize,
    end: usize,
    identifier: u8,
    written: bool,
) -> Result<(&'a [u8], usize, bool), Fault>
    requires ordered { at ≤ end }
    requires inside { end ≤ length octets.now }
    requires identifier { IsIdentifier identifier }
    requires few { N < 128 }
    ensures exact { Gives (λ x. (Some (a_fixed N (big_number N x.0.now)), x.1)) result (field_as item_at identifier (fixed N) always octets.now at end) }
    ensures next { IfOk result (λ x. (at ≤ x.1) × (x.1 ≤ end)) }
    ensures size { IfOk result (λ x. length x.0.now ≡ N) }
    ensures stands { IfOk result (λ x. x.2 ≡ true → (written ≡ true) × (slice_range octets.now at x.1 ≡ written_field identifier (Some (a_fixed N (big_number N x.0.now))))) }
{
    match contents_there::<N>(octets, at, end, identifier) {
        Some(number) => Ok((number, at + 2 + N, written)),
        None => {
            let header = required(octets, at, end, identifier)?;
            let number = counted(octets, &header, N)?;
            let written = written & has_short_length(&header);
            Ok((number, header.contents_to, written))
        }
    }
}

/// A number of two octets that may be absent.
#[inline(always)]
#[tactic(auto, unfolding(crate::specs::computed::ContentsReading::fixed_in))]
pub fn two_octets_if_there(
    octets: &[u8],
    at: usize,
    end: usize,
    identifier: u8,
    written: bool,
) -> Result<(Option<u16>, usize, bool), Fault>
    requires ordered { at ≤ end }
    requires inside { end ≤ length octets.now }
    ensures exact { Gives (λ x. (fixed_if 2 x.0, x.1)) result (field_as item_at identifier (fixed 2) optional octets.now at end) }
    ensures next { IfOk result (λ x. (at ≤ x.1) × (x.1 ≤ end)) }
    ensures stands { IfOk result (λ x. x.2 ≡ true → (written ≡ true) × (slice_range octets.now at x.1 ≡ written_field identifier (fixed_if 2 x.0))) }
{
    match there(octets, at, end, identifier)? {
        Some(header) => {
            let number = counted(octets, &header, 2)?;
            let written = written & has_short_length(&header);
            Ok((
                Some(BigEndian::read_u16(number)),
                header.contents_to,
                written,
            ))
        }
        None => Ok((None, at, written)),
    }
}

/// A time that may be absent.
#[inline(always)]
pub fn time_if_there(
    octets: &[u8],
    at: usize,
    end: usize,
    identifier: u8,
    written: bool,
) -> Result<(Option<UtcTime>, usize, bool), Fault>
    requires ordered { at ≤ end }
    requires inside { end ≤ length octets.now }
    ensures exact { Gives (λ x. (time_if x.0, x.1)) result (field_as item_at identifier time optional octets.now at end) }
    ensures next { IfOk result (λ x. (at ≤ x.1) × (x.1 ≤ end)) }
    ensures stands { IfOk result (λ x. x.2 ≡ true → (written ≡ true) × (slice_range octets.now at x.1 ≡ written_field identifier (time_if x.0))) }
{
    match there(octets, at, end, identifier)? {
        Some(header) => {
            let value = utc_time(octets, &header)?;
            let written = written & has_short_length(&header);
            Ok((Some(value), header.contents_to, written))
        }
        None => Ok((None, at, written)),
    }
}

/// Octets that are always there, of any count.
#[inline(always)]
pub fn raw_field<'a>(
    octets: &'a [u8],
    at: usize,
    end: usize,
    identifier: u8,
    written: bool,
) -> Result<(&'a [u8], usize, bool), Fault>
    requires ordered { at ≤ end }
    requires inside { end ≤ length octets.now }
    ensures exact { Gives (λ x. (Some (some_octets x.0.now), x.1)) result (field_as item_at identifier raw always octets.now at end) }
    ensures next { IfOk result (λ x. (at ≤ x.1) × (x.1 ≤ end)) }
    ensures part { IfOk result (λ x. IsPart x.0 octets.entry) }
    ensures stands { IfOk result (λ x. x.2 ≡ true → (written ≡ true) × (slice_range octets.now at x.1 ≡ written_field identifier (Some (some_octets x.0.now)))) }
{
    let header = required(octets, at, end, identifier)?;
    let contents = &octets[header.contents_from..header.contents_to];
    let written = written & has_short_length(&header);
    Ok((contents, header.contents_to, written))
}

/// One to sixteen octets that may be absent.
#[inline(always)]
pub fn few_if_there<'a>(
    octets: &'a [u8],
    at: usize,
    end: usize,
    identifier: u8,
    written: bool,
) -> Result<(Option<&'a [u8]>, usize, bool), Fault>
    requires ordered { at ≤ end }
    requires inside { end ≤ length octets.now }
    ensures exact { Gives (λ x. (some_octets_if (octets_if x.0), x.1)) result (field_as item_at identifier few optional octets.now at end) }
    ensures next { IfOk result (λ x. (at ≤ x.1) × (x.1 ≤ end)) }
    ensures part { IfOk result (λ x. IsPartIf x.0 octets.entry) }
    ensures stands { IfOk result (λ x. x.2 ≡ true → (written ≡ true) × (slice_range octets.now at x.1 ≡ written_field identifier (some_octets_if (octets_if x.0)))) }
{
    match there(octets, at, end, identifier)? {
        Some(header) => {
            let value = few_octets(octets, &header)?;
            let written = written & has_short_length(&header);
            Ok((Some(value), header.contents_to, written))
        }
        None => Ok((None, at, written)),
    }
}
