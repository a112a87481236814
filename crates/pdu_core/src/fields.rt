//! The fields of an APDU, kind by kind: the value of each, the place behind it, and whether it and what was read before are
//! known to stand in their written form. Inlined, so that no answer is put together in memory for each field.

ghost use Rattle.std.specs.Prelude.{Bool, ◌≡◌, ◌<◌, ◌≤◌, ◌+◌, ◌*◌, ◌∷◌, [], length, slice_range, IfOk, IfSome, Some, None, true, false};
ghost use Rattle.ber_core.specs.Contents.{SpellsBoolean};
ghost use Rattle.ber_core.specs.Element.{IsIdentifier, contents_of};
ghost use Rattle.ber_core.specs.computed.FieldReading.{field_as};
ghost use Rattle.ber_core.specs.Fields.{always, optional, default};
ghost use Rattle.ber_core.specs.computed.Reading.{Gives};
ghost use Rattle.mms_data.specs.Meaning.{left};
ghost use Rattle.mms_data.specs.Place.{IsPart, source_of};
ghost use Rattle.pdu_core.specs.Contents.{text, number, flag, time, members, a_text, a_number, a_flag, a_time, some_members};
ghost use Rattle.pdu_core.specs.computed.ContentsReading.{item_at, number_in, members_in};
ghost use Rattle.pdu_core.specs.Goose.{text_if};
ghost use Rattle.pdu_core.specs.Views.{octets_if, IsPartIf};
ghost use Rattle.pdu_core.specs.Written.{written_field, written_item};

use ber_core::contents::{boolean, integer_in, visible};
use ber_core::fields::{required, there};
use ber_core::{Fault, Header};
use mms_data::standing::{has_short_length, is_short};
use mms_data::utc::utc_time;
use mms_data::{CountedMembers, UtcTime, counted_members};

// The number behind a header.
#[inline(always)]
#[tactic(auto, unfolding(crate::specs::computed::ContentsReading::number_in))]
fn number(octets: &[u8], header: &Header) -> Result<u32, Fault>
    requires behind { header.now.at < header.now.contents_from }
    requires ordered { header.now.contents_from ≤ header.now.contents_to }
    requires inside { header.now.contents_to ≤ length octets.now }
    ensures { result ≡ number_in octets.now header.now }
{
    Ok(integer_in(octets, header, 0, 0xffff_ffff)? as u32)
}

// Whether the boolean behind a header is 0 or FF, as its written form is.
#[inline(always)]
fn is_boolean_written(octets: &[u8], header: &Header) -> bool
    requires ordered { header.now.contents_from ≤ header.now.contents_to }
    requires inside { header.now.contents_to ≤ length octets.now }
    ensures { result ≡ true → (b : Bool) → SpellsBoolean b (contents_of octets.now header.now) → contents_of octets.now header.now ≡ written_item (a_flag b) }
{
    let contents = &octets[header.contents_from..header.contents_to];
    matches!(contents, [0 | 0xff])
}

/// A text that is always there.
#[inline(always)]
pub fn text_field<'a>(
    octets: &'a [u8],
    at: usize,
    end: usize,
    identifier: u8,
    written: bool,
) -> Result<(&'a [u8], usize, bool), Fault>
    requires ordered { at ≤ end }
    requires inside { end ≤ length octets.now }
    ensures exact { Gives (λ x. (Some (a_text x.0.now), x.1)) result (field_as item_at identifier text always octets.now at end) }
    ensures next { IfOk result (λ x. (at ≤ x.1) × (x.1 ≤ end)) }
    ensures part { IfOk result (λ x. IsPart x.0 octets.entry) }
    ensures stands { IfOk result (λ x. x.2 ≡ true → (written ≡ true) × (slice_range octets.now at x.1 ≡ written_field identifier (Some (a_text x.0.now)))) }
{
    let header = required(octets, at, end, identifier)?;
    let text = visible(octets, &header)?;
    let written = written & has_short_length(&header);
    Ok((text, header.contents_to, written))
}

/// A text that may be absent.
#[inline(always)]
pub fn text_if_there<'a>(
    octets: &'a [u8],
    at: usize,
    end: usize,
    identifier: u8,
    written: bool,
) -> Result<(Option<&'a [u8]>, usize, bool), Fault>
    requires ordered { at ≤ end }
    requires inside { end ≤ length octets.now }
    ensures exact { Gives (λ x. (text_if (octets_if x.0), x.1)) result (field_as item_at identifier text optional octets.now at end) }
    ensures next { IfOk result (λ x. (at ≤ x.1) × (x.1 ≤ end)) }
    ensures part { IfOk result (λ x. IsPartIf x.0 octets.entry) }
    ensures stands { IfOk result (λ x. x.2 ≡ true → (written ≡ true) × (slice_range octets.now at x.1 ≡ written_field identifier (text_if (octets_if x.0)))) }
{
    match there(octets, at, end, identifier)? {
        Some(header) => {
            let text = visible(octets, &header)?;
            let written = written & has_short_length(&header);
            Ok((Some(text), header.contents_to, written))
        }
        None => Ok((None, at, written)),
    }
}

// The one octet of contents of the element of this identifier at `at`, where that has three octets.
#[inline(always)]
fn one_octet(octets: &[u8], at: usize, end: usize, identifier: u8) -> Option<u8>
    requires ordered { at ≤ end }
    requires inside { end ≤ length octets.now }
    ensures next { IfSome result (λ _. at + 3 ≤ end) }
    ensures there { IfSome result (λ n. slice_range octets.now at (at + 3) ≡ identifier ∷ 1 ∷ n ∷ []) }
{
    if end - at < 3 {
        return None;
    }
    match &octets[at..at + 3] {
        [first, 1, octet] if *first == identifier => Some(*octet),
        _ => None,
    }
}

// The contents of the element of this identifier at `at`, where there are so many and one octet spells their count.
#[inline(always)]
pub(crate) fn contents_there<'a, const N: usize>(
    octets: &'a [u8],
    at: usize,
    end: usize,
    identifier: u8,
) -> Option<&'a [u8]>
    requires ordered { at ≤ end }
    requires inside { end ≤ length octets.now }
    requires few { N < 128 }
    ensures next { IfSome result (λ _. at + 2 + N ≤ end) }
    ensures size { IfSome result (λ c. length c.now ≡ N) }
    ensures there { IfSome result (λ c. slice_range octets.now at (at + 2 + N) ≡ identifier ∷ N ∷ c.now) }
{
    if end - at < 2 + N {
        return None;
    }
    match &octets[at..at + 2 + N] {
        [first, size, contents @ ..] if *first == identifier && *size as usize == N => {
            Some(contents)
        }
        _ => None,
    }
}

/// A number that is always there. One of one octet or of two, as most are, is read at once.
#[inline(always)]
pub fn number_field(
    octets: &[u8],
    at: usize,
    end: usize,
    identifier: u8,
    written: bool,
) -> Result<(u32, usize, bool), Fault>
    requires ordered { at ≤ end }
    requires inside { end ≤ length octets.now }
    requires identifier { IsIdentifier identifier }
    ensures exact { Gives (λ x. (Some (a_number x.0), x.1)) result (field_as item_at identifier number always octets.now at end) }
    ensures next { IfOk result (λ x. (at ≤ x.1) × (x.1 ≤ end)) }
    ensures stands { IfOk result (λ x. x.2 ≡ true → (written ≡ true) × (slice_range octets.now at x.1 ≡ written_field identifier (Some (a_number x.0)))) }
{
    match one_octet(octets, at, end, identifier) {
        Some(octet @ 0..=0x7f) => Ok((octet as u32, at + 3, written)),
        _ => longer_number_field(octets, at, end, identifier, written),
    }
}

// The same of a number that may have two octets. It stands in its written form where one octet would not hold it.
#[inline(always)]
fn longer_number_field(
    octets: &[u8],
    at: usize,
    end: usize,
    identifier: u8,
    written: bool,
) -> Result<(u32, usize, bool), Fault>
    requires ordered { at ≤ end }
    requires inside { end ≤ length octets.now }
    requires identifier { IsIdentifier identifier }
    ensures exact { Gives (λ x. (Some (a_number x.0), x.1)) result (field_as item_at identifier number always octets.now at end) }
    ensures next { IfOk result (λ x. (at ≤ x.1) × (x.1 ≤ end)) }
    ensures stands { IfOk result (λ x. x.2 ≡ true → (written ≡ true) × (slice_range octets.now at x.1 ≡ written_field identifier (Some (a_number x.0)))) }
{
    match contents_there::<2>(octets, at, end, identifier) {
        Some([high @ 0..=0x7f, low]) => {
            let short = is_short(&[*high, *low]);
            Ok((number_of(*high, *low), at + 4, written & short))
        }
        _ => any_number_field(octets, at, end, identifier, written),
    }
}

// The number of two octets.
#[inline(always)]
fn number_of(high: u8, low: u8) -> u32
    ensures { result ≡ high * 256 + low }
{
    u32::from(high) * 256 + u32::from(low)
}

// The same of a number of any octets.
#[inline(always)]
fn any_number_field(
    octets: &[u8],
    at: usize,
    end: usize,
    identifier: u8,
    written: bool,
) -> Result<(u32, usize, bool), Fault>
    requires ordered { at ≤ end }
    requires inside { end ≤ length octets.now }
    ensures exact { Gives (λ x. (Some (a_number x.0), x.1)) result (field_as item_at identifier number always octets.now at end) }
    ensures next { IfOk result (λ x. (at ≤ x.1) × (x.1 ≤ end)) }
    ensures stands { IfOk result (λ x. x.2 ≡ true → (written ≡ true) × (slice_range octets.now at x.1 ≡ written_field identifier (Some (a_number x.0)))) }
{
    let header = required(octets, at, end, identifier)?;
    let number = number(octets, &header)?;
    let short = is_short(&octets[header.contents_from..header.contents_to]);
    let written = written & has_short_length(&header) & short;
    Ok((number, header.contents_to, written))
}

/// A time that is always there.
#[inline(always)]
pub fn time_field(
    octets: &[u8],
    at: usize,
    end: usize,
    identifier: u8,
    written: bool,
) -> Result<(UtcTime, usize, bool), Fault>
    requires ordered { at ≤ end }
    requires inside { end ≤ length octets.now }
    ensures exact { Gives (λ x. (Some (a_time x.0), x.1)) result (field_as item_at identifier time always octets.now at end) }
    ensures next { IfOk result (λ x. (at ≤ x.1) × (x.1 ≤ end)) }
    ensures stands { IfOk result (λ x. x.2 ≡ true → (written ≡ true) × (slice_range octets.now at x.1 ≡ written_field identifier (Some (a_time x.0)))) }
{
    let header = required(octets, at, end, identifier)?;
    let time = utc_time(octets, &header)?;
    let written = written & has_short_length(&header);
    Ok((time, header.contents_to, written))
}

/// A boolean whose absence means false. One that is 0 or FF, as most are, is read at once.
#[inline(always)]
pub fn flag_if_there(
    octets: &[u8],
    at: usize,
    end: usize,
    identifier: u8,
    written: bool,
) -> Result<(bool, usize, bool), Fault>
    requires ordered { at ≤ end }
    requires inside { end ≤ length octets.now }
    requires identifier { IsIdentifier identifier }
    ensures exact { Gives (λ x. (Some (a_flag x.0), x.1)) result (field_as item_at identifier flag (default (a_flag false)) octets.now at end) }
    ensures next { IfOk result (λ x. (at ≤ x.1) × (x.1 ≤ end)) }
    ensures stands { IfOk result (λ x. x.2 ≡ true → (written ≡ true) × (slice_range octets.now at x.1 ≡ written_field identifier (Some (a_flag x.0)))) }
{
    match one_octet(octets, at, end, identifier) {
        Some(0) => Ok((false, at + 3, written)),
        Some(0xff) => Ok((true, at + 3, written)),
        _ => any_flag_if_there(octets, at, end, identifier, written),
    }
}

// The same of a boolean with any octet.
#[inline(always)]
fn any_flag_if_there(
    octets: &[u8],
    at: usize,
    end: usize,
    identifier: u8,
    written: bool,
) -> Result<(bool, usize, bool), Fault>
    requires ordered { at ≤ end }
    requires inside { end ≤ length octets.now }
    ensures exact { Gives (λ x. (Some (a_flag x.0), x.1)) result (field_as item_at identifier flag (default (a_flag false)) octets.now at end) }
    ensures next { IfOk result (λ x. (at ≤ x.1) × (x.1 ≤ end)) }
    ensures stands { IfOk result (λ x. x.2 ≡ true → (written ≡ true) × (slice_range octets.now at x.1 ≡ written_field identifier (Some (a_flag x.0)))) }
{
    match there(octets, at, end, identifier)? {
        Some(header) => {
            let flag = boolean(octets, &header)?;
            let is_written = is_boolean_written(octets, &header);
            let written = written & has_short_length(&header) & is_written;
            Ok((flag, header.contents_to, written))
        }
        None => Ok((false, at, false)),
    }
}

/// Members of Data that are always there, judged for their written form where `NOTES` is true.
#[inline(always)]
#[tactic(auto, unfolding(crate::specs::computed::ContentsReading::members_in))]
pub fn members_field<'a, const NOTES: bool>(
    octets: &'a [u8],
    at: usize,
    end: usize,
    identifier: u8,
    written: bool,
) -> Result<(CountedMembers<'a>, usize, bool), Fault>
    requires ordered { at ≤ end }
    requires inside { end ≤ length octets.now }
    ensures exact { Gives (λ x. (Some (some_members (left x.0.members)), x.1)) result (field_as item_at identifier members always octets.now at end) }
    ensures next { IfOk result (λ x. (at ≤ x.1) × (x.1 ≤ end)) }
    ensures count { IfOk result (λ x. x.0.count ≡ length (left x.0.members)) }
    ensures part { IfOk result (λ x. IsPart (source_of x.0.members) octets.entry) }
    ensures stands { IfOk result (λ x. x.2 ≡ true → (written ≡ true) × (slice_range octets.now at x.1 ≡ written_field identifier (Some (some_members (left x.0.members))))) }
{
    let header = required(octets, at, end, identifier)?;
    let entries = counted_members(octets, header.contents_from, header.contents_to, 1, NOTES)?;
    let written = written & has_short_length(&header) & entries.written;
    Ok((entries, header.contents_to, written))
}
