//! Headers and integers, read from a slice. A header of one length octet is read without a call.

ghost use Rattle.std.specs.Prelude.{◌≡◌, ◌≤◌, ◌<◌, ◌+◌, ◌^◌, ◌⊎◌, ℤ, Ok, Err, length, slice_index, slice_range, IfOk, IfErr, IsOk};
ghost use Rattle.byteorder.specs.Endian.{big_number};
ghost use Rattle.ber_core.specs.computed.ContentsReading.{any_integer_at};
ghost use Rattle.ber_core.specs.Element.{IsHeader, contents_of};
ghost use Rattle.ber_core.specs.Faults.{HeaderFault, fault_of};
ghost use Rattle.ber_core.specs.Integer.{Int};
ghost use Rattle.ber_core.specs.computed.Reading.{IsWithin, counted_length_at, header_at, length_at, sized_at};
ghost use Rattle.ber_core.specs.declared.element.Header.{Header};
ghost use Rattle.ber_core.specs.declared.fault.Fault.{Fault};

use crate::element::Header;
use crate::fault::{Cause, Fault};
use byteorder::{BigEndian, ByteOrder};

/// The element that stands at the place `at`, inside the region that ends at `end`
/// (ISO/IEC 8825-1, 8.1.2 and 8.1.3).
///
/// # Errors
///
/// `Ends`, `HighTag`, `Indefinite`, `LengthForm` or `LengthPastEnd`, at the place of the octet at fault.
#[inline(always)]
#[tactic(auto, unfolding(crate::specs::computed::Reading::header_at))]
pub fn header(octets: &[u8], at: usize, end: usize) -> Result<Header, Fault>
    requires ordered { at ≤ end }
    requires inside { end ≤ length octets.now }

    // The header that is answered stands there, and the header that stands there is answered.
    ensures found { IfOk result (IsHeader octets.now at end) }
    ensures only { (h : Header) → IsHeader octets.now at end h → result ≡ Ok h }

    // The same of the fault.
    ensures fault { IfErr result (λ f. HeaderFault f at (slice_range octets.now at end)) }
    ensures fault_only { (f : Fault) → HeaderFault f at (slice_range octets.now at end) → result ≡ Err f }

    // For callers: the function on octets that it computes, and the order of the places.
    ensures exact { result ≡ header_at at (slice_range octets.now at end) }
    ensures places { IfOk result (λ h. IsWithin at end h) }
{
    read_header(octets, at, end)
}

// The header, as reading from left to right gives it.
#[inline(always)]
#[tactic(auto, unfolding(crate::specs::computed::Reading::header_at))]
fn read_header(octets: &[u8], at: usize, end: usize) -> Result<Header, Fault>
    requires ordered { at ≤ end }
    requires inside { end ≤ length octets.now }
    ensures exact { result ≡ header_at at (slice_range octets.now at end) }
    ensures places { IfOk result (λ h. IsWithin at end h) }
{
    match &octets[at..end] {
        [] => Err(Cause::Ends.at(at)),
        [identifier, rest @ ..] => {
            if *identifier % 32 == 31 {
                return Err(Cause::HighTag.at(at));
            }
            with_length(at, *identifier, rest)
        }
    }
}

// The header of an identifier that stands at `at`, with the length that follows it.
#[inline(always)]
#[tactic(auto, unfolding(crate::specs::computed::Reading::length_at))]
fn with_length(at: usize, identifier: u8, octets: &[u8]) -> Result<Header, Fault>
    requires { at + 1 + length octets.now < 2 ^ 64 }
    ensures exact { result ≡ length_at at identifier octets.now }
    ensures places { IfOk result (λ h. IsWithin at (at + 1 + length octets.now) h) }
{
    match octets {
        [] => Err(Cause::Ends.at(at + 1)),
        [first, rest @ ..] => {
            if *first < 128 {
                with_size(at, identifier, at + 2, *first as usize, rest)
            } else if *first == 128 {
                Err(Cause::Indefinite.at(at + 1))
            } else if 132 < *first {
                Err(Cause::LengthForm.at(at + 1))
            } else {
                with_counted_length(at, identifier, (*first - 128) as usize, rest)
            }
        }
    }
}

// The same where the first `count` of the octets spell the length. Never inlined, as few lengths are so long.
#[inline(never)]
#[tactic(auto, unfolding(crate::specs::computed::Reading::counted_length_at))]
fn with_counted_length(
    at: usize,
    identifier: u8,
    count: usize,
    octets: &[u8],
) -> Result<Header, Fault>
    requires low { 1 ≤ count }
    requires high { count ≤ 4 }
    requires fits { at + 2 + length octets.now < 2 ^ 64 }
    ensures exact { result ≡ counted_length_at at identifier count octets.now }
    ensures places { IfOk result (λ h. IsWithin at (at + 2 + length octets.now) h) }
{
    if octets.len() < count {
        return Err(Cause::Ends.at(at + 2 + octets.len()));
    }
    let size = size_in(octets, count);
    with_size(at, identifier, at + 2 + count, size, &octets[count..])
}

// The length that the first `count` octets spell. Of one and two, which are nearly all, the compiler knows the count.
#[inline(always)]
fn size_in(octets: &[u8], count: usize) -> usize
    requires low { 1 ≤ count }
    requires high { count ≤ 4 }
    requires there { count ≤ length octets.now }
    ensures { result ≡ big_number count octets.now }
{
    match count {
        1 => BigEndian::read_uint(octets, 1) as usize,
        2 => BigEndian::read_uint(octets, 2) as usize,
        _ => BigEndian::read_uint(octets, count) as usize,
    }
}

// The same where `size` octets of contents stand at `contents_from`, the first of `octets`.
#[inline(always)]
fn with_size(
    at: usize,
    identifier: u8,
    contents_from: usize,
    size: usize,
    octets: &[u8],
) -> Result<Header, Fault>
    requires begins { at < contents_from }
    requires fits { contents_from + length octets.now < 2 ^ 64 }
    ensures exact { result ≡ sized_at at identifier contents_from size octets.now }
    ensures places { IfOk result (λ h. IsWithin at (contents_from + length octets.now) h) }
{
    if octets.len() < size {
        return Err(Cause::LengthPastEnd.at(at + 1));
    }
    Ok(Header {
        at,
        identifier,
        contents_from,
        contents_to: contents_from + size,
    })
}

/// The element that stands at the place `at`, inside the region that ends at `end`, where it is known that one does: what
/// `header` answers, without a look at what would be at fault.
#[inline(always)]
pub fn known_header(octets: &[u8], at: usize, end: usize) -> Header
    requires ordered { at ≤ end }
    requires inside { end ≤ length octets.now }
    requires known { IsOk (header_at at (slice_range octets.now at end)) }

    // The header that stands there.
    ensures found { IsHeader octets.now at end result }

    // For callers: the function on octets that it computes, and the order of the places.
    ensures exact { header_at at (slice_range octets.now at end) ≡ Ok result }
    ensures places { IsWithin at end result }
{
    known_front(at, &octets[at..end])
}

// The header of the element at the front of octets, which stand at `at`.
#[inline(always)]
fn known_front(at: usize, octets: &[u8]) -> Header
    requires fits { at + length octets.now < 2 ^ 64 }
    requires known { IsOk (header_at at octets.now) }
    ensures exact { header_at at octets.now ≡ Ok result }
    ensures places { IsWithin at (at + length octets.now) result }
{
    let (identifier, first) = (octets[0], octets[1]);
    if first < 128 {
        Header {
            at,
            identifier,
            contents_from: at + 2,
            contents_to: at + 2 + first as usize,
        }
    } else {
        let (_front, rest) = octets.split_at(2);
        known_long(at, identifier, (first - 128) as usize, rest)
    }
}

// The same where the first `count` of the octets behind the first length octet spell the length. Never inlined, as few
// lengths are so long.
#[inline(never)]
fn known_long(at: usize, identifier: u8, count: usize, rest: &[u8]) -> Header
    requires some { 1 ≤ count }
    requires few { count ≤ 4 }
    requires fits { at + 2 + length rest.now < 2 ^ 64 }
    requires room { count + big_number count rest.now ≤ length rest.now }
    ensures { result ≡ record { at = at; identifier = identifier; contents_from = at + 2 + count; contents_to = at + 2 + count + big_number count rest.now } }
{
    let contents_from = at + 2 + count;
    let size = size_in(rest, count);
    Header {
        at,
        identifier,
        contents_from,
        contents_to: contents_from + size,
    }
}

/// The number that the contents of the element behind `header` spell (ISO/IEC 8825-1, 8.3).
///
/// # Errors
///
/// `IntegerLength` at the identifier's place plus 1, where the contents have no octet or over nine.
pub fn integer(octets: &[u8], header: &Header) -> Result<i128, Fault>
    requires behind { header.now.at < header.now.contents_from }
    requires ordered { header.now.contents_from ≤ header.now.contents_to }
    requires inside { header.now.contents_to ≤ length octets.now }
    ensures found { IfOk result (λ n. Int n (contents_of octets.now header.now)) }
    ensures only { (n : ℤ) → Int n (contents_of octets.now header.now) → result ≡ Ok n }
    ensures fault { IfErr result (λ f. (f ≡ fault_of (header.now.at + 1) Cause.IntegerLength)
        × ((length (contents_of octets.now header.now) ≡ 0) ⊎ (9 < length (contents_of octets.now header.now)))) }
    ensures fault_only { (length (contents_of octets.now header.now) ≡ 0) ⊎ (9 < length (contents_of octets.now header.now)) → result ≡ Err (fault_of (header.now.at + 1) Cause.IntegerLength) }
    ensures exact { result ≡ any_integer_at header.now.at (contents_of octets.now header.now) }
{
    any_integer(&octets[header.contents_from..header.contents_to], header.at)
}

// The number that contents spell whose identifier stands at the place `at`. Contents of the counts that are met most are
// read without a call.
#[inline(always)]
#[tactic(auto, unfolding(crate::specs::computed::ContentsReading::any_integer_at))]
pub(crate) fn any_integer(contents: &[u8], at: usize) -> Result<i128, Fault>
    requires { at + 1 < 2 ^ 64 }
    ensures { result ≡ any_integer_at at contents.now }
{
    match contents.len() {
        1 => Ok(BigEndian::read_int(contents, 1) as i128),
        2 => Ok(BigEndian::read_int(contents, 2) as i128),
        4 => Ok(BigEndian::read_int(contents, 4) as i128),
        _ => counted_integer(contents, at),
    }
}

// The same of contents of any count.
#[inline(never)]
#[tactic(auto, unfolding(crate::specs::computed::ContentsReading::any_integer_at))]
fn counted_integer(contents: &[u8], at: usize) -> Result<i128, Fault>
    requires { at + 1 < 2 ^ 64 }
    ensures { result ≡ any_integer_at at contents.now }
{
    match contents.len() {
        count @ 1..=8 => Ok(BigEndian::read_int(contents, count) as i128),
        9 => Ok(BigEndian::read_int128(contents, 9)),
        _ => Err(Cause::IntegerLength.at(at + 1)),
    }
}
