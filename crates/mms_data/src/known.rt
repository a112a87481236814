//! Members that are known to be good, read where they stand: what was judged before is not judged again, but for integers of
//! nine octets.

ghost use Rattle.std.specs.Prelude.{◌≡◌, ◌+◌, ◌<◌, ◌^◌, Bool, ℤ, ℕ, List, length, Ok};
ghost use Rattle.ber_core.specs.computed.ContentsReading.{boolean_at, integer_at};
ghost use Rattle.ber_core.specs.computed.Reading.{IsWithin, header_at};
ghost use Rattle.ber_core.specs.declared.element.Header.{Header};
ghost use Rattle.mms_data.specs.Contents.{least_signed, most_signed};
ghost use Rattle.mms_data.specs.Place.{IsPart};
ghost use Rattle.mms_data.specs.computed.ContentsReading.{bits_at, unsigned_at};
ghost use Rattle.mms_data.specs.computed.Reading.{known_at};
ghost use Rattle.mms_data.specs.computed.UtcReading.{utc_at};
ghost use Rattle.mms_data.specs.declared.kinds.Kind.{Kind};
ghost use Rattle.mms_data.specs.declared.time.UtcTime.{UtcTime};

use crate::contents::{signed, unsigned};
use crate::kinds::{Kind, announced};
use crate::time::UtcTime;
use crate::utc::time_of;
use crate::view::BitView;
use ber_core::{Header, known_header};
use byteorder::{BigEndian, ByteOrder};

// The header of the member at the front.
#[inline(always)]
pub(crate) fn front_header(octets: &[u8]) -> Header
    requires { (h : Header) × (header_at 0 octets.now ≡ Ok h) }
    ensures is { header_at 0 octets.now ≡ Ok result }
    ensures places { IsWithin 0 (length octets.now) result }
{
    known_header(octets, 0, octets.len())
}

// The kind of the member at the front.
#[inline(always)]
pub(crate) fn known_kind(octets: &[u8]) -> Kind
    requires { (k : Kind) × (known_at 0 octets.now ≡ Ok k) }
    ensures { known_at 0 octets.now ≡ Ok result }
{
    let Some(kind) = announced(octets[0]) else {
        unreachable!()
    };
    kind
}

// The boolean that contents are.
#[inline(always)]
pub(crate) fn known_boolean(contents: &[u8], at: usize) -> bool
    requires { (b : Bool) × (boolean_at at contents.now ≡ Ok b) }
    ensures { boolean_at at contents.now ≡ Ok result }
{
    contents[0] != 0
}

// The bits that contents are.
#[inline(always)]
pub(crate) fn known_bits<'a>(contents: &'a [u8], from: usize) -> BitView<'a>
    requires { (x : ℕ × List ℕ) × (bits_at from contents.now ≡ Ok x) }
    ensures is { bits_at from contents.now ≡ Ok (result.unused, result.octets.now) }
    ensures part { IsPart result.octets contents.entry }
{
    BitView {
        unused: contents[0],
        octets: &contents[1..],
    }
}

// The time that contents are.
#[inline(always)]
pub(crate) fn known_time(contents: &[u8], at: usize) -> UtcTime
    requires { (t : UtcTime) × (utc_at at contents.now ≡ Ok t) }
    ensures { utc_at at contents.now ≡ Ok result }
{
    time_of(contents)
}

// The signed number that contents are. Of few octets the compiler knows the count. Contents of nine octets, which hardly
// any device sends, are read as where they are judged.
#[inline(always)]
pub(crate) fn known_signed(contents: &[u8], at: usize, from: usize) -> i64
    requires fits { at + 1 < 2 ^ 64 }
    requires good { (n : ℤ) × (integer_at least_signed most_signed at from contents.now ≡ Ok n) }
    ensures { integer_at least_signed most_signed at from contents.now ≡ Ok result }
{
    match contents.len() {
        1 => BigEndian::read_int(contents, 1),
        2 => BigEndian::read_int(contents, 2),
        3 => BigEndian::read_int(contents, 3),
        4 => BigEndian::read_int(contents, 4),
        5 => BigEndian::read_int(contents, 5),
        count @ 6..=8 => BigEndian::read_int(contents, count),
        _ => counted_signed(contents, at, from),
    }
}

// The same of contents of nine octets.
#[inline(never)]
fn counted_signed(contents: &[u8], at: usize, from: usize) -> i64
    requires fits { at + 1 < 2 ^ 64 }
    requires good { (n : ℤ) × (integer_at least_signed most_signed at from contents.now ≡ Ok n) }
    ensures { integer_at least_signed most_signed at from contents.now ≡ Ok result }
{
    let Ok(number) = signed(contents, at, from) else {
        unreachable!()
    };
    number
}

// The same of an unsigned number.
#[inline(always)]
pub(crate) fn known_unsigned(contents: &[u8], at: usize, from: usize) -> u64
    requires fits { at + 1 < 2 ^ 64 }
    requires good { (n : ℕ) × (unsigned_at at from contents.now ≡ Ok n) }
    ensures { unsigned_at at from contents.now ≡ Ok result }
{
    match contents.len() {
        1 => BigEndian::read_uint(contents, 1),
        2 => BigEndian::read_uint(contents, 2),
        3 => BigEndian::read_uint(contents, 3),
        4 => BigEndian::read_uint(contents, 4),
        5 => BigEndian::read_uint(contents, 5),
        count @ 6..=8 => BigEndian::read_uint(contents, count),
        _ => counted_unsigned(contents, at, from),
    }
}

// The same of contents of nine octets.
#[inline(never)]
fn counted_unsigned(contents: &[u8], at: usize, from: usize) -> u64
    requires fits { at + 1 < 2 ^ 64 }
    requires good { (n : ℕ) × (unsigned_at at from contents.now ≡ Ok n) }
    ensures { unsigned_at at from contents.now ≡ Ok result }
{
    let Ok(number) = unsigned(contents, at, from) else {
        unreachable!()
    };
    number
}
