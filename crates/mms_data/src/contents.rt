//! The contents of the kinds without members, judged and seen where they stand. Places: `at` is the
//! identifier's, `from` that of the first octet of contents.

ghost use Rattle.std.specs.Prelude.{◌≡◌, ◌+◌, ◌<◌, ◌^◌, length, Ok, Err, IfOk};
ghost use Rattle.ber_core.specs.computed.ContentsReading.{integer_at};
ghost use Rattle.ber_core.specs.computed.Reading.{Gives};
ghost use Rattle.mms_data.specs.Data.{Data};
ghost use Rattle.mms_data.specs.Contents.{least_signed, most_signed};
ghost use Rattle.mms_data.specs.computed.ContentsReading.{bits_at, unsigned_at};
ghost use Rattle.mms_data.specs.Meaning.{meaning};
ghost use Rattle.mms_data.specs.Place.{IsPart, ViewIsPart};
ghost use Rattle.mms_data.specs.computed.Reading.{simple_data_at};

use crate::kinds::SimpleKind;
use crate::known::{known_bits, known_boolean, known_signed, known_time, known_unsigned};
use crate::utc::eight_octets;
use crate::view::{BitView, View};
use ber_core::contents::{boolean_of, check_visible, integer_of};
use ber_core::{Cause, Fault};

// The view of the contents of a kind, as they are judged. Inlined, so that a member is told apart by its identifier once, and
// no view is put together where nobody looks at it.
#[inline(always)]
#[tactic(auto, unfolding(crate::specs::computed::ContentsReading::simple_at))]
pub(crate) fn simple<'a>(
    kind: SimpleKind,
    contents: &'a [u8],
    at: usize,
    from: usize,
) -> Result<View<'a>, Fault>
    requires order { at < from }
    requires fits { from + length contents.now < 2 ^ 64 }
    ensures exact { Gives meaning result (simple_data_at kind at from contents.now) }
    ensures part { IfOk result (λ v. ViewIsPart v contents.entry) }
{
    match kind {
        SimpleKind::Boolean => Ok(View::Boolean(boolean_of(contents, at)?)),
        SimpleKind::BitString => Ok(View::Bits(bits(contents, from)?)),
        SimpleKind::Integer => Ok(View::Integer(signed(contents, at, from)?)),
        SimpleKind::Unsigned => Ok(View::Unsigned(unsigned(contents, at, from)?)),
        SimpleKind::FloatingPoint => match contents.len() {
            1..=16 => Ok(View::Floating(contents)),
            _ => Err(Cause::FixedLength.at(at + 1)),
        },
        SimpleKind::OctetString => Ok(View::Octets(contents)),
        SimpleKind::VisibleString => {
            check_visible(contents, from)?;
            Ok(View::Visible(contents))
        }
        SimpleKind::BinaryTime => match contents.len() {
            4 | 6 => Ok(View::BinaryTime(contents)),
            _ => Err(Cause::FixedLength.at(at + 1)),
        },
        SimpleKind::MmsString => Ok(View::MmsText(contents)),
        SimpleKind::UtcTime => Ok(View::Utc(eight_octets(contents, at)?)),
    }
}

// What contents of a kind without members are, where they are known to be good.
#[inline(always)]
#[tactic(auto, unfolding(crate::specs::computed::ContentsReading::simple_at))]
pub(crate) fn known_simple<'a>(
    kind: SimpleKind,
    contents: &'a [u8],
    at: usize,
    from: usize,
) -> View<'a>
    requires order { at < from }
    requires fits { from + length contents.now < 2 ^ 64 }
    requires good { (d : Data) × (simple_data_at kind at from contents.now ≡ Ok d) }
    ensures means { simple_data_at kind at from contents.now ≡ Ok (meaning result) }
    ensures part { ViewIsPart result contents.entry }
{
    match kind {
        SimpleKind::Boolean => View::Boolean(known_boolean(contents, at)),
        SimpleKind::BitString => View::Bits(known_bits(contents, from)),
        SimpleKind::Integer => View::Integer(known_signed(contents, at, from)),
        SimpleKind::Unsigned => View::Unsigned(known_unsigned(contents, at, from)),
        SimpleKind::FloatingPoint => View::Floating(contents),
        SimpleKind::OctetString => View::Octets(contents),
        SimpleKind::VisibleString => View::Visible(contents),
        SimpleKind::BinaryTime => View::BinaryTime(contents),
        SimpleKind::MmsString => View::MmsText(contents),
        SimpleKind::UtcTime => View::Utc(known_time(contents, at)),
    }
}

// The count of unused bits, and the octets as they stand.
fn bits<'a>(contents: &'a [u8], from: usize) -> Result<BitView<'a>, Fault>
    ensures exact { Gives (λ b. (b.unused, b.octets.now)) result (bits_at from contents.now) }
    ensures part { IfOk result (λ b. IsPart b.octets contents.entry) }
{
    match contents {
        [0] => Ok(BitView {
            unused: 0,
            octets: &contents[1..],
        }),
        [unused @ 0..=7, _, ..] => Ok(BitView {
            unused: *unused,
            octets: &contents[1..],
        }),
        _ => Err(Cause::BitUnused.at(from)),
    }
}

// The signed number, which has 64 bits.
pub(crate) fn signed(contents: &[u8], at: usize, from: usize) -> Result<i64, Fault>
    requires { at + 1 < 2 ^ 64 }
    ensures { result ≡ integer_at least_signed most_signed at from contents.now }
{
    let number = integer_of(contents, at, from, i64::MIN as i128, i64::MAX as i128)?;
    Ok(number as i64)
}

// The unsigned number, which has 64 bits.
pub(crate) fn unsigned(contents: &[u8], at: usize, from: usize) -> Result<u64, Fault>
    requires { at + 1 < 2 ^ 64 }
    ensures { result ≡ unsigned_at at from contents.now }
{
    let number = integer_of(contents, at, from, 0, u64::MAX as i128)?;
    Ok(number as u64)
}
