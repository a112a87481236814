//! Whether what was read stands in its written form, judged while it is read. An answer of false says nothing.

ghost use Rattle.std.specs.Prelude.{ℤ, ◌≡◌, ◌≤◌, ◌<◌, ◌-◌, nat_lt, if◌then◌else◌, true};
ghost use Rattle.ber_core.specs.Integer.{Int};
ghost use Rattle.ber_core.specs.Written.{short_integer};
ghost use Rattle.mms_data.specs.Contents.{SpellsSimple};
ghost use Rattle.mms_data.specs.Data.{Simple};
ghost use Rattle.mms_data.specs.Kinds.{simple_kind};
ghost use Rattle.mms_data.specs.Written.{header_size, simple_contents};

use crate::kinds::SimpleKind;
use ber_core::{Header, octet_count};

/// Whether the length behind the identifier has the fewest octets (ISO/IEC 8825-1, 8.1.3).
#[inline(always)]
pub fn has_short_length(header: &Header) -> bool
    requires behind { header.now.at < header.now.contents_from }
    requires ordered { header.now.contents_from ≤ header.now.contents_to }
    ensures { result ≡ true → header.now.contents_from - header.now.at ≡ header_size (header.now.contents_to - header.now.contents_from) }
{
    let size = header.contents_to - header.contents_from;
    let count = header.contents_from - header.at;
    match size {
        0..=0x7f => count == 2,
        0x80..=0xffff_ffff => count == 2 + octet_count(size),
        _ => false,
    }
}

/// Whether the contents of an integer have the fewest octets: their first nine bits are not all alike (ISO/IEC 8825-1,
/// 8.3.2).
#[inline(always)]
pub fn is_short(contents: &[u8]) -> bool
    ensures { result ≡ true → (n : ℤ) → Int n contents.now → contents.now ≡ short_integer n }
{
    match contents {
        [first, second, ..] => *first != sign(*second),
        _ => true,
    }
}

// The octet that says no more of a number than the octet behind it does.
#[inline(always)]
fn sign(octet: u8) -> u8
    ensures { result ≡ (if nat_lt octet 128 then 0 else 255) }
{
    if octet < 0x80 { 0 } else { 0xff }
}

// Whether the contents of a simple value are those of its written form.
#[inline(always)]
pub(crate) fn is_simple_written(kind: SimpleKind, contents: &[u8]) -> bool
    ensures { result ≡ true → (v : Simple) → simple_kind v ≡ kind → SpellsSimple v contents.now → contents.now ≡ simple_contents v }
{
    match kind {
        SimpleKind::Boolean => matches!(contents, [0 | 0xff]),
        SimpleKind::BitString => match contents {
            [unused @ 0..=7, .., last] => *last % (1 << *unused) == 0,
            _ => true,
        },
        SimpleKind::Integer | SimpleKind::Unsigned => is_short(contents),
        SimpleKind::FloatingPoint
        | SimpleKind::OctetString
        | SimpleKind::VisibleString
        | SimpleKind::BinaryTime
        | SimpleKind::MmsString
        | SimpleKind::UtcTime => true,
    }
}
