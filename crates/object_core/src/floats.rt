//! The number that the octets of a float stand for.
ghost use Rattle.std.specs.Prelude.{◌≡◌, from_bits};
ghost use Rattle.std.specs.Float.{binary32, binary64};
ghost use Rattle.object_core.specs.MemberObject.{IsFloatValue, IsNumberOrNull};
ghost use Rattle.object_core.specs.Objects.{AppendsSome};

use byteorder::{BigEndian, ByteOrder};
use std::alloc::{AllocError, Allocator};
use text_core::pieces::put_front;

// Appends the number of which these are the bits, as a binary32; null for what is none.
#[inline(never)]
fn put_single<A: Allocator>(out: &mut Vec<u8, A>, bits: u32) -> Result<(), AllocError>
    ensures { AppendsSome result out.old.items out.new.items (IsNumberOrNull binary32 (from_bits binary32 bits)) }
{
    if bits % 0x8000_0000 >= 0x7f80_0000 {
        return out.extend_from_slice(b"null");
    }
    let mut digits = [0; ryu::raw::LEN];
    let size = ryu::raw::format(f32::from_bits(bits), &mut digits);
    put_front(out, &digits, size)
}

// Appends the number of which these are the bits, as a binary64; null for what is none.
#[inline(never)]
fn put_double<A: Allocator>(out: &mut Vec<u8, A>, bits: u64) -> Result<(), AllocError>
    ensures { AppendsSome result out.old.items out.new.items (IsNumberOrNull binary64 (from_bits binary64 bits)) }
{
    if bits % 0x8000_0000_0000_0000 >= 0x7ff0_0000_0000_0000 {
        return out.extend_from_slice(b"null");
    }
    let mut digits = [0; ryu::raw::LEN];
    let size = ryu::raw::format(f64::from_bits(bits), &mut digits);
    put_front(out, &digits, size)
}

/// Appends the number that the octets of a float stand for (ISO 9506-2, FloatingPoint): behind 08 the four of a binary32,
/// behind 0B the eight of a binary64. It reads back as the same float. NaN, infinities and other forms are null.
pub fn put_float_value<A: Allocator>(out: &mut Vec<u8, A>, octets: &[u8]) -> Result<(), AllocError>
    ensures { AppendsSome result out.old.items out.new.items (IsFloatValue octets.now) }
{
    let Some((exponent_width, number)) = octets.split_first() else {
        return out.extend_from_slice(b"null");
    };
    if *exponent_width == 8 && number.len() == 4 {
        put_single(out, BigEndian::read_u32(number))
    } else if *exponent_width == 11 && number.len() == 8 {
        put_double(out, BigEndian::read_u64(number))
    } else {
        out.extend_from_slice(b"null")
    }
}
