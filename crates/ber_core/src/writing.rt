//! Headers and integers, appended in their written form.

ghost use Rattle.std.specs.Prelude.{◌≡◌, ◌≤◌, ◌<◌, ◌+◌, ◌^◌, ◌-◌, ◌↔◌, ◌++◌, ◌≤ℤ◌, ◌<ℤ◌, pos, negsuc, length, IsOk, OnOk, OnErr};
ghost use Rattle.arrayvec.specs.ArrayVec.{array_vec_len};
ghost use Rattle.ber_core.specs.Element.{IsIdentifier};
ghost use Rattle.ber_core.specs.Written.{number_size, integer_size, short_integer, written_element, written_header};

use crate::fault::Full;
use arrayvec::ArrayVec;
use byteorder::{BigEndian, ByteOrder};

/// Appends an identifier and the shortest spelling of a length (ISO/IEC 8825-1, 8.1.2 and 8.1.3).
///
/// `size` is at most 4294967295, and the identifier's low five bits are not all ones.
///
/// # Errors
///
/// `Full` exactly where the octets do not fit; `out` is then unchanged.
#[inline(always)]
#[tactic(auto, unfolding(crate::specs::Written::short_length))]
pub fn put_header<const N: usize>(
    out: &mut ArrayVec<u8, N>,
    identifier: u8,
    size: usize,
) -> Result<(), Full>
    requires identifier { IsIdentifier identifier }
    requires size { size < 2 ^ 32 }
    ensures fits { IsOk result ↔ (array_vec_len out.old + length (written_header identifier size) ≤ N) }
    ensures written { OnOk result (out.new.items ≡ out.old.items ++ written_header identifier size) }
    ensures unchanged { OnErr result (out.new ≡ out.old) }
{
    if size < 0x80 {
        return out
            .try_extend_from_slice(&[identifier, size as u8])
            .map_err(|_| Full);
    }
    put_long_header(out, identifier, size)
}

// The same of a length that one octet does not hold. Never inlined, as few lengths are so long.
#[inline(never)]
#[tactic(auto, unfolding(crate::specs::Written::short_length))]
fn put_long_header<const N: usize>(
    out: &mut ArrayVec<u8, N>,
    identifier: u8,
    size: usize,
) -> Result<(), Full>
    requires identifier { IsIdentifier identifier }
    requires long { 128 ≤ size }
    requires size { size < 2 ^ 32 }
    ensures fits { IsOk result ↔ (array_vec_len out.old + length (written_header identifier size) ≤ N) }
    ensures written { OnOk result (out.new.items ≡ out.old.items ++ written_header identifier size) }
    ensures unchanged { OnErr result (out.new ≡ out.old) }
{
    let count = octet_count(size);
    if out.remaining_capacity() < 2 + count {
        return Err(Full);
    }
    let mut number = [0; 4];
    BigEndian::write_uint(&mut number, size as u64, count);
    out.push(identifier);
    out.push(0x80 + count as u8);
    out.try_extend_from_slice(&number[..count])
        .map_err(|_| Full)
}

/// The fewest octets that hold the number, which is at most 4294967295.
pub fn octet_count(number: usize) -> usize
    requires { number < 2 ^ 32 }
    ensures { result ≡ number_size number }
{
    match number {
        0..=0xff => 1,
        0x100..=0xffff => 2,
        0x1_0000..=0xff_ffff => 3,
        _ => 4,
    }
}

/// Appends the element of this identifier and the shortest spelling of this number (ISO/IEC 8825-1, 8.3).
///
/// The number lies from -2^71 to 2^71 - 1, and the identifier's low five bits are not all ones.
///
/// # Errors
///
/// `Full` exactly where the octets do not fit; `out` is then unchanged.
#[inline(always)]
pub fn put_integer<const N: usize>(
    out: &mut ArrayVec<u8, N>,
    identifier: u8,
    number: i128,
) -> Result<(), Full>
    requires identifier { IsIdentifier identifier }
    requires low { negsuc (2 ^ 71 - 1) ≤ℤ number }
    requires high { number <ℤ pos (2 ^ 71) }
    ensures fits { IsOk result ↔ (array_vec_len out.old + length (written_element identifier (short_integer number)) ≤ N) }
    ensures written { OnOk result (out.new.items ≡ out.old.items ++ written_element identifier (short_integer number)) }
    ensures unchanged { OnErr result (out.new ≡ out.old) }
{
    match number {
        0..=0x7f => put_one_octet(out, identifier, number as u8),
        0x80..=0x7fff => put_two_octets(out, identifier, number as u16),
        _ => put_any(out, identifier, number),
    }
}

// The same for a number of one octet.
#[inline(always)]
fn put_one_octet<const N: usize>(
    out: &mut ArrayVec<u8, N>,
    identifier: u8,
    number: u8,
) -> Result<(), Full>
    requires { number < 128 }
    ensures fits { IsOk result ↔ (array_vec_len out.old + length (written_element identifier (short_integer (pos number))) ≤ N) }
    ensures written { OnOk result (out.new.items ≡ out.old.items ++ written_element identifier (short_integer (pos number))) }
    ensures unchanged { OnErr result (out.new ≡ out.old) }
{
    out.try_extend_from_slice(&[identifier, 1, number])
        .map_err(|_| Full)
}

// The same for a number of two octets.
#[inline(always)]
fn put_two_octets<const N: usize>(
    out: &mut ArrayVec<u8, N>,
    identifier: u8,
    number: u16,
) -> Result<(), Full>
    requires low { 128 ≤ number }
    requires high { number < 2 ^ 15 }
    ensures fits { IsOk result ↔ (array_vec_len out.old + length (written_element identifier (short_integer (pos number))) ≤ N) }
    ensures written { OnOk result (out.new.items ≡ out.old.items ++ written_element identifier (short_integer (pos number))) }
    ensures unchanged { OnErr result (out.new ≡ out.old) }
{
    out.try_extend_from_slice(&[identifier, 2, (number / 256) as u8, (number % 256) as u8])
        .map_err(|_| Full)
}

// The same for any number.
#[inline(never)]
fn put_any<const N: usize>(
    out: &mut ArrayVec<u8, N>,
    identifier: u8,
    number: i128,
) -> Result<(), Full>
    requires identifier { IsIdentifier identifier }
    requires low { negsuc (2 ^ 71 - 1) ≤ℤ number }
    requires high { number <ℤ pos (2 ^ 71) }
    ensures fits { IsOk result ↔ (array_vec_len out.old + length (written_element identifier (short_integer number)) ≤ N) }
    ensures written { OnOk result (out.new.items ≡ out.old.items ++ written_element identifier (short_integer number)) }
    ensures unchanged { OnErr result (out.new ≡ out.old) }
{
    let count = signed_count(number);
    let mut element = [0; 11];
    element[0] = identifier;
    element[1] = count as u8;
    BigEndian::write_int128(&mut element[2..], number, count);
    out.try_extend_from_slice(&element[..2 + count])
        .map_err(|_| Full)
}

/// The fewest octets that hold the number in two's complement, from 1 to 9 (ISO/IEC 8825-1, 8.3).
///
/// The number lies from -2^71 to 2^71 - 1.
#[tactic(auto, unfolding(crate::specs::Written::integer_size))]
pub fn signed_count(number: i128) -> usize
    requires low { negsuc (2 ^ 71 - 1) ≤ℤ number }
    requires high { number <ℤ pos (2 ^ 71) }
    ensures value { result ≡ integer_size number }
    ensures low { 1 ≤ result }
    ensures high { result ≤ 9 }
{
    match number {
        -0x80..=0x7f => 1,
        -0x8000..=0x7fff => 2,
        -0x80_0000..=0x7f_ffff => 3,
        -0x8000_0000..=0x7fff_ffff => 4,
        -0x80_0000_0000..=0x7f_ffff_ffff => 5,
        -0x8000_0000_0000..=0x7fff_ffff_ffff => 6,
        -0x80_0000_0000_0000..=0x7f_ffff_ffff_ffff => 7,
        -0x8000_0000_0000_0000..=0x7fff_ffff_ffff_ffff => 8,
        _ => 9,
    }
}
