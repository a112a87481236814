//! Written forms for which there is room, appended.

ghost use Rattle.std.specs.Prelude.{◌≡◌, ◌≤◌, ◌<◌, ◌+◌, ◌^◌, ◌-◌, ◌++◌, ◌∷◌, ◌≤ℤ◌, ◌<ℤ◌, pos, negsuc, length};
ghost use Rattle.arrayvec.specs.ArrayVec.{array_vec_len};
ghost use Rattle.ber_core.specs.Element.{IsIdentifier};
ghost use Rattle.ber_core.specs.Written.{short_integer, written_header, written_element};
ghost use Rattle.mms_data.specs.Value.{data_of};
ghost use Rattle.mms_data.specs.Written.{HasWritten, written, written_all, written_time};

use crate::measuring::values_length;
use crate::time::UtcTime;
use crate::value::{Value, ValueList};
use arrayvec::ArrayVec;
use ber_core::{put_header, put_integer};
use std::alloc::Allocator;

fn put_front<const N: usize>(out: &mut ArrayVec<u8, N>, identifier: u8, size: usize)
    requires identifier { IsIdentifier identifier }
    requires size { size < 2 ^ 32 }
    requires room { array_vec_len out.old + length (written_header identifier size) ≤ N }
    ensures { out.new.items ≡ out.old.items ++ written_header identifier size }
{
    let _fits = put_header(out, identifier, size);
}

pub(crate) fn put_slice<const N: usize>(out: &mut ArrayVec<u8, N>, octets: &[u8])
    requires { array_vec_len out.old + length octets.now ≤ N }
    ensures { out.new.items ≡ out.old.items ++ octets.now }
{
    let _fits = out.try_extend_from_slice(octets);
}

// The element of these contents.
#[tactic(auto, unfolding(ber_core::specs::Written::written_element))]
fn put_octets<const N: usize>(out: &mut ArrayVec<u8, N>, identifier: u8, octets: &[u8])
    requires identifier { IsIdentifier identifier }
    requires size { length octets.now < 2 ^ 32 }
    requires room { array_vec_len out.old + length (written_element identifier octets.now) ≤ N }
    ensures { out.new.items ≡ out.old.items ++ written_element identifier octets.now }
{
    put_front(out, identifier, octets.len());
    put_slice(out, octets);
}

// The element of these bits.
#[tactic(auto, unfolding(ber_core::specs::Written::written_element))]
fn put_bits<const N: usize>(out: &mut ArrayVec<u8, N>, unused: u8, octets: &[u8])
    requires size { length octets.now + 1 < 2 ^ 32 }
    requires room { array_vec_len out.old + length (written_element 0x84 (unused ∷ octets.now)) ≤ N }
    ensures { out.new.items ≡ out.old.items ++ written_element 0x84 (unused ∷ octets.now) }
{
    put_front(out, 0x84, octets.len() + 1);
    out.push(unused);
    put_slice(out, octets);
}

// The element of this number.
#[tactic(auto, unfolding(ber_core::specs::Written::written_element))]
fn put_number<const N: usize>(out: &mut ArrayVec<u8, N>, identifier: u8, number: i128)
    requires identifier { IsIdentifier identifier }
    requires low { negsuc (2 ^ 71 - 1) ≤ℤ number }
    requires high { number <ℤ pos (2 ^ 71) }
    requires room { array_vec_len out.old + length (written_element identifier (short_integer number)) ≤ N }
    ensures { out.new.items ≡ out.old.items ++ written_element identifier (short_integer number) }
{
    let _fits = put_integer(out, identifier, number);
}

// The written form of a value.
#[cycle(putting)]
pub(crate) fn put<A: Allocator, const N: usize>(out: &mut ArrayVec<u8, N>, value: &Value<A>)
    requires size { HasWritten (data_of value.now) }
    requires room { array_vec_len out.old + length (written (data_of value.now)) ≤ N }
    ensures { out.new.items ≡ out.old.items ++ written (data_of value.now) }
{
    match value {
        Value::Array(values) => put_nested_values(out, 0xA1, values),
        Value::Structure(values) => put_nested_values(out, 0xA2, values),
        Value::Boolean(b) => put_octets(out, 0x83, &[if *b { 0xff } else { 0 }]),
        Value::Bits(bits) => put_bits(out, bits.unused, bits.octets.as_slice()),
        Value::Integer(number) => put_number(out, 0x85, *number as i128),
        Value::Unsigned(number) => put_number(out, 0x86, *number as i128),
        Value::Floating(octets) => put_octets(out, 0x87, octets.as_slice()),
        Value::Octets(octets) => put_octets(out, 0x89, octets.as_slice()),
        Value::Visible(octets) => put_octets(out, 0x8A, octets.as_slice()),
        Value::BinaryTime(octets) => put_octets(out, 0x8C, octets.as_slice()),
        Value::MmsText(octets) => put_octets(out, 0x90, octets.as_slice()),
        Value::Utc(time) => put_octets(out, 0x91, &time.to_octets()),
    }
}

// The element of these members.
#[cycle(putting)]
#[tactic(auto, unfolding(ber_core::specs::Written::written_element))]
fn put_nested_values<A: Allocator, const N: usize>(
    out: &mut ArrayVec<u8, N>,
    identifier: u8,
    values: &ValueList<A>,
)
    requires identifier { IsIdentifier identifier }
    requires size { length (written_all values.now) < 2 ^ 32 }
    requires room { array_vec_len out.old + length (written_element identifier (written_all values.now)) ≤ N }
    ensures { out.new.items ≡ out.old.items ++ written_element identifier (written_all values.now) }
{
    let Some(size) = values_length(values, 0xffff_ffff) else {
        unreachable!()
    };
    put_front(out, identifier, size);
    put_each(out, values);
}

// The written forms of values, one after the other.
#[cycle(putting)]
pub(crate) fn put_each<A: Allocator, const N: usize>(
    out: &mut ArrayVec<u8, N>,
    values: &ValueList<A>,
)
    requires size { length (written_all values.now) < 2 ^ 32 }
    requires room { array_vec_len out.old + length (written_all values.now) ≤ N }
    ensures { out.new.items ≡ out.old.items ++ written_all values.now }
{
    let values = values.as_slice();
    for value in values {
        put(out, value);
    }
}
