//! Which values have a spelling.

ghost use Rattle.std.specs.Prelude.{◌≡◌, ◌≤◌, ◌^◌, ◌↔◌, nat_lt, true};
ghost use Rattle.mms_data.specs.Spellable.{AllAreSpellable, IsSpellableAt};
ghost use Rattle.mms_data.specs.computed.SpellableTest.{all_are_spellable, are_bits, is_signed, is_spellable_at, is_text, is_time};
ghost use Rattle.mms_data.specs.Value.{data_of};

use crate::time::UtcTime;
use crate::value::{Value, ValueList};
use ber_core::contents::check_visible;
use std::alloc::Allocator;

/// Whether the value, standing at the level, has a spelling (ISO 9506-2): the level is at most 16 (profile), members
/// have a spelling at the next level, a floating-point number has 1 to 16 octets (profile), a binary time 4 or 6,
/// visible octets are 20 to 7E, the fraction of a UtcTime is below 2^24, and unused bits are at most 7, none
/// where there are no octets, and zero.
pub fn is_spellable<A: Allocator>(value: &Value<A>, level: u8) -> bool
    requires first { 1 ≤ level }
    requires last { level ≤ 17 }
    ensures exactly { (result ≡ true) ↔ IsSpellableAt (data_of value.now) level }
    ensures exact { result ≡ is_spellable_at (data_of value.now) level }
{
    test_value(value, level)
}

/// The same of each of the values.
pub fn are_spellable<A: Allocator>(values: &ValueList<A>, level: u8) -> bool
    requires first { 1 ≤ level }
    requires last { level ≤ 17 }
    ensures exactly { (result ≡ true) ↔ AllAreSpellable values.now level }
    ensures exact { result ≡ all_are_spellable values.now level }
{
    test_values(values, level)
}

#[cycle(testing)]
fn test_value<A: Allocator>(value: &Value<A>, level: u8) -> bool
    requires { level ≤ 17 }
    ensures { result ≡ is_spellable_at (data_of value.now) level }
{
    if 16 < level {
        return false;
    }
    match value {
        Value::Array(values) => test_values(values, level + 1),
        Value::Structure(values) => test_values(values, level + 1),
        Value::Boolean(_) => true,
        Value::Bits(bits) => test_bits(bits.unused, bits.octets.as_slice()),
        Value::Integer(number) => test_signed(*number),
        Value::Unsigned(number) => test_unsigned(*number),
        Value::Floating(octets) => matches!(octets.as_slice().len(), 1..=16),
        Value::Octets(_) => true,
        Value::Visible(octets) => test_text(octets.as_slice()),
        Value::BinaryTime(octets) => matches!(octets.as_slice().len(), 4 | 6),
        Value::MmsText(_) => true,
        Value::Utc(time) => test_time(*time),
    }
}

#[cycle(testing)]
fn test_values<A: Allocator>(values: &ValueList<A>, level: u8) -> bool
    requires { level ≤ 17 }
    ensures { result ≡ all_are_spellable values.now level }
{
    let values = values.as_slice();
    for value in values {
        if !test_value(value, level) {
            return false;
        }
    }
    true
}

fn test_bits(unused: u8, octets: &[u8]) -> bool
    ensures { result ≡ are_bits unused octets.now }
{
    match octets {
        [] => unused == 0,
        [.., last] => unused <= 7 && *last % (1 << unused) == 0,
    }
}

// Each number of 64 bits has a spelling.
fn test_signed(_number: i64) -> bool
    ensures { result ≡ is_signed _number }
{
    true
}

fn test_unsigned(_number: u64) -> bool
    ensures { result ≡ nat_lt _number (2 ^ 64) }
{
    true
}

fn test_text(octets: &[u8]) -> bool
    ensures { result ≡ is_text octets.now }
{
    match check_visible(octets, 0) {
        Ok(()) => true,
        Err(_) => false,
    }
}

fn test_time(time: UtcTime) -> bool
    ensures { result ≡ is_time time }
{
    time.fraction < 0x100_0000
}
