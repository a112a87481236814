//! How many octets written forms have, where they have no more than a limit.

ghost use Rattle.std.specs.Prelude.{◌≡◌, ◌≤◌, ◌<◌, ◌+◌, ◌^◌, ◌-◌, length, SomeIff};
ghost use Rattle.mms_data.specs.Value.{data_of};
ghost use Rattle.mms_data.specs.Written.{header_size, written, written_all, written_contents};

use crate::value::{Value, ValueList};
use ber_core::{octet_count, signed_count};
use std::alloc::Allocator;

/// How many octets an identifier and the shortest length of `size` octets of contents have (ISO/IEC 8825-1, 8.1.3). `size` is at most
/// 4294967295.
pub fn header_length(size: usize) -> usize
    requires { size < 2 ^ 32 }
    ensures exact { result ≡ header_size size }
    ensures few { result ≤ 6 }
{
    match size {
        0..=0x7f => 2,
        _ => 2 + octet_count(size),
    }
}

// How many octets an element of `size` octets of contents has.
pub(crate) fn element_length(size: usize, limit: usize) -> Option<usize>
    requires { size < 2 ^ 32 }
    ensures { SomeIff result (header_size size + size ≤ limit) (header_size size + size) }
{
    within(header_length(size) + size, limit)
}

fn within(size: usize, limit: usize) -> Option<usize>
    ensures { SomeIff result (size ≤ limit) size }
{
    if limit < size {
        return None;
    }
    Some(size)
}

// How many octets the contents of the written form have.
#[cycle(measuring)]
#[tactic(auto, using(crate::proofs::WrittenSizes::time_size, crate::proofs::WrittenSizes::integer_count))]
pub(crate) fn contents_length<A: Allocator>(value: &Value<A>, limit: usize) -> Option<usize>
    requires { limit < 2 ^ 32 }
    ensures { SomeIff result (length (written_contents (data_of value.now)) ≤ limit) (length (written_contents (data_of value.now))) }
{
    match value {
        Value::Array(values) => values_length(values, limit),
        Value::Structure(values) => values_length(values, limit),
        Value::Boolean(_) => within(1, limit),
        Value::Bits(bits) => {
            let count = bits.octets.as_slice().len();
            if limit <= count {
                return None;
            }
            Some(count + 1)
        }
        Value::Integer(number) => within(signed_count(*number as i128), limit),
        Value::Unsigned(number) => within(signed_count(*number as i128), limit),
        Value::Floating(octets) => within(octets.as_slice().len(), limit),
        Value::Octets(octets) => within(octets.as_slice().len(), limit),
        Value::Visible(octets) => within(octets.as_slice().len(), limit),
        Value::BinaryTime(octets) => within(octets.as_slice().len(), limit),
        Value::MmsText(octets) => within(octets.as_slice().len(), limit),
        Value::Utc(_) => within(8, limit),
    }
}

// How many octets the written form has.
#[cycle(measuring)]
#[tactic(auto, using(crate::proofs::WrittenSizes::written_size))]
pub(crate) fn value_length<A: Allocator>(value: &Value<A>, limit: usize) -> Option<usize>
    requires { limit < 2 ^ 32 }
    ensures { SomeIff result (length (written (data_of value.now)) ≤ limit) (length (written (data_of value.now))) }
{
    let size = contents_length(value, limit)?;
    element_length(size, limit)
}

// How many octets the written forms have, one after the other.
#[cycle(measuring)]
pub(crate) fn values_length<A: Allocator>(values: &ValueList<A>, limit: usize) -> Option<usize>
    requires { limit < 2 ^ 32 }
    ensures { SomeIff result (length (written_all values.now) ≤ limit) (length (written_all values.now)) }
{
    let values = values.as_slice();
    let mut left = limit;
    for value in values {
        left -= value_length(value, left)?;
    }
    Some(limit - left)
}
