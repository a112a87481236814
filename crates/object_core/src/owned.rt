//! The members of a data set as an array, from values in memory of their own.
ghost use Rattle.std.specs.Prelude.{◌++◌, ◌∷◌, codes};
ghost use Rattle.mms_data.specs.Data.{array, items_of, structure};
ghost use Rattle.mms_data.specs.Value.{data_of, datas};
ghost use Rattle.text_core.specs.Pieces.{AppendsText, bits_text};
ghost use Rattle.object_core.specs.MemberObject.{AreMembers, AreOthers, Behind, IsMember, one_field};
ghost use Rattle.object_core.specs.Objects.{AppendsSome, in_quotes};

use crate::leaves::{
    put_binary_time_object, put_floating_object, put_integer_object, put_mms_text_object,
    put_octets_object, put_unsigned_object, put_utc_object,
};
use mms_data::{BitText, Value, ValueList};
use std::alloc::{AllocError, Allocator};
use text_core::pieces::put_bits;
use text_core::value::{put_truth, put_visible};

// Appends a sign and bits.
#[inline(always)]
fn put_bits_object<A: Allocator>(
    out: &mut Vec<u8, A>,
    sign: u8,
    bits: &BitText<A>,
) -> Result<(), AllocError>
    ensures { AppendsText result out.old.items out.new.items (sign ∷ one_field (codes "bits") (in_quotes (bits_text bits.now.unused bits.now.octets))) }
{
    out.extend_from_slice(&[sign, b'{', b'"', b'b', b'i', b't', b's', b'"', b':', b'"'])?;
    put_bits(out, bits.unused, bits.octets.as_slice())?;
    out.extend_from_slice(b"\"}")
}

// Appends a sign and a value.
#[cycle(owned)]
fn put_value_object<A: Allocator>(
    out: &mut Vec<u8, A>,
    sign: u8,
    value: &Value<A>,
) -> Result<(), AllocError>
    ensures { AppendsSome result out.old.items out.new.items (Behind sign (IsMember (data_of value.now))) }
{
    match value {
        Value::Boolean(is_true) => put_truth(out, sign, *is_true),
        Value::Bits(bits) => put_bits_object(out, sign, bits),
        Value::Integer(number) => put_integer_object(out, sign, *number),
        Value::Unsigned(number) => put_unsigned_object(out, sign, *number),
        Value::Floating(octets) => put_floating_object(out, sign, octets.as_slice()),
        Value::Octets(octets) => put_octets_object(out, sign, octets.as_slice()),
        Value::BinaryTime(octets) => put_binary_time_object(out, sign, octets.as_slice()),
        Value::MmsText(octets) => put_mms_text_object(out, sign, octets.as_slice()),
        Value::Utc(time) => put_utc_object(out, sign, *time),
        Value::Visible(text) => put_visible(out, sign, text.as_slice()),
        Value::Array(values) => put_array_object(out, sign, values),
        Value::Structure(values) => put_structure_object(out, sign, values),
    }
}

// Appends a sign and the values of an array.
#[cycle(owned)]
fn put_array_object<A: Allocator>(
    out: &mut Vec<u8, A>,
    sign: u8,
    values: &ValueList<A>,
) -> Result<(), AllocError>
    ensures { AppendsSome result out.old.items out.new.items (Behind sign (IsMember (array (items_of values.now)))) }
{
    out.extend_from_slice(&[sign, b'{', b'"', b'a', b'r', b'r', b'a', b'y', b'"', b':'])?;
    put_values_object(out, values)?;
    out.push(b'}')?;
    Ok(())
}

// Appends a sign and the values of a structure.
#[cycle(owned)]
fn put_structure_object<A: Allocator>(
    out: &mut Vec<u8, A>,
    sign: u8,
    values: &ValueList<A>,
) -> Result<(), AllocError>
    ensures { AppendsSome result out.old.items out.new.items (Behind sign (IsMember (structure (items_of values.now)))) }
{
    out.extend_from_slice(&[
        sign, b'{', b'"', b's', b't', b'r', b'u', b'c', b't', b'u', b'r', b'e', b'"', b':',
    ])?;
    put_values_object(out, values)?;
    out.push(b'}')?;
    Ok(())
}

/// Appends the members of a data set as an array.
#[cycle(owned)]
pub fn put_values_object<A: Allocator>(
    out: &mut Vec<u8, A>,
    values: &ValueList<A>,
) -> Result<(), AllocError>
    ensures { AppendsSome result out.old.items out.new.items (AreMembers values.now) }
{
    let Some((first, others)) = values.as_slice().split_first() else {
        return out.extend_from_slice(b"[]");
    };
    put_value_object(out, b'[', first)?;
    put_others(out, others)?;
    out.push(b']')?;
    Ok(())
}

// Appends each value behind a comma.
#[cycle(owned)]
fn put_others<A: Allocator>(out: &mut Vec<u8, A>, others: &[Value<A>]) -> Result<(), AllocError>
    ensures { AppendsSome result out.old.items out.new.items (AreOthers (datas others.now)) }
{
    for value in others {
        put_value_object(out, b',', value)?;
    }
    Ok(())
}
