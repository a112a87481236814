//! The text of a value of Data in memory of its own.
ghost use Rattle.std.specs.Prelude.{◌++◌, ◌∷◌, []};
ghost use Rattle.std.specs.List.{flat_map};
ghost use Rattle.mms_data.specs.Value.{data_of, datas};
ghost use Rattle.text_core.specs.Pieces.{AppendsText, after_space, spaced};
ghost use Rattle.text_core.specs.ValueText.{members_text, value_text};

use crate::fields::{put_octets, put_time};
use crate::pieces::{put_bits, put_boolean, put_decimal, put_quoted, put_signed};
use mms_data::{Value, ValueList};
use std::alloc::{AllocError, Allocator};

// Appends the text of a value.
#[tactic(auto, using(crate::proofs::ValueLemmas::item_texts_items_of, crate::proofs::Fronts::front_before))]
#[cycle(owned)]
fn put_value_text<A: Allocator>(out: &mut Vec<u8, A>, value: &Value<A>) -> Result<(), AllocError>
    ensures { AppendsText result out.old.items out.new.items (value_text (data_of value.now)) }
{
    match value {
        Value::Boolean(is_true) => put_boolean(out, *is_true),
        Value::Bits(bits) => {
            out.extend_from_slice(b"bits:")?;
            put_bits(out, bits.unused, bits.octets.as_slice())
        }
        Value::Integer(number) => {
            out.extend_from_slice(b"int:")?;
            put_signed(out, *number)
        }
        Value::Unsigned(number) => {
            out.extend_from_slice(b"uint:")?;
            put_decimal(out, *number)
        }
        Value::Floating(octets) => put_octets(out, b"float:", octets.as_slice()),
        Value::Octets(octets) => put_octets(out, b"oct:", octets.as_slice()),
        Value::BinaryTime(octets) => put_octets(out, b"btime:", octets.as_slice()),
        Value::MmsText(octets) => put_octets(out, b"mms:", octets.as_slice()),
        Value::Utc(t) => put_time(out, b"utc:", *t),
        Value::Visible(text) => put_quoted(out, text.as_slice()),
        Value::Array(values) => put_between(out, b'[', values, b']'),
        Value::Structure(values) => put_between(out, b'(', values, b')'),
    }
}

// Appends the texts of values between two signs.
#[cycle(owned)]
fn put_between<A: Allocator>(
    out: &mut Vec<u8, A>,
    before: u8,
    values: &ValueList<A>,
    after: u8,
) -> Result<(), AllocError>
    ensures { AppendsText result out.old.items out.new.items (before ∷ spaced value_text values.now ++ after ∷ []) }
{
    out.push(before)?;
    put_spaced(out, values)?;
    out.push(after)?;
    Ok(())
}

// Appends the texts of values, divided by one space.
#[cycle(owned)]
fn put_spaced<A: Allocator>(out: &mut Vec<u8, A>, values: &ValueList<A>) -> Result<(), AllocError>
    ensures { AppendsText result out.old.items out.new.items (spaced value_text values.now) }
{
    let Some((first, others)) = values.as_slice().split_first() else {
        return Ok(());
    };
    put_value_text(out, first)?;
    put_others(out, others)
}

// Appends the text of each value after a space.
#[cycle(owned)]
fn put_others<A: Allocator>(out: &mut Vec<u8, A>, others: &[Value<A>]) -> Result<(), AllocError>
    ensures { AppendsText result out.old.items out.new.items (flat_map (after_space value_text) (datas others.now)) }
{
    for value in others {
        out.push(b' ')?;
        put_value_text(out, value)?;
    }
    Ok(())
}

/// Appends the members of a data set.
pub fn put_values_text<A: Allocator>(
    out: &mut Vec<u8, A>,
    values: &ValueList<A>,
) -> Result<(), AllocError>
    ensures { AppendsText result out.old.items out.new.items (members_text values.now) }
{
    put_between(out, b'{', values, b'}')
}
