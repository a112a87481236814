//! The text of a value of Data, from the octets in which it stands.
ghost use Rattle.std.specs.Prelude.{◌++◌, ◌%◌, ◌∷◌, []};
ghost use Rattle.std.specs.Fmt.{decimal};
ghost use Rattle.std.specs.List.{flat_map};
ghost use Rattle.hex.specs.Hex.{encode_lower};
ghost use Rattle.mms_data.specs.Meaning.{left as still_to_come, meaning};
ghost use Rattle.mms_data.specs.Contents.{cleared};
ghost use Rattle.mms_data.specs.Data.{bits, boolean, floating, integer, unsigned, utc, visible};
ghost use Rattle.text_core.specs.Pieces.{AppendsText, after_space, bits_text, spaced};
ghost use Rattle.text_core.specs.ValueText.{simple_text, time_text, value_text, members_text};

use crate::fields::put_octets;
use crate::pieces::{
    put_decimal, put_few_bits, put_hexadecimal, put_quoted, put_short_hexadecimal, put_signed,
};
use mms_data::{BitView, Members, UtcTime, View};
use std::alloc::{AllocError, Allocator};

/// Appends a moment in UTC as its eight octets.
pub fn put_utc<A: Allocator>(out: &mut Vec<u8, A>, time: UtcTime) -> Result<(), AllocError>
    ensures { AppendsText result out.old.items out.new.items (time_text time) }
{
    put_short_hexadecimal(out, &time.to_octets())
}

/// Appends the accuracy of a moment's quality in decimal: its low five bits.
pub fn put_accuracy<A: Allocator>(out: &mut Vec<u8, A>, quality: u8) -> Result<(), AllocError>
    ensures { AppendsText result out.old.items out.new.items (decimal (quality % 32)) }
{
    put_decimal(out, (quality % 32) as u64)
}

/// Appends bits. The unused ones, which have any value where they stand, are no part of them.
#[inline(always)]
pub fn put_bit_view<A: Allocator>(out: &mut Vec<u8, A>, bits: BitView<'_>) -> Result<(), AllocError>
    ensures { AppendsText result out.old.items out.new.items (bits_text bits.entry.unused (cleared bits.entry.unused bits.entry.octets.now)) }
{
    put_few_bits(out, bits.unused, bits.octets)
}

/// Appends the octets of a float. Those of single precision are five, and their digits are made without a call.
pub fn put_float<A: Allocator>(out: &mut Vec<u8, A>, octets: &[u8]) -> Result<(), AllocError>
    ensures { AppendsText result out.old.items out.new.items (encode_lower octets.now) }
{
    match octets {
        [a, b, c, d, e] => put_short_hexadecimal(out, &[*a, *b, *c, *d, *e]),
        _ => put_hexadecimal(out, octets),
    }
}

/// Appends a sign and the text of a truth value.
#[inline(always)]
pub fn put_truth<A: Allocator>(
    out: &mut Vec<u8, A>,
    sign: u8,
    is_true: bool,
) -> Result<(), AllocError>
    ensures { AppendsText result out.old.items out.new.items (sign ∷ simple_text (boolean is_true)) }
{
    if is_true {
        out.extend_from_slice(&[sign, b't', b'r', b'u', b'e'])
    } else {
        out.extend_from_slice(&[sign, b'f', b'a', b'l', b's', b'e'])
    }
}

// Appends a sign and the text of bits.
#[inline(always)]
fn put_bits_text<A: Allocator>(
    out: &mut Vec<u8, A>,
    sign: u8,
    seen: &BitView<'_>,
) -> Result<(), AllocError>
    ensures { AppendsText result out.old.items out.new.items (sign ∷ simple_text (bits seen.now.unused (cleared seen.now.unused seen.now.octets.now))) }
{
    out.extend_from_slice(&[sign, b'b', b'i', b't', b's', b':'])?;
    put_bit_view(out, *seen)
}

// Appends a sign and the text of an integer.
#[inline(always)]
fn put_integer_text<A: Allocator>(
    out: &mut Vec<u8, A>,
    sign: u8,
    number: i64,
) -> Result<(), AllocError>
    ensures { AppendsText result out.old.items out.new.items (sign ∷ simple_text (integer number)) }
{
    out.extend_from_slice(&[sign, b'i', b'n', b't', b':'])?;
    put_signed(out, number)
}

// Appends a sign and the text of an unsigned number.
#[inline(always)]
fn put_unsigned_text<A: Allocator>(
    out: &mut Vec<u8, A>,
    sign: u8,
    number: u64,
) -> Result<(), AllocError>
    ensures { AppendsText result out.old.items out.new.items (sign ∷ simple_text (unsigned number)) }
{
    out.extend_from_slice(&[sign, b'u', b'i', b'n', b't', b':'])?;
    put_decimal(out, number)
}

// Appends a sign and the text of a float.
#[inline(always)]
fn put_floating_text<A: Allocator>(
    out: &mut Vec<u8, A>,
    sign: u8,
    octets: &[u8],
) -> Result<(), AllocError>
    ensures { AppendsText result out.old.items out.new.items (sign ∷ simple_text (floating octets.now)) }
{
    out.extend_from_slice(&[sign, b'f', b'l', b'o', b'a', b't', b':'])?;
    put_float(out, octets)
}

// Appends a sign and the text of a moment in UTC.
#[inline(always)]
fn put_utc_text<A: Allocator>(
    out: &mut Vec<u8, A>,
    sign: u8,
    time: &UtcTime,
) -> Result<(), AllocError>
    ensures { AppendsText result out.old.items out.new.items (sign ∷ simple_text (utc time.now)) }
{
    out.extend_from_slice(&[sign, b'u', b't', b'c', b':'])?;
    put_utc(out, *time)
}

/// Appends a sign and a text between quotation marks.
#[inline(always)]
pub fn put_visible<A: Allocator>(
    out: &mut Vec<u8, A>,
    sign: u8,
    text: &[u8],
) -> Result<(), AllocError>
    ensures { AppendsText result out.old.items out.new.items (sign ∷ simple_text (visible text.now)) }
{
    out.push(sign)?;
    put_quoted(out, text)
}

// Appends a sign and the text of a value. The sign and the word of a kind are appended as one, and a member is told apart
// by its kind once: each kind is written by a function of its own, so that nothing stands before the choice.
#[inline(always)]
#[tactic(auto, using(crate::proofs::ValueLemmas::item_texts_items_of, crate::proofs::Fronts::front_before))]
#[cycle(texts)]
fn put_member_text<A: Allocator>(
    out: &mut Vec<u8, A>,
    sign: u8,
    view: &View<'_>,
) -> Result<(), AllocError>
    ensures { AppendsText result out.old.items out.new.items (sign ∷ value_text (meaning view.now)) }
{
    match view {
        View::Boolean(is_true) => put_truth(out, sign, *is_true),
        View::Bits(seen) => put_bits_text(out, sign, seen),
        View::Integer(number) => put_integer_text(out, sign, *number),
        View::Unsigned(number) => put_unsigned_text(out, sign, *number),
        View::Floating(octets) => put_floating_text(out, sign, octets),
        View::Octets(octets) => put_octets(out, &[sign, b'o', b'c', b't', b':'], octets),
        View::BinaryTime(octets) => {
            put_octets(out, &[sign, b'b', b't', b'i', b'm', b'e', b':'], octets)
        }
        View::MmsText(octets) => put_octets(out, &[sign, b'm', b'm', b's', b':'], octets),
        View::Utc(time) => put_utc_text(out, sign, time),
        View::Visible(text) => put_visible(out, sign, text),
        View::Array(members) => put_nested(out, sign, b'[', members, b']'),
        View::Structure(members) => put_nested(out, sign, b'(', members, b')'),
    }
}

// Appends a sign and the texts of members between two other signs.
#[inline(always)]
#[cycle(texts)]
fn put_nested<A: Allocator>(
    out: &mut Vec<u8, A>,
    sign: u8,
    before: u8,
    members: &Members<'_>,
    after: u8,
) -> Result<(), AllocError>
    ensures { AppendsText result out.old.items out.new.items (sign ∷ before ∷ spaced value_text (still_to_come members.now) ++ after ∷ []) }
{
    out.push(sign)?;
    put_between(out, before, *members, after)
}

// Appends the texts of members between two signs, divided by one space.
#[cycle(texts)]
fn put_between<A: Allocator>(
    out: &mut Vec<u8, A>,
    before: u8,
    members: Members<'_>,
    after: u8,
) -> Result<(), AllocError>
    ensures { AppendsText result out.old.items out.new.items (before ∷ spaced value_text (still_to_come members.entry) ++ after ∷ []) }
{
    let mut others = members;
    let Some(first) = others.next() else {
        return out.extend_from_slice(&[before, after]);
    };
    put_member_text(out, before, &first)?;
    put_others(out, others)?;
    out.push(after)?;
    Ok(())
}

// Appends the text of each member after a space. Booleans, which data sets have most, are told apart and written first.
// Inlined, since a member inside others is mostly alone: it costs no call to find none behind it.
#[inline(always)]
#[cycle(texts)]
fn put_others<A: Allocator>(out: &mut Vec<u8, A>, others: Members<'_>) -> Result<(), AllocError>
    ensures { AppendsText result out.old.items out.new.items (flat_map (after_space value_text) (still_to_come others.entry)) }
{
    let mut others = others;
    'members: loop {
        if let Some(is_true) = others.next_boolean() {
            put_truth(out, b' ', is_true)?;
            continue 'members;
        }
        let Some(view) = others.next() else {
            return Ok(());
        };
        put_member_text(out, b' ', &view)?;
    }
}

/// Appends a list of members.
pub fn put_members_text<A: Allocator>(
    out: &mut Vec<u8, A>,
    members: Members<'_>,
) -> Result<(), AllocError>
    ensures { AppendsText result out.old.items out.new.items (members_text (still_to_come members.entry)) }
{
    put_between(out, b'{', members, b'}')
}
