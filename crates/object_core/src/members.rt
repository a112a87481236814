//! The members of a data set as an array, from the octets in which they stand.
ghost use Rattle.std.specs.Prelude.{◌++◌, ◌∷◌, codes};
ghost use Rattle.mms_data.specs.Contents.{cleared};
ghost use Rattle.mms_data.specs.Data.{array, items_of, structure};
ghost use Rattle.mms_data.specs.Meaning.{left as still_to_come, meaning};
ghost use Rattle.text_core.specs.Pieces.{AppendsText, bits_text};
ghost use Rattle.object_core.specs.MemberObject.{AreMembers, AreOthers, Behind, IsMember, one_field};
ghost use Rattle.object_core.specs.Objects.{AppendsSome, in_quotes};

use crate::leaves::{
    put_binary_time_object, put_floating_object, put_integer_object, put_mms_text_object,
    put_octets_object, put_unsigned_object, put_utc_object,
};
use mms_data::{BitView, Members, View};
use std::alloc::{AllocError, Allocator};
use text_core::value::{put_bit_view, put_truth, put_visible};

// Appends a sign and bits.
#[inline(always)]
fn put_bits_object<A: Allocator>(
    out: &mut Vec<u8, A>,
    sign: u8,
    seen: &BitView<'_>,
) -> Result<(), AllocError>
    ensures { AppendsText result out.old.items out.new.items (sign ∷ one_field (codes "bits") (in_quotes (bits_text seen.now.unused (cleared seen.now.unused seen.now.octets.now)))) }
{
    out.extend_from_slice(&[sign, b'{', b'"', b'b', b'i', b't', b's', b'"', b':', b'"'])?;
    put_bit_view(out, *seen)?;
    out.extend_from_slice(b"\"}")
}

// Appends a sign and a value. A member is told apart by its kind once: each kind is written by a function of its own, so that
// nothing stands before the choice.
#[inline(always)]
#[cycle(objects)]
fn put_member_object<A: Allocator>(
    out: &mut Vec<u8, A>,
    sign: u8,
    view: &View<'_>,
) -> Result<(), AllocError>
    ensures { AppendsSome result out.old.items out.new.items (Behind sign (IsMember (meaning view.now))) }
{
    match view {
        View::Boolean(is_true) => put_truth(out, sign, *is_true),
        View::Bits(seen) => put_bits_object(out, sign, seen),
        View::Integer(number) => put_integer_object(out, sign, *number),
        View::Unsigned(number) => put_unsigned_object(out, sign, *number),
        View::Floating(octets) => put_floating_object(out, sign, octets),
        View::Octets(octets) => put_octets_object(out, sign, octets),
        View::BinaryTime(octets) => put_binary_time_object(out, sign, octets),
        View::MmsText(octets) => put_mms_text_object(out, sign, octets),
        View::Utc(time) => put_utc_object(out, sign, *time),
        View::Visible(text) => put_visible(out, sign, text),
        View::Array(members) => put_array_object(out, sign, members),
        View::Structure(members) => put_structure_object(out, sign, members),
    }
}

// Appends a sign and the members of an array.
#[inline(always)]
#[cycle(objects)]
fn put_array_object<A: Allocator>(
    out: &mut Vec<u8, A>,
    sign: u8,
    members: &Members<'_>,
) -> Result<(), AllocError>
    ensures { AppendsSome result out.old.items out.new.items (Behind sign (IsMember (array (items_of (still_to_come members.now))))) }
{
    out.extend_from_slice(&[sign, b'{', b'"', b'a', b'r', b'r', b'a', b'y', b'"', b':'])?;
    put_members_object(out, *members)?;
    out.push(b'}')?;
    Ok(())
}

// Appends a sign and the members of a structure.
#[inline(always)]
#[cycle(objects)]
fn put_structure_object<A: Allocator>(
    out: &mut Vec<u8, A>,
    sign: u8,
    members: &Members<'_>,
) -> Result<(), AllocError>
    ensures { AppendsSome result out.old.items out.new.items (Behind sign (IsMember (structure (items_of (still_to_come members.now))))) }
{
    out.extend_from_slice(&[
        sign, b'{', b'"', b's', b't', b'r', b'u', b'c', b't', b'u', b'r', b'e', b'"', b':',
    ])?;
    put_members_object(out, *members)?;
    out.push(b'}')?;
    Ok(())
}

/// Appends a list of members as an array.
#[cycle(objects)]
pub fn put_members_object<A: Allocator>(
    out: &mut Vec<u8, A>,
    members: Members<'_>,
) -> Result<(), AllocError>
    ensures { AppendsSome result out.old.items out.new.items (AreMembers (still_to_come members.entry)) }
{
    let mut others = members;
    let Some(first) = others.next() else {
        return out.extend_from_slice(b"[]");
    };
    put_member_object(out, b'[', &first)?;
    put_others(out, others)?;
    out.push(b']')?;
    Ok(())
}

// Appends each member behind a comma. Booleans, which data sets have most, are told apart and written first. Inlined, since a
// member inside others is mostly alone: it costs no call to find none behind it.
#[inline(always)]
#[cycle(objects)]
fn put_others<A: Allocator>(out: &mut Vec<u8, A>, others: Members<'_>) -> Result<(), AllocError>
    ensures { AppendsSome result out.old.items out.new.items (AreOthers (still_to_come others.entry)) }
{
    let mut others = others;
    'members: loop {
        if let Some(is_true) = others.next_boolean() {
            put_truth(out, b',', is_true)?;
            continue 'members;
        }
        let Some(view) = others.next() else {
            return Ok(());
        };
        put_member_object(out, b',', &view)?;
    }
}
