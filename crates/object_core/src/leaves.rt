//! Values of Data without members, behind the sign that divides them from what stands before. The sign, the bracket and the
//! name of a kind are appended as one. Inlined, so that a member is told apart by its kind without another call.
ghost use Rattle.std.specs.Prelude.{◌++◌, ◌∷◌, [], codes};
ghost use Rattle.std.specs.Fmt.{decimal, signed_decimal};
ghost use Rattle.hex.specs.Hex.{encode_lower};
ghost use Rattle.text_core.specs.Pieces.{AppendsText};
ghost use Rattle.object_core.specs.MemberObject.{Behind, IsSimple, one_field};
ghost use Rattle.object_core.specs.Objects.{AppendsSome, octets_value, object};
ghost use Rattle.object_core.specs.Times.{time_fields};
ghost use Rattle.mms_data.specs.Data.{floating};

use crate::floats::put_float_value;
use crate::times::put_time_fields;
use mms_data::UtcTime;
use std::alloc::{AllocError, Allocator};
use text_core::pieces::{put_decimal, put_hexadecimal, put_signed};
use text_core::value::put_float;

// Appends a sign and an integer.
#[inline(always)]
pub(crate) fn put_integer_object<A: Allocator>(
    out: &mut Vec<u8, A>,
    sign: u8,
    number: i64,
) -> Result<(), AllocError>
    ensures { AppendsText result out.old.items out.new.items (sign ∷ one_field (codes "int") (signed_decimal number)) }
{
    out.extend_from_slice(&[sign, b'{', b'"', b'i', b'n', b't', b'"', b':'])?;
    put_signed(out, number)?;
    out.push(b'}')?;
    Ok(())
}

// Appends a sign and an unsigned number.
#[inline(always)]
pub(crate) fn put_unsigned_object<A: Allocator>(
    out: &mut Vec<u8, A>,
    sign: u8,
    number: u64,
) -> Result<(), AllocError>
    ensures { AppendsText result out.old.items out.new.items (sign ∷ one_field (codes "uint") (decimal number)) }
{
    out.extend_from_slice(&[sign, b'{', b'"', b'u', b'i', b'n', b't', b'"', b':'])?;
    put_decimal(out, number)?;
    out.push(b'}')?;
    Ok(())
}

// Appends a float and the number that it is.
#[inline(always)]
pub(crate) fn put_floating_object<A: Allocator>(
    out: &mut Vec<u8, A>,
    sign: u8,
    octets: &[u8],
) -> Result<(), AllocError>
    ensures { AppendsSome result out.old.items out.new.items (Behind sign (IsSimple (floating octets.now))) }
{
    out.extend_from_slice(&[
        sign, b'{', b'"', b'f', b'l', b'o', b'a', b't', b'"', b':', b'"',
    ])?;
    put_float(out, octets)?;
    out.extend_from_slice(b"\",\"value\":")?;
    put_float_value(out, octets)?;
    out.push(b'}')?;
    Ok(())
}

// Appends a name, with what stands before it and the quotation mark behind it, and octets in hexadecimal.
#[inline(always)]
pub(crate) fn put_named_octets<A: Allocator>(
    out: &mut Vec<u8, A>,
    name: &[u8],
    octets: &[u8],
) -> Result<(), AllocError>
    ensures { AppendsText result out.old.items out.new.items (name.now ++ encode_lower octets.now ++ 34 ∷ 125 ∷ []) }
{
    out.extend_from_slice(name)?;
    put_hexadecimal(out, octets)?;
    out.extend_from_slice(b"\"}")
}

// Appends a sign and octets.
#[inline(always)]
pub(crate) fn put_octets_object<A: Allocator>(
    out: &mut Vec<u8, A>,
    sign: u8,
    octets: &[u8],
) -> Result<(), AllocError>
    ensures { AppendsText result out.old.items out.new.items (sign ∷ one_field (codes "oct") (octets_value octets.now)) }
{
    put_named_octets(
        out,
        &[sign, b'{', b'"', b'o', b'c', b't', b'"', b':', b'"'],
        octets,
    )
}

// Appends a sign and the octets of a binary time.
#[inline(always)]
pub(crate) fn put_binary_time_object<A: Allocator>(
    out: &mut Vec<u8, A>,
    sign: u8,
    octets: &[u8],
) -> Result<(), AllocError>
    ensures { AppendsText result out.old.items out.new.items (sign ∷ one_field (codes "btime") (octets_value octets.now)) }
{
    put_named_octets(
        out,
        &[
            sign, b'{', b'"', b'b', b't', b'i', b'm', b'e', b'"', b':', b'"',
        ],
        octets,
    )
}

// Appends a sign and the octets of an MMS string.
#[inline(always)]
pub(crate) fn put_mms_text_object<A: Allocator>(
    out: &mut Vec<u8, A>,
    sign: u8,
    octets: &[u8],
) -> Result<(), AllocError>
    ensures { AppendsText result out.old.items out.new.items (sign ∷ one_field (codes "mms") (octets_value octets.now)) }
{
    put_named_octets(
        out,
        &[sign, b'{', b'"', b'm', b'm', b's', b'"', b':', b'"'],
        octets,
    )
}

// Appends a sign and a moment in UTC.
#[inline(always)]
pub(crate) fn put_utc_object<A: Allocator>(
    out: &mut Vec<u8, A>,
    sign: u8,
    time: UtcTime,
) -> Result<(), AllocError>
    ensures { AppendsText result out.old.items out.new.items (sign ∷ object (time_fields (codes "utc") (codes "time") (codes "quality") time)) }
{
    put_time_fields(
        out,
        &[sign, b'{', b'"', b'u', b't', b'c', b'"', b':'],
        b",\"time\":",
        b",\"quality\":",
        time,
    )?;
    out.push(b'}')?;
    Ok(())
}
