//! The named fields of a line or an object. Each call appends to `out`. Inlined, so that a name is written without a call.
ghost use Rattle.std.specs.Prelude.{◌++◌};
ghost use Rattle.std.specs.Fmt.{decimal};
ghost use Rattle.hex.specs.Hex.{encode_lower};
ghost use Rattle.pdu_core.specs.Views.{octets_if};
ghost use Rattle.text_core.specs.Pieces.{AppendsText, octets_or_dash, quoted, text_or};
ghost use Rattle.text_core.specs.ValueText.{time_text};

use crate::pieces::{put_decimal, put_hexadecimal, put_quoted};
use crate::value::put_utc;
use mms_data::UtcTime;
use std::alloc::{AllocError, Allocator};

/// Appends a name and a number in decimal.
#[inline(always)]
pub fn put_number<A: Allocator>(
    out: &mut Vec<u8, A>,
    name: &[u8],
    number: u32,
) -> Result<(), AllocError>
    ensures { AppendsText result out.old.items out.new.items (name.now ++ decimal number) }
{
    out.extend_from_slice(name)?;
    put_decimal(out, number as u64)
}

/// Appends a name and a text.
#[inline(always)]
pub fn put_text<A: Allocator>(
    out: &mut Vec<u8, A>,
    name: &[u8],
    text: &[u8],
) -> Result<(), AllocError>
    ensures { AppendsText result out.old.items out.new.items (name.now ++ quoted text.now) }
{
    out.extend_from_slice(name)?;
    put_quoted(out, text)
}

/// Appends a name and a text, or this word where it is absent.
#[inline(always)]
pub fn put_text_or<A: Allocator>(
    out: &mut Vec<u8, A>,
    name: &[u8],
    text: Option<&[u8]>,
    absent: &[u8],
) -> Result<(), AllocError>
    ensures { AppendsText result out.old.items out.new.items (name.now ++ text_or absent.now (octets_if text.entry)) }
{
    out.extend_from_slice(name)?;
    match text {
        Some(text) => put_quoted(out, text),
        None => out.extend_from_slice(absent),
    }
}

/// Appends a name and a moment.
#[inline(always)]
pub fn put_time<A: Allocator>(
    out: &mut Vec<u8, A>,
    name: &[u8],
    time: UtcTime,
) -> Result<(), AllocError>
    ensures { AppendsText result out.old.items out.new.items (name.now ++ time_text time) }
{
    out.extend_from_slice(name)?;
    put_utc(out, time)
}

/// Appends a name and octets in lower case hexadecimal.
#[inline(always)]
pub fn put_octets<A: Allocator>(
    out: &mut Vec<u8, A>,
    name: &[u8],
    octets: &[u8],
) -> Result<(), AllocError>
    ensures { AppendsText result out.old.items out.new.items (name.now ++ encode_lower octets.now) }
{
    out.extend_from_slice(name)?;
    put_hexadecimal(out, octets)
}

/// Appends a name and octets that may be absent.
#[inline(always)]
pub fn put_octets_if<A: Allocator>(
    out: &mut Vec<u8, A>,
    name: &[u8],
    octets: Option<&[u8]>,
) -> Result<(), AllocError>
    ensures { AppendsText result out.old.items out.new.items (name.now ++ octets_or_dash (octets_if octets.entry)) }
{
    out.extend_from_slice(name)?;
    match octets {
        Some(octets) => put_hexadecimal(out, octets),
        None => out.extend_from_slice(b"-"),
    }
}
