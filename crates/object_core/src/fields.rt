//! The fields of an object. Each call appends to `out` a name and its value; the name is handed in as it stands in the object,
//! with the comma before it, its quotation marks and its colon, so that it is appended as one. Inlined, so that a name is
//! written without a call. Texts, and numbers that are always there, are put by `text_core`'s `put_text`, `put_text_or` and
//! `put_number`.
ghost use Rattle.std.specs.Prelude.{◌++◌};
ghost use Rattle.hex.specs.Hex.{encode_lower};
ghost use Rattle.pdu_core.specs.Views.{octets_if};
ghost use Rattle.text_core.specs.Pieces.{AppendsText, boolean_text};
ghost use Rattle.object_core.specs.Objects.{date_value, decimal_or_null, in_quotes, octets_or_null, octets_value};

use date_core::date_of;
use std::alloc::{AllocError, Allocator};
use text_core::pieces::{put_boolean, put_decimal, put_hexadecimal};

/// Appends a name and a word, in which nothing is escaped.
#[inline(always)]
pub fn put_field_word<A: Allocator>(
    out: &mut Vec<u8, A>,
    name: &[u8],
    word: &[u8],
) -> Result<(), AllocError>
    ensures { AppendsText result out.old.items out.new.items (name.now ++ in_quotes word.now) }
{
    out.extend_from_slice(name)?;
    out.push(b'"')?;
    out.extend_from_slice(word)?;
    out.push(b'"')?;
    Ok(())
}

/// Appends a name and a truth value.
#[inline(always)]
pub fn put_field_boolean<A: Allocator>(
    out: &mut Vec<u8, A>,
    name: &[u8],
    is_true: bool,
) -> Result<(), AllocError>
    ensures { AppendsText result out.old.items out.new.items (name.now ++ boolean_text is_true) }
{
    out.extend_from_slice(name)?;
    put_boolean(out, is_true)
}

/// Appends a name and a number that may be absent.
#[inline(always)]
pub fn put_field_number_if<A: Allocator>(
    out: &mut Vec<u8, A>,
    name: &[u8],
    number: Option<u16>,
) -> Result<(), AllocError>
    ensures { AppendsText result out.old.items out.new.items (name.now ++ decimal_or_null number) }
{
    out.extend_from_slice(name)?;
    match number {
        Some(number) => put_decimal(out, number as u64),
        None => out.extend_from_slice(b"null"),
    }
}

// Appends octets in lower case hexadecimal between quotation marks.
#[inline(always)]
fn put_octets_value<A: Allocator>(out: &mut Vec<u8, A>, octets: &[u8]) -> Result<(), AllocError>
    ensures { AppendsText result out.old.items out.new.items (octets_value octets.now) }
{
    out.push(b'"')?;
    put_hexadecimal(out, octets)?;
    out.push(b'"')?;
    Ok(())
}

/// Appends a name and octets in lower case hexadecimal.
#[inline(always)]
pub fn put_field_octets<A: Allocator>(
    out: &mut Vec<u8, A>,
    name: &[u8],
    octets: &[u8],
) -> Result<(), AllocError>
    ensures { AppendsText result out.old.items out.new.items (name.now ++ octets_value octets.now) }
{
    out.extend_from_slice(name)?;
    put_octets_value(out, octets)
}

/// Appends a name and octets that may be absent.
#[inline(always)]
pub fn put_field_octets_if<A: Allocator>(
    out: &mut Vec<u8, A>,
    name: &[u8],
    octets: Option<&[u8]>,
) -> Result<(), AllocError>
    ensures { AppendsText result out.old.items out.new.items (name.now ++ octets_or_null (octets_if octets.entry)) }
{
    out.extend_from_slice(name)?;
    match octets {
        Some(octets) => put_octets_value(out, octets),
        None => out.extend_from_slice(b"null"),
    }
}

// Appends the date of a moment in microseconds since 1970, null after the year 9999.
#[inline(always)]
fn put_date<A: Allocator>(out: &mut Vec<u8, A>, moment: u64) -> Result<(), AllocError>
    ensures { AppendsText result out.old.items out.new.items (date_value moment) }
{
    match date_of(moment) {
        Some(date) => {
            out.push(b'"')?;
            out.extend_from_slice(&date)?;
            out.push(b'"')?;
            Ok(())
        }
        None => out.extend_from_slice(b"null"),
    }
}

/// Appends a name and the date of a moment in microseconds since 1970, null after the year 9999.
#[inline(always)]
pub fn put_field_date<A: Allocator>(
    out: &mut Vec<u8, A>,
    name: &[u8],
    moment: u64,
) -> Result<(), AllocError>
    ensures { AppendsText result out.old.items out.new.items (name.now ++ date_value moment) }
{
    out.extend_from_slice(name)?;
    put_date(out, moment)
}
