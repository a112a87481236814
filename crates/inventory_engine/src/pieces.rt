//! The pieces of which the text of a sighting is made. It is compared with a text that is held piece by piece, so that
//! a sighting of which nothing is written asks for no memory.

ghost use Rattle.std.specs.Prelude.{◌≡◌, IfOk, OnOk, length, take};
ghost use Rattle.std.specs.List.{flat_map};
ghost use Rattle.std.specs.Str.{bytes_eq};
ghost use Rattle.std.specs.Fmt.{decimal};
ghost use Rattle.pdu_core.specs.Views.{octets_if};
ghost use Rattle.text_core.specs.Afters.{IsAfter};
ghost use Rattle.text_core.specs.Pieces.{AppendsText, escaped, four_digits, quoted, quoted_or_dash};
ghost use Rattle.inventory_engine.specs.computed.PieceText.{escaped_piece, escaped_twice, piece_text};

use itoa::Buffer;
use list_core::write_digits;
use std::alloc::{AllocError, Allocator};
use text_core::fields::put_text_or;
use text_core::following::{after, after_one, after_quoted};
use text_core::pieces::{put_decimal, put_escaped, put_four_digits, put_quoted};

/// A piece of a text.
#[derive(Clone, Copy)]
pub enum Piece<'a> {
    /// This octet.
    Octet(u8),
    /// These octets.
    Octets(&'a [u8]),
    /// A text between quotation marks.
    Quoted(&'a [u8]),
    /// A text between quotation marks, or a dash where it is absent.
    Optional(Option<&'a [u8]>),
    /// A number in four hexadecimal digits.
    Digits(u16),
    /// A number in decimal.
    Decimal(u64),
}

// Appends a piece.
fn put_piece<A: Allocator>(out: &mut Vec<u8, A>, piece: &Piece<'_>) -> Result<(), AllocError>
    ensures { AppendsText result out.old.items out.new.items (piece_text piece.now) }
{
    match piece {
        Piece::Octet(octet) => {
            out.push(*octet)?;
            Ok(())
        }
        Piece::Octets(octets) => out.extend_from_slice(octets),
        Piece::Quoted(text) => put_quoted(out, text),
        Piece::Optional(text) => put_text_or(out, b"", *text, b"-"),
        Piece::Digits(number) => put_four_digits(out, *number),
        Piece::Decimal(number) => put_decimal(out, *number),
    }
}

/// Appends pieces, one after the other.
pub fn put_pieces<A: Allocator>(
    out: &mut Vec<u8, A>,
    pieces: &[Piece<'_>],
) -> Result<(), AllocError>
    ensures { AppendsText result out.old.items out.new.items (flat_map piece_text pieces.now) }
{
    for piece in pieces {
        put_piece(out, piece)?;
    }
    Ok(())
}

// Appends an octet as it stands in a text that is written between quotation marks twice.
fn put_octet_twice<A: Allocator>(out: &mut Vec<u8, A>, octet: u8) -> Result<(), AllocError>
    ensures { AppendsText result out.old.items out.new.items (escaped_twice octet) }
{
    match octet {
        b'"' | b'\\' => out.extend_from_slice(&[b'\\', b'\\', b'\\', octet]),
        _ => out.extend_from_slice(&[octet]),
    }
}

// Appends the octets of a text as they stand where it is written between quotation marks twice.
fn put_escaped_twice<A: Allocator>(out: &mut Vec<u8, A>, text: &[u8]) -> Result<(), AllocError>
    ensures { AppendsText result out.old.items out.new.items (flat_map escaped_twice text.now) }
{
    for octet in text {
        put_octet_twice(out, *octet)?;
    }
    Ok(())
}

// Appends the octets of a text between quotation marks as they stand between others.
fn put_quoted_twice<A: Allocator>(out: &mut Vec<u8, A>, text: &[u8]) -> Result<(), AllocError>
    ensures { AppendsText result out.old.items out.new.items (flat_map escaped (quoted text.now)) }
{
    out.extend_from_slice(&[b'\\', b'"'])?;
    put_escaped_twice(out, text)?;
    out.extend_from_slice(&[b'\\', b'"'])
}

// Appends the octets of a number in four hexadecimal digits.
fn put_escaped_digits<A: Allocator>(out: &mut Vec<u8, A>, number: u16) -> Result<(), AllocError>
    ensures { AppendsText result out.old.items out.new.items (flat_map escaped (four_digits number)) }
{
    let mut digits = [0; 4];
    let octets = [(number / 256) as u8, (number % 256) as u8];
    if write_digits(&octets, &mut digits) {
        put_escaped(out, &digits)
    } else {
        unreachable!()
    }
}

// Appends the octets of a piece as they stand between quotation marks.
fn put_escaped_piece<A: Allocator>(
    out: &mut Vec<u8, A>,
    piece: &Piece<'_>,
) -> Result<(), AllocError>
    ensures { AppendsText result out.old.items out.new.items (escaped_piece piece.now) }
{
    match piece {
        Piece::Octet(octet) => put_escaped(out, &[*octet]),
        Piece::Octets(octets) => put_escaped(out, octets),
        Piece::Quoted(text) => put_quoted_twice(out, text),
        Piece::Optional(text) => match text {
            Some(text) => put_quoted_twice(out, text),
            None => put_escaped(out, b"-"),
        },
        Piece::Digits(number) => put_escaped_digits(out, *number),
        Piece::Decimal(number) => put_escaped(out, Buffer::new().format(*number).as_bytes()),
    }
}

// Appends the octets of pieces as they stand between quotation marks.
fn put_escaped_pieces<A: Allocator>(
    out: &mut Vec<u8, A>,
    pieces: &[Piece<'_>],
) -> Result<(), AllocError>
    ensures { AppendsText result out.old.items out.new.items (flat_map escaped_piece pieces.now) }
{
    for piece in pieces {
        put_escaped_piece(out, piece)?;
    }
    Ok(())
}

/// Appends the text of pieces between quotation marks.
pub fn put_quoted_pieces<A: Allocator>(
    out: &mut Vec<u8, A>,
    pieces: &[Piece<'_>],
) -> Result<(), AllocError>
    ensures { AppendsText result out.old.items out.new.items (quoted (flat_map piece_text pieces.now)) }
{
    out.push(b'"')?;
    put_escaped_pieces(out, pieces)?;
    out.push(b'"')?;
    Ok(())
}

/// The size of the text of pieces. It is written at the end of a vector, and cut off.
pub fn text_size<A: Allocator>(
    out: &mut Vec<u8, A>,
    pieces: &[Piece<'_>],
) -> Result<usize, AllocError>
    ensures size { IfOk result (λ size. size ≡ length (flat_map piece_text pieces.now)) }
    ensures same { OnOk result (out.new.items ≡ out.old.items) }
    ensures kept { take (length out.old.items) out.new.items ≡ out.old.items }
{
    let start = out.len();
    put_pieces(out, pieces)?;
    let size = out.len() - start;
    out.truncate(start);
    Ok(size)
}

/// What follows a number in decimal.
#[inline(always)]
pub fn after_decimal(text: &[u8], number: u64) -> Option<&[u8]>
    ensures { IsAfter text.now (decimal number) result }
{
    if number < 10 {
        return after_one(text, b'0' + number as u8);
    }
    after_longer(text, number)
}

// What follows a number in decimal. A call of its own: most numbers have one digit.
#[inline(never)]
fn after_longer(text: &[u8], number: u64) -> Option<&[u8]>
    ensures { IsAfter text.now (decimal number) result }
{
    after(text, Buffer::new().format(number).as_bytes())
}

/// What follows a number in four hexadecimal digits.
pub fn after_digits(text: &[u8], number: u16) -> Option<&[u8]>
    ensures { IsAfter text.now (four_digits number) result }
{
    let mut digits = [0; 4];
    let octets = [(number / 256) as u8, (number % 256) as u8];
    if write_digits(&octets, &mut digits) {
        after(text, &digits)
    } else {
        unreachable!()
    }
}

// What follows a text between quotation marks, or a dash where it is absent.
fn after_optional<'a>(text: &'a [u8], octets: Option<&[u8]>) -> Option<&'a [u8]>
    ensures { IsAfter text.now (quoted_or_dash (octets_if octets.entry)) result }
{
    match octets {
        Some(octets) => after_quoted(text, octets),
        None => after_one(text, b'-'),
    }
}

// What follows a piece.
fn after_piece<'a>(text: &'a [u8], piece: &Piece<'_>) -> Option<&'a [u8]>
    ensures { IsAfter text.now (piece_text piece.now) result }
{
    match piece {
        Piece::Octet(octet) => after_one(text, *octet),
        Piece::Octets(octets) => after(text, octets),
        Piece::Quoted(octets) => after_quoted(text, octets),
        Piece::Optional(octets) => after_optional(text, *octets),
        Piece::Digits(number) => after_digits(text, *number),
        Piece::Decimal(number) => after_decimal(text, *number),
    }
}

/// Whether a text is that of these pieces.
pub fn is_text(text: &[u8], pieces: &[Piece<'_>]) -> bool
    ensures { result ≡ bytes_eq text.now (flat_map piece_text pieces.now) }
{
    let mut rest = text;
    for piece in pieces {
        match after_piece(rest, piece) {
            Some(behind) => rest = behind,
            None => return false,
        }
    }
    rest.is_empty()
}
