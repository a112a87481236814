//! The small texts of which lines are made. Each call appends to `out`.
ghost use Rattle.std.specs.Prelude.{◌≡◌, ◌<◌, ◌≤◌, ◌+◌, ◌*◌, ◌/◌, ◌%◌, ◌-◌, ◌∷◌, [], ◌++◌, drop, length, take, vec_capacity, vec_len, IfOk, IsOk, IsTrue};
ghost use Rattle.std.specs.List.{flat_map};
ghost use Rattle.std.specs.Fmt.{decimal, signed_decimal};
ghost use Rattle.hex.specs.Hex.{encode_lower};
ghost use Rattle.text_core.specs.Pieces.{AppendsText, octet_bits, bits_text, escaped, quoted, boolean_text, four_digits};

use itoa::write_digits;
use list_core::hexadecimal_digit;
use std::alloc::{AllocError, Allocator};

/// How many octets are copied at once where the line has room for so many: the compiler copies them without a call.
const REACH: usize = 32;

// Appends the first octets of several: all of them, and cuts off those behind. The compiler copies a count that it knows
// without a call.
#[inline(always)]
fn put_cut<A: Allocator>(out: &mut Vec<u8, A>, octets: &[u8], size: usize) -> Result<(), AllocError>
    requires { size ≤ length octets.now }
    ensures text { AppendsText result out.old.items out.new.items (take size octets.now) }
    ensures room { vec_len out.old + length octets.now ≤ vec_capacity out.old → IsOk result }
{
    let start = out.len();
    out.extend_from_slice(octets)?;
    out.truncate(start + size);
    Ok(())
}

/// Appends the first octets of 32, and takes no more memory than those want.
#[inline(always)]
pub fn put_front<A: Allocator>(
    out: &mut Vec<u8, A>,
    octets: &[u8; REACH],
    size: usize,
) -> Result<(), AllocError>
    requires { size ≤ 32 }
    ensures text { AppendsText result out.old.items out.new.items (take size octets.now) }
    ensures room { vec_len out.old + size ≤ vec_capacity out.old → IsOk result }
{
    if out.capacity().wrapping_sub(out.len()) < REACH {
        return out.extend_from_slice(&octets[..size]);
    }
    put_cut(out, octets, size)
}

// The octets behind a place, as many as are copied at once.
#[inline(always)]
fn reached(octets: &[u8; 2 * REACH], start: usize) -> &[u8; REACH]
    requires { start ≤ 32 }
    ensures { result.now ≡ take 32 (drop start octets.now) }
{
    let Some((reached, _)) = octets[start..].split_first_chunk::<REACH>() else {
        unreachable!()
    };
    reached
}

/// Appends a number in decimal. One of one digit is written at once.
pub fn put_decimal<A: Allocator>(out: &mut Vec<u8, A>, number: u64) -> Result<(), AllocError>
    ensures { AppendsText result out.old.items out.new.items (decimal number) }
{
    if number < 10 {
        return out.extend_from_slice(&[b'0' + number as u8]);
    }
    let mut digits = [0; 2 * REACH];
    let start = write_digits(number, &mut digits, REACH);
    put_front(out, reached(&digits, start), REACH - start)
}

// Puts a minus sign in front of digits.
#[inline(always)]
fn put_minus(digits: &mut [u8; 2 * REACH], start: usize)
    requires least { 1 ≤ start }
    requires most { start ≤ 32 }
    ensures { drop (start - 1) digits.new ≡ 45 ∷ drop start digits.old }
{
    digits[start - 1] = b'-';
}

/// Appends an integer in decimal, a negative one after a minus sign.
pub fn put_signed<A: Allocator>(out: &mut Vec<u8, A>, integer: i64) -> Result<(), AllocError>
    ensures { AppendsText result out.old.items out.new.items (signed_decimal integer) }
{
    let size = integer.unsigned_abs();
    if 0 <= integer {
        return put_decimal(out, size);
    }
    let mut digits = [0; 2 * REACH];
    let start = write_digits(size, &mut digits, REACH);
    put_minus(&mut digits, start);
    put_front(out, reached(&digits, start - 1), REACH + 1 - start)
}

/// How many octets of few are written at once, and how many digits they have.
pub(crate) const BLOCK: usize = 32;

pub(crate) const DIGITS: usize = 64;

// The digits of so many octets, which the compiler makes all at once: first those of all high halves and of all low ones.
#[inline(always)]
pub(crate) fn block_digits<const N: usize, const M: usize>(octets: &[u8; N]) -> [u8; M]
    requires { M ≡ 2 * N }
    ensures { result ≡ encode_lower octets.now }
{
    let mut high = [0; N];
    let mut low = [0; N];
    for at in 0..N {
        high[at] = hexadecimal_digit(octets[at] / 16);
        low[at] = hexadecimal_digit(octets[at] % 16);
    }
    let mut digits = [0; M];
    for at in 0..N {
        digits[2 * at] = high[at];
        digits[2 * at + 1] = low[at];
    }
    digits
}

/// Appends at most 32 octets in lower case hexadecimal. Inlined, so that their count is known where it is one alone.
#[inline(always)]
pub fn put_short_hexadecimal<A: Allocator>(
    out: &mut Vec<u8, A>,
    octets: &[u8],
) -> Result<(), AllocError>
    requires { length octets.now ≤ 32 }
    ensures { AppendsText result out.old.items out.new.items (encode_lower octets.now) }
{
    let mut block = [0; BLOCK];
    block[..octets.len()].copy_from_slice(octets);
    out.extend_from_slice(&block_digits::<BLOCK, DIGITS>(&block)[..2 * octets.len()])
}

// Appends the digits of octets, so many at a time, and answers the last octets, which are fewer.
#[inline(always)]
fn put_blocks<'a, const N: usize, const M: usize, A: Allocator>(
    out: &mut Vec<u8, A>,
    octets: &'a [u8],
) -> Result<&'a [u8], AllocError>
    requires some { 0 < N }
    requires twice { M ≡ 2 * N }
    requires few { M ≤ 128 }
    ensures kept { take (length out.old.items) out.new.items ≡ out.old.items }
    ensures so_far { IfOk result (λ rest. out.new.items ++ encode_lower rest.now ≡ out.old.items ++ encode_lower octets.now) }
    ensures few { IfOk result (λ rest. length rest.now < N) }
{
    let mut others = octets;
    'blocks: while let Some((block, rest)) = others.split_first_chunk::<N>() {
        out.extend_from_slice(&block_digits::<N, M>(block))?;
        others = rest;
    }
    Ok(others)
}

/// Appends octets in lower case hexadecimal. Two octets, as smpMod has, are written as a count that is known.
pub fn put_hexadecimal<A: Allocator>(out: &mut Vec<u8, A>, octets: &[u8]) -> Result<(), AllocError>
    ensures { AppendsText result out.old.items out.new.items (encode_lower octets.now) }
{
    if let [first, last] = octets {
        return put_short_hexadecimal(out, &[*first, *last]);
    }
    let others = put_blocks::<64, 128, A>(out, octets)?;
    let others = put_blocks::<BLOCK, DIGITS, A>(out, others)?;
    if others.is_empty() {
        return Ok(());
    }
    put_short_hexadecimal(out, others)
}

/// Appends a number in four hexadecimal digits.
pub fn put_four_digits<A: Allocator>(out: &mut Vec<u8, A>, number: u16) -> Result<(), AllocError>
    ensures { AppendsText result out.old.items out.new.items (four_digits number) }
{
    put_short_hexadecimal(out, &[(number / 256) as u8, (number % 256) as u8])
}

// The four bits of a number below 16 as digits, the most significant first.
fn four_bits(number: u8) -> [u8; 4]
    requires { number < 16 }
    ensures { result ≡ (48 + number / 8 % 2) ∷ (48 + number / 4 % 2) ∷ (48 + number / 2 % 2) ∷ (48 + number % 2) ∷ [] }
{
    match number {
        0 => *b"0000",
        1 => *b"0001",
        2 => *b"0010",
        3 => *b"0011",
        4 => *b"0100",
        5 => *b"0101",
        6 => *b"0110",
        7 => *b"0111",
        8 => *b"1000",
        9 => *b"1001",
        10 => *b"1010",
        11 => *b"1011",
        12 => *b"1100",
        13 => *b"1101",
        14 => *b"1110",
        _ => *b"1111",
    }
}

// The eight bits of an octet as digits, the most significant first.
fn bit_digits(octet: u8) -> [u8; 8]
    ensures { result ≡ octet_bits octet }
{
    let [a, b, c, d] = four_bits(octet / 16);
    let [e, f, g, h] = four_bits(octet % 16);
    [a, b, c, d, e, f, g, h]
}

/// Appends the bits of octets without the last `unused` ones.
pub fn put_bits<A: Allocator>(
    out: &mut Vec<u8, A>,
    unused: u8,
    octets: &[u8],
) -> Result<(), AllocError>
    ensures { AppendsText result out.old.items out.new.items (bits_text unused octets.now) }
{
    let start = out.len();
    for octet in octets {
        out.extend_from_slice(&bit_digits(*octet))?;
    }
    let size = out.len() - start;
    out.truncate(start + size.saturating_sub(unused as usize));
    Ok(())
}

// Appends the bits of an octet without the last `unused` ones.
#[inline(always)]
fn put_octet_bits<A: Allocator>(
    out: &mut Vec<u8, A>,
    unused: u8,
    octet: u8,
) -> Result<(), AllocError>
    ensures { AppendsText result out.old.items out.new.items (take (8 - unused) (octet_bits octet)) }
{
    put_cut(
        out,
        &bit_digits(octet),
        8_u8.saturating_sub(unused) as usize,
    )
}

// The sixteen bits of two octets as digits, the most significant first.
#[inline(always)]
fn sixteen_digits(first: u8, last: u8) -> [u8; 16]
    ensures { result ≡ octet_bits first ++ octet_bits last }
{
    let [a, b, c, d, e, f, g, h] = bit_digits(first);
    let [i, j, k, l, m, n, o, p] = bit_digits(last);
    [a, b, c, d, e, f, g, h, i, j, k, l, m, n, o, p]
}

// Appends the bits of two octets without the last `unused` ones: all of them at once, where the line has room. A call of its
// own, in which the compiler copies them without one.
#[inline(never)]
fn put_two_bits<A: Allocator>(
    out: &mut Vec<u8, A>,
    unused: u8,
    first: u8,
    last: u8,
) -> Result<(), AllocError>
    requires { unused ≤ 7 }
    ensures { AppendsText result out.old.items out.new.items (bits_text unused (first ∷ last ∷ [])) }
{
    if out.capacity().wrapping_sub(out.len()) < 16 {
        return put_bits(out, unused, &[first, last]);
    }
    put_cut(out, &sixteen_digits(first, last), 16 - unused as usize)
}

// Appends the bits of octets without the last `unused` ones, of which there are at most seven. Nearly all bits stand in one
// octet or two: those of one are appended without a call, those of two by one.
#[inline(always)]
pub(crate) fn put_few_bits<A: Allocator>(
    out: &mut Vec<u8, A>,
    unused: u8,
    octets: &[u8],
) -> Result<(), AllocError>
    requires { unused ≤ 7 }
    ensures { AppendsText result out.old.items out.new.items (bits_text unused octets.now) }
{
    match octets {
        [octet] => put_octet_bits(out, unused, *octet),
        [first, last] => put_two_bits(out, unused, *first, *last),
        _ => put_bits(out, unused, octets),
    }
}

// Whether no octet of a text is written after a backslash. The octets are passed eight at a time, which the compiler
// looks at together.
fn is_plain(text: &[u8]) -> bool
    ensures { IsTrue result → flat_map escaped text.now ≡ text.now }
{
    let mut others = text;
    'eights: while 8 <= others.len() {
        let (eight, rest) = others.split_at(8);
        if !are_plain(eight) {
            return false;
        }
        others = rest;
    }
    are_plain(others)
}

// Whether none of these octets is. It looks at each, also behind one that is, for one sign and for the other apart, so
// that the compiler compares several octets at once.
#[inline(always)]
pub(crate) fn are_plain(octets: &[u8]) -> bool
    ensures { IsTrue result → flat_map escaped octets.now ≡ octets.now }
{
    let mut without_marks = true;
    let mut without_backslashes = true;
    for octet in octets {
        without_marks &= *octet != b'"';
        without_backslashes &= *octet != b'\\';
    }
    without_marks && without_backslashes
}

/// Appends the octets of a text, a quotation mark and a backslash after a backslash. A call of its own, since few texts are
/// passed octet by octet.
#[inline(never)]
pub fn put_escaped<A: Allocator>(out: &mut Vec<u8, A>, text: &[u8]) -> Result<(), AllocError>
    ensures { AppendsText result out.old.items out.new.items (flat_map escaped text.now) }
{
    for octet in text {
        match *octet {
            b'"' | b'\\' => out.extend_from_slice(&[b'\\', *octet])?,
            _ => out.push(*octet)?,
        }
    }
    Ok(())
}

// Appends the octets of a text of any length as they are written. Nearly every text is plain, and is appended as a whole.
fn put_written<A: Allocator>(out: &mut Vec<u8, A>, text: &[u8]) -> Result<(), AllocError>
    ensures { AppendsText result out.old.items out.new.items (flat_map escaped text.now) }
{
    if is_plain(text) {
        out.extend_from_slice(text)
    } else {
        put_escaped(out, text)
    }
}

// Appends the first octets of a text up to a place, and the last ones, which go on from there. The compiler copies so many
// without a call.
#[inline(always)]
fn put_halves<const N: usize, A: Allocator>(
    out: &mut Vec<u8, A>,
    first: [u8; N],
    from: usize,
    last: [u8; N],
) -> Result<(), AllocError>
    requires { from ≤ N }
    ensures { AppendsText result out.old.items out.new.items (take from first.entry ++ last.entry) }
{
    put_cut(out, &first, from)?;
    out.extend_from_slice(&last)
}

// Appends a text of `N` octets to twice as many as it is written: by its first ones and its last ones, of which some may be
// the same. The compiler looks at so many at once. A call of its own, in which it takes no copy for a rare one.
#[inline(never)]
fn put_short_text<const N: usize, A: Allocator>(
    out: &mut Vec<u8, A>,
    text: &[u8],
) -> Result<(), AllocError>
    requires least { N ≤ length text.now }
    requires most { length text.now ≤ N + N }
    ensures { AppendsText result out.old.items out.new.items (flat_map escaped text.now) }
{
    // A line without room for it grows once, for the whole text.
    if out.capacity().wrapping_sub(out.len()) < text.len() {
        return put_written(out, text);
    }
    let Some((first, _)) = text.split_first_chunk::<N>() else {
        unreachable!()
    };
    let Some((_, last)) = text.split_last_chunk::<N>() else {
        unreachable!()
    };
    if are_plain(first) && are_plain(last) {
        put_halves::<N, A>(out, *first, text.len() - N, *last)
    } else {
        put_escaped(out, text)
    }
}

/// Appends a text between quotation marks.
pub fn put_quoted<A: Allocator>(out: &mut Vec<u8, A>, text: &[u8]) -> Result<(), AllocError>
    ensures { AppendsText result out.old.items out.new.items (quoted text.now) }
{
    out.push(b'"')?;
    match text.len() {
        0..=1 => put_escaped(out, text)?,
        2..=3 => put_short_text::<2, A>(out, text)?,
        4..=7 => put_short_text::<4, A>(out, text)?,
        8..=16 => put_short_text::<8, A>(out, text)?,
        17..=32 => put_short_text::<16, A>(out, text)?,
        _ => put_written(out, text)?,
    }
    out.push(b'"')?;
    Ok(())
}

/// Appends a truth value in words. Inlined, so that either word is written without a call.
#[inline(always)]
pub fn put_boolean<A: Allocator>(out: &mut Vec<u8, A>, is_true: bool) -> Result<(), AllocError>
    ensures { AppendsText result out.old.items out.new.items (boolean_text is_true) }
{
    if is_true {
        out.extend_from_slice(b"true")
    } else {
        out.extend_from_slice(b"false")
    }
}
