//! Fields of a text that commas divide, and what one of them says.
ghost use Rattle.std.specs.Prelude.{◌≡◌, ◌<◌, length, map, MatchOption, option_map};
ghost use Rattle.block_core.specs.Commas.{comma_fields, is_field, is_field_octet, number_by, text_in, word_in};

use arrayvec::ArrayVec;
use ber_core::looking::{OctetKind, Visible, are_all};
use byteorder::{BigEndian, ByteOrder};
use list_core::{cut_first, decimal_in};

/// The most fields of a text, those of the longest line of a script.
pub const MOST_FIELDS: usize = 13;

/// The fields of a text, where there are at most 13.
pub fn fields_of(text: &[u8]) -> Option<ArrayVec<&[u8], MOST_FIELDS>>
    ensures { MatchOption result (13 < length (comma_fields text.now)) (λ fields. map (λ field. field.now) fields.items ≡ comma_fields text.now) }
{
    let mut fields = ArrayVec::new();
    let mut rest = text;
    for _field in 0..MOST_FIELDS {
        let (field, after) = cut_first(rest, b',');
        fields.push(field);
        match after {
            Some(after) => rest = after,
            None => return Some(fields),
        }
    }
    None
}

/// A word by four hexadecimal digits.
pub fn word_in(digits: &[u8]) -> Option<u16>
    ensures { result ≡ word_in digits.now }
{
    let mut octets = [0; 2];
    match hex::decode_to_slice(digits, &mut octets) {
        Ok(()) => Some(BigEndian::read_u16(&octets)),
        Err(_) => None,
    }
}

/// A number of at most 4,294,967,295 by 1 to 10 decimal digits.
pub fn number_by(digits: &[u8]) -> Option<u32>
    ensures { result ≡ number_by digits.now }
{
    let number = decimal_in(digits, 10)?;
    if number <= u32::MAX as u64 {
        Some(number as u32)
    } else {
        None
    }
}

/// A text of octets from 20 to 7E.
pub fn text_in(field: &[u8]) -> Option<&[u8]>
    ensures { option_map (λ text. text.now) result ≡ text_in field.now }
{
    if are_all(field, Visible) {
        Some(field)
    } else {
        None
    }
}

// Octets that can stand in a field of a BLOCK.
#[derive(Clone, Copy)]
struct FieldOctet;

impl OctetKind for FieldOctet {
    ghost has = { λ _. is_field_octet };

    #[inline(always)]
    fn has(self, octet: u8) -> bool {
        0x20 <= octet && octet <= 0x7e && octet != b','
    }
}

/// Whether a text can stand in a field of a BLOCK: it is of visible octets, and no comma is among them.
pub fn is_field(text: &[u8]) -> bool
    ensures { result ≡ is_field text.now }
{
    are_all(text, FieldOctet)
}
