//! Which field of a text is why it says no control block.

use block_core::commas::{fields_of, number_by, text_in, word_in};
use std::{fmt, str};

/// The fields of a block, and what each must be.
const FIELDS: [(&str, &str); 6] = [
    ("APPID", "4 hexadecimal digits"),
    ("gocbRef", "characters from space to ~"),
    ("datSet", "characters from space to ~"),
    ("goID", "characters from space to ~, or empty"),
    ("confRev", "1 to 10 decimal digits, at most 4294967295"),
    ("entries", "1 to 10 decimal digits, at most 4294967295"),
];

/// Why a text says no control block.
#[derive(Clone, Copy)]
pub enum BlockFault<'a> {
    /// It has over 13 fields, as many as are counted.
    ManyFields,
    /// It has another count of fields than six.
    Fields(usize),
    /// The field of this name is this, and must be that.
    Field(&'static str, &'a str, &'static str),
}

// Whether a field can stand at this position.
fn is_field(position: usize, field: &[u8]) -> bool {
    match position {
        0 => word_in(field).is_some(),
        1 | 2 | 3 => text_in(field).is_some(),
        _ => number_by(field).is_some(),
    }
}

/// Why a text says no control block, where it says none.
pub fn block_fault(text: &str) -> Option<BlockFault<'_>> {
    let Some(fields) = fields_of(text.as_bytes()) else {
        return Some(BlockFault::ManyFields);
    };
    if fields.len() != FIELDS.len() {
        return Some(BlockFault::Fields(fields.len()));
    }
    for (position, ((name, wanted), field)) in FIELDS.iter().zip(fields.iter()).enumerate() {
        if !is_field(position, field) {
            let found = str::from_utf8(field).unwrap_or("no text");
            return Some(BlockFault::Field(name, found, wanted));
        }
    }
    None
}

impl fmt::Display for BlockFault<'_> {
    fn fmt<W: fmt::Write>(&self, f: &mut fmt::Formatter<W>) -> fmt::Result {
        match self {
            BlockFault::ManyFields => f.write_str("It has over 13 fields, and must have 6"),
            BlockFault::Fields(1) => f.write_str(
                "It has 1 field, and must have 6, divided by commas",
            ),
            BlockFault::Fields(count) => write!(f, "It has {count} fields, and must have 6"),
            BlockFault::Field(name, found, wanted) => {
                write!(f, "{name} is {found:?}, and must be {wanted}")
            }
        }
    }
}
