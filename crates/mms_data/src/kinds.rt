//! The kinds of Data, by their identifiers.

ghost use Rattle.std.specs.Prelude.{◌≡◌};
ghost use Rattle.mms_data.specs.computed.KindReading.{kind_at};
ghost use Rattle.mms_data.specs.computed.Reading.{known_at};

use ber_core::{Cause, Fault};

/// The kinds of Data without members (ISO 9506-2).
#[derive(Clone, Copy, Debug, PartialEq, Eq)]
pub enum SimpleKind {
    Boolean,
    BitString,
    Integer,
    Unsigned,
    FloatingPoint,
    OctetString,
    VisibleString,
    BinaryTime,
    MmsString,
    UtcTime,
}

/// The kinds of Data (ISO 9506-2).
#[derive(Clone, Copy, Debug, PartialEq, Eq)]
pub enum Kind {
    Array,
    Structure,
    Simple(SimpleKind),
}

// The kind that the identifier announces.
#[inline(always)]
#[tactic(auto, unfolding(crate::specs::computed::KindReading::kind_at))]
pub(crate) fn announced(identifier: u8) -> Option<Kind>
    ensures { result ≡ kind_at identifier }
{
    match identifier {
        0xA1 => Some(Kind::Array),
        0xA2 => Some(Kind::Structure),
        0x83 => Some(Kind::Simple(SimpleKind::Boolean)),
        0x84 => Some(Kind::Simple(SimpleKind::BitString)),
        0x85 => Some(Kind::Simple(SimpleKind::Integer)),
        0x86 => Some(Kind::Simple(SimpleKind::Unsigned)),
        0x87 => Some(Kind::Simple(SimpleKind::FloatingPoint)),
        0x89 => Some(Kind::Simple(SimpleKind::OctetString)),
        0x8A => Some(Kind::Simple(SimpleKind::VisibleString)),
        0x8C => Some(Kind::Simple(SimpleKind::BinaryTime)),
        0x90 => Some(Kind::Simple(SimpleKind::MmsString)),
        0x91 => Some(Kind::Simple(SimpleKind::UtcTime)),
        _ => None,
    }
}

// The kind of the member at the front of `octets`, which stand at the place `at`.
#[inline(always)]
pub(crate) fn member_kind(octets: &[u8], at: usize) -> Result<Kind, Fault>
    ensures { result ≡ known_at at octets.now }
{
    match octets {
        [] => Err(Cause::Ends.at(at)),
        [identifier, ..] => {
            if *identifier % 32 == 31 {
                return Err(Cause::HighTag.at(at));
            }
            match announced(*identifier) {
                Some(kind) => Ok(kind),
                None => Err(Cause::UnexpectedTag.at(at)),
            }
        }
    }
}
