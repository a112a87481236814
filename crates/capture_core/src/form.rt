//! How a capture writes its numbers.

/// The order of the octets of a number.
#[derive(Clone, Copy, Debug, PartialEq, Eq)]
pub enum OctetOrder {
    /// The most significant octet comes first.
    BigEndian,
    /// The least significant octet comes first.
    LittleEndian,
}

/// The unit of the fractions of a second.
#[derive(Clone, Copy, Debug, PartialEq, Eq)]
pub enum FractionUnit {
    /// Millionths of a second.
    Microseconds,
    /// Thousandths of a microsecond.
    Nanoseconds,
}

/// What the magic number of a capture says of its numbers.
#[derive(Clone, Copy, Debug, PartialEq, Eq)]
pub struct CaptureForm {
    /// The order of their octets.
    pub order: OctetOrder,
    /// The unit of the fractions of a second.
    pub unit: FractionUnit,
}
