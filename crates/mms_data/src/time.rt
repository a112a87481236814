//! Moments.

ghost use Rattle.std.specs.Prelude.{◌≡◌};
ghost use Rattle.mms_data.specs.Written.{written_time};

use byteorder::{BigEndian, ByteOrder};

/// A moment (IEC 61850-8-1, UtcTime): `seconds` since 1970-01-01 UTC, `fraction` of a second in units of
/// 2^-24, below 2^24 where it can be spelled, and `quality`: 80 leap seconds known, 40 clock failure,
/// 20 clock not synchronised, the low five bits the accuracy.
#[derive(Clone, Copy, Debug, PartialEq, Eq)]
pub struct UtcTime {
    pub seconds: u32,
    pub fraction: u32,
    pub quality: u8,
}

impl UtcTime {
    /// The eight octets of its written form: four of seconds, three of fraction, the most significant first, and the
    /// quality.
    pub fn to_octets(self) -> [u8; 8]
        ensures { result ≡ written_time self }
    {
        let mut octets = [0; 8];
        BigEndian::write_u32(&mut octets[3..], self.fraction);
        BigEndian::write_u32(&mut octets, self.seconds);
        octets[7] = self.quality;
        octets
    }
}
