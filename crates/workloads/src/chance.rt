//! Numbers by chance.

/// Numbers by chance that a seed settles: SplitMix64, of Steele, Lea and Flood.
#[derive(Clone, Copy)]
pub struct Chance(u64);

impl Chance {
    pub fn new(seed: u64) -> Chance {
        Chance(seed)
    }

    /// The next 64 bits.
    pub fn bits(&mut self) -> u64 {
        self.0 = self.0.wrapping_add(0x9E37_79B9_7F4A_7C15);
        let one = (self.0 ^ (self.0 >> 30)).wrapping_mul(0xBF58_476D_1CE4_E5B9);
        let two = (one ^ (one >> 27)).wrapping_mul(0x94D0_49BB_1331_11EB);
        two ^ (two >> 31)
    }

    /// A number below a count, which is itself below 2^32; 0 where that is 0.
    pub fn below(&mut self, count: u32) -> u64 {
        (self.bits() >> 32).wrapping_mul(u64::from(count)) >> 32
    }
}
