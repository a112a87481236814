//! The order of things of which some have a number.

ghost use Rattle.std.specs.Prelude.{◌≡◌};
ghost use Rattle.known_core.specs.computed.Rank.{rank};

/// Where one with this number stands: one that has none comes first, and the others by their numbers.
pub fn rank(number: Option<u16>) -> u32
    ensures { result ≡ rank number }
{
    match number {
        None => 0,
        Some(number) => u32::from(number) + 1,
    }
}
