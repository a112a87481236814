//! Numbers from their decimal digits.
ghost use Rattle.std.specs.Prelude.{◌≡◌, ◌^◌, ◌≤◌, ◌<◌, IfSome, length, take, get_or, true, false};
ghost use Rattle.std.specs.Char.{is_ascii_digit};
ghost use Rattle.std.specs.List.{list_all};
ghost use Rattle.std.specs.Str.Parse.{digits_value};
ghost use Rattle.list_core.specs.Decimal.{decimal_of};

/// The number that decimal digits write, of which there is at least one and at most `most`. There is
/// no sign.
pub fn decimal_in(digits: &[u8], most: usize) -> Option<u64>
    requires { most ≤ 18 }
    ensures value { result ≡ decimal_of most digits.now }
    ensures short { IfSome result (λ n. n < 10 ^ most) }
{
    if digits.is_empty() || digits.len() > most {
        return None;
    }
    let (count, number) = number_in_front(digits, most);
    if count < digits.len() {
        return None;
    }
    Some(number)
}

/// How many decimal digits stand in front, `most` at most, and the number that they write.
#[inline(always)]
pub(crate) fn number_in_front(octets: &[u8], most: usize) -> (usize, u64)
    requires { most ≤ 18 }
    ensures within { (result.0 ≤ length octets.now) × (result.0 ≤ most) }
    ensures digits { list_all is_ascii_digit (take result.0 octets.now) ≡ true }
    ensures others { result.0 < most → result.0 < length octets.now → is_ascii_digit (get_or octets.now result.0 0) ≡ false }
    ensures value { result.1 ≡ digits_value 10 (take result.0 octets.now) }
    ensures short { result.1 < 10 ^ most }
{
    let end = most.min(octets.len());
    let mut number = 0;
    for at in 0..end {
        // As wide as the number, so that it is not widened at each digit.
        let value = (octets[at] as u64).wrapping_sub(48);
        if value > 9 {
            return (at, number);
        }
        number = number * 10 + value;
    }
    (end, number)
}
