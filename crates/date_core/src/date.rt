//! The date of a moment in UTC.
ghost use Rattle.std.specs.Prelude.{◌≡◌, ◌+◌, ◌<◌, ◌≤◌, pos};
ghost use Rattle.jiff_core.specs.Calendar.{IsCivilDate, day_count};
ghost use Rattle.date_core.specs.DateText.{date_text, moment_text, two_digits};

use jiff_core::civil::Date;

/// The microseconds of a day.
const DAY: u64 = 86_400_000_000;

/// The microseconds of a second.
const SECOND: u64 = 1_000_000;

/// The first moment of the year 10000.
const END: u64 = 253_402_300_800_000_000;

/// The days from -9999-01-01, the first date of the calendar's library, to 1970-01-01.
const EPOCH: u32 = 4_371_587;

/// The numbers below 100 in two digits each.
static PAIRS: [u8; 200] =
    *b"00010203040506070809101112131415161718192021222324252627282930313233343536373839404142434445464748495051525354555657585960616263646566676869707172737475767778798081828384858687888990919293949596979899";

// A number below 100 in two digits.
#[inline(always)]
fn digits_of(number: u32) -> [u8; 2]
    requires { number < 100 }
    ensures { result ≡ two_digits number }
{
    let at = 2 * number as usize;
    [PAIRS[at], PAIRS[at + 1]]
}

// The year, the month and the day so many days behind 1970-01-01.
fn civil_of(days: u32) -> (u32, u32, u32)
    requires { days < 2_932_897 }
    ensures low { 1970 ≤ result.0 }
    ensures civil { IsCivilDate (pos result.0) result.1 result.2 }
    ensures value { day_count (pos result.0) result.1 result.2 ≡ 4_371_953 + days }
{
    let date = Date::from_days_since_min(days + EPOCH);
    (date.year as u32, date.month as u32, date.day as u32)
}

// The text of a date and of the time of that day.
fn written(year: u32, month: u32, day: u32, time: u64) -> [u8; 27]
    requires year { year < 10_000 }
    requires month { month < 100 }
    requires day { day < 100 }
    requires time { time < 86_400_000_000 }
    ensures { result ≡ moment_text year month day time }
{
    let seconds = (time / SECOND) as u32;
    let fraction = (time % SECOND) as u32;
    let [y1, y2] = digits_of(year / 100);
    let [y3, y4] = digits_of(year % 100);
    let [m1, m2] = digits_of(month);
    let [d1, d2] = digits_of(day);
    let [h1, h2] = digits_of(seconds / 3600);
    let [n1, n2] = digits_of(seconds / 60 % 60);
    let [s1, s2] = digits_of(seconds % 60);
    let [f1, f2] = digits_of(fraction / 10_000);
    let [f3, f4] = digits_of(fraction / 100 % 100);
    let [f5, f6] = digits_of(fraction % 100);
    [
        y1, y2, y3, y4, b'-', m1, m2, b'-', d1, d2, b'T', h1, h2, b':', n1, n2, b':', s1, s2, b'.',
        f1, f2, f3, f4, f5, f6, b'Z',
    ]
}

/// The date of a moment in microseconds since 1970-01-01T00:00:00Z, as `2023-11-14T22:13:20.250000Z`: in UTC by the
/// Gregorian calendar, without leap seconds. `None` from the year 10000 on.
pub fn date_of(moment: u64) -> Option<[u8; 27]>
    ensures { result ≡ date_text moment }
{
    if END <= moment {
        return None;
    }
    let (year, month, day) = civil_of((moment / DAY) as u32);
    Some(written(year, month, day, moment % DAY))
}
