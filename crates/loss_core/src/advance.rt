//! How far the samples of a stream went on.

ghost use Rattle.std.specs.Prelude.{◌≡◌, ◌+◌, ◌%◌, ◌<◌, ◌≤◌, IsTrue};
ghost use Rattle.loss_core.specs.declared.advance.Advance.TheVariants.{Ahead};
ghost use Rattle.loss_core.specs.Advance.{IsAdvance, advance_of};
ghost use Rattle.loss_core.specs.computed.AdvanceSteps.{advance_by, most as most_is, nearest_to as nearest_is};

// Half a second, in microseconds.
const HALF_A_SECOND: u64 = 500_000;

/// How far a sample is from the newest one before it.
#[derive(Clone, Copy, Debug, PartialEq, Eq)]
pub enum Advance {
    /// So many samples further, at least one.
    Ahead(u64),
    /// So many samples back, or none.
    Back(u32),
}

// The greatest number that is at most half a second above the samples due, counted from a second back.
fn most(period: u32, elapsed: u64) -> u64
    requires { period ≤ 65536 }
    ensures { result ≡ most_is period elapsed }
{
    let due = u128::from(elapsed) * u128::from(period) + 1_000_000 * u128::from(period);
    ((2 * due + 1_000_000 * u128::from(period)) / 2_000_000) as u64
}

// The number with a rest by the period that is nearest to the samples due, counted from a second back.
fn nearest(period: u32, elapsed: u64, rest: u32) -> u64
    requires period { period ≤ 65536 }
    requires some { 0 < period }
    requires rest { rest < period }
    ensures { result ≡ nearest_is period elapsed rest }
{
    let top = most(period, elapsed);
    top - (u128::from(top) + u128::from(period - rest)) as u64 % u64::from(period)
}

// The advance that a number means which is counted from a second back.
fn counted(period: u32, number: u64) -> Advance
    ensures { result ≡ advance_of period number }
{
    if u64::from(period) < number {
        Advance::Ahead(number - u64::from(period))
    } else {
        Advance::Back(period - number as u32)
    }
}

// The count behind another.
fn next_count(period: u32, from: u32) -> u32
    requires { from < period }
    ensures { result ≡ (from + 1) % period }
{
    if from + 1 < period { from + 1 } else { 0 }
}

// Whether a count is the next behind another, and comes so soon that no other number is as near as one.
fn is_next(period: u32, elapsed: u64, from: u32, to: u32) -> bool
    requires { from < period }
    ensures { IsTrue result → advance_by period elapsed from to ≡ Ahead 1 }
{
    if period == 1 {
        return false;
    }
    elapsed <= HALF_A_SECOND && to == next_count(period, from)
}

// The advance, whatever the counts and the time. A call of its own, since nearly every sample is the next one.
#[inline(never)]
fn any_advance(period: u32, elapsed: u64, from: u32, to: u32) -> Advance
    requires some { 0 < period }
    requires period { period ≤ 65536 }
    requires from { from < period }
    requires to { to < period }
    ensures { result ≡ advance_by period elapsed from to }
{
    let rest = (to + (period - from)) % period;
    counted(period, nearest(period, elapsed, rest))
}

/// The advance from one count to another after so many microseconds: the whole number that is congruent to their difference
/// modulo the period and nearest to what the time says at a rate of `period` samples a second; of two as near it is the greater.
pub fn advance_between(period: u32, elapsed: u64, from: u32, to: u32) -> Advance
    requires some { 0 < period }
    requires period { period ≤ 65536 }
    requires from { from < period }
    requires to { to < period }
    ensures is { IsAdvance period elapsed from to result }
    ensures step { result ≡ advance_by period elapsed from to }
{
    if is_next(period, elapsed, from, to) {
        Advance::Ahead(1)
    } else {
        any_advance(period, elapsed, from, to)
    }
}
