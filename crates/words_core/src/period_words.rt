//! The texts of periods.

ghost use Rattle.std.specs.Prelude.{◌≡◌, ◌≤◌, IfSome, None, Some, option_map};
ghost use Rattle.words_core.specs.CommandLine.{period_at, period_number as number_is};
ghost use Rattle.words_core.specs.computed.PrivateCalls.{AnswersPeriod};

use loss_core::StreamPeriod;
use std::alloc::Global;

/// Why a text says no period.
#[derive(Clone, Copy)]
pub enum PeriodError {
    /// It is no number from 2 to 65,536, and has none behind its last `=`.
    PeriodForm,
    /// Memory was refused.
    Memory,
}

// The number of samples that a text says.
fn period_number(text: &str) -> Option<u32>
    ensures { result ≡ number_is text.now }
{
    match text.parse::<u32>() {
        Ok(number) => in_range(number),
        Err(_) => None,
    }
}

// A number that is a period.
fn in_range(number: u32) -> Option<u32>
    ensures found { IfSome result (λ n. (n ≡ number) × (2 ≤ n) × (n ≤ 65536)) }
    ensures only { result ≡ None → 2 ≤ number → number ≤ 65536 → ⊥ }
{
    if number < 2 {
        return None;
    }
    if 65_536 < number {
        return None;
    }
    Some(number)
}

// The period of all streams that a text says.
fn of_all(text: &str) -> Result<StreamPeriod<Global>, PeriodError>
    ensures { AnswersPeriod (option_map (λ n. record { id = None; number = n }) (number_is text.now)) result }
{
    match period_number(text) {
        None => Err(PeriodError::PeriodForm),
        Some(number) => Ok(StreamPeriod::for_all(number)),
    }
}

// The period of the streams with an svID that a text says.
fn of_id(alloc: Global, id: &str, text: &str) -> Result<StreamPeriod<Global>, PeriodError>
    ensures { AnswersPeriod (option_map (λ n. record { id = Some id.now; number = n }) (number_is text.now)) result }
{
    match period_number(text) {
        None => Err(PeriodError::PeriodForm),
        Some(number) => match StreamPeriod::for_id(alloc, id.as_bytes(), number) {
            Ok(period) => Ok(period),
            Err(_) => Err(PeriodError::Memory),
        },
    }
}

/// The period that a text says: `N` for all streams, or `ID=N`, divided at the last `=`, for those with the svID `ID`.
pub fn read_period(alloc: Global, text: &str) -> Result<StreamPeriod<Global>, PeriodError>
    ensures { AnswersPeriod (period_at text.now) result }
{
    match text.rsplit_once('=') {
        None => of_all(text),
        Some((id, digits)) => of_id(alloc, id, digits),
    }
}
