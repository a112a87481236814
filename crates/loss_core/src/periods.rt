//! Which period a stream has, of those that are given.

ghost use Rattle.std.specs.Prelude.{◌≡◌, ◌≤◌, ℕ, IfOk, None, Some};
ghost use Rattle.loss_core.specs.Periods.{ArePeriods, IsPeriodOf, is_own, is_plain, last_number, period_of as period_is};

use ber_core::Octets;
use std::alloc::{AllocError, Allocator};
use std::marker::Model;

/// A period that is given: for the streams with an svID, or for all.
#[derive(Drop)]
pub struct StreamPeriod<A: Allocator> {
    id: Option<Octets<A>>,
    number: u32,
}

impl<A: Allocator> Model for StreamPeriod<A> {
    ghost use Rattle.loss_core.specs.Periods.{Period};

    ghost Value = { Period };

    ghost view = { λ p. record { id = p.id; number = p.number } };
}

impl<A: Allocator> StreamPeriod<A> {
    /// This many samples a second for all streams.
    pub fn for_all(number: u32) -> StreamPeriod<A>
        ensures { result ≡ record { id = None; number = number } }
    {
        StreamPeriod { id: None, number }
    }

    /// This many for the streams with an svID.
    pub fn for_id(alloc: A, id: &[u8], number: u32) -> Result<StreamPeriod<A>, AllocError>
        ensures { IfOk result (λ p. p ≡ record { id = Some id.now; number = number }) }
    {
        let id = Octets::try_from_slice(alloc, id)?;
        Ok(StreamPeriod {
            id: Some(id),
            number,
        })
    }

    /// How many samples it counts.
    pub fn number(&self) -> u32
        ensures { result ≡ self.now.number }
    {
        self.number
    }

    // Whether it is given for the streams with an svID.
    fn is_own(&self, id: &[u8]) -> bool
        ensures { result ≡ is_own id.now self.now }
    {
        match &self.id {
            None => false,
            Some(own) => own.as_slice() == id,
        }
    }

    // Whether it is given for all streams.
    fn is_plain(&self) -> bool
        ensures { result ≡ is_plain self.now }
    {
        self.id.is_none()
    }
}

// The last number that is given for the streams with an svID.
fn last_own<A: Allocator>(periods: &[StreamPeriod<A>], id: &[u8]) -> Option<u32>
    ensures { result ≡ last_number (is_own id.now) periods.now }
{
    let mut last = None;
    for period in periods {
        if period.is_own(id) {
            last = Some(period.number());
        }
    }
    last
}

// The last number that is given for all streams.
fn last_plain<A: Allocator>(periods: &[StreamPeriod<A>]) -> Option<u32>
    ensures { result ≡ last_number is_plain periods.now }
{
    let mut last = None;
    for period in periods {
        if period.is_plain() {
            last = Some(period.number());
        }
    }
    last
}

/// The period of a stream with this svID, among those that are given: the last one that is given for it, else the last one that
/// is given for all streams, else none.
pub fn period_of<A: Allocator>(periods: &[StreamPeriod<A>], id: &[u8]) -> Option<u32>
    ensures is { result ≡ period_is periods.now id.now }
    ensures range { ArePeriods periods.now → IsPeriodOf result }
{
    match last_own(periods, id) {
        Some(own) => Some(own),
        None => last_plain(periods),
    }
}
