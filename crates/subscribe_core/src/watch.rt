//! The counter of samples.

ghost use Rattle.std.specs.Prelude.{◌≡◌, ◌<◌, ◌≤◌, ◌+◌, ◌-◌, ◌%◌, ◌++◌, ◌∷◌, ◌↔◌, [], ℕ, List, IsOk, IfOk, Some};
ghost use Rattle.block_core.specs.Period.{IsPeriod};
ghost use Rattle.subscribe_core.specs.Watch.{IsSeenLast, WatchesAfter, by_way as way_means, seen_after};
ghost use Rattle.subscribe_core.specs.computed.WatchAnswers.{last_by};

use std::marker::Model;
use thiserror::Error;

/// What a count of samples is after those before it.
#[derive(Clone, Copy, Debug, PartialEq, Eq)]
pub enum Seen {
    /// The first count in range.
    First,
    /// The count after the last one.
    Next,
    /// So many counts between the last one and this are missing.
    Skipped(u32),
    /// The last count again.
    Same,
    /// Half the period or more away from the last count.
    Late,
    /// Not below the period.
    OutOfRange,
}

/// Why there is no watch.
#[derive(Clone, Copy, Debug, PartialEq, Eq, Error)]
pub enum WatchFault {
    /// The period is not 2 to 65,536.
    #[error("the period is not 2 to 65536")]
    Period,
}

/// Watches the counter of a stream of samples (IEC 61850-9-2, smpCnt), which begins at 0 again after a period.
#[derive(Drop)]
pub struct Watch {
    period: u32,
    last: Option<u16>,
}

impl Model for Watch {
    ghost use Rattle.block_core.specs.Period.{IsPeriod};
    ghost use Rattle.subscribe_core.specs.Watch.{WatchState};
    ghost use Rattle.subscribe_core.specs.computed.WatchAnswers.{IsBelow};

    ghost Value = { WatchState };

    ghost view = { λ w. record { period = w.period; last = w.last } };

    ghost invariant = { λ w. IsPeriod w.period × IsBelow w.period w.last };
}

// What a count in range is, by its way from the last count.
fn by_way(period: u32, way: u32) -> Seen
    requires within { way < period }
    requires bounded { period ≤ 65536 }
    ensures { result ≡ way_means period way }
{
    if way == 0 {
        Seen::Same
    } else if way == 1 {
        Seen::Next
    } else if 2 * way < period {
        Seen::Skipped(way - 1)
    } else {
        Seen::Late
    }
}

impl Watch {
    /// A watch over counts below the period, which has seen none.
    ///
    /// # Errors
    ///
    /// `Period` exactly where the period is not 2 to 65,536.
    pub fn new(period: u32) -> Result<Watch, WatchFault>
        ensures range { IsOk result ↔ IsPeriod period }
        ensures period { IfOk result (λ w. w.period ≡ period) }
        ensures stands { IfOk result (λ w. WatchesAfter [] w) }
    {
        if period < 2 || 65536 < period {
            return Err(WatchFault::Period);
        }
        Ok(Watch { period, last: None })
    }

    // What a count is, by the last one.
    fn judge(&self, count: u16) -> Seen
        ensures { result ≡ seen_after self.now.period self.now.last count }
    {
        let count = u32::from(count);
        if self.period <= count {
            return Seen::OutOfRange;
        }
        match self.last {
            None => Seen::First,
            Some(last) => {
                let way = (count + (self.period - u32::from(last))) % self.period;
                by_way(self.period, way)
            }
        }
    }

    // What the next count is, by what is kept.
    fn step(&mut self, count: u16) -> Seen
        ensures seen { result ≡ seen_after self.old.period self.old.last count }
        ensures period { self.new.period ≡ self.old.period }
        ensures last { self.new.last ≡ last_by self.old.last count result }
    {
        let seen = self.judge(count);
        match seen {
            Seen::First | Seen::Next | Seen::Skipped(_) => self.last = Some(count),
            Seen::Same | Seen::Late | Seen::OutOfRange => {}
        }
        seen
    }

    /// What the next count is.
    ///
    /// A count not below the period is `OutOfRange`, the first in range `First`. Then, with the way from the last count on
    /// round the period: none is `Same`, one `Next`, less than half the period `Skipped` with the count of those missing, and
    /// anything else `Late`. The last count is that of the newest `First`, `Next` or `Skipped`.
    pub fn see(&mut self, count: u16) -> Seen
        // For all counts after which the watch stands: the answer is that which these with this count appended have last, and
        // the watch then stands after them.
        ensures seen { (counts : List ℕ) → WatchesAfter counts self.old → IsSeenLast self.old.period counts count result }
        ensures stands { (counts : List ℕ) → WatchesAfter counts self.old → WatchesAfter (counts ++ count ∷ []) self.new }

        // For callers: the same by what is kept.
        ensures step { result ≡ seen_after self.old.period self.old.last count }
        ensures period { self.new.period ≡ self.old.period }
        ensures last { self.new.last ≡ last_by self.old.last count result }
    {
        self.step(count)
    }
}
