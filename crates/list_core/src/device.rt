//! What octets are read from and written to.
ghost use Rattle.std.specs.Prelude.{◌≡◌, ℕ, ◌<◌, ◌≤◌, List, Option, Bool, false, true, length, take, IfOk, MatchResult};
ghost use Rattle.std.specs.Io.KnownBytes.{Consumes, Appends};
ghost use Rattle.std.specs.Result.{is_err};
ghost use Rattle.list_core.specs.declared.device.InputEnd.{InputEnd};
ghost use Rattle.list_core.specs.Device.{ending_after, ConsumesSome, IsFront, KeepsOrForgets};

use thiserror::Error;

/// Whether a source can give more.
#[derive(Clone, Copy, Debug, PartialEq, Eq)]
pub enum InputEnd {
    /// More octets may come.
    Open,
    /// All octets were given.
    End,
    /// A read failed, and none is tried again.
    Failed,
}

/// A read or a write that failed.
#[derive(Clone, Copy, Debug, PartialEq, Eq, Error)]
#[error("reading or writing failed")]
pub struct DeviceFault;

/// What octets are read from, some at a time.
pub trait Source {
    /// The octets left, where they are told.
    ghost left: { Self → Option (List ℕ) };

    /// Whether more can come.
    ghost ending: { Self → InputEnd };

    /// Reads some of the next octets to the front of `into` and answers how many. 0 takes nothing
    /// and is the end. After a fault the source has failed.
    fn read_some(&mut self, into: &mut [u8]) -> Result<usize, DeviceFault>
        requires room { 0 < length into.old }
        requires open { ending self.old ≡ InputEnd.Open }
        ensures count { IfOk result (λ n. n ≤ length into.new) }
        ensures given { MatchResult result (λ n. Consumes (left self.old) (left self.new) (take n into.new))
            (λ _. KeepsOrForgets (left self.old) (left self.new)) }
        ensures ending { ending self.new ≡ ending_after result };

    /// Whether more can come.
    fn ending(&self) -> InputEnd
        ensures { result ≡ ending self.now };

    /// The next octets, as far as the source has them at hand, so that none is waited for.
    fn at_hand(&self) -> &[u8]
        ensures { IsFront (left self.now) result.now }
    {
        &[]
    }

    /// Takes so many of the next octets where it has them at hand, and answers whether it did. Where it did not, nothing was taken.
    fn take_at_hand(&mut self, count: usize) -> bool
        requires open { ending self.old ≡ InputEnd.Open }
        ensures taken { result ≡ true → ConsumesSome (left self.old) (left self.new) count }
        ensures kept { result ≡ false → left self.new ≡ left self.old }
        ensures ending { ending self.new ≡ ending self.old }
    {
        false
    }
}

/// What octets are written to, some at a time.
pub trait Sink {
    /// The octets held, where they are told.
    ghost contents: { Self → Option (List ℕ) };

    /// Whether a write has failed.
    ghost failed: { Self → Bool };

    /// Writes some octets from the front of `octets` and answers how many, at least one. After a
    /// fault the sink has failed.
    fn write_some(&mut self, octets: &[u8]) -> Result<usize, DeviceFault>
        requires some { 0 < length octets.now }
        requires works { failed self.old ≡ false }
        ensures count { IfOk result (λ n. (0 < n) × (n ≤ length octets.now)) }
        ensures taken { MatchResult result (λ n. Appends (contents self.old) (contents self.new) (take n octets.now))
            (λ _. KeepsOrForgets (contents self.old) (contents self.new)) }
        ensures fault { failed self.new ≡ is_err result };

    /// Whether a write has failed.
    fn has_failed(&self) -> bool
        ensures { result ≡ failed self.now };
}
