//! Devices that are waited for. "Not yet" of the system is no fault: a pipe may be full, or still empty, and whoever made it may
//! have set it not to block. No call of the kit waits for a device, so the program sleeps a little and tries again.
ghost use Rattle.std.specs.Prelude.{◌≡◌, ◌≢◌, ◌⊎◌, IfErr, false, true};
ghost use Rattle.std.specs.Io.{ReadsAtMost, WritesAtMost};
ghost use Rattle.std.specs.Io.KnownBytes.{ReadConsumes, WriteAppends};
ghost use Rattle.std.specs.IoError.{error_kind};

use std::io::{self, Error, ErrorKind, Read, Write};
use std::rt::Clock;
use std::thread;
use std::time::Duration;

/// How many milliseconds a sleep takes at most. The first one takes 1, each further one 1 more: who is slow just now costs
/// little time, and who is slow for long little work.
const LONGEST: u64 = 20;

/// A reader or a writer of which a call goes on where the system says that it would have to wait, or that a signal came.
#[derive(Drop)]
pub struct Patient<'a, C, D: Drop> {
    clock: &'a C,
    device: D,
}

impl<'a, C: Clock, D: Drop> Patient<'a, C, D> {
    /// This device, waited for by this clock.
    pub fn new(clock: &'a C, device: D) -> Patient<'a, C, D> {
        Patient { clock, device }
    }

    // Whether a call that failed so is to be made again, which is slept for.
    fn waits(&self, error: &Error, turn: u64) -> bool
        ensures not_yet { result ≡ true → (error_kind error.now ≡ ErrorKind.WouldBlock) ⊎ (error_kind error.now ≡ ErrorKind.Interrupted) }
        ensures fault { result ≡ false → (error_kind error.now ≢ ErrorKind.WouldBlock) × (error_kind error.now ≢ ErrorKind.Interrupted) }
    {
        match error.kind() {
            ErrorKind::WouldBlock => {
                thread::sleep(self.clock, Duration::from_millis(turn.min(LONGEST)));
                true
            }
            ErrorKind::Interrupted => true,
            _ => false,
        }
    }
}

impl<C: Clock, R: Read + Drop> Read for Patient<'_, C, R> {
    ghost remaining = { λ s. R.remaining s.device };

    fn read(&mut self, buf: &mut [u8]) -> io::Result<usize>
        ensures bound { ReadsAtMost result buf.new }
        ensures bytes { ReadConsumes (R.remaining self.old.device) (R.remaining self.new.device) result buf.new }
        ensures waits { IfErr result (λ e. error_kind e ≢ ErrorKind.WouldBlock) }
        ensures goes_on { IfErr result (λ e. error_kind e ≢ ErrorKind.Interrupted) }
    {
        for turn in 1..u64::MAX {
            match self.device.read(buf) {
                Ok(count) => return Ok(count),
                Err(error) => {
                    if !self.waits(&error, turn) {
                        return Err(error);
                    }
                }
            }
        }
        Err(Error::from(ErrorKind::TimedOut))
    }
}

impl<C: Clock, W: Write + Drop> Write for Patient<'_, C, W> {
    ghost contents = { λ s. W.contents s.device };

    fn write(&mut self, buf: &[u8]) -> io::Result<usize>
        ensures bound { WritesAtMost result buf.now }
        ensures bytes { WriteAppends (W.contents self.old.device) (W.contents self.new.device) result buf.now }
        ensures waits { IfErr result (λ e. error_kind e ≢ ErrorKind.WouldBlock) }
        ensures goes_on { IfErr result (λ e. error_kind e ≢ ErrorKind.Interrupted) }
    {
        for turn in 1..u64::MAX {
            match self.device.write(buf) {
                Ok(count) => return Ok(count),
                Err(error) => {
                    if !self.waits(&error, turn) {
                        return Err(error);
                    }
                }
            }
        }
        Err(Error::from(ErrorKind::TimedOut))
    }

    fn flush(&mut self) -> io::Result<()> {
        self.device.flush()
    }
}
