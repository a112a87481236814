//! Sources and sinks over the readers and writers of the standard library.
ghost use Rattle.std.specs.Prelude.{◌≡◌, ◌<◌, ◌≤◌, false, length, take, IfOk, MatchResult};
ghost use Rattle.std.specs.Io.KnownBytes.{Appends, Consumes, IsAtEnd, Keeps};
ghost use Rattle.std.specs.Result.{is_err};
ghost use Rattle.list_core.specs.Device.{ending_after};
ghost use Rattle.list_core.specs.declared.device.InputEnd.{InputEnd};

use crate::device::{DeviceFault, InputEnd, Sink, Source};
use std::io::{Read, Write};

/// A source of what a reader gives. No read is tried again.
#[derive(Drop)]
pub struct FromRead<R> {
    pub(crate) reader: R,
    pub(crate) ending: InputEnd,
}

impl<R: Read> FromRead<R> {
    /// An open source of what the reader gives.
    pub fn new(reader: R) -> FromRead<R>
        ensures left { ⟦<FromRead<R> as Source>⟧.left result ≡ R.remaining reader }
        ensures open { ⟦<FromRead<R> as Source>⟧.ending result ≡ InputEnd.Open }
    {
        FromRead {
            reader,
            ending: InputEnd::Open,
        }
    }
}

impl<R: Read> Source for FromRead<R> {
    ghost left = { λ s. R.remaining s.reader };

    ghost ending = { λ s. s.ending };

    /// Reads once. The end is told only where the reader has nothing left, and at a fault nothing was
    /// taken.
    fn read_some(&mut self, into: &mut [u8]) -> Result<usize, DeviceFault>
        requires room { 0 < length into.old }
        requires open { ⟦<FromRead<R> as Source>⟧.ending self.old ≡ InputEnd.Open }
        ensures count { IfOk result (λ n. n ≤ length into.new) }
        ensures given { MatchResult result (λ n. Consumes (⟦<FromRead<R> as Source>⟧.left self.old) (⟦<FromRead<R> as Source>⟧.left self.new) (take n into.new))
            (λ _. Keeps (⟦<FromRead<R> as Source>⟧.left self.old) (⟦<FromRead<R> as Source>⟧.left self.new)) }
        ensures ending { ⟦<FromRead<R> as Source>⟧.ending self.new ≡ ending_after result }
        ensures end { IfOk result (λ n. n ≡ 0 → IsAtEnd (⟦<FromRead<R> as Source>⟧.left self.new)) }
    {
        match self.reader.read(into) {
            Ok(0) => {
                self.ending = InputEnd::End;
                Ok(0)
            }
            Ok(n) => Ok(n),
            Err(_) => {
                self.ending = InputEnd::Failed;
                Err(DeviceFault)
            }
        }
    }

    fn ending(&self) -> InputEnd {
        self.ending
    }
}

/// A sink that hands its octets to a writer. A write that takes none is a fault, and no write is
/// tried again.
#[derive(Drop)]
pub struct ToWrite<W> {
    writer: W,
    failed: bool,
}

impl<W: Write> ToWrite<W> {
    /// A sink that has not failed, of what the writer holds.
    pub fn new(writer: W) -> ToWrite<W>
        ensures contents { ⟦<ToWrite<W> as Sink>⟧.contents result ≡ W.contents writer }
        ensures works { ⟦<ToWrite<W> as Sink>⟧.failed result ≡ false }
    {
        ToWrite {
            writer,
            failed: false,
        }
    }
}

impl<W: Write> Sink for ToWrite<W> {
    ghost contents = { λ s. W.contents s.writer };

    ghost failed = { λ s. s.failed };

    /// Writes once. At a fault nothing was taken.
    fn write_some(&mut self, octets: &[u8]) -> Result<usize, DeviceFault>
        requires some { 0 < length octets.now }
        requires works { ⟦<ToWrite<W> as Sink>⟧.failed self.old ≡ false }
        ensures count { IfOk result (λ n. (0 < n) × (n ≤ length octets.now)) }
        ensures taken { MatchResult result (λ n. Appends (⟦<ToWrite<W> as Sink>⟧.contents self.old) (⟦<ToWrite<W> as Sink>⟧.contents self.new) (take n octets.now))
            (λ _. Keeps (⟦<ToWrite<W> as Sink>⟧.contents self.old) (⟦<ToWrite<W> as Sink>⟧.contents self.new)) }
        ensures fault { ⟦<ToWrite<W> as Sink>⟧.failed self.new ≡ is_err result }
    {
        match self.writer.write(octets) {
            Ok(n) if n > 0 => Ok(n),
            _ => {
                self.failed = true;
                Err(DeviceFault)
            }
        }
    }

    fn has_failed(&self) -> bool {
        self.failed
    }
}
