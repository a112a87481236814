//! Readers and writers for tests: over memory, which take few octets a call and fail when told to, and over nothing.
ghost use Rattle.std.specs.Prelude.{◌≡◌, ◌<◌, false, Some};

use list_core::{DeviceFault, InputEnd, Sink, Source};
use std::alloc::Global;
use std::io;
use std::io::{Read, Write};

/// No read or write fails.
pub const NEVER: u64 = u64::MAX;

/// Gives at most so many octets a read, and fails at one read alone: a later one would be answered.
#[derive(Drop)]
pub struct Give<'a> {
    octets: &'a [u8],
    at_most: usize,
    reads: u64,
    fails_at: u64,
    ending: InputEnd,
    ghost some: { 0 < at_most },
}

impl Give<'_> {
    /// How many octets it has not given.
    pub fn octets_left(&self) -> usize {
        self.octets.len()
    }

    /// How often it was read, the read that failed among them.
    pub fn reads(&self) -> u64 {
        self.reads
    }
}

impl Source for Give<'_> {
    ghost left = { λ s. Some s.octets.now };

    ghost ending = { λ s. s.ending };

    fn read_some(&mut self, into: &mut [u8]) -> Result<usize, DeviceFault> {
        let fails = self.reads == self.fails_at;
        self.reads = self.reads.saturating_add(1);
        if fails {
            self.ending = InputEnd::Failed;
            return Err(DeviceFault);
        }
        let octets = self.octets;
        let count = octets.len().min(self.at_most).min(into.len());
        if count == 0 {
            self.ending = InputEnd::End;
            return Ok(0);
        }
        into[..count].copy_from_slice(&octets[..count]);
        self.octets = &octets[count..];
        Ok(count)
    }

    fn ending(&self) -> InputEnd {
        self.ending
    }
}

/// An open source of these octets.
pub fn source_of(octets: &[u8], at_most: usize, fails_at: u64) -> Give<'_>
    requires { 0 < at_most }
    ensures { result.ending ≡ InputEnd.Open }
{
    Give {
        octets,
        at_most,
        reads: 0,
        fails_at,
        ending: InputEnd::Open,
    }
}

/// Takes at most so many octets a write, and fails at one write alone: a later one would be answered.
#[derive(Drop)]
pub struct Keep {
    pub octets: Vec<u8>,
    at_most: usize,
    writes: u64,
    fails_at: u64,
    failed: bool,
    ghost some: { 0 < at_most },
}

impl Keep {
    /// How often it was written to, the write that failed among them.
    pub fn writes(&self) -> u64 {
        self.writes
    }
}

impl Sink for Keep {
    ghost contents = { λ s. Some s.octets.items };

    ghost failed = { λ s. s.failed };

    fn write_some(&mut self, octets: &[u8]) -> Result<usize, DeviceFault> {
        let fails = self.writes == self.fails_at;
        self.writes = self.writes.saturating_add(1);
        if fails {
            self.failed = true;
            return Err(DeviceFault);
        }
        let count = octets.len().min(self.at_most);
        match self.octets.extend_from_slice(&octets[..count]) {
            Ok(()) => Ok(count),
            Err(_) => {
                self.failed = true;
                Err(DeviceFault)
            }
        }
    }

    fn has_failed(&self) -> bool {
        self.failed
    }
}

/// A sink that has not failed, over no octets.
pub fn sink_of(alloc: Global, at_most: usize, fails_at: u64) -> Keep
    requires { 0 < at_most }
    ensures { result.failed ≡ false }
{
    Keep {
        octets: Vec::new(alloc),
        at_most,
        writes: 0,
        fails_at,
        failed: false,
    }
}

/// Gives one octet without end.
#[derive(Drop)]
pub struct Endless(pub u8);

impl Read for Endless {
    fn read(&mut self, buf: &mut [u8]) -> io::Result<usize> {
        for octet in buf.iter_mut() {
            *octet = self.0;
        }
        Ok(buf.len())
    }
}

/// Takes nothing.
#[derive(Drop)]
pub struct FullDisk;

impl Write for FullDisk {
    fn write(&mut self, _buf: &[u8]) -> io::Result<usize> {
        Ok(0)
    }

    fn flush(&mut self) -> io::Result<()> {
        Ok(())
    }
}

/// Takes everything, and counts the lines.
#[derive(Drop)]
pub struct CountsLines(pub u64);

impl Write for CountsLines {
    fn write(&mut self, buf: &[u8]) -> io::Result<usize> {
        for octet in buf {
            if *octet == b'\n' {
                self.0 = self.0.saturating_add(1);
            }
        }
        Ok(buf.len())
    }

    fn flush(&mut self) -> io::Result<()> {
        Ok(())
    }
}

/// Kinds of failure after which others try again, and the one that says nothing.
pub const KINDS: [io::ErrorKind; 4] = [
    io::ErrorKind::Interrupted,
    io::ErrorKind::WouldBlock,
    io::ErrorKind::TimedOut,
    io::ErrorKind::Other,
];

/// Fails with this kind at its first call alone: a second one would be answered.
#[derive(Drop)]
pub struct FailsOnce {
    pub kind: io::ErrorKind,
    pub calls: u64,
}

impl Read for FailsOnce {
    fn read(&mut self, buf: &mut [u8]) -> io::Result<usize> {
        self.calls = self.calls.saturating_add(1);
        if self.calls == 1 {
            return Err(io::Error::from(self.kind));
        }
        buf.fill(b'#');
        Ok(buf.len())
    }
}

impl Write for FailsOnce {
    fn write(&mut self, buf: &[u8]) -> io::Result<usize> {
        self.calls = self.calls.saturating_add(1);
        if self.calls == 1 {
            return Err(io::Error::from(self.kind));
        }
        Ok(buf.len())
    }

    fn flush(&mut self) -> io::Result<()> {
        Ok(())
    }
}
