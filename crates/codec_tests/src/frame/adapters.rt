//! The adapters hand a reader and a writer all that they are lent, once for each call of theirs.

use list_core::{FromBuffered, FromRead, InputEnd, Sink, Source, ToWrite, put_all};
use std::alloc::Global;
use std::io;
use std::io::{BufReader, Read, Write};

/// Gives or takes one octet a call, and keeps how many calls there were, and how many octets it was lent at most.
#[derive(Drop)]
struct OneByOne {
    calls: usize,
    lent: usize,
}

impl Read for OneByOne {
    fn read(&mut self, buf: &mut [u8]) -> io::Result<usize> {
        self.calls = self.calls.saturating_add(1);
        self.lent = self.lent.max(buf.len());
        match buf.first_mut() {
            Some(octet) => {
                *octet = b'#';
                Ok(1)
            }
            None => Ok(0),
        }
    }
}

impl Write for OneByOne {
    fn write(&mut self, buf: &[u8]) -> io::Result<usize> {
        self.calls = self.calls.saturating_add(1);
        self.lent = self.lent.max(buf.len());
        Ok(buf.len().min(1))
    }

    fn flush(&mut self) -> io::Result<()> {
        Ok(())
    }
}

/// A device that was not called.
const UNCALLED: OneByOne = OneByOne { calls: 0, lent: 0 };

/// Whether the reader is lent all of so many octets, in one call.
fn is_lent_to_read(size: usize) -> bool {
    if size == 0 || 8192 < size {
        return false;
    }
    let mut room = [0; 8192];
    let mut device = UNCALLED;
    let count = FromRead::new(&mut device).read_some(&mut room[..size]);
    count == Ok(1) && device.calls == 1 && device.lent == size && room[0] == b'#'
}

/// Whether the writer is lent all of so many octets, in one call.
fn is_lent_to_write(size: usize) -> bool {
    if size == 0 || 8192 < size {
        return false;
    }
    let mut device = UNCALLED;
    let count = ToWrite::new(&mut device).write_some(&[7; 8192][..size]);
    count == Ok(1) && device.calls == 1 && device.lent == size
}

#[test]
fn devices_are_lent_all_octets(rt: HostRuntime) {
    for size in [1usize, 2, 9, 4096, 8192] {
        assert!(rt; is_lent_to_read(size), "{size} octets");
        assert!(rt; is_lent_to_write(size), "{size} octets");
    }
}

#[test]
fn a_write_of_one_octet_is_followed_by_the_rest(rt: HostRuntime) {
    let mut device = UNCALLED;
    {
        let mut sink = ToWrite::new(&mut device);
        assert!(rt; put_all(&mut sink, &[7; 300]) == Ok(()) && !sink.has_failed());
    }
    assert!(rt; device.calls == 300 && device.lent == 300);
}

/// How many octets a read of an open source gives.
fn count_read<S: Source>(source: &mut S, into: &mut [u8]) -> usize {
    match source.ending() {
        InputEnd::Open if !into.is_empty() => source.read_some(into).unwrap_or(0),
        _ => 0,
    }
}

/// Whether an open source has as many octets at hand, which it gives then.
fn is_at_hand<S: Source>(source: &mut S, into: &mut [u8]) -> bool {
    match source.ending() {
        InputEnd::Open => match source.at_hand().get(..into.len()) {
            Some(octets) => {
                into.copy_from_slice(octets);
                source.take_at_hand(into.len())
            }
            None => false,
        },
        _ => false,
    }
}

/// Whether of a reader that reads eight octets ahead those alone are at hand, and each once.
fn has_at_hand_what_was_read(alloc: Global) -> bool {
    let octets = b"0123456789abc".as_slice();
    let Ok(reader) = BufReader::with_capacity(alloc, 8, octets) else {
        return false;
    };
    let mut source = FromBuffered::new(reader);
    let (mut two, mut six, mut seven) = ([0; 2], [0; 6], [0; 7]);
    let nothing = !is_at_hand(&mut source, &mut two);
    let first = count_read(&mut source, &mut two) == 2 && two == *b"01";
    let fewer = !is_at_hand(&mut source, &mut seven) && seven == [0; 7];
    let rest = is_at_hand(&mut source, &mut six) && six == *b"234567";
    let none = !is_at_hand(&mut source, &mut two);
    let next = count_read(&mut source, &mut two) == 2 && two == *b"89";
    nothing && first && fewer && rest && none && next
}

#[test]
fn what_was_read_ahead_is_at_hand(rt: HostRuntime) {
    assert!(rt; has_at_hand_what_was_read(rt.alloc()));
    let mut source = FromRead::new(b"0123".as_slice());
    assert!(rt; source.at_hand().is_empty() && !source.take_at_hand(0));
}
